//! Big numbers: `0`, or digits without a leading zero, of at most 2^127 - 1.
ghost use Rattle.std.specs.Prelude.{◌≡◌, ◌<◌, ◌≤◌, ◌^◌, true, Some, None, MatchOption, pos};
ghost use Rattle.std.specs.List.{list_all};
ghost use Rattle.std.specs.Str.Parse.{digits_value};
ghost use Rattle.mp_model.specs.Stream.{is_digit};
ghost use Rattle.mp_text.specs.Bigs.{big_of};

use crate::counts::{are_digits, is_plain};

const MOST: u128 = 0x7fff_ffff_ffff_ffff_ffff_ffff_ffff_ffff;

// The number of the digits, where it is at most `MOST`.
fn value_within(digits: &[u8]) -> Option<u128>
    requires { list_all is_digit digits.now ≡ true }
    ensures { MatchOption result (2 ^ 127 ≤ digits_value 10 digits.now) (λ n. (n ≡ digits_value 10 digits.now) × (n < 2 ^ 127)) }
{
    let mut number = 0u128;
    for digit in digits {
        let unit = u128::from(*digit - b'0');
        if number > (MOST - unit) / 10 {
            return None;
        }
        number = number * 10 + unit;
    }
    Some(number)
}

/// The number of the bytes, or `None` exactly where they are none of at most 2^127 - 1.
pub fn read_big(bytes: &[u8]) -> Option<i128>
    ensures value { result ≡ big_of bytes.now }
{
    if !is_plain(bytes) || !are_digits(bytes) {
        return None;
    }
    let Some(number) = value_within(bytes) else {
        return None;
    };
    Some(number as i128)
}
