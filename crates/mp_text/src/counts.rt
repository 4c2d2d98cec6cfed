//! Counts: `0`, or 1 to 9 digits without a leading zero.
ghost use Rattle.std.specs.Prelude.{◌≡◌, ◌≤◌, ◌<◌, ◌^◌, length, true, IfSome};
ghost use Rattle.std.specs.List.{list_all};
ghost use Rattle.std.specs.Str.Parse.{digits_value};
ghost use Rattle.mp_model.specs.Stream.{is_digit, is_plain, count_of};

pub(crate) fn are_digits(bytes: &[u8]) -> bool
    ensures { result ≡ list_all is_digit bytes.now }
{
    bytes.iter().all(|b| *b >= b'0' && *b <= b'9')
}

// There is a first byte, and it is no leading zero.
pub(crate) fn is_plain(bytes: &[u8]) -> bool
    ensures { result ≡ is_plain bytes.now }
{
    match bytes {
        [] => false,
        [_] => true,
        [first, ..] => *first != b'0',
    }
}

fn value_of(digits: &[u8]) -> u64
    requires few { length digits.now ≤ 9 }
    requires digits { list_all is_digit digits.now ≡ true }
    ensures value { result ≡ digits_value 10 digits.now }
    ensures few { result < 10 ^ 9 }
{
    let mut number = 0u64;
    for digit in digits {
        number = number * 10 + u64::from(*digit - b'0');
    }
    number
}

/// The number of a count, or `None` where the bytes are none.
pub fn read_count(bytes: &[u8]) -> Option<u64>
    ensures value { result ≡ count_of bytes.now }
    ensures few { IfSome result (λ n. n < 10 ^ 9) }
{
    if is_plain(bytes) && are_digits(bytes) && bytes.len() <= 9 {
        Some(value_of(bytes))
    } else {
        None
    }
}
