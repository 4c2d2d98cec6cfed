//! Products and sums of natural numbers that fit 128 signed bits.
ghost use Rattle.std.specs.Prelude.{◌≡◌, ◌+◌, ◌*◌, ◌<◌, ◌^◌, IfSome, pos};
ghost use Rattle.mp_drift.specs.Stated.{fitting};

use mp_num::{add, mul};

/// The product, or `None` exactly where it exceeds 128 signed bits.
#[tactic(auto, using(crate::proofs::Fitting::some_fits, crate::proofs::Fitting::none_fits))]
pub fn product(a: u128, b: u128) -> Option<u128>
    requires first { a < 2 ^ 127 }
    requires second { b < 2 ^ 127 }
    ensures value { result ≡ fitting (a * b) }
    ensures fits { IfSome result (λ n. n < 2 ^ 127) }
{
    match mul(a as i128, b as i128) {
        Some(n) => Some(n as u128),
        None => None,
    }
}

/// The sum, or `None` exactly where it exceeds 128 signed bits.
#[tactic(auto, using(crate::proofs::Fitting::some_fits, crate::proofs::Fitting::none_fits))]
pub fn sum(a: u128, b: u128) -> Option<u128>
    requires first { a < 2 ^ 127 }
    requires second { b < 2 ^ 127 }
    ensures value { result ≡ fitting (a + b) }
    ensures fits { IfSome result (λ n. n < 2 ^ 127) }
{
    match add(a as i128, b as i128) {
        Some(n) => Some(n as u128),
        None => None,
    }
}

/// The same number with a sign.
pub fn signed(n: u128) -> i128
    requires { n < 2 ^ 127 }
    ensures { result ≡ pos n }
{
    n as i128
}
