//! Products, sums and quotients of natural numbers that fit 128 signed bits.
ghost use Rattle.std.specs.Prelude.{◌≡◌, ◌+◌, ◌*◌, ◌<◌, ◌≤◌, ◌^◌, IfSome, pos};
ghost use Rattle.mp_model.specs.GuardedBursts.{quotient_up};
ghost use Rattle.mp_plan.specs.Stated.{fitting};

/// The product, or `None` exactly where it exceeds 128 signed bits.
#[tactic(auto, using(crate::proofs::Fitting::some_fits, crate::proofs::Fitting::none_fits))]
pub fn product(a: u128, b: u128) -> Option<u128>
    requires first { a < 2 ^ 127 }
    requires second { b < 2 ^ 127 }
    ensures value { result ≡ fitting (a * b) }
    ensures fits { IfSome result (λ n. n < 2 ^ 127) }
{
    match mp_num::mul(a as i128, b as i128) {
        Some(n) => Some(n as u128),
        None => None,
    }
}

/// The sum, or `None` exactly where it exceeds 128 signed bits.
#[tactic(auto, using(crate::proofs::Fitting::some_fits, crate::proofs::Fitting::none_fits))]
pub fn sum(a: u128, b: u128) -> Option<u128>
    requires first { a < 2 ^ 127 }
    requires second { b < 2 ^ 127 }
    ensures value { result ≡ fitting (a + b) }
    ensures fits { IfSome result (λ n. n < 2 ^ 127) }
{
    match mp_num::add(a as i128, b as i128) {
        Some(n) => Some(n as u128),
        None => None,
    }
}

/// The quotient, rounded up.
pub fn quotient_up(x: u128, y: u128) -> u128
    requires divisor { 1 ≤ y }
    requires first { x < 2 ^ 127 }
    requires second { y < 2 ^ 127 }
    ensures value { result ≡ quotient_up x y }
    ensures fits { result < 2 ^ 127 }
{
    (x + (y - 1)) / y
}
