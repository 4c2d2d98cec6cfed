//! Exact arithmetic on whole numbers of 128 bits: each call gives the exact result, or `None` exactly where it has no place.
#![tactic(auto)]

ghost use Rattle.std.specs.Prelude.{◌≡◌, ◌+◌, ◌*◌, ◌<◌, ◌≤◌, ◌+ℤ◌, ◌-ℤ◌, ◌*ℤ◌, ◌≤ℤ◌, ◌<ℤ◌, pos};
ghost use Rattle.std.specs.Int.{IsGcd};
ghost use Rattle.mp_num.specs.Checked.{within, compared};
ghost use Rattle.mp_num.specs.Divisor.{gcd_of, reduced};
ghost use Rattle.mp_num.specs.Fraction.{IsLowest, lowest_terms};

mod numbers;
pub mod rows;

pub use crate::numbers::Numbers;
use crate::rows::{common_divisor, quotient};
use std::cmp::Ordering;
use std::marker::Model;

/// The product, or `None` exactly where it is outside 128 bits.
#[tactic(auto, using(crate::proofs::CheckedLemmas::within_from_SomeIff))]
pub fn mul(a: i128, b: i128) -> Option<i128>
    ensures { result ≡ within (a *ℤ b) }
{
    a.checked_mul(b)
}

/// The sum, or `None` exactly where it is outside 128 bits.
#[tactic(auto, using(crate::proofs::CheckedLemmas::within_from_SomeIff))]
pub fn add(a: i128, b: i128) -> Option<i128>
    ensures { result ≡ within (a +ℤ b) }
{
    a.checked_add(b)
}

/// The difference, or `None` exactly where it is outside 128 bits.
#[tactic(auto, using(crate::proofs::CheckedLemmas::within_from_SomeIff))]
pub fn sub(a: i128, b: i128) -> Option<i128>
    ensures { result ≡ within (a -ℤ b) }
{
    a.checked_sub(b)
}

/// The greatest common divisor, 0 for two zeros.
pub fn gcd(a: u128, b: u128) -> u128
    ensures value { result ≡ gcd_of a b }
    ensures greatest { IsGcd a b result }
{
    let mut x = a;
    let mut y = b;
    while y != 0 {
        let rest = x % y;
        x = y;
        y = rest;
    }
    x
}

/// The greatest number whose square is at most `v`.
pub fn isqrt(v: u128) -> u128
    ensures square_le { result * result ≤ v }
    ensures next_square_gt { v < (result + 1) * (result + 1) }
{
    v.isqrt()
}

/// The quotient by a positive number, rounded down.
pub fn div_floor(a: i128, b: i128) -> i128
    requires { pos 1 ≤ℤ b }
    ensures at_most { (result *ℤ b) ≤ℤ a }
    ensures next_above { a <ℤ (result *ℤ b +ℤ b) }
{
    a.div_euclid(b)
}

/// The quotient by a positive number, rounded up.
pub fn div_ceil(a: i128, b: i128) -> i128
    requires { pos 1 ≤ℤ b }
    ensures at_least { a ≤ℤ (result *ℤ b) }
    ensures last_below { (result *ℤ b -ℤ b) <ℤ a }
{
    let floor = a.div_euclid(b);
    if a.rem_euclid(b) == 0 {
        floor
    } else {
        floor + 1
    }
}

/// Divides all entries by their greatest common divisor.
/// A row of zeros stays, and so does one whose divisor is 2^127, which has no place in 128 signed bits.
pub fn row_gcd(row: &mut [i128])
    ensures { row.new ≡ reduced row.old }
{
    let mut common: u128 = 0;
    for x in row.iter() {
        common = gcd(common, x.unsigned_abs());
    }
    if common == 0 || common > i128::MAX as u128 {
        return;
    }
    let divisor = common as i128;
    for x in row.iter_mut() {
        *x = *x / divisor;
    }
}

/// A fraction in lowest terms, with a denominator of at least 1.
#[derive(Clone, Copy, PartialEq, Eq, Debug)]
pub struct Frac {
    num: i128,
    den: i128,
}

impl Model for Frac {
    ghost use Rattle.mp_num.specs.Fraction.{Fraction, IsLowest};

    ghost Value = { Fraction };

    ghost view = { λ f. record { num = f.num; den = f.den } };

    ghost invariant = { λ f. IsLowest f.num f.den };

    ghost inverse = { λ f. record { num = f.num; den = f.den } };
}

impl Frac {
    /// The fraction of a number and a positive number.
    pub fn new(num: i128, den: i128) -> Frac
        requires { pos 1 ≤ℤ den }
        ensures value { result ≡ lowest_terms num den }
        ensures same { (result.num *ℤ den) ≡ (num *ℤ result.den) }
        ensures lowest { IsLowest result.num result.den }
    {
        let common = common_divisor(den, num);
        Frac {
            num: quotient(num, common),
            den: quotient(den, common),
        }
    }

    /// The numerator.
    pub fn num(&self) -> i128
        ensures value { result ≡ self.now.num }
        ensures lowest { IsLowest result self.now.den }
    {
        self.num
    }

    /// The denominator, which is at least 1.
    pub fn den(&self) -> i128
        ensures value { result ≡ self.now.den }
        ensures lowest { IsLowest self.now.num result }
    {
        self.den
    }
}

/// Compares two fractions by their cross products, or `None` exactly where one of the two is outside 128 bits.
pub fn frac_cmp(a: &Frac, b: &Frac) -> Option<Ordering>
    ensures { result ≡ compared (within (a.now.num *ℤ b.now.den)) (within (b.now.num *ℤ a.now.den)) }
{
    let left = mul(a.num, b.den)?;
    let right = mul(b.num, a.den)?;
    Some(left.cmp(&right))
}

#[cfg(test)]
mod tests {
    use super::*;

    const MIN: i128 = i128::MIN;

    const MAX: i128 = i128::MAX;

    #[test]
    fn gives_exact_results(rt: HostRuntime) {
        assert_eq!(rt; mul(1 << 63, -(1 << 64)), Some(MIN));
        assert_eq!(rt; mul(1 << 63, 1 << 64), None);
        assert_eq!(rt;
            mul(13043817825332782212, 13043817825332782212),
            Some(170141183460469231722567801800623612944)
        );
        assert_eq!(rt; add(MAX, 1), None);
        assert_eq!(rt; add(MIN, MAX), Some(-1));
        assert_eq!(rt; sub(0, MIN), None);
        assert_eq!(rt; sub(-1, MAX), Some(MIN));
        for (a, b, divisor) in [
            (0, 0, 0),
            (0, 7, 7),
            (12, 18, 6),
            (17, 5, 1),
            (u128::MAX, 3 << 64, 3),
        ] {
            assert_eq!(rt; gcd(a, b), divisor, "the divisor of {a} and {b}");
        }
        for (v, root) in [
            (0, 0),
            (3, 1),
            (4, 2),
            (12096, 109),
            (u128::MAX, u64::MAX as u128),
        ] {
            assert_eq!(rt; isqrt(v), root, "the root of {v}");
        }
        for (a, b, floor, ceil) in [
            (7, 2, 3, 4),
            (-7, 2, -4, -3),
            (6, 3, 2, 2),
            (-6, 3, -2, -2),
            (0, 5, 0, 0),
            (MIN, 1, MIN, MIN),
        ] {
            assert!(rt; b >= 1);
            assert_eq!(rt; div_floor(a, b), floor, "{a} by {b}, down");
            assert_eq!(rt; div_ceil(a, b), ceil, "{a} by {b}, up");
        }
    }

    #[test]
    fn reduces_rows_and_fractions(rt: HostRuntime) {
        for (row, reduced) in [
            ([4, -6, 0], [2, -3, 0]),
            ([0, 0, 0], [0, 0, 0]),
            ([MIN, 0, MIN], [MIN, 0, MIN]),
            ([MIN, 6, 0], [-(1 << 126), 3, 0]),
            ([5, 1, 5], [5, 1, 5]),
        ] {
            let mut now = row;
            row_gcd(&mut now);
            assert_eq!(rt; now, reduced);
        }
        let half = Frac::new(-6, 12);
        assert_eq!(rt; half.num(), -1);
        assert_eq!(rt; half.den(), 2);
        assert!(rt; half == Frac::new(-1, 2));
        assert_eq!(rt; frac_cmp(&half, &Frac::new(-1, 3)), Some(Ordering::Less));
        assert_eq!(rt;
            frac_cmp(&Frac::new(2, 3), &Frac::new(4, 6)),
            Some(Ordering::Equal)
        );
        assert_eq!(rt; frac_cmp(&Frac::new(MAX, 1), &Frac::new(1, 2)), None);
        assert_eq!(rt; frac_cmp(&Frac::new(1, 2), &Frac::new(MAX, 1)), None);
        let mut row = [6, 1, 3];
        assert!(rt; rows::combine(&mut row, &[4, 2, -8], 0));
        assert_eq!(rt; row, [0, -2, 15]);
        assert_eq!(rt; rows::lcm(12, 18), Some(36));
    }
}
