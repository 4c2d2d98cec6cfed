//! The arithmetic of rows that elimination and the simplex method share: every operation on them is exact, or exceeds 128 bits.

ghost use Rattle.std.specs.Prelude.{◌≡◌, ◌*◌, ◌<◌, ◌≤ℤ◌, pos, length, unsigned_abs, int_div};
ghost use Rattle.mp_num.specs.Divisor.{gcd_of};
ghost use Rattle.mp_num.specs.Multiple.{lcm_of};
ghost use Rattle.mp_num.specs.Passing.{each, each2, Becomes};
ghost use Rattle.mp_num.specs.Row.{entry, combined_entry, combined, rows_of};

use crate::{gcd, mul, row_gcd, sub};

/// The quotient by a positive number, rounded toward 0; it is exact where the number is a divisor.
#[tactic(auto, using(crate::proofs::DivisionLemmas::division))]
pub fn quotient(a: i128, b: i128) -> i128
    requires { pos 1 ≤ℤ b }
    ensures { result ≡ int_div a b }
{
    a / b
}

/// The greatest common divisor of a positive number and any number.
pub fn common_divisor(p: i128, a: i128) -> i128
    requires { pos 1 ≤ℤ p }
    ensures value { result ≡ pos (gcd_of (unsigned_abs p) (unsigned_abs a)) }
    ensures positive { pos 1 ≤ℤ result }
{
    gcd(p.unsigned_abs(), a.unsigned_abs()) as i128
}

/// `p * x - a * y`, or nothing where a product or the difference exceeds 128 bits.
#[tactic(auto, unfolding(crate::specs::Row::combined_entry))]
fn combine_entry(p: i128, a: i128, x: i128, y: i128) -> Option<i128>
    ensures { result ≡ combined_entry p a x y }
{
    sub(mul(p, x)?, mul(a, y)?)
}

/// Multiplies and subtracts, entry by entry.
#[tactic(auto, using(crate::proofs::PassingLemmas::standing))]
fn combine_entries(row: &mut [i128], pivot: &[i128], p: i128, a: i128) -> bool
    requires { length row.old ≡ length pivot.now }
    ensures { Becomes result (each2 (combined_entry p a) row.old pivot.now) row.new }
{
    for k in 0..row.len() {
        match combine_entry(p, a, row[k], pivot[k]) {
            Some(value) => row[k] = value,
            None => return false,
        }
    }
    true
}

/// Combines the row with the pivot at column `j`, and reduces it.
#[tactic(auto, using(crate::proofs::CombineLemmas::combining))]
pub fn combine(row: &mut [i128], pivot: &[i128], j: usize) -> bool
    requires same_length { length row.old ≡ length pivot.now }
    requires in_row { j < length pivot.now }
    requires positive { pos 1 ≤ℤ entry pivot.now j }
    ensures { Becomes result (combined j pivot.now row.old) row.new }
{
    let below = row[j];
    if below == 0 {
        return true;
    }
    let above = pivot[j];
    let common = common_divisor(above, below);
    if !combine_entries(row, pivot, quotient(above, common), quotient(below, common)) {
        return false;
    }
    row_gcd(row);
    true
}

/// Combines each row of the part with the pivot at column `j`.
#[tactic(auto, using(crate::proofs::TableLemmas::tables))]
pub fn combine_all(part: &mut [i128], count: usize, pivot: &[i128], j: usize) -> bool
    requires size { length part.old ≡ count * length pivot.now }
    requires in_row { j < length pivot.now }
    requires positive { pos 1 ≤ℤ entry pivot.now j }
    ensures { Becomes result (each (combined j pivot.now) (rows_of count (length pivot.now) part.old)) (rows_of count (length pivot.now) part.new) }
{
    if count == 0 {
        return true;
    }
    let (row, rest) = part.split_at_mut(pivot.len());
    combine(row, pivot, j) && combine_all(rest, count - 1, pivot, j)
}

/// The least common multiple of two positive numbers.
#[tactic(auto, unfolding(crate::specs::Multiple::lcm_of), using(crate::proofs::MultipleLemmas::multiples))]
pub fn lcm(a: i128, b: i128) -> Option<i128>
    requires first { pos 1 ≤ℤ a }
    requires second { pos 1 ≤ℤ b }
    ensures { result ≡ lcm_of a b }
{
    mul(quotient(a, common_divisor(a, b)), b)
}
