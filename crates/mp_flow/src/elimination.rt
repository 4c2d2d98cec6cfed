//! Elimination without fractions: each column is cleared by whole multiples of rows, and each row is kept reduced.
//! The idea is that of Bareiss (1968), with a greatest common divisor in place of the last pivot.
ghost use Rattle.std.specs.Prelude.{◌≡◌, ◌≢◌, ◌+◌, ◌-◌, ◌*◌, ◌<◌, ◌≤◌, ◌≤ℤ◌, pos, length, position, IfSome, map, take, drop};
ghost use Rattle.std.specs.Bool.{OnTrue, OnFalse};
ghost use Rattle.mp_num.specs.Divisor.{reduced};
ghost use Rattle.mp_num.specs.Passing.{Becomes};
ghost use Rattle.mp_num.specs.Row.{entry, rows_of};
ghost use Rattle.mp_flow.specs.Elimination.{negated, upright, serves, turn, eliminated, HasPivots, IsChosen};
ghost use Rattle.mp_flow.specs.Columns.{TurnsTo, EndsAs, ClearsTo};

use mp_num::rows::combine_all;
use mp_num::{row_gcd, sub};

/// Reduces each row.
#[tactic(auto, using(crate::proofs::KernelLemmas::reducing))]
pub fn reduce_all(part: &mut [i128], count: usize, width: usize)
    requires { length part.old ≡ count * width }
    ensures { rows_of count width part.new ≡ map reduced (rows_of count width part.old) }
{
    if count > 0 {
        let (row, rest) = part.split_at_mut(width);
        row_gcd(row);
        reduce_all(rest, count - 1, width);
    }
}

/// What a column came to.
#[derive(Clone, Copy)]
enum Column {
    Halted,
    Overflowed,
    Cleared,
}

/// Negates each entry, or answers false where a negation exceeds 128 bits.
#[tactic(auto, using(mp_num::proofs::PassingLemmas::going), unfolding(crate::specs::Elimination::negated))]
fn negate(row: &mut [i128]) -> bool
    ensures { Becomes result (negated row.old) row.new }
{
    for k in 0..row.len() {
        match sub(0, row[k]) {
            Some(value) => row[k] = value,
            None => return false,
        }
    }
    true
}

/// Negates the row where its entry at column `j` is negative.
#[tactic(auto, using(crate::proofs::ColumnLemmas::uprights))]
fn set_upright(row: &mut [i128], j: usize) -> bool
    requires in_row { j < length row.old }
    requires apart { entry row.old j ≢ pos 0 }
    ensures value { Becomes result (upright j row.old) row.new }
    ensures positive { OnTrue result (pos 1 ≤ℤ entry row.new j) }
{
    if row[j] < 0 { negate(row) } else { true }
}

/// The first row with an entry at column `j` that is not 0.
#[tactic(auto, using(crate::proofs::TableLemmas::places))]
fn choose(cells: &[i128], count: usize, width: usize, j: usize) -> Option<usize>
    requires size { length cells.now ≡ count * width }
    requires in_row { j < width }
    ensures place { result ≡ position (serves j) (rows_of count width cells.now) }
    ensures within { IfSome result (λ k. k < count) }
{
    for k in 0..count {
        if cells[k * width + j] != 0 {
            return Some(k);
        }
    }
    None
}

/// Brings the first row that serves to the front, if there is one.
#[tactic(auto, using(crate::proofs::TableLemmas::bringing))]
fn bring(free: &mut [i128], count: usize, width: usize, j: usize) -> bool
    requires size { length free.old ≡ count * width }
    requires in_row { j < width }
    ensures chosen { OnTrue result (IsChosen j (rows_of count width free.old) (take width free.new) (rows_of (count - 1) width (drop width free.new))) }
    ensures stuck { OnFalse result (position (serves j) (rows_of count width free.old) ≡ None) }
    ensures stays { OnFalse result (free.new ≡ free.old) }
{
    let Some(k) = choose(free, count, width, j) else {
        return false;
    };
    free[..(k + 1) * width].rotate_right(width);
    true
}

/// Brings the chosen row of column `j` to place `j`, and clears the column in every other row.
#[tactic(auto, using(crate::proofs::ColumnLemmas::columns))]
fn turn_column(cells: &mut [i128], rows: usize, width: usize, j: usize) -> Column
    requires size { length cells.old ≡ rows * width }
    requires in_table { j < rows }
    requires in_row { j < width }
    ensures calculation { TurnsTo result (turn j (rows_of rows width cells.old)) (rows_of rows width cells.new) }
    ensures stays { result ≡ Column.Halted → cells.new ≡ cells.old }
{
    let (used, free) = cells.split_at_mut(j * width);
    if !bring(free, rows - j, width, j) {
        return Column::Halted;
    }
    let (pivot, rest) = free.split_at_mut(width);
    if set_upright(pivot, j)
        && combine_all(used, j, pivot, j)
        && combine_all(rest, rows - j - 1, pivot, j)
    {
        Column::Cleared
    } else {
        Column::Overflowed
    }
}

/// What the elimination came to.
pub enum Ending {
    Stuck { column: usize },
    Passed { column: usize },
    Through,
}

/// Clears the columns one by one.
#[tactic(auto, using(crate::proofs::SolveLemmas::loops))]
pub fn eliminate(cells: &mut [i128], rows: usize, width: usize) -> Ending
    requires size { length cells.old ≡ rows * width }
    requires columns { rows ≤ width }
    ensures calculation { EndsAs result (eliminated rows 0 (rows_of rows width cells.old)) (rows_of rows width cells.new) }
    ensures pivots { ClearsTo result rows width cells.new }
{
    for j in 0..rows {
        match turn_column(cells, rows, width, j) {
            Column::Halted => return Ending::Stuck { column: j },
            Column::Overflowed => return Ending::Passed { column: j },
            Column::Cleared => {}
        }
    }
    Ending::Through
}
