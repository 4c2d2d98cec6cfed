//! The turns of the simplex method, with the rule of Bland (1977), by which they end: the lowest variable enters, and of
//! equal rows the one with the lowest basic variable leaves.

ghost use Rattle.std.specs.Prelude.{◌≡◌, ◌+◌, ◌*◌, ◌<◌, ◌≤ℤ◌, pos, length, IfSome, IsTrue, position, set};
ghost use Rattle.mp_num.specs.Passing.{Becomes};
ghost use Rattle.mp_num.specs.Row.{entry, rows_of};
ghost use Rattle.mp_simplex.specs.Pivoting.{negative, entering, better, looked, leaving, choice, pivoted};
ghost use Rattle.mp_simplex.specs.Running.{rows_in, right_in, turns_in, SameShape, CanFollow, ended_by};
ghost use Rattle.mp_simplex.specs.Tableau.{row_of};

use crate::table::Table;
use mp_num::rows::combine_all;
use mp_num::{mul, row_gcd};

/// What is to be done with a table.
#[derive(Clone, Copy)]
pub enum Choice {
    /// No variable would raise the objective.
    Best,
    /// The variable at this place may grow without end.
    Endless { place: usize },
    /// The ratio test exceeds 128 bits.
    Passing,
    /// The variable at this place enters the basis in this row.
    Leaves { row: usize, place: usize },
}

/// How the turns end, after so many pivots.
#[derive(Clone, Copy)]
pub enum Ending {
    Best { done: u32 },
    Endless { done: u32, place: usize },
    Passed { done: u32 },
    Limited,
}

impl Table {
    /// Whether row `i` keeps the variable at place `j` lower than row `b`; on a tie, whether its basic variable is the lower.
    #[tactic(auto, using(crate::proofs::ProgramLemmas::betters))]
    fn is_better(&self, j: usize, i: usize, b: usize) -> Option<bool>
        requires place { j < self.now.width }
        requires first { i < 1 + self.now.constraints }
        requires second { b < 1 + self.now.constraints }
        ensures { result ≡ better j (right_in self.now) (rows_in self.now) self.now.basis.items i b }
    {
        let left = mul(self.right_side(i), self.entry(b, j))?;
        let right = mul(self.right_side(b), self.entry(i, j))?;
        Some(left < right || (left == right && self.basis[i] < self.basis[b]))
    }

    /// The best row for the variable at place `j` once row `i` was looked at.
    #[tactic(auto, using(crate::proofs::ProgramLemmas::looks))]
    fn look(&self, j: usize, best: Option<usize>, i: usize) -> Option<Option<usize>>
        requires place { j < self.now.width }
        requires row { i < 1 + self.now.constraints }
        requires last { IfSome best (λ b. b < 1 + self.now.constraints) }
        ensures value { result ≡ looked j (right_in self.now) (rows_in self.now) self.now.basis.items best i }
        ensures within { IfSome result (λ o. IfSome o (λ b. b < 1 + self.now.constraints)) }
    {
        if self.entry(i, j) <= 0 {
            return Some(best);
        }
        let Some(b) = best else {
            return Some(Some(i));
        };
        if self.is_better(j, i, b)? {
            Some(Some(i))
        } else {
            Some(Some(b))
        }
    }

    /// The row that leaves the basis where the variable at place `j` enters it.
    #[tactic(auto, using(crate::proofs::ProgramLemmas::leavings))]
    fn leaving_row(&self, j: usize) -> Option<Option<usize>>
        requires { j < self.now.width }
        ensures { result ≡ leaving j (right_in self.now) self.now.constraints (rows_in self.now) self.now.basis.items }
    {
        let mut best: Option<usize> = None;
        let height = self.basis.len();
        for i in 1..height {
            let Some(next) = self.look(j, best, i) else {
                return None;
            };
            best = next;
        }
        Some(best)
    }

    /// The place before the lowest variable that would raise the objective.
    #[tactic(auto, using(crate::proofs::RunLemmas::enterings))]
    fn entering(&self) -> Option<usize>
        ensures { result ≡ entering (right_in self.now) (rows_in self.now) }
    {
        first_negative(&self.cells[1..self.width - 1])
    }

    /// What is to be done with the table.
    #[tactic(auto, using(crate::proofs::RunLemmas::choices))]
    fn choose(&self) -> Choice
        ensures value { result ≡ choice (right_in self.now) self.now.constraints (rows_in self.now) self.now.basis.items }
        ensures follows { CanFollow self.now result }
    {
        let Some(k) = self.entering() else {
            return Choice::Best;
        };
        let place = k + 1;
        match self.leaving_row(place) {
            None => Choice::Passing,
            Some(None) => Choice::Endless { place },
            Some(Some(row)) => Choice::Leaves { row, place },
        }
    }

    /// Lets the variable at place `j` enter the basis in row `i`, or answers `false` where this exceeds 128 bits.
    #[tactic(auto, using(crate::proofs::RunLemmas::pivots))]
    fn pivot(&mut self, i: usize, j: usize) -> bool
        requires row { i < 1 + self.old.constraints }
        requires place { j < self.old.width }
        requires positive { pos 1 ≤ℤ entry (row_of (rows_in self.old) i) j }
        ensures rows { Becomes result (pivoted i j (rows_in self.old)) (rows_in self.new) }
        ensures basis { IsTrue result → self.new.basis.items ≡ set self.old.basis.items i j }
        ensures shape { SameShape self.old self.new }
    {
        let height = self.basis.len();
        let done = pivot_rows(self.cells.as_mut_slice(), height, self.width, i, j);
        if done {
            self.basis[i] = j;
        }
        done
    }

    /// Pivots until the table is best, a variable may grow without end, or the limit of pivots is met.
    #[tactic(auto, using(crate::proofs::RunLemmas::runs))]
    pub fn run(&mut self, limit: u32) -> Ending
        ensures end { turns_in self.old limit ≡ ended_by result self.new }
        ensures shape { SameShape self.old self.new }
    {
        let mut done = 0;
        'turns: loop {
            match self.choose() {
                Choice::Best => return Ending::Best { done },
                Choice::Endless { place } => return Ending::Endless { done, place },
                Choice::Passing => return Ending::Passed { done },
                Choice::Leaves { row, place } => {
                    if done == limit {
                        return Ending::Limited;
                    }
                    if !self.pivot(row, place) {
                        return Ending::Passed { done };
                    }
                    done += 1;
                }
            }
        }
    }
}

/// The place of the first negative number.
pub fn first_negative(xs: &[i128]) -> Option<usize>
    ensures { result ≡ position negative xs.now }
{
    xs.iter().position(|x| *x < 0)
}

/// Combines every other row with row `i` at place `j`, and reduces row `i`.
#[tactic(auto, using(crate::proofs::ProgramLemmas::pivots))]
fn pivot_rows(cells: &mut [i128], rows: usize, width: usize, i: usize, j: usize) -> bool
    requires size { length cells.old ≡ rows * width }
    requires in_table { i < rows }
    requires in_row { j < width }
    requires positive { pos 1 ≤ℤ entry cells.old (i * width + j) }
    ensures { Becomes result (pivoted i j (rows_of rows width cells.old)) (rows_of rows width cells.new) }
{
    let (above, rest) = cells.split_at_mut(i * width);
    let (best, below) = rest.split_at_mut(width);
    if combine_all(above, i, best, j) && combine_all(below, rows - i - 1, best, j) {
        row_gcd(best);
        true
    } else {
        false
    }
}
