//! What is read off the last table.

ghost use Rattle.std.specs.Prelude.{◌≡◌, ◌+◌, ◌<◌, ◌≤ℤ◌, pos, IfSome, IfOk, option_map, vec_items, Err};
ghost use Rattle.mp_num.specs.Divisor.{reduced};
ghost use Rattle.mp_num.specs.Row.{entry};
ghost use Rattle.mp_simplex.specs.Meeting.{Meets};
ghost use Rattle.mp_simplex.specs.Outcome.{scaled, basic_row, part_of, primal_at, ray_at, dual, numbers_over, denominator_over, ended};
ghost use Rattle.mp_simplex.specs.Running.{rows_in, right_in, denominator_in, primal_in, ray_in, best_in, endless_in, HasBasis, CanRead, ended_by};
ghost use Rattle.mp_simplex.specs.Tableau.{row_of};

use crate::table::Table;
use crate::turns::Ending;
use crate::{LpFault, Optimum};
use mp_num::rows::{lcm, quotient};
use mp_num::{Frac, Numbers, mul, row_gcd, sub};
use std::alloc::{AllocError, Global};

impl Table {
    /// The columns' denominator once row `r` was looked at.
    #[tactic(auto, using(crate::proofs::ReadingLemmas::scales))]
    fn scale(&self, q: i128, r: usize) -> Option<i128>
        requires based { HasBasis self.now }
        requires row { r < 1 + self.now.constraints }
        requires positive { pos 1 ≤ℤ q }
        ensures value { result ≡ scaled self.now.columns (rows_in self.now) self.now.basis.items q r }
        ensures positive { IfSome result (λ p. pos 1 ≤ℤ p) }
    {
        let basic = self.basis[r];
        if self.columns < basic {
            return Some(q);
        }
        lcm(q, self.entry(r, basic))
    }

    /// The denominator of the columns' values.
    #[tactic(auto, using(crate::proofs::ReadingLemmas::denominators))]
    fn denominator(&self) -> Option<i128>
        requires { HasBasis self.now }
        ensures { result ≡ denominator_in self.now }
    {
        let mut q = 1;
        let height = self.basis.len();
        for r in 1..height {
            let Some(next) = self.scale(q, r) else {
                return None;
            };
            q = next;
        }
        Some(q)
    }

    /// The row in which the variable at place `k` is basic.
    fn basic_row(&self, k: usize) -> Option<usize>
        ensures { result ≡ basic_row k self.now.basis.items }
    {
        self.basis.iter().position(|b| *b == k)
    }

    /// The number of row `r` at place `t`, times `q` over its entry at place `k`.
    #[tactic(auto, using(crate::proofs::ReadingLemmas::parts))]
    fn part(&self, r: usize, k: usize, t: usize, q: i128) -> Option<i128>
        requires row { r < 1 + self.now.constraints }
        requires basic { k < self.now.width }
        requires place { t < self.now.width }
        requires positive { pos 1 ≤ℤ entry (row_of (rows_in self.now) r) k }
        ensures { result ≡ part_of q (entry (row_of (rows_in self.now) r) t) (entry (row_of (rows_in self.now) r) k) }
    {
        mul(self.entry(r, t), quotient(q, self.entry(r, k)))
    }

    /// The value of the variable at place `k`, over `q`.
    #[tactic(auto, using(crate::proofs::ReadingLemmas::values))]
    fn primal_value(&self, q: i128, k: usize) -> Option<i128>
        requires { HasBasis self.now }
        ensures { result ≡ primal_at (right_in self.now) q (rows_in self.now) self.now.basis.items k }
    {
        let Some(r) = self.basic_row(k) else {
            return Some(0);
        };
        self.part(r, k, 1 + self.columns + self.constraints, q)
    }

    /// The values of the columns, over `q`.
    #[tactic(auto, using(crate::proofs::ReadingLemmas::primals))]
    fn primal(&self, alloc: Global, q: i128) -> Result<Option<Vec<i128>>, AllocError>
        requires { HasBasis self.now }
        ensures { IfOk result (λ o. option_map vec_items o ≡ primal_in self.now q) }
    {
        let mut x = Vec::new(alloc);
        for k in 0..self.columns {
            let Some(value) = self.primal_value(q, k + 1) else {
                return Ok(None);
            };
            x.push(value)?;
        }
        Ok(Some(x))
    }

    /// The change of the variable at place `k` where the one at place `j` grows by `q`.
    #[tactic(auto, using(crate::proofs::ReadingLemmas::changes))]
    fn ray_value(&self, j: usize, q: i128, k: usize) -> Option<i128>
        requires based { HasBasis self.now }
        requires place { j < self.now.width }
        ensures { result ≡ ray_at j q (rows_in self.now) self.now.basis.items k }
    {
        let Some(r) = self.basic_row(k) else {
            return Some(if k == j { q } else { 0 });
        };
        let Some(value) = self.part(r, k, j, q) else {
            return None;
        };
        sub(0, value)
    }

    /// The changes of the columns where the variable at place `j` grows by `q`.
    #[tactic(auto, using(crate::proofs::ReadingLemmas::rays))]
    fn ray(&self, alloc: Global, j: usize, q: i128) -> Result<Option<Vec<i128>>, AllocError>
        requires based { HasBasis self.now }
        requires place { j < self.now.width }
        ensures { IfOk result (λ o. option_map vec_items o ≡ ray_in self.now j q) }
    {
        let mut x = Vec::new(alloc);
        for k in 0..self.columns {
            let Some(value) = self.ray_value(j, q, k + 1) else {
                return Ok(None);
            };
            x.push(value)?;
        }
        Ok(Some(x))
    }

    /// The entries of row 0 at the slacks, over the factor.
    #[tactic(auto, using(crate::proofs::AnswerLemmas::duals))]
    fn dual(&self, alloc: Global) -> Result<Vec<i128>, AllocError>
        ensures { IfOk result (λ y. vec_items y ≡ dual self.now.constraints self.now.columns (rows_in self.now)) }
    {
        let mut y = Vec::new(alloc);
        y.extend_from_slice(&self.cells[1 + self.columns..self.width - 1])?;
        Ok(y)
    }
}

/// Numbers over one denominator.
#[derive(Drop)]
struct Together {
    numbers: Vec<i128>,
    denominator: i128,
}

/// Divides the numbers by their greatest common divisor.
fn reduce(numbers: Vec<i128>) -> Vec<i128>
    ensures { result.items ≡ reduced numbers.items }
{
    let mut all = numbers;
    row_gcd(all.as_mut_slice());
    all
}

/// Reduces numbers and their denominator together.
#[tactic(auto, using(crate::proofs::ReadingLemmas::togethers))]
fn reduce_together(x: Vec<i128>, q: i128) -> Result<Together, AllocError>
    ensures numbers { IfOk result (λ t. t.numbers.items ≡ numbers_over x.items q) }
    ensures denominator { IfOk result (λ t. t.denominator ≡ denominator_over x.items q) }
{
    let n = x.len();
    let mut all = x;
    all.push(q)?;
    let mut numbers = reduce(all);
    let denominator = numbers[n];
    numbers.truncate(n);
    Ok(Together {
        numbers,
        denominator,
    })
}

/// The optimum of a table that is best after so many pivots.
#[tactic(auto, using(crate::proofs::AnswerLemmas::bests))]
fn read_optimum(alloc: Global, table: &Table, done: u32) -> Result<Optimum, LpFault>
    requires { HasBasis table.now }
    ensures { Meets result (best_in table.now done) }
{
    let Some(q) = table.denominator() else {
        return Err(LpFault::Overflow { pivots: done });
    };
    let Some(x) = table.primal(alloc, q)? else {
        return Err(LpFault::Overflow { pivots: done });
    };
    let factor = table.entry(0, 0);
    let primal = reduce_together(x, q)?;
    let dual = reduce_together(table.dual(alloc)?, factor)?;
    Ok(Optimum {
        primal: Numbers::new(primal.numbers),
        primal_den: primal.denominator,
        dual: Numbers::new(dual.numbers),
        dual_den: dual.denominator,
        value: Frac::new(table.right_side(0), factor),
        pivots: done,
    })
}

/// The fault of a table in which, after so many pivots, the variable at this place may grow without end.
#[tactic(auto, using(crate::proofs::AnswerLemmas::endlesses))]
fn read_ray(alloc: Global, table: &Table, done: u32, place: usize) -> LpFault
    requires based { HasBasis table.now }
    requires place { place < table.now.width }
    ensures { Meets (Err result) (endless_in table.now done place) }
{
    let Some(q) = table.denominator() else {
        return LpFault::Overflow { pivots: done };
    };
    match table.ray(alloc, place, q) {
        Ok(Some(ray)) => LpFault::Unbounded {
            ray: Numbers::new(ray),
        },
        Ok(None) => LpFault::Overflow { pivots: done },
        Err(_) => LpFault::NoMemory,
    }
}

/// The result of the turns that ended so.
#[tactic(auto)]
pub fn read_ending(alloc: Global, table: &Table, ending: Ending) -> Result<Optimum, LpFault>
    requires { CanRead table.now ending }
    ensures { Meets result (ended table.now.constraints table.now.columns (ended_by ending table.now)) }
{
    match ending {
        Ending::Best { done } => read_optimum(alloc, table, done),
        Ending::Endless { done, place } => Err(read_ray(alloc, table, done, place)),
        Ending::Passed { done } => Err(LpFault::Overflow { pivots: done }),
        Ending::Limited => Err(LpFault::PivotLimit),
    }
}
