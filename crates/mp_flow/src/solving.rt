//! Linear systems over whole numbers, by elimination.
ghost use Rattle.std.specs.Prelude.{◌≡◌, ◌+◌, ◌*◌, ◌^◌, ◌<◌, ◌≤◌, ◌≤ℤ◌, pos, length, vec_len, IfOk, option_map, vec_items};
ghost use Rattle.mp_num.specs.Row.{rows_of};
ghost use Rattle.mp_flow.specs.Elimination.{HasPivots};
ghost use Rattle.mp_flow.specs.Answers.{denominator, answers, kernel_at, kernel, solved, stuck, finished, Answers, IsKernel};
ghost use Rattle.mp_flow.specs.Meeting.{Meets, IfSingular};

use crate::elimination::{Ending, eliminate, reduce_all};
use mp_num::rows::{lcm, quotient};
use mp_num::{Numbers, mul, sub};
use std::alloc::{AllocError, Global};

/// The answers of a system, over the denominator `d`, which is at least 1.
/// `x` has one number per column for the first right side, then for the next.
#[derive(Drop)]
pub struct Solved {
    pub x: Numbers,
    pub d: i128,
}

/// Why `solve` has no answer.
#[derive(Debug, Drop)]
pub enum SolveFault {
    /// One number per column, not all 0, whose sum with each row is 0.
    Singular { kernel: Numbers },
    /// The column, from 1, at which the calculation exceeds 128 bits; one more than the last where the reading of the answers does.
    Overflow { column: usize },
    /// There was no memory for the answers.
    NoMemory,
}

/// The denominator of the first `count` columns.
#[tactic(auto, using(crate::proofs::AnswerLemmas::denominators))]
fn find_denominator(cells: &[i128], rows: usize, width: usize, count: usize) -> Option<i128>
    requires size { length cells.now ≡ rows * width }
    requires columns { count ≤ rows }
    requires fits { rows ≤ width }
    requires positive { HasPivots count width cells.now }
    ensures { result ≡ denominator count (rows_of rows width cells.now) }
{
    let mut d = 1;
    for j in 0..count {
        let Some(next) = lcm(d, cells[j * width + j]) else {
            return None;
        };
        d = next;
    }
    Some(d)
}

/// The values of all right sides over the denominator `d`.
#[tactic(auto, using(crate::proofs::AnswerLemmas::answering))]
fn find_answers(
    alloc: Global,
    cells: &[i128],
    n: usize,
    rights: usize,
    d: i128,
) -> Result<Option<Vec<i128>>, AllocError>
    requires size { length cells.now ≡ n * (n + rights) }
    requires some { 0 < n }
    requires positive { HasPivots n (n + rights) cells.now }
    ensures { IfOk result (λ o. option_map vec_items o ≡ answers n rights d (rows_of n (n + rights) cells.now)) }
{
    let mut x = Vec::new(alloc);
    for t in 0..rights * n {
        let j = t % n;
        let row = j * (n + rights);
        let Some(value) = mul(cells[row + (n + t / n)], quotient(d, cells[row + j])) else {
            return Ok(None);
        };
        x.push(value)?;
    }
    Ok(Some(x))
}

/// The kernel's value at column `i`, where column `j` has no row.
#[tactic(auto, using(crate::proofs::KernelLemmas::entries))]
fn kernel_entry(cells: &[i128], n: usize, width: usize, j: usize, d: i128, i: usize) -> Option<i128>
    requires size { length cells.now ≡ n * width }
    requires fits { n ≤ width }
    requires column { j < n }
    requires positive { HasPivots j width cells.now }
    ensures { result ≡ kernel_at j d (rows_of n width cells.now) i }
{
    if i > j {
        return Some(0);
    }
    if i == j {
        return Some(d);
    }
    sub(
        0,
        mul(cells[i * width + j], quotient(d, cells[i * width + i]))?,
    )
}

/// The kernel where column `j` has no row.
#[tactic(auto, using(crate::proofs::KernelLemmas::kernels))]
fn find_kernel(
    alloc: Global,
    cells: &[i128],
    n: usize,
    width: usize,
    j: usize,
    d: i128,
) -> Result<Option<Vec<i128>>, AllocError>
    requires size { length cells.now ≡ n * width }
    requires fits { n ≤ width }
    requires column { j < n }
    requires positive { HasPivots j width cells.now }
    ensures { IfOk result (λ o. option_map vec_items o ≡ kernel n j d (rows_of n width cells.now)) }
{
    let mut x = Vec::new(alloc);
    for i in 0..n {
        let Some(value) = kernel_entry(cells, n, width, j, d, i) else {
            return Ok(None);
        };
        x.push(value)?;
    }
    Ok(Some(x))
}

/// The answer where column `j` has no row.
#[tactic(auto, using(crate::proofs::SolveLemmas::ends))]
fn stuck_answer(
    alloc: Global,
    cells: &[i128],
    n: usize,
    width: usize,
    j: usize,
) -> Result<Solved, SolveFault>
    requires size { length cells.now ≡ n * width }
    requires fits { n ≤ width }
    requires column { j < n }
    requires positive { HasPivots j width cells.now }
    ensures { Meets result (stuck n j (rows_of n width cells.now) (denominator j (rows_of n width cells.now))) }
{
    let Some(d) = find_denominator(cells, n, width, j) else {
        return Err(SolveFault::Overflow { column: j + 1 });
    };
    match find_kernel(alloc, cells, n, width, j, d) {
        Ok(Some(kernel)) => Err(SolveFault::Singular {
            kernel: Numbers::new(kernel),
        }),
        Ok(None) => Err(SolveFault::Overflow { column: j + 1 }),
        Err(_) => Err(SolveFault::NoMemory),
    }
}

/// The answer where every column has its row.
#[tactic(auto, using(crate::proofs::SolveLemmas::ends))]
fn through_answer(
    alloc: Global,
    cells: &[i128],
    n: usize,
    rights: usize,
) -> Result<Solved, SolveFault>
    requires size { length cells.now ≡ n * (n + rights) }
    requires some { 0 < n }
    requires positive { HasPivots n (n + rights) cells.now }
    ensures { Meets result (finished n rights (rows_of n (n + rights) cells.now) (denominator n (rows_of n (n + rights) cells.now))) }
{
    let Some(d) = find_denominator(cells, n, n + rights, n) else {
        return Err(SolveFault::Overflow { column: n + 1 });
    };
    match find_answers(alloc, cells, n, rights, d) {
        Ok(Some(x)) => Ok(Solved {
            x: Numbers::new(x),
            d,
        }),
        Ok(None) => Err(SolveFault::Overflow { column: n + 1 }),
        Err(_) => Err(SolveFault::NoMemory),
    }
}

/// Solves the system whose rows stand one after another in the cells.
#[tactic(auto, using(crate::proofs::SolveLemmas::solving))]
fn solve_cells(
    alloc: Global,
    cells: &mut [i128],
    n: usize,
    rights: usize,
) -> Result<Solved, SolveFault>
    requires some { 0 < n }
    requires size { length cells.old ≡ n * (n + rights) }
    requires width { n + rights < 2 ^ 64 }
    ensures { Meets result (solved n rights (rows_of n (n + rights) cells.old)) }
{
    reduce_all(cells, n, n + rights);
    match eliminate(cells, n, n + rights) {
        Ending::Passed { column } => Err(SolveFault::Overflow { column: column + 1 }),
        Ending::Stuck { column } => stuck_answer(alloc, cells, n, n + rights, column),
        Ending::Through => through_answer(alloc, cells, n, rights),
    }
}

/// A system of `n` rows, row after row in the cells, each with `n` coefficients and then `rights` right sides.
#[derive(Drop)]
pub struct Rows {
    pub n: usize,
    pub rights: usize,
    pub cells: Vec<i128>,
}

/// Solves the system for each right side, by elimination without fractions (Bareiss 1968). Its cells are open afterwards.
///
/// Each row is reduced, and then each column is cleared with the lowest row that is not used and not 0 there.
/// `Singular` comes where no such row is left, `Overflow` exactly where this calculation exceeds 128 bits.
#[tactic(auto, using(crate::proofs::SolveLemmas::meanings))]
pub fn solve(alloc: Global, rows: &mut Rows) -> Result<Solved, SolveFault>
    requires some { 0 < rows.old.n }
    requires sides { 0 < rows.old.rights }
    requires size { vec_len rows.old.cells ≡ rows.old.n * (rows.old.n + rows.old.rights) }
    ensures calculation { Meets result (solved rows.old.n rows.old.rights (rows_of rows.old.n (rows.old.n + rows.old.rights) rows.old.cells.items)) }
    ensures positive { IfOk result (λ s. pos 1 ≤ℤ s.d) }
    ensures values { IfOk result (λ s. length s.x ≡ rows.old.rights * rows.old.n) }
    ensures answers { IfOk result (λ s. Answers rows.old.n rows.old.rights (rows_of rows.old.n (rows.old.n + rows.old.rights) rows.old.cells.items) s.x s.d) }
    ensures kernel { IfSingular result (λ x. IsKernel rows.old.n (rows_of rows.old.n (rows.old.n + rows.old.rights) rows.old.cells.items) x) }
{
    solve_cells(alloc, rows.cells.as_mut_slice(), rows.n, rows.rights)
}

#[cfg(test)]
mod tests;
