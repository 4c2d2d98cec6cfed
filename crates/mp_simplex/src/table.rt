//! The tableau of a linear program, over whole numbers.

ghost use Rattle.std.specs.Prelude.{◌≡◌, ℕ, ◌+◌, ◌*◌, ◌^◌, ◌<◌, ◌++◌, length, IfSome, IfOk, option_map, vec_items, vec_len};
ghost use Rattle.mp_num.specs.Passing.{Becomes};
ghost use Rattle.mp_num.specs.Row.{rows_of};
ghost use Rattle.mp_simplex.specs.Meeting.{HasSizes};
ghost use Rattle.mp_simplex.specs.Outcome.{cost_cell, slack_cell, cell, first_row, first_rows, first_basis};

use crate::Lp;
use mp_num::sub;
use std::alloc::{AllocError, Global};

/// A tableau: row 0 for the objective and one row for each constraint, each with a basic variable.
/// A row has the factor of the objective at place 0, an entry for each column, one for each slack, and its right side last.
/// The rows below row 0 have 0 at place 0.
#[derive(Drop)]
pub struct Table {
    pub constraints: usize,
    pub columns: usize,
    /// How many numbers a row has.
    pub width: usize,
    /// The numbers, row by row.
    pub cells: Vec<i128>,
    /// The place of each row's basic variable, which is 0 for row 0.
    pub basis: Vec<usize>,
    pub ghost wide: { width ≡ (1 + columns + constraints) + 1 },
    pub ghost sized: { length cells.items ≡ (1 + constraints) * width },
    pub ghost based: { length basis.items ≡ 1 + constraints },
}

impl Table {
    ghost use Rattle.std.specs.Prelude.{◌≡◌, ◌+◌, ◌<◌, IfOk};
    ghost use Rattle.mp_num.specs.Row.{entry};
    ghost use Rattle.mp_simplex.specs.Meeting.{HasSizes};
    ghost use Rattle.mp_simplex.specs.Running.{rows_in, right_in, IsFirstTable};
    ghost use Rattle.mp_simplex.specs.Tableau.{row_of};

    /// The first table of a program, or `None` where the negation of an objective exceeds 128 bits.
    pub fn first(alloc: Global, lp: &Lp) -> Result<Option<Table>, AllocError>
        requires { HasSizes lp.now }
        ensures { IfOk result (IsFirstTable lp.now) }
    {
        let width = lp.c.as_slice().len() + lp.b.as_slice().len() + 2;
        let Some(cells) = first_cells(alloc, lp, width)? else {
            return Ok(None);
        };
        let basis = first_basis(alloc, lp.rows, lp.cols)?;
        Ok(Some(Table {
            constraints: lp.rows,
            columns: lp.cols,
            width,
            cells,
            basis,
        }))
    }

    /// The number of row `r` at place `k`.
    #[tactic(auto, using(crate::proofs::EntryLemmas::entries))]
    pub fn entry(&self, r: usize, k: usize) -> i128
        requires row { r < 1 + self.now.constraints }
        requires place { k < self.now.width }
        ensures { result ≡ entry (row_of (rows_in self.now) r) k }
    {
        self.cells[r * self.width + k]
    }

    /// The right side of row `r`.
    #[tactic(auto, using(crate::proofs::EntryLemmas::entries))]
    pub fn right_side(&self, r: usize) -> i128
        requires { r < 1 + self.now.constraints }
        ensures { result ≡ entry (row_of (rows_in self.now) r) (right_in self.now) }
    {
        self.entry(r, self.width - 1)
    }
}

/// The number of the first row 0 at place `k`.
#[tactic(auto, using(crate::proofs::TableLemmas::costs))]
fn cost_cell(lp: &Lp, k: usize) -> Option<i128>
    requires { HasSizes lp.now }
    ensures { result ≡ cost_cell lp.now.cols lp.now.c k }
{
    if k == 0 {
        return Some(1);
    }
    if k - 1 < lp.cols {
        return sub(0, lp.c.as_slice()[k - 1]);
    }
    Some(0)
}

/// The number of the program's row `i` at place `k`.
#[tactic(auto, using(crate::proofs::TableLemmas::slacks))]
fn slack_cell(lp: &Lp, i: usize, k: usize) -> i128
    requires sizes { HasSizes lp.now }
    requires row { i < lp.now.rows }
    ensures { result ≡ slack_cell lp.now.rows lp.now.cols lp.now.a lp.now.b i k }
{
    if k == 0 {
        return 0;
    }
    if k - 1 < lp.cols {
        return lp.a.as_slice()[i * lp.cols + (k - 1)];
    }
    let slack = k - 1 - lp.cols;
    if slack < lp.rows {
        return if slack == i { 1 } else { 0 };
    }
    lp.b.as_slice()[i]
}

/// The number of the first table's row `r` at place `k`.
#[tactic(auto, using(crate::proofs::TableLemmas::cells))]
fn cell(lp: &Lp, r: usize, k: usize) -> Option<i128>
    requires sizes { HasSizes lp.now }
    requires row { r < 1 + lp.now.rows }
    ensures { result ≡ cell lp.now.rows lp.now.cols lp.now.a lp.now.b lp.now.c r k }
{
    if r == 0 {
        return cost_cell(lp, k);
    }
    Some(slack_cell(lp, r - 1, k))
}

/// Pushes row `r` of the first table, or answers `false` where it exceeds 128 bits.
#[tactic(auto, using(crate::proofs::TableLemmas::pushes))]
fn push_row(lp: &Lp, r: usize, width: usize, cells: &mut Vec<i128>) -> Result<bool, AllocError>
    requires sizes { HasSizes lp.now }
    requires row { r < 1 + lp.now.rows }
    requires wide { width ≡ (1 + lp.now.cols + lp.now.rows) + 1 }
    ensures { IfOk result (λ done. Becomes done
        (option_map (λ row. cells.old.items ++ row) (first_row lp.now.rows lp.now.cols lp.now.a lp.now.b lp.now.c r))
        cells.new.items) }
{
    for k in 0..width {
        let Some(value) = cell(lp, r, k) else {
            return Ok(false);
        };
        cells.push(value)?;
    }
    Ok(true)
}

/// The first table's numbers, row by row, or `None` where one exceeds 128 bits.
#[tactic(auto, using(crate::proofs::TableLemmas::stacks))]
fn first_cells(alloc: Global, lp: &Lp, width: usize) -> Result<Option<Vec<i128>>, AllocError>
    requires sizes { HasSizes lp.now }
    requires wide { width ≡ (1 + lp.now.cols + lp.now.rows) + 1 }
    ensures value { IfOk result (λ o. option_map (λ v. rows_of (1 + lp.now.rows) width (vec_items v)) o ≡
        first_rows lp.now.rows lp.now.cols lp.now.a lp.now.b lp.now.c) }
    ensures size { IfOk result (λ o. IfSome o (λ v. vec_len v ≡ (1 + lp.now.rows) * width)) }
{
    let mut cells = Vec::new(alloc);
    let end = lp.b.as_slice().len() + 1;
    for r in 0..end {
        if !push_row(lp, r, width, &mut cells)? {
            return Ok(None);
        }
    }
    Ok(Some(cells))
}

/// The first basis: place 0, and each row's own slack.
#[tactic(auto, using(crate::proofs::TableLemmas::bases))]
fn first_basis(alloc: Global, rows: usize, cols: usize) -> Result<Vec<usize>, AllocError>
    requires { (1 + cols + rows) + 1 < 2 ^ 64 }
    ensures { IfOk result (λ v. vec_items v ≡ first_basis rows cols) }
{
    let mut basis = Vec::new(alloc);
    basis.push(0)?;
    for i in 0..rows {
        basis.push(1 + cols + i)?;
    }
    Ok(basis)
}
