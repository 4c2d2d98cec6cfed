// Regions of cells.
ghost use Rattle.std.specs.Prelude.{◌≡◌, ◌≤◌, ◌<◌, ◌+◌, ◌↔◌, length, pos, replicate, slice_index_or, slice_set, IfOk, IfSome, IsNone, MatchOption};
ghost use Rattle.mp_region.specs.Cells.{Cells, Extent, IsWithin, ShareNoCell, part_of, put};

use crate::memory::NoMemory;
use crate::span::Span;
use std::alloc::Global;
use std::marker::Model;

/// A fixed number of cells, made once. Spans are carved from it one behind the other, so no two of
/// them share a cell.
#[derive(Drop)]
pub struct Region {
    cells: Vec<i128>,
    used: usize,
}

impl Model for Region {
    ghost use Rattle.mp_region.specs.Cells.{Cells};
    ghost use Rattle.mp_region.specs.Kept.{cells_of, IsUsed};

    ghost Value = { Cells };

    ghost view = { cells_of };

    ghost invariant = { IsUsed };
}

impl Region {
    ghost use Rattle.std.specs.Borrow.{sem};
    ghost use Rattle.mp_region.specs.Lending.{LendsCells};

    /// A region of so many cells, which are all 0, and of which none is used. `NoMemory` comes only
    /// where memory runs out.
    pub fn new(alloc: Global, cells: usize) -> Result<Region, NoMemory>
        ensures { IfOk result (λ region. region ≡ record { cells = replicate cells (pos 0); used = 0 }) }
    {
        let cells = vec![in alloc; 0i128; cells]?;
        Ok(Region { cells, used: 0 })
    }

    /// The span of the next n cells, which are then used. `None` comes exactly where fewer than n
    /// cells are free, and then all stays.
    pub fn carve(&mut self, n: usize) -> Option<Span>
        ensures none { IsNone result ↔ (length self.old.cells < self.old.used + n) }
        ensures span { IfSome result (λ span. span ≡ record { at = self.old.used; len = n }) }
        ensures used { MatchOption result (self.new ≡ self.old) (λ span. self.new ≡ record self.old { used = self.old.used + n }) }
        ensures within { IfSome result (IsWithin self.new) }
        ensures apart { IfSome result (λ span. (other : Extent) → IsWithin self.old other → ShareNoCell other span) }
    {
        if n > self.cells.len() - self.used {
            return None;
        }
        let span = Span::new(self.used, n);
        self.used += n;
        Some(span)
    }

    /// The i-th cell of the span, from 0.
    pub fn get(&self, span: &Span, i: usize) -> i128
        requires within { IsWithin self.now span.now }
        requires known { i < span.now.len }
        ensures { result ≡ slice_index_or (part_of self.now span.now) i (pos 0) }
    {
        self.part(span)[i]
    }

    /// Puts a value into the i-th cell of the span, from 0. All other cells stay.
    pub fn set(&mut self, span: &Span, i: usize, value: i128)
        requires within { IsWithin self.old span.now }
        requires known { i < span.now.len }
        ensures value { self.new ≡ put self.old span.now i value }
        ensures written { part_of self.new span.now ≡ slice_set (part_of self.old span.now) i value }
        ensures others { (other : Extent) → ShareNoCell span.now other → part_of self.new other ≡ part_of self.old other }
    {
        self.cells[span.at() + i] = value;
    }

    /// The cells of the span.
    pub fn part(&self, span: &Span) -> &[i128]
        requires { IsWithin self.now span.now }
        ensures cells { result.now ≡ part_of self.now span.now }
        ensures len { length result.now ≡ span.now.len }
    {
        &self.cells[span.at()..span.at() + span.len()]
    }

    /// All cells, to be written. Where one span is to be read while another is written, `split_at_mut`
    /// cuts them apart at the end of a span.
    pub fn cells_mut(&mut self) -> &mut [i128]
        ensures* lends { sem 𝓛 (LendsCells self.entry result) }
        ensures cells { result.now ≡ self.old.cells }
        ensures len { length result.now ≡ length self.old.cells }
    {
        &mut self.cells
    }

    /// Swaps the contents of two spans of equal lengths that share no cell. It exchanges the two
    /// handles, so no cell is touched.
    pub fn flip(&self, first: &mut Span, second: &mut Span)
        requires lengths { first.old.len ≡ second.old.len }
        requires apart { ShareNoCell first.old second.old }
        requires within { IsWithin self.now first.old × IsWithin self.now second.old }
        ensures first { first.new ≡ second.old }
        ensures second { second.new ≡ first.old }
        ensures contents { (part_of self.now first.new ≡ part_of self.now second.old) × (part_of self.now second.new ≡ part_of self.now first.old) }
    {
        std::mem::swap(first, second);
    }
}
