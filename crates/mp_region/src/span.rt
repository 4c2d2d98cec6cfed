// Spans of a region.
ghost use Rattle.std.specs.Prelude.{◌≡◌, ◌+◌, ◌<◌, ◌^◌};
ghost use Rattle.mp_region.specs.Cells.{Extent};

use std::marker::Model;

/// A span of the cells of a region: the handle by which they are read and written. `Region::carve`
/// gives each span once, and it can't be copied.
#[derive(Debug, Drop)]
pub struct Span {
    at: usize,
    len: usize,
}

impl Model for Span {
    ghost use Rattle.mp_region.specs.Cells.{Extent};
    ghost use Rattle.mp_region.specs.Kept.{extent_of, IsAddressed};

    ghost Value = { Extent };

    ghost view = { extent_of };

    ghost invariant = { IsAddressed };
}

impl Span {
    /// The span of `len` cells from the cell `at` on.
    pub(crate) fn new(at: usize, len: usize) -> Span
        requires { at + len < 2 ^ 64 }
        ensures { result ≡ record { at = at; len = len } }
    {
        Span { at, len }
    }

    /// The number of its first cell in the region, from 0; of an empty span, of the cell behind it.
    pub fn at(&self) -> usize
        ensures { result ≡ self.now.at }
    {
        self.at
    }

    /// How many cells it has.
    pub fn len(&self) -> usize
        ensures { result ≡ self.now.len }
    {
        self.len
    }
}
