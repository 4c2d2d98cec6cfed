//! The stages of all junctions in one flat list.
ghost use Rattle.std.specs.Prelude.{◌≡◌, ◌≤◌, ◌+◌, ◌++◌, length, map, IfOk, OnOk};
ghost use Rattle.mp_model.specs.Network.{junction_at};
ghost use Rattle.mp_net.specs.Parts.{network_of, junction_of};
ghost use Rattle.mp_net.specs.Small.{IsSmall};
ghost use Rattle.mp_net.specs.Rows.{IsTable, AreSpans, Extends};

use crate::{JunctionNo, MovementNo, NetParts};
use std::alloc::{AllocError, Global};

/// Where the movements of a stage lie in the flat list, from `start` to before `end`.
#[derive(Clone, Copy)]
pub struct StageSpan {
    pub start: usize,
    pub end: usize,
}

fn put_stage(greens: &mut Vec<MovementNo>, stage: &[MovementNo]) -> Result<StageSpan, AllocError>
    ensures grown { OnOk result (greens.new.items ≡ greens.old.items ++ stage.now) }
    ensures start { IfOk result (λ span. span.start ≡ length greens.old.items) }
    ensures end { IfOk result (λ span. span.end ≡ length greens.old.items + length stage.now) }
{
    let start = greens.len();
    greens.extend_from_slice(stage)?;
    let end = greens.len();
    Ok(StageSpan { start, end })
}

// Puts the stages of a junction behind what is there, and answers where they lie.
fn put_stages(
    alloc: Global,
    stages: &[Vec<MovementNo>],
    greens: &mut Vec<MovementNo>,
) -> Result<Vec<StageSpan>, AllocError>
    ensures grown { OnOk result (Extends greens.old.items greens.new.items) }
    ensures spans { IfOk result (λ spans. AreSpans greens.new.items (map (λ stage. stage.items) stages.now) spans.items) }
{
    let mut spans = Vec::new(alloc);
    for stage in stages {
        spans.push(put_stage(greens, stage)?)?;
    }
    Ok(spans)
}

/// Puts the stages of each junction behind one another, and answers where they lie, in a row per junction.
pub fn put_greens(
    alloc: Global,
    parts: &NetParts,
    greens: &mut Vec<MovementNo>,
) -> Result<Vec<Vec<StageSpan>>, AllocError>
    requires { IsSmall parts.now }
    ensures { IfOk result (λ rows. IsTable (λ j spans. AreSpans greens.new.items (junction_at (network_of parts.now) j).stages spans.items) (length (network_of parts.now).junctions) rows.items) }
{
    let end = parts.junctions.len() as JunctionNo + 1;
    let mut rows = Vec::new(alloc);
    for j in 1..end {
        rows.push(put_stages(alloc, &parts.junctions[usize::from(j) - 1].stages, greens)?)?;
    }
    Ok(rows)
}
