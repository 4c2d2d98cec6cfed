//! What may happen in a period, and what a round answers to it.
use mp_net::{JunctionNo, LinkNo, StageNo};

/// What may happen in a period.
#[derive(Clone, Copy, Debug)]
pub enum Event<'a> {
    /// The junction hears the link: it copies the counts of now of the movements out of the link.
    Hear { junction: JunctionNo, link: LinkNo },
    /// The junction decides on its stage of this period.
    Decide { junction: JunctionNo },
    /// The period closes, with these arrivals: one count per fed link.
    Close { arrivals: &'a [u64] },
}

/// What an event did, or the first cause for which it did nothing.
#[derive(Clone, Copy, Debug, PartialEq, Eq)]
pub enum Answer {
    /// The junction has a copy of the counts of now.
    Heard,
    /// The movements of the junction don't go to the link.
    NotAdjacent { junction: JunctionNo, link: LinkNo },
    /// The stage of the junction in this period.
    Chose { stage: StageNo },
    /// The junction feeds the link, and has no copy of it that a decision accepts, nor of none before it.
    Stale { junction: JunctionNo, link: LinkNo },
    /// The junction has not decided in this period, and all before it have.
    Undecided { junction: JunctionNo },
    /// The arrivals would put the link above its bucket, and no link of lower number.
    AboveAt { link: LinkNo },
    /// The period is closed.
    Closed,
}
