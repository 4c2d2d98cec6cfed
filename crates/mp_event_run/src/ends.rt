//! Why a session by events refuses a line, and how its run ends.
use mp_net::{JunctionNo, LinkNo};

/// How a run by events ends. Lines are numbered from 1, and all lines count.
#[derive(Clone, Copy, Debug, PartialEq, Eq)]
pub enum RunEnd {
    /// The stream was read to its end.
    Done,
    /// The source met a fault.
    Read,
    /// The sink met a fault.
    Write,
    /// The stream has more than 2^48 lines.
    LineLimit,
    /// The line has more than 2,048 bytes.
    Long {
        line: u64,
    },
    /// The line is not in the grammar.
    Grammar {
        line: u64,
    },
    /// The line gives the arrivals of this period, the first in which some link does not keep to its
    /// bucket; the link is the least one.
    Above {
        line: u64,
        period: u64,
        link: LinkNo,
    },
    /// The line has the junction decide, which feeds the link and has no copy of it that a decision
    /// accepts; the link is the least one.
    Stale {
        line: u64,
        junction: JunctionNo,
        link: LinkNo,
    },
    /// The line has the junction hear the link, which no movement of the junction goes to.
    NotAdjacent {
        line: u64,
        junction: JunctionNo,
        link: LinkNo,
    },
}

/// Why a session refuses a line.
#[derive(Clone, Copy, Debug, PartialEq, Eq)]
pub enum Refusal {
    /// The line gives the arrivals of this period, which is the next, and the link is the least that
    /// does not keep to its bucket.
    Above { period: u64, link: LinkNo },
    /// The junction can't decide, as it has no copy of this link that a decision accepts; the link is
    /// the least one.
    Stale { junction: JunctionNo, link: LinkNo },
    /// The junction can't hear the link, as it does not feed it.
    NotAdjacent { junction: JunctionNo, link: LinkNo },
}
