//! Runs over lines of arrivals alone: why they refuse a line, and how they end.
ghost use Rattle.std.specs.Prelude.{◌≡◌};
ghost use Rattle.mp_stream.specs.Arrivals.{stream_end};

use crate::driving::End;
use mp_net::LinkNo;

/// Why a run refuses a line of arrivals: in this period, which is the next, the link is the least that
/// does not keep to its bucket.
#[derive(Clone, Copy, Debug, PartialEq, Eq)]
pub struct AboveBucket {
    pub period: u64,
    pub link: LinkNo,
}

/// How a run ends that takes lines of arrivals alone. Lines are numbered from 1, and all lines count.
#[derive(Clone, Copy, Debug, PartialEq, Eq)]
pub enum ArrivalsEnd {
    /// The stream was read to its end.
    Done,
    /// The source met a fault.
    Read,
    /// The sink met a fault.
    Write,
    /// The stream has more than 2^48 lines.
    LineLimit,
    /// The line has more than 2,048 bytes.
    Long {
        line: u64,
    },
    /// The line is not in the grammar, or is a hearing or a decision.
    Grammar {
        line: u64,
    },
    /// The line gives the arrivals of this period, the first in which some link does not keep to its
    /// bucket; the link is the least one.
    Above {
        line: u64,
        period: u64,
        link: LinkNo,
    },
}

/// The end of a run that takes lines of arrivals alone.
pub fn arrivals_end(end: End<AboveBucket>) -> ArrivalsEnd
    ensures same { stream_end result ≡ end }
    ensures read { result ≡ ArrivalsEnd.Read → end ≡ End.Read }
    ensures write { result ≡ ArrivalsEnd.Write → end ≡ End.Write }
{
    match end {
        End::Done => ArrivalsEnd::Done,
        End::Read => ArrivalsEnd::Read,
        End::Write => ArrivalsEnd::Write,
        End::LineLimit => ArrivalsEnd::LineLimit,
        End::Long { line } => ArrivalsEnd::Long { line },
        End::Bad { line } => ArrivalsEnd::Grammar { line },
        End::Refused {
            line,
            refusal: AboveBucket { period, link },
        } => ArrivalsEnd::Above { line, period, link },
    }
}
