//! How the program ends.
ghost use Rattle.std.specs.Prelude.{◌≡◌};
ghost use Rattle.mp_cli.specs.Outcomes.{broken_rule};
ghost use Rattle.mp_cli.specs.Statuses.{status_of, run_status};

use mp_cert::{Against, CertFault};
use mp_flow::Place;
use mp_guard::GuardFault;
use mp_net::{JunctionNo, LinkNo, MovementNo, NetRule, Spot, StageNo};
use mp_run::RunEnd;

/// One of the files that the words name.
#[derive(Clone, Copy, Debug, PartialEq, Eq)]
pub enum FileRole {
    /// The network file.
    Net,
    /// The other file: a certificate, a vector or a guard.
    Other,
}

/// What the text of the other file is to be.
#[derive(Clone, Copy, Debug, PartialEq, Eq)]
pub enum TextKind {
    /// A certificate.
    Certificate,
    /// A vector against the network.
    Vector,
    /// A guard.
    Guard,
}

/// A rule of a certificate, with the numbers of the movement, or of the junction and the stage.
#[derive(Clone, Copy, Debug, PartialEq, Eq)]
pub enum CertRule {
    /// The denominator is at least 1.
    D,
    /// The excess is at least 1.
    E,
    /// The rate is at least 0.
    H(MovementNo),
    /// The whole is at least 1.
    Whole(JunctionNo),
    /// The part is at least 0.
    Part(JunctionNo, StageNo),
    /// The parts sum to at most the whole times the denominator.
    Mass(JunctionNo),
    /// The stages with green for the movement serve its rate.
    Serve(MovementNo),
    /// The rate is at least what comes to the movement and the excess.
    Balance(MovementNo),
}

/// The rule that a fault of a certificate names, and nothing for an overflow.
pub fn broken_rule(fault: CertFault) -> Option<CertRule>
    ensures { result ≡ broken_rule fault }
{
    match fault {
        CertFault::D => Some(CertRule::D),
        CertFault::E => Some(CertRule::E),
        CertFault::H(k) => Some(CertRule::H(k)),
        CertFault::Whole(j) => Some(CertRule::Whole(j)),
        CertFault::Part(j, s) => Some(CertRule::Part(j, s)),
        CertFault::Mass(j) => Some(CertRule::Mass(j)),
        CertFault::Serve(k) => Some(CertRule::Serve(k)),
        CertFault::Balance(k) => Some(CertRule::Balance(k)),
        CertFault::Overflow => None,
    }
}

/// How a command ends.
#[derive(Debug, Drop)]
pub enum Outcome {
    /// It did what was asked, where that is no run of a stream and no control.
    Done,
    /// The run of the stream, or the controller, ended so.
    Run(RunEnd),
    /// The line of the stream has the junction decide, which has no copy of the link that a decision accepts; the
    /// link is the least one.
    Stale {
        line: u64,
        junction: JunctionNo,
        link: LinkNo,
    },
    /// The line of the stream has the junction hear the link, which no movement of the junction goes to.
    NotAdjacent {
        line: u64,
        junction: JunctionNo,
        link: LinkNo,
    },
    /// The words are not listed.
    Words,
    /// The store met a fault at this file.
    Store(FileRole),
    /// The network file breaks the rule first, there.
    Network {
        rule: NetRule,
        spot: Spot,
    },
    /// The other file has more than 1,048,576 bytes.
    LongText(TextKind),
    /// The line of the other file is the first that is not in its grammar.
    Text {
        kind: TextKind,
        line: u64,
    },
    /// The network is admitted, where only an overloaded one serves.
    Admitted,
    /// The network is critical, as the vector shows.
    Critical(Against),
    /// The network is overloaded, as the vector shows.
    Overloaded(Against),
    /// The certificate breaks the rule first.
    Certificate(CertRule),
    /// The guard breaks the rule first.
    BrokenGuard(GuardFault),
    /// All numbers of the vector are 0.
    ZeroVector,
    /// The load of the vector is below the capacity.
    WeakVector,
    /// There is no certificate with the denominator that was asked for.
    NoCertificate,
    /// A calculation exceeds 128 bits at this place, or a bound has no room.
    Overflow(Place),
    /// A calculation of the growth of an overloaded network exceeds 128 bits.
    GrowthOverflow,
    /// The turns of the game, or of a junction's program, end at this junction first.
    PivotLimit(JunctionNo),
    /// The trial of this excess is not at rest after its last sweep.
    SweepLimit(u64),
    /// This link is fed with a burst of 0 and a rate that is not a multiple of the rate length, and no link of lower
    /// number is.
    Uneven(LinkNo),
    /// The rate length of the frame network is above 3,600 periods.
    LongFrames,
    /// The rate of this link in the frame network is above 1,000 vehicles a period, and that of no link of lower
    /// number is.
    FastFrames(LinkNo),
    /// Movements lead from this link back to it, and from no link of lower number.
    CyclicPlan(LinkNo),
    /// The greens of this junction sum to more than the cycle of the plan.
    FullPlan(JunctionNo),
    /// A calculation of the plan exceeds 128 bits, or a bound of it has no room.
    PlanOverflow,
    /// No guard of the network has the denominator that was asked for.
    NoGuard,
    /// The greens of this junction and their lost periods don't fit into the cycle, and those of each before it do.
    FullGuard(JunctionNo),
    /// The bursts of the guard are not at rest after the last sweep.
    BurstLimit,
    /// The line of the input is the first that differs from a log.
    Differs {
        line: u64,
    },
    /// The input met a fault while a log was read.
    Read,
    /// The output met a fault, where no stream was run.
    Write,
    /// Memory could not be had.
    NoMemory,
}

// The status of a run's end.
fn run_status(end: RunEnd) -> u8
    ensures { result ≡ run_status end }
{
    match end {
        RunEnd::Done => 0,
        RunEnd::Long { .. } | RunEnd::Grammar { .. } => 7,
        RunEnd::Above { .. } => 8,
        RunEnd::LineLimit => 9,
        RunEnd::Read => 10,
        RunEnd::Write => 11,
    }
}

/// The status that the program ends with.
pub fn status_of(outcome: &Outcome) -> u8
    ensures { result ≡ status_of outcome.now }
{
    match outcome {
        Outcome::Done => 0,
        Outcome::Run(end) => run_status(*end),
        Outcome::Stale { .. } | Outcome::NotAdjacent { .. } => 14,
        Outcome::Words => 1,
        Outcome::Store(_) => 2,
        Outcome::Network { .. } | Outcome::LongText(_) | Outcome::Text { .. } => 3,
        Outcome::Admitted | Outcome::Critical(_) | Outcome::Overloaded(_) => 4,
        Outcome::Certificate(_) | Outcome::NoCertificate | Outcome::BrokenGuard(_) => 4,
        Outcome::ZeroVector | Outcome::WeakVector => 4,
        Outcome::Overflow(_) | Outcome::GrowthOverflow | Outcome::PlanOverflow => 5,
        Outcome::PivotLimit(_) => 6,
        Outcome::Read => 10,
        Outcome::Write => 11,
        Outcome::NoMemory => 12,
        Outcome::Differs { .. } => 13,
        Outcome::SweepLimit(_) | Outcome::BurstLimit => 15,
        Outcome::Uneven(_) => 16,
        Outcome::CyclicPlan(_) | Outcome::FullPlan(_) => 17,
        Outcome::LongFrames | Outcome::FastFrames(_) => 18,
        Outcome::NoGuard | Outcome::FullGuard(_) => 19,
    }
}
