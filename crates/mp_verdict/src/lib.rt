//! The mathematics of the verdict on a network: the stated calculation, and the laws above it, each on a function with an empty body.
#![tactic(auto)]

ghost use Rattle.mp_verdict.specs.Laws.{ApartLaw, BoundedLaw, CertifiedLaw, CriticalLaw, ExactLaw, MotionLaw, RatesLaw, SatisfiedLaw, VerdictLaw};
ghost use Rattle.mp_verdict.specs.TurnLaws.{FallsLaw, RoundsLaw};
ghost use Rattle.mp_verdict.specs.VectorLaws.{FactsLaw, SignLaw, VectorLaw};
ghost use Rattle.mp_verdict.specs.WorkedVerdicts.{AreWorkedVerdicts};

/// How many turns each junction has in the game, its pivots and its falls of the slack, and how many pivots the
/// program of its mix.
pub const TURN_LIMIT: u32 = 4_096;

/// The five facts of the vector that shows a slack.
pub fn facts_law()
    ensures { FactsLaw }
{}

/// The vector of a worst junction shows the junction's slack, also after it was divided.
pub fn vector_law()
    ensures { VectorLaw }
{}

/// A vector that shows the slack 0 is tight, one that shows a slack below 0 shows an overload, and above 0 it shows the slack.
pub fn sign_law()
    ensures { SignLaw }
{}

/// No program of a junction grows without end.
pub fn bounded_law()
    ensures { BoundedLaw }
{}

/// Each turn lowers the slack, until the junction carries it.
pub fn falls_law()
    ensures { FallsLaw }
{}

/// The play of a junction ends by its turns alone.
pub fn rounds_law()
    ensures { RoundsLaw }
{}

/// In the game the earlier junctions stay satisfied, and the slack is always that of a worst junction.
pub fn satisfied_law()
    ensures { SatisfiedLaw }
{}

/// Only a network without movements ends its game without a score.
pub fn motion_law()
    ensures { MotionLaw }
{}

/// In the rates at the slack of the game's end nothing exceeds 128 bits.
pub fn rates_law()
    ensures { RatesLaw }
{}

/// The rates and the mixes at the game's end are a certificate with its slack.
pub fn certified_law()
    ensures { CertifiedLaw }
{}

/// The verdict of the stated calculation holds of the network.
pub fn verdict_law<X>()
    ensures { VerdictLaw X }
{}

/// A critical network carries its rates with nothing to spare: some mix of its stages carries them, and no certificate certifies it.
pub fn critical_law<X>()
    ensures { CriticalLaw X }
{}

/// No two verdicts hold of one network.
pub fn apart_law()
    ensures { ApartLaw }
{}

/// A verdict that holds of a network is the only one.
pub fn exact_law()
    ensures { ExactLaw }
{}

/// The verdicts on the worked networks.
pub fn worked_verdicts()
    ensures { AreWorkedVerdicts }
{}
