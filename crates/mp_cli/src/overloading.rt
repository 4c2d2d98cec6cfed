//! How fast an overloaded network grows, whatever its junctions show.
ghost use Rattle.std.specs.Prelude.{◌≡◌, ◌+◌, ◌++◌, ◌<◌, ◌≤ℤ◌, ℕ, List, Option, None, All, IfOk, IfErr, OnOk, pos, length};
ghost use Rattle.mp_edge.specs.Outside.{Rose, Tells, Puts, HasCause};
ghost use Rattle.mp_model.specs.Run.{opening};
ghost use Rattle.mp_step.specs.Standing.{Stands};
ghost use Rattle.mp_growth.specs.OnTrail.{IsTrail};
ghost use Rattle.mp_overload.specs.Evens.{uneven_link};
ghost use Rattle.mp_cli.specs.Outcomes.{outcome_of_growth, outcome_of_trail};
ghost use Rattle.mp_cli.specs.Overloading.{Overloads, IsNotOverloaded, IsUntold, told_run, told_queues, told_formed, growth_line, periods_line, told_text, StepsGreatest, IsSo};
ghost use Rattle.mp_cli.specs.Statuses.{status_of, HasNoFault};
ghost use Rattle.mp_cli.specs.Verdicts.{IsShownOverloaded};

use crate::opening::open_net;
use crate::outcome::Outcome;
use crate::session::outcome_of_calculation;
use arrayvec::ArrayVec;
use mp_admit::{Verdict, admit};
use mp_cert::{Against, print_against};
use mp_edge::{Failed, Sink, Store};
use mp_flow::Place;
use mp_growth::{GrowthFault, GrowthRate, Trail, TrailFault, growth};
use mp_log::{push_number, push_text};
use mp_net::Net;
use mp_press::choose_all;
use mp_text::LineSink;
use std::alloc::Global;

/// The number of periods of the run that `overload` tells of.
pub const PERIODS: u32 = 1000;

/// What is told beside the vector: its growth, what it weighs of the queues after the run, and the least that this has
/// come to.
#[derive(Clone, Copy)]
pub struct Told {
    pub rate: GrowthRate,
    pub sum: i128,
    pub least: i128,
}

// The outcome of a trail that is not made.
fn outcome_of_trail(fault: TrailFault) -> Outcome
    ensures { result ≡ outcome_of_trail fault }
{
    match fault {
        TrailFault::Uneven { link } => Outcome::Uneven(link),
        TrailFault::NoMemory => Outcome::NoMemory,
    }
}

// The outcome of a growth that is not formed.
fn outcome_of_growth(fault: GrowthFault) -> Outcome
    ensures { result ≡ outcome_of_growth fault }
{
    match fault {
        GrowthFault::Vector => Outcome::Overflow(Place::Vector),
        GrowthFault::Growth => Outcome::GrowthOverflow,
    }
}

// The vector that shows an overloaded network, or why it is none.
fn overloaded(alloc: Global, net: &Net) -> Result<Against, Outcome>
    ensures shown { IfOk result (λ against. IsShownOverloaded net.now against.p) }
    ensures lengths { IfOk result (λ against. length against.p ≡ length net.now.movements) }
    ensures signs { IfOk result (λ against. All (λ x. pos 0 ≤ℤ x) against.p) }
    ensures refused { IfErr result (λ outcome. IsNotOverloaded outcome net.now) }
    ensures inside { IfErr result HasNoFault }
{
    // A network's share total comes with what its rules say.
    let _ = net.shares();
    match admit(alloc, net) {
        Ok(Verdict::Overloaded { against }) => Ok(against),
        Ok(Verdict::Critical { against }) => Err(Outcome::Critical(against)),
        Ok(Verdict::Admitted { .. }) => Err(Outcome::Admitted),
        Err(fault) => Err(outcome_of_calculation(fault)),
    }
}

// One period with the stages of greatest pressure.
fn step_greatest(net: &Net, trail: &mut Trail)
    requires on { IsTrail net.now trail.old }
    requires period { trail.old.period < PERIODS }
    ensures step { StepsGreatest net.now trail.old trail.new }
    ensures on { IsTrail net.now trail.new }
    ensures period { trail.new.period ≡ trail.old.period + 1 }
{
    let mut stages = ArrayVec::new();
    choose_all(net, trail.state().queues(), &mut stages);
    trail.step(net, &stages);
}

// Goes on from the opening for all periods, each with the stages of greatest pressure.
fn run_evenly(net: &Net, trail: &mut Trail)
    requires on { IsTrail net.now trail.old }
    requires start { Stands net.now trail.old (opening net.now) }
    ensures on { IsTrail net.now trail.new }
    ensures end { Stands net.now trail.new (told_run net.now) }
    ensures period { trail.new.period ≡ PERIODS }
{
    for _turn in 0..PERIODS {
        step_greatest(net, trail);
    }
}

// What is told of an overloaded network, or why it is not.
fn tell(alloc: Global, net: &Net, against: &Against) -> Result<Told, Outcome>
    requires lengths { length against.now.p ≡ length net.now.movements }
    requires signs { All (λ x. pos 0 ≤ℤ x) against.now.p }
    ensures even { OnOk result (uneven_link net.now ≡ None) }
    ensures told { IfOk result (λ told. told_formed net.now PERIODS against.now.p (told_queues net.now) ≡ Some told) }
    ensures so { IfOk result (λ told. IsSo net.now against.now.p told) }
    ensures refused { IfErr result (λ outcome. IsUntold outcome net.now against.now.p) }
    ensures inside { IfErr result HasNoFault }
{
    let mut trail = match Trail::new(alloc, net) {
        Ok(trail) => trail,
        Err(fault) => return Err(outcome_of_trail(fault)),
    };
    let rate = match growth(net, against) {
        Ok(rate) => rate,
        Err(fault) => return Err(outcome_of_growth(fault)),
    };
    run_evenly(net, &mut trail);
    let sum = match trail.sum(net, against) {
        Ok(sum) => sum,
        Err(fault) => return Err(outcome_of_growth(fault)),
    };
    match rate.least(PERIODS) {
        Ok(least) => Ok(Told { rate, sum, least }),
        Err(fault) => Err(outcome_of_growth(fault)),
    }
}

// Puts the line of the growth.
fn put_growth<Out: Sink>(out: &mut Out, rate: GrowthRate) -> Result<(), Failed>
    ensures bytes { Tells (Out.held out.old) (Out.held out.new) (Puts result (growth_line rate.per rate.lost)) }
    ensures cause { HasCause (Out.faults out.old) (Out.faults out.new) result }
{
    let mut line = LineSink::new();
    push_text(&mut line, b"growth ");
    push_number(&mut line, rate.per);
    push_text(&mut line, b" constant ");
    push_number(&mut line, rate.lost);
    push_text(&mut line, b"\n");
    out.put(line.bytes())
}

// Puts the line of the run.
fn put_run<Out: Sink>(out: &mut Out, told: Told) -> Result<(), Failed>
    ensures bytes { Tells (Out.held out.old) (Out.held out.new) (Puts result (periods_line told.sum told.least)) }
    ensures cause { HasCause (Out.faults out.old) (Out.faults out.new) result }
{
    let mut line = LineSink::new();
    push_text(&mut line, b"periods 1000 sum ");
    push_number(&mut line, told.sum);
    push_text(&mut line, b" least ");
    push_number(&mut line, told.least);
    push_text(&mut line, b"\n");
    out.put(line.bytes())
}

// Puts both lines.
fn put_lines<Out: Sink>(out: &mut Out, told: Told) -> Result<(), Failed>
    ensures bytes { Tells (Out.held out.old) (Out.held out.new) (Puts result (growth_line told.rate.per told.rate.lost ++ periods_line told.sum told.least)) }
    ensures cause { HasCause (Out.faults out.old) (Out.faults out.new) result }
{
    put_growth(out, told.rate)?;
    put_run(out, told)
}

// Puts both lines, and the vector behind them.
fn put_told<Out: Sink>(out: &mut Out, told: Told, against: &Against) -> Result<(), Failed>
    ensures bytes { Tells (Out.held out.old) (Out.held out.new) (Puts result (told_text told.rate.per told.rate.lost told.sum told.least against.now.p)) }
    ensures cause { HasCause (Out.faults out.old) (Out.faults out.new) result }
{
    put_lines(out, told)?;
    print_against(out, against)
}

/// Finds the verdict on the network, and where it is overloaded writes how fast its queues grow, whatever its junctions
/// show.
pub fn overload<St: Store, Out: Sink>(
    alloc: Global,
    name: &str,
    store: &mut St,
    out: &mut Out,
) -> Outcome
    ensures means { (left : Option (List ℕ)) → Overloads result name.now (record { files = St.files store.old; input_before = left; input_after = left; output_before = Out.held out.old; output_after = Out.held out.new }) }
    ensures store { status_of result ≡ 2 → Rose (St.faults store.old) (St.faults store.new) }
    ensures write { status_of result ≡ 11 → Rose (Out.faults out.old) (Out.faults out.new) }
    ensures unread { ¬ (status_of result ≡ 10) }
{
    let net = match open_net(alloc, name, store) {
        Ok(net) => net,
        Err(outcome) => return outcome,
    };
    let against = match overloaded(alloc, &net) {
        Ok(against) => against,
        Err(outcome) => return outcome,
    };
    let told = match tell(alloc, &net, &against) {
        Ok(told) => told,
        Err(outcome) => return outcome,
    };
    match put_told(out, told, &against) {
        Ok(()) => Outcome::Done,
        Err(Failed) => Outcome::Write,
    }
}
