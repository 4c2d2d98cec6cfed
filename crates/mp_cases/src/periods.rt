//! Periods of a network, and the weights of its movements.
ghost use Rattle.std.specs.Prelude.{◌≤◌, ◌<◌, ◌^◌, All, IsTrue, IfOk, length};
ghost use Rattle.mp_model.specs.Arrivals.{HasCounts};
ghost use Rattle.mp_press.specs.Presses.{CanWeigh};
ghost use Rattle.mp_press.specs.Queues.{AreCounts};
ghost use Rattle.mp_step.specs.Standing.{IsOn};

use crate::files::{Stop, naturals};
use arrayvec::ArrayVec;
use mp_net::{Net, StageNo};
use mp_press::{choose, choose_all, weight};
use mp_step::{AboveAt, State};
use std::alloc::{AllocError, Global};

/// One count of at most 9 digits per fed link.
pub fn is_line(net: &Net, counts: &[u64]) -> bool
    ensures fed { IsTrue result → HasCounts net.now counts.now }
    ensures digits { IsTrue result → All (λ a. a < 10 ^ 9) counts.now }
{
    counts.len() == net.fed().len() && counts.iter().all(|count| *count < 1_000_000_000)
}

fn opening(alloc: Global, net: &Net) -> Result<State, Stop>
    ensures { IfOk result (IsOn net.now) }
{
    match State::empty(alloc, net) {
        Ok(state) => Ok(state),
        Err(_) => Err(Stop::NoMemory),
    }
}

// Closes a period with these counts under the stages of greatest pressure: the link that is above its bucket, or 0.
fn close(net: &Net, state: &mut State, counts: &[u64]) -> Result<u16, Stop>
    requires { IsOn net.now state.old }
    ensures { IsOn net.now state.new }
{
    if !is_line(net, counts) || state.period() >= 1 << 48 {
        return Err(Stop::Unwritten);
    }
    let mut stages: ArrayVec<StageNo, 64> = ArrayVec::new();
    choose_all(net, state.queues(), &mut stages);
    match state.close(net, &stages, counts) {
        Ok(()) => Ok(0),
        Err(AboveAt { link }) => Ok(link),
    }
}

// Closes a period in which the movements with a flag pass: the link that is above its bucket, or 0.
fn close_open(net: &Net, state: &mut State, flags: &[bool], counts: &[u64]) -> Result<u16, Stop>
    requires { IsOn net.now state.old }
    ensures { IsOn net.now state.new }
{
    if !is_line(net, counts)
        || flags.len() != usize::from(net.movements())
        || state.period() >= 1 << 48
    {
        return Err(Stop::Unwritten);
    }
    match state.close_open(net, flags, counts) {
        Ok(()) => Ok(0),
        Err(AboveAt { link }) => Ok(link),
    }
}

// The period, the queues, how many entered and departed, and the room of each link.
fn shown(alloc: Global, net: &Net, state: &State) -> Result<String, AllocError>
    requires { IsOn net.now state.now }
{
    let mut text = format!(in alloc;
        "{} {:?} {} {} room",
        state.period(),
        state.queues(),
        state.total_in(),
        state.total_out()
    )?;
    for i in 0..net.links() {
        text.push_str(format!(in alloc; " {}", state.room(i + 1))?.as_str())?;
    }
    Ok(text)
}

// The flags of a word of 0 and 1.
fn flags_of(alloc: Global, word: &str) -> Result<Vec<bool>, AllocError> {
    let mut flags = Vec::new(alloc);
    for digit in word.chars() {
        flags.push(digit == '1')?;
    }
    Ok(flags)
}

// Closes a period with these arrivals, or with flags and arrivals: the link that is above its bucket, or 0.
fn close_by(alloc: Global, net: &Net, state: &mut State, row: &str) -> Result<u16, Stop>
    requires { IsOn net.now state.old }
    ensures { IsOn net.now state.new }
{
    let Some((flags, counts)) = row.split_once(' ') else {
        let counts = naturals(alloc, row)?;
        return close(net, state, &counts);
    };
    let (flags, counts) = (flags_of(alloc, flags)?, naturals(alloc, counts)?);
    close_open(net, state, &flags, &counts)
}

// What the state shows after such a period, behind the link that was above its bucket, if one was.
fn row(alloc: Global, net: &Net, state: &mut State, row: &str) -> Result<String, Stop>
    requires { IsOn net.now state.old }
    ensures { IsOn net.now state.new }
{
    let above = match close_by(alloc, net, state, row)? {
        0 => String::new(alloc),
        link => format!(in alloc; "above {link}: ")?,
    };
    let shown = shown(alloc, net, state)?;
    Ok(format!(in alloc; "{}{}\n", above.as_str(), shown.as_str())?)
}

/// What the state shows after each period with these arrivals, a slash between two. Flags before the
/// arrivals say which movements pass, in place of the stages of greatest pressure.
pub fn periods(alloc: Global, net: &Net, rows: &str) -> Result<String, Stop> {
    let mut state = opening(alloc, net)?;
    let mut told = String::new(alloc);
    for case in rows.split('/') {
        told.push_str(row(alloc, net, &mut state, case)?.as_str())?;
    }
    Ok(told)
}

// A state after one period with these counts.
fn after(alloc: Global, net: &Net, counts: &str) -> Result<State, Stop> {
    let mut state = opening(alloc, net)?;
    let counts = naturals(alloc, counts)?;
    match close(net, &mut state, &counts)? {
        0 => Ok(state),
        _ => Err(Stop::Unwritten),
    }
}

// There is a count per movement of the first junction, and one per movement behind it.
fn can_weigh(net: &Net, own: &[i128], next: &[i128]) -> bool
    requires some { 1 ≤ length net.now.junctions }
    requires own { AreCounts own.now }
    requires next { AreCounts next.now }
    ensures { IsTrue result → CanWeigh net.now 1 own.now next.now }
{
    if own.len() != net.own(1).len() {
        return false;
    }
    next.len() == net.next(1).len()
}

/// The weights at the one junction of a network whose movements are those behind it too, and the stage that is
/// chosen, with the queues after one period for its own movements and those after another for the ones behind.
pub fn weights(alloc: Global, net: &Net, own: &str, next: &str) -> Result<String, Stop> {
    let (own, next) = (after(alloc, net, own)?, after(alloc, net, next)?);
    let (own, next) = (own.queues(), next.queues());
    if net.junctions() < 1 || !can_weigh(net, own, next) {
        return Err(Stop::Unwritten);
    }
    let mut told = format!(in alloc; "stage {} weights", choose(net, 1, own, next))?;
    for i in 0..own.len() {
        told.push_str(format!(in alloc; " {}", weight(net, 1, own, next, i))?.as_str())?;
    }
    told.push_str("\n")?;
    Ok(told)
}
