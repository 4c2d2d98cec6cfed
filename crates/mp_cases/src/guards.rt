//! Guards: found, read and checked, with their surpluses, bursts, bounds and waits.
ghost use Rattle.mp_model.specs.Guard.{Guards};

use crate::calls::text;
use crate::files::{Stop, naturals};
use mp_edge::MemSink;
use mp_finder::find;
use mp_guard::{BurstFault, Guard, bounds, bursts, check, put_guard, read_guard, surpluses, waits};
use mp_net::Net;
use std::alloc::Global;

// The text of the guard.
fn put(alloc: Global, guard: &Guard) -> Result<String, Stop> {
    let Ok(mut out) = MemSink::new(alloc, 4096, &[]) else {
        return Err(Stop::NoMemory);
    };
    match put_guard(alloc, &mut out, guard) {
        Ok(()) => Ok(String::from_str(alloc, text(&out)?)?),
        Err(_) => Err(Stop::Unwritten),
    }
}

// The text of the guard, and what follows from it.
fn told(alloc: Global, net: &Net, guard: &Guard) -> Result<String, Stop>
    requires { Guards net.now guard.now }
{
    let text = put(alloc, guard)?;
    let (Ok(ahead), Ok(waits)) = (surpluses(alloc, net), waits(alloc, net, guard)) else {
        return Err(Stop::NoMemory);
    };
    let bursts = match bursts(alloc, net, guard, &ahead) {
        Ok(bursts) => bursts,
        Err(BurstFault::Sweeps) => return Ok(format!(in alloc; "{}no rest\n", text.as_str())?),
        Err(BurstFault::NoMemory) => return Err(Stop::NoMemory),
    };
    let Ok(bounds) = bounds(alloc, net, guard, &ahead, &bursts) else {
        return Err(Stop::NoMemory);
    };
    let (ahead, bursts) = (ahead.as_slice(), bursts.as_slice());
    let (bounds, waits) = (bounds.as_slice(), waits.as_slice());
    Ok(format!(in alloc;
        "{}surpluses {ahead:?} bursts {bursts:?} bounds {bounds:?} waits {waits:?}\n",
        text.as_str()
    )?)
}

/// The guard with this cycle, these lost periods and this denominator, and what follows from it; or why none is found.
pub fn found(alloc: Global, net: &Net, case: &str) -> Result<String, Stop> {
    let numbers = naturals(alloc, case)?;
    let [cycle, lost, d] = numbers.as_slice() else {
        return Err(Stop::Unwritten);
    };
    if *cycle < 1 || *cycle > 3600 || *lost > 1 || *d < 1 || *d > 999_999_999 {
        return Err(Stop::Unwritten);
    }
    match find(alloc, net, *cycle as u32, *lost as u32, *d as u32) {
        Ok(guard) => told(alloc, net, &guard),
        Err(fault) => Ok(format!(in alloc; "{fault:?}\n")?),
    }
}

/// The guard of a text, and what follows from it; or the first rule that it breaks, or why it is none.
pub fn read(alloc: Global, net: &Net, bytes: &[u8]) -> Result<String, Stop> {
    let guard = match read_guard(alloc, net, bytes) {
        Ok(guard) => guard,
        Err(fault) => return Ok(format!(in alloc; "{fault:?}\n")?),
    };
    match check(net, &guard) {
        Ok(()) => told(alloc, net, &guard),
        Err(fault) => Ok(format!(in alloc; "{fault:?}\n")?),
    }
}
