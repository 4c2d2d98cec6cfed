//! Flows, verdicts, constants and bounds of a network.

use crate::files::{Stop, integers};
use mp_admit::{Verdict, admit};
use mp_drift::{bounds, constants};
use mp_flow::{CalcFault, adjoint, flows};
use mp_net::Net;
use mp_num::Frac;
use std::alloc::{AllocError, Global};

fn fault(alloc: Global, fault: &CalcFault) -> Result<String, AllocError> {
    format!(in alloc; "{fault:?}\n")
}

/// The rates and units of the flows over their denominator.
pub fn flow_pair(alloc: Global, net: &Net) -> Result<String, AllocError> {
    match flows(alloc, net) {
        Ok(pair) => {
            let (rate, unit) = (pair.rate.as_slice(), pair.unit.as_slice());
            format!(in alloc; "rates {rate:?} units {unit:?} over {}\n", pair.d)
        }
        Err(met) => fault(alloc, &met),
    }
}

/// The worths of the links over their denominator.
pub fn worths(alloc: Global, net: &Net, case: &str) -> Result<String, Stop> {
    let values = integers(alloc, case)?;
    if values.len() != usize::from(net.links()) || !values.iter().all(|v| *v >= 0) {
        return Err(Stop::Unwritten);
    }
    match adjoint(alloc, net, &values) {
        Ok(worths) => Ok(format!(in alloc; "{:?} over {}\n", worths.x.as_slice(), worths.d)?),
        Err(met) => Ok(fault(alloc, &met)?),
    }
}

/// The verdict, with the certificate's numbers in the order of its lines.
pub fn verdict(alloc: Global, net: &Net) -> Result<String, AllocError> {
    let (cert, against, slack) = match admit(alloc, net) {
        Ok(Verdict::Critical { against }) => {
            return format!(in alloc; "critical {:?}\n", against.p.as_slice());
        }
        Ok(Verdict::Overloaded { against }) => {
            return format!(in alloc; "overloaded {:?}\n", against.p.as_slice());
        }
        Ok(
            Verdict::Admitted {
                cert,
                against,
                slack,
            },
        ) => (cert, against, slack),
        Err(met) => return fault(alloc, &met),
    };
    let mut told = format!(in alloc; "d {} e {} h {:?}", cert.d, cert.e, cert.h.as_slice())?;
    for mix in cert.mix.as_slice() {
        let line = format!(in alloc; " mix {} {:?}", mix.whole, mix.parts.as_slice())?;
        told.push_str(line.as_str())?;
    }
    let line = format!(in alloc;
        " against {:?} slack {}/{}\n",
        against.p.as_slice(),
        slack.num(),
        slack.den()
    )?;
    told.push_str(line.as_str())?;
    Ok(told)
}

/// The constants of the drift value.
pub fn drift_numbers(alloc: Global, net: &Net) -> Result<String, Stop> {
    let Ok(numbers) = constants(alloc, net) else {
        return Err(Stop::NoMemory);
    };
    let (k, m) = (numbers.k.as_slice(), numbers.m.as_slice());
    Ok(format!(in alloc; "k {k:?}\nm {m:?}\nb {}\n", numbers.b)?)
}

/// The bounds of the queues under a slack.
pub fn bounds_under(alloc: Global, net: &Net, case: &str) -> Result<String, Stop> {
    let slack = integers(alloc, case)?;
    let (num, den) = (
        slack.first().copied().unwrap_or(0),
        slack.get(1).copied().unwrap_or(0),
    );
    if den < 1 {
        return Err(Stop::Unwritten);
    }
    let slack = Frac::new(num, den);
    let Ok(numbers) = constants(alloc, net) else {
        return Err(Stop::NoMemory);
    };
    if slack.num() < 1 {
        return Err(Stop::Unwritten);
    }
    match bounds(alloc, net, &numbers, &slack) {
        Ok(found) => {
            let bound = found.bound.as_slice();
            Ok(format!(in alloc;
                "total {} vmax {} bounds {bound:?}\n",
                found.total, found.vmax
            )?)
        }
        Err(met) => Ok(fault(alloc, &met)?),
    }
}
