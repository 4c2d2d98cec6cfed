//! Replays written cases: what the program and the calls below it answer to each is compared with `stdout`.
//!
//! A case is a line of a suite in `data/`. Its answer stands below it in the transcript, which is written by
//! hand or by a calculation apart from this program.
#![tactic(auto)]

mod asking;
mod calls;
mod certificates;
mod demonstrations;
mod digits;
mod failing;
mod files;
mod guards;
mod networks;
mod numbers;
mod periods;
mod replay;
mod rules;
mod sessions;

use files::Files;
use replay::replay;
use std::{fs, io};

// The networks, whose names in the cases are those of their files, and texts that cases change.
const TEXTS: [&str; 16] = [
    "two-links.toml",
    "tandem.toml",
    "loop.toml",
    "corridor.toml",
    "ring.toml",
    "chain.toml",
    "slow.toml",
    "many-turns.toml",
    "one-link.toml",
    "base.toml",
    "broken.rows",
    "corners.rows",
    "texts.rows",
    "fork.toml",
    "fork-order.rows",
    "fork-spots.rows",
];

const SUITES: [&str; 4] = ["files.cases", "calls.cases", "faults.cases", "crates.cases"];

fn main(rt: HostRuntime) -> io::Result<()> {
    let alloc = rt.alloc();
    let mut files = Files::new(alloc);
    for name in TEXTS {
        files.add(name, fs::read(&rt, name)?)?;
    }
    for name in SUITES {
        let suite = fs::read_to_string(&rt, name)?;
        let mut out = String::new(alloc);
        let replayed = replay(&mut files, suite.as_str(), &mut out);
        println!(rt; "{}", out.as_str())?;
        if let Err(stop) = replayed {
            println!(rt; "{stop:?}")?;
        }
    }
    Ok(())
}
