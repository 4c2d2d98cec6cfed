//! Which rule a network file breaks first.

use crate::files::{Stop, changed};
use mp_net::NetFault;
use mp_netfile::read_net;
use std::alloc::Global;

/// The answer in words: `accepted`, or the rule, section and number.
pub fn answer(alloc: Global, bytes: &[u8]) -> Result<String, Stop> {
    match read_net(alloc, bytes) {
        Ok(_) => Ok(String::from_str(alloc, "accepted")?),
        Err(NetFault::Rule { rule, spot }) => {
            Ok(format!(in alloc; "{rule:?} {:?} {}", spot.section, spot.number)?)
        }
        Err(NetFault::NoMemory) => Err(Stop::NoMemory),
    }
}

// How many rows `ANSWER|CHANGES` of these lines are as written, and those that are not.
pub fn rows(alloc: Global, base: &str, rows: &str) -> Result<String, Stop> {
    let mut wrong = String::new(alloc);
    let mut right = 0u32;
    for row in rows.lines() {
        let Some((want, changes)) = row.split_once('|') else {
            return Err(Stop::Unwritten);
        };
        if is_answered(alloc, base, changes, want)? {
            right = right.wrapping_add(1);
        } else {
            wrong.push_str(row)?;
            wrong.push_str("\n")?;
        }
    }
    Ok(format!(in alloc; "{right} as written\n{}", wrong.as_str())?)
}

fn is_answered(alloc: Global, base: &str, changes: &str, want: &str) -> Result<bool, Stop> {
    match changed(alloc, base, changes)? {
        Some(text) => Ok(answer(alloc, text.as_bytes())?.as_str() == want),
        None => Ok(false),
    }
}

// Of each two rows whose rules differ, the earlier answers where both changes were made.
pub fn pairs(alloc: Global, base: &str, rows: &str) -> Result<String, Stop> {
    let mut wrong = String::new(alloc);
    let mut right = 0u32;
    for (i, row) in rows.lines().enumerate() {
        let Some((want, changes)) = row.split_once('|') else {
            return Err(Stop::Unwritten);
        };
        let Some(one) = changed(alloc, base, changes)? else {
            return Err(Stop::Unwritten);
        };
        for later in rows.lines().skip(i) {
            match is_first(alloc, one.as_str(), want, later)? {
                Some(true) => right = right.wrapping_add(1),
                Some(false) => {
                    wrong.push_str(format!(in alloc; "{row} and {later}\n")?.as_str())?;
                }
                None => {}
            }
        }
    }
    Ok(format!(in alloc; "{right} pairs as written\n{}", wrong.as_str())?)
}

// Whether the answer stays where a later row is changed too; none where its rule is the same, or finds nothing to change.
fn is_first(alloc: Global, one: &str, want: &str, later: &str) -> Result<Option<bool>, Stop> {
    let Some((rule, _)) = want.split_once(' ') else {
        return Err(Stop::Unwritten);
    };
    let Some((_, changes)) = later.split_once('|') else {
        return Err(Stop::Unwritten);
    };
    if later.starts_with(rule) {
        return Ok(None);
    }
    match changed(alloc, one, changes)? {
        Some(both) => Ok(Some(answer(alloc, both.as_bytes())?.as_str() == want)),
        None => Ok(None),
    }
}
