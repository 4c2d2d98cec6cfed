//! What the crates below the program answer.

use crate::certificates::{checked, read_certificate, read_vector, weighed};
use crate::demonstrations::{demonstration, drawn};
use crate::digits::written;
use crate::files::{Files, Stop, lines, word};
use crate::guards::{found, read};
use crate::networks::{network, shown};
use crate::numbers::{bounds_under, drift_numbers, flow_pair, verdict, worths};
use crate::periods::{periods, weights};
use crate::rules::{answer, pairs, rows};
use crate::sessions::{greediest, refusal, session};
use mp_net::Net;
use std::alloc::Global;

fn number(word: &str) -> Result<u64, Stop> {
    word.parse::<u64>().ok().ok_or(Stop::Unwritten)
}

fn integer(word: &str) -> Result<i128, Stop> {
    word.parse::<i128>().ok().ok_or(Stop::Unwritten)
}

fn size(word: &str) -> Result<usize, Stop> {
    word.parse::<usize>().ok().ok_or(Stop::Unwritten)
}

fn line(alloc: Global, text: Option<&str>) -> Result<String, Stop> {
    Ok(format!(in alloc; "{}\n", text.unwrap_or("no text"))?)
}

// The first word, and what is behind it.
fn first(case: &str) -> (&str, &str) {
    match case.split_once(' ') {
        Some(both) => both,
        None => (case, ""),
    }
}

// What files are like.
fn of_files(files: &Files, command: &str, name: &str, case: &str) -> Result<String, Stop> {
    let alloc = files.alloc();
    match command {
        "rows" => rows(alloc, files.text(name)?, files.text(case)?),
        "pairs" => pairs(alloc, files.text(name)?, files.text(case)?),
        "front" => line(alloc, files.text(name)?.get(..size(case)?)),
        "line" => line(alloc, files.text(name)?.lines().nth(size(case)?)),
        "same" => {
            let same = files.bytes(name) == files.bytes(case);
            line(alloc, Some(if same { "yes" } else { "no" }))
        }
        "drawn" => drawn(alloc, number(name)?, files.text(case)?),
        "demonstration" => demonstration(alloc, number(name)?, files.text(case)?),
        _ => Err(Stop::Unwritten),
    }
}

// What a network is like.
fn of_network(alloc: Global, command: &str, net: &Net, case: &str) -> Result<String, Stop> {
    match command {
        "network" => shown(alloc, net),
        "periods" => periods(alloc, net, case),
        "verdict" => Ok(verdict(alloc, net)?),
        "flows" => Ok(flow_pair(alloc, net)?),
        "worths" => worths(alloc, net, case),
        "constants" => drift_numbers(alloc, net),
        "bounds" => bounds_under(alloc, net, case),
        "rules" => checked(alloc, net, case),
        "weigh" => weighed(alloc, net, case),
        "certificate" => read_certificate(alloc, net, lines(alloc, case)?.as_bytes()),
        "guard" => found(alloc, net, case),
        "guarded" => read(alloc, net, lines(alloc, case)?.as_bytes()),
        "vector" => {
            let (room, text) = word(case)?;
            read_vector(alloc, net, size(room)?, lines(alloc, text)?.as_bytes())
        }
        "weights" => {
            let (own, next) = word(case)?;
            weights(alloc, net, own, next)
        }
        _ => Err(Stop::Unwritten),
    }
}

// What a network is like under a certificate.
fn under(files: &Files, command: &str, net: &Net, case: &str) -> Result<String, Stop> {
    let alloc = files.alloc();
    let (cert, case) = first(case);
    let cert = files.text(cert)?;
    match command {
        "session" => session(alloc, net, cert, case),
        "refusal" => refusal(alloc, net, cert),
        _ => {
            let (rest, work) = word(case)?;
            greediest(alloc, net, cert, number(rest)?, number(work)?)
        }
    }
}

/// The answer to a case.
pub fn asked(files: &Files, command: &str, case: &str) -> Result<String, Stop> {
    let alloc = files.alloc();
    let (name, case) = first(case);
    match command {
        "digits" => written(alloc, integer(name)?, number(case)?),
        "answer" => line(alloc, Some(answer(alloc, files.bytes(name))?.as_str())),
        "rows" | "pairs" | "front" | "line" | "same" | "drawn" | "demonstration" => {
            of_files(files, command, name, case)
        }
        "session" | "refusal" | "greediest" => {
            under(files, command, &network(alloc, files.bytes(name))?, case)
        }
        _ => of_network(alloc, command, &network(alloc, files.bytes(name))?, case),
    }
}
