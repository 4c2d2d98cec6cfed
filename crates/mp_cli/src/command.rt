//! The words of the command line.
ghost use Rattle.std.specs.Prelude.{◌≡◌, map, string_bytes};
ghost use Rattle.mp_cli.specs.Commands.{asked, command_of, command_on_one, command_on_two, command_on_four, demo_of, scale_of, frames_of, plan_of, guard_on, guard_of, file_of, is_word, is_in, HasRanges};

use crate::outcome::FileRole;
use mp_text::read_count;

/// What the words ask for, with the names of files and the numbers in them.
#[derive(Clone, Copy, Debug, PartialEq, Eq)]
pub enum Command<'a> {
    /// `run NET`: the log of the stream's run, with the greatest slack.
    Run {
        net: &'a str,
    },
    /// `runwith NET CERT`: the same, with the slack of the certificate.
    RunWith {
        net: &'a str,
        cert: &'a str,
    },
    /// `show NET`: the network, as a file.
    Show {
        net: &'a str,
    },
    /// `certify NET`: the certificate of the greatest slack, or the vector that shows why there is none.
    Certify {
        net: &'a str,
    },
    /// `check NET CERT`: whether the certificate holds for the network, with its slack.
    Check {
        net: &'a str,
        cert: &'a str,
    },
    /// `refute NET VECTOR`: the load and the capacity of a vector against the network.
    Refute {
        net: &'a str,
        vector: &'a str,
    },
    /// `audit NET`: whether the input is a whole log of the network, or the first line that differs.
    Audit {
        net: &'a str,
    },
    /// `auditwith NET CERT`: the same, of the log with the slack of the certificate.
    AuditWith {
        net: &'a str,
        cert: &'a str,
    },
    /// `control NET`: the stages of greatest pressure for each line of counts on the input.
    Control {
        net: &'a str,
    },
    /// `demo N`: a long run on a network of the program's own, by its number of at most 9 digits.
    Demo(u64),
    /// `scale NET D`: the greatest certificate with the denominator D, of at most 9 digits.
    Scale {
        net: &'a str,
        d: u32,
    },
    /// `overload NET`: how fast an overloaded network grows, whatever its junctions show.
    Overload {
        net: &'a str,
    },
    /// `frames NET F`: the log of the stream's run by frames of F periods, from 2 to 60, each change of stage of which
    /// loses one.
    Frames {
        net: &'a str,
        f: u32,
    },
    /// `plan NET C`: the log of the stream's run by a cyclic plan of C periods, from 1 to 3,600.
    Plan {
        net: &'a str,
        c: u32,
    },
    /// `runguard NET GUARD`: the log of the stream's run under the guard.
    RunGuard {
        net: &'a str,
        guard: &'a str,
    },
    /// `auditguard NET GUARD`: whether the input is a whole log under the guard, or the first line that differs.
    AuditGuard {
        net: &'a str,
        guard: &'a str,
    },
    /// `controlguard NET GUARD`: the stages under the guard for each line of counts on the input.
    ControlGuard {
        net: &'a str,
        guard: &'a str,
    },
    /// `guard NET C L D`: the guard of the network with a cycle of C periods, from 1 to 3,600, a change of stage that
    /// loses L, 0 or 1, and the denominator D, of at most 9 digits.
    Guard {
        net: &'a str,
        cycle: u32,
        lost: u32,
        d: u32,
    },
    /// Words that are not listed.
    Unknown,
}

// The word is the one that is listed.
fn is_word(word: &str, listed: &str) -> bool
    ensures { result ≡ is_word word.now listed.now }
{
    word == listed
}

// The demonstration of this number.
fn demo_of(number: &str) -> Command<'_>
    ensures value { asked result ≡ demo_of number.now }
    ensures ranges { HasRanges (asked result) }
{
    match read_count(number.as_bytes()) {
        Some(n) => Command::Demo(n),
        None => Command::Unknown,
    }
}

// The scaling to this denominator, which is at least 1.
fn scale_of<'a>(net: &'a str, denominator: &str) -> Command<'a>
    ensures value { asked result ≡ scale_of net.now denominator.now }
    ensures ranges { HasRanges (asked result) }
{
    match read_count(denominator.as_bytes()) {
        None | Some(0) => Command::Unknown,
        Some(d) => Command::Scale { net, d: d as u32 },
    }
}

// The number is in the range.
fn is_in(least: u64, most: u64, n: u64) -> bool
    ensures { result ≡ is_in least most n }
{
    least <= n && n <= most
}

// The run by frames of this length, which is from 2 to 60.
fn frames_of<'a>(net: &'a str, length: &str) -> Command<'a>
    ensures value { asked result ≡ frames_of net.now length.now }
    ensures ranges { HasRanges (asked result) }
{
    match read_count(length.as_bytes()) {
        Some(f) if is_in(2, 60, f) => Command::Frames { net, f: f as u32 },
        _ => Command::Unknown,
    }
}

// The run by a plan of this cycle, which is from 1 to 3,600.
fn plan_of<'a>(net: &'a str, cycle: &str) -> Command<'a>
    ensures value { asked result ≡ plan_of net.now cycle.now }
    ensures ranges { HasRanges (asked result) }
{
    match read_count(cycle.as_bytes()) {
        Some(c) if is_in(1, 3600, c) => Command::Plan { net, c: c as u32 },
        _ => Command::Unknown,
    }
}

// The guard with this cycle, these lost periods and this denominator, where all are in their ranges.
fn guard_on<'a>(net: &'a str, cycle: u64, lost: u64, d: u64) -> Command<'a>
    ensures value { asked result ≡ guard_on net.now cycle lost d }
    ensures ranges { HasRanges (asked result) }
{
    if is_in(1, 3600, cycle) && is_in(0, 1, lost) && is_in(1, 999_999_999, d) {
        let (cycle, lost, d) = (cycle as u32, lost as u32, d as u32);
        Command::Guard {
            net,
            cycle,
            lost,
            d,
        }
    } else {
        Command::Unknown
    }
}

// The guard with the cycle, the lost periods and the denominator of these words.
fn guard_of<'a>(net: &'a str, cycle: &str, lost: &str, denominator: &str) -> Command<'a>
    ensures value { asked result ≡ guard_of net.now cycle.now lost.now denominator.now }
    ensures ranges { HasRanges (asked result) }
{
    let Some(cycle) = read_count(cycle.as_bytes()) else {
        return Command::Unknown;
    };
    let Some(lost) = read_count(lost.as_bytes()) else {
        return Command::Unknown;
    };
    match read_count(denominator.as_bytes()) {
        Some(d) => guard_on(net, cycle, lost, d),
        None => Command::Unknown,
    }
}

// The command that a word asks for with the name of a network, or with a number.
#[tactic(auto, unfolding(crate::specs::Commands::command_on_one))]
fn command_on_one<'a>(word: &str, net: &'a str) -> Command<'a>
    ensures value { asked result ≡ command_on_one word.now net.now }
    ensures ranges { HasRanges (asked result) }
{
    if is_word(word, "run") {
        Command::Run { net }
    } else if is_word(word, "show") {
        Command::Show { net }
    } else if is_word(word, "certify") {
        Command::Certify { net }
    } else if is_word(word, "audit") {
        Command::Audit { net }
    } else if is_word(word, "control") {
        Command::Control { net }
    } else if is_word(word, "overload") {
        Command::Overload { net }
    } else if is_word(word, "demo") {
        demo_of(net)
    } else {
        Command::Unknown
    }
}

// The command that a word asks for with the name of a network and that of another file, or a number.
#[tactic(auto, unfolding(crate::specs::Commands::command_on_two))]
fn command_on_two<'a>(word: &str, net: &'a str, other: &'a str) -> Command<'a>
    ensures value { asked result ≡ command_on_two word.now net.now other.now }
    ensures ranges { HasRanges (asked result) }
{
    if is_word(word, "runwith") {
        Command::RunWith { net, cert: other }
    } else if is_word(word, "auditwith") {
        Command::AuditWith { net, cert: other }
    } else if is_word(word, "check") {
        Command::Check { net, cert: other }
    } else if is_word(word, "refute") {
        Command::Refute { net, vector: other }
    } else if is_word(word, "scale") {
        scale_of(net, other)
    } else if is_word(word, "runguard") {
        Command::RunGuard { net, guard: other }
    } else if is_word(word, "auditguard") {
        Command::AuditGuard { net, guard: other }
    } else if is_word(word, "controlguard") {
        Command::ControlGuard { net, guard: other }
    } else if is_word(word, "frames") {
        frames_of(net, other)
    } else if is_word(word, "plan") {
        plan_of(net, other)
    } else {
        Command::Unknown
    }
}

// The command that a word asks for with the name of a network and three numbers.
#[tactic(auto, unfolding(crate::specs::Commands::command_on_four))]
fn command_on_four<'a>(
    word: &str,
    net: &'a str,
    first: &str,
    second: &str,
    third: &str,
) -> Command<'a>
    ensures value { asked result ≡ command_on_four word.now net.now first.now second.now third.now }
    ensures ranges { HasRanges (asked result) }
{
    if is_word(word, "guard") {
        guard_of(net, first, second, third)
    } else {
        Command::Unknown
    }
}

/// The command of the words.
pub fn command_of(words: &[String]) -> Command<'_>
    ensures value { asked result ≡ command_of (map string_bytes words.now) }
    ensures ranges { HasRanges (asked result) }
{
    match words {
        [word, net] => command_on_one(word.as_str(), net.as_str()),
        [word, net, other] => command_on_two(word.as_str(), net.as_str(), other.as_str()),
        [word, net, first, second, third] => command_on_four(
            word.as_str(),
            net.as_str(),
            first.as_str(),
            second.as_str(),
            third.as_str(),
        ),
        _ => Command::Unknown,
    }
}

/// The name of a file of the command, and nothing where it has none.
pub fn file_of<'a>(command: Command<'a>, role: FileRole) -> &'a str
    ensures { result.now ≡ file_of (asked command.entry) role }
{
    match (role, command) {
        (FileRole::Other, Command::RunWith { cert, .. } | Command::Check { cert, .. }) => cert,
        (FileRole::Other, Command::AuditWith { cert, .. }) => cert,
        (FileRole::Other, Command::Refute { vector, .. }) => vector,
        (FileRole::Other, Command::ControlGuard { guard, .. }) => guard,
        (FileRole::Other, Command::RunGuard { guard, .. }) => guard,
        (FileRole::Other, Command::AuditGuard { guard, .. }) => guard,
        (FileRole::Net, Command::RunGuard { net, .. }) => net,
        (FileRole::Net, Command::AuditGuard { net, .. }) => net,
        (FileRole::Net, Command::Run { net } | Command::Show { net }) => net,
        (FileRole::Net, Command::Certify { net } | Command::Audit { net }) => net,
        (FileRole::Net, Command::Control { net } | Command::ControlGuard { net, .. }) => net,
        (FileRole::Net, Command::RunWith { net, .. } | Command::Check { net, .. }) => net,
        (FileRole::Net, Command::AuditWith { net, .. }) => net,
        (FileRole::Net, Command::Refute { net, .. } | Command::Scale { net, .. }) => net,
        (FileRole::Net, Command::Frames { net, .. } | Command::Plan { net, .. }) => net,
        (FileRole::Net, Command::Overload { net } | Command::Guard { net, .. }) => net,
        _ => "",
    }
}
