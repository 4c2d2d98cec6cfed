//! The files that the words name.
ghost use Rattle.std.specs.Prelude.{◌≡◌, ◌≤◌, IfOk, IfErr, length};
ghost use Rattle.mp_edge.specs.Outside.{Rose, Tells, OfFile};
ghost use Rattle.mp_model.specs.Certificate.{HasLengths};
ghost use Rattle.mp_model.specs.NetworkRules.{IsAcceptable};
ghost use Rattle.mp_model.specs.declared.limits.TheConstants.{MOST_FILE_BYTES};
ghost use Rattle.mp_cert.specs.TextMeaning.{cert_meaning, vector_meaning, AreNatural, IsNatural};
ghost use Rattle.mp_cert.specs.Views.{cert_of};
ghost use Rattle.mp_guard.specs.GuardText.{guard_meaning};
ghost use Rattle.mp_model.specs.Guard.{HasGuardLengths};
ghost use Rattle.mp_netfile.specs.Meaning.{file_meaning};
ghost use Rattle.mp_cli.specs.Opening.{Reads, RefusesNetwork, RefusesText, IsUnread};
ghost use Rattle.mp_cli.specs.Statuses.{status_of, HasNoPortFault};

use crate::outcome::{FileRole, Outcome, TextKind};
use mp_cert::{Against, Cert, TextFault, read_against, read_cert};
use mp_edge::{Store, StoreFault};
use mp_guard::{Guard, read_guard};
use mp_model::limits::MOST_FILE_BYTES;
use mp_net::{Net, NetFault, NetRule, Section, Spot};
use mp_netfile::read_net;
use std::alloc::Global;

/// Reads the network of the file.
pub fn open_net<St: Store>(alloc: Global, name: &str, store: &mut St) -> Result<Net, Outcome>
    ensures net { IfOk result (λ net. Reads file_meaning (St.files store.old) name.now (λ n. n ≡ net)) }
    ensures acceptable { IfOk result IsAcceptable }
    ensures refused { IfErr result (λ outcome. RefusesNetwork outcome (St.files store.old) name.now) }
    ensures outside { IfErr result HasNoPortFault }
    ensures later { St.faults store.old ≤ St.faults store.new }
    ensures same { Tells (St.files store.old) (St.files store.new) (λ was now. now ≡ was) }
    ensures store { IfErr result (λ outcome. status_of outcome ≡ 2 → Rose (St.faults store.old) (St.faults store.new)) }
{
    let mut bytes = Vec::new(alloc);
    match store.read(alloc, name, &mut bytes, MOST_FILE_BYTES) {
        Ok(()) => {}
        Err(StoreFault::TooLong) => {
            return Err(Outcome::Network {
                rule: NetRule::TooLong,
                spot: Spot {
                    section: Section::Top,
                    number: 0,
                },
            });
        }
        Err(StoreFault::Failed) => return Err(Outcome::Store(FileRole::Net)),
        Err(StoreFault::NoMemory) => return Err(Outcome::NoMemory),
    }
    match read_net(alloc, &bytes) {
        Ok(net) => {
            // A network's share total comes with what its rules say.
            let _ = net.shares();
            Ok(net)
        }
        Err(NetFault::Rule { rule, spot }) => Err(Outcome::Network { rule, spot }),
        Err(NetFault::NoMemory) => Err(Outcome::NoMemory),
    }
}

// Reads the text of the other file.
fn read_text<St: Store>(
    alloc: Global,
    name: &str,
    kind: TextKind,
    store: &mut St,
) -> Result<Vec<u8>, Outcome>
    ensures ok { IfOk result (λ text. OfFile (St.files store.old) name.now (λ bytes. (text.items ≡ bytes) × (length bytes ≤ MOST_FILE_BYTES))) }
    ensures few { IfOk result (λ text. length text.items ≤ MOST_FILE_BYTES) }
    ensures refused { IfErr result (λ outcome. IsUnread outcome kind (St.files store.old) name.now) }
    ensures outside { IfErr result HasNoPortFault }
    ensures later { St.faults store.old ≤ St.faults store.new }
    ensures store { IfErr result (λ outcome. status_of outcome ≡ 2 → Rose (St.faults store.old) (St.faults store.new)) }
{
    let mut text = Vec::new(alloc);
    match store.read(alloc, name, &mut text, MOST_FILE_BYTES) {
        Ok(()) => Ok(text),
        Err(StoreFault::TooLong) => Err(Outcome::LongText(kind)),
        Err(StoreFault::Failed) => Err(Outcome::Store(FileRole::Other)),
        Err(StoreFault::NoMemory) => Err(Outcome::NoMemory),
    }
}

/// Reads the certificate of the other file.
pub fn open_cert<St: Store>(
    alloc: Global,
    net: &Net,
    name: &str,
    store: &mut St,
) -> Result<Cert, Outcome>
    ensures ok { IfOk result (λ cert. Reads (cert_meaning net.now) (St.files store.old) name.now (λ c. c ≡ cert_of cert)) }
    ensures lengths { IfOk result (λ cert. HasLengths net.now (cert_of cert)) }
    ensures natural { IfOk result (λ cert. IsNatural (cert_of cert)) }
    ensures refused { IfErr result (λ outcome. RefusesText outcome TextKind.Certificate (cert_meaning net.now) (St.files store.old) name.now) }
    ensures outside { IfErr result HasNoPortFault }
    ensures later { St.faults store.old ≤ St.faults store.new }
    ensures store { IfErr result (λ outcome. status_of outcome ≡ 2 → Rose (St.faults store.old) (St.faults store.new)) }
{
    let text = match read_text(alloc, name, TextKind::Certificate, store) {
        Ok(text) => text,
        Err(outcome) => return Err(outcome),
    };
    match read_cert(alloc, net, &text) {
        Ok(cert) => Ok(cert),
        Err(TextFault::Line(line)) => Err(Outcome::Text {
            kind: TextKind::Certificate,
            line,
        }),
        Err(TextFault::NoMemory) => Err(Outcome::NoMemory),
    }
}

/// Reads the vector of the other file.
pub fn open_vector<St: Store>(
    alloc: Global,
    net: &Net,
    name: &str,
    store: &mut St,
) -> Result<Against, Outcome>
    ensures ok { IfOk result (λ against. Reads (vector_meaning net.now) (St.files store.old) name.now (λ p. p ≡ against.p)) }
    ensures lengths { IfOk result (λ against. length against.p ≡ length net.now.movements) }
    ensures natural { IfOk result (λ against. AreNatural against.p) }
    ensures refused { IfErr result (λ outcome. RefusesText outcome TextKind.Vector (vector_meaning net.now) (St.files store.old) name.now) }
    ensures outside { IfErr result HasNoPortFault }
    ensures later { St.faults store.old ≤ St.faults store.new }
    ensures store { IfErr result (λ outcome. status_of outcome ≡ 2 → Rose (St.faults store.old) (St.faults store.new)) }
{
    let text = match read_text(alloc, name, TextKind::Vector, store) {
        Ok(text) => text,
        Err(outcome) => return Err(outcome),
    };
    match read_against(alloc, net, &text) {
        Ok(against) => Ok(against),
        Err(TextFault::Line(line)) => Err(Outcome::Text {
            kind: TextKind::Vector,
            line,
        }),
        Err(TextFault::NoMemory) => Err(Outcome::NoMemory),
    }
}

/// Reads the guard of the other file.
pub fn open_guard<St: Store>(
    alloc: Global,
    net: &Net,
    name: &str,
    store: &mut St,
) -> Result<Guard, Outcome>
    ensures ok { IfOk result (λ guard. Reads (guard_meaning net.now) (St.files store.old) name.now (λ g. g ≡ guard)) }
    ensures lengths { IfOk result (HasGuardLengths net.now) }
    ensures refused { IfErr result (λ outcome. RefusesText outcome TextKind.Guard (guard_meaning net.now) (St.files store.old) name.now) }
    ensures outside { IfErr result HasNoPortFault }
    ensures later { St.faults store.old ≤ St.faults store.new }
    ensures store { IfErr result (λ outcome. status_of outcome ≡ 2 → Rose (St.faults store.old) (St.faults store.new)) }
{
    let text = match read_text(alloc, name, TextKind::Guard, store) {
        Ok(text) => text,
        Err(outcome) => return Err(outcome),
    };
    match read_guard(alloc, net, &text) {
        Ok(guard) => Ok(guard),
        Err(TextFault::Line(line)) => Err(Outcome::Text {
            kind: TextKind::Guard,
            line,
        }),
        Err(TextFault::NoMemory) => Err(Outcome::NoMemory),
    }
}
