//! Certificates and vectors from their texts.
ghost use Rattle.std.specs.Prelude.{◌≡◌, ◌+◌, ◌≤◌, ◌∷◌, [], length, map, Ok, IfOk, IfErr};
ghost use Rattle.mp_model.specs.Certificate.{HasLengths};
ghost use Rattle.mp_model.specs.Network.{junction_at};
ghost use Rattle.mp_cert.specs.TextFaults.{IsFaultOf};
ghost use Rattle.mp_cert.specs.TextMeaning.{AreNatural, IsNatural, mix_form, mix_forms, cert_forms, cert_meaning, vector_meaning};
ghost use Rattle.mp_cert.specs.TextReading.{rows_ahead, ReadsRow, RefusesAhead, ReadsRows, HasRoom, mix_row, head_rows};
ghost use Rattle.mp_cert.specs.Views.{cert_of};

use crate::read_lines::TextLines;
use crate::{Against, Cert, Mix, Mixes, TextFault};
use mp_net::{JunctionNo, Net};
use mp_num::Numbers;
use std::alloc::Global;

// The mix of the junction, off the next line.
fn read_mix(
    alloc: Global,
    lines: &mut TextLines<'_>,
    net: &Net,
    j: JunctionNo,
) -> Result<Mix, TextFault>
    requires there { (1 ≤ j) × (j ≤ length net.now.junctions) }
    requires room { HasRoom lines.old.number lines.old.rest.now }
    ensures ok { IfOk result (λ mix. ReadsRow (mix_form j (junction_at net.now j)) (mix_row mix) lines.old.number lines.old.rest.now lines.new.number lines.new.rest.now) }
    ensures fault { IfErr result (RefusesAhead (mix_form j (junction_at net.now j)) lines.old.number lines.old.rest.now) }
    ensures room { HasRoom lines.new.number lines.new.rest.now }
{
    let words = format!(in alloc; "mix {j}")?;
    let mut row = lines.row(alloc, words.as_bytes(), 1 + usize::from(net.stages(j)))?;
    let whole = row.remove(0);
    Ok(Mix {
        whole,
        parts: Numbers::new(row),
    })
}

// The mixes of all junctions, a line each.
fn read_mixes(alloc: Global, lines: &mut TextLines<'_>, net: &Net) -> Result<Vec<Mix>, TextFault>
    requires { HasRoom lines.old.number lines.old.rest.now }
    ensures ok { IfOk result (λ mixes. ReadsRows (mix_forms 1 net.now.junctions) (map mix_row mixes.items) [] lines.old.number lines.old.rest.now lines.new.number lines.new.rest.now) }
    ensures fault { IfErr result (IsFaultOf (rows_ahead lines.old.number lines.old.rest.now (mix_forms 1 net.now.junctions))) }
    ensures room { HasRoom lines.new.number lines.new.rest.now }
{
    let end = net.junctions() + 1;
    let mut mixes = Vec::new(alloc);
    for j in 1..end {
        let mix = read_mix(alloc, lines, net, j)?;
        mixes.push(mix)?;
    }
    Ok(mixes)
}

// The number of the next line, which has these words and one number.
fn read_number(alloc: Global, lines: &mut TextLines<'_>, words: &[u8]) -> Result<i128, TextFault>
    requires { HasRoom lines.old.number lines.old.rest.now }
    ensures ok { IfOk result (λ n. ReadsRow (record { words = words.now; count = 1 }) (n ∷ []) lines.old.number lines.old.rest.now lines.new.number lines.new.rest.now) }
    ensures fault { IfErr result (RefusesAhead (record { words = words.now; count = 1 }) lines.old.number lines.old.rest.now) }
    ensures room { HasRoom lines.new.number lines.new.rest.now }
{
    let row = lines.row(alloc, words, 1)?;
    Ok(row[0])
}

// What stands before the mixes.
#[derive(Drop)]
struct Head {
    d: i128,
    e: i128,
    h: Vec<i128>,
}

// The first four lines of a certificate.
fn read_head(alloc: Global, lines: &mut TextLines<'_>, net: &Net) -> Result<Head, TextFault>
    requires { HasRoom lines.old.number lines.old.rest.now }
    ensures ok { IfOk result (λ head. ReadsRows (cert_forms net.now) (head_rows head.d head.e head.h.items) (mix_forms 1 net.now.junctions) lines.old.number lines.old.rest.now lines.new.number lines.new.rest.now) }
    ensures fault { IfErr result (IsFaultOf (rows_ahead lines.old.number lines.old.rest.now (cert_forms net.now))) }
    ensures room { HasRoom lines.new.number lines.new.rest.now }
{
    lines.row(alloc, b"certificate 1", 0)?;
    let d = read_number(alloc, lines, b"d")?;
    let e = read_number(alloc, lines, b"e")?;
    let h = lines.row(alloc, b"h", usize::from(net.movements()))?;
    Ok(Head { d, e, h })
}

/// The certificate that the text is for the network, with the network's lengths and no number below 0.
/// `TextFault::Line` names the first line that is not in the grammar; `TextFault::NoMemory` says
/// nothing of the text.
pub fn read_cert(alloc: Global, net: &Net, bytes: &[u8]) -> Result<Cert, TextFault>
    ensures ok { IfOk result (λ cert. cert_meaning net.now bytes.now ≡ Ok (cert_of cert)) }
    ensures fault { IfErr result (IsFaultOf (cert_meaning net.now bytes.now)) }
    ensures lengths { IfOk result (λ cert. HasLengths net.now (cert_of cert)) }
    ensures natural { IfOk result (λ cert. IsNatural (cert_of cert)) }
{
    let mut lines = TextLines::new(bytes);
    let head = read_head(alloc, &mut lines, net)?;
    let mix = read_mixes(alloc, &mut lines, net)?;
    lines.end()?;
    let Head { d, e, h } = head;
    Ok(Cert {
        d,
        e,
        h: Numbers::new(h),
        mix: Mixes::new(mix),
    })
}

/// The vector that the text is for the network, one number per movement and none below 0.
/// `TextFault::Line` names the first line that is not in the grammar; `TextFault::NoMemory` says
/// nothing of the text.
pub fn read_against(alloc: Global, net: &Net, bytes: &[u8]) -> Result<Against, TextFault>
    ensures ok { IfOk result (λ against. vector_meaning net.now bytes.now ≡ Ok against.p) }
    ensures fault { IfErr result (IsFaultOf (vector_meaning net.now bytes.now)) }
    ensures length { IfOk result (λ against. length against.p ≡ length net.now.movements) }
    ensures natural { IfOk result (λ against. AreNatural against.p) }
{
    let mut lines = TextLines::new(bytes);
    lines.row(alloc, b"vector 1", 0)?;
    let p = lines.row(alloc, b"p", usize::from(net.movements()))?;
    lines.end()?;
    Ok(Against { p: Numbers::new(p) })
}
