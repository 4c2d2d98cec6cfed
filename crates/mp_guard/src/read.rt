//! Guards from their texts.
ghost use Rattle.std.specs.Prelude.{◌≡◌, ◌+◌, ◌<◌, ◌≤◌, [], drop, length, map, unsigned_abs, Ok, IfOk, IfErr};
ghost use Rattle.mp_cert.specs.TextFaults.{IsFaultOf};
ghost use Rattle.mp_cert.specs.TextMeaning.{rows_of, row_at};
ghost use Rattle.mp_cert.specs.TextReading.{ReadsRow, RefusesAhead, HasRoom};
ghost use Rattle.mp_model.specs.Guard.{HasGuardLengths};
ghost use Rattle.mp_model.specs.Network.{junction_at};
ghost use Rattle.mp_model.specs.Stream.{lines_of};
ghost use Rattle.mp_guard.specs.GuardText.{green_form, guard_forms, form_at, number_in, guard_meaning};

use crate::Guard;
use mp_cert::{TextFault, TextLines};
use mp_net::{JunctionNo, Net};
use std::alloc::{AllocError, Global};

// The greens of the junction, off the next line.
fn read_greens(
    alloc: Global,
    lines: &mut TextLines<'_>,
    net: &Net,
    j: JunctionNo,
) -> Result<Vec<i128>, TextFault>
    requires there { (1 ≤ j) × (j ≤ length net.now.junctions) }
    requires room { HasRoom lines.old.number lines.old.rest.now }
    ensures ok { IfOk result (λ row. ReadsRow (green_form j (junction_at net.now j)) row.items lines.old.number lines.old.rest.now lines.new.number lines.new.rest.now) }
    ensures fault { IfErr result (RefusesAhead (green_form j (junction_at net.now j)) lines.old.number lines.old.rest.now) }
    ensures room { HasRoom lines.new.number lines.new.rest.now }
{
    let words = format!(in alloc; "green {j}")?;
    lines.row(alloc, words.as_bytes(), usize::from(net.stages(j)))
}

// The numbers of line i of a guard, from 0, off the next line.
fn read_line(
    alloc: Global,
    lines: &mut TextLines<'_>,
    net: &Net,
    i: u16,
) -> Result<Vec<i128>, TextFault>
    requires there { i < 5 + length net.now.junctions }
    requires room { HasRoom lines.old.number lines.old.rest.now }
    ensures ok { IfOk result (λ row. ReadsRow (form_at net.now i) row.items lines.old.number lines.old.rest.now lines.new.number lines.new.rest.now) }
    ensures fault { IfErr result (RefusesAhead (form_at net.now i) lines.old.number lines.old.rest.now) }
    ensures room { HasRoom lines.new.number lines.new.rest.now }
{
    match i {
        0 => lines.row(alloc, b"guard 1", 0),
        1 => lines.row(alloc, b"cycle", 1),
        2 => lines.row(alloc, b"lost", 1),
        3 => lines.row(alloc, b"d", 1),
        4 => lines.row(alloc, b"h", usize::from(net.movements())),
        _ => read_greens(alloc, lines, net, i - 4),
    }
}

// The numbers of all lines of a guard.
fn read_rows(alloc: Global, net: &Net, bytes: &[u8]) -> Result<Vec<Vec<i128>>, TextFault>
    ensures ok { IfOk result (λ rows. rows_of 1 (guard_forms net.now) (lines_of bytes.now) ≡ Ok (map (λ row. row.items) rows.items)) }
    ensures fault { IfErr result (IsFaultOf (rows_of 1 (guard_forms net.now) (lines_of bytes.now))) }
    ensures count { IfOk result (λ rows. length rows.items ≡ 5 + length net.now.junctions) }
{
    let mut lines = TextLines::new(bytes);
    let mut rows = Vec::new(alloc);
    let end = net.junctions() + 5;
    for i in 0..end {
        let row = read_line(alloc, &mut lines, net, i)?;
        rows.push(row)?;
    }
    lines.end()?;
    Ok(rows)
}

// The numbers without their signs.
fn naturals(alloc: Global, row: &[i128]) -> Result<Vec<u128>, AllocError>
    ensures { IfOk result (λ v. v.items ≡ map unsigned_abs row.now) }
{
    let mut numbers = Vec::new(alloc);
    for number in row {
        numbers.push(number.unsigned_abs())?;
    }
    Ok(numbers)
}

// Row number k, and an empty one past the last.
fn row_at(rows: &[Vec<i128>], k: usize) -> &[i128]
    requires { 1 ≤ k }
    ensures { result.now ≡ row_at (map (λ row. row.items) rows.now) k }
{
    match rows.get(k - 1) {
        Some(row) => row.as_slice(),
        None => &[],
    }
}

// The first number of row number k, and 0 where it has none.
fn number_in(rows: &[Vec<i128>], k: usize) -> u128
    requires { 1 ≤ k }
    ensures { result ≡ number_in (map (λ row. row.items) rows.now) k }
{
    match row_at(rows, k) {
        [first, ..] => first.unsigned_abs(),
        [] => 0,
    }
}

// The rows behind the first five.
fn green_rows(rows: &[Vec<i128>]) -> &[Vec<i128>]
    requires { 5 ≤ length rows.now }
    ensures { result.now ≡ drop 5 rows.now }
{
    &rows[5..]
}

// The numbers of the rows, without their signs.
fn all_naturals(alloc: Global, rows: &[Vec<i128>]) -> Result<Vec<Vec<u128>>, AllocError>
    ensures { IfOk result (λ greens. map (λ row. row.items) greens.items ≡ map (λ row. map unsigned_abs row) (map (λ row. row.items) rows.now)) }
{
    let mut greens = Vec::new(alloc);
    for row in rows {
        greens.push(naturals(alloc, row.as_slice())?)?;
    }
    Ok(greens)
}

/// The guard that the text is for the network, with the network's lengths.
/// `TextFault::Line` names the first line that is not in the grammar; `TextFault::NoMemory` says nothing of the text.
pub fn read_guard(alloc: Global, net: &Net, bytes: &[u8]) -> Result<Guard, TextFault>
    ensures ok { IfOk result (λ guard. guard_meaning net.now bytes.now ≡ Ok guard) }
    ensures fault { IfErr result (IsFaultOf (guard_meaning net.now bytes.now)) }
    ensures lengths { IfOk result (HasGuardLengths net.now) }
{
    let rows = read_rows(alloc, net, bytes)?;
    let rates = naturals(alloc, row_at(&rows, 5))?;
    let greens = all_naturals(alloc, green_rows(&rows))?;
    let (cycle, lost) = (number_in(&rows, 2), number_in(&rows, 3));
    Ok(Guard::new(cycle, lost, number_in(&rows, 4), rates, greens))
}
