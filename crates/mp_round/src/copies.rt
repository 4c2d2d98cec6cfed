//! The copies that the junctions have of the counts of the links that they feed.
ghost use Rattle.std.specs.Prelude.{◌≡◌, ◌≤◌, ◌<◌, ◌-◌, [], ◌∷◌, ◌++◌, IfOk, OnOk, None, Some, length, map, replicate, slice_index_or, slice_set, not, is_none, true};
ghost use Rattle.mp_model.specs.Network.{targets};
ghost use Rattle.mp_model.specs.EventCore.{accepted};

use crate::report::Report;
use mp_net::{JunctionNo, Net};
use std::alloc::{AllocError, Global};
use std::marker::Model;

/// The copies that the junctions have: a list per junction, with a place for each link that it feeds.
#[derive(Drop)]
pub struct Copies {
    rows: Vec<Vec<Option<Report>>>,
}

impl Model for Copies {
    ghost use Rattle.std.specs.Prelude.{List, Option};
    ghost use Rattle.mp_model.specs.EventCore.{Copy};
    ghost use Rattle.mp_round.specs.Copying.{copies_in};

    ghost Value = { List (List (Option Copy)) };

    ghost view = { copies_in };
}

impl Copies {
    /// No copies, and room for one of each link that a junction feeds.
    pub fn new(alloc: Global, net: &Net) -> Result<Copies, AllocError>
        ensures { IfOk result (λ copies. copies ≡ map (λ j. map (λ l. None) (targets net.now j)) net.now.junctions) }
    {
        let mut rows = Vec::with_capacity(alloc, usize::from(net.junctions()))?;
        for i in 0..net.junctions() {
            let row = no_reports(alloc, net.targets(i + 1).len())?;
            add_row(&mut rows, row)?;
        }
        Ok(Copies { rows })
    }

    /// The copy at a place of a junction.
    pub fn at(&self, j: JunctionNo, place: usize) -> &Option<Report>
        requires junction { (1 ≤ j) × (j ≤ length self.now) }
        requires place { place < length (slice_index_or self.now (j - 1) []) }
        ensures { result.now ≡ slice_index_or (slice_index_or self.now (j - 1) []) place result.now }
    {
        &self.rows[usize::from(j) - 1][place]
    }

    /// Puts a copy at a place of a junction.
    pub fn put(&mut self, j: JunctionNo, place: usize, report: Report)
        requires junction { (1 ≤ j) × (j ≤ length self.old) }
        requires place { place < length (slice_index_or self.old (j - 1) []) }
        ensures { self.new ≡ slice_set self.old (j - 1) (slice_set (slice_index_or self.old (j - 1) []) place (Some report)) }
    {
        put_in(&mut self.rows[usize::from(j) - 1], place, report);
    }

    /// There is no copy.
    pub fn is_empty(&self) -> bool
        ensures { result ≡ true → self.now ≡ map (map (λ copy. None)) self.now }
    {
        for i in 0..self.rows.len() {
            if !has_no_report(&self.rows[i]) {
                return false;
            }
        }
        true
    }

    /// Drops the copies that no decision of this period accepts.
    pub fn drop_old(&mut self, delay: u32, period: u64)
        ensures { self.new ≡ map (map (accepted delay period)) self.old }
    {
        for i in 0..self.rows.len() {
            drop_old_of(&mut self.rows[i], delay, period);
        }
    }
}

// A place without a copy for each of so many links.
fn no_reports(alloc: Global, count: usize) -> Result<Vec<Option<Report>>, AllocError>
    ensures { IfOk result (λ row. row.items ≡ replicate count None) }
{
    let mut row = Vec::with_capacity(alloc, count)?;
    'places: for _ in 0..count {
        row.push(None)?;
    }
    Ok(row)
}

fn add_row(rows: &mut Vec<Vec<Option<Report>>>, row: Vec<Option<Report>>) -> Result<(), AllocError>
    ensures { OnOk result (rows.new.items ≡ rows.old.items ++ row ∷ []) }
{
    rows.push(row)?;
    Ok(())
}

/// A decision of this period accepts a copy.
pub fn is_accepted(copy: &Option<Report>, delay: u32, period: u64) -> bool
    ensures { result ≡ not (is_none (accepted delay period copy.now)) }
{
    match copy {
        Some(report) => report.is_fresh(delay, period),
        None => false,
    }
}

// Puts a copy at a place of one junction.
fn put_in(row: &mut Vec<Option<Report>>, place: usize, report: Report)
    requires { place < length row.old.items }
    ensures { row.new.items ≡ slice_set row.old.items place (Some report) }
{
    row[place] = Some(report);
}

// There is no report among those of one junction.
fn has_no_report(row: &[Option<Report>]) -> bool
    ensures { result ≡ true → row.now ≡ map (λ report. None) row.now }
{
    for i in 0..row.len() {
        if row[i].is_some() {
            return false;
        }
    }
    true
}

// Drops the copies of one junction that no decision of this period accepts.
fn drop_old_of(row: &mut Vec<Option<Report>>, delay: u32, period: u64)
    ensures { row.new.items ≡ map (accepted delay period) row.old.items }
{
    for i in 0..row.len() {
        if !is_accepted(&row[i], delay, period) {
            row[i] = None;
        }
    }
}
