//! A network that meets the rules, with its tables of neighbours.
ghost use Rattle.std.specs.Prelude.{◌≡◌, ◌==◌, ◌≤◌, ℕ, length, position, None, IfOk};
ghost use Rattle.mp_model.specs.Network.{link_at, movement_at, junction_at, stage_at, share_of, flow_of, from_of, to_of, out_of, into_link, junction_of_link, fed, own, targets, next};
ghost use Rattle.mp_model.specs.NetworkRules.{IsAcceptable};
ghost use Rattle.mp_net.specs.Spots.{first_broken};
ghost use Rattle.mp_net.specs.Rules.{part_rules};
ghost use Rattle.mp_net.specs.Parts.{network_of, link_of, movement_of, junction_of};

use crate::greens::{StageSpan, put_greens};
use crate::tables::{JunctionRow, LinkRow, Turn, fed, junction_rows, link_rows, turns};
use crate::{
    JunctionNo, JunctionPart, LinkNo, LinkPart, MovementNo, MovementPart, NetParts, NoMemory,
    StageNo,
};
use std::alloc::Global;
use std::marker::Model;

/// A network that meets the rules. Callers see it as lists numbered from 1.
#[derive(Drop)]
pub struct Net {
    parts: NetParts,
    fed: Vec<LinkNo>,
    by_link: Vec<LinkRow>,
    by_junction: Vec<JunctionRow>,
    turns: Vec<Turn>,
    // The movements that have green, stage after stage, and where each stage of each junction lies.
    greens: Vec<MovementNo>,
    by_stage: Vec<Vec<StageSpan>>,
}

impl Model for Net {
    ghost use Rattle.mp_model.specs.Network.{Network};
    ghost use Rattle.mp_net.specs.Tables.{seen_of, HasTables};

    ghost Value = { Network };

    ghost view = { seen_of };

    ghost invariant = { HasTables };
}

impl Net {
    /// The network of these parts, with its tables.
    pub(crate) fn with_tables(alloc: Global, parts: NetParts) -> Result<Net, NoMemory>
        requires acceptable { IsAcceptable (network_of parts) }
        requires sound { first_broken (part_rules (network_of parts)) ≡ None }
        ensures { IfOk result (λ net. net ≡ network_of parts) }
    {
        let fed = fed(alloc, &parts)?;
        let by_link = link_rows(alloc, &parts, &fed)?;
        let by_junction = junction_rows(alloc, &parts)?;
        let turns = turns(alloc, &parts)?;
        let mut greens = Vec::new(alloc);
        let by_stage = put_greens(alloc, &parts, &mut greens)?;
        Ok(Net {
            parts,
            fed,
            by_link,
            by_junction,
            turns,
            greens,
            by_stage,
        })
    }

    /// The share total.
    pub fn shares(&self) -> u32
        ensures value { result ≡ self.now.shares }
        ensures acceptable { IsAcceptable self.now }
        ensures sound { first_broken (part_rules self.now) ≡ None }
    {
        self.parts.shares
    }

    /// The rate length, in periods.
    pub fn per(&self) -> u32
        ensures { result ≡ self.now.per }
    {
        self.parts.per
    }

    /// The greatest age, in periods, of a report that a junction decides by.
    pub fn delay(&self) -> u32
        ensures { result ≡ self.now.delay }
    {
        self.parts.delay
    }

    /// How many links there are.
    pub fn links(&self) -> u16
        ensures count { result ≡ length self.now.links }
        ensures few { result ≤ 128 }
    {
        self.parts.links.len() as u16
    }

    /// How many movements there are.
    pub fn movements(&self) -> u16
        ensures count { result ≡ length self.now.movements }
        ensures few { result ≤ 512 }
    {
        self.parts.movements.len() as u16
    }

    /// How many junctions there are.
    pub fn junctions(&self) -> u16
        ensures count { result ≡ length self.now.junctions }
        ensures few { result ≤ 64 }
    {
        self.parts.junctions.len() as u16
    }

    /// The link.
    pub fn link(&self, l: LinkNo) -> &LinkPart
        requires { (1 ≤ l) × (l ≤ length self.now.links) }
        ensures part { link_of result.now ≡ link_at self.now l }
        ensures name { result.now.name ≡ (link_at self.now l).name }
        ensures burst { result.now.burst ≡ (link_at self.now l).burst }
        ensures rate { result.now.rate ≡ (link_at self.now l).rate }
    {
        &self.parts.links[usize::from(l) - 1]
    }

    /// The movement.
    pub fn movement(&self, k: MovementNo) -> &MovementPart
        requires { (1 ≤ k) × (k ≤ length self.now.movements) }
        ensures part { movement_of result.now ≡ movement_at self.now k }
        ensures name { result.now.name ≡ (movement_at self.now k).name }
        ensures from { result.now.from ≡ from_of self.now k }
        ensures to { result.now.to ≡ to_of self.now k }
        ensures share { result.now.share ≡ share_of self.now k }
        ensures flow { result.now.flow ≡ flow_of self.now k }
    {
        &self.parts.movements[usize::from(k) - 1]
    }

    /// What a period asks of the movement: where it goes from and to, its share and its flow.
    pub fn turn(&self, k: MovementNo) -> &Turn
        requires { (1 ≤ k) × (k ≤ length self.now.movements) }
        ensures from { result.now.from ≡ from_of self.now k }
        ensures to { result.now.to ≡ to_of self.now k }
        ensures share { result.now.share ≡ share_of self.now k }
        ensures flow { result.now.flow ≡ flow_of self.now k }
    {
        &self.turns[usize::from(k) - 1]
    }

    /// The junction.
    pub fn junction(&self, j: JunctionNo) -> &JunctionPart
        requires { (1 ≤ j) × (j ≤ length self.now.junctions) }
        ensures part { junction_of result.now ≡ junction_at self.now j }
        ensures name { result.now.name ≡ (junction_at self.now j).name }
    {
        &self.parts.junctions[usize::from(j) - 1]
    }

    /// How many stages the junction has.
    pub fn stages(&self, j: JunctionNo) -> u16
        requires { (1 ≤ j) × (j ≤ length self.now.junctions) }
        ensures count { result ≡ length (junction_at self.now j).stages }
        ensures few { (1 ≤ result) × (result ≤ 16) }
    {
        self.parts.junctions[usize::from(j) - 1].stages.len() as u16
    }

    /// The movements that have green in the stage, in the order of the stage.
    pub fn stage(&self, j: JunctionNo, s: StageNo) -> &[MovementNo]
        requires { (1 ≤ j) × (j ≤ length self.now.junctions) × (1 ≤ s) × (s ≤ length (junction_at self.now j).stages) }
        ensures { result.now ≡ stage_at (junction_at self.now j) s }
    {
        let span = &self.by_stage[usize::from(j) - 1][usize::from(s) - 1];
        &self.greens[span.start..span.end]
    }

    /// The movements out of the link, in ascending order.
    pub fn out_of(&self, l: LinkNo) -> &[MovementNo]
        requires { (1 ≤ l) × (l ≤ length self.now.links) }
        ensures { result.now ≡ out_of self.now l }
    {
        &self.by_link[usize::from(l) - 1].outs
    }

    /// The movements into the link, in ascending order.
    pub fn into_link(&self, l: LinkNo) -> &[MovementNo]
        requires { (1 ≤ l) × (l ≤ length self.now.links) }
        ensures { result.now ≡ into_link self.now l }
    {
        &self.by_link[usize::from(l) - 1].intos
    }

    /// The junction that serves the link.
    pub fn junction_of(&self, l: LinkNo) -> JunctionNo
        requires { (1 ≤ l) × (l ≤ length self.now.links) }
        ensures { result ≡ junction_of_link self.now l }
    {
        self.by_link[usize::from(l) - 1].junction
    }

    /// The fed links, in ascending order.
    pub fn fed(&self) -> &[LinkNo]
        ensures { result.now ≡ fed self.now }
    {
        &self.fed
    }

    /// The place of the link among the fed links, from 0, or none where it is not fed.
    pub fn fed_place(&self, l: LinkNo) -> Option<usize>
        requires { (1 ≤ l) × (l ≤ length self.now.links) }
        ensures { result ≡ position (λ f. f == l) (fed self.now) }
    {
        self.by_link[usize::from(l) - 1].fed_place
    }

    /// The movements of the junction, in ascending order.
    pub fn own(&self, j: JunctionNo) -> &[MovementNo]
        requires { (1 ≤ j) × (j ≤ length self.now.junctions) }
        ensures { result.now ≡ own self.now (junction_at self.now j) }
    {
        &self.by_junction[usize::from(j) - 1].own
    }

    /// The links that the movements of the junction go to, in ascending order.
    pub fn targets(&self, j: JunctionNo) -> &[LinkNo]
        requires { (1 ≤ j) × (j ≤ length self.now.junctions) }
        ensures { result.now ≡ targets self.now (junction_at self.now j) }
    {
        &self.by_junction[usize::from(j) - 1].targets
    }

    /// The movements out of these links, in ascending order.
    pub fn next(&self, j: JunctionNo) -> &[MovementNo]
        requires { (1 ≤ j) × (j ≤ length self.now.junctions) }
        ensures { result.now ≡ next self.now (junction_at self.now j) }
    {
        &self.by_junction[usize::from(j) - 1].next
    }
}
