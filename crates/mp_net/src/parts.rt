//! The parts of a network, as a file or a program names them.
ghost use Rattle.std.specs.Prelude.{◌≡◌, true, false, IfSome, IfNone};
ghost use Rattle.std.specs.List.{list_all};
ghost use Rattle.mp_model.specs.Names.{is_name, is_name_byte};

use std::marker::Model;

/// The number of a link, from 1.
pub type LinkNo = u16;

/// The number of a movement, from 1.
pub type MovementNo = u16;

/// The number of a junction, from 1.
pub type JunctionNo = u16;

/// The number of a stage in its junction, from 1.
pub type StageNo = u16;

/// A name: 1 to 32 letters, digits, `_`, `-` or `.`.
#[derive(Drop)]
pub struct Name {
    kept: [u8; 32],
    len: usize,
}

impl Model for Name {
    ghost use Rattle.std.specs.Prelude.{◌≡◌, ◌≤◌, List, ℕ, take, true};
    ghost use Rattle.mp_model.specs.Names.{is_name};

    ghost Value = { List ℕ };

    ghost view = { λ n. take n.len n.kept };

    ghost invariant = { λ n. (n.len ≤ 32) × (is_name (take n.len n.kept) ≡ true) };
}

fn is_name_byte(byte: u8) -> bool
    ensures { result ≡ is_name_byte byte }
{
    matches!(byte, b'a'..=b'z' | b'A'..=b'Z' | b'0'..=b'9' | b'_' | b'-' | b'.')
}

fn are_name_bytes(bytes: &[u8]) -> bool
    ensures { result ≡ list_all is_name_byte bytes.now }
{
    bytes.iter().all(|byte| is_name_byte(*byte))
}

/// The bytes are a name.
pub fn is_name(bytes: &[u8]) -> bool
    ensures { result ≡ is_name bytes.now }
{
    bytes.len() >= 1 && bytes.len() <= 32 && are_name_bytes(bytes)
}

impl Name {
    /// The name of these bytes, where they are one.
    pub fn from_bytes(bytes: &[u8]) -> Option<Name>
        ensures some { IfSome result (λ n. (n ≡ bytes.now) × (is_name bytes.now ≡ true)) }
        ensures none { IfNone result (is_name bytes.now ≡ false) }
    {
        if !is_name(bytes) {
            return None;
        }
        let mut kept = [0u8; 32];
        for i in 0..bytes.len() {
            kept[i] = bytes[i];
        }
        Some(Name {
            kept,
            len: bytes.len(),
        })
    }

    /// The bytes of the name.
    pub fn bytes(&self) -> &[u8]
        ensures value { result.now ≡ self.now }
        ensures name { is_name self.now ≡ true }
    {
        &self.kept[..self.len]
    }
}

/// A link: its burst is in vehicles, its rate in vehicles per rate length.
#[derive(Drop)]
pub struct LinkPart {
    pub name: Name,
    pub burst: u32,
    pub rate: u32,
}

/// A movement from a link to a link, or to the outside where `to` is `None`.
/// The number 0 stands for a link that was not found.
/// Its share is in parts of the network's share total, its flow in vehicles per period, and `start` is how
/// many vehicles queue on it when a run starts.
#[derive(Drop)]
pub struct MovementPart {
    pub name: Name,
    pub from: LinkNo,
    pub to: Option<LinkNo>,
    pub share: u32,
    pub flow: u32,
    pub start: u32,
}

/// A junction: its stages are lists of movements.
/// The number 0 stands for a movement that was not found.
#[derive(Drop)]
pub struct JunctionPart {
    pub name: Name,
    pub stages: Vec<Vec<MovementNo>>,
}

/// The parts of a network: the share total, the rate length in periods, the greatest age in periods of a
/// report that a junction decides by, and the links, movements and junctions in their order.
#[derive(Drop)]
pub struct NetParts {
    pub shares: u32,
    pub per: u32,
    pub delay: u32,
    pub links: Vec<LinkPart>,
    pub movements: Vec<MovementPart>,
    pub junctions: Vec<JunctionPart>,
}
