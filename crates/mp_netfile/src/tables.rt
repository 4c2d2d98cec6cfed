//! The first table where a rule is broken.
ghost use Rattle.std.specs.Prelude.{◌≡◌, ◌<◌, ◌^◌, length, map};
ghost use Rattle.std.specs.List.{position_from};
ghost use Rattle.toml.specs.View.{view};
ghost use Rattle.mp_netfile.specs.Keys.{first_table};
ghost use Rattle.mp_netfile.specs.TableRules.{breaks, IsInRange};
ghost use Rattle.mp_netfile.specs.Faults.{HasFewTables};

use crate::keys::{has_unlisted_key, lacks_key};
use crate::values::{has_bad_name, has_bad_number};
use mp_net::{Section, Spot, first_spot};
use mp_tree::section;
use toml::Value;

/// A rule that each table is tried for on its own.
#[derive(Clone, Copy)]
pub enum TableRule {
    /// Each key is listed in files of the version.
    ListedKeys { version: u64 },
    /// The keys that must be there are there, and each has its type.
    NeededKeys,
    /// Each number is in its range, under a share total and a rate length.
    Numbers { shares: u32, per: u32 },
    /// Each text is a name.
    Names,
}

fn breaks(rule: TableRule, kind: Section, table: &Value) -> bool
    requires { IsInRange rule }
    ensures { result ≡ breaks rule kind (view table.now) }
{
    match rule {
        TableRule::ListedKeys { version } => has_unlisted_key(version, kind, table),
        TableRule::NeededKeys => lacks_key(kind, table),
        TableRule::Numbers { shares, per } => has_bad_number(shares, per, kind, table),
        TableRule::Names => has_bad_name(kind, table),
    }
}

#[tactic(auto, using(crate::proofs::Places::places))]
fn first_in(rule: TableRule, kind: Section, tables: &[Value]) -> Option<u32>
    requires range { IsInRange rule }
    requires few { length tables.now < 2 ^ 32 }
    ensures { result ≡ position_from (breaks rule kind) 1 (map view tables.now) }
{
    let end = tables.len();
    for i in 0..end {
        if breaks(rule, kind, &tables[i]) {
            return Some(i as u32 + 1);
        }
    }
    None
}

/// The first table that breaks the rule: the top, or a table of a section by its number.
pub fn first_table(rule: TableRule, tree: &Value) -> Option<Spot>
    requires range { IsInRange rule }
    requires few { HasFewTables (view tree.now) }
    ensures { result ≡ first_table (breaks rule) (view tree.now) }
{
    first_spot(
        breaks(rule, Section::Top, tree),
        first_in(rule, Section::Link, section(tree, "link")),
        first_in(rule, Section::Movement, section(tree, "movement")),
        first_in(rule, Section::Junction, section(tree, "junction")),
    )
}
