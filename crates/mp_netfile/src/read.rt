//! A network from the bytes of a file.
ghost use Rattle.std.specs.Prelude.{◌≡◌, None, Ok, OnOk, IfOk, IfErr};
ghost use Rattle.toml.specs.View.{view};
ghost use Rattle.mp_net.specs.Spots.{first_broken, or_later};
ghost use Rattle.mp_net.specs.Refused.{IsFirst};
ghost use Rattle.mp_netfile.specs.Values.{version_of, is_version};
ghost use Rattle.mp_netfile.specs.Keys.{unknown_key};
ghost use Rattle.mp_netfile.specs.Meaning.{file_meaning, tree_meaning, tree_rules, bad_version, bad_number_in, network_from};
ghost use Rattle.mp_netfile.specs.Right.{IsRight};
ghost use Rattle.mp_netfile.specs.Faults.{IsFaultOf, HasFewTables};

use crate::parts::net_parts;
use crate::tables::{TableRule, first_table};
use crate::values::{has_bad_number, number_at};
use mp_model::limits::MOST_FILE_BYTES;
use mp_net::{Net, NetFault, NetRule, Section, Spot, build, first_spot};
use mp_tree::integer_at;
use std::alloc::Global;
use toml::Value;

fn at_top(rule: NetRule) -> NetFault
    ensures { result ≡ NetFault.Rule rule (record { section = Section.Top; number = 0 }) }
{
    NetFault::Rule {
        rule,
        spot: Spot {
            section: Section::Top,
            number: 0,
        },
    }
}

/// The tree of a file.
fn read_tree(alloc: Global, bytes: &[u8]) -> Result<Value, NetFault>
    ensures ok { IfOk result (λ tree. file_meaning bytes.now ≡ tree_meaning (view tree)) }
    ensures few { IfOk result (λ tree. HasFewTables (view tree)) }
    ensures err { IfErr result (IsFaultOf (file_meaning bytes.now)) }
{
    if bytes.len() > MOST_FILE_BYTES {
        return Err(at_top(NetRule::TooLong));
    }
    let text = match std::str::from_utf8(bytes) {
        Ok(text) => text,
        Err(_) => return Err(at_top(NetRule::BadToml)),
    };
    match toml::table_from_str(alloc, text) {
        Ok(table) => Ok(Value::Table(table)),
        Err(error) => {
            if error.is_memory() {
                Err(NetFault::NoMemory)
            } else {
                Err(at_top(NetRule::BadToml))
            }
        }
    }
}

/// The version that a tree names, and 0 where that is no number from 0 on.
fn version_of(tree: &Value) -> u64
    ensures { result ≡ version_of (view tree.now) }
{
    match integer_at(tree, "version") {
        Some(version) if version >= 0 => version as u64,
        _ => 0,
    }
}

/// The version first: which keys are listed rests on it.
fn unknown_key(tree: &Value) -> Option<Spot>
    requires { HasFewTables (view tree.now) }
    ensures { result ≡ unknown_key (view tree.now) }
{
    let rule = TableRule::ListedKeys {
        version: version_of(tree),
    };
    first_table(rule, tree)
}

fn is_version(version: u64) -> bool
    ensures { result ≡ is_version version }
{
    version == 1 || version == 2 || version == 3
}

fn bad_version(tree: &Value) -> Option<Spot>
    ensures { result ≡ bad_version (view tree.now) }
{
    first_spot(!is_version(version_of(tree)), None, None, None)
}

/// The top table's numbers first: the ranges of the others rest on them.
fn bad_number(tree: &Value) -> Option<Spot>
    requires { HasFewTables (view tree.now) }
    ensures { result ≡ bad_number_in (view tree.now) }
{
    if has_bad_number(0, 0, Section::Top, tree) {
        return first_spot(true, None, None, None);
    }
    let rule = TableRule::Numbers {
        shares: number_at(tree, "shares"),
        per: number_at(tree, "per"),
    };
    first_table(rule, tree)
}

fn refuse(rule: NetRule, spot: Option<Spot>) -> Result<(), NetFault>
    ensures ok { OnOk result (spot ≡ None) }
    ensures err { IfErr result (IsFirst (or_later rule spot None)) }
{
    match spot {
        Some(spot) => Err(NetFault::Rule { rule, spot }),
        None => Ok(()),
    }
}

/// Tries the rules on keys, types, version, numbers and names, each over the whole tree.
fn check_tree(tree: &Value) -> Result<(), NetFault>
    requires { HasFewTables (view tree.now) }
    ensures ok { OnOk result (IsRight (view tree.now)) }
    ensures err { IfErr result (IsFirst (first_broken (tree_rules (view tree.now)))) }
{
    refuse(NetRule::UnknownKey, unknown_key(tree))?;
    refuse(
        NetRule::MissingKey,
        first_table(TableRule::NeededKeys, tree),
    )?;
    refuse(NetRule::BadVersion, bad_version(tree))?;
    refuse(NetRule::BadNumber, bad_number(tree))?;
    refuse(NetRule::BadName, first_table(TableRule::Names, tree))
}

/// The network of a file, or the first rule that its bytes break, with the first spot where they do.
///
/// The rules are tried in the order of [`NetRule`], each over the whole file before the next.
/// `NetFault::NoMemory` says nothing of the file.
pub fn read_net(alloc: Global, bytes: &[u8]) -> Result<Net, NetFault>
    ensures ok { IfOk result (λ net. file_meaning bytes.now ≡ Ok net) }
    ensures refused { IfErr result (IsFaultOf (file_meaning bytes.now)) }
{
    let tree = read_tree(alloc, bytes)?;
    check_tree(&tree)?;
    let parts = net_parts(alloc, &tree)?;
    build(alloc, parts)
}
