//! A network from its parts.
ghost use Rattle.std.specs.Prelude.{◌≡◌, None, IfOk, OnOk, IfErr, IsOkUnless};
ghost use Rattle.mp_model.specs.NetworkRules.{IsAcceptable};
ghost use Rattle.mp_net.specs.Parts.{network_of};
ghost use Rattle.mp_net.specs.Refused.{IsFirst};
ghost use Rattle.mp_net.specs.Rules.{part_rules};
ghost use Rattle.mp_net.specs.Spots.{first_broken};

use crate::{Net, NetFault, NetParts, check_parts};
use std::alloc::Global;

/// The network of these parts, where they break no rule.
///
/// The rules are tried in the order of [`NetRule`](crate::NetRule), from `BadNumber` on,
/// each over all parts before the next. Of `BadName` only the rule that no link is named `out` can be broken here.
///
/// `NetFault::Rule` has the first rule that is broken, with the first spot where it is.
/// `NetFault::NoMemory` says nothing of the parts.
pub fn build(alloc: Global, parts: NetParts) -> Result<Net, NetFault>
    ensures ok { IfOk result (λ net. net ≡ network_of parts) }
    ensures keeps { OnOk result (first_broken (part_rules (network_of parts)) ≡ None) }
    ensures refused { IfErr result (IsFirst (first_broken (part_rules (network_of parts)))) }
    ensures complete { IsAcceptable (network_of parts) → IsOkUnless result NetFault.NoMemory }
{
    check_parts(alloc, &parts)?;
    Ok(Net::with_tables(alloc, parts)?)
}
