//! Where the parts of a network stand.
ghost use Rattle.std.specs.Prelude.{◌≡◌, ◌≤◌, length, IfSome};
ghost use Rattle.mp_model.specs.Network.{from_of, to_of, junction_of_movement};
ghost use Rattle.mp_model.specs.NetworkRules.{IsAcceptable};

use mp_net::{JunctionNo, LinkNo, MovementNo, Net};

/// The link that the movement leaves.
pub fn from(net: &Net, k: MovementNo) -> LinkNo
    requires acceptable { IsAcceptable net.now }
    requires movement { (1 ≤ k) × (k ≤ length net.now.movements) }
    ensures value { result ≡ from_of net.now k }
    ensures known { (1 ≤ result) × (result ≤ length net.now.links) }
{
    net.movement(k).from
}

/// The junction of the movement.
pub fn junction_of(net: &Net, k: MovementNo) -> JunctionNo
    requires acceptable { IsAcceptable net.now }
    requires movement { (1 ≤ k) × (k ≤ length net.now.movements) }
    ensures value { result ≡ junction_of_movement net.now k }
    ensures known { (1 ≤ result) × (result ≤ length net.now.junctions) }
{
    net.junction_of(from(net, k))
}

/// The link that the movement goes to, or none outside.
pub fn target(net: &Net, k: MovementNo) -> Option<LinkNo>
    requires acceptable { IsAcceptable net.now }
    requires movement { (1 ≤ k) × (k ≤ length net.now.movements) }
    ensures value { result ≡ to_of net.now k }
    ensures known { IfSome result (λ l. (1 ≤ l) × (l ≤ length net.now.links)) }
{
    net.movement(k).to
}
