//! Where the parts of a network stand.
ghost use Rattle.std.specs.Prelude.{◌≡◌, ◌≤◌, length};
ghost use Rattle.mp_model.specs.Network.{from_of};
ghost use Rattle.mp_model.specs.Certificate.{int_entry};
ghost use Rattle.mp_model.specs.NetworkRules.{IsAcceptable};

use mp_net::{LinkNo, MovementNo, Net};

/// The number of the movement in a vector.
pub fn number(p: &[i128], k: MovementNo) -> i128
    requires { (1 ≤ k) × (k ≤ length p.now) }
    ensures { result ≡ int_entry p.now k }
{
    p[usize::from(k) - 1]
}

/// The link that the movement leaves.
pub fn from(net: &Net, k: MovementNo) -> LinkNo
    requires acceptable { IsAcceptable net.now }
    requires movement { (1 ≤ k) × (k ≤ length net.now.movements) }
    ensures value { result ≡ from_of net.now k }
    ensures known { (1 ≤ result) × (result ≤ length net.now.links) }
{
    net.movement(k).from
}
