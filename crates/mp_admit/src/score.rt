//! Where the game of the junctions stands.
ghost use Rattle.std.specs.Prelude.{◌≡◌};

use mp_net::JunctionNo;
use mp_num::{Frac, Numbers};

/// The slack so far, the junction that it comes from, and a value for each movement of that junction.
#[derive(Drop)]
pub struct Score {
    pub slack: Frac,
    pub junction: JunctionNo,
    pub values: Numbers,
}
