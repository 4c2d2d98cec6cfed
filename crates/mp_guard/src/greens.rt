//! What the greens of a junction take of a cycle, and what they give to each movement.
ghost use Rattle.std.specs.Prelude.{◌≡◌, ◌+◌, ◌*◌, ◌≤◌, ◌^◌, All, cond, nat_lt, length, sum};
ghost use Rattle.mp_model.specs.Guard.{is_always_green, owing, sum_with};
ghost use Rattle.mp_model.specs.Network.{junction_at, stage_at, has, entry};

use mp_net::{JunctionNo, MovementNo, Net, StageNo};

/// Whether the stage holds the movement.
pub fn holds(net: &Net, j: JunctionNo, s: StageNo, k: MovementNo) -> bool
    requires junction { (1 ≤ j) × (j ≤ length net.now.junctions) }
    requires stage { (1 ≤ s) × (s ≤ length (junction_at net.now j).stages) }
    ensures { result ≡ has (stage_at (junction_at net.now j) s) k }
{
    net.stage(j, s).contains(&k)
}

/// Whether the movement stands in every stage of the junction.
#[tactic(auto, using(crate::proofs::GreenLemmas::passings))]
pub fn is_always_green(net: &Net, j: JunctionNo, k: MovementNo) -> bool
    requires { (1 ≤ j) × (j ≤ length net.now.junctions) }
    ensures { result ≡ is_always_green (junction_at net.now j) k }
{
    for s in 0..net.stages(j) {
        if !holds(net, j, s + 1, k) {
            return false;
        }
    }
    true
}

// What a green and the change to it take.
fn taken_by(lost: u128, green: u128) -> u128
    requires lost { lost ≤ 1 }
    requires green { green ≤ 10 ^ 20 }
    ensures taken { result ≡ green + lost * cond (nat_lt 0 green) 1 0 }
    ensures few { result ≤ 10 ^ 20 + 1 }
{
    if green > 0 { green + lost } else { 0 }
}

/// What the greens of a junction and the changes to them take of a cycle, in periods.
#[tactic(auto, using(crate::proofs::GreenLemmas::takings))]
pub fn taken(lost: u128, greens: &[u128]) -> u128
    requires lost { lost ≤ 1 }
    requires size { length greens.now ≤ 16 }
    requires few { All (λ n. n ≤ 10 ^ 20) greens.now }
    ensures { result ≡ sum greens.now + lost * owing greens.now }
{
    let mut sum = 0;
    for green in greens {
        sum += taken_by(lost, *green);
    }
    sum
}

// The green of the stage where it holds the movement, and 0 where it doesn't.
fn green_with(net: &Net, j: JunctionNo, greens: &[u128], s: StageNo, k: MovementNo) -> u128
    requires junction { (1 ≤ j) × (j ≤ length net.now.junctions) }
    requires size { length greens.now ≡ length (junction_at net.now j).stages }
    requires few { All (λ n. n ≤ 10 ^ 20) greens.now }
    requires stage { (1 ≤ s) × (s ≤ length (junction_at net.now j).stages) }
    ensures green { result ≡ cond (has (stage_at (junction_at net.now j) s) k) (entry greens.now s) 0 }
    ensures few { result ≤ 10 ^ 20 }
{
    if holds(net, j, s, k) {
        greens[usize::from(s) - 1]
    } else {
        0
    }
}

/// The sum of the greens of those stages of the junction that hold the movement.
#[tactic(auto, using(crate::proofs::GreenLemmas::withs))]
pub fn sum_with(net: &Net, j: JunctionNo, greens: &[u128], k: MovementNo) -> u128
    requires junction { (1 ≤ j) × (j ≤ length net.now.junctions) }
    requires size { length greens.now ≡ length (junction_at net.now j).stages }
    requires few { All (λ n. n ≤ 10 ^ 20) greens.now }
    ensures sum { result ≡ sum_with (junction_at net.now j).stages greens.now k }
    ensures few { result ≤ length (junction_at net.now j).stages * 10 ^ 20 }
{
    let mut sum = 0;
    for s in 0..net.stages(j) {
        sum += green_with(net, j, greens, s + 1, k);
    }
    sum
}
