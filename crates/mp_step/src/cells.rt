//! Numbers in cells.
ghost use Rattle.std.specs.Prelude.{◌≡◌, ◌≤◌, ◌<◌, ◌-◌, ◌^◌, All, length, slice_set};
ghost use Rattle.mp_model.specs.Network.{entry};
ghost use Rattle.mp_press.specs.Queues.{naturals, NoneNegative};

use mp_net::LinkNo;
use mp_press::queue_of;

/// Writes the number of a movement or a link.
pub fn put_number(cells: &mut [i128], k: u16, number: u128)
    requires known { (1 ≤ k) × (k ≤ length cells.old) }
    requires fits { number < 2 ^ 127 }
    ensures value { naturals cells.new ≡ slice_set (naturals cells.old) (k - 1) number }
    ensures some { NoneNegative cells.old → NoneNegative cells.new }
{
    cells[usize::from(k) - 1] = number as i128;
}

/// The phase of a link.
pub fn phase_of(phases: &[i128], l: LinkNo) -> u32
    requires known { (1 ≤ l) × (l ≤ length phases.now) }
    requires fits { All (λ phase. phase < 2 ^ 32) (naturals phases.now) }
    ensures { result ≡ entry (naturals phases.now) l }
{
    queue_of(phases, l) as u32
}

/// The bucket level of a link.
pub fn level_of(levels: &[i128], l: LinkNo) -> u64
    requires known { (1 ≤ l) × (l ≤ length levels.now) }
    requires fits { All (λ level. level < 2 ^ 64) (naturals levels.now) }
    ensures { result ≡ entry (naturals levels.now) l }
{
    queue_of(levels, l) as u64
}
