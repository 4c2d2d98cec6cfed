//! The greatest of some numbers.
ghost use Rattle.std.specs.Prelude.{◌≡◌, ◌<◌, length, slice_index};
ghost use Rattle.mp_press.specs.Queues.{naturals};
ghost use Rattle.mp_model.specs.Load.{greatest as greatest_of};

// The number at a place, from 0, without its sign.
fn number_at(numbers: &[i128], i: usize) -> u128
    requires { i < length numbers.now }
    ensures { result ≡ slice_index (naturals numbers.now) i }
{
    numbers[i].unsigned_abs()
}

/// The greatest of some numbers without their signs, and 0 of none.
#[tactic(auto, using(crate::proofs::Greatests::greatests))]
pub fn greatest_of(numbers: &[i128]) -> u128
    ensures { result ≡ greatest_of (naturals numbers.now) }
{
    let mut greatest = 0;
    for i in 0..numbers.len() {
        greatest = number_at(numbers, i).max(greatest);
    }
    greatest
}
