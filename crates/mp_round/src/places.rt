//! Places of numbers in lists.
ghost use Rattle.std.specs.Prelude.{◌≡◌, ◌==◌, position};

/// The first place of the number, from 0.
pub fn place_in(numbers: &[u16], n: u16) -> Option<usize>
    ensures { result ≡ position (λ number. number == n) numbers.now }
{
    numbers.iter().position(|number| *number == n)
}
