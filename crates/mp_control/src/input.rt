//! Lines of the controller's input.
ghost use Rattle.std.specs.Prelude.{◌≡◌, ◌≤◌, ◌<◌, ◌⊎◌, ◌++◌, ◌∷◌, [], ℕ, length, false, IsTrue, Some, None, ◌^◌, pos};
ghost use Rattle.arrayvec.specs.ArrayVec.{array_vec_len};
ghost use Rattle.mp_model.specs.ControlLog.{plain_line};
ghost use Rattle.mp_model.specs.Stream.{without_blanks_before, without_blanks_behind, count_of, read_counts};
ghost use Rattle.mp_press.specs.Queues.{naturals};
ghost use Rattle.mp_control.specs.Input.{AreSmall, IsOfLine};

use arrayvec::ArrayVec;
use mp_log::{behind, comma, is_skipped, read_blanked};
use mp_net::Net;

/// What a line of the input is.
#[derive(Clone, Copy, Debug, PartialEq, Eq)]
pub enum InputKind {
    /// An empty line, one of blanks alone, or a comment.
    Skipped,
    /// One count per movement.
    Counts,
    /// Not in the grammar.
    Bad,
}

fn signed(count: u64) -> i128
    ensures { result ≡ pos count }
{
    i128::from(count)
}

// Appends the count with blanks round it, where it is one and fewer than n are there.
fn push_count(part: &[u8], n: usize, into: &mut ArrayVec<i128, 512>) -> bool
    requires few { n ≤ 512 }
    requires so_far { array_vec_len into.old ≤ n }
    ensures pushed { IsTrue result → (array_vec_len into.old < n) × ((x : ℕ) × (count_of (without_blanks_behind (without_blanks_before part.now)) ≡ Some x) × (into.new.items ≡ into.old.items ++ pos x ∷ []) × (x < 10 ^ 9)) }
    ensures refused { result ≡ false → (array_vec_len into.old ≡ n) ⊎ (count_of (without_blanks_behind (without_blanks_before part.now)) ≡ None) }
{
    if into.len() == n {
        return false;
    }
    match read_blanked(part) {
        Some(count) => {
            into.push(signed(count));
            true
        }
        None => false,
    }
}

// The counts of a line of n counts with a comma between two, and blanks round each.
fn read_row(line: &[u8], n: usize, into: &mut ArrayVec<i128, 512>) -> bool
    requires few { n ≤ 512 }
    requires empty { into.old.items ≡ [] }
    ensures some { IsTrue result → read_counts n line.now ≡ Some (naturals into.new.items) }
    ensures small { IsTrue result → AreSmall into.new.items }
    ensures count { IsTrue result → length into.new.items ≡ n }
    ensures none { result ≡ false → read_counts n line.now ≡ None }
{
    let mut rest = line;
    while let Some(at) = comma(rest) {
        if !push_count(&rest[..at], n, into) {
            return false;
        }
        rest = behind(rest, at);
    }
    if !push_count(rest, n, into) {
        return false;
    }
    into.len() == n
}

/// Says what a line of the input is, without its end. With `Counts` it makes `into` the counts, one per
/// movement in movement order, and else it leaves it empty.
pub fn read_input(net: &Net, line: &[u8], into: &mut ArrayVec<i128, 512>) -> InputKind
    ensures line { IsOfLine result into.new.items (plain_line net.now line.now) }
    ensures small { result ≡ InputKind.Counts → AreSmall into.new.items }
    ensures count { result ≡ InputKind.Counts → length into.new.items ≡ length net.now.movements }
    ensures empty { ¬ (result ≡ InputKind.Counts) → into.new.items ≡ [] }
{
    into.clear();
    if is_skipped(line) {
        return InputKind::Skipped;
    }
    if read_row(line, usize::from(net.movements()), into) {
        InputKind::Counts
    } else {
        into.clear();
        InputKind::Bad
    }
}
