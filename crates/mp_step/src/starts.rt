//! The queues at which a run starts.
ghost use Rattle.std.specs.Prelude.{◌≡◌, ◌≤◌, ◌*◌, ◌^◌, length, map, pos, sum_by};
ghost use Rattle.mp_model.specs.Network.{movement_numbers, start_of};

use mp_net::Net;

/// Writes the start queue of each movement.
pub fn start_queues(net: &Net, queues: &mut [i128])
    requires { length queues.old ≡ length net.now.movements }
    ensures { queues.new ≡ map (λ k. pos (start_of net.now k)) (movement_numbers net.now) }
{
    let _ = net.shares();
    for i in 0..net.movements() {
        queues[usize::from(i)] = net.movement(i + 1).start as i128;
    }
}

/// How many vehicles are queued when a run starts.
pub fn started(net: &Net) -> u128
    ensures value { result ≡ sum_by (start_of net.now) (movement_numbers net.now) }
    ensures few { result ≤ 512 * 10 ^ 6 }
{
    let _ = net.shares();
    let mut sum = 0;
    for i in 0..net.movements() {
        sum += u128::from(net.movement(i + 1).start);
    }
    sum
}
