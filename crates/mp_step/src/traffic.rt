//! One period, whatever passes in it.
ghost use Rattle.std.specs.Prelude.{◌≡◌, ◌≤◌, ◌<◌, ◌^◌, ℕ, List, [], ◌∷◌, ◌++◌, All, None, Some, IfErr, OnOk, OnErr, length};
ghost use Rattle.mp_model.specs.Network.{entry};
ghost use Rattle.mp_model.specs.Arrivals.{HasCounts};
ghost use Rattle.mp_model.specs.Step.{departing_by};
ghost use Rattle.mp_model.specs.declared.limits.TheConstants.{MOST_LINES};
ghost use Rattle.mp_laws.specs.Buckets.{IsFirstAbove};
ghost use Rattle.mp_step.specs.BucketLevels.{first_above};
ghost use Rattle.mp_step.specs.OpenStep.{ArePasses, closed_by};
ghost use Rattle.mp_step.specs.Standing.{IsOn};
ghost use Rattle.mp_step.specs.Taken.{HasTaken};
ghost use Rattle.mp_step.specs.TrafficView.{stands, IsSound};

use crate::spans::Spans;
use crate::state::AboveAt;
use mp_feed::{Bucket, Splitter};
use mp_net::Net;

/// The traffic on a network: the queue of each movement, the phase and the bucket level of each link,
/// the period, and how many vehicles entered and departed.
///
/// A period writes the next queues, phases and levels beside those of now, and then flips their spans, so
/// it takes no memory and copies nothing: all cells are made at the opening. A refused period doesn't flip.
#[derive(Drop)]
pub struct Traffic {
    pub period: u64,
    pub spans: Spans,
    pub total_in: u128,
    pub total_out: u128,
    pub splits: Vec<Splitter>,
    // The empty bucket of each link; its level stands in the spans.
    pub buckets: Vec<Bucket>,
    // How what a link received is split.
    pub parts: Vec<u64>,
}

/// One period in which the movements pass these numbers, one per movement and none above its queue, and
/// so many vehicles leave the network.
///
/// `AboveAt` names the least link that would be above its bucket; the traffic then stays as it was.
pub fn advance(
    traffic: &mut Traffic,
    net: &Net,
    passes: &[u32],
    left: u64,
    arrivals: &[u64],
) -> Result<(), AboveAt>
    requires sound { IsSound traffic.old }
    requires on { IsOn net.now (stands traffic.old) }
    requires size { length passes.now ≡ length net.now.movements }
    requires each { All (λ y. y ≤ 1000) passes.now }
    requires passes { ArePasses net.now (entry (stands traffic.old).queues) (entry passes.now) }
    requires left { left ≡ departing_by net.now (entry passes.now) }
    requires counts { HasCounts net.now arrivals.now }
    requires digits { All (λ a. a < 10 ^ 9) arrivals.now }
    requires period { traffic.old.period < MOST_LINES }
    ensures above { IfErr result (λ above. first_above net.now (entry (stands traffic.old).levels) arrivals.now ≡ Some above.link) }
    ensures excess { IfErr result (λ above. (A : List (List ℕ)) → HasTaken net.now (stands traffic.old) A → IsFirstAbove net.now A arrivals.now above.link) }
    ensures stays { OnErr result (stands traffic.new ≡ stands traffic.old) }
    ensures within { OnOk result (first_above net.now (entry (stands traffic.old).levels) arrivals.now ≡ None) }
    ensures taken { OnOk result ((A : List (List ℕ)) → HasTaken net.now (stands traffic.old) A → HasTaken net.now (stands traffic.new) (A ++ arrivals.now ∷ [])) }
    ensures closed { OnOk result (stands traffic.new ≡ closed_by net.now (stands traffic.old) (entry passes.now) arrivals.now) }
    ensures on { IsOn net.now (stands traffic.new) }
    ensures sound { IsSound traffic.new }
{
    let _ = net.shares();
    let came = match traffic.spans.write_next(
        net,
        &traffic.splits,
        &traffic.buckets,
        arrivals,
        passes,
        &mut traffic.parts,
    ) {
        Ok(came) => came,
        Err(link) => return Err(AboveAt { link }),
    };
    traffic.spans.flip();
    traffic.period += 1;
    traffic.total_in += u128::from(came);
    traffic.total_out += u128::from(left);
    Ok(())
}
