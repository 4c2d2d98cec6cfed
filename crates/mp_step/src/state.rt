// Where a run stands.
ghost use Rattle.std.specs.Prelude.{◌≡◌, ◌≤◌, ◌<◌, ◌+◌, ◌^◌, ℕ, List, [], ◌∷◌, ◌++◌, All, None, Some, IfOk, IfErr, OnOk, OnErr, map, pos, length, sum};
ghost use Rattle.mp_model.specs.Network.{Network, entry};
ghost use Rattle.mp_model.specs.Arrivals.{arrivals_of, HasCounts};
ghost use Rattle.mp_model.specs.Step.{State as StateOfModel, AreStages, step};
ghost use Rattle.mp_model.specs.Run.{opening};
ghost use Rattle.mp_model.specs.declared.limits.TheConstants.{MOST_LINES};
ghost use Rattle.mp_laws.specs.Buckets.{IsFirstAbove};
ghost use Rattle.mp_press.specs.Queues.{naturals, AreCounts};
ghost use Rattle.mp_step.specs.BucketLevels.{first_above, IsRoom};
ghost use Rattle.mp_press.specs.LinkSums.{AreSums};
ghost use Rattle.mp_step.specs.OpenStep.{closed_open, open_step};
ghost use Rattle.mp_step.specs.Standing.{Stands, IsOn, closed, shares_in, splits_of};
ghost use Rattle.mp_step.specs.Taken.{HasTaken};

use crate::cells::{level_of, phase_of};
use crate::levels::{make_buckets, room_of};
use crate::passing::{serve_all, serve_open};
use crate::spans::Spans;
use crate::starts::started;
use crate::traffic::{Traffic, advance};
use mp_feed::{NoMemory, Splitter};
use mp_net::{LinkNo, MovementNo, Net, StageNo};
use mp_press::queue_of;
use std::alloc::{AllocError, Global};
use std::marker::Model;

/// The arrivals of a period would put this link above its bucket, and no link of lower number.
#[derive(Clone, Copy, Debug, PartialEq, Eq)]
pub struct AboveAt {
    pub link: LinkNo,
}

/// Where a run stands: the traffic on the network, and room for what each movement passes.
#[derive(Drop)]
pub struct State {
    traffic: Traffic,
    passes: Vec<u32>,
}

impl Model for State {
    ghost use Rattle.mp_step.specs.Standing.{Standing};
    ghost use Rattle.mp_step.specs.StateView.{standing_of, IsKept};

    ghost Value = { Standing };

    ghost view = { standing_of };

    ghost invariant = { IsKept };
}

impl State {
    /// The opening of a run: period 0, the start queues, which count as entered, nothing received, and each
    /// bucket empty.
    /// `NoMemory` comes only where memory runs out.
    pub fn empty(alloc: Global, net: &Net) -> Result<State, NoMemory>
        ensures on { IfOk result (λ s. IsOn net.now s) }
        ensures opening { IfOk result (λ s. Stands net.now s (opening net.now)) }
        ensures taken { IfOk result (λ s. HasTaken net.now s []) }
    {
        let _ = net.shares();
        let movements = usize::from(net.movements());
        let traffic = Traffic {
            period: 0,
            spans: Spans::open(alloc, net)?,
            total_in: started(net),
            total_out: 0,
            splits: make_splits(alloc, net)?,
            buckets: make_buckets(alloc, net)?,
            parts: vec![in alloc; 0u64; movements]?,
        };
        let passes = vec![in alloc; 0u32; movements]?;
        Ok(State { traffic, passes })
    }

    /// The queue of the movement, in vehicles.
    pub fn queue(&self, k: MovementNo) -> i128
        requires { (1 ≤ k) × (k ≤ length self.now.queues) }
        ensures { result ≡ pos (entry self.now.queues k) }
    {
        queue_of(self.traffic.spans.queues(), k) as i128
    }

    /// The queues, one per movement.
    pub fn queues(&self) -> &[i128]
        ensures value { naturals result.now ≡ self.now.queues }
        ensures len { length result.now ≡ length self.now.queues }
        ensures counts { AreCounts result.now }
        ensures few { All (λ q. q ≤ 2 ^ 85) self.now.queues }
    {
        self.traffic.spans.queues()
    }

    /// The number of periods so far.
    pub fn period(&self) -> u64
        ensures value { result ≡ self.now.period }
        ensures few { result ≤ MOST_LINES }
    {
        self.traffic.period
    }

    /// How many vehicles entered: as many as departed and are queued.
    pub fn total_in(&self) -> u128
        ensures value { result ≡ self.now.total_in }
        ensures conserved { self.now.total_in ≡ self.now.total_out + sum self.now.queues }
        ensures few { result ≤ 2 ^ 85 }
    {
        self.traffic.total_in
    }

    /// How many vehicles departed.
    pub fn total_out(&self) -> u128
        ensures value { result ≡ self.now.total_out }
        ensures conserved { self.now.total_in ≡ self.now.total_out + sum self.now.queues }
        ensures few { result ≤ 2 ^ 85 }
    {
        self.traffic.total_out
    }

    /// The phase of the link: how many vehicles it received, modulo the share total.
    pub fn phase(&self, l: LinkNo) -> u32
        requires { (1 ≤ l) × (l ≤ length self.now.phases) }
        ensures { result ≡ entry self.now.phases l }
    {
        phase_of(self.traffic.spans.phases(), l)
    }

    /// The bucket level of the link, in vehicles times the rate length; it is 0 where the link is not fed.
    pub fn level(&self, l: LinkNo) -> u64
        requires { (1 ≤ l) × (l ≤ length self.now.levels) }
        ensures { result ≡ entry self.now.levels l }
    {
        level_of(self.traffic.spans.levels(), l)
    }

    /// The greatest count of arrivals that the bucket of the link takes in the next period.
    pub fn room(&self, l: LinkNo) -> u64
        requires { (1 ≤ l) × (l ≤ length self.now.levels) }
        ensures { (net : Network) → IsOn net self.now → IsRoom net (entry self.now.levels) l result }
    {
        room_of(&self.traffic.buckets, self.traffic.spans.levels(), l)
    }

    /// One period in which the junctions show these stages, one per junction, and these many vehicles
    /// arrive, one count of at most 9 digits per fed link.
    ///
    /// A movement of a shown stage with a positive weight passes the lesser of its flow and its queue,
    /// by the queues before the period; each link receives its arrivals and what passes into it, and
    /// splits that among its movements from its phase on.
    ///
    /// `AboveAt` comes exactly where some fed link would be above its bucket: it names the least, and
    /// the state stays as it was.
    pub fn close(&mut self, net: &Net, stages: &[StageNo], arrivals: &[u64]) -> Result<(), AboveAt>
        requires on { IsOn net.now self.old }
        requires stages { AreStages net.now.junctions stages.now }
        requires counts { HasCounts net.now arrivals.now }
        requires digits { All (λ a. a < 10 ^ 9) arrivals.now }
        requires period { self.old.period < MOST_LINES }
        ensures above { IfErr result (λ above. first_above net.now (entry self.old.levels) arrivals.now ≡ Some above.link) }
        ensures excess { IfErr result (λ above. (A : List (List ℕ)) → HasTaken net.now self.old A → IsFirstAbove net.now A arrivals.now above.link) }
        ensures stays { OnErr result (self.new ≡ self.old) }
        ensures within { OnOk result (first_above net.now (entry self.old.levels) arrivals.now ≡ None) }
        ensures taken { OnOk result ((A : List (List ℕ)) → HasTaken net.now self.old A → HasTaken net.now self.new (A ++ arrivals.now ∷ [])) }
        ensures closed { OnOk result (self.new ≡ closed net.now self.old stages.now arrivals.now) }
        ensures step { OnOk result ((state : StateOfModel) → Stands net.now self.old state → Stands net.now self.new (step net.now stages.now (arrivals_of net.now arrivals.now) state)) }
        ensures period { OnOk result (self.new.period ≡ self.old.period + 1) }
        ensures on { IsOn net.now self.new }
    {
        let _ = net.shares();
        let left = serve_all(
            net,
            stages,
            None,
            self.traffic.spans.queues(),
            &mut self.passes,
        );
        advance(&mut self.traffic, net, &self.passes, left, arrivals)
    }

    /// The same, where what is queued on each link is handed in: one sum per link, of the queues of the
    /// movements out of it, each times its share.
    pub fn close_queued(
        &mut self,
        net: &Net,
        stages: &[StageNo],
        queued: &[u128],
        arrivals: &[u64],
    ) -> Result<(), AboveAt>
        requires on { IsOn net.now self.old }
        requires stages { AreStages net.now.junctions stages.now }
        requires queued { AreSums net.now (entry self.old.queues) queued.now }
        requires counts { HasCounts net.now arrivals.now }
        requires digits { All (λ a. a < 10 ^ 9) arrivals.now }
        requires period { self.old.period < MOST_LINES }
        ensures above { IfErr result (λ above. first_above net.now (entry self.old.levels) arrivals.now ≡ Some above.link) }
        ensures excess { IfErr result (λ above. (A : List (List ℕ)) → HasTaken net.now self.old A → IsFirstAbove net.now A arrivals.now above.link) }
        ensures stays { OnErr result (self.new ≡ self.old) }
        ensures within { OnOk result (first_above net.now (entry self.old.levels) arrivals.now ≡ None) }
        ensures taken { OnOk result ((A : List (List ℕ)) → HasTaken net.now self.old A → HasTaken net.now self.new (A ++ arrivals.now ∷ [])) }
        ensures closed { OnOk result (self.new ≡ closed net.now self.old stages.now arrivals.now) }
        ensures step { OnOk result ((state : StateOfModel) → Stands net.now self.old state → Stands net.now self.new (step net.now stages.now (arrivals_of net.now arrivals.now) state)) }
        ensures period { OnOk result (self.new.period ≡ self.old.period + 1) }
        ensures on { IsOn net.now self.new }
    {
        let _ = net.shares();
        let left = serve_all(
            net,
            stages,
            Some(queued),
            self.traffic.spans.queues(),
            &mut self.passes,
        );
        advance(&mut self.traffic, net, &self.passes, left, arrivals)
    }

    /// One period in which the movements pass whose flags are set, one flag per movement, and these
    /// many vehicles arrive, one count of at most 9 digits per fed link.
    ///
    /// A movement whose flag is set passes the lesser of its flow and its queue, by the queues before
    /// the period and whatever its weight; all else is as in `close`.
    ///
    /// `AboveAt` comes exactly as in `close`: it names the least link that would be above its bucket,
    /// and the state stays as it was.
    pub fn close_open(
        &mut self,
        net: &Net,
        passing: &[bool],
        arrivals: &[u64],
    ) -> Result<(), AboveAt>
        requires on { IsOn net.now self.old }
        requires flags { length passing.now ≡ length net.now.movements }
        requires counts { HasCounts net.now arrivals.now }
        requires digits { All (λ a. a < 10 ^ 9) arrivals.now }
        requires period { self.old.period < MOST_LINES }
        ensures above { IfErr result (λ above. first_above net.now (entry self.old.levels) arrivals.now ≡ Some above.link) }
        ensures excess { IfErr result (λ above. (A : List (List ℕ)) → HasTaken net.now self.old A → IsFirstAbove net.now A arrivals.now above.link) }
        ensures stays { OnErr result (self.new ≡ self.old) }
        ensures within { OnOk result (first_above net.now (entry self.old.levels) arrivals.now ≡ None) }
        ensures taken { OnOk result ((A : List (List ℕ)) → HasTaken net.now self.old A → HasTaken net.now self.new (A ++ arrivals.now ∷ [])) }
        ensures closed { OnOk result (self.new ≡ closed_open net.now self.old passing.now arrivals.now) }
        ensures step { OnOk result ((state : StateOfModel) → Stands net.now self.old state → Stands net.now self.new (open_step net.now passing.now (arrivals_of net.now arrivals.now) state)) }
        ensures period { OnOk result (self.new.period ≡ self.old.period + 1) }
        ensures on { IsOn net.now self.new }
    {
        let _ = net.shares();
        let left = serve_open(net, passing, self.traffic.spans.queues(), &mut self.passes);
        advance(&mut self.traffic, net, &self.passes, left, arrivals)
    }
}

// The shares of the movements out of a link.
fn shares_of(alloc: Global, net: &Net, l: LinkNo) -> Result<Vec<u32>, AllocError>
    requires { (1 ≤ l) × (l ≤ length net.now.links) }
    ensures { IfOk result (λ v. v.items ≡ shares_in net.now l) }
{
    let ks = net.out_of(l);
    let mut shares = Vec::with_capacity(alloc, ks.len())?;
    for k in ks {
        shares.push(net.movement(*k).share)?;
    }
    Ok(shares)
}

fn add_split(splits: &mut Vec<Splitter>, split: Splitter) -> Result<(), AllocError>
    ensures { OnOk result (splits.new.items ≡ splits.old.items ++ split ∷ []) }
{
    splits.push(split)?;
    Ok(())
}

/// A splitter for each link. `NoMemory` comes only where memory runs out.
pub fn make_splits(alloc: Global, net: &Net) -> Result<Vec<Splitter>, NoMemory>
    ensures { IfOk result (λ v. map (λ split. split.shares) v.items ≡ splits_of net.now) }
{
    let _ = net.shares();
    let mut splits = Vec::with_capacity(alloc, usize::from(net.links()))?;
    for i in 0..net.links() {
        let shares = shares_of(alloc, net, i + 1)?;
        add_split(&mut splits, Splitter::new(alloc, &shares)?)?;
    }
    Ok(splits)
}
