//! A round: where a run stands within a period.
ghost use Rattle.std.specs.Prelude.{◌≡◌, ◌≤◌, ◌<◌, ◌-◌, [], List, None, Some, IfOk, IfErr, OnOk, OnErr, length, map, unwrap_or, slice_index, slice_index_or, not, is_none, drop, ℕ, replicate, true, false};
ghost use Rattle.mp_model.specs.EventCore.{apply, all_lacking, arrivals_events, core_after, core_opening, first_undecided, is_stale, lacking, decided_at, seen};
ghost use Rattle.mp_model.specs.EventCore.Answer.{closed};
ghost use Rattle.mp_model.specs.EventCore.Event.{hear, decide, close};
ghost use Rattle.mp_model.specs.Network.{entry, junction_at, out_of, targets};
ghost use Rattle.mp_model.specs.Pressure.{greatest_stage_by};
ghost use Rattle.mp_model.specs.Run.{opening};
ghost use Rattle.mp_laws.specs.Buckets.{IsFirstAbove};
ghost use Rattle.mp_step.specs.Standing.{Stands};
ghost use Rattle.mp_step.specs.Taken.{HasTaken};
ghost use Rattle.mp_round.specs.Advancing.{Advances};
ghost use Rattle.mp_round.specs.Events.{answer_of, closing_answer, event_of, CanApply, CanClose};
ghost use Rattle.mp_round.specs.RoundView.{IsRoundOn, core_of, with_report, with_stage};

use crate::choosing::{choose_by, first_stale, has_copy, place_of};
use crate::copies::{Copies, is_accepted};
use crate::events::{Answer, Event};
use crate::report::Report;
use arrayvec::ArrayVec;
use mp_feed::NoMemory;
use mp_net::{JunctionNo, LinkNo, Net, StageNo};
use mp_press::Cache;
use mp_step::{AboveAt, State};
use std::alloc::{AllocError, Global};
use std::marker::Model;

/// Where a run stands within a period: its state, what the junctions have heard and decided, and the
/// stages of the last closed period.
#[derive(Drop)]
pub struct Round {
    state: State,
    // It stands for the queues of the state.
    cache: Cache,
    copies: Copies,
    // The stage of each junction that has decided in this period.
    decided: Vec<Option<StageNo>>,
    // The stages of the last closed period, and none before one.
    last: ArrayVec<StageNo, 64>,
    // Where it is set there is no copy, and nothing is decided.
    quiet: bool,
}

impl Model for Round {
    ghost use Rattle.mp_round.specs.RoundView.{RoundView};
    ghost use Rattle.mp_round.specs.Showing.{shown_of, IsQuiet};

    ghost Value = { RoundView };

    ghost view = { shown_of };

    ghost invariant = { IsQuiet };
}

impl Round {
    /// The opening of a run: no copy, nothing decided, and no period closed.
    /// `NoMemory` comes only where memory runs out; no other call takes memory.
    pub fn new(alloc: Global, net: &Net) -> Result<Round, NoMemory>
        ensures opening { IfOk result (λ round. core_of round ≡ core_opening net.now) }
        ensures stands { IfOk result (λ round. Stands net.now round.standing (opening net.now)) }
        ensures taken { IfOk result (λ round. HasTaken net.now round.standing []) }
        ensures on { IfOk result (λ round. IsRoundOn net.now round) }
    {
        let _ = net.shares();
        let state = State::empty(alloc, net)?;
        let Ok(cache) = Cache::new(alloc, net) else {
            return Err(NoMemory);
        };
        let copies = Copies::new(alloc, net)?;
        let decided = none_decided(alloc, usize::from(net.junctions()))?;
        Ok(Round {
            state,
            cache,
            copies,
            decided,
            last: ArrayVec::new(),
            quiet: true,
        })
    }

    /// Applies an event: it does what it says, or nothing where it is refused.
    ///
    /// - `Hear` is `Heard`, or `NotAdjacent` where no movement of the junction goes to the link.
    /// - `Decide` is `Chose`: the stage of greatest pressure by the queues of now of the junction's own
    ///   movements and its copies of those behind them, or the stage that it chose before in the period.
    ///   It is `Stale` where the junction has not decided and lacks a copy that is at most the delay old
    ///   of some link that it feeds; the least is named.
    /// - `Close` is `Closed`. It is `Undecided` where some junction has not decided; the least is named.
    ///   Else it is `AboveAt` where a fed link would be above its bucket; the least is named.
    pub fn apply(&mut self, net: &Net, ev: &Event) -> Answer
        requires on { IsRoundOn net.now self.old }
        requires can { CanApply net.now (core_of self.old) (event_of ev.now) }
        ensures applied { (answer_of result, core_of self.new) ≡ apply net.now (core_of self.old) (event_of ev.now) }
        ensures on { IsRoundOn net.now self.new }
    {
        match ev {
            Event::Hear { junction, link } => self.hear(net, *junction, *link),
            Event::Decide { junction } => self.decide(net, *junction),
            Event::Close { arrivals } => self.close(net, arrivals),
        }
    }

    /// Performs the hearings and decisions that the period still lacks, and then closes it with these
    /// arrivals, one count per fed link.
    ///
    /// `AboveAt` comes exactly where the close answers so; the hearings and decisions stay.
    pub fn close_all(&mut self, net: &Net, arrivals: &[u64]) -> Result<(), AboveAt>
        requires on { IsRoundOn net.now self.old }
        requires can { CanClose net.now (core_of self.old) arrivals.now }
        ensures core { core_of self.new ≡ core_after net.now (core_of self.old) (arrivals_events net.now (core_of self.old) arrivals.now) }
        ensures answer { closing_answer result ≡ (apply net.now (core_after net.now (core_of self.old) (all_lacking net.now (core_of self.old))) (close arrivals.now)).0 }
        ensures refused { OnErr result (core_of self.new ≡ core_after net.now (core_of self.old) (all_lacking net.now (core_of self.old))) }
        ensures stays { OnErr result (self.new.standing ≡ self.old.standing) }
        ensures excess { IfErr result (λ above. (A : List (List ℕ)) → HasTaken net.now self.old.standing A → IsFirstAbove net.now A arrivals.now above.link) }
        ensures advances { OnOk result (Advances net.now self.old.standing self.new.standing self.new.last arrivals.now) }
        ensures on { IsRoundOn net.now self.new }
    {
        if self.close_quiet(net, arrivals) {
            return Ok(());
        }
        self.close_readied(net, arrivals)
    }

    /// The stage of the junction in the last closed period.
    pub fn stage(&self, j: JunctionNo) -> StageNo
        requires { (1 ≤ j) × (j ≤ length self.now.last) }
        ensures { result ≡ entry self.now.last j }
    {
        self.last[usize::from(j) - 1]
    }

    /// The stages of the last closed period, one per junction; none where no period has closed.
    pub fn stages(&self) -> &[StageNo]
        ensures { result.now ≡ self.now.last }
    {
        &self.last
    }

    /// The junction has decided in this period.
    pub fn decided(&self, j: JunctionNo) -> bool
        requires { (1 ≤ j) × (j ≤ length self.now.decided) }
        ensures { result ≡ not (is_none (decided_at (core_of self.now) j)) }
    {
        self.decided[usize::from(j) - 1].is_some()
    }

    /// The junction has a copy of the link that a decision of now accepts.
    pub fn heard(&self, net: &Net, j: JunctionNo, l: LinkNo) -> bool
        requires on { IsRoundOn net.now self.now }
        requires junction { (1 ≤ j) × (j ≤ length net.now.junctions) }
        ensures { result ≡ not (is_stale net.now (core_of self.now) j l) }
    {
        has_copy(net, &self.copies, j, l, self.state.period())
    }

    /// Where the run stands.
    pub fn state(&self) -> &State
        ensures { result.now ≡ self.now.standing }
    {
        &self.state
    }

    // Closes a period in which nothing was heard or decided, where each junction decides by the counts of now; and
    // does nothing where something was, where the delay is not 0, and where a link would be above its bucket.
    fn close_quiet(&mut self, net: &Net, arrivals: &[u64]) -> bool
        requires on { IsRoundOn net.now self.old }
        requires can { CanClose net.now (core_of self.old) arrivals.now }
        ensures core { result ≡ true → core_of self.new ≡ core_after net.now (core_of self.old) (arrivals_events net.now (core_of self.old) arrivals.now) }
        ensures answer { result ≡ true → closed ≡ (apply net.now (core_after net.now (core_of self.old) (all_lacking net.now (core_of self.old))) (close arrivals.now)).0 }
        ensures stays { result ≡ false → self.new ≡ self.old }
        ensures advances { result ≡ true → Advances net.now self.old.standing self.new.standing self.new.last arrivals.now }
        ensures on { IsRoundOn net.now self.new }
    {
        let _ = net.shares();
        if !self.quiet || net.delay() > 0 {
            return false;
        }
        let mut stages = ArrayVec::new();
        self.cache.choose_all(net, &mut stages);
        let Ok(()) = self
            .state
            .close_queued(net, &stages, self.cache.queued(), arrivals)
        else {
            return false;
        };
        self.cache.renew(net, self.state.queues());
        self.last = stages;
        true
    }

    // Performs what the period lacks event by event, and closes it.
    fn close_readied(&mut self, net: &Net, arrivals: &[u64]) -> Result<(), AboveAt>
        requires on { IsRoundOn net.now self.old }
        requires can { CanClose net.now (core_of self.old) arrivals.now }
        ensures core { core_of self.new ≡ core_after net.now (core_of self.old) (arrivals_events net.now (core_of self.old) arrivals.now) }
        ensures answer { closing_answer result ≡ (apply net.now (core_after net.now (core_of self.old) (all_lacking net.now (core_of self.old))) (close arrivals.now)).0 }
        ensures refused { OnErr result (core_of self.new ≡ core_after net.now (core_of self.old) (all_lacking net.now (core_of self.old))) }
        ensures stays { OnErr result (self.new.standing ≡ self.old.standing) }
        ensures excess { IfErr result (λ above. (A : List (List ℕ)) → HasTaken net.now self.old.standing A → IsFirstAbove net.now A arrivals.now above.link) }
        ensures advances { OnOk result (Advances net.now self.old.standing self.new.standing self.new.last arrivals.now) }
        ensures on { IsRoundOn net.now self.new }
    {
        for i in 0..net.junctions() {
            self.ready(net, i + 1);
        }
        self.close_decided(net, arrivals)
    }

    // Puts a copy of the counts of now at a place of a junction.
    fn put_report(&mut self, net: &Net, j: JunctionNo, place: usize)
        requires on { IsRoundOn net.now self.old }
        requires junction { (1 ≤ j) × (j ≤ length net.now.junctions) }
        requires place { place < length (targets net.now (junction_at net.now j)) }
        ensures { self.new ≡ with_report self.old j place (record { period = self.old.standing.period; counts = map (entry self.old.standing.queues) (out_of net.now (slice_index (targets net.now (junction_at net.now j)) place)) }) }
    {
        let report = Report::of(net, &self.state, net.targets(j)[place]);
        self.copies.put(j, place, report);
        self.quiet = false;
    }

    // Fixes the stage of a junction.
    fn fix_stage(&mut self, net: &Net, j: JunctionNo) -> StageNo
        requires on { IsRoundOn net.now self.old }
        requires junction { (1 ≤ j) × (j ≤ length net.now.junctions) }
        ensures fixed { self.new ≡ with_stage self.old j result }
        ensures value { result ≡ greatest_stage_by net.now (entry self.old.standing.queues) (seen net.now (core_of self.old) j) (junction_at net.now j) }
        ensures stage { (1 ≤ result) × (result ≤ length (junction_at net.now j).stages) }
    {
        let stage = choose_by(net, &self.state, &self.copies, j);
        self.decided[usize::from(j) - 1] = Some(stage);
        self.quiet = false;
        stage
    }

    fn hear(&mut self, net: &Net, j: JunctionNo, l: LinkNo) -> Answer
        requires on { IsRoundOn net.now self.old }
        requires junction { (1 ≤ j) × (j ≤ length net.now.junctions) }
        ensures applied { (answer_of result, core_of self.new) ≡ apply net.now (core_of self.old) (hear j l) }
        ensures on { IsRoundOn net.now self.new }
    {
        match place_of(net, j, l) {
            Some(place) => {
                self.put_report(net, j, place);
                Answer::Heard
            }
            None => Answer::NotAdjacent {
                junction: j,
                link: l,
            },
        }
    }

    fn decide(&mut self, net: &Net, j: JunctionNo) -> Answer
        requires on { IsRoundOn net.now self.old }
        requires junction { (1 ≤ j) × (j ≤ length net.now.junctions) }
        ensures applied { (answer_of result, core_of self.new) ≡ apply net.now (core_of self.old) (decide j) }
        ensures on { IsRoundOn net.now self.new }
    {
        if let Some(stage) = self.decided[usize::from(j) - 1] {
            return Answer::Chose { stage };
        }
        if let Some(link) = first_stale(net, &self.copies, j, self.state.period()) {
            return Answer::Stale { junction: j, link };
        }
        let stage = self.fix_stage(net, j);
        Answer::Chose { stage }
    }

    fn close(&mut self, net: &Net, arrivals: &[u64]) -> Answer
        requires on { IsRoundOn net.now self.old }
        requires can { CanClose net.now (core_of self.old) arrivals.now }
        ensures applied { (answer_of result, core_of self.new) ≡ apply net.now (core_of self.old) (close arrivals.now) }
        ensures on { IsRoundOn net.now self.new }
    {
        let _ = net.shares();
        if let Some(junction) = undecided(&self.decided) {
            return Answer::Undecided { junction };
        }
        match self.close_decided(net, arrivals) {
            Ok(()) => Answer::Closed,
            Err(AboveAt { link }) => Answer::AboveAt { link },
        }
    }

    // Closes a period in which all junctions have decided.
    fn close_decided(&mut self, net: &Net, arrivals: &[u64]) -> Result<(), AboveAt>
        requires on { IsRoundOn net.now self.old }
        requires can { CanClose net.now (core_of self.old) arrivals.now }
        requires decided { first_undecided 1 self.old.decided ≡ None }
        ensures applied { (closing_answer result, core_of self.new) ≡ apply net.now (core_of self.old) (close arrivals.now) }
        ensures refused { OnErr result (self.new ≡ self.old) }
        ensures excess { IfErr result (λ above. (A : List (List ℕ)) → HasTaken net.now self.old.standing A → IsFirstAbove net.now A arrivals.now above.link) }
        ensures advances { OnOk result (Advances net.now self.old.standing self.new.standing self.new.last arrivals.now) }
        ensures on { IsRoundOn net.now self.new }
    {
        let _ = net.shares();
        let stages = stages_of(&self.decided);
        self.state
            .close_queued(net, &stages, self.cache.queued(), arrivals)?;
        self.cache.renew(net, self.state.queues());
        self.last = stages;
        undecide(&mut self.decided);
        self.copies.drop_old(net.delay(), self.state.period());
        let unheard = self.copies.is_empty();
        self.quiet = unheard;
        Ok(())
    }

    // Performs the hearings and the decision that a junction lacks.
    fn ready(&mut self, net: &Net, j: JunctionNo)
        requires on { IsRoundOn net.now self.old }
        requires junction { (1 ≤ j) × (j ≤ length net.now.junctions) }
        ensures core { core_of self.new ≡ core_after net.now (core_of self.old) (lacking net.now (core_of self.old) j) }
        ensures decided { is_none (decided_at (core_of self.new) j) ≡ false }
        ensures standing { self.new.standing ≡ self.old.standing }
        ensures copies { drop j self.new.copies ≡ drop j self.old.copies }
        ensures later { drop j self.new.decided ≡ drop j self.old.decided }
        ensures earlier { (m : ℕ) → is_none (slice_index_or self.old.decided m None) ≡ false → is_none (slice_index_or self.new.decided m None) ≡ false }
        ensures on { IsRoundOn net.now self.new }
    {
        if self.decided(j) {
            return;
        }
        let delay = net.delay();
        let period = self.state.period();
        for i in 0..net.targets(j).len() {
            if !is_accepted(self.copies.at(j, i), delay, period) {
                self.put_report(net, j, i);
            }
        }
        self.fix_stage(net, j);
    }
}

// No stage decided, for so many junctions.
fn none_decided(alloc: Global, count: usize) -> Result<Vec<Option<StageNo>>, AllocError>
    ensures { IfOk result (λ decided. decided.items ≡ replicate count None) }
{
    vec![in alloc; None; count]
}

// Nothing is decided any more.
fn undecide(decided: &mut Vec<Option<StageNo>>)
    ensures { decided.new.items ≡ replicate (length decided.old.items) None }
{
    decided.fill(None);
}

// The least junction that has not decided.
fn undecided(decided: &[Option<StageNo>]) -> Option<JunctionNo>
    requires { length decided.now ≤ 64 }
    ensures { result ≡ first_undecided 1 decided.now }
{
    for i in 0..decided.len() {
        if decided[i].is_none() {
            return Some(i as JunctionNo + 1);
        }
    }
    None
}

// The stages that the junctions have decided.
fn stages_of(decided: &[Option<StageNo>]) -> ArrayVec<StageNo, 64>
    requires { length decided.now ≤ 64 }
    ensures { result.items ≡ map (λ d. unwrap_or d 0) decided.now }
{
    let mut stages = ArrayVec::new();
    for stage in decided {
        stages.push(stage.unwrap_or(0));
    }
    stages
}
