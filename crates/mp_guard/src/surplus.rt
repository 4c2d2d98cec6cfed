//! The surplus of each movement: how far the split of its link runs ahead of its share.
ghost use Rattle.std.specs.Prelude.{◌≡◌, ◌<◌, ◌≤◌, ◌+◌, ◌*◌, max, min, length, map, slice_index, IfOk, IfSome, IsSomeAnd};
ghost use Rattle.mp_model.specs.Guard.{IsSurplus};
ghost use Rattle.mp_model.specs.Network.{from_of, out_of, share_of};
ghost use Rattle.mp_model.specs.NetworkRules.{IsAcceptable};
ghost use Rattle.mp_model.specs.Step.{joined};
ghost use Rattle.mp_step.specs.Standing.{shares_in, splits_of};
ghost use Rattle.mp_guard.specs.Surpluses.{AreSurpluses};

use mp_cert::places::from;
use mp_feed::Splitter;
use mp_net::{MovementNo, Net, NoMemory};
use mp_step::make_splits;
use std::alloc::Global;

// The greatest and the least credit so far, each with the share total beside it.
#[derive(Clone, Copy)]
struct Span {
    high: u64,
    low: u64,
}

// The span with one credit more.
fn widened(span: Span, credit: u64) -> Span
    ensures high { result.high ≡ max span.high credit }
    ensures low { result.low ≡ min span.low credit }
{
    Span {
        high: span.high.max(credit),
        low: span.low.min(credit),
    }
}

// The credit of a share after n vehicles of which so many joined it, with the share total beside it.
fn credit_of(share: u64, total: u64, n: u64, count: u64) -> u64
    requires small { (share ≤ 1000) × (total ≤ 1000) × (n ≤ 1000) }
    requires count { total * count ≤ share * n + total }
    ensures { result + total * count ≡ share * n + total }
{
    share * n + total - total * count
}

// The credit of the movement after n vehicles of a round, with the share total beside it.
fn credit(
    net: &Net,
    splitter: &Splitter,
    k: MovementNo,
    place: usize,
    n: u32,
    got: &mut [u64],
) -> u64
    requires acceptable { IsAcceptable net.now }
    requires movement { (1 ≤ k) × (k ≤ length net.now.movements) }
    requires splitter { splitter.now.shares ≡ shares_in net.now (from_of net.now k) }
    requires place { (place < length (out_of net.now (from_of net.now k))) × (slice_index (out_of net.now (from_of net.now k)) place ≡ k) }
    requires len { length got.old ≡ length (out_of net.now (from_of net.now k)) }
    requires round { n < net.now.shares }
    ensures credit { result + net.now.shares * joined net.now (from_of net.now k) n k ≡ share_of net.now k * n + net.now.shares }
    ensures len { length got.new ≡ length (out_of net.now (from_of net.now k)) }
{
    splitter.take_from(0, u64::from(n), got);
    let share = u64::from(net.movement(k).share);
    credit_of(share, u64::from(net.shares()), u64::from(n), got[place])
}

// The surplus of the movement: its greatest credit less its least, over a round.
fn surplus_over(net: &Net, splitter: &Splitter, k: MovementNo, place: usize, got: &mut [u64]) -> u64
    requires acceptable { IsAcceptable net.now }
    requires movement { (1 ≤ k) × (k ≤ length net.now.movements) }
    requires splitter { splitter.now.shares ≡ shares_in net.now (from_of net.now k) }
    requires place { (place < length (out_of net.now (from_of net.now k))) × (slice_index (out_of net.now (from_of net.now k)) place ≡ k) }
    requires len { length got.old ≡ length (out_of net.now (from_of net.now k)) }
    ensures { IsSurplus net.now k result }
{
    let total = u64::from(net.shares());
    let mut span = Span {
        high: total,
        low: total,
    };
    for n in 1..net.shares() {
        span = widened(span, credit(net, splitter, k, place, n, got));
    }
    span.high - span.low
}

// The place of the movement among those out of its link.
fn place_of(net: &Net, k: MovementNo) -> usize
    requires acceptable { IsAcceptable net.now }
    requires movement { (1 ≤ k) × (k ≤ length net.now.movements) }
    ensures { (result < length (out_of net.now (from_of net.now k))) × (slice_index (out_of net.now (from_of net.now k)) result ≡ k) }
{
    let outs = net.out_of(from(net, k));
    let mut place = 0;
    while outs[place] != k {
        place += 1;
    }
    place
}

// The surplus of the movement, by the splitter of its link.
fn surplus(alloc: Global, net: &Net, splits: &[Splitter], k: MovementNo) -> Result<u64, NoMemory>
    requires acceptable { IsAcceptable net.now }
    requires movement { (1 ≤ k) × (k ≤ length net.now.movements) }
    requires splits { map (λ split. split.shares) splits.now ≡ splits_of net.now }
    ensures { IfOk result (IsSurplus net.now k) }
{
    let l = from(net, k);
    let mut got = vec![in alloc; 0u64; net.out_of(l).len()]?;
    Ok(surplus_over(
        net,
        &splits[usize::from(l) - 1],
        k,
        place_of(net, k),
        &mut got,
    ))
}

/// The surplus of each movement, in vehicles times the share total: of any vehicles of its link that come one after
/// the other, it gets at most its share and this surplus. `NoMemory` comes only where memory runs out.
pub fn surpluses(alloc: Global, net: &Net) -> Result<Vec<u64>, NoMemory>
    ensures { IfOk result (λ surpluses. AreSurpluses net.now surpluses.items) }
{
    let _shares = net.shares();
    let Ok(splits) = make_splits(alloc, net) else {
        return Err(NoMemory);
    };
    let end = net.movements() + 1;
    let mut surpluses = Vec::new(alloc);
    for k in 1..end {
        surpluses.push(surplus(alloc, net, &splits, k)?)?;
    }
    Ok(surpluses)
}
