//! The growth a period of a vector, and what is lost to rounding in all.
ghost use Rattle.std.specs.Prelude.{◌≡◌, ◌≤◌, ◌-◌, ◌≤ℤ◌, ℕ, pos, length, nat_lt, All, IfOk};
ghost use Rattle.mp_model.specs.Network.{from_of, out_of, rate_before, entry, movement_numbers};
ghost use Rattle.mp_model.specs.NetworkRules.{IsAcceptable};
ghost use Rattle.mp_num.specs.Operations.{added, summed};
ghost use Rattle.mp_cert.specs.Views.{vector_of};
ghost use Rattle.mp_overload.specs.Forming.{shared, counts_formed, split_formed, lost_formed, least_formed};
ghost use Rattle.mp_overload.specs.Growing.{growth, lost_to_rounding, rated};
ghost use Rattle.mp_growth.specs.Formed.{rated_added, rate_formed, least_at, GrowsTo, ComesTo};

use crate::GrowthFault;
use crate::places::{from, number};
use mp_cert::{Against, Weighed, weigh};
use mp_net::{MovementNo, Net};
use mp_num::{add, mul, sub};

/// How the queues that a vector weighs grow under even arrivals: after T periods they are at least T times `per`, less
/// `lost`. Both are in weighted vehicles, times the share total and the rate length.
#[derive(Clone, Copy, PartialEq, Eq, Debug)]
pub struct GrowthRate {
    /// The growth a period: the load of the vector, less its capacity times the rate length.
    pub per: i128,
    /// What is lost in all, however many the periods: since counts of vehicles are whole, and since the movements of a
    /// link share them by turns.
    pub lost: i128,
}

// The link of the movement has a rate above 0.
fn is_rated(net: &Net, k: MovementNo) -> bool
    requires acceptable { IsAcceptable net.now }
    requires movement { (1 ≤ k) × (k ≤ length net.now.movements) }
    ensures { result ≡ nat_lt 0 (rate_before net.now k) }
{
    net.link(from(net, k)).rate > 0
}

// The number of the movement times its share.
#[tactic(auto, using(mp_cert::proofs::RunLemmas::terms), unfolding(mp_num::specs::Operations::times, mp_overload::specs::Forming::shared))]
fn shared(net: &Net, p: &[i128], k: MovementNo) -> Option<i128>
    requires lengths { length p.now ≡ length net.now.movements }
    requires movement { (1 ≤ k) × (k ≤ length net.now.movements) }
    ensures { result ≡ shared net.now p.now k }
{
    mul(number(p, k), i128::from(net.movement(k).share))
}

// The sum with that of the movement.
#[tactic(auto, using(mp_cert::proofs::RunLemmas::terms), unfolding(mp_num::specs::Operations::plus))]
fn add_shared(net: &Net, p: &[i128], sum: i128, k: MovementNo) -> Option<i128>
    requires lengths { length p.now ≡ length net.now.movements }
    requires movement { (1 ≤ k) × (k ≤ length net.now.movements) }
    ensures { result ≡ added (shared net.now p.now) sum k }
{
    add(sum, shared(net, p, k)?)
}

// The sum with that of the movement where its link has a rate above 0.
#[tactic(auto, unfolding(crate::specs::Formed::rated_added))]
fn add_rated(net: &Net, p: &[i128], sum: i128, k: MovementNo) -> Option<i128>
    requires acceptable { IsAcceptable net.now }
    requires lengths { length p.now ≡ length net.now.movements }
    requires movement { (1 ≤ k) × (k ≤ length net.now.movements) }
    ensures { result ≡ rated_added net.now (shared net.now p.now) sum k }
{
    if is_rated(net, k) {
        add_shared(net, p, sum, k)
    } else {
        Some(sum)
    }
}

// The sum over the movements out of links with a rate above 0.
#[tactic(auto, using(crate::proofs::Summing::filtering))]
fn sum_rated(net: &Net, p: &[i128]) -> Option<i128>
    requires acceptable { IsAcceptable net.now }
    requires lengths { length p.now ≡ length net.now.movements }
    ensures { result ≡ summed (shared net.now p.now) (rated net.now) }
{
    let mut sum = 0;
    for k in 0..net.movements() {
        let Some(next) = add_rated(net, p, sum, k + 1) else {
            return None;
        };
        sum = next;
    }
    Some(sum)
}

// What is lost since the counts of even arrivals are rounded down.
#[tactic(auto, using(mp_cert::proofs::RunLemmas::terms), unfolding(mp_num::specs::Operations::times, mp_overload::specs::Forming::counts_formed))]
fn lost_to_counts(net: &Net, p: &[i128]) -> Option<i128>
    requires acceptable { IsAcceptable net.now }
    requires lengths { length p.now ≡ length net.now.movements }
    ensures { result ≡ counts_formed net.now p.now }
{
    let sum = sum_rated(net, p)?;
    mul(i128::from(net.per() - 1), sum)
}

// How many other movements leave the link of the movement.
fn others(net: &Net, k: MovementNo) -> i128
    requires acceptable { IsAcceptable net.now }
    requires movement { (1 ≤ k) × (k ≤ length net.now.movements) }
    ensures { result ≡ pos (length (out_of net.now (from_of net.now k)) - 1) }
{
    net.out_of(from(net, k)).len().saturating_sub(1) as i128
}

// What the movement may lack of its share, times the share total.
#[tactic(auto, using(mp_cert::proofs::RunLemmas::terms), unfolding(mp_num::specs::Operations::times, mp_overload::specs::Forming::split_formed))]
fn lost_to_split(net: &Net, p: &[i128], k: MovementNo) -> Option<i128>
    requires acceptable { IsAcceptable net.now }
    requires lengths { length p.now ≡ length net.now.movements }
    requires movement { (1 ≤ k) × (k ≤ length net.now.movements) }
    ensures { result ≡ split_formed net.now p.now k }
{
    let beside = mul(number(p, k), others(net, k))?;
    mul(beside, i128::from(net.shares() - 1))
}

// The sum with that of the movement.
#[tactic(auto, using(mp_cert::proofs::RunLemmas::terms), unfolding(mp_num::specs::Operations::plus))]
fn add_split(net: &Net, p: &[i128], sum: i128, k: MovementNo) -> Option<i128>
    requires acceptable { IsAcceptable net.now }
    requires lengths { length p.now ≡ length net.now.movements }
    requires movement { (1 ≤ k) × (k ≤ length net.now.movements) }
    ensures { result ≡ added (split_formed net.now p.now) sum k }
{
    add(sum, lost_to_split(net, p, k)?)
}

// The sum of these over all movements.
#[tactic(auto, using(mp_cert::proofs::RunLemmas::counting), unfolding(mp_num::specs::Operations::summed))]
fn sum_splits(net: &Net, p: &[i128]) -> Option<i128>
    requires acceptable { IsAcceptable net.now }
    requires lengths { length p.now ≡ length net.now.movements }
    ensures { result ≡ summed (split_formed net.now p.now) (movement_numbers net.now) }
{
    let mut sum = 0;
    for k in 0..net.movements() {
        let Some(next) = add_split(net, p, sum, k + 1) else {
            return None;
        };
        sum = next;
    }
    Some(sum)
}

// What is lost to rounding in all.
#[tactic(auto, using(mp_cert::proofs::RunLemmas::terms), unfolding(mp_num::specs::Operations::times, mp_num::specs::Operations::plus, mp_overload::specs::Forming::lost_formed))]
fn lost(net: &Net, p: &[i128]) -> Option<i128>
    requires acceptable { IsAcceptable net.now }
    requires lengths { length p.now ≡ length net.now.movements }
    ensures { result ≡ lost_formed net.now p.now }
{
    let counts = lost_to_counts(net, p)?;
    let splits = mul(i128::from(net.per()), sum_splits(net, p)?)?;
    add(counts, splits)
}

// The growth by the two sums of the vector, and then what is lost.
#[tactic(auto, using(mp_cert::proofs::RunLemmas::terms), unfolding(mp_num::specs::Operations::less, mp_overload::specs::Forming::growth_formed, crate::specs::Formed::rate_formed))]
fn rate_by(net: &Net, p: &[i128], sums: Weighed) -> Option<GrowthRate>
    requires acceptable { IsAcceptable net.now }
    requires lengths { length p.now ≡ length net.now.movements }
    ensures { result ≡ rate_formed net.now p.now sums }
{
    let per = sub(sums.load, sums.served)?;
    let lost = lost(net, p)?;
    Some(GrowthRate { per, lost })
}

/// The growth of a vector with one number of at least 0 per movement: its load less its capacity times the rate
/// length, and what is lost to rounding.
///
/// `Vector` comes exactly where a calculation of the two sums exceeds 128 bits, and `Growth` exactly where a later one
/// does.
pub fn growth(net: &Net, against: &Against) -> Result<GrowthRate, GrowthFault>
    requires lengths { length against.now.p ≡ length net.now.movements }
    requires signs { All (λ x. pos 0 ≤ℤ x) against.now.p }
    ensures calculation { GrowsTo result net.now against.now.p }
    ensures per { IfOk result (λ rate. rate.per ≡ growth net.now (entry (vector_of against.now))) }
    ensures lost { IfOk result (λ rate. rate.lost ≡ pos (lost_to_rounding net.now (entry (vector_of against.now)))) }
{
    // A network's share total comes with what its rules say.
    let _shares = net.shares();
    let Ok(sums) = weigh(net, against) else {
        return Err(GrowthFault::Vector);
    };
    match rate_by(net, against.p.as_slice(), sums) {
        Some(rate) => Ok(rate),
        None => Err(GrowthFault::Growth),
    }
}

// The periods times the growth, less what is lost, and no less than 0.
#[tactic(auto, using(mp_cert::proofs::RunLemmas::terms), unfolding(mp_num::specs::Operations::times, mp_num::specs::Operations::less, mp_overload::specs::Forming::least_formed))]
fn least_by(rate: GrowthRate, periods: u32) -> Option<i128>
    ensures { result ≡ least_formed periods rate.per rate.lost }
{
    let grown = mul(i128::from(periods), rate.per)?;
    let kept = sub(grown, rate.lost)?;
    Some(kept.max(0))
}

impl GrowthRate {
    /// What the queues that the vector weighs come to at least after so many periods: the greater of 0 and the growth
    /// of each, less what is lost.
    ///
    /// `Growth` comes exactly where a calculation exceeds 128 bits.
    pub fn least(&self, periods: u32) -> Result<i128, GrowthFault>
        ensures calculation { ComesTo result (least_formed periods self.now.per self.now.lost) }
        ensures value { IfOk result (λ least. least ≡ least_at periods self.now.per self.now.lost) }
    {
        match least_by(*self, periods) {
            Some(least) => Ok(least),
            None => Err(GrowthFault::Growth),
        }
    }
}
