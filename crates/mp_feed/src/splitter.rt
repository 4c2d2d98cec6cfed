// Weighted round robin by the counts of one round.
ghost use Rattle.std.specs.Prelude.{◌≡◌, ◌≤◌, ◌<◌, ◌+◌, ◌*◌, ◌/◌, ◌%◌, ◌^◌, ℕ, List, length, map, sum, slice_index, IfOk, All, IsTrue, ◌↔◌, pos, ◌-ℤ◌};
ghost use Rattle.std.specs.List.{range_with_len};
ghost use Rattle.mp_model.specs.Split.{first_greatest, credit_of};
ghost use Rattle.mp_feed.specs.Counts.{Split, counts, gained, places_of, credit_at, AreJoined, IsTable};

use crate::memory::NoMemory;
use std::alloc::{AllocError, Global};
use std::marker::Model;

/// Splits the vehicles of a link among its movements by weighted round robin.
///
/// Each vehicle joins the movement that then has the greatest credit, and the lowest one on ties.
/// Whole rounds, of as many vehicles as the shares sum to, give each movement exactly its share, so
/// what comes next depends on the phase alone: how many vehicles of the present round have joined.
#[derive(Drop)]
pub struct Splitter {
    shares: Vec<u32>,
    total: u32,
    // How many of the first n vehicles of a round joined each share: one row of counts for each n
    // below the total.
    joined: Vec<u16>,
    phase: u32,
}

impl Model for Splitter {
    ghost use Rattle.mp_feed.specs.Counts.{Split};

    ghost Value = { Split };

    ghost use Rattle.mp_feed.specs.Table.{split_of, HasTable};

    ghost view = { split_of };

    ghost invariant = { HasTable };
}

impl Splitter {
    /// A splitter of these shares, one per movement out of a link in movement order, where no
    /// vehicle has joined yet. `NoMemory` comes only where memory runs out.
    pub fn new(alloc: Global, shares: &[u32]) -> Result<Splitter, NoMemory>
        requires some { 1 ≤ length shares.now }
        requires each { All (λ w. 1 ≤ w) shares.now }
        requires few { sum shares.now ≤ 1000 }
        ensures { IfOk result (λ s. s ≡ record { shares = shares.now; phase = 0 }) }
    {
        let total = total_of(shares);
        let joined = table(alloc, shares, total)?;
        let shares = shares.to_vec(alloc)?;
        Ok(Splitter {
            shares,
            total,
            joined,
            phase: 0,
        })
    }

    /// Writes how many of the next n vehicles join each movement, one count per share, and goes on
    /// to the phase after them.
    pub fn take(&mut self, n: u64, got: &mut [u64])
        requires len { length got.old ≡ length self.old.shares }
        requires few { n ≤ 2 ^ 32 }
        ensures got { got.new ≡ map (gained self.old.shares self.old.phase n) (places_of self.old.shares) }
        ensures phase { self.new ≡ record self.old { phase = (self.old.phase + n) % sum self.old.shares } }
    {
        let phase = self.phase;
        self.phase = gain(&self.shares, self.total, &self.joined, phase, n, got);
    }

    /// Writes how many of the n vehicles after the first `phase` ones of a round join each movement,
    /// one count per share, and answers the phase after them. The splitter's own phase is not read.
    pub fn take_from(&self, phase: u32, n: u64, got: &mut [u64]) -> u32
        requires phase { phase < sum self.now.shares }
        requires len { length got.old ≡ length self.now.shares }
        requires few { n ≤ 2 ^ 32 }
        ensures got { got.new ≡ map (gained self.now.shares phase n) (places_of self.now.shares) }
        ensures phase { result ≡ (phase + n) % sum self.now.shares }
    {
        gain(&self.shares, self.total, &self.joined, phase, n, got)
    }

    /// The credit of the i-th share, from 0: the share times the vehicles that came, less the sum of
    /// the shares times those that joined it.
    pub fn credit(&self, i: usize) -> i64
        requires { i < length self.now.shares }
        ensures { result ≡ credit_at self.now.shares self.now.phase i }
    {
        let count = row(&self.joined, self.shares.len(), self.phase)[i];
        difference(
            u64::from(self.shares[i]) * u64::from(self.phase),
            u64::from(self.total) * u64::from(count),
        )
    }
}

fn difference(a: u64, b: u64) -> i64
    requires { (a < 2 ^ 62) × (b < 2 ^ 62) }
    ensures { result ≡ pos a -ℤ pos b }
{
    a as i64 - b as i64
}

fn total_of(shares: &[u32]) -> u32
    requires { sum shares.now ≤ 1000 }
    ensures { result ≡ sum shares.now }
{
    shares.iter().sum()
}

// The share with the greatest credit where n vehicles are on the link and so many joined each.
fn next_place(shares: &[u32], counts: &[u16], total: u32, n: u32) -> usize
    requires len { length counts.now ≡ length shares.now }
    requires some { 0 < length shares.now }
    ensures greatest { result ≡ first_greatest (λ i. credit_of total (slice_index shares.now i) n (slice_index counts.now i)) (range_with_len 0 (length shares.now)) }
    ensures within { result < length shares.now }
{
    let mut best = 0;
    for i in 1..shares.len() {
        if beats(
            shares[i],
            shares[best],
            u32::from(counts[i]),
            u32::from(counts[best]),
            total,
            n,
        ) {
            best = i;
        }
    }
    best
}

fn beats(share: u32, other: u32, count: u32, of_other: u32, total: u32, n: u32) -> bool
    ensures { IsTrue result ↔ (other * n + total * count < share * n + total * of_other) }
{
    u128::from(other) * u128::from(n) + u128::from(total) * u128::from(count)
        < u128::from(share) * u128::from(n) + u128::from(total) * u128::from(of_other)
}

// What the n vehicles after the first `phase` ones add, and the phase after them: as many rounds as
// they end add the shares, and what was counted before them is taken away.
fn gain(shares: &[u32], total: u32, joined: &[u16], phase: u32, n: u64, got: &mut [u64]) -> u32
    requires table { IsTable shares.now total joined.now }
    requires phase { phase < total }
    requires len { length got.old ≡ length shares.now }
    requires few { n ≤ 2 ^ 32 }
    ensures got { got.new ≡ map (gained shares.now phase n) (places_of shares.now) }
    ensures phase { result ≡ (phase + n) % sum shares.now }
{
    let end = u64::from(phase) + n;
    let rounds = rounds_of(end, total);
    let rest = rounds.rest;
    let earlier = row(joined, shares.len(), phase);
    let later = row(joined, shares.len(), rest);
    put_gains(shares, rounds.whole, earlier, later, got);
    rest
}

// Whole rounds, and how many vehicles of the next one have come.
#[derive(Clone, Copy)]
struct Rounds {
    whole: u64,
    rest: u32,
}

// The rounds that so many vehicles make. In a period a link mostly receives less than a round, and
// then at most one round ends and no division, which is slow, is needed.
fn rounds_of(vehicles: u64, total: u32) -> Rounds
    requires { 1 ≤ total }
    ensures whole { result.whole ≡ vehicles / total }
    ensures rest { result.rest ≡ vehicles % total }
{
    let round = u64::from(total);
    if vehicles < round {
        Rounds {
            whole: 0,
            rest: vehicles as u32,
        }
    } else if vehicles - round < round {
        Rounds {
            whole: 1,
            rest: (vehicles - round) as u32,
        }
    } else {
        Rounds {
            whole: vehicles / round,
            rest: (vehicles % round) as u32,
        }
    }
}

// How many of the first n vehicles of a round joined each share.
fn row(joined: &[u16], width: usize, n: u32) -> &[u16]
    requires { n * width + width ≤ length joined.now }
    ensures len { length result.now ≡ width }
    ensures each { (i : ℕ) → i < width → slice_index result.now i ≡ slice_index joined.now (n * width + i) }
{
    let start = n as usize * width;
    &joined[start..start + width]
}

// The shares of the rounds, with the later counts and without the earlier.
fn put_gains(shares: &[u32], rounds: u64, earlier: &[u16], later: &[u16], got: &mut [u64])
    requires len { length got.old ≡ length shares.now }
    requires earlier_len { length earlier.now ≡ length shares.now }
    requires later_len { length later.now ≡ length shares.now }
    requires each { All (λ w. w ≤ 1000) shares.now }
    requires rounds { rounds ≤ 2 ^ 33 }
    requires within { (i : ℕ) → i < length shares.now → slice_index earlier.now i ≤ slice_index shares.now i * rounds + slice_index later.now i }
    ensures len { length got.new ≡ length shares.now }
    ensures gains { (i : ℕ) → i < length shares.now → slice_index got.new i + slice_index earlier.now i ≡ slice_index shares.now i * rounds + slice_index later.now i }
{
    for i in 0..got.len() {
        got[i] = u64::from(shares[i]) * rounds + u64::from(later[i]) - u64::from(earlier[i]);
    }
}

// The counts of a round: each vehicle joins where the credit is then greatest.
fn table(alloc: Global, shares: &[u32], total: u32) -> Result<Vec<u16>, AllocError>
    requires some { 1 ≤ length shares.now }
    requires few { length shares.now ≤ 1000 }
    requires total { total ≡ sum shares.now }
    requires most { total ≤ 1000 }
    ensures { IfOk result (λ v. AreJoined shares.now total v.items) }
{
    let mut counts = vec![in alloc; 0u16; shares.len()]?;
    let mut joined = Vec::with_capacity(alloc, total as usize * shares.len())?;
    for n in 0..total {
        joined.extend_from_slice(&counts)?;
        let place = next_place(shares, &counts, total, n + 1);
        counts[place] += 1;
    }
    Ok(joined)
}
