ghost use Rattle.std.specs.Prelude.{◌≡◌, ◌≤◌, ◌<◌, ◌^◌, length, sum, All};

use super::*;
use std::alloc::{AllocError, Global};
use std::process::Abort;
use std::test::Fail;

// The next vehicle joins as wanted.
fn joins(rt: &impl Abort, splitter: &mut Splitter, want: [u64; 3])
    requires { length splitter.old.shares ≡ 3 }
    ensures { splitter.new.shares ≡ splitter.old.shares }
{
    let mut got = [7u64; 3];
    splitter.take(1, &mut got);
    assert_eq!(rt; got, want);
}

#[test]
fn splits_seven_vehicles(rt: HostRuntime) -> Result<(), Fail> {
    let mut splitter = Splitter::new(rt.alloc(), &[5, 1, 1])?;
    joins(&rt, &mut splitter, [1, 0, 0]);
    joins(&rt, &mut splitter, [1, 0, 0]);
    joins(&rt, &mut splitter, [0, 1, 0]);
    joins(&rt, &mut splitter, [1, 0, 0]);
    joins(&rt, &mut splitter, [0, 0, 1]);
    joins(&rt, &mut splitter, [1, 0, 0]);
    joins(&rt, &mut splitter, [1, 0, 0]);
    assert_eq!(rt; splitter.credit(0), 0);
    assert_eq!(rt; splitter.credit(1), 0);
    assert_eq!(rt; splitter.credit(2), 0);
    joins(&rt, &mut splitter, [1, 0, 0]);
    let mut got = [0u64; 3];
    assert_eq!(rt; splitter.take_from(0, 7, &mut got), 0);
    assert_eq!(rt; got, [5, 1, 1]);
    Ok(())
}

#[test]
fn splits_two_halves(rt: HostRuntime) -> Result<(), Fail> {
    let mut splitter = Splitter::new(rt.alloc(), &[1, 1])?;
    let mut got = [0u64; 2];
    splitter.take(1, &mut got);
    assert_eq!(rt; got, [1, 0]);
    assert_eq!(rt; splitter.credit(0), -1);
    assert_eq!(rt; splitter.credit(1), 1);
    Ok(())
}

// The split by its definition: each vehicle joins where the credit is then greatest, first on ties.
fn one_by_one(shares: &[u32], n: u64, credits: &mut [i64], got: &mut [u64]) {
    let total = shares
        .iter()
        .fold(0i64, |sum, &share| sum.wrapping_add(i64::from(share)));
    got.fill(0);
    for _vehicle in 0..n {
        for (credit, &share) in credits.iter_mut().zip(shares) {
            *credit = credit.wrapping_add(i64::from(share));
        }
        let mut best = 0;
        for i in 1..credits.len() {
            if credits.get(i).copied() > credits.get(best).copied() {
                best = i;
            }
        }
        if let (Some(credit), Some(count)) = (credits.get_mut(best), got.get_mut(best)) {
            *credit = credit.wrapping_sub(total);
            *count = count.wrapping_add(1);
        }
    }
}

// The same for any count: of many vehicles, whole rounds give each share as many as it is.
fn plain(shares: &[u32], n: u64, credits: &mut [i64], got: &mut [u64]) {
    if n < 5000 {
        one_by_one(shares, n, credits, got);
        return;
    }
    let total = shares
        .iter()
        .fold(0u64, |sum, &share| sum.wrapping_add(u64::from(share)));
    let rounds = n.checked_div(total).unwrap_or(0);
    one_by_one(shares, n.checked_rem(total).unwrap_or(0), credits, got);
    for (count, &share) in got.iter_mut().zip(shares) {
        *count = count.wrapping_add(rounds.wrapping_mul(u64::from(share)));
    }
}

// After `before` vehicles the next n join as they do one by one.
fn compare(
    rt: &impl Abort,
    alloc: Global,
    shares: &[u32],
    before: u64,
    n: u64,
) -> Result<(), NoMemory>
    requires some { 1 ≤ length shares.now }
    requires each { All (λ w. 1 ≤ w) shares.now }
    requires few { sum shares.now ≤ 1000 }
    requires within { (before ≤ 2 ^ 32) × (n ≤ 2 ^ 32) }
{
    let mut splitter = Splitter::new(alloc, shares)?;
    let mut got = vec![in alloc; 0u64; shares.len()]?;
    let mut want = vec![in alloc; 0u64; shares.len()]?;
    let mut credits = vec![in alloc; 0i64; shares.len()]?;
    splitter.take(before, &mut got);
    plain(shares, before, &mut credits, &mut want);
    assert_eq!(rt; got.as_slice(), want.as_slice());
    splitter.take(n, &mut got);
    plain(shares, n, &mut credits, &mut want);
    assert_eq!(rt; got.as_slice(), want.as_slice());
    Ok(())
}

#[test]
fn splits_as_the_credits_do(rt: HostRuntime) -> Result<(), Fail> {
    compare(&rt, rt.alloc(), &[1], 3, 4)?;
    compare(&rt, rt.alloc(), &[1, 1], 1, 5)?;
    compare(&rt, rt.alloc(), &[2, 3, 5], 7, 46)?;
    compare(&rt, rt.alloc(), &[70, 10, 20], 99, 1234)?;
    compare(&rt, rt.alloc(), &[1, 998, 1], 500, 2501)?;
    compare(&rt, rt.alloc(), &[3, 3, 3, 3], 5, 8)?;
    Ok(())
}

// A number below the limit (Knuth's generator).
fn draw(seed: &mut u64, limit: u64) -> u64
    requires { 0 < limit }
    ensures { result < limit }
{
    *seed = seed
        .wrapping_mul(6_364_136_223_846_793_005)
        .wrapping_add(1_442_695_040_888_963_407);
    (*seed >> 33) % limit
}

fn draw_share(seed: &mut u64) -> u32
    ensures some { 1 ≤ result }
    ensures few { result ≤ 200 }
{
    1 + draw(seed, 200) as u32
}

// Random shares, from a random phase on, with counts below and above 2^31.
fn compare_random(rt: &impl Abort, alloc: Global, seed: u64) -> Result<(), NoMemory> {
    let mut seed = seed;
    let a = draw_share(&mut seed);
    let b = draw_share(&mut seed);
    let c = draw_share(&mut seed);
    let before = draw(&mut seed, 2000);
    let many = 2_147_483_648 + draw(&mut seed, 2_147_483_648);
    compare(rt, alloc, &[a, b], before, many)?;
    compare(rt, alloc, &[a, b, c, 1, a], before, many)?;
    compare(rt, alloc, &[c, b, a, b], many, before)
}

#[test]
fn splits_random_shares(rt: HostRuntime) -> Result<(), Fail> {
    for seed in 0..20 {
        compare_random(&rt, rt.alloc(), seed)?;
    }
    Ok(())
}

// A million rounds and two vehicles more.
#[test]
fn splits_a_million_rounds(rt: HostRuntime) -> Result<(), Fail> {
    let mut splitter = Splitter::new(rt.alloc(), &[5, 1, 1])?;
    let mut got = [0u64; 3];
    splitter.take(7_000_002, &mut got);
    assert_eq!(rt; got, [5_000_002, 1_000_000, 1_000_000]);
    assert_eq!(rt; splitter.credit(0), -4);
    assert_eq!(rt; splitter.credit(1), 2);
    assert_eq!(rt; splitter.credit(2), 2);
    Ok(())
}

// A walk of each vehicle would not end within a test.
#[test]
fn splits_among_a_thousand(rt: HostRuntime) -> Result<(), Fail> {
    let shares = vec![in rt.alloc(); 1u32; 1000]?;
    let mut splitter = Splitter::new(rt.alloc(), &shares)?;
    let mut got = vec![in rt.alloc(); 0u64; 1000]?;
    splitter.take(4_294_967_296, &mut got);
    for i in 0..1000 {
        let (joined, credit) = if i < 296 {
            (4_294_968, -704)
        } else {
            (4_294_967, 296)
        };
        assert_eq!(rt; got.get(i).copied(), Some(joined), "at {i}");
        assert_eq!(rt; splitter.credit(i), credit, "at {i}");
    }
    Ok(())
}

// A burst of 2, and 1 vehicle in 4 periods: the level, a count, the room, whether the count is taken,
// and the level after it.
#[test]
fn fills_a_bucket(rt: HostRuntime) {
    for (level, count, room, taken, after) in [
        (0, 3, 2, false, 0),
        (0, 2, 2, true, 7),
        (7, 1, 0, false, 7),
        (7, 0, 0, true, 6),
        (6, 0, 0, true, 5),
        (5, 1, 1, true, 8),
        (8, 1, 0, false, 8),
        (0, 0, 2, true, 0),
    ] {
        let mut bucket = Bucket::new(4, 2, 1).at_level(level);
        assert_eq!(rt; bucket.level(), level);
        assert_eq!(rt; bucket.room(), room, "at {level}");
        assert_eq!(rt; bucket.offer(count).is_ok(), taken, "{count} at {level}");
        assert_eq!(rt; bucket.level(), after, "{count} at {level}");
    }
    let mut full = Bucket::at(3600, 10_000, 3_600_000, 36_000_000);
    assert_eq!(rt; full.room(), 1000);
    assert_eq!(rt; full.offer(999_999_999), Err(Above));
    assert_eq!(rt; full.offer(1000), Ok(()));
    assert_eq!(rt; full.level(), 36_000_000);
}
