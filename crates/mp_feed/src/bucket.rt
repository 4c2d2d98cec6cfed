// Buckets of arrivals.
ghost use Rattle.std.specs.Prelude.{◌≡◌, ◌≤◌, ◌<◌, ◌*◌, ◌^◌, ℕ, IsOk, OnOk, OnErr, ◌↔◌};
ghost use Rattle.mp_feed.specs.Fill.{Fill, AreLimits, level_with, Takes};

use std::marker::Model;

/// The level would be above the bucket: above the rate length times the burst.
#[derive(Clone, Copy, Debug, PartialEq, Eq)]
pub struct Above;

/// A bucket of arrivals: its level rises by the rate length for each vehicle, falls by the rate in
/// each period, never falls below 0, and stays at most the rate length times the burst.
///
/// The rate length is in periods, the burst in vehicles, and the rate in vehicles per rate length.
#[derive(Drop)]
pub struct Bucket {
    per: u32,
    burst: u32,
    rate: u32,
    level: u64,
}

impl Model for Bucket {
    ghost use Rattle.mp_feed.specs.Fill.{Fill};
    ghost use Rattle.mp_feed.specs.Filled.{fill_of, IsFilled};

    ghost Value = { Fill };

    ghost view = { fill_of };

    ghost invariant = { IsFilled };
}

impl Bucket {
    /// A bucket with level 0.
    pub fn new(per: u32, burst: u32, rate: u32) -> Bucket
        requires { AreLimits per burst rate }
        ensures { result ≡ record { per = per; burst = burst; rate = rate; level = 0 } }
    {
        Bucket {
            per,
            burst,
            rate,
            level: 0,
        }
    }

    /// A bucket with this level.
    pub fn at(per: u32, burst: u32, rate: u32, level: u64) -> Bucket
        requires limits { AreLimits per burst rate }
        requires level { level ≤ per * burst }
        ensures { result ≡ record { per = per; burst = burst; rate = rate; level = level } }
    {
        Bucket {
            per,
            burst,
            rate,
            level,
        }
    }

    /// A bucket with the same burst and rate, and this level.
    pub fn at_level(&self, level: u64) -> Bucket
        requires { level ≤ self.now.per * self.now.burst }
        ensures { result ≡ record self.now { level = level } }
    {
        Bucket::at(self.per, self.burst, self.rate, level)
    }

    /// The level: at most the rate length times the burst.
    pub fn level(&self) -> u64
        ensures value { result ≡ self.now.level }
        ensures within { result ≤ self.now.per * self.now.burst }
    {
        self.level
    }

    /// The greatest count that `offer` accepts now.
    pub fn room(&self) -> u64
        ensures { (count : ℕ) → Takes self.now count ↔ (count ≤ result) }
    {
        (u64::from(self.per) * u64::from(self.burst) + u64::from(self.rate) - self.level)
            / u64::from(self.per)
    }

    /// One period with this count of arrivals, of at most 9 digits. `Above` comes exactly where the
    /// level after it would be above the bucket; the level then stays.
    pub fn offer(&mut self, count: u64) -> Result<(), Above>
        requires { count < 10 ^ 9 }
        ensures taken { IsOk result ↔ Takes self.old count }
        ensures level { OnOk result (self.new ≡ record self.old { level = level_with self.old count }) }
        ensures stays { OnErr result (self.new ≡ self.old) }
    {
        let level = (self.level + u64::from(self.per) * count).saturating_sub(u64::from(self.rate));
        if level > u64::from(self.per) * u64::from(self.burst) {
            return Err(Above);
        }
        self.level = level;
        Ok(())
    }
}
