//! Guards.
ghost use Rattle.std.specs.Prelude.{◌≡◌, ◌≤◌, length, map};
ghost use Rattle.mp_model.specs.Guard.{greens_at};

use mp_net::JunctionNo;
use std::marker::Model;

/// What each stage of a network is owed in a cycle, and the rates that these greens serve.
/// Any numbers make a guard; whether it guards a network is what `check` tells.
#[derive(Debug, Drop)]
pub struct Guard {
    cycle: u128,
    lost: u128,
    denominator: u128,
    rates: Vec<u128>,
    greens: Vec<Vec<u128>>,
}

impl Model for Guard {
    ghost use Rattle.mp_model.specs.Guard as model;
    ghost use Rattle.mp_guard.specs.Views.{shown};

    ghost Value = { model.Guard };

    ghost view = { shown };
}

impl Guard {
    /// The guard of a cycle in periods, the lost periods of a change, a denominator, a rate per movement, in vehicles
    /// per period times the denominator, and for each junction the greens of its stages, in periods per cycle.
    pub fn new(
        cycle: u128,
        lost: u128,
        denominator: u128,
        rates: Vec<u128>,
        greens: Vec<Vec<u128>>,
    ) -> Guard
        ensures { result ≡ record { cycle = cycle; lost = lost; denominator = denominator; rates = rates.items; greens = map (λ row. row.items) greens.items } }
    {
        Guard {
            cycle,
            lost,
            denominator,
            rates,
            greens,
        }
    }

    /// The cycle, in periods.
    pub fn cycle(&self) -> u128
        ensures { result ≡ self.now.cycle }
    {
        self.cycle
    }

    /// The periods that a change of stage loses.
    pub fn lost(&self) -> u128
        ensures { result ≡ self.now.lost }
    {
        self.lost
    }

    /// The denominator of the rates.
    pub fn denominator(&self) -> u128
        ensures { result ≡ self.now.denominator }
    {
        self.denominator
    }

    /// The rate of each movement: over the denominator, in vehicles per period.
    pub fn rates(&self) -> &[u128]
        ensures { result.now ≡ self.now.rates }
    {
        self.rates.as_slice()
    }

    /// How many junctions have greens.
    pub fn junctions(&self) -> usize
        ensures { result ≡ length self.now.greens }
    {
        self.greens.len()
    }

    /// The greens of all junctions.
    pub(crate) fn all_greens(&self) -> &[Vec<u128>]
        ensures { map (λ row. row.items) result.now ≡ self.now.greens }
    {
        self.greens.as_slice()
    }

    /// The greens of the stages of the junction, in periods per cycle.
    pub fn greens(&self, j: JunctionNo) -> &[u128]
        requires { (1 ≤ j) × (j ≤ length self.now.greens) }
        ensures { result.now ≡ greens_at self.now j }
    {
        self.greens[usize::from(j) - 1].as_slice()
    }
}
