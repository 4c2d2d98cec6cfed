//! Linear programs over whole numbers of 128 bits: an optimum with its proof, exactly.
//!
//! The simplex method with the rule of Bland (1977) runs over whole numbers: each row of its tableau is kept up to a
//! positive factor, and is divided by the greatest common divisor of its numbers after each step.
#![tactic(auto)]

ghost use Rattle.std.specs.Prelude.{◌≡◌, ◌↔◌, ℕ, ℤ, ◌*ℤ◌, ◌≤ℤ◌, List, IfSome, IsTrue};
ghost use Rattle.mp_simplex.specs.Checking.{checked};
ghost use Rattle.mp_simplex.specs.Meeting.{Meets, HasSizes, BeginsAtZero, IsOptimum, IsGreatest, IsRight, FitsProgram};
ghost use Rattle.mp_simplex.specs.declared.Lp.{Lp};
ghost use Rattle.mp_simplex.specs.declared.Optimum.{Optimum};
ghost use Rattle.mp_simplex.specs.Optimal.{IsPrimal, IsDual, product};
ghost use Rattle.mp_simplex.specs.Outcome.{maximised};

mod checking;
mod reading;
mod table;
mod turns;

use checking::{both, columns_hold, has_value, none_negative, rows_hold};
use mp_num::{Frac, Numbers};
use reading::read_ending;
use std::alloc::{AllocError, Global};
use table::Table;

/// A program: the greatest `c·x` is sought where `a·x ≤ b` and no `x` is negative.
#[derive(Debug, Drop)]
pub struct Lp {
    /// How many constraints there are.
    pub rows: usize,
    /// How many columns there are.
    pub cols: usize,
    /// The coefficients, row by row.
    pub a: Numbers,
    /// The right side of each row.
    pub b: Numbers,
    /// The objective's coefficient of each column.
    pub c: Numbers,
}

/// A primal and a dual of one value, each in lowest terms.
#[derive(Debug, Drop)]
pub struct Optimum {
    /// The value of each column, over `primal_den`.
    pub primal: Numbers,
    pub primal_den: i128,
    /// The value of each row, over `dual_den`.
    pub dual: Numbers,
    pub dual_den: i128,
    /// The objective's value on both sides.
    pub value: Frac,
    /// How many pivots were done.
    pub pivots: u32,
}

/// Why a program has no optimum here.
#[derive(Debug, Drop)]
pub enum LpFault {
    /// The objective grows without end along `ray`, which has a number for each column.
    Unbounded { ray: Numbers },
    /// A number exceeded 128 bits after so many pivots.
    Overflow { pivots: u32 },
    /// One more pivot than the limit would be needed.
    PivotLimit,
    /// Memory ran out.
    NoMemory,
}

impl From<AllocError> for LpFault {
    ghost use Rattle.std.specs.Prelude.{◌≡◌};
    ghost use Rattle.mp_simplex.specs.declared.LpFault.TheVariants.{NoMemory};

    ghost from_gives = { λ _ e. e ≡ NoMemory };

    fn from(_error: AllocError) -> LpFault {
        LpFault::NoMemory
    }
}

/// The optimum of a program, by at most so many pivots.
///
/// `Unbounded`, `Overflow` and `PivotLimit` come exactly where the stated calculation ends so; `NoMemory` comes only
/// where memory ran out. The right sides are at least 0, so that the program has a first solution.
#[tactic(auto, using(crate::proofs::MaximiseLemmas::maximises))]
pub fn maximise(alloc: Global, lp: &Lp, limit: u32) -> Result<Optimum, LpFault>
    requires sizes { HasSizes lp.now }
    requires right_sides { BeginsAtZero lp.now }
    ensures calculation { Meets result (maximised lp.now limit) }
    ensures meaning { IsRight lp.now result }
{
    let Some(mut table) = Table::first(alloc, lp)? else {
        return Err(LpFault::Overflow { pivots: 0 });
    };
    let ending = table.run(limit);
    read_ending(alloc, &table, ending)
}

/// Whether both sides of an optimum are feasible and have its value, or `None` exactly where a number of the check
/// exceeds 128 bits. The number of pivots is not looked at.
pub fn check_optimum(lp: &Lp, optimum: &Optimum) -> Option<bool>
    requires sizes { HasSizes lp.now }
    requires sides { FitsProgram lp.now optimum.now }
    ensures calculation { result ≡ checked lp.now optimum.now }
    ensures meaning { IfSome result (λ holds. IsTrue holds ↔ IsOptimum lp.now optimum.now) }
{
    let (a, b, c) = (lp.a.as_slice(), lp.b.as_slice(), lp.c.as_slice());
    let (primal, dual) = (optimum.primal.as_slice(), optimum.dual.as_slice());
    let (num, den) = (optimum.value.num(), optimum.value.den());
    let rows = rows_hold(a, b, primal, optimum.primal_den);
    let columns = columns_hold(a, c, dual, optimum.dual_den);
    let primal_value = has_value(c, primal, optimum.primal_den, num, den);
    let dual_value = has_value(b, dual, optimum.dual_den, num, den);
    let primal_sign = Some(none_negative(primal));
    let dual_sign = Some(none_negative(dual));
    let sides = both(rows, columns);
    let values = both(primal_value, dual_value);
    let signs = both(primal_sign, dual_sign);
    both(sides, both(values, signs))
}

/// Weak duality: no primal is above any dual, so that the value of an optimum is the greatest.
pub fn weak_duality_law()
    ensures greatest { (lp : Lp) (optimum : Optimum) → IsOptimum lp optimum → IsGreatest lp optimum.value }
    ensures weak_duality { (m n : ℕ) (a b c x y : List ℤ) (d e : ℤ) → IsPrimal m n a b x d → IsDual m n a c y e →
        (product n c x *ℤ e) ≤ℤ (product m b y *ℤ d) }
{}

#[cfg(test)]
mod tests;
