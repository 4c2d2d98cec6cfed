//! The account of a junction: what each of its stages owes, and the stage of the period before.
ghost use Rattle.std.specs.Prelude.{◌≡◌, ◌≤◌, All, IfSome, None, Some, length};
ghost use Rattle.mp_model.specs.GuardedRun.{less_by};

use arrayvec::ArrayVec;
use mp_net::StageNo;
use std::marker::Model;

/// What each stage of a junction owes, and the stage of the period before, if there was one.
#[derive(Drop)]
pub struct Account {
    owed: ArrayVec<u16, 16>,
    before: Option<StageNo>,
}

impl Model for Account {
    ghost use Rattle.mp_model.specs.GuardedRun as model;
    ghost use Rattle.mp_guard_run.specs.Views.{account_shown};

    ghost Value = { model.Account };

    ghost view = { account_shown };
}

// A list of greens, one per stage.
fn list_of(greens: &[u128]) -> ArrayVec<u16, 16>
    requires few { length greens.now ≤ 16 }
    requires small { All (λ n. n ≤ 3600) greens.now }
    ensures { result.items ≡ greens.now }
{
    let mut owed = ArrayVec::new();
    for n in greens {
        owed.push(*n as u16);
    }
    owed
}

// The stage owes one less.
fn put_less(owed: &mut [u16], p: StageNo)
    requires { (1 ≤ p) × (p ≤ length owed.old) }
    ensures { owed.new ≡ less_by owed.old (Some p) }
{
    let at = usize::from(p) - 1;
    owed[at] = owed[at].saturating_sub(1);
}

impl Account {
    /// The account of a junction whose stages owe these greens, after this stage.
    pub fn new(greens: &[u128], before: Option<StageNo>) -> Account
        requires few { length greens.now ≤ 16 }
        requires small { All (λ n. n ≤ 3600) greens.now }
        ensures { result ≡ record { owed = greens.now; before = before } }
    {
        Account {
            owed: list_of(greens),
            before,
        }
    }

    /// What each stage owes.
    pub fn owed(&self) -> &[u16]
        ensures value { result.now ≡ self.now.owed }
        ensures few { length result.now ≤ 16 }
    {
        self.owed.as_slice()
    }

    /// The stage of the period before, if there was one.
    pub fn before(&self) -> Option<StageNo>
        ensures { result ≡ self.now.before }
    {
        self.before
    }

    /// This stage pays, if there is one, and the period was one with stage s.
    pub fn pay(&mut self, payer: Option<StageNo>, s: StageNo)
        requires { IfSome payer (λ p. (1 ≤ p) × (p ≤ length self.old.owed)) }
        ensures { self.new ≡ record { owed = less_by self.old.owed payer; before = Some s } }
    {
        if let Some(p) = payer {
            put_less(self.owed.as_mut_slice(), p);
        }
        self.before = Some(s);
    }
}
