//! The parts of the check of an optimum.

ghost use Rattle.std.specs.Prelude.{◌≡◌, ◌↔◌, ℕ, ◌+◌, ◌*◌, ◌*ℤ◌, ◌<◌, ◌≤ℤ◌, ℤ, pos, length, All, IsTrue};
ghost use Rattle.mp_num.specs.Checked.{within};
ghost use Rattle.mp_num.specs.Row.{entry};
ghost use Rattle.mp_simplex.specs.Checking.{same_products, product_added, dot, row_holds, column_holds, both, all_hold, has_value, none_negative, HasTerms};

use mp_num::{add, mul};

/// The sum with one more product.
#[tactic(auto, unfolding(crate::specs::Checking::product_added))]
fn add_product(sum: i128, x: i128, y: i128) -> Option<i128>
    ensures { result ≡ product_added sum x y }
{
    add(sum, mul(x, y)?)
}

/// The sum of the products of `v` and every `step`-th number of `u` from `start` on.
#[tactic(auto, using(crate::proofs::SummingLemmas::sums))]
fn dot(u: &[i128], start: usize, step: usize, v: &[i128]) -> Option<i128>
    requires { HasTerms (length u.now) start step (length v.now) }
    ensures { result ≡ dot (length v.now) (λ k. entry u.now (start + k * step)) (entry v.now) }
{
    let mut sum = 0;
    for k in 0..v.len() {
        let Some(next) = add_product(sum, u[start + k * step], v[k]) else {
            return None;
        };
        sum = next;
    }
    Some(sum)
}

/// Whether row `i` holds.
#[tactic(auto, using(crate::proofs::SummingLemmas::rows))]
fn row_holds(a: &[i128], b: &[i128], x: &[i128], d: i128, i: usize) -> Option<bool>
    requires size { length a.now ≡ length b.now * length x.now }
    requires row { i < length b.now }
    ensures { result ≡ row_holds (length x.now) a.now b.now x.now d i }
{
    let sum = dot(a, i * x.len(), 1, x)?;
    let most = mul(b[i], d)?;
    Some(sum <= most)
}

/// Whether column `k` holds.
#[tactic(auto, using(crate::proofs::SummingLemmas::columns))]
fn column_holds(a: &[i128], c: &[i128], y: &[i128], d: i128, k: usize) -> Option<bool>
    requires size { length a.now ≡ length y.now * length c.now }
    requires column { k < length c.now }
    ensures { result ≡ column_holds (length y.now) (length c.now) a.now c.now y.now d k }
{
    let sum = dot(a, k, c.len(), y)?;
    let least = mul(c[k], d)?;
    Some(sum >= least)
}

/// Whether two products are one number.
#[tactic(auto, using(crate::proofs::SummingLemmas::sames))]
fn same_products(sum: i128, den: i128, num: i128, d: i128) -> Option<bool>
    ensures { result ≡ same_products (within (sum *ℤ den)) (within (num *ℤ d)) }
{
    let Some(left) = mul(sum, den) else {
        return None;
    };
    let Some(right) = mul(num, d) else {
        return None;
    };
    Some(left == right)
}

/// Whether the sum of the products of `c` and `x`, over `d`, is `num` over `den`.
#[tactic(auto, using(crate::proofs::SummingLemmas::values), unfolding(crate::specs::Checking::has_value))]
pub fn has_value(c: &[i128], x: &[i128], d: i128, num: i128, den: i128) -> Option<bool>
    requires { length c.now ≡ length x.now }
    ensures { result ≡ has_value (length x.now) c.now x.now d num den }
{
    same_products(dot(c, 0, 1, x)?, den, num, d)
}

/// Whether both tests hold, where both have an answer.
pub fn both(first: Option<bool>, second: Option<bool>) -> Option<bool>
    ensures { result ≡ both first second }
{
    let first = first?;
    let second = second?;
    Some(first && second)
}

/// Whether none of the numbers is negative.
pub fn none_negative(xs: &[i128]) -> bool
    ensures { result ≡ none_negative xs.now }
{
    crate::turns::first_negative(xs).is_none()
}

/// Whether each row's sum is at most its right side; each is formed, whatever came before.
#[tactic(auto, using(crate::proofs::SummingLemmas::alls))]
pub fn rows_hold(a: &[i128], b: &[i128], x: &[i128], d: i128) -> Option<bool>
    requires { length a.now ≡ length b.now * length x.now }
    ensures { result ≡ all_hold (row_holds (length x.now) a.now b.now x.now d) (length b.now) }
{
    let mut all = true;
    for i in 0..b.len() {
        let Some(next) = both(Some(all), row_holds(a, b, x, d, i)) else {
            return None;
        };
        all = next;
    }
    Some(all)
}

/// Whether each column's sum is at least its objective; each is formed, whatever came before.
#[tactic(auto, using(crate::proofs::SummingLemmas::alls))]
pub fn columns_hold(a: &[i128], c: &[i128], y: &[i128], d: i128) -> Option<bool>
    requires { length a.now ≡ length y.now * length c.now }
    ensures { result ≡ all_hold (column_holds (length y.now) (length c.now) a.now c.now y.now d) (length c.now) }
{
    let mut all = true;
    for k in 0..c.len() {
        let Some(next) = both(Some(all), column_holds(a, c, y, d, k)) else {
            return None;
        };
        all = next;
    }
    Some(all)
}
