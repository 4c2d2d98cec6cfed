//! The rows of a network's two systems.
ghost use Rattle.std.specs.Prelude.{◌≡◌, ◌==◌, ◌^◌, ◌*◌, ◌<◌, ◌≤◌, cond, length, IfOk, OnOk, ◌++◌, pos};
ghost use Rattle.mp_model.specs.Network.{link_at, from_of, to_of, share_of, goes_to, into_link};
ghost use Rattle.mp_flow.specs.Systems.{share_from, share_to, flow_cell, flow_row, flow_rows, worth_cell, worth_row, worth_rows};
ghost use Rattle.mp_flow.specs.Calculating.{HoldsRows};

use crate::solving::Rows;
use mp_net::{LinkNo, MovementNo, Net};
use std::alloc::{AllocError, Global};

/// The share of the movement where it leaves link `m`, and 0 elsewhere.
fn share_leaving(net: &Net, j: MovementNo, m: LinkNo) -> u32
    requires { (1 ≤ j) × (j ≤ length net.now.movements) }
    ensures { result ≡ cond (from_of net.now j == m) (share_of net.now j) 0 }
{
    let movement = net.movement(j);
    if movement.from == m {
        movement.share
    } else {
        0
    }
}

/// The share of the movement where it goes to link `m`, and 0 elsewhere.
fn share_going(net: &Net, k: MovementNo, m: LinkNo) -> u32
    requires { (1 ≤ k) × (k ≤ length net.now.movements) }
    ensures { result ≡ cond (goes_to (to_of net.now k) m) (share_of net.now k) 0 }
{
    let movement = net.movement(k);
    match movement.to {
        Some(target) => if target == m { movement.share } else { 0 },
        None => 0,
    }
}

/// The shares of the movements into link `l` that leave link `m`.
#[tactic(auto, using(crate::proofs::RowLoopLemmas::summing))]
fn shares_from(net: &Net, l: LinkNo, m: LinkNo) -> u128
    requires { (1 ≤ l) × (l ≤ length net.now.links) }
    ensures value { result ≡ share_from net.now l m }
    ensures small { result < 2 ^ 127 }
{
    let mut sum: u128 = 0;
    for j in net.into_link(l) {
        sum += u128::from(share_leaving(net, *j, m));
    }
    sum
}

/// The shares of the movements out of link `l` that go to link `m`.
#[tactic(auto, using(crate::proofs::RowLoopLemmas::summing))]
fn shares_to(net: &Net, l: LinkNo, m: LinkNo) -> u128
    requires { (1 ≤ l) × (l ≤ length net.now.links) }
    ensures value { result ≡ share_to net.now l m }
    ensures small { result < 2 ^ 127 }
{
    let mut sum: u128 = 0;
    for k in net.out_of(l) {
        sum += u128::from(share_going(net, *k, m));
    }
    sum
}

/// The number of link `l` at the column of link `m` in the system of the flows.
#[tactic(auto, unfolding(crate::specs::Systems::flow_cell))]
fn flow_cell(net: &Net, l: LinkNo, m: LinkNo) -> i128
    requires { (1 ≤ l) × (l ≤ length net.now.links) }
    ensures { result ≡ flow_cell net.now l m }
{
    let own = if l == m { i128::from(net.shares()) } else { 0 };
    own - shares_from(net, l, m) as i128
}

/// The number of link `l` at the column of link `m` in the system of the worths.
#[tactic(auto, unfolding(crate::specs::Systems::worth_cell))]
fn worth_cell(net: &Net, l: LinkNo, m: LinkNo) -> i128
    requires { (1 ≤ l) × (l ≤ length net.now.links) }
    ensures { result ≡ worth_cell net.now l m }
{
    let own = if l == m { i128::from(net.shares()) } else { 0 };
    own - shares_to(net, l, m) as i128
}

/// The first right side of link `l`: the share total times its rate.
fn rate_side(net: &Net, l: LinkNo) -> i128
    requires { (1 ≤ l) × (l ≤ length net.now.links) }
    ensures { result ≡ pos (net.now.shares * (link_at net.now l).rate) }
{
    i128::from(net.shares()) * i128::from(net.link(l).rate)
}

/// The second right side of link `l`: the share total times the number of movements into it.
fn unit_side(net: &Net, l: LinkNo) -> i128
    requires { (1 ≤ l) × (l ≤ length net.now.links) }
    ensures { result ≡ pos (net.now.shares * length (into_link net.now l)) }
{
    i128::from(net.shares()) * net.into_link(l).len() as i128
}

/// Appends the row of link `l` in the system of the flows.
#[tactic(auto, using(crate::proofs::RowLoopLemmas::cells), unfolding(crate::specs::Systems::flow_row))]
fn push_flow_row(cells: &mut Vec<i128>, net: &Net, l: LinkNo) -> Result<(), AllocError>
    requires { (1 ≤ l) × (l ≤ length net.now.links) }
    ensures { OnOk result (cells.new.items ≡ cells.old.items ++ flow_row net.now l) }
{
    for m in 0..net.links() {
        cells.push(flow_cell(net, l, m + 1))?;
    }
    cells.push(rate_side(net, l))?;
    cells.push(unit_side(net, l))?;
    Ok(())
}

/// Appends the row of link `l` in the system of the worths.
#[tactic(auto, using(crate::proofs::RowLoopLemmas::cells), unfolding(crate::specs::Systems::worth_row))]
fn push_worth_row(cells: &mut Vec<i128>, net: &Net, u: &[i128], l: LinkNo) -> Result<(), AllocError>
    requires link { (1 ≤ l) × (l ≤ length net.now.links) }
    requires values { length u.now ≡ length net.now.links }
    ensures { OnOk result (cells.new.items ≡ cells.old.items ++ worth_row net.now u.now l) }
{
    for m in 0..net.links() {
        cells.push(worth_cell(net, l, m + 1))?;
    }
    cells.push(u[usize::from(l) - 1])?;
    Ok(())
}

/// The system of the flows: a row per link, with two right sides.
#[tactic(auto, using(crate::proofs::RowLoopLemmas::flow_stacks))]
pub fn flow_system(alloc: Global, net: &Net) -> Result<Rows, AllocError>
    ensures { IfOk result (λ rows. HoldsRows rows (length net.now.links) 2 (flow_rows net.now)) }
{
    let n = net.links();
    let mut cells = Vec::new(alloc);
    for l in 0..n {
        push_flow_row(&mut cells, net, l + 1)?;
    }
    Ok(Rows {
        n: usize::from(n),
        rights: 2,
        cells,
    })
}

/// The system of the worths: a row per link, with its number in `u` as the right side.
#[tactic(auto, using(crate::proofs::RowLoopLemmas::worth_stacks))]
pub fn worth_system(alloc: Global, net: &Net, u: &[i128]) -> Result<Rows, AllocError>
    requires { length u.now ≡ length net.now.links }
    ensures { IfOk result (λ rows. HoldsRows rows (length net.now.links) 1 (worth_rows net.now u.now)) }
{
    let n = net.links();
    let mut cells = Vec::new(alloc);
    for l in 0..n {
        push_worth_row(&mut cells, net, u, l + 1)?;
    }
    Ok(Rows {
        n: usize::from(n),
        rights: 1,
        cells,
    })
}
