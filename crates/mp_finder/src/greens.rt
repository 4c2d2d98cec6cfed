//! The greens of a junction: from its mix, then raised and lowered to what its movements want.
ghost use Rattle.std.specs.Prelude.{◌≡◌, ◌≤◌, ◌<◌, ◌^◌, All, IfOk, IfSome, length, map, pos, get_or, option_map};
ghost use Rattle.std.specs.List.{fold};
ghost use Rattle.mp_cert.specs.Views.{mix_of};
ghost use Rattle.mp_model.specs.Load.{greatest};
ghost use Rattle.mp_model.specs.Network.{junction_at, own, stage_at, stage_numbers};
ghost use Rattle.mp_model.specs.NetworkRules.{IsAcceptable};
ghost use Rattle.mp_finder.specs.Greens.{green_for, greens_by, greens_for, lack, lowered_at, lowest_stage, raised_for};
ghost use Rattle.mp_finder.specs.Giving.{IsMixOver};

use crate::wants::round_up;
use mp_cert::Mix;
use mp_guard::greens::{holds, sum_with};
use mp_net::{JunctionNo, MovementNo, Net, StageNo};
use mp_num::mul;
use std::alloc::{AllocError, Global};

/// The green of the part of stage `s`, counted from 0, or none exactly where a product exceeds 128 bits.
#[tactic(auto, using(crate::proofs::Firsts::quoting), unfolding(crate::specs::Greens::green_for))]
fn green_for(cycle: u32, d: u32, mix: &Mix, s: usize) -> Option<u128>
    requires cycle { cycle ≤ 3600 }
    requires denominator { 1 ≤ d }
    requires mix { IsMixOver d (mix_of mix.now) }
    requires stage { s < length mix.now.parts }
    ensures value { result ≡ green_for cycle d mix.now.whole (get_or mix.now.parts s (pos 0)) }
    ensures few { IfSome result (λ green. green ≤ 10 ^ 20) }
{
    let over = mul(i128::from(cycle), mix.parts.as_slice()[s])?;
    let under = mul(mix.whole, i128::from(d))?;
    Some(round_up(over.unsigned_abs(), under.unsigned_abs()))
}

/// The greens of the parts of the mix, or none exactly where a product exceeds 128 bits.
#[tactic(auto, using(crate::proofs::Firsts::giving))]
fn greens_for(alloc: Global, cycle: u32, d: u32, mix: &Mix) -> Result<Option<Vec<u128>>, AllocError>
    requires cycle { cycle ≤ 3600 }
    requires denominator { 1 ≤ d }
    requires mix { IsMixOver d (mix_of mix.now) }
    ensures value { IfOk result (λ given. option_map (λ greens. greens.items) given ≡ greens_for cycle d (mix_of mix.now)) }
    ensures size { IfOk result (λ given. IfSome given (λ greens. length greens.items ≡ length mix.now.parts)) }
    ensures few { IfOk result (λ given. IfSome given (λ greens. All (λ n. n ≤ 10 ^ 20) greens.items)) }
{
    let mut greens = Vec::new(alloc);
    for s in 0..mix.parts.as_slice().len() {
        let Some(green) = green_for(cycle, d, mix, s) else {
            return Ok(None);
        };
        greens.push(green)?;
    }
    Ok(Some(greens))
}

/// The lowest stage of the movement.
#[tactic(auto, using(crate::proofs::Lists::finding))]
fn lowest_stage(net: &Net, j: JunctionNo, k: MovementNo) -> Option<StageNo>
    requires { (1 ≤ j) × (j ≤ length net.now.junctions) }
    ensures value { result ≡ lowest_stage (junction_at net.now j) k }
    ensures known { IfSome result (λ s. (1 ≤ s) × (s ≤ length (junction_at net.now j).stages)) }
{
    for s in 0..net.stages(j) {
        if holds(net, j, s + 1, k) {
            return Some(s + 1);
        }
    }
    None
}

/// Gives the lowest stage of the movement 1, where the movement wants some and no stage with a green has it.
#[tactic(auto, unfolding(crate::specs::Greens::raised_for))]
fn raise_for(net: &Net, j: JunctionNo, wants: &[u128], greens: &mut [u128], k: MovementNo)
    requires junction { (1 ≤ j) × (j ≤ length net.now.junctions) }
    requires wants { length wants.now ≡ length net.now.movements }
    requires size { length greens.old ≡ length (junction_at net.now j).stages }
    requires few { All (λ n. n ≤ 10 ^ 20) greens.old }
    requires movement { (1 ≤ k) × (k ≤ length net.now.movements) }
    ensures value { greens.new ≡ raised_for (junction_at net.now j) wants.now greens.old k }
    ensures few { All (λ n. n ≤ 10 ^ 20) greens.new }
{
    if wants[usize::from(k) - 1] > 0 && sum_with(net, j, greens, k) == 0 {
        if let Some(s) = lowest_stage(net, j, k) {
            greens[usize::from(s) - 1] = 1;
        }
    }
}

/// Gives each movement of the junction that wants some a stage with a green.
#[tactic(auto, using(crate::proofs::Lists::folding))]
fn raise(net: &Net, j: JunctionNo, wants: &[u128], greens: &mut [u128])
    requires junction { (1 ≤ j) × (j ≤ length net.now.junctions) }
    requires wants { length wants.now ≡ length net.now.movements }
    requires size { length greens.old ≡ length (junction_at net.now j).stages }
    requires few { All (λ n. n ≤ 10 ^ 20) greens.old }
    ensures value { greens.new ≡ fold (raised_for (junction_at net.now j) wants.now) greens.old (own net.now (junction_at net.now j)) }
    ensures few { All (λ n. n ≤ 10 ^ 20) greens.new }
{
    for k in net.own(j) {
        raise_for(net, j, wants, greens, *k);
    }
}

/// What some movement of the stage lacks most.
#[tactic(auto, using(crate::proofs::Lists::greatest_so_far))]
fn greatest_lack(net: &Net, j: JunctionNo, wants: &[u128], greens: &[u128], s: StageNo) -> u128
    requires acceptable { IsAcceptable net.now }
    requires junction { (1 ≤ j) × (j ≤ length net.now.junctions) }
    requires wants { length wants.now ≡ length net.now.movements }
    requires wants_few { All (λ n. n ≤ 10 ^ 20) wants.now }
    requires size { length greens.now ≡ length (junction_at net.now j).stages }
    requires few { All (λ n. n ≤ 10 ^ 20) greens.now }
    requires stage { (1 ≤ s) × (s ≤ length (junction_at net.now j).stages) }
    ensures value { result ≡ greatest (map (lack (junction_at net.now j) wants.now greens.now) (stage_at (junction_at net.now j) s)) }
    ensures few { result ≤ 10 ^ 20 }
{
    let mut most = 0;
    for k in net.stage(j, s) {
        let wanted = wants[usize::from(*k) - 1];
        most = wanted
            .saturating_sub(sum_with(net, j, greens, *k))
            .max(most);
    }
    most
}

/// Makes the green of the stage the least with which no movement of it lacks any.
#[tactic(auto, unfolding(crate::specs::Greens::lowered_at))]
fn lower_at(net: &Net, j: JunctionNo, wants: &[u128], greens: &mut [u128], s: StageNo)
    requires acceptable { IsAcceptable net.now }
    requires junction { (1 ≤ j) × (j ≤ length net.now.junctions) }
    requires wants { length wants.now ≡ length net.now.movements }
    requires wants_few { All (λ n. n ≤ 10 ^ 20) wants.now }
    requires size { length greens.old ≡ length (junction_at net.now j).stages }
    requires few { All (λ n. n ≤ 10 ^ 20) greens.old }
    requires stage { (1 ≤ s) × (s ≤ length (junction_at net.now j).stages) }
    ensures value { greens.new ≡ lowered_at (junction_at net.now j) wants.now greens.old s }
    ensures few { All (λ n. n ≤ 10 ^ 20) greens.new }
{
    let at = usize::from(s) - 1;
    greens[at] = 0;
    greens[at] = greatest_lack(net, j, wants, greens, s);
}

/// Makes each green of the junction the least, one after the other.
#[tactic(auto, using(crate::proofs::Lists::folding))]
fn lower(net: &Net, j: JunctionNo, wants: &[u128], greens: &mut [u128])
    requires acceptable { IsAcceptable net.now }
    requires junction { (1 ≤ j) × (j ≤ length net.now.junctions) }
    requires wants { length wants.now ≡ length net.now.movements }
    requires wants_few { All (λ n. n ≤ 10 ^ 20) wants.now }
    requires size { length greens.old ≡ length (junction_at net.now j).stages }
    requires few { All (λ n. n ≤ 10 ^ 20) greens.old }
    ensures value { greens.new ≡ fold (lowered_at (junction_at net.now j) wants.now) greens.old (stage_numbers (junction_at net.now j)) }
    ensures few { All (λ n. n ≤ 10 ^ 20) greens.new }
{
    for s in 0..net.stages(j) {
        lower_at(net, j, wants, greens, s + 1);
    }
}

/// The greens of the junction by its mix, or none exactly where a product exceeds 128 bits.
pub fn greens_by(
    alloc: Global,
    net: &Net,
    cycle: u32,
    d: u32,
    wants: &[u128],
    j: JunctionNo,
    mix: &Mix,
) -> Result<Option<Vec<u128>>, AllocError>
    requires acceptable { IsAcceptable net.now }
    requires cycle { cycle ≤ 3600 }
    requires denominator { 1 ≤ d }
    requires wants { length wants.now ≡ length net.now.movements }
    requires wants_few { All (λ n. n ≤ 10 ^ 20) wants.now }
    requires junction { (1 ≤ j) × (j ≤ length net.now.junctions) }
    requires mix { IsMixOver d (mix_of mix.now) }
    requires parts { length mix.now.parts ≡ length (junction_at net.now j).stages }
    ensures value { IfOk result (λ given. option_map (λ greens. greens.items) given ≡ greens_by net.now cycle d wants.now j (mix_of mix.now)) }
    ensures size { IfOk result (λ given. IfSome given (λ greens. length greens.items ≡ length (junction_at net.now j).stages)) }
    ensures few { IfOk result (λ given. IfSome given (λ greens. All (λ n. n ≤ 10 ^ 20) greens.items)) }
{
    let Some(mut greens) = greens_for(alloc, cycle, d, mix)? else {
        return Ok(None);
    };
    raise(net, j, wants, &mut greens);
    lower(net, j, wants, &mut greens);
    Ok(Some(greens))
}
