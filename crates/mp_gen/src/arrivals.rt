//! The arrivals of a demonstration.
ghost use Rattle.std.specs.Prelude.{◌≡◌, ◌≤◌, ◌<◌, ◌^◌, ◌++◌, ◌∷◌, [], ℕ, List, All, length};
ghost use Rattle.rand_pcg.specs.Pcg.{pcg32};
ghost use Rattle.mp_model.specs.Network.{fed};
ghost use Rattle.mp_model.specs.Arrivals.{HasCounts, IsPermitted};
ghost use Rattle.mp_step.specs.Taken.{HasTaken};
ghost use Rattle.mp_gen.specs.DemoArrivals.{seeded, wish, IsArrival, IsDrawn};

use arrayvec::ArrayVec;
use mp_net::LinkNo;
use mp_session::Session;
use rand_core::SeedableRng;
use rand_core::utils::NextWord;
use rand_pcg::Pcg32;
use std::marker::Model;

/// The arrivals of a demonstration, one period after the other. Callers see their generator.
#[derive(Drop)]
pub struct DemoArrivals {
    words: Pcg32,
}

impl Model for DemoArrivals {
    ghost use Rattle.rand_pcg.specs.Lcg.{Lcg};
    ghost use Rattle.mp_gen.specs.DrawnView.{generator_of};

    ghost Value = { Lcg };

    ghost view = { generator_of };
}

// The wish of a link by a word.
fn wish(l: LinkNo, word: u32) -> u32
    ensures value { result ≡ wish l word }
    ensures few { result < 5 }
{
    if l == 1 { word % 5 } else { word % 3 }
}

// The arrivals on a link in the next period, by the next word.
fn draw(words: &mut Pcg32, session: &Session, l: LinkNo) -> u64
    requires { (1 ≤ l) × (l ≤ length session.now.net.links) }
    ensures arrival { (A : List (List ℕ)) → HasTaken session.now.net session.now.round.standing A → IsArrival session.now.net A l (pcg32 words.old).0 result }
    ensures word { words.new ≡ (pcg32 words.old).1 }
    ensures few { result < 5 }
{
    let wish = wish(l, words.next_word());
    let room = session.round().state().room(l);
    u64::from(wish).min(room)
}

// Appends the arrivals of the next period, one word drawn for each fed link in order.
fn draw_all(words: &mut Pcg32, session: &Session, into: &mut ArrayVec<u64, 128>)
    requires { into.old.items ≡ [] }
    ensures drawn { (A : List (List ℕ)) → HasTaken session.now.net session.now.round.standing A → IsDrawn session.now.net A (fed session.now.net) words.old into.new.items words.new }
    ensures counts { HasCounts session.now.net into.new.items }
    ensures digits { All (λ a. a < 10 ^ 9) into.new.items }
{
    let net = session.net();
    // There is room: no network has more than 128 links.
    let _links = net.links();
    for l in net.fed() {
        into.push(draw(words, session, *l));
    }
}

impl DemoArrivals {
    /// The arrivals of this demonstration, from its first period on.
    pub fn new(n: u64) -> DemoArrivals
        ensures { result ≡ seeded n }
    {
        DemoArrivals {
            words: Pcg32::seed_from_u64(n),
        }
    }

    /// Makes `into` the arrivals of the next period, one count per fed link in link order: for each a
    /// word is drawn, and the count is the lesser of the wish by it and the greatest count that the
    /// bucket of the link accepts.
    pub fn fill(&mut self, session: &Session, into: &mut ArrayVec<u64, 128>)
        ensures drawn { (A : List (List ℕ)) → HasTaken session.now.net session.now.round.standing A → IsDrawn session.now.net A (fed session.now.net) self.old into.new.items self.new }
        ensures permitted { (A : List (List ℕ)) → HasTaken session.now.net session.now.round.standing A → IsPermitted session.now.net (A ++ into.new.items ∷ []) }
        ensures counts { HasCounts session.now.net into.new.items }
        ensures digits { All (λ a. a < 10 ^ 9) into.new.items }
    {
        into.clear();
        draw_all(&mut self.words, session, into);
    }
}
