// A run that a stream drives, by the kinds of the lines that it took.
ghost use Rattle.std.specs.Prelude.{◌≡◌, ◌≤◌, ◌∷◌, [], ℕ, List, Err};
ghost use Rattle.mp_edge.specs.Outside.{Rose, HasCause, Tells, Puts};
ghost use Rattle.mp_model.specs.Log.{text_of};
ghost use Rattle.mp_model.specs.Stream.{LineKind};
ghost use Rattle.mp_log.specs.Kinds.{kind_read, IsOnNetwork};
ghost use Rattle.mp_stream.specs.Course.{Course, kind_for};
ghost use Rattle.mp_stream.specs.Taking.{HasRoom, TakesLine};

use mp_edge::{Failed, Sink};
use mp_log::StreamLine;
use mp_net::Net;
use mp_text::{LineSink, SmallNumbers};

/// Why a run does not go on behind a line.
#[derive(Clone, Copy, Debug, PartialEq, Eq)]
pub enum Stop<Refusal> {
    /// The line is not in the grammar, or is an event where the run takes none.
    Bad,
    /// The run refuses the line.
    Refused(Refusal),
    /// The sink met a fault.
    Write,
}

/// A run that a stream drives, which says by a `Refusal` why it refuses a line.
///
/// All that it writes, permits and refuses is a function of the kinds of the lines that it took, its
/// course, and of what it keeps. With a refusal of its own a crate can drive another crate's run.
pub trait Driven<Refusal> {
    /// What the run keeps from line to line, as its network is.
    ghost Kept: { Type 0 };

    ghost kept: { Self → Kept };

    /// The course of a run that keeps this.
    ghost course: { Kept → Course Refusal };

    /// Lines of these kinds lead from the start to where the run stands.
    ghost Stands: { Self → List LineKind → Type 0 };

    /// The network whose lines the stream has.
    fn net(&self) -> &Net
        ensures { result.now ≡ (course (kept self.now)).net };

    /// Takes a line, of which `arrivals` are the counts where it has some, and puts what is written
    /// of it. `text` is a buffer for a line, which the run empties.
    fn take_line<Out: Sink>(
        &mut self,
        line: StreamLine,
        arrivals: &[u64],
        text: &mut LineSink,
        small: &SmallNumbers,
        out: &mut Out,
    ) -> Result<(), Stop<Refusal>>
        requires network { IsOnNetwork (course (kept self.old)).net line arrivals.now }
        requires room { HasRoom (Stands self.old) }
        ensures takes { TakesLine (course (kept self.old)) (Stands self.old) (Stands self.new) (kind_for (course (kept self.old)) (kind_read line arrivals.now)) result (Out.held out.old) (Out.held out.new) }
        ensures kept { kept self.new ≡ kept self.old }
        ensures later { Out.faults out.old ≤ Out.faults out.new }
        ensures write { result ≡ Err Stop.Write → Rose (Out.faults out.old) (Out.faults out.new) };

    /// Puts the end line.
    fn finish<Out: Sink>(&self, out: &mut Out) -> Result<(), Failed>
        ensures end { (kinds : List LineKind) → Stands self.now kinds → Tells (Out.held out.old) (Out.held out.new) (Puts result (text_of ((course (kept self.now)).end_line kinds ∷ []))) }
        ensures cause { HasCause (Out.faults out.old) (Out.faults out.new) result };
}
