//! Texts and digits into a sink.
ghost use Rattle.std.specs.Fmt.{signed_decimal};
ghost use Rattle.mp_edge.specs.Outside.{Tells, Puts, HasCause};

use itoa::Buffer;
use mp_edge::{Failed, Sink};

/// Appends the bytes. `Failed` comes only with a fault of the sink, and then a prefix was appended.
pub fn put_text<K: Sink>(out: &mut K, bytes: &[u8]) -> Result<(), Failed>
    ensures bytes { Tells (K.held out.old) (K.held out.new) (Puts result bytes.now) }
    ensures cause { HasCause (K.faults out.old) (K.faults out.new) result }
{
    out.put(bytes)
}

/// Appends the digits of the number, behind a minus where it is below 0.
/// `Failed` comes only with a fault of the sink, and then a prefix was appended.
pub fn put_number<K: Sink>(out: &mut K, v: i128) -> Result<(), Failed>
    ensures bytes { Tells (K.held out.old) (K.held out.new) (Puts result (signed_decimal v)) }
    ensures cause { HasCause (K.faults out.old) (K.faults out.new) result }
{
    let mut buffer = Buffer::new();
    out.put(buffer.format(v).as_bytes())
}
