//! The text of a refusal.
ghost use Rattle.std.specs.Prelude.{◌≤◌};
ghost use Rattle.flat_refusals.specs.Messages.{HoldsTextOf};

use flat_refusals::message::write_message;
use flat_refusals::refusal::FlatRefusal;

/// Writes the text of a refusal to the buffer, cut to its length, with a NUL at its end. Returns the length of the
/// whole text.
///
/// Writes nothing if the buffer is empty. The text is empty if nothing was refused.
#[unsafe(no_mangle)]
pub extern "C" fn nosgrivel_message(refusal: &FlatRefusal, buffer: &mut [u8]) -> usize
    ensures len { result ≤ 256 }
    ensures held { HoldsTextOf result buffer.old buffer.new }
{
    write_message(refusal, buffer)
}
