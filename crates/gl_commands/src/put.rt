// Puts a text to a sink.
ghost use Rattle.std.specs.Prelude.{◌<◌, ◌≤◌, IsErrOf};
ghost use Rattle.gl_commands.specs.Plays.{Puts};

use crate::PlayFault;
use gl_outside::{Sink, SinkFault};
use gl_value::Text;

/// Puts one text, in one piece.
pub fn put_text<K: Sink>(out: &mut K, text: &Text) -> Result<(), PlayFault>
    ensures puts { Puts result (K.took out.old) (K.took out.new) text.now }
    ensures failed { IsErrOf result PlayFault.WriteFault → K.faults out.old < K.faults out.new }
    ensures later { K.faults out.old ≤ K.faults out.new }
{
    match out.put(text.as_str().as_bytes()) {
        Ok(()) => Ok(()),
        Err(SinkFault::Failed) => Err(PlayFault::WriteFault),
        Err(SinkFault::Memory) => Err(PlayFault::Memory),
    }
}
