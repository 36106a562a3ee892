ghost use Rattle.std.specs.Prelude.{◌≡◌, [], OnOk, OnErr};
ghost use Rattle.device_core.specs.Faults.{CountsFaults};
ghost use Rattle.device_core.specs.Flow.{Adds, AddsFront};

use crate::failed::Failed;
use crate::sink::Sink;

/// Writes a whole text. Each call of the sink is handed all bytes that are still to be written, and there is none for an
/// empty text. It takes no memory.
pub fn write_all<W: Sink>(sink: &mut W, text: &[u8]) -> Result<(), Failed>
    ensures done { OnOk result (Adds (W.written sink.old) (W.written sink.new) text.now) }
    ensures cut { OnErr result (AddsFront (W.written sink.old) (W.written sink.new) text.now) }
    ensures empty { text.now ≡ [] → sink.new ≡ sink.old }
    ensures counted { CountsFaults (W.faults sink.old) (W.faults sink.new) result }
{
    let mut at = 0;
    while at < text.len() {
        at += sink.give(&text[at..])?;
    }
    Ok(())
}
