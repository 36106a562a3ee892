ghost use Rattle.std.specs.Prelude.{◌≡◌, ◌⊎◌, None};
ghost use Rattle.answer_core.specs.Command.{command_in};
ghost use Rattle.answer_core.specs.Run.{IsSent, Ended, IsFed, IsFaultless, TakesNoInput, trace};

use crate::command::Command;
use crate::reading::line_for;
use crate::status::Status;
use device_core::{Sink, Source, write_all};
use std::alloc::Global;

/// All that the program does with its words, the ones behind its name. It carries out the command that they are, and writes
/// what the command sends to the sink; else it writes the line of the refusal.
pub fn run<S: Source, W: Sink>(
    alloc: Global,
    words: &[String],
    source: &mut S,
    sink: &mut W,
) -> Status
    // Each status has its cause, and says what was written.
    ensures ended { Ended (command_in words.now)
        (trace (S.unread source.old) (S.unread source.new) (S.faults source.old) (S.faults source.new))
        (trace (W.written sink.old) (W.written sink.new) (W.faults sink.old) (W.faults sink.new)) result }

    // Words that are no command are told so.
    ensures other_words { command_in words.now ≡ None → (result ≡ Status.Usage) ⊎ (result ≡ Status.WriteFault) }

    // For these, and for a command that takes no input, nothing is read.
    ensures untouched { TakesNoInput (command_in words.now) → source.new ≡ source.old }

    // A count of faults that rose shows in the status.
    ensures source_count { (S.faults source.new ≡ S.faults source.old)
        ⊎ ((result ≡ Status.ReadFault) ⊎ (result ≡ Status.WriteFault)) }
    ensures sink_count { (W.faults sink.new ≡ W.faults sink.old) ⊎ (result ≡ Status.WriteFault) }

    // With no fault, a command that has all it asks for is carried out, or memory ran out.
    ensures complete { IsFed (command_in words.now) (S.unread source.old)
        → IsFaultless (S.faults source.old) (S.faults source.new)
        → IsFaultless (W.faults sink.old) (W.faults sink.new)
        → (result ≡ Status.Done) ⊎ (result ≡ Status.Memory) }
{
    match line_for(alloc, Command::from_words(words), source) {
        Ok(line) => send(sink, line.as_slice(), Status::Done),
        Err(refusal) => send(sink, refusal.line().as_bytes(), refusal.status()),
    }
}

/// The status, or `WriteFault` where the text was not written whole.
fn send<W: Sink>(sink: &mut W, text: &[u8], status: Status) -> Status
    ensures { IsSent (trace (W.written sink.old) (W.written sink.new) (W.faults sink.old) (W.faults sink.new))
        text.now status result }
{
    match write_all(sink, text) {
        Ok(()) => status,
        Err(_) => Status::WriteFault,
    }
}
