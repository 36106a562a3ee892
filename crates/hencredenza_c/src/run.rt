ghost use Rattle.std.specs.Prelude.{◌≡◌, ◌⊎◌, Some};
ghost use Rattle.answer_core.specs.Run.{IsFed};
ghost use Rattle.hencredenza_c.specs.Ran.{Ran, asked_for};

use crate::hand_over::hand_over;
use answer_core::{Command, Status, line_for};
use device_core::SliceSource;
use std::alloc::Global;

/// What `answer_core::run` does, over a source that is the request and a sink that is the room: carries out the command that the
/// words are, and writes what it sends, or the line of the refusal. No call of either fails.
///
/// The result is the status's code, or 1 where the room is smaller than the line. The length is that of the line.
#[unsafe(no_mangle)]
pub extern "C" fn hencredenza_run(
    alloc: Global,
    words: &[u8],
    request: &[u8],
    room: &mut [u8],
    length: &mut usize,
) -> u32
    // Each status has its cause, and the line is handed over whole or not at all.
    ensures ran { Ran (asked_for words.now) request.now room.old room.new length.new result }

    // A command that has all it asks for is carried out, or there is no room for its line, or memory ran out.
    ensures complete { IsFed (asked_for words.now) (Some request.now)
        → (result ≡ 0) ⊎ (result ≡ 1) ⊎ (result ≡ 8) }
{
    let mut source = SliceSource::new(request);
    match line_for(alloc, command_in(words), &mut source) {
        Ok(line) => hand_over(Status::Done.code(), line.as_slice(), room, length),
        Err(refusal) => hand_over(
            refusal.status().code(),
            refusal.line().as_bytes(),
            room,
            length,
        ),
    }
}

/// The command that words are, between each two of which a space stands.
fn command_in(words: &[u8]) -> Option<Command>
    ensures { result ≡ asked_for words.now }
{
    match str::from_utf8(words) {
        Ok(text) => Command::from_text(text),
        Err(_) => None,
    }
}
