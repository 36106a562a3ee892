ghost use Rattle.hencredenza_c.specs.Handed.{Handed};

/// The status of a line that has no room.
pub const NO_ROOM: u32 = 1;

/// Writes a line to the front of the room, if it fits, and answers its code; else the room stays as it is, and the answer is
/// `NO_ROOM`. The length is that of the line, in bytes, in both cases.
pub(crate) fn hand_over(code: u8, line: &[u8], room: &mut [u8], length: &mut usize) -> u32
    ensures { Handed code line.now room.old room.new length.new result }
{
    *length = line.len();
    if line.len() > room.len() {
        return NO_ROOM;
    }
    room[..line.len()].copy_from_slice(line);
    u32::from(code)
}
