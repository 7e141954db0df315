//! Bytes that are copied where they fit.

ghost use Rattle.std.specs.Prelude.{◌≡◌};
ghost use Rattle.mp4_c.specs.Rooms.{copied, with_front};

use crate::answer::Answer;

/// Copies bytes to the front of a room, where they fit; else the room is as it was. `count` is how many there are,
/// whatever the room.
pub fn copy_to_front(bytes: &[u8], room: &mut [u8]) -> Answer
    ensures answer { result ≡ copied bytes.now room.old }
    ensures room { room.new ≡ with_front bytes.now room.old }
{
    let count = bytes.len();
    if count > room.len() {
        return Answer::done(count as u64, 0);
    }
    room[..count].copy_from_slice(bytes);
    Answer::done(count as u64, count as u64)
}
