//! Movies that are rewritten.

ghost use Rattle.std.specs.Prelude.{IfErr, IfOk};
ghost use Rattle.mp4_remux.specs.Front.{IsFront};
ghost use Rattle.mp4_remux.specs.Gathered.{IsGathered};
ghost use Rattle.mp4_c.specs.RemuxedReply.{GaveMade, GaveRefusal, GaveRemuxed, HasChosen};
ghost use Rattle.mp4_c.specs.RemuxedReply.{IsNotChosen, IsNotGathered, IsNotMoved};

use crate::answer::Answer;
use crate::copied::copy_to_front;
use mp4_remux::{RemuxError, choose, gather, move_to_front};
use std::alloc::Global;

/// Copies the bytes of a movie that was rewritten, or why it wasn't.
fn copy_made(made: Result<Vec<u8>, RemuxError>, room: &mut [u8]) -> Answer
    ensures made { IfOk made (λ bytes. GaveMade bytes.items room.old room.new result) }
    ensures refused { IfErr made (λ e. GaveRefusal e room.old room.new result) }
{
    match made {
        Ok(bytes) => copy_to_front(bytes.as_slice(), room),
        Err(error) => Answer::not_remuxed(&error),
    }
}

/// A file with its movie box in front.
fn moved(alloc: Global, file: &[u8]) -> Result<Vec<u8>, RemuxError>
    ensures front { IfOk result (λ bytes. IsFront file.now bytes.items) }
    ensures refused { IfErr result (IsNotMoved file.now) }
{
    let mut bytes = Vec::with_capacity(alloc, file.len())?;
    move_to_front(alloc, file, &mut bytes)?;
    Ok(bytes)
}

/// A file whose fragments are gathered.
fn gathered(alloc: Global, file: &[u8]) -> Result<Vec<u8>, RemuxError>
    ensures gathered { IfOk result (λ bytes. IsGathered file.now bytes.items) }
    ensures refused { IfErr result (IsNotGathered file.now) }
{
    let mut bytes = Vec::with_capacity(alloc, file.len())?;
    gather(alloc, file, &mut bytes)?;
    Ok(bytes)
}

/// A file of the tracks with these ids.
fn chosen(alloc: Global, file: &[u8], track_ids: &[u32]) -> Result<Vec<u8>, RemuxError>
    ensures chosen { IfOk result (λ bytes. HasChosen file.now bytes.items track_ids.now) }
    ensures refused { IfErr result (IsNotChosen file.now track_ids.now) }
{
    let mut bytes = Vec::new(alloc);
    choose(alloc, file, &mut bytes, track_ids)?;
    Ok(bytes)
}

/// Copies a file with its movie box before its data, where there is room for all of it, as [`move_to_front`] writes it.
/// `count` is how many bytes it has, whatever the room, and `filled` is `count`, or 0 where they don't fit.
///
/// Refused as [`move_to_front`] is, but for a source and a sink. The movie is made in memory, whatever the room.
#[unsafe(no_mangle)]
pub extern "C" fn mp4_c_move_to_front(alloc: Global, file: &[u8], room: &mut [u8]) -> Answer
    ensures { GaveRemuxed (IsFront file.now) (IsNotMoved file.now) room.old room.new result }
{
    copy_made(moved(alloc, file), room)
}

/// Copies a file whose samples are in its tables, and none in fragments, where there is room for all of it, as
/// [`gather`] writes it. `count` is how many bytes it has, whatever the room, and `filled` is `count`, or 0 where they
/// don't fit.
///
/// Refused as [`gather`] is, but for a source and a sink. The movie is made in memory, whatever the room.
#[unsafe(no_mangle)]
pub extern "C" fn mp4_c_gather(alloc: Global, file: &[u8], room: &mut [u8]) -> Answer
    ensures { GaveRemuxed (IsGathered file.now) (IsNotGathered file.now) room.old room.new result }
{
    copy_made(gathered(alloc, file), room)
}

/// Copies a file of the tracks with these ids, where there is room for all of it, as [`choose`] writes it. `count` is
/// how many bytes it has, whatever the room, and `filled` is `count`, or 0 where they don't fit.
///
/// Refused as [`choose`] is, but for a source and a sink. The movie is made in memory, whatever the room.
#[unsafe(no_mangle)]
pub extern "C" fn mp4_c_choose(
    alloc: Global,
    file: &[u8],
    track_ids: &[u32],
    room: &mut [u8],
) -> Answer
    ensures { GaveRemuxed (λ bytes. HasChosen file.now bytes track_ids.now) (IsNotChosen file.now track_ids.now)
        room.old room.new result }
{
    copy_made(chosen(alloc, file, track_ids), room)
}
