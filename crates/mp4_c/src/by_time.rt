//! The samples of a track by the time at which they are decoded.

ghost use Rattle.std.specs.Prelude.{◌≡◌};
ghost use Rattle.mp4_c.specs.ByTime.{GaveSampleAt, GaveSyncSample, number_reply};
ghost use Rattle.mp4_c.specs.Replies.{Gave, OnFile, OnTrack};

use crate::answer::Answer;
use crate::opened_file::opened;
use mp4_media::Mp4Reader;
use std::alloc::Global;

/// Answers a number that was found; 0 where there is none.
fn found(answer: Option<u32>, number: &mut u32) -> Answer
    ensures { Gave (number_reply answer) number.new result }
{
    match answer {
        Some(k) => {
            *number = k;
            Answer::done(1, 1)
        }
        None => {
            *number = 0;
            Answer::done(0, 0)
        }
    }
}

/// The last sample of a track that is decoded at or before a time.
fn find_sample_at(movie: &Mp4Reader, track_id: u32, time: u64, number: &mut u32) -> Answer
    ensures { OnTrack track_id (GaveSampleAt time) movie.now number.old number.new result }
{
    match movie.track(track_id) {
        Ok(track) => found(track.sample_at(time), number),
        Err(error) => Answer::refused(&error),
    }
}

/// The number of the last sample of a track that is decoded at or before a time in ticks of the track; 0 where there is
/// none. After a refusal the number is as it was.
///
/// `TrakNotFound` where there is no such track.
#[unsafe(no_mangle)]
pub extern "C" fn mp4_c_sample_at(
    alloc: Global,
    file: &[u8],
    track_id: u32,
    time: u64,
    number: &mut u32,
) -> Answer
    ensures { OnFile file.now (OnTrack track_id (GaveSampleAt time)) number.old number.new result }
{
    match opened(alloc, file) {
        Ok(movie) => find_sample_at(&movie, track_id, time, number),
        Err(error) => Answer::refused(&error),
    }
}

/// The last sync sample of a track up to a number.
fn find_sync_sample(movie: &Mp4Reader, track_id: u32, k: u32, number: &mut u32) -> Answer
    ensures { OnTrack track_id (GaveSyncSample k) movie.now number.old number.new result }
{
    match movie.track(track_id) {
        Ok(track) => found(track.sync_sample_at_or_before(k), number),
        Err(error) => Answer::refused(&error),
    }
}

/// The number of the last sync sample of a track up to sample `k`; 0 where there is none. After a refusal the number is
/// as it was.
///
/// `TrakNotFound` where there is no such track.
#[unsafe(no_mangle)]
pub extern "C" fn mp4_c_sync_sample_at_or_before(
    alloc: Global,
    file: &[u8],
    track_id: u32,
    k: u32,
    number: &mut u32,
) -> Answer
    ensures { OnFile file.now (OnTrack track_id (GaveSyncSample k)) number.old number.new result }
{
    match opened(alloc, file) {
        Ok(movie) => find_sync_sample(&movie, track_id, k, number),
        Err(error) => Answer::refused(&error),
    }
}
