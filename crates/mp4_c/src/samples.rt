//! Where the samples of a track lie, and when they are decoded and shown.

ghost use Rattle.std.specs.Prelude.{◌≡◌, length};
ghost use Rattle.mp4_lookup.specs.InOrder.{samples_left};
ghost use Rattle.mp4_c.specs.Replies.{OnFile, OnTrack};
ghost use Rattle.mp4_c.specs.Rooms.{over};
ghost use Rattle.mp4_c.specs.Samples.{GaveSamples, end_of, refusal_in, row_of, rows_of, walk_answer};

use crate::answer::Answer;
use crate::opened_file::opened;
use mp4_media::{Mp4Reader, Mp4Track, Place, Result, Samples};
use std::alloc::Global;

/// A sample: where its bytes lie, when it is decoded and shown. Times are in ticks of its track.
#[repr(C)]
#[derive(Clone, Copy, Debug, PartialEq, Eq)]
pub struct SampleRow {
    /// Where its first byte is: in the file, or in the data of a writing.
    pub offset: u64,
    /// When it is decoded; a writing doesn't look at it.
    pub start_time: u64,
    /// The id of its track.
    pub track_id: u32,
    /// How many bytes it has.
    pub size: u32,
    /// How long it lasts.
    pub duration: u32,
    /// How much later than it is decoded it is shown.
    pub rendering_offset: i32,
    /// 1 where decoding can begin at it, else 0. A writing takes each number but 0 as 1.
    pub is_sync: u8,
    /// Zeros; a writing doesn't look at them.
    pub reserved: [u8; 7],
}

/// The size that the header says.
const _: () = prove!(size_of::<SampleRow>() == 40);

/// What was filled in of a walk over samples.
#[derive(Drop)]
struct Filled {
    /// How many samples were filled in.
    count: u64,
    /// Why the next one was refused, if it was.
    end: Result<()>,
}

/// The row of a sample that lies there.
fn row_of(track_id: u32, place: Place) -> SampleRow
    ensures { result ≡ row_of track_id place }
{
    SampleRow {
        offset: place.offset,
        start_time: place.start_time,
        track_id,
        size: place.size,
        duration: place.duration,
        rendering_offset: place.rendering_offset,
        is_sync: u8::from(place.is_sync),
        reserved: [0; 7],
    }
}

/// Fills in the samples of a walk, one after the other, until there is no room, no sample or one that is refused.
fn fill_rows(track_id: u32, samples: Samples, rows: &mut [SampleRow]) -> Filled
    ensures rows { rows.new ≡ over (rows_of track_id (length rows.old) (samples_left samples.entry)) rows.old }
    ensures count { result.count ≡ length (rows_of track_id (length rows.old) (samples_left samples.entry)) }
    ensures end { end_of result.end ≡ refusal_in (length rows.old) (samples_left samples.entry) }
{
    let mut samples = samples;
    for (k, row) in rows.iter_mut().enumerate() {
        match samples.next() {
            None => {
                return Filled {
                    count: k as u64,
                    end: Ok(()),
                };
            }
            Some(Err(error)) => {
                return Filled {
                    count: k as u64,
                    end: Err(error),
                };
            }
            Some(Ok(place)) => *row = row_of(track_id, place),
        }
    }
    Filled {
        count: rows.len() as u64,
        end: Ok(()),
    }
}

/// The answer of a call that filled in so many of the samples of a track.
fn answer_of(count: u32, filled: Filled) -> Answer
    ensures { result ≡ walk_answer count filled.count (end_of filled.end) }
{
    match filled.end {
        Ok(()) => Answer::done(u64::from(count), filled.count),
        Err(error) => Answer {
            count: u64::from(count),
            filled: filled.count,
            ..Answer::refused(&error)
        },
    }
}

/// Fills in the samples of a track from number `first` on.
fn list_samples(track_id: u32, track: &Mp4Track, first: u32, rows: &mut [SampleRow]) -> Answer
    ensures { GaveSamples track_id first track.now rows.old rows.new result }
{
    match track.sample_count() {
        Ok(count) => answer_of(count, fill_rows(track_id, track.samples_from(first), rows)),
        Err(error) => Answer::refused(&error),
    }
}

/// Fills in the samples of the track with this id from number `first` on.
fn list_samples_of(movie: &Mp4Reader, track_id: u32, first: u32, rows: &mut [SampleRow]) -> Answer
    ensures { OnTrack track_id (GaveSamples track_id first) movie.now rows.old rows.new result }
{
    match movie.track(track_id) {
        Ok(track) => list_samples(track_id, track, first, rows),
        Err(error) => Answer::refused(&error),
    }
}

/// Fills in the samples of a track from number `first` on, as far as there are samples and room; samples are numbered
/// from 1. `count` is how many samples the track has. After a refusal, `filled` says how many samples before it were
/// filled in.
///
/// `TrakNotFound` where there is no such track, then the refusal of [`Mp4Track::sample_count`], then that of the first
/// sample that [`Mp4Track::locate`] refuses.
#[unsafe(no_mangle)]
pub extern "C" fn mp4_c_samples(
    alloc: Global,
    file: &[u8],
    track_id: u32,
    first: u32,
    rows: &mut [SampleRow],
) -> Answer
    ensures { OnFile file.now (OnTrack track_id (GaveSamples track_id first)) rows.old rows.new result }
{
    match opened(alloc, file) {
        Ok(movie) => list_samples_of(&movie, track_id, first, rows),
        Err(error) => Answer::refused(&error),
    }
}
