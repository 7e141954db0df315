//! What the samples of a track are together, by a plain walk over all of them.

use mp4_media::{Mp4Track, Place};
use mp4_readable::Whole;
use mp4_report::{PastEnd, SampleSummary};

/// Counts a sync sample that is decoded at this time.
fn add_sync(summary: &mut SampleSummary, time: u64) {
    if summary.sync == 0 {
        summary.first_sync = time;
    } else {
        let gap = time.saturating_sub(summary.last_sync);
        summary.longest = summary.longest.max(gap);
    }
    summary.last_sync = time;
    summary.sync = summary.sync.saturating_add(1);
}

/// Counts a sample that lies past the end of the file.
fn add_past_end(summary: &mut SampleSummary, number: u32, place: Place) {
    let so_far = summary.past_end.unwrap_or(PastEnd {
        count: Whole(0),
        first: number,
        place: Whole(place.offset),
    });
    summary.past_end = Some(PastEnd {
        count: Whole(so_far.count.0.saturating_add(1)),
        ..so_far
    });
}

/// Whether a sample ends past so many bytes.
fn ends_past(place: Place, file_size: u64) -> bool {
    match place.offset.checked_add(u64::from(place.size)) {
        Some(end) => end > file_size,
        None => true,
    }
}

/// Counts a sample of a file of so many bytes.
fn add(summary: &mut SampleSummary, number: u32, place: Place, file_size: u64) {
    summary.count = summary.count.saturating_add(1);
    summary.bytes = summary.bytes.saturating_add(u64::from(place.size));
    if place.is_sync {
        add_sync(summary, place.start_time);
    }
    if ends_past(place, file_size) {
        add_past_end(summary, number, place);
    }
}

/// What the samples of a track are together, up to the first that is refused.
pub fn walked_summary(track: &Mp4Track, file_size: u64) -> SampleSummary {
    let mut summary = SampleSummary::default();
    let mut number = 0u32;
    for place in track.samples() {
        number = number.saturating_add(1);
        match place {
            Ok(place) => add(&mut summary, number, place, file_size),
            Err(_) => break,
        }
    }
    summary
}
