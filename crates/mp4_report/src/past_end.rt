//! Samples that lie past the end of their file.

ghost use Rattle.std.specs.Prelude.{◌≡◌, ◌+◌, nat_eq, nat_le, All, IfOk, IsSome};
ghost use Rattle.std.specs.HashMap.{get};
ghost use Rattle.mp4_report.specs.Tracks.{AreTrackIds};
ghost use Rattle.mp4_report.specs.PastEnd.{joined, past_end_of, samples_within};

use crate::spans::{Span, Spans};
use mp4_media::{Movie, Mp4Track};
use mp4_readable::{Grouped, Whole};
use serde::Serialize;
use std::alloc::{AllocError, Global};
use std::fmt;
use std::fmt::Write;

/// The samples of a track whose bytes aren't all in the file.
#[derive(Clone, Copy, Debug, PartialEq, Eq, Serialize)]
pub struct PastEnd {
    /// How many they are.
    pub count: Whole,
    /// The number of the first, from 1.
    pub first: u32,
    /// Where that one begins.
    pub place: Whole,
}

/// How many samples of one size, one after the other, lie within a file of so many bytes; 2^64 - 1 where they
/// have no bytes.
#[tactic(auto, unfolding(crate::specs::PastEnd::samples_within))]
fn count_within(place: u64, size: u32, file_size: u64) -> u64
    ensures { result ≡ samples_within place size file_size }
{
    if place > file_size {
        return 0;
    }
    if size == 0 {
        return u64::MAX;
    }
    (file_size - place) / u64::from(size)
}

/// The samples of a span that lie past the end of a file of so many bytes.
#[tactic(auto, unfolding(crate::specs::PastEnd::past_end_of))]
fn past_end_of(span: Span, file_size: u64) -> Option<PastEnd>
    ensures { result ≡ past_end_of span file_size }
{
    let within = count_within(span.first.offset, span.first.size, file_size);
    match u32::try_from(within) {
        Ok(within) if within < span.count => Some(PastEnd {
            count: Whole(u64::from(span.count - within)),
            first: span.number.saturating_add(within),
            place: Whole(span.place_after(within)),
        }),
        _ => None,
    }
}

/// Whether a sample lies within a file of so many bytes.
pub(crate) fn is_in_file(place: u64, size: u32, file_size: u64) -> bool
    ensures { result ≡ nat_le (place + size) file_size }
{
    match place.checked_add(u64::from(size)) {
        Some(end) => end <= file_size,
        None => false,
    }
}

impl PastEnd {
    /// Those that were found so far, and those of a span after them.
    pub(crate) fn with_span(so_far: Option<Self>, span: Span, file_size: u64) -> Option<Self>
        ensures { result ≡ joined so_far (past_end_of span file_size) }
    {
        match (so_far, past_end_of(span, file_size)) {
            (Some(earlier), Some(later)) => Some(PastEnd {
                count: Whole(earlier.count.0.saturating_add(later.count.0)),
                ..earlier
            }),
            (None, later) => later,
            (earlier, None) => earlier,
        }
    }
}

/// The samples of a track that lie past the end of a file of so many bytes, or of which a part does, up to
/// the first that is refused. It looks at each chunk and each run, but at each sample only where the file
/// lists what these have.
pub fn samples_past_end(track: &Mp4Track, file_size: u64) -> Option<PastEnd> {
    let mut spans = Spans::new(track, 1, &[]);
    let mut past_end = None;
    for _ in 0..u32::MAX {
        let Some(Ok(span)) = spans.next_span() else {
            break;
        };
        past_end = PastEnd::with_span(past_end, span, file_size);
    }
    past_end
}

impl fmt::Display for PastEnd {
    /// Writes how many there are, and the first: `3 samples, from sample 12 at byte 1,034`.
    fn fmt<W: fmt::Write>(&self, f: &mut fmt::Formatter<W>) -> fmt::Result {
        let count = Grouped(self.count.0);
        let noun = if self.count.0 == 1 {
            "sample"
        } else {
            "samples"
        };
        let first = Grouped(u64::from(self.first));
        let place = Grouped(self.place.0);
        write!(f, "{count} {noun}, from sample {first} at byte {place}")
    }
}

/// A track with samples that lie past the end of the file.
#[derive(Clone, Copy, Debug, PartialEq, Eq, Serialize)]
pub struct TrackPastEnd {
    /// Its id.
    pub track: u32,
    pub past_end: PastEnd,
}

impl fmt::Display for TrackPastEnd {
    /// Writes `track 1, past the end of the file: 3 samples, from sample 12 at byte 1,034`.
    fn fmt<W: fmt::Write>(&self, f: &mut fmt::Formatter<W>) -> fmt::Result {
        let TrackPastEnd { track, past_end } = self;
        write!(f, "track {track}, past the end of the file: {past_end}")
    }
}

/// The ids of a movie's tracks, rising.
#[tactic(auto, using(crate::proofs::Ids::permuted))]
pub(crate) fn track_ids(alloc: Global, movie: &Movie) -> Result<Vec<u32>, AllocError>
    ensures ids { IfOk result (λ ids. AreTrackIds movie.now.tracks ids.items) }
    ensures found { IfOk result (λ ids. All (λ id. IsSome (get nat_eq movie.now.tracks id)) ids.items) }
{
    let mut ids: Vec<u32> = movie.tracks().keys().copied().collect(alloc)?;
    ids.sort()?;
    Ok(ids)
}

/// The tracks of a movie that have samples past the end of its file, which has so many bytes, by rising id.
pub fn tracks_past_end(
    alloc: Global,
    movie: &Movie,
    file_size: u64,
) -> Result<Vec<TrackPastEnd>, AllocError> {
    let mut tracks = Vec::new(alloc);
    for id in track_ids(alloc, movie)?.iter() {
        if let Some(track) = movie.tracks().get(id)
            && let Some(past_end) = samples_past_end(track, file_size)
        {
            tracks.push(TrackPastEnd {
                track: *id,
                past_end,
            })?;
        }
    }
    Ok(tracks)
}
