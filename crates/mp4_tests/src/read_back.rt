//! Whether the movie of a file has the tracks of the plain model's, and of each the samples that were accepted.

use crate::queries::{lends, offset_of, reads};
use mp4_codec::{Error, Result};
use mp4_entry::MediaType;
use mp4_lookup::Mp4Track;
use mp4_media::{Mp4Reader, read_mp4};
use mp4_plain_movies::calls::{Media, Sample};
use mp4_plain_movies::plain_movie::PlainMovie;
use mp4_plain_movies::plain_tracks::{PlainTrack, ticks};
use mp4_samples::SampleRef;
use std::alloc::Global;
use std::process::Abort;

fn media_type_of(media: &Media) -> MediaType {
    match media {
        Media::Avc(_, _, _) => MediaType::H264,
        Media::Hevc(_) => MediaType::H265,
        Media::Vp9(_) => MediaType::VP9,
        Media::Aac(_) => MediaType::AAC,
        Media::Text => MediaType::TTXT,
    }
}

/// Whether a track is described as it was added.
fn is_described(track: &Mp4Track, added: &PlainTrack) -> bool {
    track.timescale() == added.track.timescale
        && track.language() == added.track.language
        && track.track_type() == Ok(added.track.track_type)
        && track.media_type() == Ok(media_type_of(&added.track.media))
}

/// Whether a track of an id is described as it was added, and has as many samples.
fn is_there(reader: &Mp4Reader, id: u32, added: &PlainTrack) -> bool {
    let count = u32::try_from(added.samples.len()).unwrap_or(u32::MAX);
    match reader.tracks().get(&id) {
        None => false,
        Some(track) => is_described(track, added) && reader.sample_count(id) == Ok(count),
    }
}

/// What is read of a number of a track of these samples, which lies there.
fn sample_at<'a>(samples: &[Sample<'a>], k: u32, offset: u64) -> Result<Option<SampleRef<'a>>> {
    if k == 0 || samples.is_empty() {
        return Err(Error::InvalidData(""));
    }
    let index = (k as usize).wrapping_sub(1);
    let Some(sample) = samples.get(index) else {
        return Ok(None);
    };
    Ok(Some(SampleRef {
        offset,
        start_time: ticks(samples.get(..index).unwrap_or(&[])),
        duration: sample.duration,
        rendering_offset: sample.rendering_offset,
        is_sync: sample.is_sync,
        bytes: sample.bytes,
    }))
}

/// Whether each number of a track of these samples is read, from 0 to the one after the last.
fn samples_are_read(reader: &mut Mp4Reader, id: u32, samples: &[Sample]) -> bool {
    let count = u32::try_from(samples.len()).unwrap_or(0);
    let mut all = true;
    for k in 0..=count.saturating_add(1) {
        let offset = offset_of(reader, id, k);
        all = all && reads(reader, id, k, &sample_at(samples, k, offset));
    }
    all
}

/// Whether there is no track of an id.
fn is_unknown(reader: &Mp4Reader, id: u32) -> bool {
    lends(reader, id, 1, &Err(Error::TrakNotFound(id)))
        && reader.sample_count(id) == Err(Error::TrakNotFound(id))
}

/// Whether each track is read that was added, and no other.
pub fn tracks_are_read(reader: &mut Mp4Reader, tracks: &[PlainTrack]) -> bool {
    let mut all = is_unknown(reader, 0);
    let mut id = 0u32;
    for track in tracks {
        id = id.wrapping_add(1);
        all = all && is_there(reader, id, track) && samples_are_read(reader, id, &track.samples);
    }
    all && is_unknown(reader, id.wrapping_add(1))
}

/// Whether the movie of these bytes has the tracks of the model's.
pub fn is_read_back(rt: &impl Abort, alloc: Global, bytes: &[u8], movie: &PlainMovie) -> bool {
    let mut reader = read_mp4(alloc, bytes).expect(rt, "the movie opens");
    tracks_are_read(&mut reader, &movie.tracks)
}
