//! A movie as its calls make it: a plain model of a writer, which knows nothing of the writer and
//! of the library's boxes. It is compared with the writer, and not proved.

use crate::calls::{Beginning, Call, Media, Sample, Track};
use crate::plain_bytes::{begin_box, end_box, put};
use crate::plain_tracks::{PlainTrack, movie_ticks, put_movie_header, put_track, ticks};
use mp4_codec::{Error, Limit};
use std::alloc::{AllocError, Global};

/// A movie that was begun.
pub struct PlainMovie<'a> {
    alloc: Global,
    timescale: u32,
    /// The place of mdat.
    mdat: usize,
    /// The bytes as they are.
    pub bytes: Vec<u8>,
    pub tracks: Vec<PlainTrack<'a>>,
    pub has_ended: bool,
}

/// By hand, so that a function that owns a movie takes it apart by a call, and not in place where each `?` ends it:
/// that is far cheaper to prove.
impl<'a> Drop for PlainMovie<'a> {
    fn drop(self) {
        let PlainMovie {
            alloc: _,
            timescale: _,
            mdat: _,
            bytes: _,
            tracks: _,
            has_ended: _,
        } = self;
    }
}

/// Whether a language has three characters of five bits.
fn is_language(language: &str) -> bool {
    let mut all = true;
    for byte in language.as_bytes() {
        all = all && 0x60 <= *byte && *byte <= 0x7f;
    }
    all && language.len() == 3
}

/// Whether an entry of media can be encoded.
fn has_entry(media: &Media) -> bool {
    match media {
        Media::Avc(_, sequence, picture_set) => {
            4 <= sequence.len() && sequence.len() <= 65535 && picture_set.len() <= 65535
        }
        Media::Aac(sound) => 1 <= sound.profile && sound.profile <= 30,
        _ => true,
    }
}

/// Why a track is refused in a movie that hasn't ended.
fn track_refusal(track: &Track) -> Option<Error> {
    if track.timescale == 0 {
        return Some(Error::ZeroTimescale);
    }
    if !is_language(track.language) || !has_entry(&track.media) {
        return Some(Error::Unrepresentable(""));
    }
    None
}

fn put_file_type(bytes: &mut Vec<u8>, beginning: &Beginning) -> Result<(), AllocError> {
    let start = begin_box(bytes, b"ftyp")?;
    put(bytes, beginning.major_brand)?;
    put(bytes, beginning.minor_version)?;
    for brand in beginning.compatible_brands {
        put(bytes, *brand)?;
    }
    end_box(bytes, start);
    Ok(())
}

/// Puts the samples that no chunk has yet at the end of the bytes, as a chunk.
fn close(bytes: &mut Vec<u8>, track: &mut PlainTrack) -> Result<(), AllocError> {
    let place = u32::try_from(bytes.len()).unwrap_or(0);
    let all = track.samples.len();
    for sample in track.samples.get(track.closed..).unwrap_or(&[]) {
        bytes.extend_from_slice(sample.bytes)?;
    }
    track.chunks.push(place)?;
    let count = u32::try_from(all.saturating_sub(track.closed)).unwrap_or(0);
    track.counts.push(count)?;
    track.closed = all;
    Ok(())
}

/// Whether the samples that no chunk has yet last a second and have a byte.
fn is_full(track: &PlainTrack) -> bool {
    let pending = track.samples.get(track.closed..).unwrap_or(&[]);
    let mut has_byte = false;
    for sample in pending {
        has_byte = has_byte || !sample.bytes.is_empty();
    }
    has_byte && ticks(pending) >= u64::from(track.track.timescale)
}

/// Adds a sample. Whether it was accepted, which it isn't where the track gets too long.
fn add<'a>(
    bytes: &mut Vec<u8>,
    movie_timescale: u32,
    track: &mut PlainTrack<'a>,
    sample: Sample<'a>,
) -> Result<bool, AllocError> {
    track.samples.push(sample)?;
    if movie_ticks(&track.samples, track.track.timescale, movie_timescale).is_none() {
        let _ = track.samples.pop();
        return Ok(false);
    }
    if is_full(track) {
        close(bytes, track)?;
    }
    Ok(true)
}

/// How long a track is in ticks of the movie.
fn duration_of(track: &PlainTrack, movie_timescale: u32) -> u64 {
    movie_ticks(&track.samples, track.track.timescale, movie_timescale).unwrap_or(0)
}

fn longest(tracks: &[PlainTrack], movie_timescale: u32) -> u64 {
    let mut longest = 0u64;
    for track in tracks {
        longest = longest.max(duration_of(track, movie_timescale));
    }
    longest
}

fn put_tracks(
    alloc: Global,
    bytes: &mut Vec<u8>,
    tracks: &[PlainTrack],
    movie_timescale: u32,
) -> Result<(), AllocError> {
    let mut id = 0u32;
    for track in tracks {
        id = id.wrapping_add(1);
        put_track(alloc, bytes, track, id, duration_of(track, movie_timescale))?;
    }
    Ok(())
}

fn put_movie(
    alloc: Global,
    bytes: &mut Vec<u8>,
    tracks: &[PlainTrack],
    timescale: u32,
) -> Result<(), AllocError> {
    let start = begin_box(bytes, b"moov")?;
    put_movie_header(bytes, timescale, longest(tracks, timescale))?;
    put_tracks(alloc, bytes, tracks, timescale)?;
    end_box(bytes, start);
    Ok(())
}

impl<'a> PlainMovie<'a> {
    /// A movie after the bytes of a buffer.
    pub fn begin(alloc: Global, buffer: &[u8], beginning: &Beginning) -> Result<Self, AllocError> {
        let mut bytes = buffer.to_vec(alloc)?;
        put_file_type(&mut bytes, beginning)?;
        let mdat = bytes.len();
        bytes.extend_from_slice(b"\0\0\0\x08mdat\0\0\0\x08wide")?;
        Ok(PlainMovie {
            alloc,
            timescale: beginning.timescale,
            mdat,
            bytes,
            tracks: Vec::new(alloc),
            has_ended: false,
        })
    }

    fn add_track(&mut self, track: Track<'a>) -> Result<Option<Error>, AllocError> {
        if let Some(refusal) = track_refusal(&track) {
            return Ok(Some(refusal));
        }
        self.tracks.push(PlainTrack {
            track,
            samples: Vec::new(self.alloc),
            chunks: Vec::new(self.alloc),
            counts: Vec::new(self.alloc),
            closed: 0,
        })?;
        Ok(None)
    }

    fn write_sample(&mut self, id: u32, sample: Sample<'a>) -> Result<Option<Error>, AllocError> {
        let index = (id as usize).wrapping_sub(1);
        let Some(track) = self.tracks.get_mut(index) else {
            return Ok(Some(Error::TrakNotFound(id)));
        };
        if add(&mut self.bytes, self.timescale, track, sample)? {
            return Ok(None);
        }
        Ok(Some(Error::TooLarge(Limit::TrackDuration)))
    }

    fn close_all(&mut self) -> Result<(), AllocError> {
        for track in self.tracks.iter_mut() {
            if track.closed < track.samples.len() {
                close(&mut self.bytes, track)?;
            }
        }
        Ok(())
    }

    fn write_end(&mut self) -> Result<Option<Error>, AllocError> {
        self.close_all()?;
        end_box(&mut self.bytes, self.mdat);
        put_movie(self.alloc, &mut self.bytes, &self.tracks, self.timescale)?;
        self.has_ended = true;
        Ok(None)
    }

    /// Makes a call. The answer is what a writer has to refuse it with, the texts of refusals left
    /// out.
    pub fn make(&mut self, call: &Call<'a>) -> Result<Option<Error>, AllocError> {
        if self.has_ended {
            return Ok(Some(Error::Ended));
        }
        match call {
            Call::AddTrack(track) => self.add_track(*track),
            Call::WriteSample(id, sample) => self.write_sample(*id, *sample),
            Call::WriteEnd => self.write_end(),
        }
    }
}
