//! Opened movies whose bytes are in memory, and their samples.

ghost use Rattle.std.specs.Prelude.{◌≡◌, length, Some, option_map, IfOk, IfErr, IfSome, IsTrue};
ghost use Rattle.mp4_codec.specs.Cause.{Gives, Answers};
ghost use Rattle.mp4_codec.specs.Cursor.{here};
ghost use Rattle.mp4_lookup.specs.declared.track.Mp4Track.{Mp4Track};
ghost use Rattle.mp4_samples.specs.Plain.{Consistent};
ghost use Rattle.mp4_samples.specs.Samples.{borrowed_sample, plain_sample_at, read_in, timed_sample};
ghost use Rattle.mp4_samples.specs.Tables.{tables_of};
ghost use Rattle.mp4_lookup.specs.Tracks.{is_of_movie};
ghost use Rattle.mp4_source.specs.Answers.{OnMp4};
ghost use Rattle.mp4_media.specs.FileBoxes.{opened_file, opened_movie};
ghost use Rattle.mp4_media.specs.FileGrammar.{MayTakeMemory};
ghost use Rattle.mp4_media.specs.MovieTracks.{AreTracks, at_id};
ghost use Rattle.mp4_media.specs.InOrder.{refs_left, samples_in};
ghost use Rattle.mp4_media.specs.Opening.{IsOpening, IsOpeningBy};
ghost use Rattle.mp4_media.specs.Reading.{IsSample, LiesAt, located_in, sample_in};
ghost use Rattle.mp4_media.specs.Walk.{opened_at};

use crate::movie::{Movie, open_source};
use crate::sample_refs::SampleRefs;
use bytes::Bytes;
use mp4_codec::{ByteCursor, Error, Result};
use mp4_samples::{Mp4Sample, Place, SampleRef};
use mp4_source::{FileError, SourceCursor};
use std::alloc::Global;
use std::ops::Deref;

/// A movie that was opened, and the bytes that it was read from, in memory. [`crate::Mp4File`] reads those of a file.
///
/// All that a [`Movie`] has is asked of a reader too: the public fields `ftyp`, `moov`, `moofs` and `emsgs`, and the
/// accessors.
#[derive(Debug, Drop)]
pub struct Mp4Reader<'a> {
    bytes: &'a [u8],
    movie: Movie,
}

impl<'a> Deref for Mp4Reader<'a> {
    type Target = Movie;

    ghost deref_gives = { λ r m. m ≡ r.movie };

    fn deref(&self) -> &Movie
        ensures { result.now ≡ self.now.movie }
    {
        &self.movie
    }
}

/// The sample that lies at a place of these bytes; `EndOfData` where it isn't whole there.
#[inline(always)]
pub(crate) fn borrowed_at(bytes: &[u8], place: Place) -> Result<SampleRef<'_>>
    ensures rule { Gives (λ s. Some (borrowed_sample s)) result (read_in bytes.now (Some place)) }
    ensures offset { IfOk result (λ s. s.offset ≡ place.offset) }
{
    let mut cursor = ByteCursor::new(bytes);
    cursor.set_position(place.offset);
    let bytes = cursor.take(u64::from(place.size))?;
    Ok(SampleRef {
        offset: place.offset,
        start_time: place.start_time,
        duration: place.duration,
        rendering_offset: place.rendering_offset,
        is_sync: place.is_sync,
        bytes,
    })
}

/// What a slice of bytes is refused for, which refuses no read.
fn refused_by_bytes(error: FileError) -> Error
    ensures { OnMp4 error (λ e. result ≡ e) }
{
    match error {
        FileError::Mp4(error) => error,
        // It never comes: a slice is read without one.
        FileError::Io(_refused) => Error::EndOfData,
    }
}

/// Opens the file of `size` bytes that begins at this place of the bytes.
fn open_bytes(alloc: Global, bytes: &[u8], start: u64, size: u64) -> Result<Movie>
    ensures answer { Answers opened_movie result (opened_at size (here bytes.now start)) }
    ensures memory { IfErr result (λ e. e ≡ Error.OutOfMemory → MayTakeMemory size (here bytes.now start)) }
    ensures tracks { IfOk result (λ m. AreTracks m.moov m.moofs m.moof_places m.tracks) }
{
    let reader = match SourceCursor::new(alloc, bytes, start) {
        Ok(reader) => reader,
        Err(error) => return Err(refused_by_bytes(error)),
    };
    match open_source(alloc, reader, size) {
        Ok((movie, _bytes, _len)) => Ok(movie),
        Err(error) => Err(refused_by_bytes(error)),
    }
}

/// Opens a file, for `read_header`: the answer is that of the walk over its boxes, and then of the ids of its tracks.
/// What the grammar of files says of it follows there.
fn open<'a>(alloc: Global, reader: ByteCursor<'a>, size: u64) -> Result<Mp4Reader<'a>>
    ensures answer { Answers opened_file result (opened_at size reader.entry) }
    ensures memory { IfErr result (λ e. e ≡ Error.OutOfMemory → MayTakeMemory size reader.entry) }
    ensures bytes { IfOk result (λ r. r.bytes.now ≡ reader.entry.bytes) }
    ensures tracks { IfOk result (λ r. AreTracks r.movie.moov r.movie.moofs r.movie.moof_places r.movie.tracks) }
{
    let bytes = reader.bytes();
    let movie = open_bytes(alloc, bytes, reader.position(), size)?;
    Ok(Mp4Reader { bytes, movie })
}

impl<'a> Mp4Reader<'a> {
    /// Opens the file that begins at the cursor and has `size` bytes, counted from the first byte that the cursor
    /// goes over (ISO/IEC 14496-12, 4.2 and 6.2).
    ///
    /// While the position is below `size`, a box is there. ftyp, moov, moof and emsg are read and have to be
    /// within the bytes; all others are skipped to their end, which may lie past the bytes. A size of 0
    /// ends the file. The first fault in file order is the answer:
    ///
    /// - `EndOfData` where fewer than 8 bytes are left before `size`, a header is cut, or a box that is read
    ///   passes the bytes;
    /// - `InvalidData` for a size below its header, a size past `size`, an end past 64 bits, or a box that is read
    ///   without a meaning;
    /// - whatever else refuses a box that is read.
    ///
    /// Memory is requested first for a box that is read and is whole within the bytes: what is refused before one is
    /// never `OutOfMemory` in its place.
    ///
    /// Then `BoxNotFound` for a missing ftyp, and for a missing moov; `InvalidData` where a track of the last moov has
    /// the id 0; and `TrakNotFound` for the first fragment in file order whose track the last moov doesn't have.
    ///
    /// Of tracks with equal ids the last is opened. The fragments of a track are its trafs in file order (8.8.6). Their
    /// runs are placed by one pass over all fragments, and then one over those of each track; no sample is written out.
    pub fn read_header(alloc: Global, reader: ByteCursor<'a>, size: u64) -> Result<Self>
        ensures opening { IsOpeningBy (λ movie. movie) size reader.entry result }
        ensures memory { IfErr result (λ e. e ≡ Error.OutOfMemory → MayTakeMemory size reader.entry) }
    {
        open(alloc, reader, size)
    }

    /// Sample `k` of the track with this id, its bytes copied; samples are numbered from 1. Times are in ticks of the
    /// track's timescale.
    ///
    /// `TrakNotFound` where there is no such track; else what [`Mp4Track::locate`] answers, `Ok(None)` among it; then
    /// `EndOfData` where the sample doesn't lie whole in the bytes. Where memory runs out, there is such a sample.
    pub fn read_sample(&mut self, track_id: u32, k: u32) -> Result<Option<Mp4Sample>>
        ensures rule { Answers (λ s. option_map timed_sample s) result
            (sample_in self.old.bytes.now self.old.movie.tracks track_id k) }
        ensures plain { (t : Mp4Track) → at_id self.old.movie.tracks track_id ≡ Some t
            → IsTrue (is_of_movie t.trak t.trafs k) → Consistent (tables_of t.trak)
            → Answers (λ s. option_map timed_sample s) result
            (plain_sample_at self.old.bytes.now (tables_of t.trak) k) }
        ensures memory { IfErr result (λ e. e ≡ Error.OutOfMemory
            → IsSample (sample_in self.old.bytes.now self.old.movie.tracks track_id k)) }
        ensures same { self.new ≡ self.old }
    {
        let Some(sample) = self.read_sample_ref(track_id, k)? else {
            return Ok(None);
        };
        let bytes = Bytes::copy_from_slice(self.movie.moofs.allocator(), sample.bytes)?;
        Ok(Some(Mp4Sample {
            start_time: sample.start_time,
            duration: sample.duration,
            rendering_offset: sample.rendering_offset,
            is_sync: sample.is_sync,
            bytes,
        }))
    }

    /// Sample `k` of the track with this id, its bytes borrowed from those that were opened, so that it may be kept
    /// when the reader is gone. It takes no memory; all else is as in [`Mp4Reader::read_sample`].
    #[inline(always)]
    pub fn read_sample_ref(&self, track_id: u32, k: u32) -> Result<Option<SampleRef<'a>>>
        ensures rule { Gives (λ s. option_map borrowed_sample s) result
            (sample_in self.now.bytes.now self.now.movie.tracks track_id k) }
        ensures offset { IfOk result (λ s. IfSome s (λ s.
            LiesAt (located_in self.now.movie.tracks track_id k) s.offset)) }
        ensures plain { (t : Mp4Track) → at_id self.now.movie.tracks track_id ≡ Some t
            → IsTrue (is_of_movie t.trak t.trafs k) → Consistent (tables_of t.trak)
            → Gives (λ s. option_map borrowed_sample s) result
            (plain_sample_at self.now.bytes.now (tables_of t.trak) k) }
    {
        self.borrowed(track_id, k)
    }

    /// The answer of `read_sample_ref`, whose clause `plain` follows from this one.
    #[inline(always)]
    #[tactic(auto, unfolding(crate::specs::Reading::sample_in, crate::specs::Reading::located_in, mp4_lookup::specs::Tracks::sample_at))]
    fn borrowed(&self, track_id: u32, k: u32) -> Result<Option<SampleRef<'a>>>
        ensures rule { Gives (λ s. option_map borrowed_sample s) result
            (sample_in self.now.bytes.now self.now.movie.tracks track_id k) }
        ensures offset { IfOk result (λ s. IfSome s (λ s.
            LiesAt (located_in self.now.movie.tracks track_id k) s.offset)) }
    {
        let Some(place) = self.movie.track(track_id)?.locate_by_guess(k)? else {
            return Ok(None);
        };
        Ok(Some(borrowed_at(self.bytes, place.place())?))
    }

    /// The samples of the track with this id in their order, from the first on, with their bytes: each is what
    /// [`Mp4Reader::read_sample_ref`] answers at its number, and mostly costs no search. It ends after the last, and
    /// after the first that is refused.
    ///
    /// `TrakNotFound` where there is no such track.
    #[tactic(auto, unfolding(crate::specs::InOrder::samples_in))]
    pub fn samples(&self, track_id: u32) -> Result<SampleRefs<'a, '_>>
        ensures { Gives refs_left result (samples_in self.now.bytes.now self.now.movie.tracks track_id) }
    {
        Ok(SampleRefs {
            bytes: self.bytes,
            samples: self.movie.track(track_id)?.samples(),
            has_ended: false,
        })
    }
}

/// Opens the file of these bytes, from the first to the last, as [`Mp4Reader::read_header`] does.
pub fn read_mp4(alloc: Global, bytes: &[u8]) -> Result<Mp4Reader<'_>>
    ensures opening { IsOpening bytes.now result }
    ensures memory { IfErr result (λ e. e ≡ Error.OutOfMemory → MayTakeMemory (length bytes.now) (here bytes.now 0)) }
{
    Mp4Reader::read_header(alloc, ByteCursor::new(bytes), bytes.len() as u64)
}
