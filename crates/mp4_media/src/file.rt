//! Files of any size: opened by a few reads, and their samples read where they lie.

ghost use Rattle.std.specs.Prelude.{◌≡◌, ◌↔◌, ◌+◌, ◌≤◌, ◌<◌, ℕ, List, Some, option_map, vec_len, vec_capacity};
ghost use Rattle.std.specs.Prelude.{IfOk, IfErr, IfSome, IsTrue, OnOk};
ghost use Rattle.std.proofs.Props.{props};
ghost use Rattle.mp4_codec.specs.Cause.{Gives, cause_of};
ghost use Rattle.mp4_codec.specs.Cursor.{here};
ghost use Rattle.mp4_lookup.specs.declared.track.Mp4Track.{Mp4Track};
ghost use Rattle.mp4_lookup.specs.Tracks.{is_of_movie};
ghost use Rattle.mp4_samples.specs.Places.{place_of};
ghost use Rattle.mp4_samples.specs.Plain.{Consistent};
ghost use Rattle.mp4_samples.specs.Samples.{plain_sample_at, read_in, timed_sample};
ghost use Rattle.mp4_samples.specs.Tables.{tables_of};
ghost use Rattle.mp4_source.specs.Answers.{AnswersRead, IsLength};
ghost use Rattle.mp4_source.specs.Source.{IsNotEmpty};
ghost use Rattle.mp4_source.specs.declared.file_error.FileError.TheVariants.{Mp4};
ghost use Rattle.mp4_media.specs.FileBoxes.{opened_movie};
ghost use Rattle.mp4_media.specs.FileGrammar.{IsFaultyFile};
ghost use Rattle.mp4_media.specs.MovieTracks.{AreTracks, at_id};
ghost use Rattle.mp4_media.specs.Opening.{IsOpeningOf};
ghost use Rattle.mp4_media.specs.Reading.{AnswersPlaced, AnswersSample, IsPlacedPast};
ghost use Rattle.mp4_media.specs.Reading.{placed_in, sample_in, sample_there, sample_with, within};
ghost use Rattle.mp4_media.specs.Walk.{opened_at};

use crate::movie::{Movie, open_source};
use bytes::Bytes;
use mp4_codec::{BoxType, Error, HEADER_SIZE, Result};
use mp4_samples::{Mp4Sample, Place, SamplePlace};
use mp4_source::{ByteSource, FileError, SourceCursor, Window, read_into};
use std::alloc::Global;
use std::ops::Deref;

/// A movie that was opened from a source, as a file on a disk is: only its headers and the boxes that describe it are
/// read, and the bytes of a sample when it is asked for.
///
/// All that a [`Movie`] has is asked of a file too: the public fields `ftyp`, `moov`, `moofs` and `emsgs`, and the
/// accessors.
#[derive(Drop)]
pub struct Mp4File<S: ByteSource> {
    source: S,
    /// How many bytes the source had when it was opened.
    len: u64,
    movie: Movie,
    ghost measured: { IsLength (S.contents source) len } by { Prim.hlevel props },
}

impl<S: ByteSource> Deref for Mp4File<S> {
    type Target = Movie;

    ghost deref_gives = { λ f m. m ≡ f.movie };

    fn deref(&self) -> &Movie
        ensures { result.now ≡ self.now.movie }
    {
        &self.movie
    }
}

/// Whether a part lies whole within so many bytes.
fn is_within(offset: u64, size: u32, len: u64) -> bool
    ensures { IsTrue result ↔ (offset + size ≤ len) }
{
    offset <= len && u64::from(size) <= len - offset
}

/// Whether a file that begins at `start` and ends at `size` has room for the header of a box: `BoxNotFound` for the
/// file type where it has no bytes, `EndOfData` where it has 1 to 7.
fn check_first_box(start: u64, size: u64) -> Result<()>
    ensures room { OnOk result (start + 8 ≤ size) }
    ensures fault { IfErr result (λ e. (bytes : List ℕ) → IsFaultyFile size (here bytes start) (cause_of e)) }
    ensures memory { IfErr result (λ e. e ≡ Error.OutOfMemory → ⊥) }
{
    if start >= size {
        return Err(Error::BoxNotFound(BoxType::FtypBox));
    }
    if size - start < HEADER_SIZE {
        return Err(Error::EndOfData);
    }
    Ok(())
}

/// Opens a file, for `open`: the answer is that of the walk over its boxes, and then of the ids of its tracks. What the
/// grammar of files says of it follows there.
fn open_file<S: ByteSource + Drop>(
    alloc: Global,
    source: S,
    start: u64,
    size: u64,
) -> std::result::Result<Mp4File<S>, FileError>
    ensures answer { IfSome (S.contents source) (λ bytes. AnswersRead (S.can_refuse source)
        (λ f. opened_movie f.movie) result (opened_at size (here bytes start))) }
    ensures memory { IfErr result (λ e. e ≡ Mp4 Error.OutOfMemory
        → IsNotEmpty (S.contents source) × (start + 8 ≤ size)) }
    ensures tracks { IfOk result (λ f. AreTracks f.movie.moov f.movie.moofs f.movie.moof_places f.movie.tracks) }
    ensures contents { IfOk result (λ f. S.contents f.source ≡ S.contents source) }
    ensures can_refuse { IfOk result (λ f. S.can_refuse f.source ≡ S.can_refuse source) }
{
    check_first_box(start, size)?;
    let window = Window::new(alloc, source)?;
    let reader = SourceCursor::new(alloc, window, start)?;
    let (movie, window, len) = open_source(alloc, reader, size)?;
    Ok(Mp4File {
        source: window.into_inner(),
        len,
        movie,
    })
}

impl<S: ByteSource + Drop> Mp4File<S> {
    /// Opens the file that begins at the place `start` of a source and ends at its place `size`, both counted from the
    /// source's first byte, as [`crate::Mp4Reader::read_header`] does of its bytes, with the same errors: for a whole
    /// file they are 0 and its length. The bytes of ftyp, moov, moof and emsg are read, and the headers of all other
    /// boxes. They are read through a window, which takes at most 32 KiB while the file is opened, and none where fewer
    /// than 8 bytes are between the two places: then memory never runs out.
    ///
    /// `Io` where the source refuses a read. After an error the source is gone: pass `&mut` to keep it.
    pub fn open(
        alloc: Global,
        source: S,
        start: u64,
        size: u64,
    ) -> std::result::Result<Self, FileError>
        ensures answer { IfSome (S.contents source) (λ bytes. AnswersRead (S.can_refuse source)
            (λ f. opened_movie f.movie) result (opened_at size (here bytes start))) }
        ensures opening { IfSome (S.contents source) (λ bytes. IsOpeningOf (S.can_refuse source)
            (λ f. opened_movie f.movie) size (here bytes start) result) }
        ensures memory { IfErr result (λ e. e ≡ Mp4 Error.OutOfMemory
            → IsNotEmpty (S.contents source) × (start + 8 ≤ size)) }
        ensures tracks { IfOk result (λ f. AreTracks f.movie.moov f.movie.moofs f.movie.moof_places f.movie.tracks) }
        ensures contents { IfOk result (λ f. S.contents f.source ≡ S.contents source) }
        ensures can_refuse { IfOk result (λ f. S.can_refuse f.source ≡ S.can_refuse source) }
    {
        open_file(alloc, source, start, size)
    }

    /// The source; the movie is given up.
    pub fn into_inner(self) -> S
        ensures { result ≡ self.source }
    {
        let Mp4File {
            source,
            len: _,
            movie,
        } = self;
        drop(movie);
        source
    }

    /// The source and the movie.
    pub fn into_parts(self) -> (S, Movie)
        ensures { result ≡ (self.source, self.movie) }
    {
        let Mp4File {
            source,
            len: _,
            movie,
        } = self;
        (source, movie)
    }

    /// How many bytes the source had when the file was opened.
    pub fn source_len(&self) -> u64
        ensures len { result ≡ self.now.len }
        ensures value { IsLength (S.contents self.now.source) result }
    {
        self.len
    }

    /// Where sample `k` of the track with this id lies; `EndOfData` where that isn't whole within the source.
    fn place_of_sample(&self, track_id: u32, k: u32) -> Result<Option<SamplePlace>>
        ensures { Gives (λ p. option_map place_of p) result
            (placed_in self.now.len self.now.movie.tracks track_id k) }
    {
        let Some(place) = self.movie.place(track_id, k)? else {
            return Ok(None);
        };
        if !is_within(place.offset, place.size, self.len) {
            return Err(Error::EndOfData);
        }
        Ok(Some(place))
    }

    /// Sample `k` of the track with this id, its bytes read into the buffer, over what it held; samples are numbered
    /// from 1. The buffer grows where it has no room for the sample, and holds any bytes where there is no such sample.
    /// The answer is where the sample lies, and when it is decoded and shown, in ticks of the track's timescale.
    ///
    /// Refused as [`crate::Mp4Reader::read_sample`], with the same errors, all of which but `OutOfMemory` are found
    /// before a byte of the sample is read. Where memory runs out, there is such a sample, of more bytes than the
    /// buffer has room for. `Io` where the source refuses to read it. A refused call leaves the movie as it is.
    pub fn read_sample_into(
        &mut self,
        track_id: u32,
        k: u32,
        buffer: &mut Vec<u8>,
    ) -> std::result::Result<Option<SamplePlace>, FileError>
        ensures place { AnswersPlaced (λ p. option_map place_of p) result
            (placed_in self.old.len self.old.movie.tracks track_id k) }
        ensures size { IfOk result (λ p. IfSome p (λ p. vec_len buffer.new ≡ p.size)) }
        ensures answer { IfSome (S.contents self.old.source) (λ bytes. AnswersRead (S.can_refuse self.old.source)
            (λ p. option_map (sample_there buffer.new.items) p) result
            (sample_in bytes self.old.movie.tracks track_id k)) }
        ensures plain { (t : Mp4Track) → at_id self.old.movie.tracks track_id ≡ Some t
            → IsTrue (is_of_movie t.trak t.trafs k) → Consistent (tables_of t.trak)
            → IfSome (S.contents self.old.source) (λ bytes. AnswersRead (S.can_refuse self.old.source)
            (λ p. option_map (sample_there buffer.new.items) p) result (plain_sample_at bytes (tables_of t.trak) k)) }
        ensures memory { IfErr result (λ e. e ≡ Mp4 Error.OutOfMemory
            → IsPlacedPast (vec_capacity buffer.old) (placed_in self.old.len self.old.movie.tracks track_id k)) }
        ensures len { self.new.len ≡ self.old.len }
        ensures movie { self.new.movie ≡ self.old.movie }
        ensures contents { S.contents self.new.source ≡ S.contents self.old.source }
        ensures can_refuse { S.can_refuse self.new.source ≡ S.can_refuse self.old.source }
    {
        let Some(place) = self.place_of_sample(track_id, k)? else {
            return Ok(None);
        };
        read_into(&mut self.source, place.offset, place.size as usize, buffer)?;
        Ok(Some(place))
    }

    /// The bytes of a sample whose place is known, as those of a track's [`samples`](mp4_lookup::Mp4Track::samples)
    /// are, read into the buffer, over what it held. The buffer grows where it has no room for them, and holds any
    /// bytes after an error. No table is looked at.
    ///
    /// `EndOfData` where they don't lie whole within the source, and `OutOfMemory` only where they do and the buffer
    /// has no room for them. `Io` where the source refuses to read them.
    pub fn read_place_into(
        &mut self,
        place: Place,
        buffer: &mut Vec<u8>,
    ) -> std::result::Result<(), FileError>
        ensures within { OnOk result (place.offset + place.size ≤ self.old.len) }
        ensures place { AnswersPlaced (λ _. Some place) result (within self.old.len (Some place)) }
        ensures size { OnOk result (vec_len buffer.new ≡ place.size) }
        ensures answer { IfSome (S.contents self.old.source) (λ bytes. AnswersRead (S.can_refuse self.old.source)
            (λ _. Some (sample_with buffer.new.items place)) result (read_in bytes (Some place))) }
        ensures memory { IfErr result (λ e. e ≡ Mp4 Error.OutOfMemory
            → (place.offset + place.size ≤ self.old.len) × (vec_capacity buffer.old < place.size)) }
        ensures len { self.new.len ≡ self.old.len }
        ensures movie { self.new.movie ≡ self.old.movie }
        ensures contents { S.contents self.new.source ≡ S.contents self.old.source }
        ensures can_refuse { S.can_refuse self.new.source ≡ S.can_refuse self.old.source }
    {
        if !is_within(place.offset, place.size, self.len) {
            return Err(FileError::from(Error::EndOfData));
        }
        read_into(&mut self.source, place.offset, place.size as usize, buffer)?;
        Ok(())
    }

    /// Sample `k` of the track with this id, with its bytes, which alone are read; samples are numbered from 1. Times
    /// are in ticks of the track's timescale.
    ///
    /// Refused as [`Mp4File::read_sample_into`].
    pub fn read_sample(
        &mut self,
        track_id: u32,
        k: u32,
    ) -> std::result::Result<Option<Mp4Sample>, FileError>
        ensures place { AnswersSample result (placed_in self.old.len self.old.movie.tracks track_id k) }
        ensures answer { IfSome (S.contents self.old.source) (λ bytes. AnswersRead (S.can_refuse self.old.source)
            (λ s. option_map timed_sample s) result (sample_in bytes self.old.movie.tracks track_id k)) }
        ensures plain { (t : Mp4Track) → at_id self.old.movie.tracks track_id ≡ Some t
            → IsTrue (is_of_movie t.trak t.trafs k) → Consistent (tables_of t.trak)
            → IfSome (S.contents self.old.source) (λ bytes. AnswersRead (S.can_refuse self.old.source)
            (λ s. option_map timed_sample s) result (plain_sample_at bytes (tables_of t.trak) k)) }
        ensures memory { IfErr result (λ e. e ≡ Mp4 Error.OutOfMemory
            → IsPlacedPast 0 (placed_in self.old.len self.old.movie.tracks track_id k)) }
        ensures len { self.new.len ≡ self.old.len }
        ensures movie { self.new.movie ≡ self.old.movie }
        ensures contents { S.contents self.new.source ≡ S.contents self.old.source }
        ensures can_refuse { S.can_refuse self.new.source ≡ S.can_refuse self.old.source }
    {
        let mut bytes = Vec::new(self.movie.moofs.allocator());
        let Some(place) = self.read_sample_into(track_id, k, &mut bytes)? else {
            return Ok(None);
        };
        Ok(Some(Mp4Sample {
            start_time: place.start_time,
            duration: place.duration,
            rendering_offset: place.rendering_offset,
            is_sync: place.is_sync,
            bytes: Bytes::from_vec(bytes)?,
        }))
    }
}
