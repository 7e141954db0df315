//! Movies that are written to a sink.

ghost use Rattle.std.specs.Prelude.{◌≡◌, ◌<◌, ◌^◌, ℕ, List, length, true, false, Some, None, IsTrue, IfSome};
ghost use Rattle.std.specs.Prelude.{OnOk, OnErr, IfOk, IfErr};
ghost use Rattle.std.specs.Prelude.{IsErrAnd};
ghost use Rattle.mp4_codec.specs.Cause.{Checks};
ghost use Rattle.mp4_mux.specs.Writing.{WriterState, started, with_track, with_sample, with_end, start_cause};
ghost use Rattle.mp4_mux.specs.Writing.{track_cause, sample_cause, end_cause, lent_sample};
ghost use Rattle.mp4_mux.specs.Written.{IsWrittenMovie};
ghost use Rattle.mp4_media.specs.Finished.{Opens};
ghost use Rattle.mp4_media.specs.WriterAnswers.{AnswersWrite, IsFailed, LeavesWriter};
ghost use Rattle.mp4_media.specs.WriterFields.{MayHold};

use crate::write_error::WriteError;
use mp4_codec::{Error, InRange, Limit, TryClone};
use mp4_mux::{Media, Mp4Config, TrackConfig, begin, check_file_type, check_movie};
use mp4_samples::SampleRef;
use mp4_source::{ByteSink, SinkError};
use std::alloc::Global;
use std::marker::Model;

/// Writes a movie of any size to a sink, after the bytes that it has: the file type, the data, and the movie box after
/// it. What goes to the sink stays there: in memory are, of each track, what its tables will say and the samples that
/// wait, until they last a second and have a byte.
///
/// Of each sample the tables say four values: its size, its duration, its rendering offset, and whether it is a sync
/// sample. Each kind is a list of its own, which takes 8 bytes for each run of equal neighbours as long as the runs are
/// at most 64 or half as many as the samples; from then on each further value takes 4 bytes, or 1 where it says of a
/// sync sample. So a sample takes nothing where it is as the one before it, 4 bytes where its size is another, 8 where
/// its rendering offset is another too, and at most 16; a chunk takes 24. The spare room of the lists, which grow by
/// doubling, isn't counted in this. `write_end` requests the bytes of the tables besides.
///
/// Where a call has a cause for its refusal, exactly that cause is the answer, found before memory is requested and
/// before a byte goes to the sink; else it is Ok, or `OutOfMemory`, or `Io` where the sink refuses. `OutOfMemory` and
/// named causes leave the writer and its sink as they were. After `Io` it isn't known what the sink has, so each
/// later call answers `Failed`; `into_inner` gives the sink back. A movie whose `write_end` wasn't Ok has no movie
/// box, and no reader opens it.
///
/// After the same Ok calls it has, in a sink of known bytes, exactly the bytes that an [`crate::Mp4Writer`] has.
#[derive(Debug, Drop)]
pub struct Mp4FileWriter<S: ByteSink> {
    /// How many bytes the sink had when it was handed in.
    front: u64,
    /// The place of mdat.
    mdat: u64,
    config: Mp4Config,
    media: Media<S>,
    ended: bool,
    /// Whether the sink has refused a call.
    failed: bool,
}

impl<S: ByteSink> Model for Mp4FileWriter<S> {
    ghost use Rattle.mp4_media.specs.WriterFields.{KeptMovie, IsKeptMovie};

    ghost Value = { KeptMovie };

    ghost view = { λ w. record {
      front = w.front;
      mdat = w.mdat;
      config = w.config;
      media = w.media;
      ended = w.ended;
      failed = w.failed;
    } };

    ghost invariant = { λ w. IsKeptMovie (record {
      front = w.front;
      mdat = w.mdat;
      config = w.config;
      media = w.media;
      ended = w.ended;
      failed = w.failed;
    }) };
}

impl<S: ByteSink + Drop> Mp4FileWriter<S> {
    /// Begins a movie after the bytes of a sink: the file type, and the header of mdat (ISO/IEC 14496-12, 4.3 and
    /// 8.1.1).
    ///
    /// `TooLarge(BoxSize)` where the file type passes 2^32 - 1 bytes. After an error the sink is gone: pass `&mut` to
    /// keep it.
    pub fn write_start(alloc: Global, sink: S, config: &Mp4Config) -> Result<Self, WriteError>
        ensures cause { AnswersWrite (IsTrue (S.can_refuse sink)) (start_cause config.now) result }
        ensures ok { IfOk result (λ w. (front : List ℕ) → S.len sink ≡ length front
            → IfSome (S.contents sink) (λ bytes. bytes ≡ front) → MayHold w (started front config.now)) }
        ensures can_refuse { IfOk result (λ w. w.media.can_refuse ≡ S.can_refuse sink) }
    {
        check_file_type(config)?;
        let config = config.try_clone()?;
        Self::start_with(alloc, sink, config)
    }

    /// Begins a movie whose file type was checked. Refused by `OutOfMemory` and by the sink alone.
    fn start_with(alloc: Global, mut sink: S, config: Mp4Config) -> Result<Self, WriteError>
        requires { start_cause config ≡ None }
        ensures cause { AnswersWrite (IsTrue (S.can_refuse sink)) None result }
        ensures ok { IfOk result (λ w. (front : List ℕ) → S.len sink ≡ length front
            → IfSome (S.contents sink) (λ bytes. bytes ≡ front) → MayHold w (started front config)) }
        ensures can_refuse { IfOk result (λ w. w.media.can_refuse ≡ S.can_refuse sink) }
    {
        config.in_range();
        let front = sink.len();
        let mut beginning = Vec::new(alloc);
        let header = begin(&mut beginning, &config)?;
        sink.append(&beginning)?;
        let mdat = sink.len() - (beginning.len() - header) as u64;
        Ok(Mp4FileWriter {
            front,
            mdat,
            config,
            media: Media::new(alloc, sink),
            ended: false,
            failed: false,
        })
    }
}

impl<S: ByteSink> Mp4FileWriter<S> {
    /// Whether the sink has refused no call.
    fn check_sink(&self) -> Result<(), WriteError>
        ensures ok { OnOk result (self.now.failed ≡ false) }
        ensures err { IfErr result IsFailed }
        ensures failed { OnErr result (self.now.failed ≡ true) }
    {
        if self.failed {
            return Err(WriteError::Failed);
        }
        Ok(())
    }

    /// Whether a track can be added.
    fn check_track(&self, config: &TrackConfig) -> mp4_codec::Result<()>
        ensures { (st : WriterState) → MayHold self.now st → Checks result (track_cause st config.now) }
    {
        if self.ended {
            return Err(Error::Ended);
        }
        config.check()?;
        if self.media.tracks().len() >= u32::MAX as usize {
            return Err(Error::TooLarge(Limit::TrackCount));
        }
        Ok(())
    }

    /// Adds a track without samples (ISO/IEC 14496-12, 8.3.1). The first has id 1, and each next one the id after
    /// the one before.
    ///
    /// `Failed` after an `Io`; `Ended` after an end that was Ok; then what `TrackConfig::check` refuses:
    /// `ZeroTimescale`, `Unrepresentable`; then `TooLarge(TrackCount)` where there are 2^32 - 1 tracks.
    pub fn add_track(&mut self, config: &TrackConfig) -> Result<(), WriteError>
        ensures failed { self.old.failed ≡ true → IsErrAnd result IsFailed }
        ensures cause { (st : WriterState) → MayHold self.old st → AnswersWrite ⊥ (track_cause st config.now) result }
        ensures ok { OnOk result ((st : WriterState) → MayHold self.old st
            → MayHold self.new (with_track st config.now)) }
        ensures err { IfErr result (λ e. LeavesWriter e self.old self.new) }
        ensures can_refuse { self.new.media.can_refuse ≡ self.old.media.can_refuse }
    {
        self.check_sink()?;
        self.check_track(config)?;
        config.in_range();
        self.media.add_track(self.config.timescale, config)?;
        Ok(())
    }

    /// Whether a sample can be written.
    fn check_sample(&self, id: u32, sample: &SampleRef) -> mp4_codec::Result<()>
        ensures { (st : WriterState) → MayHold self.now st
            → Checks result (sample_cause st id (lent_sample sample.now)) }
    {
        if self.ended {
            return Err(Error::Ended);
        }
        let tracks = self.media.tracks();
        if id == 0 || id as usize > tracks.len() {
            return Err(Error::TrakNotFound(id));
        }
        tracks[id as usize - 1].check_sample(sample)
    }

    /// Writes a sample of a track after those that were written of it, whose bytes are borrowed; its `start_time`,
    /// which follows from the durations (ISO/IEC 14496-12, 8.6.1.2), and its `offset` aren't looked at.
    ///
    /// Samples wait until they last a second at least and have a byte; then they are added to the data as a chunk
    /// (8.7.4).
    ///
    /// `Failed` after an `Io`; `Ended` after an end that was Ok; then `TrakNotFound(id)` for an id that no track has;
    /// then `TooLarge(SampleBytes)` past 2^32 - 1 bytes, `TooLarge(SampleCount)` where the track has 2^32 - 1 samples,
    /// and `TooLarge(TrackDuration)` where its durations, each converted to ticks of the movie and rounded down, have a
    /// sum past 64 bits.
    pub fn write_sample(&mut self, id: u32, sample: &SampleRef) -> Result<(), WriteError>
        ensures failed { self.old.failed ≡ true → IsErrAnd result IsFailed }
        ensures cause { (st : WriterState) → MayHold self.old st
            → AnswersWrite (IsTrue self.old.media.can_refuse) (sample_cause st id (lent_sample sample.now)) result }
        ensures ok { OnOk result ((st : WriterState) → MayHold self.old st
            → MayHold self.new (with_sample st id (lent_sample sample.now))) }
        ensures err { IfErr result (λ e. LeavesWriter e self.old self.new) }
        ensures can_refuse { self.new.media.can_refuse ≡ self.old.media.can_refuse }
    {
        self.check_sink()?;
        self.check_sample(id, sample)?;
        sample.duration.in_range();
        sample.rendering_offset.in_range();
        if let Err(error) = self.media.add_sample(id - 1, sample) {
            self.failed = matches!(error, SinkError::Io(_));
            return Err(WriteError::from(error));
        }
        Ok(())
    }

    /// Whether the end can be written.
    fn check_end(&self) -> mp4_codec::Result<()>
        requires { self.now.failed ≡ false }
        ensures { (st : WriterState) → MayHold self.now st → Checks result (end_cause st) }
    {
        if self.ended {
            return Err(Error::Ended);
        }
        check_movie(self.config.timescale, self.media.tracks(), self.media.len())
    }

    /// Ends the movie and hands on all bytes that wait, where the end can be written, for `write_end`, whose other
    /// clauses follow from these.
    fn end(&mut self) -> Result<(), WriteError>
        ensures failed { self.old.failed ≡ true → IsErrAnd result IsFailed }
        ensures cause { (st : WriterState) → MayHold self.old st
            → AnswersWrite (self.old.media.len < 2 ^ 63 → IsTrue self.old.media.can_refuse) (end_cause st) result }
        ensures ok { OnOk result ((st : WriterState) → MayHold self.old st → MayHold self.new (with_end st)) }
        ensures err { IfErr result (λ e. LeavesWriter e self.old self.new) }
        ensures waiting { OnOk result (self.new.media.waiting ≡ 0) }
        ensures can_refuse { self.new.media.can_refuse ≡ self.old.media.can_refuse }
    {
        self.check_sink()?;
        self.check_end()?;
        if let Err(error) = self.media.add_end(self.mdat, self.config.timescale) {
            self.failed = matches!(error, SinkError::Io(_));
            return Err(WriteError::from(error));
        }
        self.ended = true;
        if let Err(refused) = self.media.flush() {
            self.failed = true;
            return Err(WriteError::Io(refused));
        }
        Ok(())
    }

    /// Ends the movie: what waits of each track is added to the data as its last chunk, in the order of the tracks; the
    /// header of mdat says how many bytes it has; and the movie box follows (ISO/IEC 14496-12, 8.1.1 and 8.2.1). All
    /// bytes that wait in the sink are handed on then.
    ///
    /// The tables of each track that has samples describe exactly the samples that were written of it, in order, each
    /// starting at the sum of the durations before it (8.6.1.2); and each byte of the data is of one sample.
    ///
    /// `Failed` after an `Io`; `Ended` after an end that was Ok, then `TooLarge(BoxSize)` where the movie box passes
    /// 2^32 - 1 bytes. `Io` of the kind `FileTooLarge` where the data would pass the sink's byte 2^64 - 1.
    pub fn write_end(&mut self) -> Result<(), WriteError>
        ensures failed { self.old.failed ≡ true → IsErrAnd result IsFailed }
        ensures cause { (st : WriterState) → MayHold self.old st
            → AnswersWrite (self.old.media.len < 2 ^ 63 → IsTrue self.old.media.can_refuse) (end_cause st) result }
        ensures ok { OnOk result ((st : WriterState) → MayHold self.old st → MayHold self.new (with_end st)) }
        ensures err { IfErr result (λ e. LeavesWriter e self.old self.new) }
        ensures waiting { OnOk result (self.new.media.waiting ≡ 0) }
        ensures opens { OnOk result ((st : WriterState) → MayHold self.old st → Opens (with_end st)) }
        ensures written { OnOk result ((st : WriterState) → MayHold self.old st → IsWrittenMovie (with_end st)) }
        ensures can_refuse { self.new.media.can_refuse ≡ self.old.media.can_refuse }
    {
        let answer = self.end();
        // For the proof alone, which learns that 64 bits say each place.
        let _ = self.media.len();
        answer
    }

    /// Where the writer takes its memory from.
    pub(crate) fn allocator(&self) -> Global {
        self.media.allocator()
    }

    /// The sink as it is, with the bytes that wait in it.
    pub fn into_inner(self) -> S
        ensures contents { S.contents result ≡ self.media.contents }
        ensures len { S.len result ≡ self.media.len }
        ensures waiting { S.waiting result ≡ self.media.waiting }
        ensures can_refuse { S.can_refuse result ≡ self.media.can_refuse }
    {
        let Mp4FileWriter {
            front: _,
            mdat: _,
            config: _,
            media,
            ended: _,
            failed: _,
        } = self;
        media.into_inner()
    }
}

impl Mp4FileWriter<Vec<u8>> {
    /// Its bytes.
    pub(crate) fn bytes(&self) -> &[u8]
        ensures bytes { self.now.media.contents ≡ Some result.now }
        ensures small { self.now.media.len < 2 ^ 63 }
        ensures sure { self.now.media.can_refuse ≡ false }
    {
        self.media.bytes()
    }
}
