//! A track that is being written.

ghost use Rattle.std.specs.Prelude.{ℕ, min, None, Ok, IfOk, ◌≡◌, ◌++◌, [], ◌∷◌, ◌+◌, ◌-◌, ◌*◌, ◌/◌, ◌^◌, ◌<◌, ◌↔◌};
ghost use Rattle.std.specs.Prelude.{length, IsTrue, OnOk, OnErr, IfErr};
ghost use Rattle.std.specs.Option.{option_to_list};
ghost use Rattle.mp4_codec.specs.Cause.{Answers, Checks};
ghost use Rattle.mp4_boxes.specs.Trak.{trak_payload};
ghost use Rattle.mp4_mux.specs.Config.{config_cause};
ghost use Rattle.mp4_mux.specs.TrackHeaders.{movie_duration, durations_of};
ghost use Rattle.mp4_mux.specs.FinishedTrack.{trak_for};
ghost use Rattle.mp4_mux.specs.TrackParts.{finished};
ghost use Rattle.mp4_mux.specs.Chunks.{sample_bytes, is_full};
ghost use Rattle.mp4_mux.specs.Media.{SinkFails};
ghost use Rattle.mp4_mux.specs.Writing.{info_of, lent_sample};
ghost use Rattle.mp4_source.specs.Sink.{IsAppended, IsCountKept};
ghost use Rattle.mp4_mux.specs.Building.{Building, new_building, pushed, popped, pending_place, closed, ticks};
ghost use Rattle.mp4_mux.specs.Building.{room_cause};
ghost use Rattle.mp4_mux.specs.Parts.{last_place, track_with, finished_building};
ghost use Rattle.mp4_mux.specs.TrackFields.{track_view, IsTrackWriter};

use crate::chunk_place::{ChunkPlace, ChunkRef};
use crate::config::TrackConfig;
use crate::durations::Durations;
use crate::sample_info::SampleInfo;
use crate::sample_infos::SampleInfos;
use crate::trak::{TrackParts, trak_box, trak_size};
use mp4_boxes::TrakBox;
use mp4_codec::{Error, InRange, Limit};
use mp4_samples::SampleRef;
use mp4_source::{ByteSink, SinkError};
use std::alloc::{AllocError, Global};
use std::marker::Model;

/// A track that is being written: what its tables say of its samples, its chunks, and the samples that no chunk has
/// yet.
#[derive(Debug, Drop)]
pub struct TrackWriter {
    config: TrackConfig,
    /// Ticks in a second, of the movie.
    movie_timescale: u32,
    samples: SampleInfos,
    chunks: Vec<ChunkPlace>,
    /// The bytes of the samples that no chunk has yet.
    pending: Vec<u8>,
    /// How long these samples last, in ticks of the track.
    pending_duration: u64,
    durations: Durations,
    /// How long the sample that was pushed last is: the next one mostly is as long, and isn't converted again.
    last: Durations,
    /// How many samples are in chunks.
    closed: u32,
}

impl Model for TrackWriter {
    ghost Value = { Building };

    ghost view = { track_view };

    ghost invariant = { IsTrackWriter };
}

/// What the tables say of a sample.
fn info_of(sample: &SampleRef) -> SampleInfo
    requires { length sample.now.bytes.now < 2 ^ 32 }
    ensures { result ≡ info_of (lent_sample sample.now) }
{
    SampleInfo {
        size: sample.bytes.len() as u32,
        duration: sample.duration,
        rendering_offset: sample.rendering_offset,
        is_sync: sample.is_sync,
    }
}

impl TrackWriter {
    /// A track without samples, in a movie of this timescale, in ticks a second.
    pub fn new(alloc: Global, movie_timescale: u32, config: TrackConfig) -> Self
        requires { config_cause config ≡ None }
        ensures { result ≡ new_building movie_timescale config }
    {
        TrackWriter {
            config,
            movie_timescale,
            samples: SampleInfos::new(alloc),
            chunks: Vec::new(alloc),
            pending: Vec::new(alloc),
            pending_duration: 0,
            durations: Durations { media: 0, movie: 0 },
            last: Durations { media: 0, movie: 0 },
            closed: 0,
        }
    }
}

/// A duration in ticks of the movie, rounded down.
fn movie_ticks(duration: u32, movie_timescale: u32, timescale: u32) -> u64
    requires { 0 < timescale }
    ensures { result ≡ duration * movie_timescale / timescale }
{
    duration as u64 * movie_timescale as u64 / timescale as u64
}

/// How long a sample of this duration is, given how long another one is, which is mostly the same.
#[inline(always)]
fn sample_durations(
    last: Durations,
    duration: u32,
    movie_timescale: u32,
    timescale: u32,
) -> Durations
    requires clock { 0 < timescale }
    requires last { last.movie ≡ last.media * movie_timescale / timescale }
    ensures media { result.media ≡ duration }
    ensures movie { result.movie ≡ duration * movie_timescale / timescale }
{
    if last.media == duration as u64 {
        return last;
    }
    Durations {
        media: duration as u64,
        movie: movie_ticks(duration, movie_timescale, timescale),
    }
}

impl TrackWriter {
    /// Whether it has room for a sample: `TooLarge(SampleBytes)` past 2^32 - 1 bytes, `TooLarge(SampleCount)` where it
    /// has 2^32 - 1 samples, `TooLarge(TrackDuration)` where its duration in ticks of the movie would pass 64 bits. It
    /// requests no memory.
    #[tactic(auto, unfolding(crate::specs::Building::room_cause))]
    pub fn check_sample(&self, sample: &SampleRef) -> mp4_codec::Result<()>
        ensures { Checks result (room_cause self.now (lent_sample sample.now)) }
    {
        if sample.bytes.len() > u32::MAX as usize {
            return Err(Error::TooLarge(Limit::SampleBytes));
        }
        if self.sample_count() == u32::MAX {
            return Err(Error::TooLarge(Limit::SampleCount));
        }
        if !self.has_room(sample.duration) {
            return Err(Error::TooLarge(Limit::TrackDuration));
        }
        Ok(())
    }

    /// How many samples it has.
    fn sample_count(&self) -> u32
        ensures { result ≡ length self.now.samples }
    {
        // For the proof alone, which learns what holds of the whole.
        let _ = &self.closed;
        self.samples.len()
    }

    /// Whether its duration in ticks of the movie stays within 64 bits with one more sample of this duration.
    fn has_room(&self, duration: u32) -> bool
        ensures { IsTrue result ↔ (ticks self.now duration < 2 ^ 64) }
    {
        let room = u64::MAX - self.durations.movie;
        // A quotient is at most its dividend, so mostly there is nothing to divide.
        if duration as u64 * self.movie_timescale as u64 <= room {
            return true;
        }
        movie_ticks(duration, self.movie_timescale, self.config.timescale) <= room
    }

    /// Adds a sample, which is pending. An `Err` changes nothing.
    #[inline(always)]
    pub(crate) fn push(&mut self, sample: &SampleRef) -> Result<(), AllocError>
        requires { room_cause self.old (lent_sample sample.now) ≡ None }
        ensures ok { OnOk result (self.new ≡ pushed self.old (lent_sample sample.now)) }
        ensures err { OnErr result (self.new ≡ self.old) }
    {
        let info = info_of(sample);
        info.in_range();
        let durations = sample_durations(
            self.last,
            info.duration,
            self.movie_timescale,
            self.config.timescale,
        );
        self.samples.push(info)?;
        if let Err(e) = self.pending.extend_from_slice(sample.bytes) {
            let _ = self.samples.pop();
            return Err(e);
        }
        self.pending_duration += durations.media;
        self.durations.media += durations.media;
        self.durations.movie += durations.movie;
        self.last = durations;
        Ok(())
    }

    /// Takes the last sample back, which no chunk has yet.
    pub(crate) fn pop(&mut self)
        requires { 0 < length self.old.pending }
        ensures { self.new ≡ popped self.old }
    {
        let info = self.samples.pop();
        let movie = movie_ticks(info.duration, self.movie_timescale, self.config.timescale);
        self.pending
            .truncate(self.pending.len() - info.size as usize);
        self.pending_duration -= info.duration as u64;
        self.durations.media -= info.duration as u64;
        self.durations.movie -= movie;
    }

    /// Whether the pending samples are to be written as a chunk.
    pub(crate) fn is_full(&self) -> bool
        ensures { result ≡ is_full self.now.config.timescale self.now.pending }
    {
        self.pending_duration >= self.config.timescale as u64 && !self.pending.is_empty()
    }

    /// The bytes of the pending samples.
    pub fn pending_bytes(&self) -> &[u8]
        ensures { result.now ≡ sample_bytes self.now.pending }
    {
        self.pending.as_slice()
    }

    /// Where the pending samples lie as a chunk that begins there.
    pub fn pending_place(&self, offset: u64) -> ChunkPlace
        ensures { result ≡ pending_place self.now offset }
    {
        ChunkPlace {
            first: self.closed,
            count: self.samples.len() - self.closed,
            offset,
        }
    }

    /// Writes the pending samples as a chunk at the end of the sink, and notes it after the chunks of all tracks; the
    /// track's index counts from 0. An `Err` changes neither the track nor the notes, and `OutOfMemory` not the sink
    /// either.
    pub(crate) fn write_chunk<S: ByteSink>(
        &mut self,
        sink: &mut S,
        written: &mut Vec<ChunkRef>,
        track: u32,
    ) -> Result<(), SinkError>
        requires { 0 < length self.old.pending }
        ensures track { OnOk result (self.new ≡ closed self.old (S.len sink.old)) }
        ensures bytes { OnOk result
            (IsAppended (S.contents sink.old) (S.contents sink.new) (sample_bytes self.old.pending)) }
        ensures len { OnOk result (S.len sink.new ≡ S.len sink.old + length (sample_bytes self.old.pending)) }
        ensures chunk { OnOk result
            (written.new.items ≡ written.old.items ++ record { track = track; index = length self.old.chunks } ∷ []) }
        ensures err { OnErr result ((self.new ≡ self.old) × (written.new.items ≡ written.old.items)) }
        ensures sink { IfErr result (λ e. SinkFails e (S.can_refuse sink.old)
            (S.contents sink.old) (S.contents sink.new) (S.len sink.old) (S.len sink.new)) }
        ensures waits { IfErr result (λ e. IsCountKept e (S.waiting sink.old) (S.waiting sink.new)) }
        ensures can_refuse { S.can_refuse sink.new ≡ S.can_refuse sink.old }
    {
        let place = self.pending_place(ByteSink::len(&*sink));
        let index = self.chunks.len() as u32;
        self.chunks.push(place)?;
        let chunk = ChunkRef { track, index };
        if let Err(e) = append_chunk(sink, written, chunk, self.pending.as_slice()) {
            let _ = self.chunks.take_last();
            return Err(e);
        }
        self.closed = self.samples.len();
        self.pending.clear();
        self.pending_duration = 0;
        Ok(())
    }
}

/// A track as it is finished.
impl TrackWriter {
    /// How long it is in ticks of the movie.
    pub fn movie_duration(&self) -> u64
        ensures { result ≡ movie_duration self.now.movie_timescale self.now.config.timescale self.now.samples }
    {
        self.durations.movie
    }

    /// What its box is made from, but for what is pending.
    fn parts(&self, id: u32) -> TrackParts<'_>
        ensures id { result.id ≡ id }
        ensures config { result.config.now ≡ self.now.config }
        ensures samples { result.samples.now ≡ self.now.samples }
        ensures chunks { result.chunks.now ≡ self.now.chunks }
        ensures durations { result.durations
            ≡ durations_of self.now.movie_timescale (track_with id self.now self.now.chunks) }
    {
        TrackParts {
            id,
            config: &self.config,
            samples: &self.samples,
            chunks: self.chunks.as_slice(),
            durations: self.durations,
        }
    }

    /// What is pending as a chunk that begins there, where there is any.
    fn last_place(&self, offset: u64) -> Option<ChunkPlace>
        ensures { option_to_list result ≡ last_place offset self.now }
    {
        let place = self.pending_place(offset);
        if place.count == 0 {
            return None;
        }
        Some(place)
    }

    /// Its chunks, and what is pending as one that begins there.
    fn all_chunks(&self, alloc: Global, offset: u64) -> Result<Vec<ChunkPlace>, AllocError>
        ensures { IfOk result (λ cs. cs.items ≡ self.now.chunks ++ last_place offset self.now) }
    {
        let mut chunks = Vec::with_capacity(alloc, self.chunks.len() + 1)?;
        chunks.extend_from_slice(self.chunks.as_slice())?;
        match self.last_place(offset) {
            None => Ok(chunks),
            Some(place) => {
                chunks.push(place)?;
                Ok(chunks)
            }
        }
    }

    /// Its box, where what is pending is in a chunk that begins there. Refused by `OutOfMemory` alone.
    pub fn finished_box(&self, alloc: Global, id: u32, offset: u64) -> mp4_codec::Result<TrakBox>
        ensures { Answers (λ b. b) result
            (Ok (trak_for self.now.movie_timescale (finished_building id offset self.now))) }
    {
        // For the proof alone, which learns what holds of the whole.
        let _ = &self.config;
        let chunks = self.all_chunks(alloc, offset)?;
        let track = TrackParts {
            chunks: chunks.as_slice(),
            ..self.parts(id)
        };
        trak_box(alloc, &track)
    }

    /// How many bytes that box has, its header included, where the chunk begins there as far as 64 bits go. It requests
    /// no memory.
    pub fn finished_size(&self, id: u32, offset: u64) -> u64
        ensures value { (place : ℕ) → offset ≡ min place (2 ^ 64 - 1)
            → result ≡ 8 + length
            (trak_payload (trak_for self.now.movie_timescale (finished_building id place self.now))) }
        ensures small { result < 2 ^ 41 }
    {
        // For the proof alone, which learns what holds of the whole.
        let _ = &self.config;
        trak_size(&self.parts(id), &self.last_place(offset))
    }
}

/// Adds the bytes of a chunk at the end of the sink, and notes it after the chunks of all tracks. An `Err` leaves the
/// notes as they were, and where it is `OutOfMemory`, the sink too.
fn append_chunk<S: ByteSink>(
    sink: &mut S,
    written: &mut Vec<ChunkRef>,
    chunk: ChunkRef,
    bytes: &[u8],
) -> Result<(), SinkError>
    ensures bytes { OnOk result (IsAppended (S.contents sink.old) (S.contents sink.new) bytes.now) }
    ensures len { OnOk result (S.len sink.new ≡ S.len sink.old + length bytes.now) }
    ensures chunk { OnOk result (written.new.items ≡ written.old.items ++ chunk ∷ []) }
    ensures err { OnErr result (written.new.items ≡ written.old.items) }
    ensures sink { IfErr result (λ e. SinkFails e (S.can_refuse sink.old)
        (S.contents sink.old) (S.contents sink.new) (S.len sink.old) (S.len sink.new)) }
    ensures waits { IfErr result (λ e. IsCountKept e (S.waiting sink.old) (S.waiting sink.new)) }
    ensures can_refuse { S.can_refuse sink.new ≡ S.can_refuse sink.old }
{
    written.push(chunk)?;
    if let Err(e) = sink.append(bytes) {
        let _ = written.take_last();
        return Err(e);
    }
    Ok(())
}
