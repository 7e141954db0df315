//! The data of a movie while it is written: its bytes, its tracks, and the order of their chunks.

ghost use Rattle.std.specs.Prelude.{◌≡◌, ◌+◌, ◌^◌, ◌<◌, ◌≤◌, [], length, Some, None, false, IsTrue, OnOk, OnErr, IfErr};
ghost use Rattle.std.specs.List.{All};
ghost use Rattle.mp4_codec.specs.Boxes.{write_cause};
ghost use Rattle.mp4_boxes.specs.Moov.{moov_payload, moov_refusal};
ghost use Rattle.mp4_mux.specs.Building.{new_building, room_cause};
ghost use Rattle.mp4_mux.specs.Config.{config_cause};
ghost use Rattle.mp4_mux.specs.FinishedTrack.{movie_for};
ghost use Rattle.mp4_mux.specs.Media.{Becomes, MediaFails, building_at, kept_with_track, media_with};
ghost use Rattle.mp4_mux.specs.Parts.{EndFails, finished_buildings, media_at_end, unwritten};
ghost use Rattle.mp4_mux.specs.Writing.{lent_sample};

use crate::chunk_place::ChunkRef;
use crate::config::TrackConfig;
use crate::ending::{finish, pending_bytes, put_movie};
use crate::track_writer::TrackWriter;
use mp4_codec::{Error, TryClone};
use mp4_samples::SampleRef;
use mp4_source::{ByteSink, SinkError, check_room};
use std::alloc::Global;
use std::io;
use std::marker::Model;

/// The data of a movie while it is written: the sink that its bytes go to, its tracks, and the order of their chunks.
#[derive(Debug, Drop)]
pub struct Media<S: ByteSink> {
    sink: S,
    tracks: Vec<TrackWriter>,
    /// All chunks, in the order in which they were written.
    written: Vec<ChunkRef>,
}

impl<S: ByteSink> Model for Media<S> {
    ghost use Rattle.mp4_mux.specs.Media.{KeptMedia};

    ghost Value = { KeptMedia };

    ghost view = { λ m. record {
      contents = S.contents m.sink;
      len = S.len m.sink;
      waiting = S.waiting m.sink;
      can_refuse = S.can_refuse m.sink;
      tracks = m.tracks.items;
      written = m.written.items;
    } };
}

impl<S: ByteSink> Media<S> {
    /// A movie without tracks, which begins with the bytes of this sink.
    pub fn new(alloc: Global, sink: S) -> Self
    where
        S: Drop,
        ensures { result ≡ record {
          contents = S.contents sink;
          len = S.len sink;
          waiting = S.waiting sink;
          can_refuse = S.can_refuse sink;
          tracks = [];
          written = [];
        } }
    {
        Media {
            sink,
            tracks: Vec::new(alloc),
            written: Vec::new(alloc),
        }
    }

    /// Where it takes its memory from.
    pub fn allocator(&self) -> Global {
        *self.tracks.allocator()
    }

    /// How many bytes its sink has.
    pub fn len(&self) -> u64
        ensures len { result ≡ self.now.len }
        ensures small { self.now.len < 2 ^ 64 }
    {
        ByteSink::len(&self.sink)
    }

    /// Its tracks, in the order in which they were added.
    pub fn tracks(&self) -> &[TrackWriter]
        ensures { result.now ≡ self.now.tracks }
    {
        self.tracks.as_slice()
    }

    /// Hands on all bytes that wait in its sink. Refused only where the sink refuses.
    pub fn flush(&mut self) -> io::Result<()>
        ensures none { OnOk result (self.new.waiting ≡ 0) }
        ensures err { OnErr result (IsTrue self.old.can_refuse) }
        ensures same { self.new ≡ record self.old { waiting = self.new.waiting } }
    {
        self.sink.flush()
    }

    /// Gives its sink back.
    pub fn into_inner(self) -> S
        ensures contents { S.contents result ≡ self.contents }
        ensures len { S.len result ≡ self.len }
        ensures waiting { S.waiting result ≡ self.waiting }
        ensures can_refuse { S.can_refuse result ≡ self.can_refuse }
    {
        let Media {
            sink,
            tracks: _,
            written: _,
        } = self;
        sink
    }

    /// Adds a track without samples, in a movie of this timescale. Refused by `OutOfMemory` alone, which changes
    /// nothing.
    pub fn add_track(&mut self, timescale: u32, config: &TrackConfig) -> mp4_codec::Result<()>
        requires { config_cause config.now ≡ None }
        ensures ok { OnOk result (self.new ≡ kept_with_track self.old (new_building timescale config.now)) }
        ensures memory { IfErr result (λ e. e ≡ Error.OutOfMemory) }
        ensures err { OnErr result (self.new ≡ self.old) }
    {
        let config = config.try_clone()?;
        let track = TrackWriter::new(*self.tracks.allocator(), timescale, config);
        self.tracks.push(track)?;
        Ok(())
    }

    /// Adds a sample to those that are pending of a track, whose index counts from 0, and writes these as a chunk where
    /// they are full now. `OutOfMemory` changes nothing; `Io` leaves the tracks as they were, and of the sink it isn't
    /// known what it has then.
    pub fn add_sample(&mut self, track: u32, sample: &SampleRef) -> Result<(), SinkError>
        requires track { track < length self.old.tracks }
        requires room { room_cause (building_at self.old.tracks track) (lent_sample sample.now) ≡ None }
        ensures ok { OnOk result (Becomes self.old self.new
            (λ media. media_with media track (lent_sample sample.now))) }
        ensures err { IfErr result (λ e. MediaFails e self.old self.new) }
        ensures can_refuse { self.new.can_refuse ≡ self.old.can_refuse }
    {
        let writer = &mut self.tracks[track as usize];
        writer.push(sample)?;
        if writer.is_full() {
            if let Err(e) = writer.write_chunk(&mut self.sink, &mut self.written, track) {
                writer.pop();
                return Err(e);
            }
        }
        Ok(())
    }

    /// Ends the movie, whose mdat has its place there: the bytes of what is pending of its tracks are added, the header
    /// of mdat says how many bytes it has then, and the movie box follows.
    ///
    /// `OutOfMemory` changes nothing. `Io` where the sink refuses, or where the data would pass its byte 2^64 - 1; then
    /// it isn't known what the sink has.
    pub fn add_end(&mut self, mdat: u64, timescale: u32) -> Result<(), SinkError>
        requires mdat { mdat + 16 ≤ self.old.len }
        requires few { length self.old.tracks < 2 ^ 32 }
        requires clocks { All (λ b. b.movie_timescale ≡ timescale) self.old.tracks }
        requires written { self.old.len + length (unwritten self.old.tracks) < 2 ^ 64
            → write_cause
            (moov_payload (movie_for timescale (finished_buildings 1 self.old.len self.old.tracks)))
            (moov_refusal (movie_for timescale (finished_buildings 1 self.old.len self.old.tracks)))
            ≡ None }
        ensures ok { OnOk result (Becomes self.old self.new (media_at_end mdat timescale)) }
        ensures err { IfErr result (λ e. EndFails e self.old self.new) }
        ensures can_refuse { self.new.can_refuse ≡ self.old.can_refuse }
    {
        let end = ByteSink::len(&self.sink);
        let tracks = self.tracks.as_slice();
        let mut tail = pending_bytes(*self.tracks.allocator(), tracks)?;
        check_room(tail.len(), end)?;
        let size = end - mdat + tail.len() as u64;
        let Ok(()) = put_movie(&mut tail, timescale, tracks, end) else {
            return Err(SinkError::OutOfMemory);
        };
        finish(&mut self.sink, mdat, size, &tail)
    }
}

impl Media<Vec<u8>> {
    /// Its bytes.
    pub fn bytes(&self) -> &[u8]
        ensures bytes { self.now.contents ≡ Some result.now }
        ensures small { self.now.len < 2 ^ 63 }
        ensures sure { self.now.can_refuse ≡ false }
    {
        self.sink.as_slice()
    }
}
