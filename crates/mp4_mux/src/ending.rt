//! The end of a movie: what is pending of its tracks, its movie box after the data, and the header of the data, which
//! says how many bytes they have.

ghost use Rattle.std.specs.Prelude.{◌≡◌, ◌+◌, ◌^◌, ◌<◌, ◌≤◌, ◌++◌, Ok, None, length, map, fold, max, OnOk};
ghost use Rattle.std.specs.Prelude.{IfOk, IfErr};
ghost use Rattle.std.specs.List.{All};
ghost use Rattle.mp4_codec.specs.Cause.{Answers, Checks};
ghost use Rattle.mp4_codec.specs.Bytes.{Appends};
ghost use Rattle.mp4_codec.specs.Boxes.{box_bytes, size_around, size_cause, write_cause};
ghost use Rattle.mp4_boxes.specs.Moov.{moov_payload, moov_refusal};
ghost use Rattle.mp4_mux.specs.Mdat.{IsFinished};
ghost use Rattle.mp4_mux.specs.Media.{SinkFails};
ghost use Rattle.mp4_source.specs.Sink.{IsCountKept};
ghost use Rattle.mp4_mux.specs.TrackHeaders.{movie_duration};
ghost use Rattle.mp4_mux.specs.FinishedTrack.{trak_for, movie_for};
ghost use Rattle.mp4_mux.specs.Writing.{movie_bytes};
ghost use Rattle.mp4_mux.specs.Parts.{unwritten, finished_buildings};

use crate::mdat::mdat_header;
use crate::track_headers::{mvhd_box, mvhd_size};
use crate::track_writer::TrackWriter;
use mp4_boxes::{MoovBox, TrakBox};
use mp4_codec::{Error, Items, Limit, Put, Result, WriteBox};
use mp4_source::{ByteSink, SinkError};
use std::alloc::{AllocError, Global};

/// How long the longest of the tracks is, in ticks of the movie; 0 where there is none.
fn longest(tracks: &[TrackWriter]) -> u64
    ensures { result ≡ fold max 0
        (map (λ b. movie_duration b.movie_timescale b.config.timescale b.samples) tracks.now) }
{
    let mut longest: u64 = 0;
    for i in 0..tracks.len() {
        longest = longest.max(tracks[i].movie_duration());
    }
    longest
}

/// How many bytes the movie box has, its header included, where what is pending of the tracks is in chunks, the
/// first of which begins there; it stops at 2^64 - 1. The timescale is in ticks a second. It requests no memory.
pub fn movie_size(timescale: u32, tracks: &[TrackWriter], end: u64) -> u64
    requires few { length tracks.now < 2 ^ 32 }
    requires clocks { All (λ b. b.movie_timescale ≡ timescale) tracks.now }
    ensures { result ≡ size_around (moov_payload (movie_for timescale (finished_buildings 1 end tracks.now))) }
{
    let mut size = 8 + mvhd_size(longest(tracks));
    let mut place = end;
    for i in 0..tracks.len() {
        let track = &tracks[i];
        size = size.saturating_add(track.finished_size(i as u32 + 1, place));
        place = place.saturating_add(track.pending_bytes().len() as u64);
    }
    size
}

/// Whether that box can be written: `TooLarge(BoxSize)` where it passes 2^32 - 1 bytes (ISO/IEC 14496-12, 4.2). It
/// requests no memory.
pub fn check_movie(timescale: u32, tracks: &[TrackWriter], end: u64) -> Result<()>
    requires few { length tracks.now < 2 ^ 32 }
    requires clocks { All (λ b. b.movie_timescale ≡ timescale) tracks.now }
    ensures { Checks result (size_cause (moov_payload (movie_for timescale (finished_buildings 1 end tracks.now)))) }
{
    if movie_size(timescale, tracks, end) > u32::MAX as u64 {
        return Err(Error::TooLarge(Limit::BoxSize));
    }
    Ok(())
}

/// The bytes of what is pending, track after track.
pub fn pending_bytes(
    alloc: Global,
    tracks: &[TrackWriter],
) -> std::result::Result<Vec<u8>, AllocError>
    ensures { IfOk result (λ bytes. bytes.items ≡ unwritten tracks.now) }
{
    let mut bytes = Vec::new(alloc);
    for i in 0..tracks.len() {
        bytes.extend_from_slice(tracks[i].pending_bytes())?;
    }
    Ok(bytes)
}

/// The boxes of the tracks, where what is pending of them is in chunks, the first of which begins there. Refused by
/// `OutOfMemory` alone.
fn trak_boxes(
    alloc: Global,
    timescale: u32,
    tracks: &[TrackWriter],
    end: u64,
) -> Result<Vec<TrakBox>>
    requires few { length tracks.now < 2 ^ 32 }
    requires clocks { All (λ b. b.movie_timescale ≡ timescale) tracks.now }
    requires room { end + length (unwritten tracks.now) < 2 ^ 64 }
    ensures { Answers (λ boxes. boxes.items) result
        (Ok (map (trak_for timescale) (finished_buildings 1 end tracks.now))) }
{
    let mut boxes = Vec::with_capacity(alloc, tracks.len())?;
    let mut place = end;
    for i in 0..tracks.len() {
        let track = &tracks[i];
        boxes.push(track.finished_box(alloc, i as u32 + 1, place)?)?;
        place += track.pending_bytes().len() as u64;
    }
    Ok(boxes)
}

/// The movie box of the tracks (ISO/IEC 14496-12, 8.2.1), where what is pending of them is in chunks, the first of
/// which begins there. Refused by `OutOfMemory` alone.
#[tactic(auto, unfolding(crate::specs::FinishedTrack::movie_for))]
fn movie_box(alloc: Global, timescale: u32, tracks: &[TrackWriter], end: u64) -> Result<MoovBox>
    requires few { length tracks.now < 2 ^ 32 }
    requires clocks { All (λ b. b.movie_timescale ≡ timescale) tracks.now }
    requires room { end + length (unwritten tracks.now) < 2 ^ 64 }
    ensures { Answers (λ movie. movie) result (Ok (movie_for timescale (finished_buildings 1 end tracks.now))) }
{
    let traks = trak_boxes(alloc, timescale, tracks, end)?;
    Ok(MoovBox {
        mvhd: mvhd_box(timescale, longest(tracks)),
        traks: Items::from(traks),
        mvex: None,
        meta: None,
        udta: None,
    })
}

/// Adds a box at the end of a buffer, which grows once, and drops it. The caller, which owns it no longer,
/// has nothing to drop. Where a request for memory is refused, the buffer may hold a part of the box.
fn put_owned<B: WriteBox>(value: B, out: &mut Vec<u8>) -> Put
    requires { write_cause (B.payload value) (B.refusal value) ≡ None }
    ensures { OnOk result (Appends out.old.items out.new.items (box_bytes B.KIND (B.payload value))) }
{
    out.reserve_exact(value.box_size() as usize)?;
    value.put_box(out)?;
    Ok(())
}

/// Adds the movie box at the end of a buffer. Refused by `OutOfMemory` alone; the buffer may then hold a part of it.
#[tactic(auto, unfolding(crate::specs::Writing::movie_bytes))]
pub fn put_movie(out: &mut Vec<u8>, timescale: u32, tracks: &[TrackWriter], end: u64) -> Result<()>
    requires few { length tracks.now < 2 ^ 32 }
    requires clocks { All (λ b. b.movie_timescale ≡ timescale) tracks.now }
    requires room { end + length (unwritten tracks.now) < 2 ^ 64 }
    requires written { write_cause (moov_payload (movie_for timescale (finished_buildings 1 end tracks.now)))
        (moov_refusal (movie_for timescale (finished_buildings 1 end tracks.now))) ≡ None }
    ensures bytes { OnOk result
        (out.new.items ≡ out.old.items ++ movie_bytes timescale (finished_buildings 1 end tracks.now)) }
    ensures memory { IfErr result (λ e. e ≡ Error.OutOfMemory) }
{
    let movie = movie_box(*out.allocator(), timescale, tracks, end)?;
    put_owned(movie, out)?;
    Ok(())
}

/// Adds these bytes at the end of a sink, and then writes the header of an mdat of this size over the 16 bytes at its
/// place, which is in bytes from the sink's first one (ISO/IEC 14496-12, 8.1.1).
///
/// `OutOfMemory` leaves the sink as it was; after `Io` it isn't known what it has.
pub fn finish<S: ByteSink>(
    sink: &mut S,
    mdat: u64,
    size: u64,
    tail: &[u8],
) -> std::result::Result<(), SinkError>
    requires { mdat + 16 ≤ S.len sink.old }
    ensures ok { OnOk result (IsFinished (S.contents sink.old) (S.contents sink.new) mdat size tail.now) }
    ensures len { OnOk result (S.len sink.new ≡ S.len sink.old + length tail.now) }
    ensures err { IfErr result (λ e. SinkFails e (S.can_refuse sink.old)
        (S.contents sink.old) (S.contents sink.new) (S.len sink.old) (S.len sink.new)) }
    ensures waits { IfErr result (λ e. IsCountKept e (S.waiting sink.old) (S.waiting sink.new)) }
    ensures can_refuse { S.can_refuse sink.new ≡ S.can_refuse sink.old }
{
    let header = mdat_header(size);
    sink.append(tail)?;
    sink.overwrite(mdat, &header)?;
    Ok(())
}
