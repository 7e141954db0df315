//! Movies that are written.

ghost use Rattle.std.specs.Prelude.{◌≡◌, [], Some, IfErr, IfOk, IfSome, OnOk};
ghost use Rattle.mp4_codec.specs.Cause.{Checks, cause_of};
ghost use Rattle.mp4_mux.specs.Writing.{WriterState, end_cause, lent_sample, start_cause, started, with_sample};
ghost use Rattle.mp4_media.specs.MovieTracks.{RefusedBy};
ghost use Rattle.mp4_media.specs.WriterFields.{MayHold};
ghost use Rattle.mp4_c.specs.declared.written.Part.TheVariants.{Track, Sample, End};
ghost use Rattle.mp4_c.specs.Parts.{part_fault};
ghost use Rattle.mp4_c.specs.Refusals.{IsRefusal, IsRefusedPart, IsRefusedSample, IsRefusedTrack, IsTrackFault};
ghost use Rattle.mp4_c.specs.Refusals.{OrNoMemory};
ghost use Rattle.mp4_c.specs.Written.{AreWritten, HasTrack, HasTracks, IsEndIn, IsMovie, IsMovieIn, Leads, config_of};
ghost use Rattle.mp4_c.specs.Written.{sample_fault, sample_in, with_rows};
ghost use Rattle.mp4_c.specs.WrittenReply.{GaveMovie, part_number, refusal_in, refused_at};

use crate::answer::Answer;
use crate::configs::{Brand, NewMovie, NewTrack, movie_config, part_of, track_config};
use crate::copied::copy_to_front;
use crate::samples::SampleRow;
use mp4_media::{ByteSink, CountingSink, Error, Mp4FileWriter, Result, SampleRef, WriteError};
use std::alloc::Global;

/// A part of a writing.
#[derive(Clone, Copy)]
enum Part {
    /// The movie and its brands.
    Movie,
    Track,
    Sample,
    End,
}

/// The number of a part in [`Answer::part`].
fn part_number(part: Part) -> u32
    ensures { result ≡ part_number part }
{
    match part {
        Part::Movie => 1,
        Part::Track => 2,
        Part::Sample => 3,
        Part::End => 4,
    }
}

/// What a writing was refused at, and why.
#[derive(Drop)]
struct Fault {
    part: Part,
    /// Which track or sample, counted from 0.
    index: u64,
    error: Error,
}

/// An answer, or what the writing was refused at.
type Written<T> = std::result::Result<T, Fault>;

/// What a writer is refused for whose sink is memory, or counts. A count past 2^64 - 1 bytes is of a movie for which
/// there is no memory.
fn refusal_in(error: WriteError) -> Error
    ensures { result ≡ refusal_in error }
{
    match error {
        WriteError::Mp4(error) => error,
        WriteError::Io(_) | WriteError::Failed => Error::OutOfMemory,
    }
}

/// A writer that has begun in an empty sink.
fn begun<S: ByteSink + Drop>(
    alloc: Global,
    sink: S,
    movie: &NewMovie,
    brands: &[Brand],
) -> Result<Mp4FileWriter<S>>
    requires none { S.len sink ≡ 0 }
    requires empty { IfSome (S.contents sink) (λ bytes. bytes ≡ []) }
    ensures begun { IfOk result (λ w. MayHold w (started [] (config_of movie.now brands.now))) }
    ensures cause { RefusedBy (start_cause (config_of movie.now brands.now)) result }
{
    let config = movie_config(alloc, movie, brands)?;
    match Mp4FileWriter::write_start(alloc, sink, &config) {
        Ok(writer) => Ok(writer),
        Err(error) => Err(refusal_in(error)),
    }
}

/// Adds a track.
fn add_track<S: ByteSink + Drop>(
    alloc: Global,
    writer: &mut Mp4FileWriter<S>,
    track: &NewTrack,
    source: &[u8],
) -> Result<()>
    ensures added { OnOk result (Leads (HasTrack source.now track.now) writer.old writer.new) }
    ensures refused { IfErr result (λ e. (st : WriterState) → MayHold writer.old st
        → OrNoMemory (IsTrackFault source.now st track.now) (cause_of e)) }
{
    let config = track_config(alloc, track, source)?;
    match writer.add_track(&config) {
        Ok(()) => Ok(()),
        Err(error) => Err(refusal_in(error)),
    }
}

/// Adds tracks, in their order.
fn add_tracks<S: ByteSink + Drop>(
    alloc: Global,
    writer: &mut Mp4FileWriter<S>,
    tracks: &[NewTrack],
    source: &[u8],
) -> Written<()>
    ensures added { OnOk result (Leads (HasTracks source.now tracks.now) writer.old writer.new) }
    ensures part { IfErr result (λ f. f.part ≡ Track) }
    ensures refused { IfErr result (λ f. (st : WriterState) → MayHold writer.old st
        → OrNoMemory (IsRefusedTrack source.now tracks.now st f.index) (cause_of f.error)) }
{
    for (k, track) in tracks.iter().enumerate() {
        match add_track(alloc, writer, track, source) {
            Ok(()) => {}
            Err(error) => {
                return Err(Fault {
                    part: Part::Track,
                    index: k as u64,
                    error,
                });
            }
        }
    }
    Ok(())
}

/// A sample, whose bytes stay where they are; `EndOfData` where they aren't whole in the data.
fn sample_at<'s>(row: &SampleRow, source: &'s [u8]) -> Result<SampleRef<'s>>
    ensures sample { IfOk result (λ s. lent_sample s ≡ sample_in source.now row.now) }
    ensures fault { Checks result (part_fault source.now row.now.offset row.now.size) }
{
    let bytes = part_of(source, row.offset, row.size)?;
    Ok(SampleRef {
        offset: row.offset,
        start_time: 0,
        duration: row.duration,
        rendering_offset: row.rendering_offset,
        is_sync: row.is_sync != 0,
        bytes,
    })
}

/// Writes a sample.
fn add_sample<S: ByteSink + Drop>(
    writer: &mut Mp4FileWriter<S>,
    row: &SampleRow,
    source: &[u8],
) -> Result<()>
    ensures added { OnOk result ((st : WriterState) → MayHold writer.old st
        → MayHold writer.new (with_sample st row.now.track_id (sample_in source.now row.now))) }
    ensures cause { (st : WriterState) → MayHold writer.old st → RefusedBy (sample_fault source.now st row.now) result }
{
    let sample = sample_at(row, source)?;
    match writer.write_sample(row.track_id, &sample) {
        Ok(()) => Ok(()),
        Err(error) => Err(refusal_in(error)),
    }
}

/// Writes samples, in their order.
fn add_samples<S: ByteSink + Drop>(
    writer: &mut Mp4FileWriter<S>,
    rows: &[SampleRow],
    source: &[u8],
) -> Written<()>
    ensures added { OnOk result ((st : WriterState) → MayHold writer.old st
        → MayHold writer.new (with_rows source.now st rows.now)) }
    ensures written { OnOk result ((st : WriterState) → MayHold writer.old st → AreWritten source.now st rows.now) }
    ensures part { IfErr result (λ f. f.part ≡ Sample) }
    ensures refused { IfErr result (λ f. (st : WriterState) → MayHold writer.old st
        → OrNoMemory (IsRefusedSample source.now rows.now st f.index) (cause_of f.error)) }
{
    for (k, row) in rows.iter().enumerate() {
        match add_sample(writer, row, source) {
            Ok(()) => {}
            Err(error) => {
                return Err(Fault {
                    part: Part::Sample,
                    index: k as u64,
                    error,
                });
            }
        }
    }
    Ok(())
}

/// Ends a movie, and gives its sink back.
fn ended<S: ByteSink + Drop>(writer: Mp4FileWriter<S>) -> Written<S>
    ensures movie { IfOk result (λ sink. (st : WriterState) → MayHold writer st
        → IsEndIn st (S.contents sink) (S.len sink)) }
    ensures part { IfErr result (λ f. f.part ≡ End) }
    ensures index { IfErr result (λ f. f.index ≡ 0) }
    ensures refused { IfErr result (λ f. (st : WriterState) → MayHold writer st
        → OrNoMemory (λ c. end_cause st ≡ Some c) (cause_of f.error)) }
{
    let mut writer = writer;
    match writer.write_end() {
        Ok(()) => Ok(writer.into_inner()),
        Err(error) => Err(Fault {
            part: Part::End,
            index: 0,
            error: refusal_in(error),
        }),
    }
}

/// Adds tracks and samples to a writer that has begun, and ends it.
fn filled<S: ByteSink + Drop>(
    alloc: Global,
    writer: Mp4FileWriter<S>,
    tracks: &[NewTrack],
    samples: &[SampleRow],
    source: &[u8],
) -> Written<S>
    ensures movie { IfOk result (λ sink. (st : WriterState) → MayHold writer st
        → IsMovieIn st tracks.now source.now samples.now (S.contents sink) (S.len sink)) }
    ensures refused { IfErr result (λ f. (st : WriterState) → MayHold writer st
        → OrNoMemory (IsRefusedPart st tracks.now source.now samples.now f.part f.index) (cause_of f.error)) }
{
    let mut writer = writer;
    add_tracks(alloc, &mut writer, tracks, source)?;
    add_samples(&mut writer, samples, source)?;
    ended(writer)
}

/// A movie in a sink that was empty.
fn written<S: ByteSink + Drop>(
    alloc: Global,
    sink: S,
    movie: &NewMovie,
    brands: &[Brand],
    tracks: &[NewTrack],
    samples: &[SampleRow],
    source: &[u8],
) -> Written<S>
    requires none { S.len sink ≡ 0 }
    requires empty { IfSome (S.contents sink) (λ bytes. bytes ≡ []) }
    ensures begins { OnOk result (start_cause (config_of movie.now brands.now) ≡ None) }
    ensures movie { IfOk result (λ sink. IsMovieIn (started [] (config_of movie.now brands.now))
        tracks.now source.now samples.now (S.contents sink) (S.len sink)) }
    ensures refused { IfErr result (λ f.
        OrNoMemory (IsRefusal movie.now brands.now tracks.now source.now samples.now f.part f.index)
        (cause_of f.error)) }
{
    match begun(alloc, sink, movie, brands) {
        Ok(writer) => filled(alloc, writer, tracks, samples, source),
        Err(error) => Err(Fault {
            part: Part::Movie,
            index: 0,
            error,
        }),
    }
}

/// The answer of a writing that was refused.
fn refused_at(fault: &Fault) -> Answer
    ensures { result ≡ refused_at (cause_of fault.now.error) fault.now.part fault.now.index }
{
    Answer {
        part: part_number(fault.part),
        index: fault.index,
        ..Answer::refused(&fault.error)
    }
}

/// The answer of a writing without room, which counts the bytes.
fn counted(
    alloc: Global,
    movie: &NewMovie,
    brands: &[Brand],
    tracks: &[NewTrack],
    samples: &[SampleRow],
    source: &[u8],
) -> Answer
    ensures { GaveMovie
        (IsMovie movie.now brands.now tracks.now source.now samples.now)
        (IsRefusal movie.now brands.now tracks.now source.now samples.now)
        [] [] result }
{
    match written(
        alloc,
        CountingSink::new(),
        movie,
        brands,
        tracks,
        samples,
        source,
    ) {
        Ok(sink) => Answer::done(sink.len(), 0),
        Err(fault) => refused_at(&fault),
    }
}

/// Writes a movie of these tracks and of these samples, in this order, where there is room for all of it. `count` is
/// how many bytes it has, whatever the room, and `filled` is `count`, or 0 where they don't fit.
///
/// After a refusal `part` says what is the first at fault, and `index` which track or sample, counted from 0:
/// `InvalidData` for another sample entry, type of sound, frequency or channels than are known, `EndOfData` where a
/// sample or a parameter set isn't whole in the data, and else what [`mp4_media::Mp4Writer`] refuses.
///
/// Where there is no room at all, the bytes are counted and not kept: what it takes then are the tables, and the
/// samples of at most a second of each track.
#[unsafe(no_mangle)]
pub extern "C" fn mp4_c_write(
    alloc: Global,
    movie: &NewMovie,
    brands: &[Brand],
    tracks: &[NewTrack],
    samples: &[SampleRow],
    source: &[u8],
    room: &mut [u8],
) -> Answer
    ensures { GaveMovie
        (IsMovie movie.now brands.now tracks.now source.now samples.now)
        (IsRefusal movie.now brands.now tracks.now source.now samples.now)
        room.old room.new result }
{
    if room.is_empty() {
        return counted(alloc, movie, brands, tracks, samples, source);
    }
    match written(
        alloc,
        Vec::new(alloc),
        movie,
        brands,
        tracks,
        samples,
        source,
    ) {
        Ok(bytes) => copy_to_front(bytes.as_slice(), room),
        Err(fault) => refused_at(&fault),
    }
}
