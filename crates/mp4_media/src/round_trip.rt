//! What the library promises above all, as the contract of one call: what is written is read back, and what is found in
//! any file is what its tables say.

ghost use Rattle.std.specs.Prelude.{◌≡◌, true, [], option_map, IfErr, IfOk, IsTrue, Some};
ghost use Rattle.std.specs.List.{AllByRecursion};
ghost use Rattle.mp4_codec.specs.Cause.{Answers, AnswersCause};
ghost use Rattle.mp4_codec.specs.Cursor.{here};
ghost use Rattle.mp4_codec.specs.declared.error.Error.TheVariants.{OutOfMemory};
ghost use Rattle.mp4_lookup.specs.declared.track.Mp4Track.{Mp4Track};
ghost use Rattle.mp4_samples.specs.Plain.{Consistent};
ghost use Rattle.mp4_samples.specs.Samples.{timed_sample};
ghost use Rattle.mp4_samples.specs.Tables.{tables_of};
ghost use Rattle.mp4_lookup.specs.Tracks.{is_of_movie};
ghost use Rattle.mp4_mux.specs.Calls.{Answered, IsInRangeCall, accepted_after, after, has_end};
ghost use Rattle.mp4_mux.specs.Writing.{start_cause, started, whole_of};
ghost use Rattle.mp4_media.specs.Finished.{Opens};
ghost use Rattle.mp4_media.specs.MovieTracks.{at_id};
ghost use Rattle.mp4_media.specs.Reading.{IsSample, sample_in};
ghost use Rattle.mp4_media.specs.Opening.{IsOpening, IsOpeningBy};
ghost use Rattle.mp4_media.specs.RoundTrip.{LooksUpInEachFile, HasExactly, IsLocated, IsPlace, OpensAs};
ghost use Rattle.mp4_media.specs.WriterCalls.{calls_of};

use crate::calls::WriterCall;
use crate::reader::{Mp4Reader, read_mp4};
use crate::writer::Mp4Writer;
use mp4_codec::{ByteCursor, Result};
use mp4_mux::Mp4Config;
use mp4_samples::{Mp4Sample, SamplePlace};
use std::alloc::Global;

/// A file, and a sample of it to look for.
#[derive(Debug, Clone, Copy, PartialEq, Eq)]
pub struct SampleQuery<'f> {
    /// The bytes that hold the file.
    pub bytes: &'f [u8],
    /// Where the file begins in them.
    pub start: u64,
    /// How many bytes the file has.
    pub size: u64,
    /// The track of the sample.
    pub track_id: u32,
    /// The sample's number in its track, which counts from 1.
    pub number: u32,
}

/// A file that was opened, and what it answers of a sample.
#[derive(Debug, Drop)]
pub struct FoundSample<'f> {
    /// The file.
    pub movie: Mp4Reader<'f>,
    /// Where the sample lies: the answer of [`mp4_lookup::Mp4Track::locate`], or `TrakNotFound`.
    pub place: Result<Option<SamplePlace>>,
    /// The sample with its bytes: the answer of [`Mp4Reader::read_sample`].
    pub sample: Result<Option<Mp4Sample>>,
}

/// A movie that was written and opened again, and a sample that was looked for in another file.
#[derive(Debug, Drop)]
pub struct RoundTrip<'w, 'f> {
    /// The answers of the writer's calls, in their order.
    pub replies: Vec<Result<()>>,
    /// The bytes that the writer has made.
    pub bytes: &'w [u8],
    /// The movie as which these bytes open.
    pub movie: Result<Mp4Reader<'w>>,
    /// The other file, and what was found in it.
    pub found: Result<FoundSample<'f>>,
}

/// Where a sample of an opened movie lies.
#[tactic(auto, unfolding(crate::specs::Reading::located_in))]
fn place_in(movie: &Mp4Reader, track_id: u32, number: u32) -> Result<Option<SamplePlace>>
    ensures located { IsLocated movie.now track_id number result }
    ensures plain { (t : Mp4Track) → at_id movie.now.movie.tracks track_id ≡ Some t
        → IsTrue (is_of_movie t.trak t.trafs number) → Consistent (tables_of t.trak)
        → IsPlace (tables_of t.trak) number result }
{
    movie.track(track_id)?.locate(number)
}

/// Opens a file and looks for a sample in it, as [`Mp4Reader::read_header`], [`mp4_lookup::Mp4Track::locate`] and
/// [`Mp4Reader::read_sample`] do.
pub fn find_sample<'f>(alloc: Global, query: &SampleQuery<'f>) -> Result<FoundSample<'f>>
    ensures found { LooksUpInEachFile query.now.size
        (here query.now.bytes.now query.now.start) query.now.track_id query.now.number result }
    ensures opened { IsOpeningBy (λ found. found.movie) query.now.size
        (here query.now.bytes.now query.now.start) result }
    ensures place { IfOk result (λ found. IsLocated found.movie query.now.track_id query.now.number found.place) }
    ensures sample { IfOk result (λ found. Answers (λ s. option_map timed_sample s) found.sample
        (sample_in query.now.bytes.now found.movie.movie.tracks query.now.track_id query.now.number)) }
    ensures memory { IfOk result (λ found. IfErr found.sample (λ e. e ≡ OutOfMemory
        → IsSample (sample_in query.now.bytes.now found.movie.movie.tracks query.now.track_id query.now.number))) }
{
    let mut file = ByteCursor::new(query.bytes);
    file.set_position(query.start);
    let mut movie = Mp4Reader::read_header(alloc, file, query.size)?;
    let place = place_in(&movie, query.track_id, query.number);
    let sample = movie.read_sample(query.track_id, query.number);
    Ok(FoundSample {
        movie,
        place,
        sample,
    })
}

/// Makes a writer's calls from an empty buffer, and answers their answers. What this buffer held is gone then; it holds
/// the written bytes.
fn write_calls(
    alloc: Global,
    config: &Mp4Config,
    calls: &[WriterCall],
    buffer: &mut Vec<u8>,
) -> Result<Vec<Result<()>>>
    ensures replies { IfOk result (λ rs. Answered (calls_of calls.now) rs.items (started [] config.now)) }
    ensures fits { IfOk result (λ rs. AllByRecursion IsInRangeCall (calls_of calls.now)) }
    ensures bytes { IfOk result
        (λ rs. buffer.new.items ≡ whole_of (after (calls_of calls.now) rs.items (started [] config.now))) }
    ensures opens { IfOk result
        (λ rs. has_end (calls_of calls.now) rs.items ≡ true
        → Opens (after (calls_of calls.now) rs.items (started [] config.now))) }
    ensures cause { AnswersCause (start_cause config.now) result }
{
    let mut writer = Mp4Writer::write_start(alloc, Vec::new(alloc), config)?;
    let replies = writer.run(calls)?;
    *buffer = writer.into_writer();
    Ok(replies)
}

/// Makes a writer's calls from an empty buffer, whatever they are, and opens what it has written; and beside it looks
/// for a sample in another file. What the buffer that is handed in held is gone; it holds the written bytes.
///
/// Where one of the calls was an end that was Ok, the bytes open, and the opened movie has exactly the tracks that the
/// calls accepted, each with exactly its accepted samples, in their order, each decoded when those before it have
/// lasted. And for each file, in each of its tracks that no fragment names and whose tables agree, at each number,
/// `locate` answers the place to which the tables lead when they are written out, with at most as many comparisons in
/// each table as the number of its entries has binary digits; and `read_sample` answers the sample that lies there.
///
/// `TooLarge(BoxSize)` where `write_start` refuses the configuration; `OutOfMemory` where the writer wasn't begun, or
/// where there is no room for the replies, which is asked for before the first call.
pub fn write_and_read<'w, 'f>(
    alloc: Global,
    config: &Mp4Config,
    calls: &[WriterCall],
    buffer: &'w mut Vec<u8>,
    query: &SampleQuery<'f>,
) -> Result<RoundTrip<'w, 'f>>
    ensures replies { IfOk result (λ r. Answered (calls_of calls.now) r.replies.items (started [] config.now)) }
    ensures bytes { IfOk result
        (λ r. r.bytes.now ≡ whole_of (after (calls_of calls.now) r.replies.items (started [] config.now))) }
    ensures read_back { IfOk result
        (λ r. has_end (calls_of calls.now) r.replies.items ≡ true
        → OpensAs (λ movie. HasExactly movie (accepted_after (calls_of calls.now) r.replies.items [])) r.movie) }
    ensures opened { IfOk result (λ r. IsOpening r.bytes.now r.movie) }
    ensures found { IfOk result
        (λ r. LooksUpInEachFile query.now.size
        (here query.now.bytes.now query.now.start) query.now.track_id query.now.number r.found) }
    ensures found_opened { IfOk result (λ r. IsOpeningBy (λ found. found.movie) query.now.size
        (here query.now.bytes.now query.now.start) r.found) }
    ensures found_place { IfOk result (λ r. IfOk r.found
        (λ found. IsLocated found.movie query.now.track_id query.now.number found.place)) }
    ensures found_sample { IfOk result (λ r. IfOk r.found (λ found.
        Answers (λ s. option_map timed_sample s) found.sample
        (sample_in query.now.bytes.now found.movie.movie.tracks query.now.track_id query.now.number))) }
    ensures found_memory { IfOk result (λ r. IfOk r.found (λ found. IfErr found.sample (λ e. e ≡ OutOfMemory
        → IsSample (sample_in query.now.bytes.now found.movie.movie.tracks query.now.track_id query.now.number)))) }
    ensures cause { AnswersCause (start_cause config.now) result }
{
    let replies = write_calls(alloc, config, calls, buffer)?;
    let bytes = buffer.as_slice();
    Ok(RoundTrip {
        replies,
        bytes,
        movie: read_mp4(alloc, bytes),
        found: find_sample(alloc, query),
    })
}
