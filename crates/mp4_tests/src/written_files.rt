//! Lists of calls of a writer that writes to a file: it answers as the plain model says and the file has the model's
//! bytes, and where the file refuses a call, that is answered, and no later call is made.

use crate::asserts::{assert_that, at_least};
use crate::random_movies::{Habits, random_beginning, random_bytes, random_call};
use crate::writer_calls::{config_of, media_track, writer_call};
use crate::written::is_expected;
use mp4_codec::Error;
use mp4_media::{
    ByteSink, Mp4FileWriter, SampleRef, SeekSink, TrackConfig, WriteError, WriterCall,
};
use mp4_plain_movies::calls::{Beginning, Call, Media};
use mp4_plain_movies::plain_movie::PlainMovie;
use mp4_plain_movies::random::Random;
use std::alloc::Global;
use std::io;
use std::io::{Cursor, ErrorKind, Seek, SeekFrom, Write};
use std::process::Abort;

/// What a call of the writer answers.
type Answer = Result<(), WriteError>;

/// Makes a call, with the bytes of a sample borrowed.
fn make<S: ByteSink>(writer: &mut Mp4FileWriter<S>, call: &WriterCall) -> Answer {
    match call {
        WriterCall::AddTrack(config) => writer.add_track(config),
        WriterCall::WriteSample(id, sample) => writer.write_sample(
            *id,
            &SampleRef {
                offset: 5,
                start_time: sample.start_time,
                duration: sample.duration,
                rendering_offset: sample.rendering_offset,
                is_sync: sample.is_sync,
                bytes: sample.bytes.as_slice(),
            },
        ),
        WriterCall::WriteEnd => writer.write_end(),
    }
}

/// Whether an answer is the one that the model gives.
fn is_answer(answer: Answer, expected: &Option<Error>) -> bool {
    match answer {
        Ok(()) => is_expected(&Ok(()), expected),
        Err(WriteError::Mp4(error)) => is_expected(&Err(error), expected),
        Err(_) => false,
    }
}

/// The sink of the tests, a file in memory.
type FileSink = SeekSink<Cursor<Vec<u8>>>;

/// A sink that has these bytes.
fn sink_with(rt: &impl Abort, alloc: Global, bytes: &[u8]) -> FileSink {
    let file = Cursor::new(Vec::new(alloc));
    let mut sink = SeekSink::new(alloc, file).expect(rt, "memory");
    sink.append(bytes).expect(rt, "the bytes are written");
    sink
}

/// What a file has, after the bytes that wait were written.
fn bytes_of(rt: &impl Abort, mut sink: FileSink) -> Vec<u8> {
    sink.flush().expect(rt, "the bytes are written");
    sink.into_inner().into_inner()
}

/// A writer to a file that has these bytes.
fn writer_after(
    rt: &impl Abort,
    alloc: Global,
    front: &[u8],
    beginning: &Beginning,
) -> Mp4FileWriter<FileSink> {
    let config = config_of(rt, alloc, beginning);
    let sink = sink_with(rt, alloc, front);
    Mp4FileWriter::write_start(alloc, sink, &config).expect(rt, "a writer")
}

/// Makes a call of a writer and of the model. Whether both answer alike.
fn is_made_alike<'a>(
    rt: &impl Abort,
    alloc: Global,
    writer: &mut Mp4FileWriter<FileSink>,
    movie: &mut PlainMovie<'a>,
    call: &Call<'a>,
) -> bool {
    let expected = movie.make(call).expect(rt, "memory");
    let call = writer_call(rt, alloc, call);
    is_answer(make(writer, &call), &expected)
}

/// Makes the calls of a list and mostly an end. Whether all answers are alike.
fn calls_are_alike<'a>(
    rt: &impl Abort,
    alloc: Global,
    habits: &Habits<'a>,
    random: &mut Random,
    writer: &mut Mp4FileWriter<FileSink>,
    movie: &mut PlainMovie<'a>,
) -> bool {
    let mut alike = true;
    for k in 0..random.byte() {
        let tracks = u32::try_from(movie.tracks.len()).unwrap_or(0);
        let call = match k {
            250 => Call::WriteEnd,
            _ => random_call(habits, random, tracks),
        };
        alike = is_made_alike(rt, alloc, writer, movie, &call) && alike;
    }
    if random.below(8) > 0 {
        alike = is_made_alike(rt, alloc, writer, movie, &Call::WriteEnd) && alike;
    }
    alike
}

/// Makes the calls of a list and mostly an end of a writer to a file and of the model. Whether all answers and the
/// bytes are alike.
fn list_is_alike(rt: &impl Abort, alloc: Global, pool: &[u8], seed: u64) -> bool {
    let mut random = Random::new(seed);
    let habits = Habits::new(pool, &mut random);
    let beginning = random_beginning(&mut random);
    let front = habits.some(&mut random, 7);
    let mut movie = PlainMovie::begin(alloc, front, &beginning).expect(rt, "memory");
    let mut writer = writer_after(rt, alloc, front, &beginning);
    let alike = calls_are_alike(rt, alloc, &habits, &mut random, &mut writer, &mut movie);
    alike && bytes_of(rt, writer.into_inner()) == movie.bytes
}

#[test]
fn a_thousand_lists_of_calls_are_written_to_files_as_the_model_says(rt: HostRuntime) {
    let pool = random_bytes(&rt, rt.alloc());
    for seed in 2000..3000 {
        assert_that(&rt, seed, list_is_alike(&rt, rt.alloc(), &pool, seed));
    }
}

/// A file in memory that refuses each call from one on, whose number counts from 0.
#[derive(Drop)]
struct FullDisk {
    file: Cursor<Vec<u8>>,
    calls: u32,
    refused: u32,
}

impl FullDisk {
    /// Counts a call, and refuses it where it isn't before that one.
    fn count(&mut self) -> io::Result<()> {
        self.calls = self.calls.saturating_add(1);
        if self.calls > self.refused {
            return Err(io::Error::from(ErrorKind::StorageFull));
        }
        Ok(())
    }
}

impl Write for FullDisk {
    fn write(&mut self, buf: &[u8]) -> io::Result<usize> {
        self.count()?;
        self.file.write(buf)
    }

    fn flush(&mut self) -> io::Result<()> {
        self.count()
    }
}

impl Seek for FullDisk {
    fn seek(&mut self, to: SeekFrom) -> io::Result<u64> {
        self.count()?;
        self.file.seek(to)
    }
}

/// What calls were answered.
#[derive(Clone, Copy, Default)]
struct Replies {
    ok: u32,
    refused: u32,
    failed: u32,
    others: u32,
}

impl Replies {
    fn add(&mut self, answer: Answer) {
        match answer {
            Ok(()) => self.ok = self.ok.saturating_add(1),
            Err(WriteError::Io(e)) if e.kind() == ErrorKind::StorageFull => {
                self.refused = self.refused.saturating_add(1);
            }
            Err(WriteError::Failed) => self.failed = self.failed.saturating_add(1),
            Err(_) => self.others = self.others.saturating_add(1),
        }
    }
}

/// A writer to a file, which has nothing.
fn writer_to<W: Write + Seek + Drop>(
    rt: &impl Abort,
    alloc: Global,
    disk: W,
) -> Mp4FileWriter<SeekSink<W>> {
    let config = config_of(rt, alloc, &random_beginning(&mut Random::new(1)));
    let sink = SeekSink::new(alloc, disk).expect(rt, "memory");
    Mp4FileWriter::write_start(alloc, sink, &config).expect(rt, "a writer")
}

/// Adds a track, writes forty samples of 10,000 bytes, each a chunk, and an end, twice. What was answered.
fn replies_to_forty<W: Write + Seek + Drop>(
    writer: &mut Mp4FileWriter<SeekSink<W>>,
    track: &TrackConfig,
    pool: &[u8],
) -> Replies {
    let mut replies = Replies::default();
    replies.add(writer.add_track(track));
    let sample = SampleRef {
        offset: 0,
        start_time: 0,
        duration: 1000,
        rendering_offset: 0,
        is_sync: true,
        bytes: pool.get(..10_000).unwrap_or(&[]),
    };
    for _ in 0..40 {
        replies.add(writer.write_sample(1, &sample));
    }
    replies.add(writer.write_end());
    replies.add(writer.write_end());
    replies
}

/// What a writer to a file answers so, and the file.
fn written_to<W: Write + Seek + Drop>(
    rt: &impl Abort,
    alloc: Global,
    pool: &[u8],
    disk: W,
) -> (Replies, W) {
    let track = media_track(rt, alloc, &Media::Text);
    let mut writer = writer_to(rt, alloc, disk);
    let replies = replies_to_forty(&mut writer, &track, pool);
    drop(track);
    (replies, writer.into_inner().into_inner())
}

/// What a file answers that refuses from that call on.
fn replies_of_a_full_disk(rt: &impl Abort, alloc: Global, pool: &[u8], refused: u32) -> Replies {
    let disk = FullDisk {
        file: Cursor::new(Vec::new(alloc)),
        calls: 0,
        refused,
    };
    let (replies, _disk) = written_to(rt, alloc, pool, disk);
    replies
}

/// Whether of 43 calls one is refused for the disk, those before it are Ok, and all after it failed since it was. Where
/// none is refused for it, only the second end is refused, since the movie has ended.
fn is_refused_once(replies: Replies) -> bool {
    match replies.refused {
        0 => replies.ok == 42 && replies.others == 1,
        _ => replies.refused == 1 && replies.ok.saturating_add(replies.failed) == 42,
    }
}

#[test]
fn a_writer_stops_where_its_file_is_full(rt: HostRuntime) {
    let pool = random_bytes(&rt, rt.alloc());
    let mut refusals = 0u32;
    for refused in 0..20 {
        let replies = replies_of_a_full_disk(&rt, rt.alloc(), &pool, refused);
        assert_that(&rt, refused, is_refused_once(replies));
        refusals = refusals.saturating_add(replies.refused);
    }
    at_least(&rt, "refusals", refusals, 9);
}

/// A file in memory that takes at most seven bytes of each write.
#[derive(Drop)]
struct ShortWrites {
    file: Cursor<Vec<u8>>,
    writes: u32,
}

impl Write for ShortWrites {
    fn write(&mut self, buf: &[u8]) -> io::Result<usize> {
        self.writes = self.writes.saturating_add(1);
        self.file.write(buf.get(..7).unwrap_or(buf))
    }

    fn flush(&mut self) -> io::Result<()> {
        Ok(())
    }
}

impl Seek for ShortWrites {
    fn seek(&mut self, to: SeekFrom) -> io::Result<u64> {
        self.file.seek(to)
    }
}

/// Whether a file that takes few bytes of each write has the bytes of one that takes all, and how many writes it was.
fn is_written_in_parts(rt: &impl Abort, alloc: Global, pool: &[u8]) -> (bool, u32) {
    let (_, whole) = written_to(rt, alloc, pool, Cursor::new(Vec::new(alloc)));
    let short = ShortWrites {
        file: Cursor::new(Vec::new(alloc)),
        writes: 0,
    };
    let (replies, parts) = written_to(rt, alloc, pool, short);
    let ShortWrites { file, writes } = parts;
    let is_same = file.into_inner() == whole.into_inner();
    (is_same && replies.ok == 42, writes)
}

#[test]
fn a_file_that_takes_few_bytes_of_each_write_gets_all(rt: HostRuntime) {
    let pool = random_bytes(&rt, rt.alloc());
    let (is_same, writes) = is_written_in_parts(&rt, rt.alloc(), &pool);
    assert_that(&rt, "a file", is_same);
    at_least(&rt, "writes", writes, 50_000);
}
