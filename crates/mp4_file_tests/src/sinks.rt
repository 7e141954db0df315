//! Sinks: a file holds what a buffer in memory does after the same calls, and is written seldom.

use crate::asserts::assert_that;
use crate::parts::{Numbers, many_bytes};
use crate::written_disk::WrittenDisk;
use mp4_source::{ByteSink, CountingSink, SeekSink, SinkError, WAITING_SIZE};
use std::alloc::Global;
use std::io::ErrorKind;
use std::process::Abort;

/// A sink that writes to this file.
fn sink_of(rt: &impl Abort, alloc: Global, disk: WrittenDisk) -> SeekSink<WrittenDisk> {
    SeekSink::new(alloc, disk).expect(rt, "memory")
}

/// The calls of `write`, `seek` and `flush` where 1,000 samples of 100 bytes follow a header of 16, which is written
/// over at the end.
fn calls_of_a_movie(rt: &impl Abort, alloc: Global) -> (u64, u64, u64) {
    let bytes = many_bytes(rt, alloc, 100);
    let mut sink = sink_of(rt, alloc, WrittenDisk::new(alloc, 0));
    sink.append(&[0; 16]).expect(rt, "a header");
    for _ in 0..1000 {
        sink.append(bytes.as_slice()).expect(rt, "a sample");
    }
    sink.overwrite(0, &[1; 16]).expect(rt, "the header again");
    sink.flush().expect(rt, "a flush");
    let disk = sink.into_inner();
    (disk.writes, disk.seeks, disk.flushes)
}

#[test]
fn a_movie_is_written_in_few_calls(rt: HostRuntime) {
    assert_that(&rt, "calls", calls_of_a_movie(&rt, rt.alloc()) == (3, 3, 1));
}

/// A call of a sink: it adds so many bytes, or writes so many over those from a place on.
#[derive(Clone, Copy)]
enum SinkCall {
    Append(usize),
    Overwrite(u64, usize),
    Flush,
}

/// Makes a call with bytes of these.
fn make<S: ByteSink>(sink: &mut S, call: SinkCall, bytes: &[u8]) -> Result<(), SinkError> {
    match call {
        SinkCall::Append(n) => {
            let n = n.min(bytes.len());
            sink.append(&bytes[..n])
        }
        SinkCall::Overwrite(place, n) => {
            let n = n.min(bytes.len());
            sink.overwrite(place, &bytes[..n])?;
            Ok(())
        }
        SinkCall::Flush => {
            sink.flush()?;
            Ok(())
        }
    }
}

/// The kind of the error, if it is one of the sink.
fn kind_of(answer: Result<(), SinkError>) -> Option<ErrorKind> {
    match answer {
        Err(SinkError::Io(e)) => Some(e.kind()),
        _ => None,
    }
}

/// Appends that don't fit into the buffer, the first within it, past it and around its edge, and overwrites of the
/// bytes that wait, of those that were written, and of both.
const CALLS: [SinkCall; 14] = [
    SinkCall::Append(16),
    SinkCall::Append(40_000),
    SinkCall::Overwrite(3, 10),
    SinkCall::Append(30_000),
    SinkCall::Overwrite(40_000, 40),
    SinkCall::Overwrite(40_016, 40),
    SinkCall::Overwrite(1, 2),
    SinkCall::Append(WAITING_SIZE),
    SinkCall::Append(WAITING_SIZE + 1),
    SinkCall::Append(1),
    SinkCall::Overwrite(0, 16),
    SinkCall::Flush,
    SinkCall::Append(5),
    SinkCall::Flush,
];

/// What came of calls of a file that refuses one.
#[derive(Clone, Copy)]
struct Outcome {
    /// Whether it holds then what a buffer in memory does after the same calls, without a refusal.
    agrees: bool,
    refusals: u32,
}

/// Makes these calls of a file, each twice where it was refused, and of a buffer in memory.
fn outcome_of(
    rt: &impl Abort,
    alloc: Global,
    disk: WrittenDisk,
    calls: &[SinkCall],
    bytes: &[u8],
) -> Outcome {
    let mut sink = sink_of(rt, alloc, disk);
    let mut memory: Vec<u8> = Vec::new(alloc);
    let mut refusals = 0u32;
    for call in calls {
        make(&mut memory, *call, bytes).expect(rt, "a call of memory");
        if make(&mut sink, *call, bytes).is_err() {
            refusals = refusals.saturating_add(1);
            make(&mut sink, *call, bytes).expect(rt, "the call again");
        }
    }
    let agrees = ByteSink::len(&sink) == ByteSink::len(&memory);
    let disk = sink.into_inner();
    Outcome {
        agrees: agrees && disk.bytes.as_slice() == memory.as_slice(),
        refusals,
    }
}

#[test]
fn a_refused_call_of_a_sink_may_be_made_again(rt: HostRuntime) {
    let bytes = many_bytes(&rt, rt.alloc(), 70_000);
    for refused in 1..22 {
        let disk = WrittenDisk::new(rt.alloc(), refused);
        let outcome = outcome_of(&rt, rt.alloc(), disk, &CALLS, bytes.as_slice());
        assert_that(&rt, refused, outcome.agrees && outcome.refusals == 1);
    }
}

/// What comes of the calls where a write takes so many bytes at most, and is interrupted or not.
fn outcome_by(rt: &impl Abort, alloc: Global, most: usize, is_interrupted: bool) -> Outcome {
    let bytes = many_bytes(rt, alloc, 70_000);
    let mut disk = WrittenDisk::new(alloc, 0);
    disk.most = most;
    disk.is_interrupted = is_interrupted;
    outcome_of(rt, alloc, disk, &CALLS, bytes.as_slice())
}

#[test]
fn a_file_may_take_less_than_is_given(rt: HostRuntime) {
    for most in [1, 1000, 65_535, usize::MAX] {
        for is_interrupted in [false, true] {
            let outcome = outcome_by(&rt, rt.alloc(), most, is_interrupted);
            assert_that(&rt, most, outcome.agrees && outcome.refusals == 0);
        }
    }
}

/// The errors' kinds: of a file that takes no bytes, of an overwrite that passes the end by one byte, and of one far
/// after it.
fn kinds(rt: &impl Abort, alloc: Global) -> [Option<ErrorKind>; 3] {
    let mut disk = WrittenDisk::new(alloc, 0);
    disk.most = 0;
    let mut full = sink_of(rt, alloc, disk);
    let mut sink = sink_of(rt, alloc, WrittenDisk::new(alloc, 0));
    full.append(&[1, 2]).expect(rt, "two bytes that wait");
    sink.append(&[1, 2]).expect(rt, "two bytes");
    [
        kind_of(make(&mut full, SinkCall::Flush, &[])),
        kind_of(make(&mut sink, SinkCall::Overwrite(1, 2), &[3, 4])),
        kind_of(make(&mut sink, SinkCall::Overwrite(u64::MAX, 2), &[3, 4])),
    ]
}

#[test]
fn errors_of_a_file_have_their_kinds(rt: HostRuntime) {
    let past = Some(ErrorKind::InvalidInput);
    assert_that(
        &rt,
        "kinds",
        kinds(&rt, rt.alloc()) == [Some(ErrorKind::WriteZero), past, past],
    );
}

/// How many random calls there were of each kind, and how many answers of the file differ from those of memory.
#[derive(Clone, Copy)]
struct Tally {
    /// Overwrites of bytes before the buffer's first and from it on.
    across: u32,
    waiting: u32,
    written: u32,
    past: u32,
    /// Appends longer than the buffer.
    long: u32,
    flushed: u32,
    differing: u32,
}

/// A random call of a sink that holds so many bytes, of which so many are written.
fn random_call(numbers: &mut Numbers, len: u64, written: u64) -> SinkCall {
    let n = numbers.up_to(60) as usize;
    match numbers.up_to(20) {
        0 => SinkCall::Append(WAITING_SIZE.saturating_sub(30).saturating_add(n)),
        1 => SinkCall::Flush,
        2..=5 => SinkCall::Overwrite(written.saturating_sub(numbers.up_to(40)), n),
        6 | 8 => SinkCall::Overwrite(len.saturating_sub(numbers.up_to(1500)), n),
        7 => SinkCall::Overwrite(numbers.up_to(len.saturating_add(1)), n),
        _ => SinkCall::Append(numbers.up_to(2000) as usize),
    }
}

impl Tally {
    /// None of any kind.
    fn new() -> Self {
        Tally {
            across: 0,
            waiting: 0,
            written: 0,
            past: 0,
            long: 0,
            flushed: 0,
            differing: 0,
        }
    }

    /// Counts a call of a sink that holds so many bytes, of which so many are written.
    fn count(&mut self, call: SinkCall, len: u64, written: u64) {
        let kind = match call {
            SinkCall::Flush => &mut self.flushed,
            SinkCall::Append(n) if n > WAITING_SIZE => &mut self.long,
            SinkCall::Append(_) => return,
            SinkCall::Overwrite(place, n) => {
                let end = place.saturating_add(n as u64);
                if end > len {
                    &mut self.past
                } else if place >= written {
                    &mut self.waiting
                } else if end <= written {
                    &mut self.written
                } else {
                    &mut self.across
                }
            }
        };
        *kind = kind.saturating_add(1);
    }

    /// Whether there were fifteen of each kind, or five where they are rare, and no answer differs.
    fn is_good(&self) -> bool {
        let frequent = self.across.min(self.waiting).min(self.written);
        let rare = self.past.min(self.long).min(self.flushed);
        frequent >= 15 && rare >= 5 && self.differing == 0
    }
}

/// Makes random calls of a file and of a buffer in memory, and compares what they answer; after each flush, how many
/// bytes they hold; and in the end, which.
fn tally_of_random_calls(rt: &impl Abort, alloc: Global) -> Tally {
    let bytes = many_bytes(rt, alloc, 70_000);
    let mut sink = sink_of(rt, alloc, WrittenDisk::new(alloc, 0));
    let mut memory: Vec<u8> = Vec::new(alloc);
    let mut numbers = Numbers::new();
    let mut tally = Tally::new();
    for _ in 0..400 {
        let len = ByteSink::len(&memory);
        let written = sink.get_ref().bytes.len() as u64;
        let call = random_call(&mut numbers, len, written);
        tally.count(call, len, written);
        let start = (numbers.up_to(1000) as usize).min(bytes.len());
        let is_taken = make(&mut sink, call, &bytes[start..]).is_ok();
        let is_same = is_taken == make(&mut memory, call, &bytes[start..]).is_ok();
        let is_flushed = matches!(call, SinkCall::Flush);
        let is_whole = !is_flushed || sink.get_ref().bytes.len() == memory.len();
        if !is_same || !is_whole {
            tally.differing = tally.differing.saturating_add(1);
        }
    }
    sink.flush().expect(rt, "a flush");
    if sink.get_ref().bytes.as_slice() != memory.as_slice() {
        tally.differing = tally.differing.saturating_add(1);
    }
    tally
}

#[test]
fn a_file_holds_what_memory_does_after_random_calls(rt: HostRuntime) {
    assert_that(
        &rt,
        "random",
        tally_of_random_calls(&rt, rt.alloc()).is_good(),
    );
}

/// What a sink that counts says of these calls, and one in memory.
fn lengths(rt: &impl Abort, alloc: Global) -> (u64, u64) {
    let bytes = many_bytes(rt, alloc, 70_000);
    let mut counting = CountingSink::new();
    let mut memory: Vec<u8> = Vec::new(alloc);
    for call in &CALLS {
        make(&mut counting, *call, bytes.as_slice()).expect(rt, "a call that is counted");
        make(&mut &mut memory, *call, bytes.as_slice()).expect(rt, "a call of memory");
    }
    (ByteSink::len(&counting), ByteSink::len(&memory))
}

#[test]
fn a_count_is_the_length_of_what_is_written(rt: HostRuntime) {
    assert_that(&rt, "calls", lengths(&rt, rt.alloc()) == (201_095, 201_095));
}
