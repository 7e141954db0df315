//! Files whose length changes after they were opened.

use crate::answers::{has_same_boxes, is_read, kind_of, reads_track};
use crate::asserts::{assert_equal, assert_that};
use crate::disk::Disk;
use crate::movies::{SECOND_CHUNK, fragmented_file, movie_file, put, with_number};
use mp4_codec::Error;
use mp4_media::{FileError, Mp4File, Mp4Sample, SeekSource, read_mp4};
use std::alloc::Global;
use std::io::ErrorKind;
use std::process::Abort;

/// How often a disk is called by the opening of a small file: it seeks its length, then it seeks and reads once.
const OPENING_CALLS: u64 = 3;

/// The file of so many of these bytes, which has another length after the opening.
fn changing<'a>(
    rt: &impl Abort,
    alloc: Global,
    bytes: &'a [u8],
    len: usize,
    later_len: usize,
) -> Mp4File<SeekSource<Disk<'a>>> {
    let mut disk = Disk::new(bytes);
    disk.len = len;
    disk.later_len = later_len;
    disk.changes_after = OPENING_CALLS;
    Mp4File::open(alloc, SeekSource::new(disk), 0, len as u64).expect(rt, "the file opens")
}

/// Whether a file that grows has the samples that it had.
fn grows(rt: &impl Abort, alloc: Global) -> bool {
    let mut bytes = fragmented_file(rt, alloc);
    let len = bytes.len();
    put(rt, &mut bytes, b"\0\0\0\x10freemore more");
    let before = bytes.as_slice().get(..len).unwrap_or(&[]);
    let reader = read_mp4(alloc, before).expect(rt, "the movie opens");
    let mut file = changing(rt, alloc, bytes.as_slice(), len, bytes.len());
    let mut buffer = Vec::with_capacity(alloc, 100).expect(rt, "memory");
    reads_track(&mut file, &reader, 1, &mut buffer)
        && has_same_boxes(&file, &reader)
        && file.source_len() == len as u64
}

#[test]
fn a_file_that_grows_keeps_its_samples(rt: HostRuntime) {
    assert_that(&rt, "grows", grows(&rt, rt.alloc()));
}

/// Whether an answer is a sample of these bytes.
fn has_bytes(answer: &Result<Option<Mp4Sample>, FileError>, bytes: &[u8]) -> bool {
    matches!(answer, Ok(Some(sample)) if sample.bytes.as_slice() == bytes)
}

/// The movie, whose third sample is in a box after it, and the length of the movie alone.
fn with_last_sample_after(rt: &impl Abort, alloc: Global) -> (Vec<u8>, usize) {
    let movie = movie_file(rt, alloc);
    let place = u32::try_from(movie.len().saturating_add(8)).unwrap_or(u32::MAX);
    let mut bytes = with_number(rt, alloc, movie.as_slice(), b"stco", SECOND_CHUNK, place);
    put(rt, &mut bytes, b"\0\0\0\x0amdatgh");
    (bytes, movie.len())
}

/// Whether a sample after the end that a file had is refused, though the file has grown by it, and is read where the
/// file is opened again.
fn is_past_the_end(rt: &impl Abort, alloc: Global) -> bool {
    let (bytes, len) = with_last_sample_after(rt, alloc);
    let mut file = changing(rt, alloc, bytes.as_slice(), len, bytes.len());
    let is_refused = is_read(&file.read_sample(1, 3), &Err(Error::EndOfData));
    drop(file);
    let mut file = changing(rt, alloc, bytes.as_slice(), bytes.len(), bytes.len());
    is_refused && has_bytes(&file.read_sample(1, 3), b"gh")
}

#[test]
fn a_sample_that_a_file_grows_by_is_end_of_data(rt: HostRuntime) {
    assert_that(&rt, "past the end", is_past_the_end(&rt, rt.alloc()));
}

/// The kinds of error of samples of a file that shrinks to 52 bytes, in the middle of the second, and whether the first
/// is read before and after.
fn kinds_of_a_shrunken_file(rt: &impl Abort, alloc: Global) -> ([Option<ErrorKind>; 3], bool) {
    let bytes = fragmented_file(rt, alloc);
    let mut file = changing(rt, alloc, bytes.as_slice(), bytes.len(), 52);
    let before = has_bytes(&file.read_sample(1, 1), b"abc");
    let second = kind_of(&file.read_sample(1, 2));
    let third = kind_of(&file.read_sample(1, 3));
    let last = kind_of(&file.read_sample(1, 7));
    let after = has_bytes(&file.read_sample(1, 1), b"abc");
    ([second, third, last], before && after)
}

#[test]
fn a_sample_that_is_gone_is_an_error_of_reading(rt: HostRuntime) {
    let end = Some(ErrorKind::UnexpectedEof);
    let kinds = kinds_of_a_shrunken_file(&rt, rt.alloc());
    assert_equal(&rt, kinds, ([end, end, end], true));
}
