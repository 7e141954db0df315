//! Sources that refuse one call of all those that a file is opened and read by.

use crate::answers::{has_same_boxes, is_read, is_read_into, kind_of};
use crate::asserts::assert_that;
use crate::disk::Disk;
use crate::movies::{fragmented_file, padded_file};
use mp4_media::{ByteSource, FileError, Mp4File, Mp4Reader, SeekSource, read_mp4};
use std::alloc::Global;
use std::io::ErrorKind;
use std::process::Abort;

/// What became of the calls of a file.
#[derive(Clone, Copy, Debug, PartialEq, Eq)]
pub struct Outcome {
    /// How many calls were refused by the source.
    pub refused: u32,
    /// Whether all others answered as they should, and the refused ones when they were made again.
    pub is_right: bool,
}

/// Reads a sample, again after a refusal, which has to leave the movie.
fn read_again<S: ByteSource + Drop>(
    file: &mut Mp4File<S>,
    reader: &Mp4Reader,
    k: u32,
    outcome: &mut Outcome,
) {
    let expected = reader.read_sample_ref(1, k);
    let mut answer = file.read_sample(1, k);
    if kind_of(&answer) == Some(ErrorKind::PermissionDenied) {
        outcome.refused = outcome.refused.saturating_add(1);
        outcome.is_right = outcome.is_right && has_same_boxes(file, reader);
        answer = file.read_sample(1, k);
    }
    outcome.is_right = outcome.is_right && is_read(&answer, &expected);
}

/// The same of reading it into a buffer.
fn read_into_again<S: ByteSource + Drop>(
    file: &mut Mp4File<S>,
    reader: &Mp4Reader,
    k: u32,
    buffer: &mut Vec<u8>,
    outcome: &mut Outcome,
) {
    let expected = reader.read_sample_ref(1, k);
    let mut answer = file.read_sample_into(1, k, buffer);
    if kind_of(&answer) == Some(ErrorKind::PermissionDenied) {
        outcome.refused = outcome.refused.saturating_add(1);
        outcome.is_right = outcome.is_right && has_same_boxes(file, reader);
        answer = file.read_sample_into(1, k, buffer);
    }
    outcome.is_right = outcome.is_right && is_read_into(&answer, buffer.as_slice(), &expected);
}

/// Reads each sample of the track, the number 0 and one past the last, by both calls.
fn read_all<S: ByteSource + Drop>(
    alloc: Global,
    file: &mut Mp4File<S>,
    reader: &Mp4Reader,
    outcome: &mut Outcome,
) {
    let mut buffer = Vec::new(alloc);
    outcome.is_right = outcome.is_right && has_same_boxes(file, reader);
    for k in 0..=8 {
        read_again(file, reader, k, outcome);
        read_into_again(file, reader, k, &mut buffer, outcome);
    }
}

/// Opens the file, again after a refusal, and reads it.
fn open_and_read<S: ByteSource + Drop>(
    rt: &impl Abort,
    alloc: Global,
    bytes: &[u8],
    source: &mut S,
) -> Outcome {
    let size = bytes.len() as u64;
    let reader = read_mp4(alloc, bytes).expect(rt, "the movie opens");
    let mut outcome = Outcome {
        refused: 0,
        is_right: true,
    };
    match Mp4File::open(alloc, &mut *source, 0, size) {
        Ok(mut file) => {
            read_all(alloc, &mut file, &reader, &mut outcome);
            return outcome;
        }
        Err(FileError::Io(error)) => {
            outcome.is_right = error.kind() == ErrorKind::PermissionDenied;
        }
        Err(_) => outcome.is_right = false,
    }
    outcome.refused = 1;
    let mut file = Mp4File::open(alloc, source, 0, size).expect(rt, "the file opens");
    read_all(alloc, &mut file, &reader, &mut outcome);
    outcome
}

/// What became of them on a disk that refuses its call of this number, and how often it was called.
fn outcome_of(
    rt: &impl Abort,
    alloc: Global,
    bytes: &[u8],
    share: usize,
    refused: u64,
) -> (Outcome, u64) {
    let mut disk = Disk::new(bytes);
    disk.share = share;
    disk.refused = refused;
    let mut source = SeekSource::new(disk);
    let outcome = open_and_read(rt, alloc, bytes, &mut source);
    (outcome, source.into_inner().calls)
}

/// Whether each call that is refused leaves the movie, and made again is Ok.
fn recovers(rt: &impl Abort, alloc: Global, bytes: &[u8], share: usize) -> bool {
    let (whole, calls) = outcome_of(rt, alloc, bytes, share, 0);
    let mut all = whole.is_right && whole.refused == 0;
    for refused in 1..calls.saturating_add(1) {
        let (outcome, _) = outcome_of(rt, alloc, bytes, share, refused);
        all = all && outcome.is_right && outcome.refused == 1;
    }
    all
}

/// The same of the fragmented file.
fn fragments_recover(rt: &impl Abort, alloc: Global, share: usize) -> bool {
    let bytes = fragmented_file(rt, alloc);
    recovers(rt, alloc, bytes.as_slice(), share)
}

/// The same of a file whose movie is larger than a window, after a box that is.
fn large_movie_recovers(rt: &impl Abort, alloc: Global) -> bool {
    let bytes = padded_file(rt, alloc, 50_000, 40_000);
    recovers(rt, alloc, bytes.as_slice(), 1)
}

#[test]
fn a_refused_read_leaves_the_movie(rt: HostRuntime) {
    assert_that(&rt, "whole reads", fragments_recover(&rt, rt.alloc(), 1));
    assert_that(&rt, "half reads", fragments_recover(&rt, rt.alloc(), 2));
    assert_that(&rt, "large movie", large_movie_recovers(&rt, rt.alloc()));
}
