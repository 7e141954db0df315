//! Files that were written, compared with those that they were made of.

use crate::asserts::assert_that;
use crate::files::{data_first, file_type, front};
use crate::sources::Refusing;
use mp4_media::Error;
use mp4_remux::{RemuxError, check_samples};
use std::alloc::Global;
use std::process::Abort;

/// Where the sample data is in the file with its movie box in front, which has 32 + 855 bytes before the data.
const SAMPLES: usize = 903;

/// Where numbers of its movie box have their last byte: the duration of each sample, the number of the third sync
/// sample, the size of the third sample, and the id of the track.
const DURATION: usize = 32 + 518;

const SYNC: usize = 32 + 546;

const SIZE: usize = 32 + 618;

const TRACK_ID: usize = 32 + 147;

/// What a check says of the file with its movie box in front where the byte at a place is one more.
fn answer_with(rt: &impl Abort, alloc: Global, place: usize) -> Result<(), RemuxError> {
    let file = data_first(rt, alloc);
    let mut written = front(rt, alloc);
    if let Some(byte) = written.get_mut(place) {
        *byte = byte.wrapping_add(1);
    }
    check_samples(alloc, file.as_slice(), written.as_slice(), &[1])
}

/// Whether the file with its movie box in front passes, and doesn't with another byte in one of its samples.
fn notices_other_bytes(rt: &impl Abort, alloc: Global) -> bool {
    answer_with(rt, alloc, usize::MAX).expect(rt, "the samples are the same");
    let samples = [1, 1, 1, 2, 2, 2, 3, 3];
    for (index, number) in samples.iter().enumerate() {
        match answer_with(rt, alloc, SAMPLES + index) {
            Err(RemuxError::Differs(1, found)) if found == *number => {}
            _ => return false,
        }
    }
    true
}

#[test]
fn each_byte_of_a_sample_is_compared(rt: HostRuntime) {
    assert_that(&rt, notices_other_bytes(&rt, rt.alloc()));
}

/// Whether another duration, mark or size of a sample is noticed, and another id of its track.
fn notices_other_tables(rt: &impl Abort, alloc: Global) -> bool {
    matches!(
        answer_with(rt, alloc, DURATION),
        Err(RemuxError::Differs(1, 1))
    ) && matches!(answer_with(rt, alloc, SYNC), Err(RemuxError::Differs(1, 3)))
        && matches!(answer_with(rt, alloc, SIZE), Err(RemuxError::Differs(1, 3)))
        && matches!(
            answer_with(rt, alloc, TRACK_ID),
            Err(RemuxError::OtherTracks)
        )
}

#[test]
fn times_marks_and_sizes_are_compared(rt: HostRuntime) {
    assert_that(&rt, notices_other_tables(&rt, rt.alloc()));
}

/// Whether tracks are asked for by their ids: each of the written file, and none that isn't there.
fn asks_for_tracks(rt: &impl Abort, alloc: Global) -> bool {
    let file = data_first(rt, alloc);
    let written = front(rt, alloc);
    let none = check_samples(alloc, file.as_slice(), written.as_slice(), &[]);
    let other = check_samples(alloc, file.as_slice(), written.as_slice(), &[7]);
    let no_movie = check_samples(alloc, file.as_slice(), file_type(), &[1]);
    let no_file = check_samples(alloc, file_type(), written.as_slice(), &[1]);
    matches!(none, Err(RemuxError::OtherTracks))
        && matches!(other, Err(RemuxError::Mp4(Error::TrakNotFound(7))))
        && matches!(no_movie, Err(RemuxError::OtherTracks))
        && matches!(no_file, Err(RemuxError::Mp4(Error::BoxNotFound(_))))
}

#[test]
fn a_check_is_of_all_tracks_that_were_written(rt: HostRuntime) {
    assert_that(&rt, asks_for_tracks(&rt, rt.alloc()));
}

/// Whether each read of either file is refused in turn, and the answer says of which file.
fn names_each_refused_read(rt: &impl Abort, alloc: Global) -> bool {
    let file = data_first(rt, alloc);
    let written = front(rt, alloc);
    for n in 1..1000 {
        let read = check_samples(alloc, Refusing::new(&file, n), written.as_slice(), &[1]);
        let back = check_samples(alloc, file.as_slice(), Refusing::new(&written, n), &[1]);
        match (read, back) {
            (Err(RemuxError::Read(_)), Err(RemuxError::Write(_))) => {}
            (Ok(()), Ok(())) => return n > 3,
            _ => return false,
        }
    }
    false
}

#[test]
fn a_file_that_refuses_a_read_is_named(rt: HostRuntime) {
    assert_that(&rt, names_each_refused_read(&rt, rt.alloc()));
}
