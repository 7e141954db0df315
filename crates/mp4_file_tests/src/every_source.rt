//! A file is the same whatever its bytes are read from.

use crate::answers::{has_same_boxes, reads_track};
use crate::asserts::{assert_equal, assert_that};
use crate::disk::Disk;
use crate::movies::{fragmented_file, movie_file, padded_file};
use mp4_media::{ByteSource, Mp4File, SeekSource, Window, read_mp4};
use std::alloc::Global;
use std::io::Cursor;
use std::process::Abort;

/// Whether the file of a source has all that the file of these bytes has.
fn is_same_file<S: ByteSource + Drop>(
    rt: &impl Abort,
    alloc: Global,
    bytes: &[u8],
    source: S,
) -> bool {
    let size = bytes.len() as u64;
    let reader = read_mp4(alloc, bytes).expect(rt, "the movie opens");
    let mut file = Mp4File::open(alloc, source, 0, size).expect(rt, "the file opens");
    let mut buffer = Vec::with_capacity(alloc, 100).expect(rt, "memory");
    let are_samples = reads_track(&mut file, &reader, 1, &mut buffer)
        && reads_track(&mut file, &reader, 2, &mut buffer)
        && reads_track(&mut file, &reader, 0, &mut buffer);
    are_samples && file.source_len() == size && has_same_boxes(&file, &reader)
}

/// The same of bytes in memory, also through a window, and of a cursor over them.
fn is_same_in_memory(rt: &impl Abort, alloc: Global, bytes: &[u8]) -> bool {
    let window = Window::new(alloc, bytes).expect(rt, "memory");
    let sought = SeekSource::new(Cursor::new(bytes));
    is_same_file(rt, alloc, bytes, bytes)
        && is_same_file(rt, alloc, bytes, window)
        && is_same_file(rt, alloc, bytes, sought)
}

/// The same of a disk whose reads give this share of what is asked for.
fn is_same_on_disk(rt: &impl Abort, alloc: Global, bytes: &[u8], share: usize) -> bool {
    let mut disk = Disk::new(bytes);
    disk.share = share;
    is_same_file(rt, alloc, bytes, SeekSource::new(disk))
}

/// The same of each kind of source.
fn is_same_from_all(rt: &impl Abort, alloc: Global, bytes: &[u8]) -> bool {
    is_same_in_memory(rt, alloc, bytes)
        && is_same_on_disk(rt, alloc, bytes, 1)
        && is_same_on_disk(rt, alloc, bytes, 2)
        && is_same_on_disk(rt, alloc, bytes, usize::MAX)
}

/// The same of the movie.
fn is_same_movie(rt: &impl Abort, alloc: Global) -> bool {
    let bytes = movie_file(rt, alloc);
    is_same_from_all(rt, alloc, bytes.as_slice())
}

/// The same of the movie with a fragment.
fn is_same_fragmented_movie(rt: &impl Abort, alloc: Global) -> bool {
    let bytes = fragmented_file(rt, alloc);
    is_same_from_all(rt, alloc, bytes.as_slice())
}

#[test]
fn every_source_gives_the_same_movie(rt: HostRuntime) {
    assert_that(&rt, "movie", is_same_movie(&rt, rt.alloc()));
    assert_that(&rt, "fragments", is_same_fragmented_movie(&rt, rt.alloc()));
}

/// The same of a file whose movie is larger than a window.
fn is_same_large_movie(rt: &impl Abort, alloc: Global) -> bool {
    let bytes = padded_file(rt, alloc, 8, 40_000);
    is_same_from_all(rt, alloc, bytes.as_slice())
}

#[test]
fn every_source_gives_the_same_large_movie(rt: HostRuntime) {
    assert_that(&rt, "large", is_same_large_movie(&rt, rt.alloc()));
}

/// Whether the movie is the same on a disk where it begins at places near the end of the first 32 KiB.
fn is_same_at_the_end_of_a_block(rt: &impl Abort, alloc: Global) -> bool {
    let mut all = true;
    for place in 32_750usize..32_770 {
        let bytes = padded_file(rt, alloc, place.saturating_sub(56), 33_000);
        all = all && is_same_on_disk(rt, alloc, bytes.as_slice(), 2);
    }
    all
}

#[test]
fn a_movie_at_the_end_of_a_block_is_the_same(rt: HostRuntime) {
    assert_that(&rt, "block", is_same_at_the_end_of_a_block(&rt, rt.alloc()));
}

/// How many fragments, event messages and samples the fragmented file has.
fn counts(rt: &impl Abort, alloc: Global) -> (usize, usize, u32) {
    let bytes = fragmented_file(rt, alloc);
    let size = bytes.len() as u64;
    let file = Mp4File::open(alloc, bytes.as_slice(), 0, size).expect(rt, "the file opens");
    let samples = file.sample_count(1).expect(rt, "the track is there");
    (file.moofs.len(), file.emsgs.len(), samples)
}

#[test]
fn a_fragmented_file_has_seven_samples(rt: HostRuntime) {
    assert_equal(&rt, counts(&rt, rt.alloc()), (1, 1, 7));
}

/// The length of a buffer after this sample is read into it.
fn length_with<S: ByteSource + Drop>(
    rt: &impl Abort,
    file: &mut Mp4File<S>,
    k: u32,
    buffer: &mut Vec<u8>,
) -> usize {
    file.read_sample_into(1, k, buffer)
        .expect(rt, "the sample is read");
    buffer.len()
}

/// The lengths of a buffer with no room, after each of three samples is read into it, and the last one's bytes.
fn buffer_lengths(rt: &impl Abort, alloc: Global) -> ([usize; 3], bool) {
    let bytes = movie_file(rt, alloc);
    let size = bytes.len() as u64;
    let source = SeekSource::new(Cursor::new(bytes.as_slice()));
    let mut file = Mp4File::open(alloc, source, 0, size).expect(rt, "the file opens");
    let mut buffer = Vec::new(alloc);
    let first = length_with(rt, &mut file, 1, &mut buffer);
    let second = length_with(rt, &mut file, 2, &mut buffer);
    let third = length_with(rt, &mut file, 3, &mut buffer);
    (
        [first, second, third],
        buffer.as_slice() == b"gh".as_slice(),
    )
}

#[test]
fn a_buffer_holds_just_the_last_sample(rt: HostRuntime) {
    assert_equal(&rt, buffer_lengths(&rt, rt.alloc()), ([3, 3, 2], true));
}
