//! How often a source is called: a disk is asked once for its length, and then by a seek and a read for each block of a
//! window, each part that is larger, and each sample.

use crate::asserts::assert_equal;
use crate::disk::Disk;
use crate::movies::{fragmented_file, many_boxes, padded_file, two_terabytes};
use mp4_media::{Mp4File, SeekSource};
use std::alloc::Global;
use std::process::Abort;

/// A file on a disk.
type DiskFile<'a> = Mp4File<SeekSource<Disk<'a>>>;

/// The whole file of a disk that has these bytes and says that it has so many.
fn open<'a>(rt: &impl Abort, alloc: Global, bytes: &'a [u8], len: usize) -> DiskFile<'a> {
    let mut disk = Disk::new(bytes);
    disk.len = len;
    disk.later_len = len;
    Mp4File::open(alloc, SeekSource::new(disk), 0, len as u64).expect(rt, "the file opens")
}

/// How often the disk of a file was called.
fn calls_of(file: DiskFile) -> u64 {
    file.into_inner().into_inner().calls
}

fn calls_for_a_block(rt: &impl Abort, alloc: Global) -> u64 {
    let bytes = fragmented_file(rt, alloc);
    calls_of(open(rt, alloc, bytes.as_slice(), bytes.len()))
}

/// Those of a file of 10,000 boxes of 8 bytes, which are three blocks.
fn calls_for_many_boxes(rt: &impl Abort, alloc: Global) -> u64 {
    let bytes = many_boxes(rt, alloc, 10_000);
    calls_of(open(rt, alloc, bytes.as_slice(), bytes.len()))
}

/// Those of a file with a box of 50,000 bytes before its movie of 40,855.
fn calls_for_large_boxes(rt: &impl Abort, alloc: Global) -> u64 {
    let bytes = padded_file(rt, alloc, 50_000, 40_000);
    calls_of(open(rt, alloc, bytes.as_slice(), bytes.len()))
}

/// Those of a file of 2 TiB, of which all but the first 903 bytes are data.
fn calls_for_two_terabytes(rt: &impl Abort, alloc: Global) -> u64 {
    let bytes = two_terabytes(rt, alloc);
    let len = bytes.len().saturating_add(1 << 41);
    calls_of(open(rt, alloc, bytes.as_slice(), len))
}

#[test]
fn a_file_is_opened_by_a_read_a_block(rt: HostRuntime) {
    let alloc = rt.alloc();
    assert_equal(&rt, calls_for_a_block(&rt, alloc), 3);
    assert_equal(&rt, calls_for_many_boxes(&rt, alloc), 7);
    // Blocks at the file's begin, at the movie and after it; and the movie, which is larger than a block.
    assert_equal(&rt, calls_for_large_boxes(&rt, alloc), 9);
    assert_equal(&rt, calls_for_two_terabytes(&rt, alloc), 3);
}

/// How often the disk of a file is called by one sample, read into a buffer, and by one that isn't there.
fn calls_for_a_sample(rt: &impl Abort, alloc: Global, k: u32) -> u64 {
    let bytes = fragmented_file(rt, alloc);
    let mut file = open(rt, alloc, bytes.as_slice(), bytes.len());
    let mut buffer = Vec::new(alloc);
    let _ = file
        .read_sample_into(1, k, &mut buffer)
        .expect(rt, "the sample is read");
    calls_of(file).saturating_sub(3)
}

#[test]
fn a_sample_is_read_by_one_seek_and_one_read(rt: HostRuntime) {
    let alloc = rt.alloc();
    assert_equal(&rt, calls_for_a_sample(&rt, alloc, 1), 2);
    assert_equal(&rt, calls_for_a_sample(&rt, alloc, 3), 2);
    assert_equal(&rt, calls_for_a_sample(&rt, alloc, 7), 2);
    assert_equal(&rt, calls_for_a_sample(&rt, alloc, 8), 0);
}
