//! Cut files: a file over a source is refused as its bytes in memory are, or opened as they are.

use crate::answers::has_same_boxes;
use crate::asserts::assert_equal;
use crate::movies::{fragmented_file, movie_file, put};
use mp4_codec::{ByteCursor, Error};
use mp4_media::{ByteSource, FileError, Mp4File, Mp4Reader, SeekSource};
use std::alloc::Global;
use std::io::Cursor;
use std::process::Abort;

/// How many openings were compared: those that weren't alike, and those by which a file was opened.
#[derive(Clone, Copy, Debug, PartialEq, Eq)]
pub struct Openings {
    pub differing: u32,
    pub opened: u32,
}

/// Whether two errors are equal, and so are their texts.
fn is_same_error(rt: &impl Abort, alloc: Global, one: &FileError, other: &Error) -> bool {
    let FileError::Mp4(error) = one else {
        return false;
    };
    let is_same_text = format!(in alloc; "{one}").expect(rt, "memory")
        == format!(in alloc; "{other}").expect(rt, "memory");
    is_same_text && *error == *other
}

/// Whether both were opened alike, or refused alike.
fn is_same_opening<S: ByteSource>(
    rt: &impl Abort,
    alloc: Global,
    file: &Result<Mp4File<S>, FileError>,
    reader: &Result<Mp4Reader, Error>,
) -> bool {
    match (file, reader) {
        (Ok(file), Ok(reader)) => has_same_boxes(file, reader),
        (Err(one), Err(other)) => is_same_error(rt, alloc, one, other),
        _ => false,
    }
}

impl Openings {
    fn none() -> Self {
        Openings {
            differing: 0,
            opened: 0,
        }
    }

    /// Opens a file of this size from this place of the bytes on, in memory and by seeking.
    fn add(&mut self, rt: &impl Abort, alloc: Global, bytes: &[u8], start: u64, size: u64) {
        let mut cursor = ByteCursor::new(bytes);
        cursor.set_position(start);
        let reader = Mp4Reader::read_header(alloc, cursor, size);
        let file = Mp4File::open(alloc, SeekSource::new(Cursor::new(bytes)), start, size);
        if !is_same_opening(rt, alloc, &file, &reader) {
            self.differing = self.differing.saturating_add(1);
        }
        if file.is_ok() {
            self.opened = self.opened.saturating_add(1);
        }
    }
}

/// The openings of all cuts of these bytes, with their whole size, from a place on.
fn cuts_of(rt: &impl Abort, alloc: Global, bytes: &[u8], start: u64) -> Openings {
    let mut openings = Openings::none();
    for n in 0..=bytes.len() {
        let cut = bytes.get(..n).unwrap_or(&[]);
        openings.add(rt, alloc, cut, start, bytes.len() as u64);
    }
    openings
}

/// The openings of these bytes with all sizes up to a few past theirs.
fn sizes_of(rt: &impl Abort, alloc: Global, bytes: &[u8]) -> Openings {
    let mut openings = Openings::none();
    for size in 0..bytes.len().saturating_add(10) {
        openings.add(rt, alloc, bytes, 0, size as u64);
    }
    openings
}

/// The openings of these bytes from all places on, up to a few past their end.
fn starts_of(rt: &impl Abort, alloc: Global, bytes: &[u8]) -> Openings {
    let mut openings = Openings::none();
    for start in 0..bytes.len().saturating_add(10) {
        openings.add(rt, alloc, bytes, start as u64, bytes.len() as u64);
    }
    openings.add(rt, alloc, bytes, u64::MAX, u64::MAX);
    openings.add(rt, alloc, bytes, u64::MAX - 8, u64::MAX);
    openings
}

fn cuts_of_a_movie(rt: &impl Abort, alloc: Global) -> Openings {
    let bytes = movie_file(rt, alloc);
    cuts_of(rt, alloc, bytes.as_slice(), 0)
}

fn cuts_of_fragments(rt: &impl Abort, alloc: Global) -> Openings {
    let bytes = fragmented_file(rt, alloc);
    cuts_of(rt, alloc, bytes.as_slice(), 0)
}

/// Those of the fragmented file after seven bytes of something else.
fn cuts_after_a_prefix(rt: &impl Abort, alloc: Global) -> Openings {
    let mut bytes = b"ftypmoo".to_vec(alloc).expect(rt, "memory");
    put(rt, &mut bytes, fragmented_file(rt, alloc).as_slice());
    cuts_of(rt, alloc, bytes.as_slice(), 7)
}

fn sizes_of_fragments(rt: &impl Abort, alloc: Global) -> Openings {
    let bytes = fragmented_file(rt, alloc);
    sizes_of(rt, alloc, bytes.as_slice())
}

fn starts_of_fragments(rt: &impl Abort, alloc: Global) -> Openings {
    let bytes = fragmented_file(rt, alloc);
    starts_of(rt, alloc, bytes.as_slice())
}

/// None that differs, and so many that are opened.
fn opened(opened: u32) -> Openings {
    Openings {
        differing: 0,
        opened,
    }
}

#[test]
fn every_cut_of_a_movie_has_its_error(rt: HostRuntime) {
    assert_equal(&rt, cuts_of_a_movie(&rt, rt.alloc()), opened(1));
}

#[test]
fn every_cut_of_a_fragmented_file_has_its_error(rt: HostRuntime) {
    assert_equal(&rt, cuts_of_fragments(&rt, rt.alloc()), opened(3));
}

#[test]
fn every_cut_after_a_prefix_has_its_error(rt: HostRuntime) {
    assert_equal(&rt, cuts_after_a_prefix(&rt, rt.alloc()), opened(3));
}

#[test]
fn every_size_of_a_fragmented_file_has_its_answer(rt: HostRuntime) {
    // Up to 911 the movie's own size is the least; from there on 1 to 7 bytes after a box are too few, and any number
    // past the end: 57 sizes end in the movie, 25 in the event message, 145 in the fragment and 3 in the free box.
    assert_equal(&rt, sizes_of_fragments(&rt, rt.alloc()), opened(230));
}

#[test]
fn every_start_in_a_fragmented_file_has_its_answer(rt: HostRuntime) {
    assert_equal(&rt, starts_of_fragments(&rt, rt.alloc()), opened(1));
}

/// The error of a file whose movie says that it has 2^62 bytes, for which nobody has memory, and has none.
fn missing_movie(rt: &impl Abort, alloc: Global) -> bool {
    let mut bytes = fragmented_file(rt, alloc);
    put(rt, &mut bytes, b"\0\0\0\x01moov");
    put(rt, &mut bytes, &(1u64 << 62).to_be_bytes());
    let source = SeekSource::new(Cursor::new(bytes.as_slice()));
    let answer = Mp4File::open(alloc, source, 0, 1 << 63);
    matches!(answer, Err(FileError::Mp4(Error::EndOfData)))
}

#[test]
fn a_box_that_is_not_there_is_end_of_data(rt: HostRuntime) {
    assert_equal(&rt, missing_movie(&rt, rt.alloc()), true);
}
