//! Files of random boxes in a random order, some of them cut: their bytes, and what a plain program keeps of them.

use crate::puts::{begin_box, put, put_bytes, put_pair};
use mp4_codec::Error;
use mp4_plain_movies::movie_bytes::EMPTY_MOVIE;
use mp4_plain_movies::plain_bytes::{end_box, put_over};
use mp4_plain_movies::random::Random;
use mp4_plain_movies::random_tables::random_track;
use std::alloc::Global;
use std::process::Abort;

/// A file as a plain program keeps it: its bytes, and what they say.
#[derive(Drop)]
pub struct PlainFile {
    pub bytes: Vec<u8>,
    pub has_file_type: bool,
    pub has_movie: bool,
    /// The ids of the last movie's tracks, in file order.
    pub ids: Vec<u32>,
    /// The ids and durations of the last movie's defaults of fragments, in file order.
    pub defaults: Vec<(u32, u32)>,
    /// The ids of all track fragments, in file order.
    pub parts: Vec<u32>,
}

impl PlainFile {
    pub fn new(alloc: Global) -> Self {
        PlainFile {
            bytes: Vec::new(alloc),
            has_file_type: false,
            has_movie: false,
            ids: Vec::new(alloc),
            defaults: Vec::new(alloc),
            parts: Vec::new(alloc),
        }
    }
}

/// Puts a track of random tables; its timescale says the how manieth of its movie it is.
fn put_track(
    rt: &impl Abort,
    alloc: Global,
    file: &mut PlainFile,
    random: &mut Random,
    place: u32,
) {
    let id = match random.below(64) {
        0 => 0,
        1..=20 => random.few().wrapping_add(1),
        _ => place,
    };
    let mut track = random_track(alloc, random).expect(rt, "memory");
    put_over(&mut track, 20, id);
    put_over(&mut track, 120, place);
    let start = begin_box(rt, &mut file.bytes, b"trak");
    put_bytes(rt, &mut file.bytes, &track);
    end_box(&mut file.bytes, start);
    file.ids.push(id).expect(rt, "memory");
}

/// Puts the defaults of fragments of up to four tracks.
fn put_defaults(rt: &impl Abort, file: &mut PlainFile, random: &mut Random) {
    let start = begin_box(rt, &mut file.bytes, b"mvex");
    for _ in 0..=random.few() {
        let default = (random.few(), random.next());
        put_bytes(rt, &mut file.bytes, b"\0\0\0\x20trex\0\0\0\0");
        put_pair(rt, &mut file.bytes, default.0, 1);
        put_pair(rt, &mut file.bytes, default.1, 0);
        put(rt, &mut file.bytes, 0);
        file.defaults.push(default).expect(rt, "memory");
    }
    end_box(&mut file.bytes, start);
}

/// Puts a movie of one to four tracks, half of them with defaults of fragments.
fn put_movie(rt: &impl Abort, alloc: Global, file: &mut PlainFile, random: &mut Random) {
    file.has_movie = true;
    file.ids.clear();
    file.defaults.clear();
    let start = begin_box(rt, &mut file.bytes, b"moov");
    put_bytes(rt, &mut file.bytes, &EMPTY_MOVIE[56..]);
    for place in 1..=random.few().wrapping_add(1) {
        put_track(rt, alloc, file, random, place);
    }
    if random.chance() {
        put_defaults(rt, file, random);
    }
    end_box(&mut file.bytes, start);
}

/// Puts a fragment of up to three parts, mostly of track 1.
fn put_fragment(rt: &impl Abort, file: &mut PlainFile, random: &mut Random) {
    let start = begin_box(rt, &mut file.bytes, b"moof\0\0\0\x10mfhd\0\0\0\0\0\0\0\x01");
    for _ in 0..random.few() {
        let id = match random.below(16) {
            0 => random.few(),
            1..=3 => 2,
            _ => 1,
        };
        put_bytes(rt, &mut file.bytes, b"\0\0\0\x18traf\0\0\0\x10tfhd\0\0\0\0");
        put(rt, &mut file.bytes, id);
        file.parts.push(id).expect(rt, "memory");
    }
    end_box(&mut file.bytes, start);
}

/// Puts media data.
pub fn put_data(rt: &impl Abort, bytes: &mut Vec<u8>, random: &mut Random) {
    let start = begin_box(rt, bytes, b"mdat");
    for _ in 0..random.byte() {
        bytes.push(random.byte()).expect(rt, "memory");
    }
    end_box(bytes, start);
}

/// A message of version 0.
const MESSAGE: [u8; 35] =
    *b"\0\0\0\x23emsg\0\0\0\0a\0bc\0\0\0\0\x01\0\0\0\x02\0\0\0\x03\0\0\0\x04de";

/// Puts a random box. Whether it is one that is read.
fn put_box(rt: &impl Abort, alloc: Global, file: &mut PlainFile, random: &mut Random) -> bool {
    match random.below(16) {
        0..=3 => {
            file.has_file_type = true;
            put_bytes(rt, &mut file.bytes, &EMPTY_MOVIE[..32]);
        }
        4..=8 => put_movie(rt, alloc, file, random),
        9..=12 => put_fragment(rt, file, random),
        13 => put_bytes(rt, &mut file.bytes, &MESSAGE),
        _ => {
            put_data(rt, &mut file.bytes, random);
            return false;
        }
    }
    true
}

/// What refuses a file whose last box, of so many bytes, is cut.
fn cut_fault(file: &PlainFile, start: usize, size: usize, is_read: bool) -> Option<Error> {
    match file.bytes.len().saturating_sub(start) {
        0 => None,
        1..=7 => Some(Error::EndOfData),
        _ if size > file.bytes.len() => Some(Error::InvalidData("")),
        _ if is_read => Some(Error::EndOfData),
        _ => None,
    }
}

/// Puts a box that is cut. The answer is what refuses the file then.
fn put_cut(
    rt: &impl Abort,
    alloc: Global,
    file: &mut PlainFile,
    random: &mut Random,
) -> Option<Error> {
    let mut cut = PlainFile::new(alloc);
    let is_read = put_box(rt, alloc, &mut cut, random);
    let start = file.bytes.len();
    let size = cut.bytes.len();
    let rest = random.below(u32::try_from(size).unwrap_or(0)) as usize;
    let rest = cut.bytes.get(..rest).unwrap_or(&[]);
    put_bytes(rt, &mut file.bytes, rest);
    cut_fault(file, start, size, is_read)
}

/// Puts 4 to 11 boxes, and in one of four files one more that is cut. The answer is what refuses the file then.
pub fn put_boxes(
    rt: &impl Abort,
    alloc: Global,
    file: &mut PlainFile,
    random: &mut Random,
) -> Option<Error> {
    for _ in 0..random.below(8).wrapping_add(4) {
        put_box(rt, alloc, file, random);
    }
    match random.few() {
        0 => put_cut(rt, alloc, file, random),
        _ => None,
    }
}
