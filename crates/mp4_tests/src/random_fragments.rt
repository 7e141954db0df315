//! Random files of fragments, from fixed seeds: their bytes, and what a plain program keeps of them.

use crate::plain_files::put_data;
use crate::plain_fragments::{NOTHING, PlainFragment, PlainPart, PlainRun, PlainValues};
use crate::puts::{begin_box, put, put_bytes, put_pair};
use mp4_plain_movies::movie_bytes::EMPTY_MOVIE;
use mp4_plain_movies::plain_bytes::{end_box, put_over};
use mp4_plain_movies::random::Random;
use mp4_plain_movies::random_tables::random_track;
use std::alloc::Global;
use std::process::Abort;

/// The bytes of a file, and what is said in them of fragments.
#[derive(Drop)]
pub struct RandomFile {
    pub bytes: Vec<u8>,
    /// The ids and values of the movie's defaults of fragments, in file order.
    pub defaults: Vec<(u32, PlainValues)>,
    /// All fragments, in file order.
    pub fragments: Vec<PlainFragment>,
}

/// A small number, and sometimes one of the largest.
fn number(random: &mut Random) -> u32 {
    match random.below(64) {
        0 => u32::MAX.wrapping_sub(random.few()),
        _ => random.below(7),
    }
}

/// A small number of 64 bits, and sometimes one of the largest.
fn long_number(random: &mut Random) -> u64 {
    match random.below(8) {
        0 => u64::MAX.wrapping_sub(u64::from(random.few())),
        _ => u64::from(random.below(2000)),
    }
}

/// A small number, mostly one above 0, and sometimes any other.
fn distance(random: &mut Random) -> i32 {
    match random.below(16) {
        0 => random.next().cast_signed(),
        _ => random.below(2000).cast_signed().wrapping_sub(400),
    }
}

/// Puts a number if its flag is set.
fn put_flagged(
    rt: &impl Abort,
    bytes: &mut Vec<u8>,
    flags: u32,
    flag: u32,
    number: u32,
) -> Option<u32> {
    if flags & flag == 0 {
        return None;
    }
    put(rt, bytes, number);
    Some(number)
}

/// Puts what a run says of a sample.
fn put_sample(
    rt: &impl Abort,
    bytes: &mut Vec<u8>,
    random: &mut Random,
    flags: u32,
) -> PlainValues {
    PlainValues {
        duration: put_flagged(rt, bytes, flags, 0x100, number(random)),
        size: put_flagged(rt, bytes, flags, 0x200, number(random)),
        flags: put_flagged(rt, bytes, flags, 0x400, random.next()),
        composition_offset: put_flagged(rt, bytes, flags, 0x800, random.next()),
    }
}

/// How many samples a run has: mostly few, and sometimes more than a hundred or none.
fn count(random: &mut Random) -> u32 {
    match random.below(8) {
        0 => 0,
        1 => u32::from(random.byte()),
        _ => random.few().wrapping_add(1),
    }
}

/// Puts what a run says of its samples, if it says more than how many there are.
fn put_samples(
    rt: &impl Abort,
    alloc: Global,
    bytes: &mut Vec<u8>,
    random: &mut Random,
    flags: u32,
    count: u32,
) -> Vec<PlainValues> {
    let mut samples = Vec::new(alloc);
    for _ in 0..count {
        let sample = put_sample(rt, bytes, random, flags);
        samples.push(sample).expect(rt, "memory");
    }
    samples
}

/// Puts a run of random flags, in a version that says nothing.
fn put_run(rt: &impl Abort, alloc: Global, bytes: &mut Vec<u8>, random: &mut Random) -> PlainRun {
    let flags = random.next() & 0xf05;
    let count = count(random);
    let version = if random.chance() { 0x100_0000 } else { 0 };
    let start = begin_box(rt, bytes, b"trun");
    put_pair(rt, bytes, version | flags, count);
    let offset = distance(random);
    let data_offset = put_flagged(rt, bytes, flags, 0x1, offset.cast_unsigned());
    let first_flags = put_flagged(rt, bytes, flags, 0x4, random.next());
    let samples = put_samples(rt, alloc, bytes, random, flags, count);
    end_box(bytes, start);
    PlainRun {
        data_offset: data_offset.map(|_| offset),
        first_flags,
        samples,
    }
}

/// Puts the base data offset of a track fragment if its flag is set.
fn put_base_data_offset(
    rt: &impl Abort,
    bytes: &mut Vec<u8>,
    random: &mut Random,
    flags: u32,
) -> Option<u64> {
    if flags & 0x1 == 0 {
        return None;
    }
    let base_data_offset = long_number(random);
    put_bytes(rt, bytes, &base_data_offset.to_be_bytes());
    Some(base_data_offset)
}

/// Puts the header of a track fragment, of random flags; one of four has a base data offset of its own.
fn put_header(
    rt: &impl Abort,
    alloc: Global,
    bytes: &mut Vec<u8>,
    random: &mut Random,
    id: u32,
) -> PlainPart {
    let own_base_data_offset = if random.few() == 0 { 0x1 } else { 0 };
    let flags = random.next() & 0x3_003a | own_base_data_offset;
    let start = begin_box(rt, bytes, b"tfhd");
    put_pair(rt, bytes, flags, id);
    let base_data_offset = put_base_data_offset(rt, bytes, random, flags);
    put_flagged(rt, bytes, flags, 0x2, 1);
    let values = PlainValues {
        duration: put_flagged(rt, bytes, flags, 0x8, number(random)),
        size: put_flagged(rt, bytes, flags, 0x10, number(random)),
        flags: put_flagged(rt, bytes, flags, 0x20, random.next()),
        ..NOTHING
    };
    end_box(bytes, start);
    PlainPart {
        id,
        base_data_offset,
        counts_from_fragment: flags & 0x2_0000 != 0,
        values,
        time: None,
        runs: Vec::new(alloc),
    }
}

/// Puts the time of a track fragment, in 32 or 64 bits, or no time.
fn put_time(rt: &impl Abort, bytes: &mut Vec<u8>, random: &mut Random) -> Option<u64> {
    match random.few() {
        0 => {
            let time = number(random);
            put_bytes(rt, bytes, b"\0\0\0\x10tfdt\0\0\0\0");
            put(rt, bytes, time);
            Some(u64::from(time))
        }
        1 => {
            let time = long_number(random);
            put_bytes(rt, bytes, b"\0\0\0\x14tfdt\x01\0\0\0");
            put_bytes(rt, bytes, &time.to_be_bytes());
            Some(time)
        }
        _ => None,
    }
}

/// Puts a track fragment, with up to three runs.
fn put_part(
    rt: &impl Abort,
    alloc: Global,
    bytes: &mut Vec<u8>,
    random: &mut Random,
    id: u32,
) -> PlainPart {
    let start = begin_box(rt, bytes, b"traf");
    let mut part = put_header(rt, alloc, bytes, random, id);
    part.time = put_time(rt, bytes, random);
    for _ in 0..random.few() {
        let run = put_run(rt, alloc, bytes, random);
        part.runs.push(run).expect(rt, "memory");
    }
    end_box(bytes, start);
    part
}

/// Puts a fragment of up to three parts, each of one of so many tracks.
fn put_fragment(
    rt: &impl Abort,
    alloc: Global,
    bytes: &mut Vec<u8>,
    random: &mut Random,
    tracks: u32,
) -> PlainFragment {
    let mut parts = Vec::new(alloc);
    let start = begin_box(rt, bytes, b"moof\0\0\0\x10mfhd\0\0\0\0\0\0\0\x01");
    for _ in 0..random.few() {
        let id = random.below(tracks).wrapping_add(1);
        let part = put_part(rt, alloc, bytes, random, id);
        parts.push(part).expect(rt, "memory");
    }
    end_box(bytes, start);
    PlainFragment {
        place: start as u64,
        parts,
    }
}

/// Puts a track of random tables.
fn put_track(rt: &impl Abort, alloc: Global, bytes: &mut Vec<u8>, random: &mut Random, id: u32) {
    let mut track = random_track(alloc, random).expect(rt, "memory");
    put_over(&mut track, 20, id);
    let start = begin_box(rt, bytes, b"trak");
    put_bytes(rt, bytes, &track);
    end_box(bytes, start);
}

/// Puts what the movie says of the samples of fragments of a track.
fn put_default(rt: &impl Abort, file: &mut RandomFile, random: &mut Random) {
    let id = random.few();
    let duration = number(random);
    let size = number(random);
    let flags = random.next();
    put_bytes(rt, &mut file.bytes, b"\0\0\0\x20trex\0\0\0\0");
    put_pair(rt, &mut file.bytes, id, 1);
    put_pair(rt, &mut file.bytes, duration, size);
    put(rt, &mut file.bytes, flags);
    let values = PlainValues {
        duration: Some(duration),
        size: Some(size),
        flags: Some(flags),
        ..NOTHING
    };
    file.defaults.push((id, values)).expect(rt, "memory");
}

/// Puts what the movie says of the samples of fragments, of up to four tracks.
fn put_defaults(rt: &impl Abort, file: &mut RandomFile, random: &mut Random) {
    let start = begin_box(rt, &mut file.bytes, b"mvex");
    for _ in 0..=random.few() {
        put_default(rt, file, random);
    }
    end_box(&mut file.bytes, start);
}

/// Puts a movie of so many tracks.
fn put_movie(
    rt: &impl Abort,
    alloc: Global,
    file: &mut RandomFile,
    random: &mut Random,
    tracks: u32,
) {
    let start = begin_box(rt, &mut file.bytes, b"moov");
    put_bytes(rt, &mut file.bytes, &EMPTY_MOVIE[56..]);
    for id in 1..=tracks {
        put_track(rt, alloc, &mut file.bytes, random, id);
    }
    if random.few() > 0 {
        put_defaults(rt, file, random);
    }
    end_box(&mut file.bytes, start);
}

/// Puts a fragment and media data.
fn put_fragment_and_data(
    rt: &impl Abort,
    alloc: Global,
    file: &mut RandomFile,
    random: &mut Random,
    tracks: u32,
) {
    let fragment = put_fragment(rt, alloc, &mut file.bytes, random, tracks);
    file.fragments.push(fragment).expect(rt, "memory");
    put_data(rt, &mut file.bytes, random);
}

/// A file of one to three tracks and up to four fragments, one of which may be before the movie.
pub fn random_file(rt: &impl Abort, alloc: Global, random: &mut Random) -> RandomFile {
    let mut file = RandomFile {
        bytes: (&EMPTY_MOVIE[..32]).to_vec(alloc).expect(rt, "memory"),
        defaults: Vec::new(alloc),
        fragments: Vec::new(alloc),
    };
    let tracks = random.below(3).wrapping_add(1);
    if random.few() == 0 {
        put_fragment_and_data(rt, alloc, &mut file, random, tracks);
    }
    put_movie(rt, alloc, &mut file, random, tracks);
    for _ in 0..random.few() {
        put_fragment_and_data(rt, alloc, &mut file, random, tracks);
    }
    file
}
