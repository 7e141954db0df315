//! Files of a track of random tables and random fragments, from fixed seeds.

use mp4_plain_movies::movie_bytes::EMPTY_MOVIE;
use mp4_plain_movies::plain_bytes::{begin_box, end_box, put, put_over, put_pair};
use mp4_plain_movies::random::Random;
use mp4_plain_movies::random_tables::random_track;
use std::alloc::Global;
use std::process::Abort;

/// Where the timescale is in the payload of a track, after its header and before its tables.
const TIMESCALE: usize = 120;

/// Ticks in a second, as they are found in files, and some of the largest.
const TIMESCALES: [u32; 12] = [
    1,
    3,
    25,
    600,
    1000,
    1001,
    12_800,
    24_000,
    44_100,
    90_000,
    10_000_000,
    4_294_967_295,
];

/// A small number, and sometimes one of the largest.
fn number(random: &mut Random) -> u32 {
    match random.below(32) {
        0 => u32::MAX.wrapping_sub(random.few()),
        _ => random.below(7),
    }
}

/// Puts these bytes after the others.
fn put_bytes(rt: &impl Abort, bytes: &mut Vec<u8>, more: &[u8]) {
    bytes.extend_from_slice(more).expect(rt, "memory");
}

/// Puts a number for each of these flags that is set.
fn put_flagged(
    rt: &impl Abort,
    bytes: &mut Vec<u8>,
    random: &mut Random,
    flags: u32,
    choices: &[u32],
) {
    for flag in choices {
        if flags & *flag != 0 {
            put(bytes, number(random)).expect(rt, "memory");
        }
    }
}

/// Puts a run, whose samples have lists of their own in one of two.
fn put_run(rt: &impl Abort, bytes: &mut Vec<u8>, random: &mut Random) {
    let lists = if random.chance() {
        random.next() & 0xf00
    } else {
        0
    };
    let flags = random.next() & 0x5 | lists;
    let count = random.below(9);
    let start = begin_box(bytes, b"trun").expect(rt, "memory");
    put_pair(bytes, flags, count).expect(rt, "memory");
    put_flagged(rt, bytes, random, flags, &[0x1]);
    if flags & 0x4 != 0 {
        put(bytes, random.next() & 0x1_0000).expect(rt, "memory");
    }
    for _ in 0..count {
        put_flagged(rt, bytes, random, flags, &[0x100, 0x200]);
        if flags & 0x400 != 0 {
            put(bytes, random.next() & 0x1_0000).expect(rt, "memory");
        }
        put_flagged(rt, bytes, random, flags, &[0x800]);
    }
    end_box(bytes, start);
}

/// Puts the time of a track fragment, mostly a small one, or none.
fn put_time(rt: &impl Abort, bytes: &mut Vec<u8>, random: &mut Random) {
    if random.chance() {
        return;
    }
    let time = match random.below(8) {
        0 => u64::MAX.wrapping_sub(u64::from(random.byte())),
        _ => u64::from(random.below(2000)),
    };
    put_bytes(rt, bytes, b"\0\0\0\x14tfdt\x01\0\0\0");
    put_bytes(rt, bytes, &time.to_be_bytes());
}

/// Puts a fragment of the track, with up to three runs.
fn put_fragment(rt: &impl Abort, bytes: &mut Vec<u8>, random: &mut Random) {
    let fragment = begin_box(bytes, b"moof\0\0\0\x10mfhd\0\0\0\0\0\0\0\x01").expect(rt, "memory");
    let part = begin_box(bytes, b"traf").expect(rt, "memory");
    let flags = random.next() & 0x38 | 0x2_0000;
    let header = begin_box(bytes, b"tfhd").expect(rt, "memory");
    put_pair(bytes, flags, 1).expect(rt, "memory");
    put_flagged(rt, bytes, random, flags, &[0x8, 0x10]);
    if flags & 0x20 != 0 {
        put(bytes, random.next() & 0x1_0000).expect(rt, "memory");
    }
    end_box(bytes, header);
    put_time(rt, bytes, random);
    for _ in 0..random.few() {
        put_run(rt, bytes, random);
    }
    end_box(bytes, part);
    end_box(bytes, fragment);
}

/// Puts what the movie says of the samples of fragments.
fn put_defaults(rt: &impl Abort, bytes: &mut Vec<u8>, random: &mut Random) {
    let start = begin_box(bytes, b"mvex\0\0\0\x20trex\0\0\0\0").expect(rt, "memory");
    put_pair(bytes, 1, 1).expect(rt, "memory");
    put_pair(bytes, number(random), number(random)).expect(rt, "memory");
    put(bytes, random.next() & 0x1_0000).expect(rt, "memory");
    end_box(bytes, start);
}

/// Puts a track of random tables and of some timescale.
fn put_track(rt: &impl Abort, alloc: Global, bytes: &mut Vec<u8>, random: &mut Random) {
    let mut track = random_track(alloc, random).expect(rt, "memory");
    let index = random.below(12) as usize;
    let timescale = TIMESCALES.get(index).copied().unwrap_or(1);
    put_over(&mut track, TIMESCALE, timescale);
    let start = begin_box(bytes, b"trak").expect(rt, "memory");
    put_bytes(rt, bytes, &track);
    end_box(bytes, start);
}

/// The bytes of the file of a seed: a track, and up to three fragments of it.
pub fn random_file(rt: &impl Abort, alloc: Global, seed: u64) -> Vec<u8> {
    let mut random = Random::new(seed);
    let mut bytes = (&EMPTY_MOVIE[..32]).to_vec(alloc).expect(rt, "memory");
    let movie = begin_box(&mut bytes, b"moov").expect(rt, "memory");
    put_bytes(rt, &mut bytes, &EMPTY_MOVIE[56..]);
    put_track(rt, alloc, &mut bytes, &mut random);
    put_defaults(rt, &mut bytes, &mut random);
    end_box(&mut bytes, movie);
    for _ in 0..random.few() {
        put_fragment(rt, &mut bytes, &mut random);
    }
    bytes
}
