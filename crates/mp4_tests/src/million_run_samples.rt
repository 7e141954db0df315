//! The file of a run that lists a million samples, of which each is looked up and borrowed.

use crate::asserts::assert_that;
use crate::puts::{begin_box, put, put_pair};
use crate::queries::lends;
use crate::walked_lookup::WalkedPlace;
use mp4_lookup::Mp4Track;
use mp4_media::{Mp4Reader, read_mp4};
use mp4_plain_movies::movie_bytes::EMPTY_MOVIE;
use mp4_plain_movies::plain_bytes::{end_box, put_over};
use mp4_plain_movies::plain_tables::{Offsets, Tables, put_movie};
use mp4_samples::{Comparisons, SamplePlace, SampleRef};
use std::alloc::Global;
use std::process::Abort;

const SAMPLES: u32 = 1_000_000;

/// The tables of a track without samples.
const NO_SAMPLES: Tables<'static> = Tables {
    durations: &[],
    rendering_offsets: None,
    sync_samples: None,
    chunks: &[],
    size: 0,
    count: 0,
    sizes: &[],
    offsets: Offsets::Far(&[]),
};

/// Puts what the run says of sample `k`: durations of 1 and 2 ticks, and sizes of one and no byte take turns.
fn put_sample(rt: &impl Abort, bytes: &mut Vec<u8>, k: u32) {
    put_pair(rt, bytes, 2 - k % 2, k % 2);
}

/// Puts the run of all samples. The answer is the place of its data offset.
fn put_run(rt: &impl Abort, bytes: &mut Vec<u8>) -> usize {
    let run = begin_box(rt, bytes, b"trun");
    put_pair(rt, bytes, 0x301, SAMPLES);
    let data_offset = bytes.len();
    put(rt, bytes, 0);
    for k in 1..=SAMPLES {
        put_sample(rt, bytes, k);
    }
    end_box(bytes, run);
    data_offset
}

/// Puts the fragment of this run, whose samples lie eight bytes after it.
fn put_fragment(rt: &impl Abort, bytes: &mut Vec<u8>) {
    let moof = begin_box(rt, bytes, b"moof\0\0\0\x10mfhd\0\0\0\0\0\0\0\x01");
    let traf = begin_box(rt, bytes, b"traf\0\0\0\x10tfhd\0\x02\0\0\0\0\0\x01");
    let data_offset = put_run(rt, bytes);
    end_box(bytes, traf);
    end_box(bytes, moof);
    let size = u32::try_from(bytes.len().saturating_sub(moof)).unwrap_or(0);
    put_over(bytes, data_offset, size.wrapping_add(8));
}

/// The byte that sample `k` is made of, if its number is odd.
fn byte_of(k: u32) -> u8 {
    (k % 251) as u8
}

/// Puts the media data: a byte for each sample of an odd number.
fn put_data(rt: &impl Abort, bytes: &mut Vec<u8>) {
    let start = begin_box(rt, bytes, b"mdat");
    for half in 0..SAMPLES / 2 {
        bytes.push(byte_of(2 * half + 1)).expect(rt, "memory");
    }
    end_box(bytes, start);
}

/// File type, movie, fragment and media data. The answer has the place of the first sample, too.
fn file(rt: &impl Abort, alloc: Global) -> (Vec<u8>, u64) {
    let mut bytes = (&EMPTY_MOVIE[..32]).to_vec(alloc).expect(rt, "memory");
    put_movie(alloc, &mut bytes, &NO_SAMPLES).expect(rt, "memory");
    put_fragment(rt, &mut bytes);
    let start = bytes.len() as u64;
    put_data(rt, &mut bytes);
    (bytes, start.wrapping_add(8))
}

/// Where sample `k` lies and when it is decoded and shown, if the first lies at `start`.
fn place_of(start: u64, k: u32) -> WalkedPlace {
    let before = u64::from(k).wrapping_sub(1);
    WalkedPlace {
        offset: start.wrapping_add(u64::from(k / 2)),
        size: k % 2,
        start_time: before.wrapping_add(before / 2),
        duration: 2 - k % 2,
        rendering_offset: 0,
        is_sync: true,
    }
}

/// Whether a sample was found by one comparison, in the runs.
fn is_found_by_runs(place: &SamplePlace) -> bool {
    let expected = Comparisons {
        stsc: 0,
        stts: 0,
        ctts: 0,
        stss: 0,
        runs: 1,
    };
    place.comparisons == expected && place.size_reads == 0
}

/// Whether a number is found there, by one comparison.
fn is_run_sample_at(track: &Mp4Track, k: u32, place: &WalkedPlace) -> bool {
    match track.locate(k) {
        Ok(Some(found)) => place.is_same(&found) && is_found_by_runs(&found),
        _ => false,
    }
}

/// The same of the track of id 1.
fn is_run_sample(reader: &Mp4Reader, k: u32, place: &WalkedPlace) -> bool {
    match reader.tracks().get(&1) {
        None => false,
        Some(track) => is_run_sample_at(track, k, place),
    }
}

/// Whether sample `k` is borrowed.
fn is_borrowed(reader: &Mp4Reader, start: u64, k: u32) -> bool {
    let place = place_of(start, k);
    let byte = [byte_of(k)];
    let sample = SampleRef {
        offset: place.offset,
        start_time: place.start_time,
        duration: place.duration,
        rendering_offset: 0,
        is_sync: true,
        bytes: if place.size == 0 { &[] } else { &byte },
    };
    lends(reader, 1, k, &Ok(Some(sample)))
}

/// Whether each sample is borrowed, and none after the last.
fn each_is_borrowed(reader: &Mp4Reader, start: u64) -> bool {
    let mut all = reader.sample_count(1) == Ok(SAMPLES);
    for k in 1..=SAMPLES {
        all = all && is_borrowed(reader, start, k);
    }
    all && lends(reader, 1, SAMPLES + 1, &Ok(None))
}

/// Whether samples at far numbers are found by one comparison and borrowed, in no order.
fn far_ones_are_borrowed(reader: &Mp4Reader, start: u64) -> bool {
    let mut all = true;
    for k in [
        SAMPLES,
        1,
        SAMPLES - 1,
        64,
        SAMPLES / 2,
        65,
        SAMPLES - 63,
        128,
        63,
        SAMPLES - 64,
    ] {
        let place = place_of(start, k);
        all = all && is_run_sample(reader, k, &place) && is_borrowed(reader, start, k);
    }
    all
}

/// Whether the samples of the file are borrowed, at far numbers and in order.
fn all_are_read(rt: &impl Abort, alloc: Global) -> bool {
    let (bytes, start) = file(rt, alloc);
    let reader = read_mp4(alloc, &bytes).expect(rt, "the movie opens");
    far_ones_are_borrowed(&reader, start) && each_is_borrowed(&reader, start)
}

#[test]
fn a_million_samples_of_a_run_are_read(rt: HostRuntime) {
    assert_that(&rt, 1, all_are_read(&rt, rt.alloc()));
}
