//! The file of a track of a million samples, of which each is looked up and read.

use crate::asserts::assert_that;
use crate::puts::begin_box;
use crate::queries::reads;
use mp4_media::{Mp4Reader, read_mp4};
use mp4_plain_movies::movie_bytes::EMPTY_MOVIE;
use mp4_plain_movies::plain_bytes::end_box;
use mp4_plain_movies::plain_tables::{Offsets, Tables, put_movie};
use mp4_samples::{Comparisons, SamplePlace, SampleRef};
use std::alloc::Global;
use std::process::Abort;

const SAMPLES: u32 = 1_000_000;

/// Runs of one sample each, of durations 1 and 2 in turn.
fn durations(rt: &impl Abort, alloc: Global) -> Vec<(u32, u32)> {
    let mut runs = Vec::new(alloc);
    for _ in 0..SAMPLES / 2 {
        runs.push((1, 1)).expect(rt, "memory");
        runs.push((1, 2)).expect(rt, "memory");
    }
    runs
}

/// Runs of one sample each, shown 7 and 8 ticks later in turn.
fn rendering_offsets(rt: &impl Abort, alloc: Global) -> Vec<(u32, i32)> {
    let mut runs = Vec::new(alloc);
    for _ in 0..SAMPLES / 2 {
        runs.push((1, 7)).expect(rt, "memory");
        runs.push((1, 8)).expect(rt, "memory");
    }
    runs
}

/// Each sample is a sync sample.
fn sync_samples(rt: &impl Abort, alloc: Global) -> Vec<u32> {
    let mut numbers = Vec::new(alloc);
    for sample in 1..=SAMPLES {
        numbers.push(sample).expect(rt, "memory");
    }
    numbers
}

/// Sizes of one byte each.
fn sizes(rt: &impl Abort, alloc: Global) -> Vec<u32> {
    let mut sizes = Vec::new(alloc);
    for _ in 0..SAMPLES {
        sizes.push(1).expect(rt, "memory");
    }
    sizes
}

/// A chunk of half the samples, and chunks of one sample each.
fn chunks(rt: &impl Abort, alloc: Global) -> Vec<(u32, u32)> {
    let mut entries = Vec::new(alloc);
    entries.push((1, 500_000)).expect(rt, "memory");
    for chunk in 2..=500_001 {
        entries.push((chunk, 1)).expect(rt, "memory");
    }
    entries
}

/// The chunks follow each other from the file's first byte on, whatever box it is of.
fn offsets(rt: &impl Abort, alloc: Global) -> Vec<u32> {
    let mut offsets = Vec::new(alloc);
    offsets.push(0).expect(rt, "memory");
    for offset in 500_000..1_000_000 {
        offsets.push(offset).expect(rt, "memory");
    }
    offsets
}

/// Whether each search compared few numbers, and at least one.
fn are_few(comparisons: &Comparisons) -> bool {
    (1..=19).contains(&comparisons.stsc)
        && (1..=20).contains(&comparisons.stts)
        && (1..=20).contains(&comparisons.ctts)
        && (1..=20).contains(&comparisons.stss)
        && comparisons.runs == 0
}

/// Whether a place is that of sample `k`, which begins at this time.
fn is_place_of(place: &SamplePlace, k: u32, start_time: u64) -> bool {
    place.offset == u64::from(k).wrapping_sub(1)
        && place.size == 1
        && place.start_time == start_time
        && place.duration == 2 - k % 2
        && place.rendering_offset == if k % 2 == 0 { 8 } else { 7 }
        && place.is_sync
        && are_few(&place.comparisons)
        && (1..=3).contains(&place.size_reads)
}

/// Whether sample `k` is found, which begins at this time.
fn is_found(reader: &Mp4Reader, k: u32, start_time: u64) -> bool {
    let Some(track) = reader.tracks().get(&1) else {
        return false;
    };
    match track.locate(k) {
        Ok(Some(place)) => is_place_of(&place, k, start_time),
        _ => false,
    }
}

/// Whether sample `k` is read, which begins at this time: the file's byte at its place.
fn is_read(bytes: &[u8], reader: &mut Mp4Reader, k: u32, start_time: u64) -> bool {
    let place = k.wrapping_sub(1) as usize;
    let sample = SampleRef {
        offset: place as u64,
        start_time,
        duration: 2 - k % 2,
        rendering_offset: if k % 2 == 0 { 8 } else { 7 },
        is_sync: true,
        bytes: bytes.get(place..k as usize).unwrap_or(&[]),
    };
    reads(reader, 1, k, &Ok(Some(sample)))
}

/// Whether each sample is found and read, the last at 1499998, and none after it.
fn each_is_read(bytes: &[u8], reader: &mut Mp4Reader) -> bool {
    let mut start_time = 0u64;
    let mut all = true;
    for k in 1..=SAMPLES {
        all = all && is_found(reader, k, start_time) && is_read(bytes, reader, k, start_time);
        start_time = start_time.wrapping_add(u64::from(2 - k % 2));
    }
    all && start_time == 1_500_000
        && is_read(bytes, reader, SAMPLES, 1_499_998)
        && reads(reader, 1, SAMPLES + 1, &Ok(None))
}

/// File type and media data: with these a byte for each sample, and more.
fn media_data(rt: &impl Abort, alloc: Global) -> Vec<u8> {
    let mut bytes = (&EMPTY_MOVIE[..32]).to_vec(alloc).expect(rt, "memory");
    let start = begin_box(rt, &mut bytes, b"mdat");
    for k in 1..=SAMPLES {
        bytes.push((k % 251) as u8).expect(rt, "memory");
    }
    end_box(&mut bytes, start);
    bytes
}

/// Whether each sample is read of the file with these tables.
fn file_is_read(rt: &impl Abort, alloc: Global, tables: &Tables) -> bool {
    let mut bytes = media_data(rt, alloc);
    put_movie(alloc, &mut bytes, tables).expect(rt, "memory");
    let mut reader = read_mp4(alloc, &bytes).expect(rt, "the movie opens");
    each_is_read(&bytes, &mut reader)
}

/// The tables of the track, of which all but the first half of the samples have chunks of their own.
fn tables_of<'a>(
    durations: &'a [(u32, u32)],
    rendering_offsets: &'a [(u32, i32)],
    sync_samples: &'a [u32],
    chunks: &'a [(u32, u32)],
    sizes: &'a [u32],
    offsets: &'a [u32],
) -> Tables<'a> {
    Tables {
        durations,
        rendering_offsets: Some(rendering_offsets),
        sync_samples: Some(sync_samples),
        chunks,
        size: 0,
        count: SAMPLES,
        sizes,
        offsets: Offsets::Near(offsets),
    }
}

/// Whether each sample of the track is read.
fn all_are_read(rt: &impl Abort, alloc: Global) -> bool {
    let durations = durations(rt, alloc);
    let rendering_offsets = rendering_offsets(rt, alloc);
    let sync_samples = sync_samples(rt, alloc);
    let chunks = chunks(rt, alloc);
    let sizes = sizes(rt, alloc);
    let offsets = offsets(rt, alloc);
    let tables = tables_of(
        &durations,
        &rendering_offsets,
        &sync_samples,
        &chunks,
        &sizes,
        &offsets,
    );
    file_is_read(rt, alloc, &tables)
}

#[test]
fn a_million_samples_are_read(rt: HostRuntime) {
    assert_that(&rt, 1, all_are_read(&rt, rt.alloc()));
}
