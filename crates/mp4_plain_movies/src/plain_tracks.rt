//! A track as a plain list of samples, and its box encoded byte by byte.

use crate::calls::{Sample, Track};
use crate::plain_bytes::{
    begin_box, end_box, put, put_chunks, put_durations, put_near_offsets, put_pair,
    put_rendering_offsets, put_sizes, put_sync_samples, put_zeros,
};
use crate::plain_entries::{pixels, put_description, put_media_header};
use mp4_entry::TrackType;
use std::alloc::{AllocError, Global};

/// A track that was added.
#[derive(Drop)]
pub struct PlainTrack<'a> {
    pub track: Track<'a>,
    pub samples: Vec<Sample<'a>>,
    /// Where each chunk begins.
    pub chunks: Vec<u32>,
    /// How many samples each chunk has.
    pub counts: Vec<u32>,
    /// How many samples are in chunks.
    pub closed: usize,
}

const MATRIX: [u8; 36] =
    *b"\0\x01\0\0\0\0\0\0\0\0\0\0\0\0\0\0\0\x01\0\0\0\0\0\0\0\0\0\0\0\0\0\0\x40\0\0\0";

const DINF: [u8; 36] = *b"\0\0\0\x24dinf\0\0\0\x1cdref\0\0\0\0\0\0\0\x01\0\0\0\x0curl \0\0\0\x01";

/// How long samples last, in ticks of their track.
pub fn ticks(samples: &[Sample]) -> u64 {
    let mut sum = 0u64;
    for sample in samples {
        sum = sum.wrapping_add(u64::from(sample.duration));
    }
    sum
}

/// How long samples of a timescale last, each rounded down to ticks of another. None from 2^64 on.
pub fn movie_ticks(samples: &[Sample], timescale: u32, movie_timescale: u32) -> Option<u64> {
    let mut sum = 0u64;
    for sample in samples {
        let product = u64::from(sample.duration).wrapping_mul(u64::from(movie_timescale));
        let more = product.checked_div(u64::from(timescale)).unwrap_or(0);
        match sum.checked_add(more) {
            Some(longer) => sum = longer,
            None => return None,
        }
    }
    Some(sum)
}

/// Whether a time has no room in 32 bits.
fn is_long(time: u64) -> bool {
    time > u64::from(u32::MAX)
}

/// Version and flags, and when it was made and changed, for a header with this duration.
fn put_stamp(bytes: &mut Vec<u8>, duration: u64, flags: u32) -> Result<(), AllocError> {
    if is_long(duration) {
        put(bytes, flags.wrapping_add(0x0100_0000))?;
        return put_zeros(bytes, 16);
    }
    put(bytes, flags)?;
    put_zeros(bytes, 8)
}

fn put_time(bytes: &mut Vec<u8>, time: u64) -> Result<(), AllocError> {
    match u32::try_from(time) {
        Ok(time) => put(bytes, time),
        Err(_) => { bytes.extend_from_slice(&time.to_be_bytes()) }
    }
}

/// The header of a movie.
pub fn put_movie_header(
    bytes: &mut Vec<u8>,
    timescale: u32,
    duration: u64,
) -> Result<(), AllocError> {
    let start = begin_box(bytes, b"mvhd")?;
    put_stamp(bytes, duration, 0)?;
    put(bytes, timescale)?;
    put_time(bytes, duration)?;
    bytes.extend_from_slice(b"\0\x01\0\0\x01\0\0\0\0\0\0\0\0\0\0\0")?;
    bytes.extend_from_slice(&MATRIX)?;
    put_zeros(bytes, 24)?;
    put(bytes, 1)?;
    end_box(bytes, start);
    Ok(())
}

/// What is in the header of a track after its duration.
fn put_picture(bytes: &mut Vec<u8>, pixels: (u32, u32)) -> Result<(), AllocError> {
    put_zeros(bytes, 12)?;
    bytes.extend_from_slice(b"\x01\0\0\0")?;
    bytes.extend_from_slice(&MATRIX)?;
    put_pair(
        bytes,
        pixels.0.wrapping_mul(65536),
        pixels.1.wrapping_mul(65536),
    )
}

fn put_track_header(
    bytes: &mut Vec<u8>,
    track: &Track,
    id: u32,
    duration: u64,
) -> Result<(), AllocError> {
    let start = begin_box(bytes, b"tkhd")?;
    put_stamp(bytes, duration, 1)?;
    put_pair(bytes, id, 0)?;
    put_time(bytes, duration)?;
    put_picture(bytes, pixels(&track.media))?;
    end_box(bytes, start);
    Ok(())
}

/// Five bits for each of three characters.
fn language_bits(language: &str) -> u16 {
    let mut bits = 0u16;
    for character in language.as_bytes() {
        bits = bits
            .wrapping_mul(32)
            .wrapping_add(u16::from(*character).wrapping_sub(0x60));
    }
    bits
}

fn put_time_header(bytes: &mut Vec<u8>, track: &Track, duration: u64) -> Result<(), AllocError> {
    let start = begin_box(bytes, b"mdhd")?;
    put_stamp(bytes, duration, 0)?;
    put(bytes, track.timescale)?;
    put_time(bytes, duration)?;
    bytes.extend_from_slice(&language_bits(track.language).to_be_bytes())?;
    put_zeros(bytes, 2)?;
    end_box(bytes, start);
    Ok(())
}

fn handler_of(track_type: TrackType) -> &'static [u8] {
    match track_type {
        TrackType::Video => b"vide",
        TrackType::Audio => b"soun",
        TrackType::Subtitle => b"sbtl",
    }
}

fn put_handler(bytes: &mut Vec<u8>, track_type: TrackType) -> Result<(), AllocError> {
    bytes.extend_from_slice(b"\0\0\0\x21hdlr\0\0\0\0\0\0\0\0")?;
    bytes.extend_from_slice(handler_of(track_type))?;
    put_zeros(bytes, 13)
}

/// Runs of samples of one duration.
fn duration_runs(alloc: Global, samples: &[Sample]) -> Result<Vec<(u32, u32)>, AllocError> {
    let mut runs: Vec<(u32, u32)> = Vec::new(alloc);
    for sample in samples {
        match runs.last_mut() {
            Some(run) if run.1 == sample.duration => run.0 = run.0.wrapping_add(1),
            _ => runs.push((1, sample.duration))?,
        }
    }
    Ok(runs)
}

/// Runs of samples of one rendering offset; none where all are 0.
fn rendering_runs(alloc: Global, samples: &[Sample]) -> Result<Vec<(u32, i32)>, AllocError> {
    let mut runs: Vec<(u32, i32)> = Vec::new(alloc);
    for sample in samples {
        match runs.last_mut() {
            Some(run) if run.1 == sample.rendering_offset => run.0 = run.0.wrapping_add(1),
            _ => runs.push((1, sample.rendering_offset))?,
        }
    }
    if runs.len() == 1 && runs.last().copied().unwrap_or((0, 0)).1 == 0 {
        runs.clear();
    }
    Ok(runs)
}

/// The numbers of the sync samples.
fn sync_numbers(alloc: Global, samples: &[Sample]) -> Result<Vec<u32>, AllocError> {
    let mut numbers = Vec::new(alloc);
    let mut number = 0u32;
    for sample in samples {
        number = number.wrapping_add(1);
        if sample.is_sync {
            numbers.push(number)?;
        }
    }
    Ok(numbers)
}

/// The entries of chunks with so many samples each: the first chunk of each run of equal counts.
fn chunk_entries(alloc: Global, counts: &[u32]) -> Result<Vec<(u32, u32)>, AllocError> {
    let mut entries: Vec<(u32, u32)> = Vec::new(alloc);
    let mut chunk = 0u32;
    for count in counts {
        chunk = chunk.wrapping_add(1);
        if entries.last().copied().unwrap_or((0, 0)).1 != *count {
            entries.push((chunk, *count))?;
        }
    }
    Ok(entries)
}

fn size_of(sample: &Sample) -> u32 {
    u32::try_from(sample.bytes.len()).unwrap_or(0)
}

fn sizes(alloc: Global, samples: &[Sample]) -> Result<Vec<u32>, AllocError> {
    let mut sizes = Vec::new(alloc);
    for sample in samples {
        sizes.push(size_of(sample))?;
    }
    Ok(sizes)
}

/// The one size of all, 0 where they differ.
fn one_size(sizes: &[u32]) -> u32 {
    let first = sizes.first().copied().unwrap_or(0);
    for size in sizes {
        if *size != first {
            return 0;
        }
    }
    first
}

fn largest(samples: &[Sample]) -> u32 {
    let mut largest = 0u32;
    for sample in samples {
        largest = largest.max(size_of(sample));
    }
    largest
}

/// The tables of times.
fn put_times(alloc: Global, bytes: &mut Vec<u8>, samples: &[Sample]) -> Result<(), AllocError> {
    put_durations(bytes, &duration_runs(alloc, samples)?)?;
    let runs = rendering_runs(alloc, samples)?;
    if !runs.is_empty() {
        put_rendering_offsets(bytes, &runs)?;
    }
    if samples.is_empty() {
        return Ok(());
    }
    put_sync_samples(bytes, &sync_numbers(alloc, samples)?)
}

fn put_listed_sizes(
    alloc: Global,
    bytes: &mut Vec<u8>,
    samples: &[Sample],
) -> Result<(), AllocError> {
    let sizes = sizes(alloc, samples)?;
    let count = u32::try_from(sizes.len()).unwrap_or(0);
    match one_size(&sizes) {
        0 => put_sizes(bytes, 0, count, &sizes),
        size => put_sizes(bytes, size, count, &[]),
    }
}

/// The tables of places.
fn put_places(alloc: Global, bytes: &mut Vec<u8>, track: &PlainTrack) -> Result<(), AllocError> {
    put_chunks(bytes, &chunk_entries(alloc, &track.counts)?)?;
    put_listed_sizes(alloc, bytes, &track.samples)?;
    put_near_offsets(bytes, &track.chunks)
}

fn put_tables(alloc: Global, bytes: &mut Vec<u8>, track: &PlainTrack) -> Result<(), AllocError> {
    let start = begin_box(bytes, b"stbl")?;
    put_description(bytes, &track.track.media, largest(&track.samples))?;
    put_times(alloc, bytes, &track.samples)?;
    put_places(alloc, bytes, track)?;
    end_box(bytes, start);
    Ok(())
}

fn put_information(
    alloc: Global,
    bytes: &mut Vec<u8>,
    track: &PlainTrack,
) -> Result<(), AllocError> {
    let start = begin_box(bytes, b"minf")?;
    put_media_header(bytes, &track.track.media)?;
    bytes.extend_from_slice(&DINF)?;
    put_tables(alloc, bytes, track)?;
    end_box(bytes, start);
    Ok(())
}

fn put_media(alloc: Global, bytes: &mut Vec<u8>, track: &PlainTrack) -> Result<(), AllocError> {
    let start = begin_box(bytes, b"mdia")?;
    put_time_header(bytes, &track.track, ticks(&track.samples))?;
    put_handler(bytes, track.track.track_type)?;
    put_information(alloc, bytes, track)?;
    end_box(bytes, start);
    Ok(())
}

/// A track with so many ticks of the movie.
pub fn put_track(
    alloc: Global,
    bytes: &mut Vec<u8>,
    track: &PlainTrack,
    id: u32,
    duration: u64,
) -> Result<(), AllocError> {
    let start = begin_box(bytes, b"trak")?;
    put_track_header(bytes, &track.track, id, duration)?;
    put_media(alloc, bytes, track)?;
    end_box(bytes, start);
    Ok(())
}
