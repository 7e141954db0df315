//! A remuxer: where all samples of tracks lie, in their order: by a walk, or each by its number, of a lookup or of a
//! cursor. Or a player that goes to random times.

use crate::digest::Digest;
use crate::failure::Failure;
use crate::files::pattern;
use crate::fragments::{Shape, fragmented_file};
use crate::parts::Parts;
use crate::text_files::{even_file, turning_file};
use mp4_media::{Mp4Track, Place, read_mp4};
use mp4_plain_movies::random::Random;
use std::alloc::Global;

/// How many samples the tracks have for each thousandth of the job that is done.
const SAMPLES: u32 = 300;

/// How often a track is gone over.
const PASSES: u32 = 10;

/// How the samples of a track are gone over.
#[derive(Clone, Copy)]
pub enum Way {
    InOrder,
    ByNumbers,
    ByCursor,
    ByTimes,
}

/// Adds where a sample lies.
fn add_place(digest: &mut Digest, place: &Place) {
    digest.add(place.offset);
    digest.add(place.start_time ^ u64::from(place.size));
}

/// Adds the places of a track, by a walk over them.
fn add_in_order(track: &Mp4Track, digest: &mut Digest) -> Result<(), Failure> {
    for place in track.samples() {
        add_place(digest, &place?);
    }
    Ok(())
}

/// Adds the places of a track, each looked up by its number.
fn add_by_numbers(track: &Mp4Track, digest: &mut Digest) -> Result<(), Failure> {
    for k in 1..=track.sample_count()? {
        if let Some(place) = track.locate_by_guess(k)? {
            add_place(digest, &place.place());
        }
    }
    Ok(())
}

/// Adds the places of a track, each asked of a cursor by its number.
fn add_by_cursor(track: &Mp4Track, digest: &mut Digest) -> Result<(), Failure> {
    let mut cursor = track.sample_cursor();
    for k in 1..=track.sample_count()? {
        if let Some(place) = cursor.seek(k)? {
            add_place(digest, &place);
        }
    }
    Ok(())
}

/// Adds the samples at random times, as many as the track has, and the sync samples before them.
fn add_by_times(track: &Mp4Track, random: &mut Random, digest: &mut Digest) -> Result<(), Failure> {
    let Some(range) = track.time_range() else {
        return Ok(());
    };
    let end = u32::try_from(range.end).unwrap_or(u32::MAX).max(1);
    for _ in 0..track.sample_count()? {
        let number = track.sample_at(random.below(end).into()).unwrap_or(0);
        let sync = track.sync_sample_at_or_before(number).unwrap_or(0);
        digest.add(u64::from(number));
        digest.add(u64::from(sync));
    }
    Ok(())
}

/// Adds the places of a track, as often as it is gone over.
fn add_passes(track: &Mp4Track, way: Way, digest: &mut Digest) -> Result<(), Failure> {
    let mut random = Random::new(1);
    for _ in 0..PASSES {
        let added = match way {
            Way::InOrder => add_in_order(track, digest),
            Way::ByNumbers => add_by_numbers(track, digest),
            Way::ByCursor => add_by_cursor(track, digest),
            Way::ByTimes => add_by_times(track, &mut random, digest),
        };
        added?;
    }
    Ok(())
}

/// Adds the places of the track of a file.
fn add_places(alloc: Global, file: &[u8], way: Way, digest: &mut Digest) -> Result<(), Failure> {
    add_passes(read_mp4(alloc, file)?.track(1)?, way, digest)
}

/// Goes over a track of one entry in each table, and one whose tables change at each sample.
fn add_tables(
    alloc: Global,
    random: &mut Random,
    boxes: &Parts,
    count: u32,
    way: Way,
    digest: &mut Digest,
) -> Result<(), Failure> {
    let file = even_file(alloc, random, boxes, count)?;
    add_places(alloc, &file, way, digest)?;
    let file = turning_file(alloc, random, boxes, count)?;
    add_places(alloc, &file, way, digest)
}

/// Goes over fragments of one sample, and one fragment of all samples.
fn add_fragments(
    alloc: Global,
    random: &mut Random,
    boxes: &Parts,
    count: u32,
    way: Way,
    digest: &mut Digest,
) -> Result<(), Failure> {
    let shapes = [
        Shape {
            fragments: count / 3,
            fewest: 1,
            more: 1,
            least: 0,
            lists_all: false,
        },
        Shape {
            fragments: 1,
            fewest: count,
            more: 1,
            least: 0,
            lists_all: true,
        },
    ];
    let pattern = pattern(alloc, random)?;
    for shape in shapes {
        let file = fragmented_file(alloc, random, boxes, &pattern, &shape)?;
        add_places(alloc, &file, way, digest)?;
    }
    Ok(())
}

/// Goes over the samples of four files.
pub fn walk(
    alloc: Global,
    seed: u32,
    parts: u32,
    way: Way,
    digest: &mut Digest,
) -> Result<(), Failure> {
    let mut random = Random::new(u64::from(seed));
    let boxes = Parts::new(alloc)?;
    let count = parts.wrapping_mul(SAMPLES);
    add_tables(alloc, &mut random, &boxes, count, way, digest)?;
    add_fragments(alloc, &mut random, &boxes, count, way, digest)
}
