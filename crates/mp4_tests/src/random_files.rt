//! Files of random boxes in a random order, from fixed seeds, some of them cut: each is opened as a plain program says.

use crate::asserts::assert_that;
use crate::plain_files::{PlainFile, put_boxes};
use crate::queries::{are_same_refusal, locates, reads_there};
use crate::walked_lookup::{WalkedPlace, walk};
use mp4_codec::{BoxType, Error, Result};
use mp4_media::{Mp4Reader, read_mp4};
use mp4_plain_movies::random::Random;
use std::alloc::Global;
use std::process::Abort;

/// The first of the track fragments whose track isn't there.
fn unknown_part(file: &PlainFile) -> Option<u32> {
    for id in file.parts.as_slice() {
        if !file.ids.contains(id) {
            return Some(*id);
        }
    }
    None
}

/// What refuses a file whose boxes are whole.
fn fault(file: &PlainFile) -> Option<Error> {
    if !file.has_file_type {
        return Some(Error::BoxNotFound(BoxType::FtypBox));
    }
    if !file.has_movie {
        return Some(Error::BoxNotFound(BoxType::MoovBox));
    }
    if file.ids.contains(&0) {
        return Some(Error::InvalidData(""));
    }
    unknown_part(file).map(Error::TrakNotFound)
}

/// The place of the last track of an id, counted from 1; 0 without one.
fn place_of(ids: &[u32], id: u32) -> usize {
    let mut place = 0usize;
    let mut last = 0;
    for other in ids {
        place = place.wrapping_add(1);
        if *other == id {
            last = place;
        }
    }
    last
}

/// How many track fragments a track has.
fn count_of(parts: &[u32], id: u32) -> usize {
    let mut count = 0usize;
    for other in parts {
        if *other == id {
            count = count.wrapping_add(1);
        }
    }
    count
}

/// The last duration of an id, 0 without one.
fn duration_of(defaults: &[(u32, u32)], id: u32) -> u32 {
    let mut duration = 0;
    for default in defaults {
        if default.0 == id {
            duration = default.1;
        }
    }
    duration
}

/// Whether the track of an id is the one at this place of its movie, with so many track fragments.
fn is_there(reader: &Mp4Reader, file: &PlainFile, id: u32, place: usize, parts: usize) -> bool {
    let duration = match parts {
        0 => 0,
        _ => duration_of(&file.defaults, id),
    };
    match reader.tracks().get(&id) {
        None => false,
        Some(track) => {
            track.timescale() as usize == place
                && track.trafs.len() == parts
                && track.default_sample_duration == duration
        }
    }
}

/// What a walk over the tables of the track at this place of its movie locates; of one with fragments, no more than
/// the movie counts.
fn walked(
    reader: &Mp4Reader,
    id: u32,
    k: u32,
    place: usize,
    parts: usize,
) -> Result<Option<WalkedPlace>> {
    let Some(trak) = reader.moov.traks.get(place.wrapping_sub(1)) else {
        return Err(Error::TrakNotFound(id));
    };
    let stbl = &trak.mdia.minf.stbl;
    if parts > 0 && k > stbl.sample_count() {
        return Ok(None);
    }
    walk(stbl, id, k)
}

/// Whether the numbers 0 to 6 of an id are located as by a walk, and read there.
fn samples_are_read(
    file: &PlainFile,
    reader: &mut Mp4Reader,
    id: u32,
    place: usize,
    parts: usize,
) -> bool {
    let mut all = true;
    for k in 0..7 {
        let expected = walked(reader, id, k, place, parts);
        all = all && locates(reader, id, k, &expected) && reads_there(&file.bytes, reader, id, k);
    }
    all
}

/// Whether each id is that of the last track with it, or of none.
fn ids_are_answered(file: &PlainFile, reader: &mut Mp4Reader) -> bool {
    let mut all = true;
    for id in 0..6 {
        let place = place_of(&file.ids, id);
        let parts = count_of(&file.parts, id);
        all = all
            && (place == 0 || is_there(reader, file, id, place, parts))
            && samples_are_read(file, reader, id, place, parts);
    }
    all
}

/// Whether there is a fault, and a file is refused for it.
fn is_fault(fault: &Option<Error>, error: &Error) -> bool {
    match fault {
        None => false,
        Some(expected) => are_same_refusal(error, expected),
    }
}

/// Whether a file is refused so, or opened and answered where it has no fault.
fn is_answered(alloc: Global, file: &PlainFile, fault: &Option<Error>) -> bool {
    match read_mp4(alloc, &file.bytes) {
        Ok(mut reader) => fault.is_none() && ids_are_answered(file, &mut reader),
        Err(error) => is_fault(fault, &error),
    }
}

/// Whether the file of a seed is opened as a plain program says.
fn is_opened_so(rt: &impl Abort, alloc: Global, seed: u64) -> bool {
    let mut random = Random::new(seed);
    let mut file = PlainFile::new(alloc);
    let cut = put_boxes(rt, alloc, &mut file, &mut random);
    is_answered(alloc, &file, &cut.or(fault(&file)))
}

#[test]
fn three_hundred_random_files_are_opened_as_a_plain_program_says(rt: HostRuntime) {
    for seed in 0..300 {
        assert_that(&rt, seed, is_opened_so(&rt, rt.alloc(), seed));
    }
}
