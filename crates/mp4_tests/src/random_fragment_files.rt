//! Random files of fragments, from fixed seeds: each number of each track is answered as a plain program says, which
//! writes all samples out.

use crate::asserts::assert_that;
use crate::plain_fragments::{PlainTrack, written_out};
use crate::queries::{locates, reads_there};
use crate::random_fragments::random_file;
use crate::walked_lookup::WalkedPlace;
use mp4_codec::{Error, Result};
use mp4_media::{Mp4Reader, read_mp4};
use mp4_plain_movies::random::Random;
use std::alloc::Global;
use std::process::Abort;

/// How many samples the movie box counts for the track at an index.
fn counted(reader: &Mp4Reader, index: usize) -> u32 {
    match reader.moov.traks.get(index) {
        None => 0,
        Some(trak) => trak.mdia.minf.stbl.sample_count(),
    }
}

/// What a number of the track at an index is answered with.
fn expected(
    reader: &Mp4Reader,
    track: &PlainTrack,
    index: usize,
    k: u32,
) -> Result<Option<WalkedPlace>> {
    match reader.moov.traks.get(index) {
        None => Err(Error::TrakNotFound(track.id)),
        Some(trak) => track.answer(&trak.mdia.minf.stbl, k),
    }
}

/// Whether a number of the track at an index is located as the plain program says, and read there.
fn is_answered(
    bytes: &[u8],
    reader: &mut Mp4Reader,
    track: &PlainTrack,
    index: usize,
    k: u32,
) -> bool {
    let expected = expected(reader, track, index, k);
    locates(reader, track.id, k, &expected) && reads_there(bytes, reader, track.id, k)
}

/// Whether the track at an index has as many samples as the plain program says, and each number up past the last
/// is answered so.
fn track_is_answered(
    bytes: &[u8],
    reader: &mut Mp4Reader,
    track: &PlainTrack,
    index: usize,
) -> bool {
    let count = counted(reader, index).wrapping_add(track.added());
    let mut all = reader.sample_count(track.id) == Ok(count);
    for k in 0..=count.wrapping_add(3) {
        all = all && is_answered(bytes, reader, track, index, k);
    }
    all && is_answered(bytes, reader, track, index, u32::MAX)
}

/// Whether each track is answered as the plain program says.
fn all_are_answered(bytes: &[u8], reader: &mut Mp4Reader, tracks: &[PlainTrack]) -> bool {
    let mut index = 0usize;
    let mut all = true;
    for track in tracks {
        all = all && track_is_answered(bytes, reader, track, index);
        index = index.wrapping_add(1);
    }
    all
}

/// Whether the file of a seed is answered as the plain program says.
fn is_answered_so(rt: &impl Abort, alloc: Global, seed: u64) -> bool {
    let mut random = Random::new(seed);
    let file = random_file(rt, alloc, &mut random);
    let mut reader = read_mp4(alloc, &file.bytes).expect(rt, "the movie opens");
    let traks = reader.moov.traks.as_slice();
    let tracks = written_out(rt, alloc, traks, &file.defaults, &file.fragments);
    all_are_answered(&file.bytes, &mut reader, &tracks)
}

#[test]
fn each_number_of_four_hundred_random_files_is_answered_as_a_plain_program_says(rt: HostRuntime) {
    for seed in 0..400 {
        assert_that(&rt, seed, is_answered_so(&rt, rt.alloc(), seed));
    }
}
