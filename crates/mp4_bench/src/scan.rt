//! A scanner of libraries: many small files, each opened and described: two tracks, of which one has parameter sets,
//! and metadata with a picture.

use crate::digest::Digest;
use crate::failure::Failure;
use crate::files::{
    DATA, pattern, put_file_type, put_movie_header, put_pieces, put_sound, put_video,
};
use crate::parts::Parts;
use crate::tables::{camera_tables, list_chunks, sound_tables};
use mp4_plain_movies::plain_bytes::{begin_box, end_box, put_over};
use mp4_plain_movies::random::Random;
use mp4_script::info_text;
use std::alloc::{AllocError, Global};

/// How many files there are for each thousandth of the job that is done.
const FILES: u32 = 30;

/// The fewest and the most frames of a file, less one.
const FEWEST: u32 = 50;

const MORE: u32 = 1500;

/// How many tracks of each kind are made, of which the files are put together.
const KINDS: u32 = 64;

/// Where the duration is in a movie header.
const DURATION_IN_MVHD: usize = 24;

/// The handler of metadata: `mdir`.
const METADATA_HANDLER: [u8; 33] = *b"\0\0\0\x21hdlr\0\0\0\0\0\0\0\0mdir\0\0\0\0\0\0\0\0\0\0\0\0\0";

/// An item of metadata with these bytes, of a type of data.
fn put_item(
    bytes: &mut Vec<u8>,
    kind: &[u8],
    data_type: u8,
    value: &[u8],
) -> Result<(), AllocError> {
    let item = begin_box(bytes, kind)?;
    let start = begin_box(bytes, b"data")?;
    put_pieces(bytes, &[&[0, 0, 0, data_type, 0, 0, 0, 0], value])?;
    end_box(bytes, start);
    end_box(bytes, item);
    Ok(())
}

/// The items of metadata: a title, a year, a description and a picture.
fn put_items(bytes: &mut Vec<u8>, picture: &[u8]) -> Result<(), AllocError> {
    let items: [(&[u8], u8, &[u8]); 4] = [
        (b"\xa9nam", 1, b"A holiday by the sea"),
        (b"\xa9day", 1, b"2024"),
        (
            b"desc",
            1,
            b"Two weeks of waves, of which the last was the highest.",
        ),
        (b"covr", 13, picture),
    ];
    for (kind, data_type, value) in items {
        put_item(bytes, kind, data_type, value)?;
    }
    Ok(())
}

/// User data: metadata with these items.
fn put_user_data(bytes: &mut Vec<u8>, picture: &[u8]) -> Result<(), AllocError> {
    let user_data = begin_box(bytes, b"udta")?;
    let meta = begin_box(bytes, b"meta\0\0\0\0")?;
    bytes.extend_from_slice(&METADATA_HANDLER)?;
    let items = begin_box(bytes, b"ilst")?;
    put_items(bytes, picture)?;
    end_box(bytes, items);
    end_box(bytes, meta);
    end_box(bytes, user_data);
    Ok(())
}

/// Tracks of which files are put together: video with parameter sets, and sound.
#[derive(Drop)]
struct Tracks {
    videos: Vec<Vec<u8>>,
    sounds: Vec<Vec<u8>>,
}

/// A track of video with so many frames.
fn video_track(
    alloc: Global,
    random: &mut Random,
    parts: &Parts,
    frames: u32,
) -> Result<Vec<u8>, AllocError> {
    let mut lists = camera_tables(alloc, random, frames)?;
    list_chunks(&mut lists, 10, DATA, 180)?;
    let mut bytes = Vec::new(alloc);
    put_video(&mut bytes, parts, &lists)?;
    Ok(bytes)
}

/// A track of sound with so many frames.
fn sound_track(
    alloc: Global,
    random: &mut Random,
    parts: &Parts,
    frames: u32,
) -> Result<Vec<u8>, AllocError> {
    let mut lists = sound_tables(alloc, random, frames)?;
    list_chunks(&mut lists, 20, DATA, 400)?;
    let mut bytes = Vec::new(alloc);
    put_sound(&mut bytes, parts, &lists)?;
    Ok(bytes)
}

impl Tracks {
    /// Adds a track of each kind with so many frames.
    fn add(
        &mut self,
        alloc: Global,
        random: &mut Random,
        parts: &Parts,
        frames: u32,
    ) -> Result<(), AllocError> {
        self.videos
            .push(video_track(alloc, random, parts, frames)?)?;
        self.sounds
            .push(sound_track(alloc, random, parts, frames)?)?;
        Ok(())
    }
}

/// Tracks of random lengths.
fn made_tracks(alloc: Global, random: &mut Random, parts: &Parts) -> Result<Tracks, AllocError> {
    let mut tracks = Tracks {
        videos: Vec::new(alloc),
        sounds: Vec::new(alloc),
    };
    for _ in 0..KINDS {
        let frames = FEWEST.wrapping_add(random.below(MORE));
        tracks.add(alloc, random, parts, frames)?;
    }
    Ok(tracks)
}

/// One of these tracks at random.
fn one_of<'a>(tracks: &'a [Vec<u8>], random: &mut Random) -> &'a [u8] {
    match tracks.get(random.below(KINDS) as usize) {
        Some(track) => track.as_slice(),
        None => &[],
    }
}

/// Puts a file: file type and movie box, whose data follow elsewhere. Its number is its duration, and its tracks and
/// its picture are drawn, so that no two files are the same.
fn put_file(
    bytes: &mut Vec<u8>,
    random: &mut Random,
    tracks: &Tracks,
    pattern: &[u8],
    number: u32,
) -> Result<(), AllocError> {
    put_file_type(bytes)?;
    let movie = begin_box(bytes, b"moov")?;
    let header = bytes.len();
    put_movie_header(bytes)?;
    put_over(bytes, header.wrapping_add(DURATION_IN_MVHD), number);
    let video = one_of(&tracks.videos, random);
    let sound = one_of(&tracks.sounds, random);
    put_pieces(bytes, &[video, sound])?;
    let end = random.below(65536) as usize;
    put_user_data(bytes, pattern.get(..end).unwrap_or(pattern))?;
    end_box(bytes, movie);
    Ok(())
}

/// Describes many files.
pub fn scan(alloc: Global, seed: u32, parts: u32, digest: &mut Digest) -> Result<(), Failure> {
    let mut random = Random::new(u64::from(seed));
    let boxes = Parts::new(alloc)?;
    let pattern = pattern(alloc, &mut random)?;
    let tracks = made_tracks(alloc, &mut random, &boxes)?;
    let mut bytes = Vec::new(alloc);
    for number in 0..parts.wrapping_mul(FILES) {
        bytes.clear();
        put_file(&mut bytes, &mut random, &tracks, &pattern, number)?;
        digest.add_bytes(&info_text(alloc, &bytes)?);
    }
    Ok(())
}
