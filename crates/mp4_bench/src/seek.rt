//! A player or an editor: files of three tracks are opened; of some all samples are read in order, of the others at
//! random.

use crate::digest::Digest;
use crate::failure::Failure;
use crate::files::{
    DATA, pattern, put_data, put_file_type, put_movie_header, put_sound, put_text, put_video,
};
use crate::parts::Parts;
use crate::tables::{Lists, camera_tables, list_chunks, sound_tables, text_tables};
use mp4_media::{Mp4Reader, read_mp4};
use mp4_plain_movies::plain_bytes::{begin_box, end_box};
use mp4_plain_movies::random::Random;
use std::alloc::{AllocError, Global};

/// How many frames a file has for each thousandth of the job that is done.
const FRAMES: u32 = 600;

/// How many files are read in order.
const IN_ORDER: u32 = 4;

const TRACKS: u32 = 3;

/// The tables of the three tracks of a file, and how many bytes their samples span.
#[derive(Drop)]
struct Tables {
    video: Lists,
    sound: Lists,
    text: Lists,
    bytes: u64,
}

impl Tables {
    /// Lists where the chunks of the three tracks begin, and how many bytes their samples span.
    fn list_chunks(&mut self) -> Result<(), AllocError> {
        let video = list_chunks(&mut self.video, 10, DATA, 180)?;
        let sound = list_chunks(&mut self.sound, 15, DATA, 400)?;
        let text = list_chunks(&mut self.text, 1, DATA, 5000)?;
        self.bytes = video.max(sound).max(text);
        Ok(())
    }
}

/// The tables of a file with so many frames.
fn file_tables(alloc: Global, random: &mut Random, frames: u32) -> Result<Tables, AllocError> {
    let mut tables = Tables {
        video: camera_tables(alloc, random, frames)?,
        sound: sound_tables(alloc, random, frames.wrapping_add(frames / 2))?,
        text: text_tables(alloc, random, frames / 100)?,
        bytes: 0,
    };
    tables.list_chunks()?;
    Ok(tables)
}

/// The movie box of a file of these tables.
fn put_movie(bytes: &mut Vec<u8>, parts: &Parts, tables: &Tables) -> Result<(), AllocError> {
    let movie = begin_box(bytes, b"moov")?;
    put_movie_header(bytes)?;
    put_video(bytes, parts, &tables.video)?;
    put_sound(bytes, parts, &tables.sound)?;
    put_text(bytes, parts, 3, &tables.text)?;
    end_box(bytes, movie);
    Ok(())
}

/// A file with so many frames.
fn made_file(
    alloc: Global,
    random: &mut Random,
    parts: &Parts,
    frames: u32,
) -> Result<Vec<u8>, AllocError> {
    let tables = file_tables(alloc, random, frames)?;
    let pattern = pattern(alloc, random)?;
    let mut bytes = Vec::new(alloc);
    put_file_type(&mut bytes)?;
    put_data(&mut bytes, &pattern, tables.bytes)?;
    put_movie(&mut bytes, parts, &tables)?;
    Ok(bytes)
}

/// Adds a sample.
fn add_sample(movie: &Mp4Reader, id: u32, k: u32, digest: &mut Digest) -> Result<(), Failure> {
    match movie.read_sample_ref(id, k)? {
        Some(sample) => digest.add_sample(&sample),
        None => digest.add(0),
    }
    Ok(())
}

/// Adds all samples of a track in order.
pub fn add_in_order(movie: &Mp4Reader, id: u32, digest: &mut Digest) -> Result<(), Failure> {
    for k in 1..=movie.sample_count(id)? {
        add_sample(movie, id, k, digest)?;
    }
    Ok(())
}

/// Adds the samples of a track at random, each once.
///
/// The numbers are those of a generator whose period is a power of two, so that none comes twice.
pub fn add_at_random(
    movie: &Mp4Reader,
    id: u32,
    seed: u32,
    digest: &mut Digest,
) -> Result<(), Failure> {
    let count = movie.sample_count(id)?;
    let period = count.checked_next_power_of_two().unwrap_or(1);
    let mut k = seed % period.max(1);
    for _ in 0..period {
        k = k.wrapping_mul(1_664_525).wrapping_add(1_013_904_223) % period.max(1);
        if k < count {
            add_sample(movie, id, k.wrapping_add(1), digest)?;
        }
    }
    Ok(())
}

/// Adds all samples of a movie.
fn add_movie(
    movie: &Mp4Reader,
    turn: u32,
    random: &mut Random,
    digest: &mut Digest,
) -> Result<(), Failure> {
    digest.add(movie.size());
    for id in 1..=TRACKS {
        if turn < IN_ORDER {
            add_in_order(movie, id, digest)?;
        } else {
            add_at_random(movie, id, random.next(), digest)?;
        }
    }
    Ok(())
}

/// Reads files in order, and one at random.
pub fn seek(alloc: Global, seed: u32, parts: u32, digest: &mut Digest) -> Result<(), Failure> {
    let mut random = Random::new(u64::from(seed));
    let frames = parts.wrapping_mul(FRAMES);
    let parts = Parts::new(alloc)?;
    for turn in 0..=IN_ORDER {
        let frames = frames.wrapping_add(random.below(100));
        let file = made_file(alloc, &mut random, &parts, frames)?;
        add_movie(&read_mp4(alloc, &file)?, turn, &mut random, digest)?;
    }
    Ok(())
}
