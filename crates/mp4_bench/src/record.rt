//! A recorder and a remuxer: movies are written sample by sample, opened again, and written anew from what was read.

use crate::digest::Digest;
use crate::failure::Failure;
use crate::files::pattern;
use bytes::Bytes;
use mp4_media::{
    FourCC, Items, Mp4Config, Mp4Reader, Mp4Sample, Mp4Writer, TrackConfig, TtxtConfig, read_mp4,
};
use mp4_plain_movies::random::Random;
use std::alloc::{AllocError, Global};

const TRACKS: u32 = 3;

/// How a movie is recorded.
#[derive(Clone, Copy)]
struct Recording {
    /// How many samples each track has.
    samples: u32,
    /// The most bytes of a sample, less one.
    bytes: u32,
    /// Whether durations and rendering offsets change at each sample, and not now and then.
    is_turning: bool,
    /// Ticks in a second of each track.
    timescale: u32,
}

/// What a movie is begun with.
pub fn movie_config(alloc: Global) -> Result<Mp4Config, AllocError> {
    let brands = vec![in alloc; FourCC::from(*b"isom"), FourCC::from(*b"mp41")]?;
    Ok(Mp4Config {
        major_brand: FourCC::from(*b"isom"),
        minor_version: 512,
        compatible_brands: Items::from(brands),
        timescale: 1000,
    })
}

/// Adds the tracks.
fn add_tracks(alloc: Global, writer: &mut Mp4Writer, timescale: u32) -> Result<(), Failure> {
    for id in 1..=TRACKS {
        let mut config = TrackConfig::from_ttxt(alloc, TtxtConfig {})?;
        config.timescale = timescale.wrapping_add(id);
        writer.add_track(&config)?;
    }
    Ok(())
}

/// A writer of a movie with three tracks of text.
fn begun(alloc: Global, timescale: u32) -> Result<Mp4Writer, Failure> {
    let config = movie_config(alloc)?;
    let mut writer = Mp4Writer::write_start(alloc, Vec::new(alloc), &config)?;
    add_tracks(alloc, &mut writer, timescale)?;
    Ok(writer)
}

/// A sample of a recording.
fn recorded_sample(
    alloc: Global,
    random: &mut Random,
    pattern: &[u8],
    recording: &Recording,
    turn: u32,
) -> Result<Mp4Sample, AllocError> {
    let length = random.below(recording.bytes) as usize;
    let start = random.below(1024) as usize;
    let bytes = pattern
        .get(start..start.wrapping_add(length))
        .unwrap_or(&[]);
    let (duration, offset) = if recording.is_turning {
        (
            random.below(100).wrapping_add(turn % 2),
            random.below(100).wrapping_add(turn % 2),
        )
    } else {
        (40u32.wrapping_add(turn / 1000 % 2), 0)
    };
    Ok(Mp4Sample {
        start_time: 0,
        duration,
        rendering_offset: offset.cast_signed(),
        is_sync: turn % 30 == 0,
        bytes: Bytes::copy_from_slice(alloc, bytes)?,
    })
}

/// Writes the samples of a recording, those of its tracks in turn, and the end of the movie.
fn write_samples(
    alloc: Global,
    writer: &mut Mp4Writer,
    random: &mut Random,
    pattern: &[u8],
    recording: &Recording,
) -> Result<(), Failure> {
    for turn in 0..recording.samples {
        for id in 1..=TRACKS {
            let sample = recorded_sample(alloc, random, pattern, recording, turn)?;
            writer.write_sample(id, &sample)?;
        }
    }
    Ok(writer.write_end()?)
}

/// The bytes of a recording.
fn recorded(
    alloc: Global,
    random: &mut Random,
    pattern: &[u8],
    recording: &Recording,
) -> Result<Vec<u8>, Failure> {
    let mut writer = begun(alloc, recording.timescale)?;
    write_samples(alloc, &mut writer, random, pattern, recording)?;
    Ok(writer.into_writer())
}

/// Copies the samples of all tracks of a movie into a writer, the tracks in turn, and writes the end of the movie.
fn copy_samples(movie: &mut Mp4Reader, writer: &mut Mp4Writer) -> Result<(), Failure> {
    for k in 1..=movie.sample_count(1)? {
        for id in 1..=TRACKS {
            if let Some(sample) = movie.read_sample(id, k)? {
                writer.write_sample(id, &sample)?;
            }
        }
    }
    Ok(writer.write_end()?)
}

/// Writes a movie anew from what is read of it.
fn remuxed(alloc: Global, file: &[u8], timescale: u32) -> Result<Vec<u8>, Failure> {
    let mut writer = begun(alloc, timescale)?;
    copy_samples(&mut read_mp4(alloc, file)?, &mut writer)?;
    Ok(writer.into_writer())
}

/// What is recorded: many small samples, some of which turn, few large ones, and tracks that are shorter than a second
/// until their end.
fn recordings(parts: u32) -> [Recording; 4] {
    [
        Recording {
            samples: parts.wrapping_mul(300),
            bytes: 200,
            is_turning: false,
            timescale: 1000,
        },
        Recording {
            samples: parts.wrapping_mul(200),
            bytes: 60,
            is_turning: true,
            timescale: 1000,
        },
        Recording {
            samples: parts.wrapping_mul(4),
            bytes: 40000,
            is_turning: false,
            timescale: 1000,
        },
        Recording {
            samples: parts.wrapping_mul(120),
            bytes: 100,
            is_turning: false,
            timescale: 1_000_000_000,
        },
    ]
}

/// Records movies, and writes each anew.
pub fn record(alloc: Global, seed: u32, parts: u32, digest: &mut Digest) -> Result<(), Failure> {
    let mut random = Random::new(u64::from(seed));
    let pattern = pattern(alloc, &mut random)?;
    for recording in recordings(parts) {
        let file = recorded(alloc, &mut random, &pattern, &recording)?;
        digest.add_bytes(&file);
        let timescale = recording.timescale.wrapping_add(500);
        digest.add_bytes(&remuxed(alloc, &file, timescale)?);
    }
    Ok(())
}
