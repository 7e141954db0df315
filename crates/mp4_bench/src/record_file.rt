//! A recorder that writes to a file.

use crate::digest::Digest;
use crate::failure::Failure;
use crate::files::pattern;
use crate::record::movie_config;
use mp4_media::{ByteSink, Mp4FileWriter, SampleRef, SeekSink, TrackConfig, TtxtConfig};
use mp4_plain_movies::random::Random;
use std::alloc::Global;
use std::fs::OpenOptions;
use std::rt::Files;

/// How many bytes each sample has.
const SAMPLE_SIZE: usize = 100;

/// The sample of this turn, whose bytes lie in the pattern.
fn sample_of(pattern: &[u8], turn: u32) -> SampleRef<'_> {
    let start = (turn % 1024) as usize;
    SampleRef {
        offset: 0,
        start_time: 0,
        duration: 40,
        rendering_offset: 0,
        is_sync: turn % 30 == 0,
        bytes: pattern
            .get(start..start.wrapping_add(SAMPLE_SIZE))
            .unwrap_or(&[]),
    }
}

/// Writes a track of so many samples, and the end of the movie.
fn write_track<S: ByteSink + Drop>(
    alloc: Global,
    writer: &mut Mp4FileWriter<S>,
    pattern: &[u8],
    samples: u32,
) -> Result<(), Failure> {
    writer.add_track(&TrackConfig::from_ttxt(alloc, TtxtConfig {})?)?;
    for turn in 0..samples {
        writer.write_sample(1, &sample_of(pattern, turn))?;
    }
    Ok(writer.write_end()?)
}

/// Writes a movie of one track to a sink, and answers how many bytes it has.
fn recorded<S: ByteSink + Drop>(
    alloc: Global,
    sink: S,
    pattern: &[u8],
    samples: u32,
) -> Result<u64, Failure> {
    let mut writer = Mp4FileWriter::write_start(alloc, sink, &movie_config(alloc)?)?;
    write_track(alloc, &mut writer, pattern, samples)?;
    Ok(writer.into_inner().len())
}

/// Records a movie of a million samples to the file of this name, which is made anew.
pub fn record_file(
    rt: &impl Files,
    alloc: Global,
    name: &str,
    seed: u32,
    parts: u32,
    digest: &mut Digest,
) -> Result<(), Failure> {
    let pattern = pattern(alloc, &mut Random::new(u64::from(seed)))?;
    let file = OpenOptions::new()
        .write(true)
        .create(true)
        .truncate(true)
        .open(rt, name)?;
    let sink = SeekSink::new(alloc, file)?;
    digest.add(recorded(alloc, sink, &pattern, parts.wrapping_mul(1000))?);
    Ok(())
}
