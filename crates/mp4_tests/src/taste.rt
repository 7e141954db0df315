//! Functions of which docs/CALLING.md shows the first, and README the last.

use crate::asserts::assert_that;
use bytes::Bytes;
use mp4_media::{
    FourCC, Items, Mp4Config, Mp4Sample, Mp4Writer, Result, TrackConfig, TtxtConfig, read_mp4,
};
use std::alloc::Global;
use std::process::Abort;

/// The bytes of a movie of one text track, in which each line lasts for a second.
fn subtitles(alloc: Global, lines: &[&[u8]]) -> Result<Vec<u8>> {
    let brands = vec![in alloc; FourCC::from(*b"isom"), FourCC::from(*b"mp41")]?;
    let config = Mp4Config {
        major_brand: FourCC::from(*b"isom"),
        minor_version: 512,
        compatible_brands: Items::from(brands),
        timescale: 1000,
    };
    let mut writer = Mp4Writer::write_start(alloc, Vec::new(alloc), &config)?;
    writer.add_track(&TrackConfig::from_ttxt(alloc, TtxtConfig {})?)?;
    for line in lines {
        let sample = Mp4Sample {
            start_time: 0,
            duration: 1000,
            rendering_offset: 0,
            is_sync: true,
            bytes: Bytes::copy_from_slice(alloc, line)?,
        };
        writer.write_sample(1, &sample)?;
    }
    writer.write_end()?;
    Ok(writer.into_writer())
}

/// The text that describes the header of a movie.
fn header_text(rt: &impl Abort, alloc: Global, file: &[u8]) -> String {
    let movie = read_mp4(alloc, file).expect(rt, "the movie opens");
    let brand = movie.major_brand();
    let size = movie.size();
    let milliseconds = movie.duration().expect(rt, "a duration");
    format!(in alloc; "{brand}: {size} bytes, {milliseconds} ms").expect(rt, "memory")
}

/// The bytes of all samples of a track, one after the other.
fn track_bytes(alloc: Global, file: &[u8], track_id: u32) -> Result<Vec<u8>> {
    let movie = read_mp4(alloc, file)?;
    let mut bytes = Vec::new(alloc);
    for sample in movie.samples(track_id)? {
        bytes.extend_from_slice(sample?.bytes)?;
    }
    Ok(bytes)
}

/// Whether a movie of two lines is described so, and holds them.
fn holds_two_lines(rt: &impl Abort, alloc: Global, expected: &str) -> bool {
    let file = subtitles(alloc, &[b"Hello, ", b"world"]).expect(rt, "the movie is written");
    let is_described = header_text(rt, alloc, &file).as_str() == expected;
    let bytes = track_bytes(alloc, &file, 1).expect(rt, "the movie is read");
    is_described && bytes.as_slice() == b"Hello, world".as_slice()
}

#[test]
fn a_movie_of_two_lines_is_described_and_read(rt: HostRuntime) {
    assert_that(
        &rt,
        1,
        holds_two_lines(&rt, rt.alloc(), "isom: 583 bytes, 2000 ms"),
    );
}
