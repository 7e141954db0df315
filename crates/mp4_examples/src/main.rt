//! Programs on the library, each in a file of its own, and here run on one movie. docs/CALLING.md shows them.
#![tactic(auto)]

mod copy;
mod count;
mod large_file;
mod round_trip;
mod seek;
mod subtitles;

use crate::copy::copy_track;
use crate::count::sample_counts;
use crate::large_file::read_sync_sample;
use crate::round_trip::{movie_calls, movie_config, write_and_open};
use crate::seek::sync_sample_for;
use crate::subtitles::subtitles;
use anyhow::Result;
use mp4_media::{Mp4File, Mp4Reader, SeekSource};
use std::alloc::Global;
use std::fs;

/// Prints what the programs answer of a movie whose first track is video and whose second track is text.
fn show(rt: &HostRuntime, alloc: Global, movie: &Mp4Reader) -> Result<()> {
    for (id, count) in sample_counts(alloc, movie)? {
        println!(rt; "track {id} has {count} samples")?;
    }
    let copied = copy_track(movie, 1, &mut fs::create(rt, "track_1.bin")?)?;
    println!(rt; "track 1 has {copied} bytes")?;
    if let Some(sample) = sync_sample_for(movie, 1, 1500)? {
        println!(rt; "at 1500 decode from {}", sample.start_time)?;
    }
    print!(rt; "{}", subtitles(alloc, movie, 2)?)?;
    Ok(())
}

/// Prints what is read of a sample of a movie that is on the disk.
fn show_file(rt: &HostRuntime, alloc: Global, movie: &[u8]) -> Result<()> {
    fs::write(rt, "movie.mp4", movie)?;
    let source = SeekSource::new(fs::open(rt, "movie.mp4")?);
    let mut file = Mp4File::open(alloc, source, 0, movie.len() as u64)?;
    let mut buffer = Vec::new(alloc);
    if let Some(start) = read_sync_sample(&mut file, 1, 1500, &mut buffer)? {
        println!(rt; "the sample at {start} has {} bytes", buffer.len())?;
    }
    Ok(())
}

fn main(rt: HostRuntime) -> Result<()> {
    let mut buffer = Vec::new(rt.alloc());
    let config = movie_config(rt.alloc())?;
    let calls = movie_calls(rt.alloc())?;
    let written = write_and_open(rt.alloc(), &config, &calls, &mut buffer)?;
    println!(rt; "{} calls were answered", written.replies.len())?;
    show(&rt, rt.alloc(), &written.movie)?;
    drop(written);
    show_file(&rt, rt.alloc(), buffer.as_slice())
}
