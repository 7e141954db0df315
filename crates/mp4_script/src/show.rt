//! The text that describes the movie of a script.

use crate::info::{track_ids, write_info};
use crate::samples::write_samples;
use crate::script::{ScriptFault, run_script};
use mp4_media::{Movie, Result, read_mp4};
use std::alloc::Global;

/// Writes the lines of the samples of all tracks of a file of `len` bytes, by their ids.
fn write_all_samples(alloc: Global, text: &mut Vec<u8>, movie: &Movie, len: u64) -> Result<()> {
    for id in track_ids(alloc, movie)?.iter() {
        let line = format!(in alloc; "samples {id}\n")?;
        text.extend_from_slice(line.as_bytes())?;
        write_samples(text, movie, len, *id)?;
    }
    Ok(())
}

/// The lines that describe a file and all its samples.
fn described(alloc: Global, file: &[u8]) -> Result<Vec<u8>> {
    let movie = read_mp4(alloc, file)?;
    let mut text = String::new(alloc);
    write_info(alloc, &mut text, &*movie)?;
    let mut text = text.into_bytes();
    write_all_samples(alloc, &mut text, &*movie, file.len() as u64)?;
    Ok(text)
}

/// The lines that describe the movie that a script makes, without a file, and then those of the samples of each track,
/// by rising id, after a line with the id. A fault of opening it again is `End`.
pub fn show_text(alloc: Global, script: &[u8]) -> std::result::Result<Vec<u8>, ScriptFault> {
    let movie = run_script(alloc, script)?;
    described(alloc, movie.as_slice()).map_err(ScriptFault::End)
}
