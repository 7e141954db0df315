//! The lists of samples as `mp4_script` wrote them before they were made faster, function by function: each
//! sample is looked up by halves, its bytes are taken from the file, and `writeln!` writes its seven numbers.
//! Today's lists are compared with these, which are not proved.

use mp4_codec::{ByteCursor, Result};
use mp4_media::{Mp4Reader, SamplePlace, read_mp4};
use mp4_script::{ScriptFault, info_text, run_script};
use std::alloc::Global;
use std::fmt::Write;
use std::process::Abort;
use std::str;

/// The bytes of a sample: None where there is none, `EndOfData` where it doesn't lie whole in the file.
fn read_sample_ref<'a>(
    movie: &Mp4Reader,
    file: &'a [u8],
    id: u32,
    k: u32,
) -> Result<Option<&'a [u8]>> {
    let track = movie.track(id)?;
    let Some(place) = track.locate(k)? else {
        return Ok(None);
    };
    let mut cursor = ByteCursor::new(file);
    cursor.set_position(place.offset);
    let bytes = cursor.take(u64::from(place.size))?;
    Ok(Some(bytes))
}

/// Where a sample that can be read lies: None where there is none.
fn place_of(movie: &Mp4Reader, file: &[u8], id: u32, k: u32) -> Result<Option<SamplePlace>> {
    let Some(_) = read_sample_ref(movie, file, id, k)? else {
        return Ok(None);
    };
    movie.track(id)?.locate(k)
}

/// Writes the line of a sample. The answer is whether there is one: no line follows that of one that isn't
/// there.
fn write_sample(
    rt: &impl Abort,
    text: &mut String,
    k: u32,
    place: &Result<Option<SamplePlace>>,
) -> bool {
    let (written, is_there) = match place {
        Ok(Some(place)) => {
            let SamplePlace {
                offset,
                size,
                start_time,
                duration,
                rendering_offset,
                is_sync,
                ..
            } = place;
            let sync = u8::from(*is_sync);
            let written = writeln!(
                text,
                "{k} {offset} {size} {start_time} {duration} {rendering_offset} {sync}"
            );
            (written, true)
        }
        Ok(None) => (writeln!(text, "{k} none"), false),
        Err(error) => (writeln!(text, "{k} {error}"), false),
    };
    written.expect(rt, "memory");
    is_there
}

/// Writes the lines of the samples of a track, up to the first that isn't there.
fn write_samples(
    rt: &impl Abort,
    text: &mut String,
    movie: &Mp4Reader,
    file: &[u8],
    id: u32,
) -> Result<()> {
    for k in 1..=movie.sample_count(id)? {
        if !write_sample(rt, text, k, &place_of(movie, file, id, k)) {
            break;
        }
    }
    Ok(())
}

/// The lines of the samples of a track.
pub fn samples_text(rt: &impl Abort, alloc: Global, file: &[u8], track_id: u32) -> Result<Vec<u8>> {
    let movie = read_mp4(alloc, file)?;
    let mut text = String::new(alloc);
    write_samples(rt, &mut text, &movie, file, track_id)?;
    Ok(text.into_bytes())
}

/// Writes the lines that describe a movie, which are today's: they were not made faster.
fn write_info(rt: &impl Abort, alloc: Global, text: &mut String, file: &[u8]) {
    let info = info_text(alloc, file).expect(rt, "the movie is described");
    let info = str::from_utf8(info.as_slice()).unwrap_or("no text");
    text.push_str(info).expect(rt, "memory");
}

/// The ids of a movie's tracks, rising.
fn track_ids(rt: &impl Abort, alloc: Global, movie: &Mp4Reader) -> Vec<u32> {
    let mut ids = Vec::new(alloc);
    for id in movie.tracks().keys() {
        ids.push(*id).expect(rt, "memory");
    }
    ids.sort().expect(rt, "memory");
    ids
}

/// Writes the lines of the samples of all tracks, by their ids.
fn write_all_samples(
    rt: &impl Abort,
    alloc: Global,
    text: &mut String,
    movie: &Mp4Reader,
    file: &[u8],
) {
    for id in track_ids(rt, alloc, movie).iter() {
        writeln!(text, "samples {id}").expect(rt, "memory");
        write_samples(rt, text, movie, file, *id).expect(rt, "the samples are listed");
    }
}

/// The lines that describe a file and all its samples.
fn described(rt: &impl Abort, alloc: Global, file: &[u8]) -> Vec<u8> {
    let movie = read_mp4(alloc, file).expect(rt, "the movie opens");
    let mut text = String::new(alloc);
    write_info(rt, alloc, &mut text, file);
    write_all_samples(rt, alloc, &mut text, &movie, file);
    text.into_bytes()
}

/// The lines that describe the movie that a script makes and all its samples, or the fault of the script. Ends the test
/// where that movie can't be read.
pub fn show_text(
    rt: &impl Abort,
    alloc: Global,
    script: &[u8],
) -> std::result::Result<Vec<u8>, ScriptFault> {
    let movie = run_script(alloc, script)?;
    Ok(described(rt, alloc, movie.as_slice()))
}
