//! The text that describes a movie.

use mp4_media::{ByteSource, FileError, FourCC, Movie, Mp4File, Mp4Track, Result, read_mp4};
use std::alloc::{AllocError, Global};
use std::fmt::Write;

/// Writes the line of the compatible brands.
fn write_brands(text: &mut String, movie: &Movie) -> std::result::Result<(), AllocError> {
    text.push_str("brands")?;
    for brand in movie.compatible_brands() {
        write!(text, " {brand}")?;
    }
    text.push_str("\n")
}

/// Writes the line of the duration.
fn write_duration(text: &mut String, movie: &Movie) -> std::result::Result<(), AllocError> {
    match movie.duration() {
        Ok(milliseconds) => writeln!(text, "duration {milliseconds}"),
        Err(_) => text.push_str("duration -\n"),
    }
}

/// Writes a part of a line after a space: what a track answers, or `-` where that is refused.
fn write_part<T: std::fmt::Display + Drop>(
    text: &mut String,
    part: Result<T>,
) -> std::result::Result<(), AllocError> {
    match part {
        Ok(value) => write!(text, " {value}"),
        Err(_) => text.push_str(" -"),
    }
}

/// Writes a language after a space; bytes that don't print are shown as full stops.
fn write_language(text: &mut String, language: &str) -> std::result::Result<(), AllocError> {
    text.push_str(" ")?;
    for byte in language.bytes() {
        let printed = matches!(byte, b' '..=b'~');
        text.push(if printed { char::from(byte) } else { '.' })?;
    }
    Ok(())
}

/// Writes the line of a track.
fn write_track(text: &mut String, id: u32, track: &Mp4Track) -> Result<()> {
    write!(text, "track {id}")?;
    write_part(text, track.track_type().map(FourCC::from))?;
    write_part(text, track.box_type())?;
    write!(text, " {}", track.timescale())?;
    write_part(text, track.duration())?;
    write_part(text, track.sample_count())?;
    write_language(text, track.language())?;
    text.push_str("\n")?;
    Ok(())
}

/// The ids of a movie's tracks, rising.
pub(crate) fn track_ids(alloc: Global, movie: &Movie) -> Result<Vec<u32>> {
    let mut ids = Vec::new(alloc);
    for id in movie.tracks().keys() {
        ids.push(*id)?;
    }
    ids.sort()?;
    Ok(ids)
}

/// Writes the lines of all tracks, by their ids.
fn write_tracks(alloc: Global, text: &mut String, movie: &Movie) -> Result<()> {
    for id in track_ids(alloc, movie)?.iter() {
        if let Some(track) = movie.tracks().get(id) {
            write_track(text, *id, track)?;
        }
    }
    Ok(())
}

/// Writes the lines of the brands.
fn write_file_type(text: &mut String, movie: &Movie) -> Result<()> {
    let brand = movie.major_brand();
    let version = movie.minor_version();
    writeln!(text, "brand {brand} {version}")?;
    write_brands(text, movie)?;
    Ok(())
}

/// Writes the lines of the sizes: how many bytes there are, how many ticks a second has, and how long the movie is.
fn write_sizes(text: &mut String, movie: &Movie) -> Result<()> {
    let size = movie.size();
    let timescale = movie.timescale();
    writeln!(text, "size {size}")?;
    writeln!(text, "timescale {timescale}")?;
    write_duration(text, movie)?;
    Ok(())
}

/// Writes the lines that describe an opened movie.
pub(crate) fn write_info(alloc: Global, text: &mut String, movie: &Movie) -> Result<()> {
    write_file_type(text, movie)?;
    write_sizes(text, movie)?;
    let fragmented = if movie.is_fragmented() { "yes" } else { "no" };
    writeln!(text, "fragmented {fragmented}")?;
    write_tracks(alloc, text, movie)
}

/// The lines that describe a movie: its brands, its size in bytes, its timescale in ticks a second, its duration in
/// milliseconds, and whether it has fragments; then for each track, by rising id: its id, its handler, the type of its
/// sample entry, its timescale, its duration in microseconds, how many samples it has, and its language. What can't be
/// computed is shown as `-`.
///
/// Refused as the movie's opening is, and where memory runs out.
pub fn info_text(alloc: Global, file: &[u8]) -> Result<Vec<u8>> {
    let movie = read_mp4(alloc, file)?;
    described(alloc, &*movie)
}

/// What [`info_text`] says of the file of all bytes of a source: only its boxes are read.
///
/// Refused as the file's opening is, and where memory runs out.
pub fn file_info_text<S: ByteSource + Drop>(
    alloc: Global,
    source: S,
) -> std::result::Result<Vec<u8>, FileError> {
    let file = open_whole(alloc, source)?;
    Ok(described(alloc, &*file)?)
}

/// The file of all bytes of a source.
pub(crate) fn open_whole<S: ByteSource + Drop>(
    alloc: Global,
    source: S,
) -> std::result::Result<Mp4File<S>, FileError> {
    let mut source = source;
    let size = source.len()?;
    Mp4File::open(alloc, source, 0, size)
}

/// The lines that describe an opened movie.
fn described(alloc: Global, movie: &Movie) -> Result<Vec<u8>> {
    let mut text = String::new(alloc);
    write_info(alloc, &mut text, movie)?;
    Ok(text.into_bytes())
}
