//! The subtitles of a text track, with their times.

use mp4_media::{Error, Mp4Reader, Result, SampleRef, time_of};
use std::alloc::Global;
use std::fmt::Write;
use std::str;

/// The text of a sample of a text track (3GPP TS 26.245, 5.17): its length in two bytes, and then as many bytes.
fn text_of(sample: &[u8]) -> Result<&str> {
    let [high, low, rest @ ..] = sample else {
        return Err(Error::InvalidData("a length of two bytes"));
    };
    let length = usize::from(u16::from_be_bytes([*high, *low]));
    let bytes = rest.get(..length).ok_or(Error::EndOfData)?;
    str::from_utf8(bytes).map_err(|_| Error::InvalidData("a text in UTF-8"))
}

/// Writes from when to when a sample is shown, in milliseconds, and its text.
fn write_subtitle(lines: &mut String, sample: &SampleRef, timescale: u32) -> Result<()> {
    let end = sample.start_time.saturating_add(u64::from(sample.duration));
    let from = time_of(1000, sample.start_time, timescale)?;
    let to = time_of(1000, end, timescale)?;
    let text = text_of(sample.bytes)?;
    writeln!(lines, "{from} to {to} ms: {text}")?;
    Ok(())
}

/// The subtitles of a text track, a line each.
pub fn subtitles(alloc: Global, movie: &Mp4Reader, track_id: u32) -> Result<String> {
    let track = movie.track(track_id)?;
    let mut lines = String::new(alloc);
    for sample in movie.samples(track_id)? {
        write_subtitle(&mut lines, &sample?, track.timescale())?;
    }
    Ok(lines)
}
