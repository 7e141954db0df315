//! What is extracted of a track of a file.

use mp4_cases::encoded::write_digits;
use mp4_extract::{
    ExtractError, SampleFormat, Subtitle, SubtitleReader, SubtitleTimes, extract, write_line,
    write_srt,
};
use mp4_media::Mp4File;
use std::alloc::{AllocError, Global};
use std::io;
use std::io::{ErrorKind, Write};

/// The samples that are asked for: those of a track from a number on, at most so many.
#[derive(Clone, Copy)]
pub struct Asked {
    /// The id of the track.
    pub track: u32,
    pub from: u32,
    pub count: u32,
}

/// The format of a word; that of stored samples where it is no other.
pub fn format_of(word: &str) -> SampleFormat {
    match word {
        "annexb" => SampleFormat::AnnexB,
        "adts" => SampleFormat::Adts,
        _ => SampleFormat::AsStored,
    }
}

/// Whether samples aren't extracted since memory ran out, here or for the sink.
fn lacks_memory(error: &ExtractError) -> bool {
    match error {
        ExtractError::OutOfMemory => true,
        ExtractError::Write(_, error) => error.kind() == ErrorKind::OutOfMemory,
        _ => false,
    }
}

/// Why samples aren't extracted, in words.
fn refusal(alloc: Global, error: &ExtractError) -> Result<String, AllocError> {
    if lacks_memory(error) {
        return Err(AllocError);
    }
    format!(in alloc; "refused: {error}")
}

/// A sink that holds so many more bytes at most.
#[derive(Drop)]
struct FullSink {
    room: usize,
}

impl Write for FullSink {
    fn write(&mut self, buf: &[u8]) -> io::Result<usize> {
        if buf.len() > self.room {
            return Err(io::Error::from(ErrorKind::StorageFull));
        }
        self.room -= buf.len();
        Ok(buf.len())
    }

    fn flush(&mut self) -> io::Result<()> {
        Ok(())
    }
}

/// How many samples are written into a sink of so many bytes, or why one isn't.
pub fn extracted_into(
    alloc: Global,
    movie: &mut Mp4File<&[u8]>,
    id: u32,
    format: SampleFormat,
    room: usize,
) -> Result<String, AllocError> {
    let mut sink = FullSink { room };
    match extract(alloc, movie, id, 1, u32::MAX, format, &mut sink) {
        Ok(written) => format!(in alloc; "{written} samples"),
        Err(error) => refusal(alloc, &error),
    }
}

/// How many samples are written, or why one isn't, and the bytes that are.
pub fn extracted(
    alloc: Global,
    movie: &mut Mp4File<&[u8]>,
    asked: Asked,
    format: SampleFormat,
) -> Result<String, AllocError> {
    let Asked { track, from, count } = asked;
    let mut out = Vec::new(alloc);
    let mut text = match extract(alloc, movie, track, from, count, format, &mut out) {
        Ok(written) => format!(in alloc; "{written} samples:")?,
        Err(error) => refusal(alloc, &error)?,
    };
    write_digits(&mut text, &out)?;
    Ok(text)
}

/// Writes a subtitle, if it is shown, before which so many are; the answer is how many are then. A list of bytes takes
/// all that there is memory for.
fn write_shown(
    srt: bool,
    before: u64,
    subtitle: &Subtitle,
    out: &mut Vec<u8>,
) -> Result<u64, AllocError> {
    if !subtitle.is_shown {
        return Ok(before);
    }
    let shown = before.saturating_add(1);
    let written = if srt {
        write_srt(shown, subtitle, out)
    } else {
        write_line(subtitle, out)
    };
    match written {
        Ok(()) => Ok(shown),
        Err(_) => Err(AllocError),
    }
}

/// Writes why a sample is refused, as a line.
fn write_refusal(alloc: Global, error: &ExtractError, out: &mut Vec<u8>) -> Result<(), AllocError> {
    out.extend_from_slice(refusal(alloc, error)?.as_bytes())?;
    out.extend_from_slice(b"\n")
}

/// Writes the texts that a reader reads.
fn write_texts(
    alloc: Global,
    movie: &mut Mp4File<&[u8]>,
    reader: &mut SubtitleReader,
    srt: bool,
    out: &mut Vec<u8>,
) -> Result<(), AllocError> {
    let mut shown = 0u64;
    for _ in 0..u32::MAX {
        match reader.next(movie) {
            Some(Ok(subtitle)) => shown = write_shown(srt, shown, &subtitle, out)?,
            Some(Err(error)) => write_refusal(alloc, &error, out)?,
            None => break,
        }
    }
    Ok(())
}

/// The texts of a track of text that are shown, and why others are refused, with the ends of lines written out.
pub fn texts(
    alloc: Global,
    movie: &mut Mp4File<&[u8]>,
    id: u32,
    srt: bool,
    times: SubtitleTimes,
) -> Result<String, AllocError> {
    match SubtitleReader::new(alloc, movie, id, times) {
        Ok(mut reader) => {
            let mut out = Vec::new(alloc);
            write_texts(alloc, movie, &mut reader, srt, &mut out)?;
            let text = String::from_utf8_lossy(alloc, out.as_slice())?;
            format!(in alloc; "{text:?}")
        }
        Err(error) => refusal(alloc, &error),
    }
}
