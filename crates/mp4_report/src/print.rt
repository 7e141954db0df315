//! Lists of samples, written as the samples are found.

use crate::samples::{SampleRows, SamplesRequest};
use mp4_codec::Error;
use mp4_media::Movie;
use mp4_readable::{JsonDocument, Reason, reason_text};
use std::alloc::{AllocError, Global};
use std::io;
use std::io::{ErrorKind, Write};

/// Why a list isn't written.
#[derive(Debug, Drop)]
pub enum PrintError {
    /// There is no such track, or memory ran out.
    Movie(Error),
    /// What it is written to refuses.
    Write(io::Error),
}

impl From<Error> for PrintError {
    fn from(error: Error) -> PrintError {
        PrintError::Movie(error)
    }
}

impl From<AllocError> for PrintError {
    fn from(_error: AllocError) -> PrintError {
        PrintError::Movie(Error::OutOfMemory)
    }
}

impl From<io::Error> for PrintError {
    fn from(error: io::Error) -> PrintError {
        match error.kind() {
            ErrorKind::OutOfMemory => PrintError::Movie(Error::OutOfMemory),
            _ => PrintError::Write(error),
        }
    }
}

/// Writes a line for each sample below the headings, and why there are no more where one is refused.
fn write_lines<W: Write>(rows: &mut SampleRows, out: &mut W) -> io::Result<()> {
    let columns = rows.columns();
    writeln!(out, "{columns}")?;
    for _ in 0..rows.left() {
        let Some(row) = rows.next_row() else {
            break;
        };
        let line = columns.line(row);
        writeln!(out, "{line}")?;
    }
    match rows.refused() {
        Some(error) => {
            let reason = Reason(error);
            writeln!(out, "the next sample is refused: {reason}")
        }
        None => Ok(()),
    }
}

/// Writes the list of the samples as the member of a document, and why there are no more.
fn write_members<W: Write>(
    alloc: Global,
    document: &mut JsonDocument,
    rows: &mut SampleRows,
    out: &mut W,
) -> Result<(), PrintError> {
    document.begin_list("samples", out)?;
    for _ in 0..rows.left() {
        let Some(row) = rows.next_row() else {
            break;
        };
        document.row(alloc, &row, out)?;
    }
    document.end_list(out)?;
    let refused = match rows.refused() {
        Some(error) => Some(reason_text(alloc, error)?),
        None => None,
    };
    document.member(alloc, "refused", &refused, out)?;
    Ok(())
}

/// Writes the samples of a track as one JSON document.
fn write_json<W: Write>(
    alloc: Global,
    track_id: u32,
    rows: &mut SampleRows,
    out: &mut W,
) -> Result<(), PrintError> {
    let mut document = JsonDocument::begin(out)?;
    document.member(alloc, "track", &track_id, out)?;
    document.member(alloc, "timescale", &rows.timescale(), out)?;
    write_members(alloc, &mut document, rows, out)?;
    document.end(out)?;
    Ok(())
}

/// Writes the samples that are asked for of a movie whose file has so many bytes, as a text for people or as
/// JSON. Each is written as it is found, and none is kept.
pub fn write_samples<W: Write>(
    alloc: Global,
    movie: &Movie,
    file_size: u64,
    request: SamplesRequest,
    json: bool,
    out: &mut W,
) -> Result<(), PrintError> {
    let mut rows = SampleRows::new(movie, file_size, request)?;
    if json {
        return write_json(alloc, request.track_id, &mut rows, out);
    }
    write_lines(&mut rows, out)?;
    Ok(())
}
