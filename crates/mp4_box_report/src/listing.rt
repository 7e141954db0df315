//! The list of boxes, as a text or as JSON, written as it is made.

use crate::boxes::{BoxFields, BoxReport, Boxes, BoxesRequest};
use mp4_fields::Field;
use mp4_readable::{Grouped, JsonDocument, Whole, grouped_length};
use mp4_source::{ByteSource, FileError};
use std::alloc::Global;
use std::fmt::Write as _;
use std::io::Write;
use std::{fmt, io};
use thiserror::Error as ThisError;

/// The width of the longest path that is usual; a longer one pushes its line.
const MOST_PATH: usize = 42;

/// Why a list of boxes isn't written whole.
#[derive(Debug, Drop, ThisError)]
pub enum BoxesError {
    /// The source refuses a read, or memory ran out.
    #[error("{0}")]
    Read(FileError),
    /// The sink refuses.
    #[error("{0}")]
    Write(io::Error),
}

impl From<FileError> for BoxesError {
    fn from(error: FileError) -> BoxesError {
        BoxesError::Read(error)
    }
}

impl From<io::Error> for BoxesError {
    fn from(error: io::Error) -> BoxesError {
        BoxesError::Write(error)
    }
}

/// The widths of the columns of a list of boxes.
#[derive(Clone, Copy, Debug)]
struct Widths {
    path: usize,
    place: usize,
    size: usize,
}

impl Widths {
    /// The widths that hold the boxes of a file of so many bytes, down to a depth.
    fn new(file_size: u64, depth: u32) -> Self {
        let number = grouped_length(file_size).max(5);
        let depth = depth.min(5) as usize;
        Widths {
            path: (2 + 8 * depth).min(MOST_PATH),
            place: number,
            size: number,
        }
    }
}

/// The line of headings.
#[derive(Clone, Copy)]
struct Headings(Widths);

impl fmt::Display for Headings {
    fn fmt<W: fmt::Write>(&self, f: &mut fmt::Formatter<W>) -> fmt::Result {
        let Widths { path, place, size } = self.0;
        write!(
            f,
            "{:<path$}  {:>place$}  {:>size$}",
            "box", "place", "bytes"
        )
    }
}

impl fmt::Display for BoxFields {
    /// Writes a line for each field, indented.
    fn fmt<W: fmt::Write>(&self, f: &mut fmt::Formatter<W>) -> fmt::Result {
        for field in self.0.iter() {
            let Field { name, value } = field;
            writeln!(f, "    {name:<25} {value}")?;
        }
        Ok(())
    }
}

/// The lines of a box: its path, place and size, and what is said of it below.
#[derive(Clone, Copy)]
struct BoxLines<'a> {
    report: &'a BoxReport,
    widths: Widths,
}

impl BoxLines<'_> {
    fn write_head<W: fmt::Write>(&self, f: &mut fmt::Formatter<W>) -> fmt::Result {
        let Widths {
            path: path_width,
            place: place_width,
            size: size_width,
        } = self.widths;
        let path = match (&self.report.kind, self.report.path.is_empty()) {
            (None, true) => "the file",
            _ => self.report.path.as_str(),
        };
        let place = Grouped(self.report.place.0);
        let size = Grouped(self.report.size.0);
        writeln!(
            f,
            "{path:<path_width$}  {place:>place_width$}  {size:>size_width$}"
        )
    }
}

impl fmt::Display for BoxLines<'_> {
    fn fmt<W: fmt::Write>(&self, f: &mut fmt::Formatter<W>) -> fmt::Result {
        self.write_head(f)?;
        if let Some(refused) = &self.report.refused {
            writeln!(f, "    REFUSED: {refused}")?;
        } else if self.report.past_end.0 > 0 {
            let past_end = Grouped(self.report.past_end.0);
            writeln!(
                f,
                "    it says {past_end} bytes more, past the end of the file"
            )?;
        }
        if let Some(fields) = &self.report.fields {
            write!(f, "{fields}")?;
        }
        Ok(())
    }
}

/// Writes a line for each box, and its fields below it.
fn write_text<S: ByteSource + Drop, W: Write>(
    boxes: &mut Boxes<S>,
    out: &mut W,
) -> Result<(), BoxesError> {
    let widths = Widths::new(boxes.file_size(), boxes.depth());
    let headings = Headings(widths);
    writeln!(out, "{headings}")?;
    for _ in 0..u64::MAX {
        let Some(report) = boxes.next_box()? else {
            break;
        };
        let lines = BoxLines {
            report: &report,
            widths,
        };
        write!(out, "{lines}")?;
    }
    Ok(())
}

/// Writes an object with the bytes of the file and the list of its boxes.
fn write_json<S: ByteSource + Drop, W: Write>(
    alloc: Global,
    boxes: &mut Boxes<S>,
    out: &mut W,
) -> Result<(), BoxesError> {
    let mut document = JsonDocument::begin(out)?;
    document.member(alloc, "file_size", &Whole(boxes.file_size()), out)?;
    document.begin_list("boxes", out)?;
    for _ in 0..u64::MAX {
        let Some(report) = boxes.next_box()? else {
            break;
        };
        document.row(alloc, &report, out)?;
    }
    document.end_list(out)?;
    document.end(out)?;
    Ok(())
}

/// Writes the boxes of a source, as a text or as JSON, each as it is found.
///
/// `Read` of `Io` where the source refuses a read, and of `OutOfMemory`; `Write` where the sink refuses.
pub fn write_boxes<S: ByteSource + Drop, W: Write>(
    alloc: Global,
    source: S,
    request: BoxesRequest,
    json: bool,
    out: &mut W,
) -> Result<(), BoxesError> {
    let mut boxes = Boxes::new(alloc, source, request)?;
    if json {
        write_json(alloc, &mut boxes, out)
    } else {
        write_text(&mut boxes, out)
    }
}
