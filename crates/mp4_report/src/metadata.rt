//! What a file says of the work that it holds: title, year, summary, picture, and all else.

use crate::tags::Tag;
use mp4_codec::Result;
use mp4_media::Movie;
use mp4_meta::{IlstBox, Metadata};
use mp4_readable::{Grouped, Visible};
use serde::Serialize;
use std::alloc::Global;
use std::borrow::CowStr;
use std::fmt;
use std::fmt::Write;

/// The picture of a work.
#[derive(Clone, Copy, Debug, PartialEq, Eq, Serialize)]
pub struct CoverReport {
    /// `JPEG`, `PNG`, `BMP`, `GIF`, or `unknown`.
    pub format: &'static str,
    pub bytes: u64,
}

/// What a file says of the work that it holds; what it doesn't say is `None`.
#[derive(Debug, Drop, Serialize)]
pub struct MetadataReport {
    pub title: Option<String>,
    pub year: Option<u32>,
    pub summary: Option<String>,
    pub cover: Option<CoverReport>,
    /// All that is said in words and numbers, in file order.
    pub tags: Vec<Tag>,
}

/// What kind of picture begins with these bytes.
fn format_of(picture: &[u8]) -> &'static str {
    match picture {
        [0xff, 0xd8, 0xff, ..] => "JPEG",
        [0x89, b'P', b'N', b'G', ..] => "PNG",
        [b'B', b'M', ..] => "BMP",
        [b'G', b'I', b'F', b'8', ..] => "GIF",
        _ => "unknown",
    }
}

/// The picture of a movie, if it has one.
pub fn cover_of(movie: &Movie) -> Option<&[u8]> {
    movie.metadata()?.poster()
}

/// A text of its own.
fn owned(alloc: Global, text: Option<CowStr<'_, Global>>) -> Result<Option<String>> {
    match text {
        None => Ok(None),
        Some(text) => Ok(Some(text.into_owned(alloc)?)),
    }
}

/// What these items say, and these tags.
fn report_of(alloc: Global, items: &IlstBox, tags: Vec<Tag>) -> Result<MetadataReport> {
    let title = owned(alloc, items.title()?)?;
    let summary = owned(alloc, items.summary()?)?;
    Ok(MetadataReport {
        title,
        year: items.year(),
        summary,
        cover: items.poster().map(|picture| CoverReport {
            format: format_of(picture),
            bytes: picture.len() as u64,
        }),
        tags,
    })
}

/// What a movie says of its work, whose tags are these, as [`crate::tags_of`] finds them. Refused by `OutOfMemory`
/// alone.
pub fn metadata_of(alloc: Global, movie: &Movie, tags: Vec<Tag>) -> Result<MetadataReport> {
    match movie.metadata() {
        Some(items) => report_of(alloc, items, tags),
        None => Ok(MetadataReport {
            title: None,
            year: None,
            summary: None,
            cover: None,
            tags,
        }),
    }
}

/// Writes the line of a text. No control character of its name or of itself reaches a terminal.
fn write_line<W: fmt::Write>(f: &mut fmt::Formatter<W>, name: &str, text: &str) -> fmt::Result {
    f.write(Visible(name))?;
    f.write_repeated(" ", 8usize.saturating_sub(name.len()))?;
    let text = Visible(text);
    writeln!(f, " {text}")
}

/// Writes the line of a text, if it is there.
fn write_text<W: fmt::Write>(
    f: &mut fmt::Formatter<W>,
    name: &str,
    text: &Option<String>,
) -> fmt::Result {
    match text {
        Some(text) => write_line(f, name, text.as_str()),
        None => Ok(()),
    }
}

/// Whether a tag says the same as a text that is there.
fn says(tag: &Tag, key: &str, text: &Option<String>) -> bool {
    match text {
        Some(text) => tag.key.as_str() == key && tag.value.as_str() == text.as_str(),
        None => false,
    }
}

impl MetadataReport {
    /// Whether nothing is said.
    fn is_empty(&self) -> bool {
        let has_text = self.title.is_some() || self.summary.is_some();
        let has_other = self.year.is_some() || self.cover.is_some();
        !has_text && !has_other && self.tags.is_empty()
    }

    /// Whether a tag is on the screen already, as the title, the year or the summary.
    fn is_shown(&self, tag: &Tag) -> bool {
        let is_year = match self.year {
            Some(year) => tag.key.as_str() == "date" && tag.value.parse::<u32>() == Ok(year),
            None => false,
        };
        is_year || says(tag, "title", &self.title) || says(tag, "description", &self.summary)
    }
}

impl fmt::Display for MetadataReport {
    /// Writes a line for each thing that is known, or that there is none.
    fn fmt<W: fmt::Write>(&self, f: &mut fmt::Formatter<W>) -> fmt::Result {
        if self.is_empty() {
            return f.write_str("no metadata\n");
        }
        write_text(f, "title", &self.title)?;
        if let Some(year) = self.year {
            writeln!(f, "year     {year}")?;
        }
        write_text(f, "summary", &self.summary)?;
        if let Some(CoverReport { format, bytes }) = self.cover {
            let bytes = Grouped(bytes);
            writeln!(f, "cover    {format}, {bytes} bytes")?;
        }
        for tag in self.tags.iter() {
            if !self.is_shown(tag) {
                write_line(f, tag.key.as_str(), tag.value.as_str())?;
            }
        }
        Ok(())
    }
}
