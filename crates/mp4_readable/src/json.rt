//! Reports as JSON.

ghost use Rattle.mp4_codec.specs.ExactTest.{by_test, field_tests};

use crate::json_writer::JsonWriter;
use mp4_codec::ExactEq;
use serde::{Described, Serialize, Serializer};
use serde_json::Error;
use std::alloc::{AllocError, Global};
use std::io::Write;
use std::{fmt, io};

/// The largest number that each program reads from JSON as it is: 2^53 (RFC 8259, 6).
const MOST_EXACT: u64 = 9_007_199_254_740_992;

/// A report as one JSON document, which ends with a line feed.
pub fn json_text<T: Serialize>(alloc: Global, report: &T) -> Result<Vec<u8>, Error> {
    let mut text = serde_json::to_vec_pretty(alloc, report)?;
    text.push(b'\n').map_err(AllocError::from)?;
    Ok(text)
}

/// A whole number: in JSON a number up to 2^53, and past that a text, since many programs would round it.
#[derive(Clone, Copy, Debug, Default, PartialEq, Eq)]
pub struct Whole(pub u64);

impl ExactEq for Whole {
    ghost exact = { by_test (Prim.hlevel field_tests) };
}

impl fmt::Display for Whole {
    fn fmt<W: fmt::Write>(&self, f: &mut fmt::Formatter<W>) -> fmt::Result {
        self.0.fmt(f)
    }
}

impl Described for Whole {}

impl Serialize for Whole {
    fn serialize<S: Serializer>(&self, out: &mut S) -> Result<(), S::Error> {
        if self.0 <= MOST_EXACT {
            out.u64(self.0)
        } else {
            out.collect_str(&self.0)
        }
    }
}

/// A JSON document that is written as it is made: an object, some of whose members may be lists. It is laid out as
/// [`json_text`] lays out, and nothing of it is kept.
#[derive(Clone, Copy, Debug, Default)]
pub struct JsonDocument {
    has_member: bool,
    has_row: bool,
}

impl JsonDocument {
    /// Begins a document.
    pub fn begin<W: Write>(out: &mut W) -> io::Result<Self> {
        out.write_all(b"{")?;
        Ok(JsonDocument::default())
    }

    /// Writes the name of a member.
    fn write_name<W: Write>(&mut self, name: &str, out: &mut W) -> io::Result<()> {
        if self.has_member {
            out.write_all(b",")?;
        }
        self.has_member = true;
        write!(out, "\n  \"{name}\": ")
    }

    /// Writes a member that isn't a list of rows.
    pub fn member<T: Serialize, W: Write>(
        &mut self,
        alloc: Global,
        name: &str,
        value: &T,
        out: &mut W,
    ) -> io::Result<()> {
        self.write_name(name, out)?;
        value.serialize(&mut JsonWriter::new(alloc, &mut *out, 1).after_name())
    }

    /// Begins a member that is a list of rows.
    pub fn begin_list<W: Write>(&mut self, name: &str, out: &mut W) -> io::Result<()> {
        self.write_name(name, out)?;
        self.has_row = false;
        out.write_all(b"[")
    }

    /// Writes the next row of the list that was begun.
    pub fn row<T: Serialize, W: Write>(
        &mut self,
        alloc: Global,
        row: &T,
        out: &mut W,
    ) -> io::Result<()> {
        if self.has_row {
            out.write_all(b",")?;
        }
        self.has_row = true;
        row.serialize(&mut JsonWriter::new(alloc, &mut *out, 2))
    }

    /// Ends the list that was begun.
    pub fn end_list<W: Write>(&mut self, out: &mut W) -> io::Result<()> {
        let end: &[u8] = if self.has_row { b"\n  ]" } else { b"]" };
        out.write_all(end)
    }

    /// Ends the document with a line feed.
    pub fn end<W: Write>(self, out: &mut W) -> io::Result<()> {
        let end: &[u8] = if self.has_member { b"\n}\n" } else { b"}\n" };
        out.write_all(end)
    }
}
