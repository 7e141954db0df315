//! A writer of JSON that keeps nothing of what it wrote.

use serde::{Case, Described, Serialize, Serializer};
use std::alloc::Global;
use std::fmt::Display;
use std::io;
use std::io::{ErrorKind, Write};

/// Writes values as JSON, laid out as `serde_json` lays out: each member and each value of a list on a line of its own,
/// indented by two spaces for each list or object that it is in. What is written isn't kept; scalars and texts are
/// written by `serde_json` itself.
#[derive(Drop)]
pub struct JsonWriter<W: Write + Drop> {
    alloc: Global,
    out: W,
    /// How many lists and objects are open.
    depth: usize,
    /// Whether the list or object that was begun last is still empty.
    is_empty: bool,
    /// Whether the name of a member was written, and not yet its value.
    has_name: bool,
}

/// A name in a case that `rename_all` asks for.
#[derive(Clone, Copy)]
struct CasedName<'a> {
    name: &'a str,
    case: Case,
}

impl Described for CasedName<'_> {}

impl Serialize for CasedName<'_> {
    fn serialize<S: Serializer>(&self, out: &mut S) -> Result<(), S::Error> {
        out.str_cased(self.name, self.case)
    }
}

impl<W: Write + Drop> JsonWriter<W> {
    /// A writer to this sink, whose lines are in so many lists and objects already.
    pub fn new(alloc: Global, out: W, depth: usize) -> Self {
        JsonWriter {
            alloc,
            out,
            depth,
            is_empty: true,
            has_name: false,
        }
    }

    /// The same after the name of a member, whose value is written next.
    pub fn after_name(self) -> Self {
        JsonWriter {
            has_name: true,
            ..self
        }
    }

    /// Begins a line.
    fn begin_line(&mut self) -> io::Result<()> {
        self.out.write_all(b"\n")?;
        for _ in 0..self.depth {
            self.out.write_all(b"  ")?;
        }
        Ok(())
    }

    /// Writes what comes before a value of a list or the name of a member.
    fn separate(&mut self) -> io::Result<()> {
        if !self.is_empty {
            self.out.write_all(b",")?;
        }
        self.is_empty = false;
        self.begin_line()
    }

    /// Writes what comes before a value: nothing after the name of a member, and of the whole document.
    fn begin_value(&mut self) -> io::Result<()> {
        if self.has_name {
            self.has_name = false;
            return Ok(());
        }
        if self.depth == 0 {
            return Ok(());
        }
        self.separate()
    }

    /// Writes a value that is no list and no object.
    fn scalar<T: Serialize>(&mut self, value: &T) -> io::Result<()> {
        self.begin_value()?;
        self.text_of(value)
    }

    fn text_of<T: Serialize>(&mut self, value: &T) -> io::Result<()> {
        let Ok(text) = serde_json::to_vec(self.alloc, value) else {
            return Err(ErrorKind::OutOfMemory.into());
        };
        self.out.write_all(text.as_slice())
    }

    /// Begins a list or an object with this mark.
    fn open(&mut self, mark: &[u8]) -> io::Result<()> {
        self.begin_value()?;
        self.depth = self.depth.saturating_add(1);
        self.is_empty = true;
        self.out.write_all(mark)
    }

    /// Ends a list or an object with this mark.
    fn close(&mut self, mark: &[u8]) -> io::Result<()> {
        self.depth = self.depth.saturating_sub(1);
        if !self.is_empty {
            self.begin_line()?;
        }
        self.is_empty = false;
        self.out.write_all(mark)
    }

    /// Writes the name of a member.
    fn name(&mut self, name: CasedName) -> io::Result<()> {
        self.separate()?;
        self.has_name = true;
        self.text_of(&name)?;
        self.out.write_all(b": ")
    }
}

impl<W: Write + Drop> Serializer for JsonWriter<W> {
    type Error = io::Error;

    fn bool(&mut self, v: bool) -> io::Result<()> {
        self.scalar(&v)
    }

    fn i64(&mut self, v: i64) -> io::Result<()> {
        self.scalar(&v)
    }

    fn u64(&mut self, v: u64) -> io::Result<()> {
        self.scalar(&v)
    }

    fn i128(&mut self, v: i128) -> io::Result<()> {
        self.scalar(&v)
    }

    fn u128(&mut self, v: u128) -> io::Result<()> {
        self.scalar(&v)
    }

    fn f32(&mut self, v: f32) -> io::Result<()> {
        self.scalar(&v)
    }

    fn f64(&mut self, v: f64) -> io::Result<()> {
        self.scalar(&v)
    }

    fn char(&mut self, v: char) -> io::Result<()> {
        self.scalar(&v)
    }

    fn str(&mut self, v: &str) -> io::Result<()> {
        self.scalar(&v)
    }

    /// A list of numbers.
    fn bytes(&mut self, v: &[u8]) -> io::Result<()> {
        self.open(b"[")?;
        for byte in v {
            self.scalar(byte)?;
        }
        self.close(b"]")
    }

    /// `null`.
    fn unit(&mut self) -> io::Result<()> {
        self.begin_value()?;
        self.out.write_all(b"null")
    }

    fn str_cased(&mut self, name: &str, case: Case) -> io::Result<()> {
        self.scalar(&CasedName { name, case })
    }

    fn begin_seq(&mut self, _len: Option<usize>) -> io::Result<()> {
        self.open(b"[")
    }

    fn end_seq(&mut self) -> io::Result<()> {
        self.close(b"]")
    }

    fn begin_map(&mut self, _len: Option<usize>) -> io::Result<()> {
        self.open(b"{")
    }

    fn end_map(&mut self) -> io::Result<()> {
        self.close(b"}")
    }

    fn key_cased(&mut self, name: &str, case: Case) -> io::Result<()> {
        self.name(CasedName { name, case })
    }

    fn variant_key(&mut self, name: &str, case: Case) -> io::Result<()> {
        self.name(CasedName { name, case })
    }

    /// No report has names that are no texts.
    fn begin_key(&mut self) -> io::Result<()> {
        Err(ErrorKind::Unsupported.into())
    }

    fn end_key(&mut self) -> io::Result<()> {
        Err(ErrorKind::Unsupported.into())
    }

    /// No report has an object whose members are another's.
    fn flatten_next(&mut self) -> io::Result<()> {
        Err(ErrorKind::Unsupported.into())
    }

    fn custom(&self, _message: &str) -> io::Error {
        ErrorKind::InvalidData.into()
    }

    fn collect_str<T: Display>(&mut self, value: &T) -> io::Result<()> {
        let Ok(text) = format!(in self.alloc; "{value}") else {
            return Err(ErrorKind::OutOfMemory.into());
        };
        self.scalar(&text)
    }
}
