//! The box that doesn't fit into the box that it is in.

use crate::said::{LARGE_HEADER_SIZE, Said, said_by};
use mp4_codec::{BoxType, HEADER_SIZE, OPEN_END};
use mp4_faults::{PathStep, bytes_before_children};
use mp4_readable::Grouped;
use mp4_source::{ByteSource, FileError, Window, read_into};
use std::alloc::Global;
use std::fmt;
use std::fmt::Write;

/// The bytes of a payload that say where the children of its box begin.
const HEAD: u64 = 10;

/// A box in a container whose header doesn't say where it ends within it.
#[derive(Clone, Copy, Debug, PartialEq, Eq)]
pub(crate) struct Misfit {
    step: PathStep,
    place: u64,
    said: Said,
    /// The bytes that are left in the container.
    left: u64,
}

/// The bytes of a source between two places, but not more than so many.
fn bytes_between<S: ByteSource>(
    source: &mut S,
    from: u64,
    to: u64,
    most: u64,
    room: &mut Vec<u8>,
) -> Result<(), FileError> {
    read_into(
        source,
        from,
        to.saturating_sub(from).min(most) as usize,
        room,
    )?;
    Ok(())
}

/// Whether a box with this header ends within so many bytes.
fn fits(said: Said, left: u64) -> bool {
    said.size >= said.header_size && said.size <= left && !is_cut(said, left)
}

/// Whether so many bytes are too few for a header with a 64-bit size.
fn is_cut(said: Said, left: u64) -> bool {
    said.size == 1 && left < LARGE_HEADER_SIZE
}

/// Where the children of a box of this type at a place begin, and where they end; `None` where it has none.
fn children_of<S: ByteSource>(
    source: &mut S,
    name: BoxType,
    place: u64,
    room: &mut Vec<u8>,
) -> Result<Option<(u64, u64)>, FileError> {
    let len = source.len()?;
    bytes_between(source, place, len, LARGE_HEADER_SIZE, room)?;
    let said = said_by(room.as_slice());
    let from = place.saturating_add(said.header_size).min(len);
    let end = place.saturating_add(said.size).min(len);
    bytes_between(source, from, end, HEAD, room)?;
    let fields = bytes_before_children(name, room.as_slice());
    Ok(fields.map(|fields| (from.saturating_add(fields), end)))
}

/// The number of a box of this type after boxes of these types, from 1.
pub(crate) fn number_after(names: &[BoxType], name: BoxType) -> u64 {
    let alike = names.iter().filter(|t| u32::from(**t) == u32::from(name));
    (alike.count() as u64).saturating_add(1)
}

/// The first box between two places of a source that doesn't fit before the second; `None` where each does.
fn misfit_between<S: ByteSource>(
    alloc: Global,
    source: &mut S,
    from: u64,
    end: u64,
) -> Result<Option<Misfit>, FileError> {
    let mut place = from;
    let mut names = Vec::new(alloc);
    let mut room = Vec::new(alloc);
    for _ in 0..end.saturating_sub(from) / HEADER_SIZE {
        let left = end.saturating_sub(place);
        if left < HEADER_SIZE {
            return Ok(None);
        }
        bytes_between(source, place, end, LARGE_HEADER_SIZE, &mut room)?;
        let said = said_by(room.as_slice());
        if !fits(said, left) {
            let step = PathStep {
                name: said.name,
                number: number_after(names.as_slice(), said.name),
            };
            return Ok(Some(Misfit {
                step,
                place,
                said,
                left,
            }));
        }
        names.push(said.name)?;
        place = place.saturating_add(said.size);
    }
    Ok(None)
}

/// The first box in the box of this type at a place that doesn't fit into it; `None` where each does.
pub(crate) fn misfit_in<S: ByteSource + Drop>(
    alloc: Global,
    source: S,
    name: BoxType,
    place: u64,
) -> Result<Option<Misfit>, FileError> {
    let mut source = Window::new(alloc, source)?;
    let mut room = Vec::new(alloc);
    match children_of(&mut source, name, place, &mut room)? {
        Some((from, end)) => misfit_between(alloc, &mut source, from, end),
        None => Ok(None),
    }
}

impl Misfit {
    /// Writes the rule that it breaks.
    fn write_rule<W: fmt::Write>(&self, f: &mut fmt::Formatter<W>) -> fmt::Result {
        if is_cut(self.said, self.left) {
            return f.write_str("each box in it begins with its size and its type");
        }
        if self.said.size == OPEN_END {
            return f.write_str("each box in it has to say its size");
        }
        if self.said.size < self.said.header_size {
            let header = self.said.header_size;
            return write!(
                f,
                "each box in it has a size that counts its header of {header} bytes"
            );
        }
        f.write_str("each box in it has to end within it")
    }

    /// Writes what its header says.
    fn write_said<W: fmt::Write>(&self, f: &mut fmt::Formatter<W>) -> fmt::Result {
        let size = Grouped(self.said.size);
        let left = Grouped(self.left);
        if is_cut(self.said, self.left) {
            return write!(f, "has {left} bytes for a header of 16");
        }
        if self.said.size < self.said.header_size {
            return write!(f, "says {size}");
        }
        write!(f, "has {size} bytes of {left} that are left")
    }
}

impl fmt::Display for Misfit {
    /// Writes the rule that it breaks, its type and its place, and what its header says.
    fn fmt<W: fmt::Write>(&self, f: &mut fmt::Formatter<W>) -> fmt::Result {
        let step = self.step;
        let place = Grouped(self.place);
        self.write_rule(f)?;
        write!(f, ", and {step} at byte {place} ")?;
        self.write_said(f)
    }
}
