//! The boxes in a part of a source, by their headers.

use mp4_codec::{BoxHeader, ByteCursor, FourCC, HEADER_SIZE, OPEN_END};
use mp4_source::{ByteSource, FileError, read_into};

/// The longest header of a box.
const MOST_HEADER: u64 = 16;

/// A part of a source: from a place up to another.
#[derive(Clone, Copy, Debug, PartialEq, Eq)]
pub(crate) struct Part {
    pub from: u64,
    pub to: u64,
}

impl Part {
    /// How many bytes it has.
    pub fn size(self) -> u64 {
        self.to.saturating_sub(self.from)
    }

    /// What is left of it after so many bytes.
    pub fn after(self, bytes: u64) -> Part {
        Part {
            from: self.from.saturating_add(bytes).min(self.to),
            to: self.to,
        }
    }
}

/// A box in a part of a source: its type, and the part that its payload is.
#[derive(Clone, Copy, Debug, PartialEq, Eq)]
pub(crate) struct BoxPart {
    pub name: FourCC,
    pub payload: Part,
}

/// A source that is looked into, and room for what is read of it.
#[derive(Drop)]
pub(crate) struct Looking<S: ByteSource> {
    source: S,
    room: Vec<u8>,
}

impl<S: ByteSource> Looking<S> {
    pub fn new(source: S, room: Vec<u8>) -> Self {
        Looking { source, room }
    }

    /// The part that the whole source is.
    pub fn whole(&mut self) -> Result<Part, FileError> {
        let to = self.source.len()?;
        Ok(Part { from: 0, to })
    }

    /// The first bytes of a part, so many at most.
    pub fn bytes(&mut self, part: Part, most: u64) -> Result<&[u8], FileError> {
        read_into(
            &mut self.source,
            part.from,
            part.size().min(most) as usize,
            &mut self.room,
        )?;
        Ok(self.room.as_slice())
    }

    /// The box that begins a part, and what is after it; `None` where none does that ends within it, and for one that
    /// reaches to the end by a size of 0.
    pub fn next_box(&mut self, part: Part) -> Result<Option<(BoxPart, Part)>, FileError> {
        let mut cursor = ByteCursor::new(self.bytes(part, MOST_HEADER)?);
        let Ok(header) = BoxHeader::read(&mut cursor) else {
            return Ok(None);
        };
        let rest = part.after(cursor.position());
        let size = header.size.saturating_sub(HEADER_SIZE);
        if header.size == OPEN_END || size > rest.size() {
            return Ok(None);
        }
        let after = rest.after(size);
        let payload = Part {
            from: rest.from,
            to: after.from,
        };
        let name = FourCC::from(header.name);
        Ok(Some((BoxPart { name, payload }, after)))
    }

    /// The payload of the last box of this type in a part.
    pub fn last_box(&mut self, part: Part, name: &[u8; 4]) -> Result<Option<Part>, FileError> {
        let mut left = part;
        let mut last = None;
        for _ in 0..u64::MAX {
            let Some((found, after)) = self.next_box(left)? else {
                break;
            };
            if found.name.value == *name {
                last = Some(found.payload);
            }
            left = after;
        }
        Ok(last)
    }
}
