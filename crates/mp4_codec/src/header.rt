//! The header of a box (ISO/IEC 14496-12, 4.2).

ghost use Rattle.mp4_codec.specs.ExactTest.{by_law, by_test, field_tests};
ghost use Rattle.mp4_codec.specs.contracts.box_type.BoxTypeExactEq.TheImpl.Laws.{lawful as box_type_laws};
ghost use Rattle.std.specs.Prelude.{◌≡◌, ◌≤◌, ◌+◌, ◌⊎◌, length, OnOk, IfOk};
ghost use Rattle.mp4_codec.specs.Cause.{Gives, AnswersCause, Checks};
ghost use Rattle.mp4_codec.specs.Cursor.{header_saying, header_after, header_at};
ghost use Rattle.mp4_codec.specs.BoxType.{IsNamed};
ghost use Rattle.mp4_codec.specs.Bytes.{number, ◌⧺◌};
ghost use Rattle.mp4_codec.specs.Boxes.{Writes, header_cause, header_encoding};

use crate::box_type::BoxType;
use crate::cursor::ByteCursor;
use crate::error::{Error, Limit, Result};
use crate::exact_eq::ExactEq;
use byteorder::{BigEndian, ByteOrder};

/// The bytes of a header with a 32-bit size.
pub const HEADER_SIZE: u64 = 8;

/// The bytes of the version and the flags that begin the payload of a full box.
pub const HEADER_EXT_SIZE: u64 = 4;

/// The bytes of a header with a 64-bit largesize.
const LARGE_HEADER_SIZE: u64 = 16;

/// The size in a header of a box that goes on to the end of the file.
pub const OPEN_END: u64 = 0;

/// The size that says that a largesize follows the type.
const LARGE: u32 = 1;

/// The header of a box: its type, and a size in bytes that is 8 more than the length of the payload,
/// whichever way the header is encoded; or 0 where the box goes on to the end of the file.
#[derive(Clone, Copy, Debug, PartialEq, Eq)]
pub struct BoxHeader {
    pub name: BoxType,
    pub size: u64,
}

impl ExactEq for BoxHeader {
    ghost exact = { by_test (Prim.hlevel (field_tests, by_law box_type_laws.exact)) };
}

/// Whether a header of this size can be written: 0 for an open end, or 8 and more within 32 bits.
fn check_size(size: u64) -> Result<()>
    ensures { Checks result (header_cause size) }
{
    match size {
        OPEN_END => Ok(()),
        1..=7 => Err(Error::InvalidData("a size below 8")),
        8..=0xffff_ffff => Ok(()),
        _ => Err(Error::TooLarge(Limit::BoxSize)),
    }
}

/// What a header of so many bytes reports, by the length of the whole box that it says: 0 leaves the end open.
fn header_with(name: BoxType, header: u64, total: u64) -> Result<BoxHeader>
    requires { 8 ≤ header }
    ensures { Gives (λ h. h) result (header_saying name header total) }
{
    if total == OPEN_END {
        return Ok(BoxHeader {
            name,
            size: OPEN_END,
        });
    }
    if total < header {
        return Err(Error::InvalidData("a size below its header"));
    }
    Ok(BoxHeader {
        name,
        size: total - header + HEADER_SIZE,
    })
}

/// The bytes of a header: a size and a code.
#[tactic(auto, unfolding(crate::specs::Bytes::number))]
pub(crate) fn header_bytes(size: u32, code: u32) -> [u8; 8]
    ensures { result ≡ number 4 size ⧺ number 4 code }
{
    let [a, b, c, d] = size.to_be_bytes();
    let [e, f, g, h] = code.to_be_bytes();
    [a, b, c, d, e, f, g, h]
}

impl BoxHeader {
    /// A header of this type and size.
    pub fn new(name: BoxType, size: u64) -> Self
        ensures { result ≡ record { name = name; size = size } }
    {
        BoxHeader { name, size }
    }

    /// What `read` answers after the first 8 bytes of a header, which are these: a size of 1 says that a largesize
    /// follows.
    fn read_after(first: &[u8], reader: &mut ByteCursor) -> Result<Self>
        requires { length first.now ≡ 8 }
        ensures value { Gives (λ h. (h, reader.new)) result (header_after first.now reader.old) }
        ensures same { reader.new.bytes ≡ reader.old.bytes }
    {
        let size = BigEndian::read_u32(first);
        let name = BoxType::from(BigEndian::read_u32(&first[4..]));
        if size == LARGE {
            let large = BigEndian::read_u64(reader.take(8)?);
            return header_with(name, LARGE_HEADER_SIZE, large);
        }
        header_with(name, HEADER_SIZE, u64::from(size))
    }

    /// What `read` answers.
    #[tactic(auto, unfolding(crate::specs::Cursor::head_at))]
    fn read_head(reader: &mut ByteCursor) -> Result<Self>
        ensures value { Gives (λ h. (h, reader.new)) result (header_at reader.old) }
        ensures same { reader.new.bytes ≡ reader.old.bytes }
    {
        let first = reader.take(HEADER_SIZE)?;
        Self::read_after(first, reader)
    }

    /// The header at the cursor, which is then after it.
    ///
    /// `EndOfData` where fewer than 8 bytes are left, or fewer than 16 and the size is 1;
    /// `InvalidData` for a size of 2 to 7 or a largesize of 1 to 15. A largesize of at least 16 is
    /// answered less 8, so that `size - 8` is the length of the payload. A refusal leaves the cursor at any place, over
    /// the same bytes.
    pub fn read(reader: &mut ByteCursor) -> Result<Self>
        ensures value { Gives (λ h. (h, reader.new)) result (header_at reader.old) }
        ensures moved { OnOk result (reader.old.position + 8 ≤ reader.new.position) }
        ensures same { reader.new.bytes ≡ reader.old.bytes }
        ensures named { IfOk result (λ h. IsNamed h.name) }
        ensures size { IfOk result (λ h. (h.size ≡ 0) ⊎ (8 ≤ h.size)) }
    {
        Self::read_head(reader)
    }

    /// Adds the 8 bytes of the header at the end of a buffer, and answers their number.
    ///
    /// `InvalidData` for a size of 1 to 7, `TooLarge(BoxSize)` for one past 2^32 - 1, both before memory is requested.
    /// A refused call leaves the buffer as before, also when memory ran out.
    pub fn write(&self, writer: &mut Vec<u8>) -> Result<u64>
        ensures cause { AnswersCause (header_cause self.now.size) result }
        ensures bytes { Writes writer.old.items writer.new.items result (header_encoding self.now) }
    {
        check_size(self.size)?;
        writer.extend_from_slice(&header_bytes(self.size as u32, u32::from(self.name)))?;
        Ok(HEADER_SIZE)
    }
}
