//! Fields at the end of a buffer.
//!
//! After a refusal, which says that memory ran out, a buffer may hold a part of the field.

ghost use Rattle.std.specs.Prelude.{◌≡◌, ◌<◌, OnOk};
ghost use Rattle.mp4_codec.specs.Bytes.{Appends, number, zeros, int16, int32, versioned, four_cc};

use crate::four_cc::FourCC;
use byteorder::{BigEndian, ByteOrder};
use std::alloc::AllocError;

/// What a put answers: memory alone can be refused.
pub type Put = std::result::Result<(), AllocError>;

/// Adds one byte.
#[tactic(auto, unfolding(crate::specs::Bytes::number))]
pub fn put_u8(out: &mut Vec<u8>, n: u8) -> Put
    ensures { OnOk result (Appends out.old.items out.new.items (number 1 n)) }
{
    out.push(n)?;
    Ok(())
}

/// Adds two bytes, the high one first.
#[tactic(auto, unfolding(crate::specs::Bytes::number))]
pub fn put_u16(out: &mut Vec<u8>, n: u16) -> Put
    ensures { OnOk result (Appends out.old.items out.new.items (number 2 n)) }
{
    out.extend_from_slice(&n.to_be_bytes())
}

/// Adds the three low bytes of a number, the highest first.
#[tactic(auto, unfolding(crate::specs::Bytes::number))]
pub fn put_u24(out: &mut Vec<u8>, n: u32) -> Put
    ensures { OnOk result (Appends out.old.items out.new.items (number 3 n)) }
{
    let mut bytes = [0u8; 4];
    BigEndian::write_u32(&mut bytes, n);
    out.extend_from_slice(&bytes[1..])
}

/// Adds four bytes, the highest first.
#[tactic(auto, unfolding(crate::specs::Bytes::number))]
pub fn put_u32(out: &mut Vec<u8>, n: u32) -> Put
    ensures { OnOk result (Appends out.old.items out.new.items (number 4 n)) }
{
    out.extend_from_slice(&n.to_be_bytes())
}

/// Adds eight bytes, the highest first.
#[tactic(auto, unfolding(crate::specs::Bytes::number))]
pub fn put_u64(out: &mut Vec<u8>, n: u64) -> Put
    ensures { OnOk result (Appends out.old.items out.new.items (number 8 n)) }
{
    out.extend_from_slice(&n.to_be_bytes())
}

/// Adds so many zero bytes.
#[tactic(auto, unfolding(crate::specs::Bytes::zeros))]
pub fn put_zeros(out: &mut Vec<u8>, n: usize) -> Put
    requires { n < 256 }
    ensures { OnOk result (Appends out.old.items out.new.items (zeros n)) }
{
    out.resize(out.len() + n, 0)
}

/// Adds the two bytes of a signed number.
#[tactic(auto, unfolding(crate::specs::Bytes::int16))]
pub fn put_i16(out: &mut Vec<u8>, z: i16) -> Put
    ensures { OnOk result (Appends out.old.items out.new.items (int16 z)) }
{
    put_u16(out, z.cast_unsigned())
}

/// Adds the four bytes of a signed number.
#[tactic(auto, unfolding(crate::specs::Bytes::int32))]
pub fn put_i32(out: &mut Vec<u8>, z: i32) -> Put
    ensures { OnOk result (Appends out.old.items out.new.items (int32 z)) }
{
    put_u32(out, z.cast_unsigned())
}

/// Adds all eight bytes of a number in version 1, and its four low ones in any other.
#[tactic(auto, unfolding(crate::specs::Bytes::versioned, crate::specs::Bytes::number))]
pub fn put_versioned(out: &mut Vec<u8>, version: u8, n: u64) -> Put
    ensures { OnOk result (Appends out.old.items out.new.items (versioned version n)) }
{
    let mut bytes = [0u8; 8];
    BigEndian::write_u64(&mut bytes, n);
    if version == 1 {
        out.extend_from_slice(&bytes)
    } else {
        out.extend_from_slice(&bytes[4..])
    }
}

/// Adds these bytes.
pub fn put_bytes(out: &mut Vec<u8>, bytes: &[u8]) -> Put
    ensures { OnOk result (Appends out.old.items out.new.items bytes.now) }
{
    out.extend_from_slice(bytes)
}

/// Adds the bytes of a code.
#[tactic(auto, unfolding(crate::specs::Bytes::four_cc))]
pub fn put_four_cc(out: &mut Vec<u8>, code: FourCC) -> Put
    ensures { OnOk result (Appends out.old.items out.new.items (four_cc code)) }
{
    put_u32(out, u32::from(code))
}
