//! What the tests of all boxes do with bytes.

use mp4_codec::{ByteCursor, Error, HEADER_SIZE, Limit, ReadBox, Result, WriteBox};
use std::alloc::{AllocError, Global};
use std::fmt::Display;

/// Whether a statement holds and a call answers `Ok(true)`. Both are made, so no way through a test ends early, which
/// would be far slower to prove.
pub fn also(statement: bool, answer: Result<bool>) -> Result<bool> {
    if statement { answer } else { Ok(false) }
}

/// Whether two calls answer `Ok(true)`, or the error of one.
pub fn both(first: Result<bool>, second: Result<bool>) -> Result<bool> {
    Ok(first? && second?)
}

/// Whether a value prints as a text.
pub fn prints(alloc: Global, value: &impl Display, text: &str) -> Result<bool> {
    Ok(format!(in alloc; "{value}")?.as_str() == text)
}

/// The bytes that a text encodes, two digits each; spaces are skipped.
pub fn hex(alloc: Global, text: &str) -> std::result::Result<Vec<u8>, AllocError> {
    let mut bytes = Vec::new(alloc);
    let mut byte = 0u8;
    let mut half = false;
    for digit in text.as_bytes() {
        let value = match *digit {
            b'0'..=b'9' => *digit - b'0',
            b'a'..=b'f' => *digit - b'a' + 10,
            _ => continue,
        };
        byte = byte.wrapping_mul(16).wrapping_add(value);
        if half {
            bytes.push(byte)?;
        }
        half = !half;
    }
    Ok(bytes)
}

/// The box that these bytes are.
pub fn read_bytes<B: ReadBox>(alloc: Global, bytes: &[u8]) -> Result<B> {
    let mut reader = ByteCursor::new(bytes);
    reader.set_position(HEADER_SIZE);
    B::read_box(alloc, &mut reader, bytes.len() as u64)
}

/// The bytes of a box.
pub fn written<B: WriteBox>(alloc: Global, value: &B) -> Result<Vec<u8>> {
    let mut bytes = Vec::new(alloc);
    value.write_box(&mut bytes)?;
    Ok(bytes)
}

/// Whether a box is written as the bytes that a text encodes, as many as its size.
pub fn writes<B: WriteBox>(alloc: Global, value: &B, text: &str) -> Result<bool> {
    let bytes = hex(alloc, text)?;
    Ok(written(alloc, value)? == bytes && value.box_size() == bytes.len() as u64)
}

/// Why a box is not written, if the buffer is then as it was before.
pub fn refusal<B: WriteBox>(alloc: Global, value: &B) -> Result<Option<Error>> {
    let mut bytes = vec![in alloc; 7u8]?;
    match value.write_box(&mut bytes) {
        Err(error) if bytes.as_slice() == [7].as_slice() => Ok(Some(error)),
        _ => Ok(None),
    }
}

/// Whether a box is refused as invalid data when it is written.
pub fn is_invalid<B: WriteBox>(alloc: Global, value: &B) -> Result<bool> {
    Ok(matches!(refusal(alloc, value)?, Some(Error::InvalidData(_))))
}

/// Whether a box is refused since a number has no room in its field.
pub fn is_past_its_field<B: WriteBox>(alloc: Global, value: &B) -> Result<bool> {
    Ok(refusal(alloc, value)? == Some(Error::TooLarge(Limit::Value)))
}

/// Whether a box is refused since a value can't be encoded.
pub fn is_unrepresentable<B: WriteBox>(alloc: Global, value: &B) -> Result<bool> {
    Ok(matches!(refusal(alloc, value)?, Some(Error::Unrepresentable(_))))
}
