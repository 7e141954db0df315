//! The texts of samples of a track of text (3GPP TS 26.245, 5.2 and 5.17).

ghost use Rattle.std.specs.Prelude.{◌≡◌, ◌⊎◌, ◌/◌, [], length, string_bytes, IfErr, IfOk, IsUtf8, Ok};
ghost use Rattle.mp4_codec.specs.Bytes.{list_at, number_at};
ghost use Rattle.mp4_codec.specs.Cause.{Answers, Gives, cause_of, invalid_data};
ghost use Rattle.mp4_codec.specs.declared.error.Error.TheVariants.{OutOfMemory};
ghost use Rattle.mp4_extract.specs.Texts.{HasNoText, IsNoUtf16, WantsText};
ghost use Rattle.mp4_extract.specs.Texts.{IsTextOf, IsUtf16Text, begins_utf16, text_bytes};

use mp4_codec::{Error, Fields, Items, Result};
use std::alloc::Global;

/// The bytes of the text of a sample: as many as the 16 bits before them say. What follows are boxes that say how it
/// looks.
///
/// `InvalidData` where they pass the sample's end.
#[tactic(auto, unfolding(crate::specs::Texts::text_bytes))]
fn text_bytes(sample: &[u8]) -> Result<&[u8]>
    ensures bytes { Gives (λ bytes. bytes.now) result (text_bytes sample.now) }
    ensures cause { IfErr result (λ e. cause_of e ≡ invalid_data) }
{
    let mut fields = Fields::new(sample);
    let length = fields.u16()?;
    match fields.bytes(usize::from(length)) {
        Ok(bytes) => Ok(bytes),
        Err(_) => Err(Error::InvalidData("the text passes its end")),
    }
}

/// Whether a text begins with the byte order mark of UTF-16, the high byte first.
fn begins_utf16(bytes: &[u8]) -> bool
    ensures { result ≡ begins_utf16 bytes.now }
{
    bytes.len() >= 2 && bytes[0] == 0xFE && bytes[1] == 0xFF
}

/// Reads so many numbers of two bytes, the high byte first.
fn read_units(alloc: Global, fields: &mut Fields, count: usize) -> Result<Items<u16>>
    ensures units { Answers (λ units. (units, fields.new)) result (list_at (number_at 2) count fields.old) }
    ensures cause { IfErr result (λ e. (e ≡ OutOfMemory) ⊎ (cause_of e ≡ invalid_data)) }
{
    let mut units = Items::new(alloc);
    for _ in 0..count {
        let unit = fields.u16()?;
        units.push(unit)?;
    }
    Ok(units)
}

/// A text in UTF-16, the high byte of each unit first.
fn utf16_text(alloc: Global, bytes: &[u8]) -> Result<String>
    ensures text { IfOk result (λ text. IsUtf16Text bytes.now (string_bytes text)) }
    ensures refused { IfErr result (λ e. (e ≡ OutOfMemory)
        ⊎ ((cause_of e ≡ invalid_data) × (IsNoUtf16 bytes.now))) }
{
    let mut fields = Fields::new(bytes);
    let units = read_units(alloc, &mut fields, bytes.len() / 2)?;
    if !fields.is_empty() {
        return Err(Error::InvalidData("the text in UTF-16 has an odd length"));
    }
    match String::from_utf16(alloc, units.as_slice())? {
        Ok(text) => Ok(text),
        Err(_) => Err(Error::InvalidData("the text isn't UTF-16")),
    }
}

/// A text in UTF-8.
fn utf8_text(alloc: Global, bytes: &[u8]) -> Result<String>
    ensures text { IfOk result (λ text. string_bytes text ≡ bytes.now) }
    ensures refused { IfErr result (λ e. (e ≡ OutOfMemory)
        ⊎ ((cause_of e ≡ invalid_data) × ¬ (IsUtf8 bytes.now))) }
    ensures memory { IfErr result (λ e. e ≡ OutOfMemory → IsUtf8 bytes.now) }
{
    match str::from_utf8(bytes) {
        Ok(text) => {
            let owned = String::from_str(alloc, text)?;
            Ok(owned)
        }
        Err(_) => Err(Error::InvalidData("the text isn't UTF-8")),
    }
}

/// The text of a sample: UTF-16 after a byte order mark, else UTF-8.
///
/// `InvalidData` where its length passes the sample's end, and where it isn't encoded so.
pub(crate) fn text_of(alloc: Global, sample: &[u8]) -> Result<String>
    ensures text { IfOk result (λ text. IsTextOf sample.now (string_bytes text)) }
    ensures refused { IfErr result (λ e. (e ≡ OutOfMemory)
        ⊎ ((cause_of e ≡ invalid_data) × (HasNoText sample.now))) }
    ensures memory { IfErr result (λ e. e ≡ OutOfMemory → WantsText sample.now) }
{
    let bytes = text_bytes(sample)?;
    if begins_utf16(bytes) {
        utf16_text(alloc, &bytes[2..])
    } else {
        utf8_text(alloc, bytes)
    }
}
