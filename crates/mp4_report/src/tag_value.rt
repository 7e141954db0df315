//! The values of metadata as texts.

ghost use Rattle.std.specs.Prelude.{◌≡◌, ◌<◌, ◌≤◌, ◌^◌, IfOk, IfSome, length, option_map, string_bytes};
ghost use Rattle.mp4_report.specs.TagValues.{IsShownValue, IsValueText, form_of, number_form, number_in};
ghost use Rattle.mp4_report.specs.TagValues.{position_form, signed_form, signed_in, unsaid_form, utf16_text};

use mp4_codec::FourCC;
use mp4_readable::Grouped;
use std::alloc::{AllocError, Global};

/// The bytes of the box `data` before its value: the kind of value, and its country and language.
pub(crate) const DATA_HEAD: u64 = 8;

/// The type of the item that has the number of a track, `trkn`.
const TRACK_NUMBER: u32 = 0x74726b6e;

/// The type of the item that has the number of a disc, `disk`.
const DISC_NUMBER: u32 = 0x6469736b;

/// The most bytes of a number.
const MOST_NUMBER: usize = 8;

/// How a value is shown.
#[derive(Clone, Copy, Debug, PartialEq, Eq)]
enum ValueForm {
    /// Not at all, since it is a picture.
    Picture,
    /// As a text in UTF-8.
    Utf8,
    /// As a text in UTF-16.
    Utf16,
    Number(u64),
    Signed(i64),
    /// A number of a row.
    Position(u16),
    /// A number of a row, and how many there are.
    PositionOf(u16, u16),
    /// As an empty text, since the position isn't there.
    Empty,
    /// By how many bytes there are, which are no text and no number.
    Bytes,
}

/// The number of up to eight bytes, the highest first; `None` of more.
#[tactic(auto, using(crate::proofs::Numbers::number_steps), unfolding(crate::specs::TagValues::number_in))]
fn number_of(bytes: &[u8]) -> Option<u64>
    ensures number { result ≡ number_in bytes.now }
    ensures small { IfSome result (λ number. number < 256 ^ length bytes.now) }
    ensures few { IfSome result (λ _. length bytes.now ≤ 8) }
{
    if bytes.len() > MOST_NUMBER {
        return None;
    }
    let mut number = 0u64;
    for byte in bytes {
        number = number * 256 + u64::from(*byte);
    }
    Some(number)
}

/// The signed number of up to eight bytes, in two's complement; `None` of more.
#[tactic(auto, using(crate::proofs::Numbers::signed_steps), unfolding(crate::specs::TagValues::number_in, crate::specs::TagValues::signed_in))]
fn signed_number_of(bytes: &[u8]) -> Option<i64>
    ensures { result ≡ signed_in bytes.now }
{
    let number = u128::from(number_of(bytes)?);
    let numbers = 256u128.pow(bytes.len() as u32);
    if 2 * number < numbers {
        return Some(number as i64);
    }
    let below = numbers - 1 - number;
    Some(-1 - below as i64)
}

/// A number of a row and how many there are.
#[tactic(auto, unfolding(crate::specs::TagValues::position_form))]
fn position_form(bytes: &[u8]) -> ValueForm
    ensures { result ≡ position_form bytes.now }
{
    let [_, _, a, b, c, d, ..] = *bytes else {
        return ValueForm::Empty;
    };
    let number = u16::from_be_bytes([a, b]);
    match u16::from_be_bytes([c, d]) {
        0 => ValueForm::Position(number),
        all => ValueForm::PositionOf(number, all),
    }
}

/// The form of a number, or of bytes that are none.
fn number_form(value: &[u8]) -> ValueForm
    ensures { result ≡ number_form value.now }
{
    match number_of(value) {
        Some(number) => ValueForm::Number(number),
        None => ValueForm::Bytes,
    }
}

/// The form of a signed number, or of bytes that are none.
fn signed_form(value: &[u8]) -> ValueForm
    ensures { result ≡ signed_form value.now }
{
    match signed_number_of(value) {
        Some(number) => ValueForm::Signed(number),
        None => ValueForm::Bytes,
    }
}

/// The form of a value whose kind isn't said, by the type of its item.
#[tactic(auto, unfolding(crate::specs::TagValues::unsaid_form))]
fn unsaid_form(item: FourCC, value: &[u8]) -> ValueForm
    ensures { result ≡ unsaid_form item value.now }
{
    match u32::from(item) {
        TRACK_NUMBER | DISC_NUMBER => position_form(value),
        _ if value.len() <= 4 => number_form(value),
        _ => ValueForm::Bytes,
    }
}

/// The form of a value, by its kind (QuickTime file format, "Well-known types").
#[tactic(auto, unfolding(crate::specs::TagValues::form_of))]
fn form_of(kind: u32, item: FourCC, value: &[u8]) -> ValueForm
    ensures { result ≡ form_of kind item value.now }
{
    match kind {
        0 => unsaid_form(item, value),
        1 | 4 => ValueForm::Utf8,
        2 | 5 => ValueForm::Utf16,
        13 | 14 | 27 => ValueForm::Picture,
        21 | 65 | 66 | 67 | 74 => signed_form(value),
        22 | 75 | 76 | 77 | 78 => number_form(value),
        _ => ValueForm::Bytes,
    }
}

/// A text in UTF-16, the high byte first; what isn't one is shown as U+FFFD. A last byte alone is passed
/// over.
#[tactic(auto, unfolding(crate::specs::TagValues::utf16_text))]
pub(crate) fn utf16_text(alloc: Global, bytes: &[u8]) -> Result<String, AllocError>
    ensures { IfOk result (λ text. string_bytes text ≡ utf16_text bytes.now) }
{
    let (pairs, _) = bytes.as_chunks::<2>();
    let mut units = Vec::new(alloc);
    for pair in pairs {
        units.push(u16::from_be_bytes(*pair))?;
    }
    String::from_utf16_lossy(alloc, units.as_slice())
}

/// Bytes that are no text and no number: how many there are.
fn count_text(alloc: Global, bytes: &[u8]) -> Result<String, AllocError> {
    let count = Grouped(bytes.len() as u64);
    format!(in alloc; "({count} bytes)")
}

/// A value as a text, in its form; `None` of a picture.
fn text_of(alloc: Global, form: ValueForm, value: &[u8]) -> Result<Option<String>, AllocError>
    ensures { IfOk result (λ text. IsValueText form value.now (option_map string_bytes text)) }
{
    let text = match form {
        ValueForm::Picture => return Ok(None),
        ValueForm::Utf8 => String::from_utf8_lossy(alloc, value)?,
        ValueForm::Utf16 => utf16_text(alloc, value)?,
        ValueForm::Number(number) => format!(in alloc; "{number}")?,
        ValueForm::Signed(number) => format!(in alloc; "{number}")?,
        ValueForm::Position(number) => format!(in alloc; "{number}")?,
        ValueForm::PositionOf(number, all) => format!(in alloc; "{number}/{all}")?,
        ValueForm::Empty => String::new(alloc),
        ValueForm::Bytes => count_text(alloc, value)?,
    };
    Ok(Some(text))
}

/// What the bytes of the box `data` say in an item of this type: `None` for a picture, and where there is no value.
#[tactic(auto, unfolding(crate::specs::TagValues::data_form))]
pub(crate) fn shown_value(
    alloc: Global,
    item: FourCC,
    data: &[u8],
) -> Result<Option<String>, AllocError>
    ensures { IfOk result (λ text. IsShownValue item data.now (option_map string_bytes text)) }
{
    let [a, b, c, d, _, _, _, _, ..] = *data else {
        return Ok(None);
    };
    let value = data.get(DATA_HEAD as usize..).unwrap_or(&[]);
    let form = form_of(u32::from_be_bytes([a, b, c, d]), item, value);
    text_of(alloc, form, value)
}
