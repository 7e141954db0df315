//! The texts of user data of the QuickTime file format, and their languages.

ghost use Rattle.std.specs.Prelude.{◌≡◌, IfOk, Some, None, drop, if◌then◌else◌, option_copied, option_map};
ghost use Rattle.std.specs.Prelude.{string_bytes};
ghost use Rattle.mp4_leaf.specs.Language.{letter};
ghost use Rattle.mp4_report.specs.UserData.{begins_utf16, language_of, mac_char, mac_text, roman_text, unmarked_text};

use crate::tag_value::utf16_text;
use std::alloc::{AllocError, Global};

/// The characters of Mac OS Roman from 0x80 on.
const MAC_ROMAN: [char; 128] = [
    'Ä', 'Å', 'Ç', 'É', 'Ñ', 'Ö', 'Ü', 'á', 'à', 'â', 'ä', 'ã', 'å', 'ç', 'é', 'è', 'ê', 'ë', 'í',
    'ì', 'î', 'ï', 'ñ', 'ó', 'ò', 'ô', 'ö', 'õ', 'ú', 'ù', 'û', 'ü', '†', '°', '¢', '£', '§', '•',
    '¶', 'ß', '®', '©', '™', '´', '¨', '≠', 'Æ', 'Ø', '∞', '±', '≤', '≥', '¥', 'µ', '∂', '∑', '∏',
    'π', '∫', 'ª', 'º', 'Ω', 'æ', 'ø', '¿', '¡', '¬', '√', 'ƒ', '≈', '∆', '«', '»', '…', '\u{a0}',
    'À', 'Ã', 'Õ', 'Œ', 'œ', '–', '—', '“', '”', '‘', '’', '÷', '◊', 'ÿ', 'Ÿ', '⁄', '€', '‹', '›',
    'ﬁ', 'ﬂ', '‡', '·', '‚', '„', '‰', 'Â', 'Ê', 'Á', 'Ë', 'È', 'Í', 'Î', 'Ï', 'Ì', 'Ó', 'Ô',
    '\u{f8ff}', 'Ò', 'Ú', 'Û', 'Ù', 'ı', 'ˆ', '˜', '¯', '˘', '˙', '˚', '¸', '˝', '˛', 'ˇ',
];

/// The first code of a language that isn't one of Macintosh.
const FIRST_LETTERS: u16 = 0x400;

/// The code by which no language is said.
const UNSET: u16 = 0x7fff;

/// The character of a byte in Mac OS Roman.
#[tactic(auto, unfolding(crate::specs::UserData::mac_roman))]
fn mac_char(byte: u8) -> char
    ensures { result ≡ mac_char byte }
{
    match byte.checked_sub(0x80) {
        Some(index) => MAC_ROMAN[usize::from(index)],
        None => char::from(byte),
    }
}

/// A text in Mac OS Roman.
#[tactic(auto, using(crate::proofs::Texts::next_char), unfolding(crate::specs::UserData::roman_text))]
fn roman_text(alloc: Global, bytes: &[u8]) -> Result<String, AllocError>
    ensures { IfOk result (λ text. string_bytes text ≡ roman_text bytes.now) }
{
    let mut text = String::new(alloc);
    for byte in bytes {
        text.push(mac_char(*byte))?;
    }
    Ok(text)
}

/// The bytes after the byte order mark of UTF-16, the high byte first; `None` where they don't begin with it.
fn after_mark(bytes: &[u8]) -> Option<&[u8]>
    ensures { option_copied result ≡ (if begins_utf16 bytes.now then Some (drop 2 bytes.now) else None) }
{
    match bytes {
        [0xfe, 0xff, text @ ..] => Some(text),
        _ => None,
    }
}

/// A text without a byte order mark: in UTF-8, or in Mac OS Roman where it is none and the language is one of
/// Macintosh.
#[tactic(auto, using(crate::proofs::Texts::utf8_tests), unfolding(crate::specs::UserData::unmarked_text))]
fn unmarked_text(alloc: Global, bytes: &[u8], language: u16) -> Result<String, AllocError>
    ensures { IfOk result (λ text. string_bytes text ≡ unmarked_text bytes.now language) }
{
    match str::from_utf8(bytes) {
        Ok(text) => String::from_str(alloc, text),
        Err(_) if language < FIRST_LETTERS => roman_text(alloc, bytes),
        Err(_) => String::from_utf8_lossy(alloc, bytes),
    }
}

/// A text of user data in the language of a code: in UTF-16 after a byte order mark, else in UTF-8; of a
/// language of Macintosh, whose codes are below 0x400, in Mac OS Roman where it is no UTF-8.
#[tactic(auto, unfolding(crate::specs::UserData::mac_text))]
pub(crate) fn mac_text(alloc: Global, bytes: &[u8], language: u16) -> Result<String, AllocError>
    ensures { IfOk result (λ text. string_bytes text ≡ mac_text bytes.now language) }
{
    match after_mark(bytes) {
        Some(text) => utf16_text(alloc, text),
        None => unmarked_text(alloc, bytes, language),
    }
}

/// The letter of the low five bits.
fn low_letter(code: u16) -> char
    ensures { result ≡ letter code }
{
    char::from((code % 32) as u8 + 0x60)
}

/// The language of ISO 639-2/T that three letters of five bits say; `None` of codes of Macintosh, and where
/// none is said.
pub(crate) fn language_of(alloc: Global, code: u16) -> Result<Option<String>, AllocError>
    ensures { IfOk result (λ language. option_map string_bytes language ≡ language_of code) }
{
    if code < FIRST_LETTERS || code == UNSET {
        return Ok(None);
    }
    let mut language = String::new(alloc);
    language.push(low_letter(code / 1024))?;
    language.push(low_letter(code / 32))?;
    language.push(low_letter(code))?;
    Ok(Some(language))
}
