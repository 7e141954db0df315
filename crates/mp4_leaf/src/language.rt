//! The language of a media header, packed into 16 bits.

ghost use Rattle.std.specs.Prelude.{◌≡◌, Ok};
ghost use Rattle.mp4_codec.specs.Cause.{Answers, Checks};
ghost use Rattle.mp4_leaf.specs.Language.{letter, is_letter, is_language, unpacked, packed, language_refusal};

use mp4_codec::{Error, Result, Text};
use std::alloc::Global;

/// The character of the low five bits.
fn low_letter(code: u16) -> char
    ensures { result ≡ letter code }
{
    char::from((code % 32) as u8 + 0x60)
}

/// The text of a packed language.
pub(crate) fn unpack_language(alloc: Global, code: u16) -> Result<Text>
    ensures { Answers (λ text. text) result (Ok (unpacked code)) }
{
    let mut text = String::with_capacity(alloc, 3)?;
    text.push(low_letter(code / 1024))?;
    text.push(low_letter(code / 32))?;
    text.push(low_letter(code))?;
    Ok(Text::from(text))
}

/// A language in 16 bits; 0 for a text that `check_language` refuses for its length.
pub(crate) fn pack_language(text: &Text) -> u16
    ensures { result ≡ packed text.now }
{
    match text.as_str().as_bytes() {
        [a, b, c] => (*a as u16) % 32 * 1024 + (*b as u16) % 32 * 32 + (*c as u16) % 32,
        _ => 0,
    }
}

fn is_packable(character: u8) -> bool
    ensures { result ≡ is_letter character }
{
    (0x60..=0x7f).contains(&character)
}

fn are_packable(characters: &[u8]) -> bool
    ensures { result ≡ is_language characters.now }
{
    match characters {
        [a, b, c] => is_packable(*a) && is_packable(*b) && is_packable(*c),
        _ => false,
    }
}

/// Whether a text can be the language of a track: three characters of U+0060 to U+007F. Any other is
/// `Unrepresentable` (ISO/IEC 14496-12, 8.4.2).
#[tactic(auto, unfolding(crate::specs::Language::language_refusal))]
pub fn check_language(text: &Text) -> Result<()>
    ensures { Checks result (language_refusal text.now) }
{
    if !are_packable(text.as_str().as_bytes()) {
        return Err(Error::Unrepresentable("a language of three small letters"));
    }
    Ok(())
}
