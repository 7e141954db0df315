//! Codes of four bytes.

ghost use Rattle.mp4_codec.specs.ExactTest.{by_test, field_tests};
ghost use Rattle.std.specs.Prelude.{◌≡◌, replicate};
ghost use Rattle.std.specs.Int.{w32, from_be_bytes};
ghost use Rattle.mp4_codec.specs.Cause.{Gives};
ghost use Rattle.mp4_codec.specs.Bytes.{coded, four_cc_of};

use crate::error::Error;
use crate::exact_eq::ExactEq;
use crate::items::DebugItem;
use std::fmt;
use std::fmt::{Debug, Write};
use std::str::FromStr;

/// A code of four bytes, as brands and handler types are (ISO/IEC 14496-12, 4.2).
#[derive(Clone, Copy, PartialEq, Eq)]
pub struct FourCC {
    /// The bytes, in the order of the file.
    pub value: [u8; 4],
}

impl ExactEq for FourCC {
    ghost exact = { by_test (Prim.hlevel field_tests) };
}

impl Default for FourCC {
    ghost is_default = { λ f. f ≡ record { value = replicate 4 0 } };

    fn default() -> Self {
        FourCC { value: [0; 4] }
    }
}

impl From<[u8; 4]> for FourCC {
    ghost from_gives = { λ bytes f. f ≡ record { value = bytes } };

    fn from(value: [u8; 4]) -> FourCC {
        FourCC { value }
    }
}

impl From<u32> for FourCC {
    ghost from_gives = { λ n f. f ≡ coded n };

    fn from(code: u32) -> FourCC {
        FourCC {
            value: code.to_be_bytes(),
        }
    }
}

impl From<FourCC> for u32 {
    ghost from_gives = { λ f n. n ≡ from_be_bytes w32 f.value };

    fn from(code: FourCC) -> u32 {
        u32::from_be_bytes(code.value)
    }
}

impl FromStr for FourCC {
    type Err = Error;

    ghost from_str_gives = { λ text result. Gives (λ f. f) result (four_cc_of text) };

    /// The code of a text of four bytes. Bytes are counted, not characters; any other text is
    /// `InvalidData`.
    fn from_str(text: &str) -> Result<FourCC, Error> {
        match text.as_bytes() {
            [a, b, c, d] => Ok(FourCC {
                value: [*a, *b, *c, *d],
            }),
            _ => Err(Error::InvalidData("a code has four bytes")),
        }
    }
}

/// Writes each byte as a character, and a full stop for each outside 20 to 7e.
pub(crate) fn write_code<W: fmt::Write>(bytes: [u8; 4], f: &mut fmt::Formatter<W>) -> fmt::Result {
    for byte in bytes {
        let shown = if (0x20..=0x7e).contains(&byte) {
            byte as char
        } else {
            '.'
        };
        f.write_char(shown)?;
    }
    Ok(())
}

impl fmt::Display for FourCC {
    fn fmt<W: fmt::Write>(&self, f: &mut fmt::Formatter<W>) -> fmt::Result {
        write_code(self.value, f)
    }
}

/// Whether a byte is a visible character of ASCII, or a space.
fn is_printable(byte: &u8) -> bool {
    (0x20..=0x7e).contains(byte)
}

impl Debug for FourCC {
    /// Writes a code of printable bytes as `'moov'`, and another in hex.
    fn fmt<W: fmt::Write>(&self, f: &mut fmt::Formatter<W>) -> fmt::Result {
        if self.value.iter().all(is_printable) {
            return write!(f, "'{self}'");
        }
        let code = u32::from_be_bytes(self.value);
        write!(f, "{code:08x}")
    }
}

impl DebugItem for FourCC {}
