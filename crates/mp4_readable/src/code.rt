//! Codes and texts of a file that a terminal is safe from.

ghost use Rattle.mp4_codec.specs.ExactTest.{by_test, field_tests};

use mp4_codec::{ExactEq, FourCC};
use std::fmt;
use std::fmt::Write;

/// A code of four bytes as a text: `avc1`, `©nam`. A byte that is neither visible, nor a space, nor ©, is a full
/// stop.
#[derive(Clone, Copy, Debug, PartialEq, Eq)]
pub struct Code(pub FourCC);

impl ExactEq for Code {
    ghost exact = { by_test (Prim.hlevel field_tests) };
}

impl fmt::Display for Code {
    fn fmt<W: fmt::Write>(&self, f: &mut fmt::Formatter<W>) -> fmt::Result {
        for byte in self.0.value {
            let shown = match byte {
                0x20..=0x7e | 0xa9 => char::from(byte),
                _ => '.',
            };
            f.write_char(shown)?;
        }
        Ok(())
    }
}

/// A text whose control characters are shown as full stops, so that a terminal isn't told anything by it.
#[derive(Clone, Copy, Debug)]
pub struct Visible<'a>(pub &'a str);

impl<'a> fmt::Display for Visible<'a> {
    fn fmt<W: fmt::Write>(&self, f: &mut fmt::Formatter<W>) -> fmt::Result {
        for c in self.0.chars() {
            f.write_char(if c.is_control() { '.' } else { c })?;
        }
        Ok(())
    }
}
