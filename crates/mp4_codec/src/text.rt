//! Texts, which contracts see as the lists of their bytes.

ghost use Rattle.mp4_codec.specs.ExactTest.{list, number};
ghost use Rattle.std.specs.Prelude.{◌≡◌, ◌==◌, [], ◌++◌, length, string_bytes, OnOk, OnErr, IfOk, Ok, ℕ, List, nat_eq};
ghost use Rattle.std.specs.Cmp.{partial_equiv_from_equiv};
ghost use Rattle.std.specs.Cmp.Lexicographic.{pointwise, nat_list_eq_equiv};
ghost use Rattle.mp4_codec.specs.Cause.{Answers};

use crate::error::Result;
use crate::exact_eq::ExactEq;
use crate::try_clone::TryClone;
use std::alloc::{AllocError, Global};
use std::fmt;
use std::fmt::Debug;
use std::marker::Model;

/// A text, as the fields of boxes are. It is made from a `String` and gives it back, without taking
/// memory.
#[derive(Drop)]
pub struct Text {
    text: String,
}

impl Model for Text {
    ghost Value = { List ℕ };

    ghost view = { λ s. string_bytes s.text };
}

impl Text {
    /// An empty text.
    pub fn new(alloc: Global) -> Self
        ensures { result ≡ [] }
    {
        Text {
            text: String::new(alloc),
        }
    }

    /// A copy of a text.
    pub fn from_str(alloc: Global, text: &str) -> std::result::Result<Self, AllocError>
        ensures { IfOk result (λ s. s ≡ text.now) }
    {
        Ok(Text {
            text: String::from_str(alloc, text)?,
        })
    }

    /// The text.
    pub fn as_str(&self) -> &str
        ensures { result.now ≡ self.now }
    {
        self.text.as_str()
    }

    /// How many bytes the text has.
    pub fn len(&self) -> usize
        ensures { result ≡ length self.now }
    {
        self.text.as_str().len()
    }

    /// Whether the text has no byte.
    pub fn is_empty(&self) -> bool
        ensures { result ≡ (length self.now == 0) }
    {
        self.len() == 0
    }

    /// Adds a text at the end.
    pub fn push_str(&mut self, more: &str) -> std::result::Result<(), AllocError>
        ensures ok { OnOk result (self.new ≡ self.old ++ more.now) }
        ensures err { OnErr result (self.new ≡ self.old) }
    {
        self.text.push_str(more)?;
        Ok(())
    }
}

impl From<String> for Text {
    ghost from_gives = { λ s t. t ≡ string_bytes s };

    fn from(text: String) -> Self {
        Text { text }
    }
}

impl From<Text> for String {
    ghost from_gives = { λ t s. string_bytes s ≡ t };

    fn from(t: Text) -> Self {
        let Text { text } = t;
        text
    }
}

impl PartialEq for Text {
    ghost eq = { pointwise nat_eq };

    ghost laws = { partial_equiv_from_equiv nat_list_eq_equiv };

    fn eq(&self, other: &Self) -> bool {
        self.text.as_str() == other.text.as_str()
    }
}

impl Eq for Text {
    ghost laws = { nat_list_eq_equiv };
}

impl ExactEq for Text {
    ghost exact = { (list number).exact };
}

impl Debug for Text {
    fn fmt<W: fmt::Write>(&self, f: &mut fmt::Formatter<W>) -> fmt::Result {
        Debug::fmt(self.text.as_str(), f)
    }
}

impl TryClone for Text {
    fn try_clone(&self) -> Result<Text> {
        Ok(Text {
            text: self.text.clone()?,
        })
    }
}
