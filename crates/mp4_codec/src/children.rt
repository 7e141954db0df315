//! The children of a payload (ISO/IEC 14496-12, 4.2).

ghost use Rattle.std.specs.Prelude.{◌≡◌, ◌<◌, Some, length, IfOk, IfSome, OnSome, OnErr, ℕ, List};
ghost use Rattle.std.specs.Option.{option_map};
ghost use Rattle.mp4_codec.specs.Cause.{Gives};
ghost use Rattle.mp4_codec.specs.BoxType.{IsNamed};
ghost use Rattle.mp4_codec.specs.Children.{child_box, child_at, next_of, next_at};

use crate::box_type::BoxType;
use crate::cursor::ByteCursor;
use crate::error::{Error, Result};
use crate::header::{BoxHeader, HEADER_SIZE, OPEN_END};
use std::marker::Model;

/// A child of a payload: its type and its own payload.
#[derive(Clone, Copy, Debug, PartialEq, Eq)]
pub struct Child<'a> {
    pub name: BoxType,
    pub payload: &'a [u8],
}

/// The children of a payload, one after the other.
#[derive(Debug, Drop)]
pub struct Children<'a> {
    rest: &'a [u8],
}

impl<'a> Model for Children<'a> {
    ghost Value = { List ℕ };

    ghost view = { λ s. s.rest.now };
}

/// The child that begins the bytes, and what is after it.
#[tactic(auto, unfolding(crate::specs::Children::child_at))]
fn first_child(bytes: &[u8]) -> Result<(Child<'_>, &[u8])>
    ensures value { Gives (λ x. (option_map child_box (Some x.0), x.1.now)) result (next_of (child_at bytes.now)) }
    ensures shorter { IfOk result (λ x. length x.1.now < length bytes.now) }
    ensures named { IfOk result (λ x. IsNamed x.0.name) }
{
    let mut cursor = ByteCursor::new(bytes);
    let Ok(header) = BoxHeader::read(&mut cursor) else {
        return Err(Error::InvalidData("a child's header"));
    };
    if header.size == OPEN_END {
        return Err(Error::InvalidData("a child with an open end"));
    }
    let Ok(payload) = cursor.take(header.size - HEADER_SIZE) else {
        return Err(Error::InvalidData("a child passes the end"));
    };
    let rest = cursor.rest();
    Ok((
        Child {
            name: header.name,
            payload,
        },
        rest,
    ))
}

impl<'a> Children<'a> {
    /// All children of a payload.
    pub fn new(payload: &'a [u8]) -> Self
        ensures { result ≡ payload.now }
    {
        Children { rest: payload }
    }

    /// The next child; None where fewer than 8 bytes are left, which are skipped.
    ///
    /// `InvalidData` where no child begins the bytes that are left: a size or a largesize below its
    /// header (0 too, since only a box of a file may be open), a header that is cut, or a child that
    /// passes the end. A refusal leaves the children that are left.
    pub fn next_child(&mut self) -> Result<Option<Child<'a>>>
        ensures value { Gives (λ c. (option_map child_box c, self.new)) result (next_at self.old) }
        ensures shorter { IfOk result (λ c. OnSome c (length self.new < length self.old)) }
        ensures named { IfOk result (λ c. IfSome c (λ k. IsNamed k.name)) }
        ensures err { OnErr result (self.new ≡ self.old) }
    {
        if self.rest.len() < HEADER_SIZE as usize {
            return Ok(None);
        }
        let (child, rest) = first_child(self.rest)?;
        self.rest = rest;
        Ok(Some(child))
    }
}
