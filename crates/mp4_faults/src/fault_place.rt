//! The place of a fault.

ghost use Rattle.std.specs.Prelude.{◌≡◌, Some};
ghost use Rattle.mp4_faults.specs.PathText.{is_numbered, path_text, step_text, steps_of, type_text, visible_byte};

use mp4_codec::{BoxType, DebugItem, Error, FourCC, Items};
use std::fmt;
use std::fmt::Write;

/// A step from a container, or from the file, to one of its boxes.
#[derive(Clone, Copy, Debug, PartialEq, Eq)]
pub struct PathStep {
    /// The type of the box.
    pub name: BoxType,
    /// Which of the boxes of this type it is in what contains it, from 1.
    pub number: u64,
}

impl DebugItem for PathStep {}

/// The code of a type as text; a byte that is neither visible, nor a space, nor the © of iTunes' items, is a full stop.
#[derive(Clone, Copy)]
struct TypeText(BoxType);

/// A byte of a code as a character.
fn visible_byte(byte: u8) -> char
    ensures { result ≡ visible_byte byte }
{
    match byte {
        0x20..=0x7e | 0xa9 => char::from(byte),
        _ => '.',
    }
}

impl fmt::Display for TypeText {
    ghost output = { λ t. Some (type_text t.0) };

    #[tactic(auto, unfolding(crate::specs::PathText::type_text))]
    fn fmt<W: fmt::Write>(&self, f: &mut fmt::Formatter<W>) -> fmt::Result {
        for byte in FourCC::from(self.0).value {
            let shown = visible_byte(byte);
            write!(f, "{shown}")?;
        }
        Ok(())
    }
}

impl PathStep {
    /// Whether the number is written: it is for types of which a container usually holds several, and for
    /// another type where the box isn't the first.
    pub fn is_numbered(&self) -> bool
        ensures { result ≡ is_numbered self.now }
    {
        match self.name {
            BoxType::TrakBox | BoxType::TrexBox => true,
            BoxType::MoofBox | BoxType::TrafBox | BoxType::TrunBox | BoxType::EmsgBox => true,
            _ => self.number > 1,
        }
    }
}

impl fmt::Display for PathStep {
    ghost output = { λ step. Some (step_text step) };

    #[tactic(auto, unfolding(crate::specs::PathText::step_text))]
    fn fmt<W: fmt::Write>(&self, f: &mut fmt::Formatter<W>) -> fmt::Result {
        let name = TypeText(self.name);
        if self.is_numbered() {
            let number = self.number;
            return write!(f, "{name}[{number}]");
        }
        write!(f, "{name}")
    }
}

/// The boxes that a fault is in, from the file's own down to the innermost, as text: `moov/trak[2]/mdia`.
///
/// The number in brackets says which of the boxes of this type in its container it is, from 1. It is written for trak,
/// trex, moof, traf, trun and emsg, and for another type where the box isn't the first. The text of no boxes is empty.
#[derive(Clone, Copy)]
pub struct BoxPath<'a> {
    steps: &'a [PathStep],
}

impl<'a> BoxPath<'a> {
    /// The path of these steps.
    pub fn new(steps: &'a [PathStep]) -> Self
        ensures { steps_of result ≡ steps.now }
    {
        BoxPath { steps }
    }
}

impl fmt::Display for BoxPath<'_> {
    ghost output = { λ path. Some (path_text (steps_of path)) };

    #[tactic(auto, unfolding(crate::specs::PathText::path_text))]
    fn fmt<W: fmt::Write>(&self, f: &mut fmt::Formatter<W>) -> fmt::Result {
        let [first, others @ ..] = self.steps else {
            return Ok(());
        };
        write!(f, "{first}")?;
        for step in others {
            write!(f, "/{step}")?;
        }
        Ok(())
    }
}

/// The first fault of a file that doesn't open.
#[derive(Debug, Drop)]
pub struct FaultPlace {
    /// The boxes that the fault is in, from the file's own down to the innermost. There is none where the fault is of
    /// the file itself: a box that has to be there is missing, or no header of a box is at the place. Where the file
    /// ends at a box of the missing type with an open end, which isn't read, the fault is in that box.
    pub path: Items<PathStep>,
    /// The place of the first byte of the innermost box, or where no header of a box is, or where the file ends that
    /// lacks a box. It counts from the first byte of the source.
    pub place: u64,
    /// The error by which the file is refused.
    pub error: Error,
}

impl FaultPlace {
    /// The path as text.
    pub fn shown_path(&self) -> BoxPath<'_>
        ensures { steps_of result ≡ self.now.path }
    {
        BoxPath::new(self.path.as_slice())
    }
}
