//! What bytes answer where they are cut.

use std::alloc::{AllocError, Global};
use std::fmt::Write;

/// Lengths from one to another, and what they all answer; and the same of the lengths before them, as a text.
#[derive(Drop)]
pub struct Ranges {
    before: String,
    first: usize,
    last: usize,
    answer: String,
}

impl Ranges {
    pub fn new(alloc: Global) -> Self {
        Ranges {
            before: String::new(alloc),
            first: 0,
            last: 0,
            answer: String::new(alloc),
        }
    }

    /// Writes the range that goes up to here.
    fn end_range(&mut self) -> Result<(), AllocError> {
        if self.answer.is_empty() {
            return Ok(());
        }
        if !self.before.is_empty() {
            self.before.push_str(" / ")?;
        }
        if self.first == self.last {
            write!(self.before, "{} {}", self.first, self.answer)
        } else {
            write!(self.before, "{}..{} {}", self.first, self.last, self.answer)
        }
    }

    /// Adds what the next length answers.
    pub fn add(&mut self, length: usize, answer: String) -> Result<(), AllocError> {
        if answer != self.answer {
            self.end_range()?;
            self.first = length;
            self.answer = answer;
        }
        self.last = length;
        Ok(())
    }

    /// All ranges, each as `8..30 invalid data`.
    pub fn into_text(self) -> Result<String, AllocError> {
        let mut ranges = self;
        ranges.end_range()?;
        let Ranges { before, .. } = ranges;
        Ok(before)
    }
}
