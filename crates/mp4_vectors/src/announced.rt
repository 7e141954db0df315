//! Questions that are said before they are asked, and whether their answers are as wanted.

use crate::subjects::Subject;
use std::alloc::{AllocError, Global};
use std::io::Write;

/// Where each question is said before it is asked and after it is answered; nowhere where there is no sink. A line that
/// the sink refuses is left out: what is printed last is then refused too.
#[derive(Drop)]
pub struct Announced<W> {
    pub sink: Option<W>,
}

impl<W: Write> Announced<W> {
    /// Says what is asked, the question and its case.
    pub fn asks(
        &mut self,
        alloc: Global,
        subject: Subject,
        question: &str,
        case: &str,
    ) -> Result<(), AllocError> {
        if let Some(sink) = &mut self.sink {
            let line = format!(in alloc; "? {subject:?} {question}, {case}\n")?;
            let _ = sink.write_all(line.as_bytes());
        }
        Ok(())
    }

    /// Says whether the answer is as wanted. This takes no memory.
    pub fn is_answered(&mut self, is_as_wanted: bool) {
        if let Some(sink) = &mut self.sink {
            let line: &[u8] = if is_as_wanted {
                b"= as wanted\n"
            } else {
                b"= otherwise\n"
            };
            let _ = sink.write_all(line);
        }
    }
}
