//! What is asked of a file.

use crate::faults::Subject;
use crate::files::STANDARD_STREAM;

/// What a file is rewritten as.
#[derive(Drop)]
pub enum Task {
    /// With its movie box in front.
    Front,
    /// With the samples of its fragments in tables.
    Gather,
    /// With the tracks of these ids alone.
    Tracks(Vec<u32>),
}

/// A task, and the names of the file that is read and of the one that is written.
#[derive(Drop)]
pub struct Request<'a> {
    pub task: Task,
    pub read: &'a str,
    pub written: &'a str,
    /// Whether what was written is read again and compared.
    pub check: bool,
}

impl<'a> Request<'a> {
    /// Whether the file is written to standard output.
    pub fn is_printed(&self) -> bool {
        self.written == STANDARD_STREAM
    }

    /// The name of what a fault is about.
    pub fn name_of(&self, subject: Subject) -> &'a str {
        match subject {
            Subject::StandardOutput => "standard output",
            Subject::Written if self.is_printed() => "standard output",
            Subject::Written => self.written,
            Subject::Read if self.read == STANDARD_STREAM => "standard input",
            Subject::Read => self.read,
        }
    }
}
