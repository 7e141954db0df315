//! How far a long run is.

use mp4_readable::Grouped;
use std::rt::Clock;
use std::time::Instant;

/// For how many seconds a run is quiet.
const QUIET_SECONDS: u64 = 1;

/// Says on a terminal how far a run is that takes more than a second.
#[derive(Drop)]
pub struct Progress<'a, R> {
    rt: &'a R,
    /// When the last line was written, or the run began; `None` where nothing is to be written.
    last: Option<Instant>,
    /// Whether a line was written.
    has_written: bool,
}

impl<'a, R: Clock + Eprint> Progress<'a, R> {
    /// A run that begins now, on a terminal or not.
    pub fn new(rt: &'a R, is_terminal: bool) -> Self {
        let last = if is_terminal {
            Instant::now(rt).ok()
        } else {
            None
        };
        Progress {
            rt,
            last,
            has_written: false,
        }
    }

    /// Says that the run is at the sample of this number, where a second has passed.
    pub fn note(&mut self, sample: u32) {
        let Some(last) = self.last else {
            return;
        };
        match last.elapsed(self.rt) {
            Ok(passed) if passed.as_secs() >= QUIET_SECONDS => {}
            _ => return,
        }
        let sample = Grouped(u64::from(sample));
        let _ = eprint!(self.rt; "\rsample {sample}");
        self.has_written = true;
        self.last = Instant::now(self.rt).ok();
    }

    /// Ends the line, where one was written.
    pub fn finish(&mut self) {
        if self.has_written {
            let _ = eprint!(self.rt; "\n");
        }
    }
}
