//! Runs of samples, and how many samples come before each.

ghost use Rattle.std.specs.Prelude.{◌≡◌, ℕ, IfOk};
ghost use Rattle.mp4_search.specs.Sums.{CountsBefore};

use mp4_table::{CttsEntry, SttsEntry};
use std::alloc::{AllocError, Global};

/// A run of samples.
pub trait Run: Copy {
    ghost count: { Self → ℕ };

    /// How many samples the run has.
    fn sample_count(self) -> u32
        ensures { result ≡ count self };
}

impl Run for SttsEntry {
    ghost count = { λ r. r.sample_count };

    fn sample_count(self) -> u32 {
        self.sample_count
    }
}

impl Run for CttsEntry {
    ghost count = { λ r. r.sample_count };

    fn sample_count(self) -> u32 {
        self.sample_count
    }
}

/// How many samples come before each run. A count stops at 2^32 - 1, which no number of a sample passes.
pub fn counts_before<R: Run>(alloc: Global, runs: &[R]) -> Result<Vec<u32>, AllocError>
    ensures { IfOk result (λ counts. CountsBefore R.count runs.now counts.items) }
{
    let mut counts = Vec::with_capacity(alloc, runs.len())?;
    let mut count: u32 = 0;
    for run in runs {
        counts.push_reserved(count);
        count = count.saturating_add(run.sample_count());
    }
    Ok(counts)
}
