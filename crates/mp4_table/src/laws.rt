//! What the tables have to do with the lists that they stand for.
//!
//! Each function here does nothing; its contract is a law that holds of all tables.

ghost use Rattle.std.specs.Prelude.{◌≡◌, ◌≤◌, ℕ, List, length, nat_eq, slice_get, IsSomeAnd, Ok};
ghost use Rattle.std.specs.Ordering.{int_eq};
ghost use Rattle.mp4_table.specs.declared.stts.SttsEntry.{SttsEntry};
ghost use Rattle.mp4_table.specs.declared.ctts.CttsEntry.{CttsEntry};
ghost use Rattle.mp4_table.specs.declared.stsc.StscEntry.{StscEntry};
ghost use Rattle.mp4_table.specs.declared.stsc.StscBox.{StscBox};
ghost use Rattle.mp4_table.specs.Runs.{durations, rendering_offsets, changes};
ghost use Rattle.mp4_table.specs.Chunks.{counts, EachHasEntry};
ghost use Rattle.mp4_table.specs.Stsc.{stsc_of, HasFirstSamples};

/// No table of runs has fewer entries than the list that it stands for has changes: members that are the
/// first or differ from the one before.
pub fn runs_are_no_fewer_than_changes()
    ensures durations { (runs : List SttsEntry) → changes nat_eq (durations runs) ≤ length runs }
    ensures rendering_offsets { (runs : List CttsEntry) → changes int_eq (rendering_offsets runs) ≤ length runs }
{}

/// Where each of the chunks 1 to n has an entry, no table has fewer entries than the counts of samples
/// in these chunks have changes. Each has an entry where the first entry begins with chunk 1.
pub fn entries_are_no_fewer_than_changes()
    ensures counts { (entries : List StscEntry) (n : ℕ) → EachHasEntry entries n
        → changes nat_eq (counts entries n) ≤ length entries }
    ensures from_one { (entries : List StscEntry) (n : ℕ) → IsSomeAnd (slice_get entries 0) (λ e. e.first_chunk ≡ 1)
        → EachHasEntry entries n }
{}

/// What is read as a sample-to-chunk table has its first samples, whatever the payload.
pub fn entries_have_first_samples()
    ensures { (payload : List ℕ) (b : StscBox) → stsc_of payload ≡ Ok b → HasFirstSamples b.entries }
{}
