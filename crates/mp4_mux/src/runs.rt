//! Neighbours among the samples that are alike, as runs.

ghost use Rattle.std.specs.Prelude.{◌≡◌, ℕ, IfOk};
ghost use Rattle.mp4_mux.specs.Columns.{values_of};
ghost use Rattle.mp4_table.specs.Runs.{changes};
ghost use Rattle.mp4_mux.specs.SampleTables.{runs_of};
ghost use Rattle.mp4_mux.specs.ColumnTables.{stts_entry, ctts_entry};

use crate::column::Column;
use mp4_codec::ExactEq;
use mp4_table::{CttsEntry, SttsEntry};
use std::alloc::{AllocError, Global};

/// A run of equal values, as an entry of a table.
pub trait TableRun<T>: Copy {
    ghost run: { ℕ → T → Self };

    /// The run of so many of this value.
    fn of(count: u32, value: T) -> Self
        ensures { result ≡ run count value };
}

impl TableRun<u32> for SttsEntry {
    ghost run = { stts_entry };

    fn of(count: u32, value: u32) -> Self {
        SttsEntry {
            sample_count: count,
            sample_delta: value,
        }
    }
}

impl TableRun<i32> for CttsEntry {
    ghost run = { ctts_entry };

    fn of(count: u32, value: i32) -> Self {
        CttsEntry {
            sample_count: count,
            sample_offset: value,
        }
    }
}

/// Whether both values belong to one run.
fn is_same<T: ExactEq + Copy>(a: T, b: T) -> bool
    ensures { result ≡ T.eq a b }
{
    a == b
}

/// The runs of the values, from the first to the last.
pub fn runs<T: ExactEq + Copy, R: TableRun<T>>(
    alloc: Global,
    column: &Column<T>,
) -> Result<Vec<R>, AllocError>
    ensures { IfOk result (λ r. r.items ≡ runs_of T.eq R.run (values_of column.now)) }
{
    let mut runs = Vec::new(alloc);
    if column.len() == 0 {
        return Ok(runs);
    }
    let first = column.run_at(0);
    let mut count = first.count;
    let mut value = first.value;
    for i in 1..column.run_count() {
        let next = column.run_at(i);
        if is_same(value, next.value) {
            count += next.count;
            continue;
        }
        runs.push(R::of(count, value))?;
        count = next.count;
        value = next.value;
    }
    runs.push(R::of(count, value))?;
    Ok(runs)
}

/// How many runs the values make.
pub fn run_count<T: ExactEq + Copy>(column: &Column<T>) -> u32
    ensures { result ≡ changes T.eq (values_of column.now) }
{
    if column.len() == 0 {
        return 0;
    }
    let mut value = column.run_at(0).value;
    let mut count: u32 = 1;
    for i in 1..column.run_count() {
        let next = column.run_at(i);
        if is_same(next.value, value) {
            continue;
        }
        value = next.value;
        count += 1;
    }
    count
}
