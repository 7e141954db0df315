//! What the tables of a track say, from columns of values.

ghost use Rattle.std.specs.Prelude.{◌≡◌, ◌+◌, ◌++◌, ◌^◌, ◌<◌, IfOk, OnOk, fold, max, replicate, true};
ghost use Rattle.std.specs.List.{list_all, count_by};
ghost use Rattle.mp4_mux.specs.Columns.{values_of};
ghost use Rattle.mp4_mux.specs.ColumnTables.{true_numbers_from, same_size};

use crate::column::{Column, Run};
use mp4_codec::ExactEq;
use std::alloc::{AllocError, Global};

/// Whether each value is this one.
pub fn all_equal<T: ExactEq + Copy>(column: &Column<T>, value: T) -> bool
    ensures { result ≡ list_all (λ x. T.eq x value) (values_of column.now) }
{
    if column.len() == 0 {
        return true;
    }
    for i in 0..column.run_count() {
        if column.run_at(i).value == value {
            continue;
        }
        return false;
    }
    true
}

/// The value that all have, and 0 where they differ.
pub fn same_size(sizes: &Column<u32>) -> u32
    ensures { result ≡ same_size (values_of sizes.now) }
{
    if sizes.len() == 0 {
        return 0;
    }
    let size = sizes.run_at(0).value;
    if all_equal(sizes, size) { size } else { 0 }
}

/// The largest value; 0 where there is none.
pub fn largest(column: &Column<u32>) -> u32
    ensures { result ≡ fold max 0 (values_of column.now) }
{
    let mut largest = 0;
    if column.len() == 0 {
        return largest;
    }
    for i in 0..column.run_count() {
        largest = largest.max(column.run_at(i).value);
    }
    largest
}

/// How many of the values are true.
pub fn true_count(column: &Column<bool>) -> u32
    ensures { result ≡ count_by (λ b. b) (values_of column.now) }
{
    // For the proof alone, which learns that the values are less than 2^32.
    let _ = column.len();
    let mut count: u32 = 0;
    for i in 0..column.run_count() {
        let run = column.run_at(i);
        if !run.value {
            continue;
        }
        count += run.count;
    }
    count
}

/// Adds the numbers of so many true values, which so many others are before.
fn push_numbers(numbers: &mut Vec<u32>, before: u32, count: u32) -> Result<(), AllocError>
    requires { before + count < 2 ^ 32 }
    ensures { OnOk result
        (numbers.new.items ≡ numbers.old.items ++ true_numbers_from (before + 1) (replicate count true)) }
{
    for k in 0..count {
        numbers.push(before + k + 1)?;
    }
    Ok(())
}

/// The numbers of the values that are true, counted from 1.
pub fn true_numbers(alloc: Global, column: &Column<bool>) -> Result<Vec<u32>, AllocError>
    ensures { IfOk result (λ numbers. numbers.items ≡ true_numbers_from 1 (values_of column.now)) }
{
    // For the proof alone, which learns that the values are less than 2^32.
    let _ = column.len();
    let mut numbers = Vec::new(alloc);
    let mut before: u32 = 0;
    for i in 0..column.run_count() {
        let run = column.run_at(i);
        let first = before;
        before += run.count;
        if !run.value {
            continue;
        }
        push_numbers(&mut numbers, first, run.count)?;
    }
    Ok(numbers)
}

/// Adds the values of a run.
fn push_run(values: &mut Vec<u32>, run: Run<u32>) -> Result<(), AllocError>
    ensures { OnOk result (values.new.items ≡ values.old.items ++ replicate run.count run.value) }
{
    let count = run.count as usize;
    values.resize(values.len() + count, run.value)
}

/// All values.
pub fn values(alloc: Global, column: &Column<u32>) -> Result<Vec<u32>, AllocError>
    ensures { IfOk result (λ values. values.items ≡ values_of column.now) }
{
    let mut values = Vec::with_capacity(alloc, column.len() as usize)?;
    for i in 0..column.run_count() {
        push_run(&mut values, column.run_at(i))?;
    }
    Ok(values)
}
