//! A list of values of one kind, in little memory.

ghost use Rattle.std.specs.Prelude.{◌≡◌, ◌≤◌, ◌<◌, ◌-◌, ◌^◌, [], ◌∷◌, ◌++◌, List, length, OnOk, OnErr};
ghost use Rattle.std.specs.Prelude.{slice_index_or};
ghost use Rattle.mp4_mux.specs.declared.column.Run.{Run};
ghost use Rattle.mp4_mux.specs.Columns.{values_of, runs_in};
ghost use Rattle.mp4_mux.specs.ColumnFields.{IsColumn};

use mp4_codec::ExactEq;
use std::alloc::{AllocError, Global};
use std::marker::Model;

/// How many runs a column keeps in any case, before it asks whether they pay.
const FEW_RUNS: usize = 64;

/// Neighbours that are equal.
#[derive(Clone, Copy, Debug)]
pub struct Run<T> {
    /// How many there are.
    pub count: u32,
    pub value: T,
}

/// A list of less than 2^32 values, as runs of equal neighbours while these are few, and after them one by one.
///
/// Of 4 bytes a value it takes 8 a run, as long as the runs are at most 64 or half as many as the values. A value
/// that would begin a run too many is kept for itself, and so is each that comes after it, of 4 bytes. So a value takes
/// 4 bytes at most, but for the first 64 runs and the spare room of a `Vec`.
#[derive(Debug, Drop)]
pub struct Column<T> {
    /// The runs that are over.
    runs: Vec<Run<T>>,
    /// The run after them, which grows; it is empty where the column is.
    last: Run<T>,
    /// The values after that run.
    each: Vec<T>,
    /// How many values there are.
    len: u32,
}

impl<T> Model for Column<T> {
    ghost Value = { List (Run T) };

    ghost view = { λ c. runs_in c.runs.items c.last c.each.items };

    ghost invariant = { λ c. IsColumn c.runs.items c.last c.each.items c.len };
}

impl<T: ExactEq + Copy> Column<T> {
    /// An empty column. Which value it is handed makes no difference.
    pub fn new(alloc: Global, value: T) -> Self
        ensures { values_of result ≡ [] }
    {
        Column {
            runs: Vec::new(alloc),
            last: Run { count: 0, value },
            each: Vec::new(alloc),
            len: 0,
        }
    }

    /// How many values there are.
    pub fn len(&self) -> u32
        ensures { result ≡ length (values_of self.now) }
    {
        self.len
    }

    /// Adds a value at the end. An `Err` changes no value.
    #[inline(always)]
    pub fn push(&mut self, value: T) -> Result<(), AllocError>
        requires { length (values_of self.old) < 2 ^ 32 - 1 }
        ensures ok { OnOk result (values_of self.new ≡ values_of self.old ++ value ∷ []) }
        ensures err { OnErr result (self.new ≡ self.old) }
    {
        if self.each.is_empty() && self.last.count > 0 && self.last.value == value {
            self.last.count += 1;
            self.len += 1;
            return Ok(());
        }
        self.push_other(value)
    }

    /// The same, for a value that isn't one more of the last run.
    #[inline(never)]
    fn push_other(&mut self, value: T) -> Result<(), AllocError>
        requires { length (values_of self.old) < 2 ^ 32 - 1 }
        ensures ok { OnOk result (values_of self.new ≡ values_of self.old ++ value ∷ []) }
        ensures err { OnErr result (self.new ≡ self.old) }
    {
        if !self.each.is_empty() {
            self.each.push(value)?;
            self.len += 1;
            return Ok(());
        }
        if self.last.count == 0 {
            self.last = Run { count: 1, value };
            self.len += 1;
            return Ok(());
        }
        if are_varied(self.runs.len(), self.len) {
            self.each.push(value)?;
            self.len += 1;
            return Ok(());
        }
        self.runs.push(self.last)?;
        self.last = Run { count: 1, value };
        self.len += 1;
        Ok(())
    }

    /// Takes the last value, where memory runs out for what belongs to it.
    #[cold]
    #[inline(never)]
    pub fn pop(&mut self) -> T
        requires { 0 < length (values_of self.old) }
        ensures { values_of self.old ≡ values_of self.new ++ result ∷ [] }
    {
        self.len -= 1;
        if !self.each.is_empty() {
            return self.each.take_last();
        }
        let value = self.last.value;
        if self.last.count > 1 {
            self.last = Run {
                count: self.last.count - 1,
                value,
            };
            return value;
        }
        if self.runs.is_empty() {
            self.last = Run { count: 0, value };
            return value;
        }
        self.last = self.runs.take_last();
        value
    }

    /// How many runs there are; of an empty column one, of no value.
    pub fn run_count(&self) -> usize
        ensures { result ≡ length self.now }
    {
        self.runs.len() + 1 + self.each.len()
    }

    /// The run at an index, which counts from 0.
    pub fn run_at(&self, index: usize) -> Run<T>
        requires { index < length self.now }
        ensures is { result ≡ slice_index_or self.now index result }
        ensures some { 0 < length (values_of self.now) → 1 ≤ result.count }
    {
        if index < self.runs.len() {
            return self.runs[index];
        }
        if index == self.runs.len() {
            return self.last;
        }
        Run {
            count: 1,
            value: self.each[index - self.runs.len() - 1],
        }
    }
}

/// Whether so many runs of so many values are too many to keep one more.
fn are_varied(runs: usize, values: u32) -> bool {
    runs >= FEW_RUNS && runs > (values / 2) as usize
}
