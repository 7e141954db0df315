//! Numbers of which each reading is counted.

ghost use Rattle.std.specs.Prelude.{◌≡◌, ℕ, ◌+◌, ◌-◌, ◌^◌, ◌<◌, ◌≤◌, length, slice_index, IfSome};
ghost use Rattle.mp4_search.specs.Guess.{expected_in};

use crate::line::{Line, line_of};
use mp4_codec::Items;
use std::marker::Model;

/// What is looked up in as a whole. A lookup in it begins with the counters of its readings, and each of its steps
/// borrows the one that it raises: a step can make no other, since it borrows no such whole.
pub trait LookedUp {}

/// How many numbers one step of a lookup has read. Only the calls of this crate that read numbers raise it, by one
/// where each is read.
#[derive(Debug, Drop)]
pub struct Readings {
    count: u32,
}

impl Model for Readings {
    ghost Value = { ℕ };

    ghost view = { λ r. r.count };
}

impl Readings {
    /// The counter of a step of a lookup in this: no reading yet.
    pub fn of<T: LookedUp>(_whole: &T) -> Self
        ensures { result ≡ 0 }
    {
        Readings::new()
    }

    /// No reading yet.
    pub(crate) fn new() -> Self
        ensures { result ≡ 0 }
    {
        Readings { count: 0 }
    }

    /// One reading more.
    pub(crate) fn add_one(&mut self)
        requires room { self.old < 2 ^ 32 - 1 }
        ensures counted { self.new ≡ self.old + 1 }
    {
        self.count += 1;
    }

    /// How many they are so far.
    pub fn count(&self) -> u32
        ensures { result ≡ self.now }
    {
        self.count
    }
}

/// Numbers that are searched: nothing that is found depends on a number that a search didn't read, and it reads them
/// one at a time and counts each. The line by which a place is guessed is drawn from some of them beforehand,
/// uncounted.
#[derive(Debug, Drop)]
pub struct SearchedNumbers {
    numbers: Items<u32>,
    /// By which the place of a number is guessed. None where the numbers are few or don't lie near their line.
    line: Option<Line>,
}

impl Model for SearchedNumbers {
    ghost use Rattle.std.specs.Prelude.{List, ℕ, ◌≡◌, ◌≤◌, ◌+◌, ◌^◌, IfSome};
    ghost use Rattle.mp4_search.specs.Guess.{line_of};

    ghost Value = { List ℕ };

    ghost view = { λ s. s.numbers };

    ghost invariant = { λ s. (s.line ≡ line_of s.numbers) × IfSome s.line (λ line. line.places ≤ 2 ^ 32 + 1) };
}

impl SearchedNumbers {
    /// These numbers. Their line is drawn from as many of them as the root of how many there are, about.
    pub fn new(numbers: Vec<u32>) -> Self
        ensures { result ≡ numbers.items }
    {
        let line = line_of(numbers.as_slice());
        SearchedNumbers {
            numbers: Items::from(numbers),
            line,
        }
    }

    pub fn len(&self) -> usize
        ensures { result ≡ length self.now }
    {
        self.numbers.len()
    }

    /// The place after the last number. Two places have a sum of 64 bits.
    pub(crate) fn end(&self) -> usize
        ensures value { result ≡ length self.now }
        ensures small { result < 2 ^ 63 }
    {
        self.numbers.len()
    }

    /// The index at which the last number that is at most `key` is expected: a guess. None where no guess is worth its
    /// looks.
    #[tactic(auto, unfolding(crate::specs::Guess::expected_in))]
    pub(crate) fn expected(&self, key: u32) -> Option<usize>
        requires some { 0 < length self.now }
        ensures guess { result ≡ expected_in self.now key }
        ensures within { IfSome result (λ i. i < length self.now) }
        ensures small { IfSome result (λ i. i < 2 ^ 63) }
    {
        let line = self.line?;
        Some(line.place(key).min(self.numbers.len() - 1))
    }

    /// The number at an index, which counts from 0. This counts as one reading.
    pub fn read(&self, index: usize, readings: &mut Readings) -> u32
        requires within { index < length self.now }
        requires room { readings.old < 2 ^ 32 - 1 }
        ensures number { result ≡ slice_index self.now index }
        ensures counted { readings.new ≡ readings.old + 1 }
    {
        readings.count += 1;
        self.numbers.as_slice()[index]
    }
}

/// Running sums of sizes: for each, the sum of those before it. Only a difference of two of them is answered. They stop
/// at 2^64 - 1, which the sum of fewer than 2^32 sizes of 32 bits never reaches.
#[derive(Debug, Drop)]
pub struct CappedSums {
    sums: Vec<u64>,
}

impl Model for CappedSums {
    ghost use Rattle.std.specs.Prelude.{List, ℕ};

    ghost Value = { List ℕ };

    ghost view = { λ s. s.sums.items };
}

impl CappedSums {
    pub fn new(sums: Vec<u64>) -> Self
        ensures { result ≡ sums.items }
    {
        CappedSums { sums }
    }

    /// The sum at an index, which counts from 0. This counts as one reading.
    fn read(&self, index: usize, readings: &mut Readings) -> u64
        requires within { index < length self.now }
        requires room { readings.old < 2 ^ 32 - 1 }
        ensures number { result ≡ slice_index self.now index }
        ensures counted { readings.new ≡ readings.old + 1 }
    {
        readings.count += 1;
        self.sums[index]
    }

    /// How much the sum grows from `first` up to `last`, counted from 0. Two sums are read.
    pub fn between(&self, first: usize, last: usize, readings: &mut Readings) -> u64
        requires first { first < length self.now }
        requires last { last < length self.now }
        requires order { slice_index self.now first ≤ slice_index self.now last }
        requires room { readings.old < 2 ^ 31 }
        ensures sum { result ≡ slice_index self.now last - slice_index self.now first }
        ensures counted { readings.new ≡ readings.old + 2 }
    {
        let end = self.read(last, readings);
        let begin = self.read(first, readings);
        end - begin
    }
}
