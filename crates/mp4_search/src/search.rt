//! The search in numbers that rise, and the ways in which it goes.

ghost use Rattle.mp4_codec.specs.ExactTest.{by_test, field_tests};
ghost use Rattle.std.specs.Prelude.{◌≡◌, ℕ, ◌+◌, ◌-◌, ◌^◌, ◌<◌, ◌≤◌, ◌==◌, List, [], length, slice_index, option_map};
ghost use Rattle.std.specs.Prelude.{IfSome, IfNone};
ghost use Rattle.std.specs.List.{list_any};
ghost use Rattle.std.specs.List.Sorted.{IsNonDecreasing};
ghost use Rattle.mp4_search.specs.BitSet.{AreBitsOf, looks_at_bit};
ghost use Rattle.mp4_search.specs.CountLaws.{nothing_by_guess, nothing_by_halves};
ghost use Rattle.mp4_search.specs.Digits.{digits};
ghost use Rattle.mp4_search.specs.Search.{IsBetween, IsCountByGuess, IsCountByHalves, IsFew, IsLastAtMost};
ghost use Rattle.mp4_search.specs.Search.{comparisons_between, comparisons_in};
ghost use Rattle.mp4_search.specs.declared.bit_set.BitSet.{BitSet as Bits};

use crate::bit_set::BitSet;
use crate::counted::{Readings, SearchedNumbers};
use crate::near::last_at_most_near;
use mp4_codec::ExactEq;

/// A number and its index.
#[derive(Clone, Copy, Debug, PartialEq, Eq)]
pub struct SearchHit {
    pub index: usize,
    pub number: u32,
}

impl ExactEq for SearchHit {
    ghost exact = { by_test (Prim.hlevel field_tests) };
}

/// A way to search numbers. All ways find the same; each says how many numbers it reads.
pub trait Search {
    /// So many of some numbers that rise are compared with a key.
    ghost Counts: { List ℕ → ℕ → ℕ → Type 0 };

    /// How many words of a set of bits are looked at for a number.
    ghost looks: { Bits → ℕ → ℕ };

    /// Where there are no numbers, none may be compared.
    ghost nothing: { (key : ℕ) → Counts [] key 0 };

    /// The last of the numbers that is at most `key`. Each that is compared with it is counted.
    fn last_at_most(
        numbers: &SearchedNumbers,
        key: u32,
        readings: &mut Readings,
    ) -> Option<SearchHit>
        requires rises { IsNonDecreasing numbers.now }
        requires fresh { readings.old ≡ 0 }
        ensures found { IfSome result
            (λ f. IsLastAtMost numbers.now key f.index × (f.number ≡ slice_index numbers.now f.index)) }
        ensures none { IfNone result ((j : ℕ) → j < length numbers.now → key < slice_index numbers.now j) }
        ensures counted { Counts numbers.now key readings.new };

    /// Whether `k` is one of some numbers in no order, of which `bits` is a set. Each word of bits that is looked at is
    /// counted; where all numbers are looked at, they are not.
    fn is_among(numbers: &[u32], bits: &BitSet, k: u32, readings: &mut Readings) -> bool
        requires bits { AreBitsOf numbers.now bits.now }
        requires fresh { readings.old ≡ 0 }
        ensures value { result ≡ list_any (λ n. n == k) numbers.now }
        ensures counted { readings.new ≡ looks bits.now k };
}

/// By halves: the number in the middle of those that are left is compared with the key, until none is left.
#[derive(Clone, Copy, Debug)]
pub struct ByHalves;

impl Search for ByHalves {
    ghost Counts = { IsCountByHalves };

    ghost looks = { λ bits k. 0 };

    ghost nothing = { nothing_by_halves };

    // Kept inline: docs/PERF.md, "Why these are calls".
    #[inline(always)]
    fn last_at_most(
        numbers: &SearchedNumbers,
        key: u32,
        readings: &mut Readings,
    ) -> Option<SearchHit> {
        let (found, made) = last_at_most(numbers, key);
        *readings = made;
        found
    }

    #[inline(always)]
    fn is_among(numbers: &[u32], _bits: &BitSet, k: u32, _readings: &mut Readings) -> bool {
        numbers.contains(&k)
    }
}

/// By a guess: the search begins where the answer is expected, and goes on by halves; what is in no order is looked up
/// by its bit.
#[derive(Clone, Copy, Debug)]
pub struct ByGuess;

impl Search for ByGuess {
    ghost Counts = { IsCountByGuess };

    ghost looks = { looks_at_bit };

    ghost nothing = { nothing_by_guess };

    // Kept inline: docs/PERF.md, "Why these are calls".
    #[inline(always)]
    fn last_at_most(
        numbers: &SearchedNumbers,
        key: u32,
        readings: &mut Readings,
    ) -> Option<SearchHit> {
        let (found, made) = last_at_most_near(numbers, key);
        *readings = made;
        found
    }

    #[inline(always)]
    fn is_among(numbers: &[u32], bits: &BitSet, k: u32, readings: &mut Readings) -> bool {
        match bits.contains(k, readings) {
            Some(is_one) => is_one,
            None => numbers.contains(&k),
        }
    }
}

/// What is left of a search: the numbers before `low` are at most the key, and `last` is the one right before it, if
/// there is one; the numbers from `high` on are above the key.
#[derive(Clone, Copy)]
pub(crate) struct Between {
    pub low: usize,
    pub high: usize,
    pub last: Option<u32>,
}

/// Looks at the number in the middle of those that are left, until none is left.
// Kept inline: docs/PERF.md, "Why these are calls".
#[inline(always)]
pub(crate) fn halve(
    numbers: &SearchedNumbers,
    key: u32,
    between: Between,
    readings: &mut Readings,
) -> Between
    requires rises { IsNonDecreasing numbers.now }
    requires between { IsBetween numbers.now key between.low between.high between.last }
    requires small { length numbers.now < 2 ^ 63 }
    requires room { readings.old < 2 ^ 31 }
    ensures between { IsBetween numbers.now key result.low result.high result.last }
    ensures done { result.low ≡ result.high }
    ensures counted { readings.new ≡ readings.old
        + comparisons_between (between.high - between.low) numbers.now key between.low between.high }
    ensures few { readings.new ≤ readings.old + digits (between.high - between.low) }
{
    let Between {
        mut low,
        mut high,
        mut last,
    } = between;
    while low < high {
        // No two places pass 64 bits together. Why they are added: docs/PERF.md, "Why these are calls".
        let middle = (low + high) / 2;
        let number = numbers.read(middle, readings);
        if number <= key {
            // Kept an option: docs/PERF.md, "Why these are calls".
            last = Some(number);
            low = middle + 1;
        } else {
            high = middle;
        }
    }
    Between { low, high, last }
}

/// The last of the numbers that is at most `key`, and how many of them were compared with it.
#[inline(always)]
#[tactic(auto, unfolding(crate::specs::Search::comparisons_in))]
pub(crate) fn last_at_most(numbers: &SearchedNumbers, key: u32) -> (Option<SearchHit>, Readings)
    requires { IsNonDecreasing numbers.now }
    ensures found { IfSome result.0
        (λ f. IsLastAtMost numbers.now key f.index × (f.number ≡ slice_index numbers.now f.index)) }
    ensures none { IfNone result.0 ((j : ℕ) → j < length numbers.now → key < slice_index numbers.now j) }
    ensures counted { result.1 ≡ comparisons_in numbers.now key }
    ensures few { IsFew result.1 (length numbers.now) }
{
    let mut readings = Readings::new();
    let all = Between {
        low: 0,
        high: numbers.end(),
        last: None,
    };
    let Between { low, last, .. } = halve(numbers, key, all, &mut readings);
    (last_before(low, last), readings)
}

impl SearchedNumbers {
    /// How many numbers are at most `key`. No comparison is counted: it is for what is made of the numbers before they
    /// are looked up in. So it takes them alone, which no step of a lookup has.
    pub fn count_at_most(&mut self, key: u32) -> usize
        requires { IsNonDecreasing self.old }
        ensures within { result ≤ length self.old }
        ensures first { (i : ℕ) → i < result → slice_index self.old i ≤ key }
        ensures others { (i : ℕ) → result ≤ i → i < length self.old → key < slice_index self.old i }
        ensures kept { self.new ≡ self.old }
    {
        let all = Between {
            low: 0,
            high: self.end(),
            last: None,
        };
        halve(self, key, all, &mut Readings::new()).low
    }
}

/// What a search found that has nothing left: the number right before `low`.
#[inline(always)]
pub(crate) fn last_before(low: usize, last: Option<u32>) -> Option<SearchHit>
    requires { IfSome last (λ _. 1 ≤ low) }
    ensures { result ≡ option_map (λ n. record { index = low - 1; number = n }) last }
{
    let number = last?;
    Some(SearchHit {
        index: low - 1,
        number,
    })
}
