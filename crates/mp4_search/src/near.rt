//! The search in numbers that rise, begun where the answer is expected.

ghost use Rattle.std.specs.Prelude.{◌≡◌, ℕ, ◌+◌, ◌-◌, ◌^◌, ◌<◌, ◌≤◌, length, slice_index, IfSome, IfNone};
ghost use Rattle.std.specs.List.Sorted.{IsNonDecreasing};
ghost use Rattle.mp4_search.specs.Digits.{digits};
ghost use Rattle.mp4_search.specs.Search.{IsBetween, IsCountByGuess, IsFew, IsFewByGuess, IsLastAtMost};
ghost use Rattle.mp4_search.specs.Search.{all_of, after_earlier_looks, after_later_looks, after_look, after_looks_near};
ghost use Rattle.mp4_search.specs.Search.{comparisons_between, comparisons_from, comparisons_in, left_of};

use crate::counted::{Readings, SearchedNumbers};
use crate::line::FEW;
use crate::search::{Between, SearchHit, halve, last_at_most};

/// How far from the place that is expected numbers are looked at beside its neighbours, before the rest is halved.
const FAR: usize = 16;

const FARTHER: usize = 256;

/// Looks at the number at an index, where it is among those that are left.
#[tactic(auto, unfolding(crate::specs::Search::after_look))]
fn look(
    numbers: &SearchedNumbers,
    key: u32,
    between: Between,
    index: usize,
    readings: &mut Readings,
) -> Between
    requires rises { IsNonDecreasing numbers.now }
    requires between { IsBetween numbers.now key between.low between.high between.last }
    requires room { readings.old < 2 ^ 32 - 1 }
    ensures between { IsBetween numbers.now key result.low result.high result.last }
    ensures counted { left_of result.low result.high readings.new
        ≡ after_look numbers.now key index (left_of between.low between.high readings.old) }
    ensures less { result.high - result.low ≤ between.high - between.low }
    ensures from { between.low ≤ result.low }
    ensures upto { result.high < between.high → result.high ≤ index }
    ensures after { between.low < result.low → index < result.low }
    ensures parted { index < between.high → result.low ≤ index → result.high ≤ index }
    ensures seen { between.low ≤ index → index < between.high → readings.new ≡ readings.old + 1 }
    ensures some { readings.old ≤ readings.new }
    ensures few { readings.new ≤ readings.old + 1 }
{
    if index < between.low || index >= between.high {
        return between;
    }
    let number = numbers.read(index, readings);
    if number <= key {
        Between {
            low: index + 1,
            high: between.high,
            last: Some(number),
        }
    } else {
        Between {
            low: between.low,
            high: index,
            last: between.last,
        }
    }
}

/// Looks after an index, whose number is at most the key: farther and farther, up to the first number that is above
/// it.
fn look_later(
    numbers: &SearchedNumbers,
    key: u32,
    at: Between,
    index: usize,
    readings: &mut Readings,
) -> Between
    requires rises { IsNonDecreasing numbers.now }
    requires between { IsBetween numbers.now key at.low at.high at.last }
    requires small { index < 2 ^ 63 }
    requires room { readings.old < 2 ^ 32 - 3 }
    ensures between { IsBetween numbers.now key result.low result.high result.last }
    ensures counted { left_of result.low result.high readings.new
        ≡ after_later_looks numbers.now key index (left_of at.low at.high readings.old) }
    ensures less { result.high - result.low ≤ at.high - at.low }
    ensures from { at.low ≤ result.low }
    ensures some { readings.old ≤ readings.new }
    ensures few { readings.new ≤ readings.old + 3 }
{
    let beside = look(numbers, key, at, index + 1, readings);
    if beside.high < at.high {
        return beside;
    }
    let far = look(numbers, key, beside, index + FAR, readings);
    if far.high < at.high {
        return far;
    }
    look(numbers, key, far, index + FARTHER, readings)
}

/// Looks before an index, whose number is above the key: farther and farther, up to the first number that is at most
/// the key.
fn look_earlier(
    numbers: &SearchedNumbers,
    key: u32,
    at: Between,
    index: usize,
    readings: &mut Readings,
) -> Between
    requires rises { IsNonDecreasing numbers.now }
    requires between { IsBetween numbers.now key at.low at.high at.last }
    requires room { readings.old < 2 ^ 32 - 3 }
    ensures between { IsBetween numbers.now key result.low result.high result.last }
    ensures counted { left_of result.low result.high readings.new
        ≡ after_earlier_looks numbers.now key index (left_of at.low at.high readings.old) }
    ensures less { result.high - result.low ≤ at.high - at.low }
    ensures some { readings.old ≤ readings.new }
    ensures few { readings.new ≤ readings.old + 3 }
{
    let beside = look(numbers, key, at, index.saturating_sub(1), readings);
    if beside.low > at.low {
        return beside;
    }
    let far = look(numbers, key, beside, index.saturating_sub(FAR), readings);
    if far.low > at.low {
        return far;
    }
    look(numbers, key, far, index.saturating_sub(FARTHER), readings)
}

/// What is left after a look at the index where the answer is expected, and looks to the side on which it lies:
/// nothing, where it is there.
///
/// The definition of the count looks to both sides: what isn't left any more is not looked at, so one side is enough.
#[tactic(auto, unfolding(crate::specs::Search::after_looks_near))]
fn looked_near(
    numbers: &SearchedNumbers,
    key: u32,
    index: usize,
    readings: &mut Readings,
) -> Between
    requires rises { IsNonDecreasing numbers.now }
    requires within { index < length numbers.now }
    requires small { index < 2 ^ 63 }
    requires room { readings.old ≡ 0 }
    ensures between { IsBetween numbers.now key result.low result.high result.last }
    ensures counted { left_of result.low result.high readings.new ≡ after_looks_near numbers.now key index }
    ensures some { 1 ≤ readings.new }
    ensures few { readings.new ≤ 4 }
{
    let all = Between {
        low: 0,
        high: numbers.len(),
        last: None,
    };
    let at = look(numbers, key, all, index, readings);
    if at.low > all.low {
        look_later(numbers, key, at, index, readings)
    } else {
        look_earlier(numbers, key, at, index, readings)
    }
}

/// What [`last_at_most`] finds, begun at the index where it is expected.
// Kept a call: docs/PERF.md, "Why these are calls".
#[inline(never)]
#[tactic(auto, unfolding(crate::specs::Search::comparisons_from))]
fn last_at_most_from(
    numbers: &SearchedNumbers,
    key: u32,
    index: usize,
) -> (Option<SearchHit>, Readings)
    requires rises { IsNonDecreasing numbers.now }
    requires within { index < length numbers.now }
    requires small { length numbers.now < 2 ^ 63 }
    ensures found { IfSome result.0
        (λ f. IsLastAtMost numbers.now key f.index × (f.number ≡ slice_index numbers.now f.index)) }
    ensures none { IfNone result.0 ((j : ℕ) → j < length numbers.now → key < slice_index numbers.now j) }
    ensures counted { result.1 ≡ comparisons_from numbers.now key index }
    ensures few { IsFewByGuess result.1 (length numbers.now) }
{
    let mut readings = Readings::new();
    let near = looked_near(numbers, key, index, &mut readings);
    let end = halve(numbers, key, near, &mut readings);
    match end.last {
        Some(number) => {
            let hit = SearchHit {
                index: end.low - 1,
                number,
            };
            (Some(hit), readings)
        },
        None => (None, readings),
    }
}

/// [`last_at_most`] as a function of its own.
// Kept a call: docs/PERF.md, "Why these are calls".
#[inline(never)]
fn last_at_most_apart(numbers: &SearchedNumbers, key: u32) -> (Option<SearchHit>, Readings)
    requires { IsNonDecreasing numbers.now }
    ensures found { IfSome result.0
        (λ f. IsLastAtMost numbers.now key f.index × (f.number ≡ slice_index numbers.now f.index)) }
    ensures none { IfNone result.0 ((j : ℕ) → j < length numbers.now → key < slice_index numbers.now j) }
    ensures counted { result.1 ≡ comparisons_in numbers.now key }
    ensures few { IsFew result.1 (length numbers.now) }
{
    last_at_most(numbers, key)
}

/// The last of the numbers that is at most `key`, and how many of them were compared with it, as [`last_at_most`]
/// finds it: but where the numbers lie near the straight line from the first to the last, the search begins where the
/// answer is expected on it.
///
/// It is over after a look or two where the numbers rise evenly, and after a few more where the answer is not far from
/// there; else the answer is found by halves, after at most four comparisons. So an interpolation search begins, and
/// this one keeps the bound of a search by halves.
///
/// The count is that of the search that was made: by halves, or from the index that the line through the numbers' ends
/// says.
// Kept inline: docs/PERF.md, "Why these are calls".
#[inline(always)]
pub(crate) fn last_at_most_near(
    numbers: &SearchedNumbers,
    key: u32,
) -> (Option<SearchHit>, Readings)
    requires { IsNonDecreasing numbers.now }
    ensures found { IfSome result.0
        (λ f. IsLastAtMost numbers.now key f.index × (f.number ≡ slice_index numbers.now f.index)) }
    ensures none { IfNone result.0 ((j : ℕ) → j < length numbers.now → key < slice_index numbers.now j) }
    ensures counted { IsCountByGuess numbers.now key result.1 }
{
    // Few numbers are searched in the caller's own code: docs/PERF.md, "Why these are calls".
    if numbers.end() <= FEW {
        return last_at_most(numbers, key);
    }
    match numbers.expected(key) {
        None => last_at_most_apart(numbers, key),
        Some(index) => last_at_most_from(numbers, key, index),
    }
}
