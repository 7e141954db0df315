//! The search in numbers that rise, begun at a guess, beside the search by halves: both find the same. The
//! numbers lie near a straight line, by which the place of a number among them is guessed, and stray from it
//! for a stretch.

ghost use Rattle.std.specs.Prelude.{IfSome};
ghost use Rattle.std.specs.List.Sorted.{IsNonDecreasing};

use crate::asserts::{assert_that, at_least};
use crate::random_tracks::are_few;
use mp4_media::searching::{
    ByGuess, ByHalves, LookedUp, Readings, Search, SearchHit, SearchedNumbers,
};
use mp4_plain_movies::random::Random;
use std::alloc::Global;
use std::process::Abort;

/// These numbers to be searched, if they rise.
fn searched(numbers: Vec<u32>) -> Option<SearchedNumbers>
    ensures { IfSome result (λ s. IsNonDecreasing s) }
{
    if !numbers.as_slice().is_sorted() {
        return None;
    }
    let mut numbers = numbers;
    // They are in order: sorting moves none, and says so in its contract.
    numbers.sort_unstable();
    Some(SearchedNumbers::new(numbers))
}

/// What is looked up in here: some numbers alone.
#[derive(Clone, Copy)]
struct OneList;

impl LookedUp for OneList {}

/// What a way of searching finds, and how many numbers it compared.
fn found<S: Search>(numbers: &SearchedNumbers, key: u32) -> (Option<SearchHit>, u32)
    requires { IsNonDecreasing numbers.now }
{
    let mut readings = Readings::of(&OneList);
    let found = S::last_at_most(numbers, key, &mut readings);
    (found, readings.count())
}

/// How many keys were searched by a guess with so many comparisons.
#[derive(Clone, Copy)]
struct Counts {
    /// One comparison or two.
    up_to_two: u32,
    more_than_one: u32,
    more_than_two: u32,
    more_than_three: u32,
    /// Fewer than the search by halves makes.
    fewer: u32,
    /// More than that.
    more: u32,
}

/// No key.
const NO_KEYS: Counts = Counts {
    up_to_two: 0,
    more_than_one: 0,
    more_than_two: 0,
    more_than_three: 0,
    fewer: 0,
    more: 0,
};

/// Adds 1 to a count where a statement holds.
fn count_if(count: &mut u32, statement: bool) {
    *count = count.wrapping_add(u32::from(statement));
}

impl Counts {
    /// Counts a key.
    fn add(&mut self, by_guess: u32, by_halves: u32) {
        count_if(&mut self.up_to_two, by_guess <= 2);
        count_if(&mut self.more_than_one, by_guess > 1);
        count_if(&mut self.more_than_two, by_guess > 2);
        count_if(&mut self.more_than_three, by_guess > 3);
        count_if(&mut self.fewer, by_guess < by_halves);
        count_if(&mut self.more, by_guess > by_halves);
    }

    /// Ends the test unless each of them is reached by many keys.
    fn are_reached(&self, rt: &impl Abort) {
        for (keys, count, least) in [
            (
                "keys with more than one comparison",
                self.more_than_one,
                20_000,
            ),
            ("keys with more than two", self.more_than_two, 20_000),
            ("keys with more than three", self.more_than_three, 20_000),
            ("keys with fewer than by halves", self.fewer, 10_000),
            ("keys with more than by halves", self.more, 1000),
        ] {
            at_least(rt, keys, count, least);
        }
    }
}

/// Whether both searches find the same for a key, and the one by a guess compares few numbers.
fn is_found(numbers: &SearchedNumbers, key: u32, counts: &mut Counts) -> bool
    requires { IsNonDecreasing numbers.now }
{
    let (halved, by_halves) = found::<ByHalves>(numbers, key);
    let (guessed, by_guess) = found::<ByGuess>(numbers, key);
    counts.add(by_guess, by_halves);
    guessed == halved && are_few(by_guess, numbers.len())
}

/// The same for each of these keys.
fn are_found(numbers: &SearchedNumbers, keys: &[u32], counts: &mut Counts) -> bool
    requires { IsNonDecreasing numbers.now }
{
    let mut all = true;
    for key in keys {
        all = all && is_found(numbers, *key, counts);
    }
    all
}

/// Numbers that rise evenly, but for those of a stretch in the middle: these are what the numbers so many
/// places after them would be, or before them.
#[derive(Clone, Copy)]
struct Stray {
    count: u32,
    first: u32,
    step: u32,
    /// So many numbers stray.
    stretch: u32,
    places: u32,
    /// Whether they are too large, so that each is expected after its place.
    is_ahead: bool,
}

impl Stray {
    /// The index of the first number that strays.
    fn start(&self) -> u32 {
        // Off the middle and the quarters, where the numbers may be compared with their line.
        (self.count / 7).wrapping_mul(3)
    }

    /// The index after the last.
    fn end(&self) -> u32 {
        self.start().wrapping_add(self.stretch)
    }

    /// The place that the number at an index has on the line: the numbers still rise where the stretch begins
    /// and ends.
    fn place(&self, index: u32) -> u32 {
        if index < self.start() || index >= self.end() {
            index
        } else if self.is_ahead {
            index.wrapping_add(self.places).min(self.end())
        } else {
            index.wrapping_sub(self.places).max(self.start())
        }
    }

    /// The number at an index.
    fn number(&self, index: u32) -> u32 {
        self.place(index)
            .wrapping_mul(self.step)
            .wrapping_add(self.first)
    }

    /// All numbers.
    fn numbers(&self, rt: &impl Abort, alloc: Global) -> Vec<u32> {
        let mut numbers = Vec::new(alloc);
        for index in 0..self.count {
            numbers.push(self.number(index)).expect(rt, "memory");
        }
        numbers
    }

    /// Keys in the stretch and beside it: each number there, and those right before and after it.
    fn keys_near(&self, rt: &impl Abort, alloc: Global) -> Vec<u32> {
        let mut keys = Vec::new(alloc);
        for index in self.start().wrapping_sub(300)..self.end().wrapping_add(300) {
            let number = self.number(index);
            let near = [number.wrapping_sub(1), number, number.wrapping_add(1)];
            keys.extend_from_slice(&near).expect(rt, "memory");
        }
        keys
    }

    /// So many keys anywhere, and the least and the largest.
    fn keys_anywhere(&self, rt: &impl Abort, alloc: Global, count: u32) -> Vec<u32> {
        let mut random = Random::new(u64::from(self.places));
        let mut keys = vec![in alloc; 0, u32::MAX].expect(rt, "memory");
        for _ in 0..count {
            let key = self.number(random.below(self.count));
            keys.push(key).expect(rt, "memory");
        }
        keys
    }
}

/// Whether keys anywhere among some numbers are found, nearly all by one comparison or two: so they are where
/// guesses are made, and by halves they aren't.
fn guesses_are_made(numbers: &SearchedNumbers, keys: &[u32]) -> bool
    requires { IsNonDecreasing numbers.now }
{
    let mut counts = NO_KEYS;
    are_found(numbers, keys, &mut counts) && counts.up_to_two > 180
}

/// Whether keys are found alike in and beside the stretch where numbers stray so, and anywhere among them.
fn strays_are_found(rt: &impl Abort, alloc: Global, stray: &Stray, counts: &mut Counts) -> bool {
    let near = stray.keys_near(rt, alloc);
    let anywhere = stray.keys_anywhere(rt, alloc, 200);
    match searched(stray.numbers(rt, alloc)) {
        None => false,
        Some(numbers) => {
            are_found(&numbers, &near, counts) && guesses_are_made(&numbers, &anywhere)
        }
    }
}

/// Whether numbers that stray by so many places to either side are found alike: numbers that are close, and
/// numbers that go nearly as far as 32 bits do.
fn both_sides_are_found(rt: &impl Abort, alloc: Global, places: u32, counts: &mut Counts) -> bool {
    let mut all = true;
    for (first, step) in [(5, 10), (1, 10_500)] {
        for is_ahead in [false, true] {
            let stray = Stray {
                count: 400_000,
                first,
                step,
                stretch: 600,
                places,
                is_ahead,
            };
            all = all && strays_are_found(rt, alloc, &stray, counts);
        }
    }
    all
}

/// A search looks where its key is expected, and then 1, 16 and 256 places on or back: the numbers are
/// expected so many places from where they are, and one fewer or more.
#[test]
fn numbers_that_stray_from_their_line_are_found_as_by_halves(rt: HostRuntime) {
    let mut counts = NO_KEYS;
    for places in [0, 1, 2, 15, 16, 17, 255, 256, 257] {
        let all = both_sides_are_found(&rt, rt.alloc(), places, &mut counts);
        assert_that(&rt, places, all);
    }
    counts.are_reached(&rt);
}

/// So many numbers, each of which is above the one before by less than `steps`, or equal to it.
fn by_chance(
    rt: &impl Abort,
    alloc: Global,
    random: &mut Random,
    count: u32,
    steps: u32,
) -> Vec<u32> {
    let mut numbers = Vec::new(alloc);
    let mut number = random.below(steps);
    for _ in 0..count {
        numbers.push(number).expect(rt, "memory");
        number = number.wrapping_add(random.below(steps));
    }
    numbers
}

/// So many keys up past the last of some numbers.
fn keys_up_to(
    rt: &impl Abort,
    alloc: Global,
    random: &mut Random,
    numbers: &[u32],
    count: u32,
) -> Vec<u32> {
    let past = numbers.last().copied().unwrap_or(0).wrapping_add(3);
    let mut keys = Vec::new(alloc);
    for _ in 0..count {
        keys.push(random.below(past)).expect(rt, "memory");
    }
    keys
}

/// Whether so many numbers of chance are found alike.
fn chance_is_found(
    rt: &impl Abort,
    alloc: Global,
    seed: u64,
    count: u32,
    counts: &mut Counts,
) -> bool {
    let mut random = Random::new(seed);
    let steps = random.few().wrapping_mul(6).wrapping_add(2);
    let numbers = by_chance(rt, alloc, &mut random, count, steps);
    let keys = keys_up_to(rt, alloc, &mut random, &numbers, 200);
    match searched(numbers) {
        None => false,
        Some(numbers) => are_found(&numbers, &keys, counts),
    }
}

/// Numbers that rise by steps of chance are nowhere on their line and mostly near it. Tables of few numbers
/// are among them, of one and of none.
#[test]
fn numbers_that_rise_by_chance_are_found_as_by_halves(rt: HostRuntime) {
    let mut counts = NO_KEYS;
    for seed in 0..300 {
        let count = if seed < 100 { seed } else { 5000 };
        let is_found = chance_is_found(&rt, rt.alloc(), seed.into(), count, &mut counts);
        assert_that(&rt, seed, is_found);
    }
    counts.are_reached(&rt);
}
