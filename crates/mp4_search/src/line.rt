//! Where a number is expected among numbers that rise.

ghost use Rattle.std.specs.Prelude.{◌≡◌, ℕ, ◌+◌, ◌*◌, ◌^◌, ◌<◌, ◌≤◌, ◌/◌, ◌%◌, max, length, slice_index, IfSome};
ghost use Rattle.mp4_search.specs.Guess.{is_near, line_of, line_through, place_on, places_for, root, spread_place};
ghost use Rattle.mp4_search.specs.Guess.{strays};

/// So many numbers are found by halves as soon as by a guess.
pub(crate) const FEW: usize = 7;

/// How far apart the places are at which numbers are compared with their line, in parts of 2^32 of how many numbers
/// there are, beginning anew past the last. It is the golden section: it spreads any number of places evenly, and no
/// numbers that repeat keep step with it.
const STEP: u32 = 0x9e37_79b9;

/// The root of a number, rounded down to a power of 2.
#[tactic(auto, unfolding(crate::specs::Guess::root))]
fn root_of(number: usize) -> usize
    requires { 0 < number }
    ensures value { result ≡ root number }
    ensures small { result < 2 ^ 32 }
{
    1 << (number.ilog2() / 2)
}

/// The index that lies so many parts of 2^32 of the way through so many numbers.
fn place_at(len: usize, part: u32) -> usize
    requires { 0 < len }
    ensures value { result ≡ len * part / 2 ^ 32 }
    ensures within { result < len }
{
    ((len as u128 * u128::from(part)) >> 32) as usize
}

/// How many places so many numbers go on for each 1 that they rise, times 2^32.
///
/// It is rounded up, so that a number of the line itself isn't placed before its own place.
#[tactic(auto, unfolding(crate::specs::Guess::places_for))]
fn places_for(len: usize, rise: u32) -> u64
    requires { 0 < len }
    ensures value { result ≡ places_for len rise }
    ensures small { result ≤ 2 ^ 32 + 1 }
{
    if rise == 0 {
        return 0;
    }
    let rise = u64::from(rise);
    ((len - 1) as u64).min(rise) * (1 << 32) / rise + 1
}

/// The straight line from the first to the last of some numbers, by which the place of a number among them is guessed:
/// a guess says where a search begins, and nothing of what it finds.
#[derive(Debug, Clone, Copy)]
pub(crate) struct Line {
    first: u32,
    /// How many places the numbers go on for each 1 that they rise, times 2^32; it is at most 2^32 + 1.
    places: u64,
}

impl Line {
    /// The line through the first and the last of these numbers.
    #[tactic(auto, unfolding(crate::specs::Guess::line_through))]
    fn through_ends(numbers: &[u32]) -> Self
        requires { 0 < length numbers.now }
        ensures line { result ≡ line_through numbers.now }
        ensures small { result.places ≤ 2 ^ 32 + 1 }
    {
        let first = numbers[0];
        let last = numbers[numbers.len() - 1];
        let places = places_for(numbers.len(), last.saturating_sub(first));
        Line { first, places }
    }

    /// Whether the numbers lie near the line at three quarters at least of so many places, spread over all. Where some
    /// are far from it, as long samples among many alike make them, most guesses are good all the same.
    fn is_near(self, numbers: &[u32], count: u32) -> bool
        requires some { 0 < length numbers.now }
        requires small { self.places ≤ 2 ^ 32 + 1 }
        ensures { result ≡ is_near self numbers.now count }
    {
        let mut looked = 0;
        let mut strayed = 0;
        while looked < count {
            looked += 1;
            if self.strays(numbers, place_at(numbers.len(), looked.wrapping_mul(STEP))) {
                if strayed == count / 4 {
                    return false;
                }
                strayed += 1;
            }
        }
        true
    }

    /// Whether the number at an index is farther from its place on the line than three fifths of the root of how many
    /// numbers there are. Numbers that rise by even steps don't stray so far, nor do most that rise by steps of chance.
    /// Those that do are found by halves as soon, since most looks near the guess would be in vain.
    #[tactic(auto, unfolding(crate::specs::Guess::strays))]
    fn strays(self, numbers: &[u32], index: usize) -> bool
        requires within { index < length numbers.now }
        requires small { self.places ≤ 2 ^ 32 + 1 }
        ensures { result ≡ strays self numbers.now index }
    {
        let distance = u128::from(self.place(numbers[index]).abs_diff(index) as u64);
        distance * distance > numbers.len() as u128 * 9 / 25
    }

    /// The place of a number on the line: its own where the numbers rise evenly, else any.
    #[tactic(auto, unfolding(crate::specs::Guess::place_on))]
    pub fn place(self, number: u32) -> usize
        requires small { self.places ≤ 2 ^ 32 + 1 }
        ensures value { result ≡ place_on self number }
        ensures small { result < 2 ^ 32 }
    {
        (u64::from(number.saturating_sub(self.first)) * self.places >> 32) as usize
    }
}

/// The line of these numbers, where they are not few and lie near it: else a guess would only add to a search by
/// halves. Some of the numbers are read for it, which counts as no reading of a search.
#[tactic(auto, unfolding(crate::specs::Guess::line_of))]
pub(crate) fn line_of(numbers: &[u32]) -> Option<Line>
    ensures line { result ≡ line_of numbers.now }
    ensures small { IfSome result (λ line. line.places ≤ 2 ^ 32 + 1) }
{
    if numbers.len() <= FEW {
        return None;
    }
    let line = Line::through_ends(numbers);
    if line.is_near(numbers, root_of(numbers.len()).max(FEW) as u32) {
        Some(line)
    } else {
        None
    }
}
