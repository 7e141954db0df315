//! The search among indexes of which the first have something that all others lack.

ghost use Rattle.std.specs.Prelude.{◌≡◌, ℕ, Bool, ◌+◌, ◌^◌, ◌<◌, ◌≤◌};
ghost use Rattle.mp4_search.specs.Digits.{digits};
ghost use Rattle.mp4_search.specs.Partition.{ArePartedAt, IsParted, asked_in};

use crate::counted::Readings;

/// Values of which each is asked for by its index, which counts from 0: the first of them have something that all
/// others lack, as those have that come before a time where times rise.
pub trait Parted {
    /// How many there are.
    ghost len: { Self → ℕ };

    /// Which of them have it.
    ghost has: { Self → ℕ → Bool };

    /// Whether the value at an index has it.
    fn has(&self, index: usize) -> bool
        requires { index < len self.now }
        ensures { result ≡ has self.now index };
}

/// How many of the first `n` values have it: the one in the middle of those that are left is asked for, until none is
/// left. Each that is asked for is counted.
pub fn partition_point<P: Parted>(values: &P, n: usize, readings: &mut Readings) -> usize
    requires within { n ≤ P.len values.now }
    requires parted { IsParted (P.has values.now) n }
    requires small { n < 2 ^ 63 }
    requires room { readings.old < 2 ^ 31 }
    ensures point { ArePartedAt (P.has values.now) n result }
    ensures counted { readings.new ≡ readings.old + asked_in (P.has values.now) n }
    ensures few { readings.new ≤ readings.old + digits n }
{
    let mut low = 0;
    let mut high = n;
    while low < high {
        let middle = (low + high) / 2;
        readings.add_one();
        if values.has(middle) {
            low = middle + 1;
        } else {
            high = middle;
        }
    }
    low
}
