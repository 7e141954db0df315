//! Which numbers are among some numbers, by a bit for each of those below a bound.

ghost use Rattle.std.specs.Prelude.{◌≡◌, ℕ, ◌+◌, ◌-◌, ◌*◌, ◌^◌, ◌<◌, ◌≤◌, ◌==◌, ◌||◌, false, [], length};
ghost use Rattle.std.specs.Prelude.{IfOk, slice_index};
ghost use Rattle.std.specs.List.{All};
ghost use Rattle.mp4_search.specs.BitSet.{AreBitsOf, KnowsUpTo, bit_of, has_bit, looks_at_bit};

use crate::counted::Readings;
use std::alloc::{AllocError, Global};

/// How many bits a word has.
const BITS: u32 = 64;

/// Numbers in no order, of which those below a bound have a bit each. It stands for a list of them that is searched,
/// where they don't rise.
#[derive(Debug, Drop)]
pub struct BitSet {
    words: Vec<u64>,
    /// Whether each of the numbers has its bit.
    is_whole: bool,
}

impl BitSet {
    /// No number has a bit, and nothing is said of any. It takes no memory.
    pub fn new(alloc: Global) -> Self
        ensures bits { result.words.items ≡ [] }
        ensures whole { result.is_whole ≡ false }
    {
        BitSet {
            words: Vec::new(alloc),
            is_whole: false,
        }
    }

    /// A bit for each number up to the largest of these, and up to about `limit` where one of them is larger: 8 bytes
    /// for each 64.
    pub fn of(alloc: Global, numbers: &[u32], limit: usize) -> Result<Self, AllocError>
        ensures bits { IfOk result (AreBitsOf numbers.now) }
        ensures known { IfOk result (KnowsUpTo limit) }
    {
        let largest = largest_of(numbers) as usize;
        let mut words = vec![in alloc; 0u64; largest.min(limit) / BITS as usize + 1]?;
        for number in numbers {
            set_bit(words.as_mut_slice(), *number);
        }
        Ok(BitSet {
            words,
            is_whole: largest <= limit,
        })
    }

    /// Whether `k` is one of the numbers: by its bit, which takes a look at one word. Where `k` has none it is none of
    /// them, if each of them has one; else it isn't known.
    pub(crate) fn contains(&self, k: u32, readings: &mut Readings) -> Option<bool>
        requires room { readings.old < 2 ^ 32 - 1 }
        ensures known { result ≡ bit_of self.now k }
        ensures counted { readings.new ≡ readings.old + looks_at_bit self.now k }
    {
        let index = (k / BITS) as usize;
        if index < self.words.len() {
            let word = self.read(index, readings);
            Some((word >> (k % BITS)) % 2 == 1)
        } else if self.is_whole {
            Some(false)
        } else {
            None
        }
    }

    /// The word at an index, which counts from 0. This counts as one reading.
    fn read(&self, index: usize, readings: &mut Readings) -> u64
        requires within { index < length self.now.words.items }
        requires room { readings.old < 2 ^ 32 - 1 }
        ensures word { result ≡ slice_index self.now.words.items index }
        ensures counted { readings.new ≡ readings.old + 1 }
    {
        readings.add_one();
        self.words[index]
    }
}

/// The largest of some numbers, and 0 where there is none.
fn largest_of(numbers: &[u32]) -> u32
    ensures { All (λ n. n ≤ result) numbers.now }
{
    let mut largest: u32 = 0;
    for number in numbers {
        largest = largest.max(*number);
    }
    largest
}

/// Sets the bit of a number, if it has one.
fn set_bit(words: &mut [u64], number: u32)
    ensures len { length words.new ≡ length words.old }
    ensures set { (k : ℕ) → k < 64 * length words.old → has_bit words.new k ≡ (has_bit words.old k || (number == k)) }
{
    let index = (number / BITS) as usize;
    if index < words.len() {
        words[index] |= 1u64 << (number % BITS);
    }
}
