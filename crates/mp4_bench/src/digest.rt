//! A digest of what a job answers.

use mp4_media::SampleRef;

/// An odd number whose bits are spread evenly.
const FACTOR: u64 = 0x9e37_79b9_7f4a_7c15;

/// A digest of all numbers and bytes that were added to it, in their order.
#[derive(Drop)]
pub struct Digest {
    value: u64,
}

impl Digest {
    pub fn new() -> Self {
        Digest { value: FACTOR }
    }

    pub fn value(&self) -> u64 {
        self.value
    }

    pub fn add(&mut self, number: u64) {
        self.value = (self.value ^ number).wrapping_mul(FACTOR).rotate_left(29);
    }

    /// Adds bytes, eight at a time, and how many they are.
    pub fn add_bytes(&mut self, bytes: &[u8]) {
        let (words, rest) = bytes.as_chunks::<8>();
        for word in words {
            self.add(u64::from_le_bytes(*word));
        }
        let mut last = 0u64;
        for byte in rest {
            last = last.wrapping_mul(256) ^ u64::from(*byte);
        }
        self.add(last);
        self.add(bytes.len() as u64);
    }

    /// Adds a sample, and its bytes.
    pub fn add_sample(&mut self, sample: &SampleRef) {
        self.add(sample.start_time);
        self.add(u64::from(sample.duration));
        self.add(u64::from(sample.rendering_offset.cast_unsigned()));
        self.add(u64::from(sample.is_sync));
        self.add_bytes(sample.bytes);
    }
}
