//! Tables of tracks, which a seed settles.

use mp4_plain_movies::plain_bytes::{
    put_chunks, put_durations, put_offsets, put_rendering_offsets, put_sizes, put_sync_samples,
};
use mp4_plain_movies::random::Random;
use std::alloc::{AllocError, Global};

/// Tables of a track, as lists of what their entries say.
pub struct Lists {
    /// Runs: how many samples, and how long each lasts.
    pub durations: Vec<(u32, u32)>,
    /// Runs: how many samples, and how much later than it is decoded each is shown; no table where there is none.
    pub rendering_offsets: Vec<(u32, i32)>,
    /// The numbers of the sync samples; no table where there is none.
    pub sync_samples: Vec<u32>,
    /// The first chunk, and how many samples each chunk has.
    pub chunks: Vec<(u32, u32)>,
    /// The one size of all samples; 0 where sizes are listed.
    pub size: u32,
    /// The sizes that are listed.
    pub sizes: Vec<u32>,
    /// Where each chunk begins.
    pub offsets: Vec<u64>,
    /// How many samples there are.
    pub count: u32,
    /// How long they last.
    pub duration: u32,
}

/// Taken apart here, and not at each end of each function that owns tables.
impl Drop for Lists {
    fn drop(self) {
        let Lists {
            durations,
            rendering_offsets,
            sync_samples,
            chunks,
            size: _,
            sizes,
            offsets,
            count: _,
            duration: _,
        } = self;
        drop(durations);
        drop(rendering_offsets);
        drop(sync_samples);
        drop(chunks);
        drop(sizes);
        drop(offsets);
    }
}

impl Lists {
    /// Tables of no sample.
    pub fn new(alloc: Global) -> Self {
        Lists {
            durations: Vec::new(alloc),
            rendering_offsets: Vec::new(alloc),
            sync_samples: Vec::new(alloc),
            chunks: Vec::new(alloc),
            size: 0,
            sizes: Vec::new(alloc),
            offsets: Vec::new(alloc),
            count: 0,
            duration: 0,
        }
    }

    /// So many samples that last as long as each other.
    pub fn last(&mut self, count: u32, duration: u32) -> Result<(), AllocError> {
        self.count = self.count.wrapping_add(count);
        self.duration = self.duration.wrapping_add(count.wrapping_mul(duration));
        self.durations.push((count, duration))?;
        Ok(())
    }

    /// The size of sample `k`, which counts from 0.
    pub fn size_of(&self, k: usize) -> u32 {
        match self.sizes.get(k) {
            Some(size) => *size,
            None => self.size,
        }
    }

    /// The tables, one after the other.
    pub fn put(&self, bytes: &mut Vec<u8>) -> Result<(), AllocError> {
        put_durations(bytes, &self.durations)?;
        if !self.rendering_offsets.is_empty() {
            put_rendering_offsets(bytes, &self.rendering_offsets)?;
        }
        if !self.sync_samples.is_empty() {
            put_sync_samples(bytes, &self.sync_samples)?;
        }
        put_chunks(bytes, &self.chunks)?;
        put_sizes(bytes, self.size, self.count, &self.sizes)?;
        put_offsets(bytes, &self.offsets)
    }
}

/// Lists so many sizes from `least` up to but without `least + more`.
pub fn list_sizes(
    lists: &mut Lists,
    random: &mut Random,
    count: u32,
    least: u32,
    more: u32,
) -> Result<(), AllocError> {
    lists.sizes.reserve_exact(count as usize)?;
    for _ in 0..count {
        lists.sizes.push(least.wrapping_add(random.below(more)))?;
    }
    Ok(())
}

/// Rendering offsets as frames have them that are decoded before those between: 0, 2, -1 and -1 frames in turn.
fn list_frame_offsets(lists: &mut Lists, count: u32, frame: i32) -> Result<(), AllocError> {
    for _ in 0..count / 4 {
        lists.rendering_offsets.push((1, 0))?;
        lists.rendering_offsets.push((1, frame.wrapping_mul(2)))?;
        lists.rendering_offsets.push((2, frame.wrapping_neg()))?;
    }
    Ok(())
}

/// A sync sample every so often, from the first sample on.
pub fn list_sync_samples(lists: &mut Lists, count: u32, every: u32) -> Result<(), AllocError> {
    let every = every.max(1);
    for index in 0..count.div_ceil(every) {
        let number = index.wrapping_mul(every).wrapping_add(1);
        lists.sync_samples.push(number)?;
    }
    Ok(())
}

/// Where the chunks of tracks begin that were interleaved: chunks of so many samples, from a place on, each with as
/// many bytes after it for the chunks of the others.
pub fn list_chunks(
    lists: &mut Lists,
    each: u32,
    start: u64,
    others: u64,
) -> Result<u64, AllocError> {
    let each = each.max(1);
    let mut place = start;
    let mut sample = 0usize;
    for chunk in 1..=lists.count.div_ceil(each) {
        let left = lists
            .count
            .saturating_sub(chunk.wrapping_sub(1).wrapping_mul(each));
        if chunk == 1 || left < each {
            lists.chunks.push((chunk, left.min(each)))?;
        }
        lists.offsets.push(place)?;
        for _ in 0..left.min(each) {
            place = place.wrapping_add(u64::from(lists.size_of(sample)));
            sample = sample.wrapping_add(1);
        }
        place = place.wrapping_add(others);
    }
    Ok(place)
}

/// Video as a camera writes it: frames of one duration, of three kinds, a sync sample every 30th.
pub fn camera_tables(alloc: Global, random: &mut Random, count: u32) -> Result<Lists, AllocError> {
    let mut lists = Lists::new(alloc);
    lists.last(count, 40)?;
    list_frame_offsets(&mut lists, count, 40)?;
    list_sync_samples(&mut lists, count, 30)?;
    list_sizes(&mut lists, random, count, 20, 40)?;
    Ok(lists)
}

/// Sound: frames of one duration and of sizes that differ.
pub fn sound_tables(alloc: Global, random: &mut Random, count: u32) -> Result<Lists, AllocError> {
    let mut lists = Lists::new(alloc);
    lists.last(count, 1024)?;
    list_sizes(&mut lists, random, count, 8, 8)?;
    Ok(lists)
}

/// Text: lines of durations that differ.
pub fn text_tables(alloc: Global, random: &mut Random, count: u32) -> Result<Lists, AllocError> {
    let mut lists = Lists::new(alloc);
    for _ in 0..count {
        lists.last(1, random.below(4000))?;
    }
    list_sizes(&mut lists, random, count, 10, 60)?;
    Ok(lists)
}

/// Tables that change at each sample: its duration and its offset are others than those of the one before.
pub fn turning_tables(alloc: Global, random: &mut Random, count: u32) -> Result<Lists, AllocError> {
    let mut lists = Lists::new(alloc);
    for k in 0..count {
        lists.last(1, random.below(50).wrapping_mul(2).wrapping_add(k % 2))?;
        let offset = random.below(50).wrapping_mul(2).wrapping_add(k % 2);
        lists.rendering_offsets.push((1, offset.cast_signed()))?;
    }
    list_sizes(&mut lists, random, count, 0, 4)?;
    Ok(lists)
}

/// Samples of one size, of which some are sync samples whose numbers don't rise everywhere.
pub fn falling_tables(alloc: Global, random: &mut Random, count: u32) -> Result<Lists, AllocError> {
    let mut lists = Lists::new(alloc);
    lists.last(count, 20)?;
    lists.size = 4;
    for k in 1..=count {
        let number = if random.below(8) == 0 {
            random.below(count)
        } else {
            k
        };
        lists.sync_samples.push(number)?;
    }
    Ok(lists)
}

/// Samples of one size and one duration, each a sync sample.
pub fn even_tables(alloc: Global, count: u32, size: u32) -> Result<Lists, AllocError> {
    let mut lists = Lists::new(alloc);
    lists.last(count, 512)?;
    lists.size = size;
    Ok(lists)
}
