//! Random tables of tracks, from fixed seeds.

use crate::plain_tables::{Offsets, Tables, written_track};
use crate::random::Random;
use std::alloc::{AllocError, Global};

/// Tables that a seed settles.
#[derive(Drop)]
pub struct RandomTables {
    durations: Vec<(u32, u32)>,
    rendering_offsets: Vec<(u32, i32)>,
    sync_samples: Vec<u32>,
    chunks: Vec<(u32, u32)>,
    sizes: Vec<u32>,
    offsets: Vec<u64>,
}

impl RandomTables {
    /// Tables without an entry.
    pub fn new(alloc: Global) -> Self {
        RandomTables {
            durations: Vec::new(alloc),
            rendering_offsets: Vec::new(alloc),
            sync_samples: Vec::new(alloc),
            chunks: Vec::new(alloc),
            sizes: Vec::new(alloc),
            offsets: Vec::new(alloc),
        }
    }

    /// The tables, some of them left out as the seed says.
    pub fn with<'a>(&'a self, random: &mut Random, count: u32) -> Tables<'a> {
        let size = if random.chance() { 0 } else { random.few() };
        Tables {
            durations: self.durations.as_slice(),
            rendering_offsets: if random.chance() {
                Some(self.rendering_offsets.as_slice())
            } else {
                None
            },
            sync_samples: if random.chance() {
                Some(self.sync_samples.as_slice())
            } else {
                None
            },
            chunks: self.chunks.as_slice(),
            size,
            count: if size == 0 {
                u32::try_from(self.sizes.len()).unwrap_or(0)
            } else {
                count
            },
            sizes: self.sizes.as_slice(),
            offsets: Offsets::Far(self.offsets.as_slice()),
        }
    }
}

/// One chunk more, with so many samples.
fn put_chunk(
    tables: &mut RandomTables,
    random: &mut Random,
    chunk: u32,
    count: u32,
) -> Result<(), AllocError> {
    tables.chunks.push((chunk, count))?;
    tables.offsets.push(u64::from(random.next()))?;
    tables.durations.push((count, random.few()))?;
    if random.chance() {
        tables.durations.push((0, random.few()))?;
    }
    let late = i32::from(random.byte()).wrapping_sub(100);
    tables.rendering_offsets.push((1, late))?;
    tables.rendering_offsets.push((count.wrapping_sub(1), 7))?;
    Ok(())
}

/// The sizes of so many samples, of which some are sync samples.
fn put_samples(
    tables: &mut RandomTables,
    random: &mut Random,
    count: u32,
) -> Result<(), AllocError> {
    for sample in 1..=count {
        tables.sizes.push(random.few())?;
        if random.chance() {
            tables.sync_samples.push(sample)?;
        }
    }
    Ok(())
}

/// Puts the tables of chunks that have one to four samples each; the answer is how many there are.
pub fn put_all(tables: &mut RandomTables, random: &mut Random) -> Result<u32, AllocError> {
    let mut total = 0u32;
    for chunk in 1..=random.below(7).wrapping_add(1) {
        let count = random.few().wrapping_add(1);
        put_chunk(tables, random, chunk, count)?;
        total = total.wrapping_add(count);
    }
    put_samples(tables, random, total)?;
    Ok(total)
}

/// Makes one of the tables contradict the others.
pub fn break_one(
    tables: &mut RandomTables,
    random: &mut Random,
    count: u32,
) -> Result<(), AllocError> {
    match random.below(9) {
        0 => drop(tables.durations.pop()),
        1 => drop(tables.rendering_offsets.pop()),
        2 => drop(tables.sizes.pop()),
        3 => drop(tables.offsets.pop()),
        4 => tables.sync_samples.push(random.below(count))?,
        5 => tables.offsets.push(u64::MAX)?,
        6 => tables.durations.push((u32::MAX, u32::MAX))?,
        7 => tables.chunks.push((9, random.few()))?,
        _ => tables.chunks.insert(0, (0, random.few()))?,
    }
    Ok(())
}

/// The payload of a track of random tables, of which one in four has a broken one; most chunks lie in the first
/// thousand bytes.
pub fn random_track(alloc: Global, random: &mut Random) -> Result<Vec<u8>, AllocError> {
    let mut tables = RandomTables::new(alloc);
    let count = put_all(&mut tables, random)?;
    if random.few() == 0 {
        break_one(&mut tables, random, count)?;
    }
    for offset in tables.offsets.iter_mut() {
        if random.few() > 0 {
            *offset %= 1000;
        }
    }
    written_track(alloc, &tables.with(random, count))
}
