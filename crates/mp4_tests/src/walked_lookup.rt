//! The lookup of a sample as a plain walk over the tables of its track, from their beginning at each number. It is
//! compared with `locate`, and not proved.

use mp4_boxes::StblBox;
use mp4_codec::{BoxType, Error, Result};
use mp4_samples::SamplePlace;
use mp4_table::{CttsEntry, StscEntry, StszBox, SttsEntry};

/// Where a sample lies, and when it is decoded and shown.
#[derive(Debug, Clone, Copy, PartialEq, Eq)]
pub struct WalkedPlace {
    pub offset: u64,
    pub size: u32,
    pub start_time: u64,
    pub duration: u32,
    pub rendering_offset: i32,
    pub is_sync: bool,
}

impl WalkedPlace {
    /// Whether a lookup found the same.
    pub fn is_same(&self, place: &SamplePlace) -> bool {
        *self
            == WalkedPlace {
                offset: place.offset,
                size: place.size,
                start_time: place.start_time,
                duration: place.duration,
                rendering_offset: place.rendering_offset,
                is_sync: place.is_sync,
            }
    }
}

const UNUSABLE: Error = Error::InvalidData("the tables say nothing of the sample");

/// The last entry whose first sample is at most `k`.
fn entry_of(entries: &[StscEntry], k: u32) -> Option<StscEntry> {
    let mut found = None;
    for entry in entries {
        if entry.first_sample <= k {
            found = Some(*entry);
        }
    }
    found
}

fn offset_of_chunk(stbl: &StblBox, chunk: u64) -> Option<u64> {
    let index = usize::try_from(chunk.wrapping_sub(1)).unwrap_or(usize::MAX);
    if let Some(stco) = &stbl.stco {
        return stco.entries.get(index).map(|offset| u64::from(*offset));
    }
    match &stbl.co64 {
        None => None,
        Some(co64) => co64.entries.get(index).copied(),
    }
}

fn size_of(stsz: &StszBox, k: u32) -> Option<u32> {
    if stsz.sample_size > 0 {
        return Some(stsz.sample_size);
    }
    stsz.sample_sizes.get((k as usize).wrapping_sub(1)).copied()
}

/// The sizes of the samples from `first` up to `k`, added one by one.
fn sizes_from(stsz: &StszBox, first: u32, k: u32) -> u128 {
    let mut sum = 0u128;
    for sample in first..k {
        sum = sum.wrapping_add(u128::from(size_of(stsz, sample).unwrap_or(0)));
    }
    sum
}

/// Offset and size.
fn bytes_of(stbl: &StblBox, k: u32) -> Result<Option<(u64, u32)>> {
    let Some(entry) = entry_of(stbl.stsc.entries.as_slice(), k) else {
        return Err(UNUSABLE);
    };
    let before = k.wrapping_sub(entry.first_sample);
    let (Some(chunks), Some(earlier)) = (
        before.checked_div(entry.samples_per_chunk),
        before.checked_rem(entry.samples_per_chunk),
    ) else {
        return Err(UNUSABLE);
    };
    let chunk = u64::from(entry.first_chunk).wrapping_add(u64::from(chunks));
    if chunk == 0 || chunk > u64::from(u32::MAX) {
        return Err(UNUSABLE);
    }
    let (Some(offset), Some(size)) = (offset_of_chunk(stbl, chunk), size_of(&stbl.stsz, k)) else {
        return Ok(None);
    };
    let place = u128::from(offset).wrapping_add(sizes_from(&stbl.stsz, k.wrapping_sub(earlier), k));
    match u64::try_from(place) {
        Ok(place) => Ok(Some((place, size))),
        Err(_) => Err(UNUSABLE),
    }
}

/// Start and duration.
fn times_of(runs: &[SttsEntry], k: u32) -> Option<(u64, u32)> {
    let mut left = u64::from(k).wrapping_sub(1);
    let mut start = 0u64;
    for run in runs {
        let count = u64::from(run.sample_count);
        let delta = u64::from(run.sample_delta);
        if left < count {
            return Some((
                start.wrapping_add(left.wrapping_mul(delta)),
                run.sample_delta,
            ));
        }
        left = left.wrapping_sub(count);
        start = start.wrapping_add(count.wrapping_mul(delta));
    }
    None
}

fn rendering_offset_of(runs: &[CttsEntry], k: u32) -> i32 {
    let mut left = u64::from(k).wrapping_sub(1);
    for run in runs {
        let count = u64::from(run.sample_count);
        if left < count {
            return run.sample_offset;
        }
        left = left.wrapping_sub(count);
    }
    0
}

/// What the tables say of sample `k`.
pub fn walk(stbl: &StblBox, track_id: u32, k: u32) -> Result<Option<WalkedPlace>> {
    if k == 0 {
        return Err(UNUSABLE);
    }
    let Some((offset, size)) = bytes_of(stbl, k)? else {
        return Ok(None);
    };
    let Some((start_time, duration)) = times_of(stbl.stts.entries.as_slice(), k) else {
        return Err(Error::EntryInStblNotFound(track_id, BoxType::SttsBox, k));
    };
    let rendering_offset = match &stbl.ctts {
        None => 0,
        Some(ctts) => rendering_offset_of(ctts.entries.as_slice(), k),
    };
    let is_sync = match &stbl.stss {
        None => true,
        Some(stss) => stss.entries.as_slice().contains(&k),
    };
    Ok(Some(WalkedPlace {
        offset,
        size,
        start_time,
        duration,
        rendering_offset,
        is_sync,
    }))
}
