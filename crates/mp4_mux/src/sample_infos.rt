//! What the tables of a track say of all its samples, in little memory.

ghost use Rattle.std.specs.Prelude.{◌≡◌, ◌<◌, ◌-◌, ◌^◌, ◌==◌, [], ◌∷◌, ◌++◌, List, length, map, OnOk, OnErr};
ghost use Rattle.mp4_mux.specs.declared.sample_info.SampleInfo.{SampleInfo};
ghost use Rattle.mp4_mux.specs.Columns.{values_of};
ghost use Rattle.mp4_mux.specs.SampleColumns.{infos_of, AreAsMany};

use crate::column::Column;
use crate::sample_info::SampleInfo;
use mp4_codec::InRange;
use std::alloc::{AllocError, Global};
use std::marker::Model;

/// A list of less than 2^32 samples, seen as a list of what the tables say of each. Each kind of number is in a column
/// of its own, of at most 4 bytes a sample: so a sample takes 16 bytes at most, and 8 where its duration and whether it
/// is a sync sample are as those of the sample before it. (A column has room for 64 runs more, of 8 bytes each.)
#[derive(Debug, Drop)]
pub struct SampleInfos {
    sizes: Column<u32>,
    durations: Column<u32>,
    rendering_offsets: Column<i32>,
    syncs: Column<bool>,
}

impl Model for SampleInfos {
    ghost Value = { List SampleInfo };

    ghost view = { λ s. infos_of (values_of s.sizes) (values_of s.durations) (values_of s.rendering_offsets)
        (values_of s.syncs) };

    ghost invariant = { λ s. AreAsMany (values_of s.sizes) (values_of s.durations) (values_of s.rendering_offsets)
        (values_of s.syncs) };
}

impl SampleInfos {
    /// No sample.
    pub fn new(alloc: Global) -> Self
        ensures { result ≡ [] }
    {
        SampleInfos {
            sizes: Column::new(alloc, 0),
            durations: Column::new(alloc, 0),
            rendering_offsets: Column::new(alloc, 0),
            syncs: Column::new(alloc, false),
        }
    }

    /// How many there are.
    pub fn len(&self) -> u32
        ensures { result ≡ length self.now }
    {
        self.sizes.len()
    }

    /// Whether there is none.
    pub fn is_empty(&self) -> bool
        ensures { result ≡ (length self.now == 0) }
    {
        self.len() == 0
    }

    /// Adds one at the end. An `Err` changes nothing.
    #[inline(always)]
    pub fn push(&mut self, sample: SampleInfo) -> Result<(), AllocError>
        requires { length self.old < 2 ^ 32 - 1 }
        ensures ok { OnOk result (self.new ≡ self.old ++ sample ∷ []) }
        ensures err { OnErr result (self.new ≡ self.old) }
    {
        // For the proof alone, which learns the range of its numbers.
        sample.in_range();
        self.sizes.push(sample.size)?;
        if let Err(e) = self.durations.push(sample.duration) {
            let _ = self.sizes.pop();
            return Err(e);
        }
        if let Err(e) = self.rendering_offsets.push(sample.rendering_offset) {
            let _ = self.sizes.pop();
            let _ = self.durations.pop();
            return Err(e);
        }
        if let Err(e) = self.syncs.push(sample.is_sync) {
            let _ = self.sizes.pop();
            let _ = self.durations.pop();
            let _ = self.rendering_offsets.pop();
            return Err(e);
        }
        Ok(())
    }

    /// Takes the last one.
    pub fn pop(&mut self) -> SampleInfo
        requires { 0 < length self.old }
        ensures { self.old ≡ self.new ++ result ∷ [] }
    {
        let size = self.sizes.pop();
        let duration = self.durations.pop();
        let rendering_offset = self.rendering_offsets.pop();
        let is_sync = self.syncs.pop();
        SampleInfo {
            size,
            duration,
            rendering_offset,
            is_sync,
        }
    }

    /// How many bytes each has.
    pub fn sizes(&self) -> &Column<u32>
        ensures { values_of result.now ≡ map (λ s. s.size) self.now }
    {
        &self.sizes
    }

    /// How long each lasts, in ticks of the track.
    pub fn durations(&self) -> &Column<u32>
        ensures { values_of result.now ≡ map (λ s. s.duration) self.now }
    {
        &self.durations
    }

    /// How many ticks later than it is decoded each is shown.
    pub fn rendering_offsets(&self) -> &Column<i32>
        ensures { values_of result.now ≡ map (λ s. s.rendering_offset) self.now }
    {
        &self.rendering_offsets
    }

    /// Whether each is a sync sample.
    pub fn syncs(&self) -> &Column<bool>
        ensures { values_of result.now ≡ map (λ s. s.is_sync) self.now }
    {
        &self.syncs
    }
}
