//! The tables of a track as a walk over its samples goes along them.

// The steps of a walk are kept inline: docs/PERF.md, "Why these are calls".

ghost use Rattle.std.specs.Prelude.{◌≡◌, ◌-◌, ◌≤◌, slice_get};
ghost use Rattle.mp4_samples.specs.Tables.{chunk_offsets, sizes};
ghost use Rattle.mp4_lookup.specs.Tables.{AreTables, walked};

use crate::index::{numbers_of_stss, runs_of_ctts};
use crate::track::Mp4Track;
use mp4_table::{CttsEntry, StscEntry, SttsEntry};

/// The number at an index, which counts from 0.
#[inline(always)]
fn number_at(numbers: &[u32], index: usize) -> Option<u32>
    ensures { result ≡ slice_get numbers.now index }
{
    numbers.get(index).copied()
}

/// The same of numbers of 64 bits.
#[inline(always)]
fn long_number_at(numbers: &[u64], index: usize) -> Option<u64>
    ensures { result ≡ slice_get numbers.now index }
{
    numbers.get(index).copied()
}

/// A track, and its tables as slices, which a step of a walk then needn't look for.
#[derive(Clone, Copy)]
pub struct Tables<'t> {
    pub track: &'t Mp4Track,
    /// The entries of stsc.
    pub entries: &'t [StscEntry],
    /// Where the chunks begin, as stco says; none without it.
    pub stco: &'t [u32],
    /// Where they begin as co64 says, where there is no stco; else none.
    pub co64: &'t [u64],
    /// The one size of all samples; 0 where sizes are listed.
    pub sample_size: u32,
    /// The sizes that are listed.
    pub sample_sizes: &'t [u32],
    /// The runs of stts.
    pub durations: &'t [SttsEntry],
    /// The runs of ctts.
    pub rendering_offsets: &'t [CttsEntry],
    /// Whether there is an stss, without which each sample is a sync sample.
    pub has_sync_numbers: bool,
    /// The numbers of stss.
    pub sync_numbers: &'t [u32],
}

impl<'t> Tables<'t> {
    /// The tables of a track.
    #[inline(always)]
    pub fn of(track: &'t Mp4Track) -> Self
        ensures tables { AreTables result }
        ensures track { result.track.now ≡ track.now }
    {
        let stbl = &track.trak.mdia.minf.stbl;
        let (stco, co64): (&[u32], &[u64]) = match (&stbl.stco, &stbl.co64) {
            (Some(stco), _) => (stco.entries.as_slice(), &[]),
            (None, Some(co64)) => (&[], co64.entries.as_slice()),
            (None, None) => (&[], &[]),
        };
        Tables {
            track,
            entries: stbl.stsc.entries.as_slice(),
            stco,
            co64,
            sample_size: stbl.stsz.sample_size,
            sample_sizes: stbl.stsz.sample_sizes.as_slice(),
            durations: stbl.stts.entries.as_slice(),
            rendering_offsets: runs_of_ctts(&stbl.ctts),
            has_sync_numbers: stbl.stss.is_some(),
            sync_numbers: numbers_of_stss(&stbl.stss),
        }
    }

    /// Where a chunk begins.
    #[inline(always)]
    pub fn chunk_offset(&self, chunk: u32) -> Option<u64>
        requires tables { AreTables self.now }
        requires counts { 1 ≤ chunk }
        ensures { result ≡ slice_get (chunk_offsets (walked self.now)) (chunk - 1) }
    {
        let index = chunk as usize - 1;
        match number_at(self.stco, index) {
            Some(offset) => Some(u64::from(offset)),
            None => long_number_at(self.co64, index),
        }
    }

    /// The size of sample `k`.
    #[inline(always)]
    #[tactic(auto, unfolding(mp4_samples::specs::Tables::sizes))]
    pub fn size_of(&self, k: u32) -> Option<u32>
        requires tables { AreTables self.now }
        requires first { 1 ≤ k }
        ensures { result ≡ slice_get (sizes (walked self.now).stsz k) (k - 1) }
    {
        if self.sample_size > 0 {
            Some(self.sample_size)
        } else {
            number_at(self.sample_sizes, k as usize - 1)
        }
    }
}
