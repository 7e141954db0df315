//! What is kept of the runs of a track, so that their samples are found fast.

ghost use Rattle.std.specs.Prelude.{◌≡◌, ℕ, ◌+◌, ◌-◌, ◌^◌, min, [], ◌∷◌, ◌++◌, IfOk};
ghost use Rattle.mp4_fragments.specs.Index.{Pushed};

use crate::entry::RunEntry;
use mp4_codec::Items;
use mp4_search::SearchedNumbers;
use std::alloc::{AllocError, Global};
use std::marker::Model;

/// The runs of a track's fragments, one entry each: however many samples a run has, none is written out.
#[derive(Debug, Drop)]
pub struct RunIndex {
    /// How many samples come before each run; the counts stop at 2^32 - 1.
    pub(crate) counts: SearchedNumbers,
    pub(crate) entries: Items<RunEntry>,
    /// How many samples all runs have; it stops at 2^32 - 1.
    pub(crate) before: u32,
    /// The same; it stops at 2^64 - 1.
    pub(crate) total: u64,
}

/// A [`RunIndex`] while runs are added to it.
#[derive(Drop)]
pub(crate) struct RunIndexBuilder {
    counts: Vec<u32>,
    entries: Items<RunEntry>,
    before: u32,
    total: u64,
}

impl Model for RunIndexBuilder {
    ghost use Rattle.mp4_fragments.specs.declared.index.RunIndex.{RunIndex};

    ghost Value = { RunIndex };

    ghost view = { λ s. record {
      counts = s.counts.items;
      entries = s.entries;
      before = s.before;
      total = s.total;
    } };
}

impl RunIndexBuilder {
    /// No runs, with room for so many.
    pub fn with_capacity(alloc: Global, runs: usize) -> Result<Self, AllocError>
        ensures counts { IfOk result (λ index. index.counts ≡ []) }
        ensures entries { IfOk result (λ index. index.entries ≡ []) }
        ensures before { IfOk result (λ index. index.before ≡ 0) }
        ensures total { IfOk result (λ index. index.total ≡ 0) }
    {
        let counts = Vec::with_capacity(alloc, runs)?;
        let entries = Items::with_capacity(alloc, runs)?;
        Ok(RunIndexBuilder {
            counts,
            entries,
            before: 0,
            total: 0,
        })
    }

    /// One more run, of `count` samples.
    pub fn push(&mut self, entry: RunEntry, count: u32) -> Result<(), AllocError>
        ensures { IfOk result (λ u. Pushed self.old self.new entry count) }
    {
        self.counts.push(self.before)?;
        self.entries.push(entry)?;
        self.before = self.before.saturating_add(count);
        self.total = self.total.saturating_add(u64::from(count));
        Ok(())
    }

    /// The index of the runs that were added.
    pub fn build(self) -> RunIndex
        ensures { result ≡ self }
    {
        RunIndex {
            counts: SearchedNumbers::new(self.counts),
            entries: self.entries,
            before: self.before,
            total: self.total,
        }
    }
}
