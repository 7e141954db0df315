//! Which samples of a track's fragments are sync samples, kept so that the last of them before a number is found.

ghost use Rattle.std.proofs.Props.{props};
ghost use Rattle.std.specs.Prelude.{◌≡◌, ℕ, ◌+◌, ◌-◌, ◌<◌, ◌≤◌, Bool, true, false, Some, None, min, length, nat_le};
ghost use Rattle.std.specs.Prelude.{slice_index};
ghost use Rattle.std.specs.Prelude.{IfOk, IfSome, OnOk};
ghost use Rattle.mp4_fragments.specs.Index.{Indexes, placed_at, run_at, runs_of};
ghost use Rattle.mp4_fragments.specs.RunSamples.{PlacedRun, all_run_samples, is_sync_in, run_count};
ghost use Rattle.mp4_fragments.specs.Sync.{AreBuilt, AreSpans, spans_by, sync_at};
ghost use Rattle.mp4_search.specs.Digits.{digits};
ghost use Rattle.mp4_search.specs.Partition.{AnswersLast, asked_in};

use crate::defaults::SampleDefaults;
use crate::entry::RunEntry;
use crate::index::RunIndex;
use crate::lookup::run_of;
use crate::run_samples::{IS_NO_SYNC_SAMPLE, is_sync};
use mp4_moof::{TrafBox, TrunBox};
use mp4_search::{Parted, Readings, partition_point};
use std::alloc::{AllocError, Global};

/// The sync samples that fragments add to a track, as spans of samples that follow each other: most often one for each
/// fragment of a video track, and one for all of a sound track. Samples are numbered from 0 over all fragments.
#[derive(Debug, Drop)]
pub struct SyncSpans {
    /// The number of the first sample of each span.
    pub(crate) firsts: Vec<u32>,
    /// The number of the last.
    pub(crate) lasts: Vec<u32>,
    ghost count: { length lasts.items ≡ length firsts.items } by { Prim.hlevel props },
    ghost rise: { (i j : ℕ) → i ≤ j → j < length firsts.items
        → slice_index firsts.items i ≤ slice_index firsts.items j } by { Prim.hlevel props },
}

/// Spans that are being made, of samples that come in their order.
#[derive(Drop)]
struct SpanBuilder {
    firsts: Vec<u32>,
    lasts: Vec<u32>,
    /// The first sample of a span whose last isn't known yet.
    begun: Option<u32>,
    /// How many samples came so far.
    count: u32,
    /// How many samples are kept at most.
    end: u32,
}

impl SpanBuilder {
    /// Ends the span that is open, if one is, with the sample that came last.
    fn close(&mut self) -> Result<(), AllocError>
        requires opened { IfSome self.old.begun (λ first. first < self.old.count) }
        ensures built { OnOk result ((has : ℕ → Bool) → AreBuilt has self.old → AreBuilt has self.new) }
        ensures closed { OnOk result (self.new.begun ≡ None) }
        ensures count { self.new.count ≡ self.old.count }
        ensures end { self.new.end ≡ self.old.end }
    {
        let Some(first) = self.begun else {
            return Ok(());
        };
        self.firsts.push(first)?;
        self.lasts.push(self.count - 1)?;
        self.begun = None;
        Ok(())
    }

    /// The next samples are so many sync samples.
    fn add_sync(&mut self, n: u32)
        requires opened { IfSome self.old.begun (λ first. first < self.old.count) }
        requires some { 0 < n }
        requires within { self.old.count + n ≤ self.old.end }
        ensures built { (has : ℕ → Bool) → AreBuilt has self.old
            → ((j : ℕ) → self.old.count ≤ j → j < self.new.count → has j ≡ true) → AreBuilt has self.new }
        ensures opened { IfSome self.new.begun (λ first. first < self.new.count) }
        ensures count { self.new.count ≡ self.old.count + n }
        ensures end { self.new.end ≡ self.old.end }
    {
        self.begun = Some(self.begun.unwrap_or(self.count));
        self.count += n;
    }

    /// The next samples are so many others.
    fn add_others(&mut self, n: u32) -> Result<(), AllocError>
        requires opened { IfSome self.old.begun (λ first. first < self.old.count) }
        requires within { self.old.count + n ≤ self.old.end }
        ensures built { OnOk result ((has : ℕ → Bool) → AreBuilt has self.old
            → ((j : ℕ) → self.old.count ≤ j → j < self.new.count → has j ≡ false) → AreBuilt has self.new) }
        ensures opened { OnOk result (IfSome self.new.begun (λ first. first < self.new.count)) }
        ensures count { OnOk result (self.new.count ≡ self.old.count + n) }
        ensures end { self.new.end ≡ self.old.end }
    {
        self.close()?;
        self.count += n;
        Ok(())
    }

    /// The next samples, all of them sync samples or none. Those past the end are left out.
    fn add(&mut self, n: u32, is_sync: bool) -> Result<(), AllocError>
        requires opened { IfSome self.old.begun (λ first. first < self.old.count) }
        requires within { self.old.count ≤ self.old.end }
        ensures built { OnOk result ((has : ℕ → Bool) → AreBuilt has self.old
            → ((j : ℕ) → self.old.count ≤ j → j < self.new.count → has j ≡ is_sync) → AreBuilt has self.new) }
        ensures opened { OnOk result (IfSome self.new.begun (λ first. first < self.new.count)) }
        ensures count { OnOk result (self.new.count ≡ min (self.old.count + n) self.old.end) }
        ensures end { self.new.end ≡ self.old.end }
    {
        let n = n.min(self.end - self.count);
        if n == 0 {
            return Ok(());
        }
        if !is_sync {
            return self.add_others(n);
        }
        self.add_sync(n);
        Ok(())
    }

    /// The samples of a run that list their flags, from the second on.
    fn add_listed(
        &mut self,
        run: &TrunBox,
        defaults: SampleDefaults,
        listed: u32,
    ) -> Result<(), AllocError>
        requires opened { IfSome self.old.begun (λ first. first < self.old.count) }
        requires within { self.old.count ≤ self.old.end }
        ensures built { OnOk result ((has : ℕ → Bool) → AreBuilt has self.old
            → ((j : ℕ) → 1 ≤ j → j < listed → self.old.count + (j - 1) < self.new.count
            → has (self.old.count + (j - 1)) ≡ is_sync_in run.now defaults j) → AreBuilt has self.new) }
        ensures opened { OnOk result (IfSome self.new.begun (λ first. first < self.new.count)) }
        ensures count { OnOk result (self.new.count ≡ min (self.old.count + (listed - 1)) self.old.end) }
        ensures end { self.new.end ≡ self.old.end }
    {
        for j in 1..listed {
            self.add(1, is_sync(run, defaults, j))?;
        }
        Ok(())
    }

    /// The samples of a run.
    fn add_run(&mut self, run: &TrunBox, defaults: SampleDefaults) -> Result<(), AllocError>
        requires opened { IfSome self.old.begun (λ first. first < self.old.count) }
        requires within { self.old.count ≤ self.old.end }
        ensures built { OnOk result ((has : ℕ → Bool) → AreBuilt has self.old
            → ((j : ℕ) → j < run.now.sample_count → self.old.count + j < self.new.count
            → has (self.old.count + j) ≡ is_sync_in run.now defaults j) → AreBuilt has self.new) }
        ensures opened { OnOk result (IfSome self.new.begun (λ first. first < self.new.count)) }
        ensures count { OnOk result (self.new.count ≡ min (self.old.count + run.now.sample_count) self.old.end) }
        ensures end { self.new.end ≡ self.old.end }
    {
        if run.sample_count == 0 {
            return Ok(());
        }
        let listed = (run.sample_flags.len() as u64).min(u64::from(run.sample_count)) as u32;
        self.add(1, is_sync(run, defaults, 0))?;
        self.add_listed(run, defaults, listed)?;
        self.add(
            run.sample_count - listed.max(1),
            defaults.flags & IS_NO_SYNC_SAMPLE == 0,
        )?;
        Ok(())
    }

    /// The samples of an entry's run.
    fn add_entry(
        &mut self,
        trafs: &[TrafBox],
        track: SampleDefaults,
        entry: &RunEntry,
    ) -> Result<(), AllocError>
        requires opened { IfSome self.old.begun (λ first. first < self.old.count) }
        requires within { self.old.count ≤ self.old.end }
        ensures built { OnOk result ((p : PlacedRun) → placed_at (run_at trafs.now track) entry.now ≡ Some p
            → (has : ℕ → Bool) → AreBuilt has self.old
            → ((j : ℕ) → j < run_count p → self.old.count + j < self.new.count
            → has (self.old.count + j) ≡ is_sync_in p.run p.defaults j) → AreBuilt has self.new) }
        ensures opened { OnOk result (IfSome self.new.begun (λ first. first < self.new.count)) }
        ensures count { OnOk result ((p : PlacedRun) → placed_at (run_at trafs.now track) entry.now ≡ Some p
            → self.new.count ≡ min (self.old.count + run_count p) self.old.end) }
        ensures within { OnOk result (self.new.count ≤ self.new.end) }
        ensures end { self.new.end ≡ self.old.end }
    {
        match run_of(trafs, track, entry) {
            None => Ok(()),
            Some((run, defaults)) => self.add_run(run, defaults),
        }
    }
}

/// The sync samples among the samples of a track's runs whose numbers are below `end`.
pub(crate) fn spans_of(
    alloc: Global,
    trafs: &[TrafBox],
    track: SampleDefaults,
    index: &RunIndex,
    end: u32,
) -> Result<SyncSpans, AllocError>
    requires { Indexes (run_at trafs.now track) (runs_of trafs.now track index.now) index.now }
    ensures spans { IfOk result
        (λ spans. AreSpans (sync_at (runs_of trafs.now track index.now)) end spans.firsts.items spans.lasts.items) }
    ensures few { IfOk result
        (λ spans. length spans.firsts.items ≤ length (all_run_samples (runs_of trafs.now track index.now))) }
{
    let mut builder = SpanBuilder {
        firsts: Vec::new(alloc),
        lasts: Vec::new(alloc),
        begun: None,
        count: 0,
        end,
    };
    for entry in index.entries.as_slice() {
        builder.add_entry(trafs, track, entry)?;
    }
    builder.close()?;
    let SpanBuilder { firsts, lasts, .. } = builder;
    Ok(SyncSpans { firsts, lasts })
}

/// The spans of a track: the first of them begin at or before a sample.
#[derive(Drop)]
struct SpansBefore<'t> {
    firsts: &'t [u32],
    number: u32,
}

impl<'t> Parted for SpansBefore<'t> {
    ghost len = { λ s. length s.firsts.now };

    ghost has = { λ s i. spans_by s.firsts.now s.number i };

    fn has(&self, index: usize) -> bool {
        self.firsts[index] <= self.number
    }
}

impl SyncSpans {
    /// The number of the last sync sample among the samples up to one with this number. Each number that is compared
    /// is counted.
    pub fn last_upto(&self, number: u32, readings: &mut Readings) -> Option<u32>
        requires fresh { readings.old ≡ 0 }
        ensures number { (has : ℕ → Bool) (end : ℕ) → AreSpans has end self.now.firsts.items self.now.lasts.items
            → number < end → AnswersLast has (number + 1) result }
        ensures counted { readings.new ≡ asked_in (spans_by self.now.firsts.items number)
            (length self.now.firsts.items) }
        ensures few { readings.new ≤ digits (length self.now.firsts.items) }
    {
        let spans = SpansBefore {
            firsts: self.firsts.as_slice(),
            number,
        };
        let count = partition_point(&spans, spans.firsts.len(), readings);
        let index = count.checked_sub(1)?;
        Some(number.min(self.lasts[index]))
    }
}
