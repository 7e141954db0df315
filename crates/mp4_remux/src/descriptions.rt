//! The sample description of each sample (ISO/IEC 14496-12, 8.5.2).

ghost use Rattle.std.specs.Prelude.{◌≡◌, ◌+◌, ◌-◌, ◌^◌, ◌<◌, ◌++◌, ℕ, map, min, IfOk, OnOk};
ghost use Rattle.mp4_remux.specs.Descriptions.{AreFrom, default_description, description_in, fragment_runs};
ghost use Rattle.mp4_remux.specs.Descriptions.{last_before};
ghost use Rattle.mp4_remux.specs.Descriptions.{runs_of, samples_in, table_runs, within_32_bits};

use mp4_codec::Put;
use mp4_lookup::Mp4Track;
use mp4_moof::{MvexBox, TrafBox, TrunBox};
use mp4_table::StscEntry;
use std::alloc::{AllocError, Global};

/// Samples of one description that follow each other.
#[derive(Debug, Clone, Copy)]
pub(crate) struct DescribedRun {
    /// The number of the last of them, from 1.
    pub last: u32,
    /// The number of their description, from 1.
    pub description: u32,
}

/// The sample descriptions of a track's samples, looked up one after the other.
#[derive(Debug, Drop)]
pub(crate) struct Descriptions {
    runs: Vec<DescribedRun>,
    /// How many runs are over.
    passed: usize,
}

impl Descriptions {
    /// Those of a track, of a movie that says this of its fragments.
    pub fn of(alloc: Global, track: &Mp4Track, mvex: &Option<MvexBox>) -> Result<Self, AllocError>
        ensures { IfOk result (λ d. AreFrom d
            (description_in (runs_of track.now.trak track.now.trafs mvex.now)) 1) }
    {
        let mut runs = Vec::new(alloc);
        let stbl = &track.trak.mdia.minf.stbl;
        let count = stbl.sample_count();
        push_chunks(stbl.stsc.entries.as_slice(), count, &mut runs)?;
        let default = default_description(mvex, track.trak.tkhd.track_id);
        push_fragments(track.trafs.as_slice(), count, default, &mut runs)?;
        Ok(Descriptions { runs, passed: 0 })
    }

    /// The number of the description of sample `k`, of which no later one was asked; 1 where none is said.
    pub fn next(&mut self, k: u32) -> u32
        ensures { (of_sample : ℕ → ℕ) → AreFrom self.old of_sample k
            → (result ≡ of_sample k) × AreFrom self.new of_sample (k + 1) }
    {
        while let Some(run) = self.runs.get(self.passed) {
            if run.last >= k {
                return run.description;
            }
            self.passed += 1;
        }
        1
    }
}

/// The last sample of an entry, where these come after it: of `count` samples (8.7.4).
fn last_before(entries: &[StscEntry], count: u32) -> u32
    ensures { result ≡ last_before count entries.now }
{
    match entries.first() {
        Some(next) => next.first_sample.saturating_sub(1).min(count),
        None => count,
    }
}

/// Adds the runs of the `count` samples that the tables of the movie box have (8.7.4).
fn push_chunks(entries: &[StscEntry], count: u32, runs: &mut Vec<DescribedRun>) -> Put
    ensures { OnOk result (runs.new.items ≡ runs.old.items ++ table_runs count entries.now) }
{
    for i in 0..entries.len() {
        runs.push(DescribedRun {
            last: last_before(&entries[i + 1..], count),
            description: entries[i].sample_description_index,
        })?;
    }
    Ok(())
}

/// Adds the run of each track fragment, after `count` samples (8.8.7).
fn push_fragments(trafs: &[TrafBox], count: u32, default: u32, runs: &mut Vec<DescribedRun>) -> Put
    ensures { OnOk result (runs.new.items
        ≡ runs.old.items ++ map within_32_bits (fragment_runs default count trafs.now)) }
{
    let mut last = count;
    for traf in trafs {
        last = last_after(last, traf.truns.as_slice());
        runs.push(DescribedRun {
            last,
            description: traf.tfhd.sample_description_index.unwrap_or(default),
        })?;
    }
    Ok(())
}

/// The number of the last sample of these track runs, where the one before them has this number.
fn last_after(before: u32, truns: &[TrunBox]) -> u32
    ensures { result ≡ min (2 ^ 32 - 1) (before + samples_in truns.now) }
{
    let mut last = before;
    for trun in truns {
        last = last.saturating_add(trun.sample_count);
    }
    last
}

/// The description of the samples of a track's fragments that don't say it (8.8.3).
fn default_description(mvex: &Option<MvexBox>, track_id: u32) -> u32
    ensures { result ≡ default_description mvex.now track_id }
{
    let mut description = 1;
    let Some(mvex) = mvex else {
        return description;
    };
    for trex in mvex.trexs.as_slice() {
        if trex.track_id != track_id {
            continue;
        }
        description = trex.default_sample_description_index;
    }
    description
}
