//! How many samples of a track that follow each other are alike, as its tables and its fragments say, without
//! a look at each.

use mp4_media::{Mp4Track, StscEntry, SttsEntry, TrafBox, TrunBox};

/// Where a walk is among the entries of stsc.
#[derive(Clone, Copy)]
struct InChunks<'t> {
    /// The entry of the sample that was asked for last, and those after it.
    entries: &'t [StscEntry],
}

impl<'t> InChunks<'t> {
    /// Passes over the entries before that of a sample.
    fn move_to(&mut self, number: u32) {
        for _ in 0..self.entries.len() {
            let [_, rest @ ..] = self.entries else {
                return;
            };
            match rest {
                [next, ..] if next.first_sample <= number => self.entries = rest,
                _ => return,
            }
        }
    }

    /// How many samples a chunk has from this one on; 1 where that isn't said.
    fn left(&mut self, number: u32) -> u64 {
        self.move_to(number);
        let (entry, end) = match self.entries {
            [] => return 1,
            [entry] => (*entry, 1 << 32),
            [entry, next, ..] => (*entry, u64::from(next.first_sample)),
        };
        if entry.samples_per_chunk == 0 {
            return 1;
        }
        let earlier = number.saturating_sub(entry.first_sample) % entry.samples_per_chunk;
        let left = u64::from(entry.samples_per_chunk - earlier);
        left.min(end.saturating_sub(u64::from(number)))
    }
}

/// Where a walk is among the runs of stts.
#[derive(Clone, Copy)]
struct InDurations<'t> {
    /// The run of the sample that was asked for last, and those after it.
    runs: &'t [SttsEntry],
    /// How many samples come before them.
    before: u64,
}

impl<'t> InDurations<'t> {
    /// How many samples a run has from this one on; 1 past all runs.
    fn left(&mut self, number: u32) -> u64 {
        for _ in 0..self.runs.len() {
            let [run, rest @ ..] = self.runs else {
                return 1;
            };
            let end = self.before.saturating_add(u64::from(run.sample_count));
            if u64::from(number) <= end {
                return (end - u64::from(number)).saturating_add(1);
            }
            self.before = end;
            self.runs = rest;
        }
        1
    }
}

/// Where a walk is among the numbers of sync samples, which rise.
#[derive(Clone, Copy)]
struct InSyncNumbers<'t> {
    /// The first number that isn't below that of the sample that was asked for last, and those after it.
    numbers: &'t [u32],
}

impl<'t> InSyncNumbers<'t> {
    /// How many samples are as this one from it on: it alone, if it is a sync sample, else those before the
    /// next.
    fn left(&mut self, number: u32) -> u64 {
        for _ in 0..self.numbers.len() {
            let [next, rest @ ..] = self.numbers else {
                return u64::MAX;
            };
            if *next >= number {
                return u64::from(*next - number).max(1);
            }
            self.numbers = rest;
        }
        u64::MAX
    }
}

/// Where a walk is among the runs of fragments.
#[derive(Clone, Copy)]
struct InFragments<'t> {
    /// The runs that are left of a fragment.
    runs: &'t [TrunBox],
    /// The fragments after it.
    trafs: &'t [TrafBox],
    /// How many samples come before them in the track.
    before: u64,
}

/// How many samples of a run are alike from this one on, which counts from 0: those that no list tells apart.
fn left_of_run(run: &TrunBox, index: u64) -> u64 {
    let are_listed = !run.sample_durations.is_empty()
        || !run.sample_sizes.is_empty()
        || !run.sample_flags.is_empty();
    if are_listed || (index == 0 && run.first_sample_flags.is_some()) {
        return 1;
    }
    u64::from(run.sample_count).saturating_sub(index)
}

impl<'t> InFragments<'t> {
    /// How many samples are alike from this one on, if it is of the runs that are left of a fragment; else
    /// these are passed over.
    fn left_of_fragment(&mut self, number: u32) -> Option<u64> {
        for _ in 0..self.runs.len() {
            let [run, rest @ ..] = self.runs else {
                return None;
            };
            let end = self.before.saturating_add(u64::from(run.sample_count));
            if u64::from(number) <= end {
                let index = u64::from(number)
                    .saturating_sub(self.before)
                    .saturating_sub(1);
                return Some(left_of_run(run, index));
            }
            self.before = end;
            self.runs = rest;
        }
        None
    }

    /// How many samples are alike from this one on; 1 past all.
    fn left(&mut self, number: u32) -> u64 {
        for _ in 0..self.trafs.len() {
            if let Some(left) = self.left_of_fragment(number) {
                return left;
            }
            let [traf, rest @ ..] = self.trafs else {
                return 1;
            };
            self.trafs = rest;
            self.runs = traf.truns.as_slice();
        }
        self.left_of_fragment(number).unwrap_or(1)
    }
}

/// Where a walk over the samples of a track is, whose numbers rise.
#[derive(Clone, Copy)]
pub(crate) struct EqualSamples<'t> {
    track: &'t Mp4Track,
    chunks: InChunks<'t>,
    durations: InDurations<'t>,
    sync: InSyncNumbers<'t>,
    fragments: InFragments<'t>,
}

impl<'t> EqualSamples<'t> {
    /// Before all samples of a track. Samples of the movie box with these numbers, which rise, are kept apart
    /// from others.
    pub(crate) fn new(track: &'t Mp4Track, sync_numbers: &'t [u32]) -> Self {
        let stbl = &track.trak.mdia.minf.stbl;
        EqualSamples {
            track,
            chunks: InChunks {
                entries: stbl.stsc.entries.as_slice(),
            },
            durations: InDurations {
                runs: stbl.stts.entries.as_slice(),
                before: 0,
            },
            sync: InSyncNumbers {
                numbers: sync_numbers,
            },
            fragments: InFragments {
                runs: &[],
                trafs: track.trafs.as_slice(),
                before: u64::from(stbl.sample_count()),
            },
        }
    }

    /// The same of a sample of the movie box: 1 where sizes are listed, which are bytes of the file.
    fn left_in_tables(&mut self, number: u32) -> u64 {
        if self.track.trak.mdia.minf.stbl.stsz.sample_size == 0 {
            return 1;
        }
        self.chunks
            .left(number)
            .min(self.durations.left(number))
            .min(self.sync.left(number))
    }

    /// How many samples are alike from this one on, as far as numbers go: of one size and one duration, in
    /// one chunk or run, and all of them sync samples or none. A sample that isn't there counts as 1.
    pub(crate) fn left(&mut self, number: u32) -> u32 {
        let count = self.track.trak.mdia.minf.stbl.sample_count();
        let mut most = (u32::MAX - number).saturating_add(1);
        let left = if self.track.trafs.is_empty() {
            self.left_in_tables(number)
        } else if number <= count {
            most = (count - number).saturating_add(1);
            self.left_in_tables(number)
        } else {
            self.fragments.left(number)
        };
        u32::try_from(left).unwrap_or(u32::MAX).min(most).max(1)
    }
}
