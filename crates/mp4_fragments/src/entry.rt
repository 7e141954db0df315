//! What is kept of one run of a track.

// The steps of a lookup are kept inline: docs/PERF.md, "Why these are calls".

ghost use Rattle.std.specs.Prelude.{◌≡◌, IfOk, IfSome};
ghost use Rattle.std.specs.Option.{is_some};
ghost use Rattle.mp4_fragments.specs.Checkpoints.{AreCheckpoints};
ghost use Rattle.mp4_fragments.specs.Entry.{checks_in, if_known, known_in, only_in};
ghost use Rattle.mp4_fragments.specs.Index.{IsOnly};

use crate::defaults::SampleDefaults;
use crate::run_samples::{RunStart, SampleValues, values_of};
use crate::run_starts::checkpoints;
use mp4_codec::{DebugItem, Items};
use mp4_moof::TrunBox;
use std::alloc::{AllocError, Global};
use std::marker::Model;
use std::mem::size_of;

/// Which of the two numbers are known that say where and when a run begins.
#[derive(Clone, Copy, Debug)]
struct Known {
    place: bool,
    time: bool,
}

/// What is kept of the samples of a run, and which numbers of its entry are known.
#[derive(Debug, Drop)]
enum Kept {
    /// Nothing of its samples.
    Nothing {
        known: Known,
    },
    /// What its sample has, if it has one alone: a walk over such runs looks at their entries and at nothing else.
    Only {
        known: Known,
        is_sync: bool,
        size: u32,
        duration: u32,
        rendering_offset: i32,
    },
    /// Where every 64th sample begins, from the 64th on, if the run lists sizes or durations.
    Checkpoints {
        known: Known,
        checks: Box<Items<RunStart>>,
    },
}

impl Kept {
    /// Which numbers of the entry are known.
    #[inline(always)]
    fn known(&self) -> Known
        ensures { result ≡ known_in self.now }
    {
        match self {
            Kept::Nothing { known } => *known,
            Kept::Only { known, .. } => *known,
            Kept::Checkpoints { known, .. } => *known,
        }
    }

    /// The checkpoints that are kept.
    #[inline(always)]
    fn checks(&self) -> &[RunStart]
        ensures { result.now ≡ checks_in self.now }
    {
        match self {
            Kept::Nothing { .. } => &[],
            Kept::Only { .. } => &[],
            Kept::Checkpoints { checks, .. } => checks.as_slice(),
        }
    }

    /// The values that are kept of a sample.
    #[inline(always)]
    fn only(&self) -> Option<SampleValues>
        ensures { result ≡ only_in self.now }
    {
        match self {
            Kept::Nothing { .. } => None,
            Kept::Only {
                is_sync,
                size,
                duration,
                rendering_offset,
                ..
            } => Some(SampleValues {
                size: *size,
                duration: *duration,
                rendering_offset: *rendering_offset,
                is_sync: *is_sync,
            }),
            Kept::Checkpoints { .. } => None,
        }
    }
}

/// A run: where it is, and where its samples begin.
#[derive(Debug, Drop)]
pub(crate) struct RunEntry {
    kept: Kept,
    /// The place where its first sample begins, if it is known.
    place: u64,
    /// The time when it begins, if it is known.
    time: u64,
    /// The number of its fragment among those of the track, counted from 0.
    traf: usize,
    /// Its number in the fragment, counted from 0.
    run: usize,
}

/// A file may have a run for every 16 of its bytes, and opening it takes at most 12 bytes for each of them.
const _: () = prove!(size_of::<RunEntry>() == 48);

impl Model for RunEntry {
    ghost use Rattle.mp4_fragments.specs.Entry.{Entry};

    ghost Value = { Entry };

    ghost use Rattle.mp4_fragments.specs.Entry.{begin_in, checks_in, only_in};

    ghost view = { λ s. record {
      at = begin_in s.kept s.place s.time;
      checks = checks_in s.kept;
      only = only_in s.kept;
      traf = s.traf;
      run = s.run;
    } };
}

impl DebugItem for RunEntry {}

/// Which numbers are known.
fn known_of(at: RunStart) -> Known
    ensures { result ≡ record { place = is_some at.place; time = is_some at.time } }
{
    Known {
        place: at.place.is_some(),
        time: at.time.is_some(),
    }
}

/// A number, if it is known.
#[inline(always)]
fn if_known(is_known: bool, number: u64) -> Option<u64>
    ensures { result ≡ if_known is_known number }
{
    if is_known { Some(number) } else { None }
}

impl RunEntry {
    /// An entry that has what is kept.
    fn with(kept: Kept, at: RunStart, traf: usize, run: usize) -> Self
        requires { known_in kept ≡ record { place = is_some at.place; time = is_some at.time } }
        ensures { result ≡ record { at = at; checks = checks_in kept; only = only_in kept; traf = traf; run = run } }
    {
        RunEntry {
            kept,
            place: at.place.unwrap_or(0),
            time: at.time.unwrap_or(0),
            traf,
            run,
        }
    }

    /// The entry of run `i` of fragment `t`, which begins there.
    pub fn of(
        alloc: Global,
        t: usize,
        i: usize,
        run: &TrunBox,
        defaults: SampleDefaults,
        at: RunStart,
    ) -> Result<Self, AllocError>
        ensures at { IfOk result (λ e. e.at ≡ at) }
        ensures traf { IfOk result (λ e. e.traf ≡ t) }
        ensures run { IfOk result (λ e. e.run ≡ i) }
        ensures only { IfOk result (λ e. (first : RunStart)
            → IfSome e.only (IsOnly (record { at = first; run = run.now; defaults = defaults }))) }
        ensures checks { IfOk result (λ e. AreCheckpoints run.now defaults at e.checks) }
    {
        let known = known_of(at);
        if run.sample_count == 1 {
            let values = values_of(run, defaults, 0);
            let kept = Kept::Only {
                known,
                is_sync: values.is_sync,
                size: values.size,
                duration: values.duration,
                rendering_offset: values.rendering_offset,
            };
            return Ok(RunEntry::with(kept, at, t, i));
        }
        let checks = checkpoints(alloc, run, defaults, at)?;
        if checks.is_empty() {
            return Ok(RunEntry::with(Kept::Nothing { known }, at, t, i));
        }
        let checks = Box::new(alloc, checks)?;
        Ok(RunEntry::with(Kept::Checkpoints { known, checks }, at, t, i))
    }

    /// Where and when its first sample begins.
    #[inline(always)]
    pub fn at(&self) -> RunStart
        ensures { result ≡ self.now.at }
    {
        let known = self.kept.known();
        RunStart {
            place: if_known(known.place, self.place),
            time: if_known(known.time, self.time),
        }
    }

    /// Where every 64th sample begins, from the 64th on, if the run lists sizes or durations.
    #[inline(always)]
    pub fn checks(&self) -> &[RunStart]
        ensures { result.now ≡ self.now.checks }
    {
        self.kept.checks()
    }

    /// What its sample has, if it has one alone.
    #[inline(always)]
    pub fn only(&self) -> Option<SampleValues>
        ensures { result ≡ self.now.only }
    {
        self.kept.only()
    }

    /// The number of its fragment among those of the track, counted from 0.
    #[inline(always)]
    pub fn traf(&self) -> usize
        ensures { result ≡ self.now.traf }
    {
        self.traf
    }

    /// Its number in the fragment, counted from 0.
    #[inline(always)]
    pub fn run(&self) -> usize
        ensures { result ≡ self.now.run }
    {
        self.run
    }
}
