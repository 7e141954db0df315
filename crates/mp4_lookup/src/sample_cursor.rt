//! The samples of a track by their numbers, at the price of a step where one number follows another.

// The steps of a walk are kept inline: docs/PERF.md, "Why these are calls".

ghost use Rattle.std.specs.Prelude.{◌≡◌, Some, IsTrue};
ghost use Rattle.mp4_codec.specs.Cause.{Gives};
ghost use Rattle.mp4_samples.specs.Plain.{Consistent, plain_at};
ghost use Rattle.mp4_samples.specs.Tables.{tables_of};
ghost use Rattle.mp4_lookup.specs.InOrder.{number_after};
ghost use Rattle.mp4_lookup.specs.SampleCursor.{answer_of, next_after, track_of};
ghost use Rattle.mp4_lookup.specs.Tracks.{answer_at, is_of_movie};
ghost use Rattle.mp4_lookup.specs.TrackRuns.{track_runs};

use crate::samples::Samples;
use crate::track::Mp4Track;
use mp4_codec::Result;
use mp4_samples::Place;

/// Where the samples of a track lie and when they are decoded and shown, by their numbers: at each, in whatever order
/// they are asked for, what [`Mp4Track::locate`] answers, but for what it cost.
///
/// It keeps a walk over the samples. The number that comes next in the walk is answered by a step, which mostly costs
/// no search; any other by a lookup with a guess, which leaves the walk where it was. The walk begins again only at a
/// number that follows the one asked for before it. So numbers in their order cost about as much as
/// [`Mp4Track::samples`], from the third on, and numbers in no order as much as [`Mp4Track::locate_by_guess`].
#[derive(Drop)]
pub struct SampleCursor<'t> {
    /// A walk over the samples of the track.
    walk: Samples<'t>,
    /// The number after the one that was asked for last; None after the last of 32 bits.
    next: Option<u32>,
}

impl Mp4Track {
    /// A cursor over the samples, before the first.
    #[inline(always)]
    pub fn sample_cursor(&self) -> SampleCursor<'_>
        ensures track { track_of result ≡ self.now }
        ensures next { result.next ≡ Some 1 }
    {
        SampleCursor {
            walk: self.walk_from(1),
            next: Some(1),
        }
    }

    /// Where sample `k` lies, by a lookup.
    // Kept a call: docs/PERF.md, "Why these are calls".
    #[inline(never)]
    fn look_up(&self, k: u32) -> Result<Option<Place>>
        ensures { Gives (λ p. p) result (answer_at self.now.trak self.now.trafs (track_runs self.now) k) }
    {
        match self.locate_by_guess(k)? {
            Some(found) => Ok(Some(found.place())),
            None => Ok(None),
        }
    }
}

impl<'t> SampleCursor<'t> {
    /// Whether sample `k` comes next in the walk, which begins again there if `k` follows the number that was asked for
    /// last.
    #[inline(always)]
    fn walk_to(&mut self, k: u32) -> bool
        ensures walk { IsTrue result → self.new.walk.number ≡ Some k }
        ensures track { track_of self.new ≡ track_of self.old }
    {
        match self.walk.number {
            Some(number) if number == k => true,
            _ if self.next == Some(k) => {
                self.walk = self.walk.tables.track.walk_from(k);
                true
            }
            _ => false,
        }
    }

    /// Where sample `k` lies: by a step where it comes next in the walk, and else by a lookup.
    #[inline(always)]
    fn answer(&mut self, k: u32) -> Result<Option<Place>>
        ensures rule { Gives (λ p. p) result (answer_at (track_of self.old).trak (track_of self.old).trafs
            (track_runs (track_of self.old)) k) }
        ensures track { track_of self.new ≡ track_of self.old }
        ensures next { self.new.next ≡ number_after k }
    {
        let comes_next = self.walk_to(k);
        self.next = k.checked_add(1);
        if comes_next {
            self.walk.step(k)
        } else {
            self.walk.tables.track.look_up(k)
        }
    }

    /// Where sample `k` of the track lies, and when it is decoded and shown: what [`Mp4Track::locate`] answers, but for
    /// what it cost, whatever was asked for before. Refused as `locate`, with the same errors, and after a refusal too
    /// any number may be asked for.
    #[inline(always)]
    pub fn seek(&mut self, k: u32) -> Result<Option<Place>>
        ensures rule { Gives (λ p. p) result (answer_at (track_of self.old).trak (track_of self.old).trafs
            (track_runs (track_of self.old)) k) }
        ensures plain { IsTrue (is_of_movie (track_of self.old).trak (track_of self.old).trafs k)
            → Consistent (tables_of (track_of self.old).trak)
            → Gives (λ p. p) result (plain_at (tables_of (track_of self.old).trak) k) }
        ensures track { track_of self.new ≡ track_of self.old }
        ensures next { self.new.next ≡ number_after k }
    {
        self.answer(k)
    }

    /// The same of the number after the one that was asked for last, whatever was answered there, and of number 1 at
    /// first. `Ok(None)` after number 2^32 - 1.
    #[inline(always)]
    pub fn next(&mut self) -> Result<Option<Place>>
        ensures rule { Gives (λ p. p) result (answer_of (track_of self.old) self.old.next) }
        ensures track { track_of self.new ≡ track_of self.old }
        ensures next { self.new.next ≡ next_after self.old.next }
    {
        match self.next {
            Some(k) => self.answer(k),
            None => Ok(None),
        }
    }
}
