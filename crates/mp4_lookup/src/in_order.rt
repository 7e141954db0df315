//! The samples of a track in their order.

// The steps of a lookup are kept inline: docs/PERF.md, "Why these are calls".

ghost use Rattle.std.specs.Prelude.{◌≡◌, ◌+◌, ◌-◌, ◌^◌, ◌<◌, IfOk, IfSome, IsTrue, Some};
ghost use Rattle.std.specs.Iterator.{YieldsFirstBy, item_count};
ghost use Rattle.mp4_codec.specs.Cause.{Gives};
ghost use Rattle.mp4_fragments.specs.Cursor.{IsAmongRuns};
ghost use Rattle.mp4_samples.specs.Tables.{tables_of};
ghost use Rattle.mp4_lookup.specs.InOrder.{answer_of, answers_from, number_left, samples_left};
ghost use Rattle.mp4_lookup.specs.Tables.{AreTables};
ghost use Rattle.mp4_lookup.specs.Tracks.{answer_at, is_of_movie};
ghost use Rattle.mp4_lookup.specs.TrackRuns.{track_runs};
ghost use Rattle.mp4_lookup.specs.Walk.{AreIn};

use crate::locate::run_sample_placed;
use crate::position::Position;
use crate::samples::Samples;
use crate::tables::Tables;
use crate::track::Mp4Track;
use mp4_codec::Result;
use mp4_fragments::RunPosition;
use mp4_samples::Place;
use mp4_search::Readings;

impl Mp4Track {
    /// The samples from number `k` on, which comes next.
    #[inline(always)]
    pub(crate) fn walk_from(&self, k: u32) -> Samples<'_>
        ensures track { result.tables.track.now ≡ self.now }
        ensures number { result.number ≡ Some k }
    {
        let tables = Tables::of(self);
        Samples {
            tables,
            number: Some(k),
            position: Position::before(&tables, k),
            run_position: None,
        }
    }

    /// Where the samples from number `k` on lie, in their order, and when they are decoded and shown, in ticks of the
    /// track's timescale: each is what [`Mp4Track::locate`] answers at its number. Samples are numbered from 1; number
    /// 0 is refused. It ends after the last sample, and after the first that is refused.
    #[inline(always)]
    pub fn samples_from(&self, k: u32) -> Samples<'_>
        ensures { samples_left result ≡ answers_from (2 ^ 32 - k) self.now k }
    {
        self.walk_from(k)
    }

    /// Where all samples lie, in their order, as [`Mp4Track::samples_from`] answers from the first on.
    #[inline(always)]
    pub fn samples(&self) -> Samples<'_>
        ensures { samples_left result ≡ answers_from (2 ^ 32 - 1) self.now 1 }
    {
        self.samples_from(1)
    }

    /// What `locate` answers at number `k`, but for what it cost, by a walk that goes on from where it was: before that
    /// sample.
    #[inline(always)]
    #[tactic(auto, unfolding(crate::specs::Tracks::answer_at))]
    fn next_place<'t>(
        &'t self,
        k: u32,
        tables: &Tables,
        position: &mut Position,
        run_position: &mut Option<RunPosition<'t>>,
    ) -> Result<Option<Place>>
        requires tables { AreTables tables.now }
        requires of_track { tables.now.track.now ≡ self.now }
        requires here { IsTrue (is_of_movie self.now.trak self.now.trafs k)
            → AreIn (tables_of self.now.trak) k position.old }
        requires added { IfSome run_position.old (IsAmongRuns (track_runs self.now)) }
        ensures rule { Gives (λ p. p) result (answer_at self.now.trak self.now.trafs (track_runs self.now) k) }
        ensures here { IfOk result (λ p. IfSome p (λ p. IsTrue (is_of_movie self.now.trak self.now.trafs (k + 1))
            → AreIn (tables_of self.now.trak) (k + 1) position.new)) }
        ensures added { IfSome run_position.new (IsAmongRuns (track_runs self.now)) }
    {
        if self.is_of_movie(k) {
            return position.place(tables, k);
        }
        let number = k - self.trak.mdia.minf.stbl.sample_count() - 1;
        let trafs = self.trafs.as_slice();
        let mut readings = Readings::of(self);
        let Some(run_sample) = self
            .runs
            .find_next(trafs, self.defaults, number, &mut readings, run_position)
        else {
            return Ok(None);
        };
        Ok(Some(run_sample_placed(&run_sample)?))
    }
}

impl<'t> Samples<'t> {
    /// What is answered at number `k`, which comes next. No number comes after the last sample, and none after a
    /// refusal.
    #[inline(always)]
    pub(crate) fn step(&mut self, k: u32) -> Result<Option<Place>>
        requires next { self.old.number ≡ Some k }
        ensures rule { Gives (λ p. p) result (answer_at self.old.tables.track.now.trak
            self.old.tables.track.now.trafs (track_runs self.old.tables.track.now) k) }
        ensures track { self.new.tables.track.now ≡ self.old.tables.track.now }
        ensures number { self.new.number ≡ number_left result k }
    {
        self.number = None;
        let track = self.tables.track;
        match track.next_place(k, &self.tables, &mut self.position, &mut self.run_position) {
            Ok(None) => Ok(None),
            Ok(Some(place)) => {
                self.number = k.checked_add(1);
                Ok(Some(place))
            }
            Err(error) => Err(error),
        }
    }
}

impl<'t> Iterator for Samples<'t> {
    type Item = Result<Place>;

    ghost next_gives = { YieldsFirstBy answer_of samples_left };

    ghost remaining = { item_count samples_left };

    #[inline(always)]
    fn next(&mut self) -> Option<Result<Place>> {
        let number = self.number?;
        match self.step(number) {
            Ok(None) => None,
            Ok(Some(place)) => Some(Ok(place)),
            Err(error) => Some(Err(error)),
        }
    }
}
