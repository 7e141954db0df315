//! A walk over the samples of a track.

ghost use Rattle.std.proofs.Props.{props};
ghost use Rattle.std.specs.Prelude.{IfSome, IsTrue};
ghost use Rattle.mp4_fragments.proofs.Props.{IsAmongRuns-prop};
ghost use Rattle.mp4_fragments.specs.Cursor.{IsAmongRuns};
ghost use Rattle.mp4_lookup.specs.Tables.{AreTables, walked};
ghost use Rattle.mp4_lookup.specs.TrackRuns.{track_runs};
ghost use Rattle.mp4_lookup.specs.Tracks.{is_of_movie};
ghost use Rattle.mp4_lookup.specs.Walk.{AreIn};

use crate::position::Position;
use crate::tables::Tables;
use mp4_fragments::RunPosition;

/// Where the samples of a track lie and when they are decoded and shown, in their order: at each number, from one on,
/// what [`Mp4Track::locate`] answers, but for what it cost.
///
/// It keeps where it is in each table and among the runs of the fragments, so that a step looks at a few numbers,
/// however long the tables are; only where more than one entry of a table is passed over is the table searched, by a
/// guess. It ends after the last sample, where `locate` answers `None`; after the first refusal, which it gives; and
/// after number 2^32 - 1.
#[derive(Drop)]
pub struct Samples<'t> {
    /// The track, and its tables.
    pub(crate) tables: Tables<'t>,
    /// The number of the next sample; None after the last.
    pub(crate) number: Option<u32>,
    /// Where the walk is in the tables, up to the last sample of the movie box.
    pub(crate) position: Position,
    /// Where the walk is in the runs of fragments, once it is there.
    pub(crate) run_position: Option<RunPosition<'t>>,
    ghost lists: { AreTables tables } by { Prim.hlevel props },
    ghost here: { IfSome number (λ k. IsTrue (is_of_movie tables.track.now.trak tables.track.now.trafs k)
        → AreIn (walked tables) k position) } by { Prim.hlevel props },
    ghost added: { IfSome run_position (IsAmongRuns (track_runs tables.track.now)) } by { Prim.hlevel (
      props,
      IsAmongRuns-prop,
    ) },
}
