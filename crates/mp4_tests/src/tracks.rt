//! Tracks of tables that a test writes down: they are read as those of a file are.

use mp4_boxes::{TrakBox, read_tables_have_first_samples};
use mp4_codec::{Items, ReadBox};
use mp4_fragments::SampleDefaults;
use mp4_lookup::Mp4Track;
use mp4_plain_movies::plain_tables::{Tables, written_track};
use std::alloc::Global;
use std::process::Abort;

/// The track of a payload of a trak.
fn read_track(rt: &impl Abort, alloc: Global, payload: &[u8]) -> Mp4Track {
    read_tables_have_first_samples();
    let trak = TrakBox::read_payload(alloc, payload).expect(rt, "the track is read");
    let track = Mp4Track::new(alloc, trak, Items::new(alloc), &[], SampleDefaults::none());
    track.expect(rt, "memory")
}

/// The track of id 1 that has these tables.
fn track_of(rt: &impl Abort, alloc: Global, tables: &Tables) -> Mp4Track {
    let payload = written_track(alloc, tables).expect(rt, "memory");
    read_track(rt, alloc, &payload)
}

/// Whether a statement holds of the track of id 1 that has these tables.
///
/// The track lives in this one function, and tests say facts of a track that they are lent: a function that holds a
/// track is slow to prove.
pub fn holds_of<F: FnOnce(&Mp4Track) -> bool>(
    rt: &impl Abort,
    alloc: Global,
    tables: &Tables,
    fact: F,
) -> bool
    requires { F.IsAlwaysCallable fact }
{
    let track = track_of(rt, alloc, tables);
    fact(&track)
}
