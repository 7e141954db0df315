//! The samples of a movie's tracks that its fragments add, written out sample by sample. They are compared with what
//! the lookup finds, and not proved.

use crate::walked_lookup::{WalkedPlace, walk};
use mp4_boxes::{StblBox, TrakBox};
use mp4_codec::{Error, Result};
use mp4_table::SttsEntry;
use std::alloc::Global;
use std::process::Abort;

/// What is said of one sample, or of all samples for which no more is said.
#[derive(Debug, Clone, Copy, PartialEq, Eq)]
pub struct PlainValues {
    pub duration: Option<u32>,
    pub size: Option<u32>,
    pub flags: Option<u32>,
    pub composition_offset: Option<u32>,
}

impl PlainValues {
    /// These, and others where they say nothing.
    fn or(&self, others: &PlainValues) -> PlainValues {
        PlainValues {
            duration: self.duration.or(others.duration),
            size: self.size.or(others.size),
            flags: self.flags.or(others.flags),
            composition_offset: self.composition_offset.or(others.composition_offset),
        }
    }
}

/// Nothing is said.
pub const NOTHING: PlainValues = PlainValues {
    duration: None,
    size: None,
    flags: None,
    composition_offset: None,
};

/// A run of samples.
#[derive(Drop)]
pub struct PlainRun {
    pub data_offset: Option<i32>,
    pub first_flags: Option<u32>,
    pub samples: Vec<PlainValues>,
}

/// A track fragment.
#[derive(Drop)]
pub struct PlainPart {
    pub id: u32,
    pub base_data_offset: Option<u64>,
    pub counts_from_fragment: bool,
    pub values: PlainValues,
    pub time: Option<u64>,
    pub runs: Vec<PlainRun>,
}

/// A fragment that begins at a place.
#[derive(Drop)]
pub struct PlainFragment {
    pub place: u64,
    pub parts: Vec<PlainPart>,
}

/// Where and when a sample begins.
#[derive(Clone, Copy)]
struct RunStart {
    place: Option<u64>,
    time: Option<u64>,
}

/// A sample that a fragment adds.
#[derive(Clone, Copy)]
struct PlainSample {
    at: RunStart,
    size: u32,
    duration: u32,
    rendering_offset: i32,
    is_sync: bool,
}

impl PlainSample {
    /// What its number is answered with.
    fn answer(&self) -> Result<Option<WalkedPlace>> {
        let (Some(offset), Some(start_time)) = (self.at.place, self.at.time) else {
            return Err(Error::InvalidData("the sample is nowhere"));
        };
        Ok(Some(WalkedPlace {
            offset,
            size: self.size,
            start_time,
            duration: self.duration,
            rendering_offset: self.rendering_offset,
            is_sync: self.is_sync,
        }))
    }
}

/// A track and the samples that fragments add to it.
#[derive(Drop)]
pub struct PlainTrack {
    pub id: u32,
    /// What the movie says of its samples.
    pub values: PlainValues,
    /// When its samples have lasted.
    end: Option<u64>,
    /// Whether a fragment names it.
    is_fragmented: bool,
    samples: Vec<PlainSample>,
}

impl PlainTrack {
    /// How many samples fragments add.
    pub fn added(&self) -> u32 {
        u32::try_from(self.samples.len()).unwrap_or(0)
    }

    /// What a number of the track is answered with, whose movie box has these tables.
    pub fn answer(&self, stbl: &StblBox, k: u32) -> Result<Option<WalkedPlace>> {
        let count = stbl.sample_count();
        if k <= count || !self.is_fragmented {
            return walk(stbl, self.id, k);
        }
        match self
            .samples
            .get(k.wrapping_sub(count).wrapping_sub(1) as usize)
        {
            None => Ok(None),
            Some(sample) => sample.answer(),
        }
    }
}

/// So far on or back; None where that is below 0 or past 64 bits.
fn moved(place: Option<u64>, offset: i32) -> Option<u64> {
    let distance = u64::from(offset.unsigned_abs());
    if offset < 0 {
        place?.checked_sub(distance)
    } else {
        place?.checked_add(distance)
    }
}

/// So far on.
fn after(place: Option<u64>, distance: u32) -> Option<u64> {
    place?.checked_add(u64::from(distance))
}

/// Adds a sample of these values to a track. The answer is where the next one begins.
fn add_sample(
    rt: &impl Abort,
    track: &mut PlainTrack,
    values: &PlainValues,
    at: RunStart,
) -> RunStart {
    let size = values.size.unwrap_or(0);
    let duration = values.duration.unwrap_or(0);
    let sample = PlainSample {
        at,
        size,
        duration,
        rendering_offset: values.composition_offset.unwrap_or(0).cast_signed(),
        is_sync: values.flags.unwrap_or(0) / 0x1_0000 % 2 == 0,
    };
    track.samples.push(sample).expect(rt, "memory");
    RunStart {
        place: after(at.place, size),
        time: after(at.time, duration),
    }
}

/// Adds the samples of a run to a track, of which all have these values where they say no others. The answer is
/// where the next one begins.
fn add_samples(
    rt: &impl Abort,
    track: &mut PlainTrack,
    run: &PlainRun,
    values: &PlainValues,
    first: RunStart,
) -> RunStart {
    let mut at = first;
    let mut first_flags = run.first_flags;
    for sample in run.samples.as_slice() {
        let own = sample.or(values).or(&track.values);
        let flags = first_flags.or(own.flags);
        first_flags = None;
        at = add_sample(rt, track, &PlainValues { flags, ..own }, at);
    }
    at
}

/// Adds the runs of a track fragment, whose places count from a base data offset, to its track. The answer is where its
/// data ends.
fn add_runs(
    rt: &impl Abort,
    track: &mut PlainTrack,
    part: &PlainPart,
    base_data_offset: Option<u64>,
) -> Option<u64> {
    track.is_fragmented = true;
    let before = track.samples.len();
    let mut at = RunStart {
        place: base_data_offset,
        time: part.time.or(track.end),
    };
    for run in part.runs.as_slice() {
        if let Some(offset) = run.data_offset {
            at.place = moved(base_data_offset, offset);
        }
        at = add_samples(rt, track, run, &part.values, at);
    }
    if track.samples.len() > before {
        track.end = at.time;
    }
    at.place
}

/// Adds a track fragment to its track. The answer is where its data ends.
fn add_part(
    rt: &impl Abort,
    tracks: &mut Vec<PlainTrack>,
    part: &PlainPart,
    base_data_offset: Option<u64>,
) -> Option<u64> {
    let mut end = base_data_offset;
    for track in tracks.iter_mut() {
        if track.id == part.id {
            end = add_runs(rt, track, part, base_data_offset);
        }
    }
    end
}

/// Adds the track fragments of a movie fragment to their tracks.
fn add_fragment(rt: &impl Abort, tracks: &mut Vec<PlainTrack>, fragment: &PlainFragment) {
    let mut end = Some(fragment.place);
    for part in fragment.parts.as_slice() {
        let base_data_offset = match part.base_data_offset {
            Some(base_data_offset) => Some(base_data_offset),
            None if part.counts_from_fragment => Some(fragment.place),
            None => end,
        };
        end = add_part(rt, tracks, part, base_data_offset);
    }
}

/// When the first so many samples of these runs have lasted.
fn end_of(runs: &[SttsEntry], count: u32) -> u64 {
    let mut left = count;
    let mut end = 0u64;
    for run in runs {
        let taken = left.min(run.sample_count);
        let time = u64::from(taken).wrapping_mul(u64::from(run.sample_delta));
        end = end.wrapping_add(time);
        left = left.wrapping_sub(taken);
    }
    end
}

/// What the movie says last of the samples of a track.
fn values_of(defaults: &[(u32, PlainValues)], id: u32) -> PlainValues {
    let mut values = NOTHING;
    for default in defaults {
        if default.0 == id {
            values = default.1;
        }
    }
    values
}

/// The tracks of these boxes, without fragments.
fn unfragmented(
    rt: &impl Abort,
    alloc: Global,
    traks: &[TrakBox],
    defaults: &[(u32, PlainValues)],
) -> Vec<PlainTrack> {
    let mut tracks = Vec::new(alloc);
    for trak in traks {
        let stbl = &trak.mdia.minf.stbl;
        let id = trak.tkhd.track_id;
        let track = PlainTrack {
            id,
            values: values_of(defaults, id),
            end: Some(end_of(stbl.stts.entries.as_slice(), stbl.sample_count())),
            is_fragmented: false,
            samples: Vec::new(alloc),
        };
        tracks.push(track).expect(rt, "memory");
    }
    tracks
}

/// The tracks of these boxes with what these fragments add, of whose samples the movie says these values.
pub fn written_out(
    rt: &impl Abort,
    alloc: Global,
    traks: &[TrakBox],
    defaults: &[(u32, PlainValues)],
    fragments: &[PlainFragment],
) -> Vec<PlainTrack> {
    let mut tracks = unfragmented(rt, alloc, traks, defaults);
    for fragment in fragments {
        add_fragment(rt, &mut tracks, fragment);
    }
    tracks
}
