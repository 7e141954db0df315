//! Samples that are looked for by the times that are shown of them.

use crate::reports::opened;
use mp4_media::{Movie, Mp4Track};
use mp4_readable::{DecimalTime, TickClock};
use std::alloc::{AllocError, Global};

/// How many samples of a track are looked for at most.
const MOST: u32 = 1000;

/// How many samples were looked for, and how many of them were found.
#[derive(Clone, Copy, Default)]
pub struct Found {
    pub asked: u32,
    pub found: u32,
}

/// The tick that is read of the time that is shown of another.
fn tick_shown(alloc: Global, tick: u64, timescale: u32) -> Result<Option<u64>, AllocError> {
    let clock = TickClock {
        ticks: i128::from(tick),
        timescale,
    };
    let text = format!(in alloc; "{clock}")?;
    Ok(DecimalTime::parse(text.as_str()).map(|time| time.ticks(timescale)))
}

/// Looks for the first samples of a track by the times that are shown of them: found is the last that is decoded then,
/// which isn't before the one that was looked for.
fn look_for(alloc: Global, track: &Mp4Track, found: &mut Found) -> Result<(), AllocError> {
    let timescale = track.timescale();
    let mut number = 0u32;
    for place in track.samples().take(MOST as usize) {
        let Ok(place) = place else {
            return Ok(());
        };
        number = number.saturating_add(1);
        found.asked = found.asked.saturating_add(1);
        let tick = tick_shown(alloc, place.start_time, timescale)?;
        if tick == Some(place.start_time) && track.sample_at(place.start_time) >= Some(number) {
            found.found = found.found.saturating_add(1);
        }
    }
    Ok(())
}

/// The same of all tracks of a movie.
fn found_in_movie(alloc: Global, movie: &Movie) -> Result<Found, AllocError> {
    let mut found = Found::default();
    for track in movie.tracks().values() {
        look_for(alloc, track, &mut found)?;
    }
    Ok(found)
}

/// The same of all tracks of the file of these bytes; of none, where it doesn't open.
pub fn found_in(alloc: Global, bytes: &[u8]) -> Result<Found, AllocError> {
    match opened(alloc, bytes) {
        Ok(movie) => found_in_movie(alloc, &*movie),
        Err(_) => Ok(Found::default()),
    }
}
