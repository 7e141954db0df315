//! What is said of the samples of a track, compared with a plain walk over them.

use crate::plain_summary::walked_summary;
use crate::random_files::random_file;
use mp4_media::{Mp4File, Mp4Track};
use mp4_readable::{DecimalTime, TickClock};
use mp4_report::summary_of;
use std::alloc::Global;
use std::process::Abort;

/// Whether the samples of a track are together what a plain walk finds, in files of any size: also in such as
/// end within them.
fn is_summed_up(rt: &impl Abort, alloc: Global, track: &Mp4Track, file_size: u64) -> bool {
    let mut all = true;
    for size in [0, 100, 500, file_size, u64::MAX] {
        all = all
            && summary_of(alloc, track, size).expect(rt, "memory") == walked_summary(track, size);
    }
    all
}

/// Whether the sample that is found by the time that is shown of one is that, or one that is decoded later in
/// the file and not after it.
fn is_found(rt: &impl Abort, alloc: Global, track: &Mp4Track, number: u32, time: u64) -> bool {
    let timescale = track.timescale();
    let clock = TickClock {
        ticks: i128::from(time),
        timescale,
    };
    let text = format!(in alloc; "{clock}").expect(rt, "memory");
    let Some(read) = DecimalTime::parse(text.as_str()) else {
        return false;
    };
    let ticks = read.ticks(timescale);
    ticks == time && track.sample_at(ticks).unwrap_or(0) >= number
}

/// Whether each sample of a track is found by the time that is shown of it.
fn are_found(rt: &impl Abort, alloc: Global, track: &Mp4Track) -> bool {
    let mut all = true;
    let mut number = 0u32;
    for place in track.samples() {
        let Ok(place) = place else {
            break;
        };
        number = number.saturating_add(1);
        all = all && is_found(rt, alloc, track, number, place.start_time);
    }
    all
}

/// Whether what is said of each track of the file of a seed is so.
fn is_so(rt: &impl Abort, alloc: Global, seed: u64) -> bool {
    let bytes = random_file(rt, alloc, seed);
    let Ok(file) = Mp4File::open(alloc, bytes.as_slice(), 0, bytes.len() as u64) else {
        return false;
    };
    let mut all = true;
    for track in file.tracks().values() {
        all = all
            && is_summed_up(rt, alloc, track, file.source_len())
            && are_found(rt, alloc, track);
    }
    all
}

/// Ends the test and prints the seed, unless what is said of each track of its file is so.
fn assert_so(rt: &impl Abort, alloc: Global, seed: u64) {
    assert!(rt; is_so(rt, alloc, seed), "seed {seed}");
}

#[test]
fn samples_of_four_hundred_random_files_are_summed_up_and_found_by_their_times(rt: HostRuntime) {
    for seed in 0..400u64 {
        assert_so(&rt, rt.alloc(), seed);
    }
}
