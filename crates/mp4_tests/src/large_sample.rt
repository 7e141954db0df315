//! A sample of sound that has more bytes than its track can say in 24 bits.

use crate::asserts::assert_that;
use crate::written::{have_in_order, written};
use mp4_entry::TrackType;
use mp4_plain_movies::calls::{ISOM, Media, write_sync};
use mp4_plain_movies::listed_calls::{STEREO, add_media};
use std::alloc::Global;
use std::process::Abort;

/// Whether a sound track says 2^24 - 1 where its largest sample has more bytes.
fn largest_sample_has_24_bits(rt: &impl Abort, alloc: Global) -> bool {
    let bytes = vec![in alloc; 7u8; 0x100_0001].expect(rt, "memory");
    let calls = [
        add_media(TrackType::Audio, Media::Aac(STEREO)),
        write_sync(1, 1, &bytes),
    ];
    let made = written(rt, alloc, &[], &ISOM, &calls);
    let movie = made.get(0x100_0031..).unwrap_or(&[]);
    have_in_order(
        rt,
        alloc,
        movie,
        &["40 15 ffffff 0001f400 0001f400 05 02 1190"],
    )
}

#[test]
fn the_largest_sample_of_sound_has_24_bits(rt: HostRuntime) {
    assert_that(&rt, 1, largest_sample_has_24_bits(&rt, rt.alloc()));
}
