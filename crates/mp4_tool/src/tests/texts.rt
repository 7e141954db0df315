//! Scripts, movies and texts that runs are tried with, and messages that no script and no file gives.

use mp4_media::{BoxType, Error, Limit};
use mp4_script::{ScriptFault, fault_text};
use std::process::Abort;

/// The movie without tracks: a file type of isom, version 512, an empty mdat and a movie header of 1000 ticks
/// in a second (ISO/IEC 14496-12, 4.3, 8.1.1, 8.2.1 and 8.2.2).
pub const EMPTY_MOVIE: [u8; 164] = *b"\
    \x00\x00\x00\x20ftypisom\x00\x00\x02\x00isomiso2avc1mp41\
    \x00\x00\x00\x10mdat\x00\x00\x00\x08wide\
    \x00\x00\x00\x74moov\x00\x00\x00\x6cmvhd\
    \x00\x00\x00\x00\x00\x00\x00\x00\x00\x00\x00\x00\x00\x00\x03\xe8\x00\x00\x00\x00\
    \x00\x01\x00\x00\x01\x00\x00\x00\x00\x00\x00\x00\x00\x00\x00\x00\
    \x00\x01\x00\x00\x00\x00\x00\x00\x00\x00\x00\x00\
    \x00\x00\x00\x00\x00\x01\x00\x00\x00\x00\x00\x00\
    \x00\x00\x00\x00\x00\x00\x00\x00\x40\x00\x00\x00\
    \x00\x00\x00\x00\x00\x00\x00\x00\x00\x00\x00\x00\x00\x00\x00\x00\x00\x00\x00\x00\x00\x00\x00\x00\
    \x00\x00\x00\x01";

/// The script of the movie of three texts.
pub const TEXT_SCRIPT: &str =
    "track text 1000\nsample 1 500 0 1 abc\nsample 1 500 0 1 def\n\nsample 1 500 0 1 gh";

/// The lines that describe the movie without tracks.
pub const EMPTY_INFO: &str =
    "brand isom 512\nbrands isom iso2 avc1 mp41\nsize 164\ntimescale 1000\nduration 0\nfragmented no\n";

/// The lines that describe the movie of three texts.
pub const TEXT_INFO: &str =
    "brand isom 512\nbrands isom iso2 avc1 mp41\nsize 607\ntimescale 1000\nduration 1500\n\
    fragmented no\ntrack 1 sbtl tx3g 1000 1500000 3 und\n";

/// The lines of its samples.
pub const TEXT_SAMPLES: &str = "1 48 3 0 500 0 1\n2 51 3 500 500 0 1\n3 54 2 1000 500 0 1\n";

/// Ends the test and prints both texts, unless they are equal.
fn assert_text(rt: &impl Abort, text: &[u8], expected: &str) {
    assert_eq!(rt; str::from_utf8(text).ok(), Some(expected));
}

#[test]
fn a_fault_of_the_end_has_its_message(rt: HostRuntime) {
    let fault = ScriptFault::End(Error::TooLarge(Limit::BoxSize));
    let text = format!(in rt.alloc(); "{fault}").expect(&rt, "memory");
    assert_text(&rt, text.as_bytes(), "end: too large: box size");
}

#[test]
fn an_error_has_its_message(rt: HostRuntime) {
    let rows = [
        (Error::InvalidData("a text for people"), "invalid data"),
        (Error::BoxNotFound(BoxType::MoovBox), "moov not found"),
    ];
    for (error, message) in rows {
        let text = fault_text(rt.alloc(), &error).expect(&rt, "memory");
        assert_text(&rt, text.as_slice(), message);
    }
}
