//! A run over a file of fragments.

use super::runs::{assert_printed, put_file, ran, remove};
use std::alloc::Global;
use std::process::Abort;

/// File type and movie of a text track without samples, of whose fragments' samples it says that they last for 40
/// ticks.
const MOVIE: [u8; 543] = *b"\
    \0\0\0 ftypisom\0\0\x02\0isomiso2avc1mp41\0\0\x01\xffmoov\0\0\0lmvhd\0\0\0\0\0\0\0\0\0\0\0\0\
    \0\0\x03\xe8\0\0\x05\xdc\0\x01\0\0\x01\0\0\0\0\0\0\0\0\0\0\0\0\x01\0\0\0\0\0\0\0\0\0\0\0\0\0\
    \0\0\x01\0\0\0\0\0\0\0\0\0\0\0\0\0\0@\0\0\0\0\0\0\0\0\0\0\0\0\0\0\0\0\0\0\0\0\0\0\0\0\0\0\0\
    \0\0\0\x01\0\0\x01ctrak\0\0\0\x5ctkhd\0\0\0\x01\0\0\0\0\0\0\0\0\0\0\0\x01\0\0\0\0\0\0\x05\
    \xdc\0\0\0\0\0\0\0\0\0\0\0\0\x01\0\0\0\0\x01\0\0\0\0\0\0\0\0\0\0\0\0\0\0\0\x01\0\0\0\0\0\0\0\
    \0\0\0\0\0\0\0@\0\0\0\0\0\0\0\0\0\0\0\0\0\0\xffmdia\0\0\0 mdhd\0\0\0\0\0\0\0\0\0\0\0\0\0\0\
    \x03\xe8\0\0\x05\xdcU\xc4\0\0\0\0\0!hdlr\0\0\0\0\0\0\0\0sbtl\0\0\0\0\0\0\0\0\0\0\0\0\0\0\0\0\
    \xb6minf\0\0\0$dinf\0\0\0\x1cdref\0\0\0\0\0\0\0\x01\0\0\0\x0curl \0\0\0\x01\0\0\0\x8astbl\0\
    \0\0>stsd\0\0\0\0\0\0\0\x01\0\0\0.tx3g\0\0\0\0\0\0\0\x01\0\0\0\0\x01\xff\0\0\0\xff\0\0\0\0\0\
    \0\0\0\0\0\0\0\0\x01\0\x10\xff\xff\xff\xff\0\0\0\x10stts\0\0\0\0\0\0\0\0\0\0\0\x10stsc\0\0\0\
    \0\0\0\0\0\0\0\0\x14stsz\0\0\0\0\0\0\0\0\0\0\0\0\0\0\0\x10stco\0\0\0\0\0\0\0\0\0\0\0(mvex\0\
    \0\0 trex\0\0\0\0\0\0\0\x01\0\0\0\x01\0\0\0(\0\0\0\0\0\0\0\0";

/// A fragment of two samples, and the media data after it.
const TWO_SAMPLES: &[u8] = b"\0\0\0Lmoof\0\0\0\x10mfhd\0\0\0\0\0\0\0\x01\
    \0\0\x004traf\0\0\0\x10tfhd\0\x02\0\0\0\0\0\x01\
    \0\0\0\x1ctrun\0\0\x02\x01\0\0\0\x02\0\0\0T\0\0\0\x03\0\0\0\x04\
    \0\0\0\x0fmdatabcdefg";

/// The movie with these boxes after it.
fn with_fragment(rt: &impl Abort, alloc: Global, fragment: &[u8]) -> Vec<u8> {
    let mut file = MOVIE.to_vec(alloc).expect(rt, "memory");
    file.extend_from_slice(fragment).expect(rt, "memory");
    file
}

const TWO_SAMPLE_LINES: &str = "1 627 3 0 40 0 1\n2 630 4 40 40 0 1\n";

const TWO_SAMPLE_INFO: &str =
    "brand isom 512\nbrands isom iso2 avc1 mp41\nsize 634\ntimescale 1000\nduration 1500\n\
    fragmented yes\ntrack 1 sbtl tx3g 1000 1500000 2 und\n";

#[test]
fn a_fragmented_file_is_described_and_its_samples_listed(rt: HostRuntime) {
    let file = with_fragment(&rt, rt.alloc(), TWO_SAMPLES);
    put_file(&rt, "fragmented.mp4", file.as_slice());
    let described = ran(&rt, "info fragmented.mp4", &mut b"".as_slice());
    let listed = ran(&rt, "samples fragmented.mp4 1", &mut b"".as_slice());
    remove(&rt, "fragmented.mp4");
    assert_printed(&rt, &described, TWO_SAMPLE_INFO);
    assert_printed(&rt, &listed, TWO_SAMPLE_LINES);
}
