//! Values of the types that no contract of `is_equal` is about: such as differ in one field are unequal, and each is
//! equal to itself and to one of the same fields.

use crate::asserts::assert_that;
use mp4_media::{SampleQuery, is_equal_sample};
use mp4_plain_movies::equality::compares_each;
use mp4_samples::SampleRef;

/// A sample that is borrowed.
fn borrowed(bytes: &[u8]) -> SampleRef<'_> {
    SampleRef {
        offset: 9,
        start_time: 1,
        duration: 2,
        rendering_offset: -3,
        is_sync: true,
        bytes,
    }
}

/// Whether samples that are borrowed and differ in any one field are unequal. Where their bytes lie in memory doesn't
/// count.
fn borrowed_samples_differ() -> bool {
    let text = [b'a', b'b', b'a', b'b'];
    let one = borrowed(&text[..2]);
    let alike = borrowed(&text[2..]);
    let others = [
        SampleRef { offset: 8, ..one },
        SampleRef {
            start_time: 4,
            ..one
        },
        SampleRef { duration: 4, ..one },
        SampleRef {
            rendering_offset: 3,
            ..one
        },
        SampleRef {
            is_sync: false,
            ..one
        },
        borrowed(&text[1..3]),
        borrowed(&text[..1]),
    ];
    let mut all = compares_each(&one, &alike, &others) && is_equal_sample(&one, &alike);
    for other in others.iter() {
        all = all && !is_equal_sample(&one, other);
    }
    all
}

/// Whether questions for samples that differ in any one field are unequal.
fn queries_differ() -> bool {
    let one = SampleQuery {
        bytes: b"ab",
        start: 1,
        size: 2,
        track_id: 3,
        number: 4,
    };
    let alike = one;
    let others = [
        SampleQuery {
            bytes: b"ac",
            ..one
        },
        SampleQuery { start: 5, ..one },
        SampleQuery { size: 5, ..one },
        SampleQuery { track_id: 5, ..one },
        SampleQuery { number: 5, ..one },
    ];
    compares_each(&one, &alike, &others)
}

#[test]
fn borrowed_samples_and_queries_that_differ_are_unequal(rt: HostRuntime) {
    assert_that(&rt, 1, borrowed_samples_differ() && queries_differ());
}
