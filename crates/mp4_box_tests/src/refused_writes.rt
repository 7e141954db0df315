//! Values that no bytes give: those that are refused when they are written, and those that are written as another.

use crate::asserts::{assert_equal, assert_that};
use mp4_codec::{
    BoxHeader, BoxType, Error, Items, Limit, Text, WriteBox, check_all, check_optional,
    check_value, check_version,
};
use mp4_leaf::{DataBox, DataType, ElstBox, ElstEntry, HdlrBox, MdhdBox, MvhdBox, TkhdBox, UrlBox};
use mp4_moof::{EmsgBox, MehdBox, TfdtBox, TfhdBox, TrunBox};
use mp4_plain_movies::encoded::{hex, is_invalid, is_past_its_field, is_unrepresentable, writes};
use mp4_table::{StscBox, StscEntry, StszBox};
use std::alloc::Global;
use std::process::Abort;

/// The first number that has no room in 32 bits.
const PAST: u64 = 0x1_0000_0000;

/// Whether a box has this size and is invalid.
fn is_invalid_of_size<B: WriteBox>(rt: &impl Abort, alloc: Global, leaf: &B, size: u64) -> bool {
    is_invalid(alloc, leaf).expect(rt, "memory") && leaf.box_size() == size
}

/// Whether a box has this size, and a number past its field.
fn is_late<B: WriteBox>(rt: &impl Abort, alloc: Global, leaf: &B, size: u64) -> bool {
    is_past_its_field(alloc, leaf).expect(rt, "memory") && leaf.box_size() == size
}

/// A movie header of a version, with times and a duration.
fn movie_header(version: u8, times: (u64, u64, u64)) -> MvhdBox {
    MvhdBox {
        version,
        creation_time: times.0,
        modification_time: times.1,
        duration: times.2,
        ..MvhdBox::default()
    }
}

/// A track header of a version, with times and a duration.
fn track_header(version: u8, times: (u64, u64, u64)) -> TkhdBox {
    TkhdBox {
        version,
        creation_time: times.0,
        modification_time: times.1,
        duration: times.2,
        ..TkhdBox::default()
    }
}

/// An edit list of a version: an edit, and an empty one.
fn edits(rt: &impl Abort, alloc: Global, version: u8, duration: u64, time: u64) -> ElstBox {
    let first = ElstEntry {
        segment_duration: duration,
        media_time: time,
        media_rate: 5,
        media_rate_fraction: 6,
    };
    let second = ElstEntry {
        segment_duration: 7,
        media_time: 0xffff_ffff,
        media_rate: 1,
        media_rate_fraction: 0,
    };
    ElstBox {
        version,
        flags: 0,
        entries: Items::from(vec![in alloc; first, second].expect(rt, "memory")),
    }
}

/// Whether an edit list is late in version 0 and invalid in version 2.
fn edits_are_refused(rt: &impl Abort, alloc: Global, duration: u64, time: u64) -> bool {
    let late = edits(rt, alloc, 0, duration, time);
    let invalid = edits(rt, alloc, 2, duration, time);
    is_late(rt, alloc, &late, 40) && is_invalid_of_size(rt, alloc, &invalid, 40)
}

/// A decode time past 32 bits.
fn decode_time(version: u8) -> TfdtBox {
    TfdtBox {
        version,
        flags: 0x010203,
        base_media_decode_time: PAST,
    }
}

/// A whole duration past 32 bits.
fn whole_duration(version: u8) -> MehdBox {
    MehdBox {
        version,
        flags: 0x010203,
        fragment_duration: PAST,
    }
}

#[test]
fn a_number_past_32_bits_is_written_in_version_one_alone(rt: HostRuntime) {
    let alloc = rt.alloc();
    for times in [(PAST, 0, 0), (0, PAST, 0), (0, 0, PAST)] {
        assert_that(
            &rt,
            "mvhd 0",
            is_late(&rt, alloc, &movie_header(0, times), 108),
        );
        assert_that(
            &rt,
            "mvhd 2",
            is_invalid_of_size(&rt, alloc, &movie_header(2, times), 108),
        );
        assert_that(
            &rt,
            "tkhd 0",
            is_late(&rt, alloc, &track_header(0, times), 92),
        );
        assert_that(
            &rt,
            "tkhd 2",
            is_invalid_of_size(&rt, alloc, &track_header(2, times), 92),
        );
    }
    assert_that(
        &rt,
        "elst, duration",
        edits_are_refused(&rt, alloc, PAST, 0),
    );
    assert_that(&rt, "elst, time", edits_are_refused(&rt, alloc, 0, PAST));
    assert_that(&rt, "tfdt 0", is_late(&rt, alloc, &decode_time(0), 16));
    assert_that(
        &rt,
        "tfdt 2",
        is_invalid_of_size(&rt, alloc, &decode_time(2), 16),
    );
    assert_that(&rt, "mehd 0", is_late(&rt, alloc, &whole_duration(0), 16));
    assert_that(
        &rt,
        "mehd 2",
        is_invalid_of_size(&rt, alloc, &whole_duration(2), 16),
    );
}

/// Whether a language that can't be written is refused last: a number past its field comes before it, and an unknown
/// version before that.
fn is_refused_last(rt: &impl Abort, alloc: Global, language: &str) -> bool {
    let mut leaf = MdhdBox::default(alloc).expect(rt, "memory");
    leaf.language = Text::from_str(alloc, language).expect(rt, "memory");
    let is_sized = leaf.get_size() == 32;
    let is_alone = is_unrepresentable(alloc, &leaf).expect(rt, "memory");
    leaf.duration = PAST;
    let is_before = is_past_its_field(alloc, &leaf).expect(rt, "memory");
    leaf.version = 2;
    let is_first = is_invalid(alloc, &leaf).expect(rt, "memory");
    is_sized && is_alone && is_before && is_first
}

/// Whether the first of three headers that can't be written is the answer: one of no version, before a late one.
fn first_is_the_answer(rt: &impl Abort, alloc: Global) -> bool {
    let mut headers = Items::new(alloc);
    headers.push(MvhdBox::default()).expect(rt, "memory");
    let is_written = check_all(headers.as_slice()).is_ok();
    headers
        .push(movie_header(2, (0, 0, 0)))
        .expect(rt, "memory");
    headers
        .push(movie_header(0, (0, 0, PAST)))
        .expect(rt, "memory");
    is_written && matches!(check_all(headers.as_slice()), Err(Error::InvalidData(_)))
}

#[test]
fn the_first_reason_in_written_order_is_the_answer(rt: HostRuntime) {
    for language in ["", "en", "engl", "ENG", "en_", "e\u{e9}"] {
        assert_that(&rt, language, is_refused_last(&rt, rt.alloc(), language));
    }
    assert_that(&rt, "headers", first_is_the_answer(&rt, rt.alloc()));
    let none: Option<MvhdBox> = None;
    let late = movie_header(0, (0, 0, PAST));
    assert_equal(&rt, check_optional(&none), Ok(()));
    assert_equal(&rt, late.check(), Err(Error::TooLarge(Limit::Value)));
    assert_equal(
        &rt,
        check_optional(&Some(late)),
        Err(Error::TooLarge(Limit::Value)),
    );
}

/// Whether a version is invalid.
fn is_unknown(version: u8) -> bool {
    matches!(check_version(version), Err(Error::InvalidData(_)))
}

#[test]
fn a_version_is_0_or_1_and_a_number_fits_it(rt: HostRuntime) {
    assert_equal(&rt, (check_version(0), check_version(1)), (Ok(()), Ok(())));
    assert_that(&rt, "2 and 255", is_unknown(2) && is_unknown(255));
    for version in [0, 2] {
        assert_equal(&rt, check_value(version, PAST - 1), Ok(()));
        assert_equal(
            &rt,
            check_value(version, PAST),
            Err(Error::TooLarge(Limit::Value)),
        );
    }
    assert_equal(&rt, check_value(1, u64::MAX), Ok(()));
}

/// A header of track 9 with these flags, and all five fields or none.
fn fragment_header(flags: u32, is_full: bool) -> TfhdBox {
    let mut leaf = TfhdBox::default();
    leaf.flags = flags;
    leaf.track_id = 9;
    if is_full {
        leaf.base_data_offset = Some(0x0000_0001_0000_0002);
        leaf.sample_description_index = Some(3);
        leaf.default_sample_duration = Some(4);
        leaf.default_sample_size = Some(5);
        leaf.default_sample_flags = Some(6);
    }
    leaf
}

/// A list of two numbers.
fn two(rt: &impl Abort, alloc: Global, first: u32, second: u32) -> Items<u32> {
    Items::from(vec![in alloc; first, second].expect(rt, "memory"))
}

/// A run of so many samples with these flags, that has everything for two samples.
fn full_run(rt: &impl Abort, alloc: Global, flags: u32, count: u32) -> TrunBox {
    let mut leaf = TrunBox::default(alloc).expect(rt, "memory");
    leaf.flags = flags;
    leaf.sample_count = count;
    leaf.data_offset = Some(-2);
    leaf.first_sample_flags = Some(0x0200_0000);
    leaf.sample_durations = two(rt, alloc, 0x11, 0x12);
    leaf.sample_sizes = two(rt, alloc, 0x21, 0x22);
    leaf.sample_flags = two(rt, alloc, 0x31, 0x32);
    leaf.sample_cts = two(rt, alloc, 0x41, 0xffff_fffe);
    leaf
}

/// Whether a run of two samples with these flags and nothing else is invalid.
fn lacks_a_part(rt: &impl Abort, alloc: Global, flags: u32) -> bool {
    let mut leaf = TrunBox::default(alloc).expect(rt, "memory");
    leaf.flags = flags;
    leaf.sample_count = 2;
    is_invalid_of_size(rt, alloc, &leaf, 16)
}

/// Whether a run of these flags and samples that has everything for two is invalid.
fn has_another_part(rt: &impl Abort, alloc: Global, flags: u32, count: u32) -> bool {
    is_invalid_of_size(rt, alloc, &full_run(rt, alloc, flags, count), 56)
}

/// Whether a run with one composition offset more than samples is invalid.
fn has_three_offsets(rt: &impl Abort, alloc: Global) -> bool {
    let mut leaf = full_run(rt, alloc, 0xf05, 2);
    leaf.sample_cts.push(0x43).expect(rt, "memory");
    is_invalid_of_size(rt, alloc, &leaf, 60)
}

/// Whether a run without its sizes is invalid.
fn has_no_sizes(rt: &impl Abort, alloc: Global) -> bool {
    let mut leaf = full_run(rt, alloc, 0xf05, 2);
    leaf.sample_sizes = Items::new(alloc);
    is_invalid_of_size(rt, alloc, &leaf, 48)
}

#[test]
fn a_fragments_flags_and_fields_have_to_agree(rt: HostRuntime) {
    let alloc = rt.alloc();
    for flag in [0x1, 0x2, 0x8, 0x10, 0x20] {
        let without = fragment_header(flag, false);
        assert_that(&rt, flag, is_invalid_of_size(&rt, alloc, &without, 16));
        let with_more = fragment_header(0x3b ^ flag, true);
        assert_that(&rt, flag, is_invalid_of_size(&rt, alloc, &with_more, 40));
    }
    for flag in [0x1, 0x4, 0x100, 0x200, 0x400, 0x800] {
        assert_that(&rt, flag, lacks_a_part(&rt, alloc, flag));
        assert_that(&rt, flag, has_another_part(&rt, alloc, 0xf05 ^ flag, 2));
    }
    for count in [0, 1, 3, 0xffff_ffff] {
        assert_that(&rt, count, has_another_part(&rt, alloc, 0xf05, count));
    }
    assert_that(&rt, "three offsets", has_three_offsets(&rt, alloc));
    assert_that(&rt, "no sizes", has_no_sizes(&rt, alloc));
}

/// Whether a message of scheme `a` with these times is invalid in a version.
fn has_another_time(
    rt: &impl Abort,
    alloc: Global,
    version: u8,
    delta: Option<u32>,
    time: Option<u64>,
    size: u64,
) -> bool {
    let mut leaf = EmsgBox::default(alloc).expect(rt, "memory");
    leaf.version = version;
    leaf.presentation_time_delta = delta;
    leaf.presentation_time = time;
    leaf.scheme_id_uri = Items::from(b"a".to_vec(alloc).expect(rt, "memory"));
    is_invalid_of_size(rt, alloc, &leaf, size)
}

#[test]
fn a_message_is_written_with_the_time_of_its_version_alone(rt: HostRuntime) {
    for (version, delta, time, size) in [
        (0, None, None, 31),
        (0, Some(2), Some(5), 31),
        (0, None, Some(5), 31),
        (1, None, None, 35),
        (1, Some(2), Some(5), 35),
        (1, Some(2), None, 35),
        (2, None, None, 31),
        (2, Some(2), Some(5), 31),
        (2, Some(2), None, 31),
    ] {
        assert_that(
            &rt,
            version,
            has_another_time(&rt, rt.alloc(), version, delta, time, size),
        );
    }
}

/// Whether sizes are refused whose list has not as many numbers as the table says, and their size counts the list.
fn sizes_are_refused(
    rt: &impl Abort,
    alloc: Global,
    sample_size: u32,
    count: u32,
    listed: u32,
    size: u64,
) -> bool {
    let mut table = StszBox::default(alloc).expect(rt, "memory");
    table.sample_size = sample_size;
    table.sample_count = count;
    for number in 1..=listed {
        table.sample_sizes.push(number).expect(rt, "memory");
    }
    is_invalid_of_size(rt, alloc, &table, size)
}

#[test]
fn a_table_that_cannot_be_written_is_refused(rt: HostRuntime) {
    let alloc = rt.alloc();
    for (sample_size, count, listed, size) in [
        (0, 1, 0, 20),
        (0, 0, 1, 24),
        (0, 2, 3, 32),
        (4, 2, 2, 28),
        (4, 0, 1, 24),
    ] {
        assert_that(
            &rt,
            size,
            sizes_are_refused(&rt, alloc, sample_size, count, listed, size),
        );
    }
}

/// Why a header of this size isn't written, if a buffer of one byte is then as it was before.
fn refused_header(rt: &impl Abort, alloc: Global, size: u64) -> Option<Error> {
    let mut out = vec![in alloc; 7u8].expect(rt, "memory");
    match BoxHeader::new(BoxType::MoovBox, size).write(&mut out) {
        Err(error) if out.as_slice() == [7].as_slice() => Some(error),
        _ => None,
    }
}

#[test]
fn a_header_of_a_size_below_8_is_not_written(rt: HostRuntime) {
    for size in 1..8 {
        let refused = refused_header(&rt, rt.alloc(), size);
        assert_that(&rt, size, matches!(&refused, Some(Error::InvalidData(_))));
    }
}

/// Whether a box is written so.
fn is_written<B: WriteBox>(rt: &impl Abort, alloc: Global, leaf: &B, text: &str) -> bool {
    writes(alloc, leaf, text).expect(rt, "the box is written")
}

/// Whether a movie header with flags past 24 bits is written with their low ones.
fn low_flags_are_written(rt: &impl Abort, alloc: Global) -> bool {
    let leaf = MvhdBox {
        flags: 0xffab_cdef,
        next_track_id: 2,
        ..MvhdBox::default()
    };
    let text = "0000006c 6d766864 00 abcdef 00000000 00000000 000003e8 00000000 00010000 0100 \
        00000000000000000000 00010000 00000000 00000000 00000000 00010000 00000000 00000000 00000000 40000000 \
        000000000000000000000000000000000000000000000000 00000002";
    is_written(rt, alloc, &leaf, text)
}

/// Whether a name with a zero byte is written whole.
fn name_is_written_whole(rt: &impl Abort, alloc: Global) -> bool {
    let mut leaf = HdlrBox::default(alloc).expect(rt, "memory");
    leaf.name = Items::from(hex(alloc, "480069").expect(rt, "memory"));
    let text = "00000024 68646c72 00 000000 00000000 00000000 000000000000000000000000 480069 00";
    is_written(rt, alloc, &leaf, text)
}

/// Whether a location of one zero byte is written whole.
fn location_is_written_whole(rt: &impl Abort, alloc: Global) -> bool {
    let mut leaf = UrlBox::default(alloc).expect(rt, "memory");
    leaf.location = Items::from(hex(alloc, "00").expect(rt, "memory"));
    is_written(rt, alloc, &leaf, "0000000e 75726c20 00 000001 00 00")
}

/// Whether data of another name for the type with the number 1 are written so.
fn number_is_written(rt: &impl Abort, alloc: Global) -> bool {
    let mut leaf = DataBox::default(alloc).expect(rt, "memory");
    leaf.data_type = DataType::Other(1);
    is_written(rt, alloc, &leaf, "00000010 64617461 00000001 00000000")
}

/// Whether runs of chunks are written without the numbers of their first samples.
fn first_samples_are_not_written(rt: &impl Abort, alloc: Global) -> bool {
    let mut table = StscBox::default(alloc).expect(rt, "memory");
    for (first_chunk, samples_per_chunk, first_sample) in [(1, 1, 7), (19026, 14, 0)] {
        let entry = StscEntry {
            first_chunk,
            samples_per_chunk,
            sample_description_index: 1,
            first_sample,
        };
        table.entries.push(entry).expect(rt, "memory");
    }
    let text =
        "00000028 73747363 00000000 00000002 00000001 00000001 00000001 00004a52 0000000e 00000001";
    is_written(rt, alloc, &table, text)
}

#[test]
fn a_value_that_no_bytes_give_is_written_as_another(rt: HostRuntime) {
    assert_that(&rt, "low flags", low_flags_are_written(&rt, rt.alloc()));
    assert_that(&rt, "name", name_is_written_whole(&rt, rt.alloc()));
    assert_that(&rt, "location", location_is_written_whole(&rt, rt.alloc()));
    assert_that(&rt, "number", number_is_written(&rt, rt.alloc()));
    assert_that(
        &rt,
        "first samples",
        first_samples_are_not_written(&rt, rt.alloc()),
    );
    let mut leaf = TkhdBox::default();
    leaf.set_width(65535);
    leaf.set_height(1);
    assert_equal(
        &rt,
        (leaf.width.raw_value(), leaf.height.raw_value()),
        (0xffff_0000, 0x0001_0000),
    );
}
