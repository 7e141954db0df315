//! What boxes are made with: the cursor, lists, texts, maps, copies, and the messages of errors.

use crate::asserts::{assert_equal, assert_that};
use mp4_codec::{
    BoxType, ByteCursor, Error, FixedPointI8, FixedPointU8, FixedPointU16, FourCC, HEADER_EXT_SIZE,
    HEADER_SIZE, Items, KeyedItems, Limit, Text, TryClone,
};
use mp4_entry::{
    DecoderConfigDescriptor, DecoderSpecificDescriptor, ESDescriptor, SLConfigDescriptor,
};
use mp4_leaf::{DataType, ElstEntry, Matrix, RgbColor};
use mp4_plain_movies::encoded::prints;
use mp4_plain_movies::sides::Side;
use mp4_table::{CttsEntry, StscEntry, SttsEntry};
use std::alloc::Global;
use std::collections::HashMap;
use std::process::Abort;

#[test]
fn a_cursor_takes_within_its_bytes(rt: HostRuntime) {
    let bytes = [1, 2, 3, 4];
    let mut cursor = ByteCursor::new(&bytes);
    assert_equal(&rt, cursor.position(), 0);
    assert_that(&rt, 1, cursor.take(3) == Ok([1, 2, 3].as_slice()));
    assert_equal(&rt, cursor.position(), 3);
    assert_that(&rt, 2, cursor.take(2).is_err());
    assert_equal(&rt, cursor.position(), 3);
    assert_equal(&rt, cursor.rest().len(), 1);
    cursor.set_position(u64::MAX);
    assert_that(&rt, 3, cursor.take(1).is_err());
    assert_equal(&rt, cursor.position(), u64::MAX);
    assert_equal(&rt, cursor.rest().len(), 0);
    assert_equal(&rt, cursor.bytes().len(), 4);
    assert_equal(&rt, (HEADER_SIZE, HEADER_EXT_SIZE), (8, 4));
}

/// A list of two.
fn list(rt: &impl Abort, alloc: Global) -> Items<(u32, u8)> {
    let mut list = Items::from(vec![in alloc; (1u32, 2u8)].expect(rt, "memory"));
    list.push((3, 4)).expect(rt, "memory");
    list
}

/// Whether a list is equal to its copy and has two items.
fn is_list_of_two(rt: &impl Abort, alloc: Global) -> bool {
    let list = list(rt, alloc);
    let copy = list.try_clone().expect(rt, "memory");
    let counts = !list.is_empty() && list.iter().count() == 2;
    counts && copy == list
}

/// Whether a list is given back as it was made, and another of its allocator is empty.
fn is_given_back(rt: &impl Abort, alloc: Global) -> bool {
    let list = list(rt, alloc);
    let is_empty = Items::<u8>::new(list.allocator()).is_empty();
    let items: Vec<(u32, u8)> = Vec::from(list);
    is_empty && items.as_slice() == [(1, 2), (3, 4)].as_slice()
}

/// A text of three letters.
fn text(rt: &impl Abort, alloc: Global) -> Text {
    let mut text = Text::from_str(alloc, "un").expect(rt, "memory");
    text.push_str("d").expect(rt, "memory");
    text
}

/// Whether a text is equal to its copy and has three letters.
fn is_text(rt: &impl Abort, alloc: Global) -> bool {
    let text = text(rt, alloc);
    let copy = text.try_clone().expect(rt, "memory");
    let parts = text.as_str() == "und" && text.len() == 3 && Text::new(alloc).is_empty();
    parts && copy == text
}

/// Whether a text is given back as it was made.
fn is_text_given_back(rt: &impl Abort, alloc: Global) -> bool {
    let string = String::from(text(rt, alloc));
    let is_string = string.as_str() == "und";
    is_string && Text::from(string).as_str() == "und"
}

#[test]
fn lists_and_texts_are_made_and_given_back(rt: HostRuntime) {
    assert_that(&rt, 1, is_list_of_two(&rt, rt.alloc()));
    assert_that(&rt, 2, is_given_back(&rt, rt.alloc()));
    assert_that(&rt, 3, is_text(&rt, rt.alloc()));
    assert_that(&rt, 4, is_text_given_back(&rt, rt.alloc()));
}

/// A map into which these are inserted.
fn map(rt: &impl Abort, alloc: Global, rows: &[(Side, u32)]) -> KeyedItems<Side, u32> {
    let mut items: KeyedItems<Side, u32> = KeyedItems::new(alloc);
    for (side, value) in rows {
        items.insert(*side, *value).expect(rt, "memory");
    }
    items
}

/// What a map holds of a key after insertions.
fn held(rt: &impl Abort, alloc: Global, rows: &[(Side, u32)], side: Side) -> Option<u32> {
    let items = map(rt, alloc, rows);
    items.get(side).copied()
}

/// How many keys a map has after insertions, if it says so that it is empty.
fn count(rt: &impl Abort, alloc: Global, rows: &[(Side, u32)]) -> usize {
    let items = map(rt, alloc, rows);
    if items.is_empty() { 0 } else { items.len() }
}

/// Whether maps are equal into which these are inserted.
fn are_equal(rt: &impl Abort, alloc: Global, one: &[(Side, u32)], other: &[(Side, u32)]) -> bool {
    map(rt, alloc, one) == map(rt, alloc, other)
}

/// Whether a map is equal to its copy, given back as it was made and made again of that.
fn is_map_given_back(rt: &impl Abort, alloc: Global, rows: &[(Side, u32)]) -> bool {
    let items = map(rt, alloc, rows);
    let copy = items.try_clone().expect(rt, "memory");
    let map = HashMap::from(items);
    let is_held = map.len() == 2 && map.get(&Side::South).copied() == Some(1);
    is_held && KeyedItems::from(map) == copy
}

#[test]
fn a_map_holds_what_was_inserted_last_in_any_order(rt: HostRuntime) {
    let alloc = rt.alloc();
    let rows = [(Side::East, 7), (Side::West, 9), (Side::East, 8)];
    assert_equal(&rt, held(&rt, alloc, &rows, Side::East), Some(8));
    assert_equal(&rt, held(&rt, alloc, &rows, Side::West), Some(9));
    assert_equal(&rt, held(&rt, alloc, &rows, Side::North), None);
    assert_equal(&rt, held(&rt, alloc, &[], Side::East), None);
    assert_equal(&rt, count(&rt, alloc, &rows), 2);
    assert_equal(&rt, count(&rt, alloc, &[]), 0);
    let one = [(Side::South, 1), (Side::North, 2)];
    let other = [(Side::North, 2), (Side::South, 1)];
    assert_that(&rt, 1, are_equal(&rt, alloc, &one, &other));
    assert_that(&rt, 2, !are_equal(&rt, alloc, &one, &other[..1]));
    assert_that(&rt, 3, is_map_given_back(&rt, alloc, &one));
}

/// Whether the copy of a value is equal to it.
fn is_copied<T: TryClone + PartialEq>(value: &T) -> bool {
    match value.try_clone() {
        Ok(copy) => copy == *value,
        Err(_) => false,
    }
}

/// Whether the copies of numbers and codes are equal to them.
fn numbers_are_copied() -> bool {
    is_copied(&0xffu8)
        && is_copied(&0xffffu16)
        && is_copied(&0xffff_ffffu32)
        && is_copied(&u64::MAX)
        && is_copied(&FourCC::from(*b"isom"))
        && is_copied(&BoxType::UnknownBox(7))
        && is_copied(&(1u8, Some(2u32)))
        && is_copied(&None::<u64>)
}

/// Whether the copies of parts of leaves are equal to them.
fn parts_are_copied() -> bool {
    is_copied(&FixedPointU8::new(1))
        && is_copied(&FixedPointI8::new(-1))
        && is_copied(&FixedPointU16::new(1))
        && is_copied(&Matrix::default())
        && is_copied(&DataType::Other(5))
        && is_copied(&RgbColor {
            red: 1,
            green: 2,
            blue: 3,
        })
        && is_copied(&ElstEntry {
            segment_duration: 1,
            media_time: 2,
            media_rate: 3,
            media_rate_fraction: 4,
        })
}

/// Whether the copies of entries of tables are equal to them.
fn entries_are_copied() -> bool {
    is_copied(&SttsEntry {
        sample_count: 1,
        sample_delta: 2,
    }) && is_copied(&CttsEntry {
        sample_count: 1,
        sample_offset: -2,
    }) && is_copied(&StscEntry {
        first_chunk: 1,
        samples_per_chunk: 2,
        sample_description_index: 3,
        first_sample: 4,
    })
}

/// Whether the copies of the descriptors of a stream are equal to them.
fn descriptors_are_copied() -> bool {
    let dec_specific = DecoderSpecificDescriptor {
        profile: 2,
        freq_index: 3,
        chan_conf: 2,
    };
    let dec_config = DecoderConfigDescriptor {
        object_type_indication: 0x40,
        stream_type: 5,
        up_stream: 0,
        buffer_size_db: 0,
        max_bitrate: 128_000,
        avg_bitrate: 128_000,
        dec_specific,
    };
    let sl_config = SLConfigDescriptor {};
    let stream = ESDescriptor {
        es_id: 1,
        dec_config,
        sl_config,
    };
    is_copied(&stream)
        && is_copied(&dec_config)
        && is_copied(&dec_specific)
        && is_copied(&sl_config)
}

#[test]
fn a_copy_of_a_part_of_a_box_is_equal(rt: HostRuntime) {
    assert_that(&rt, "numbers", numbers_are_copied());
    assert_that(&rt, "parts", parts_are_copied());
    assert_that(&rt, "entries", entries_are_copied());
    assert_that(&rt, "descriptors", descriptors_are_copied());
}

const MESSAGES: [(Error, &str); 21] = [
    (Error::EndOfData, "end of data"),
    (Error::OutOfMemory, "out of memory"),
    (Error::InvalidData("a text for people"), "invalid data"),
    (Error::BoxNotFound(BoxType::MoovBox), "moov not found"),
    (
        Error::Box2NotFound(BoxType::StcoBox, BoxType::Co64Box),
        "stco and co64 not found",
    ),
    (Error::TrakNotFound(7), "trak[7] not found"),
    (
        Error::BoxInTrakNotFound(7, BoxType::MdiaBox),
        "trak[7].mdia not found",
    ),
    (
        Error::BoxInTrafNotFound(7, BoxType::TrunBox),
        "traf[7].trun not found",
    ),
    (
        Error::BoxInStblNotFound(7, BoxType::UrlBox),
        "trak[7].stbl.url  not found",
    ),
    (
        Error::EntryInStblNotFound(7, BoxType::SttsBox, 4294967295),
        "trak[7].stbl.stts.entry[4294967295] not found",
    ),
    (
        Error::EntryInTrunNotFound(1, BoxType::TrunBox, 1),
        "traf[1].trun.trun.entry[1] not found",
    ),
    (
        Error::UnsupportedBoxVersion(BoxType::MetaBox, 255),
        "meta version 255 is not supported",
    ),
    (Error::Ended, "writer ended"),
    (Error::ZeroTimescale, "timescale is zero"),
    (
        Error::TooLarge(Limit::SampleBytes),
        "too large: sample bytes",
    ),
    (
        Error::TooLarge(Limit::SampleCount),
        "too large: sample count",
    ),
    (
        Error::TooLarge(Limit::TrackDuration),
        "too large: track duration",
    ),
    (Error::TooLarge(Limit::TrackCount), "too large: track count"),
    (Error::TooLarge(Limit::BoxSize), "too large: box size"),
    (Error::TooLarge(Limit::Value), "too large: value"),
    (
        Error::Unrepresentable("a text for people"),
        "unrepresentable",
    ),
];

/// Whether an error prints as a message.
fn has_message(rt: &impl Abort, alloc: Global, error: &Error, message: &str) -> bool {
    prints(alloc, error, message).expect(rt, "memory")
}

#[test]
fn an_error_has_its_message(rt: HostRuntime) {
    for (error, message) in &MESSAGES {
        assert_that(&rt, *message, has_message(&rt, rt.alloc(), error, message));
    }
}
