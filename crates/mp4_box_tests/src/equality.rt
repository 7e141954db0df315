//! Values of the types that no contract of `is_equal` is about: such as differ in one field are unequal, and each is
//! equal to itself.

use crate::asserts::assert_that;
use mp4_codec::{BoxType, Child, Error, Limit, Malformed};
use mp4_plain_movies::equality::compares_each;

/// Whether children that differ in their type or their payload are unequal. Where the payload lies doesn't count.
fn children_differ() -> bool {
    let bytes = [1, 2, 1, 2];
    let name = BoxType::FreeBox;
    let one = Child {
        name,
        payload: &bytes[..2],
    };
    let alike = Child {
        name,
        payload: &bytes[2..],
    };
    let others = [
        Child {
            name: BoxType::WideBox,
            ..one
        },
        Child {
            payload: &bytes[1..3],
            ..one
        },
        Child {
            payload: &bytes[..1],
            ..one
        },
    ];
    compares_each(&one, &alike, &others)
}

/// Whether causes of a field that differ in their text are unequal.
fn malformed_fields_differ() -> bool {
    let one = Malformed { text: "ab" };
    let alike = Malformed { text: "ab" };
    let others = [Malformed { text: "ac" }, Malformed { text: "a" }];
    compares_each(&one, &alike, &others)
}

#[test]
fn children_and_causes_of_fields_that_differ_are_unequal(rt: HostRuntime) {
    assert_that(&rt, "children", children_differ());
    assert_that(&rt, "causes", malformed_fields_differ());
}

const FIRST: BoxType = BoxType::MoovBox;

const OTHER: BoxType = BoxType::TrakBox;

/// Errors of each kind, and such that differ from them in one field: no two are the same.
const ERRORS: [Error; 40] = [
    Error::EndOfData,
    Error::OutOfMemory,
    Error::InvalidData("ab"),
    Error::InvalidData("ac"),
    Error::InvalidData("a"),
    Error::BoxNotFound(FIRST),
    Error::BoxNotFound(OTHER),
    Error::BoxNotFound(BoxType::UnknownBox(1)),
    Error::BoxNotFound(BoxType::UnknownBox(2)),
    Error::Box2NotFound(FIRST, FIRST),
    Error::Box2NotFound(FIRST, OTHER),
    Error::Box2NotFound(OTHER, FIRST),
    Error::TrakNotFound(1),
    Error::TrakNotFound(2),
    Error::BoxInTrakNotFound(1, FIRST),
    Error::BoxInTrakNotFound(1, OTHER),
    Error::BoxInTrakNotFound(2, FIRST),
    Error::BoxInTrafNotFound(1, FIRST),
    Error::BoxInTrafNotFound(1, OTHER),
    Error::BoxInTrafNotFound(2, FIRST),
    Error::BoxInStblNotFound(1, FIRST),
    Error::BoxInStblNotFound(1, OTHER),
    Error::BoxInStblNotFound(2, FIRST),
    Error::EntryInStblNotFound(1, FIRST, 1),
    Error::EntryInStblNotFound(1, FIRST, 2),
    Error::EntryInStblNotFound(1, OTHER, 1),
    Error::EntryInStblNotFound(2, FIRST, 1),
    Error::EntryInTrunNotFound(1, FIRST, 1),
    Error::EntryInTrunNotFound(1, FIRST, 2),
    Error::EntryInTrunNotFound(1, OTHER, 1),
    Error::EntryInTrunNotFound(2, FIRST, 1),
    Error::UnsupportedBoxVersion(FIRST, 1),
    Error::UnsupportedBoxVersion(FIRST, 2),
    Error::UnsupportedBoxVersion(OTHER, 1),
    Error::Ended,
    Error::ZeroTimescale,
    Error::TooLarge(Limit::Value),
    Error::TooLarge(Limit::BoxSize),
    Error::Unrepresentable("ab"),
    Error::Unrepresentable("ac"),
];

/// Whether an error is equal to the one at its own place of the list, and unequal to each other one.
fn is_told(place: usize, error: &Error) -> bool {
    let mut all = true;
    for (at, other) in ERRORS.iter().enumerate() {
        let is_same = place == at;
        all = all && (*error == *other) == is_same && (*error != *other) != is_same;
    }
    all
}

#[test]
fn errors_that_differ_are_unequal(rt: HostRuntime) {
    for (place, error) in ERRORS.iter().enumerate() {
        assert_that(&rt, place, is_told(place, error));
    }
}
