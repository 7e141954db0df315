//! The references of a movie's tracks to others (ISO/IEC 14496-12, 8.3.3).

ghost use Rattle.std.specs.Prelude.{◌≡◌, ◌↔◌, ◌++◌, IfOk, IsTrue, OnOk};
ghost use Rattle.mp4_codec.specs.ExactTest.{by_law, by_test, field_tests};
ghost use Rattle.mp4_codec.specs.contracts.box_type.BoxTypeExactEq.TheImpl.Laws.{lawful as box_type_laws};
ghost use Rattle.mp4_remux.specs.References.{of_box, of_kind, of_track, references_in};

use crate::box_bytes::{BoxBytes, first_box};
use crate::movie_box::REFERENCES;
use byteorder::{BigEndian, ByteOrder};
use mp4_codec::{BoxType, ExactEq, Put, is_equal};
use std::alloc::{AllocError, Global};

/// A reference of a track to another.
#[derive(Clone, Copy, Debug, Drop, PartialEq, Eq)]
pub struct Reference {
    /// The id of the track that has it.
    pub track_id: u32,
    /// Its type, as `chap` of one to chapters.
    pub kind: BoxType,
    /// The id that it names.
    pub to: u32,
}

impl ExactEq for Reference {
    ghost exact = { by_test (Prim.hlevel (field_tests, by_law box_type_laws.exact)) };
}

/// Adds a track's references of one type.
fn add_kind(track_id: u32, one: &BoxBytes, list: &mut Vec<Reference>) -> Put
    ensures more { OnOk result (list.new.items
        ≡ list.old.items ++ of_kind track_id one.now.name one.now.payload.now) }
{
    let kind = one.name;
    let mut rest = one.payload;
    while rest.len() >= 4 {
        let to = BigEndian::read_u32(rest);
        list.push(Reference { track_id, kind, to })?;
        rest = &rest[4..];
    }
    Ok(())
}

/// Adds a track's references that are in a box of it.
fn add_box(track_id: u32, one: &BoxBytes, list: &mut Vec<Reference>) -> Put
    ensures more { OnOk result (list.new.items
        ≡ list.old.items ++ of_box track_id one.now.name one.now.payload.now) }
{
    if u32::from(one.name) != REFERENCES {
        return Ok(());
    }
    let mut rest = one.payload;
    while let Some(kind) = first_box(rest) {
        add_kind(track_id, &kind, list)?;
        rest = kind.after;
    }
    Ok(())
}

/// Adds a track's references, of which this is the payload.
fn add_track(track_id: u32, track: &[u8], list: &mut Vec<Reference>) -> Put
    ensures more { OnOk result (list.new.items ≡ list.old.items ++ of_track track_id track.now) }
{
    let mut rest = track;
    while let Some(one) = first_box(rest) {
        add_box(track_id, &one, list)?;
        rest = one.after;
    }
    Ok(())
}

/// The references in a movie box of these bytes, whose tracks have these ids, in the order of their boxes.
pub(crate) fn references_in(
    alloc: Global,
    movie: &[u8],
    ids: &[u32],
) -> Result<Vec<Reference>, AllocError>
    ensures list { IfOk result (λ list. list.items ≡ references_in movie.now ids.now) }
{
    let mut list = Vec::new(alloc);
    let Some(movie) = first_box(movie) else {
        return Ok(list);
    };
    let mut rest = movie.payload;
    let mut i = 0;
    while let Some(one) = first_box(rest) {
        rest = one.after;
        if i >= ids.len() {
            return Ok(list);
        }
        if u32::from(one.name) == u32::from(BoxType::TrakBox) {
            add_track(ids[i], one.payload, &mut list)?;
            i += 1;
        }
    }
    Ok(list)
}

/// Whether two lists of references are the same.
pub(crate) fn are_same(one: &[Reference], other: &[Reference]) -> bool
    ensures { IsTrue result ↔ (one.now ≡ other.now) }
{
    if one.len() != other.len() {
        return false;
    }
    let mut i = 0;
    while i < one.len() {
        if !is_equal(&one[i], &other[i]) {
            return false;
        }
        i += 1;
    }
    true
}
