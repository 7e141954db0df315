//! Bytes that are changed or cut before they are asked.

use crate::encoded::{Names, encoded};
use std::alloc::{AllocError, Global};

/// A question, and what is done to the bytes before it is asked.
#[derive(Drop)]
pub enum Query<'a> {
    /// It is asked as the bytes are.
    Plain(&'a str),
    /// It is asked after the bytes were cut to so many.
    Cut(&'a str, &'a str),
    /// It is asked after other bytes were written at places.
    Changed(&'a str, &'a str),
}

/// The question in a line, and what is done to the bytes before: `value cut to 12`, or
/// `value with 01 at 8, ffff at 20`.
pub fn query_of(line: &str) -> Query<'_> {
    if let Some((question, length)) = line.split_once(" cut to ") {
        return Query::Cut(question, length);
    }
    match line.split_once(" with ") {
        Some((question, changes)) => Query::Changed(question, changes),
        None => Query::Plain(line),
    }
}

/// So many bytes of these, from the first on; None where there aren't so many.
pub fn cut<'a>(bytes: &'a [u8], length: &str) -> Option<&'a [u8]> {
    let length = length.parse::<usize>().ok()?;
    bytes.get(..length)
}

/// Writes bytes over others from a place on, and answers whether all fit.
fn write_over(bytes: &mut [u8], place: usize, others: &[u8]) -> bool {
    let mut place = place;
    for other in others {
        match bytes.get_mut(place) {
            Some(byte) => *byte = *other,
            None => return false,
        }
        place = place.wrapping_add(1);
    }
    true
}

/// Makes one change, as `ffff at 20`, and answers whether it is one.
fn change(
    alloc: Global,
    names: &Names,
    bytes: &mut [u8],
    change: &str,
) -> Result<bool, AllocError> {
    let Some((words, place)) = change.split_once(" at ") else {
        return Ok(false);
    };
    let Ok(place) = place.parse::<usize>() else {
        return Ok(false);
    };
    match encoded(alloc, names, words)? {
        Some(others) => Ok(write_over(bytes, place, others.as_slice())),
        None => Ok(false),
    }
}

/// The bytes with other bytes at some places; None where that is no change of them.
pub fn changed(
    alloc: Global,
    names: &Names,
    bytes: &[u8],
    changes: &str,
) -> Result<Option<Vec<u8>>, AllocError> {
    let mut bytes = bytes.to_vec(alloc)?;
    let mut is_changed = true;
    for one in changes.split(", ") {
        is_changed = change(alloc, names, bytes.as_mut_slice(), one)? && is_changed;
    }
    Ok(if is_changed { Some(bytes) } else { None })
}
