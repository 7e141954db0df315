//! Movies with segment indexes (`sidx`) that are rewritten with their movie box in front, or refused for them.

use crate::asserts::assert_that;
use crate::files::{DATA, UNKNOWN, file_type, joined, movie_of_tables, movie_with};
use crate::sources::Zeros;
use mp4_remux::{RemuxError, choose, move_to_front};
use std::alloc::Global;
use std::process::Abort;

/// How many bytes the movie box has.
const MOVIE: usize = 855;

/// The head of an index of version 0 with two entries, and what is before its `first_offset`.
const SHORT_HEAD: [u8; 24] = *b"\0\0\0\x38sidx\0\0\0\0\0\0\0\x01\0\0\x03\xe8\0\0\0\0";

/// The same of version 1, whose times and `first_offset` have 64 bits.
const LONG_HEAD: [u8; 28] = *b"\0\0\0\x40sidx\x01\0\0\0\0\0\0\x01\0\0\x03\xe8\0\0\0\0\0\0\0\0";

/// An entry that refers to so many bytes; the highest bit says that they begin with another index.
fn entry(rt: &impl Abort, alloc: Global, size: u32) -> Vec<u8> {
    joined(rt, alloc, &[&size.to_be_bytes(), b"\0\0\x01\xf4\x90\0\0\0"])
}

/// An index of two entries, which refer to bytes so many bytes after it.
fn short_index(
    rt: &impl Abort,
    alloc: Global,
    first_offset: u32,
    first: u32,
    second: u32,
) -> Vec<u8> {
    joined(
        rt,
        alloc,
        &[
            &SHORT_HEAD,
            &first_offset.to_be_bytes(),
            b"\0\0\0\x02",
            &entry(rt, alloc, first),
            &entry(rt, alloc, second),
        ],
    )
}

/// The same of version 1.
fn long_index(
    rt: &impl Abort,
    alloc: Global,
    first_offset: u64,
    first: u32,
    second: u32,
) -> Vec<u8> {
    joined(
        rt,
        alloc,
        &[
            &LONG_HEAD,
            &first_offset.to_be_bytes(),
            b"\0\0\0\x02",
            &entry(rt, alloc, first),
            &entry(rt, alloc, second),
        ],
    )
}

/// Where the first and the second chunk of the file are whose data comes after its file type and so many bytes.
fn chunks_after(len: usize) -> (u32, u32) {
    let len = u32::try_from(len).unwrap_or(u32::MAX);
    (len.saturating_add(48), len.saturating_add(54))
}

/// A file with an index between its file type and its data, and its movie box and another box after that.
fn with_index(rt: &impl Abort, alloc: Global, index: &[u8]) -> Vec<u8> {
    let (first, second) = chunks_after(index.len());
    let movie = movie_with(rt, alloc, first, second);
    let index = joined(rt, alloc, &[index]);
    joined(rt, alloc, &[file_type(), &index, &DATA, &movie, &UNKNOWN])
}

/// Whether a file with this index before its data has it after its movie box when that is in front, byte for byte.
fn is_kept(rt: &impl Abort, alloc: Global, index: &[u8]) -> bool {
    let file = with_index(rt, alloc, index);
    let mut out = Vec::new(alloc);
    move_to_front(alloc, file.as_slice(), &mut out).expect(rt, "the movie is rewritten");
    let (first, second) = chunks_after(index.len().saturating_add(MOVIE));
    let movie = movie_with(rt, alloc, first, second);
    let index = joined(rt, alloc, &[index]);
    out == joined(rt, alloc, &[file_type(), &movie, &index, &DATA, &UNKNOWN])
}

/// Whether a file with this index before its data is refused for it, before a byte is written.
fn is_refused(rt: &impl Abort, alloc: Global, index: &[u8]) -> bool {
    let file = with_index(rt, alloc, index);
    let mut out = Vec::new(alloc);
    let answer = move_to_front(alloc, file.as_slice(), &mut out);
    matches!(answer, Err(RemuxError::SaysPlaces(_, 32))) && out.is_empty()
}

/// Whether an index stays that refers to no byte past the data, all of which is as far from it as before.
fn keeps_indexes(rt: &impl Abort, alloc: Global) -> bool {
    let another = 1 << 31;
    is_kept(rt, alloc, &short_index(rt, alloc, 16, 3, 5))
        && is_kept(
            rt,
            alloc,
            &short_index(rt, alloc, 0, another + 20, another + 4),
        )
        && is_kept(rt, alloc, &long_index(rt, alloc, 24, 0, 0))
}

#[test]
fn an_index_of_what_stays_together_is_kept(rt: HostRuntime) {
    assert_that(&rt, keeps_indexes(&rt, rt.alloc()));
}

/// Whether an index is refused that refers to a byte of the movie box, or past it, however far.
fn refuses_indexes(rt: &impl Abort, alloc: Global) -> bool {
    let most = u32::MAX;
    is_refused(rt, alloc, &short_index(rt, alloc, 16, 3, 6))
        && is_refused(rt, alloc, &short_index(rt, alloc, 0, 24, 855))
        && is_refused(rt, alloc, &short_index(rt, alloc, most, most, most))
        && is_refused(rt, alloc, &long_index(rt, alloc, 25, 0, 0))
        && is_refused(rt, alloc, &long_index(rt, alloc, u64::MAX, 0, 0))
        && is_refused(rt, alloc, &long_index(rt, alloc, u64::MAX, 1, 0))
}

#[test]
fn an_index_across_the_movie_box_is_refused(rt: HostRuntime) {
    assert_that(&rt, refuses_indexes(&rt, rt.alloc()));
}

/// Whether an index is refused of another version, and one that ends before its last entry does.
fn refuses_unread_indexes(rt: &impl Abort, alloc: Global) -> bool {
    let mut other = long_index(rt, alloc, 0, 0, 0);
    if let Some(version) = other.get_mut(8) {
        *version = 2;
    }
    let whole = short_index(rt, alloc, 0, 0, 0);
    let fields = whole.get(4..55).expect(rt, "all but its last byte");
    let cut = joined(rt, alloc, &[b"\0\0\0\x37", fields]);
    let short = *b"\0\0\0\x1fsidx\0\0\0\0\0\0\0\x01\0\0\x03\xe8\0\0\0\0\0\0\0\0\0\0\0";
    is_refused(rt, alloc, &other)
        && is_refused(rt, alloc, &cut)
        && is_refused(rt, alloc, &short)
        && is_refused(rt, alloc, b"\0\0\0\x08sidx")
}

#[test]
fn an_index_that_cannot_be_read_is_refused(rt: HostRuntime) {
    assert_that(&rt, refuses_unread_indexes(&rt, rt.alloc()));
}

/// Whether it is refused before the file type where that is between it and what it refers to, and is kept after it.
fn heeds_the_file_type(rt: &impl Abort, alloc: Global) -> bool {
    let empty = short_index(rt, alloc, 0, 0, 0);
    let over = short_index(rt, alloc, 32, 0, 0);
    let movie = movie_with(rt, alloc, 48 + 56, 54 + 56);
    let mut out = Vec::new(alloc);
    let file = joined(rt, alloc, &[&over, file_type(), &DATA, &movie]);
    let refused = move_to_front(alloc, file.as_slice(), &mut out);
    let file = joined(rt, alloc, &[&empty, file_type(), &DATA, &movie]);
    move_to_front(alloc, file.as_slice(), &mut out).expect(rt, "the movie is rewritten");
    let moved = movie_with(rt, alloc, 48 + 56 + 855, 54 + 56 + 855);
    let expected = joined(rt, alloc, &[file_type(), &moved, &empty, &DATA]);
    matches!(refused, Err(RemuxError::SaysPlaces(_, 0))) && out == expected
}

#[test]
fn an_index_across_the_file_type_is_refused(rt: HostRuntime) {
    assert_that(&rt, heeds_the_file_type(&rt, rt.alloc()));
}

/// Whether an index after the movie box is kept whatever it refers to.
fn keeps_a_last_index(rt: &impl Abort, alloc: Global) -> bool {
    let index = short_index(rt, alloc, 0, 7, 7);
    let movie = movie_with(rt, alloc, 48, 54);
    let mut out = Vec::new(alloc);
    let file = joined(rt, alloc, &[file_type(), &DATA, &movie, &index]);
    move_to_front(alloc, file.as_slice(), &mut out).expect(rt, "the movie is rewritten");
    let moved = movie_with(rt, alloc, 48 + 855, 54 + 855);
    out == joined(rt, alloc, &[file_type(), &moved, &DATA, &index])
}

#[test]
fn an_index_after_the_movie_box_is_kept(rt: HostRuntime) {
    assert_that(&rt, keeps_a_last_index(&rt, rt.alloc()));
}

/// Whether an index is refused without being read that has more bytes than any.
fn refuses_a_long_index(rt: &impl Abort, alloc: Global) -> bool {
    // It has 3 GB, between the file type and the data.
    let hole: u64 = 3_000_000_000;
    let data = 32 + hole;
    let first = (data + 16) as u32;
    let movie = movie_with(rt, alloc, first, first + 6);
    let head = joined(
        rt,
        alloc,
        &[file_type(), b"\0\0\0\x01sidx", &hole.to_be_bytes()],
    );
    let tail = joined(rt, alloc, &[&DATA, &movie]);
    let mut out = Vec::new(alloc);
    let answer = move_to_front(alloc, Zeros::new(&head, &tail, data), &mut out);
    matches!(answer, Err(RemuxError::SaysPlaces(_, 32))) && out.is_empty()
}

#[test]
fn an_index_longer_than_any_is_refused_unread(rt: HostRuntime) {
    assert_that(&rt, refuses_a_long_index(&rt, rt.alloc()));
}

/// Whether an index is refused where the data of the tracks that are kept is put together, of a file without fragments.
fn refuses_data_put_together(rt: &impl Abort, alloc: Global) -> bool {
    let index = short_index(rt, alloc, 16, 3, 5);
    let movie = movie_of_tables(rt, alloc, 48 + 56, 54 + 56);
    let file = joined(rt, alloc, &[file_type(), &index, &DATA, &movie]);
    let mut out = Vec::new(alloc);
    let chosen = choose(alloc, file.as_slice(), &mut out, &[1]);
    matches!(chosen, Err(RemuxError::SaysPlaces(_, 32))) && out.is_empty()
}

#[test]
fn an_index_of_data_that_is_put_together_is_refused(rt: HostRuntime) {
    assert_that(&rt, refuses_data_put_together(&rt, rt.alloc()));
}
