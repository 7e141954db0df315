//! Where the bytes of a file are in the rewritten one.

ghost use Rattle.std.specs.Prelude.{◌≡◌, ◌^◌, ◌-◌, List, min};
ghost use Rattle.mp4_remux.specs.Data.{AreClosedUp, closed_place};
ghost use Rattle.mp4_remux.specs.Moved.{IsPlaceBy, base_of, bytes_before, place_in_front};
ghost use Rattle.mp4_remux.specs.declared.data.Extent.{Extent};

use crate::top_level::TopBox;

/// Bytes of a file that are elsewhere in the rewritten one. Places are in bytes and count from 0.
#[derive(Debug, Clone, Copy)]
pub(crate) struct Move {
    /// The place of the first of them, and the one after the last.
    pub from: u64,
    pub end: u64,
    /// Where they are then.
    pub to: u64,
}

/// Where all bytes of a file are, those that stay with the others.
#[derive(Debug, Clone, Copy)]
pub(crate) enum Moves<'a> {
    /// Where these moves say, which are in the order of the file; their places count from the base.
    Listed {
        list: &'a [Move],
        base: u64,
    },
    /// Where they are when the file type is first, next a movie box of so many bytes, then all else in its order.
    Front {
        file_type: TopBox,
        movie: TopBox,
        movie_len: u64,
    },
}

impl Moves<'_> {
    /// Where a byte of the file is in the rewritten one; where it isn't there, the end of bytes before it that are.
    pub fn moved(&self, place: u64) -> u64
        ensures { IsPlaceBy self.now place result }
    {
        match self {
            Moves::Listed { list, base } => base.saturating_add(listed_place(list, place)),
            Moves::Front {
                file_type,
                movie,
                movie_len,
            } => place_in_front(*file_type, *movie, *movie_len, place),
        }
    }

    /// How many bytes a movie box may have at most, so that this byte isn't moved past 32 bits; these moves are those
    /// after one of no bytes.
    pub fn most_len(&self, place: u64) -> u64 {
        match self {
            Moves::Front { file_type, .. } if place >= file_type.place && place < file_type.end => {
                u64::MAX
            }
            _ => u64::from(u32::MAX).saturating_sub(self.moved(place)),
        }
    }

    /// The place from which those that they say count.
    pub fn base(&self) -> u64
        ensures { result ≡ base_of self.now }
    {
        match self {
            Moves::Listed { list: _, base } => *base,
            Moves::Front { .. } => 0,
        }
    }
}

/// Where a byte is by moves in the order of the file.
fn listed_place(list: &[Move], place: u64) -> u64
    ensures { (extents : List Extent) → AreClosedUp extents list.now
        → result ≡ min (2 ^ 64 - 1) (closed_place extents place) }
{
    let after = list.partition_point(|one| one.from <= place);
    if after == 0 {
        return 0;
    }
    let one = list[after - 1];
    let skipped = place.min(one.end).saturating_sub(one.from);
    one.to.saturating_add(skipped)
}

/// How many bytes of a box are before a place.
fn bytes_before(one: TopBox, place: u64) -> u64
    ensures { result ≡ bytes_before one place }
{
    place.min(one.end).saturating_sub(place.min(one.place))
}

/// Where a byte is when the file type is first, and next a movie box of so many bytes: one that isn't of the file type
/// is after these two and all bytes before it that are of neither.
fn place_in_front(file_type: TopBox, movie: TopBox, movie_len: u64, place: u64) -> u64
    ensures { result ≡ place_in_front file_type movie movie_len place }
{
    if place >= file_type.place && place < file_type.end {
        return place - file_type.place;
    }
    let before = place
        .saturating_sub(bytes_before(file_type, place))
        .saturating_sub(bytes_before(movie, place));
    before
        .saturating_add(file_type.end.saturating_sub(file_type.place))
        .saturating_add(movie_len)
}
