//! The children of a payload, with their places.

ghost use Rattle.std.specs.Prelude.{◌≡◌, ◌+◌, ◌<◌, ◌≤◌, ◌^◌, length, IfSome};
ghost use Rattle.std.specs.Option.{option_map};
ghost use Rattle.mp4_faults.specs.Inner.{inner, outward, end_of, box_within};

use mp4_codec::{BoxHeader, BoxType, ByteCursor, HEADER_SIZE, OPEN_END};

/// A box within a payload: its type, its payload, and where these are, counted from the first byte of that payload.
#[derive(Clone, Copy)]
pub(crate) struct PlacedBox<'a> {
    pub name: BoxType,
    /// The place of its first byte.
    pub place: u64,
    /// The place of its payload's first byte.
    pub from: u64,
    pub payload: &'a [u8],
}

impl<'a> PlacedBox<'a> {
    /// The place after its last byte.
    pub fn end(&self) -> u64
        requires { end_of (inner self.now) < 2 ^ 64 }
        ensures { result ≡ end_of (inner self.now) }
    {
        self.from + self.payload.len() as u64
    }

    /// The box that is within this one, with its places counted as those of this one.
    pub fn outward(&self, child: PlacedBox<'a>) -> PlacedBox<'a>
        requires place { self.now.from + child.place < 2 ^ 64 }
        requires from { self.now.from + child.from < 2 ^ 64 }
        ensures { inner result ≡ outward (inner self.now) (inner child.entry) }
    {
        PlacedBox {
            place: self.from + child.place,
            from: self.from + child.from,
            ..child
        }
    }
}

/// The box that begins at this place of a payload and ends within it; None where there is no such box.
#[tactic(auto, unfolding(crate::specs::Inner::box_within))]
pub(crate) fn child_at(payload: &[u8], place: u64) -> Option<PlacedBox<'_>>
    ensures value { option_map inner result ≡ box_within payload.now place }
    ensures place { IfSome result (λ b. b.place ≡ place) }
    ensures onward { IfSome result (λ b. place + 8 ≤ b.from) }
    ensures within { IfSome result (λ b. end_of (inner b) ≤ length payload.now) }
{
    let mut cursor = ByteCursor::new(payload);
    cursor.set_position(place);
    let Ok(header) = BoxHeader::read(&mut cursor) else {
        return None;
    };
    if header.size == OPEN_END {
        return None;
    }
    let from = cursor.position();
    let Ok(part) = cursor.take(header.size - HEADER_SIZE) else {
        return None;
    };
    Some(PlacedBox {
        name: header.name,
        place,
        from,
        payload: part,
    })
}
