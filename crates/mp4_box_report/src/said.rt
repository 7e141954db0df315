//! What the header of a box says (ISO/IEC 14496-12, 4.2).

use mp4_codec::{BoxType, HEADER_SIZE};

/// The bytes of a header with a 64-bit size.
pub(crate) const LARGE_HEADER_SIZE: u64 = 16;

/// What the header of a box says, whether a box may say so or not.
#[derive(Clone, Copy, Debug, PartialEq, Eq)]
pub(crate) struct Said {
    pub name: BoxType,
    /// The bytes of the box, its header included; 0 where its end is open.
    pub size: u64,
    /// The bytes of the header: 8 or 16.
    pub header_size: u64,
}

/// The number of four bytes at a place; 0 where they aren't there.
pub(crate) fn number_at(bytes: &[u8], place: usize) -> u32 {
    match bytes.get(place..place.saturating_add(4)) {
        Some([a, b, c, d]) => u32::from_be_bytes([*a, *b, *c, *d]),
        _ => 0,
    }
}

/// What the header says that these bytes begin with; what isn't there is 0.
pub(crate) fn said_by(bytes: &[u8]) -> Said {
    let size = number_at(bytes, 0);
    let name = BoxType::from(number_at(bytes, 4));
    if size == 1 && bytes.len() as u64 >= LARGE_HEADER_SIZE {
        let high = u64::from(number_at(bytes, 8));
        let low = u64::from(number_at(bytes, 12));
        return Said {
            name,
            size: (high << 32) | low,
            header_size: LARGE_HEADER_SIZE,
        };
    }
    Said {
        name,
        size: u64::from(size),
        header_size: HEADER_SIZE,
    }
}
