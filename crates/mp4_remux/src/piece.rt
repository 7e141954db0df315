//! Pieces of a splice.

ghost use Rattle.std.specs.Prelude.{◌+◌, ◌<◌, ◌^◌};

/// Whose bytes a piece has.
#[derive(Debug, Clone, Copy)]
pub(crate) enum Origin {
    /// The source's.
    Kept,
    /// Those that were made.
    Made,
}

/// A piece of a splice. Places and lengths are in bytes, and places count from 0.
#[derive(Debug, Clone, Copy)]
pub(crate) struct Piece {
    /// Where it begins in the splice.
    pub at: u64,
    pub origin: Origin,
    /// Where it begins in the source, or in the bytes that were made.
    pub place: u64,
    pub len: u64,
    ghost small: { place + len < 2 ^ 64 },
}
