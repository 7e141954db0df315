//! Where the bytes of a splice come from.

ghost use Rattle.std.specs.Prelude.{◌≡◌, ◌↔◌, ◌+◌, ◌≤◌, ◌<◌, ◌^◌, ℕ, length, IfOk, IfNone, IfSome, IsTrue, Some};
ghost use Rattle.std.specs.Prelude.{slice_get};
ghost use Rattle.mp4_remux.specs.Splice.{of_origin, Follow, Follow-prop, IsMovedTo, IsPieceAt};

use crate::piece::{Origin, Piece};
use std::alloc::{AllocError, Global};

/// The bytes of a file in another order, with others that were made between them. Nothing of the file is copied.
#[derive(Drop)]
pub(crate) struct Layout {
    /// How many bytes the file has.
    source_len: u64,
    made: Vec<u8>,
    pieces: Vec<Piece>,
    /// How many bytes all pieces have.
    len: u64,
    ghost follow: { Follow source_len (length made.items) 0 pieces.items len } by { Follow-prop _ _ _ _ _ },
}

/// How many bytes that have of which a piece is a part.
fn len_of(origin: Origin, source_len: u64, made_len: u64) -> u64
    ensures { result ≡ of_origin origin source_len made_len }
{
    match origin {
        Origin::Kept => source_len,
        Origin::Made => made_len,
    }
}

/// Where pieces end, of which each begins where the one before ends, the first at 0, has a byte, and lies whole in the
/// file or in the bytes that were made, which have so many bytes; none where they aren't so.
fn end_of(pieces: &[Piece], source_len: u64, made_len: u64) -> Option<u64>
    ensures follow { IfSome result (λ end. Follow source_len made_len 0 pieces.now end) }
    ensures none { IfNone result ((end : ℕ) → end < 2 ^ 64 → Follow source_len made_len 0 pieces.now end → ⊥) }
{
    let mut end: u64 = 0;
    let mut i = 0;
    while i < pieces.len() {
        let piece = pieces[i];
        let whole = len_of(piece.origin, source_len, made_len);
        if piece.at != end || piece.len == 0 || piece.place + piece.len > whole {
            return None;
        }
        end = end.checked_add(piece.len)?;
        i += 1;
    }
    Some(end)
}

impl Layout {
    /// A layout of a file of so many bytes. None where the pieces don't follow each other, one passes what it is of, or
    /// all of them have more bytes than 64 bits count.
    pub fn new(source_len: u64, made: Vec<u8>, pieces: Vec<Piece>) -> Option<Self>
        ensures source_len { IfSome result (λ l. l.source_len ≡ source_len) }
        ensures made { IfSome result (λ l. l.made.items ≡ made.items) }
        ensures pieces { IfSome result (λ l. l.pieces.items ≡ pieces.items) }
        ensures small { IfSome result (λ l. l.len < 2 ^ 64) }
        ensures none { IfNone result ((end : ℕ) → end < 2 ^ 64
            → Follow source_len (length made.items) 0 pieces.items end → ⊥) }
    {
        let len = end_of(&pieces, source_len, made.len() as u64)?;
        Some(Layout {
            source_len,
            made,
            pieces,
            len,
        })
    }

    /// The same once more: the bytes that were made are copied.
    pub fn try_clone(&self, alloc: Global) -> Result<Self, AllocError>
        ensures source_len { IfOk result (λ l. l.source_len ≡ self.now.source_len) }
        ensures len { IfOk result (λ l. l.len ≡ self.now.len) }
        ensures made { IfOk result (λ l. l.made.items ≡ self.now.made.items) }
        ensures pieces { IfOk result (λ l. l.pieces.items ≡ self.now.pieces.items) }
    {
        let mut made = Vec::with_capacity(alloc, self.made.len())?;
        made.extend_from_slice(&self.made)?;
        let mut pieces = Vec::with_capacity(alloc, self.pieces.len())?;
        pieces.extend_from_slice(&self.pieces)?;
        Ok(Layout {
            source_len: self.source_len,
            made,
            pieces,
            len: self.len,
        })
    }

    /// How many bytes the file has.
    pub fn source_len(&self) -> u64
        ensures { result ≡ self.now.source_len }
    {
        self.source_len
    }

    /// How many bytes all pieces have.
    pub fn len(&self) -> u64
        ensures { result ≡ self.now.len }
    {
        self.len
    }

    /// The bytes that were made.
    pub fn made(&self) -> &[u8]
        ensures { result.now ≡ self.now.made.items }
    {
        self.made.as_slice()
    }

    /// The piece in which a place lies, and how many of its bytes come before.
    pub fn piece_at(&self, place: u64) -> (Piece, u64)
        requires { place < self.now.len }
        ensures at { IsPieceAt self.now.source_len (length self.now.made.items) self.now.pieces.items place
            result.0 result.1 }
        ensures is { (number : ℕ) × (slice_get self.now.pieces.items number ≡ Some result.0) }
    {
        let after = self.pieces.partition_point(|piece| piece.at <= place);
        let piece = self.pieces[after - 1];
        (piece, place - piece.at)
    }

    /// Whether the n bytes from a place on are there, and a piece of the file has them from another place on.
    pub fn is_part(&self, place: u64, origin: u64, n: u32) -> bool
        ensures { IsTrue result ↔ IsMovedTo self.now.pieces.items self.now.source_len self.now.len place origin n }
    {
        let n = u64::from(n);
        if !fits(place, n, self.len) || !fits(origin, n, self.source_len) {
            return false;
        }
        if n == 0 {
            return true;
        }
        let (piece, skipped) = self.piece_at(place);
        if n > piece.len - skipped || piece.place + skipped != origin {
            return false;
        }
        match piece.origin {
            Origin::Kept => true,
            Origin::Made => false,
        }
    }
}

/// Whether n bytes from a place on are among so many.
pub(crate) fn fits(place: u64, n: u64, len: u64) -> bool
    ensures { IsTrue result ↔ (place + n ≤ len) }
{
    place <= len && n <= len - place
}
