//! A source whose bytes are those of another in another order, with others between them.

ghost use Rattle.std.specs.Prelude.{◌≡◌, ◌+◌, ◌≤◌, ◌<◌, ◌^◌, length, drop, take, option_map};
ghost use Rattle.std.specs.Prelude.{IfSome, IfOk, IsTrue, OnOk, OnErr};
ghost use Rattle.std.proofs.Props.{props};
ghost use Rattle.mp4_source.specs.Answers.{IsLength};
ghost use Rattle.mp4_remux.specs.Splice.{of_origin, spliced};

use crate::layout::{Layout, fits};
use crate::piece::{Origin, Piece};
use mp4_source::ByteSource;
use std::io;
use std::io::ErrorKind;

/// A source whose bytes are those of another as a layout says, which are read where they lie. Where the bytes of the
/// one are known, those of the other are.
#[derive(Drop)]
pub(crate) struct Splice<S: ByteSource> {
    source: S,
    layout: Layout,
    ghost measured: { IsLength (S.contents source) layout.source_len } by { Prim.hlevel props },
}

impl<S: ByteSource> Splice<S> {
    /// The bytes of a source as a layout says.
    pub fn new(source: S, layout: Layout) -> Self
        requires { IsLength (S.contents source) layout.source_len }
        ensures source { result.source ≡ source }
        ensures layout { result.layout ≡ layout }
    {
        Splice { source, layout }
    }
}

/// Reads bytes of a piece, from the one after so many of it on.
fn read_piece<S: ByteSource>(
    source: &mut S,
    made: &[u8],
    piece: Piece,
    skipped: u64,
    part: &mut [u8],
) -> io::Result<()>
    requires len { skipped + length part.old ≤ piece.len }
    requires measured { IfSome (S.contents source.old) (λ xs.
        piece.place + piece.len ≤ of_origin piece.origin (length xs) (length made.now)) }
    requires made { piece.place + piece.len ≤ of_origin piece.origin (piece.place + piece.len) (length made.now) }
    ensures value { OnOk result (IfSome (S.contents source.old) (λ xs. part.new
        ≡ take (length part.old) (drop (piece.place + skipped) (of_origin piece.origin xs made.now)))) }
    ensures err { OnErr result (IfSome (S.contents source.old) (λ _. IsTrue (S.can_refuse source.old))) }
    ensures contents { S.contents source.new ≡ S.contents source.old }
    ensures can_refuse { S.can_refuse source.new ≡ S.can_refuse source.old }
{
    let place = piece.place + skipped;
    match piece.origin {
        Origin::Kept => source.read_exact_at(place, part),
        Origin::Made => {
            let start = place as usize;
            part.copy_from_slice(&made[start..start + part.len()]);
            Ok(())
        }
    }
}

impl<S: ByteSource> ByteSource for Splice<S> {
    ghost contents = { λ s. option_map (λ xs. spliced xs s.layout.made.items s.layout.pieces.items)
        (S.contents s.source) };

    ghost can_refuse = { λ s. S.can_refuse s.source };

    /// How many bytes all pieces have. It is never an error.
    fn len(&mut self) -> io::Result<u64> {
        Ok(self.layout.len())
    }

    fn read_exact_at(&mut self, place: u64, buf: &mut [u8]) -> io::Result<()> {
        let n = buf.len();
        if !fits(place, n as u64, self.layout.len()) {
            return Err(io::Error::new(ErrorKind::UnexpectedEof, "the part passes the end"));
        }
        let mut filled = 0;
        while filled < n {
            let (piece, skipped) = self.layout.piece_at(place + filled as u64);
            let count = (piece.len - skipped).min((n - filled) as u64) as usize;
            let part = &mut buf[filled..filled + count];
            read_piece(&mut self.source, self.layout.made(), piece, skipped, part)?;
            filled += count;
        }
        Ok(())
    }
}
