//! Pieces of a layout, one after the other.

ghost use Rattle.std.specs.Prelude.{◌≡◌, ◌++◌, ◌+◌, ◌-◌, ◌≤◌, ◌<◌, ◌^◌, ◌∷◌, ℕ, List, [], map, OnOk};
ghost use Rattle.std.specs.List.{filter};
ghost use Rattle.mp4_media.specs.FileGrammar.{between};
ghost use Rattle.mp4_remux.specs.Splice.{Follow, has_bytes, of_origin, spliced, stretch_of};

use crate::piece::{Origin, Piece};
use mp4_codec::Put;

/// Where pieces end that follow each other; the largest number where that passes 64 bits.
fn end_of_all(pieces: &[Piece]) -> u64
    ensures { (source_len made_len end : ℕ) → end < 2 ^ 64 → Follow source_len made_len 0 pieces.now end
        → result ≡ end }
{
    match pieces.last() {
        Some(last) => last.at.saturating_add(last.len),
        None => 0,
    }
}

/// Adds bytes after those of the pieces before; none where there are none.
pub(crate) fn push_piece(pieces: &mut Vec<Piece>, origin: Origin, place: u64, end: u64) -> Put
    ensures bytes { OnOk result ((source made : List ℕ) → spliced source made pieces.new.items
        ≡ spliced source made pieces.old.items ++ between (of_origin origin source made) place end) }
    ensures stretches { OnOk result (map stretch_of pieces.new.items ≡ map stretch_of pieces.old.items
        ++ filter has_bytes (record { origin = origin; place = place; end = end } ∷ [])) }
    ensures follow { OnOk result ((source_len made_len before : ℕ) → end ≤ of_origin origin source_len made_len
        → before + (end - place) < 2 ^ 64 → Follow source_len made_len 0 pieces.old.items before
        → Follow source_len made_len 0 pieces.new.items (before + (end - place))) }
{
    if end <= place {
        return Ok(());
    }
    let at = end_of_all(pieces);
    pieces.push(Piece {
        at,
        origin,
        place,
        len: end - place,
    })?;
    Ok(())
}
