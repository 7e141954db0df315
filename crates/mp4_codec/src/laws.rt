//! Laws of the framing of boxes (ISO/IEC 14496-12, 4.2) and of the values that boxes are made with.
//!
//! Each function here does nothing; its contract is a law.

ghost use Rattle.std.specs.Prelude.{◌≡◌, ◌≤◌, ◌<◌, ◌^◌, ℕ, List, Option, Some, None, Ok, Err, false, length, ◌++◌};
ghost use Rattle.mp4_codec.specs.declared.box_type.BoxType.{BoxType};
ghost use Rattle.mp4_codec.specs.Cause.{Cause};
ghost use Rattle.mp4_codec.specs.Cursor.{Cursor, left, header_at};
ghost use Rattle.mp4_codec.specs.Children.{ChildBox, children};
ghost use Rattle.mp4_codec.specs.Framing.{IsEncodable, IsBox, ReadsAsBox, SaysBox, short_header, long_header};
ghost use Rattle.mp4_codec.specs.Framing.{WhyNoHead, AreChildren};
ghost use Rattle.mp4_codec.specs.Boxes.{write_cause};
ghost use Rattle.mp4_codec.specs.KeyedItems.{no_items, held_at, with_item};

use crate::boxes::WriteBox;
use crate::keyed_items::Key;

/// A box is read where it is, whatever is before it and after it, in either encoding of
/// its size: its header says its type and eight more than the length of its payload, its payload
/// is after its header, and the next byte is the first after the box.
pub fn box_has_its_header()
    ensures { (name : BoxType) (payload before f after : List ℕ) → IsBox name payload f
        → ReadsAsBox name payload f (before ++ (f ++ after)) (length before) }
{}

/// A header says the length of its box, whatever is before it and after it, also where the box passes the end of the
/// bytes: a size of 0 leaves the end open, a size of 8 and more is the length; after a size of 1 a 64-bit size of 0
/// leaves the end open, and one of 16 and more is the length.
pub fn header_says_its_box()
    ensures open_end { (name : BoxType) (before after : List ℕ) → IsEncodable name
        → SaysBox name None (short_header name 0) before after }
    ensures sized { (name : BoxType) (before after : List ℕ) → IsEncodable name → (size : ℕ) → 8 ≤ size → size < 2 ^ 32
        → SaysBox name (Some size) (short_header name size) before after }
    ensures long_open_end { (name : BoxType) (before after : List ℕ) → IsEncodable name
        → SaysBox name None (long_header name 0) before after }
    ensures long_sized { (name : BoxType) (before after : List ℕ) → IsEncodable name → (size : ℕ) → 16 ≤ size
        → size < 2 ^ 64 → SaysBox name (Some size) (long_header name size) before after }
{}

/// A header is refused for one of four reasons and for no other: fewer than 8 bytes are left, the
/// size is 1 and fewer than 16 are left, the size is 2 to 7, or the size is 1 and the 64-bit size
/// is 1 to 15. The first two are `EndOfData`, the others `InvalidData`.
pub fn refused_head_says_why()
    ensures why { (cursor : Cursor) (c : Cause) → header_at cursor ≡ Err c → WhyNoHead (left cursor) c }
    ensures says { (cursor : Cursor) (c : Cause) → WhyNoHead (left cursor) c → header_at cursor ≡ Err c }
{}

/// Each payload has exactly one list of children and one tail: the payload is a box around each
/// child, one after the other, and then the tail, which is shorter than a header or begins with no
/// box. The list and the tail are those that a walk over the payload finds.
pub fn payload_has_its_children(payload: &[u8])
    ensures are { AreChildren payload.now (children payload.now).0 (children payload.now).1 }
    ensures only { (list : List ChildBox) (tail : List ℕ) → AreChildren payload.now list tail
        → children payload.now ≡ (list, tail) }
{}

/// Each value of each box reads back equal, where it is written and it is well-formed.
pub fn what_is_written_reads_back<B: WriteBox>(value: &B)
    ensures { B.IsWellFormed value.now → write_cause (B.payload value.now) (B.refusal value.now) ≡ None
        → B.value (B.payload value.now) ≡ Ok value.now }
{
    value.in_range();
}

/// An empty map holds nothing at any key; after an insertion the value is held at its key, and every other key holds
/// what it held.
pub fn insertion_changes_one_key<K: Key, V>()
    ensures empty { (key : K) → held_at {V = V} K.eq K.all (no_items K.all) key ≡ None }
    ensures at_its_key { (held : List (Option V)) (key : K) (value : V) → length held ≡ length K.all
        → held_at K.eq K.all (with_item K.eq K.all held key value) key ≡ Some value }
    ensures at_others { (held : List (Option V)) (key other : K) (value : V) → length held ≡ length K.all
        → K.eq key other ≡ false
        → held_at K.eq K.all (with_item K.eq K.all held key value) other ≡ held_at K.eq K.all held other }
{}
