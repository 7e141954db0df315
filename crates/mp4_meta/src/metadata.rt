//! What metadata says.

ghost use Rattle.std.specs.Prelude.{◌≡◌, Ok, Option, List};
ghost use Rattle.std.specs.Cow.{cow_str_bytes};
ghost use Rattle.std.specs.Option.{option_copied, option_map};
ghost use Rattle.mp4_codec.specs.Cause.{Answers};
ghost use Rattle.mp4_meta.specs.Metadata.{title_of, summary_of, poster_of, year_of, text_of, number_in, year_in_text};
ghost use Rattle.mp4_meta.specs.Metadata.{year_in};
ghost use Rattle.mp4_meta.specs.declared.ilst.IlstItemBox.{IlstItemBox};

use crate::ilst::{IlstBox, IlstItemBox, item_of_key};
use crate::metadata_key::MetadataKey;
use bstr::ByteSlice;
use mp4_codec::Result;
use mp4_leaf::{DataBox, DataType};
use std::alloc::Global;
use std::borrow::CowStr;
use std::str;

/// What metadata says of a work.
pub trait Metadata {
    // What is held at each key.
    ghost held: { Self → List (Option IlstItemBox) };

    /// The title, whatever its data type: each maximal piece that is not UTF-8 is U+FFFD. Only `OutOfMemory` is
    /// refused.
    fn title(&self) -> Result<Option<CowStr<'_, Global>>>
        ensures { Answers (option_map cow_str_bytes) result (Ok (title_of (held self.now))) };

    /// The year of release. A value of data type `Binary` of four bytes is their big-endian number. A value of data
    /// type `Text` of a plus, which may be missing, and one or more ASCII digits is their number, where it has 32 bits.
    /// Of all other values there is none.
    fn year(&self) -> Option<u32>
        ensures { result ≡ year_of (held self.now) };

    /// The bytes of the picture, whatever their data type.
    fn poster(&self) -> Option<&[u8]>
        ensures { option_map (λ bytes. bytes.now) result ≡ poster_of (held self.now) };

    /// The description, as the title is read.
    fn summary(&self) -> Result<Option<CowStr<'_, Global>>>
        ensures { Answers (option_map cow_str_bytes) result (Ok (summary_of (held self.now))) };
}

/// The text of an item.
#[tactic(auto, unfolding(crate::specs::Metadata::text_of))]
fn lossy_text(item: Option<&IlstItemBox>) -> Result<Option<CowStr<'_, Global>>>
    ensures { Answers (option_map cow_str_bytes) result (Ok (option_map text_of (option_copied item.entry))) }
{
    match item {
        None => Ok(None),
        Some(item) => {
            let bytes = &item.item.bytes;
            Ok(Some(bytes.as_slice().to_str_lossy(bytes.allocator())?))
        }
    }
}

/// The number of four bytes.
fn number_of_bytes(bytes: &[u8]) -> Option<u32>
    ensures { result ≡ number_in bytes.now }
{
    match bytes {
        [a, b, c, d] => Some(u32::from_be_bytes([*a, *b, *c, *d])),
        _ => None,
    }
}

/// The number that a text writes.
fn number_of_text(bytes: &[u8]) -> Option<u32>
    ensures { result ≡ year_in_text bytes.now }
{
    match str::from_utf8(bytes) {
        Ok(text) => match text.parse::<u32>() {
            Ok(year) => Some(year),
            Err(_) => None,
        },
        Err(_) => None,
    }
}

/// The year that a value says.
fn year_of_value(value: &DataBox) -> Option<u32>
    ensures { result ≡ year_in value.now }
{
    match value.data_type {
        DataType::Binary => number_of_bytes(value.bytes.as_slice()),
        DataType::Text => number_of_text(value.bytes.as_slice()),
        _ => None,
    }
}

impl Metadata for IlstBox {
    ghost held = { λ b. b.items };

    fn title(&self) -> Result<Option<CowStr<'_, Global>>> {
        lossy_text(item_of_key(&self.items, MetadataKey::Title))
    }

    fn year(&self) -> Option<u32> {
        match item_of_key(&self.items, MetadataKey::Year) {
            None => None,
            Some(item) => year_of_value(&item.item),
        }
    }

    fn poster(&self) -> Option<&[u8]> {
        match item_of_key(&self.items, MetadataKey::Poster) {
            None => None,
            Some(item) => Some(item.item.bytes.as_slice()),
        }
    }

    fn summary(&self) -> Result<Option<CowStr<'_, Global>>> {
        lossy_text(item_of_key(&self.items, MetadataKey::Summary))
    }
}
