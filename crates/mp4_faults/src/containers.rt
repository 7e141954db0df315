//! The boxes that the library looks for in another.

ghost use Rattle.std.specs.Prelude.{◌≡◌, [], ◌∷◌};
ghost use Rattle.mp4_faults.specs.Containers.{is_one_of, reads, read_by_table, read_by_other, first_alone};
ghost use Rattle.mp4_faults.specs.Containers.{before_children, before_metadata, before_sound, has_items, reads_items};
ghost use Rattle.mp4_faults.specs.Containers.{reads_with, TellsItems};

use mp4_codec::{BoxType, ByteCursor, Error, Fields, Result, last_child};
use mp4_leaf::HdlrBox;
use std::alloc::Global;

/// The handler type of iTunes metadata, `mdir`.
const MDIR: u32 = 0x6d646972;

/// The bytes of the fields of a picture's sample entry, which come before its children (ISO/IEC 14496-12, 12.1.3).
const VISUAL_FIELDS: u64 = 78;

/// The bytes of the fields of a sound's sample entry, which come before its children (ISO/IEC 14496-12, 12.2.3).
const SOUND_FIELDS: u64 = 28;

/// The same in version 1 of the QuickTime file format.
const LONG_SOUND_FIELDS: u64 = 44;

/// The bytes of version and flags, and of those and a count of entries.
const FULL_BOX_FIELDS: u64 = 4;

const COUNTED_FIELDS: u64 = 8;

/// Whether a type is one of these, by their codes.
fn is_one_of(name: BoxType, types: &[BoxType]) -> bool
    ensures { result ≡ is_one_of name types.now }
{
    types.iter().any(|t| u32::from(*t) == u32::from(name))
}

/// Whether the reading of a box of type `parent` looks at its children of type `child`; all others are skipped. Lists
/// of items, `ilst`, are looked at in metadata of handler `mdir` alone: of a payload, `reads_items` says so.
#[tactic(auto, unfolding(crate::specs::Containers::read_by))]
pub fn reads_child(parent: BoxType, child: BoxType) -> bool
    ensures { result ≡ reads parent child }
{
    match parent {
        BoxType::MoovBox => is_one_of(
            child,
            &[
                BoxType::MvhdBox,
                BoxType::TrakBox,
                BoxType::MvexBox,
                BoxType::MetaBox,
                BoxType::UdtaBox,
            ],
        ),
        BoxType::TrakBox => is_one_of(
            child,
            &[
                BoxType::TkhdBox,
                BoxType::EdtsBox,
                BoxType::MetaBox,
                BoxType::MdiaBox,
            ],
        ),
        BoxType::EdtsBox => is_one_of(child, &[BoxType::ElstBox]),
        BoxType::MdiaBox => is_one_of(
            child,
            &[BoxType::MdhdBox, BoxType::HdlrBox, BoxType::MinfBox],
        ),
        BoxType::MinfBox => is_one_of(
            child,
            &[
                BoxType::VmhdBox,
                BoxType::SmhdBox,
                BoxType::DinfBox,
                BoxType::StblBox,
            ],
        ),
        BoxType::DinfBox => is_one_of(child, &[BoxType::DrefBox]),
        BoxType::DrefBox => is_one_of(child, &[BoxType::UrlBox]),
        _ => table_reads_child(parent, child),
    }
}

/// The same for the boxes of a sample table.
#[tactic(auto, unfolding(crate::specs::Containers::read_by_table))]
fn table_reads_child(parent: BoxType, child: BoxType) -> bool
    ensures { result ≡ is_one_of child (read_by_table parent) }
{
    match parent {
        BoxType::StblBox => is_one_of(
            child,
            &[
                BoxType::StsdBox,
                BoxType::SttsBox,
                BoxType::CttsBox,
                BoxType::StssBox,
                BoxType::StscBox,
                BoxType::StszBox,
                BoxType::StcoBox,
                BoxType::Co64Box,
            ],
        ),
        BoxType::StsdBox => is_one_of(
            child,
            &[
                BoxType::Avc1Box,
                BoxType::Hev1Box,
                BoxType::Vp09Box,
                BoxType::Mp4aBox,
                BoxType::Tx3gBox,
            ],
        ),
        BoxType::Avc1Box => is_one_of(child, &[BoxType::AvcCBox]),
        BoxType::Hev1Box => is_one_of(child, &[BoxType::HvcCBox]),
        BoxType::Vp09Box => is_one_of(child, &[BoxType::VpccBox]),
        BoxType::Mp4aBox => is_one_of(child, &[BoxType::EsdsBox]),
        _ => other_reads_child(parent, child),
    }
}

/// The same for the boxes of fragments and of metadata.
#[tactic(auto, unfolding(crate::specs::Containers::read_by_other))]
fn other_reads_child(parent: BoxType, child: BoxType) -> bool
    ensures { result ≡ is_one_of child (read_by_other parent) }
{
    match parent {
        BoxType::MvexBox => is_one_of(child, &[BoxType::MehdBox, BoxType::TrexBox]),
        BoxType::MoofBox => is_one_of(child, &[BoxType::MfhdBox, BoxType::TrafBox]),
        BoxType::TrafBox => is_one_of(
            child,
            &[BoxType::TfhdBox, BoxType::TfdtBox, BoxType::TrunBox],
        ),
        BoxType::UdtaBox => is_one_of(child, &[BoxType::MetaBox]),
        BoxType::MetaBox => is_one_of(child, &[BoxType::HdlrBox, BoxType::IlstBox]),
        BoxType::IlstBox => is_one_of(
            child,
            &[
                BoxType::NameBox,
                BoxType::DayBox,
                BoxType::CovrBox,
                BoxType::DescBox,
            ],
        ),
        BoxType::NameBox => is_one_of(child, &[BoxType::DataBox]),
        BoxType::DayBox => is_one_of(child, &[BoxType::DataBox]),
        BoxType::CovrBox => is_one_of(child, &[BoxType::DataBox]),
        BoxType::DescBox => is_one_of(child, &[BoxType::DataBox]),
        _ => false,
    }
}

/// Whether the reading of a box of this type looks at its first child alone: of a sample description that is its
/// first entry (ISO/IEC 14496-12, 8.5.2), and of edits it is the edit list (8.6.5).
pub fn looks_at_first_alone(name: BoxType) -> bool
    ensures { result ≡ first_alone name }
{
    is_one_of(name, &[BoxType::StsdBox, BoxType::EdtsBox])
}

/// Where the children begin in metadata: after version and flags; QuickTime's has none, and begins with its handler.
fn bytes_before_metadata(payload: &[u8]) -> Option<u64>
    ensures { result ≡ before_metadata payload.now }
{
    let mut fields = Fields::new(payload);
    let Ok(first) = fields.u32() else {
        return None;
    };
    if first == 0 {
        return Some(FULL_BOX_FIELDS);
    }
    match fields.u32() {
        Ok(code) if code == u32::from(BoxType::HdlrBox) => Some(0),
        _ => None,
    }
}

/// Where the children begin in a sound's sample entry: version 0 is MP4's, version 1 is QuickTime's; no other is read.
fn bytes_before_sound(payload: &[u8]) -> Option<u64>
    ensures { result ≡ before_sound payload.now }
{
    let mut fields = Fields::new(payload);
    let Ok(_) = fields.bytes(8) else {
        return None;
    };
    match fields.u16() {
        Ok(0) => Some(SOUND_FIELDS),
        Ok(1) => Some(LONG_SOUND_FIELDS),
        _ => None,
    }
}

/// Where the children begin in the payload of a box of this type, counted from its first byte; `None` where the library
/// looks at no children of it.
#[tactic(auto, unfolding(crate::specs::Containers::before_children))]
pub fn bytes_before_children(name: BoxType, payload: &[u8]) -> Option<u64>
    ensures { result ≡ before_children name payload.now }
{
    match name {
        BoxType::MetaBox => bytes_before_metadata(payload),
        BoxType::Mp4aBox => bytes_before_sound(payload),
        BoxType::StsdBox | BoxType::DrefBox => Some(COUNTED_FIELDS),
        BoxType::Avc1Box | BoxType::Hev1Box | BoxType::Vp09Box => Some(VISUAL_FIELDS),
        BoxType::MoovBox | BoxType::TrakBox | BoxType::EdtsBox | BoxType::MdiaBox => Some(0),
        BoxType::MinfBox | BoxType::DinfBox | BoxType::StblBox | BoxType::MvexBox => Some(0),
        BoxType::MoofBox | BoxType::TrafBox | BoxType::UdtaBox | BoxType::IlstBox => Some(0),
        BoxType::NameBox | BoxType::DayBox | BoxType::CovrBox | BoxType::DescBox => Some(0),
        _ => None,
    }
}

/// Whether the lists of items in metadata with this payload are looked at.
fn metadata_reads_items(alloc: Global, payload: &[u8]) -> Result<bool>
    ensures { TellsItems (has_items (before_metadata payload.now) payload.now) result }
{
    let Some(start) = bytes_before_metadata(payload) else {
        return Ok(false);
    };
    let mut cursor = ByteCursor::new(payload);
    cursor.set_position(start);
    match last_child::<HdlrBox>(alloc, cursor.rest()) {
        Ok(Some(handler)) => Ok(u32::from(handler.handler_type) == MDIR),
        Ok(None) => Ok(false),
        Err(Error::OutOfMemory) => Err(Error::OutOfMemory),
        Err(_) => Ok(false),
    }
}

/// Whether the reading of a box of this type and payload looks at lists of items, `ilst`, in it: that of metadata does
/// where its children are boxes and its handlers have no fault, and the last of these is of type `mdir`. `Err` is
/// `OutOfMemory` alone.
#[tactic(auto, unfolding(crate::specs::Containers::reads_items))]
pub fn reads_items(alloc: Global, name: BoxType, payload: &[u8]) -> Result<bool>
    ensures { TellsItems (reads_items name payload.now) result }
{
    match name {
        BoxType::MetaBox => metadata_reads_items(alloc, payload),
        _ => Ok(false),
    }
}

/// Whether the reading of a box of type `parent`, which looks at lists of items in it or not, looks at its children of
/// type `child`.
pub(crate) fn reads_child_with(parent: BoxType, items: bool, child: BoxType) -> bool
    ensures { result ≡ reads_with parent items child }
{
    if is_one_of(child, &[BoxType::IlstBox]) {
        return items;
    }
    reads_child(parent, child)
}
