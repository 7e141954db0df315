//! The fields of a box, by its type and its payload.

use crate::list::{FieldList, Listing};
use crate::value::Field;
use mp4_codec::{BoxType, ReadBox, Result};
use mp4_entry::{Avc1Box, AvcCBox, EsdsBox, Hev1Box, HvcCBox, Mp4aBox, Tx3gBox, Vp09Box, VpccBox};
use mp4_leaf::{
    DataBox, ElstBox, FtypBox, HdlrBox, MdhdBox, MvhdBox, SmhdBox, TkhdBox, UrlBox, VmhdBox,
};
use mp4_moof::{EmsgBox, MehdBox, MfhdBox, TfdtBox, TfhdBox, TrexBox, TrunBox};
use mp4_table::{Co64Box, CttsBox, StcoBox, StscBox, StssBox, StszBox, SttsBox};

/// A box whose fields are listed.
pub trait LeafFields {
    /// These fields, and then its own, by their names.
    fn fields(&self, fields: FieldList) -> FieldList;
}

/// The fields of a payload that is read as such a box.
fn read_fields<B: ReadBox + LeafFields>(
    listing: Listing,
    payload: &[u8],
) -> Result<Option<Vec<Field>>> {
    let leaf = B::read_payload(listing.alloc, payload)?;
    Ok(Some(leaf.fields(FieldList::new(listing)).finish()?))
}

/// The fields of headers.
fn header_fields(listing: Listing, name: BoxType, payload: &[u8]) -> Result<Option<Vec<Field>>> {
    match name {
        BoxType::FtypBox => read_fields::<FtypBox>(listing, payload),
        BoxType::MvhdBox => read_fields::<MvhdBox>(listing, payload),
        BoxType::TkhdBox => read_fields::<TkhdBox>(listing, payload),
        BoxType::MdhdBox => read_fields::<MdhdBox>(listing, payload),
        BoxType::HdlrBox => read_fields::<HdlrBox>(listing, payload),
        BoxType::VmhdBox => read_fields::<VmhdBox>(listing, payload),
        BoxType::SmhdBox => read_fields::<SmhdBox>(listing, payload),
        BoxType::ElstBox => read_fields::<ElstBox>(listing, payload),
        _ => Ok(None),
    }
}

/// The fields of sample tables.
fn table_fields(listing: Listing, name: BoxType, payload: &[u8]) -> Result<Option<Vec<Field>>> {
    match name {
        BoxType::SttsBox => read_fields::<SttsBox>(listing, payload),
        BoxType::CttsBox => read_fields::<CttsBox>(listing, payload),
        BoxType::StscBox => read_fields::<StscBox>(listing, payload),
        BoxType::StcoBox => read_fields::<StcoBox>(listing, payload),
        BoxType::Co64Box => read_fields::<Co64Box>(listing, payload),
        BoxType::StssBox => read_fields::<StssBox>(listing, payload),
        BoxType::StszBox => read_fields::<StszBox>(listing, payload),
        _ => Ok(None),
    }
}

/// The fields of the boxes of fragments.
fn fragment_fields(listing: Listing, name: BoxType, payload: &[u8]) -> Result<Option<Vec<Field>>> {
    match name {
        BoxType::MehdBox => read_fields::<MehdBox>(listing, payload),
        BoxType::TrexBox => read_fields::<TrexBox>(listing, payload),
        BoxType::MfhdBox => read_fields::<MfhdBox>(listing, payload),
        BoxType::TfhdBox => read_fields::<TfhdBox>(listing, payload),
        BoxType::TfdtBox => read_fields::<TfdtBox>(listing, payload),
        BoxType::TrunBox => read_fields::<TrunBox>(listing, payload),
        BoxType::EmsgBox => read_fields::<EmsgBox>(listing, payload),
        _ => Ok(None),
    }
}

/// The fields of sample entries and of what is in them, and of metadata.
fn media_fields(listing: Listing, name: BoxType, payload: &[u8]) -> Result<Option<Vec<Field>>> {
    match name {
        BoxType::Avc1Box => read_fields::<Avc1Box>(listing, payload),
        BoxType::Hev1Box => read_fields::<Hev1Box>(listing, payload),
        BoxType::Vp09Box => read_fields::<Vp09Box>(listing, payload),
        BoxType::Mp4aBox => read_fields::<Mp4aBox>(listing, payload),
        BoxType::Tx3gBox => read_fields::<Tx3gBox>(listing, payload),
        BoxType::AvcCBox => read_fields::<AvcCBox>(listing, payload),
        BoxType::HvcCBox => read_fields::<HvcCBox>(listing, payload),
        BoxType::VpccBox => read_fields::<VpccBox>(listing, payload),
        BoxType::EsdsBox => read_fields::<EsdsBox>(listing, payload),
        BoxType::UrlBox => read_fields::<UrlBox>(listing, payload),
        BoxType::DataBox => read_fields::<DataBox>(listing, payload),
        _ => Ok(None),
    }
}

/// The groups of boxes whose fields are listed.
#[derive(Clone, Copy, Debug, PartialEq, Eq)]
enum Group {
    Header,
    Table,
    Fragment,
    Media,
}

/// The group of a type of box; None where its fields aren't listed.
fn group_of(name: BoxType) -> Option<Group> {
    match name {
        BoxType::FtypBox
        | BoxType::MvhdBox
        | BoxType::TkhdBox
        | BoxType::MdhdBox
        | BoxType::HdlrBox
        | BoxType::VmhdBox
        | BoxType::SmhdBox
        | BoxType::ElstBox => Some(Group::Header),
        BoxType::SttsBox
        | BoxType::CttsBox
        | BoxType::StscBox
        | BoxType::StcoBox
        | BoxType::Co64Box
        | BoxType::StssBox
        | BoxType::StszBox => Some(Group::Table),
        BoxType::MehdBox
        | BoxType::TrexBox
        | BoxType::MfhdBox
        | BoxType::TfhdBox
        | BoxType::TfdtBox
        | BoxType::TrunBox
        | BoxType::EmsgBox => Some(Group::Fragment),
        BoxType::Avc1Box
        | BoxType::Hev1Box
        | BoxType::Vp09Box
        | BoxType::Mp4aBox
        | BoxType::Tx3gBox
        | BoxType::AvcCBox
        | BoxType::HvcCBox
        | BoxType::VpccBox
        | BoxType::EsdsBox
        | BoxType::UrlBox
        | BoxType::DataBox => Some(Group::Media),
        _ => None,
    }
}

/// Whether the fields of boxes of this type are listed.
pub fn has_fields(name: BoxType) -> bool {
    group_of(name).is_some()
}

/// The fields of a box of this type, if they are listed. Refused as the box is.
pub fn fields_of(listing: Listing, name: BoxType, payload: &[u8]) -> Result<Option<Vec<Field>>> {
    match group_of(name) {
        None => Ok(None),
        Some(Group::Header) => header_fields(listing, name, payload),
        Some(Group::Table) => table_fields(listing, name, payload),
        Some(Group::Fragment) => fragment_fields(listing, name, payload),
        Some(Group::Media) => media_fields(listing, name, payload),
    }
}
