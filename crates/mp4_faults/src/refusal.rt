//! Why a payload is refused.

ghost use Rattle.mp4_codec.specs.Cause.{fault_of};
ghost use Rattle.mp4_faults.specs.Refusal.{TellsFault, payload_fault, table_fault, other_fault};

use mp4_boxes::{EdtsBox, MdiaBox, MinfBox, MoovBox, StblBox, TrakBox};
use mp4_codec::{BoxType, Error, ReadBox, Result};
use mp4_entry::{
    Avc1Box, AvcCBox, EsdsBox, Hev1Box, HvcCBox, Mp4aBox, StsdBox, Tx3gBox, Vp09Box, VpccBox,
};
use mp4_leaf::{
    DataBox, DinfBox, DrefBox, ElstBox, FtypBox, HdlrBox, MdhdBox, MvhdBox, SmhdBox, TkhdBox,
    UrlBox, VmhdBox,
};
use mp4_meta::{IlstBox, IlstItemBox, MetaBox, UdtaBox};
use mp4_moof::{
    EmsgBox, MehdBox, MfhdBox, MoofBox, MvexBox, TfdtBox, TfhdBox, TrafBox, TrexBox, TrunBox,
};
use mp4_table::{Co64Box, CttsBox, StcoBox, StscBox, StssBox, StszBox, SttsBox};
use std::alloc::Global;

/// Why a payload is refused as that of a box of this kind; `Err` is `OutOfMemory` alone.
fn refusal<B: ReadBox>(alloc: Global, payload: &[u8]) -> Result<Option<Error>>
    ensures { TellsFault result (fault_of (B.value payload.now)) }
{
    match B::read_payload(alloc, payload) {
        Ok(value) => {
            drop(value);
            Ok(None)
        }
        Err(Error::OutOfMemory) => Err(Error::OutOfMemory),
        Err(error) => Ok(Some(error)),
    }
}

/// Why a payload is refused as that of a box of this type; `None` where it isn't, and for types that the library
/// doesn't read. `Err` is `OutOfMemory` alone.
#[tactic(auto, unfolding(crate::specs::Refusal::payload_fault))]
pub fn refusal_of(alloc: Global, name: BoxType, payload: &[u8]) -> Result<Option<Error>>
    ensures { TellsFault result (payload_fault name payload.now) }
{
    match name {
        BoxType::FtypBox => refusal::<FtypBox>(alloc, payload),
        BoxType::MoovBox => refusal::<MoovBox>(alloc, payload),
        BoxType::MvhdBox => refusal::<MvhdBox>(alloc, payload),
        BoxType::TrakBox => refusal::<TrakBox>(alloc, payload),
        BoxType::TkhdBox => refusal::<TkhdBox>(alloc, payload),
        BoxType::EdtsBox => refusal::<EdtsBox>(alloc, payload),
        BoxType::ElstBox => refusal::<ElstBox>(alloc, payload),
        BoxType::MdiaBox => refusal::<MdiaBox>(alloc, payload),
        BoxType::MdhdBox => refusal::<MdhdBox>(alloc, payload),
        BoxType::HdlrBox => refusal::<HdlrBox>(alloc, payload),
        BoxType::MinfBox => refusal::<MinfBox>(alloc, payload),
        BoxType::VmhdBox => refusal::<VmhdBox>(alloc, payload),
        BoxType::SmhdBox => refusal::<SmhdBox>(alloc, payload),
        BoxType::DinfBox => refusal::<DinfBox>(alloc, payload),
        BoxType::DrefBox => refusal::<DrefBox>(alloc, payload),
        BoxType::UrlBox => refusal::<UrlBox>(alloc, payload),
        _ => table_refusal_of(alloc, name, payload),
    }
}

/// The same for the boxes of a sample table.
#[tactic(auto, unfolding(crate::specs::Refusal::table_fault))]
fn table_refusal_of(alloc: Global, name: BoxType, payload: &[u8]) -> Result<Option<Error>>
    ensures { TellsFault result (table_fault name payload.now) }
{
    match name {
        BoxType::StblBox => refusal::<StblBox>(alloc, payload),
        BoxType::StsdBox => refusal::<StsdBox>(alloc, payload),
        BoxType::SttsBox => refusal::<SttsBox>(alloc, payload),
        BoxType::CttsBox => refusal::<CttsBox>(alloc, payload),
        BoxType::StssBox => refusal::<StssBox>(alloc, payload),
        BoxType::StscBox => refusal::<StscBox>(alloc, payload),
        BoxType::StszBox => refusal::<StszBox>(alloc, payload),
        BoxType::StcoBox => refusal::<StcoBox>(alloc, payload),
        BoxType::Co64Box => refusal::<Co64Box>(alloc, payload),
        BoxType::Avc1Box => refusal::<Avc1Box>(alloc, payload),
        BoxType::AvcCBox => refusal::<AvcCBox>(alloc, payload),
        BoxType::Hev1Box => refusal::<Hev1Box>(alloc, payload),
        BoxType::HvcCBox => refusal::<HvcCBox>(alloc, payload),
        BoxType::Vp09Box => refusal::<Vp09Box>(alloc, payload),
        BoxType::VpccBox => refusal::<VpccBox>(alloc, payload),
        BoxType::Mp4aBox => refusal::<Mp4aBox>(alloc, payload),
        BoxType::EsdsBox => refusal::<EsdsBox>(alloc, payload),
        BoxType::Tx3gBox => refusal::<Tx3gBox>(alloc, payload),
        _ => other_refusal_of(alloc, name, payload),
    }
}

/// The same for the boxes of fragments and of metadata.
#[tactic(auto, unfolding(crate::specs::Refusal::other_fault))]
fn other_refusal_of(alloc: Global, name: BoxType, payload: &[u8]) -> Result<Option<Error>>
    ensures { TellsFault result (other_fault name payload.now) }
{
    match name {
        BoxType::MvexBox => refusal::<MvexBox>(alloc, payload),
        BoxType::MehdBox => refusal::<MehdBox>(alloc, payload),
        BoxType::TrexBox => refusal::<TrexBox>(alloc, payload),
        BoxType::EmsgBox => refusal::<EmsgBox>(alloc, payload),
        BoxType::MoofBox => refusal::<MoofBox>(alloc, payload),
        BoxType::MfhdBox => refusal::<MfhdBox>(alloc, payload),
        BoxType::TrafBox => refusal::<TrafBox>(alloc, payload),
        BoxType::TfhdBox => refusal::<TfhdBox>(alloc, payload),
        BoxType::TfdtBox => refusal::<TfdtBox>(alloc, payload),
        BoxType::TrunBox => refusal::<TrunBox>(alloc, payload),
        BoxType::UdtaBox => refusal::<UdtaBox>(alloc, payload),
        BoxType::MetaBox => refusal::<MetaBox>(alloc, payload),
        BoxType::IlstBox => refusal::<IlstBox>(alloc, payload),
        BoxType::NameBox => refusal::<IlstItemBox>(alloc, payload),
        BoxType::DayBox => refusal::<IlstItemBox>(alloc, payload),
        BoxType::CovrBox => refusal::<IlstItemBox>(alloc, payload),
        BoxType::DescBox => refusal::<IlstItemBox>(alloc, payload),
        BoxType::DataBox => refusal::<DataBox>(alloc, payload),
        _ => Ok(None),
    }
}
