//! What the default value of a type of box answers.

use crate::boxes::made;
use crate::kinds::kind_named;
use crate::refusals::Answer;
use mp4_boxes::{EdtsBox, MdiaBox, MinfBox, MoovBox, StblBox, TrakBox};
use mp4_codec::BoxType;
use mp4_entry::{
    Avc1Box, AvcCBox, EsdsBox, Hev1Box, HvcCBox, Mp4aBox, StsdBox, Tx3gBox, Vp09Box, VpccBox,
};
use mp4_leaf::{
    DataBox, DinfBox, DrefBox, ElstBox, FtypBox, HdlrBox, MdhdBox, MvhdBox, SmhdBox, TkhdBox,
    UrlBox, VmhdBox,
};
use mp4_meta::{IlstBox, MetaBox, UdtaBox};
use mp4_moof::{
    EmsgBox, MehdBox, MfhdBox, MoofBox, MvexBox, TfdtBox, TfhdBox, TrafBox, TrexBox, TrunBox,
};
use mp4_table::{Co64Box, CttsBox, StcoBox, StscBox, StssBox, StszBox, SttsBox};
use std::alloc::Global;

/// What the default value of a box of movie fragments answers.
fn answer_of_fragment_box(alloc: Global, kind: BoxType, question: &str) -> Answer {
    match kind {
        BoxType::EmsgBox => made(alloc, EmsgBox::default(alloc), question),
        BoxType::MehdBox => made(alloc, Ok(MehdBox::default()), question),
        BoxType::MfhdBox => made(alloc, Ok(MfhdBox::default()), question),
        BoxType::MoofBox => made(alloc, MoofBox::default(alloc), question),
        BoxType::MvexBox => made(alloc, MvexBox::default(alloc), question),
        BoxType::TfdtBox => made(alloc, Ok(TfdtBox::default()), question),
        BoxType::TfhdBox => made(alloc, Ok(TfhdBox::default()), question),
        BoxType::TrafBox => made(alloc, TrafBox::default(alloc), question),
        BoxType::TrexBox => made(alloc, Ok(TrexBox::default()), question),
        BoxType::TrunBox => made(alloc, TrunBox::default(alloc), question),
        _ => Ok(None),
    }
}

/// What the default value of a sample table, of a sample description or a box inside, or of a box of movie fragments
/// answers.
fn answer_of_sample_box(alloc: Global, kind: BoxType, question: &str) -> Answer {
    match kind {
        BoxType::Avc1Box => made(alloc, Avc1Box::default(alloc), question),
        BoxType::AvcCBox => made(alloc, AvcCBox::default(alloc), question),
        BoxType::Co64Box => made(alloc, Co64Box::default(alloc), question),
        BoxType::CttsBox => made(alloc, CttsBox::default(alloc), question),
        BoxType::EsdsBox => made(alloc, Ok(EsdsBox::default()), question),
        BoxType::Hev1Box => made(alloc, Hev1Box::default(alloc), question),
        BoxType::HvcCBox => made(alloc, HvcCBox::default(alloc), question),
        BoxType::Mp4aBox => made(alloc, Ok(Mp4aBox::default()), question),
        BoxType::StcoBox => made(alloc, StcoBox::default(alloc), question),
        BoxType::StscBox => made(alloc, StscBox::default(alloc), question),
        BoxType::StsdBox => made(alloc, Ok(StsdBox::default()), question),
        BoxType::StssBox => made(alloc, StssBox::default(alloc), question),
        BoxType::StszBox => made(alloc, StszBox::default(alloc), question),
        BoxType::SttsBox => made(alloc, SttsBox::default(alloc), question),
        BoxType::Tx3gBox => made(alloc, Ok(Tx3gBox::default()), question),
        BoxType::Vp09Box => made(alloc, Vp09Box::default(alloc), question),
        BoxType::VpccBox => made(alloc, VpccBox::default(alloc), question),
        kind => answer_of_fragment_box(alloc, kind, question),
    }
}

/// What the default value of a type of box answers to a question; None where that is no question, or the type isn't
/// known.
pub fn answer_of_default(alloc: Global, kind: &str, question: &str) -> Answer {
    match kind_named(kind) {
        BoxType::DataBox => made(alloc, DataBox::default(alloc), question),
        BoxType::DinfBox => made(alloc, DinfBox::default(alloc), question),
        BoxType::DrefBox => made(alloc, DrefBox::default(alloc), question),
        BoxType::EdtsBox => made(alloc, Ok(EdtsBox::default()), question),
        BoxType::ElstBox => made(alloc, ElstBox::default(alloc), question),
        BoxType::FtypBox => made(alloc, FtypBox::default(alloc), question),
        BoxType::HdlrBox => made(alloc, HdlrBox::default(alloc), question),
        BoxType::IlstBox => made(alloc, IlstBox::default(alloc), question),
        BoxType::MdhdBox => made(alloc, MdhdBox::default(alloc), question),
        BoxType::MdiaBox => made(alloc, MdiaBox::default(alloc), question),
        BoxType::MetaBox => made(alloc, MetaBox::default(alloc), question),
        BoxType::MinfBox => made(alloc, MinfBox::default(alloc), question),
        BoxType::MoovBox => made(alloc, MoovBox::default(alloc), question),
        BoxType::MvhdBox => made(alloc, Ok(MvhdBox::default()), question),
        BoxType::SmhdBox => made(alloc, Ok(SmhdBox::default()), question),
        BoxType::StblBox => made(alloc, StblBox::default(alloc), question),
        BoxType::TkhdBox => made(alloc, Ok(TkhdBox::default()), question),
        BoxType::TrakBox => made(alloc, TrakBox::default(alloc), question),
        BoxType::UdtaBox => made(alloc, Ok(UdtaBox::default()), question),
        BoxType::UrlBox => made(alloc, UrlBox::default(alloc), question),
        BoxType::VmhdBox => made(alloc, Ok(VmhdBox::default()), question),
        kind => answer_of_sample_box(alloc, kind, question),
    }
}
