//! The types of boxes (ISO/IEC 14496-12, 4.2).

ghost use Rattle.mp4_codec.specs.ExactTest.{exact_enum, field_tests};
ghost use Rattle.mp4_codec.specs.contracts.box_type.BoxType.{enum as box_types};
ghost use Rattle.std.specs.Prelude.{◌≡◌};
ghost use Rattle.mp4_codec.specs.BoxType.{code_of, box_type};
ghost use Rattle.mp4_codec.specs.Bytes.{coded};

use crate::exact_eq::ExactEq;
use crate::four_cc::{FourCC, write_code};
use std::fmt;

/// The type of a box: one that this library names, or any other code of four bytes.
///
/// The name of a type is its code with a capital, and `Box`; `UrlBox` is `url ` with a space, `NameBox`
/// is `a96e616d` (©nam) and `DayBox` is `a9646179` (©day).
#[derive(Clone, Copy, Debug, PartialEq, Eq)]
pub enum BoxType {
    FtypBox,
    MvhdBox,
    MfhdBox,
    FreeBox,
    MdatBox,
    MoovBox,
    MvexBox,
    MehdBox,
    TrexBox,
    EmsgBox,
    MoofBox,
    TkhdBox,
    TfhdBox,
    TfdtBox,
    EdtsBox,
    MdiaBox,
    ElstBox,
    MdhdBox,
    HdlrBox,
    MinfBox,
    VmhdBox,
    StblBox,
    StsdBox,
    SttsBox,
    CttsBox,
    StssBox,
    StscBox,
    StszBox,
    StcoBox,
    Co64Box,
    TrakBox,
    TrafBox,
    TrunBox,
    UdtaBox,
    MetaBox,
    DinfBox,
    DrefBox,
    SmhdBox,
    Avc1Box,
    Hev1Box,
    Mp4aBox,
    EsdsBox,
    Tx3gBox,
    Vp09Box,
    DataBox,
    IlstBox,
    CovrBox,
    DescBox,
    WideBox,
    WaveBox,
    UrlBox,
    AvcCBox,
    HvcCBox,
    VpccBox,
    NameBox,
    DayBox,
    /// A code that has no name above. What is read is never a named type encoded so.
    UnknownBox(u32),
}

impl ExactEq for BoxType {
    ghost exact = { exact_enum box_types (Prim.search field_tests) };
}

impl From<BoxType> for u32 {
    ghost from_gives = { λ t n. n ≡ code_of t };

    fn from(t: BoxType) -> u32 {
        match t {
            BoxType::FtypBox => 0x66747970,
            BoxType::MvhdBox => 0x6d766864,
            BoxType::MfhdBox => 0x6d666864,
            BoxType::FreeBox => 0x66726565,
            BoxType::MdatBox => 0x6d646174,
            BoxType::MoovBox => 0x6d6f6f76,
            BoxType::MvexBox => 0x6d766578,
            BoxType::MehdBox => 0x6d656864,
            BoxType::TrexBox => 0x74726578,
            BoxType::EmsgBox => 0x656d7367,
            BoxType::MoofBox => 0x6d6f6f66,
            BoxType::TkhdBox => 0x746b6864,
            BoxType::TfhdBox => 0x74666864,
            BoxType::TfdtBox => 0x74666474,
            BoxType::EdtsBox => 0x65647473,
            BoxType::MdiaBox => 0x6d646961,
            BoxType::ElstBox => 0x656c7374,
            BoxType::MdhdBox => 0x6d646864,
            BoxType::HdlrBox => 0x68646c72,
            BoxType::MinfBox => 0x6d696e66,
            BoxType::VmhdBox => 0x766d6864,
            BoxType::StblBox => 0x7374626c,
            BoxType::StsdBox => 0x73747364,
            BoxType::SttsBox => 0x73747473,
            BoxType::CttsBox => 0x63747473,
            BoxType::StssBox => 0x73747373,
            BoxType::StscBox => 0x73747363,
            BoxType::StszBox => 0x7374737a,
            BoxType::StcoBox => 0x7374636f,
            BoxType::Co64Box => 0x636f3634,
            BoxType::TrakBox => 0x7472616b,
            BoxType::TrafBox => 0x74726166,
            BoxType::TrunBox => 0x7472756e,
            BoxType::UdtaBox => 0x75647461,
            BoxType::MetaBox => 0x6d657461,
            BoxType::DinfBox => 0x64696e66,
            BoxType::DrefBox => 0x64726566,
            BoxType::SmhdBox => 0x736d6864,
            BoxType::Avc1Box => 0x61766331,
            BoxType::Hev1Box => 0x68657631,
            BoxType::Mp4aBox => 0x6d703461,
            BoxType::EsdsBox => 0x65736473,
            BoxType::Tx3gBox => 0x74783367,
            BoxType::Vp09Box => 0x76703039,
            BoxType::DataBox => 0x64617461,
            BoxType::IlstBox => 0x696c7374,
            BoxType::CovrBox => 0x636f7672,
            BoxType::DescBox => 0x64657363,
            BoxType::WideBox => 0x77696465,
            BoxType::WaveBox => 0x77617665,
            BoxType::UrlBox => 0x75726c20,
            BoxType::AvcCBox => 0x61766343,
            BoxType::HvcCBox => 0x68766343,
            BoxType::VpccBox => 0x76706343,
            BoxType::NameBox => 0xa96e616d,
            BoxType::DayBox => 0xa9646179,
            BoxType::UnknownBox(code) => code,
        }
    }
}

impl From<u32> for BoxType {
    ghost from_gives = { λ n t. t ≡ box_type n };

    #[tactic(auto, unfolding(crate::specs::BoxType::box_type))]
    fn from(code: u32) -> BoxType {
        match code {
            0x66747970 => BoxType::FtypBox,
            0x6d766864 => BoxType::MvhdBox,
            0x6d666864 => BoxType::MfhdBox,
            0x66726565 => BoxType::FreeBox,
            0x6d646174 => BoxType::MdatBox,
            0x6d6f6f76 => BoxType::MoovBox,
            0x6d766578 => BoxType::MvexBox,
            0x6d656864 => BoxType::MehdBox,
            0x74726578 => BoxType::TrexBox,
            0x656d7367 => BoxType::EmsgBox,
            0x6d6f6f66 => BoxType::MoofBox,
            0x746b6864 => BoxType::TkhdBox,
            0x74666864 => BoxType::TfhdBox,
            0x74666474 => BoxType::TfdtBox,
            0x65647473 => BoxType::EdtsBox,
            0x6d646961 => BoxType::MdiaBox,
            0x656c7374 => BoxType::ElstBox,
            0x6d646864 => BoxType::MdhdBox,
            0x68646c72 => BoxType::HdlrBox,
            0x6d696e66 => BoxType::MinfBox,
            0x766d6864 => BoxType::VmhdBox,
            0x7374626c => BoxType::StblBox,
            0x73747364 => BoxType::StsdBox,
            0x73747473 => BoxType::SttsBox,
            0x63747473 => BoxType::CttsBox,
            0x73747373 => BoxType::StssBox,
            0x73747363 => BoxType::StscBox,
            0x7374737a => BoxType::StszBox,
            0x7374636f => BoxType::StcoBox,
            0x636f3634 => BoxType::Co64Box,
            0x7472616b => BoxType::TrakBox,
            0x74726166 => BoxType::TrafBox,
            0x7472756e => BoxType::TrunBox,
            0x75647461 => BoxType::UdtaBox,
            0x6d657461 => BoxType::MetaBox,
            0x64696e66 => BoxType::DinfBox,
            0x64726566 => BoxType::DrefBox,
            0x736d6864 => BoxType::SmhdBox,
            0x61766331 => BoxType::Avc1Box,
            0x68657631 => BoxType::Hev1Box,
            0x6d703461 => BoxType::Mp4aBox,
            0x65736473 => BoxType::EsdsBox,
            0x74783367 => BoxType::Tx3gBox,
            0x76703039 => BoxType::Vp09Box,
            0x64617461 => BoxType::DataBox,
            0x696c7374 => BoxType::IlstBox,
            0x636f7672 => BoxType::CovrBox,
            0x64657363 => BoxType::DescBox,
            0x77696465 => BoxType::WideBox,
            0x77617665 => BoxType::WaveBox,
            0x75726c20 => BoxType::UrlBox,
            0x61766343 => BoxType::AvcCBox,
            0x68766343 => BoxType::HvcCBox,
            0x76706343 => BoxType::VpccBox,
            0xa96e616d => BoxType::NameBox,
            0xa9646179 => BoxType::DayBox,
            _ => BoxType::UnknownBox(code),
        }
    }
}

impl From<BoxType> for FourCC {
    ghost from_gives = { λ t f. f ≡ coded (code_of t) };

    fn from(t: BoxType) -> FourCC {
        FourCC::from(u32::from(t))
    }
}

impl fmt::Display for BoxType {
    fn fmt<W: fmt::Write>(&self, f: &mut fmt::Formatter<W>) -> fmt::Result {
        let code = u32::from(*self);
        write_code(code.to_be_bytes(), f)
    }
}

/// Each code is the code of its type: `u32::from(BoxType::from(code))` is `code`.
pub fn code_again(code: u32) -> u32
    ensures { result ≡ code }
{
    u32::from(BoxType::from(code))
}
