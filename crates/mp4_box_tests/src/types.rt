//! What sample entries and containers say of their types and sizes.

use crate::asserts::{assert_equal, assert_that};
use mp4_boxes::{MdiaBox, MinfBox, MoovBox, StblBox};
use mp4_codec::BoxType;
use mp4_entry::{Avc1Box, EsdsBox, Hev1Box, Mp4aBox, StsdBox, Tx3gBox, Vp09Box};
use mp4_meta::{IlstBox, MetaBox, UdtaBox};
use std::alloc::Global;
use std::process::Abort;

/// Whether an entry of AVC and its configuration say their types and sizes.
fn is_avc(rt: &impl Abort, alloc: Global) -> bool {
    let entry = Avc1Box::default(alloc).expect(rt, "memory");
    let leaf = &entry.avcc;
    let types = entry.get_type() == BoxType::Avc1Box && leaf.get_type() == BoxType::AvcCBox;
    types && entry.get_size() == 101 && leaf.get_size() == 15
}

/// Whether an entry of HEVC and its configuration say their types and sizes.
fn is_hevc(rt: &impl Abort, alloc: Global) -> bool {
    let entry = Hev1Box::default(alloc).expect(rt, "memory");
    let leaf = &entry.hvcc;
    let types = entry.get_type() == BoxType::Hev1Box && leaf.get_type() == BoxType::HvcCBox;
    types && entry.get_size() == 117 && leaf.get_size() == 31
}

/// Whether an entry of VP9 and its configuration say their types and sizes.
fn is_vp9(rt: &impl Abort, alloc: Global) -> bool {
    let entry = Vp09Box::default(alloc).expect(rt, "memory");
    let leaf = &entry.vpcc;
    let types = entry.get_type() == BoxType::Vp09Box && leaf.get_type() == BoxType::VpccBox;
    types && entry.get_size() == 106 && leaf.get_size() == 20
}

#[test]
fn an_entry_says_its_type_and_size(rt: HostRuntime) {
    assert_that(&rt, "avc1", is_avc(&rt, rt.alloc()));
    assert_that(&rt, "hev1", is_hevc(&rt, rt.alloc()));
    assert_that(&rt, "vp09", is_vp9(&rt, rt.alloc()));
    let esds = EsdsBox::default();
    assert_equal(
        &rt,
        (esds.get_type(), esds.get_size()),
        (BoxType::EsdsBox, 39),
    );
    let mp4a = Mp4aBox::default();
    assert_equal(
        &rt,
        (mp4a.get_type(), mp4a.get_size()),
        (BoxType::Mp4aBox, 36),
    );
    let tx3g = Tx3gBox::default();
    assert_equal(
        &rt,
        (tx3g.get_type(), tx3g.get_size()),
        (BoxType::Tx3gBox, 46),
    );
    let stsd = StsdBox::default();
    assert_equal(
        &rt,
        (stsd.get_type(), stsd.get_size()),
        (BoxType::StsdBox, 16),
    );
}

/// Whether a list of metadata says its type and size.
fn is_list(rt: &impl Abort, alloc: Global) -> bool {
    let list = IlstBox::default(alloc).expect(rt, "memory");
    list.get_type() == BoxType::IlstBox && list.get_size() == 8
}

/// Whether metadata say their type and size.
fn is_metadata(rt: &impl Abort, alloc: Global) -> bool {
    let meta = MetaBox::default(alloc).expect(rt, "memory");
    meta.get_type() == BoxType::MetaBox && meta.get_size() == 45
}

/// Whether a sample table says its type and size.
fn is_table(rt: &impl Abort, alloc: Global) -> bool {
    let table = StblBox::default(alloc).expect(rt, "memory");
    table.get_type() == BoxType::StblBox && table.get_size() == 76
}

/// Whether media information says its type and size.
fn is_information(rt: &impl Abort, alloc: Global) -> bool {
    let information = MinfBox::default(alloc).expect(rt, "memory");
    information.get_type() == BoxType::MinfBox && information.get_size() == 120
}

/// Whether media say their type and size.
fn are_media(rt: &impl Abort, alloc: Global) -> bool {
    let media = MdiaBox::default(alloc).expect(rt, "memory");
    media.get_type() == BoxType::MdiaBox && media.get_size() == 193
}

/// Whether a movie says its type and size.
fn is_movie(rt: &impl Abort, alloc: Global) -> bool {
    let movie = MoovBox::default(alloc).expect(rt, "memory");
    movie.get_type() == BoxType::MoovBox && movie.get_size() == 116
}

#[test]
fn a_container_says_its_type_and_size(rt: HostRuntime) {
    assert_that(&rt, "ilst", is_list(&rt, rt.alloc()));
    assert_that(&rt, "meta", is_metadata(&rt, rt.alloc()));
    assert_that(&rt, "stbl", is_table(&rt, rt.alloc()));
    assert_that(&rt, "minf", is_information(&rt, rt.alloc()));
    assert_that(&rt, "mdia", are_media(&rt, rt.alloc()));
    assert_that(&rt, "moov", is_movie(&rt, rt.alloc()));
    let udta = UdtaBox::default();
    assert_equal(
        &rt,
        (udta.get_type(), udta.get_size()),
        (BoxType::UdtaBox, 8),
    );
}
