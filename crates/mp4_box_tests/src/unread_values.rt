//! Sample entries and containers that no bytes give: those that are refused when they are written, and those that are
//! written as another.

use crate::asserts::assert_that;
use mp4_boxes::{MdiaBox, MinfBox, StblBox};
use mp4_codec::{BoxType, FourCC, Items, SharedItems, Text, WriteBox};
use mp4_entry::{Avc1Box, AvcCBox, EsdsBox, Hev1Box, Mp4aBox, NalUnit, StsdBox, Tx3gBox};
use mp4_leaf::{DataBox, DataType, HdlrBox};
use mp4_meta::{IlstBox, IlstItemBox, MetaBox, Metadata, MetadataKey};
use mp4_moof::{TrafBox, TrunBox};
use mp4_plain_movies::encoded::{hex, is_invalid, is_unrepresentable, read_bytes, writes, written};
use std::alloc::Global;
use std::process::Abort;

/// Whether a box is refused since a value can't be encoded.
fn is_refused<B: WriteBox>(rt: &impl Abort, alloc: Global, value: &B) -> bool {
    is_unrepresentable(alloc, value).expect(rt, "memory")
}

/// An esds that has a number past its bits, one of six.
fn past_its_bits(number: u8) -> EsdsBox {
    let mut leaf = EsdsBox::default();
    let decoder = &mut leaf.es_desc.dec_config;
    match number {
        0 => decoder.dec_specific.profile = 31,
        1 => decoder.dec_specific.freq_index = 15,
        2 => decoder.dec_specific.chan_conf = 16,
        3 => decoder.stream_type = 64,
        4 => decoder.up_stream = 2,
        _ => decoder.buffer_size_db = 0x1000000,
    }
    leaf
}

/// Whether an entry isn't written, and has its size.
fn is_not_written(rt: &impl Abort, alloc: Global, entry: &Mp4aBox) -> bool {
    is_refused(rt, alloc, entry) && entry.get_size() == 75
}

#[test]
fn a_number_past_its_bits_is_not_written(rt: HostRuntime) {
    for number in 0..6 {
        let leaf = past_its_bits(number);
        assert_that(&rt, number, is_refused(&rt, rt.alloc(), &leaf));
        let mut entry = Mp4aBox::default();
        entry.esds = Some(leaf);
        assert_that(&rt, number, is_not_written(&rt, rt.alloc(), &entry));
    }
}

/// So many parameter sets without bytes.
fn empty_sets(rt: &impl Abort, alloc: Global, count: usize) -> SharedItems<NalUnit> {
    let mut sets = SharedItems::new(alloc);
    for _ in 0..count {
        let set = NalUnit {
            bytes: Items::new(alloc),
        };
        sets.push(set).expect(rt, "memory");
    }
    sets
}

/// Whether a configuration is unrepresentable, and its size counts all that it holds.
fn has_no_bits(rt: &impl Abort, alloc: Global, leaf: &AvcCBox, size: u64) -> bool {
    is_refused(rt, alloc, leaf) && leaf.get_size() == size
}

/// Whether a configuration with this length size less 1 is unrepresentable.
fn has_no_length_size(rt: &impl Abort, alloc: Global, length_size_minus_one: u8) -> bool {
    let mut leaf = AvcCBox::default(alloc).expect(rt, "memory");
    leaf.length_size_minus_one = length_size_minus_one;
    has_no_bits(rt, alloc, &leaf, 15)
}

/// Whether a configuration with so many sets is unrepresentable.
fn has_too_many(
    rt: &impl Abort,
    alloc: Global,
    sequences: usize,
    pictures: usize,
    size: u64,
) -> bool {
    let mut leaf = AvcCBox::default(alloc).expect(rt, "memory");
    leaf.sequence_parameter_sets = empty_sets(rt, alloc, sequences);
    leaf.picture_parameter_sets = empty_sets(rt, alloc, pictures);
    has_no_bits(rt, alloc, &leaf, size)
}

/// A configuration with one sequence parameter set of 2^16 bytes.
fn long_set(rt: &impl Abort, alloc: Global) -> AvcCBox {
    let bytes = Items::from(vec![in alloc; 0xeeu8; 0x1_0000].expect(rt, "memory"));
    let mut leaf = AvcCBox::default(alloc).expect(rt, "memory");
    let sets = &mut leaf.sequence_parameter_sets;
    sets.push(NalUnit { bytes }).expect(rt, "memory");
    leaf
}

/// Whether a set of 2^16 bytes is unrepresentable, also in an entry.
fn is_too_long(rt: &impl Abort, alloc: Global) -> bool {
    let mut entry = Avc1Box::default(alloc).expect(rt, "memory");
    entry.avcc = long_set(rt, alloc);
    has_no_bits(rt, alloc, &entry.avcc, 15 + 2 + 0x1_0000)
        && is_refused(rt, alloc, &entry)
        && entry.get_size() == 86 + 15 + 2 + 0x1_0000
}

#[test]
fn parameter_sets_past_their_counts_are_not_written(rt: HostRuntime) {
    assert_that(&rt, "length size", has_no_length_size(&rt, rt.alloc(), 4));
    assert_that(&rt, "sequence", has_too_many(&rt, rt.alloc(), 32, 0, 79));
    assert_that(&rt, "picture", has_too_many(&rt, rt.alloc(), 31, 256, 589));
    assert_that(&rt, "bytes", is_too_long(&rt, rt.alloc()));
}

/// A description with an entry of HEVC and one of text.
fn of_two(rt: &impl Abort, alloc: Global) -> StsdBox {
    let mut description = StsdBox::default();
    description.hev1 = Some(Hev1Box::default(alloc).expect(rt, "memory"));
    description.tx3g = Some(Tx3gBox::default());
    description
}

/// Whether it is written so.
fn is_first_written(rt: &impl Abort, alloc: Global, text: &str) -> bool {
    let description = of_two(rt, alloc);
    let is_written = writes(alloc, &description, text).expect(rt, "it is written");
    is_written && description.get_size() == 133
}

#[test]
fn the_first_of_two_entries_is_written(rt: HostRuntime) {
    let text = "00000085 73747364 00 000000 00000001 \
        00000075 68657631 000000000000 0001 00000000000000000000000000000000 \
        0000 0000 00480000 00480000 00000000 0001 \
        0000000000000000000000000000000000000000000000000000000000000000 0018 ffff \
        0000001f 68766343 01 00000000000000000000000000000000000000000000";
    assert_that(&rt, 1, is_first_written(&rt, rt.alloc(), text));
}

/// Whether a track fragment isn't written whose track run has the duration of a sample, and no samples.
fn fragment_is_invalid(rt: &impl Abort, alloc: Global) -> bool {
    let mut run = TrunBox::default(alloc).expect(rt, "memory");
    run.sample_durations.push(1).expect(rt, "memory");
    let mut traf = TrafBox::default(alloc).expect(rt, "memory");
    traf.truns.push(run).expect(rt, "memory");
    makes_invalid(rt, alloc, traf)
}

/// Whether a box is refused as invalid data when it is written.
fn makes_invalid<B: WriteBox>(rt: &impl Abort, alloc: Global, value: B) -> bool {
    is_invalid(alloc, &value).expect(rt, "memory")
}

/// Whether a box is refused since a value can't be encoded.
fn makes_unrepresentable<B: WriteBox>(rt: &impl Abort, alloc: Global, value: B) -> bool {
    is_refused(rt, alloc, &value)
}

/// A table of one sample without a size.
fn table_without_size(rt: &impl Abort, alloc: Global) -> StblBox {
    let mut table = StblBox::default(alloc).expect(rt, "memory");
    table.stsz.sample_count = 1;
    table
}

/// Media information of one sample without a size.
fn information_without_size(rt: &impl Abort, alloc: Global) -> MinfBox {
    let mut information = MinfBox::default(alloc).expect(rt, "memory");
    information.stbl.stsz.sample_count = 1;
    information
}

/// Media of one sample without a size.
fn media_without_size(rt: &impl Abort, alloc: Global) -> MdiaBox {
    let mut media = MdiaBox::default(alloc).expect(rt, "memory");
    media.minf.stbl.stsz.sample_count = 1;
    media
}

/// Media of one sample without a size, with a language of seven letters.
fn with_long_language(rt: &impl Abort, alloc: Global) -> MdiaBox {
    let mut media = media_without_size(rt, alloc);
    media.mdhd.language = Text::from_str(alloc, "english").expect(rt, "memory");
    media
}

#[test]
fn the_first_child_that_is_refused_refuses_its_container(rt: HostRuntime) {
    let alloc = rt.alloc();
    assert_that(&rt, "traf", fragment_is_invalid(&rt, alloc));
    assert_that(
        &rt,
        "stbl",
        makes_invalid(&rt, alloc, table_without_size(&rt, alloc)),
    );
    assert_that(
        &rt,
        "minf",
        makes_invalid(&rt, alloc, information_without_size(&rt, alloc)),
    );
    assert_that(
        &rt,
        "mdia",
        makes_invalid(&rt, alloc, media_without_size(&rt, alloc)),
    );
    assert_that(
        &rt,
        "language",
        makes_unrepresentable(&rt, alloc, with_long_language(&rt, alloc)),
    );
}

/// The year of a list whose item has these bytes, of this type.
fn year(rt: &impl Abort, alloc: Global, data_type: DataType, text: &str) -> Option<u32> {
    let bytes = Items::from(hex(alloc, text).expect(rt, "memory"));
    let item = IlstItemBox {
        item: DataBox { data_type, bytes },
    };
    let mut list = IlstBox::default(alloc).expect(rt, "memory");
    list.items
        .insert(MetadataKey::Year, item)
        .expect(rt, "memory");
    list.year()
}

/// Metadata of handler mdir that keeps a child of an unknown type.
fn unknown_of_mdir(rt: &impl Abort, alloc: Global) -> MetaBox {
    let mut hdlr = HdlrBox::default(alloc).expect(rt, "memory");
    hdlr.handler_type = FourCC::from(*b"mdir");
    let mut children = Items::new(alloc);
    let payload = Items::from(hex(alloc, "313233").expect(rt, "memory"));
    let child = (BoxType::UnknownBox(0x42494241), payload);
    children.push(child).expect(rt, "memory");
    MetaBox::Unknown { hdlr, children }
}

/// Whether it is written, and read back as metadata without a list.
fn unknown_of_mdir_has_no_list(rt: &impl Abort, alloc: Global) -> bool {
    let bytes = written(alloc, &unknown_of_mdir(rt, alloc)).expect(rt, "it is written");
    let again = read_bytes::<MetaBox>(alloc, &bytes).expect(rt, "it is read");
    again == MetaBox::Mdir { ilst: None }
}

#[test]
fn metadata_of_another_name_for_its_type_is_another(rt: HostRuntime) {
    let other_binary = year(&rt, rt.alloc(), DataType::Other(0), "000007e8");
    assert_that(&rt, "year", other_binary.is_none());
    assert_that(&rt, "mdir", unknown_of_mdir_has_no_list(&rt, rt.alloc()));
}
