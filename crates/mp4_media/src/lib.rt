//! MP4 files (ISO/IEC 14496-12), read and written.
#![tactic(auto)]

mod calls;
mod file;
mod file_writer;
mod fragments;
pub mod framing;
pub mod laws;
mod movie;
mod opening;
mod reader;
mod round_trip;
mod sample_refs;
pub mod searching;
mod tracks;
mod write_error;
mod writer;
pub mod writing;

// Movies.
pub use calls::WriterCall;
pub use file::Mp4File;
pub use file_writer::Mp4FileWriter;
pub use movie::Movie;
pub use mp4_lookup::{FoundNumber, Mp4Track, SampleCursor, Samples, TimeRange, time_of};
pub use mp4_mux::{Mp4Config, TrackConfig, mdat_header};
pub use mp4_samples::{Comparisons, Mp4Sample, Place, SamplePlace, SampleRef, is_equal_sample};
pub use mp4_source::{
    ByteSink, ByteSource, CountingSink, FileError, SeekSink, SeekSource, SinkError, SourceError,
    Window,
};
pub use reader::{Mp4Reader, read_mp4};
pub use round_trip::{FoundSample, RoundTrip, SampleQuery, find_sample, write_and_read};
pub use sample_refs::SampleRefs;
pub use write_error::WriteError;
pub use writer::Mp4Writer;

// Boxes, and how they are framed.
pub use mp4_codec::{
    BoxHeader, BoxType, ByteCursor, Child, Children, Error, ExactEq, FixedPointI8, FixedPointU8,
    FixedPointU16, FourCC, HEADER_EXT_SIZE, HEADER_SIZE, Items, KeyedItems, Limit, Mp4Box,
    OPEN_END, Plain, ReadBox, Result, SharedItems, Text, TryClone, WriteBox, is_equal,
};

// Containers.
pub use mp4_boxes::{EdtsBox, MdiaBox, MinfBox, MoovBox, StblBox, TrakBox};
pub use mp4_meta::{IlstBox, IlstItemBox, MetaBox, Metadata, MetadataKey, UdtaBox};

// Leaf boxes, sample entries and sample tables.
pub use mp4_entry::{
    AacConfig, AudioObjectType, Avc1Box, AvcCBox, AvcConfig, AvcProfile, ChannelConfig,
    DecoderConfigDescriptor, DecoderSpecificDescriptor, ESDescriptor, EsdsBox, Hev1Box, HevcConfig,
    HvcCBox, MediaConfig, MediaType, Mp4aBox, NalUnit, SLConfigDescriptor, SampleFreqIndex,
    StsdBox, TrackType, TtxtConfig, Tx3gBox, Vp09Box, Vp9Config, VpccBox,
};
pub use mp4_leaf::{
    DataBox, DataType, DinfBox, DrefBox, ElstBox, ElstEntry, FtypBox, HdlrBox, Matrix, MdhdBox,
    MvhdBox, RgbColor, SmhdBox, TkhdBox, UrlBox, VmhdBox,
};
pub use mp4_moof::{
    EmsgBox, MehdBox, MfhdBox, MoofBox, MvexBox, TfdtBox, TfhdBox, TrafBox, TrexBox, TrunBox,
};
pub use mp4_table::{
    Co64Box, CttsBox, CttsEntry, StcoBox, StscBox, StscEntry, StssBox, StszBox, SttsBox, SttsEntry,
};
