//! The sample entries that are known, owned and borrowed. A further one is a line in each list here.

ghost use Rattle.std.specs.Prelude.{◌≡◌, ◌-◌, ◌<◌, ◌^◌, Ok, OnOk, length, min};
ghost use Rattle.mp4_codec.specs.Bytes.{Appends};
ghost use Rattle.mp4_codec.specs.Cause.{Answers, Checks};
ghost use Rattle.mp4_codec.specs.Children.{child_box};
ghost use Rattle.mp4_codec.specs.Early.{Shows};
ghost use Rattle.mp4_entry.specs.Stsd.{entry_of, entry_early, entry_of_config};
ghost use Rattle.mp4_entry.specs.Stsd.{borrowed_entry, entry_count, entry_bytes, entry_refusal};

use crate::avc1::Avc1Box;
use crate::config::MediaConfig;
use crate::hev1::Hev1Box;
use crate::mp4a::Mp4aBox;
use crate::tx3g::Tx3gBox;
use crate::vp09::Vp09Box;
use mp4_codec::{BoxType, Child, Mp4Box, Put, ReadBox, Result, WriteBox};
use std::alloc::Global;

/// A sample entry; of an entry of another type only that is known. The crate doesn't export it: it is public so that
/// definitions of the crates above can speak of it, as of how samples are coded.
#[derive(Drop)]
pub enum SampleEntry {
    AvcVideo(Avc1Box),
    HevcVideo(Hev1Box),
    Vp9Video(Vp09Box),
    AacSound(Mp4aBox),
    Text(Tx3gBox),
    /// An entry of another type.
    Other(BoxType),
    /// No entry.
    NoKnown,
}

impl SampleEntry {
    /// The entry of a track that is begun with this configuration.
    pub(crate) fn of_config(alloc: Global, config: &MediaConfig) -> Result<Self>
        ensures { Answers (λ e. e) result (Ok (entry_of_config config.now)) }
    {
        match config {
            MediaConfig::AvcConfig(config) => Ok(Self::AvcVideo(Avc1Box::new(alloc, config)?)),
            MediaConfig::HevcConfig(config) => Ok(Self::HevcVideo(Hev1Box::new(alloc, config)?)),
            MediaConfig::Vp9Config(config) => Ok(Self::Vp9Video(Vp09Box::new(alloc, config)?)),
            MediaConfig::AacConfig(config) => Ok(Self::AacSound(Mp4aBox::new(config))),
            MediaConfig::TtxtConfig(config) => Ok(Self::Text(Tx3gBox::new(config))),
        }
    }

    /// The entry that a child is.
    #[tactic(auto, unfolding(crate::specs::Stsd::entry_of, crate::specs::Stsd::entry_early))]
    pub(crate) fn read(alloc: Global, child: &Child) -> Result<Self>
        ensures value { Answers (λ e. e) result (entry_of (child_box child.now)) }
        ensures early { Shows (entry_early (child_box child.now)) result }
    {
        let code = u32::from(child.name);
        if code == u32::from(BoxType::Avc1Box) {
            return Ok(Self::AvcVideo(ReadBox::read_payload(alloc, child.payload)?));
        }
        if code == u32::from(BoxType::Hev1Box) {
            return Ok(Self::HevcVideo(ReadBox::read_payload(alloc, child.payload)?));
        }
        if code == u32::from(BoxType::Vp09Box) {
            return Ok(Self::Vp9Video(ReadBox::read_payload(alloc, child.payload)?));
        }
        if code == u32::from(BoxType::Mp4aBox) {
            return Ok(Self::AacSound(ReadBox::read_payload(alloc, child.payload)?));
        }
        if code == u32::from(BoxType::Tx3gBox) {
            return Ok(Self::Text(ReadBox::read_payload(alloc, child.payload)?));
        }
        Ok(Self::Other(child.name))
    }
}

/// A borrowed sample entry that is written.
#[derive(Clone, Copy)]
pub(crate) enum EntryRef<'a> {
    AvcVideo(&'a Avc1Box),
    HevcVideo(&'a Hev1Box),
    Vp9Video(&'a Vp09Box),
    AacSound(&'a Mp4aBox),
    Text(&'a Tx3gBox),
    NoKnown,
}

impl<'a> EntryRef<'a> {
    /// How many entries it is.
    pub(crate) fn count(self) -> u32
        ensures { result ≡ entry_count (borrowed_entry self.entry) }
    {
        match self {
            Self::NoKnown => 0,
            _ => 1,
        }
    }

    /// The bytes of its box; they stop at 2^64 - 1.
    #[tactic(auto, using(crate::proofs::Sizes::boxes))]
    pub(crate) fn size(self) -> u64
        ensures { result ≡ min (length (entry_bytes (borrowed_entry self.entry))) (2 ^ 64 - 1) }
    {
        match self {
            Self::AvcVideo(entry) => entry.box_size(),
            Self::HevcVideo(entry) => entry.box_size(),
            Self::Vp9Video(entry) => entry.box_size(),
            Self::AacSound(entry) => entry.box_size(),
            Self::Text(entry) => entry.box_size(),
            Self::NoKnown => 0,
        }
    }

    /// Whether it can be written.
    pub(crate) fn check(self) -> Result<()>
        ensures { Checks result (entry_refusal (borrowed_entry self.entry)) }
    {
        match self {
            Self::AvcVideo(entry) => entry.check(),
            Self::HevcVideo(entry) => entry.check(),
            Self::Vp9Video(entry) => entry.check(),
            Self::AacSound(entry) => entry.check(),
            Self::Text(entry) => entry.check(),
            Self::NoKnown => Ok(()),
        }
    }

    /// Adds its box.
    #[tactic(auto, using(crate::proofs::Sizes::boxes))]
    pub(crate) fn put(self, out: &mut Vec<u8>) -> Put
        requires { length (entry_bytes (borrowed_entry self)) < 2 ^ 32 }
        ensures { OnOk result (Appends out.old.items out.new.items (entry_bytes (borrowed_entry self.entry))) }
    {
        match self {
            Self::AvcVideo(entry) => entry.put_box(out),
            Self::HevcVideo(entry) => entry.put_box(out),
            Self::Vp9Video(entry) => entry.put_box(out),
            Self::AacSound(entry) => entry.put_box(out),
            Self::Text(entry) => entry.put_box(out),
            Self::NoKnown => Ok(()),
        }
    }
}
