//! The description of a written track's samples.

ghost use Rattle.std.specs.Prelude.{◌≡◌, ◌<◌, ◌^◌, Some, Ok};
ghost use Rattle.mp4_codec.specs.Cause.{Answers};
ghost use Rattle.mp4_entry.specs.declared.config.MediaConfig.TheVariants.{AacConfig as Aac};
ghost use Rattle.mp4_entry.specs.Config.{entry_length};
ghost use Rattle.mp4_entry.specs.Stsd.{stsd_of_config};
ghost use Rattle.mp4_mux.specs.Description.{largest_size, buffer_size, mp4a_with, stsd_for};

use crate::column_tables::largest;
use crate::sample_infos::SampleInfos;
use mp4_codec::Result;
use mp4_entry::{AacConfig, EsdsBox, MediaConfig, Mp4aBox, StsdBox};
use std::alloc::Global;

/// The largest buffer of a decoder, in bytes, whose size has 24 bits (ISO/IEC 14496-1, 7.2.6.6).
const LARGEST_BUFFER: u32 = 0xff_ffff;

/// The size of the largest sample, in bytes; 0 where there is none.
fn largest_size(samples: &SampleInfos) -> u32
    ensures { result ≡ largest_size samples.now }
{
    largest(samples.sizes())
}

/// The same, as far as 24 bits go.
#[tactic(auto, unfolding(crate::specs::Description::buffer_size))]
fn buffer_size(samples: &SampleInfos) -> u32
    ensures { result ≡ buffer_size samples.now }
{
    largest_size(samples).min(LARGEST_BUFFER)
}

/// What a decoder is started with, where its buffer has this size.
fn with_buffer(esds: EsdsBox, size: u32) -> EsdsBox
    ensures { result ≡ record esds
        { es_desc = record esds.es_desc { dec_config = record esds.es_desc.dec_config { buffer_size_db = size } } } }
{
    let mut started = esds;
    started.es_desc.dec_config.buffer_size_db = size;
    started
}

/// The entry of sound, whose decoder has a buffer of this size, in bytes.
fn sound_entry(config: &AacConfig, size: u32) -> Mp4aBox
    ensures { result ≡ mp4a_with size config.now }
{
    let entry = Mp4aBox::new(config);
    match entry.esds {
        None => entry,
        Some(esds) => Mp4aBox {
            esds: Some(with_buffer(esds, size)),
            ..entry
        },
    }
}

/// The description of sound.
fn sound_description(config: &AacConfig, size: u32) -> StsdBox
    ensures { result ≡ record (stsd_of_config (Aac config.now)) { mp4a = Some (mp4a_with size config.now) } }
{
    StsdBox {
        mp4a: Some(sound_entry(config, size)),
        ..StsdBox::default()
    }
}

/// The description of these samples (ISO/IEC 14496-12, 8.5.2): the entry of the configuration, and in that of sound the
/// size of the largest sample. Refused by `OutOfMemory` alone.
pub(crate) fn stsd_box(alloc: Global, media: &MediaConfig, samples: &SampleInfos) -> Result<StsdBox>
    ensures { Answers (λ b. b) result (Ok (stsd_for media.now samples.now)) }
{
    match media {
        MediaConfig::AacConfig(config) => Ok(sound_description(config, buffer_size(samples))),
        _ => StsdBox::new(alloc, media),
    }
}

/// How many bytes the entry of a configuration has, its header included. It requests no memory.
pub(crate) fn entry_size(media: &MediaConfig) -> u64
    requires { entry_length media.now < 2 ^ 32 }
    ensures { result ≡ entry_length media.now }
{
    mp4_entry::entry_size(media)
}
