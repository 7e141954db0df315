//! Calls that a test wrote down, as a writer takes them.

use bytes::Bytes;
use mp4_codec::{FourCC, Items, Result, Text};
use mp4_entry::{
    AacConfig, AudioObjectType, AvcConfig, ChannelConfig, HevcConfig, SampleFreqIndex, TtxtConfig,
    Vp9Config,
};
use mp4_media::{Mp4Config, Mp4Writer, TrackConfig, WriterCall};
use mp4_plain_movies::calls::{Beginning, Call, Media, Picture, Sample, Sound, Track};
use mp4_samples::Mp4Sample;
use std::alloc::Global;
use std::process::Abort;

/// The configuration that such a movie is begun with.
pub fn config_of(rt: &impl Abort, alloc: Global, beginning: &Beginning) -> Mp4Config {
    let mut compatible_brands = Items::new(alloc);
    for code in beginning.compatible_brands {
        compatible_brands
            .push(FourCC::from(*code))
            .expect(rt, "memory");
    }
    Mp4Config {
        major_brand: FourCC::from(beginning.major_brand),
        minor_version: beginning.minor_version,
        compatible_brands,
        timescale: beginning.timescale,
    }
}

fn avc_config(
    rt: &impl Abort,
    alloc: Global,
    picture: Picture,
    sequence: &[u8],
    picture_set: &[u8],
) -> AvcConfig {
    let seq_param_set = sequence.to_vec(alloc).expect(rt, "memory");
    let pic_param_set = picture_set.to_vec(alloc).expect(rt, "memory");
    AvcConfig {
        width: picture.width,
        height: picture.height,
        seq_param_set: Items::from(seq_param_set),
        pic_param_set: Items::from(pic_param_set),
    }
}

fn hevc_config(picture: Picture) -> HevcConfig {
    HevcConfig {
        width: picture.width,
        height: picture.height,
    }
}

fn vp9_config(picture: Picture) -> Vp9Config {
    Vp9Config {
        width: picture.width,
        height: picture.height,
    }
}

fn aac_config(rt: &impl Abort, sound: Sound) -> AacConfig {
    AacConfig {
        bitrate: sound.bitrate,
        profile: AudioObjectType::try_from(sound.profile).expect(rt, "a type of sound"),
        freq_index: SampleFreqIndex::try_from(sound.frequency).expect(rt, "a frequency"),
        chan_conf: ChannelConfig::try_from(sound.channels).expect(rt, "channels"),
    }
}

/// What a track of these media is added with, of 1000 ticks a second and of no language that is
/// known.
pub fn media_track(rt: &impl Abort, alloc: Global, media: &Media) -> TrackConfig {
    let config = match media {
        Media::Avc(picture, sequence, picture_set) => {
            let config = avc_config(rt, alloc, *picture, sequence, picture_set);
            TrackConfig::from_avc(alloc, config)
        }
        Media::Hevc(picture) => TrackConfig::from_hevc(alloc, hevc_config(*picture)),
        Media::Vp9(picture) => TrackConfig::from_vp9(alloc, vp9_config(*picture)),
        Media::Aac(sound) => TrackConfig::from_aac(alloc, aac_config(rt, *sound)),
        Media::Text => TrackConfig::from_ttxt(alloc, TtxtConfig {}),
    };
    config.expect(rt, "memory")
}

/// What such a track is added with.
fn track_config(rt: &impl Abort, alloc: Global, track: &Track) -> TrackConfig {
    let mut config = media_track(rt, alloc, &track.media);
    config.track_type = track.track_type;
    config.timescale = track.timescale;
    config.language = Text::from_str(alloc, track.language).expect(rt, "memory");
    config
}

/// A sample with a start time that the writer doesn't look at.
fn sample_of(rt: &impl Abort, alloc: Global, sample: &Sample) -> Mp4Sample {
    Mp4Sample {
        start_time: 77,
        duration: sample.duration,
        rendering_offset: sample.rendering_offset,
        is_sync: sample.is_sync,
        bytes: Bytes::copy_from_slice(alloc, sample.bytes).expect(rt, "memory"),
    }
}

fn add_track(rt: &impl Abort, alloc: Global, writer: &mut Mp4Writer, track: &Track) -> Result<()> {
    let config = track_config(rt, alloc, track);
    writer.add_track(&config)
}

fn write_sample(
    rt: &impl Abort,
    alloc: Global,
    writer: &mut Mp4Writer,
    id: u32,
    sample: &Sample,
) -> Result<()> {
    let sample = sample_of(rt, alloc, sample);
    writer.write_sample(id, &sample)
}

/// Makes a call of a writer.
pub fn make(rt: &impl Abort, alloc: Global, writer: &mut Mp4Writer, call: &Call) -> Result<()> {
    match call {
        Call::AddTrack(track) => add_track(rt, alloc, writer, track),
        Call::WriteSample(id, sample) => write_sample(rt, alloc, writer, *id, sample),
        Call::WriteEnd => writer.write_end(),
    }
}

/// A call as data. A sample has a start time that the writer doesn't look at.
pub fn writer_call(rt: &impl Abort, alloc: Global, call: &Call) -> WriterCall {
    match call {
        Call::AddTrack(track) => WriterCall::AddTrack(track_config(rt, alloc, track)),
        Call::WriteSample(id, sample) => WriterCall::WriteSample(*id, sample_of(rt, alloc, sample)),
        Call::WriteEnd => WriterCall::WriteEnd,
    }
}
