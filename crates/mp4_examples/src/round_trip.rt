//! A movie of two tracks, written and read back.

ghost use Rattle.std.specs.Prelude.{◌≡◌, [], true, IfOk};
ghost use Rattle.mp4_media.specs.Calls.{accepted_after, has_end};
ghost use Rattle.mp4_media.specs.RoundTrip.{HasExactly};
ghost use Rattle.mp4_media.specs.WriterCalls.{calls_of};

use bytes::Bytes;
use mp4_media::{
    AvcConfig, FourCC, Items, Mp4Config, Mp4Reader, Mp4Sample, Result, SampleQuery, TrackConfig,
    TtxtConfig, WriterCall, write_and_read,
};
use std::alloc::Global;

/// A movie that was written and opened again, and the answers of its writer's calls.
#[derive(Drop)]
pub struct WrittenMovie<'w> {
    pub replies: Vec<Result<()>>,
    pub movie: Mp4Reader<'w>,
}

/// Makes the calls of a writer, whatever they are, and opens what it has written. Where one of them was an end
/// that was Ok, the movie has exactly the tracks and the samples that the calls accepted.
pub fn write_and_open<'w>(
    alloc: Global,
    config: &Mp4Config,
    calls: &[WriterCall],
    buffer: &'w mut Vec<u8>,
) -> Result<WrittenMovie<'w>>
    ensures exact { IfOk result (λ w. has_end (calls_of calls.now) w.replies.items ≡ true
        → HasExactly w.movie (accepted_after (calls_of calls.now) w.replies.items [])) }
{
    let nothing = SampleQuery {
        bytes: &[],
        start: 0,
        size: 0,
        track_id: 0,
        number: 0,
    };
    let trip = write_and_read(alloc, config, calls, buffer, &nothing)?;
    Ok(WrittenMovie {
        replies: trip.replies,
        movie: trip.movie?,
    })
}

/// A call that writes a sample of one second to a track of 1000 ticks a second.
fn sample_of_a_second(
    alloc: Global,
    track_id: u32,
    is_sync: bool,
    bytes: &[u8],
) -> Result<WriterCall> {
    let sample = Mp4Sample {
        start_time: 0,
        duration: 1000,
        rendering_offset: 0,
        is_sync,
        bytes: Bytes::copy_from_slice(alloc, bytes)?,
    };
    Ok(WriterCall::WriteSample(track_id, sample))
}

/// A track of video, 320 by 240.
fn video(alloc: Global) -> Result<TrackConfig> {
    let config = AvcConfig {
        width: 320,
        height: 240,
        seq_param_set: Items::from(vec![in alloc; 0x67, 0x64, 0x00, 0x0d]?),
        pic_param_set: Items::from(vec![in alloc; 0x68, 0xee, 0x3c, 0x80]?),
    };
    TrackConfig::from_avc(alloc, config)
}

/// A movie of brand isom whose times are in milliseconds.
pub fn movie_config(alloc: Global) -> Result<Mp4Config> {
    let brands = vec![in alloc; FourCC::from(*b"isom"), FourCC::from(*b"mp41")]?;
    Ok(Mp4Config {
        major_brand: FourCC::from(*b"isom"),
        minor_version: 512,
        compatible_brands: Items::from(brands),
        timescale: 1000,
    })
}

/// The calls that write a track of video and one of subtitles, whose samples last for a second each.
pub fn movie_calls(alloc: Global) -> Result<Vec<WriterCall>> {
    let mut calls = Vec::new(alloc);
    calls.push(WriterCall::AddTrack(video(alloc)?))?;
    calls.push(WriterCall::AddTrack(TrackConfig::from_ttxt(alloc, TtxtConfig {})?))?;
    calls.push(sample_of_a_second(alloc, 1, true, b"a sync picture")?)?;
    calls.push(sample_of_a_second(alloc, 2, true, b"\0\x06Hello,")?)?;
    calls.push(sample_of_a_second(alloc, 1, false, b"the next")?)?;
    calls.push(sample_of_a_second(alloc, 2, true, b"\0\x05world")?)?;
    calls.push(WriterCall::WriteEnd)?;
    Ok(calls)
}
