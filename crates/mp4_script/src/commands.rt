//! The commands of scripts: what a line that isn't empty asks of the writer.

ghost use Rattle.std.specs.Prelude.{◌≡◌, ◌≤◌, Ok, length, option_map, true, false, IfSome, IfNone};
ghost use Rattle.std.specs.List.{position_or_len};
ghost use Rattle.std.specs.Str.{all_ascii_digits};
ghost use Rattle.mp4_media.specs.Cause.{Answers};
ghost use Rattle.mp4_media.specs.WriterCalls.{call_of};
ghost use Rattle.mp4_media.specs.Metadata.{decimal_value};
ghost use Rattle.mp4_script.specs.Commands.{command_call, command_in, cut_at_space, decimal_in, offset_in, sample_in};
ghost use Rattle.mp4_script.specs.Commands.{sample_call, sync_in, text_config};

use crate::lines::length_before;
use bytes::Bytes;
use mp4_media::{Mp4Sample, Result, TrackConfig, TtxtConfig, WriterCall};
use std::alloc::Global;

/// The byte between the fields of a line.
const SPACE: u8 = b' ';

/// The most digits that a number has.
const MOST_DIGITS: usize = 10;

/// What a number below 0 begins with.
const MINUS: &[u8] = b"-";

/// What the line of a text track begins with; its timescale follows.
const TEXT_TRACK: &[u8] = b"track text ";

/// What the line of a sample begins with; its fields follow.
const SAMPLE: &[u8] = b"sample ";

/// A sample that a line says.
#[derive(Drop)]
pub(crate) struct SampleLine<'a> {
    track_id: u32,
    duration: u32,
    rendering_offset: i32,
    is_sync: bool,
    text: &'a [u8],
}

/// What a line asks for.
#[derive(Drop)]
pub(crate) enum Command<'a> {
    /// A track of text with so many ticks in a second.
    TextTrack(u32),
    /// A sample of a track.
    Sample(SampleLine<'a>),
}

/// The bytes before the first space, and those after it.
fn cut_at_space(line: &[u8]) -> Option<(&[u8], &[u8])>
    ensures { option_map (λ cut. (cut.0.now, cut.1.now)) result ≡ cut_at_space line.now }
{
    let end = length_before(line, SPACE);
    if end < line.len() {
        Some((&line[..end], &line[end + 1..]))
    } else {
        None
    }
}

/// The number that so few decimal digits write, and None where one of the bytes is no digit. That is what `parse` gives
/// of digits, without a look at their encoding before.
fn value_of(digits: &[u8]) -> Option<u64>
    requires { length digits.now ≤ 10 }
    ensures value { IfSome result (λ n. n ≡ decimal_value digits.now) }
    ensures digits { IfSome result (λ n. all_ascii_digits digits.now ≡ true) }
    ensures none { IfNone result (all_ascii_digits digits.now ≡ false) }
{
    let mut value: u64 = 0;
    for digit in digits {
        if !digit.is_ascii_digit() {
            return None;
        }
        value = value * 10 + u64::from(*digit - b'0');
    }
    Some(value)
}

/// The number that one to ten decimal digits write, where it has 32 bits.
#[tactic(auto, unfolding(crate::specs::Commands::decimal_in, crate::specs::Commands::numeral))]
pub fn decimal_in(digits: &[u8]) -> Option<u32>
    ensures { result ≡ decimal_in digits.now }
{
    if digits.is_empty() || digits.len() > MOST_DIGITS {
        return None;
    }
    let value = value_of(digits)?;
    if value > u64::from(u32::MAX) {
        return None;
    }
    Some(value as u32)
}

/// The number that such digits write, after a minus or without one, where it has 32 bits with its sign.
fn offset_in(field: &[u8]) -> Option<i32>
    ensures { result ≡ offset_in field.now }
{
    match field.strip_prefix(MINUS) {
        Some(digits) => i32::try_from(-i64::from(decimal_in(digits)?)).ok(),
        None => i32::try_from(decimal_in(field)?).ok(),
    }
}

/// Whether a sample is a sync sample: 0 or 1.
fn sync_in(field: &[u8]) -> Option<bool>
    ensures { result ≡ sync_in field.now }
{
    match field {
        [b'0'] => Some(false),
        [b'1'] => Some(true),
        _ => None,
    }
}

/// The sample that the fields of a line say: its track, its duration, its rendering offset, whether it is a sync
/// sample, and after one more space its bytes.
#[tactic(auto, unfolding(crate::specs::Commands::sample_in))]
fn sample_in(fields: &[u8]) -> Option<SampleLine<'_>>
    ensures { option_map sample_call result ≡ sample_in fields.now }
{
    let (track_id, rest) = cut_at_space(fields)?;
    let (duration, rest) = cut_at_space(rest)?;
    let (rendering_offset, rest) = cut_at_space(rest)?;
    let (is_sync, text) = cut_at_space(rest)?;
    Some(SampleLine {
        track_id: decimal_in(track_id)?,
        duration: decimal_in(duration)?,
        rendering_offset: offset_in(rendering_offset)?,
        is_sync: sync_in(is_sync)?,
        text,
    })
}

/// What a line asks for; None where it is no command.
#[tactic(auto, unfolding(crate::specs::Commands::command_in))]
pub(crate) fn command_in(line: &[u8]) -> Option<Command<'_>>
    ensures { option_map command_call result ≡ command_in line.now }
{
    if let Some(timescale) = line.strip_prefix(TEXT_TRACK) {
        return Some(Command::TextTrack(decimal_in(timescale)?));
    }
    let fields = line.strip_prefix(SAMPLE)?;
    Some(Command::Sample(sample_in(fields)?))
}

/// What a track of text is added with that has so many ticks in a second.
fn text_config(alloc: Global, timescale: u32) -> Result<TrackConfig>
    ensures { Answers (λ config. config) result (Ok (text_config timescale)) }
{
    let mut config = TrackConfig::from_ttxt(alloc, TtxtConfig {})?;
    config.timescale = timescale;
    Ok(config)
}

/// The call of a writer that a command asks for. Refused by `OutOfMemory` alone.
pub(crate) fn call_of(alloc: Global, command: &Command) -> Result<WriterCall>
    ensures { Answers call_of result (Ok (command_call command.now)) }
{
    match command {
        Command::TextTrack(timescale) => Ok(WriterCall::AddTrack(text_config(alloc, *timescale)?)),
        Command::Sample(line) => Ok(WriterCall::WriteSample(
            line.track_id,
            Mp4Sample {
                start_time: 0,
                duration: line.duration,
                rendering_offset: line.rendering_offset,
                is_sync: line.is_sync,
                bytes: Bytes::copy_from_slice(alloc, line.text)?,
            },
        )),
    }
}
