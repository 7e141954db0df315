//! Scripts: lines that say what a movie is made of.

ghost use Rattle.std.specs.Prelude.{◌≡◌, [], ◌∷◌, Ok, IfOk, IfErr, Some};
ghost use Rattle.std.specs.List.{AllByRecursion};
ghost use Rattle.mp4_media.specs.Cause.{Answers};
ghost use Rattle.mp4_media.specs.Calls.{IsInRangeCall};
ghost use Rattle.mp4_media.specs.WriterCalls.{call_of};
ghost use Rattle.mp4_script.specs.declared.script.ScriptFault.TheVariants.{Refused};
ghost use Rattle.mp4_script.specs.Commands.{command_in};
ghost use Rattle.mp4_script.specs.Lines.{lines_of};
ghost use Rattle.mp4_script.specs.Script.{called, calls_in, standard_config, standard_writer, line_step, run_all};
ghost use Rattle.mp4_script.specs.Script.{IsFaultOfLine, movie_made_by, RanOutAt, RanOutIn, RanOut, AnswersScript, OpensAsScripted};

use crate::commands::{call_of, command_in};
use crate::lines::Lines;
use mp4_media::framing::InRange;
use mp4_media::laws::written_movies_are_read_back;
use mp4_media::{Error, FourCC, Items, Mp4Config, Mp4Writer, WriterCall};
use std::alloc::Global;
use thiserror::Error as ThisError;

/// Why a script makes no movie. Lines count from 1, the empty ones too.
#[derive(Debug, PartialEq, Eq, Drop, ThisError)]
pub enum ScriptFault {
    /// A line is neither empty nor a command.
    #[error("line {0}: not a command")]
    NotACommand(u64),
    /// The call of a line was refused.
    #[error("line {0}: {1}")]
    Refused(u64, Error),
    /// The movie wasn't begun, or wasn't ended, or can't be opened.
    #[error("end: {0}")]
    End(Error),
}

/// The brand that the movie of a script follows first of all.
const MAJOR_BRAND: [u8; 4] = *b"isom";

/// The version of that brand.
const MINOR_VERSION: u32 = 512;

/// Ticks in a second, of the movie's durations.
const TIMESCALE: u32 = 1000;

/// What each movie of a script is begun with.
pub(crate) fn standard_config(alloc: Global) -> mp4_media::Result<Mp4Config>
    ensures { Answers (λ c. c) result (Ok standard_config) }
{
    let brands = [
        FourCC::from(MAJOR_BRAND),
        FourCC::from(*b"iso2"),
        FourCC::from(*b"avc1"),
        FourCC::from(*b"mp41"),
    ];
    Ok(Mp4Config {
        major_brand: FourCC::from(MAJOR_BRAND),
        minor_version: MINOR_VERSION,
        compatible_brands: Items::from(Vec::from_array(alloc, brands)?),
        timescale: TIMESCALE,
    })
}

/// Begins the movie of a script.
fn begin(alloc: Global) -> mp4_media::Result<Mp4Writer>
    ensures { Answers (λ writer. writer) result (Ok standard_writer) }
{
    let config = standard_config(alloc)?;
    Mp4Writer::write_start(alloc, Vec::new(alloc), &config)
}

/// Makes the call of the line of this number.
fn make_call(writer: &mut Mp4Writer, number: u64, call: &WriterCall) -> Result<(), ScriptFault>
    ensures { AnswersScript (λ fault. fault ≡ Refused number Error.OutOfMemory) (λ _. writer.new) result
        (called number writer.old (Some (call_of call.now))) }
{
    match writer.perform(call) {
        Ok(()) => Ok(()),
        Err(error) => Err(ScriptFault::Refused(number, error)),
    }
}

/// The call of the line of this number, which isn't empty.
pub(crate) fn call_in_line(
    alloc: Global,
    number: u64,
    line: &[u8],
) -> Result<WriterCall, ScriptFault>
    ensures call { IfOk result (λ call. command_in line.now ≡ Some (call_of call)) }
    ensures fault { IfErr result (IsFaultOfLine number line.now) }
    ensures fits { IfOk result (λ call. IsInRangeCall (call_of call)) }
{
    let Some(command) = command_in(line) else {
        return Err(ScriptFault::NotACommand(number));
    };
    match call_of(alloc, &command) {
        Ok(call) => {
            call.in_range();
            Ok(call)
        }
        Err(error) => Err(ScriptFault::Refused(number, error)),
    }
}

/// Runs the line of this number: an empty one changes nothing, and any other makes its call.
fn run_line(
    alloc: Global,
    writer: &mut Mp4Writer,
    number: u64,
    line: &[u8],
) -> Result<(), ScriptFault>
    ensures answer { AnswersScript (RanOutAt number line.now) (λ _. writer.new) result
        (line_step number line.now writer.old) }
    ensures fits { IfOk result (λ _. AllByRecursion IsInRangeCall (calls_in (line.now ∷ []))) }
{
    if line.is_empty() {
        return Ok(());
    }
    let call = call_in_line(alloc, number, line)?;
    make_call(writer, number, &call)
}

/// Runs the lines of a script, up to the first that is at fault.
fn run_lines(alloc: Global, writer: &mut Mp4Writer, script: &[u8]) -> Result<(), ScriptFault>
    ensures answer { AnswersScript (RanOutIn script.now writer.old) (λ _. writer.new) result
        (run_all script.now writer.old) }
    ensures fits { IfOk result (λ _. AllByRecursion IsInRangeCall (calls_in (lines_of script.now))) }
{
    let mut lines = Lines::new(script);
    let mut number = 0;
    while let Some(line) = lines.next_line() {
        number += 1;
        run_line(alloc, writer, number, line)?;
    }
    Ok(())
}

/// The bytes of the movie that a script makes.
///
/// Lines end with a line feed, the last one may lack it, and empty lines are skipped; fields are parted by one space.
/// `track text TIMESCALE` adds a track of text with so many ticks in a second, the first of id 1.
/// `sample TRACK DURATION OFFSET SYNC TEXT` writes a sample of a track: its duration and its rendering offset in ticks,
/// 1 for a sync sample or 0, and its bytes, which are all the rest of the line. Numbers have one to ten decimal digits
/// and 32 bits; an offset may have a minus. The movie is of brand isom, version 512, compatible with isom, iso2, avc1
/// and mp41, and has 1000 ticks in a second.
///
/// The first line at fault is the answer: `NotACommand` where it is no command, `Refused` where its call is refused,
/// also when memory ran out; `End` where the movie isn't begun or isn't ended.
pub fn run_script(alloc: Global, script: &[u8]) -> Result<Vec<u8>, ScriptFault>
    ensures answer { AnswersScript (RanOut script.now) (λ bytes. bytes.items) result (movie_made_by script.now) }
    ensures opens { IfOk result (λ bytes. OpensAsScripted script.now bytes.items) }
{
    written_movies_are_read_back();
    let mut writer = begin(alloc).map_err(ScriptFault::End)?;
    run_lines(alloc, &mut writer, script)?;
    match writer.write_end() {
        Ok(()) => Ok(writer.into_writer()),
        Err(error) => Err(ScriptFault::End(error)),
    }
}
