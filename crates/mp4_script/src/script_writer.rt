//! Movies that are written to a sink while the lines of their script are read.

ghost use Rattle.std.specs.Prelude.{◌≡◌, ◌<◌, ◌-◌, ◌^◌, ◌++◌, [], List, ℕ, length, Some, IfOk, IfErr, OnOk, IfSome, IsTrue};
ghost use Rattle.mp4_media.specs.WriterFields.{MayHold};
ghost use Rattle.mp4_media.specs.WriterCalls.{call_of};
ghost use Rattle.mp4_media.specs.Writing.{WriterState, started};
ghost use Rattle.mp4_script.specs.Script.{RanOutAt, called, line_step, standard_config};
ghost use Rattle.mp4_script.specs.ScriptSink.{AnswersInSink, MayRefuse, IsToldAs, IsToldIn, next_number, IsAfter};
ghost use Rattle.mp4_script.specs.ScriptSink.{AnswersPart, AnswersEnd};
ghost use Rattle.mp4_script.specs.declared.script.ScriptFault.TheVariants.{End, Refused};
ghost use Rattle.mp4_script.specs.declared.script_writer.ScriptWriteFault.TheVariants.{Script};

use crate::lines::cut_line;
use crate::script::{ScriptFault, call_in_line, standard_config};
use mp4_media::{ByteSink, Error, Mp4FileWriter, WriteError, WriterCall};
use std::alloc::Global;
use std::io;
use thiserror::Error as ThisError;

/// Why no movie of a script is written to a sink.
#[derive(Debug, Drop, ThisError)]
pub enum ScriptWriteFault {
    /// The script makes no movie.
    #[error("{0}")]
    Script(#[from] ScriptFault),
    /// The sink refuses.
    #[error("{0}")]
    Sink(io::Error),
}

/// A movie that is written to a sink while the lines of its script are read, as [`crate::run_script`] makes it. In
/// memory are what a writer keeps, and a line of which the end isn't read yet.
#[derive(Debug, Drop)]
pub struct ScriptWriter<S: ByteSink> {
    alloc: Global,
    writer: Mp4FileWriter<S>,
    /// How many lines were run.
    lines: u64,
    /// The beginning of the next line.
    line: Vec<u8>,
}

/// What the call of the line of this number was refused for.
fn refused(number: u64, error: WriteError) -> ScriptWriteFault
    ensures { IsToldAs (λ e. Refused number e) error result }
{
    match error {
        WriteError::Mp4(error) => ScriptWriteFault::Script(ScriptFault::Refused(number, error)),
        WriteError::Io(error) => ScriptWriteFault::Sink(error),
        WriteError::Failed => ScriptWriteFault::Sink(io::ErrorKind::Other.into()),
    }
}

/// What the beginning or the end was refused for.
fn refused_at_end(error: WriteError) -> ScriptWriteFault
    ensures { IsToldAs (λ e. End e) error result }
{
    match error {
        WriteError::Mp4(error) => ScriptWriteFault::Script(ScriptFault::End(error)),
        WriteError::Io(error) => ScriptWriteFault::Sink(error),
        WriteError::Failed => ScriptWriteFault::Sink(io::ErrorKind::Other.into()),
    }
}

/// Makes the call of the line of this number.
fn make_call<S: ByteSink + Drop>(
    writer: &mut Mp4FileWriter<S>,
    number: u64,
    call: &WriterCall,
) -> Result<(), ScriptWriteFault>
    ensures answer { (st : WriterState) → MayHold writer.old st
        → AnswersInSink (λ fault. fault ≡ Refused number Error.OutOfMemory)
        (MayRefuse writer.old.media.can_refuse writer.old.media.len) writer.new result
        (called number st (Some (call_of call.now))) }
    ensures can_refuse { writer.new.media.can_refuse ≡ writer.old.media.can_refuse }
{
    match writer.perform(call) {
        Ok(()) => Ok(()),
        Err(error) => Err(refused(number, error)),
    }
}

/// Runs the line of this number: an empty one changes nothing, and any other makes its call.
fn run_line<S: ByteSink + Drop>(
    alloc: Global,
    writer: &mut Mp4FileWriter<S>,
    number: u64,
    line: &[u8],
) -> Result<(), ScriptWriteFault>
    ensures answer { (st : WriterState) → MayHold writer.old st
        → AnswersInSink (RanOutAt number line.now) (MayRefuse writer.old.media.can_refuse writer.old.media.len)
        writer.new result (line_step number line.now st) }
    ensures can_refuse { writer.new.media.can_refuse ≡ writer.old.media.can_refuse }
{
    if line.is_empty() {
        return Ok(());
    }
    match call_in_line(alloc, number, line) {
        Ok(call) => make_call(writer, number, &call),
        Err(fault) => Err(ScriptWriteFault::Script(fault)),
    }
}

impl<S: ByteSink + Drop> ScriptWriter<S> {
    /// Begins the movie of a script in a sink. `Script(End(OutOfMemory))` where memory runs out, `Sink` where the sink
    /// refuses.
    pub fn new(alloc: Global, sink: S) -> Result<Self, ScriptWriteFault>
        ensures begun { IfOk result (λ w. (front : List ℕ) → S.len sink ≡ length front
            → IfSome (S.contents sink) (λ bytes. bytes ≡ front)
            → IsAfter [] (started front standard_config) w.writer w.lines w.line.items) }
        ensures err { IfErr result (λ e. IsToldIn e (λ fault. fault ≡ End Error.OutOfMemory) (IsTrue (S.can_refuse sink))) }
        ensures can_refuse { IfOk result (λ w. w.writer.media.can_refuse ≡ S.can_refuse sink) }
    {
        let config = match standard_config(alloc) {
            Ok(config) => config,
            Err(error) => return Err(refused_at_end(WriteError::Mp4(error))),
        };
        match Mp4FileWriter::write_start(alloc, sink, &config) {
            Ok(writer) => Ok(ScriptWriter {
                alloc,
                writer,
                lines: 0,
                line: Vec::new(alloc),
            }),
            Err(error) => Err(refused_at_end(error)),
        }
    }

    /// Keeps the beginning of a line, or more of it.
    fn keep(&mut self, part: &[u8]) -> Result<(), ScriptWriteFault>
        ensures kept { OnOk result (self.new.line.items ≡ self.old.line.items ++ part.now) }
        ensures memory { IfErr result (λ e. e ≡ Script (Refused (next_number self.old.lines) Error.OutOfMemory)) }
        ensures writer { self.new.writer ≡ self.old.writer }
        ensures lines { self.new.lines ≡ self.old.lines }
    {
        match self.line.extend_from_slice(part) {
            Ok(()) => Ok(()),
            Err(_) => {
                let number = self.lines.saturating_add(1);
                Err(ScriptWriteFault::Script(ScriptFault::Refused(number, Error::OutOfMemory)))
            }
        }
    }

    /// Runs the line that ends so, of which the beginning may be kept.
    fn run_next(&mut self, end: &[u8]) -> Result<(), ScriptWriteFault>
        ensures answer { (st : WriterState) → MayHold self.old.writer st
            → AnswersInSink (λ fault. fault ≡ Refused (next_number self.old.lines) Error.OutOfMemory)
            (MayRefuse self.old.writer.media.can_refuse self.old.writer.media.len) self.new.writer result
            (line_step (next_number self.old.lines) (self.old.line.items ++ end.now) st) }
        ensures can_refuse { self.new.writer.media.can_refuse ≡ self.old.writer.media.can_refuse }
        ensures line { OnOk result (self.new.line.items ≡ []) }
        ensures lines { OnOk result (self.new.lines ≡ next_number self.old.lines) }
    {
        let number = self.lines.saturating_add(1);
        if self.line.is_empty() {
            self.lines = number;
            return run_line(self.alloc, &mut self.writer, number, end);
        }
        self.keep(end)?;
        self.lines = number;
        run_line(self.alloc, &mut self.writer, number, self.line.as_slice())?;
        self.line.clear();
        Ok(())
    }

    /// Runs the lines that end in the next part of the script, and keeps the beginning of the next line. The first line
    /// at fault is the answer, as [`crate::run_script`] says; `Sink` where the sink refuses. After either, nothing is
    /// said of a later call.
    pub fn write(&mut self, part: &[u8]) -> Result<(), ScriptWriteFault>
        ensures answer { (script : List ℕ) (st : WriterState)
            → IsAfter script st self.old.writer self.old.lines self.old.line.items
            → length (script ++ part.now) < 2 ^ 64 - 1
            → AnswersPart (script ++ part.now) st self.new.writer self.new.lines self.new.line.items result }
        ensures can_refuse { self.new.writer.media.can_refuse ≡ self.old.writer.media.can_refuse }
    {
        let mut rest = part;
        while let Some((line, after)) = cut_line(rest) {
            rest = after;
            self.run_next(line)?;
        }
        self.keep(rest)
    }

    /// Runs the last line, ends the movie, and gives the sink back, to which all bytes were handed on.
    pub fn end(self) -> Result<S, ScriptWriteFault>
        ensures answer { (script : List ℕ) (st : WriterState) → IsAfter script st self.writer self.lines self.line.items
            → length script < 2 ^ 64 - 1
            → AnswersEnd script st (λ sink. S.contents sink) (λ sink. S.len sink) self.writer.media.can_refuse result }
        ensures waiting { IfOk result (λ sink. S.waiting sink ≡ 0) }
    {
        let mut script = self;
        script.run_next(&[])?;
        let ScriptWriter {
            alloc: _,
            mut writer,
            lines: _,
            line: _,
        } = script;
        match writer.write_end() {
            Ok(()) => Ok(writer.into_inner()),
            Err(error) => Err(refused_at_end(error)),
        }
    }
}
