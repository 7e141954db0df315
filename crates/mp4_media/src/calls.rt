//! Calls of a writer as data, and lists of them.

ghost use Rattle.mp4_codec.specs.ExactTest.{by_law, exact_enum, field_tests};
ghost use Rattle.mp4_mux.specs.contracts.config.TrackConfigExactEq.TheImpl.Laws.{lawful as track_config_laws};
ghost use Rattle.mp4_samples.specs.contracts.sample.Mp4SampleExactEq.TheImpl.Laws.{lawful as mp4_sample_laws};
ghost use Rattle.mp4_media.specs.contracts.calls.WriterCall.{enum as writer_calls};
ghost use Rattle.std.specs.Prelude.{◌≡◌, ◌≤◌, ◌<◌, ◌^◌, [], length, true, vec_capacity, vec_len, IsErrAnd, IsTrue};
ghost use Rattle.std.specs.Prelude.{IfErr, IfOk, OnErr, OnOk};
ghost use Rattle.std.specs.List.{AllByRecursion};
ghost use Rattle.mp4_codec.specs.Cause.{AnswersCause};
ghost use Rattle.mp4_mux.specs.Calls.{Answered, IsInRangeCall, after, after_reply, call_cause, step};
ghost use Rattle.mp4_mux.specs.Writing.{WriterState};
ghost use Rattle.mp4_media.specs.Finished.{Opens};
ghost use Rattle.mp4_media.specs.WriterAnswers.{AnswersWrite, IsFailed, LeavesWriter};
ghost use Rattle.mp4_media.specs.WriterCalls.{call_of, calls_of};
ghost use Rattle.mp4_media.specs.WriterFields.{MayHold};

use crate::file_writer::Mp4FileWriter;
use crate::write_error::WriteError;
use crate::writer::{Mp4Writer, lent};
use mp4_codec::{Error, ExactEq, InRange, Result};
use mp4_mux::TrackConfig;
use mp4_samples::Mp4Sample;
use mp4_source::ByteSink;

/// A call of a writer of movies.
#[derive(Debug, PartialEq, Eq, Drop)]
pub enum WriterCall {
    /// [`Mp4Writer::add_track`] with this configuration.
    AddTrack(TrackConfig),
    /// [`Mp4Writer::write_sample`] with this track's id and this sample, whose `start_time` isn't looked at.
    WriteSample(u32, Mp4Sample),
    /// [`Mp4Writer::write_end`].
    WriteEnd,
}

impl ExactEq for WriterCall {
    ghost exact = { exact_enum writer_calls
        (Prim.search (field_tests, by_law track_config_laws.exact, by_law mp4_sample_laws.exact)) };
}

impl InRange for WriterCall {
    ghost IsInRange = { λ call. IsInRangeCall (call_of call) };

    fn in_range(&self) {
        match self {
            WriterCall::AddTrack(config) => config.in_range(),
            WriterCall::WriteSample(_, sample) => {
                sample.duration.in_range();
                sample.rendering_offset.in_range();
            }
            WriterCall::WriteEnd => {}
        }
    }
}

impl<S: ByteSink + Drop> Mp4FileWriter<S> {
    /// Makes a call, and answers what it answers.
    pub fn perform(&mut self, call: &WriterCall) -> std::result::Result<(), WriteError>
        ensures failed { self.old.failed ≡ true → IsErrAnd result IsFailed }
        ensures cause { (st : WriterState) → MayHold self.old st
            → AnswersWrite (self.old.media.len < 2 ^ 63 → IsTrue self.old.media.can_refuse)
            (call_cause st (call_of call.now)) result }
        ensures ok { OnOk result ((st : WriterState) → MayHold self.old st
            → MayHold self.new (step st (call_of call.now))) }
        ensures err { IfErr result (λ e. LeavesWriter e self.old self.new) }
        ensures can_refuse { self.new.media.can_refuse ≡ self.old.media.can_refuse }
    {
        match call {
            WriterCall::AddTrack(config) => self.add_track(config),
            WriterCall::WriteSample(id, sample) => self.write_sample(*id, &lent(sample)),
            WriterCall::WriteEnd => self.write_end(),
        }
    }
}

impl Mp4Writer {
    /// Makes a call, and answers what it answers. A refused call leaves the writer and its bytes as they were.
    pub fn perform(&mut self, call: &WriterCall) -> Result<()>
        ensures cause { AnswersCause (call_cause self.old (call_of call.now)) result }
        ensures after { self.new ≡ after_reply self.old (call_of call.now) result }
        ensures opens { (self.old.ended ≡ true → Opens self.old) → self.new.ended ≡ true → Opens self.new }
    {
        match call {
            WriterCall::AddTrack(config) => self.add_track(config),
            WriterCall::WriteSample(id, sample) => self.write_sample(*id, sample),
            WriterCall::WriteEnd => self.write_end(),
        }
    }

    /// Makes calls one after the other, and answers their replies, refusals among them: a refused call changes nothing,
    /// and the next one is made.
    ///
    /// `OutOfMemory` where there is no room for the replies; then no call was made.
    pub fn run(&mut self, calls: &[WriterCall]) -> Result<Vec<Result<()>>>
        ensures replies { IfOk result (λ replies. Answered (calls_of calls.now) replies.items self.old) }
        ensures after { IfOk result (λ replies. self.new ≡ after (calls_of calls.now) replies.items self.old) }
        ensures fits { IfOk result (λ replies. AllByRecursion IsInRangeCall (calls_of calls.now)) }
        ensures opens { (self.old.ended ≡ true → Opens self.old) → self.new.ended ≡ true → Opens self.new }
        ensures memory { IfErr result (λ e. e ≡ Error.OutOfMemory) }
        ensures err { OnErr result (self.new ≡ self.old) }
    {
        let mut replies = Vec::with_capacity(self.allocator(), calls.len())?;
        self.perform_all(calls, &mut replies);
        Ok(replies)
    }

    /// Makes calls one after the other, and adds what each answers to a list of no replies that has room for all.
    fn perform_all(&mut self, calls: &[WriterCall], replies: &mut Vec<Result<()>>)
        requires none { replies.old.items ≡ [] }
        requires count { vec_len replies.old ≡ 0 }
        requires room { length calls.now ≤ vec_capacity replies.old }
        ensures replies { Answered (calls_of calls.now) replies.new.items self.old }
        ensures after { self.new ≡ after (calls_of calls.now) replies.new.items self.old }
        ensures fits { AllByRecursion IsInRangeCall (calls_of calls.now) }
        ensures opens { (self.old.ended ≡ true → Opens self.old) → self.new.ended ≡ true → Opens self.new }
    {
        for call in calls {
            call.in_range();
            let reply = self.perform(call);
            replies.push_reserved(reply);
        }
    }
}
