//! The subtitles of a track of text.

ghost use Rattle.std.specs.Prelude.{◌≡◌, ◌⊎◌, ◌+◌, ◌<◌, ◌≤◌, Ok, Some, None, IfErr, IfNone, IfOk, IfSome, OnOk};
ghost use Rattle.std.specs.Prelude.{vec_capacity};
ghost use Rattle.mp4_codec.specs.Cause.{Gives};
ghost use Rattle.mp4_media.specs.Reading.{sample_there};
ghost use Rattle.mp4_codec.specs.declared.error.Error.TheVariants.{OutOfMemory as no_memory};
ghost use Rattle.mp4_extract.specs.Extracting.{IsReadIn, MayRefuse, offset_in};
ghost use Rattle.mp4_extract.specs.Subtitles.{AreSubtitlesOf, IsReadingOf, IsSubtitleAt, IsSubtitleOf, RefusesSubtitle};
ghost use Rattle.mp4_extract.specs.Subtitles.{RefusesSubtitles, RefusesTimed, WantsSubtitle, WantsTextRoom};
ghost use Rattle.mp4_extract.specs.Subtitles.{and_shown, has_time_left, reading_of, shift_in};
ghost use Rattle.mp4_extract.specs.Subtitles.{text_reading, timescale_in};
ghost use Rattle.mp4_extract.specs.declared.error.ExtractError.TheVariants.{OutOfMemory};

use crate::edits::{SubtitleTimes, TextShift, shift_of};
use crate::error::ExtractError;
use crate::samples::place_of;
use crate::text::text_of;
use crate::times::milliseconds;
use mp4_media::{BoxType, ByteSource, Error, Mp4File, Result, SamplePlace};
use std::alloc::Global;

/// A text, and from when to when it is shown.
#[derive(Debug, Drop)]
pub struct Subtitle {
    /// The number of its sample in the track, from 1.
    pub number: u32,
    /// When it begins to be shown, in milliseconds.
    pub from: u64,
    /// When it ends to be shown, in milliseconds.
    pub to: u64,
    /// Whether it is shown at all: it has a text, and the edits of its track don't leave it out.
    pub is_shown: bool,
    pub text: String,
}

/// Whether a part of a sample is left that begins so many ticks before what is shown of its track.
fn has_time_left(early: u64, duration: u32) -> bool
    ensures { result ≡ has_time_left early duration }
{
    early == 0 || early < u64::from(duration)
}

/// The subtitle of a sample, whose times are shifted so.
fn subtitle_of(
    alloc: Global,
    number: u32,
    place: &SamplePlace,
    timescale: u32,
    shift: TextShift,
    sample: &[u8],
) -> Result<Subtitle>
    ensures subtitle { IfOk result (λ t. IsSubtitleOf shift timescale number (sample_there sample.now place.now) t) }
    ensures refused { IfErr result (λ e. (e ≡ no_memory)
        ⊎ (RefusesTimed shift timescale (sample_there sample.now place.now) e)) }
    ensures memory { IfErr result (λ e. e ≡ no_memory
        → WantsSubtitle shift timescale (sample_there sample.now place.now)) }
{
    let early = shift.skipped.saturating_sub(place.start_time);
    let start = milliseconds(place.start_time.saturating_sub(shift.skipped), timescale)?;
    let lasts = milliseconds(u64::from(place.duration).saturating_sub(early), timescale)?;
    let text = text_of(alloc, sample)?;
    let from = shift.delay.saturating_add(start);
    let is_shown = !text.is_empty() && has_time_left(early, place.duration);
    Ok(Subtitle {
        number,
        from,
        to: from.saturating_add(lasts),
        is_shown,
        text,
    })
}

/// The ticks in a second of a track of text.
#[tactic(auto, unfolding(crate::specs::Subtitles::timescale_in, crate::specs::Subtitles::text_timescale))]
fn text_timescale<S: ByteSource + Drop>(file: &Mp4File<S>, track_id: u32) -> Result<u32>
    ensures { Gives (λ n. n) result (timescale_in file.now.movie.tracks track_id) }
{
    let Some(track) = file.tracks().get(&track_id) else {
        return Err(Error::TrakNotFound(track_id));
    };
    if track.trak.mdia.minf.stbl.stsd.tx3g.is_none() {
        return Err(Error::BoxInStblNotFound(track_id, BoxType::Tx3gBox));
    }
    Ok(track.timescale())
}

/// How the times of a track are shifted.
#[tactic(auto, unfolding(crate::specs::Subtitles::shift_in))]
fn text_shift<S: ByteSource + Drop>(
    file: &Mp4File<S>,
    track_id: u32,
    times: SubtitleTimes,
) -> Result<TextShift>
    ensures { Gives (λ shift. shift) result
        (shift_in times file.now.movie.tracks track_id file.now.movie.moov) }
{
    let Some(track) = file.tracks().get(&track_id) else {
        return Err(Error::TrakNotFound(track_id));
    };
    let shift = shift_of(times, &track.trak, file.timescale())?;
    Ok(shift)
}

/// The subtitles of a track of text, read one after the other: the memory of one sample and of one text.
#[derive(Debug)]
pub struct SubtitleReader {
    track_id: u32,
    /// Ticks in a second of the track.
    timescale: u32,
    shift: TextShift,
    /// How many samples were read.
    read: u32,
    /// How many samples there are.
    count: u32,
    /// The sample as it lies in the file.
    stored: Vec<u8>,
}

/// Taken apart here, and not at each end of each function that owns one.
impl Drop for SubtitleReader {
    fn drop(self) {
        let SubtitleReader {
            track_id: _,
            timescale: _,
            shift: _,
            read: _,
            count: _,
            stored,
        } = self;
        drop(stored);
    }
}

/// A reader before the first sample of a track.
#[tactic(auto, unfolding(crate::specs::Subtitles::text_reading))]
fn reader_of<S: ByteSource + Drop>(
    alloc: Global,
    file: &Mp4File<S>,
    track_id: u32,
    times: SubtitleTimes,
) -> Result<SubtitleReader>
    ensures track_id { IfOk result (λ r. r.track_id ≡ track_id) }
    ensures read { IfOk result (λ r. r.read ≡ 0) }
    ensures reading { Gives reading_of result
        (text_reading times file.now.movie.tracks track_id file.now.movie.moov) }
{
    let timescale = text_timescale(file, track_id)?;
    let shift = text_shift(file, track_id, times)?;
    let count = file.sample_count(track_id)?;
    Ok(SubtitleReader {
        track_id,
        timescale,
        shift,
        read: 0,
        count,
        stored: Vec::new(alloc),
    })
}

impl SubtitleReader {
    /// A reader of the subtitles of the track of text with this id, with these times.
    ///
    /// `Track` of `TrakNotFound` where there is no such track, of `BoxInStblNotFound` where it isn't coded as `tx3g`,
    /// of `ZeroTimescale` where times are shifted and the movie has 0 ticks in a second, and of `TooLarge(Value)`
    /// where they are shifted by more than 64 bits of milliseconds, or the samples are more than 32 bits count.
    pub fn new<S: ByteSource + Drop>(
        alloc: Global,
        file: &Mp4File<S>,
        track_id: u32,
        times: SubtitleTimes,
    ) -> std::result::Result<Self, ExtractError>
        ensures track_id { IfOk result (λ r. r.track_id ≡ track_id) }
        ensures read { IfOk result (λ r. r.read ≡ 0) }
        ensures reading { IsReadingOf (text_reading times file.now.movie.tracks track_id file.now.movie.moov) result }
    {
        match reader_of(alloc, file, track_id, times) {
            Ok(reader) => Ok(reader),
            Err(error) => Err(ExtractError::of_track(error)),
        }
    }

    /// The subtitle of the sample with this number; none where there is no such sample.
    fn subtitle_at<S: ByteSource + Drop>(
        &mut self,
        file: &mut Mp4File<S>,
        number: u32,
    ) -> std::result::Result<Option<Subtitle>, ExtractError>
        ensures subtitle { IfOk result (IsSubtitleAt self.old.shift self.old.timescale number
            (IsReadIn (S.contents file.old.source) file.old.len file.old.movie.tracks self.old.track_id number)) }
        ensures refused { IfErr result (RefusesSubtitle self.old.shift self.old.timescale number
            (IsReadIn (S.contents file.old.source) file.old.len file.old.movie.tracks self.old.track_id number)
            (offset_in file.old.movie.tracks self.old.track_id number)
            (MayRefuse (S.contents file.old.source) (S.can_refuse file.old.source))) }
        ensures memory { IfErr result (λ e. e ≡ OutOfMemory → WantsTextRoom self.old.shift self.old.timescale
            (vec_capacity self.old.stored)
            (IsReadIn (S.contents file.old.source) file.old.len file.old.movie.tracks self.old.track_id number)) }
        ensures track_id { self.new.track_id ≡ self.old.track_id }
        ensures timescale { self.new.timescale ≡ self.old.timescale }
        ensures shift { self.new.shift ≡ self.old.shift }
        ensures read { self.new.read ≡ self.old.read }
        ensures count { self.new.count ≡ self.old.count }
        ensures len { file.new.len ≡ file.old.len }
        ensures movie { file.new.movie ≡ file.old.movie }
        ensures contents { S.contents file.new.source ≡ S.contents file.old.source }
        ensures can_refuse { S.can_refuse file.new.source ≡ S.can_refuse file.old.source }
    {
        match file.read_sample_into(self.track_id, number, &mut self.stored) {
            Ok(None) => Ok(None),
            Ok(Some(place)) => {
                let alloc = *self.stored.allocator();
                let sample = self.stored.as_slice();
                match subtitle_of(alloc, number, &place, self.timescale, self.shift, sample) {
                    Ok(subtitle) => Ok(Some(subtitle)),
                    Err(error) => Err(ExtractError::of_sample(number, Some(place.offset), error)),
                }
            }
            Err(error) => {
                let place = place_of(&*file, self.track_id, number);
                Err(ExtractError::of_read(number, place, error))
            }
        }
    }

    /// The subtitle of the next sample, or why it has none; nothing after the last sample. After an error it goes on
    /// with the sample after that one.
    ///
    /// A subtitle is shown from the start of its sample, and for as long as that lasts, each in whole milliseconds,
    /// rounded to the nearest. What the first edit leaves out of the media's start isn't shown, and what is shown
    /// begins later by the time for which it is empty (ISO/IEC 14496-12, 8.6.6).
    ///
    /// `Sample` where the file's tables refuse the sample, where it doesn't lie whole in the file, where its times have
    /// no milliseconds (`ZeroTimescale`, or `TooLarge(Value)` past 64 bits), where its text passes its end or isn't
    /// encoded as it should be; `Read` where the source refuses a sample that lies in the file; `OutOfMemory` only
    /// where there is a sample.
    pub fn next<S: ByteSource + Drop>(
        &mut self,
        file: &mut Mp4File<S>,
    ) -> Option<std::result::Result<Subtitle, ExtractError>>
        ensures subtitle { IfSome result (λ answer. IfOk answer (λ t. IsSubtitleAt
            self.old.shift self.old.timescale (self.old.read + 1)
            (IsReadIn (S.contents file.old.source) file.old.len file.old.movie.tracks self.old.track_id
            (self.old.read + 1)) (Some t))) }
        ensures refused { IfSome result (λ answer. IfErr answer (RefusesSubtitle
            self.old.shift self.old.timescale (self.old.read + 1)
            (IsReadIn (S.contents file.old.source) file.old.len file.old.movie.tracks self.old.track_id
            (self.old.read + 1))
            (offset_in file.old.movie.tracks self.old.track_id (self.old.read + 1))
            (MayRefuse (S.contents file.old.source) (S.can_refuse file.old.source)))) }
        ensures memory { IfSome result (λ answer. IfErr answer (λ e. e ≡ OutOfMemory → WantsTextRoom
            self.old.shift self.old.timescale (vec_capacity self.old.stored)
            (IsReadIn (S.contents file.old.source) file.old.len file.old.movie.tracks self.old.track_id
            (self.old.read + 1)))) }
        ensures read { IfSome result (λ _. self.new.read ≡ self.old.read + 1) }
        ensures more { IfSome result (λ _. self.old.read < self.old.count) }
        ensures ended { IfNone result (self.new.read ≡ self.old.read) }
        ensures end { IfNone result ((self.old.count ≤ self.old.read) ⊎
            (IsReadIn (S.contents file.old.source) file.old.len file.old.movie.tracks self.old.track_id
            (self.old.read + 1) (Ok None))) }
        ensures track_id { self.new.track_id ≡ self.old.track_id }
        ensures timescale { self.new.timescale ≡ self.old.timescale }
        ensures shift { self.new.shift ≡ self.old.shift }
        ensures count { self.new.count ≡ self.old.count }
        ensures len { file.new.len ≡ file.old.len }
        ensures movie { file.new.movie ≡ file.old.movie }
        ensures contents { S.contents file.new.source ≡ S.contents file.old.source }
        ensures can_refuse { S.can_refuse file.new.source ≡ S.can_refuse file.old.source }
    {
        if self.read >= self.count {
            return None;
        }
        let number = self.read + 1;
        match self.subtitle_at(file, number) {
            Ok(None) => None,
            Ok(Some(subtitle)) => {
                self.read = number;
                Some(Ok(subtitle))
            }
            Err(error) => {
                self.read = number;
                Some(Err(error))
            }
        }
    }
}

/// Adds a subtitle to a list, where it is shown.
fn add_shown(subtitle: Subtitle, list: &mut Vec<Subtitle>) -> std::result::Result<(), ExtractError>
    ensures added { OnOk result (list.new.items ≡ and_shown list.old.items subtitle) }
    ensures refused { IfErr result (λ e. e ≡ OutOfMemory) }
{
    if subtitle.is_shown {
        list.push(subtitle)?;
    }
    Ok(())
}

/// The subtitles that are shown of the track of text with this id, in the order of their samples, with these times.
///
/// The errors are those of [`SubtitleReader::new`], and then that of the first sample that [`SubtitleReader::next`]
/// refuses.
pub fn subtitles<S: ByteSource + Drop>(
    alloc: Global,
    file: &mut Mp4File<S>,
    track_id: u32,
    times: SubtitleTimes,
) -> std::result::Result<Vec<Subtitle>, ExtractError>
    ensures subtitles { IfOk result (λ list. AreSubtitlesOf times
        (IsReadIn (S.contents file.old.source) file.old.len file.old.movie.tracks track_id)
        file.old.movie.tracks track_id file.old.movie.moov list.items) }
    ensures refused { IfErr result (RefusesSubtitles times
        (IsReadIn (S.contents file.old.source) file.old.len file.old.movie.tracks track_id)
        file.old.movie.tracks track_id file.old.movie.moov
        (MayRefuse (S.contents file.old.source) (S.can_refuse file.old.source))) }
    ensures len { file.new.len ≡ file.old.len }
    ensures movie { file.new.movie ≡ file.old.movie }
    ensures contents { S.contents file.new.source ≡ S.contents file.old.source }
    ensures can_refuse { S.can_refuse file.new.source ≡ S.can_refuse file.old.source }
{
    let mut reader = SubtitleReader::new(alloc, file, track_id, times)?;
    let mut list = Vec::new(alloc);
    while let Some(answer) = reader.next(file) {
        let subtitle = answer?;
        add_shown(subtitle, &mut list)?;
    }
    Ok(list)
}
