//! What the tracks of a file are.

ghost use Rattle.std.specs.Prelude.{◌≡◌, IfOk, None, Some, if◌then◌else◌, option_map, string_bytes};
ghost use Rattle.mp4_report.specs.Languages.{language_said};
ghost use Rattle.mp4_report.specs.Rates.{thousandths_rate_of};
ghost use Rattle.mp4_report.specs.Sounds.{sound_of};
ghost use Rattle.mp4_report.specs.Tracks.{edits_of, is_video, kind_of, milliseconds, picture_size, thousandths};
ghost use Rattle.mp4_report.specs.Tracks.{ticks_of_samples, track_ticks, whole, with_fields};

use crate::codec_name::{CodecName, codec_name_of};
use crate::language::language_of;
use crate::milliseconds::milliseconds_of;
use crate::past_end::{PastEnd, track_ids};
use crate::rate::{rate_of, thousandths_rate_of};
use crate::sound::Sound;
use crate::summary::{SampleSummary, summary_of};
use mp4_codec::FourCC;
use mp4_entry::StsdBox;
use mp4_lookup::Mp4Track;
use mp4_media::Movie;
use mp4_readable::{Clock, Code, Grouped, Thousandths, Whole};
use serde::{Described, Serialize, Serializer};
use std::alloc::{AllocError, Global};
use std::fmt;
use std::fmt::Write;

/// The duration of a media header that doesn't know it, in 32 bits (ISO/IEC 14496-12, 8.4.2).
const UNKNOWN_DURATION: u64 = 0xffff_ffff;

/// What a track is for, as its handler says (ISO/IEC 14496-12, 8.4.3).
#[derive(Clone, Copy, Debug, PartialEq, Eq)]
pub enum TrackKind {
    Video,
    Audio,
    Subtitles,
    /// Another handler.
    Other(FourCC),
}

/// The size of pictures, in pixels.
#[derive(Clone, Copy, Debug, PartialEq, Eq, Serialize)]
pub struct PictureSize {
    pub width: u16,
    pub height: u16,
}

/// A track of a file.
#[derive(Debug, Drop, Serialize)]
pub struct TrackReport {
    pub id: u32,
    pub kind: TrackKind,
    /// The name of its codec by RFC 6381; `None` where it has no sample entry.
    pub codec: Option<CodecName>,
    /// The size of its pictures, where it is video.
    pub pictures: Option<PictureSize>,
    /// Pictures in a second, where it is video.
    pub frame_rate: Option<Thousandths>,
    /// What is known of its sound, where it has an entry `mp4a`.
    pub sound: Option<Sound>,
    /// The bits of all samples in a second of the duration.
    pub bit_rate: Option<Whole>,
    /// ISO 639-2/T; `None` where it isn't known.
    pub language: Option<String>,
    /// Ticks in a second.
    pub timescale: u32,
    pub duration_ms: Option<Whole>,
    /// How many samples there are, up to the first that is refused.
    pub samples: Whole,
    pub sync_samples: Whole,
    /// The longest time from a sync sample to the next, to the nearest millisecond.
    pub sync_longest_ms: Option<Whole>,
    /// The mean time from a sync sample to the next, to the nearest millisecond.
    pub sync_mean_ms: Option<Whole>,
    /// How many entries its edit list has.
    pub edits: Whole,
    /// How many track fragments it has.
    pub fragments: Whole,
    /// Its samples that lie past the end of the file.
    pub past_end: Option<PastEnd>,
}

/// The tracks of a file, by rising id.
#[derive(Debug, Drop, Serialize)]
pub struct TracksReport {
    pub tracks: Vec<TrackReport>,
}

/// The kind of a track with this handler: `vide`, `soun`, `sbtl`, `subt` and `text` are named.
#[tactic(auto, unfolding(crate::specs::Tracks::kind_of))]
fn kind_of(handler: FourCC) -> TrackKind
    ensures { result ≡ kind_of handler }
{
    match u32::from(handler) {
        0x76696465 => TrackKind::Video,
        0x736f756e => TrackKind::Audio,
        0x7362746c | 0x73756274 | 0x74657874 => TrackKind::Subtitles,
        _ => TrackKind::Other(handler),
    }
}

impl TrackKind {
    fn is_video(self) -> bool
        ensures { result ≡ is_video self }
    {
        matches!(self, TrackKind::Video)
    }
}

/// The size of the pictures of a track: that of its sample entry, or else that of its header.
#[tactic(auto, unfolding(crate::specs::Tracks::picture_size))]
fn pictures_of(track: &Mp4Track) -> PictureSize
    ensures { result ≡ picture_size track.now.trak }
{
    let stsd = &track.trak.mdia.minf.stbl.stsd;
    if let Some(entry) = &stsd.hev1 {
        return PictureSize {
            width: entry.width,
            height: entry.height,
        };
    }
    if let Some(entry) = &stsd.vp09 {
        return PictureSize {
            width: entry.width,
            height: entry.height,
        };
    }
    PictureSize {
        width: track.width(),
        height: track.height(),
    }
}

/// How many ticks the samples of a track last, from the first on.
fn ticks_of_samples(track: &Mp4Track) -> Option<u64>
    ensures { result ≡ ticks_of_samples track.now }
{
    match track.time_range() {
        Some(range) => Some(range.end.saturating_sub(range.start)),
        None => None,
    }
}

/// How many ticks a track lasts: as its media header says, or as its samples do, where they are in fragments too, of
/// which the header says nothing, and where it doesn't know.
#[tactic(auto, unfolding(crate::specs::Tracks::track_ticks))]
fn ticks_of(track: &Mp4Track) -> Option<u64>
    ensures { result ≡ track_ticks track.now }
{
    if !track.trafs.is_empty() {
        return ticks_of_samples(track);
    }
    match track.trak.mdia.mdhd.duration {
        0 | UNKNOWN_DURATION | u64::MAX => ticks_of_samples(track),
        ticks => Some(ticks),
    }
}

/// The language of a track.
fn language_text(alloc: Global, track: &Mp4Track) -> Result<Option<String>, AllocError>
    ensures { IfOk result (λ text.
        option_map string_bytes text ≡ language_said track.now.trak.mdia.mdhd.language) }
{
    match language_of(track.language()) {
        Some(language) => Ok(Some(String::from_str(alloc, language)?)),
        None => Ok(None),
    }
}

/// How many entries the edit list of a track has.
#[tactic(auto, unfolding(crate::specs::Tracks::edits_of))]
fn edits_of(track: &Mp4Track) -> u64
    ensures { result ≡ edits_of track.now.trak }
{
    match &track.trak.edts {
        Some(edts) => match &edts.elst {
            Some(elst) => elst.entries.len() as u64,
            None => 0,
        },
        None => 0,
    }
}

/// A number that may not be known.
fn whole(number: Option<u64>) -> Option<Whole>
    ensures { result ≡ option_map whole number }
{
    match number {
        Some(number) => Some(Whole(number)),
        None => None,
    }
}

/// The pictures in a second of so many that are spread over these ticks, of a track of this kind.
fn frame_rate_of(kind: TrackKind, count: u64, spread: u64, timescale: u32) -> Option<Thousandths>
    ensures { result ≡ (if is_video kind
        then option_map thousandths (thousandths_rate_of count spread timescale) else None) }
{
    if !kind.is_video() {
        return None;
    }
    match thousandths_rate_of(count, spread, timescale) {
        Some(rate) => Some(Thousandths(rate)),
        None => None,
    }
}

/// The size of the pictures of a track of this kind.
fn video_size(kind: TrackKind, track: &Mp4Track) -> Option<PictureSize>
    ensures { result ≡ (if is_video kind then Some (picture_size track.now.trak) else None) }
{
    if kind.is_video() {
        Some(pictures_of(track))
    } else {
        None
    }
}

/// The sound that a track's description says.
fn sound_of(stsd: &StsdBox) -> Option<Sound>
    ensures { result ≡ option_map sound_of stsd.now.mp4a }
{
    match &stsd.mp4a {
        Some(entry) => Some(Sound::of(entry)),
        None => None,
    }
}

/// The milliseconds of so many ticks, where they are known.
fn duration_of(ticks: Option<u64>, timescale: u32) -> Option<u64>
    ensures { result ≡ milliseconds timescale ticks }
{
    match ticks {
        Some(ticks) => milliseconds_of(ticks, timescale),
        None => None,
    }
}

/// What a track is, whose samples are these together.
#[tactic(auto, unfolding(crate::specs::Tracks::with_fields))]
fn report_of(
    alloc: Global,
    id: u32,
    track: &Mp4Track,
    summary: SampleSummary,
) -> Result<TrackReport, AllocError>
    ensures fields { IfOk result (λ report. report ≡ with_fields id track.now summary report) }
    ensures language { IfOk result (λ report.
        option_map string_bytes report.language ≡ language_said track.now.trak.mdia.mdhd.language) }
{
    let kind = kind_of(track.trak.mdia.hdlr.handler_type);
    let timescale = track.timescale();
    let ticks = ticks_of(track);
    let stsd = &track.trak.mdia.minf.stbl.stsd;
    let spread = ticks.unwrap_or(0);
    let language = language_text(alloc, track)?;
    Ok(TrackReport {
        id,
        kind,
        codec: codec_name_of(stsd),
        pictures: video_size(kind, track),
        frame_rate: frame_rate_of(kind, summary.count, spread, timescale),
        sound: sound_of(stsd),
        bit_rate: whole(rate_of(summary.bytes.saturating_mul(8), spread, timescale)),
        language,
        timescale,
        duration_ms: whole(duration_of(ticks, timescale)),
        samples: Whole(summary.count),
        sync_samples: Whole(summary.sync),
        sync_longest_ms: whole(summary.longest_ms(timescale)),
        sync_mean_ms: whole(summary.mean_ms(timescale)),
        edits: Whole(edits_of(track)),
        fragments: Whole(track.trafs.len() as u64),
        past_end: summary.past_end,
    })
}

/// What the tracks of a movie are, whose file has so many bytes.
pub fn tracks_of(alloc: Global, movie: &Movie, file_size: u64) -> Result<TracksReport, AllocError> {
    let mut tracks = Vec::new(alloc);
    for id in track_ids(alloc, movie)?.iter() {
        if let Some(track) = movie.tracks().get(id) {
            let summary = summary_of(alloc, track, file_size)?;
            tracks.push(report_of(alloc, *id, track, summary)?)?;
        }
    }
    Ok(TracksReport { tracks })
}

impl fmt::Display for TrackKind {
    fn fmt<W: fmt::Write>(&self, f: &mut fmt::Formatter<W>) -> fmt::Result {
        match self {
            TrackKind::Video => f.write_str("video"),
            TrackKind::Audio => f.write_str("audio"),
            TrackKind::Subtitles => f.write_str("subtitles"),
            TrackKind::Other(handler) => f.write(Code(*handler)),
        }
    }
}

impl Described for TrackKind {}

impl Serialize for TrackKind {
    fn serialize<S: Serializer>(&self, out: &mut S) -> Result<(), S::Error> {
        out.collect_str(self)
    }
}

/// Writes the line of a number.
fn write_number<W: fmt::Write>(
    f: &mut fmt::Formatter<W>,
    name: &str,
    number: Whole,
    unit: &str,
) -> fmt::Result {
    let number = Grouped(number.0);
    writeln!(f, "  {name:<13} {number}{unit}")
}

/// Writes the line of the pictures.
fn write_pictures<W: fmt::Write>(f: &mut fmt::Formatter<W>, track: &TrackReport) -> fmt::Result {
    let Some(PictureSize { width, height }) = track.pictures else {
        return Ok(());
    };
    write!(f, "  pictures      {width} x {height}")?;
    if let Some(rate) = track.frame_rate {
        write!(f, ", {rate} in a second")?;
    }
    f.write_str("\n")
}

/// Writes the line of the sync samples.
fn write_sync_samples<W: fmt::Write>(
    f: &mut fmt::Formatter<W>,
    track: &TrackReport,
) -> fmt::Result {
    if track.sync_samples == track.samples && track.samples.0 > 0 {
        return f.write_str("  sync samples  all\n");
    }
    let count = Grouped(track.sync_samples.0);
    write!(f, "  sync samples  {count}")?;
    if let (Some(longest), Some(mean)) = (track.sync_longest_ms, track.sync_mean_ms) {
        let longest = Clock(longest.0);
        let mean = Clock(mean.0);
        write!(f, ", at most {longest} apart, {mean} on average")?;
    }
    f.write_str("\n")
}

/// Writes the lines of what lasts: the bits in a second, and the duration.
fn write_duration<W: fmt::Write>(f: &mut fmt::Formatter<W>, track: &TrackReport) -> fmt::Result {
    if let Some(milliseconds) = track.duration_ms {
        let duration = Clock(milliseconds.0);
        writeln!(f, "  duration      {duration}")?;
    }
    if let Some(bits) = track.bit_rate {
        write_number(f, "bit rate", bits, " bits in a second")?;
    }
    Ok(())
}

impl fmt::Display for TrackReport {
    /// Writes a line that names the track, and one for each thing that is known of it.
    fn fmt<W: fmt::Write>(&self, f: &mut fmt::Formatter<W>) -> fmt::Result {
        let TrackReport { id, kind, .. } = self;
        write!(f, "track {id}: {kind}")?;
        if let Some(codec) = self.codec {
            write!(f, ", {codec}")?;
        }
        f.write_str("\n")?;
        write_pictures(f, self)?;
        if let Some(sound) = self.sound {
            writeln!(f, "  sound         {sound}")?;
        }
        let language = match &self.language {
            Some(language) => language.as_str(),
            None => "not known",
        };
        writeln!(f, "  language      {language}")?;
        write_duration(f, self)?;
        write_number(f, "samples", self.samples, "")?;
        write_sync_samples(f, self)?;
        write_number(f, "edits", self.edits, "")?;
        write_number(f, "fragments", self.fragments, "")?;
        match self.past_end {
            Some(past_end) => writeln!(f, "  past the end  {past_end}"),
            None => Ok(()),
        }
    }
}

impl fmt::Display for TracksReport {
    /// Writes the tracks, an empty line between two of them.
    fn fmt<W: fmt::Write>(&self, f: &mut fmt::Formatter<W>) -> fmt::Result {
        for (index, track) in self.tracks.iter().enumerate() {
            if index > 0 {
                f.write_str("\n")?;
            }
            write!(f, "{track}")?;
        }
        if self.tracks.is_empty() {
            f.write_str("no tracks\n")?;
        }
        Ok(())
    }
}
