//! What a file says of its tracks.

ghost use Rattle.std.specs.Prelude.{◌≡◌, ℕ, Result, length, min, nat_eq, IfErr, IfOk};
ghost use Rattle.std.specs.HashMap.{keys};
ghost use Rattle.std.specs.List.{All, IsDistinct};
ghost use Rattle.mp4_codec.specs.Cause.{Cause, Gives};
ghost use Rattle.mp4_c.specs.Answers.{done};
ghost use Rattle.mp4_c.specs.Replies.{OnFile};
ghost use Rattle.mp4_c.specs.TrackRows.{AreIdsOf, GaveTracks, HasRows, IsIdOf, IsRowOf};
ghost use Rattle.mp4_lookup.specs.Codec.{audio_profile_of};
ghost use Rattle.mp4_lookup.specs.Kind.{box_type_of};
ghost use Rattle.mp4_c.specs.Tracks.{Describes, code_or_zeros, language_bytes, mark_of, or_zero, rates_of, sound_of};
ghost use Rattle.mp4_c.specs.Tracks.{video_of};

use crate::answer::Answer;
use crate::opened_file::opened;
use mp4_media::{Error, Mp4Reader, Mp4Track, Result};
use std::alloc::Global;

/// What a file says of a track. A field with a mark `has_..` is 0 where its mark is 0.
#[repr(C)]
#[derive(Clone, Copy, Debug, PartialEq, Eq)]
pub struct TrackInfo {
    /// In ticks of the track: the duration of its media header, so without fragments.
    pub duration: u64,
    /// Samples in a second, rounded down.
    pub frames_per_second: u64,
    /// The number that names the track.
    pub id: u32,
    /// Ticks in a second, of the track's times.
    pub timescale: u32,
    /// How many samples it has, those of fragments among them.
    pub sample_count: u32,
    /// The average that the sample entry says, or that of the samples.
    pub bits_per_second: u32,
    /// The handler, as `vide`.
    pub handler: [u8; 4],
    /// The type of the first sample entry that is there of avc1, hev1, vp09, mp4a and tx3g.
    pub sample_entry: [u8; 4],
    /// Three letters of ISO 639-2/T, and a zero.
    pub language: [u8; 4],
    /// Pixels.
    pub width: u16,
    /// Pixels.
    pub height: u16,
    /// The type of coded sound of mp4a.
    pub audio_profile: u8,
    /// The number of the sampling frequency of mp4a.
    pub frequency_index: u8,
    /// The number of the channel configuration of mp4a.
    pub channels: u8,
    /// The profile of avc1, as its number in avcC.
    pub video_profile: u8,
    /// The compatibility beside the profile in avcC.
    pub video_compatibility: u8,
    /// The level beside the profile in avcC.
    pub video_level: u8,
    /// 1 where `frames_per_second` is known, else 0.
    pub has_frames_per_second: u8,
    /// 1 where the count has 32 bits, else 0.
    pub has_sample_count: u8,
    /// 1 where `bits_per_second` is known, else 0.
    pub has_bits_per_second: u8,
    /// 1 where one of the five sample entries is there, else 0.
    pub has_sample_entry: u8,
    /// 1 where `audio_profile` is known, else 0.
    pub has_audio_profile: u8,
    /// 1 where `frequency_index` is known, else 0.
    pub has_frequency_index: u8,
    /// 1 where `channels` is known, else 0.
    pub has_channels: u8,
    /// 1 where `video_profile`, `video_compatibility` and `video_level` are known, else 0.
    pub has_video_profile: u8,
    /// Zeros.
    pub reserved: [u8; 2],
}

/// The size that the header says.
const _: () = prove!(size_of::<TrackInfo>() == 64);

/// The numbers of a track's sound: each with 1, or zeros where it is refused.
#[derive(Clone, Copy)]
struct Sound {
    profile: u8,
    has_profile: u8,
    frequency_index: u8,
    has_frequency_index: u8,
    channels: u8,
    has_channels: u8,
}

/// The numbers of a track's AVC video with 1, or zeros where its profile isn't known.
#[derive(Clone, Copy)]
struct Video {
    profile: u8,
    compatibility: u8,
    level: u8,
    is_known: u8,
}

/// How many samples a track has, and how many samples and bits in a second: each with 1, or zeros where it is refused.
#[derive(Clone, Copy)]
struct Rates {
    sample_count: u32,
    has_sample_count: u8,
    frames: u64,
    has_frames: u8,
    bits: u32,
    has_bits: u8,
}

/// A language of three letters with a zero after it; zeros for another.
fn language_bytes(text: &str) -> [u8; 4]
    ensures { result ≡ language_bytes text.now }
{
    match text.as_bytes() {
        [a, b, c] => [*a, *b, *c, 0],
        _ => [0; 4],
    }
}

/// The type of a track's sample entry, and 1; zeros where it has none of the five.
fn sample_entry_of(track: &Mp4Track) -> ([u8; 4], u8)
    ensures { result ≡ (code_or_zeros (box_type_of track.now.trak), mark_of (box_type_of track.now.trak)) }
{
    match track.box_type() {
        Ok(code) => {
            let bytes = code.value;
            (bytes, 1)
        }
        Err(_) => ([0; 4], 0),
    }
}

/// The type of coded sound of a track.
fn audio_profile_of(track: &Mp4Track) -> (u8, u8)
    ensures { result ≡ (or_zero (audio_profile_of track.now.trak), mark_of (audio_profile_of track.now.trak)) }
{
    match track.audio_profile() {
        Ok(profile) => (profile.number(), 1),
        Err(_) => (0, 0),
    }
}

/// The number of the sampling frequency of a track.
fn frequency_index_of(track: &Mp4Track) -> (u8, u8)
    ensures { result ≡ ((sound_of track.now).frequency_index, (sound_of track.now).has_frequency_index) }
{
    match track.sample_freq_index() {
        Ok(index) => (index.number(), 1),
        Err(_) => (0, 0),
    }
}

/// The number of the channel configuration of a track.
fn channels_of(track: &Mp4Track) -> (u8, u8)
    ensures { result ≡ ((sound_of track.now).channels, (sound_of track.now).has_channels) }
{
    match track.channel_config() {
        Ok(config) => (config.number(), 1),
        Err(_) => (0, 0),
    }
}

/// What a track says of its sound.
fn sound_of(track: &Mp4Track) -> Sound
    ensures { result ≡ sound_of track.now }
{
    let (profile, has_profile) = audio_profile_of(track);
    let (frequency_index, has_frequency_index) = frequency_index_of(track);
    let (channels, has_channels) = channels_of(track);
    Sound {
        profile,
        has_profile,
        frequency_index,
        has_frequency_index,
        channels,
        has_channels,
    }
}

/// What a track says of its video, where its profile is known.
#[tactic(auto, unfolding(mp4_lookup::specs::Codec::video_decoder_of))]
fn video_of(track: &Mp4Track) -> Video
    ensures { result ≡ video_of track.now }
{
    let unknown = Video {
        profile: 0,
        compatibility: 0,
        level: 0,
        is_known: 0,
    };
    if track.video_profile().is_err() {
        return unknown;
    }
    match &track.trak.mdia.minf.stbl.stsd.avc1 {
        Some(entry) => Video {
            profile: entry.avcc.avc_profile_indication,
            compatibility: entry.avcc.profile_compatibility,
            level: entry.avcc.avc_level_indication,
            is_known: 1,
        },
        None => unknown,
    }
}

/// A number of 32 bits and 1; zeros where it is refused.
fn marked(answer: Result<u32>) -> (u32, u8)
    ensures { (n : Result ℕ Cause) → Gives (λ n. n) answer n → result ≡ (or_zero n, mark_of n) }
{
    match answer {
        Ok(number) => (number, 1),
        Err(_) => (0, 0),
    }
}

/// A number of 64 bits and 1; zeros where it is refused.
fn marked_long(answer: Result<u64>) -> (u64, u8)
    ensures { (n : Result ℕ Cause) → Gives (λ n. n) answer n → result ≡ (or_zero n, mark_of n) }
{
    match answer {
        Ok(number) => (number, 1),
        Err(_) => (0, 0),
    }
}

/// What a track counts and measures.
fn rates_of(track: &Mp4Track) -> Rates
    ensures { result ≡ rates_of track.now }
{
    let (sample_count, has_sample_count) = marked(track.sample_count());
    let (frames, has_frames) = marked_long(track.frame_rate());
    let (bits, has_bits) = marked(track.bitrate());
    Rates {
        sample_count,
        has_sample_count,
        frames,
        has_frames,
        bits,
        has_bits,
    }
}

/// What a track says of itself.
fn track_info(id: u32, track: &Mp4Track) -> TrackInfo
    ensures { Describes id track.now result }
{
    let (sample_entry, has_sample_entry) = sample_entry_of(track);
    let rates = rates_of(track);
    let sound = sound_of(track);
    let video = video_of(track);
    let handler = track.trak.mdia.hdlr.handler_type.value;
    let language = language_bytes(track.language());
    TrackInfo {
        duration: track.trak.mdia.mdhd.duration,
        frames_per_second: rates.frames,
        id,
        timescale: track.timescale(),
        sample_count: rates.sample_count,
        bits_per_second: rates.bits,
        handler,
        sample_entry,
        language,
        width: track.width(),
        height: track.height(),
        audio_profile: sound.profile,
        frequency_index: sound.frequency_index,
        channels: sound.channels,
        video_profile: video.profile,
        video_compatibility: video.compatibility,
        video_level: video.level,
        has_frames_per_second: rates.has_frames,
        has_sample_count: rates.has_sample_count,
        has_bits_per_second: rates.has_bits,
        has_sample_entry,
        has_audio_profile: sound.has_profile,
        has_frequency_index: sound.has_frequency_index,
        has_channels: sound.has_channels,
        has_video_profile: video.is_known,
        reserved: [0; 2],
    }
}

/// The ids of a movie's tracks.
fn all_ids(alloc: Global, movie: &Mp4Reader) -> Result<Vec<u32>>
    ensures all { IfOk result (λ ids. ids.items ≡ keys movie.now.movie.tracks) }
    ensures known { IfOk result (λ ids. All (IsIdOf movie.now.movie.tracks) ids.items) }
    ensures apart { IfOk result (λ ids. IsDistinct nat_eq ids.items) }
    ensures memory { IfErr result (λ e. e ≡ Error.OutOfMemory) }
{
    let ids = movie.tracks().keys().copied().collect(alloc)?;
    Ok(ids)
}

/// The ids of a movie's tracks, rising.
fn track_ids(alloc: Global, movie: &Mp4Reader) -> Result<Vec<u32>>
    ensures ids { IfOk result (λ ids. AreIdsOf movie.now.movie.tracks ids.items) }
    ensures known { IfOk result (λ ids. All (IsIdOf movie.now.movie.tracks) ids.items) }
    ensures memory { IfErr result (λ e. e ≡ Error.OutOfMemory) }
{
    let mut ids = all_ids(alloc, movie)?;
    ids.sort_unstable();
    Ok(ids)
}

/// The row of the track with this id.
fn row_of_track(movie: &Mp4Reader, id: u32) -> TrackInfo
    requires { IsIdOf movie.now.movie.tracks id }
    ensures { IsRowOf movie.now.movie.tracks id result }
{
    match movie.tracks().get(&id) {
        Some(track) => track_info(id, track),
        None => unreachable!(),
    }
}

/// Fills in the tracks with these ids, in their order, as far as there is room.
fn fill_tracks(movie: &Mp4Reader, ids: &[u32], rows: &mut [TrackInfo]) -> Answer
    requires { All (IsIdOf movie.now.movie.tracks) ids.now }
    ensures rows { HasRows movie.now.movie.tracks ids.now rows.old rows.new }
    ensures answer { result ≡ done (length ids.now) (min (length rows.old) (length ids.now)) }
{
    for (k, row) in rows.iter_mut().enumerate() {
        if k >= ids.len() {
            return Answer::done(ids.len() as u64, k as u64);
        }
        *row = row_of_track(movie, ids[k]);
    }
    Answer::done(ids.len() as u64, rows.len() as u64)
}

/// Fills in the tracks of a movie.
fn list_tracks(alloc: Global, movie: &Mp4Reader, rows: &mut [TrackInfo]) -> Answer
    ensures { GaveTracks movie.now rows.old rows.new result }
{
    match track_ids(alloc, movie) {
        Ok(ids) => fill_tracks(movie, ids.as_slice(), rows),
        Err(error) => Answer::refused(&error),
    }
}

/// Fills in what a file says of its tracks, by rising ids, as far as there is room. `count` is the number of tracks.
#[unsafe(no_mangle)]
pub extern "C" fn mp4_c_tracks(alloc: Global, file: &[u8], rows: &mut [TrackInfo]) -> Answer
    ensures { OnFile file.now GaveTracks rows.old rows.new result }
{
    match opened(alloc, file) {
        Ok(movie) => list_tracks(alloc, &movie, rows),
        Err(error) => Answer::refused(&error),
    }
}
