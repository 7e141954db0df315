//! Random lists of calls of a writer, from fixed seeds, refused ones among them: each call answers
//! as the plain model says, and the bytes are those of the model.

use crate::asserts::assert_that;
use crate::written::{answers_alike, begun};
use mp4_entry::TrackType;
use mp4_media::Mp4Writer;
use mp4_plain_movies::calls::{Beginning, Call, ISOM, Media, Picture, Sample, Sound, Track};
use mp4_plain_movies::plain_movie::PlainMovie;
use mp4_plain_movies::random::Random;
use std::alloc::Global;
use std::process::Abort;

/// What the samples of a list have in common.
#[derive(Clone, Copy)]
pub struct Habits<'a> {
    /// The bytes that samples and parameter sets are parts of.
    pool: &'a [u8],
    has_one_size: bool,
    has_rendering_offsets: bool,
    has_sync_samples: bool,
    is_long: bool,
}

impl<'a> Habits<'a> {
    pub fn new(pool: &'a [u8], random: &mut Random) -> Self {
        Habits {
            pool,
            has_one_size: random.few() == 0,
            has_rendering_offsets: random.chance(),
            has_sync_samples: random.few() > 0,
            is_long: random.few() == 0,
        }
    }

    /// So many bytes of the pool.
    pub fn some(&self, random: &mut Random, count: u32) -> &'a [u8] {
        let start = random.byte() as usize;
        let end = start.wrapping_add(count as usize);
        self.pool.get(start..end).unwrap_or(&[])
    }
}

fn random_timescale(random: &mut Random) -> u32 {
    match random.below(9) {
        0 => 0,
        1 | 2 => 1,
        3 => u32::MAX,
        4 => 1000,
        _ => random.few().wrapping_add(1),
    }
}

pub fn random_beginning(random: &mut Random) -> Beginning<'static> {
    let compatible_brands: &'static [u32] = match random.few() {
        0 => &[],
        1 => &[0x69736f6d],
        _ => ISOM.compatible_brands,
    };
    Beginning {
        major_brand: random.next(),
        minor_version: random.next(),
        compatible_brands,
        timescale: random_timescale(random),
    }
}

/// Three characters of five bits, but one time in four something else.
fn random_language(random: &mut Random) -> &'static str {
    match random.below(16) {
        0 => "ENG",
        1 => "en",
        2 => "engl",
        3 => "e\u{80}",
        4 => "`\u{7f}z",
        5 => "eng",
        _ => "und",
    }
}

fn random_picture(random: &mut Random) -> Picture {
    Picture {
        width: (random.next() / 65536) as u16,
        height: (random.next() / 65536) as u16,
    }
}

/// The length of a parameter set, which is seldom too short or too long.
fn random_length(random: &mut Random) -> u32 {
    match random.below(32) {
        0 => 65536,
        1 => 65535,
        2 => 0,
        3 => 3,
        _ => random.few().wrapping_add(4),
    }
}

/// A type of sound, which is seldom over 30.
fn random_profile(random: &mut Random) -> u8 {
    match random.below(8) {
        0 => 32,
        1 => 95,
        2 => 30,
        _ => (random.byte() % 4).wrapping_add(1),
    }
}

fn random_sound(random: &mut Random) -> Sound {
    Sound {
        bitrate: random.next(),
        profile: random_profile(random),
        frequency: random.byte() % 13,
        channels: (random.byte() % 7).wrapping_add(1),
    }
}

fn random_sets<'a>(habits: &Habits<'a>, random: &mut Random) -> Media<'a> {
    let picture = random_picture(random);
    let sequence = random_length(random);
    let picture_set = random_length(random);
    Media::Avc(
        picture,
        habits.some(random, sequence),
        habits.some(random, picture_set),
    )
}

fn random_media<'a>(habits: &Habits<'a>, random: &mut Random) -> Media<'a> {
    match random.below(5) {
        0 => random_sets(habits, random),
        1 => Media::Hevc(random_picture(random)),
        2 => Media::Vp9(random_picture(random)),
        3 => Media::Aac(random_sound(random)),
        _ => Media::Text,
    }
}

/// A kind of track, which need not be that of its media.
fn random_track_type(random: &mut Random) -> TrackType {
    match random.below(3) {
        0 => TrackType::Video,
        1 => TrackType::Audio,
        _ => TrackType::Subtitle,
    }
}

fn random_track<'a>(habits: &Habits<'a>, random: &mut Random) -> Track<'a> {
    Track {
        track_type: random_track_type(random),
        timescale: random_timescale(random),
        language: random_language(random),
        media: random_media(habits, random),
    }
}

fn random_duration(habits: &Habits, random: &mut Random) -> u32 {
    match random.few() {
        0 if habits.is_long => u32::MAX,
        1 if habits.is_long => random.next(),
        _ => random.few(),
    }
}

fn random_rendering_offset(habits: &Habits, random: &mut Random) -> i32 {
    match random.few() {
        0 if habits.has_rendering_offsets => i32::from(random.byte()).wrapping_sub(100),
        1 if habits.has_rendering_offsets => -1,
        _ => 0,
    }
}

fn random_sample<'a>(habits: &Habits<'a>, random: &mut Random) -> Sample<'a> {
    let size = if habits.has_one_size { 3 } else { random.few() };
    Sample {
        duration: random_duration(habits, random),
        rendering_offset: random_rendering_offset(habits, random),
        is_sync: habits.has_sync_samples && random.chance(),
        bytes: habits.some(random, size),
    }
}

/// A call; the id of a sample's track is seldom one that no track has.
pub fn random_call<'a>(habits: &Habits<'a>, random: &mut Random, tracks: u32) -> Call<'a> {
    match random.below(512) {
        0 => return Call::WriteEnd,
        1..=30 => return Call::AddTrack(random_track(habits, random)),
        _ => {}
    }
    let id = match random.below(64) {
        0 => random.next(),
        1 => 0,
        2 => tracks.wrapping_add(1),
        _ if tracks == 0 => return Call::AddTrack(random_track(habits, random)),
        _ => random.below(tracks).wrapping_add(1),
    };
    Call::WriteSample(id, random_sample(habits, random))
}

/// Makes so many calls of both. Whether all answer alike.
fn all_answer_alike<'a>(
    rt: &impl Abort,
    alloc: Global,
    writer: &mut Mp4Writer,
    movie: &mut PlainMovie<'a>,
    habits: &Habits<'a>,
    random: &mut Random,
) -> bool {
    let mut all = true;
    for _ in 0..random.byte() {
        let tracks = u32::try_from(movie.tracks.len()).unwrap_or(0);
        let call = random_call(habits, random, tracks);
        all = answers_alike(rt, alloc, writer, movie, &call) && all;
    }
    all
}

/// Makes the calls of a list and mostly an end. Whether the answers and the bytes are alike.
fn list_is_alike(rt: &impl Abort, alloc: Global, pool: &[u8], seed: u64) -> bool {
    let mut random = Random::new(seed);
    let habits = Habits::new(pool, &mut random);
    let beginning = random_beginning(&mut random);
    let front = random.few();
    let buffer = habits.some(&mut random, front);
    let mut movie = PlainMovie::begin(alloc, buffer, &beginning).expect(rt, "memory");
    let mut writer = begun(rt, alloc, buffer, &beginning);
    let mut alike = all_answer_alike(rt, alloc, &mut writer, &mut movie, &habits, &mut random);
    if random.below(8) > 0 {
        alike = answers_alike(rt, alloc, &mut writer, &mut movie, &Call::WriteEnd) && alike;
    }
    alike && writer.into_writer() == movie.bytes
}

/// The bytes that a writer makes of the calls of a list and an end, and the model's movie.
pub fn random_movie<'a>(
    rt: &impl Abort,
    alloc: Global,
    pool: &'a [u8],
    seed: u64,
) -> (Vec<u8>, PlainMovie<'a>) {
    let mut random = Random::new(seed);
    let habits = Habits::new(pool, &mut random);
    let beginning = random_beginning(&mut random);
    let mut movie = PlainMovie::begin(alloc, &[], &beginning).expect(rt, "memory");
    let mut writer = begun(rt, alloc, &[], &beginning);
    all_answer_alike(rt, alloc, &mut writer, &mut movie, &habits, &mut random);
    answers_alike(rt, alloc, &mut writer, &mut movie, &Call::WriteEnd);
    (writer.into_writer(), movie)
}

/// As many bytes as a parameter set that is too long has, and as many more as the place where one
/// may begin.
pub fn random_bytes(rt: &impl Abort, alloc: Global) -> Vec<u8> {
    let mut random = Random::new(14496);
    let mut bytes = Vec::new(alloc);
    for _ in 0..65536 + 256 {
        bytes.push(random.byte()).expect(rt, "memory");
    }
    bytes
}

/// Ends the test unless the lists of these seeds are alike.
fn check_lists(rt: &(impl Abort + AllocGlobal), first: u64, end: u64) {
    let pool = random_bytes(rt, rt.alloc());
    for seed in first..end {
        assert_that(rt, seed, list_is_alike(rt, rt.alloc(), &pool, seed));
    }
}

#[test]
fn five_hundred_lists_of_calls_are_written_as_the_model_says(rt: HostRuntime) {
    check_lists(&rt, 0, 500);
}

#[test]
fn five_hundred_lists_more_are_written_as_the_model_says(rt: HostRuntime) {
    check_lists(&rt, 500, 1000);
}
