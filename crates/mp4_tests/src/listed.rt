//! The lists of samples beside those of a plain program, as texts that are equal byte for byte or refusals
//! that are equal, texts and lines too. Each family of inputs says how many of them reach what it is for, and
//! fails where too few do.

use crate::asserts::{assert_that, at_least};
use crate::plain_files::{PlainFile, put_boxes};
use crate::plain_lists as plain;
use crate::puts::{begin_box, put_bytes};
use crate::random_fragments::random_file;
use mp4_codec::Error;
use mp4_media::{Mp4Track, SamplePlace, read_mp4};
use mp4_plain_movies::movie_bytes::EMPTY_MOVIE;
use mp4_plain_movies::plain_bytes::{end_box, put_zeros};
use mp4_plain_movies::random::Random;
use mp4_plain_movies::random_tables::random_track;
use mp4_script::{ScriptFault, samples_text, show_text};
use std::alloc::Global;
use std::fmt::Write;
use std::process::Abort;

/// Whether a list has a word: the lines of samples have numbers alone. A line with one is the last.
fn has_word(list: &[u8]) -> bool {
    list.iter().any(|byte| byte.is_ascii_lowercase())
}

/// How many lines of a list are those of samples.
fn sample_lines(list: &[u8]) -> usize {
    let lines = list.iter().filter(|byte| **byte == b'\n').count();
    lines.saturating_sub(usize::from(has_word(list)))
}

/// How many lists of one file after the other reach the end of the file, each of them the list of a track's
/// samples.
#[derive(Clone, Copy)]
struct Ends {
    /// Lines of samples.
    lines: u32,
    /// Lists that end in `end of data`.
    cut: u32,
    /// Samples that end where the file ends.
    at_end: u32,
    /// Samples without bytes that begin where the file ends: they are listed.
    empty: u32,
    /// Samples that begin before the end of the file and end after it: they aren't read.
    across: u32,
    /// Samples with bytes that begin where the file ends: neither are they.
    after: u32,
}

/// No list.
const NO_ENDS: Ends = Ends {
    lines: 0,
    cut: 0,
    at_end: 0,
    empty: 0,
    across: 0,
    after: 0,
};

impl Ends {
    /// Counts a sample that is listed, of a file that ends there.
    fn add_listed(&mut self, place: &SamplePlace, end: u64) {
        let begins = place.offset == end;
        let ends = place.offset.wrapping_add(u64::from(place.size)) == end;
        self.lines = self.lines.wrapping_add(1);
        self.at_end = self.at_end.wrapping_add(u32::from(ends && !begins));
        self.empty = self.empty.wrapping_add(u32::from(ends && begins));
    }

    /// Counts a sample at which a list of a file that ends there says `end of data`.
    fn add_cut(&mut self, place: &SamplePlace, end: u64) {
        self.cut = self.cut.wrapping_add(1);
        self.across = self.across.wrapping_add(u32::from(place.offset < end));
        self.after = self.after.wrapping_add(u32::from(place.offset == end));
    }

    /// Counts the lines of a list of samples at these places, of a file that ends there.
    fn add(&mut self, list: &[u8], places: &[SamplePlace], end: u64) {
        let lines = sample_lines(list);
        for place in places.iter().take(lines) {
            self.add_listed(place, end);
        }
        if let Some(place) = places.get(lines)
            && list.ends_with(b" end of data\n")
        {
            self.add_cut(place, end);
        }
    }

    /// Ends the test unless each point is reached often.
    fn are_reached(&self, rt: &impl Abort) {
        at_least(rt, "lines of samples", self.lines, 40_000);
        at_least(rt, "lists that end in `end of data`", self.cut, 8000);
        at_least(rt, "samples up to the end", self.at_end, 400);
        at_least(rt, "samples without bytes at the end", self.empty, 50);
        at_least(rt, "samples across the end", self.across, 400);
        at_least(rt, "samples after the end", self.after, 400);
    }
}

/// A movie of a track of random tables, most of whose chunks begin in the first thousand bytes, and media
/// data that goes to the end of the file: so the file may end at any byte of the data.
fn open_file(rt: &impl Abort, alloc: Global, random: &mut Random) -> Vec<u8> {
    let tables = random_track(alloc, random).expect(rt, "memory");
    let mut file = EMPTY_MOVIE[..32].to_vec(alloc).expect(rt, "memory");
    let movie = begin_box(rt, &mut file, b"moov");
    put_bytes(rt, &mut file, &EMPTY_MOVIE[56..]);
    let track = begin_box(rt, &mut file, b"trak");
    put_bytes(rt, &mut file, &tables);
    end_box(&mut file, track);
    end_box(&mut file, movie);
    put_bytes(rt, &mut file, b"\0\0\0\0mdat");
    file
}

/// Where the samples of a track lie, up to the first that isn't there.
fn places_of(rt: &impl Abort, alloc: Global, track: &Mp4Track) -> Vec<SamplePlace> {
    let mut places = Vec::new(alloc);
    for k in 1..=track.sample_count().expect(rt, "a number of samples") {
        match track.locate(k) {
            Ok(Some(place)) => places.push(place).expect(rt, "memory"),
            _ => break,
        }
    }
    places
}

/// Where the samples of the track of id 1 lie.
fn places_in(rt: &impl Abort, alloc: Global, file: &[u8]) -> Vec<SamplePlace> {
    let movie = read_mp4(alloc, file).expect(rt, "the movie opens");
    places_of(rt, alloc, movie.track(1).expect(rt, "a track"))
}

/// How many lengths of a file are listed, one byte apart.
const LENGTHS: usize = 16;

/// How many bytes of media data a file has at most.
const DATA: usize = 1100;

/// The length of a file at which a random one of the samples ends that end after its boxes, less half of the
/// lengths that are listed; and no less than the length of the boxes.
fn first_length(random: &mut Random, places: &[SamplePlace], boxes: usize) -> usize {
    let mut first = boxes;
    let mut count = 0u32;
    for place in places {
        let end = place.offset.wrapping_add(u64::from(place.size));
        let distance = end.wrapping_sub(boxes as u64);
        if distance <= 1000 {
            count = count.wrapping_add(1);
            if random.below(count) == 0 {
                first = boxes.wrapping_add((distance as usize).saturating_sub(LENGTHS / 2));
            }
        }
    }
    first
}

/// Whether the samples of a track, which lie at these places, are listed as by the plain program.
fn is_listed(
    rt: &impl Abort,
    alloc: Global,
    file: &[u8],
    places: &[SamplePlace],
    ends: &mut Ends,
) -> bool {
    let list = samples_text(alloc, file, 1);
    if let Ok(list) = &list {
        ends.add(list, places, file.len() as u64);
    }
    list == plain::samples_text(rt, alloc, file, 1)
}

/// Whether the samples of the track of a seed are listed so, in files that end at each byte round the end of
/// one of them.
fn track_is_listed(rt: &impl Abort, alloc: Global, seed: u64, ends: &mut Ends) -> bool {
    let mut random = Random::new(seed);
    let mut file = open_file(rt, alloc, &mut random);
    let places = places_in(rt, alloc, &file);
    let first = first_length(&mut random, &places, file.len());
    put_zeros(&mut file, DATA).expect(rt, "memory");
    let mut all = true;
    for length in first..first.saturating_add(LENGTHS) {
        let file = file.get(..length).unwrap_or(&[]);
        all = all && is_listed(rt, alloc, file, &places, ends);
    }
    all
}

/// At the end of the file one byte makes the line of a sample or a refusal. The 16,000 lists here have more than
/// 40,000 lines of samples, and more than 8,000 of them end in `end of data`. More than 400 samples end where
/// their file ends, and more than 50 without bytes begin there; more than 400 lie across the end, and more than
/// 400 with bytes begin there.
#[test]
fn the_samples_of_a_thousand_tracks_are_listed_as_by_a_plain_program(rt: HostRuntime) {
    let mut ends = NO_ENDS;
    for seed in 0..1000 {
        let all = track_is_listed(&rt, rt.alloc(), seed, &mut ends);
        assert_that(&rt, seed, all);
    }
    ends.are_reached(&rt);
}

/// What the lists of some files show.
#[derive(Clone, Copy)]
struct Shown {
    /// Files that open.
    opened: u32,
    /// Lists with the line of a sample.
    listed: u32,
    /// Lists that end in a refusal of a sample.
    refused: u32,
}

/// No file.
const NOTHING_SHOWN: Shown = Shown {
    opened: 0,
    listed: 0,
    refused: 0,
};

impl Shown {
    /// Counts a list of samples.
    fn add_list(&mut self, list: &[u8]) {
        let is_refused = has_word(list) && !list.ends_with(b" none\n");
        self.listed = self.listed.wrapping_add(u32::from(sample_lines(list) > 0));
        self.refused = self.refused.wrapping_add(u32::from(is_refused));
    }

    /// Counts a file.
    fn add_file(&mut self, alloc: Global, file: &[u8]) {
        let is_opened = read_mp4(alloc, file).is_ok();
        self.opened = self.opened.wrapping_add(u32::from(is_opened));
    }

    /// Ends the test unless there are so many of each.
    fn are_at_least(&self, rt: &impl Abort, opened: u32, listed: u32, refused: u32) {
        at_least(rt, "files that open", self.opened, opened);
        at_least(rt, "lists with a sample", self.listed, listed);
        at_least(rt, "lists that end in a refusal", self.refused, refused);
    }
}

/// Whether the samples of an id are listed as by the plain program, refusals too.
fn is_listed_of(rt: &impl Abort, alloc: Global, file: &[u8], id: u32, shown: &mut Shown) -> bool {
    let list = samples_text(alloc, file, id);
    if let Ok(list) = &list {
        shown.add_list(list);
    }
    list == plain::samples_text(rt, alloc, file, id)
}

/// Whether the samples of each id up to 4 are listed so.
fn are_listed(rt: &impl Abort, alloc: Global, file: &[u8], shown: &mut Shown) -> bool {
    shown.add_file(alloc, file);
    let mut all = true;
    for id in 0..=4 {
        all = all && is_listed_of(rt, alloc, file, id, shown);
    }
    all
}

/// Whether the samples of the file of random boxes of a seed are listed so.
fn boxes_are_listed(rt: &impl Abort, alloc: Global, seed: u64, shown: &mut Shown) -> bool {
    let mut random = Random::new(seed);
    let mut file = PlainFile::new(alloc);
    put_boxes(rt, alloc, &mut file, &mut random);
    are_listed(rt, alloc, &file.bytes, shown)
}

/// Files that are refused when they are opened, and ids without a track: these refusals come before any line.
/// Of the 500 files here more than 150 open, two in five; of their 2,500 lists more than 250 have a sample, and
/// more than 225 end in a refusal.
#[test]
fn the_samples_of_five_hundred_random_files_are_listed_as_by_a_plain_program(rt: HostRuntime) {
    let mut shown = NOTHING_SHOWN;
    for seed in 0..500 {
        let all = boxes_are_listed(&rt, rt.alloc(), seed, &mut shown);
        assert_that(&rt, seed, all);
    }
    shown.are_at_least(&rt, 150, 250, 225);
}

/// Whether the samples of the random file of fragments of a seed are listed so.
fn fragments_are_listed(rt: &impl Abort, alloc: Global, seed: u64, shown: &mut Shown) -> bool {
    let mut random = Random::new(seed);
    let file = random_file(rt, alloc, &mut random);
    are_listed(rt, alloc, &file.bytes, shown)
}

/// Samples of fragments, which lie and last as their runs say. Each of the 500 files here opens; of their 2,500
/// lists more than 500 have a sample, and more than 500 end in a refusal.
#[test]
fn the_samples_of_five_hundred_files_of_fragments_are_listed_as_by_a_plain_program(
    rt: HostRuntime,
) {
    let mut shown = NOTHING_SHOWN;
    for seed in 0..500 {
        let all = fragments_are_listed(&rt, rt.alloc(), seed, &mut shown);
        assert_that(&rt, seed, all);
    }
    shown.are_at_least(&rt, 500, 500, 500);
}

/// A script, and the fault of its first line that has one.
#[derive(Drop)]
struct Script {
    text: String,
    lines: u64,
    fault: Option<ScriptFault>,
}

impl Script {
    /// Counts a line that was put, and is at fault so if any is.
    fn end_line(&mut self, fault: Option<ScriptFault>) {
        self.lines = self.lines.wrapping_add(1);
        if self.fault.is_none() {
            self.fault = fault;
        }
    }
}

/// Puts the line of a sample of one of so many tracks, of numbers with many digits, some of them below 0.
fn put_sample(rt: &impl Abort, script: &mut Script, random: &mut Random, tracks: u32) {
    let id = random.below(tracks).wrapping_add(1);
    let duration = random.next().wrapping_shr(random.below(32));
    let later = i64::from(random.next().wrapping_shr(random.below(31).wrapping_add(1)));
    let sign = if random.chance() { "-" } else { "" };
    let sync = u8::from(random.chance());
    writeln!(
        script.text,
        "sample {id} {duration} {sign}{later} {sync} abc"
    )
    .expect(rt, "memory");
    script.end_line(None);
}

/// Puts a line that is at fault: no command, or a sample of a track that isn't there.
fn put_fault(rt: &impl Abort, script: &mut Script, random: &mut Random) {
    let line = script.lines.wrapping_add(1);
    let (text, fault) = if random.chance() {
        ("sample 1 -1 0 1 abc", ScriptFault::NotACommand(line))
    } else {
        let fault = ScriptFault::Refused(line, Error::TrakNotFound(9));
        ("sample 9 1 0 1 abc", fault)
    };
    writeln!(script.text, "{text}").expect(rt, "memory");
    script.end_line(Some(fault));
}

/// A script of up to three tracks of text and their samples; one in three has lines at fault.
fn random_script(rt: &impl Abort, alloc: Global, random: &mut Random) -> Script {
    let mut script = Script {
        text: String::new(alloc),
        lines: 0,
        fault: None,
    };
    let tracks = random.below(3).wrapping_add(1);
    for _ in 0..tracks {
        let timescale = random.below(2000).wrapping_add(1);
        writeln!(script.text, "track text {timescale}").expect(rt, "memory");
        script.end_line(None);
    }
    let has_faults = random.below(3) == 0;
    for _ in 0..random.byte() % 40 {
        if has_faults && random.below(8) == 0 {
            put_fault(rt, &mut script, random);
        }
        put_sample(rt, &mut script, random, tracks);
    }
    script
}

type Answer = Result<Vec<u8>, ScriptFault>;

/// Whether what is shown of a script is the same: the text, or the fault and its message.
fn are_same(rt: &impl Abort, alloc: Global, shown: &Answer, expected: &Answer) -> bool {
    let messages = match (shown, expected) {
        (Err(one), Err(other)) => {
            let message = format!(in alloc; "{one}").expect(rt, "memory");
            message == format!(in alloc; "{other}").expect(rt, "memory")
        }
        _ => true,
    };
    messages && shown == expected
}

/// Whether a script is shown where it has no fault, and answered with its fault where it has one.
fn is_fault_of(script: &Script, shown: &Answer) -> bool {
    match (shown, &script.fault) {
        (Ok(_), None) => true,
        (Err(fault), Some(expected)) => fault == expected,
        _ => false,
    }
}

/// How many scripts are shown with samples, and how many are answered with each kind of fault.
#[derive(Clone, Copy)]
struct Scripts {
    shown: u32,
    no_commands: u32,
    refused: u32,
}

impl Scripts {
    /// Counts what is shown of a script.
    fn add(&mut self, shown: &Answer) {
        match shown {
            Ok(_) => self.shown = self.shown.wrapping_add(1),
            Err(ScriptFault::NotACommand(_)) => {
                self.no_commands = self.no_commands.wrapping_add(1);
            }
            Err(_) => self.refused = self.refused.wrapping_add(1),
        }
    }

    /// Ends the test unless there are some of each.
    fn are_reached(&self, rt: &impl Abort) {
        at_least(rt, "scripts that are shown", self.shown, 200);
        at_least(
            rt,
            "scripts with a line that is no command",
            self.no_commands,
            30,
        );
        at_least(rt, "scripts with a line that is refused", self.refused, 30);
    }
}

/// Whether the movie of the script of a seed is shown as the plain program shows it.
fn script_is_shown(rt: &impl Abort, alloc: Global, seed: u64, scripts: &mut Scripts) -> bool {
    let script = random_script(rt, alloc, &mut Random::new(seed));
    let shown = show_text(alloc, script.text.as_bytes());
    let expected = plain::show_text(rt, alloc, script.text.as_bytes());
    scripts.add(&shown);
    is_fault_of(&script, &shown) && are_same(rt, alloc, &shown, &expected)
}

/// The lists of all tracks of a movie, or the first fault of the script that makes it, with the number of its
/// line. Of the 500 scripts here 364 are shown; 66 are at fault since a line is no command, and 70 since one
/// is refused.
#[test]
fn the_movies_of_five_hundred_scripts_are_shown_as_by_a_plain_program(rt: HostRuntime) {
    let mut scripts = Scripts {
        shown: 0,
        no_commands: 0,
        refused: 0,
    };
    for seed in 0..500 {
        let is_shown = script_is_shown(&rt, rt.alloc(), seed, &mut scripts);
        assert_that(&rt, seed, is_shown);
    }
    scripts.are_reached(&rt);
}
