//! What a file answers of the samples of its tracks.

use crate::sought::{SoughtFile, is_read_alike, is_read_into_alike, read_again};
use mp4_cases::refusals::{refusal, unless};
use mp4_media::{
    Comparisons, Error, Mp4Reader, Mp4Sample, SamplePlace, SampleRef, Samples, read_mp4,
};
use std::alloc::{AllocError, Global};
use std::fmt::Write;
use std::str;

/// How many samples are walked over to the one that is asked for, at most.
const MOST_WALKED: u32 = 100;

/// A file that was opened, and its bytes.
#[derive(Drop)]
pub struct OpenedFile<'a> {
    pub bytes: &'a [u8],
    pub movie: Mp4Reader<'a>,
    /// The same file, read as one on a disk is.
    pub sought: SoughtFile<'a>,
    /// What its samples are read into.
    pub buffer: Vec<u8>,
}

/// Writes two digits for each byte.
fn write_digits(text: &mut String, bytes: &[u8]) -> Result<(), AllocError> {
    for byte in bytes {
        write!(text, "{byte:02x}")?;
    }
    Ok(())
}

/// Writes bytes: a text where all are letters or digits, else two digits for each.
fn write_bytes(text: &mut String, bytes: &[u8]) -> Result<(), AllocError> {
    match str::from_utf8(bytes) {
        Ok(letters) if bytes.iter().all(u8::is_ascii_alphanumeric) => write!(text, "'{letters}'"),
        _ => write_digits(text, bytes),
    }
}

/// Where sample `k` of a track is.
pub fn located(movie: &Mp4Reader, id: u32, k: u32) -> Result<Option<SamplePlace>, Error> {
    movie.track(id)?.locate(k)
}

/// Whether the next of the samples that are given in order is as it was located.
fn is_next(samples: &mut Samples, located: &Result<Option<SamplePlace>, Error>) -> bool {
    match (samples.next(), located) {
        (Some(Ok(one)), Ok(Some(other))) => one == other.place(),
        (Some(Err(one)), Err(other)) => one == *other && samples.next().is_none(),
        (None, Ok(None)) => samples.next().is_none(),
        _ => false,
    }
}

/// Whether sample `k` of a track is given in order as it was located: as the first from its number on, and after each
/// of the three before it, if that one is there.
fn is_in_order(
    movie: &Mp4Reader,
    id: u32,
    k: u32,
    located: &Result<Option<SamplePlace>, Error>,
) -> bool {
    let Some(track) = movie.tracks().get(&id) else {
        return true;
    };
    let mut all = true;
    for first in k.saturating_sub(3)..=k {
        let mut samples = track.samples_from(first);
        let before = k.saturating_sub(first);
        let given = samples
            .by_ref()
            .take(before as usize)
            .filter(|place| place.is_ok())
            .count();
        if given == before as usize {
            all = all && is_next(&mut samples, located);
        }
    }
    all
}

/// Whether sample `k` of a track is given with its bytes, by a walk from the first on, as it is read by its number, if
/// those before it are there.
fn is_read_in_order(
    movie: &Mp4Reader,
    id: u32,
    k: u32,
    read: &Result<Option<SampleRef>, Error>,
) -> bool {
    let Ok(mut samples) = movie.samples(id) else {
        return *read == Err(Error::TrakNotFound(id));
    };
    for _ in 1..k.min(MOST_WALKED) {
        if !matches!(samples.next(), Some(Ok(_))) {
            return samples.next().is_none();
        }
    }
    k == 0
        || k > MOST_WALKED
        || match (samples.next(), read) {
            (Some(Ok(one)), Ok(Some(other))) => one == *other,
            (Some(Err(one)), Err(other)) => one == *other && samples.next().is_none(),
            (None, Ok(None)) => samples.next().is_none(),
            _ => false,
        }
}

/// Writes where a sample is: offset, size, start time, duration, rendering offset, and whether it is a sync sample.
fn write_place(text: &mut String, place: &SamplePlace) -> Result<(), AllocError> {
    let sync = if place.is_sync { "sync" } else { "-" };
    write!(
        text,
        "{} {} {} {} {} {sync}",
        place.offset, place.size, place.start_time, place.duration, place.rendering_offset
    )
}

/// Writes where a sample is, that there is none, or why it is refused.
fn write_located(
    text: &mut String,
    located: &Result<Option<SamplePlace>, Error>,
) -> Result<(), AllocError> {
    match located {
        Ok(Some(place)) => write_place(text, place),
        Ok(None) => text.push_str("none"),
        Err(error) => write!(text, "refused: {error}"),
    }
}

/// Writes the bytes of a sample that was located, or why they aren't read.
fn write_read(
    text: &mut String,
    read: &Result<Option<SampleRef>, Error>,
) -> Result<(), AllocError> {
    text.push_str(" ")?;
    match read {
        Ok(Some(sample)) => write_bytes(text, sample.bytes),
        Ok(None) => text.push_str("none"),
        Err(error) => write!(text, "refused: {error}"),
    }
}

/// The bytes at a place; None where they aren't all in the file.
fn bytes_at<'a>(bytes: &'a [u8], place: &SamplePlace) -> Option<&'a [u8]> {
    let start = usize::try_from(place.offset).ok()?;
    let end = start.checked_add(place.size as usize)?;
    bytes.get(start..end)
}

/// Whether a sample is as it was located.
fn is_at(place: &SamplePlace, sample: &SampleRef) -> bool {
    place.offset == sample.offset
        && place.start_time == sample.start_time
        && place.duration == sample.duration
        && place.rendering_offset == sample.rendering_offset
        && place.is_sync == sample.is_sync
}

/// Whether what is read of a sample is what the bytes have where it was located.
fn is_read_there(
    bytes: &[u8],
    located: &Result<Option<SamplePlace>, Error>,
    read: &Result<Option<SampleRef>, Error>,
) -> bool {
    match (located, read) {
        (Ok(Some(place)), Ok(Some(sample))) => {
            is_at(place, sample) && bytes_at(bytes, place) == Some(sample.bytes)
        },
        (Ok(Some(place)), Err(Error::EndOfData)) => bytes_at(bytes, place).is_none(),
        (Ok(None), Ok(None)) => true,
        (Err(one), Err(other)) => one == other,
        _ => false,
    }
}

/// Whether a copied sample is equal to a borrowed one.
fn is_equal(copied: &Mp4Sample, borrowed: &SampleRef) -> bool {
    copied.start_time == borrowed.start_time
        && copied.duration == borrowed.duration
        && copied.rendering_offset == borrowed.rendering_offset
        && copied.is_sync == borrowed.is_sync
        && copied.bytes.as_slice() == borrowed.bytes
}

/// A copy of sample `k` of a track, which is made once more where memory is refused.
fn copied_again(movie: &mut Mp4Reader, id: u32, k: u32) -> Result<Option<Mp4Sample>, Error> {
    match movie.read_sample(id, k) {
        Err(Error::OutOfMemory) => movie.read_sample(id, k),
        answer => answer,
    }
}

/// Whether a sample is copied as it is borrowed.
fn is_copied(
    copied: &Result<Option<Mp4Sample>, Error>,
    borrowed: &Result<Option<SampleRef>, Error>,
) -> bool {
    match (copied, borrowed) {
        (Ok(Some(one)), Ok(Some(other))) => is_equal(one, other),
        (Ok(None), Ok(None)) => true,
        (Err(one), Err(other)) => one == other,
        _ => false,
    }
}

/// Writes what sample `k` of a track is answered with: where it is, and its bytes where they are asked for.
fn write_sample(
    text: &mut String,
    file: &mut OpenedFile,
    id: u32,
    k: u32,
    has_bytes: bool,
) -> Result<(), AllocError> {
    let located = located(&file.movie, id, k);
    let read = file.movie.read_sample_ref(id, k);
    write_located(text, &located)?;
    if has_bytes && matches!(&located, Ok(Some(_))) {
        write_read(text, &read)?;
    }
    let there = is_read_there(file.bytes, &located, &read);
    let in_order = is_in_order(&file.movie, id, k, &located)
        && is_read_in_order(&file.movie, id, k, &read);
    let copied = is_copied(&copied_again(&mut file.movie, id, k), &read);
    let sought = is_read_alike(&read_again(&mut file.sought, id, k), &read)
        && is_read_into_alike(&mut file.sought, id, k, &mut file.buffer, &read);
    write!(
        text,
        "{}{}{}{}",
        unless(there, ", read as another"),
        unless(in_order, ", in order as another"),
        unless(copied, ", copied as another"),
        unless(sought, ", sought as another")
    )
}

/// Where sample `k` of a track is.
pub fn place(alloc: Global, file: &mut OpenedFile, id: u32, k: u32) -> Result<String, AllocError> {
    let mut text = String::new(alloc);
    write_sample(&mut text, file, id, k, false)?;
    Ok(text)
}

/// Where sample `k` of a track is, and its bytes.
pub fn sample(alloc: Global, file: &mut OpenedFile, id: u32, k: u32) -> Result<String, AllocError> {
    let mut text = String::new(alloc);
    write_sample(&mut text, file, id, k, true)?;
    Ok(text)
}

/// Writes sample `k` of a track and its bytes after those before.
fn write_next(text: &mut String, file: &mut OpenedFile, id: u32, k: u32) -> Result<(), AllocError> {
    if !text.is_empty() {
        text.push_str(" / ")?;
    }
    write_sample(text, file, id, k, true)
}

/// So many samples of a track, one after the other.
fn first_samples(
    alloc: Global,
    file: &mut OpenedFile,
    id: u32,
    count: u32,
) -> Result<String, AllocError> {
    let mut text = String::new(alloc);
    for k in 1..=count {
        write_next(&mut text, file, id, k)?;
    }
    Ok(text)
}

/// The samples of a track, one after the other.
pub fn samples(alloc: Global, file: &mut OpenedFile, id: u32) -> Result<String, AllocError> {
    match file.movie.sample_count(id) {
        Ok(count) => first_samples(alloc, file, id, count),
        Err(error) => refusal(alloc, &error),
    }
}

/// What the numbers are answered with that no sample of a track with so many has.
fn samples_outside(
    alloc: Global,
    file: &mut OpenedFile,
    id: u32,
    count: u32,
) -> Result<String, AllocError> {
    let mut text = String::new(alloc);
    for k in [0, count.saturating_add(1), u32::MAX] {
        write_next(&mut text, file, id, k)?;
    }
    Ok(text)
}

/// What the numbers 0, the one after the last sample of a track, and 4294967295 are answered with.
pub fn outside(alloc: Global, file: &mut OpenedFile, id: u32) -> Result<String, AllocError> {
    match file.movie.sample_count(id) {
        Ok(count) => samples_outside(alloc, file, id, count),
        Err(error) => refusal(alloc, &error),
    }
}

/// The names of the counts of a lookup.
const COUNTS: [&str; 6] = ["stsc", "stts", "ctts", "stss", "runs", "sizes"];

/// How many numbers were compared in each table to find a sample, and how many sizes were read.
fn counts_of(place: &SamplePlace) -> [u32; 6] {
    let Comparisons {
        stsc,
        stts,
        ctts,
        stss,
        runs,
    } = place.comparisons;
    [stsc, stts, ctts, stss, runs, place.size_reads]
}

/// The least and the most counts of some lookups.
#[derive(Clone, Copy)]
struct CountRanges {
    least: [u32; 6],
    most: [u32; 6],
}

impl CountRanges {
    /// Those of no lookup.
    fn new() -> Self {
        CountRanges {
            least: [u32::MAX; 6],
            most: [0; 6],
        }
    }

    /// Adds the counts of a lookup.
    fn add(&mut self, counts: &[u32; 6]) {
        for (least, count) in self.least.iter_mut().zip(counts.iter()) {
            *least = (*least).min(*count);
        }
        for (most, count) in self.most.iter_mut().zip(counts.iter()) {
            *most = (*most).max(*count);
        }
    }
}

/// Writes a count after its name, and after those before: `stsc 1`, or `stsc 1..3` where samples differ.
fn write_count(text: &mut String, name: &str, least: u32, most: u32) -> Result<(), AllocError> {
    let separator = if text.is_empty() { "" } else { ", " };
    if most > least {
        write!(text, "{separator}{name} {least}..{most}")
    } else {
        write!(text, "{separator}{name} {least}")
    }
}

/// All counts, each after its name.
fn counts_text(alloc: Global, ranges: &CountRanges) -> Result<String, AllocError> {
    let CountRanges { least, most } = *ranges;
    let mut text = String::new(alloc);
    for ((name, least), most) in COUNTS.iter().zip(least).zip(most) {
        write_count(&mut text, name, least, most)?;
    }
    Ok(text)
}

/// How many numbers were compared in each table to find each of these samples of a track that is there, and how many
/// sizes were read.
fn count_ranges(movie: &Mp4Reader, id: u32, first: u32, last: u32) -> Result<CountRanges, Error> {
    let mut ranges = CountRanges::new();
    for k in first..=last {
        if let Some(place) = located(movie, id, k)? {
            ranges.add(&counts_of(&place));
        }
    }
    Ok(ranges)
}

/// The same as a text.
pub fn comparisons(
    alloc: Global,
    movie: &Mp4Reader,
    id: u32,
    first: u32,
    last: u32,
) -> Result<String, AllocError> {
    match count_ranges(movie, id, first, last) {
        Ok(ranges) => counts_text(alloc, &ranges),
        Err(error) => refusal(alloc, &error),
    }
}

/// A sample without where it lies.
fn without_place(sample: Option<SampleRef<'_>>) -> Option<SampleRef<'_>> {
    let sample = sample?;
    Some(SampleRef {
        offset: 0,
        ..sample
    })
}

/// Whether two samples of a track are equal but for where they lie, as they are borrowed, and as they are copied.
fn are_equal(movie: &mut Mp4Reader, id: u32, one: u32, other: u32) -> Result<(bool, bool), Error> {
    let is_borrowed = without_place(movie.read_sample_ref(id, one)?)
        == without_place(movie.read_sample_ref(id, other)?);
    let is_copied = movie.read_sample(id, one)? == movie.read_sample(id, other)?;
    Ok((is_borrowed, is_copied))
}

/// The same as a text.
pub fn compared(
    alloc: Global,
    movie: &mut Mp4Reader,
    id: u32,
    one: u32,
    other: u32,
) -> Result<String, AllocError> {
    match are_equal(movie, id, one, other) {
        Ok((true, true)) => String::from_str(alloc, "equal"),
        Ok((false, false)) => String::from_str(alloc, "different"),
        Ok(_) => String::from_str(alloc, "equal in one way"),
        Err(error) => refusal(alloc, &error),
    }
}

/// A sample that is kept after the movie that it was read of.
pub fn kept(alloc: Global, bytes: &[u8], id: u32, k: u32) -> Result<Option<SampleRef<'_>>, Error> {
    read_mp4(alloc, bytes)?.read_sample_ref(id, k)
}
