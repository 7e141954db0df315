//! How the tests ask an opened movie for its samples. Each call that is slow to prove is in one small function here.

use crate::walked_lookup::WalkedPlace;
use mp4_codec::{Error, Result};
use mp4_media::Mp4Reader;
use mp4_samples::{Mp4Sample, SamplePlace, SampleRef};

/// Whether both answers are refusals for the same reason.
pub fn are_same_refusal(one: &Error, other: &Error) -> bool {
    match (one, other) {
        (Error::InvalidData(_), Error::InvalidData(_)) => true,
        _ => one == other,
    }
}

/// What the track of an id locates.
fn located(reader: &Mp4Reader, id: u32, k: u32) -> Result<Option<SamplePlace>> {
    reader.track(id)?.locate(k)
}

/// Whether the track of an id locates sample `k` as expected, the texts of refusals left out.
pub fn locates(
    reader: &Mp4Reader,
    id: u32,
    k: u32,
    expected: &Result<Option<WalkedPlace>>,
) -> bool {
    match (located(reader, id, k), expected) {
        (Ok(None), Ok(None)) => true,
        (Ok(Some(place)), Ok(Some(walked))) => walked.is_same(&place),
        (Err(one), Err(other)) => are_same_refusal(&one, other),
        _ => false,
    }
}

/// Where sample `k` of a track lies, as it is located; 0 where it isn't.
pub fn offset_of(reader: &Mp4Reader, id: u32, k: u32) -> u64 {
    match located(reader, id, k) {
        Ok(Some(place)) => place.offset,
        _ => 0,
    }
}

/// A sample that lies there, its bytes borrowed from the one that holds them.
fn borrowed_by(sample: &Mp4Sample, offset: u64) -> SampleRef<'_> {
    SampleRef {
        offset,
        start_time: sample.start_time,
        duration: sample.duration,
        rendering_offset: sample.rendering_offset,
        is_sync: sample.is_sync,
        bytes: sample.bytes.as_slice(),
    }
}

/// Whether an answer is the expected one, the texts of refusals left out.
fn is_borrowed(answer: &Result<Option<SampleRef>>, expected: &Result<Option<SampleRef>>) -> bool {
    match (answer, expected) {
        (Ok(one), Ok(other)) => one == other,
        (Err(one), Err(other)) => are_same_refusal(one, other),
        _ => false,
    }
}

/// Whether an answer is the expected one, its bytes copied, the texts of refusals left out.
pub fn is_held(answer: &Result<Option<Mp4Sample>>, expected: &Result<Option<SampleRef>>) -> bool {
    match (answer, expected) {
        (Ok(None), Ok(None)) => true,
        (Ok(Some(one)), Ok(Some(other))) => borrowed_by(one, other.offset) == *other,
        (Err(one), Err(other)) => are_same_refusal(one, other),
        _ => false,
    }
}

/// Whether a sample is borrowed as expected.
pub fn lends(reader: &Mp4Reader, id: u32, k: u32, expected: &Result<Option<SampleRef>>) -> bool {
    is_borrowed(&reader.read_sample_ref(id, k), expected)
}

/// Whether a sample is borrowed and copied as expected.
pub fn reads(
    reader: &mut Mp4Reader,
    id: u32,
    k: u32,
    expected: &Result<Option<SampleRef>>,
) -> bool {
    lends(reader, id, k, expected) && is_held(&reader.read_sample(id, k), expected)
}

/// The bytes of a file at a place.
fn bytes_at<'a>(bytes: &'a [u8], place: &SamplePlace) -> Result<&'a [u8]> {
    let start = usize::try_from(place.offset).unwrap_or(usize::MAX);
    let end = start.saturating_add(place.size as usize);
    bytes.get(start..end).ok_or(Error::EndOfData)
}

/// What is read of a sample that was located there: `EndOfData` where it leaves the bytes.
fn sample_there<'a>(
    bytes: &'a [u8],
    located: Result<Option<SamplePlace>>,
) -> Result<Option<SampleRef<'a>>> {
    let Some(place) = located? else {
        return Ok(None);
    };
    let bytes = bytes_at(bytes, &place)?;
    Ok(Some(SampleRef {
        offset: place.offset,
        start_time: place.start_time,
        duration: place.duration,
        rendering_offset: place.rendering_offset,
        is_sync: place.is_sync,
        bytes,
    }))
}

/// Whether the file of these bytes lends and copies sample `k` of a track where that is located.
pub fn reads_there(bytes: &[u8], reader: &mut Mp4Reader, id: u32, k: u32) -> bool {
    let there = located(reader, id, k);
    reads(reader, id, k, &sample_there(bytes, there))
}
