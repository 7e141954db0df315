//! Whether a file answers as a reader of its bytes in memory does.

use mp4_codec::Error;
use mp4_media::{
    ByteSource, FileError, Movie, Mp4File, Mp4Reader, Mp4Sample, Place, SamplePlace, SampleRef,
    is_equal_sample,
};
use std::io::ErrorKind;

/// Whether two movies have equal boxes, and as many tracks and bytes.
pub fn has_same_boxes(one: &Movie, other: &Movie) -> bool {
    one.ftyp == other.ftyp
        && one.moov == other.moov
        && one.moofs == other.moofs
        && one.emsgs == other.emsgs
        && one.size() == other.size()
        && one.tracks().len() == other.tracks().len()
        && one.sample_count(1) == other.sample_count(1)
}

/// A sample that lies there, its bytes borrowed from the one that holds them.
fn borrowed_by(sample: &Mp4Sample, offset: u64) -> SampleRef<'_> {
    SampleRef {
        offset,
        start_time: sample.start_time,
        duration: sample.duration,
        rendering_offset: sample.rendering_offset,
        is_sync: sample.is_sync,
        bytes: sample.bytes.as_slice(),
    }
}

/// A sample of this place that was read into a buffer.
fn borrowed_of<'b>(place: &SamplePlace, buffer: &'b [u8]) -> SampleRef<'b> {
    SampleRef {
        offset: place.offset,
        start_time: place.start_time,
        duration: place.duration,
        rendering_offset: place.rendering_offset,
        is_sync: place.is_sync,
        bytes: buffer,
    }
}

/// Whether an answer is the expected one.
pub fn is_read(
    answer: &Result<Option<Mp4Sample>, FileError>,
    expected: &Result<Option<SampleRef>, Error>,
) -> bool {
    match (answer, expected) {
        (Ok(None), Ok(None)) => true,
        (Ok(Some(sample)), Ok(Some(other))) => is_equal_sample(
            &borrowed_by(sample, other.offset),
            other,
        ),
        (Err(FileError::Mp4(one)), Err(other)) => *one == *other,
        _ => false,
    }
}

/// Whether an answer is the expected one, with the sample's bytes in this buffer.
pub fn is_read_into(
    answer: &Result<Option<SamplePlace>, FileError>,
    buffer: &[u8],
    expected: &Result<Option<SampleRef>, Error>,
) -> bool {
    match (answer, expected) {
        (Ok(None), Ok(None)) => true,
        (Ok(Some(place)), Ok(Some(other))) => is_equal_sample(&borrowed_of(place, buffer), other),
        (Err(FileError::Mp4(one)), Err(other)) => *one == *other,
        _ => false,
    }
}

/// Whether the bytes at a place are read as expected.
fn are_read(
    answer: &Result<(), FileError>,
    buffer: &[u8],
    expected: &Result<Option<SampleRef>, Error>,
) -> bool {
    match (answer, expected) {
        (Ok(()), Ok(Some(other))) => *buffer == *other.bytes,
        (Err(FileError::Mp4(one)), Err(other)) => *one == *other,
        _ => false,
    }
}

/// Where a track's sample lies, if it is found.
fn place_in<S: ByteSource>(file: &Mp4File<S>, id: u32, k: u32) -> Option<Place> {
    let place = file.tracks().get(&id)?.locate(k).ok()??;
    Some(place.place())
}

/// Whether a sample that is found is read at its place as expected.
fn reads_place<S: ByteSource + Drop>(
    file: &mut Mp4File<S>,
    id: u32,
    k: u32,
    buffer: &mut Vec<u8>,
    expected: &Result<Option<SampleRef>, Error>,
) -> bool {
    let Some(place) = place_in(file, id, k) else {
        return true;
    };
    let answer = file.read_place_into(place, buffer);
    are_read(&answer, buffer.as_slice(), expected)
}

/// Whether a sample is read as expected, by each call, into a buffer whose capacity stays.
fn reads<S: ByteSource + Drop>(
    file: &mut Mp4File<S>,
    id: u32,
    k: u32,
    buffer: &mut Vec<u8>,
    expected: &Result<Option<SampleRef>, Error>,
) -> bool {
    let capacity = buffer.capacity();
    let answer = file.read_sample_into(id, k, buffer);
    let is_same = is_read_into(&answer, buffer.as_slice(), expected)
        && reads_place(file, id, k, buffer, expected);
    is_same && buffer.capacity() == capacity && is_read(&file.read_sample(id, k), expected)
}

/// Whether all numbers of a track are read as a reader does, from 0 to the second past the last, into a buffer that has
/// room for each.
pub fn reads_track<S: ByteSource + Drop>(
    file: &mut Mp4File<S>,
    reader: &Mp4Reader,
    id: u32,
    buffer: &mut Vec<u8>,
) -> bool {
    let count = reader.sample_count(id).unwrap_or(0);
    let mut all = file.sample_count(id) == reader.sample_count(id);
    for k in 0..=count.saturating_add(2) {
        all = reads(file, id, k, buffer, &reader.read_sample_ref(id, k)) && all;
    }
    all
}

/// The kind of the error, if it is one of reading.
pub fn kind_of<T>(answer: &Result<T, FileError>) -> Option<ErrorKind> {
    match answer {
        Err(FileError::Io(error)) => Some(error.kind()),
        _ => None,
    }
}
