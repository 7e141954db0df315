//! Files as they are read from a disk: by what reads and seeks.

use mp4_media::{
    Error, FileError, Mp4File, Mp4Reader, Mp4Sample, Result, SamplePlace, SampleRef, SeekSource,
};
use std::alloc::Global;
use std::io::Cursor;

/// Bytes that are read as a file on a disk is.
pub type Source<'a> = SeekSource<Cursor<&'a [u8]>>;

/// An opened file whose samples are read where they lie.
pub type SoughtFile<'a> = Mp4File<Source<'a>>;

/// Where sample `k` of a track is, whose bytes are read into a buffer, once more where memory is refused.
fn read_into_again(
    file: &mut SoughtFile,
    id: u32,
    k: u32,
    buffer: &mut Vec<u8>,
) -> std::result::Result<Option<SamplePlace>, FileError> {
    match file.read_sample_into(id, k, buffer) {
        Err(FileError::Mp4(Error::OutOfMemory)) => file.read_sample_into(id, k, buffer),
        answer => answer,
    }
}

/// Whether sample `k` of a track is read into a buffer as it is borrowed.
pub fn is_read_into_alike(
    file: &mut SoughtFile,
    id: u32,
    k: u32,
    buffer: &mut Vec<u8>,
    borrowed: &Result<Option<SampleRef>>,
) -> bool {
    match (read_into_again(file, id, k, buffer), borrowed) {
        (Ok(Some(place)), Ok(Some(sample))) => {
            place.offset == sample.offset && buffer.as_slice() == sample.bytes
        },
        (Ok(None), Ok(None)) => true,
        (Err(FileError::Mp4(one)), Err(other)) => one == *other,
        _ => false,
    }
}

/// These bytes, to be read as a file is.
pub fn source_of(bytes: &[u8]) -> Source<'_> {
    SeekSource::new(Cursor::new(bytes))
}

/// The file of all these bytes.
fn opened(alloc: Global, bytes: &[u8]) -> std::result::Result<SoughtFile<'_>, FileError> {
    Mp4File::open(alloc, source_of(bytes), 0, bytes.len() as u64)
}

/// The file of all these bytes, which is opened once more where memory is refused.
pub fn open_sought(alloc: Global, bytes: &[u8]) -> std::result::Result<SoughtFile<'_>, FileError> {
    match opened(alloc, bytes) {
        Err(FileError::Mp4(Error::OutOfMemory)) => opened(alloc, bytes),
        answer => answer,
    }
}

/// Sample `k` of a track, which is read once more where memory is refused: that leaves the file as it was.
pub fn read_again(
    file: &mut SoughtFile,
    id: u32,
    k: u32,
) -> std::result::Result<Option<Mp4Sample>, FileError> {
    match file.read_sample(id, k) {
        Err(FileError::Mp4(Error::OutOfMemory)) => file.read_sample(id, k),
        answer => answer,
    }
}

/// Whether two movies have the same boxes, the same size and as many tracks.
fn is_same_movie(one: &Mp4Reader, other: &SoughtFile) -> bool {
    one.ftyp == other.ftyp
        && one.moov == other.moov
        && one.moofs == other.moofs
        && one.emsgs == other.emsgs
        && one.size() == other.size()
        && one.tracks().len() == other.tracks().len()
}

/// Whether bytes are opened as the same movie both ways, or refused for the same.
pub fn is_opened_alike(
    read: &Result<Mp4Reader>,
    sought: &std::result::Result<SoughtFile, FileError>,
) -> bool {
    match (read, sought) {
        (Ok(one), Ok(other)) => is_same_movie(one, other),
        (Err(one), Err(FileError::Mp4(other))) => one == other,
        _ => false,
    }
}

/// Whether a sample that is read where it lies is equal to a borrowed one.
fn is_same_sample(sought: &Mp4Sample, borrowed: &SampleRef) -> bool {
    sought.start_time == borrowed.start_time
        && sought.duration == borrowed.duration
        && sought.rendering_offset == borrowed.rendering_offset
        && sought.is_sync == borrowed.is_sync
        && sought.bytes.as_slice() == borrowed.bytes
}

/// Whether a sample is read where it lies as it is borrowed.
pub fn is_read_alike(
    sought: &std::result::Result<Option<Mp4Sample>, FileError>,
    borrowed: &Result<Option<SampleRef>>,
) -> bool {
    match (sought, borrowed) {
        (Ok(Some(one)), Ok(Some(other))) => is_same_sample(one, other),
        (Ok(None), Ok(None)) => true,
        (Err(FileError::Mp4(one)), Err(other)) => one == other,
        _ => false,
    }
}
