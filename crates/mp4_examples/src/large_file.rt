//! A sample out of a file of any size: only its bytes are read.

use crate::seek::decode_from;
use mp4_media::{ByteSource, FileError, Mp4File};

/// Reads the bytes of the sample from which to decode into a buffer, and answers its start.
pub fn read_sync_sample<S: ByteSource + Drop>(
    file: &mut Mp4File<S>,
    track_id: u32,
    time: u64,
    buffer: &mut Vec<u8>,
) -> Result<Option<u64>, FileError> {
    let Some(track) = file.tracks().get(&track_id) else {
        return Ok(None);
    };
    let Some(number) = decode_from(track, time) else {
        return Ok(None);
    };
    let place = file.read_sample_into(track_id, number, buffer)?;
    Ok(place.map(|place| place.start_time))
}
