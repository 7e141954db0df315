//! Numbers, boxes and tables encoded byte by byte, without the library's boxes.

use std::alloc::AllocError;

/// A number of 32 bits.
pub fn put(bytes: &mut Vec<u8>, number: u32) -> Result<(), AllocError> {
    bytes.extend_from_slice(&number.to_be_bytes())
}

/// Two numbers of 32 bits.
pub fn put_pair(bytes: &mut Vec<u8>, first: u32, second: u32) -> Result<(), AllocError> {
    put(bytes, first)?;
    put(bytes, second)
}

/// Two numbers of 16 bits.
pub fn put_short_pair(bytes: &mut Vec<u8>, first: u16, second: u16) -> Result<(), AllocError> {
    bytes.extend_from_slice(&first.to_be_bytes())?;
    bytes.extend_from_slice(&second.to_be_bytes())
}

/// So many zero bytes.
pub fn put_zeros(bytes: &mut Vec<u8>, count: usize) -> Result<(), AllocError> {
    for _ in 0..count {
        bytes.push(0)?;
    }
    Ok(())
}

/// A box whose size isn't known yet. The answer is its place, for `end_box`.
pub fn begin_box(bytes: &mut Vec<u8>, kind: &[u8]) -> Result<usize, AllocError> {
    let start = bytes.len();
    put(bytes, 0)?;
    bytes.extend_from_slice(kind)?;
    Ok(start)
}

/// Writes a number over the bytes from a place on.
pub fn put_over(bytes: &mut Vec<u8>, start: usize, number: u32) {
    let mut place = start;
    for digit in number.to_be_bytes() {
        if let Some(byte) = bytes.get_mut(place) {
            *byte = digit;
        }
        place = place.wrapping_add(1);
    }
}

/// Ends the box that begins there: its size goes up to here.
pub fn end_box(bytes: &mut Vec<u8>, start: usize) {
    let size = u32::try_from(bytes.len().saturating_sub(start)).unwrap_or(0);
    put_over(bytes, start, size);
}

/// What is before the entries of a table, of so many bytes each.
fn put_head(bytes: &mut Vec<u8>, kind: &[u8], count: usize, each: u32) -> Result<(), AllocError> {
    let count = u32::try_from(count).unwrap_or(0);
    put(bytes, count.wrapping_mul(each).wrapping_add(16))?;
    bytes.extend_from_slice(kind)?;
    put_pair(bytes, 0, count)
}

/// An stts of runs: how many samples, and how long each lasts.
pub fn put_durations(bytes: &mut Vec<u8>, runs: &[(u32, u32)]) -> Result<(), AllocError> {
    put_head(bytes, b"stts", runs.len(), 8)?;
    for run in runs {
        put_pair(bytes, run.0, run.1)?;
    }
    Ok(())
}

/// A ctts of runs: how many samples, and how much later than it is decoded each is shown.
pub fn put_rendering_offsets(bytes: &mut Vec<u8>, runs: &[(u32, i32)]) -> Result<(), AllocError> {
    put_head(bytes, b"ctts", runs.len(), 8)?;
    for run in runs {
        put(bytes, run.0)?;
        bytes.extend_from_slice(&run.1.to_be_bytes())?;
    }
    Ok(())
}

/// An stss of these numbers.
pub fn put_sync_samples(bytes: &mut Vec<u8>, numbers: &[u32]) -> Result<(), AllocError> {
    put_head(bytes, b"stss", numbers.len(), 4)?;
    for number in numbers {
        put(bytes, *number)?;
    }
    Ok(())
}

/// An stsc of entries: the first chunk, and how many samples each chunk has.
pub fn put_chunks(bytes: &mut Vec<u8>, entries: &[(u32, u32)]) -> Result<(), AllocError> {
    put_head(bytes, b"stsc", entries.len(), 12)?;
    for entry in entries {
        put_pair(bytes, entry.0, entry.1)?;
        put(bytes, 1)?;
    }
    Ok(())
}

/// An stsz: the one size, 0 where sizes are listed, how many samples it counts, and the list.
pub fn put_sizes(
    bytes: &mut Vec<u8>,
    size: u32,
    count: u32,
    sizes: &[u32],
) -> Result<(), AllocError> {
    let listed = u32::try_from(sizes.len()).unwrap_or(0);
    put(bytes, listed.wrapping_mul(4).wrapping_add(20))?;
    bytes.extend_from_slice(b"stsz\0\0\0\0")?;
    put_pair(bytes, size, count)?;
    for size in sizes {
        put(bytes, *size)?;
    }
    Ok(())
}

/// A co64 of these places.
pub fn put_offsets(bytes: &mut Vec<u8>, offsets: &[u64]) -> Result<(), AllocError> {
    put_head(bytes, b"co64", offsets.len(), 8)?;
    for offset in offsets {
        bytes.extend_from_slice(&offset.to_be_bytes())?;
    }
    Ok(())
}

/// An stco of these places.
pub fn put_near_offsets(bytes: &mut Vec<u8>, offsets: &[u32]) -> Result<(), AllocError> {
    put_head(bytes, b"stco", offsets.len(), 4)?;
    for offset in offsets {
        put(bytes, *offset)?;
    }
    Ok(())
}
