//! The tables of a track that a test writes down, and the boxes around them, encoded byte by byte.

use crate::encoded::hex;
use crate::movie_bytes::EMPTY_MOVIE;
use crate::plain_bytes::{
    begin_box, end_box, put, put_chunks, put_durations, put_near_offsets, put_offsets,
    put_rendering_offsets, put_sizes, put_sync_samples,
};
use std::alloc::{AllocError, Global};

/// The boxes of the text track beside its tables, in texts that encode them.
pub const TKHD: &str = "0000005c 746b6864 00000001 00000000 00000000 00000001 00000000 000005dc \
    0000000000000000 0000 0000 0100 0000 00010000 00000000 00000000 00000000 00010000 00000000 00000000 \
    00000000 40000000 00000000 00000000 ";

pub const MDHD: &str = "00000020 6d646864 00000000 00000000 00000000 000003e8 000005dc 55c4 0000 ";

pub const HDLR: &str = "00000021 68646c72 00000000 00000000 7362746c 000000000000000000000000 00 ";

pub const DINF: &str =
    "00000024 64696e66 0000001c 64726566 00000000 00000001 0000000c 75726c20 00000001 ";

pub const STSD: &str = "0000003e 73747364 00000000 00000001 0000002e 74783367 000000000000 0001 \
    00000000 01ff 000000ff 0000000000000000 00000000 00010010 ffffffff ";

/// Where each chunk begins.
#[derive(Clone, Copy)]
pub enum Offsets<'a> {
    /// In 32 bits, by stco.
    Near(&'a [u32]),
    /// In 64 bits, by co64.
    Far(&'a [u64]),
}

/// The tables of a track.
#[derive(Clone, Copy)]
pub struct Tables<'a> {
    /// Runs of stts: how many samples, and how long each lasts.
    pub durations: &'a [(u32, u32)],
    /// Runs of ctts: how many samples, and how much later than it is decoded each is shown.
    pub rendering_offsets: Option<&'a [(u32, i32)]>,
    /// The numbers of stss.
    pub sync_samples: Option<&'a [u32]>,
    /// Entries of stsc: the first chunk, and how many samples each chunk has.
    pub chunks: &'a [(u32, u32)],
    /// The one size of stsz, 0 where sizes are listed.
    pub size: u32,
    /// How many samples stsz counts.
    pub count: u32,
    /// The sizes that are listed.
    pub sizes: &'a [u32],
    /// Where each chunk begins.
    pub offsets: Offsets<'a>,
}

/// Three samples of one byte each, in one chunk at 100.
pub const THREE: Tables<'static> = Tables {
    durations: &[(3, 1)],
    rendering_offsets: None,
    sync_samples: None,
    chunks: &[(1, 3)],
    size: 1,
    count: 3,
    sizes: &[],
    offsets: Offsets::Far(&[100]),
};

/// The tables of three text samples in two chunks.
pub const TEXT: Tables<'static> = Tables {
    durations: &[(3, 500)],
    rendering_offsets: None,
    sync_samples: Some(&[1, 2, 3]),
    chunks: &[(1, 2), (2, 1)],
    size: 0,
    count: 3,
    sizes: &[3, 3, 2],
    offsets: Offsets::Far(&[48, 54]),
};

/// The tables as the children of a stbl.
fn written_tables(alloc: Global, tables: &Tables) -> Result<Vec<u8>, AllocError> {
    let mut bytes = hex(alloc, STSD)?;
    put_durations(&mut bytes, tables.durations)?;
    if let Some(runs) = tables.rendering_offsets {
        put_rendering_offsets(&mut bytes, runs)?;
    }
    if let Some(numbers) = tables.sync_samples {
        put_sync_samples(&mut bytes, numbers)?;
    }
    put_chunks(&mut bytes, tables.chunks)?;
    put_sizes(&mut bytes, tables.size, tables.count, tables.sizes)?;
    match tables.offsets {
        Offsets::Near(offsets) => put_near_offsets(&mut bytes, offsets)?,
        Offsets::Far(offsets) => put_offsets(&mut bytes, offsets)?,
    }
    Ok(bytes)
}

/// What these texts encode, and after it a box of this type around a payload.
fn with_box(
    alloc: Global,
    texts: &[&str],
    kind: &[u8],
    payload: &[u8],
) -> Result<Vec<u8>, AllocError> {
    let mut bytes = Vec::new(alloc);
    for text in texts {
        bytes.extend_from_slice(&hex(alloc, text)?)?;
    }
    let size = u32::try_from(payload.len()).unwrap_or(0);
    put(&mut bytes, size.wrapping_add(8))?;
    bytes.extend_from_slice(kind)?;
    bytes.extend_from_slice(payload)?;
    Ok(bytes)
}

/// The payload of a track of these tables.
pub fn written_track(alloc: Global, tables: &Tables) -> Result<Vec<u8>, AllocError> {
    let tables = written_tables(alloc, tables)?;
    let information = with_box(alloc, &[DINF], b"stbl", &tables)?;
    let media = with_box(alloc, &[MDHD, HDLR], b"minf", &information)?;
    with_box(alloc, &[TKHD], b"mdia", &media)
}

/// Puts the movie of a track of id 1 that has these tables.
pub fn put_movie(alloc: Global, bytes: &mut Vec<u8>, tables: &Tables) -> Result<(), AllocError> {
    let payload = written_track(alloc, tables)?;
    let movie = begin_box(bytes, b"moov")?;
    bytes.extend_from_slice(&EMPTY_MOVIE[56..])?;
    let track = begin_box(bytes, b"trak")?;
    bytes.extend_from_slice(&payload)?;
    end_box(bytes, track);
    end_box(bytes, movie);
    Ok(())
}
