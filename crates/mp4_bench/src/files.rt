//! Files of tracks with such tables.

use crate::parts::{Names, Parts};
use crate::tables::Lists;
use mp4_plain_movies::calls::Media;
use mp4_plain_movies::listed_calls::{SMALL, STEREO};
use mp4_plain_movies::movie_bytes::EMPTY_MOVIE;
use mp4_plain_movies::plain_bytes::{begin_box, end_box, put};
use mp4_plain_movies::plain_entries::{put_description, put_media_header};
use mp4_plain_movies::random::Random;
use std::alloc::{AllocError, Global};

/// Where the movie header begins in the empty movie.
const MOVIE_HEADER: usize = 56;

/// Where the data begins: after the file type and the header of the data.
pub const DATA: u64 = 40;

/// The parameter sets of the video.
const SEQUENCE: [u8; 24] =
    *b"\x67\x64\0\x1f\xac\xd9\x40\x50\x05\xbb\x01\x10\0\0\x03\0\x10\0\0\x03\x03\xc0\xf1\x83";

const PICTURE: [u8; 6] = *b"\x68\xeb\xe3\xcb\x22\xc0";

/// How many bytes are drawn for the data; they are repeated.
const PATTERN: usize = 65536;

/// Pieces of bytes, one after the other.
pub fn put_pieces(bytes: &mut Vec<u8>, pieces: &[&[u8]]) -> Result<(), AllocError> {
    for piece in pieces {
        bytes.extend_from_slice(piece)?;
    }
    Ok(())
}

/// Numbers of 32 bits, one after the other.
pub fn put_numbers(bytes: &mut Vec<u8>, numbers: &[u32]) -> Result<(), AllocError> {
    for number in numbers {
        put(bytes, *number)?;
    }
    Ok(())
}

/// A box of this payload.
pub fn put_box(bytes: &mut Vec<u8>, kind: &[u8], payload: &[u8]) -> Result<(), AllocError> {
    let start = begin_box(bytes, kind)?;
    bytes.extend_from_slice(payload)?;
    end_box(bytes, start);
    Ok(())
}

/// The file type and the header of a movie.
pub fn put_file_type(bytes: &mut Vec<u8>) -> Result<(), AllocError> {
    bytes.extend_from_slice(&EMPTY_MOVIE[..32])
}

/// The movie header.
pub fn put_movie_header(bytes: &mut Vec<u8>) -> Result<(), AllocError> {
    bytes.extend_from_slice(&EMPTY_MOVIE[MOVIE_HEADER..])
}

/// Bytes at random.
pub fn pattern(alloc: Global, random: &mut Random) -> Result<Vec<u8>, AllocError> {
    let mut bytes = Vec::with_capacity(alloc, PATTERN)?;
    for _ in 0..PATTERN / 4 {
        put(&mut bytes, random.next())?;
    }
    Ok(bytes)
}

/// The box of the data: so many bytes and a few more.
pub fn put_data(bytes: &mut Vec<u8>, pattern: &[u8], count: u64) -> Result<(), AllocError> {
    let start = begin_box(bytes, b"mdat")?;
    for _ in 0..count / PATTERN as u64 {
        bytes.extend_from_slice(pattern)?;
    }
    bytes.extend_from_slice(pattern)?;
    end_box(bytes, start);
    Ok(())
}

/// The tables of a track, in their box.
fn put_tables(bytes: &mut Vec<u8>, media: &Media, lists: &Lists) -> Result<(), AllocError> {
    let start = begin_box(bytes, b"stbl")?;
    put_description(bytes, media, 1000)?;
    lists.put(bytes)?;
    end_box(bytes, start);
    Ok(())
}

/// The media of a track, in their box.
fn put_media(
    bytes: &mut Vec<u8>,
    parts: &Parts,
    names: &Names,
    media: &Media,
    lists: &Lists,
) -> Result<(), AllocError> {
    let start = begin_box(bytes, b"mdia")?;
    parts.put_media_headers(bytes, names)?;
    let information = begin_box(bytes, b"minf")?;
    put_media_header(bytes, media)?;
    parts.put_data_information(bytes)?;
    put_tables(bytes, media, lists)?;
    end_box(bytes, information);
    end_box(bytes, start);
    Ok(())
}

/// A track.
fn put_track(
    bytes: &mut Vec<u8>,
    parts: &Parts,
    names: &Names,
    media: &Media,
    lists: &Lists,
) -> Result<(), AllocError> {
    let track = begin_box(bytes, b"trak")?;
    parts.put_track_header(bytes, names)?;
    put_media(bytes, parts, names, media, lists)?;
    end_box(bytes, track);
    Ok(())
}

/// The first track, of video with parameter sets.
pub fn put_video(bytes: &mut Vec<u8>, parts: &Parts, lists: &Lists) -> Result<(), AllocError> {
    let media = Media::Avc(SMALL, &SEQUENCE, &PICTURE);
    put_track(
        bytes,
        parts,
        &Names::of_video(lists.duration),
        &media,
        lists,
    )
}

/// The second track, of sound.
pub fn put_sound(bytes: &mut Vec<u8>, parts: &Parts, lists: &Lists) -> Result<(), AllocError> {
    let media = Media::Aac(STEREO);
    put_track(
        bytes,
        parts,
        &Names::of_sound(lists.duration),
        &media,
        lists,
    )
}

/// A track of text.
pub fn put_text(
    bytes: &mut Vec<u8>,
    parts: &Parts,
    id: u32,
    lists: &Lists,
) -> Result<(), AllocError> {
    let names = Names::of_text(id, lists.duration);
    put_track(bytes, parts, &names, &Media::Text, lists)
}
