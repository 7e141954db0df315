//! What a file says of its movie.

ghost use Rattle.std.specs.Prelude.{◌≡◌, length, map, min};
ghost use Rattle.mp4_c.specs.Answers.{done};
ghost use Rattle.mp4_c.specs.Movie.{GaveBrands, GaveInfo, brand_of, info_of};
ghost use Rattle.mp4_c.specs.Replies.{OnFile};
ghost use Rattle.mp4_c.specs.Rooms.{filled};

use crate::answer::Answer;
use crate::configs::Brand;
use crate::opened_file::opened;
use mp4_media::{FourCC, Mp4Reader};
use std::alloc::Global;

/// What a file says of its movie.
#[repr(C)]
#[derive(Clone, Copy, Debug, PartialEq, Eq)]
pub struct MovieInfo {
    /// The bytes of the file up to the end of its last box.
    pub size: u64,
    /// In ticks of the movie: the duration of its header.
    pub duration: u64,
    /// Seconds since the beginning of 1904, UTC, as its header says.
    pub creation_time: u64,
    /// Likewise, when it was last changed.
    pub modification_time: u64,
    /// How many tracks there are.
    pub track_count: u64,
    /// How many compatible brands there are.
    pub brand_count: u64,
    /// Ticks in a second, of the movie's duration.
    pub timescale: u32,
    /// The version of the major brand.
    pub minor_version: u32,
    /// The specification that the file follows first of all.
    pub major_brand: [u8; 4],
    /// 1 where the file has movie fragments, else 0.
    pub is_fragmented: u8,
    /// The version of the movie header.
    pub header_version: u8,
    /// Zeros.
    pub reserved: [u8; 2],
}

/// The size that the header says.
const _: () = prove!(size_of::<MovieInfo>() == 64);

/// What an opened file says of its movie.
fn movie_info(movie: &Mp4Reader) -> MovieInfo
    ensures { result ≡ info_of movie.now }
{
    MovieInfo {
        size: movie.size(),
        duration: movie.moov.mvhd.duration,
        creation_time: movie.moov.mvhd.creation_time,
        modification_time: movie.moov.mvhd.modification_time,
        track_count: movie.tracks().len() as u64,
        brand_count: movie.compatible_brands().len() as u64,
        timescale: movie.timescale(),
        minor_version: movie.minor_version(),
        major_brand: movie.major_brand().value,
        is_fragmented: u8::from(movie.is_fragmented()),
        header_version: movie.moov.mvhd.version,
        reserved: [0; 2],
    }
}

/// Fills in what an opened file says of its movie.
fn fill_info(movie: &Mp4Reader, info: &mut MovieInfo) -> Answer
    ensures { GaveInfo movie.now info.old info.new result }
{
    *info = movie_info(movie);
    Answer::done(movie.tracks().len() as u64, 1)
}

/// Opens a file, and fills in what it says of its movie. `count` is the number of its tracks. After a refusal nothing
/// is filled in.
#[unsafe(no_mangle)]
pub extern "C" fn mp4_c_open(alloc: Global, file: &[u8], info: &mut MovieInfo) -> Answer
    ensures { OnFile file.now GaveInfo info.old info.new result }
{
    match opened(alloc, file) {
        Ok(movie) => fill_info(&movie, info),
        Err(error) => Answer::refused(&error),
    }
}

/// Fills in brands in their order, as far as there is room.
fn fill_brands(brands: &[FourCC], rows: &mut [Brand]) -> Answer
    ensures rows { rows.new ≡ filled (map brand_of brands.now) rows.old }
    ensures answer { result ≡ done (length brands.now) (min (length rows.old) (length brands.now)) }
{
    for (k, row) in rows.iter_mut().enumerate() {
        if k >= brands.len() {
            return Answer::done(brands.len() as u64, k as u64);
        }
        *row = Brand {
            code: brands[k].value,
        };
    }
    Answer::done(brands.len() as u64, rows.len() as u64)
}

/// Fills in the compatible brands of an opened file.
fn list_brands(movie: &Mp4Reader, rows: &mut [Brand]) -> Answer
    ensures { GaveBrands movie.now rows.old rows.new result }
{
    fill_brands(movie.compatible_brands(), rows)
}

/// Fills in the compatible brands of a file, in their order, as far as there is room. `count` is how many there are.
#[unsafe(no_mangle)]
pub extern "C" fn mp4_c_brands(alloc: Global, file: &[u8], rows: &mut [Brand]) -> Answer
    ensures { OnFile file.now GaveBrands rows.old rows.new result }
{
    match opened(alloc, file) {
        Ok(movie) => list_brands(&movie, rows),
        Err(error) => Answer::refused(&error),
    }
}
