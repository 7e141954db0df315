//! The lines of a track's samples.

ghost use Rattle.std.specs.Prelude.{◌≡◌, ◌+◌, ◌<◌, ◌≤◌, ◌∷◌, ◌++◌, drop, OnOk};
ghost use Rattle.std.specs.Fmt.{decimal, signed_decimal};
ghost use Rattle.mp4_script.specs.Listing.{sample_line};

use crate::info::open_whole;
use itoa::write_digits;
use mp4_media::{ByteSource, Error, FileError, Movie, Place, Result, Samples, read_mp4};
use std::alloc::{AllocError, Global};

/// Room for the longest line: seven numbers of at most 20 digits, a minus, and a byte after each number.
const LINE: usize = 148;

/// Where the next sample that can be read lies: None where there is none. `EndOfData` where it doesn't lie whole in the
/// file of `len` bytes, as reading it answers.
fn next_place(samples: &mut Samples, len: u64) -> Result<Option<Place>> {
    let Some(place) = samples.next() else {
        return Ok(None);
    };
    let place = place?;
    if place.offset > len || len - place.offset < u64::from(place.size) {
        return Err(Error::EndOfData);
    }
    Ok(Some(place))
}

/// Writes a number and this byte after it, which end at `end`, and answers where they begin.
#[tactic(auto, using(crate::proofs::Digits::digits))]
fn put_number(line: &mut [u8; LINE], end: usize, number: u64, after: u8) -> usize
    requires room { 21 ≤ end }
    requires within { end ≤ 148 }
    ensures few { end ≤ result + 21 }
    ensures before { result < end }
    ensures written { drop result line.new ≡ decimal number ++ after ∷ drop end line.old }
{
    line[end - 1] = after;
    write_digits(number, line, end - 1)
}

/// Writes a number, after a minus where it is below 0, and a space after it, which end at `end`, and answers where
/// they begin.
fn put_offset(line: &mut [u8; LINE], end: usize, offset: i32) -> usize
    requires room { 22 ≤ end }
    requires within { end ≤ 148 }
    ensures few { end ≤ result + 22 }
    ensures before { result < end }
    ensures written { drop result line.new ≡ signed_decimal offset ++ 32 ∷ drop end line.old }
{
    let start = put_number(line, end, u64::from(offset.unsigned_abs()), b' ');
    if offset >= 0 {
        return start;
    }
    line[start - 1] = b'-';
    start - 1
}

/// Writes the line of a sample that lies there so that it ends where the room does, and answers where it begins.
///
/// It is put together from its end, as digits are found: the same bytes as `writeln!` of the seven numbers gives, at a
/// fraction of its instructions.
fn write_line(line: &mut [u8; LINE], k: u32, place: Place) -> usize
    ensures written { drop result line.new
        ≡ sample_line k place.offset place.size place.start_time place.duration place.rendering_offset place.is_sync }
    ensures within { result < 148 }
{
    let start = put_number(line, LINE, u64::from(place.is_sync), b'\n');
    let start = put_offset(line, start, place.rendering_offset);
    let start = put_number(line, start, u64::from(place.duration), b' ');
    let start = put_number(line, start, place.start_time, b' ');
    let start = put_number(line, start, u64::from(place.size), b' ');
    let start = put_number(line, start, place.offset, b' ');
    put_number(line, start, u64::from(k), b' ')
}

/// Writes the line of a sample that lies there.
fn put_place(text: &mut Vec<u8>, k: u32, place: Place) -> std::result::Result<(), AllocError>
    ensures { OnOk result (text.new.items ≡ text.old.items
        ++ sample_line k place.offset place.size place.start_time place.duration place.rendering_offset place.is_sync) }
{
    let mut line = [0u8; LINE];
    let start = write_line(&mut line, k, place);
    text.extend_from_slice(&line[start..])
}

/// Writes the line of a sample. The answer is whether there is one: no line follows that of one that isn't there.
fn write_sample(text: &mut Vec<u8>, k: u32, place: &Result<Option<Place>>) -> Result<bool> {
    match place {
        Ok(Some(place)) => {
            put_place(text, k, *place)?;
            Ok(true)
        }
        Ok(None) => {
            let line = format!(in *text.allocator(); "{k} none\n")?;
            text.extend_from_slice(line.as_bytes())?;
            Ok(false)
        }
        Err(error) => {
            let line = format!(in *text.allocator(); "{k} {error}\n")?;
            text.extend_from_slice(line.as_bytes())?;
            Ok(false)
        }
    }
}

/// Writes the lines of the samples of a track of a file of `len` bytes, up to the first that isn't there.
pub(crate) fn write_samples(text: &mut Vec<u8>, movie: &Movie, len: u64, id: u32) -> Result<()> {
    let track = movie.track(id)?;
    let mut samples = track.samples();
    for k in 1..=track.sample_count()? {
        if !write_sample(text, k, &next_place(&mut samples, len))? {
            break;
        }
    }
    Ok(())
}

/// A line for each sample of a track: its number, its place in the file, its bytes, when it is decoded, how long it
/// lasts, how much later it is shown, in ticks of the track, and 1 for a sync sample or 0. A number without a sample is
/// `none`, and one that can't be read says why; either ends the lines.
///
/// Refused as the movie's opening is, with `TrakNotFound` for an id that no track has, as the count of its samples is,
/// and where memory runs out.
pub fn samples_text(alloc: Global, file: &[u8], track_id: u32) -> Result<Vec<u8>> {
    let movie = read_mp4(alloc, file)?;
    let mut text = Vec::new(alloc);
    write_samples(&mut text, &*movie, file.len() as u64, track_id)?;
    Ok(text)
}

/// What [`samples_text`] says of the file of all bytes of a source: no byte of a sample is read.
///
/// Refused as the file's opening is, with `TrakNotFound` for an id that no track has, as the count of its samples is,
/// and where memory runs out.
pub fn file_samples_text<S: ByteSource + Drop>(
    alloc: Global,
    source: S,
    track_id: u32,
) -> std::result::Result<Vec<u8>, FileError> {
    let file = open_whole(alloc, source)?;
    let mut text = Vec::new(alloc);
    write_samples(&mut text, &*file, file.source_len(), track_id)?;
    Ok(text)
}
