//! Samples and subtitles out of a file.

use crate::answer::Host;
use crate::faults::Fault;
use crate::files::STANDARD_STREAM;
use crate::new_file::{NewFile, write_whole};
use crate::progress::Progress;
use crate::question::{ExtractRequest, Target};
use mp4_extract::{
    ExtractError, SampleWriter, Subtitle, SubtitleReader, SubtitleTimes, write_line, write_srt,
};
use mp4_media::{ByteSource, Error, Mp4File};
use std::alloc::Global;
use std::fs;
use std::io::Write;
use std::rt::{Clock, Files};

/// How many samples are written between two looks at the clock.
const PIECE: u32 = 1000;

/// Writes samples one after the other, a piece at a time.
fn write_pieces<R: Clock + Eprint, S: ByteSource + Drop, W: Write>(
    progress: &mut Progress<R>,
    writer: &mut SampleWriter,
    movie: &mut Mp4File<S>,
    request: ExtractRequest,
    out: &mut W,
) -> Result<(), Fault> {
    let mut from = request.from;
    let mut left = request.count;
    for _ in 0..request.count.div_ceil(PIECE) {
        let piece = left.min(PIECE);
        let written = writer.write_samples(movie, from, piece, out)?;
        if written < piece {
            return Ok(());
        }
        from = from.saturating_add(written);
        left = left.saturating_sub(piece);
        progress.note(from);
    }
    Ok(())
}

/// Writes samples to one file, one after the other, while the file `read` is read.
fn write_file<R: Files + Clock + Eprint, S: ByteSource + Drop>(
    host: &Host<R>,
    progress: &mut Progress<R>,
    movie: &mut Mp4File<S>,
    read: &str,
    request: ExtractRequest,
    name: &str,
) -> Result<(), Fault> {
    let mut writer = SampleWriter::new(host.alloc, movie, request.track_id, request.format)?;
    let has_samples = writer.begins_at(movie, request.from)?;
    let mut file = NewFile::create(host.rt, host.alloc, name, read)?;
    let written = if has_samples {
        write_pieces(progress, &mut writer, movie, request, file.out())
    } else {
        Ok(())
    };
    file.finish(written)
}

/// Writes samples to standard output, one after the other.
fn print_samples<R: Files + Clock + Eprint, S: ByteSource + Drop, O: Write>(
    host: &Host<R>,
    progress: &mut Progress<R>,
    movie: &mut Mp4File<S>,
    request: ExtractRequest,
    out: &mut O,
) -> Result<(), Fault> {
    let mut writer = SampleWriter::new(host.alloc, movie, request.track_id, request.format)?;
    if writer.begins_at(movie, request.from)? {
        write_pieces(progress, &mut writer, movie, request, out)?;
    }
    Ok(())
}

/// Writes one sample to a file of its own; the answer is whether there is such a sample.
fn write_one<R: Files, S: ByteSource + Drop>(
    host: &Host<R>,
    writer: &mut SampleWriter,
    movie: &mut Mp4File<S>,
    read: &str,
    folder: &str,
    k: u32,
) -> Result<bool, Fault> {
    let mut bytes = Vec::new(host.alloc);
    if !writer.write_sample(movie, k, &mut bytes)? {
        return Ok(false);
    }
    let name = format!(in host.alloc; "{folder}/sample-{k:08}").map_err(Error::from)?;
    write_whole(host.rt, host.alloc, name.as_str(), read, bytes.as_slice())?;
    Ok(true)
}

/// Writes samples to files of their own in a folder, which is made where it isn't there.
fn write_folder<R: Files + Clock + Eprint, S: ByteSource + Drop>(
    host: &Host<R>,
    progress: &mut Progress<R>,
    movie: &mut Mp4File<S>,
    read: &str,
    request: ExtractRequest,
    folder: &str,
) -> Result<(), Fault> {
    let mut writer = SampleWriter::new(host.alloc, movie, request.track_id, request.format)?;
    let has_samples = writer.begins_at(movie, request.from)?;
    fs::create_dir_all(host.rt, folder).map_err(Fault::CannotWrite)?;
    let last = request.from.saturating_add(request.count.saturating_sub(1));
    if request.count == 0 || !has_samples {
        return Ok(());
    }
    for k in request.from..=last {
        if !write_one(host, &mut writer, movie, read, folder, k)? {
            break;
        }
        progress.note(k);
    }
    Ok(())
}

/// Writes the samples that are asked for, while the file `read` is read.
pub fn write_samples<R: Files + Clock + Eprint, S: ByteSource + Drop, O: Write>(
    host: &Host<R>,
    progress: &mut Progress<R>,
    movie: &mut Mp4File<S>,
    read: &str,
    request: ExtractRequest,
    out: &mut O,
) -> Result<(), Fault> {
    match request.target {
        Target::File(STANDARD_STREAM) => print_samples(host, progress, movie, request, out),
        Target::File(name) => write_file(host, progress, movie, read, request, name),
        Target::Folder(folder) => write_folder(host, progress, movie, read, request, folder),
    }
}

/// After so many refused samples the texts of a track end.
const MOST_REFUSED: u32 = 1000;

/// How the texts of a track are printed.
#[derive(Clone, Copy)]
pub struct TextLayout {
    /// As SubRip, else a line each.
    pub srt: bool,
    pub times: SubtitleTimes,
}

/// Prints a text that is shown; its number is one more than those before it.
fn write_subtitle<W: Write>(
    srt: bool,
    before: u64,
    subtitle: &Subtitle,
    out: &mut W,
) -> Result<(), Fault> {
    let written = if srt {
        write_srt(before.saturating_add(1), subtitle, out)
    } else {
        write_line(subtitle, out)
    };
    written.map_err(Fault::of_printing)
}

/// Prints the texts of a track one after the other to `out`, and to `err` a line for each sample of the file of this
/// name that is refused, up to [`MOST_REFUSED`] of them. The answer is whether any was.
pub fn print_subtitles<S: ByteSource + Drop, W: Write, E: Write>(
    alloc: Global,
    movie: &mut Mp4File<S>,
    track_id: u32,
    layout: TextLayout,
    name: &str,
    out: &mut W,
    err: &mut E,
) -> Result<bool, Fault> {
    let mut reader = SubtitleReader::new(alloc, movie, track_id, layout.times)?;
    let mut shown: u64 = 0;
    let mut refused: u32 = 0;
    for _ in 0..u64::MAX {
        let Some(answer) = reader.next(movie).filter(|_| refused < MOST_REFUSED) else {
            break;
        };
        match answer {
            Ok(subtitle) if subtitle.is_shown => {
                write_subtitle(layout.srt, shown, &subtitle, out)?;
                shown = shown.saturating_add(1);
            }
            Ok(_) => {}
            Err(ExtractError::OutOfMemory) => return Err(Fault::from(ExtractError::OutOfMemory)),
            Err(refusal) => {
                writeln!(err, "mp4_inspect: {name}: {refusal}").map_err(Fault::of_printing)?;
                refused = refused.saturating_add(1);
            }
        }
    }
    Ok(refused > 0)
}
