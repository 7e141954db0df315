//! What is asked of a file, answered.

use crate::extract::{print_subtitles, write_samples};
use crate::faults::{Fault, with_tracks};
use crate::files::{STANDARD_STREAM, is_regular, is_same_file, open, read_all};
use crate::new_file::write_whole;
use crate::progress::Progress;
use crate::question::{ExtractRequest, MovieQuestion, Question, Request, SubtitlesRequest};
use mp4_box_report::{why_of, write_boxes};
use mp4_media::{ByteSource, Error, FileError, Movie, Mp4File, SeekSource, Window};
use mp4_readable::JsonWriter;
use mp4_report::{
    Tag, cover_of, metadata_of, tags_of, tracks_of, tracks_past_end, write_samples as write_list,
};
use serde::Serialize;
use std::alloc::Global;
use std::fmt::Display;
use std::io::{Read, Write};
use std::rt::{Clock, Files};

/// The status of a run that succeeded.
pub const SUCCESS: u8 = 0;

/// The status of a run whose file is at fault, or can't be read or written.
pub const FAULT: u8 = 1;

/// What a run has of the system: its calls, memory, and whether its errors are read on a terminal.
#[derive(Drop)]
pub struct Host<'a, R> {
    pub rt: &'a R,
    pub alloc: Global,
    pub is_terminal: bool,
}

/// Prints a report as it is asked for: as a text, or as JSON.
fn print<T: Display + Serialize, O: Write>(
    alloc: Global,
    report: &T,
    json: bool,
    out: &mut O,
) -> Result<(), Fault> {
    let printed = if json {
        let written = report.serialize(&mut JsonWriter::new(alloc, &mut *out, 0));
        written.and_then(|()| out.write_all(b"\n"))
    } else {
        write!(out, "{report}")
    };
    printed.map_err(Fault::of_printing)
}

/// The file of all bytes of a source, which is read by blocks, so that samples that are neighbours are read together.
fn open_movie<S: ByteSource + Drop>(alloc: Global, source: S) -> Result<Mp4File<Window<S>>, Fault> {
    let mut window = Window::new(alloc, source).map_err(FileError::from)?;
    let size = window.len().map_err(Fault::CannotRead)?;
    Ok(Mp4File::open(alloc, window, 0, size)?)
}

/// Writes the picture of a movie to a file of this name, or to standard output, while the file `read` is read.
fn write_cover<R: Files, O: Write>(
    host: &Host<R>,
    movie: &Movie,
    name: &str,
    read: &str,
    out: &mut O,
) -> Result<(), Fault> {
    let Some(picture) = cover_of(movie) else {
        return Err(Fault::NoCover);
    };
    if name == STANDARD_STREAM {
        return out.write_all(picture).map_err(Fault::of_printing);
    }
    write_whole(host.rt, host.alloc, name, read, picture)
}

/// The metadata of a movie, whose picture is written to a file of this name, if there is one. Beside a picture on
/// standard output nothing else is printed.
fn metadata<R: Files, O: Write>(
    host: &Host<R>,
    movie: &Movie,
    tags: Vec<Tag>,
    read: &str,
    cover: Option<&str>,
    json: bool,
    out: &mut O,
) -> Result<(), Fault> {
    if let Some(name) = cover {
        write_cover(host, movie, name, read, out)?;
    }
    if cover == Some(STANDARD_STREAM) {
        return Ok(());
    }
    print(
        host.alloc,
        &metadata_of(host.alloc, movie, tags)?,
        json,
        out,
    )
}

/// Writes samples of a file; nothing else is printed.
fn extract<R: Files + Clock + Eprint, S: ByteSource + Drop, O: Write>(
    host: &Host<R>,
    movie: &mut Mp4File<S>,
    read: &str,
    request: ExtractRequest,
    out: &mut O,
) -> Result<(), Fault> {
    let mut progress = Progress::new(host.rt, host.is_terminal);
    let written = write_samples(host, &mut progress, movie, read, request, out);
    progress.finish();
    written
}

/// The texts of a track. The answer is the status: that of a fault where a sample is refused.
fn subtitles<S: ByteSource + Drop, O: Write, E: Write>(
    alloc: Global,
    movie: &mut Mp4File<S>,
    read: &str,
    request: SubtitlesRequest,
    out: &mut O,
    err: &mut E,
) -> Result<u8, Fault> {
    let SubtitlesRequest { track, layout } = request;
    if print_subtitles(alloc, movie, track, layout, read, out, err)? {
        return Ok(FAULT);
    }
    Ok(SUCCESS)
}

/// What is asked of a movie that opens. The answer is the status.
fn of_movie<R: Files + Clock + Eprint, S: ByteSource + Drop, O: Write, E: Write>(
    host: &Host<R>,
    movie: &mut Mp4File<S>,
    read: &str,
    question: MovieQuestion,
    out: &mut O,
    err: &mut E,
) -> Result<u8, Fault> {
    match question {
        MovieQuestion::Samples { samples, json } => {
            let file_size = movie.source_len();
            write_list(host.alloc, &*movie, file_size, samples, json, out)?;
        }
        MovieQuestion::Extract(request) => extract(host, movie, read, request, out)?,
        MovieQuestion::Subtitles(request) => {
            return subtitles(host.alloc, movie, read, request, out, err);
        }
    }
    Ok(SUCCESS)
}

/// What is asked of the movie that a source is. Where it has no such track, the fault says which it has.
fn of_source<R: Files + Clock + Eprint, S: ByteSource + Drop, O: Write, E: Write>(
    host: &Host<R>,
    source: S,
    read: &str,
    question: MovieQuestion,
    out: &mut O,
    err: &mut E,
) -> Result<u8, Fault> {
    let mut movie = open_movie(host.alloc, source)?;
    match of_movie(host, &mut movie, read, question, out, err) {
        Ok(status) => Ok(status),
        Err(fault) => Err(with_tracks(host.alloc, &*movie, fault)),
    }
}

/// The tracks of a file.
fn tracks<S: ByteSource + Drop, O: Write>(
    alloc: Global,
    source: S,
    json: bool,
    out: &mut O,
) -> Result<(), Fault> {
    let movie = open_movie(alloc, source)?;
    let report = tracks_of(alloc, &*movie, movie.source_len()).map_err(Error::from)?;
    print(alloc, &report, json, out)
}

/// Says why a file doesn't open, or that it does and which of its tracks have samples past its end, and answers the
/// status.
fn why<S: ByteSource + Drop, O: Write>(alloc: Global, source: S, out: &mut O) -> Result<u8, Fault> {
    let mut source = source;
    if let Some(report) = why_of(alloc, &mut source)? {
        writeln!(out, "{report}").map_err(Fault::of_printing)?;
        return Ok(FAULT);
    }
    out.write_all(b"opens\n").map_err(Fault::of_printing)?;
    print_past_end(alloc, &open_movie(alloc, source)?, out)?;
    Ok(SUCCESS)
}

/// Prints a line for each track that has samples past the end of its file.
fn print_past_end<S: ByteSource + Drop, O: Write>(
    alloc: Global,
    movie: &Mp4File<S>,
    out: &mut O,
) -> Result<(), Fault> {
    let tracks = tracks_past_end(alloc, movie, movie.source_len()).map_err(Error::from)?;
    for track in tracks.iter() {
        writeln!(out, "{track}").map_err(Fault::of_printing)?;
    }
    Ok(())
}

/// What is asked of a source. The answer is the status.
fn answer<R: Files + Clock + Eprint, S: ByteSource + Drop, O: Write, E: Write>(
    host: &Host<R>,
    source: S,
    request: Request,
    out: &mut O,
    err: &mut E,
) -> Result<u8, Fault> {
    match request.question {
        Question::Why => return why(host.alloc, source, out),
        Question::Boxes { boxes, json } => write_boxes(host.alloc, source, boxes, json, out)?,
        Question::Tracks { json } => tracks(host.alloc, source, json, out)?,
        Question::Metadata { cover, json } => {
            let mut source = source;
            let tags = tags_of(host.alloc, &mut source)?;
            let movie = open_movie(host.alloc, source)?;
            metadata(host, &*movie, tags, request.file, cover, json, out)?;
        }
        Question::Movie(question) => {
            return of_source(host, source, request.file, question, out, err);
        }
    }
    Ok(SUCCESS)
}

/// Where the file of a source that a movie's error comes of is broken; the error itself where that isn't found.
fn place_of<S: ByteSource + Drop>(alloc: Global, source: S, error: Error) -> Fault {
    if matches!(error, Error::OutOfMemory) {
        return Fault::Movie(error);
    }
    match why_of(alloc, source) {
        Ok(Some(report)) => Fault::Broken(report),
        Ok(None) => Fault::Movie(error),
        Err(refused) => Fault::from(refused),
    }
}

/// A fault, with the place where the file of a source is broken that doesn't open.
fn with_place<S: ByteSource + Drop>(alloc: Global, source: S, fault: Fault) -> Fault {
    match fault {
        Fault::Movie(error) => place_of(alloc, source, error),
        fault => fault,
    }
}

/// What is asked of a source, or why there is no answer. All of the answer is printed.
fn answer_or_fault<R: Files + Clock + Eprint, S: ByteSource + Drop, O: Write, E: Write>(
    host: &Host<R>,
    source: S,
    request: Request,
    out: &mut O,
    err: &mut E,
) -> Result<u8, Fault> {
    let mut source = source;
    match answer(host, &mut source, request, out, err) {
        Ok(status) => {
            out.flush().map_err(Fault::of_printing)?;
            Ok(status)
        }
        Err(fault) => Err(with_place(host.alloc, source, fault)),
    }
}

/// What a request asks of bytes that are read one after the other, up to its limit.
fn answer_of_stream<R: Files + Clock + Eprint, I: Read, O: Write, E: Write>(
    host: &Host<R>,
    input: &mut I,
    request: Request,
    out: &mut O,
    err: &mut E,
) -> Result<u8, Fault> {
    let bytes = read_all(host.alloc, input, request.limit)?;
    answer_or_fault(host, bytes.as_slice(), request, out, err)
}

/// What a request asks of its file, or of standard input. What isn't a regular file is read whole, as a pipe. The
/// answer is the status.
///
/// `SameFile` where the file that is written is the one that is read; nothing is read then.
pub fn answer_of_file<R: Files + Clock + Eprint, I: Read, O: Write, E: Write>(
    host: &Host<R>,
    input: &mut I,
    request: Request,
    out: &mut O,
    err: &mut E,
) -> Result<u8, Fault> {
    if let Some(written) = request.written_file() {
        if is_same_file(host.rt, host.alloc, request.file, written) {
            return Err(Fault::SameFile);
        }
    }
    if request.file == STANDARD_STREAM {
        return answer_of_stream(host, input, request, out, err);
    }
    let mut file = open(host.rt, request.file)?;
    if is_regular(&file) {
        return answer_or_fault(host, SeekSource::new(file), request, out, err);
    }
    answer_of_stream(host, &mut file, request, out, err)
}
