//! Files that are rewritten.

use crate::faults::{Fault, no_track};
use crate::files::{is_same_file, is_special, open};
use crate::pipe_sink::PipeSink;
use crate::progress::{Progress, WatchedSink};
use crate::request::{Request, Task};
use mp4_box_report::{path_at, why_of};
use mp4_media::{ByteSink, ByteSource, Error, Mp4File, SeekSink, SeekSource, SourceError, Window};
use mp4_new_file::NewFile;
use mp4_remux::{Reference, RemuxError, check_samples, choose, gather, move_to_front};
use std::alloc::Global;
use std::io::{Read, Seek, Write};
use std::rt::{Files, Stderr};

/// What a run has of the system: its calls, memory, and where it says how far it is.
#[derive(Drop)]
pub struct Host<'a, R> {
    pub rt: &'a R,
    pub alloc: Global,
    /// Standard error, where that is a terminal.
    pub terminal: Option<Stderr>,
}

/// What was written.
#[derive(Drop)]
pub struct Written {
    /// How many bytes it has.
    pub len: u64,
    /// The references between tracks that it hasn't any more.
    pub left_out: Vec<Reference>,
}

/// Writes what a task makes of a file to a sink, and answers which references are left out.
fn write_movie<S: ByteSource + Drop, K: ByteSink>(
    alloc: Global,
    source: S,
    task: &Task,
    sink: &mut K,
) -> Result<Vec<Reference>, RemuxError> {
    match task {
        Task::Front => move_to_front(alloc, source, sink)?,
        Task::Gather => gather(alloc, source, sink)?,
        Task::Tracks(ids) => return choose(alloc, source, sink, ids.as_slice()),
    }
    Ok(Vec::new(alloc))
}

/// Writes what a task makes of a file to a sink, and says on a terminal how far it is.
fn write_watched<S: ByteSource + Drop, K: ByteSink + Drop>(
    alloc: Global,
    source: S,
    task: &Task,
    sink: K,
    terminal: Option<Stderr>,
) -> Result<(K, Vec<Reference>), Fault> {
    let mut source = source;
    let len = source.len().map_err(Fault::CannotRead)?;
    let mut sink = WatchedSink::new(sink, Progress::new(terminal, len));
    let answer = write_movie(alloc, source, task, &mut sink);
    let sink = sink.finish();
    Ok((sink, answer?))
}

/// The ids of all tracks of a file.
fn all_ids<S: ByteSource + Drop>(alloc: Global, source: S) -> Result<Vec<u32>, Fault> {
    let mut source = source;
    let len = source.len().map_err(Fault::CannotRead)?;
    let movie = Mp4File::open(alloc, source, 0, len)?;
    let mut ids = Vec::new(alloc);
    for track in movie.moov.traks.as_slice() {
        ids.push(track.tkhd.track_id).map_err(Error::from)?;
    }
    Ok(ids)
}

/// Compares each sample of a file that was written with that of the file that was read.
fn check_written<S: ByteSource + Drop, F: Read + Seek + Drop>(
    alloc: Global,
    source: S,
    written: F,
    task: &Task,
) -> Result<(), Fault> {
    let mut source = source;
    let after = match Window::new(alloc, SeekSource::new(written)) {
        Ok(after) => after,
        Err(error) => return Err(Fault::of_written(error)),
    };
    let checked = match task {
        Task::Tracks(ids) => {
            let before = Window::new(alloc, source)?;
            check_samples(alloc, before, after, ids.as_slice())
        }
        Task::Front | Task::Gather => {
            let ids = all_ids(alloc, &mut source)?;
            let before = Window::new(alloc, source)?;
            check_samples(alloc, before, after, ids.as_slice())
        }
    };
    checked.map_err(Fault::of_check)
}

/// Writes what is asked for to a regular file, which may be read again.
fn write_file<S: ByteSource + Drop, F: Read + Write + Seek + Drop>(
    alloc: Global,
    source: S,
    file: F,
    request: &Request,
    terminal: Option<Stderr>,
) -> Result<Written, Fault> {
    let mut source = source;
    let sink = SeekSink::new(alloc, file)?;
    let (sink, left_out) = write_watched(alloc, &mut source, &request.task, sink, terminal)?;
    let len = sink.len();
    if request.check {
        check_written(alloc, source, sink.into_inner(), &request.task)?;
    }
    Ok(Written { len, left_out })
}

/// Writes what is asked for to a pipe or whatever else is only written to.
fn write_in_order<S: ByteSource + Drop, W: Write + Drop>(
    alloc: Global,
    source: S,
    out: W,
    request: &Request,
    terminal: Option<Stderr>,
) -> Result<Written, Fault> {
    let sink = PipeSink::new(out);
    let (sink, left_out) = write_watched(alloc, source, &request.task, sink, terminal)?;
    let len = sink.len();
    Ok(Written { len, left_out })
}

/// Writes what is asked for to a file of its name, which it gets when it is whole: else what has the name isn't
/// touched. What has it and is no regular file is written as it is.
fn write_new<R: Files, S: ByteSource + Drop>(
    host: &Host<R>,
    source: S,
    request: &Request,
) -> Result<Written, Fault> {
    if request.check && is_special(host.rt, request.written) {
        return Err(Fault::NotChecked);
    }
    let (new, file) = NewFile::create(host.rt, host.alloc, "mp4_remux", request.written).map_err(
        Fault::of_writing,
    )?;
    let made = match new.is_regular() {
        true => write_file(host.alloc, source, file, request, host.terminal),
        false => write_in_order(host.alloc, source, file, request, host.terminal),
    };
    let named = new.finish(made.is_ok());
    let written = made?;
    named.map_err(Fault::of_writing)?;
    Ok(written)
}

/// Writes what is asked for of a source, to `out` where that is standard output.
fn write_request<R: Files, S: ByteSource + Drop, O: Write>(
    host: &Host<R>,
    source: S,
    request: &Request,
    out: &mut O,
) -> Result<Written, Fault> {
    if request.is_printed() {
        return write_in_order(host.alloc, source, out, request, host.terminal);
    }
    write_new(host, source, request)
}

/// Where the file of a source that a movie's error comes of is broken; the error itself where that isn't found, or
/// memory runs out or the source refuses meanwhile.
fn place_of<S: ByteSource + Drop>(alloc: Global, source: S, error: Error) -> Fault {
    match why_of(alloc, source) {
        Ok(Some(report)) => Fault::Broken(report),
        Ok(None) | Err(_) => Fault::Movie(error),
    }
}

/// A refusal to rewrite the file of a source: with the path of the box that it names; as it is where that isn't found,
/// or memory runs out or the source refuses meanwhile.
fn with_path<S: ByteSource + Drop>(alloc: Global, source: S, error: RemuxError) -> Fault {
    let (RemuxError::SaysPlaces(_, place) | RemuxError::SaysOfSamples(_, place)) = &error else {
        return Fault::Remux(error);
    };
    let place = *place;
    match path_at(alloc, source, place) {
        Ok(Some(path)) if matches!(error, RemuxError::SaysPlaces(_, _)) => {
            Fault::SaysPlaces(path, place)
        }
        Ok(Some(path)) => Fault::SaysOfSamples(path, place),
        Ok(None) | Err(_) => Fault::Remux(error),
    }
}

/// A fault of a source: with the place where its file is broken that doesn't open, with the path of the box that keeps
/// it from being rewritten, and with the tracks that it has where one isn't there. As it was where these aren't found,
/// or memory runs out or the source refuses meanwhile.
fn with_words<S: ByteSource + Drop>(alloc: Global, source: S, fault: Fault) -> Fault {
    match fault {
        Fault::Movie(Error::OutOfMemory) => fault,
        Fault::Movie(Error::TrakNotFound(id)) => match all_ids(alloc, source) {
            Ok(ids) => no_track(alloc, id, ids),
            Err(_) => Fault::Movie(Error::TrakNotFound(id)),
        },
        Fault::Movie(error) => place_of(alloc, source, error),
        Fault::Remux(error) => with_path(alloc, source, error),
        fault => fault,
    }
}

/// Rewrites a file as is asked for, to `out` where it is written to standard output.
///
/// `SameFile` where the file that is written is the one that is read; nothing is read then.
pub fn remux<R: Files, O: Write>(
    host: &Host<R>,
    request: &Request,
    out: &mut O,
) -> Result<Written, Fault> {
    if is_same_file(host.rt, host.alloc, request.read, request.written) {
        return Err(Fault::SameFile);
    }
    let file = open(host.rt, request.read)?;
    let mut source = SeekSource::new(file);
    let answer = write_request(host, &mut source, request, out);
    match answer {
        Ok(written) => Ok(written),
        Err(fault) => Err(with_words(host.alloc, &mut source, fault)),
    }
}
