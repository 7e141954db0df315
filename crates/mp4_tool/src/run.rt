//! A run of the program.

use crate::faults::Fault;
use crate::make::make;
use mp4_media::{Error, FileError, SeekSource};
use mp4_script::{
    decimal_in, file_info_text, file_samples_text, info_text, samples_text, show_text,
};
use std::alloc::Global;
use std::fs;
use std::fs::OpenFile;
use std::io::{ErrorKind, Read};
use std::rt::Files;

/// The most reads that are made of one file or input.
pub const READS: u64 = 4_294_967_296;

/// The bytes that are asked for by one read.
pub const READ_SIZE: usize = 8192;

pub const STANDARD_INPUT: &str = "standard input";

const USAGE: &str = "usage: mp4_tool make OUT | info FILE | samples FILE TRACK | show\n";

const SUCCESS: u8 = 0;

const FAULT: u8 = 1;

const WRONG_ARGUMENTS: u8 = 2;

/// All bytes of a source, which has this name in faults. It can't be read where a read of it fails, or where it
/// hasn't ended after [`READS`] reads.
pub fn read_all<'a, R: Read>(
    alloc: Global,
    source: &mut R,
    name: &'a str,
) -> Result<Vec<u8>, Fault<'a>> {
    let mut bytes = Vec::new(alloc);
    let mut part = [0u8; READ_SIZE];
    for _ in 0..READS {
        match source.read(&mut part) {
            Ok(0) => return Ok(bytes),
            Ok(n) => bytes.extend_from_slice(&part[..n]).map_err(Error::from)?,
            Err(error) if error.kind() == ErrorKind::Interrupted => {}
            Err(_) => break,
        }
    }
    Err(Fault::CannotRead(name))
}

/// The file of this name, opened to be read.
fn open<'a, R: Files>(rt: &R, name: &'a str) -> Result<R::File, Fault<'a>> {
    fs::open(rt, name).map_err(|_| Fault::CannotRead(name))
}

/// Whether bytes of it can be read in any order, as those of a regular file. What isn't is read whole, as a pipe.
fn is_regular<F: OpenFile>(file: &F) -> bool {
    match file.metadata() {
        Ok(metadata) => metadata.is_file(),
        Err(_) => false,
    }
}

/// The text that a file gave, or why it gave none: a refused read is that of the file of this name.
fn text_of<'a>(text: Result<Vec<u8>, FileError>, name: &'a str) -> Result<Vec<u8>, Fault<'a>> {
    match text {
        Ok(text) => Ok(text),
        Err(FileError::Mp4(error)) => Err(Fault::Movie(error)),
        Err(FileError::Io(_)) => Err(Fault::CannotRead(name)),
    }
}

/// The lines that describe a file.
fn info<'a>(rt: &impl Files, alloc: Global, name: &'a str) -> Result<Vec<u8>, Fault<'a>> {
    let mut file = open(rt, name)?;
    if is_regular(&file) {
        return text_of(file_info_text(alloc, SeekSource::new(file)), name);
    }
    let bytes = read_all(alloc, &mut file, name)?;
    Ok(info_text(alloc, bytes.as_slice())?)
}

/// The lines of the samples of a track of a file.
fn samples<'a>(
    rt: &impl Files,
    alloc: Global,
    name: &'a str,
    track_id: u32,
) -> Result<Vec<u8>, Fault<'a>> {
    let mut file = open(rt, name)?;
    if is_regular(&file) {
        return text_of(
            file_samples_text(alloc, SeekSource::new(file), track_id),
            name,
        );
    }
    let bytes = read_all(alloc, &mut file, name)?;
    Ok(samples_text(alloc, bytes.as_slice(), track_id)?)
}

fn show<R: Read>(alloc: Global, input: &mut R) -> Result<Vec<u8>, Fault<'static>> {
    let script = read_all(alloc, input, STANDARD_INPUT)?;
    Ok(show_text(alloc, script.as_slice())?)
}

/// Adds a text to `out`, or the message of a fault to `err`, and answers the status.
fn report(
    alloc: Global,
    answer: Result<Vec<u8>, Fault>,
    out: &mut Vec<u8>,
    err: &mut Vec<u8>,
) -> mp4_media::Result<u8> {
    match answer {
        Ok(text) => {
            out.extend_from_slice(text.as_slice())?;
            Ok(SUCCESS)
        }
        Err(fault) => {
            let line = format!(in alloc; "mp4_tool: {fault}\n")?;
            err.extend_from_slice(line.as_bytes())?;
            Ok(FAULT)
        }
    }
}

/// Adds the usage to `err`, and answers the status of wrong arguments.
fn report_usage(err: &mut Vec<u8>) -> mp4_media::Result<u8> {
    err.extend_from_slice(USAGE.as_bytes())?;
    Ok(WRONG_ARGUMENTS)
}

/// A whole run with these arguments after the program's name. The answer is the status: 0, 1 after a fault, or 2
/// where the arguments are no command. What a run prints is added to `out` and to `err`.
///
/// Refused by `OutOfMemory` alone, where what is to be printed has no room.
pub fn run<R: Read>(
    rt: &impl Files,
    alloc: Global,
    arguments: &[String],
    input: &mut R,
    out: &mut Vec<u8>,
    err: &mut Vec<u8>,
) -> mp4_media::Result<u8> {
    match arguments {
        [command] if command.as_str() == "show" => report(alloc, show(alloc, input), out, err),
        [command, file] if command.as_str() == "info" => {
            report(alloc, info(rt, alloc, file.as_str()), out, err)
        }
        [command, file] if command.as_str() == "make" => {
            let made = make(rt, alloc, input, file.as_str(), out);
            report(alloc, made, out, err)
        }
        [command, file, track] if command.as_str() == "samples" => {
            match decimal_in(track.as_bytes()) {
                Some(id) => report(alloc, samples(rt, alloc, file.as_str(), id), out, err),
                None => report_usage(err),
            }
        }
        _ => report_usage(err),
    }
}
