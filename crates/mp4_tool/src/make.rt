//! Movies that are made of scripts.

use crate::faults::Fault;
use crate::run::{READ_SIZE, READS, STANDARD_INPUT, read_all};
use mp4_media::{ByteSink, CountingSink, Error, SeekSink};
use mp4_new_file::NewFile;
use mp4_script::{ScriptWriteFault, ScriptWriter, run_script};
use std::alloc::Global;
use std::io::{ErrorKind, Read, Seek, Write};
use std::rt::Files;

/// What a script is refused for whose movie is written to the file of this name.
fn fault_of(fault: ScriptWriteFault, name: &str) -> Fault<'_> {
    match fault {
        ScriptWriteFault::Script(fault) => Fault::Script(fault),
        ScriptWriteFault::Sink(_) => Fault::CannotWrite(name),
    }
}

/// Writes the movie of a script to a sink while the script is read, and gives the sink back.
fn write_script<'a, R: Read, S: ByteSink + Drop>(
    alloc: Global,
    input: &mut R,
    sink: S,
    name: &'a str,
) -> Result<S, Fault<'a>> {
    let mut script = match ScriptWriter::new(alloc, sink) {
        Ok(script) => script,
        Err(fault) => return Err(fault_of(fault, name)),
    };
    let mut part = [0u8; READ_SIZE];
    for _ in 0..READS {
        match input.read(&mut part) {
            Ok(0) => {
                return match script.end() {
                    Ok(sink) => Ok(sink),
                    Err(fault) => Err(fault_of(fault, name)),
                };
            }
            Ok(n) => {
                if let Err(fault) = script.write(&part[..n]) {
                    return Err(fault_of(fault, name));
                }
            }
            Err(error) if error.kind() == ErrorKind::Interrupted => {}
            Err(_) => break,
        }
    }
    Err(Fault::CannotRead(STANDARD_INPUT))
}

/// What is printed of a movie of so many bytes, where `out` has room for it.
fn text_of<'a>(alloc: Global, len: u64, out: &mut Vec<u8>) -> Result<Vec<u8>, Fault<'a>> {
    let text = format!(in alloc; "wrote {len} bytes\n").map_err(Error::from)?;
    out.reserve(text.len()).map_err(Error::from)?;
    Ok(text.into_bytes())
}

/// Makes the movie of a script in memory, and writes it to what is no regular file, in its order.
fn write_in_order<'a, R: Read, W: Write + Drop>(
    alloc: Global,
    input: &mut R,
    file: W,
    name: &'a str,
    out: &mut Vec<u8>,
) -> Result<Vec<u8>, Fault<'a>> {
    let script = read_all(alloc, input, STANDARD_INPUT)?;
    let movie = run_script(alloc, script.as_slice())?;
    let text = text_of(alloc, movie.len() as u64, out)?;
    let mut file = file;
    match file.write_all(movie.as_slice()) {
        Ok(()) => Ok(text),
        Err(_) => Err(Fault::CannotWrite(name)),
    }
}

/// Writes the movie of a script to a regular file while the script is read.
fn write_as_read<'a, R: Read, W: Write + Seek + Drop>(
    alloc: Global,
    input: &mut R,
    file: W,
    name: &'a str,
    out: &mut Vec<u8>,
) -> Result<Vec<u8>, Fault<'a>> {
    let sink = match SeekSink::new(alloc, file) {
        Ok(sink) => sink,
        Err(_) => return Err(Fault::Movie(Error::OutOfMemory)),
    };
    let sink = write_script(alloc, input, sink, name)?;
    text_of(alloc, sink.len(), out)
}

/// Makes the movie of a script and writes it to a file, which gets its name when it is whole. Where the script is at
/// fault, or memory runs out, what has the name isn't touched. The script isn't held in memory, nor are the bytes of
/// the movie, unless what has the name is no regular file.
pub fn make<'a, R: Read>(
    rt: &impl Files,
    alloc: Global,
    input: &mut R,
    name: &'a str,
    out: &mut Vec<u8>,
) -> Result<Vec<u8>, Fault<'a>> {
    let Ok((new, file)) = NewFile::create(rt, alloc, "mp4_tool", name) else {
        // What a script is at fault for is said first.
        write_script(alloc, input, CountingSink::new(), name)?;
        return Err(Fault::CannotWrite(name));
    };
    let made = match new.is_regular() {
        true => write_as_read(alloc, input, file, name, out),
        false => write_in_order(alloc, input, file, name, out),
    };
    let named = new.finish(made.is_ok());
    let text = made?;
    match named {
        Ok(()) => Ok(text),
        Err(_) => Err(Fault::CannotWrite(name)),
    }
}
