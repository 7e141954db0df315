//! A run of the program.

use crate::command_line::{Unclear, request_in};
use crate::faults::{Fault, Subject};
use crate::remux::{Host, Written, remux};
use crate::request::Request;
use mp4_remux::Reference;
use std::alloc::Global;
use std::io;
use std::io::{BufWriter, Write};
use std::rt::Files;

/// The status of a run that succeeded.
pub const SUCCESS: u8 = 0;

/// The status of a run whose file is at fault, or can't be read or written.
pub const FAULT: u8 = 1;

/// The status of a run whose arguments are wrong.
pub const WRONG_ARGUMENTS: u8 = 2;

/// Prints why a file isn't rewritten, and answers the status. A closed pipe is no fault.
fn print_fault<E: Write>(request: &Request, fault: &Fault, err: &mut E) -> io::Result<u8> {
    if fault.is_closed_pipe() {
        return Ok(SUCCESS);
    }
    let name = request.name_of(fault.subject());
    writeln!(err, "mp4_remux: {name}: {fault}")?;
    if fault.is_of_arguments() {
        return Ok(WRONG_ARGUMENTS);
    }
    Ok(FAULT)
}

/// Prints why words are no request, or the help that they ask for, and answers the status.
fn print_unclear<O: Write, E: Write>(
    unclear: &Unclear,
    out: &mut O,
    err: &mut E,
) -> io::Result<u8> {
    if unclear.is_mistake() {
        write!(err, "{unclear}")?;
        return Ok(WRONG_ARGUMENTS);
    }
    write!(out, "{unclear}")?;
    out.flush()?;
    Ok(SUCCESS)
}

/// Writes a line for each reference that is left out.
fn write_left_out<W: Write>(
    request: &Request,
    left_out: &[Reference],
    out: &mut W,
) -> io::Result<()> {
    let name = request.name_of(Subject::Read);
    for one in left_out {
        let Reference { track_id, kind, to } = one;
        writeln!(
            out,
            "mp4_remux: {name}: track {track_id}'s reference {kind} to track {to} is left out"
        )?;
    }
    Ok(())
}

/// Prints a line for each reference that is left out: many at once, where there is memory for it.
fn print_left_out<E: Write>(
    alloc: Global,
    request: &Request,
    left_out: &[Reference],
    err: &mut E,
) -> io::Result<()> {
    if left_out.is_empty() {
        return Ok(());
    }
    if let Ok(mut lines) = BufWriter::new(alloc, &mut *err) {
        write_left_out(request, left_out, &mut lines)?;
        return lines.flush();
    }
    write_left_out(request, left_out, err)
}

/// Prints what is left out, and how many bytes were written, unless they were printed.
fn print_written<O: Write, E: Write>(
    alloc: Global,
    request: &Request,
    written: &Written,
    out: &mut O,
    err: &mut E,
) -> io::Result<u8> {
    print_left_out(alloc, request, written.left_out.as_slice(), err)?;
    if !request.is_printed() {
        let len = written.len;
        writeln!(out, "wrote {len} bytes")?;
        out.flush()?;
    }
    Ok(SUCCESS)
}

/// A whole run with these words, of which the first is the program's name. The answer is the status: 0, 1 after a
/// fault, or 2 where the arguments are wrong. What a run says of faults, and of what is left out, is written to `err`.
///
/// Refused where `err` refuses, or `out` refuses help or what is said of a file that was written.
pub fn run_words<R: Files, O: Write, E: Write>(
    host: &Host<R>,
    words: &[String],
    out: &mut O,
    err: &mut E,
) -> io::Result<u8> {
    match request_in(host.alloc, words) {
        Ok(request) => match remux(host, &request, out) {
            Ok(written) => print_written(host.alloc, &request, &written, out, err),
            Err(fault) => print_fault(&request, &fault, err),
        },
        Err(unclear) => print_unclear(&unclear, out, err),
    }
}
