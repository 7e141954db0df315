//! A run of the program.

use crate::answer::{FAULT, Host, SUCCESS, answer_of_file};
use crate::command_line::{Unclear, request_in};
use crate::faults::Fault;
use crate::question::Request;
use std::io;
use std::io::{Read, Write};
use std::rt::{Clock, Files};

/// The status of a run whose arguments are wrong.
pub const WRONG_ARGUMENTS: u8 = 2;

/// Prints why a request has no answer, and answers the status. A closed pipe is no fault.
fn print_fault<E: Write>(request: Request, fault: &Fault, err: &mut E) -> io::Result<u8> {
    if fault.is_closed_pipe() {
        return Ok(SUCCESS);
    }
    let name = request.name_of(fault.subject());
    writeln!(err, "mp4_inspect: {name}: {fault}")?;
    if fault.is_of_arguments() {
        return Ok(WRONG_ARGUMENTS);
    }
    Ok(FAULT)
}

/// Prints why words are no request, or the help that they ask for, and answers the status.
fn print_unclear<O: Write, E: Write>(
    unclear: &Unclear,
    out: &mut O,
    err: &mut E,
) -> io::Result<u8> {
    if unclear.is_mistake() {
        write!(err, "{unclear}")?;
        return Ok(WRONG_ARGUMENTS);
    }
    write!(out, "{unclear}")?;
    out.flush()?;
    Ok(SUCCESS)
}

/// A whole run with these words, of which the first is the program's name. The answer is the status: 0, 1 after a
/// fault, or 2 where the arguments are wrong. What a run prints is written to `out` as it is made, and what it says of
/// faults to `err`.
///
/// Refused where `err` refuses, or `out` refuses help.
pub fn run_words<R: Files + Clock + Eprint, I: Read, O: Write, E: Write>(
    host: &Host<R>,
    words: &[String],
    input: &mut I,
    out: &mut O,
    err: &mut E,
) -> io::Result<u8> {
    match request_in(host.alloc, words) {
        Ok(request) => match answer_of_file(host, input, request, out, err) {
            Ok(status) => Ok(status),
            Err(fault) => print_fault(request, &fault, err),
        },
        Err(unclear) => print_unclear(&unclear, out, err),
    }
}
