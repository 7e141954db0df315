//! Inspects MP4 files: their boxes, tracks, samples and metadata.
#![tactic(auto)]

mod answer;
mod command_line;
mod commands;
mod extract;
mod faults;
mod files;
mod new_file;
mod progress;
mod question;
mod run;

use crate::answer::{FAULT, Host, SUCCESS};
use crate::run::{WRONG_ARGUMENTS, run_words};
use std::io::{BufWriter, ErrorKind, IsTerminal, Write};
use std::process::ExitCode;
use std::{env, io};

/// A run with the words of the command line, the program's name first.
fn run_process(rt: &HostRuntime) -> io::Result<u8> {
    let words: Vec<String> = env::args(rt)?.collect(rt.alloc())?;
    let mut out = BufWriter::new(rt.alloc(), rt.stdout())?;
    let host = Host {
        rt,
        alloc: rt.alloc(),
        is_terminal: rt.stderr().is_terminal(),
    };
    run_words(
        &host,
        words.as_slice(),
        &mut rt.stdin(),
        &mut out,
        &mut rt.stderr(),
    )
}

/// Says why there was no run, or why it ended, and answers the status. A closed pipe is no error.
fn print_error(rt: &HostRuntime, error: &io::Error) -> u8 {
    let (said, status) = match error.kind() {
        ErrorKind::BrokenPipe => return SUCCESS,
        ErrorKind::OutOfMemory => ("mp4_inspect: out of memory", FAULT),
        ErrorKind::InvalidData | ErrorKind::InvalidInput => {
            ("error: an argument isn't UTF-8", WRONG_ARGUMENTS)
        }
        _ => ("mp4_inspect: standard output: cannot write", FAULT),
    };
    let _ = eprintln!(rt; "{said}");
    status
}

fn main(rt: HostRuntime) -> ExitCode {
    match run_process(&rt) {
        Ok(status) => ExitCode::from(status),
        Err(error) => ExitCode::from(print_error(&rt, &error)),
    }
}
