//! Rewrites MP4 files, with every sample as it was.
#![tactic(auto)]

mod command_line;
mod commands;
mod faults;
mod files;
mod pipe_sink;
mod progress;
mod remux;
mod request;
mod run;

use crate::remux::Host;
use crate::run::{FAULT, SUCCESS, WRONG_ARGUMENTS, run_words};
use std::io::{ErrorKind, IsTerminal};
use std::process::ExitCode;
use std::{env, io};

/// A run with the words of the command line, the program's name first.
fn run_process(rt: &HostRuntime) -> io::Result<u8> {
    let words: Vec<String> = env::args(rt)?.collect(rt.alloc())?;
    let stderr = rt.stderr();
    let host = Host {
        rt,
        alloc: rt.alloc(),
        terminal: if stderr.is_terminal() {
            Some(stderr)
        } else {
            None
        },
    };
    run_words(&host, words.as_slice(), &mut rt.stdout(), &mut rt.stderr())
}

/// Says why there was no run, or why it ended, and answers the status. A closed pipe is no error.
fn print_error(rt: &HostRuntime, error: &io::Error) -> u8 {
    let (said, status) = match error.kind() {
        ErrorKind::BrokenPipe => return SUCCESS,
        ErrorKind::OutOfMemory => ("mp4_remux: out of memory", FAULT),
        ErrorKind::InvalidData | ErrorKind::InvalidInput => {
            ("error: an argument isn't UTF-8", WRONG_ARGUMENTS)
        }
        _ => ("mp4_remux: standard output: cannot write", FAULT),
    };
    let _ = eprintln!(rt; "{said}");
    status
}

fn main(rt: HostRuntime) -> ExitCode {
    match run_process(&rt) {
        Ok(status) => ExitCode::from(status),
        Err(error) => ExitCode::from(print_error(&rt, &error)),
    }
}
