//! The files that are read and written.

use crate::faults::Fault;
use std::alloc::Global;
use std::fs;
use std::fs::Metadata;
use std::os::unix::fs::MetadataExt;
use std::rt::Files;

/// The name of standard input, where a file is read, and of standard output, where one is written.
pub const STANDARD_STREAM: &str = "-";

/// The name that a file which is read has in the system.
fn read_name(name: &str) -> &str {
    if name == STANDARD_STREAM {
        return "/dev/stdin";
    }
    name
}

/// The name that a file which is written has in the system.
fn written_name(name: &str) -> &str {
    if name == STANDARD_STREAM {
        return "/dev/stdout";
    }
    name
}

/// The file of this name, opened to be read at any place. What is no regular file, as a pipe, can't be, and isn't
/// opened.
pub fn open<R: Files>(rt: &R, name: &str) -> Result<R::File, Fault> {
    let name = read_name(name);
    let metadata = fs::metadata(rt, name).map_err(Fault::CannotRead)?;
    if !metadata.is_file() {
        return Err(Fault::NotRegular);
    }
    fs::open(rt, name).map_err(Fault::CannotRead)
}

/// Whether a name is that of something that is no regular file, as a pipe.
pub fn is_special<R: Files>(rt: &R, name: &str) -> bool {
    match fs::metadata(rt, name) {
        Ok(metadata) => !metadata.is_file() && !metadata.is_dir(),
        Err(_) => false,
    }
}

/// Whether two files are one, by their device and number; `None` where the system gives them no numbers.
fn is_same_node(one: &Metadata, other: &Metadata) -> Option<bool> {
    if one.ino() == 0 || other.ino() == 0 {
        return None;
    }
    Some(one.ino() == other.ino() && one.dev() == other.dev())
}

/// Whether two names lead to the same place in the system's folders.
fn is_same_path<R: Files>(rt: &R, alloc: Global, one: &str, other: &str) -> bool {
    match (rt.canonicalize(alloc, one), rt.canonicalize(alloc, other)) {
        (Ok(one), Ok(other)) => one.as_path().as_str() == other.as_path().as_str(),
        _ => false,
    }
}

/// Whether the file that is read is the one that is written, be it through links. A name of no file is that of no
/// other.
pub fn is_same_file<R: Files>(rt: &R, alloc: Global, read: &str, written: &str) -> bool {
    let (read, written) = (read_name(read), written_name(written));
    let (Ok(first), Ok(second)) = (fs::metadata(rt, read), fs::metadata(rt, written)) else {
        return false;
    };
    match is_same_node(&first, &second) {
        Some(answer) => answer,
        None => is_same_path(rt, alloc, read, written),
    }
}
