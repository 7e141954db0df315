//! The files that commands read.

use crate::faults::Fault;
use mp4_media::Error;
use std::alloc::Global;
use std::fs;
use std::fs::{Metadata, OpenFile};
use std::io::{ErrorKind, Read};
use std::os::unix::fs::MetadataExt;
use std::rt::Files;

/// The name of standard input, where a file is read, and of standard output, where one is written.
pub const STANDARD_STREAM: &str = "-";

/// How many bytes are read of what isn't a regular file, where no other limit is asked for: 1 GiB.
pub const USUAL_LIMIT: u64 = 1_073_741_824;

/// The most reads that are made of one file.
const READS: u64 = 4_294_967_296;

/// The bytes that are asked for by one read.
const READ_SIZE: usize = 8192;

/// The name that a file has in the system: what standard input is, where that is asked for.
fn system_name(name: &str) -> &str {
    if name == STANDARD_STREAM {
        return "/dev/stdin";
    }
    name
}

/// Adds bytes to those that were read, unless there are then more than the limit.
fn add_part(bytes: &mut Vec<u8>, part: &[u8], limit: u64) -> Result<(), Fault> {
    let size = (bytes.len() as u64).saturating_add(part.len() as u64);
    if size > limit {
        return Err(Fault::PastLimit(limit));
    }
    bytes.extend_from_slice(part).map_err(Error::from)?;
    Ok(())
}

/// All bytes of what isn't read at any place, as a pipe. `PastLimit` where it has more than the limit; it can't be read
/// where a read of it fails, or where it hasn't ended after [`READS`] reads.
pub fn read_all<R: Read>(alloc: Global, file: &mut R, limit: u64) -> Result<Vec<u8>, Fault> {
    let mut bytes = Vec::new(alloc);
    let mut part = [0u8; READ_SIZE];
    for _ in 0..READS {
        match file.read(&mut part) {
            Ok(0) => return Ok(bytes),
            Ok(n) => add_part(&mut bytes, &part[..n], limit)?,
            Err(error) if error.kind() == ErrorKind::Interrupted => {}
            Err(error) => return Err(Fault::CannotRead(error)),
        }
    }
    Err(Fault::CannotRead(ErrorKind::Other.into()))
}

/// The file of this name, opened to be read.
pub fn open<R: Files>(rt: &R, name: &str) -> Result<R::File, Fault> {
    fs::open(rt, name).map_err(Fault::CannotRead)
}

/// Whether bytes of it can be read in any order, as those of a regular file.
pub fn is_regular<F: OpenFile>(file: &F) -> bool {
    match file.metadata() {
        Ok(metadata) => metadata.is_file(),
        Err(_) => false,
    }
}

/// Whether two files are one, by their device and number; `None` where the system gives them no numbers.
fn is_same_node(one: &Metadata, other: &Metadata) -> Option<bool> {
    if one.ino() == 0 || other.ino() == 0 {
        return None;
    }
    Some(one.ino() == other.ino() && one.dev() == other.dev())
}

/// Whether two names lead to the same place in the system's folders.
fn is_same_path<R: Files>(rt: &R, alloc: Global, one: &str, other: &str) -> bool {
    match (rt.canonicalize(alloc, one), rt.canonicalize(alloc, other)) {
        (Ok(one), Ok(other)) => one.as_path().as_str() == other.as_path().as_str(),
        _ => false,
    }
}

/// Whether two names are those of one file, be it through links. A name of no file is that of no other.
pub fn is_same_file<R: Files>(rt: &R, alloc: Global, one: &str, other: &str) -> bool {
    let (one, other) = (system_name(one), other);
    let (Ok(first), Ok(second)) = (fs::metadata(rt, one), fs::metadata(rt, other)) else {
        return false;
    };
    match is_same_node(&first, &second) {
        Some(answer) => answer,
        None => is_same_path(rt, alloc, one, other),
    }
}
