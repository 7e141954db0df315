//! Files that are written while another is read.

use crate::faults::Fault;
use crate::files::is_same_file;
use mp4_media::Error;
use std::alloc::Global;
use std::io;
use std::io::{BufWriter, ErrorKind, Write};
use std::rt::Files;

/// A file that is being written; it gets its name when it is whole.
#[derive(Drop)]
pub struct NewFile<'a, R: Files> {
    file: mp4_new_file::NewFile<'a, R>,
    out: BufWriter<R::File>,
}

/// Why a file can't be written.
fn cannot_write(error: io::Error) -> Fault {
    match error.kind() {
        ErrorKind::OutOfMemory => Fault::from(Error::OutOfMemory),
        _ => Fault::CannotWrite(error),
    }
}

impl<'a, R: Files> NewFile<'a, R> {
    /// A file of this name, to be written while the file `read` is read.
    ///
    /// `SameFile` where the two are one, be it through links; `CannotWrite` where no file can be made in its folder, or
    /// where what has the name must not be written.
    pub fn create(rt: &'a R, alloc: Global, name: &str, read: &str) -> Result<Self, Fault> {
        if is_same_file(rt, alloc, read, name) {
            return Err(Fault::SameFile);
        }
        let (file, out) = mp4_new_file::NewFile::create(rt, alloc, "mp4_inspect", name).map_err(
            cannot_write,
        )?;
        match BufWriter::new(alloc, out) {
            Ok(out) => Ok(NewFile { file, out }),
            Err(error) => {
                let _ = file.finish(false);
                Err(cannot_write(error))
            }
        }
    }

    /// What its bytes are written to.
    pub fn out(&mut self) -> &mut BufWriter<R::File> {
        &mut self.out
    }

    /// Gives the file its name where all of it is written; else removes it, and answers why it isn't.
    pub fn finish(self, written: Result<(), Fault>) -> Result<(), Fault> {
        let NewFile { file, out } = self;
        let mut out = out;
        let whole = match written {
            Ok(()) => out.flush().map_err(cannot_write),
            Err(fault) => Err(fault),
        };
        drop(out);
        let named = file.finish(whole.is_ok());
        whole?;
        named.map_err(cannot_write)
    }
}

/// Writes a whole file of this name, while the file `read` is read. The errors are those of [`NewFile::create`], and
/// `CannotWrite` where it isn't written whole.
pub fn write_whole<R: Files>(
    rt: &R,
    alloc: Global,
    name: &str,
    read: &str,
    bytes: &[u8],
) -> Result<(), Fault> {
    let mut file = NewFile::create(rt, alloc, name, read)?;
    let written = file.out().write_all(bytes).map_err(cannot_write);
    file.finish(written)
}
