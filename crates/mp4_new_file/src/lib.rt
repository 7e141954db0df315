//! Files that are written: they get their names when they are whole.
#![tactic(auto)]

use std::alloc::{AllocError, Global};
use std::fs::{Metadata, OpenFile, OpenOptions};
use std::io::ErrorKind;
use std::rt::Files;
use std::{fs, io};

/// How many names are tried for a file that hasn't its own yet.
const TRIES: u32 = 1000;

/// Where the bytes of a file go until it is whole.
#[derive(Drop)]
enum Place {
    /// To a new file of the first name, which then gets the second.
    Aside(String, String),
    /// To what has the name already and is no regular file, as a pipe or a terminal.
    There,
}

/// A file that is being written. Until [`NewFile::finish`] nothing has its name that hadn't before, and what had stays
/// as it was; what is no regular file, as a pipe, is written as it is.
#[derive(Drop)]
pub struct NewFile<'a, R: Files> {
    rt: &'a R,
    place: Place,
}

/// Memory for a name was refused.
fn no_memory(_: AllocError) -> io::Error {
    ErrorKind::OutOfMemory.into()
}

/// The name of a file that isn't there yet, it is hoped, in the folder of the file of this name.
fn name_aside(alloc: Global, program: &str, name: &str, number: u32) -> Result<String, AllocError> {
    match name.rsplit_once('/') {
        Some((folder, _)) => format!(in alloc; "{folder}/.{program}-{number}.part"),
        None => format!(in alloc; ".{program}-{number}.part"),
    }
}

/// A new file in the folder of this name, and its name.
fn new_file_beside<R: Files>(
    rt: &R,
    alloc: Global,
    program: &str,
    name: &str,
) -> io::Result<(R::File, String)> {
    for number in 0..TRIES {
        let aside = name_aside(alloc, program, name, number).map_err(no_memory)?;
        match OpenOptions::new()
            .read(true)
            .write(true)
            .create_new(true)
            .open(rt, aside.as_str())
        {
            Ok(file) => return Ok((file, aside)),
            Err(error) if error.kind() == ErrorKind::AlreadyExists => {}
            Err(error) => return Err(error),
        }
    }
    Err(ErrorKind::AlreadyExists.into())
}

/// The name of what a name leads to, through links; the name itself where there is nothing yet.
fn target_of<R: Files>(rt: &R, alloc: Global, name: &str) -> io::Result<String> {
    match rt.canonicalize(alloc, name) {
        Ok(path) => String::from_str(alloc, path.as_path().as_str()).map_err(no_memory),
        Err(_) => String::from_str(alloc, name).map_err(no_memory),
    }
}

/// Refuses to write over a file that must not be written.
fn check_old<F: OpenFile>(old: Option<&Metadata>, file: &F) -> io::Result<()> {
    let Some(old) = old else {
        return Ok(());
    };
    if old.is_dir() {
        return Err(ErrorKind::IsADirectory.into());
    }
    if old.permissions().readonly() {
        return Err(ErrorKind::PermissionDenied.into());
    }
    file.set_permissions(old.permissions())
}

impl<'a, R: Files> NewFile<'a, R> {
    /// A file of this name, and what its bytes are to be written to, and can be read of again where it is a regular
    /// file. Until it is whole it has a name in the same folder that begins with a point and the name of the program.
    ///
    /// It is an error where no file can be made in its folder, or where what has the name must not be written.
    pub fn create(
        rt: &'a R,
        alloc: Global,
        program: &str,
        name: &str,
    ) -> io::Result<(Self, R::File)> {
        match fs::metadata(rt, name) {
            Ok(old) if !old.is_file() && !old.is_dir() => Self::there(rt, name),
            Ok(old) => Self::aside(rt, alloc, program, name, Some(old)),
            Err(_) => Self::aside(rt, alloc, program, name, None),
        }
    }

    /// What has this name and is no regular file.
    fn there(rt: &'a R, name: &str) -> io::Result<(Self, R::File)> {
        let file = OpenOptions::new().write(true).open(rt, name)?;
        let new = NewFile {
            rt,
            place: Place::There,
        };
        Ok((new, file))
    }

    /// A new file that gets this name, which a regular file may have.
    fn aside(
        rt: &'a R,
        alloc: Global,
        program: &str,
        name: &str,
        old: Option<Metadata>,
    ) -> io::Result<(Self, R::File)> {
        let name = target_of(rt, alloc, name)?;
        let (file, aside) = new_file_beside(rt, alloc, program, name.as_str())?;
        if let Err(error) = check_old(old.as_ref(), &file) {
            let _ = fs::remove_file(rt, aside.as_str());
            return Err(error);
        }
        let new = NewFile {
            rt,
            place: Place::Aside(aside, name),
        };
        Ok((new, file))
    }

    /// Whether its bytes are those of a regular file, which may be written in any order.
    pub fn is_regular(&self) -> bool {
        match &self.place {
            Place::Aside(_, _) => true,
            Place::There => false,
        }
    }

    /// Gives the file its name where all of it is written, else removes it; what it was written to must be closed. It
    /// is an error where it can't get its name; then it is removed.
    pub fn finish(self, is_whole: bool) -> io::Result<()> {
        let NewFile { rt, place } = self;
        match place {
            Place::There => Ok(()),
            Place::Aside(aside, name) => named(rt, aside.as_str(), name.as_str(), is_whole),
        }
    }
}

/// Gives a file its name where it is whole, and removes it where it isn't.
fn named<R: Files>(rt: &R, aside: &str, name: &str, is_whole: bool) -> io::Result<()> {
    let renamed = match is_whole {
        true => fs::rename(rt, aside, name),
        false => Ok(()),
    };
    if !is_whole || renamed.is_err() {
        let _ = fs::remove_file(rt, aside);
    }
    renamed
}
