//! Why samples aren't extracted.

ghost use Rattle.std.specs.Prelude.{◌≡◌};
ghost use Rattle.mp4_extract.specs.declared.error.ExtractError.TheVariants.{OutOfMemory};

use crate::format::SampleFormat;
use mp4_codec::Error;
use mp4_readable::{Grouped, Reason};
use mp4_source::FileError;
use std::alloc::{AllocError, AllocFailed};
use std::fmt::Write;
use std::{fmt, io};
use thiserror::Error as ThisError;

/// Where a sample lies, in words after its number, where that is known.
#[derive(Clone, Copy)]
struct AtByte(Option<u64>);

impl fmt::Display for AtByte {
    fn fmt<W: fmt::Write>(&self, f: &mut fmt::Formatter<W>) -> fmt::Result {
        match self.0 {
            Some(place) => write!(f, " at byte {}", Grouped(place)),
            None => Ok(()),
        }
    }
}

/// A number of samples, or of one.
#[derive(Clone, Copy)]
struct Number(u32);

impl fmt::Display for Number {
    fn fmt<W: fmt::Write>(&self, f: &mut fmt::Formatter<W>) -> fmt::Result {
        write!(f, "{}", Grouped(u64::from(self.0)))
    }
}

/// Why samples aren't extracted.
#[derive(Debug, Drop, ThisError)]
pub enum ExtractError {
    /// A request for memory was refused.
    #[error("out of memory")]
    OutOfMemory,
    /// What the track is refused for: there is none with this id, or what its decoder is started with is broken.
    #[error("{}", Reason(.0))]
    Track(Error),
    /// The samples of the track with this id are coded in a way that this format doesn't have.
    #[error("track {0} can't be written as {1}")]
    WrongFormat(u32, SampleFormat),
    /// The track with this id has no sample with this number, but so many, numbered from 1.
    #[error("track {} has no sample {}: it has {}, numbered from 1", .0, Number(*.1), Number(*.2))]
    NoSuchSample(u32, u32, u32),
    /// The sample with this number has the sample description of this other number, and the format takes what it needs
    /// of the first alone.
    #[error("sample {} has sample description {}: only the first is written as {}", Number(*.0), Number(*.1), .2)]
    OtherDescription(u32, u32, SampleFormat),
    /// What the sample with this number is refused for, which lies at this place where that is known. `InvalidData`
    /// where the length of a unit leaves the sample, `TooLarge` where the sample has more bytes than a header of ADTS
    /// can say.
    #[error("sample {}{}: {}", Number(*.0), AtByte(*.1), Reason(.2))]
    Sample(u32, Option<u64>, Error),
    /// The source refused to read the sample with this number.
    #[error("sample {} can't be read: {}", Number(*.0), .1)]
    Read(u32, io::Error),
    /// The sink refused the sample with this number, or those from it on that are written together, and may hold a part
    /// of them.
    #[error("sample {} can't be written: {}", Number(*.0), .1)]
    Write(u32, io::Error),
}

impl From<AllocError> for ExtractError {
    ghost from_gives = { λ _ e. e ≡ OutOfMemory };

    fn from(_refused: AllocError) -> ExtractError {
        ExtractError::OutOfMemory
    }
}

impl<T: Drop> From<AllocFailed<T>> for ExtractError {
    ghost from_gives = { λ _ e. e ≡ OutOfMemory };

    fn from(_refused: AllocFailed<T>) -> ExtractError {
        ExtractError::OutOfMemory
    }
}

impl ExtractError {
    ghost use Rattle.mp4_extract.specs.Errors.{of_file, of_sample, of_track};

    /// What a track is refused for.
    pub(crate) fn of_track(error: Error) -> Self
        ensures { result ≡ of_track error }
    {
        match error {
            Error::OutOfMemory => ExtractError::OutOfMemory,
            error => ExtractError::Track(error),
        }
    }

    /// What a sample is refused for, which lies at this place where that is known.
    pub(crate) fn of_sample(k: u32, place: Option<u64>, error: Error) -> Self
        ensures { result ≡ of_sample k place error }
    {
        match error {
            Error::OutOfMemory => ExtractError::OutOfMemory,
            error => ExtractError::Sample(k, place, error),
        }
    }

    /// Why a sample isn't read, which lies at this place where that is known.
    pub(crate) fn of_read(k: u32, place: Option<u64>, error: FileError) -> Self
        ensures { result ≡ of_file k place error }
    {
        match error {
            FileError::Mp4(error) => Self::of_sample(k, place, error),
            FileError::Io(refused) => ExtractError::Read(k, refused),
        }
    }
}
