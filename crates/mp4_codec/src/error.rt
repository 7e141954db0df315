//! Why a call is refused.

ghost use denote.Enum.Bare.{same_true};
ghost use Rattle.mp4_codec.specs.contracts.error.Limit.{the_type as limits};
ghost use Rattle.std.specs.Prelude.{◌≡◌};
ghost use Rattle.mp4_codec.specs.declared.error.Error.TheVariants.{InvalidData, OutOfMemory};

use crate::box_type::BoxType;
use crate::exact_eq::ExactEq;
use std::alloc::{AllocError, AllocFailed};
use std::fmt;
use std::fmt::Write;
use thiserror::Error as ThisError;

/// What passes its limit, in [`Error::TooLarge`].
#[derive(Clone, Copy, Debug, PartialEq, Eq)]
pub enum Limit {
    /// The bytes of one sample: at most 2^32 - 1.
    SampleBytes,
    /// The samples of one track: at most 2^32 - 1.
    SampleCount,
    /// A track's duration in ticks of the movie's timescale: at most 2^64 - 1.
    TrackDuration,
    /// The tracks of a movie: at most 2^32 - 1.
    TrackCount,
    /// The bytes of a box that is written, header included: at most 2^32 - 1.
    BoxSize,
    /// A number that has to fit its field or its answer.
    Value,
}

impl ExactEq for Limit {
    ghost exact = { same_true limits tt };
}

impl Limit {
    fn words(self) -> &'static str {
        match self {
            Limit::SampleBytes => "sample bytes",
            Limit::SampleCount => "sample count",
            Limit::TrackDuration => "track duration",
            Limit::TrackCount => "track count",
            Limit::BoxSize => "box size",
            Limit::Value => "value",
        }
    }
}

/// Why a call is refused.
///
/// Track ids are those of tkhd; numbers of samples and of entries count from 1, but for an entry of
/// avcC, which counts from 0. The text that some variants hold is for people and may change.
#[derive(Debug, PartialEq, Eq, Drop, ThisError)]
pub enum Error {
    /// The bytes end before what has to be read.
    #[error("end of data")]
    EndOfData,
    /// A request for memory was refused.
    #[error("out of memory")]
    OutOfMemory,
    /// The bytes, or the numbers asked for, mean nothing.
    #[error("invalid data")]
    InvalidData(&'static str),
    /// A required box is missing.
    #[error("{0} not found")]
    BoxNotFound(BoxType),
    /// Neither of two boxes is there, of which one is required.
    #[error(fmt = two_boxes)]
    Box2NotFound(BoxType, BoxType),
    /// There is no track of this id.
    #[error("trak[{0}] not found")]
    TrakNotFound(u32),
    /// A track lacks a box.
    #[error(fmt = box_in_trak)]
    BoxInTrakNotFound(u32, BoxType),
    /// A fragment of a track lacks a box.
    #[error(fmt = box_in_traf)]
    BoxInTrafNotFound(u32, BoxType),
    /// A track's sample table lacks a box.
    #[error(fmt = box_in_stbl)]
    BoxInStblNotFound(u32, BoxType),
    /// A box of a track's sample table lacks an entry.
    #[error(fmt = entry_in_stbl)]
    EntryInStblNotFound(u32, BoxType, u32),
    /// A run of a track's fragment lacks an entry.
    #[error(fmt = entry_in_trun)]
    EntryInTrunNotFound(u32, BoxType, u32),
    /// A box is of a version that is not read.
    #[error(fmt = unsupported_version)]
    UnsupportedBoxVersion(BoxType, u8),
    /// The writer has written its last byte.
    #[error("writer ended")]
    Ended,
    /// A quotient by a timescale of 0 was asked for.
    #[error("timescale is zero")]
    ZeroTimescale,
    /// Something passes its limit.
    #[error("too large: {}", .0.words())]
    TooLarge(Limit),
    /// A value has no encoding in its field.
    #[error("unrepresentable")]
    Unrepresentable(&'static str),
}

fn two_boxes<W: fmt::Write>(
    first: &BoxType,
    second: &BoxType,
    f: &mut fmt::Formatter<W>,
) -> fmt::Result {
    write!(f, "{first} and {second} not found")
}

fn box_in_trak<W: fmt::Write>(id: &u32, name: &BoxType, f: &mut fmt::Formatter<W>) -> fmt::Result {
    write!(f, "trak[{id}].{name} not found")
}

fn box_in_traf<W: fmt::Write>(id: &u32, name: &BoxType, f: &mut fmt::Formatter<W>) -> fmt::Result {
    write!(f, "traf[{id}].{name} not found")
}

fn box_in_stbl<W: fmt::Write>(id: &u32, name: &BoxType, f: &mut fmt::Formatter<W>) -> fmt::Result {
    write!(f, "trak[{id}].stbl.{name} not found")
}

fn entry_in_stbl<W: fmt::Write>(
    id: &u32,
    name: &BoxType,
    entry: &u32,
    f: &mut fmt::Formatter<W>,
) -> fmt::Result {
    write!(f, "trak[{id}].stbl.{name}.entry[{entry}] not found")
}

fn entry_in_trun<W: fmt::Write>(
    id: &u32,
    name: &BoxType,
    entry: &u32,
    f: &mut fmt::Formatter<W>,
) -> fmt::Result {
    write!(f, "traf[{id}].trun.{name}.entry[{entry}] not found")
}

fn unsupported_version<W: fmt::Write>(
    name: &BoxType,
    version: &u8,
    f: &mut fmt::Formatter<W>,
) -> fmt::Result {
    write!(f, "{name} version {version} is not supported")
}

/// What the calls of this library answer.
pub type Result<T> = std::result::Result<T, Error>;

impl From<AllocError> for Error {
    ghost from_gives = { λ _ e. e ≡ OutOfMemory };

    fn from(_refused: AllocError) -> Error {
        Error::OutOfMemory
    }
}

impl<T: Drop> From<AllocFailed<T>> for Error {
    ghost from_gives = { λ _ e. e ≡ OutOfMemory };

    fn from(_refused: AllocFailed<T>) -> Error {
        Error::OutOfMemory
    }
}

/// Bytes that have no meaning as a field of a payload: too few, or of an unknown version. As an [`Error`] it is
/// `InvalidData`.
#[derive(Clone, Copy, Debug, PartialEq, Eq)]
pub struct Malformed {
    /// For people; it may change.
    pub text: &'static str,
}

impl From<Malformed> for Error {
    ghost from_gives = { λ m e. e ≡ InvalidData m.text };

    fn from(malformed: Malformed) -> Error {
        Error::InvalidData(malformed.text)
    }
}

/// What the calls answer that read a field and take no memory.
pub type Field<T> = std::result::Result<T, Malformed>;
