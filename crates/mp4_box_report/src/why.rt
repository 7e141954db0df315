//! Why a file doesn't open, in one sentence.

mod beginning;
pub(crate) mod misfit;

use crate::said::{number_at, said_by};
use crate::wave::lead_into_wave;
use crate::why::beginning::{Beginning, beginning_of};
use crate::why::misfit::{Misfit, misfit_in};
use mp4_codec::{BoxType, Error};
use mp4_faults::{FaultPlace, first_fault_of};
use mp4_readable::{Grouped, Reason};
use mp4_source::{ByteSource, FileError, read_into};
use std::alloc::Global;
use std::fmt;
use std::fmt::Write;

/// The bytes that are looked at where a fault is: a header, and the beginning of a payload.
const LOOKED_AT: u64 = 36;

/// What is there where a file breaks its grammar.
#[derive(Clone, Copy, Debug, Default, PartialEq, Eq)]
struct Evidence {
    /// The bytes of the file from the place on.
    left: u64,
    /// The bytes of the box as its header says, that included; 0 where it has an open end.
    size: u64,
    /// The first byte of its payload, which is its version where it is a full box.
    version: u8,
    /// The second four bytes of its payload, which is the count of most tables.
    count: u32,
    /// The third four bytes of its payload, which is the count of sample sizes.
    third: u32,
    /// The first box in it that doesn't fit into it, where that is its fault.
    misfit: Option<Misfit>,
}

/// Why a file doesn't open.
#[derive(Debug, Drop)]
pub struct WhyReport {
    fault: FaultPlace,
    evidence: Evidence,
    /// What the file begins as, if it is no MP4 file.
    beginning: Option<Beginning>,
}

/// So many bytes of a source from a place on, or those that are left.
fn bytes_from<S: ByteSource>(
    alloc: Global,
    source: &mut S,
    place: u64,
    most: u64,
) -> Result<Vec<u8>, FileError> {
    let left = source.len()?.saturating_sub(place);
    let mut bytes = Vec::new(alloc);
    read_into(source, place, left.min(most) as usize, &mut bytes)?;
    Ok(bytes)
}

/// What these bytes say, which begin where the fault is; so many bytes of the file are left there.
fn evidence_in(bytes: &[u8], left: u64, misfit: Option<Misfit>) -> Evidence {
    let said = said_by(bytes);
    let payload = bytes.get(said.header_size as usize..).unwrap_or(&[]);
    Evidence {
        left,
        size: said.size,
        version: payload.first().copied().unwrap_or(0),
        count: number_at(payload, 4),
        third: number_at(payload, 8),
        misfit,
    }
}

/// Whether an error is that a box in the box that is at fault doesn't fit into it.
fn is_of_child(error: &Error) -> bool {
    match error {
        Error::InvalidData(text) => matches!(
            *text,
            "a child passes the end" | "a child's header" | "a child with an open end"
        ),
        _ => false,
    }
}

/// The type of the innermost box that is at fault; `None` where the fault is the file's own.
fn faulty_type(fault: &FaultPlace) -> Option<BoxType> {
    fault.path.as_slice().last().map(|step| step.name)
}

/// The first box in the box at fault that doesn't fit into it, where that is the fault.
fn misfit_of<S: ByteSource + Drop>(
    alloc: Global,
    source: S,
    fault: &FaultPlace,
) -> Result<Option<Misfit>, FileError> {
    match faulty_type(fault) {
        Some(name) if is_of_child(&fault.error) => misfit_in(alloc, source, name, fault.place),
        _ => Ok(None),
    }
}

/// Whether the fault is the first thing in the file, or that it has no file type.
fn is_of_beginning(fault: &FaultPlace) -> bool {
    match &fault.error {
        Error::BoxNotFound(BoxType::FtypBox) => true,
        _ => fault.place == 0,
    }
}

/// What a file with this fault and these first bytes begins as, if it is no MP4 file.
fn no_mp4(fault: &FaultPlace, bytes: &[u8]) -> Option<Beginning> {
    match beginning_of(bytes) {
        Some(Beginning::Unknown) if !is_of_beginning(fault) => None,
        beginning => beginning,
    }
}

/// Why the file of all bytes of a source doesn't open; `None` for one that opens.
///
/// `Io` where the source refuses a read; else refused by `OutOfMemory` alone.
pub fn why_of<S: ByteSource + Drop>(
    alloc: Global,
    source: S,
) -> Result<Option<WhyReport>, FileError> {
    let mut source = source;
    let size = source.len()?;
    let Some(mut fault) = first_fault_of(alloc, &mut source, 0, size)? else {
        return Ok(None);
    };
    if faulty_type(&fault) == Some(BoxType::Mp4aBox) {
        lead_into_wave(alloc, &mut source, &mut fault)?;
    }
    let first = bytes_from(alloc, &mut source, 0, beginning::LOOKED_AT)?;
    let beginning = no_mp4(&fault, first.as_slice());
    let misfit = misfit_of(alloc, &mut source, &fault)?;
    let bytes = bytes_from(alloc, &mut source, fault.place, LOOKED_AT)?;
    let left = size.saturating_sub(fault.place);
    let evidence = evidence_in(bytes.as_slice(), left, misfit);
    Ok(Some(WhyReport {
        fault,
        evidence,
        beginning,
    }))
}

/// Writes what a table of this type says and has.
fn write_table<W: fmt::Write>(
    f: &mut fmt::Formatter<W>,
    name: Option<BoxType>,
    evidence: Evidence,
) -> fmt::Result {
    let count = match name {
        Some(BoxType::StszBox) => evidence.third,
        _ => evidence.count,
    };
    let count = Grouped(u64::from(count));
    let size = Grouped(evidence.size);
    write!(
        f,
        "its list has to end within it, and it says {count} entries in {size} bytes"
    )
}

/// Writes the rule that the bytes of a box break by themselves, and what is there.
fn write_invalid<W: fmt::Write>(
    f: &mut fmt::Formatter<W>,
    text: &str,
    name: Option<BoxType>,
    evidence: Evidence,
) -> fmt::Result {
    let left = Grouped(evidence.left);
    let size = Grouped(evidence.size);
    let version = evidence.version;
    match text {
        "a box is larger than the file" => {
            write!(
                f,
                "a box has to end within the file, and this one has {size} bytes of {left} that are left"
            )
        }
        "a size below its header" => {
            write!(
                f,
                "the size of a box counts its header of 8 bytes or 16, and it says {size}"
            )
        }
        "an unknown version" => {
            write!(
                f,
                "its version has to be one that the library reads, and it is {version}"
            )
        }
        "a track id of 0" => f.write_str("the id of a track must not be 0, and it is 0"),
        "a child passes the end" => {
            f.write_str("each box in it has to end within it, and one passes its end")
        }
        "a child's header" | "a child with an open end" => {
            f.write_str(
                "each box in it begins with its size and its type, and one has no size that holds them",
            )
        }
        "a field passes the end" => {
            write!(
                f,
                "its fields have to be whole, and it ends after {size} bytes"
            )
        }
        "the list of sample sizes" | "a list passes the end" => write_table(f, name, evidence),
        _ => write!(f, "what it holds has no meaning: {text}"),
    }
}

/// Writes that a box of a type is missing; the fault is that of a box of this type, or of the file.
fn write_missing<W: fmt::Write>(
    f: &mut fmt::Formatter<W>,
    name: Option<BoxType>,
    missing: BoxType,
) -> fmt::Result {
    if name.is_some_and(|name| u32::from(name) == u32::from(missing)) {
        return f.write_str(
            "it has to say its size, since a box up to the end of the file isn't read, and it says 0",
        );
    }
    write!(f, "a box {missing} has to be there, and there is none")
}

/// Writes the rule that is broken, and what is there.
fn write_rule<W: fmt::Write>(
    f: &mut fmt::Formatter<W>,
    name: Option<BoxType>,
    error: &Error,
    evidence: Evidence,
) -> fmt::Result {
    match error {
        Error::InvalidData(text) => match evidence.misfit {
            Some(misfit) => write!(f, "{misfit}"),
            None => write_invalid(f, text, name, evidence),
        },
        Error::EndOfData if name.is_none() => {
            let left = Grouped(evidence.left);
            write!(
                f,
                "a box begins with a header of 8 bytes or 16, and {left} bytes are left"
            )
        }
        Error::EndOfData => {
            let left = Grouped(evidence.left);
            let size = Grouped(evidence.size);
            write!(
                f,
                "it has to be whole, and of its {size} bytes {left} are there"
            )
        }
        Error::BoxNotFound(missing) => write_missing(f, name, *missing),
        Error::Box2NotFound(one, other) => {
            write!(
                f,
                "a box {one} or {other} has to be there, and there is none"
            )
        }
        Error::TrakNotFound(id) => {
            write!(
                f,
                "a fragment has to be of a track of the movie, and there is no track {id}"
            )
        }
        Error::UnsupportedBoxVersion(_, version) => {
            write!(
                f,
                "its version has to be one that the library reads, and it is {version}"
            )
        }
        error => {
            let reason = Reason(error);
            write!(f, "{reason}")
        }
    }
}

impl fmt::Display for WhyReport {
    /// Writes the path and the place of the fault, the rule that is broken there, and what is there, in a sentence; or
    /// that the file is no MP4 file, and what it begins as.
    fn fmt<W: fmt::Write>(&self, f: &mut fmt::Formatter<W>) -> fmt::Result {
        match self.beginning {
            Some(Beginning::Kind(kind)) => {
                return write!(f, "this is no MP4 file: it begins as {kind}");
            }
            Some(Beginning::Unknown) => {
                return f.write_str(
                    "this is no MP4 file: it doesn't begin with a box, whose type is four letters",
                );
            }
            None => {}
        }
        let name = faulty_type(&self.fault);
        let path = self.fault.shown_path();
        let place = Grouped(self.fault.place);
        if name.is_none() {
            f.write_str("the file")?;
        }
        write!(f, "{path} at byte {place}: ")?;
        write_rule(f, name, &self.fault.error, self.evidence)
    }
}
