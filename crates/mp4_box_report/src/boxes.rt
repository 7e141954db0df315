//! The boxes of a file, with their places, their sizes and their fields.

use crate::walk::{BrokenPlace, FoundBox, Step, Walk};
use crate::wave::refused_in_wave;
use mp4_codec::{BoxType, Error, FourCC};
use mp4_faults::{bytes_before_children, first_fault_in, reads_child, refusal_of};
use mp4_fields::{Field, Listing, fields_of, has_fields};
use mp4_readable::{Code, Whole, reason_text};
use mp4_source::{ByteSource, FileError};
use serde::{Described, Serialize, Serializer};
use std::alloc::{AllocError, Global};

/// How many values of a list are listed where not all are asked for.
const FIRST_VALUES: usize = 8;

/// The fields of a box, by their names.
#[derive(Debug, Drop)]
pub struct BoxFields(pub Vec<Field>);

/// A box of a file.
#[derive(Debug, Drop, Serialize)]
pub struct BoxReport {
    /// The types of the boxes that it is in and its own.
    pub path: String,
    /// Its type; `None` where no box begins.
    #[serde(rename = "type")]
    pub kind: Option<String>,
    /// Where its first byte is in the file, from 0.
    pub place: Whole,
    /// Its bytes that are in the file, its header included.
    pub size: Whole,
    /// How many bytes it says that it has past the end of the file.
    pub past_end: Whole,
    /// The bytes of its header.
    pub header_size: u64,
    /// Its fields, where they are known.
    pub fields: Option<BoxFields>,
    /// Why it is refused.
    pub refused: Option<String>,
}

/// Which boxes are listed, and how much of their lists.
#[derive(Clone, Copy, Debug)]
pub struct BoxesRequest {
    /// The depth of the deepest boxes; 1 is that of the file's own. `None` for all.
    pub depth: Option<u32>,
    /// Whether lists are listed whole.
    pub all: bool,
}

/// What is known of the payload of a box.
#[derive(Debug, Drop)]
struct Looked {
    fields: Option<Vec<Field>>,
    refusal: Option<Error>,
}

/// Whether a box of this type is refused by this error because of itself, and not of a box in it: it lacks a box, or
/// is of a version that isn't read.
fn is_own_refusal(name: BoxType, error: &Error) -> bool {
    match error {
        Error::BoxNotFound(child) => reads_child(name, *child),
        Error::Box2NotFound(child, _) => reads_child(name, *child),
        Error::UnsupportedBoxVersion(refused, _) => *refused == name,
        _ => false,
    }
}

/// Whether the fields that a box of this type has before the boxes in it pass its end.
fn are_fields_cut(name: BoxType, payload: &[u8]) -> bool {
    match bytes_before_children(name, payload) {
        Some(fields) => fields > payload.len() as u64,
        None => true,
    }
}

/// What is known of the payload of a box of boxes. Refused by `OutOfMemory` alone.
fn container_looked_at(alloc: Global, name: BoxType, payload: &[u8]) -> mp4_codec::Result<Looked> {
    let refusal = refusal_of(alloc, name, payload)?;
    let is_cut = are_fields_cut(name, payload);
    Ok(Looked {
        fields: None,
        refusal: refusal.filter(|error| is_cut || is_own_refusal(name, error)),
    })
}

/// Whether a box of this type and payload is refused for a box in it, which says so itself. Refused by `OutOfMemory`
/// alone.
fn is_refused_within(alloc: Global, name: BoxType, payload: &[u8]) -> mp4_codec::Result<bool> {
    if name == BoxType::Mp4aBox && refused_in_wave(alloc, payload)?.is_some() {
        return Ok(true);
    }
    let fault = first_fault_in(alloc, name, payload)?;
    Ok(fault.is_some_and(|fault| !fault.path.is_empty()))
}

/// What is known of the payload of a box whose fields are listed. Refused by `OutOfMemory` alone.
fn leaf_looked_at(listing: Listing, name: BoxType, payload: &[u8]) -> mp4_codec::Result<Looked> {
    match fields_of(listing, name, payload) {
        Ok(fields) => Ok(Looked {
            fields,
            refusal: None,
        }),
        Err(Error::OutOfMemory) => Err(Error::OutOfMemory),
        Err(error) => {
            let is_within = is_refused_within(listing.alloc, name, payload)?;
            Ok(Looked {
                fields: None,
                refusal: if is_within { None } else { Some(error) },
            })
        }
    }
}

/// What is known of the payload of a box that was found. Only payloads of which something may be known are read. What
/// the reading of the file doesn't look at isn't refused, whatever it holds.
fn looked_at<S: ByteSource + Drop>(
    walk: &mut Walk<S>,
    listing: Listing,
    found: &FoundBox,
) -> Result<Looked, FileError> {
    if has_fields(found.name) {
        let payload = walk.payload_of(found)?;
        let Looked { fields, refusal } = leaf_looked_at(listing, found.name, payload)?;
        return Ok(Looked {
            fields,
            refusal: if found.is_read { refusal } else { None },
        });
    }
    if found.is_read {
        let payload = walk.payload_of(found)?;
        return Ok(container_looked_at(listing.alloc, found.name, payload)?);
    }
    Ok(Looked {
        fields: None,
        refusal: None,
    })
}

/// What is said of a box, for which the file is refused where it lacks another one for it.
fn report_of_box<S: ByteSource + Drop>(
    walk: &mut Walk<S>,
    listing: Listing,
    found: FoundBox,
    lack: Option<&Error>,
) -> Result<BoxReport, FileError> {
    let Looked { fields, refusal } = looked_at(walk, listing, &found)?;
    let alloc = listing.alloc;
    let refused = match found.fault.as_ref().or(refusal.as_ref()).or(lack) {
        Some(error) => Some(reason_text(alloc, error)?),
        None => None,
    };
    let kind = Code(FourCC::from(found.name));
    Ok(BoxReport {
        path: found.path,
        kind: Some(format!(in alloc; "{kind}")?),
        place: Whole(found.place),
        size: Whole(found.size),
        past_end: Whole(found.past_end),
        header_size: found.header_size,
        fields: fields.map(BoxFields),
        refused,
    })
}

/// What is said of a place where no box begins.
fn report_of_break(alloc: Global, broken: BrokenPlace) -> Result<BoxReport, AllocError> {
    let refused = match &broken.fault {
        Some(error) => Some(reason_text(alloc, error)?),
        None => None,
    };
    Ok(BoxReport {
        refused,
        path: broken.path,
        kind: None,
        place: Whole(broken.place),
        size: Whole(broken.size),
        past_end: Whole(0),
        header_size: 0,
        fields: None,
    })
}

/// The boxes that a file has to have, up to the one that a walk has come to.
#[derive(Clone, Copy, Debug, Default)]
struct NeededBoxes {
    has_ftyp: bool,
    has_moov: bool,
    /// Whether the file is refused already, or what it lacks was said.
    is_settled: bool,
}

impl NeededBoxes {
    /// Notes a step of the walk.
    fn note(&mut self, step: &Step) {
        match step {
            Step::Broken(broken) => {
                self.is_settled = self.is_settled || broken.fault.is_some();
            }
            Step::Box(found) => {
                self.is_settled = self.is_settled || found.fault.is_some();
                let is_own = found.depth == 1 && found.is_read;
                self.has_ftyp = self.has_ftyp || is_own && found.name == BoxType::FtypBox;
                self.has_moov = self.has_moov || is_own && found.name == BoxType::MoovBox;
            }
        }
    }

    /// Why a file is refused for its last box, which reaches to its end by a size of 0, and so isn't read: it lacks a
    /// box of that type.
    fn lack_by(&self, found: &FoundBox) -> Option<Error> {
        let mut needed = *self;
        let is_lacking = needed.missing() == Some(found.name);
        if found.depth == 1 && found.is_open_end && is_lacking {
            return Some(Error::InvalidData(
                "a box to the end of the file, by a size of 0, isn't read",
            ));
        }
        None
    }

    /// The box that a file lacks which ends here, the first time that it is asked for.
    fn missing(&mut self) -> Option<BoxType> {
        let is_settled = self.is_settled;
        self.is_settled = true;
        match (is_settled, self.has_ftyp, self.has_moov) {
            (false, false, _) => Some(BoxType::FtypBox),
            (false, true, false) => Some(BoxType::MoovBox),
            _ => None,
        }
    }
}

/// The boxes of a source, one after the other in file order, those within a box after it: also where it is no file that
/// opens. A box that is refused has its reason, and what follows it is listed too; where the file lacks a box that it
/// has to have, that is said at its end.
///
/// What is in memory is one box. Of payloads only those of boxes are read whose fields are listed, or which hold boxes.
#[derive(Drop)]
pub struct Boxes<S: ByteSource> {
    walk: Walk<S>,
    listing: Listing,
    needed: NeededBoxes,
    depth: u32,
}

impl<S: ByteSource + Drop> Boxes<S> {
    /// The boxes of a source that a request is for. Refused as [`Boxes::next_box`] is.
    pub fn new(alloc: Global, source: S, request: BoxesRequest) -> Result<Self, FileError> {
        let depth = request.depth.unwrap_or(u32::MAX);
        let most = if request.all {
            usize::MAX
        } else {
            FIRST_VALUES
        };
        Ok(Boxes {
            walk: Walk::new(alloc, source, depth)?,
            listing: Listing { alloc, most },
            needed: NeededBoxes::default(),
            depth,
        })
    }

    /// The bytes of the source.
    pub fn file_size(&self) -> u64 {
        self.walk.source_size()
    }

    /// The depth of the deepest boxes that are listed; 1 is that of the file's own.
    pub(crate) fn depth(&self) -> u32 {
        self.depth
    }

    /// The next box; `None` after the last.
    ///
    /// `Io` where the source refuses a read; else refused by `OutOfMemory` alone.
    pub fn next_box(&mut self) -> Result<Option<BoxReport>, FileError> {
        let Some(step) = self.walk.next_step()? else {
            return self.missing_box();
        };
        self.needed.note(&step);
        let report = match step {
            Step::Box(found) => {
                let lack = self.needed.lack_by(&found);
                report_of_box(&mut self.walk, self.listing, found, lack.as_ref())?
            }
            Step::Broken(broken) => report_of_break(self.listing.alloc, broken)?,
        };
        self.needed.is_settled = self.needed.is_settled || report.refused.is_some();
        Ok(Some(report))
    }

    /// What is said at the end of a file that lacks a box.
    fn missing_box(&mut self) -> Result<Option<BoxReport>, FileError> {
        let Some(name) = self.needed.missing() else {
            return Ok(None);
        };
        let broken = BrokenPlace {
            path: String::new(self.listing.alloc),
            place: self.file_size(),
            size: 0,
            fault: Some(Error::BoxNotFound(name)),
        };
        Ok(Some(report_of_break(self.listing.alloc, broken)?))
    }
}

impl Described for BoxFields {}

impl Serialize for BoxFields {
    fn serialize<S: Serializer>(&self, out: &mut S) -> Result<(), S::Error> {
        out.begin_map(None)?;
        for field in self.0.iter() {
            out.key(field.name)?;
            field.value.serialize(out)?;
        }
        out.end_map()
    }
}
