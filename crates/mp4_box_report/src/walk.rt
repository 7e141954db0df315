//! A walk over the boxes of a source in file order, those within containers too, which goes on after a fault. What is a
//! fault, and which boxes are opened, is as the reading of the file has it.

use crate::wave::{EsdsInWave, esds_in_wave};
use mp4_codec::{BoxHeader, BoxType, ByteCursor, Error, HEADER_SIZE, OPEN_END};
use mp4_faults::{PathStep, bytes_before_children, looks_at_first_alone, reads_child, reads_items};
use mp4_source::{ByteSource, FileError, Window, read_into};
use std::alloc::{AllocError, Global};
use std::collections::HashMap;

/// The longest header of a box.
const MOST_HEADER: u64 = 16;

/// The bytes of a payload that say where the children of its box begin.
const HEAD: u64 = 10;

/// A box of a source, and how it is framed.
#[derive(Debug, Drop)]
pub struct FoundBox {
    pub name: BoxType,
    /// The types of the boxes that it is in and its own, as `moov/trak[2]/mdia`.
    pub path: String,
    /// How many boxes it is in, and itself.
    pub depth: u64,
    /// Where its first byte is in the source.
    pub place: u64,
    /// Its bytes, its header included; up to the end of the source or of the box that it is in, where it passes that.
    pub size: u64,
    /// How many bytes it says that it has past the end of the source.
    pub past_end: u64,
    /// The bytes of its header: 8 or 16.
    pub header_size: u64,
    /// Whether the reading of the file looks at it.
    pub is_read: bool,
    /// Whether it reaches to the end of what it is in, by a size of 0.
    pub is_open_end: bool,
    /// Whether the file is refused for how it is framed, and why.
    pub fault: Option<Error>,
}

/// Bytes where a box should begin, and why none does.
#[derive(Debug, Drop)]
pub struct BrokenPlace {
    /// The path of the box that they are in; empty for the source itself.
    pub path: String,
    pub place: u64,
    pub size: u64,
    /// Why the file is refused for it; `None` where the reading of the file doesn't look there.
    pub fault: Option<Error>,
}

/// What a walk comes to.
#[derive(Debug, Drop)]
pub enum Step {
    Box(FoundBox),
    Broken(BrokenPlace),
}

/// A container that the walk is in, or the source itself.
#[derive(Debug, Drop)]
struct Level {
    /// The type of the container; `None` for the source itself.
    name: Option<BoxType>,
    path: String,
    /// Where it ends in the source.
    end: u64,
    /// How many boxes of each type were found in it.
    counts: HashMap<u32, u32>,
    /// Whether the reading of the file looks at the next box in it.
    is_looked_at: bool,
    /// Whether it looks at lists of items in it, `ilst`.
    reads_items: bool,
    /// What it looks at in the `wave` of a sample entry of sound, where that is the container or the container is in
    /// it.
    in_wave: Option<PlacesInWave>,
}

/// Where a `wave` begins in the source, and the `esds` in it that is looked at.
#[derive(Clone, Copy, Debug)]
struct PlacesInWave {
    wave: u64,
    esds: u64,
}

/// A walk over the boxes of a source, in file order.
#[derive(Drop)]
pub struct Walk<S: ByteSource> {
    alloc: Global,
    source: Window<S>,
    place: u64,
    levels: Vec<Level>,
    most_depth: u32,
    /// How many bytes the source has.
    source_size: u64,
    room: Vec<u8>,
}

impl PlacesInWave {
    /// Those in a sample entry whose payload begins there.
    fn of(found: EsdsInWave, payload: u64) -> Self {
        PlacesInWave {
            wave: payload.saturating_add(found.wave as u64),
            esds: payload.saturating_add(found.esds as u64),
        }
    }
}

/// The path of the box of this type and number in a container.
fn path_in(alloc: Global, parent: &str, name: BoxType, number: u32) -> Result<String, AllocError> {
    let step = PathStep {
        name,
        number: u64::from(number),
    };
    let slash = if parent.is_empty() { "" } else { "/" };
    format!(in alloc; "{parent}{slash}{step}")
}

impl Level {
    fn new(alloc: Global, name: Option<BoxType>, path: String, end: u64) -> Self {
        Level {
            name,
            path,
            end,
            counts: HashMap::new(alloc),
            is_looked_at: true,
            reads_items: false,
            in_wave: None,
        }
    }

    /// Whether the reading of the file looks at the next box, which is of this type and begins there: in the file
    /// itself at those that it is made of, in a container at those that the container's reading looks at.
    fn reads(&self, name: BoxType, place: u64) -> bool {
        match (self.name, name) {
            (None, _) => is_read_in_file(name),
            (Some(_), BoxType::IlstBox) => self.reads_items,
            (Some(BoxType::Mp4aBox), BoxType::WaveBox) => {
                self.in_wave.is_some_and(|found| found.wave == place)
            }
            (Some(BoxType::WaveBox), BoxType::EsdsBox) => {
                self.in_wave.is_some_and(|found| found.esds == place)
            }
            (Some(parent), _) => self.is_looked_at && reads_child(parent, name),
        }
    }

    /// Notes that a box was found in it, after which the reading may look at no other.
    fn note_box(&mut self) {
        self.is_looked_at = match self.name {
            Some(parent) => self.is_looked_at && !looks_at_first_alone(parent),
            None => true,
        };
    }

    /// The number of the next box of this type in it, from 1.
    fn next_number(&mut self, name: BoxType) -> Result<u32, AllocError> {
        let code = u32::from(name);
        let number = match self.counts.get(&code) {
            Some(before) => before.saturating_add(1),
            None => 1,
        };
        self.counts.insert(code, number)?;
        Ok(number)
    }
}

/// Whether the reading of a file looks at its own boxes of this type.
fn is_read_in_file(name: BoxType) -> bool {
    matches!(
        name,
        BoxType::FtypBox | BoxType::MoovBox | BoxType::MoofBox | BoxType::EmsgBox
    )
}

/// How a box is framed that has so many bytes left in what it is in.
#[derive(Debug, Drop)]
struct Frame {
    name: BoxType,
    header_size: u64,
    /// All its bytes, or those that are left.
    size: u64,
    past_end: u64,
    /// Whether it says that it reaches to the end of what it is in.
    is_open_end: bool,
    fault: Option<Error>,
}

/// Where a header is: in the source itself or in a container, and before how many bytes.
#[derive(Clone, Copy)]
struct Surroundings {
    /// The bytes that are left in the source or in the container.
    left: u64,
    /// The bytes of the whole source.
    source_size: u64,
    is_child: bool,
}

/// Why the reading of a file refuses how its own box of this header is framed. A box that is skipped may pass the end.
fn fault_in_file(header: &BoxHeader, size: u64, around: Surroundings) -> Option<Error> {
    if header.size > around.source_size {
        return Some(Error::InvalidData("a box is larger than the file"));
    }
    if size > around.left && is_read_in_file(header.name) {
        return Some(Error::EndOfData);
    }
    None
}

/// Why the reading of a container refuses how a child of this header is framed.
fn fault_in_container(header: &BoxHeader, size: u64, around: Surroundings) -> Option<Error> {
    if header.size == OPEN_END {
        return Some(Error::InvalidData("a child with an open end"));
    }
    if size > around.left {
        return Some(Error::InvalidData("a child passes the end of its container"));
    }
    None
}

/// How the box is framed whose header begins these bytes.
fn framed(head: &[u8], around: Surroundings) -> mp4_codec::Result<Frame> {
    let mut cursor = ByteCursor::new(head);
    let header = BoxHeader::read(&mut cursor)?;
    let header_size = cursor.position();
    let said = header
        .size
        .saturating_sub(HEADER_SIZE)
        .saturating_add(header_size);
    let fault = if around.is_child {
        fault_in_container(&header, said, around)
    } else {
        fault_in_file(&header, said, around)
    };
    let is_open_end = header.size == OPEN_END;
    let size = if is_open_end { around.left } else { said };
    Ok(Frame {
        name: header.name,
        header_size,
        size: size.min(around.left),
        past_end: if around.is_child {
            0
        } else {
            size.saturating_sub(around.left)
        },
        is_open_end,
        fault,
    })
}

impl<S: ByteSource + Drop> Walk<S> {
    /// A walk over all boxes of a source, down to this depth; 1 is that of the source's own boxes.
    pub fn new(alloc: Global, source: S, most_depth: u32) -> Result<Self, FileError> {
        let mut source = Window::new(alloc, source)?;
        let end = source.len()?;
        let mut levels = Vec::new(alloc);
        levels.push(Level::new(alloc, None, String::new(alloc), end))?;
        Ok(Walk {
            alloc,
            source,
            place: 0,
            levels,
            most_depth,
            source_size: end,
            room: Vec::new(alloc),
        })
    }

    /// How many bytes the source has.
    pub fn source_size(&self) -> u64 {
        self.source_size
    }

    /// So many bytes of the source from a place on.
    pub fn bytes_at(&mut self, place: u64, size: usize) -> Result<&[u8], FileError> {
        read_into(&mut self.source, place, size, &mut self.room)?;
        Ok(self.room.as_slice())
    }

    /// The payload of a box that was found.
    pub fn payload_of(&mut self, found: &FoundBox) -> Result<&[u8], FileError> {
        let place = found.place.saturating_add(found.header_size);
        let size = found.size.saturating_sub(found.header_size);
        self.bytes_at(place, size as usize)
    }

    /// Leaves the containers that end here. Fewer than 8 bytes at the end of a container are skipped.
    fn leave_containers(&mut self) {
        for _ in 1..self.levels.len() {
            let end = match self.levels.last() {
                Some(level) => level.end,
                None => return,
            };
            if end.saturating_sub(self.place) >= HEADER_SIZE {
                return;
            }
            self.place = self.place.max(end);
            self.levels.pop();
        }
    }

    /// What comes next: a box, or a place where none begins, after which the container that it is in is left; `None`
    /// at the end of the source.
    pub fn next_step(&mut self) -> Result<Option<Step>, FileError> {
        self.leave_containers();
        let Some(level) = self.levels.last() else {
            return Ok(None);
        };
        let end = level.end;
        let left = end.saturating_sub(self.place);
        if left == 0 {
            return Ok(None);
        }
        let around = Surroundings {
            left,
            source_size: self.source_size,
            is_child: self.levels.len() > 1,
        };
        let place = self.place;
        let head = self.bytes_at(place, left.min(MOST_HEADER) as usize)?;
        match framed(head, around) {
            Ok(frame) => Ok(Some(Step::Box(self.enter(frame)?))),
            Err(fault) => Ok(Some(Step::Broken(self.break_off(end, fault)?))),
        }
    }

    /// Passes over what is left of the container, where no box begins.
    fn break_off(&mut self, end: u64, fault: Error) -> Result<BrokenPlace, AllocError> {
        let place = self.place;
        self.place = end;
        let (path, is_looked_at) = match self.levels.last() {
            Some(level) => (level.path.clone()?, level.is_looked_at),
            None => (String::new(self.alloc), true),
        };
        Ok(BrokenPlace {
            path,
            place,
            size: end.saturating_sub(place),
            fault: if is_looked_at { Some(fault) } else { None },
        })
    }

    /// Where the children of a box that is read begin in its payload of so many bytes from a place on; `None` where its
    /// reading looks at none, or where they would be too deep.
    fn children_of(
        &mut self,
        name: BoxType,
        payload: u64,
        size: u64,
    ) -> Result<Option<u64>, FileError> {
        let depth = self.levels.len() as u64;
        if depth >= u64::from(self.most_depth) {
            return Ok(None);
        }
        if name == BoxType::WaveBox {
            return Ok(Some(0));
        }
        let head = self.bytes_at(payload, size.min(HEAD) as usize)?;
        Ok(bytes_before_children(name, head).filter(|fields| *fields <= size))
    }

    /// Whether the reading of the file looks at the box of this frame. One that reaches to the end of the file by a
    /// size of 0 isn't read, whatever its type.
    fn is_read(&self, frame: &Frame) -> bool {
        match self.levels.last() {
            Some(level) => level.reads(frame.name, self.place) && !frame.is_open_end,
            None => false,
        }
    }

    /// Whether the reading of a box of this type looks at lists of items in it.
    fn looks_at_items(&mut self, name: BoxType, payload: u64, end: u64) -> Result<bool, FileError> {
        if name != BoxType::MetaBox {
            return Ok(false);
        }
        let alloc = self.alloc;
        let bytes = self.bytes_at(payload, end.saturating_sub(payload) as usize)?;
        Ok(reads_items(alloc, name, bytes)?)
    }

    /// What the reading of a box of this type looks at in a `wave`: in that of a sample entry of sound, where no `esds`
    /// is beside it; the `wave` itself is in such an entry.
    fn looked_at_in_wave(
        &mut self,
        name: BoxType,
        payload: u64,
        end: u64,
    ) -> Result<Option<PlacesInWave>, FileError> {
        match name {
            BoxType::WaveBox => Ok(self.levels.last().and_then(|level| level.in_wave)),
            BoxType::Mp4aBox => {
                let alloc = self.alloc;
                let bytes = self.bytes_at(payload, end.saturating_sub(payload) as usize)?;
                let found = esds_in_wave(alloc, bytes)?;
                Ok(found.map(|found| PlacesInWave::of(found, payload)))
            }
            _ => Ok(None),
        }
    }

    /// Goes to the first child of a box of this type, which ends at a place. Its payload and its children begin at the
    /// others.
    fn open(
        &mut self,
        name: BoxType,
        path: &str,
        payload: u64,
        children: u64,
        end: u64,
    ) -> Result<(), FileError> {
        let path = String::from_str(self.alloc, path)?;
        let mut level = Level::new(self.alloc, Some(name), path, end);
        level.reads_items = self.looks_at_items(name, payload, end)?;
        level.in_wave = self.looked_at_in_wave(name, payload, end)?;
        self.levels.push(level)?;
        self.place = children;
        Ok(())
    }

    /// The box of this frame; the walk is then at its first child, or after it.
    fn enter(&mut self, frame: Frame) -> Result<FoundBox, FileError> {
        let is_read = self.is_read(&frame);
        let Frame {
            name,
            header_size,
            size,
            past_end,
            is_open_end,
            fault,
        } = frame;
        let place = self.place;
        let end = place.saturating_add(size);
        let payload = place.saturating_add(header_size);
        let depth = self.levels.len() as u64;
        let (path, is_looked_at) = self.step_to(name)?;
        let fields = if is_read {
            self.children_of(name, payload, size.saturating_sub(header_size))?
        } else {
            None
        };
        match fields {
            Some(fields) => {
                let children = payload.saturating_add(fields);
                self.open(name, path.as_str(), payload, children, end)?;
            }
            None => self.place = end,
        }
        Ok(FoundBox {
            name,
            path,
            depth,
            place,
            size,
            past_end,
            header_size,
            is_read,
            is_open_end,
            fault: if is_looked_at { fault } else { None },
        })
    }

    /// The path of the next box, of this type, in the container, and whether the reading of the container looks there.
    fn step_to(&mut self, name: BoxType) -> Result<(String, bool), AllocError> {
        match self.levels.last_mut() {
            Some(level) => {
                let number = level.next_number(name)?;
                let is_looked_at = level.is_looked_at;
                level.note_box();
                let path = path_in(self.alloc, level.path.as_str(), name, number)?;
                Ok((path, is_looked_at))
            }
            None => Ok((String::new(self.alloc), true)),
        }
    }
}
