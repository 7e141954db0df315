//! The `esds` that is at fault in the `wave` of a sample entry of sound, as QuickTime writes it.

use crate::said::{LARGE_HEADER_SIZE, said_by};
use crate::why::misfit::number_after;
use mp4_codec::{BoxType, HEADER_SIZE};
use mp4_faults::{FaultPlace, PathStep, bytes_before_children, refusal_of};
use mp4_source::{ByteSource, FileError, read_into};
use std::alloc::{AllocError, Global};

/// A box in a payload: its type, and the places of its first byte, of its payload's first byte and after its last one,
/// counted from that payload's first byte.
#[derive(Clone, Copy)]
struct Part {
    name: BoxType,
    place: usize,
    from: usize,
    end: usize,
}

/// The box that begins at a place of a payload and ends within it.
fn part_at(payload: &[u8], place: usize) -> Option<Part> {
    let said = said_by(payload.get(place..)?);
    let left = payload.len().saturating_sub(place) as u64;
    if said.size < said.header_size || said.size > left {
        return None;
    }
    Some(Part {
        name: said.name,
        place,
        from: place.saturating_add(said.header_size as usize),
        end: place.saturating_add(said.size as usize),
    })
}

/// The boxes in a payload from a place on; `None` where they don't fill it, but for fewer than 8 bytes.
fn parts_of(alloc: Global, payload: &[u8], from: usize) -> Result<Option<Vec<Part>>, AllocError> {
    let mut parts = Vec::new(alloc);
    let mut place = from;
    for _ in 0..payload.len() / HEADER_SIZE as usize {
        if payload.len().saturating_sub(place) < HEADER_SIZE as usize {
            break;
        }
        let Some(part) = part_at(payload, place) else {
            return Ok(None);
        };
        place = part.end;
        parts.push(part)?;
    }
    Ok(Some(parts))
}

/// The last of these boxes that is of this type, and the step to it.
fn last_of(
    alloc: Global,
    parts: &[Part],
    name: BoxType,
) -> Result<Option<(PathStep, Part)>, AllocError> {
    let mut names = Vec::new(alloc);
    let mut last = None;
    for part in parts {
        if u32::from(part.name) == u32::from(name) {
            let number = number_after(names.as_slice(), name);
            last = Some((PathStep { name, number }, *part));
            names.push(name)?;
        }
    }
    Ok(last)
}

/// The `wave` that is looked at in the payload of a sample entry, and the step to it: the last, where there is no
/// `esds` beside it.
fn wave_in(alloc: Global, payload: &[u8]) -> Result<Option<(PathStep, Part)>, AllocError> {
    let Some(from) = bytes_before_children(BoxType::Mp4aBox, payload) else {
        return Ok(None);
    };
    let Some(parts) = parts_of(alloc, payload, from as usize)? else {
        return Ok(None);
    };
    match last_of(alloc, parts.as_slice(), BoxType::EsdsBox)? {
        Some(_) => Ok(None),
        None => last_of(alloc, parts.as_slice(), BoxType::WaveBox),
    }
}

/// The `esds` that is looked at in the payload of a `wave`, and the step to it: the last.
fn esds_in(alloc: Global, wave: &[u8]) -> Result<Option<(PathStep, Part)>, AllocError> {
    match parts_of(alloc, wave, 0)? {
        Some(parts) => last_of(alloc, parts.as_slice(), BoxType::EsdsBox),
        None => Ok(None),
    }
}

/// The `wave` in a sample entry of sound and the `esds` in it that are looked at: the steps to them, where they begin
/// in the entry's payload, and where the payload of the `esds` is there.
#[derive(Clone, Copy)]
pub(crate) struct EsdsInWave {
    to_wave: PathStep,
    to_esds: PathStep,
    pub wave: usize,
    pub esds: usize,
    from: usize,
    end: usize,
}

/// What the reading of a sample entry of sound with this payload looks at in its `wave`, if it looks there.
pub(crate) fn esds_in_wave(
    alloc: Global,
    payload: &[u8],
) -> Result<Option<EsdsInWave>, AllocError> {
    let Some((to_wave, wave)) = wave_in(alloc, payload)? else {
        return Ok(None);
    };
    let inside = payload.get(wave.from..wave.end).unwrap_or(&[]);
    let Some((to_esds, esds)) = esds_in(alloc, inside)? else {
        return Ok(None);
    };
    Ok(Some(EsdsInWave {
        to_wave,
        to_esds,
        wave: wave.place,
        esds: wave.from.saturating_add(esds.place),
        from: wave.from.saturating_add(esds.from),
        end: wave.from.saturating_add(esds.end),
    }))
}

/// The `esds` in the `wave` of a sample entry of sound with this payload, where it is refused.
pub(crate) fn refused_in_wave(
    alloc: Global,
    payload: &[u8],
) -> mp4_codec::Result<Option<EsdsInWave>> {
    let Some(found) = esds_in_wave(alloc, payload)? else {
        return Ok(None);
    };
    let bytes = payload.get(found.from..found.end).unwrap_or(&[]);
    match refusal_of(alloc, BoxType::EsdsBox, bytes)? {
        Some(_) => Ok(Some(found)),
        None => Ok(None),
    }
}

/// Leads the fault of a sample entry of sound on to the `esds` in its `wave`, where it is that one's.
pub(crate) fn lead_into_wave<S: ByteSource>(
    alloc: Global,
    source: &mut S,
    fault: &mut FaultPlace,
) -> Result<(), FileError> {
    let left = source.len()?.saturating_sub(fault.place);
    let mut bytes = Vec::new(alloc);
    read_into(
        source,
        fault.place,
        left.min(LARGE_HEADER_SIZE) as usize,
        &mut bytes,
    )?;
    let said = said_by(bytes.as_slice());
    let from = fault.place.saturating_add(said.header_size);
    let size = said.size.min(left).saturating_sub(said.header_size);
    read_into(source, from, size as usize, &mut bytes)?;
    let Some(found) = refused_in_wave(alloc, bytes.as_slice())? else {
        return Ok(());
    };
    fault.path.push(found.to_wave)?;
    fault.path.push(found.to_esds)?;
    fault.place = from.saturating_add(found.esds as u64);
    Ok(())
}
