//! What movie fragments say of their samples beside places, times and marks.

ghost use Rattle.std.specs.Prelude.{◌↔◌, IfErr, IfSome, IsTrue};
ghost use Rattle.mp4_remux.specs.Refused.{SaysDiffers};
ghost use Rattle.mp4_remux.specs.Caused.{CausedByNone};
ghost use Rattle.mp4_remux.specs.Errors.{IsRefusalOf};
ghost use Rattle.mp4_remux.specs.Kept.{IsAmong};
ghost use Rattle.mp4_remux.specs.Named.{HasBoxWithin, NamesBy, kept_by_tables, of_samples};

use crate::box_bytes::{FoundBox, first_box, is_among};
use crate::error::RemuxError;
use mp4_codec::BoxType;

/// The codes of the boxes that say something of each sample: on which others it depends (`sdtp`, ISO/IEC 14496-12,
/// 8.6.4), how much it matters (`stdp`, 8.5.3), by how many bits it is padded (`padb`, 8.7.6), how much information
/// comes with it (`saiz`, 8.7.8), and how it is encrypted (`senc`, ISO/IEC 23001-7, 7.2).
const OF_SAMPLES: [u32; 5] = [
    0x7364_7470,
    0x7374_6470,
    0x7061_6462,
    0x7361_697a,
    0x7365_6e63,
];

/// The codes of the boxes in a movie fragment that say nothing which is lost when tables are made of it: `mfhd`,
/// `tfhd`, `tfdt` and `trun` (8.8), `free` and `skip` (8.1.2).
const KEPT_BY_TABLES: [u32; 6] = [
    0x6d66_6864,
    0x7466_6864,
    0x7466_6474,
    0x7472_756e,
    0x6672_6565,
    0x736b_6970,
];

/// Whether a box says something of each sample of a track's tables.
pub(crate) fn is_of_samples(name: BoxType) -> bool
    ensures { IsTrue result ↔ IsAmong of_samples name }
{
    is_among(&OF_SAMPLES, name)
}

/// Whether a box in a movie fragment says nothing that is lost when tables are made of it.
fn is_kept_by_tables(name: BoxType) -> bool
    ensures { IsTrue result ↔ IsAmong kept_by_tables name }
{
    is_among(&KEPT_BY_TABLES, name)
}

/// The first box among these bytes, which are those in a track fragment and end at this place of the file, that says
/// more than tables do.
fn more_in_track(bytes: &[u8], end: u64) -> Option<FoundBox>
    ensures more { IfSome result (λ f. IsAmong kept_by_tables f.name → ⊥) }
    ensures there { IfSome result (λ f. HasBoxWithin bytes.now end f.name f.place) }
{
    let mut rest = bytes;
    while let Some(one) = first_box(rest) {
        if !is_kept_by_tables(one.name) {
            return Some(one.found_before(end));
        }
        rest = one.after;
    }
    None
}

/// The first box among these bytes, which are those in a movie fragment and end at this place of the file, or in a
/// track fragment among them, that says more than tables do.
fn more_in(bytes: &[u8], end: u64) -> Option<FoundBox>
    ensures more { IfSome result (λ f. IsAmong kept_by_tables f.name → ⊥) }
    ensures there { IfSome result (λ f. HasBoxWithin bytes.now end f.name f.place) }
{
    let mut rest = bytes;
    while let Some(one) = first_box(rest) {
        if one.name == BoxType::TrafBox {
            if let Some(found) = more_in_track(one.payload, one.payload_end(end)) {
                return Some(found);
            }
        } else if !is_kept_by_tables(one.name) {
            return Some(one.found_before(end));
        }
        rest = one.after;
    }
    None
}

/// Checks that all that a movie fragment says is said by tables; the bytes of its box end at this place of the file.
pub(crate) fn check_fragment(bytes: &[u8], end: u64) -> Result<(), RemuxError>
    ensures names { IfErr result (NamesBy (HasBoxWithin bytes.now end)) }
    ensures refused { IfErr result (IsRefusalOf ⊥ ⊥) }
    ensures cause { IfErr result CausedByNone }
    ensures differs { IfErr result (SaysDiffers (λ _ _. ⊥)) }
{
    let Some(fragment) = first_box(bytes) else {
        return Ok(());
    };
    match more_in(fragment.payload, fragment.payload_end(end)) {
        Some(found) => Err(RemuxError::SaysOfSamples(found.name, found.place)),
        None => Ok(()),
    }
}
