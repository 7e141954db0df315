//! Boxes that say places of a file in a way that isn't rewritten.

ghost use Rattle.std.specs.Prelude.{◌≡◌, ◌↔◌, ◌≤◌, ◌++◌, ◌⊎◌, ℕ, List, IfErr, IfSome, IsTrue};
ghost use Rattle.mp4_remux.specs.Refused.{SaysDiffers};
ghost use Rattle.mp4_remux.specs.Caused.{CausedByNone};
ghost use Rattle.mp4_remux.specs.Errors.{IsRefusalOf};
ghost use Rattle.mp4_remux.specs.Kept.{IsAmong};
ghost use Rattle.mp4_remux.specs.Frames.{of_fragments};
ghost use Rattle.mp4_remux.specs.Named.{HasBoxWithin, IsOneOf, IsPlacing, NamesBy, of_samples, placing};

use crate::box_bytes::{BoxBytes, FoundBox, first_box, is_among};
use crate::error::RemuxError;
use crate::fragment_boxes::is_of_samples;
use crate::top_level::TopBox;
use mp4_codec::BoxType;

/// The codes of the boxes in a movie box or in metadata that say places: where its items are (`iloc`, ISO/IEC 14496-12,
/// 8.11.3), where the information is that comes with samples (`saio`, 8.7.9), and in which file samples are (`dref`,
/// 8.7.2).
const PLACING: [u32; 3] = [0x696c_6f63, 0x7361_696f, 0x6472_6566];

/// The codes of the boxes of a file that say places of others: `moof` (8.8.4), `mfra` (8.8.9) and `sidx` (8.16.3).
const PLACING_OTHERS: [u32; 3] = [0x6d6f_6f66, 0x6d66_7261, SEGMENT_PLACES];

/// `sidx`, where segments are (8.16.3).
const SEGMENT_PLACES: u32 = 0x7369_6478;

/// `meco`, which has more metadata (8.11.7).
pub(crate) const MORE_METADATA: u32 = 0x6d65_636f;

/// The codes of the boxes that go with fragments: `moof` (8.8.4), `mfra`, where movie fragments are (8.8.9), `sidx` and
/// `ssix`, where segments and their levels are (8.16.3 and 8.16.4), `styp`, what specifications a segment follows
/// (8.16.2), and `prft`, when a movie fragment was made (8.16.5).
const OF_FRAGMENTS: [u32; 6] = [
    0x6d6f_6f66,
    0x6d66_7261,
    SEGMENT_PLACES,
    0x7373_6978,
    0x7374_7970,
    0x7072_6674,
];

/// How many boxes are entered, one in the other, at most: none that says places is deeper in a movie box.
const DEEPEST: usize = 8;

/// Whether boxes that say places may be in one of this type.
fn is_entered(name: BoxType) -> bool {
    match name {
        BoxType::MoovBox
        | BoxType::TrakBox
        | BoxType::MdiaBox
        | BoxType::MinfBox
        | BoxType::StblBox
        | BoxType::DinfBox
        | BoxType::UdtaBox
        | BoxType::MetaBox => true,
        _ => u32::from(name) == MORE_METADATA,
    }
}

/// Whether the samples of a `dref` are in another file: where one of its entries lacks the flag that says that they are
/// in this one (8.7.2).
fn is_elsewhere(data_references: &[u8]) -> bool {
    let mut rest = match data_references.len() >= 8 {
        true => &data_references[8..],
        false => &[],
    };
    while let Some(entry) = first_box(rest) {
        match entry.payload.get(3) {
            Some(flags) if *flags % 2 == 1 => {}
            _ => return true,
        }
        rest = entry.after;
    }
    false
}

/// Whether a box says places that aren't rewritten: a `dref` only those of another file.
fn says_places(one: &BoxBytes) -> bool
    ensures { IsTrue result → IsAmong placing one.now.name }
{
    is_among(&PLACING, one.name) && (one.name != BoxType::DrefBox || is_elsewhere(one.payload))
}

/// The bytes in which the children of a box are: those of `meta` come after its version and flags, which files of
/// QuickTime leave out.
fn children_of<'a>(one: &BoxBytes<'a>) -> &'a [u8]
    ensures { (skipped : List ℕ) × (one.now.payload.now ≡ skipped ++ result.now) }
{
    if one.name == BoxType::MetaBox && one.payload.len() >= 4 {
        if let Some(_) = first_box(&one.payload[4..]) {
            return &one.payload[4..];
        }
    }
    one.payload
}

/// The first box among these bytes, which end at a place of the file, or in one of them, that says places, or where
/// tables are made, something of each sample.
fn find_in(bytes: &[u8], end: u64, level: usize, is_gathered: bool) -> Option<FoundBox>
    requires { level ≤ 8 }
    ensures kind { IfSome result (λ f. IsAmong placing f.name ⊎ IsAmong of_samples f.name) }
    ensures there { IfSome result (λ f. HasBoxWithin bytes.now end f.name f.place) }
{
    let mut rest = bytes;
    while let Some(one) = first_box(rest) {
        if says_places(&one) || is_gathered && is_of_samples(one.name) {
            return Some(one.found_before(end));
        }
        if level < DEEPEST && is_entered(one.name) {
            let found = find_in(
                children_of(&one),
                one.payload_end(end),
                level + 1,
                is_gathered,
            );
            if let Some(found) = found {
                return Some(found);
            }
        }
        rest = one.after;
    }
    None
}

/// Checks that no box in this one, whose bytes end at this place of the file, says places that would be wrong, or where
/// tables are made, something of each sample that they don't say.
pub(crate) fn check_box(bytes: &[u8], end: u64, is_gathered: bool) -> Result<(), RemuxError>
    ensures names { IfErr result (NamesBy (HasBoxWithin bytes.now end)) }
    ensures refused { IfErr result (IsRefusalOf ⊥ ⊥) }
    ensures cause { IfErr result CausedByNone }
{
    let Some(FoundBox { name, place }) = find_in(bytes, end, 0, is_gathered) else {
        return Ok(());
    };
    if is_of_samples(name) {
        return Err(RemuxError::SaysOfSamples(name, place));
    }
    Err(RemuxError::SaysPlaces(name, place))
}

/// Whether a box goes with the fragments of a movie, or is where the data of its samples is.
pub(crate) fn is_of_fragments(name: BoxType) -> bool
    ensures { IsTrue result ↔ IsAmong of_fragments name }
{
    is_among(&OF_FRAGMENTS, name)
}

/// Whether a box says where segments are, by how far they are from its own end.
pub(crate) fn is_segment_index(name: BoxType) -> bool
    ensures { IsTrue result → IsPlacing name }
{
    u32::from(name) == SEGMENT_PLACES
}

/// Checks that a box of the file is none that says places of others, and no movie fragment.
pub(crate) fn check_top_box(one: TopBox) -> Result<(), RemuxError>
    ensures names { IfErr result (NamesBy (λ name place. (one.name ≡ name) × (one.place ≡ place))) }
    ensures refused { IfErr result (IsRefusalOf ⊥ ⊥) }
    ensures cause { IfErr result CausedByNone }
{
    if is_among(&PLACING_OTHERS, one.name) {
        return Err(RemuxError::SaysPlaces(one.name, one.place));
    }
    Ok(())
}

/// Checks that no box of the file is one that says places of others, or a movie fragment.
pub(crate) fn check_top_level(boxes: &[TopBox]) -> Result<(), RemuxError>
    ensures names { IfErr result (NamesBy (IsOneOf boxes.now)) }
    ensures refused { IfErr result (IsRefusalOf ⊥ ⊥) }
    ensures cause { IfErr result CausedByNone }
    ensures differs { IfErr result (SaysDiffers (λ _ _. ⊥)) }
{
    for i in 0..boxes.len() {
        check_top_box(boxes[i])?;
    }
    Ok(())
}
