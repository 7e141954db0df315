//! What the decoder of a track of video is started with.

ghost use Rattle.std.specs.Prelude.{◌≡◌, ◌<◌, ◌++◌, length, IfErr, OnErr, Ok};
ghost use Rattle.mp4_codec.specs.Bytes.{list_at};
ghost use Rattle.mp4_codec.specs.Cause.{Answers};
ghost use Rattle.mp4_codec.specs.declared.error.Error.TheVariants.{OutOfMemory};
ghost use Rattle.mp4_entry.specs.Avcc.{unit_at};
ghost use Rattle.mp4_extract.specs.ParameterSets.{HasArrays, HasSets};
ghost use Rattle.mp4_extract.specs.ParameterSets.{after_units, array_at, arrays_at, avc_stream, hevc_stream};

use crate::annex_b::AnnexB;
use crate::coding::VideoCoding;
use mp4_codec::{Fields, Items, Result, TryClone};
use mp4_entry::{AvcCBox, HvcCBox, NalUnit};
use std::alloc::Global;

/// Where the byte with the size of lengths lies in `hvcC`.
const BYTES_BEFORE_LENGTH_SIZE: usize = 21;

/// Adds copies of units to a list.
fn add_units(units: &[NalUnit], list: &mut Items<NalUnit>) -> Result<()>
    ensures list { Answers (λ _. list.new) result (Ok (list.old ++ units.now)) }
    ensures memory { OnErr result (0 < length units.now) }
{
    for unit in units {
        let copy = unit.try_clone()?;
        list.push(copy)?;
    }
    Ok(())
}

/// The sequence parameter sets of `avcC`, and then its picture parameter sets.
#[tactic(auto, unfolding(crate::specs::ParameterSets::avc_stream))]
pub(crate) fn annex_b_of_avcc(alloc: Global, avcc: &AvcCBox) -> Result<AnnexB>
    ensures stream { Answers (λ s. s) result (Ok (avc_stream avcc.now)) }
    ensures memory { OnErr result (HasSets avcc.now) }
{
    let mut parameter_sets = Items::new(alloc);
    add_units(avcc.sequence_parameter_sets.as_slice(), &mut parameter_sets)?;
    add_units(avcc.picture_parameter_sets.as_slice(), &mut parameter_sets)?;
    Ok(AnnexB::new(
        VideoCoding::H264,
        avcc.length_size_minus_one,
        parameter_sets,
    ))
}

/// The next unit of an array of `hvcC`: its length in two bytes, and its bytes.
#[tactic(auto, unfolding(mp4_entry::specs::Avcc::unit_at))]
fn read_unit(alloc: Global, fields: &mut Fields) -> Result<NalUnit>
    ensures { Answers (λ u. (u, fields.new)) result (unit_at fields.old) }
{
    let length = fields.u16()?;
    let bytes = fields.bytes(usize::from(length))?;
    Ok(NalUnit {
        bytes: Items::from(bytes.to_vec(alloc)?),
    })
}

/// Adds so many units to a list.
fn read_units(
    alloc: Global,
    fields: &mut Fields,
    count: u16,
    list: &mut Items<NalUnit>,
) -> Result<()>
    ensures { Answers (λ _. (list.new, fields.new)) result (after_units list.old (list_at unit_at count fields.old)) }
{
    for _ in 0..count {
        let unit = read_unit(alloc, fields)?;
        list.push(unit)?;
    }
    Ok(())
}

/// Adds the units of the next array of `hvcC`, which begins with the type of its units and their number.
#[tactic(auto, unfolding(crate::specs::ParameterSets::array_at))]
fn read_array(alloc: Global, fields: &mut Fields, list: &mut Items<NalUnit>) -> Result<()>
    ensures { Answers (λ _. (list.new, fields.new)) result (after_units list.old (array_at fields.old)) }
{
    fields.u8()?;
    let count = fields.u16()?;
    read_units(alloc, fields, count, list)
}

/// Adds the units of so many arrays.
fn read_arrays(
    alloc: Global,
    fields: &mut Fields,
    count: u8,
    list: &mut Items<NalUnit>,
) -> Result<()>
    ensures arrays { Answers (λ _. (list.new, fields.new)) result
        (after_units list.old (arrays_at count fields.old)) }
    ensures some { OnErr result (0 < count) }
{
    for _ in 0..count {
        read_array(alloc, fields, list)?;
    }
    Ok(())
}

/// The units of all arrays of `hvcC` in their order (ISO/IEC 14496-15, 8.3.3.1).
///
/// `InvalidData` where one passes its end.
#[tactic(auto, unfolding(crate::specs::ParameterSets::hevc_stream, crate::specs::ParameterSets::array_count))]
pub(crate) fn annex_b_of_hvcc(alloc: Global, hvcc: &HvcCBox) -> Result<AnnexB>
    ensures stream { Answers (λ s. s) result (hevc_stream hvcc.now) }
    ensures memory { IfErr result (λ e. e ≡ OutOfMemory → HasArrays hvcc.now) }
{
    let mut parameter_sets = Items::new(alloc);
    let mut fields = Fields::new(hvcc.raw.as_slice());
    fields.bytes(BYTES_BEFORE_LENGTH_SIZE)?;
    let length_size_minus_one = fields.u8()?;
    let count = fields.u8()?;
    read_arrays(alloc, &mut fields, count, &mut parameter_sets)?;
    Ok(AnnexB::new(VideoCoding::H265, length_size_minus_one, parameter_sets))
}
