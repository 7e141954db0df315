//! What a decoder of AVC video is started with.

ghost use Rattle.mp4_codec.specs.ExactTest.{by_test, field_tests};
ghost use Rattle.std.specs.Prelude.{◌≡◌, ◌-◌, ◌^◌, [], ◌∷◌, min, length, Ok, OnOk, unwrap_or, slice_get};
ghost use Rattle.std.specs.List.{flat_map};
ghost use Rattle.mp4_codec.specs.declared.box_type.BoxType.TheVariants.{AvcCBox as avcc};
ghost use Rattle.mp4_codec.specs.Cause.{Gives, Answers, Checks, Reads};
ghost use Rattle.mp4_codec.specs.Bytes.{Appends, number, list_at};
ghost use Rattle.mp4_codec.specs.Boxes.{size_around, all_refusal};
ghost use Rattle.mp4_entry.specs.Avcc.{unit_at, unit, unit_refusal, after_units, avcc_check, avcc_of, avcc_payload};
ghost use Rattle.mp4_entry.specs.Avcc.{avcc_refusal, default_avcc, avcc_of_sets, IsInRangeAvcC, IsInRangeNalUnit};
ghost use Rattle.mp4_entry.specs.Avcc.{IsWellFormedAvcC};
ghost use Rattle.mp4_entry.specs.AvccLaws.{avcc_again};
ghost use Rattle.mp4_codec.specs.Early.{refused_at_once};

use crate::narrow::{check_most, put_low_u8, put_low_u16};
use mp4_codec::{
    BoxType, DebugItem, ExactEq, Field, Fields, InRange, Items, Mp4Box, Put, ReadBox, Result,
    SharedItem, SharedItems, TryClone, WriteBox, put_bytes, put_u8,
};
use std::alloc::Global;
use std::slice;

/// A parameter set: a NAL unit of AVC video, without a start code (ISO/IEC 14496-15, 5.3.3.1).
///
/// One of more than 65,535 bytes isn't written, but `Unrepresentable`.
#[derive(Debug, PartialEq, Eq, Drop)]
pub struct NalUnit {
    pub bytes: Items<u8>,
}

impl ExactEq for NalUnit {
    ghost exact = { by_test (Prim.hlevel field_tests) };
}

impl DebugItem for NalUnit {}

impl SharedItem for NalUnit {
    fn as_one(&self) -> &[NalUnit] {
        slice::from_ref(self)
    }
}

impl NalUnit {
    /// The next set: its length in two bytes, and its bytes.
    #[tactic(auto, unfolding(crate::specs::Avcc::unit_at))]
    fn read(alloc: Global, fields: &mut Fields) -> Result<Self>
        ensures { Answers (λ u. (u, fields.new)) result (unit_at fields.old) }
    {
        let length = fields.u16()?;
        let bytes = fields.bytes(length as usize)?;
        Ok(NalUnit {
            bytes: Items::from(bytes.to_vec(alloc)?),
        })
    }

    /// Whether the set fits the two bytes of its length; else it is `Unrepresentable`.
    fn check(&self) -> Result<()>
        ensures { Checks result (unit_refusal self.now) }
    {
        check_most(self.bytes.len() as u64, 0xffff)
    }

    /// Adds the set: the two low bytes of its length, and its bytes.
    fn put(&self, out: &mut Vec<u8>) -> Put
        ensures { OnOk result (Appends out.old.items out.new.items (unit self.now)) }
    {
        put_low_u16(out, self.bytes.len() as u64)?;
        put_bytes(out, self.bytes.as_slice())?;
        Ok(())
    }

    /// The bytes of the set, its length included.
    #[tactic(auto, using(crate::proofs::Sizes::sizes))]
    fn size(&self) -> u64
        ensures { result ≡ min (length (unit self.now)) (2 ^ 64 - 1) }
    {
        (self.bytes.len() as u64).saturating_add(2)
    }
}

impl TryClone for NalUnit {
    fn try_clone(&self) -> Result<Self> {
        Ok(NalUnit {
            bytes: self.bytes.try_clone()?,
        })
    }
}

impl InRange for NalUnit {
    ghost IsInRange = { IsInRangeNalUnit };

    fn in_range(&self) {
        self.bytes.in_range();
    }
}

/// Passes over so many sets. The first that passes the end is `InvalidData`.
#[tactic(auto, unfolding(crate::specs::Avcc::unit_at))]
fn skip_units(fields: &mut Fields, count: u8) -> Field<()>
    ensures { Reads (λ _. fields.new) result (after_units count fields.old) }
{
    for _ in 0..count {
        let length = fields.u16()?;
        fields.bytes(length as usize)?;
    }
    Ok(())
}

/// Whether a payload holds a configuration: what refuses it is found without a request for memory.
#[tactic(auto, unfolding(crate::specs::Avcc::avcc_check))]
fn check_payload(payload: &[u8]) -> Field<()>
    ensures { Reads (λ _. tt) result (avcc_check payload.now) }
{
    let mut fields = Fields::new(payload);
    fields.u8()?;
    fields.u8()?;
    fields.u8()?;
    fields.u8()?;
    fields.u8()?;
    let sequence_count = fields.u8()?;
    skip_units(&mut fields, sequence_count % 32)?;
    let picture_count = fields.u8()?;
    skip_units(&mut fields, picture_count)?;
    Ok(())
}

/// So many sets, one after the other, in a list that grows once. The first that passes the end is `InvalidData`.
fn read_units(alloc: Global, fields: &mut Fields, count: u8) -> Result<Items<NalUnit>>
    ensures { Answers (λ units. (units, fields.new)) result (list_at unit_at count fields.old) }
{
    let mut units = Items::with_capacity(alloc, count as usize)?;
    for _ in 0..count {
        let unit = NalUnit::read(alloc, fields)?;
        units.push(unit)?;
    }
    Ok(units)
}

/// The same in a list that copies share.
fn read_sets(alloc: Global, fields: &mut Fields, count: u8) -> Result<SharedItems<NalUnit>>
    ensures { Answers (λ units. (units, fields.new)) result (list_at unit_at count fields.old) }
{
    let units = read_units(alloc, fields, count)?;
    Ok(SharedItems::from_items(units)?)
}

/// Adds sets, one after the other.
fn put_units(out: &mut Vec<u8>, units: &SharedItems<NalUnit>) -> Put
    ensures { OnOk result (Appends out.old.items out.new.items (flat_map unit units.now)) }
{
    for item in units.as_slice() {
        item.put(out)?;
    }
    Ok(())
}

/// The bytes of sets; they stop at 2^64 - 1.
fn units_size(units: &SharedItems<NalUnit>) -> u64
    ensures { result ≡ min (length (flat_map unit units.now)) (2 ^ 64 - 1) }
{
    let mut size = 0u64;
    for item in units.as_slice() {
        size = size.saturating_add(item.size());
    }
    size
}

/// Whether each set fits the two bytes of its length; else it is `Unrepresentable`.
fn check_units(units: &SharedItems<NalUnit>) -> Result<()>
    ensures { Checks result (all_refusal unit_refusal units.now) }
{
    for item in units.as_slice() {
        item.check()?;
    }
    Ok(())
}

/// The byte of a set at an index, which counts from 0; 0 where it has none.
fn byte_at(set: &Items<u8>, index: usize) -> u8
    ensures { result ≡ unwrap_or (slice_get set.now index) 0 }
{
    match set.get(index) {
        None => 0,
        Some(byte) => *byte,
    }
}

/// One set in a list.
fn one_unit(alloc: Global, bytes: &Items<u8>) -> Result<SharedItems<NalUnit>>
    ensures { Answers (λ units. units) result (Ok (record { bytes = bytes.now } ∷ [])) }
{
    let mut units = SharedItems::new(alloc);
    let bytes = bytes.try_clone()?;
    units.push(NalUnit { bytes })?;
    Ok(units)
}

/// What a decoder of AVC video is started with, `avcC` (ISO/IEC 14496-15, 5.3.3.1).
///
/// Sets that pass the end are `InvalidData`; what follows them is skipped. The high six bits of the byte that
/// `length_size_minus_one` is in, and the high three of the byte with the count of sequence parameter sets, aren't
/// looked at and are written as ones. `Unrepresentable`, when it is written: a `length_size_minus_one` over 3, over 31
/// sequence parameter sets, over 255 picture parameter sets, a set of more than 65,535 bytes.
#[derive(Debug, PartialEq, Eq, Drop)]
pub struct AvcCBox {
    /// 1 by the standard; any other is read and written too.
    pub configuration_version: u8,
    /// The profile, as the second byte of a sequence parameter set has it: 66 baseline, 77 main, 100 high.
    pub avc_profile_indication: u8,
    /// The constraints that the third byte of a sequence parameter set has.
    pub profile_compatibility: u8,
    /// The level times 10, as the fourth byte of a sequence parameter set has it.
    pub avc_level_indication: u8,
    /// How many bytes the length before each NAL unit of a sample has, less 1: at most 3.
    pub length_size_minus_one: u8,
    pub sequence_parameter_sets: SharedItems<NalUnit>,
    pub picture_parameter_sets: SharedItems<NalUnit>,
}

impl ExactEq for AvcCBox {
    ghost exact = { by_test (Prim.hlevel field_tests) };
}

impl AvcCBox {
    /// Lengths of four bytes, and no sets.
    pub fn default(alloc: Global) -> Result<Self>
        ensures { Gives (λ b. b) result (Ok default_avcc) }
    {
        Ok(AvcCBox {
            configuration_version: 1,
            avc_profile_indication: 0,
            profile_compatibility: 0,
            avc_level_indication: 0,
            length_size_minus_one: 3,
            sequence_parameter_sets: SharedItems::new(alloc),
            picture_parameter_sets: SharedItems::new(alloc),
        })
    }

    /// One set of each kind, with the profile, its constraints and the level from the second, third and fourth byte of
    /// the sequence parameter set; a byte that it hasn't counts as 0. Lengths have four bytes.
    pub(crate) fn of_sets(
        alloc: Global,
        seq_param_set: &Items<u8>,
        pic_param_set: &Items<u8>,
    ) -> Result<Self>
        ensures { Answers (λ b. b) result (Ok (avcc_of_sets seq_param_set.now pic_param_set.now)) }
    {
        let sequence_parameter_sets = one_unit(alloc, seq_param_set)?;
        let picture_parameter_sets = one_unit(alloc, pic_param_set)?;
        Ok(AvcCBox {
            configuration_version: 1,
            avc_profile_indication: byte_at(seq_param_set, 1),
            profile_compatibility: byte_at(seq_param_set, 2),
            avc_level_indication: byte_at(seq_param_set, 3),
            length_size_minus_one: 3,
            sequence_parameter_sets,
            picture_parameter_sets,
        })
    }

    /// `avcC`.
    pub fn get_type(&self) -> BoxType
        ensures { result ≡ avcc }
    {
        BoxType::AvcCBox
    }

    /// The bytes of the box, its header included: 15, and 2 and its length for each set. They are counted also where
    /// the box isn't written.
    #[tactic(auto, using(crate::proofs::Sizes::sizes))]
    pub fn get_size(&self) -> u64
        ensures { result ≡ size_around (avcc_payload self.now) }
    {
        units_size(&self.sequence_parameter_sets)
            .saturating_add(units_size(&self.picture_parameter_sets))
            .saturating_add(15)
    }
}

impl TryClone for AvcCBox {
    fn try_clone(&self) -> Result<Self> {
        Ok(AvcCBox {
            configuration_version: self.configuration_version,
            avc_profile_indication: self.avc_profile_indication,
            profile_compatibility: self.profile_compatibility,
            avc_level_indication: self.avc_level_indication,
            length_size_minus_one: self.length_size_minus_one,
            sequence_parameter_sets: self.sequence_parameter_sets.try_clone()?,
            picture_parameter_sets: self.picture_parameter_sets.try_clone()?,
        })
    }
}

impl InRange for AvcCBox {
    ghost IsInRange = { IsInRangeAvcC };

    fn in_range(&self) {
        self.configuration_version.in_range();
        self.avc_profile_indication.in_range();
        self.profile_compatibility.in_range();
        self.avc_level_indication.in_range();
        self.length_size_minus_one.in_range();
    }
}

impl Mp4Box for AvcCBox {
    ghost KIND = { avcc };

    const KIND: BoxType = BoxType::AvcCBox;

    ghost payload = { avcc_payload };

    fn box_size(&self) -> u64 {
        self.get_size()
    }
}

impl ReadBox for AvcCBox {
    ghost value = { avcc_of };

    ghost early = { λ payload. refused_at_once (avcc_of payload) };

    #[tactic(auto, using(crate::proofs::Units::checked), unfolding(crate::specs::Avcc::avcc_of))]
    fn read_payload(alloc: Global, payload: &[u8]) -> Result<Self> {
        check_payload(payload)?;
        let mut fields = Fields::new(payload);
        let configuration_version = fields.u8()?;
        let avc_profile_indication = fields.u8()?;
        let profile_compatibility = fields.u8()?;
        let avc_level_indication = fields.u8()?;
        let length_size = fields.u8()?;
        let sequence_count = fields.u8()?;
        let sequence_parameter_sets = read_sets(alloc, &mut fields, sequence_count % 32)?;
        let picture_count = fields.u8()?;
        let picture_parameter_sets = read_sets(alloc, &mut fields, picture_count)?;
        Ok(AvcCBox {
            configuration_version,
            avc_profile_indication,
            profile_compatibility,
            avc_level_indication,
            length_size_minus_one: length_size % 4,
            sequence_parameter_sets,
            picture_parameter_sets,
        })
    }
}

impl WriteBox for AvcCBox {
    ghost refusal = { avcc_refusal };

    ghost IsWellFormed = { IsWellFormedAvcC };

    ghost reads_back = { avcc_again };

    #[tactic(auto, unfolding(crate::specs::Avcc::avcc_refusal))]
    fn check(&self) -> Result<()> {
        check_most(self.length_size_minus_one as u64, 3)?;
        check_most(self.sequence_parameter_sets.len() as u64, 31)?;
        check_most(self.picture_parameter_sets.len() as u64, 255)?;
        check_units(&self.sequence_parameter_sets)?;
        check_units(&self.picture_parameter_sets)?;
        Ok(())
    }

    fn put_payload(&self, out: &mut Vec<u8>) -> Put {
        put_u8(out, self.configuration_version)?;
        put_u8(out, self.avc_profile_indication)?;
        put_u8(out, self.profile_compatibility)?;
        put_u8(out, self.avc_level_indication)?;
        put_low_u8(out, 0xfc + self.length_size_minus_one as u64)?;
        put_low_u8(out, 0xe0 + self.sequence_parameter_sets.len() as u64)?;
        put_units(out, &self.sequence_parameter_sets)?;
        put_low_u8(out, self.picture_parameter_sets.len() as u64)?;
        put_units(out, &self.picture_parameter_sets)?;
        Ok(())
    }
}
