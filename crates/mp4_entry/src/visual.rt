//! The visual sample entries: what they begin with, and the configuration of their decoder.

ghost use Rattle.std.specs.Prelude.{OnOk, ◌≡◌, ◌+◌, ◌^◌, ◌<◌, length};
ghost use Rattle.mp4_codec.specs.Cause.{Answers, Reads};
ghost use Rattle.mp4_codec.specs.Bytes.{Appends};
ghost use Rattle.mp4_codec.specs.Early.{Shows};
ghost use Rattle.mp4_entry.specs.Visual.{visual_at, visual, visual_of_size, IsInRangeVisual};
ghost use Rattle.mp4_entry.specs.Visual.{visual_entry, visual_entry_early, visual_entry_payload};

use mp4_codec::{
    Error, Field, Fields, FixedPointU16, InRange, Mp4Box, Put, ReadBox, Result, WriteBox,
    last_child, put_u16, put_u32, put_zeros,
};
use std::alloc::Global;

/// The bytes of a visual sample entry without its children: 8 of its header, and 78.
pub(crate) const VISUAL_SIZE: u64 = 86;

/// What a visual sample entry begins with (ISO/IEC 14496-12, 12.1.3).
#[derive(Clone, Copy)]
pub(crate) struct Visual {
    pub data_reference_index: u16,
    pub width: u16,
    pub height: u16,
    pub horizresolution: FixedPointU16,
    pub vertresolution: FixedPointU16,
    pub frame_count: u16,
    pub depth: u16,
}

impl Visual {
    /// One picture of this size in each sample: the first data reference, 72 pixels an inch, 24 bits a pixel.
    pub(crate) fn of_size(width: u16, height: u16) -> Self
        ensures { result ≡ visual_of_size width height }
    {
        Visual {
            data_reference_index: 1,
            width,
            height,
            horizresolution: FixedPointU16::new(72),
            vertresolution: FixedPointU16::new(72),
            frame_count: 1,
            depth: 24,
        }
    }
}

impl InRange for Visual {
    ghost IsInRange = { IsInRangeVisual };

    fn in_range(&self) {
        self.data_reference_index.in_range();
        self.width.in_range();
        self.height.in_range();
        self.horizresolution.raw.in_range();
        self.vertresolution.raw.in_range();
        self.frame_count.in_range();
        self.depth.in_range();
    }
}

/// The next such beginning.
#[tactic(auto, unfolding(crate::specs::Visual::visual_at))]
pub(crate) fn read_visual(fields: &mut Fields) -> Field<Visual>
    ensures { Reads (λ v. (v, fields.new)) result (visual_at fields.old) }
{
    fields.bytes(6)?;
    let data_reference_index = fields.u16()?;
    fields.bytes(16)?;
    let width = fields.u16()?;
    let height = fields.u16()?;
    let horizresolution = fields.u32()?;
    let vertresolution = fields.u32()?;
    fields.bytes(4)?;
    let frame_count = fields.u16()?;
    fields.bytes(32)?;
    let depth = fields.u16()?;
    fields.bytes(2)?;
    Ok(Visual {
        data_reference_index,
        width,
        height,
        horizresolution: FixedPointU16::new_raw(horizresolution),
        vertresolution: FixedPointU16::new_raw(vertresolution),
        frame_count,
        depth,
    })
}

/// Adds the bytes of such a beginning.
pub(crate) fn put_visual(out: &mut Vec<u8>, v: Visual) -> Put
    ensures { OnOk result (Appends out.old.items out.new.items (visual v)) }
{
    put_zeros(out, 6)?;
    put_u16(out, v.data_reference_index)?;
    put_zeros(out, 16)?;
    put_u16(out, v.width)?;
    put_u16(out, v.height)?;
    put_u32(out, v.horizresolution.raw)?;
    put_u32(out, v.vertresolution.raw)?;
    put_zeros(out, 4)?;
    put_u16(out, v.frame_count)?;
    put_zeros(out, 32)?;
    put_u16(out, v.depth)?;
    put_u16(out, 0xffff)?;
    Ok(())
}

/// The visual sample entry of a payload: what it begins with, and the last configuration of its children.
///
/// Other children are skipped. The first configuration that is refused is the answer. A child that passes the end is
/// `InvalidData`, and so is an entry without configuration, which has the text `missing`.
#[tactic(auto, unfolding(crate::specs::Visual::visual_entry, crate::specs::Visual::visual_entry_early))]
pub(crate) fn read_visual_entry<C: Mp4Box + ReadBox>(
    alloc: Global,
    payload: &[u8],
    missing: &'static str,
) -> Result<(Visual, C)>
    ensures value { Answers (λ e. e) result (visual_entry C.KIND C.value payload.now) }
    ensures early { Shows (visual_entry_early C.KIND C.early C.value payload.now) result }
{
    let mut fields = Fields::new(payload);
    let visual = read_visual(&mut fields)?;
    let Some(config) = last_child(alloc, fields.rest())? else {
        return Err(Error::InvalidData(missing));
    };
    Ok((visual, config))
}

/// Adds the payload of such an entry.
#[tactic(auto, using(crate::proofs::Sizes::sizes))]
pub(crate) fn put_visual_entry<C: WriteBox>(out: &mut Vec<u8>, v: Visual, config: &C) -> Put
    requires { 8 + length (visual_entry_payload v C.KIND (C.payload config.now)) < 2 ^ 32 }
    ensures { OnOk result
        (Appends out.old.items out.new.items (visual_entry_payload v C.KIND (C.payload config.now))) }
{
    put_visual(out, v)?;
    config.put_box(out)?;
    Ok(())
}
