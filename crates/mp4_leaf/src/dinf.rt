//! Where the media of a track lies: data information, data references, and their only kind that is kept.

ghost use Rattle.mp4_codec.specs.ExactTest.{by_test, field_tests};
ghost use Rattle.std.specs.Prelude.{OnOk, ◌≡◌, Ok};
ghost use Rattle.mp4_codec.specs.Bytes.{Appends};
ghost use Rattle.mp4_leaf.specs.Dinf.{ended};
ghost use Rattle.mp4_codec.specs.declared.box_type.BoxType.TheVariants.{UrlBox as url, DrefBox as dref};
ghost use Rattle.mp4_codec.specs.declared.box_type.BoxType.TheVariants.{DinfBox as dinf};
ghost use Rattle.mp4_codec.specs.Boxes.{size_around, no_refusal};
ghost use Rattle.mp4_codec.specs.Cause.{Gives};
ghost use Rattle.mp4_leaf.specs.Dinf.{url_payload, default_url, url_of, url_early, dref_payload, count_of};
ghost use Rattle.mp4_leaf.specs.Dinf.{default_dref, dref_of, dref_early, dinf_payload, default_dinf, dinf_of};
ghost use Rattle.mp4_leaf.specs.Dinf.{dinf_early, IsInRangeUrl, IsWellFormedUrl, IsInRangeDref, IsWellFormedDref};
ghost use Rattle.mp4_leaf.specs.Dinf.{IsInRangeDinf, IsWellFormedDinf};
ghost use Rattle.mp4_leaf.specs.DinfLaws.{url_again, dref_again, dinf_again};

use mp4_codec::{
    BoxType, Error, ExactEq, Fields, InRange, Items, Mp4Box, Put, ReadBox, Result, TryClone,
    WriteBox, last_child, optional_size, put_bytes, put_optional, put_u8, put_u24, put_u32,
    put_zeros,
};
use std::alloc::Global;

/// A data reference, `url `: where the media lies (ISO/IEC 14496-12, 8.7.2).
///
/// Any version is read and written. The location is read up to the first zero byte, or to the end where
/// there is none. It is written with a zero byte after it; nothing is written of an empty one.
#[derive(Debug, PartialEq, Eq, Drop)]
pub struct UrlBox {
    pub version: u8,
    /// 1 where the media lies in the same file. The low 24 bits are written.
    pub flags: u32,
    /// The URL, in UTF-8. One with a zero byte is written, but not read again as it is.
    pub location: Items<u8>,
}

impl ExactEq for UrlBox {
    ghost exact = { by_test (Prim.hlevel field_tests) };
}

/// Adds a location.
fn put_location(out: &mut Vec<u8>, location: &Items<u8>) -> Put
    ensures { OnOk result (Appends out.old.items out.new.items (ended location.now)) }
{
    if location.is_empty() {
        return Ok(());
    }
    put_bytes(out, location.as_slice())?;
    put_zeros(out, 1)?;
    Ok(())
}

impl UrlBox {
    /// Media in the same file.
    pub fn default(alloc: Global) -> Result<Self>
        ensures { Gives (λ b. b) result (Ok default_url) }
    {
        Ok(UrlBox {
            version: 0,
            flags: 1,
            location: Items::new(alloc),
        })
    }

    /// `url `.
    pub fn get_type(&self) -> BoxType
        ensures { result ≡ url }
    {
        BoxType::UrlBox
    }

    /// The bytes of the box, its header included: 12, and what the location takes.
    #[tactic(auto, using(crate::proofs::Sizes::sizes))]
    pub fn get_size(&self) -> u64
        ensures { result ≡ size_around (url_payload self.now) }
    {
        if self.location.is_empty() {
            return 12;
        }
        (self.location.len() as u64).saturating_add(13)
    }
}

impl TryClone for UrlBox {
    fn try_clone(&self) -> Result<Self> {
        Ok(UrlBox {
            version: self.version,
            flags: self.flags,
            location: self.location.try_clone()?,
        })
    }
}

impl InRange for UrlBox {
    ghost IsInRange = { IsInRangeUrl };

    fn in_range(&self) {
        self.version.in_range();
    }
}

impl Mp4Box for UrlBox {
    ghost KIND = { url };

    const KIND: BoxType = BoxType::UrlBox;

    ghost payload = { url_payload };

    fn box_size(&self) -> u64 {
        self.get_size()
    }
}

impl ReadBox for UrlBox {
    ghost value = { url_of };

    ghost early = { url_early };

    #[tactic(auto, unfolding(crate::specs::Dinf::url_of))]
    fn read_payload(alloc: Global, payload: &[u8]) -> Result<Self> {
        let mut fields = Fields::new(payload);
        let version = fields.u8()?;
        let flags = fields.u24()?;
        let location = fields.until_zero(alloc)?;
        Ok(UrlBox {
            version,
            flags,
            location,
        })
    }
}

impl WriteBox for UrlBox {
    ghost refusal = { no_refusal };

    ghost IsWellFormed = { IsWellFormedUrl };

    ghost reads_back = { url_again };

    fn check(&self) -> Result<()> {
        Ok(())
    }

    fn put_payload(&self, out: &mut Vec<u8>) -> Put {
        put_u8(out, self.version)?;
        put_u24(out, self.flags)?;
        put_location(out, &self.location)?;
        Ok(())
    }
}

/// The data references of a track, `dref` (ISO/IEC 14496-12, 8.7.2): the last `url ` among them.
///
/// Any version is read and written. The count isn't looked at; written is that of the references that
/// follow, 1 or 0. The first `url ` that is refused, or a child that passes the end, is `InvalidData`.
#[derive(Debug, PartialEq, Eq, Drop)]
pub struct DrefBox {
    pub version: u8,
    /// The low 24 bits are written.
    pub flags: u32,
    pub url: Option<UrlBox>,
}

impl ExactEq for DrefBox {
    ghost exact = { by_test (Prim.hlevel field_tests) };
}

impl DrefBox {
    /// One reference, to media in the same file.
    pub fn default(alloc: Global) -> Result<Self>
        ensures { Gives (λ b. b) result (Ok default_dref) }
    {
        Ok(DrefBox {
            version: 0,
            flags: 0,
            url: Some(UrlBox::default(alloc)?),
        })
    }

    /// `dref`.
    pub fn get_type(&self) -> BoxType
        ensures { result ≡ dref }
    {
        BoxType::DrefBox
    }

    /// The bytes of the box, its header included: 16, and those of its reference.
    #[tactic(auto, using(crate::proofs::Sizes::sizes))]
    pub fn get_size(&self) -> u64
        ensures { result ≡ size_around (dref_payload self.now) }
    {
        optional_size(&self.url).saturating_add(16)
    }

    /// How many references are written.
    fn count(&self) -> u32
        ensures { result ≡ count_of self.now.url }
    {
        match &self.url {
            None => 0,
            Some(_) => 1,
        }
    }
}

impl TryClone for DrefBox {
    fn try_clone(&self) -> Result<Self> {
        Ok(DrefBox {
            version: self.version,
            flags: self.flags,
            url: self.url.try_clone()?,
        })
    }
}

impl InRange for DrefBox {
    ghost IsInRange = { IsInRangeDref };

    fn in_range(&self) {
        self.version.in_range();
        self.url.in_range();
    }
}

impl Mp4Box for DrefBox {
    ghost KIND = { dref };

    const KIND: BoxType = BoxType::DrefBox;

    ghost payload = { dref_payload };

    fn box_size(&self) -> u64 {
        self.get_size()
    }
}

impl ReadBox for DrefBox {
    ghost value = { dref_of };

    ghost early = { dref_early };

    #[tactic(auto, unfolding(crate::specs::Dinf::dref_of, crate::specs::Dinf::dref_early))]
    fn read_payload(alloc: Global, payload: &[u8]) -> Result<Self> {
        let mut fields = Fields::new(payload);
        let version = fields.u8()?;
        let flags = fields.u24()?;
        fields.u32()?;
        let url = last_child(alloc, fields.rest())?;
        Ok(DrefBox {
            version,
            flags,
            url,
        })
    }
}

impl WriteBox for DrefBox {
    ghost refusal = { no_refusal };

    ghost IsWellFormed = { IsWellFormedDref };

    ghost reads_back = { dref_again };

    fn check(&self) -> Result<()> {
        Ok(())
    }

    #[tactic(auto, using(crate::proofs::Sizes::sizes))]
    fn put_payload(&self, out: &mut Vec<u8>) -> Put {
        put_u8(out, self.version)?;
        put_u24(out, self.flags)?;
        put_u32(out, self.count())?;
        put_optional(out, &self.url)?;
        Ok(())
    }
}

/// Data information, `dinf` (ISO/IEC 14496-12, 8.7.1): the last `dref` among its children.
///
/// The first `dref` that is refused, or a child that passes the end, is the answer; then
/// `BoxNotFound(DrefBox)` where there is none.
#[derive(Debug, PartialEq, Eq, Drop)]
pub struct DinfBox {
    pub dref: DrefBox,
}

impl ExactEq for DinfBox {
    ghost exact = { by_test (Prim.hlevel field_tests) };
}

impl DinfBox {
    /// The default of its references.
    pub fn default(alloc: Global) -> Result<Self>
        ensures { Gives (λ b. b) result (Ok default_dinf) }
    {
        Ok(DinfBox {
            dref: DrefBox::default(alloc)?,
        })
    }

    /// `dinf`.
    pub fn get_type(&self) -> BoxType
        ensures { result ≡ dinf }
    {
        BoxType::DinfBox
    }

    /// The bytes of the box, its header included: 8, and those of its references.
    #[tactic(auto, using(crate::proofs::Sizes::sizes))]
    pub fn get_size(&self) -> u64
        ensures { result ≡ size_around (dinf_payload self.now) }
    {
        self.dref.get_size().saturating_add(8)
    }
}

impl TryClone for DinfBox {
    fn try_clone(&self) -> Result<Self> {
        Ok(DinfBox {
            dref: self.dref.try_clone()?,
        })
    }
}

impl InRange for DinfBox {
    ghost IsInRange = { IsInRangeDinf };

    fn in_range(&self) {
        self.dref.in_range();
    }
}

impl Mp4Box for DinfBox {
    ghost KIND = { dinf };

    const KIND: BoxType = BoxType::DinfBox;

    ghost payload = { dinf_payload };

    fn box_size(&self) -> u64 {
        self.get_size()
    }
}

impl ReadBox for DinfBox {
    ghost value = { dinf_of };

    ghost early = { dinf_early };

    #[tactic(auto, unfolding(crate::specs::Dinf::dinf_of, crate::specs::Dinf::dinf_early))]
    fn read_payload(alloc: Global, payload: &[u8]) -> Result<Self> {
        let Some(dref) = last_child(alloc, payload)? else {
            return Err(Error::BoxNotFound(BoxType::DrefBox));
        };
        Ok(DinfBox { dref })
    }
}

impl WriteBox for DinfBox {
    ghost refusal = { no_refusal };

    ghost IsWellFormed = { IsWellFormedDinf };

    ghost reads_back = { dinf_again };

    fn check(&self) -> Result<()> {
        Ok(())
    }

    #[tactic(auto, using(crate::proofs::Sizes::sizes))]
    fn put_payload(&self, out: &mut Vec<u8>) -> Put {
        self.dref.put_box(out)?;
        Ok(())
    }
}
