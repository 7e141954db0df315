//! The event message.

ghost use Rattle.mp4_codec.specs.ExactTest.{by_test, field_tests};
ghost use Rattle.std.specs.Prelude.{◌≡◌, Ok, OnOk};
ghost use Rattle.mp4_codec.specs.declared.box_type.BoxType.TheVariants.{EmsgBox as emsg};
ghost use Rattle.mp4_codec.specs.Cause.{Answers, Checks, Gives};
ghost use Rattle.mp4_codec.specs.Bytes.{Appends};
ghost use Rattle.mp4_codec.specs.Boxes.{size_around};
ghost use Rattle.mp4_moof.specs.Emsg.{emsg_payload, emsg_0_payload, emsg_1_payload, ended, only_refusal, default_emsg};
ghost use Rattle.mp4_moof.specs.Emsg.{emsg_of, emsg_0_of, emsg_1_of, emsg_refusal, IsInRangeEmsg, IsWellFormedEmsg};
ghost use Rattle.mp4_moof.specs.EmsgLaws.{emsg_again};
ghost use Rattle.mp4_codec.specs.Early.{Shows, refused_at_once};

use mp4_codec::{
    BoxType, DebugItem, Error, ExactEq, Fields, InRange, Items, Mp4Box, Put, ReadBox, Result,
    TryClone, WriteBox, put_bytes, put_u8, put_u24, put_u32, put_u64, put_zeros,
};
use std::alloc::Global;

/// The event message, `emsg`: something that happens at a time of the presentation (ISO/IEC 23009-1, 5.10.3.3).
///
/// Versions 0 and 1 have layouts of their own. Of any other version a payload of at least 4 bytes is
/// `UnsupportedBoxVersion(EmsgBox, version)`, and it isn't written, but `InvalidData`. Version 0 has the time that
/// counts from its segment's start, version 1 that of the presentation; what has not exactly its version's time isn't
/// written, but `InvalidData`. A text without its zero byte is `InvalidData`.
#[derive(Debug, PartialEq, Eq, Drop)]
pub struct EmsgBox {
    pub version: u8,
    /// The low 24 bits are written.
    pub flags: u32,
    /// Ticks in a second, for the times and the duration.
    pub timescale: u32,
    /// Ticks from the start of the presentation; there in version 1 alone.
    pub presentation_time: Option<u64>,
    /// Ticks from the first time of the segment; there in version 0 alone.
    pub presentation_time_delta: Option<u32>,
    /// Ticks; all ones where it isn't known.
    pub event_duration: u32,
    /// The same in messages that repeat one another.
    pub id: u32,
    /// Whose message this is, in UTF-8. One with a zero byte is written, but not read again as it is.
    pub scheme_id_uri: Items<u8>,
    /// What the scheme distinguishes its messages by, in UTF-8. One with a zero byte is written, but not read again
    /// as it is.
    pub value: Items<u8>,
    /// The body of the message, as the scheme says.
    pub message_data: Items<u8>,
}

impl ExactEq for EmsgBox {
    ghost exact = { by_test (Prim.hlevel field_tests) };
}

impl DebugItem for EmsgBox {}

impl EmsgBox {
    /// All zero and empty, with neither of the times, so that it isn't written.
    pub fn default(alloc: Global) -> Result<Self>
        ensures { Gives (λ b. b) result (Ok default_emsg) }
    {
        Ok(EmsgBox {
            version: 0,
            flags: 0,
            timescale: 0,
            presentation_time: None,
            presentation_time_delta: None,
            event_duration: 0,
            id: 0,
            scheme_id_uri: Items::new(alloc),
            value: Items::new(alloc),
            message_data: Items::new(alloc),
        })
    }

    /// `emsg`.
    pub fn get_type(&self) -> BoxType
        ensures { result ≡ emsg }
    {
        BoxType::EmsgBox
    }

    /// The bytes of the box, its header included: 34 in version 1, else 30, and those of the texts and the message.
    #[tactic(auto, using(crate::proofs::LeafSizes::sizes))]
    pub fn get_size(&self) -> u64
        ensures { result ≡ size_around (emsg_payload self.now) }
    {
        let texts = (self.scheme_id_uri.len() as u64)
            .saturating_add(self.value.len() as u64)
            .saturating_add(self.message_data.len() as u64);
        if self.version == 1 {
            texts.saturating_add(34)
        } else {
            texts.saturating_add(30)
        }
    }

    /// The message after its flags, in the layout of version 0. Its fields are found before memory is requested.
    #[tactic(auto, unfolding(crate::specs::Emsg::emsg_0_of))]
    fn read_version_0(alloc: Global, flags: u32, bytes: &[u8]) -> Result<Self>
        ensures value { Answers (λ x. x) result (emsg_0_of flags bytes.now) }
        ensures early { Shows (refused_at_once (emsg_0_of flags bytes.now)) result }
    {
        let mut fields = Fields::new(bytes);
        let scheme_id_uri = fields.text()?;
        let value = fields.text()?;
        let timescale = fields.u32()?;
        let presentation_time_delta = fields.u32()?;
        let event_duration = fields.u32()?;
        let id = fields.u32()?;
        let texts = copied_texts(alloc, scheme_id_uri, value, fields.rest())?;
        Ok(EmsgBox {
            version: 0,
            flags,
            timescale,
            presentation_time: None,
            presentation_time_delta: Some(presentation_time_delta),
            event_duration,
            id,
            scheme_id_uri: texts.0,
            value: texts.1,
            message_data: texts.2,
        })
    }

    /// The message after its flags, in the layout of version 1. Its fields are found before memory is requested.
    #[tactic(auto, unfolding(crate::specs::Emsg::emsg_1_of))]
    fn read_version_1(alloc: Global, flags: u32, bytes: &[u8]) -> Result<Self>
        ensures value { Answers (λ x. x) result (emsg_1_of flags bytes.now) }
        ensures early { Shows (refused_at_once (emsg_1_of flags bytes.now)) result }
    {
        let mut fields = Fields::new(bytes);
        let timescale = fields.u32()?;
        let presentation_time = fields.u64()?;
        let event_duration = fields.u32()?;
        let id = fields.u32()?;
        let scheme_id_uri = fields.text()?;
        let value = fields.text()?;
        let texts = copied_texts(alloc, scheme_id_uri, value, fields.rest())?;
        Ok(EmsgBox {
            version: 1,
            flags,
            timescale,
            presentation_time: Some(presentation_time),
            presentation_time_delta: None,
            event_duration,
            id,
            scheme_id_uri: texts.0,
            value: texts.1,
            message_data: texts.2,
        })
    }

    /// Adds the payload in the layout of version 0.
    fn put_version_0(&self, out: &mut Vec<u8>) -> Put
        ensures { OnOk result (Appends out.old.items out.new.items (emsg_0_payload self.now)) }
    {
        put_u8(out, self.version)?;
        put_u24(out, self.flags)?;
        put_text(out, &self.scheme_id_uri)?;
        put_text(out, &self.value)?;
        put_u32(out, self.timescale)?;
        put_u32(out, self.presentation_time_delta.unwrap_or(0))?;
        put_u32(out, self.event_duration)?;
        put_u32(out, self.id)?;
        put_bytes(out, self.message_data.as_slice())?;
        Ok(())
    }

    /// Adds the payload in the layout of version 1.
    fn put_version_1(&self, out: &mut Vec<u8>) -> Put
        ensures { OnOk result (Appends out.old.items out.new.items (emsg_1_payload self.now)) }
    {
        put_u8(out, self.version)?;
        put_u24(out, self.flags)?;
        put_u32(out, self.timescale)?;
        put_u64(out, self.presentation_time.unwrap_or(0))?;
        put_u32(out, self.event_duration)?;
        put_u32(out, self.id)?;
        put_text(out, &self.scheme_id_uri)?;
        put_text(out, &self.value)?;
        put_bytes(out, self.message_data.as_slice())?;
        Ok(())
    }
}

/// Copies of both texts of a message, and of its body. Refused by `OutOfMemory` alone.
fn copied_texts(
    alloc: Global,
    scheme_id_uri: &[u8],
    value: &[u8],
    message_data: &[u8],
) -> Result<(Items<u8>, Items<u8>, Items<u8>)>
    ensures { Answers (λ all. all) result (Ok (scheme_id_uri.now, value.now, message_data.now)) }
{
    let scheme_id_uri = Items::from(scheme_id_uri.to_vec(alloc)?);
    let value = Items::from(value.to_vec(alloc)?);
    let message_data = Items::from(message_data.to_vec(alloc)?);
    Ok((scheme_id_uri, value, message_data))
}

/// Adds a text, and the zero byte that ends it.
fn put_text(out: &mut Vec<u8>, text: &Items<u8>) -> Put
    ensures { OnOk result (Appends out.old.items out.new.items (ended text.now)) }
{
    put_bytes(out, text.as_slice())?;
    put_zeros(out, 1)?;
    Ok(())
}

/// Whether of two times the first alone is there; else it is `InvalidData`.
fn check_only(first: bool, second: bool) -> Result<()>
    ensures { Checks result (only_refusal first second) }
{
    if !first {
        return Err(Error::InvalidData("a version without its time"));
    }
    if second {
        return Err(Error::InvalidData("a time of another version"));
    }
    Ok(())
}

impl TryClone for EmsgBox {
    fn try_clone(&self) -> Result<Self> {
        Ok(EmsgBox {
            version: self.version,
            flags: self.flags,
            timescale: self.timescale,
            presentation_time: self.presentation_time,
            presentation_time_delta: self.presentation_time_delta,
            event_duration: self.event_duration,
            id: self.id,
            scheme_id_uri: self.scheme_id_uri.try_clone()?,
            value: self.value.try_clone()?,
            message_data: self.message_data.try_clone()?,
        })
    }
}

impl InRange for EmsgBox {
    ghost IsInRange = { IsInRangeEmsg };

    fn in_range(&self) {
        self.version.in_range();
        self.timescale.in_range();
        self.presentation_time.in_range();
        self.presentation_time_delta.in_range();
        self.event_duration.in_range();
        self.id.in_range();
    }
}

impl Mp4Box for EmsgBox {
    ghost KIND = { emsg };

    const KIND: BoxType = BoxType::EmsgBox;

    ghost payload = { emsg_payload };

    fn box_size(&self) -> u64 {
        self.get_size()
    }
}

impl ReadBox for EmsgBox {
    ghost value = { emsg_of };

    ghost early = { λ payload. refused_at_once (emsg_of payload) };

    #[tactic(auto, unfolding(crate::specs::Emsg::emsg_of))]
    fn read_payload(alloc: Global, payload: &[u8]) -> Result<Self> {
        let mut fields = Fields::new(payload);
        let version = fields.u8()?;
        let flags = fields.u24()?;
        match version {
            0 => Self::read_version_0(alloc, flags, fields.rest()),
            1 => Self::read_version_1(alloc, flags, fields.rest()),
            _ => Err(Error::UnsupportedBoxVersion(BoxType::EmsgBox, version)),
        }
    }
}

impl WriteBox for EmsgBox {
    ghost refusal = { emsg_refusal };

    ghost IsWellFormed = { IsWellFormedEmsg };

    ghost reads_back = { emsg_again };

    #[tactic(auto, unfolding(crate::specs::Emsg::emsg_refusal))]
    fn check(&self) -> Result<()> {
        let delta = self.presentation_time_delta.is_some();
        let time = self.presentation_time.is_some();
        match self.version {
            0 => check_only(delta, time),
            1 => check_only(time, delta),
            _ => Err(Error::InvalidData("an unknown version")),
        }
    }

    #[tactic(auto, unfolding(crate::specs::Emsg::emsg_payload))]
    fn put_payload(&self, out: &mut Vec<u8>) -> Put {
        if self.version == 1 {
            self.put_version_1(out)
        } else {
            self.put_version_0(out)
        }
    }
}
