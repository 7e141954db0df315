//! The names of codecs for a MIME type's `codecs` (RFC 6381).

ghost use Rattle.std.specs.Prelude.{◌≡◌, Some};
ghost use Rattle.mp4_report.specs.CodecNames.{avc1_name, codec_name, codec_text, constraints_text, hev1_name};
ghost use Rattle.mp4_report.specs.CodecNames.{hevc_name, hevc_text, mp4a_name, profile_space_letter, sound_name};
ghost use Rattle.mp4_report.specs.CodecNames.{vp09_name, without_end_zeros};

use mp4_codec::FourCC;
use mp4_entry::{Avc1Box, DecoderConfigDescriptor, Hev1Box, Mp4aBox, StsdBox, Vp09Box};
use mp4_readable::Code;
use serde::{Described, Serialize, Serializer};
use std::fmt;
use std::fmt::Write;

/// The object type of MPEG-4 audio (ISO/IEC 14496-1, 7.2.6.6).
pub(crate) const MPEG4_AUDIO: u8 = 0x40;

/// The fields of `hvcC` that a codec's name has (ISO/IEC 14496-15, 8.3.3.1).
#[derive(Clone, Copy, Debug, PartialEq, Eq)]
pub struct HevcName {
    /// 0 to 3; shown as nothing, `A`, `B` or `C`.
    pub profile_space: u8,
    pub profile: u8,
    pub compatibility: u32,
    /// Whether the tier is the high one.
    pub is_high_tier: bool,
    /// 30 times the level.
    pub level: u8,
    pub constraints: [u8; 6],
}

/// The name of a codec by RFC 6381.
#[derive(Clone, Copy, Debug, PartialEq, Eq)]
pub enum CodecName {
    /// The profile, its constraints and the level (RFC 6381, 3.3).
    Avc1([u8; 3]),
    /// ISO/IEC 14496-15, Annex E.
    Hev1(HevcName),
    /// The type of MPEG-4 sound; 0 where it isn't said.
    Mpeg4Audio(u8),
    /// Another object type in an entry `mp4a`.
    OtherAudio(u8),
    /// The profile, the level times 10, and the bits of a sample (VP Codec ISO Media File Format Binding).
    Vp09([u8; 3]),
    /// The type of the sample entry alone.
    Entry(FourCC),
}

/// The name of a configuration of HEVC; None where it is cut.
#[tactic(auto, unfolding(crate::specs::CodecNames::hevc_name))]
fn hevc_name(config: &[u8]) -> Option<HevcName>
    ensures { result ≡ hevc_name config.now }
{
    let [_version, general, a, b, c, d, k, l, m, n, o, p, level, ..] = config else {
        return None;
    };
    Some(HevcName {
        profile_space: *general / 64,
        profile: *general % 32,
        compatibility: u32::from_be_bytes([*a, *b, *c, *d]),
        is_high_tier: *general / 32 % 2 == 1,
        level: *level,
        constraints: [*k, *l, *m, *n, *o, *p],
    })
}

fn name_of_avc1(entry: &Avc1Box) -> CodecName
    ensures { result ≡ avc1_name entry.now }
{
    CodecName::Avc1([
        entry.avcc.avc_profile_indication,
        entry.avcc.profile_compatibility,
        entry.avcc.avc_level_indication,
    ])
}

fn name_of_hev1(entry: &Hev1Box) -> CodecName
    ensures { result ≡ hev1_name entry.now }
{
    match hevc_name(entry.hvcc.raw.as_slice()) {
        Some(name) => CodecName::Hev1(name),
        None => CodecName::Entry(FourCC::from(*b"hev1")),
    }
}

#[tactic(auto, unfolding(crate::specs::CodecNames::vp09_name))]
fn name_of_vp09(entry: &Vp09Box) -> CodecName
    ensures { result ≡ vp09_name entry.now }
{
    match entry.vpcc.raw.as_slice() {
        [_, _, _, _, profile, level, depth, ..] => CodecName::Vp09([*profile, *level, *depth >> 4]),
        _ => CodecName::Entry(FourCC::from(*b"vp09")),
    }
}

/// The name of sound that is decoded so.
#[tactic(auto, unfolding(crate::specs::CodecNames::sound_name))]
fn sound_name(decoder: DecoderConfigDescriptor) -> CodecName
    ensures { result ≡ sound_name decoder }
{
    if decoder.object_type_indication == MPEG4_AUDIO {
        CodecName::Mpeg4Audio(decoder.dec_specific.profile)
    } else {
        CodecName::OtherAudio(decoder.object_type_indication)
    }
}

fn name_of_mp4a(entry: &Mp4aBox) -> CodecName
    ensures { result ≡ mp4a_name entry.now }
{
    match &entry.esds {
        Some(esds) => sound_name(esds.es_desc.dec_config),
        None => CodecName::Entry(FourCC::from(*b"mp4a")),
    }
}

/// The name of the codec of a track, by its sample entry, or the type of an entry that the library doesn't
/// read; `None` where there is none.
#[tactic(auto, unfolding(crate::specs::CodecNames::codec_name))]
pub(crate) fn codec_name_of(stsd: &StsdBox) -> Option<CodecName>
    ensures { result ≡ codec_name stsd.now }
{
    if let Some(entry) = &stsd.avc1 {
        return Some(name_of_avc1(entry));
    }
    if let Some(entry) = &stsd.hev1 {
        return Some(name_of_hev1(entry));
    }
    if let Some(entry) = &stsd.vp09 {
        return Some(name_of_vp09(entry));
    }
    if let Some(entry) = &stsd.mp4a {
        return Some(name_of_mp4a(entry));
    }
    if stsd.tx3g.is_some() {
        return Some(CodecName::Entry(FourCC::from(*b"tx3g")));
    }
    match stsd.other {
        Some(other) => Some(CodecName::Entry(FourCC::from(other))),
        None => None,
    }
}

/// The letter of a profile space, or nothing for the first.
#[tactic(auto, unfolding(crate::specs::CodecNames::profile_space_letter))]
fn profile_space_letter(space: u8) -> &'static str
    ensures { result.now ≡ profile_space_letter space }
{
    match space {
        0 => "",
        1 => "A",
        2 => "B",
        _ => "C",
    }
}

/// The constraints that a name says: those at the end that are 0 are left out.
#[tactic(auto, using(crate::proofs::Constraints::end_zeros))]
fn said_constraints(constraints: &[u8]) -> &[u8]
    ensures { result.now ≡ without_end_zeros constraints.now }
{
    let mut count = constraints.len();
    while count > 0 && constraints[count - 1] == 0 {
        count -= 1;
    }
    &constraints[..count]
}

/// The constraints of a name.
#[derive(Clone, Copy)]
struct Constraints([u8; 6]);

impl fmt::Display for Constraints {
    ghost output = { λ constraints. Some (constraints_text constraints.0) };

    /// Writes each in hex after a full stop, those at the end that are 0 left out.
    fn fmt<W: fmt::Write>(&self, f: &mut fmt::Formatter<W>) -> fmt::Result {
        for constraint in said_constraints(&self.0) {
            write!(f, ".{constraint:X}")?;
        }
        Ok(())
    }
}

impl fmt::Display for HevcName {
    ghost output = { λ name. Some (hevc_text name) };

    /// Writes the name, as `hev1.1.6.L93.B0`: the profile, the flags of compatibility in reverse order and in hex,
    /// the tier and the level, and the constraints in hex, those at the end that are 0 left out.
    #[tactic(auto, unfolding(crate::specs::CodecNames::hevc_text))]
    fn fmt<W: fmt::Write>(&self, f: &mut fmt::Formatter<W>) -> fmt::Result {
        let space = profile_space_letter(self.profile_space);
        let profile = self.profile;
        let compatibility = self.compatibility.reverse_bits();
        let tier = if self.is_high_tier { "H" } else { "L" };
        let level = self.level;
        let constraints = Constraints(self.constraints);
        write!(
            f,
            "hev1.{space}{profile}.{compatibility:X}.{tier}{level}{constraints}"
        )
    }
}

impl fmt::Display for CodecName {
    ghost output = { codec_text };

    #[tactic(auto, using(crate::proofs::Digits::shown_digits))]
    fn fmt<W: fmt::Write>(&self, f: &mut fmt::Formatter<W>) -> fmt::Result {
        match self {
            CodecName::Avc1(bytes) => {
                let [profile, constraints, level] = *bytes;
                write!(f, "avc1.{profile:02x}{constraints:02x}{level:02x}")
            }
            CodecName::Hev1(name) => write!(f, "{name}"),
            CodecName::Mpeg4Audio(0) => f.write_str("mp4a.40"),
            CodecName::Mpeg4Audio(kind) => write!(f, "mp4a.40.{kind}"),
            CodecName::OtherAudio(object) => {
                let object = *object;
                write!(f, "mp4a.{object:02x}")
            }
            CodecName::Vp09(numbers) => {
                let [profile, level, depth] = *numbers;
                write!(f, "vp09.{profile:02}.{level:02}.{depth:02}")
            }
            CodecName::Entry(code) => f.write(Code(*code)),
        }
    }
}

impl Described for CodecName {}

impl Serialize for CodecName {
    fn serialize<S: Serializer>(&self, out: &mut S) -> Result<(), S::Error> {
        out.collect_str(self)
    }
}
