//! Kinds of coded video, and what a unit of them is.

ghost use denote.Enum.Bare.{same_true};
ghost use Rattle.std.specs.Prelude.{◌≡◌, ◌≤◌};
ghost use Rattle.mp4_extract.specs.contracts.coding.VideoCoding.{the_type as video_codings};
ghost use Rattle.mp4_extract.specs.NalUnits.{is_parameter_set, is_random_access, kinds_before, kinds_below};
ghost use Rattle.mp4_extract.specs.NalUnits.{kinds_with, needs_zero_byte, unit_type};

use mp4_codec::ExactEq;

/// How video is coded.
#[derive(Clone, Copy, Debug, PartialEq, Eq)]
pub enum VideoCoding {
    /// AVC (ISO/IEC 14496-10).
    H264,
    /// HEVC (ISO/IEC 23008-2).
    H265,
}

impl ExactEq for VideoCoding {
    ghost exact = { same_true video_codings tt };
}

impl VideoCoding {
    /// The type of a unit, as its first byte says (ISO/IEC 14496-10, 7.3.1; 23008-2, 7.3.1.2); 0 of a unit without a
    /// byte.
    fn unit_type(self, unit: &[u8]) -> u8
        ensures { result ≡ unit_type self unit.now }
    {
        match (self, unit.first()) {
            (_, None) => 0,
            (VideoCoding::H264, Some(first)) => first % 32,
            (VideoCoding::H265, Some(first)) => first / 2 % 64,
        }
    }

    /// Whether a unit is a parameter set.
    #[tactic(auto, unfolding(crate::specs::NalUnits::is_parameter_set))]
    fn is_parameter_set(self, unit: &[u8]) -> bool
        ensures { result ≡ is_parameter_set self unit.now }
    {
        let unit_type = self.unit_type(unit);
        match self {
            VideoCoding::H264 => unit_type == 7 || unit_type == 8,
            VideoCoding::H265 => 32 <= unit_type && unit_type <= 34,
        }
    }

    /// Whether a unit is a part of a picture at which decoding can begin.
    #[tactic(auto, unfolding(crate::specs::NalUnits::is_random_access))]
    fn is_random_access(self, unit: &[u8]) -> bool
        ensures { result ≡ is_random_access self unit.now }
    {
        let unit_type = self.unit_type(unit);
        match self {
            VideoCoding::H264 => unit_type == 5,
            VideoCoding::H265 => 16 <= unit_type && unit_type <= 23,
        }
    }

    /// How many kinds of parameter sets have to come before one of this unit's kind: those of video, which AVC doesn't
    /// have, those of sequences, those of pictures. Other units count as picture parameter sets.
    #[tactic(auto, unfolding(crate::specs::NalUnits::kinds_below))]
    pub(crate) fn kinds_below(self, unit: &[u8]) -> u8
        ensures kinds { result ≡ kinds_below self unit.now }
        ensures few { result ≤ 2 }
    {
        match (self, self.unit_type(unit)) {
            (VideoCoding::H264, 7) => 1,
            (VideoCoding::H265, 32) => 0,
            (VideoCoding::H265, 33) => 1,
            _ => 2,
        }
    }

    /// How many kinds of parameter sets have to come before a unit.
    #[tactic(auto, unfolding(crate::specs::NalUnits::kinds_before))]
    pub(crate) fn kinds_before(self, unit: &[u8]) -> u8
        ensures { result ≡ kinds_before self unit.now }
    {
        if self.is_random_access(unit) {
            3
        } else if self.is_parameter_set(unit) {
            self.kinds_below(unit)
        } else {
            0
        }
    }

    /// How many kinds of parameter sets are there with a unit before which those are that have to be.
    #[tactic(auto, unfolding(crate::specs::NalUnits::kinds_with))]
    pub(crate) fn kinds_with(self, unit: &[u8]) -> u8
        ensures { result ≡ kinds_with self unit.now }
    {
        if self.is_random_access(unit) {
            3
        } else if self.is_parameter_set(unit) {
            self.kinds_below(unit) + 1
        } else {
            0
        }
    }

    /// Whether a zero byte goes before the start code of a unit, which is the first of its sample or not.
    #[tactic(auto, unfolding(crate::specs::NalUnits::needs_zero_byte))]
    pub(crate) fn needs_zero_byte(self, is_first: bool, unit: &[u8]) -> bool
        ensures { result ≡ needs_zero_byte self is_first unit.now }
    {
        match self {
            VideoCoding::H264 => is_first || self.is_parameter_set(unit),
            VideoCoding::H265 => true,
        }
    }
}
