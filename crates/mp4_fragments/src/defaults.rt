//! What the samples of fragments have where nothing else is said of them.

ghost use Rattle.mp4_codec.specs.ExactTest.{by_test, field_tests};
ghost use Rattle.std.specs.Prelude.{◌≡◌};
ghost use Rattle.mp4_fragments.specs.Defaults.{no_defaults, defaults_of_trex, defaults_in};

use mp4_codec::ExactEq;
use mp4_moof::{TrafBox, TrexBox};

/// What a sample of a fragment has where neither its run nor its fragment says it (ISO/IEC 14496-12, 8.8.3).
#[derive(Clone, Copy, Debug, PartialEq, Eq)]
pub struct SampleDefaults {
    /// Ticks of the track's timescale.
    pub duration: u32,
    /// Bytes.
    pub size: u32,
    /// Sample flags; bit 0x10000 is set where the sample is no sync sample.
    pub flags: u32,
}

impl ExactEq for SampleDefaults {
    ghost exact = { by_test (Prim.hlevel field_tests) };
}

impl SampleDefaults {
    /// Of a track of which the movie says nothing: 0 for all.
    pub fn none() -> Self
        ensures { result ≡ no_defaults }
    {
        SampleDefaults {
            duration: 0,
            size: 0,
            flags: 0,
        }
    }

    /// As the movie says them for a track.
    pub fn of_trex(trex: &TrexBox) -> Self
        ensures { result ≡ defaults_of_trex trex.now }
    {
        SampleDefaults {
            duration: trex.default_sample_duration,
            size: trex.default_sample_size,
            flags: trex.default_sample_flags,
        }
    }

    /// As a fragment of the track says them, else as these do.
    pub(crate) fn in_traf(self, traf: &TrafBox) -> Self
        ensures { result ≡ defaults_in traf.now self }
    {
        SampleDefaults {
            duration: traf.tfhd.default_sample_duration.unwrap_or(self.duration),
            size: traf.tfhd.default_sample_size.unwrap_or(self.size),
            flags: traf.tfhd.default_sample_flags.unwrap_or(self.flags),
        }
    }
}
