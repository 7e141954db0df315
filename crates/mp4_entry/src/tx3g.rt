//! The sample entry of timed text.

ghost use Rattle.mp4_codec.specs.ExactTest.{by_test, field_tests};
ghost use Rattle.std.specs.Prelude.{◌≡◌, refl};
ghost use Rattle.mp4_codec.specs.declared.box_type.BoxType.TheVariants.{Tx3gBox as tx3g};
ghost use Rattle.mp4_codec.specs.Boxes.{size_around, no_refusal};
ghost use Rattle.mp4_codec.specs.Cause.{Gives};
ghost use Rattle.mp4_entry.specs.Tx3g.{tx3g_payload, default_tx3g, tx3g_of, IsInRangeTx3g, IsWellFormedTx3g};
ghost use Rattle.mp4_entry.specs.Tx3gLaws.{tx3g_again};
ghost use Rattle.mp4_codec.specs.Early.{at_once};

use mp4_codec::{
    BoxType, ExactEq, Fields, InRange, Mp4Box, Plain, Put, ReadBox, Result, WriteBox, put_bytes,
    put_u16, put_zeros,
};
use std::alloc::Global;

/// The bytes of each entry, its header included.
pub(crate) const TX3G_SIZE: u64 = 46;

/// How a text track is begun; there is nothing to choose.
#[derive(Clone, Copy, Debug, PartialEq, Eq)]
pub struct TtxtConfig {}

impl ExactEq for TtxtConfig {
    ghost exact = { λ x y h. refl };
}

impl Plain for TtxtConfig {}

impl InRange for TtxtConfig {
    ghost IsInRange = { λ config. Unit {0} };

    fn in_range(&self) {}
}

/// The sample entry of timed text, `tx3g` (3GPP TS 26.245, 5.16).
///
/// What follows the 30 bytes, as a table of fonts, is skipped.
#[derive(Clone, Copy, Debug, PartialEq, Eq)]
pub struct Tx3gBox {
    /// Which of the track's data references the samples lie in; they count from 1.
    pub data_reference_index: u16,
    /// The display flags (4 bytes), how the text is justified (2), the background (red, green, blue, opacity), the
    /// text box (top, left, bottom, right, 2 bytes each), and the style (first and last character, font, 2 bytes each;
    /// face, size; red, green, blue, opacity).
    pub raw: [u8; 30],
}

impl ExactEq for Tx3gBox {
    ghost exact = { by_test (Prim.hlevel field_tests) };
}

impl Tx3gBox {
    /// The entry of a text track: the default.
    pub fn new(_config: &TtxtConfig) -> Self
        ensures { result ≡ default_tx3g }
    {
        Tx3gBox::default()
    }

    /// `tx3g`.
    pub fn get_type(&self) -> BoxType
        ensures { result ≡ tx3g }
    {
        BoxType::Tx3gBox
    }

    /// The bytes of the box, its header included.
    #[tactic(auto, using(crate::proofs::Sizes::sizes))]
    pub fn get_size(&self) -> u64
        ensures { result ≡ size_around (tx3g_payload self.now) }
    {
        TX3G_SIZE
    }
}

impl Default for Tx3gBox {
    ghost is_default = { λ b. b ≡ default_tx3g };

    /// The first reference; text in the middle of the bottom, white in font 1 of size 16, over opaque black.
    fn default() -> Self {
        Tx3gBox {
            data_reference_index: 1,
            raw: [
                0, 0, 0, 0, 0x01, 0xff, 0, 0, 0, 0xff, 0, 0, 0, 0, 0, 0, 0, 0, 0, 0, 0, 0, 0, 1, 0,
                16, 0xff, 0xff, 0xff, 0xff,
            ],
        }
    }
}

impl Plain for Tx3gBox {}

impl InRange for Tx3gBox {
    ghost IsInRange = { IsInRangeTx3g };

    fn in_range(&self) {
        self.data_reference_index.in_range();
        let _raw = self.raw;
    }
}

impl Mp4Box for Tx3gBox {
    ghost KIND = { tx3g };

    const KIND: BoxType = BoxType::Tx3gBox;

    ghost payload = { tx3g_payload };

    fn box_size(&self) -> u64 {
        self.get_size()
    }
}

impl ReadBox for Tx3gBox {
    ghost value = { tx3g_of };

    ghost early = { λ payload. at_once (tx3g_of payload) };

    #[tactic(auto, unfolding(crate::specs::Tx3g::tx3g_of))]
    fn read_payload(_alloc: Global, payload: &[u8]) -> Result<Self>
        ensures { Gives (λ x. x) result (tx3g_of payload.now) }
    {
        let mut fields = Fields::new(payload);
        fields.bytes(6)?;
        let data_reference_index = fields.u16()?;
        let part = fields.bytes(30)?;
        let mut raw = [0u8; 30];
        raw.copy_from_slice(part);
        Ok(Tx3gBox {
            data_reference_index,
            raw,
        })
    }
}

impl WriteBox for Tx3gBox {
    ghost refusal = { no_refusal };

    ghost IsWellFormed = { IsWellFormedTx3g };

    ghost reads_back = { tx3g_again };

    fn check(&self) -> Result<()> {
        Ok(())
    }

    fn put_payload(&self, out: &mut Vec<u8>) -> Put {
        put_zeros(out, 6)?;
        put_u16(out, self.data_reference_index)?;
        put_bytes(out, &self.raw)?;
        Ok(())
    }
}
