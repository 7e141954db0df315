//! The header of the media data.

ghost use Rattle.std.specs.Prelude.{◌≡◌};
ghost use Rattle.mp4_mux.specs.Mdat.{mdat_header_of};

/// The bytes of mdat's header and of the empty `wide` box after it.
pub(crate) const MDAT_HEADER_SIZE: usize = 16;

/// The 16 bytes that begin a written mdat of n bytes, these 16 included (ISO/IEC 14496-12, 8.1.1).
///
/// Up to 2^32 - 1 it is a header of 8 bytes and then an empty `wide` box, which leaves room for the
/// largesize; above, it is a header with a largesize.
#[tactic(auto, unfolding(crate::specs::Mdat::mdat_header_of))]
pub fn mdat_header(n: u64) -> [u8; 16]
    ensures { result ≡ mdat_header_of n }
{
    let [a, b, c, d, e, f, g, h] = n.to_be_bytes();
    if n > u32::MAX as u64 {
        return [0, 0, 0, 1, b'm', b'd', b'a', b't', a, b, c, d, e, f, g, h];
    }
    [
        e, f, g, h, b'm', b'd', b'a', b't', 0, 0, 0, 8, b'w', b'i', b'd', b'e',
    ]
}
