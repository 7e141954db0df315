//! The beginning of a movie: its file type, and the header of its media data.

ghost use Rattle.std.specs.Prelude.{◌≡◌, None, Ok, length, IfOk, IfErr};
ghost use Rattle.mp4_codec.specs.Cause.{Answers, Checks};
ghost use Rattle.mp4_codec.specs.Boxes.{size_around};
ghost use Rattle.mp4_leaf.specs.Ftyp.{ftyp_payload};
ghost use Rattle.mp4_mux.specs.Writing.{file_type_of, start_cause, with_file_type};
ghost use Rattle.mp4_mux.specs.Parts.{bytes_at_start};

use crate::config::Mp4Config;
use crate::mdat::mdat_header;
use mp4_codec::{Error, HEADER_SIZE, Items, Limit, Result, TryClone, WriteBox, list_size};
use mp4_leaf::FtypBox;

/// The file type of a movie (ISO/IEC 14496-12, 4.3). Refused by `OutOfMemory` alone.
pub fn file_type(config: &Mp4Config) -> Result<FtypBox>
    ensures { Answers (λ ftyp. ftyp) result (Ok (file_type_of config.now)) }
{
    Ok(FtypBox {
        major_brand: config.major_brand,
        minor_version: config.minor_version,
        compatible_brands: config.compatible_brands.try_clone()?,
    })
}

/// How many bytes the file type has, its header included (ISO/IEC 14496-12, 4.3); it stops at 2^64 - 1. It requests
/// no memory.
#[tactic(auto, using(crate::proofs::Sizes::sizes))]
pub fn file_type_size(config: &Mp4Config) -> u64
    ensures { result ≡ size_around (ftyp_payload (file_type_of config.now)) }
{
    let without_brands = FtypBox {
        major_brand: config.major_brand,
        minor_version: config.minor_version,
        compatible_brands: Items::new(config.compatible_brands.allocator()),
    };
    list_size(0, config.compatible_brands.as_slice()).saturating_add(without_brands.get_size())
}

/// Whether a movie can be begun with this configuration: `TooLarge(BoxSize)` where its file type passes
/// 2^32 - 1 bytes (ISO/IEC 14496-12, 4.2 and 4.3). It requests no memory.
pub fn check_file_type(config: &Mp4Config) -> Result<()>
    ensures { Checks result (start_cause config.now) }
{
    if file_type_size(config) > u32::MAX as u64 {
        return Err(Error::TooLarge(Limit::BoxSize));
    }
    Ok(())
}

/// Adds the file type and the header of an empty mdat at the end of a buffer (ISO/IEC 14496-12, 4.3 and 8.1.1), and
/// answers the place of mdat in bytes from the start of the buffer.
///
/// Refused by `OutOfMemory` alone; the buffer may then hold a part of it.
#[tactic(auto, unfolding(crate::specs::Writing::with_file_type))]
pub fn begin(buffer: &mut Vec<u8>, config: &Mp4Config) -> Result<usize>
    requires { start_cause config.now ≡ None }
    ensures place { IfOk result (λ mdat. mdat ≡ length (with_file_type buffer.old.items config.now)) }
    ensures bytes { IfOk result (λ mdat. buffer.new.items ≡ bytes_at_start buffer.old.items config.now) }
    ensures memory { IfErr result (λ e. e ≡ Error.OutOfMemory) }
{
    let ftyp = file_type(config)?;
    ftyp.write_box(buffer)?;
    let mdat = buffer.len();
    buffer.extend_from_slice(&mdat_header(HEADER_SIZE))?;
    Ok(mdat)
}
