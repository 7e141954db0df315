//! Fields that are there where a flag is set.

ghost use Rattle.std.specs.Prelude.{◌≡◌, ◌≤◌, OnOk};
ghost use Rattle.std.specs.Option.{option_len};
ghost use Rattle.mp4_codec.specs.Cause.{Checks, Reads};
ghost use Rattle.mp4_codec.specs.Bytes.{Appends};
ghost use Rattle.mp4_moof.specs.Optional.{is_set, optional_at, optional_field, flag_refusal};

use mp4_codec::{Block, Entry, Error, Field, Fields, Put, Result};

/// Whether a flag, a number of one bit, is set.
#[tactic(auto, unfolding(crate::specs::Optional::is_set))]
pub(crate) fn is_set(flags: u32, flag: u32) -> bool
    ensures { result ≡ is_set flags flag }
{
    flags & flag != 0
}

/// The next number where its flag is set, else nothing. Numbers are the same in any version.
#[tactic(auto, unfolding(crate::specs::Optional::optional_at))]
pub(crate) fn read_flagged<T: Block>(fields: &mut Fields, flag: u32, flags: u32) -> Field<Option<T>>
    ensures { Reads (λ x. (x, fields.new)) result (optional_at T.at flag flags fields.old) }
{
    if !is_set(flags, flag) {
        return Ok(None);
    }
    let number = T::read(fields, 0)?;
    Ok(Some(number))
}

/// Adds a number at the end of a buffer, where there is one.
#[tactic(auto, unfolding(crate::specs::Optional::optional_field))]
pub(crate) fn put_flagged<T: Block>(out: &mut Vec<u8>, field: Option<T>) -> Put
    ensures { OnOk result (Appends out.old.items out.new.items (optional_field T.encoded field)) }
{
    match field {
        Some(number) => number.put_block(out),
        None => Ok(()),
    }
}

/// 1 where a field is there, else 0.
pub(crate) fn how_many<T>(field: &Option<T>) -> u64
    ensures value { result ≡ option_len field.now }
    ensures few { result ≤ 1 }
{
    match field {
        Some(_) => 1,
        None => 0,
    }
}

/// Whether a field is there just where its flag is set; else it is `InvalidData`.
#[tactic(auto, unfolding(crate::specs::Optional::flag_refusal))]
pub(crate) fn check_flagged<T>(flag: u32, flags: u32, field: &Option<T>) -> Result<()>
    ensures { Checks result (flag_refusal flag flags field.now) }
{
    match field {
        Some(_) => {
            if !is_set(flags, flag) {
                return Err(Error::InvalidData("a field without its flag"));
            }
            Ok(())
        }
        None => {
            if is_set(flags, flag) {
                return Err(Error::InvalidData("a flag without its field"));
            }
            Ok(())
        }
    }
}
