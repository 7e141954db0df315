//! Numbers that have fewer bits than their type.

ghost use Rattle.std.specs.Prelude.{OnOk};
ghost use Rattle.mp4_codec.specs.Cause.{Checks};
ghost use Rattle.mp4_codec.specs.Bytes.{Appends, number};
ghost use Rattle.mp4_entry.specs.Narrow.{past};

use mp4_codec::{Error, Put, Result, put_bytes};

/// Whether a number is at most the greatest that its bits encode; else it is `Unrepresentable`.
pub(crate) fn check_most(n: u64, most: u64) -> Result<()>
    ensures { Checks result (past most n) }
{
    if n > most {
        return Err(Error::Unrepresentable("a number past its bits"));
    }
    Ok(())
}

/// Adds the low byte of a number.
#[tactic(auto, unfolding(mp4_codec::specs::Bytes::number))]
pub(crate) fn put_low_u8(out: &mut Vec<u8>, n: u64) -> Put
    ensures { OnOk result (Appends out.old.items out.new.items (number 1 n)) }
{
    put_bytes(out, &n.to_be_bytes()[7..])
}

/// Adds the two low bytes of a number, the high one first.
#[tactic(auto, unfolding(mp4_codec::specs::Bytes::number))]
pub(crate) fn put_low_u16(out: &mut Vec<u8>, n: u64) -> Put
    ensures { OnOk result (Appends out.old.items out.new.items (number 2 n)) }
{
    put_bytes(out, &n.to_be_bytes()[6..])
}
