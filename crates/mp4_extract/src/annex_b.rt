//! Samples of video as a byte stream (ISO/IEC 14496-10 and 23008-2, Annex B).

ghost use Rattle.std.specs.Prelude.{◌≡◌, ◌⊎◌, ◌&&◌, ◌++◌, ℕ, List, false, not, IfErr, IfOk, OnOk};
ghost use Rattle.mp4_codec.specs.Bytes.{Appends, number_at};
ghost use Rattle.mp4_codec.specs.Cause.{Reads};
ghost use Rattle.mp4_codec.specs.declared.error.Error.TheVariants.{OutOfMemory};
ghost use Rattle.mp4_extract.specs.ByteStream.{HasUnit};
ghost use Rattle.mp4_extract.specs.ByteStream.{IsStreamOf, RefusesStream, byte_stream, coded_unit, length_size};
ghost use Rattle.mp4_extract.specs.ByteStream.{is_between, is_none, kinds_after, next_units, sets_between, sets_of};
ghost use Rattle.mp4_extract.specs.ByteStream.{start_code, unit_at, units_if};

use crate::coding::VideoCoding;
use mp4_codec::{Error, Field, Fields, Items, Put, Result, put_bytes};
use mp4_entry::NalUnit;
use std::alloc::AllocError;

/// How samples of video become a byte stream.
#[derive(Debug, Drop)]
pub struct AnnexB {
    coding: VideoCoding,
    /// How many bytes the length before each unit of a sample has, less 1; its low two bits count.
    length_size_minus_one: u8,
    parameter_sets: Items<NalUnit>,
}

/// How far a sample is written.
#[derive(Clone, Copy)]
struct Progress {
    /// Whether no unit was written yet.
    is_first: bool,
    /// How many kinds of parameter sets need not be added any more: those of video, of sequences and of pictures, 3 in
    /// all.
    kinds: u8,
}

/// Adds the start code of a unit.
fn put_start_code(has_zero_byte: bool, out: &mut Vec<u8>) -> Put
    ensures { OnOk result (Appends out.old.items out.new.items (start_code has_zero_byte)) }
{
    if has_zero_byte {
        put_bytes(out, &[0, 0, 0, 1])
    } else {
        put_bytes(out, &[0, 0, 1])
    }
}

impl AnnexB {
    /// A byte stream of video that is coded so, and has these parameter sets. The low two bits of the second number are
    /// how many bytes the length before each unit has, less 1.
    pub(crate) fn new(
        coding: VideoCoding,
        length_size_minus_one: u8,
        parameter_sets: Items<NalUnit>,
    ) -> Self
        ensures { result ≡ record {
          coding = coding;
          length_size_minus_one = length_size_minus_one;
          parameter_sets = parameter_sets;
        } }
    {
        AnnexB {
            coding,
            length_size_minus_one,
            parameter_sets,
        }
    }

    /// The length of the next unit.
    fn unit_length(&self, fields: &mut Fields) -> Field<u32>
        ensures { Reads (λ n. (n, fields.new)) result (number_at (length_size self.now) fields.old) }
    {
        match self.length_size_minus_one % 4 {
            0 => {
                let length = fields.u8()?;
                Ok(u32::from(length))
            }
            1 => {
                let length = fields.u16()?;
                Ok(u32::from(length))
            }
            2 => fields.u24(),
            _ => fields.u32(),
        }
    }

    /// The next unit of a sample: its length, and its bytes.
    #[tactic(auto, unfolding(crate::specs::ByteStream::unit_at))]
    fn next_unit<'a>(&self, fields: &mut Fields<'a>) -> Field<&'a [u8]>
        ensures { Reads (λ unit. (unit.now, fields.new)) result (unit_at (length_size self.now) fields.old) }
    {
        let length = self.unit_length(fields)?;
        fields.bytes(length as usize)
    }

    /// Adds a unit with its start code.
    #[tactic(auto, unfolding(crate::specs::ByteStream::coded_unit))]
    fn put_unit(&self, is_first: bool, unit: &[u8], out: &mut Vec<u8>) -> Put
        ensures { OnOk result (Appends out.old.items out.new.items
            (coded_unit self.now.coding is_first unit.now)) }
    {
        put_start_code(self.coding.needs_zero_byte(is_first, unit), out)?;
        put_bytes(out, unit)
    }

    /// Whether a parameter set is of one of the kinds from a number on and before another.
    fn is_between(&self, from: u8, end: u8, unit: &[u8]) -> bool
        ensures { result ≡ is_between self.now.coding from end unit.now }
    {
        let kind = self.coding.kinds_below(unit);
        from <= kind && kind < end
    }

    /// Adds a unit where it is wanted. The answer is whether the unit after it is the first of its sample, where this
    /// one may be.
    fn put_if(
        &self,
        is_wanted: bool,
        is_first: bool,
        unit: &[u8],
        out: &mut Vec<u8>,
    ) -> std::result::Result<bool, AllocError>
        ensures units { OnOk result (Appends out.old.items out.new.items
            (byte_stream self.now.coding is_first (units_if is_wanted unit.now))) }
        ensures first { IfOk result (λ first. first ≡ (is_first && not is_wanted)) }
    {
        if is_wanted {
            self.put_unit(is_first, unit, out)?;
            return Ok(false);
        }
        Ok(is_first)
    }

    /// Adds the parameter sets of the kinds from a number on and before another. The answer is whether the unit after
    /// them is the first of its sample, where they would be.
    fn put_sets(
        &self,
        is_first: bool,
        from: u8,
        end: u8,
        out: &mut Vec<u8>,
    ) -> std::result::Result<bool, AllocError>
        ensures sets { OnOk result (Appends out.old.items out.new.items (byte_stream self.now.coding is_first
            (sets_between self.now.coding from end (sets_of self.now)))) }
        ensures first { IfOk result (λ first.
            first ≡ (is_first && is_none (sets_between self.now.coding from end (sets_of self.now)))) }
    {
        let mut is_first = is_first;
        for set in self.parameter_sets.as_slice() {
            let unit = set.bytes.as_slice();
            let is_wanted = self.is_between(from, end, unit);
            is_first = self.put_if(is_wanted, is_first, unit, out)?;
        }
        Ok(is_first)
    }

    /// Adds a unit, and before it the parameter sets that it needs of the kinds that aren't there.
    fn put_next(&self, progress: Progress, unit: &[u8], out: &mut Vec<u8>) -> Put
        ensures { OnOk result (Appends out.old.items out.new.items (byte_stream self.now.coding progress.is_first
            (next_units self.now.coding (sets_of self.now) progress.kinds unit.now))) }
    {
        let needed = self.coding.kinds_before(unit);
        if needed <= progress.kinds {
            self.put_unit(progress.is_first, unit, out)?;
            return Ok(());
        }
        let is_first = self.put_sets(progress.is_first, progress.kinds, needed, out)?;
        self.put_unit(is_first, unit, out)?;
        Ok(())
    }

    /// How far a sample is written after a unit more.
    fn progress_after(&self, progress: Progress, unit: &[u8]) -> Progress
        ensures first { result.is_first ≡ false }
        ensures kinds { result.kinds ≡ kinds_after self.now.coding progress.kinds unit.now }
    {
        let kinds = self.coding.kinds_with(unit);
        Progress {
            is_first: false,
            kinds: if progress.kinds < kinds {
                kinds
            } else {
                progress.kinds
            },
        }
    }

    /// Adds a sample as a byte stream.
    ///
    /// `InvalidData` where the length of a unit passes the sample's end.
    pub(crate) fn put_sample(&self, sample: &[u8], out: &mut Vec<u8>) -> Result<()>
        ensures stream { OnOk result ((bytes : List ℕ) × (IsStreamOf self.now sample.now bytes)
            × (out.new.items ≡ out.old.items ++ bytes)) }
        ensures memory { IfErr result (λ e. e ≡ OutOfMemory → HasUnit (length_size self.now) sample.now) }
        ensures cut { IfErr result (λ e. (e ≡ OutOfMemory) ⊎ (RefusesStream (length_size self.now) sample.now e)) }
    {
        let mut fields = Fields::new(sample);
        let mut progress = Progress {
            is_first: true,
            kinds: 0,
        };
        while !fields.is_empty() {
            let Ok(unit) = self.next_unit(&mut fields) else {
                return Err(Error::InvalidData("the length of a unit passes its end"));
            };
            if !unit.is_empty() {
                self.put_next(progress, unit, out)?;
                progress = self.progress_after(progress, unit);
            }
        }
        Ok(())
    }
}
