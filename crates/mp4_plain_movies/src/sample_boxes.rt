//! A box for what is generic over boxes.

ghost use Rattle.std.specs.Prelude.{◌<◌, ◌^◌, Ok, refl};
ghost use Rattle.mp4_codec.specs.declared.box_type.BoxType.TheVariants.{FreeBox as free};
ghost use Rattle.mp4_codec.specs.Boxes.{no_refusal};
ghost use Rattle.mp4_codec.specs.Bytes.{number_at, number};
ghost use Rattle.mp4_codec.specs.Cause.{◌>>=◌};
ghost use Rattle.mp4_codec.specs.Early.{at_once};
ghost use Rattle.mp4_codec.specs.ExactTest.{by_test, field_tests};
ghost use Rattle.mp4_codec.specs.FieldLaws.{number_last};

use mp4_codec::{
    BoxType, ExactEq, Fields, InRange, Mp4Box, Put, ReadBox, Result, TryClone, WriteBox, put_u32,
};
use std::alloc::Global;

/// A leaf of one number.
#[derive(Debug, PartialEq, Eq, Drop)]
pub struct Number {
    pub value: u32,
}

impl ExactEq for Number {
    ghost exact = { by_test (Prim.hlevel field_tests) };
}

impl TryClone for Number {
    fn try_clone(&self) -> Result<Self> {
        Ok(Number { value: self.value })
    }
}

impl InRange for Number {
    ghost IsInRange = { λ n. n.value < 2 ^ 32 };

    fn in_range(&self) {
        self.value.in_range();
    }
}

impl Mp4Box for Number {
    ghost KIND = { free };

    const KIND: BoxType = BoxType::FreeBox;

    ghost payload = { λ n. number 4 n.value };

    #[tactic(auto, using(crate::proofs::Sizes::sizes))]
    fn box_size(&self) -> u64 {
        12
    }
}

impl ReadBox for Number {
    ghost value = { λ payload. number_at 4 payload >>= λ n. Ok (record { value = n.0 }) };

    ghost early = { λ payload. at_once (number_at 4 payload) };

    fn read_payload(_alloc: Global, payload: &[u8]) -> Result<Self> {
        let mut fields = Fields::new(payload);
        let value = fields.u32()?;
        Ok(Number { value })
    }
}

impl WriteBox for Number {
    ghost refusal = { no_refusal };

    ghost IsWellFormed = { λ _. Unit {0} };

    ghost reads_back = { λ n canonical. Prim.rw (number_last 4 n.value canonical.in_range) refl };

    fn check(&self) -> Result<()> {
        Ok(())
    }

    fn put_payload(&self, out: &mut Vec<u8>) -> Put {
        put_u32(out, self.value)?;
        Ok(())
    }
}
