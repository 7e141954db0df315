//! The value of a metadata item.

ghost use Rattle.mp4_codec.specs.ExactTest.{by_law, by_test, exact_enum, field_tests};
ghost use Rattle.mp4_leaf.specs.contracts.data.DataType.{enum as data_types};
ghost use Rattle.std.specs.Prelude.{◌≡◌, Ok};
ghost use Rattle.mp4_leaf.specs.declared.data.DataType.TheVariants.{Binary};
ghost use Rattle.mp4_leaf.specs.Data.{data_type, data_code, data_payload, default_data, data_of, IsInRangeData};
ghost use Rattle.mp4_leaf.specs.Data.{IsWellFormedData, IsInRangeDataType};
ghost use Rattle.mp4_codec.specs.declared.box_type.BoxType.TheVariants.{DataBox as data_kind};
ghost use Rattle.mp4_codec.specs.Boxes.{size_around, no_refusal};
ghost use Rattle.mp4_codec.specs.Cause.{Gives};
ghost use Rattle.mp4_leaf.specs.DataLaws.{data_again};
ghost use Rattle.mp4_codec.specs.Early.{refused_at_once};

use mp4_codec::{
    BoxType, ExactEq, Fields, InRange, Items, Mp4Box, Plain, Put, ReadBox, Result, TryClone,
    WriteBox, put_bytes, put_u32, put_zeros,
};
use std::alloc::Global;

/// What the bytes of a metadata value are.
#[derive(Clone, Copy, Debug, PartialEq, Eq)]
pub enum DataType {
    /// 0.
    Binary,
    /// 1: UTF-8.
    Text,
    /// 13: JPEG.
    Image,
    /// 21: a signed big-endian number.
    TempoCpil,
    /// Any other number. One of the four above is written, but not read again as it is.
    Other(u32),
}

impl ExactEq for DataType {
    ghost exact = { exact_enum data_types (Prim.search field_tests) };
}

impl Default for DataType {
    ghost is_default = { λ t. t ≡ Binary };

    fn default() -> Self {
        DataType::Binary
    }
}

impl Plain for DataType {}

impl InRange for DataType {
    ghost IsInRange = { IsInRangeDataType };

    fn in_range(&self) {
        if let DataType::Other(code) = self {
            code.in_range();
        }
    }
}

impl From<u32> for DataType {
    ghost from_gives = { λ n t. t ≡ data_type n };

    fn from(code: u32) -> DataType {
        match code {
            0 => DataType::Binary,
            1 => DataType::Text,
            13 => DataType::Image,
            21 => DataType::TempoCpil,
            other => DataType::Other(other),
        }
    }
}

impl From<DataType> for u32 {
    ghost from_gives = { λ t n. n ≡ data_code t };

    fn from(data_type: DataType) -> u32 {
        match data_type {
            DataType::Binary => 0,
            DataType::Text => 1,
            DataType::Image => 13,
            DataType::TempoCpil => 21,
            DataType::Other(other) => other,
        }
    }
}

/// The value of a metadata item, `data`, as iTunes writes it.
#[derive(Debug, PartialEq, Eq, Drop)]
pub struct DataBox {
    pub data_type: DataType,
    pub bytes: Items<u8>,
}

impl ExactEq for DataBox {
    ghost exact = { by_test (Prim.hlevel (field_tests, by_law (exact_enum data_types (Prim.search field_tests)))) };
}

impl DataBox {
    /// Binary, and empty.
    pub fn default(alloc: Global) -> Result<Self>
        ensures { Gives (λ b. b) result (Ok default_data) }
    {
        Ok(DataBox {
            data_type: DataType::default(),
            bytes: Items::new(alloc),
        })
    }

    /// `data`.
    pub fn get_type(&self) -> BoxType
        ensures { result ≡ data_kind }
    {
        BoxType::DataBox
    }

    /// The bytes of the box, its header included: 16, and those of the value.
    #[tactic(auto, using(crate::proofs::Sizes::sizes))]
    pub fn get_size(&self) -> u64
        ensures { result ≡ size_around (data_payload self.now) }
    {
        (self.bytes.len() as u64).saturating_add(16)
    }
}

impl TryClone for DataBox {
    fn try_clone(&self) -> Result<Self> {
        Ok(DataBox {
            data_type: self.data_type,
            bytes: self.bytes.try_clone()?,
        })
    }
}

impl InRange for DataBox {
    ghost IsInRange = { IsInRangeData };

    fn in_range(&self) {
        self.data_type.in_range();
    }
}

impl Mp4Box for DataBox {
    ghost KIND = { data_kind };

    const KIND: BoxType = BoxType::DataBox;

    ghost payload = { data_payload };

    fn box_size(&self) -> u64 {
        self.get_size()
    }
}

impl ReadBox for DataBox {
    ghost value = { data_of };

    ghost early = { λ payload. refused_at_once (data_of payload) };

    #[tactic(auto, unfolding(crate::specs::Data::data_of))]
    fn read_payload(alloc: Global, payload: &[u8]) -> Result<Self> {
        let mut fields = Fields::new(payload);
        let code = fields.u32()?;
        fields.bytes(4)?;
        let bytes = fields.rest().to_vec(alloc)?;
        Ok(DataBox {
            data_type: DataType::from(code),
            bytes: Items::from(bytes),
        })
    }
}

impl WriteBox for DataBox {
    ghost refusal = { no_refusal };

    ghost IsWellFormed = { IsWellFormedData };

    ghost reads_back = { data_again };

    fn check(&self) -> Result<()> {
        Ok(())
    }

    fn put_payload(&self, out: &mut Vec<u8>) -> Put {
        put_u32(out, u32::from(self.data_type))?;
        put_zeros(out, 4)?;
        put_bytes(out, self.bytes.as_slice())?;
        Ok(())
    }
}
