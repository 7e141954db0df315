//! The fields of sample tables (ISO/IEC 14496-12, 8.6 and 8.7).

ghost use Rattle.std.specs.Prelude.{◌≡◌};
ghost use Rattle.mp4_fields.specs.Numbers.{ctts_cells, stsc_cells, stts_cells};

use crate::leaf::LeafFields;
use crate::list::FieldList;
use crate::value::{Cells, TableRow};
use mp4_table::{
    Co64Box, CttsBox, CttsEntry, StcoBox, StscBox, StscEntry, StssBox, StszBox, SttsBox, SttsEntry,
};

impl TableRow for SttsEntry {
    const NAMES: &'static [&'static str] = &["sample_count", "sample_delta"];

    #[tactic(auto, unfolding(crate::specs::Numbers::stts_cells))]
    fn cells(&self, _version: u8) -> Cells
        ensures { result ≡ stts_cells self.now }
    {
        [
            i128::from(self.sample_count),
            i128::from(self.sample_delta),
            0,
            0,
        ]
    }
}

impl TableRow for CttsEntry {
    const NAMES: &'static [&'static str] = &["sample_count", "sample_offset"];

    #[tactic(auto, unfolding(crate::specs::Numbers::ctts_cells))]
    fn cells(&self, _version: u8) -> Cells
        ensures { result ≡ ctts_cells self.now }
    {
        [
            i128::from(self.sample_count),
            i128::from(self.sample_offset),
            0,
            0,
        ]
    }
}

impl TableRow for StscEntry {
    const NAMES: &'static [&'static str] = &[
        "first_chunk",
        "samples_per_chunk",
        "sample_description_index",
    ];

    #[tactic(auto, unfolding(crate::specs::Numbers::stsc_cells))]
    fn cells(&self, _version: u8) -> Cells
        ensures { result ≡ stsc_cells self.now }
    {
        [
            i128::from(self.first_chunk),
            i128::from(self.samples_per_chunk),
            i128::from(self.sample_description_index),
            0,
        ]
    }
}

impl LeafFields for SttsBox {
    fn fields(&self, fields: FieldList) -> FieldList {
        fields
            .version_and_flags(self.version, self.flags)
            .rows("entries", self.version, self.entries.as_slice())
    }
}

impl LeafFields for CttsBox {
    fn fields(&self, fields: FieldList) -> FieldList {
        fields
            .version_and_flags(self.version, self.flags)
            .rows("entries", self.version, self.entries.as_slice())
    }
}

impl LeafFields for StscBox {
    fn fields(&self, fields: FieldList) -> FieldList {
        fields
            .version_and_flags(self.version, self.flags)
            .rows("entries", self.version, self.entries.as_slice())
    }
}

impl LeafFields for StcoBox {
    fn fields(&self, fields: FieldList) -> FieldList {
        fields
            .version_and_flags(self.version, self.flags)
            .numbers("entries", self.entries.as_slice())
    }
}

impl LeafFields for Co64Box {
    fn fields(&self, fields: FieldList) -> FieldList {
        fields
            .version_and_flags(self.version, self.flags)
            .numbers("entries", self.entries.as_slice())
    }
}

impl LeafFields for StssBox {
    fn fields(&self, fields: FieldList) -> FieldList {
        fields
            .version_and_flags(self.version, self.flags)
            .numbers("entries", self.entries.as_slice())
    }
}

impl LeafFields for StszBox {
    fn fields(&self, fields: FieldList) -> FieldList {
        fields
            .version_and_flags(self.version, self.flags)
            .number("sample_size", self.sample_size)
            .number("sample_count", self.sample_count)
            .numbers("sample_sizes", self.sample_sizes.as_slice())
    }
}
