//! The fields of the boxes of movie fragments (ISO/IEC 14496-12, 8.8), and of event messages.

use crate::leaf::LeafFields;
use crate::list::FieldList;
use mp4_moof::{EmsgBox, MehdBox, MfhdBox, TfdtBox, TfhdBox, TrexBox, TrunBox};

impl LeafFields for MehdBox {
    fn fields(&self, fields: FieldList) -> FieldList {
        fields
            .version_and_flags(self.version, self.flags)
            .number("fragment_duration", self.fragment_duration)
    }
}

impl LeafFields for TrexBox {
    fn fields(&self, fields: FieldList) -> FieldList {
        fields
            .version_and_flags(self.version, self.flags)
            .number("track_id", self.track_id)
            .number(
                "default_sample_description_index",
                self.default_sample_description_index,
            )
            .number("default_sample_duration", self.default_sample_duration)
            .number("default_sample_size", self.default_sample_size)
            .flags("default_sample_flags", self.default_sample_flags)
    }
}

impl LeafFields for MfhdBox {
    fn fields(&self, fields: FieldList) -> FieldList {
        fields
            .version_and_flags(self.version, self.flags)
            .number("sequence_number", self.sequence_number)
    }
}

impl LeafFields for TfhdBox {
    fn fields(&self, fields: FieldList) -> FieldList {
        fields
            .version_and_flags(self.version, self.flags)
            .number("track_id", self.track_id)
            .optional("base_data_offset", self.base_data_offset)
            .optional("sample_description_index", self.sample_description_index)
            .optional("default_sample_duration", self.default_sample_duration)
            .optional("default_sample_size", self.default_sample_size)
            .optional_flags("default_sample_flags", self.default_sample_flags)
    }
}

impl LeafFields for TfdtBox {
    fn fields(&self, fields: FieldList) -> FieldList {
        fields
            .version_and_flags(self.version, self.flags)
            .number("base_media_decode_time", self.base_media_decode_time)
    }
}

impl LeafFields for TrunBox {
    fn fields(&self, fields: FieldList) -> FieldList {
        fields
            .version_and_flags(self.version, self.flags)
            .number("sample_count", self.sample_count)
            .optional_signed("data_offset", self.data_offset)
            .optional_flags("first_sample_flags", self.first_sample_flags)
            .numbers("sample_durations", self.sample_durations.as_slice())
            .numbers("sample_sizes", self.sample_sizes.as_slice())
            .numbers("sample_flags", self.sample_flags.as_slice())
            .numbers("sample_cts", self.sample_cts.as_slice())
    }
}

impl LeafFields for EmsgBox {
    fn fields(&self, fields: FieldList) -> FieldList {
        fields
            .version_and_flags(self.version, self.flags)
            .number("timescale", self.timescale)
            .optional("presentation_time", self.presentation_time)
            .optional("presentation_time_delta", self.presentation_time_delta)
            .number("event_duration", self.event_duration)
            .number("id", self.id)
            .text("scheme_id_uri", self.scheme_id_uri.as_slice())
            .text("value", self.value.as_slice())
            .bytes("message_data", self.message_data.as_slice())
    }
}
