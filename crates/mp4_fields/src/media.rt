//! The fields of sample entries and of what decoders are started with, and of data references and metadata.

use crate::leaf::LeafFields;
use crate::list::FieldList;
use mp4_entry::{Avc1Box, AvcCBox, EsdsBox, Hev1Box, HvcCBox, Mp4aBox, Tx3gBox, Vp09Box, VpccBox};
use mp4_leaf::{DataBox, DataType, UrlBox};

/// The fields that entries of video begin with (ISO/IEC 14496-12, 12.1.3).
macro_rules! visual_fields {
    ($entry:expr, $fields:expr) => {
        $fields
            .number("data_reference_index", $entry.data_reference_index)
            .number("width", $entry.width)
            .number("height", $entry.height)
            .fixed_16("horizresolution", $entry.horizresolution)
            .fixed_16("vertresolution", $entry.vertresolution)
            .number("frame_count", $entry.frame_count)
            .number("depth", $entry.depth)
    };
}

impl LeafFields for Avc1Box {
    fn fields(&self, fields: FieldList) -> FieldList {
        visual_fields!(self, fields)
    }
}

impl LeafFields for Hev1Box {
    fn fields(&self, fields: FieldList) -> FieldList {
        visual_fields!(self, fields)
    }
}

impl LeafFields for Vp09Box {
    fn fields(&self, fields: FieldList) -> FieldList {
        visual_fields!(self, fields)
    }
}

impl LeafFields for Mp4aBox {
    fn fields(&self, fields: FieldList) -> FieldList {
        fields
            .number("data_reference_index", self.data_reference_index)
            .number("channelcount", self.channelcount)
            .number("samplesize", self.samplesize)
            .fixed_16("samplerate", self.samplerate)
    }
}

impl LeafFields for Tx3gBox {
    fn fields(&self, fields: FieldList) -> FieldList {
        fields
            .number("data_reference_index", self.data_reference_index)
            .bytes("description", self.raw.as_slice())
    }
}

impl LeafFields for AvcCBox {
    fn fields(&self, fields: FieldList) -> FieldList {
        fields
            .number("configuration_version", self.configuration_version)
            .number("avc_profile_indication", self.avc_profile_indication)
            .number("profile_compatibility", self.profile_compatibility)
            .number("avc_level_indication", self.avc_level_indication)
            .number("length_size_minus_one", self.length_size_minus_one)
            .number(
                "sequence_parameter_sets",
                self.sequence_parameter_sets.len() as u64,
            )
            .number(
                "picture_parameter_sets",
                self.picture_parameter_sets.len() as u64,
            )
    }
}

impl LeafFields for HvcCBox {
    fn fields(&self, fields: FieldList) -> FieldList {
        fields.bytes("configuration", self.raw.as_slice())
    }
}

impl LeafFields for VpccBox {
    fn fields(&self, fields: FieldList) -> FieldList {
        fields.bytes("configuration", self.raw.as_slice())
    }
}

impl LeafFields for EsdsBox {
    fn fields(&self, fields: FieldList) -> FieldList {
        let decoder = self.es_desc.dec_config;
        let audio = decoder.dec_specific;
        fields
            .version_and_flags(self.version, self.flags)
            .number("es_id", self.es_desc.es_id)
            .number("object_type_indication", decoder.object_type_indication)
            .number("stream_type", decoder.stream_type)
            .number("buffer_size_db", decoder.buffer_size_db)
            .number("max_bitrate", decoder.max_bitrate)
            .number("avg_bitrate", decoder.avg_bitrate)
            .number("audio_object_type", audio.profile)
            .number("sampling_frequency_index", audio.freq_index)
            .number("channel_configuration", audio.chan_conf)
    }
}

impl LeafFields for UrlBox {
    fn fields(&self, fields: FieldList) -> FieldList {
        fields
            .version_and_flags(self.version, self.flags)
            .text("location", self.location.as_slice())
    }
}

impl LeafFields for DataBox {
    /// The value is a text, or bytes.
    fn fields(&self, fields: FieldList) -> FieldList {
        let value = self.bytes.as_slice();
        let fields = fields.number("data_type", u32::from(self.data_type));
        match self.data_type {
            DataType::Text => fields.text("value", value),
            _ => fields.bytes("value", value),
        }
    }
}
