//! What becomes of the samples of a track.

ghost use Rattle.std.specs.Prelude.{◌≡◌, ◌⊎◌, ◌++◌, ◌-◌, ℕ, List, [], option_map, IfErr, IfOk, IsTrue, OnErr, OnOk};
ghost use Rattle.std.specs.Prelude.{vec_capacity, vec_len};
ghost use Rattle.mp4_codec.specs.Cause.{Answers};
ghost use Rattle.mp4_codec.specs.declared.error.Error.TheVariants.{OutOfMemory};
ghost use Rattle.mp4_extract.specs.Adts.{numbers_of};
ghost use Rattle.mp4_extract.specs.declared.form.SampleForm.TheVariants.{AsStored};
ghost use Rattle.mp4_extract.specs.Forms.{IsFormOf, IsInForm, NeedsRoom, RefusesSample, RefusesTrack};
ghost use Rattle.mp4_extract.specs.Forms.{WantsBuffer, WantsSets, track_adts, track_stream};

use crate::adts::AdtsConfig;
use crate::annex_b::AnnexB;
use crate::error::ExtractError;
use crate::format::SampleFormat;
use crate::parameter_sets::{annex_b_of_avcc, annex_b_of_hvcc};
use mp4_codec::Result;
use mp4_lookup::Mp4Track;
use std::alloc::Global;

/// The object type indication of MPEG-4 audio (ISO/IEC 14496-1, 7.2.6.6).
const MPEG4_AUDIO: u8 = 0x40;

/// A format, with what it takes of a track.
#[derive(Debug, Drop)]
pub enum SampleForm {
    /// As they lie in the file.
    AsStored,
    /// Video as a byte stream.
    AnnexB(AnnexB),
    /// Sound with headers.
    Adts(AdtsConfig),
}

/// The byte stream of a track of video, if it is one.
#[tactic(auto, unfolding(crate::specs::Forms::track_stream))]
fn annex_b_of(alloc: Global, track: &Mp4Track) -> Result<Option<AnnexB>>
    ensures stream { Answers (λ s. s) result (track_stream track.now.trak) }
    ensures memory { IfErr result (λ e. e ≡ OutOfMemory → WantsSets track.now.trak) }
{
    let stsd = &track.trak.mdia.minf.stbl.stsd;
    if let Some(entry) = &stsd.avc1 {
        let stream = annex_b_of_avcc(alloc, &entry.avcc)?;
        return Ok(Some(stream));
    }
    if let Some(entry) = &stsd.hev1 {
        let stream = annex_b_of_hvcc(alloc, &entry.hvcc)?;
        return Ok(Some(stream));
    }
    Ok(None)
}

/// What the headers of a track of sound say, if it is one and they can say it.
#[tactic(auto, unfolding(crate::specs::Forms::track_adts))]
fn adts_of(track: &Mp4Track) -> Option<AdtsConfig>
    ensures { option_map numbers_of result ≡ track_adts track.now.trak }
{
    let Some(entry) = &track.trak.mdia.minf.stbl.stsd.mp4a else {
        return None;
    };
    let Some(stream) = &entry.esds else {
        return None;
    };
    let decoder = &stream.es_desc.dec_config;
    if decoder.object_type_indication != MPEG4_AUDIO {
        return None;
    }
    AdtsConfig::of(decoder.dec_specific)
}

impl SampleForm {
    /// The form of a track's samples in a format.
    ///
    /// `WrongFormat` where the track isn't coded as the format says, `Track(InvalidData)` where the parameter sets of
    /// HEVC pass the end of their box. `OutOfMemory` only for a byte stream of a track that has parameter sets.
    pub fn new(
        alloc: Global,
        track: &Mp4Track,
        format: SampleFormat,
    ) -> std::result::Result<Self, ExtractError>
        ensures form { IfOk result (λ form. IsFormOf track.now.trak format form) }
        ensures refused { IfErr result (λ e. RefusesTrack track.now.trak format e) }
    {
        match format {
            SampleFormat::AsStored => Ok(SampleForm::AsStored),
            SampleFormat::AnnexB => match annex_b_of(alloc, track) {
                Ok(Some(stream)) => Ok(SampleForm::AnnexB(stream)),
                Ok(None) => Err(ExtractError::WrongFormat(track.track_id(), format)),
                Err(error) => Err(ExtractError::of_track(error)),
            },
            SampleFormat::Adts => match adts_of(track) {
                Some(config) => Ok(SampleForm::Adts(config)),
                None => Err(ExtractError::WrongFormat(track.track_id(), format)),
            },
        }
    }

    /// Whether samples in this form are as they lie in the file.
    pub(crate) fn is_as_stored(&self) -> bool
        ensures { IsTrue result → self.now ≡ AsStored }
    {
        matches!(self, SampleForm::AsStored)
    }

    /// A sample in this form: the sample itself, or what the room then holds, over what it held. Where that is wanted
    /// afterwards, [`SampleForm::apply_into`] says what a buffer holds.
    ///
    /// `InvalidData` where the length of a unit passes the sample's end, `TooLarge(SampleBytes)` where a header can't
    /// say how long the sample is.
    pub fn apply<'a>(&self, sample: &'a [u8], room: &'a mut Vec<u8>) -> Result<&'a [u8]>
        ensures ok { IfOk result (λ bytes. IsInForm self.now sample.now bytes.now) }
        ensures refused { IfErr result (λ e. (e ≡ OutOfMemory) ⊎ (RefusesSample self.now sample.now e)) }
        ensures memory { IfErr result (λ e. e ≡ OutOfMemory
            → NeedsRoom self.now (vec_capacity room.old) sample.now) }
    {
        room.clear();
        match self {
            SampleForm::AsStored => Ok(sample),
            SampleForm::AnnexB(stream) => {
                stream.put_sample(sample, room)?;
                Ok(room.as_slice())
            }
            SampleForm::Adts(config) => {
                config.put_sample(sample, room)?;
                Ok(room.as_slice())
            }
        }
    }

    /// Adds a sample in this form to a buffer, which holds any bytes after those that it held where it is refused.
    fn put_sample(&self, sample: &[u8], out: &mut Vec<u8>) -> Result<()>
        ensures added { OnOk result ((bytes : List ℕ) × (IsInForm self.now sample.now bytes)
            × (out.new.items ≡ out.old.items ++ bytes)) }
        ensures refused { IfErr result (λ e. (e ≡ OutOfMemory) ⊎ (RefusesSample self.now sample.now e)) }
        ensures memory { IfErr result (λ e. e ≡ OutOfMemory → WantsBuffer self.now
            (vec_capacity out.old - vec_len out.old) sample.now) }
    {
        match self {
            SampleForm::AsStored => {
                out.extend_from_slice(sample)?;
                Ok(())
            }
            SampleForm::AnnexB(stream) => stream.put_sample(sample, out),
            SampleForm::Adts(config) => config.put_sample(sample, out),
        }
    }

    /// A sample in this form, put into a buffer over what it held. After an error the buffer is empty.
    ///
    /// The errors are those of [`SampleForm::apply`].
    pub fn apply_into(&self, sample: &[u8], buffer: &mut Vec<u8>) -> Result<()>
        ensures ok { OnOk result (IsInForm self.now sample.now buffer.new.items) }
        ensures empty { OnErr result (buffer.new.items ≡ []) }
        ensures refused { IfErr result (λ e. (e ≡ OutOfMemory) ⊎ (RefusesSample self.now sample.now e)) }
        ensures memory { IfErr result (λ e. e ≡ OutOfMemory
            → WantsBuffer self.now (vec_capacity buffer.old) sample.now) }
    {
        buffer.clear();
        match self.put_sample(sample, buffer) {
            Ok(()) => Ok(()),
            Err(error) => {
                buffer.clear();
                Err(error)
            }
        }
    }
}
