//! The sample description of each sample (ISO/IEC 14496-12, 8.5.2).

ghost use Rattle.std.specs.Prelude.{◌≡◌, Some, None, IfErr, OnOk};
ghost use Rattle.mp4_codec.specs.ExactTest.{by_test, field_tests};
ghost use Rattle.mp4_extract.specs.declared.descriptions.OtherSample.{OtherSample};
ghost use Rattle.mp4_extract.specs.declared.error.ExtractError.TheVariants.{OtherDescription};
ghost use Rattle.mp4_extract.specs.Descriptions.{description_of, description_with, default_description};
ghost use Rattle.mp4_extract.specs.Descriptions.{is_other_entry, other_in_chunks, other_in_fragments, other_of_track};
ghost use Rattle.mp4_extract.specs.Descriptions.{other_for, other_traf, samples_after, trexs_in};

use crate::error::ExtractError;
use crate::format::SampleFormat;
use mp4_boxes::TrakBox;
use mp4_codec::ExactEq;
use mp4_moof::{MvexBox, TrafBox, TrexBox, TrunBox};
use mp4_table::StscEntry;

/// A sample of another description than the first.
#[derive(Clone, Copy, Debug, PartialEq, Eq)]
pub struct OtherSample {
    /// From 1.
    pub number: u32,
    /// The number of its description, from 1.
    pub description: u32,
}

impl ExactEq for OtherSample {
    ghost exact = { by_test (Prim.hlevel field_tests) };
}

/// Whether a run of chunks has another description than the first, and begins with one of so many samples.
fn is_other_entry(entry: StscEntry, count: u32) -> bool
    ensures { result ≡ is_other_entry count entry }
{
    1 < entry.sample_description_index && entry.first_sample <= count
}

/// The first of the samples of chunks, which are so many, that has another description than the first.
fn other_in_chunks(entries: &[StscEntry], count: u32) -> Option<OtherSample>
    ensures { result ≡ other_in_chunks count entries.now }
{
    for i in 0..entries.len() {
        let entry = entries[i];
        if is_other_entry(entry, count) {
            return Some(OtherSample {
                number: entry.first_sample,
                description: entry.sample_description_index,
            });
        }
    }
    None
}

/// The description of the samples of a track's fragments when one more box of defaults was looked at.
fn description_with(before: u32, trex: &TrexBox, track_id: u32) -> u32
    ensures { result ≡ description_with before trex.now track_id }
{
    if trex.track_id == track_id {
        trex.default_sample_description_index
    } else {
        before
    }
}

/// The description of the samples of a track's fragments that don't say it: that of its last defaults, or the first.
fn default_description(trexs: &[TrexBox], track_id: u32) -> u32
    ensures { result ≡ default_description 1 trexs.now track_id }
{
    let mut description = 1;
    for i in 0..trexs.len() {
        description = description_with(description, &trexs[i], track_id);
    }
    description
}

/// How many samples there are after these track runs, when so many were before them; at most 2^32 - 1.
fn samples_after(before: u32, truns: &[TrunBox]) -> u32
    ensures { result ≡ samples_after before truns.now }
{
    let mut count = before;
    for i in 0..truns.len() {
        count = count.saturating_add(truns[i].sample_count);
    }
    count
}

/// The description of the samples of a track fragment.
fn description_of(traf: &TrafBox, default: u32) -> u32
    ensures { result ≡ description_of default traf.now }
{
    match traf.tfhd.sample_description_index {
        Some(description) => description,
        None => default,
    }
}

/// The first sample of a track fragment, if it has samples, and they have another description than the first. So many
/// samples are before it, and so many with it.
fn other_traf(before: u32, after: u32, description: u32) -> Option<OtherSample>
    ensures { result ≡ other_traf before after description }
{
    if 1 < description && before < after {
        return Some(OtherSample {
            number: before + 1,
            description,
        });
    }
    None
}

/// The first of the samples that fragments add to so many that has another description than the first.
fn other_in_fragments(trafs: &[TrafBox], before: u32, default: u32) -> Option<OtherSample>
    ensures { result ≡ other_in_fragments default before trafs.now }
{
    let mut count = before;
    for i in 0..trafs.len() {
        let traf = &trafs[i];
        let after = samples_after(count, traf.truns.as_slice());
        if let Some(other) = other_traf(count, after, description_of(traf, default)) {
            return Some(other);
        }
        count = after;
    }
    None
}

/// What the movie says of the samples of fragments.
fn trexs_of(mvex: &Option<MvexBox>) -> &[TrexBox]
    ensures { result.now ≡ trexs_in mvex.now }
{
    match mvex {
        Some(mvex) => mvex.trexs.as_slice(),
        None => &[],
    }
}

/// The first sample of a track that has another description than the first.
#[tactic(auto, unfolding(crate::specs::Descriptions::other_of_track))]
fn other_of_track(trak: &TrakBox, trafs: &[TrafBox], mvex: &Option<MvexBox>) -> Option<OtherSample>
    ensures { result ≡ other_of_track trak.now trafs.now mvex.now }
{
    let stbl = &trak.mdia.minf.stbl;
    let count = stbl.sample_count();
    match other_in_chunks(stbl.stsc.entries.as_slice(), count) {
        Some(other) => Some(other),
        None => {
            let default = default_description(trexs_of(mvex), trak.tkhd.track_id);
            other_in_fragments(trafs, count, default)
        }
    }
}

/// The first sample of a track that a format refuses for its description.
fn other_for(
    format: SampleFormat,
    trak: &TrakBox,
    trafs: &[TrafBox],
    mvex: &Option<MvexBox>,
) -> Option<OtherSample>
    ensures { result ≡ other_for format trak.now trafs.now mvex.now }
{
    match format {
        SampleFormat::AsStored => None,
        SampleFormat::AnnexB => other_of_track(trak, trafs, mvex),
        SampleFormat::Adts => other_of_track(trak, trafs, mvex),
    }
}

/// `OtherDescription` for the first sample of a track that a format refuses for its description.
pub(crate) fn check_descriptions(
    format: SampleFormat,
    trak: &TrakBox,
    trafs: &[TrafBox],
    mvex: &Option<MvexBox>,
) -> Result<(), ExtractError>
    ensures ok { OnOk result (other_for format trak.now trafs.now mvex.now ≡ None) }
    ensures refused { IfErr result (λ e. (o : OtherSample) × (other_for format trak.now trafs.now mvex.now ≡ Some o)
        × (e ≡ OtherDescription o.number o.description format)) }
{
    match other_for(format, trak, trafs, mvex) {
        None => Ok(()),
        Some(other) => Err(ExtractError::OtherDescription(other.number, other.description, format)),
    }
}
