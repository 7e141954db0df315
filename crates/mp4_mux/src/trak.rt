//! The box of a track that is written.

ghost use Rattle.std.specs.Prelude.{◌≡◌, ◌+◌, ◌^◌, ◌<◌, Ok, None, length};
ghost use Rattle.mp4_codec.specs.Cause.{Answers};
ghost use Rattle.mp4_boxes.specs.Trak.{trak_payload};
ghost use Rattle.mp4_mux.specs.Config.{config_cause};
ghost use Rattle.mp4_mux.specs.SampleTables.{stts_for, ctts_for, stss_for, stsz_for, stsc_for, stco_for, co64_for};
ghost use Rattle.mp4_mux.specs.FinishedTrack.{counts_of, offsets_of, stbl_for, minf_for, mdia_for, trak_with};
ghost use Rattle.mp4_mux.specs.FinishedTrack.{sample_tables_length, chunk_tables_length};
ghost use Rattle.mp4_mux.specs.TrackParts.{HaveRoom, finished, finished_with};

use crate::chunk_place::ChunkPlace;
use crate::config::TrackConfig;
use crate::description::{entry_size, stsd_box};
use crate::durations::Durations;
use crate::sample_infos::SampleInfos;
use crate::table_sizes::{ctts_size, places_size, stsc_size, stss_size, stsz_size, stts_size};
use crate::tables::{co64, ctts, stco, stsc, stss, stsz, stts};
use crate::track_headers::{
    hdlr_box, header_size, mdhd_box, media_header_size, smhd_box, tkhd_box, vmhd_box,
};
use mp4_boxes::{MdiaBox, MinfBox, StblBox, TrakBox};
use mp4_codec::Result;
use mp4_leaf::DinfBox;
use mp4_table::{Co64Box, CttsBox, StcoBox, StscBox, StssBox, StszBox, SttsBox};
use std::alloc::Global;

/// How many bytes each track has: the headers of trak, mdia, minf and stbl, of 8 bytes each, hdlr of 33, dinf of 36,
/// and the first 16 of stsd.
const ALWAYS_THERE: u64 = 117;

/// What the box of a track is made from, borrowed.
#[derive(Clone, Copy, Debug)]
pub struct TrackParts<'a> {
    /// The number of the track, which counts from 1.
    pub id: u32,
    /// What it was added with.
    pub config: &'a TrackConfig,
    /// Its samples, in the order in which they are decoded.
    pub samples: &'a SampleInfos,
    /// Its chunks, in the order of their samples.
    pub chunks: &'a [ChunkPlace],
    /// How long it is.
    pub durations: Durations,
}

/// The tables that say when samples are decoded and shown (ISO/IEC 14496-12, 8.6.1). Refused by `OutOfMemory` alone.
fn time_tables(alloc: Global, samples: &SampleInfos) -> Result<(SttsBox, Option<CttsBox>)>
    ensures { Answers (λ both. both) result (Ok (stts_for samples.now, ctts_for samples.now)) }
{
    let stts = stts(alloc, samples)?;
    let ctts = ctts(alloc, samples)?;
    Ok((stts, ctts))
}

/// The tables that say which are sync samples (8.6.2) and how many bytes each has (8.7.3). Refused by `OutOfMemory`
/// alone.
fn sample_tables(alloc: Global, samples: &SampleInfos) -> Result<(Option<StssBox>, StszBox)>
    ensures { Answers (λ both. both) result (Ok (stss_for samples.now, stsz_for samples.now)) }
{
    let stss = stss(alloc, samples)?;
    let stsz = stsz(alloc, samples)?;
    Ok((stss, stsz))
}

/// The tables that say where they lie (8.7.4 and 8.7.5). Refused by `OutOfMemory` alone.
#[tactic(auto, using(crate::proofs::Tracks::placed))]
fn chunk_tables(
    alloc: Global,
    track: &TrackParts,
) -> Result<(StscBox, Option<StcoBox>, Option<Co64Box>)>
    requires { HaveRoom track.now.samples.now track.now.chunks.now }
    ensures { let chunks = (finished track.now).chunks in Answers (λ all. all) result
        (Ok (stsc_for (counts_of chunks), stco_for (offsets_of chunks), co64_for (offsets_of chunks))) }
{
    let stsc = stsc(alloc, track.chunks)?;
    let stco = stco(alloc, track.chunks)?;
    let co64 = co64(alloc, track.chunks)?;
    Ok((stsc, stco, co64))
}

/// Both, or the first refusal. It is proved once, for any types: a function that owns tables at an end is slow to
/// prove, since each of them is taken apart there.
fn both<A: Drop, B: Drop>(first: Result<A>, second: Result<B>) -> Result<(A, B)>
    ensures { (a : A) (b : B) → Answers (λ x. x) first (Ok a) → Answers (λ x. x) second (Ok b)
        → Answers (λ x. x) result (Ok (a, b)) }
{
    let first = first?;
    let second = second?;
    Ok((first, second))
}

/// The table of its samples (8.5.1). Refused by `OutOfMemory` alone.
fn stbl_box(alloc: Global, track: &TrackParts) -> Result<StblBox>
    requires { HaveRoom track.now.samples.now track.now.chunks.now }
    ensures { Answers (λ b. b) result (Ok (stbl_for (finished track.now))) }
{
    let times = time_tables(alloc, track.samples);
    let sizes = sample_tables(alloc, track.samples);
    let chunks = chunk_tables(alloc, track);
    let stsd = stsd_box(alloc, &track.config.media_conf, track.samples);
    let (((stts, ctts), (stss, stsz)), ((stsc, stco, co64), stsd)) = both(
        both(times, sizes),
        both(chunks, stsd),
    )?;
    Ok(StblBox {
        stsd,
        stts,
        ctts,
        stss,
        stsc,
        stsz,
        stco,
        co64,
    })
}

/// What its media are made of (8.4.4). Refused by `OutOfMemory` alone.
fn minf_box(alloc: Global, track: &TrackParts) -> Result<MinfBox>
    requires { HaveRoom track.now.samples.now track.now.chunks.now }
    ensures { Answers (λ b. b) result (Ok (minf_for (finished track.now))) }
{
    let media = &track.config.media_conf;
    Ok(MinfBox {
        vmhd: vmhd_box(media),
        smhd: smhd_box(media),
        dinf: DinfBox::default(alloc)?,
        stbl: stbl_box(alloc, track)?,
    })
}

/// Its media (8.4.1). Refused by `OutOfMemory` alone.
fn mdia_box(alloc: Global, track: &TrackParts) -> Result<MdiaBox>
    requires { HaveRoom track.now.samples.now track.now.chunks.now }
    ensures { Answers (λ b. b) result (Ok (mdia_for track.now.durations.media (finished track.now))) }
{
    Ok(MdiaBox {
        mdhd: mdhd_box(track.durations.media, track.config)?,
        hdlr: hdlr_box(alloc, track.config.track_type),
        minf: minf_box(alloc, track)?,
    })
}

/// The box of a track (8.3.1). Refused by `OutOfMemory` alone.
#[tactic(auto, unfolding(crate::specs::FinishedTrack::trak_with))]
pub fn trak_box(alloc: Global, track: &TrackParts) -> Result<TrakBox>
    requires { HaveRoom track.now.samples.now track.now.chunks.now }
    ensures { Answers (λ b. b) result (Ok (trak_with track.now.durations (finished track.now))) }
{
    Ok(TrakBox {
        tkhd: tkhd_box(track.id, track.durations.movie, &track.config.media_conf),
        edts: None,
        meta: None,
        mdia: mdia_box(alloc, track)?,
    })
}

/// How many bytes the tables have that say when samples are shown, which are sync samples, and how long they are. It
/// requests no memory.
#[tactic(auto, unfolding(crate::specs::FinishedTrack::sample_tables_length))]
fn sample_tables_size(samples: &SampleInfos) -> u64
    ensures value { result ≡ sample_tables_length samples.now }
    ensures small { result < 2 ^ 40 }
{
    stts_size(samples) + ctts_size(samples) + stss_size(samples) + stsz_size(samples)
}

/// How many bytes the tables have that say where samples lie, with one more chunk after those of the track. It requests
/// no memory.
#[tactic(auto, using(crate::proofs::Tracks::placed), unfolding(crate::specs::FinishedTrack::chunk_tables_length))]
fn chunk_tables_size(track: &TrackParts, last: &Option<ChunkPlace>) -> u64
    requires { length track.now.chunks.now < 2 ^ 32 }
    ensures value { result ≡ chunk_tables_length (finished_with track.now last.now).chunks }
    ensures small { result < 2 ^ 39 }
{
    stsc_size(track.chunks, last) + places_size(track.chunks, last)
}

/// How many bytes the box of a track has, its header included, with one more chunk after those of the track. It
/// requests no memory.
#[tactic(auto, using(crate::proofs::Tracks::lengths))]
pub fn trak_size(track: &TrackParts, last: &Option<ChunkPlace>) -> u64
    requires samples { length track.now.samples.now < 2 ^ 32 }
    requires chunks { length track.now.chunks.now < 2 ^ 32 }
    requires accepted { config_cause track.now.config.now ≡ None }
    ensures value { result ≡ 8
        + length (trak_payload (trak_with track.now.durations (finished_with track.now last.now))) }
    ensures small { result < 2 ^ 41 }
{
    let media = &track.config.media_conf;
    ALWAYS_THERE
        + header_size(92, track.durations.movie)
        + header_size(32, track.durations.media)
        + media_header_size(media)
        + entry_size(media)
        + sample_tables_size(track.samples)
        + chunk_tables_size(track, last)
}
