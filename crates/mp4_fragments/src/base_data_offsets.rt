//! Where the data of fragments lies: the base data offset of each track fragment.

ghost use Rattle.std.specs.Prelude.{◌≡◌, fold};
ghost use Rattle.mp4_moof.specs.Optional.{is_set};
ghost use Rattle.mp4_fragments.specs.BaseDataOffsets.{base_data_offset_of, counts_from_data_before, data_ends};
ghost use Rattle.mp4_fragments.specs.BaseDataOffsets.{traf_ends};

use crate::defaults::SampleDefaults;
use crate::run_starts::{add, data_begin};
use crate::values::sum_of;
use mp4_moof::{TrafBox, TrunBox};

/// The flag of a header whose base data offset is the first byte of its fragment.
const DEFAULT_BASE_IS_MOOF: u32 = 0x20000;

/// Where the places of a track fragment count from (ISO/IEC 14496-12, 8.8.7): its own base data offset where it says
/// one; else `moof`, the first byte of the fragment, where it says so; else `before`, where the data before it ended.
#[tactic(auto, unfolding(mp4_moof::specs::Optional::is_set))]
pub fn traf_base_data_offset(traf: &TrafBox, moof: u64, before: Option<u64>) -> Option<u64>
    ensures { result ≡ base_data_offset_of traf.now moof before }
{
    match traf.tfhd.base_data_offset {
        Some(base_data_offset) => Some(base_data_offset),
        None => {
            if traf.tfhd.flags & DEFAULT_BASE_IS_MOOF != 0 {
                Some(moof)
            } else {
                before
            }
        }
    }
}

/// Whether the places of a track fragment count from where the data before it ended: it says neither a base data offset
/// nor that they count from the first byte of its movie fragment.
#[tactic(auto, unfolding(mp4_moof::specs::Optional::is_set))]
pub fn counts_from_data_before(traf: &TrafBox) -> bool
    ensures { result ≡ counts_from_data_before traf.now }
{
    match traf.tfhd.base_data_offset {
        Some(_) => false,
        None => traf.tfhd.flags & DEFAULT_BASE_IS_MOOF == 0,
    }
}

/// Where the data of a run ends.
fn data_end(
    base_data_offset: Option<u64>,
    defaults: SampleDefaults,
    before: Option<u64>,
    run: &TrunBox,
) -> Option<u64>
    ensures { result ≡ data_ends base_data_offset defaults before run.now }
{
    let bytes = sum_of(run.sample_sizes.as_slice(), defaults.size, run.sample_count);
    add(data_begin(base_data_offset, run.data_offset, before), bytes)
}

/// Where the data of a track fragment ends: after its last run, at its base data offset where it has none. `track` is
/// what the movie says of the track's samples.
#[tactic(auto, unfolding(crate::specs::BaseDataOffsets::traf_ends))]
pub fn traf_end(traf: &TrafBox, track: SampleDefaults, base_data_offset: Option<u64>) -> Option<u64>
    ensures { result ≡ traf_ends track base_data_offset traf.now }
{
    runs_end(traf.truns.as_slice(), track.in_traf(traf), base_data_offset)
}

/// Where the data of these runs ends.
fn runs_end(
    runs: &[TrunBox],
    defaults: SampleDefaults,
    base_data_offset: Option<u64>,
) -> Option<u64>
    ensures { result ≡ fold (data_ends base_data_offset defaults) base_data_offset runs.now }
{
    let mut end = base_data_offset;
    for run in runs {
        end = data_end(base_data_offset, defaults, end, run);
    }
    end
}
