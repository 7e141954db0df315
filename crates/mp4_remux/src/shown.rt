//! When samples have been shown.

ghost use Rattle.std.specs.Prelude.{◌≡◌, ◌-◌, ◌^◌, min};
ghost use Rattle.mp4_samples.specs.Places.{place_of};
ghost use Rattle.mp4_remux.specs.Headers.{shown_at, shown_end};

use mp4_media::SamplePlace;

/// When a sample has been shown that is decoded at this time, lasts so long, and is shown by so much later.
fn shown_at(decoded: u64, duration: u32, offset: i32) -> u128
    ensures { result ≡ shown_at decoded duration offset }
{
    let end = u128::from(decoded) + u128::from(duration);
    let difference = u128::from(offset.unsigned_abs());
    if offset < 0 {
        end.saturating_sub(difference)
    } else {
        end + difference
    }
}

/// When a sample has been shown, in ticks of its track.
pub(crate) fn shown_end(sample: &SamplePlace) -> u128
    ensures { result ≡ shown_end (place_of sample.now) }
{
    shown_at(sample.start_time, sample.duration, sample.rendering_offset)
}

/// The same; the largest number where that passes 64 bits.
pub(crate) fn shown_ticks(sample: &SamplePlace) -> u64
    ensures { result ≡ min (2 ^ 64 - 1) (shown_end (place_of sample.now)) }
{
    shown_end(sample).min(u128::from(u64::MAX)) as u64
}
