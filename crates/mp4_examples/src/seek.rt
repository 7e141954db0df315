//! Where to begin decoding, to show what is decoded at a time.

ghost use Rattle.std.specs.Prelude.{◌≡◌, ℕ, IfOk, IfSome, IsTrue, Ok, Some};
ghost use Rattle.mp4_media.specs.ByTime.{is_sync_sample};
ghost use Rattle.mp4_media.specs.Reading.{sample_in};
ghost use Rattle.mp4_media.specs.Samples.{borrowed_sample};
ghost use Rattle.mp4_media.specs.Tables.{tables_of};
ghost use Rattle.mp4_media.specs.TrackRuns.{track_runs};

use mp4_media::{Mp4Reader, Mp4Track, Result, SampleRef};

/// The number of the sample from which to decode: the last sync sample at or before the last sample that is
/// decoded at or before a time in ticks of the track. None where no sample is decoded so early, or none is a sync
/// sample.
pub fn decode_from(track: &Mp4Track, time: u64) -> Option<u32>
    ensures { IfSome result (λ n. IsTrue (is_sync_sample (tables_of track.now.trak) (track_runs track.now) n)) }
{
    let shown = track.sample_at(time)?;
    let first = track.sync_sample_at_or_before(shown)?;
    Some(first)
}

/// That sample: what the file holds of the track at that number.
pub fn sync_sample_for<'a>(
    movie: &Mp4Reader<'a>,
    track_id: u32,
    time: u64,
) -> Result<Option<SampleRef<'a>>>
    ensures { IfOk result (λ s. IfSome s (λ s.
        (n : ℕ) × (sample_in movie.now.bytes.now movie.now.movie.tracks track_id n ≡ Ok (Some (borrowed_sample s))))) }
{
    let Some(track) = movie.tracks().get(&track_id) else {
        return Ok(None);
    };
    let Some(number) = decode_from(track, time) else {
        return Ok(None);
    };
    movie.read_sample_ref(track_id, number)
}
