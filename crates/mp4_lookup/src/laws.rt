//! What the lookup of a sample has to do with the tables written out.
//!
//! Each function here does nothing; its contract is a law.

ghost use Rattle.std.specs.Prelude.{◌≡◌, ℕ, ◌^◌, ◌<◌, ◌≤◌, List, length, Some, Ok};
ghost use Rattle.mp4_table.specs.Stsc.{HasFirstSamples};
ghost use Rattle.mp4_boxes.specs.Stbl.{sample_count};
ghost use Rattle.mp4_boxes.specs.declared.stbl.StblBox.{StblBox};
ghost use Rattle.mp4_boxes.specs.declared.trak.TrakBox.{TrakBox};
ghost use Rattle.mp4_fragments.specs.RunSamples.{PlacedRun};
ghost use Rattle.mp4_moof.specs.declared.traf.TrafBox.{TrafBox};
ghost use Rattle.mp4_samples.specs.declared.sample.Place.{Place};
ghost use Rattle.mp4_samples.specs.Plain.{Consistent, plain_at};
ghost use Rattle.mp4_samples.specs.Tables.{tables_of};
ghost use Rattle.mp4_lookup.specs.ByTime.{decode_time, duration_of, is_sync_sample};
ghost use Rattle.mp4_lookup.specs.Rule.{rule};
ghost use Rattle.mp4_lookup.specs.Tracks.{answer_at};

/// Where the tables of a track describe the same samples, the lookup answers what they say written out, at
/// every number of 32 bits: the sample of that number, none past the last, and `InvalidData` at 0 and for a
/// place past 64 bits. The first samples of stsc are those that reading gives.
pub fn rule_is_plain_expansion()
    ensures { (t : StblBox) (track k : ℕ) → Consistent t → HasFirstSamples t.stsc.entries → k < 2 ^ 32
        → rule t track k ≡ plain_at t k }
{}

/// A sample that is located is decoded at the start time of its place, lasts as long, and is a sync sample if the place
/// says so: what samples by their times are found by is what samples by their numbers have. In a track that no fragment
/// names that is said of the numbers up to the count of stsz.
pub fn decode_times_are_start_times()
    ensures { (trak : TrakBox) (trafs : List TrafBox) (runs : List PlacedRun) (k : ℕ) (p : Place)
        → (length trafs ≡ 0 → k ≤ sample_count (tables_of trak)) → answer_at trak trafs runs k ≡ Ok (Some p)
        → (decode_time (tables_of trak) runs k ≡ Some p.start_time) × (duration_of (tables_of trak) runs k ≡ p.duration)
        × (is_sync_sample (tables_of trak) runs k ≡ p.is_sync) }
{}
