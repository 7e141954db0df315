//! Laws: what follows from the definitions alone. Each function here does nothing; its contract is a law.

ghost use Rattle.std.specs.Prelude.{◌≡◌, ◌<◌, ◌+◌, ◌^◌, ℕ, List, [], Ok, Result, Some, length};
ghost use Rattle.mp4_codec.specs.declared.error.Error.{Error};
ghost use Rattle.mp4_samples.specs.Samples.{TimedSample};
ghost use Rattle.mp4_mux.specs.Calls.{IsEnded, Session, accepted_by, writer_of};
ghost use Rattle.mp4_mux.specs.Writing.{AcceptedTrack, WriterState, whole_of};
ghost use Rattle.mp4_media.specs.Finished.{Opens};
ghost use Rattle.mp4_media.specs.WriterFields.{KeptMovie, MayHold};
ghost use Rattle.mp4_media.specs.declared.reader.Mp4Reader.{Mp4Reader};
ghost use Rattle.mp4_media.specs.Opening.{IsOpening};
ghost use Rattle.mp4_media.specs.RoundTrip.{HasExactly, OpensAs, sample_read, samples_counted};

pub use mp4_boxes::read_tables_have_first_samples;
pub use mp4_codec::{
    box_has_its_header, code_again, header_says_its_box, insertion_changes_one_key,
    payload_has_its_children, refused_head_says_why, what_is_written_reads_back,
};
pub use mp4_entry::{
    configurations_are_written, numbers_have_one_value, values_have_their_numbers,
};
pub use mp4_lookup::{decode_times_are_start_times, rule_is_plain_expansion};
pub use mp4_meta::equal_keys_hash_alike;
pub use mp4_mux::{
    an_end_closes_one_chunk_a_track, an_end_writes_the_accepted_samples,
    calls_accept_their_samples, chunks_are_just_full, described_samples_are_found,
    interleavings_accept_the_same,
};
pub use mp4_table::{
    entries_are_no_fewer_than_changes, entries_have_first_samples, runs_are_no_fewer_than_changes,
};

/// The bytes of a writer that was begun in an empty buffer, and whose end was Ok, open as a movie that has exactly the
/// tracks and samples that its calls accepted, or memory runs out.
pub fn written_movies_are_read_back()
    ensures { (session : Session) → session.front ≡ [] → IsEnded session → Opens (writer_of session) → (file : List ℕ)
        → file ≡ whole_of (writer_of session) → length file < 2 ^ 64 → (result : Result Mp4Reader Error)
        → IsOpening file result → OpensAs (λ movie. HasExactly movie (accepted_by session)) result }
{}

/// A sample's start and its duration are the start of the next one of its track (ISO/IEC 14496-12, 8.6.1.2).
pub fn samples_follow_one_another()
    ensures { (movie : Mp4Reader) (accepted : List AcceptedTrack) → HasExactly movie accepted → (id k : ℕ)
        → k + 1 < 2 ^ 32 → (s next : TimedSample) → sample_read movie id k ≡ Ok (Some s)
        → sample_read movie id (k + 1) ≡ Ok (Some next) → next.start_time ≡ s.start_time + s.sample.duration }
{}

/// Two movies whose calls accepted the same tracks, with the same samples, answer the same, however the calls of
/// different tracks were ordered.
pub fn interleavings_are_read_alike()
    ensures samples { (one other : Mp4Reader) (accepted : List AcceptedTrack) → HasExactly one accepted
        → HasExactly other accepted → (id k : ℕ) → k < 2 ^ 32 → sample_read one id k ≡ sample_read other id k }
    ensures counts { (one other : Mp4Reader) (accepted : List AcceptedTrack) → HasExactly one accepted
        → HasExactly other accepted → (id : ℕ) → samples_counted one id ≡ samples_counted other id }
{}

/// The sink of a writer has as many bytes as a state that the writer may have. Where its bytes are known, that is one
/// state alone, and they are its bytes: those that an [`crate::Mp4Writer`] of the same state has.
pub fn known_sinks_have_their_states_bytes()
    ensures bytes { (w : KeptMovie) (st : WriterState) (bytes : List ℕ) → MayHold w st
        → w.media.contents ≡ Some bytes → bytes ≡ whole_of st }
    ensures len { (w : KeptMovie) (st : WriterState) → MayHold w st → w.media.len ≡ length (whole_of st) }
    ensures one { (w : KeptMovie) (one other : WriterState) (bytes : List ℕ) → MayHold w one → MayHold w other
        → w.media.contents ≡ Some bytes → one ≡ other }
{}
