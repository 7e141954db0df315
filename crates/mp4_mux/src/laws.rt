//! What the calls of a writer come to, whatever was refused among them.
//!
//! Each function here does nothing; its contract is a law that holds of all sessions: a writer that was begun, the
//! calls of it, and their replies.

ghost use Rattle.std.specs.Prelude.{◌≡◌, ◌≤◌, ◌<◌, ◌^◌, ◌++◌, ◌+◌, ◌-◌, ℕ, List, length, map, false, slice_get};
ghost use Rattle.std.specs.Prelude.{slice_index_or, Some, None, Ok};
ghost use Rattle.std.specs.List.{AllPairs};
ghost use Rattle.mp4_mux.specs.Chunks.{TrackState, chunk_of, last_chunks, samples_of};
ghost use Rattle.mp4_boxes.specs.declared.stbl.StblBox.{StblBox};
ghost use Rattle.mp4_samples.specs.Samples.{Sample, TimedSample, timed};
ghost use Rattle.mp4_samples.specs.Plain.{plain_at};
ghost use Rattle.mp4_mux.specs.Writing.{WriterState, track_at, accepted, data_of, data_place, with_end};
ghost use Rattle.mp4_mux.specs.Sound.{IsIdOf, IsSound};
ghost use Rattle.mp4_mux.specs.Calls.{Session, IsAnswered, IsEnded, writer_of, accepted_by, none_accepted};
ghost use Rattle.mp4_mux.specs.Layout.{IsLaidOut, IsLaidOutAtEnd, chunks_of};
ghost use Rattle.mp4_mux.specs.Written.{Describes, Finds, HaveSameSamples, IsWrittenMovie, LiesInOne, SampleRange};
ghost use Rattle.mp4_mux.specs.Written.{Tiles, ranges};

/// A writer has the tracks and the samples that its calls accept, in their order, and nothing else. No number passes
/// its type, and the buffer handed in and the movie's configuration never change.
pub fn calls_accept_their_samples()
    ensures accepted { (session : Session) → IsAnswered session → accepted (writer_of session) ≡ accepted_by session }
    ensures sound { (session : Session) → IsAnswered session → IsSound (writer_of session) }
    ensures front { (session : Session) → (writer_of session).front ≡ session.front }
    ensures config { (session : Session) → (writer_of session).config ≡ session.config }
{}

/// Before the end each chunk is full, and no proper beginning of it is; what is pending of a track is not full. At
/// the end that held until then, and what was pending is in chunks after the others.
pub fn chunks_are_just_full()
    ensures before_end { (session : Session) → IsAnswered session → (writer_of session).ended ≡ false
        → IsLaidOut (writer_of session) }
    ensures at_end { (session : Session) → IsEnded session → IsLaidOutAtEnd (writer_of session) }
{}

/// An end adds chunks after the others, in the order of the tracks: what is pending of a track is a chunk, where
/// anything is, so that each track has at most one of them. It accepts nothing, and loses nothing.
pub fn an_end_closes_one_chunk_a_track()
    ensures after { (st : WriterState) → (with_end st).chunks ≡ st.chunks ++ last_chunks 1 st.tracks }
    ensures pending { (st : WriterState) (id : ℕ) → 1 ≤ id
        → chunks_of id (last_chunks 1 st.tracks) ≡ chunk_of id (track_at st id).pending }
    ensures once { (ts : List TrackState) (id : ℕ) → length (chunks_of id (last_chunks 1 ts)) ≤ 1 }
    ensures order { (ts : List TrackState) → AllPairs (λ c d. c.track_id < d.track_id) (last_chunks 1 ts) }
    ensures accepted { (st : WriterState) → accepted (with_end st) ≡ accepted st }
{}

/// At the end the movie has a box for each track that the calls accept, whose tables describe exactly its accepted
/// samples, in order; and each byte of the data is of one sample.
pub fn an_end_writes_the_accepted_samples()
    ensures written { (session : Session) → IsEnded session → IsWrittenMovie (writer_of session) }
    ensures each_byte { (st : WriterState) → Tiles st → (byte : ℕ) → data_place st ≤ byte
        → byte < data_place st + length (data_of st) → LiesInOne byte (map (λ (r : SampleRange). r.range) (ranges st)) }
{}

/// In a file of less than 2^64 bytes whose tables describe samples, the plain expansion of the tables finds each of
/// them by its number, and none past the last.
pub fn described_samples_are_found()
    ensures found { (file : List ℕ) (t : StblBox) (ss : List Sample) → Describes file t ss → length file < 2 ^ 64
        → (k : ℕ) (s : TimedSample) → slice_get (timed ss) k ≡ Some s → Finds file (plain_at t (k + 1)) s }
    ensures past { (file : List ℕ) (t : StblBox) (ss : List Sample) → Describes file t ss → (k : ℕ) → length ss ≤ k
        → plain_at t (k + 1) ≡ Ok None }
{}

/// At the end the chunks of a track have its accepted samples, in their order. So of two writers whose calls accept the
/// same samples of each track, the chunks have the same samples, and the same samples are read by the tables of the two
/// movies, whatever the order of the calls of different tracks.
pub fn interleavings_accept_the_same()
    ensures accepted { (one other : Session) → IsAnswered one → IsAnswered other → accepted_by one ≡ accepted_by other
        → accepted (writer_of one) ≡ accepted (writer_of other) }
    ensures samples { (session : Session) → IsEnded session → (id : ℕ) → IsIdOf (writer_of session) id
        → samples_of id (writer_of session).chunks
        ≡ (slice_index_or (accepted_by session) (id - 1) none_accepted).samples }
    ensures same { (one other : Session) → IsEnded one → IsEnded other → accepted_by one ≡ accepted_by other → (id : ℕ)
        → samples_of id (writer_of one).chunks ≡ samples_of id (writer_of other).chunks }
    ensures read { (one other : Session) → IsEnded one → IsEnded other → accepted_by one ≡ accepted_by other
        → HaveSameSamples (writer_of one) (writer_of other) }
{}
