//! A movie of some of its tracks, and one whose fragments are gathered.

ghost use Rattle.std.specs.Prelude.{◌≡◌, ◌≤◌, ◌<◌, ◌+◌, ◌-◌, length};
ghost use Rattle.std.specs.Prelude.{IfSome, IfErr, IfOk, OnOk, IsTrue};
ghost use Rattle.mp4_codec.specs.Cursor.{here};
ghost use Rattle.mp4_source.specs.Answers.{IsLength};
ghost use Rattle.mp4_media.specs.FileBoxes.{OpenedFile, opened_movie};
ghost use Rattle.mp4_media.specs.FileGrammar.{IsFile};
ghost use Rattle.mp4_media.specs.MovieTracks.{AreTracks};
ghost use Rattle.mp4_remux.specs.Errors.{IsNamed, IsRefusalOf, MayRefuse, SaysFault, SaysMissing};
ghost use Rattle.mp4_remux.specs.Errors.{TakesMemory};
ghost use Rattle.mp4_remux.specs.Gathered.{HasMoreThanTables, WritesChosen, WritesGathered};
ghost use Rattle.mp4_remux.specs.Gathered.{WritesRebuilt};
ghost use Rattle.mp4_remux.specs.Headers.{made_of};
ghost use Rattle.mp4_remux.specs.Named.{NamesBox};
ghost use Rattle.mp4_remux.specs.PlannedRebuilt.{IsWhyNotChosen, IsWhyNotRebuilt};
ghost use Rattle.mp4_remux.specs.PlannedRebuilt.{WritesPlanned};
ghost use Rattle.mp4_remux.specs.Remuxed.{ids_of, kept_of};
ghost use Rattle.mp4_remux.specs.Why.{AreKept};
ghost use Rattle.mp4_remux.specs.declared.made.Made.TheVariants.{Tables};

use crate::chosen::{all_ids, kept_ids};
use crate::copy::copy_all;
use crate::error::RemuxError;
use crate::frame::read_frame;
use crate::left_out::{Parted, part, sorted_ids};
use crate::made::Keeps;
use crate::movie_edits::{has_fragments, made_of};
use crate::rebuilt_layout::plan;
use crate::reference::{Reference, references_in};
use crate::rewrite::{open_source, write_layout};
use mp4_media::Movie;
use mp4_source::{ByteSink, ByteSource};
use std::alloc::Global;

/// Writes a movie of the tracks with these ids, of all, which are in the order of their boxes, and answers which
/// references of them are left out.
fn write_chosen<S: ByteSource + Drop, K: ByteSink>(
    alloc: Global,
    source: S,
    len: u64,
    movie: &Movie,
    all: &[u32],
    ids: &[u32],
    sink: &mut K,
) -> Result<Vec<Reference>, RemuxError>
    requires len { IsLength (S.contents source) len }
    requires tracks { AreTracks movie.now.moov movie.now.moofs movie.now.moof_places movie.now.tracks }
    requires opened { IfSome (S.contents source) (λ xs. IsFile (length xs) (here xs 0) (opened_movie movie.now)) }
    requires kept { AreKept (opened_movie movie.now) ids.now }
    requires all { all.now ≡ ids_of movie.now.moov }
    ensures written { IfOk result (λ gone. IfSome (S.contents source) (λ xs. WritesRebuilt xs (opened_movie movie.now)
        all.now ids.now gone.items (K.contents sink.old) (K.contents sink.new))) }
    ensures planned { OnOk result (IfSome (S.contents source) (λ xs. WritesPlanned xs (opened_movie movie.now) ids.now
        (K.contents sink.old) (K.contents sink.new))) }
    ensures names { IfErr result (NamesBox (S.contents source)) }
    ensures flushed { OnOk result (K.waiting sink.new ≡ 0) }
    ensures kept { IfErr result (λ e. IsNamed e → K.contents sink.new ≡ K.contents sink.old) }
    ensures len { IfErr result (λ e. IsNamed e → K.len sink.new ≡ K.len sink.old) }
    ensures more { OnOk result (K.len sink.old ≤ K.len sink.new) }
    ensures refused { IfErr result (IsRefusalOf (MayRefuse (S.contents source) (S.can_refuse source))
        (IsTrue (K.can_refuse sink.old))) }
    ensures why { IfErr result (λ e. IfSome (S.contents source) (λ xs.
        IsWhyNotRebuilt xs (opened_movie movie.now) ids.now e)) }
{
    let (source, frame) = read_frame(alloc, source, len, has_fragments(movie))?;
    let references = references_in(alloc, &frame.movie_bytes, all)?;
    let sorted = sorted_ids(alloc, ids)?;
    let leaves_some = ids.len() < all.len();
    let Parted { staying, left_out } = part(alloc, &references, leaves_some, &sorted)?;
    drop(references);
    let keeps = Keeps {
        ids,
        references: &staying,
    };
    let layout = plan(alloc, &frame, movie, &keeps, &sorted, len)?;
    drop(frame);
    write_layout(alloc, source, movie, &layout, ids, made_of(movie), sink)?;
    Ok(left_out)
}

/// Writes a movie whose samples are in fragments to a sink as one whose samples are in its tables (ISO/IEC 14496-12,
/// 8.6 to 8.8), also one that has both: the file type, the movie box, the other boxes in their order, and the data of
/// all samples in that of the file, in one `mdat`. In the movie box each track has tables of its samples with the
/// fewest entries, the durations are those of the samples or of the edits, and an edit that lasts to the end of the
/// media, fragments and all, gets its own; `mvex` is left out, and every other byte of it is there as it was. A file
/// without fragments, in which none may follow, is written as it is: once it opens, it is refused for nothing but
/// memory, the source or the sink.
///
/// The boxes `moof`, `mfra`, `sidx`, `ssix`, `styp` and `prft` are left out, and bytes of `mdat` that are no sample's.
/// Beside times, sizes, places, descriptions and sync marks nothing of what fragments say of a sample has a table here:
/// flags of dependency and of priority are lost, and an `emsg` of version 0 counts from a segment that isn't there any
/// more.
///
/// The file is opened, and each sample of each track is looked up before a byte is written, in the file and in what
/// would be written. In memory are then the movie's tables twice and a block of 128 KiB.
///
/// Refused as [`mp4_media::Mp4File::open`], and as [`mp4_media::Mp4File::read_sample`] where a sample isn't found; and:
/// `StartsElsewhere` where a sample doesn't begin when the one before it ends, or the first of a track at 0;
/// `SaysOfSamples` for a box in a fragment or in the movie box that says more of samples than tables do (`senc`,
/// `saiz`, `sbgp`, `sdtp` and the like, which are refused and never dropped); `Twice`, `SaysPlaces`, `TooManySamples`,
/// `SameIds` and `Differs` as [`move_to_front`](crate::move_to_front). `Read` where the source refuses, `Write` where
/// the sink does: then the sink may have some first bytes of the file. A refusal that is none of memory, source or sink
/// leaves the sink as it was.
pub fn gather<S: ByteSource + Drop, K: ByteSink>(
    alloc: Global,
    source: S,
    sink: &mut K,
) -> Result<(), RemuxError>
    ensures written { OnOk result (IfSome (S.contents source) (λ xs.
        WritesGathered xs (K.contents sink.old) (K.contents sink.new))) }
    ensures flushed { OnOk result (K.waiting sink.new ≡ 0) }
    ensures kept { IfErr result (λ e. IsNamed e → K.contents sink.new ≡ K.contents sink.old) }
    ensures len { IfErr result (λ e. IsNamed e → K.len sink.new ≡ K.len sink.old) }
    ensures more { OnOk result (K.len sink.old ≤ K.len sink.new) }
    ensures refused { IfErr result (IsRefusalOf (MayRefuse (S.contents source) (S.can_refuse source))
        (IsTrue (K.can_refuse sink.old))) }
    ensures fault { SaysFault (S.contents source) (S.can_refuse source) result }
    ensures names { IfErr result (NamesBox (S.contents source)) }
    ensures as_it_is { IfErr result (λ e. IsNamed e → HasMoreThanTables (S.contents source)) }
    ensures memory { TakesMemory (S.contents source) result }
    ensures planned { OnOk result (IfSome (S.contents source) (λ xs. (opened : OpenedFile)
        → IsFile (length xs) (here xs 0) opened → made_of opened ≡ Tables
        → WritesPlanned xs opened (ids_of opened.moov) (K.contents sink.old) (K.contents sink.new))) }
    ensures why { IfErr result (λ e. IfSome (S.contents source) (λ xs. (opened : OpenedFile)
        → IsFile (length xs) (here xs 0) opened → IsWhyNotRebuilt xs opened (ids_of opened.moov) e)) }
{
    let (source, len, movie) = open_source(alloc, source)?;
    if !has_fragments(&movie) {
        let mut source = source;
        return copy_all(alloc, &mut source, len, sink);
    }
    let ids = all_ids(alloc, &movie)?;
    write_chosen(alloc, source, len, &movie, &ids, &ids, sink)?;
    Ok(())
}

/// Writes a movie to a sink with these of its tracks alone, by their ids, and with the data of their samples: the file
/// type, the movie box, the other boxes in their order, and the data in the order of the file, in one `mdat`. In the
/// movie box the other tracks are left out, and the references to them; the chunk offsets are others, and the movie is
/// as long as the longest of its tracks. Every other byte of it is there as it was. Where the file has fragments, or
/// says that they may follow, they are gathered as [`gather`] does.
///
/// The answer says which references are left out, in the order of the file: those of a track that is kept to one that
/// isn't, be it there or not. Where all tracks are kept, none is.
///
/// The order of the ids makes no difference: tracks are in that of their boxes. Samples that name a track by the index
/// of a reference, as those of hint tracks do, may name another where references before it are left out.
///
/// `TrakNotFound` for an id that isn't there, and refused as [`gather`]; where the file has no fragments, by
/// `SaysPlaces` also for `mfra` and `sidx`.
pub fn choose<S: ByteSource + Drop, K: ByteSink>(
    alloc: Global,
    source: S,
    sink: &mut K,
    ids: &[u32],
) -> Result<Vec<Reference>, RemuxError>
    ensures written { IfOk result (λ gone. IfSome (S.contents source) (λ xs.
        WritesChosen xs ids.now gone.items (K.contents sink.old) (K.contents sink.new))) }
    ensures missing { SaysMissing (S.contents source) (S.can_refuse source) ids.now result }
    ensures flushed { OnOk result (K.waiting sink.new ≡ 0) }
    ensures kept { IfErr result (λ e. IsNamed e → K.contents sink.new ≡ K.contents sink.old) }
    ensures len { IfErr result (λ e. IsNamed e → K.len sink.new ≡ K.len sink.old) }
    ensures more { OnOk result (K.len sink.old ≤ K.len sink.new) }
    ensures refused { IfErr result (IsRefusalOf (MayRefuse (S.contents source) (S.can_refuse source))
        (IsTrue (K.can_refuse sink.old))) }
    ensures fault { SaysFault (S.contents source) (S.can_refuse source) result }
    ensures names { IfErr result (NamesBox (S.contents source)) }
    ensures memory { TakesMemory (S.contents source) result }
    ensures planned { OnOk result (IfSome (S.contents source) (λ xs. (opened : OpenedFile)
        → IsFile (length xs) (here xs 0) opened → WritesPlanned xs opened (kept_of ids.now (ids_of opened.moov))
        (K.contents sink.old) (K.contents sink.new))) }
    ensures why { IfErr result (λ e. IfSome (S.contents source) (λ xs. (opened : OpenedFile)
        → IsFile (length xs) (here xs 0) opened → IsWhyNotChosen xs opened ids.now e)) }
{
    let (source, len, movie) = open_source(alloc, source)?;
    let all = all_ids(alloc, &movie)?;
    let kept = kept_ids(alloc, &movie, &all, ids)?;
    write_chosen(alloc, source, len, &movie, &all, &kept, sink)
}
