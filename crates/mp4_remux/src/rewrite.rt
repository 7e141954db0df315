//! A layout of a file, compared with it and written.

ghost use Rattle.std.specs.Prelude.{◌≡◌, ◌≤◌, ℕ, List, IfErr, IfOk, IfSome, IsTrue, OnOk, length};
ghost use Rattle.mp4_source.specs.Answers.{IsLength};
ghost use Rattle.mp4_source.specs.Sink.{IsAppended};
ghost use Rattle.mp4_media.specs.FileBoxes.{OpenedFile, opened_movie};
ghost use Rattle.mp4_media.specs.FileGrammar.{IsFile, IsFaultyFile};
ghost use Rattle.mp4_media.specs.MovieTracks.{AreTracks};
ghost use Rattle.mp4_codec.specs.Cause.{Cause};
ghost use Rattle.mp4_codec.specs.Cursor.{here};
ghost use Rattle.mp4_remux.specs.Errors.{GivesCause, IsCause, IsNamed, IsNoFault, IsRefusalOf, MayRefuse};
ghost use Rattle.mp4_remux.specs.Errors.{SaysFault, TakesMemory};
ghost use Rattle.mp4_remux.specs.Named.{NamesBox, NamesBy};
ghost use Rattle.mp4_remux.specs.declared.error.RemuxError.TheVariants.{Mp4};
ghost use Rattle.mp4_codec.specs.declared.error.Error.TheVariants.{OutOfMemory};
ghost use Rattle.mp4_source.specs.Source.{HasPart};
ghost use Rattle.mp4_remux.specs.Refused.{IsWhyClosed, IsWhyMade};
ghost use Rattle.mp4_remux.specs.Why.{AreKept};
ghost use Rattle.mp4_remux.specs.Remuxed.{IsNoFile, IsOnlyFile, WritesRemuxed};
ghost use Rattle.mp4_remux.specs.Splice.{spliced};

use crate::copy::copy_all;
use crate::error::RemuxError;
use crate::headers::{has_durations, keeps_headers};
use crate::layout::Layout;
use crate::made::Made;
use crate::same::check_same;
use crate::splice::Splice;
use mp4_media::{Movie, Mp4File};
use mp4_source::{ByteSink, ByteSource};
use std::alloc::Global;

/// The movie of a file of `len` bytes, and the source that it was opened from.
pub(crate) fn open_whole<S: ByteSource + Drop>(
    alloc: Global,
    source: S,
    len: u64,
) -> Result<(S, Movie), RemuxError>
    ensures file { IfOk result (λ x. IfSome (S.contents source) (λ xs.
        IsFile len (here xs 0) (opened_movie x.1))) }
    ensures tracks { IfOk result (λ x. AreTracks x.1.moov x.1.moofs x.1.moof_places x.1.tracks) }
    ensures contents { IfOk result (λ x. S.contents x.0 ≡ S.contents source) }
    ensures can_refuse { IfOk result (λ x. S.can_refuse x.0 ≡ S.can_refuse source) }
    ensures refused { IfErr result (IsRefusalOf (MayRefuse (S.contents source) (S.can_refuse source)) ⊥) }
    ensures fault { IfSome (S.contents source) (λ xs. (c : Cause) → IsFaultyFile len (here xs 0) c
        → GivesCause (S.can_refuse source) c result) }
    ensures opens { IfErr result (λ e. IsNamed e → IfSome (S.contents source) (λ xs.
        (opened : OpenedFile) → IsFile len (here xs 0) opened → ⊥)) }
    ensures only { IfOk result (λ x. IfSome (S.contents source) (λ xs.
        (opened : OpenedFile) → IsFile len (here xs 0) opened → opened_movie x.1 ≡ opened)) }
    ensures no_fault { IfErr result (λ e. IfSome (S.contents source) (λ xs.
        (opened : OpenedFile) → IsFile len (here xs 0) opened → (c : Cause) → IsCause (S.can_refuse source) c e)) }
    ensures names { IfErr result (NamesBy (λ _ _. ⊥)) }
    ensures memory { IfErr result (λ e. e ≡ Mp4 OutOfMemory → 8 ≤ len) }
    ensures room { OnOk result (IfSome (S.contents source) (λ _. 8 ≤ len)) }
    ensures why { IfErr result (IsWhyClosed len (S.contents source)) }
{
    let file = Mp4File::open(alloc, source, 0, len)?;
    Ok(file.into_parts())
}

/// The source, how many bytes it has, and the movie of its file.
pub(crate) fn open_source<S: ByteSource + Drop>(
    alloc: Global,
    source: S,
) -> Result<(S, u64, Movie), RemuxError>
    ensures len { IfOk result (λ x. IsLength (S.contents source) x.1) }
    ensures file { IfOk result (λ x. IfSome (S.contents source) (λ xs.
        IsFile (length xs) (here xs 0) (opened_movie x.2))) }
    ensures tracks { IfOk result (λ x. AreTracks x.2.moov x.2.moofs x.2.moof_places x.2.tracks) }
    ensures contents { IfOk result (λ x. S.contents x.0 ≡ S.contents source) }
    ensures can_refuse { IfOk result (λ x. S.can_refuse x.0 ≡ S.can_refuse source) }
    ensures refused { IfErr result (IsRefusalOf (MayRefuse (S.contents source) (S.can_refuse source)) ⊥) }
    ensures fault { SaysFault (S.contents source) (S.can_refuse source) result }
    ensures opens { IfErr result (λ e. IsNamed e → IsNoFile (S.contents source)) }
    ensures only { IfOk result (λ x. IsOnlyFile (S.contents source) (opened_movie x.2)) }
    ensures no_fault { IfErr result (IsNoFault (S.contents source) (S.can_refuse source)) }
    ensures names { IfErr result (NamesBox (S.contents source)) }
    ensures memory { TakesMemory (S.contents source) result }
    ensures room { OnOk result (HasPart (S.contents source) 0 8) }
{
    let mut source = source;
    let len = match source.len() {
        Ok(len) => len,
        Err(refused) => return Err(RemuxError::Read(refused)),
    };
    let (source, movie) = open_whole(alloc, source, len)?;
    Ok((source, len, movie))
}

/// Writes the file that a layout says, in which so much was made anew, where it has the tracks with these ids and no
/// fragments, its headers say what they have to, and every sample of the tracks is read from it as before; else nothing
/// is written.
pub(crate) fn write_layout<S: ByteSource + Drop, K: ByteSink>(
    alloc: Global,
    source: S,
    before: &Movie,
    layout: &Layout,
    ids: &[u32],
    made: Made,
    sink: &mut K,
) -> Result<(), RemuxError>
    requires len { IsLength (S.contents source) layout.now.source_len }
    requires tracks { AreTracks before.now.moov before.now.moofs before.now.moof_places before.now.tracks }
    requires opened { IfSome (S.contents source) (λ xs.
        IsFile (length xs) (here xs 0) (opened_movie before.now)) }
    requires kept { AreKept (opened_movie before.now) ids.now }
    ensures written { OnOk result (IfSome (S.contents source) (λ xs.
        WritesRemuxed xs (spliced xs layout.now.made.items layout.now.pieces.items) (opened_movie before.now) made
        ids.now (K.contents sink.old) (K.contents sink.new))) }
    ensures names { IfErr result (NamesBox (S.contents source)) }
    ensures flushed { OnOk result (K.waiting sink.new ≡ 0) }
    ensures kept { IfErr result (λ e. IsNamed e → K.contents sink.new ≡ K.contents sink.old) }
    ensures len { IfErr result (λ e. IsNamed e → K.len sink.new ≡ K.len sink.old) }
    ensures more { OnOk result (K.len sink.old ≤ K.len sink.new) }
    ensures refused { IfErr result (IsRefusalOf (MayRefuse (S.contents source) (S.can_refuse source))
        (IsTrue (K.can_refuse sink.old))) }
    ensures why { IfErr result (λ e. IfSome (S.contents source) (λ xs. IsWhyMade made ids.now xs
        layout.now.made.items layout.now.pieces.items (opened_movie before.now) e)) }
{
    let splice = Splice::new(source, layout.try_clone(alloc)?);
    let len = layout.len();
    let (mut splice, after) = open_whole(alloc, splice, len)?;
    check_same(before, &after, layout, ids, made)?;
    if !keeps_headers(before, &after) {
        return Err(RemuxError::OtherTracks);
    }
    if !has_durations(&after, made) {
        return Err(RemuxError::OtherTracks);
    }
    drop(after);
    copy_all(alloc, &mut splice, len, sink)
}
