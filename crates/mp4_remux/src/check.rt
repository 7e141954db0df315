//! Whether every sample of a file that was written is that of another.

ghost use Rattle.std.specs.Prelude.{◌≡◌, ◌↔◌, ◌≤◌, ◌<◌, ◌-◌, ◌^◌, ℕ, Bool, Option, Some, length, option_map, slice_get};
ghost use Rattle.std.specs.Prelude.{◌∷◌, [], IfErr, IfOk, IfSome, Ok, OnOk, IsTrue};
ghost use Rattle.mp4_codec.specs.Cursor.{here};
ghost use Rattle.mp4_codec.specs.declared.error.Error.TheVariants.{OutOfMemory};
ghost use Rattle.mp4_media.specs.FileBoxes.{opened_movie};
ghost use Rattle.mp4_media.specs.FileGrammar.{IsFile};
ghost use Rattle.mp4_media.specs.MovieTracks.{AreTracks};
ghost use Rattle.mp4_media.specs.Reading.{sample_in, sample_there};
ghost use Rattle.mp4_samples.specs.Samples.{TimedSample};
ghost use Rattle.mp4_remux.specs.Errors.{IsNamed, IsRefusalOf, MayRefuse, SaysFault, SaysOther, TakesMemory};
ghost use Rattle.mp4_source.specs.Source.{HasPart};
ghost use Rattle.mp4_remux.specs.Named.{HasManyOf, NamesBy, SaysMany};
ghost use Rattle.mp4_remux.specs.Why.{HasMore, HasSample, HasSamples};
ghost use Rattle.mp4_remux.specs.Remuxed.{AreOthers, IsChecked, IsNoFile, IsOnlyFile, IsSameNumber, IsSameTrack};

use crate::error::RemuxError;
use crate::same::most_samples;
use mp4_codec::{Error, is_equal};
use mp4_media::{Mp4File, SamplePlace};
use mp4_source::{ByteSource, FileError};
use std::alloc::Global;

/// The file that a source is.
fn open_file<S: ByteSource + Drop>(alloc: Global, source: S) -> Result<Mp4File<S>, RemuxError>
    ensures file { IfOk result (λ f. IfSome (S.contents source) (λ xs.
        IsFile (length xs) (here xs 0) (opened_movie f.movie))) }
    ensures tracks { IfOk result (λ f.
        AreTracks f.movie.moov f.movie.moofs f.movie.moof_places f.movie.tracks) }
    ensures contents { IfOk result (λ f. S.contents f.source ≡ S.contents source) }
    ensures can_refuse { IfOk result (λ f. S.can_refuse f.source ≡ S.can_refuse source) }
    ensures refused { IfErr result (IsRefusalOf (MayRefuse (S.contents source) (S.can_refuse source)) ⊥) }
    ensures fault { SaysFault (S.contents source) (S.can_refuse source) result }
    ensures opens { IfErr result (λ e. IsNamed e → IsNoFile (S.contents source)) }
    ensures only { IfOk result (λ f. IsOnlyFile (S.contents source) (opened_movie f.movie)) }
    ensures memory { TakesMemory (S.contents source) result }
    ensures room { OnOk result (HasPart (S.contents source) 0 8) }
    ensures many { IfErr result (NamesBy (λ _ _. ⊥)) }
{
    let mut source = source;
    let len = match source.len() {
        Ok(len) => len,
        Err(refused) => return Err(RemuxError::Read(refused)),
    };
    let file = Mp4File::open(alloc, source, 0, len)?;
    Ok(file)
}

/// The file that was written, of a source. Where it isn't one, the tracks are others.
fn open_written<S: ByteSource + Drop>(alloc: Global, source: S) -> Result<Mp4File<S>, RemuxError>
    ensures file { IfOk result (λ f. IfSome (S.contents source) (λ xs.
        IsFile (length xs) (here xs 0) (opened_movie f.movie))) }
    ensures tracks { IfOk result (λ f.
        AreTracks f.movie.moov f.movie.moofs f.movie.moof_places f.movie.tracks) }
    ensures contents { IfOk result (λ f. S.contents f.source ≡ S.contents source) }
    ensures can_refuse { IfOk result (λ f. S.can_refuse f.source ≡ S.can_refuse source) }
    ensures refused { IfErr result (IsRefusalOf ⊥ (MayRefuse (S.contents source) (S.can_refuse source))) }
    ensures opens { IfErr result (λ e. SaysOther e → IsNoFile (S.contents source)) }
    ensures only { IfOk result (λ f. IsOnlyFile (S.contents source) (opened_movie f.movie)) }
    ensures many { IfErr result (NamesBy (λ _ _. ⊥)) }
{
    match open_file(alloc, source) {
        Ok(file) => Ok(file),
        Err(RemuxError::Read(refused)) => Err(RemuxError::Write(refused)),
        Err(RemuxError::Mp4(Error::OutOfMemory)) => Err(RemuxError::Mp4(Error::OutOfMemory)),
        Err(_) => Err(RemuxError::OtherTracks),
    }
}

/// Sample `k` of a track of the file that was written, its bytes read into the buffer. `Differs` where it is refused.
fn read_written<S: ByteSource + Drop>(
    after: &mut Mp4File<S>,
    track_id: u32,
    k: u32,
    buffer: &mut Vec<u8>,
) -> Result<Option<SamplePlace>, RemuxError>
    ensures answer { IfOk result (λ p. IfSome (S.contents after.old.source) (λ ys.
        sample_in ys after.old.movie.tracks track_id k ≡ Ok (option_map (sample_there buffer.new.items) p))) }
    ensures movie { after.new.movie ≡ after.old.movie }
    ensures contents { S.contents after.new.source ≡ S.contents after.old.source }
    ensures can_refuse { S.can_refuse after.new.source ≡ S.can_refuse after.old.source }
    ensures refused { IfErr result
        (IsRefusalOf ⊥ (MayRefuse (S.contents after.old.source) (S.can_refuse after.old.source))) }
    ensures other { IfErr result (λ e. SaysOther e → IfSome (S.contents after.old.source) (λ ys.
        (o : Option TimedSample) → sample_in ys after.old.movie.tracks track_id k ≡ Ok o → ⊥)) }
    ensures many { IfErr result (NamesBy (λ _ _. ⊥)) }
{
    match after.read_sample_into(track_id, k, buffer) {
        Ok(sample) => Ok(sample),
        Err(FileError::Io(refused)) => Err(RemuxError::Write(refused)),
        Err(FileError::Mp4(Error::OutOfMemory)) => Err(RemuxError::Mp4(Error::OutOfMemory)),
        Err(FileError::Mp4(_)) => Err(RemuxError::Differs(track_id, k)),
    }
}

/// Whether two samples of these bytes are the same, with their times and marks.
fn is_same_sample(before: &SamplePlace, after: &SamplePlace, read: &[u8], written: &[u8]) -> bool
    ensures { IsTrue result ↔ (sample_there written.now after.now ≡ sample_there read.now before.now) }
{
    if after.start_time != before.start_time
        || after.duration != before.duration
        || !is_equal(&after.rendering_offset, &before.rendering_offset)
        || !is_equal(&after.is_sync, &before.is_sync)
    {
        return false;
    }
    written == read
}

/// Whether sample `k` of a track is there, the same in both files; else it is an error. Its bytes are read into the two
/// buffers.
fn check_sample<S: ByteSource + Drop, T: ByteSource + Drop>(
    before: &mut Mp4File<S>,
    after: &mut Mp4File<T>,
    track_id: u32,
    k: u32,
    read: &mut Vec<u8>,
    written: &mut Vec<u8>,
) -> Result<bool, RemuxError>
    requires before { AreTracks before.old.movie.moov before.old.movie.moofs before.old.movie.moof_places
        before.old.movie.tracks }
    requires after { AreTracks after.old.movie.moov after.old.movie.moofs after.old.movie.moof_places
        after.old.movie.tracks }
    ensures same { IfOk result (λ there. IfSome (S.contents before.old.source) (λ xs.
        IfSome (T.contents after.old.source) (λ ys. IsSameNumber xs ys (opened_movie before.old.movie)
        (opened_movie after.old.movie) track_id k there))) }
    ensures movie { before.new.movie ≡ before.old.movie }
    ensures movie_after { after.new.movie ≡ after.old.movie }
    ensures contents { S.contents before.new.source ≡ S.contents before.old.source }
    ensures contents_after { T.contents after.new.source ≡ T.contents after.old.source }
    ensures can_refuse { S.can_refuse before.new.source ≡ S.can_refuse before.old.source }
    ensures can_refuse_after { T.can_refuse after.new.source ≡ T.can_refuse after.old.source }
    ensures refused { IfErr result
        (IsRefusalOf (MayRefuse (S.contents before.old.source) (S.can_refuse before.old.source))
        (MayRefuse (T.contents after.old.source) (T.can_refuse after.old.source))) }
    ensures other { IfErr result (λ e. SaysOther e → IfSome (S.contents before.old.source) (λ xs.
        IfSome (T.contents after.old.source) (λ ys. (there : Bool) → IsSameNumber xs ys (opened_movie before.old.movie)
        (opened_movie after.old.movie) track_id k there → ⊥))) }
    ensures was { IfOk result (λ there. IsTrue there → HasSample (opened_movie before.old.movie) track_id k) }
    ensures many { IfErr result (NamesBy (λ _ _. ⊥)) }
{
    let kept = before.read_sample_into(track_id, k, read)?;
    let moved = read_written(after, track_id, k, written)?;
    let Some(kept) = kept else {
        return match moved {
            None => Ok(false),
            Some(_) => Err(RemuxError::Differs(track_id, k)),
        };
    };
    let Some(moved) = moved else {
        return Err(RemuxError::Differs(track_id, k));
    };
    if !is_same_sample(&kept, &moved, read.as_slice(), written.as_slice()) {
        return Err(RemuxError::Differs(track_id, k));
    }
    Ok(true)
}

/// How many samples a track has, which are the same in both files. None are looked up where it says that it has none.
/// `TooManySamples` where they are more than `most`.
fn count_checked<S: ByteSource + Drop, T: ByteSource + Drop>(
    alloc: Global,
    before: &mut Mp4File<S>,
    after: &mut Mp4File<T>,
    track_id: u32,
    most: u32,
) -> Result<u32, RemuxError>
    requires before { AreTracks before.old.movie.moov before.old.movie.moofs before.old.movie.moof_places
        before.old.movie.tracks }
    requires after { AreTracks after.old.movie.moov after.old.movie.moofs after.old.movie.moof_places
        after.old.movie.tracks }
    requires most { most < 2 ^ 32 - 1 }
    ensures same { OnOk result (IfSome (S.contents before.old.source) (λ xs.
        IfSome (T.contents after.old.source) (λ ys. IsSameTrack xs ys (opened_movie before.old.movie)
        (opened_movie after.old.movie) track_id))) }
    ensures few { IfOk result (λ count. count ≤ most) }
    ensures movie { before.new.movie ≡ before.old.movie }
    ensures movie_after { after.new.movie ≡ after.old.movie }
    ensures contents { S.contents before.new.source ≡ S.contents before.old.source }
    ensures contents_after { T.contents after.new.source ≡ T.contents after.old.source }
    ensures can_refuse { S.can_refuse before.new.source ≡ S.can_refuse before.old.source }
    ensures can_refuse_after { T.can_refuse after.new.source ≡ T.can_refuse after.old.source }
    ensures refused { IfErr result
        (IsRefusalOf (MayRefuse (S.contents before.old.source) (S.can_refuse before.old.source))
        (MayRefuse (T.contents after.old.source) (T.can_refuse after.old.source))) }
    ensures other { IfErr result (λ e. SaysOther e → IfSome (S.contents before.old.source) (λ xs.
        IfSome (T.contents after.old.source) (λ ys. IsSameTrack xs ys (opened_movie before.old.movie)
        (opened_movie after.old.movie) track_id → ⊥))) }
    ensures counted { IfOk result (λ count. HasSamples (opened_movie before.old.movie) track_id count) }
    ensures many { IfErr result (SaysMany (HasMore (track_id ∷ []) most (opened_movie before.old.movie))) }
{
    let count = before.sample_count(track_id)?;
    let Ok(written_count) = after.sample_count(track_id) else {
        return Err(RemuxError::OtherTracks);
    };
    if written_count != count {
        return Err(RemuxError::OtherTracks);
    }
    if count == 0 {
        return Ok(0);
    }
    let mut read = Vec::new(alloc);
    let mut written = Vec::new(alloc);
    let mut k = 0;
    while k <= most {
        if !check_sample(before, after, track_id, k + 1, &mut read, &mut written)? {
            return Ok(k);
        }
        k += 1;
    }
    Err(RemuxError::TooManySamples(track_id))
}

/// Checks a file that was written of another: it has the tracks with these ids and no more, and each of their samples
/// is that of the other file: its bytes, its start, duration and rendering offset, its sync mark, and how many there
/// are. Both files are opened, and the samples read one after the other; in memory are the tables of both movies, and a
/// sample of each.
///
/// Refused as [`Mp4File::open`] and [`Mp4File::read_sample_into`] of the file before, as `TrakNotFound` for an id that
/// it doesn't have, and: `OtherTracks` where the written file doesn't open, or has other tracks, or one with more or
/// fewer samples; `Differs` where a sample is another, or can't be read there; `TooManySamples` where the tracks have
/// more than the file before has bytes, or than 4,294,967,294. `Read` where the source of the file before refuses,
/// `Write` where that of the written file does.
pub fn check_samples<S: ByteSource + Drop, T: ByteSource + Drop>(
    alloc: Global,
    before: S,
    after: T,
    ids: &[u32],
) -> Result<(), RemuxError>
    ensures same { OnOk result (IfSome (S.contents before) (λ xs. IfSome (T.contents after) (λ ys.
        IsChecked xs ys ids.now))) }
    ensures refused { IfErr result (IsRefusalOf (MayRefuse (S.contents before) (S.can_refuse before))
        (MayRefuse (T.contents after) (T.can_refuse after))) }
    ensures fault { SaysFault (S.contents before) (S.can_refuse before) result }
    ensures other { IfErr result (λ e. SaysOther e → AreOthers (S.contents before) (T.contents after) ids.now) }
    ensures memory { TakesMemory (S.contents before) result }
    ensures many { IfErr result (SaysMany (λ track. IfSome (S.contents before) (HasManyOf ids.now track))) }
{
    let mut before = open_file(alloc, before)?;
    let mut after = open_written(alloc, after)?;
    if after.moov.traks.len() != ids.len() {
        return Err(RemuxError::OtherTracks);
    }
    let mut left = most_samples(before.source_len());
    let mut i = 0;
    while i < ids.len() {
        let id = ids[i];
        left -= count_checked(alloc, &mut before, &mut after, id, left)?;
        i += 1;
    }
    Ok(())
}
