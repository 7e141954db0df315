//! The movie box moved to the front.

ghost use Rattle.std.specs.Prelude.{◌≡◌, ◌≤◌, ◌<◌, ◌+◌, ◌-◌, ◌*◌, ◌^◌, ℕ, List, length, IfSome, IfErr, IfNone};
ghost use Rattle.std.specs.Prelude.{IfOk, OnOk, IsFalse, IsTrue, map};
ghost use Rattle.std.specs.List.{filter};
ghost use Rattle.mp4_codec.specs.declared.box_type.BoxType.TheVariants.{FtypBox, MoovBox};
ghost use Rattle.mp4_source.specs.Answers.{IsLength};
ghost use Rattle.mp4_remux.specs.Errors.{IsNamed, IsRefusalOf, MayRefuse, SaysFault, TakesMemory};
ghost use Rattle.mp4_codec.specs.Cursor.{here};
ghost use Rattle.mp4_media.specs.FileBoxes.{OpenedFile};
ghost use Rattle.mp4_media.specs.FileGrammar.{IsFile, between};
ghost use Rattle.mp4_remux.specs.Front.{AreApart, AreBoxes, HasToMove, in_front, IsMovieFirst, IsMovieLater};
ghost use Rattle.mp4_remux.specs.Front.{IsOnly, NoMovieAfterData, WritesFront};
ghost use Rattle.mp4_remux.specs.Moved.{IsMovedAt, IsUpToTwice, IsWhyNotMoved, place_in_front};
ghost use Rattle.mp4_remux.specs.Named.{NamesBox};
ghost use Rattle.mp4_remux.specs.PlannedFront.{IsInFront, IsWhyNotInFront, IsWhyNotPlanned, front_stretches};
ghost use Rattle.mp4_remux.specs.Splice.{Follow, has_bytes, spliced, stretch_of};

use crate::chosen::all_ids;
use crate::copy::copy_all;
use crate::error::RemuxError;
use crate::frame::{check_header, check_metadata, checked_bytes, only_box};
use crate::layout::Layout;
use crate::made::Made;
use crate::moves::Moves;
use crate::movie_box::{MovieEdit, edited};
use crate::piece::{Origin, Piece};
use crate::piece_list::push_piece;
use crate::rewrite::{open_source, write_layout};
use crate::segment_index::check_moved;
use crate::settled::settled_len;
use crate::top_level::{TopBox, top_boxes};
use mp4_codec::{BoxType, Error};
use mp4_source::{ByteSink, ByteSource};
use std::alloc::{AllocError, Global};

/// Whether no movie box comes after data.
fn is_in_front(boxes: &[TopBox]) -> bool
    ensures first { IsTrue result → NoMovieAfterData boxes.now }
    ensures later { IsFalse result → NoMovieAfterData boxes.now → ⊥ }
{
    let mut data = None;
    let mut i = 0;
    while i < boxes.len() {
        match boxes[i].name {
            BoxType::MdatBox => data = Some(i),
            BoxType::MoovBox if data.is_some() => return false,
            _ => {}
        }
        i += 1;
    }
    true
}

/// A file of `len` bytes with its file type first and a movie box of `movie_len` bytes next, then all else in its
/// order.
fn front_pieces(
    alloc: Global,
    file_type: TopBox,
    movie: TopBox,
    movie_len: u64,
    len: u64,
) -> Result<Vec<Piece>, AllocError>
    ensures bytes { IfOk result (λ ps. (source made : List ℕ) → length source ≡ len → length made ≡ movie_len
        → spliced source made ps.items ≡ in_front source file_type movie made) }
    ensures stretches { IfOk result (λ ps. map stretch_of ps.items
        ≡ filter has_bytes (front_stretches len file_type movie movie_len)) }
    ensures follow { IfOk result (λ ps. AreApart len file_type movie → len < 2 ^ 63
        → movie_len ≤ 2 * (movie.end - movie.place)
        → (end : ℕ) × ((end < 2 ^ 64) × Follow len movie_len 0 ps.items end)) }
{
    let mut pieces = Vec::new(alloc);
    let first = file_type.place.min(movie.place);
    let between = file_type.end.min(movie.end);
    let second = file_type.place.max(movie.place);
    let after = file_type.end.max(movie.end);
    push_piece(&mut pieces, Origin::Kept, file_type.place, file_type.end)?;
    push_piece(&mut pieces, Origin::Made, 0, movie_len)?;
    push_piece(&mut pieces, Origin::Kept, 0, first)?;
    push_piece(&mut pieces, Origin::Kept, between, second)?;
    push_piece(&mut pieces, Origin::Kept, after, len)?;
    Ok(pieces)
}

/// The bytes of a movie box as they are when it is in front. Its chunk offsets are those of where the data is then,
/// which depends on the length of the box: a table that becomes `co64` makes it longer, and then another may.
fn movie_by_rounds(
    alloc: Global,
    movie_bytes: &[u8],
    file_type: TopBox,
    movie: TopBox,
) -> Result<Vec<u8>, Error>
    ensures moved { IfOk result (λ made. IsMovedAt (place_in_front file_type movie (length made.items)) 0
        movie_bytes.now made.items) }
    ensures len { IfOk result (λ made. IsUpToTwice movie_bytes.now made.items) }
    ensures refused { IfErr result (IsWhyNotMoved movie_bytes.now) }
{
    let edit = MovieEdit::of_offsets(alloc);
    let mut movie_len = movie_bytes.len() as u64;
    loop {
        let moves = Moves::Front {
            file_type,
            movie,
            movie_len,
        };
        let made = edited(alloc, movie_bytes, &edit, &moves)?;
        if made.len() as u64 == movie_len {
            return Ok(made);
        }
        movie_len = made.len() as u64;
    }
}

/// The same, by one round where the length that the box has then is reckoned first: tables that become `co64` one after
/// the other would take a round each.
fn movie_in_front(
    alloc: Global,
    movie_bytes: &[u8],
    file_type: TopBox,
    movie: TopBox,
) -> Result<Vec<u8>, Error>
    ensures moved { IfOk result (λ made. IsMovedAt (place_in_front file_type movie (length made.items)) 0
        movie_bytes.now made.items) }
    ensures len { IfOk result (λ made. IsUpToTwice movie_bytes.now made.items) }
    ensures refused { IfErr result (IsWhyNotMoved movie_bytes.now) }
{
    let edit = MovieEdit::of_offsets(alloc);
    let alone = Moves::Front {
        file_type,
        movie,
        movie_len: 0,
    };
    let movie_len = settled_len(alloc, movie_bytes, &edit, &alone, movie_bytes.len() as u64)?;
    let moves = Moves::Front {
        file_type,
        movie,
        movie_len,
    };
    let made = edited(alloc, movie_bytes, &edit, &moves)?;
    if made.len() as u64 == movie_len {
        return Ok(made);
    }
    movie_by_rounds(alloc, movie_bytes, file_type, movie)
}

/// The source, and the layout of its file with the movie box in front, of which these are all boxes.
fn plan_moved<S: ByteSource + Drop>(
    alloc: Global,
    source: S,
    len: u64,
    boxes: &[TopBox],
    file_type: TopBox,
    movie: TopBox,
) -> Result<(S, Layout), RemuxError>
    requires len { IsLength (S.contents source) len }
    requires boxes { IfSome (S.contents source) (λ xs. AreBoxes xs 0 boxes.now) }
    requires file_type { IsOnly boxes.now FtypBox file_type }
    requires movie { IsOnly boxes.now MoovBox movie }
    ensures names { IfErr result (NamesBox (S.contents source)) }
    ensures contents { IfOk result (λ x. S.contents x.0 ≡ S.contents source) }
    ensures can_refuse { IfOk result (λ x. S.can_refuse x.0 ≡ S.can_refuse source) }
    ensures source_len { IfOk result (λ x. x.1.source_len ≡ len) }
    ensures planned { IfOk result (λ x. IfSome (S.contents source) (λ xs.
        IsInFront xs x.1.made.items x.1.pieces.items)) }
    ensures why { IfErr result (λ e. IfSome (S.contents source) (λ xs. IsWhyNotPlanned xs boxes.now e)) }
    ensures refused { IfErr result (IsRefusalOf (MayRefuse (S.contents source) (S.can_refuse source)) ⊥) }
{
    let source = check_header(alloc, source, len, BoxType::FtypBox, file_type)?;
    let mut source = check_header(alloc, source, len, BoxType::MoovBox, movie)?;
    check_moved(alloc, &mut source, len, boxes, &[file_type, movie])?;
    check_metadata(alloc, &mut source, len, boxes)?;
    let bytes = checked_bytes(alloc, &mut source, len, movie, false)?;
    let made = movie_in_front(alloc, &bytes, file_type, movie)?;
    let pieces = front_pieces(alloc, file_type, movie, made.len() as u64, len)?;
    let Some(layout) = Layout::new(len, made, pieces) else {
        return Err(RemuxError::OtherTracks);
    };
    Ok((source, layout))
}

/// The source, and the layout that is to be written of its file; none where that is the file as it is.
fn plan<S: ByteSource + Drop>(
    alloc: Global,
    source: S,
    len: u64,
) -> Result<(S, Option<Layout>), RemuxError>
    requires { IsLength (S.contents source) len }
    ensures contents { IfOk result (λ x. S.contents x.0 ≡ S.contents source) }
    ensures can_refuse { IfOk result (λ x. S.can_refuse x.0 ≡ S.can_refuse source) }
    ensures source_len { IfOk result (λ x. IfSome x.1 (λ l. l.source_len ≡ len)) }
    ensures first { IfOk result (λ x. IfNone x.1 (IfSome (S.contents source) IsMovieFirst)) }
    ensures planned { IfOk result (λ x. IfSome x.1 (λ l. IfSome (S.contents source) (λ xs.
        IsInFront xs l.made.items l.pieces.items))) }
    ensures why { IfErr result (λ e. IfSome (S.contents source) (λ xs. (boxes : List TopBox) → AreBoxes xs 0 boxes
        → IsWhyNotPlanned xs boxes e)) }
    ensures refused { IfErr result (IsRefusalOf (MayRefuse (S.contents source) (S.can_refuse source)) ⊥) }
    ensures named { IfErr result (λ e. IsNamed e → IsMovieLater (S.contents source)) }
    ensures names { IfErr result (NamesBox (S.contents source)) }
    ensures later { IfOk result (λ x. IfSome x.1 (λ _. IsMovieLater (S.contents source))) }
{
    let (source, boxes) = top_boxes(alloc, source, len)?;
    if is_in_front(&boxes) {
        return Ok((source, None));
    }
    let file_type = only_box(&boxes, BoxType::FtypBox)?;
    let movie = only_box(&boxes, BoxType::MoovBox)?;
    let (Some(file_type), Some(movie)) = (file_type, movie) else {
        return Err(RemuxError::OtherTracks);
    };
    let (source, layout) = plan_moved(alloc, source, len, &boxes, file_type, movie)?;
    Ok((source, Some(layout)))
}

/// Writes a movie to a sink with its movie box before its data, as players want it that begin before they have the
/// whole file: the file type, the movie box, then all other boxes in their order (ISO/IEC 14496-12, 6.2.3). Of the
/// movie box the chunk offsets are others, 64 bits wide where one passes 32; every other byte of the file is there as
/// it was. A file whose movie box is before its data already is written as it is: once it opens, it is refused for
/// nothing but memory, the source or the sink.
///
/// The file is opened. Where its movie box has to move, each sample of each track is looked up before a byte is
/// written, in the file and in what would be written. In memory are then the movie's tables twice, the bytes of its
/// movie box twice, and a block of 128 KiB; and before that, one at a time, the file's metadata and each `sidx`, which
/// has at most 0.8 MB.
///
/// Refused as [`mp4_media::Mp4File::open`]. Where the movie box has to move, also as
/// [`mp4_media::Mp4File::read_sample`] where a sample isn't found, and: `Twice` for two file types or two movie boxes;
/// `SaysPlaces` for a box that says places which aren't rewritten: `moof`, `mfra`, an `iloc` or `saio` in the movie box
/// or in the file's metadata, a `dref` that says that samples are in another file, or a `sidx` that can't be read, or
/// where the movie box or the file type is between it and the end of what it refers to; `TooManySamples` where the
/// tracks have more than the file has bytes, or than 4,294,967,294; `SameIds` where two tracks have one id; `Differs`
/// where a sample wouldn't be read as before; `OtherTracks` where the tracks, their numbers of samples or the headers
/// would be others, or the file has 2^63 bytes or more; `TooLarge` where the movie box has 2^31 bytes or more, and
/// wouldn't fit the size of a box. `Read` where the source refuses, `Write` where the sink does: then the sink may have
/// some first bytes of the file. A refusal that is none of memory, source or sink leaves the sink as it was.
pub fn move_to_front<S: ByteSource + Drop, K: ByteSink>(
    alloc: Global,
    source: S,
    sink: &mut K,
) -> Result<(), RemuxError>
    ensures written { OnOk result (IfSome (S.contents source) (λ xs.
        WritesFront xs (K.contents sink.old) (K.contents sink.new))) }
    ensures flushed { OnOk result (K.waiting sink.new ≡ 0) }
    ensures kept { IfErr result (λ e. IsNamed e → K.contents sink.new ≡ K.contents sink.old) }
    ensures len { IfErr result (λ e. IsNamed e → K.len sink.new ≡ K.len sink.old) }
    ensures more { OnOk result (K.len sink.old ≤ K.len sink.new) }
    ensures refused { IfErr result (IsRefusalOf (MayRefuse (S.contents source) (S.can_refuse source))
        (IsTrue (K.can_refuse sink.old))) }
    ensures fault { SaysFault (S.contents source) (S.can_refuse source) result }
    ensures as_it_is { IfErr result (λ e. IsNamed e → HasToMove (S.contents source)) }
    ensures names { IfErr result (NamesBox (S.contents source)) }
    ensures memory { TakesMemory (S.contents source) result }
    ensures why { IfErr result (λ e. IfSome (S.contents source) (λ xs. (opened : OpenedFile)
        → IsFile (length xs) (here xs 0) opened → IsWhyNotInFront xs opened e)) }
{
    let (source, len, before) = open_source(alloc, source)?;
    let (source, layout) = plan(alloc, source, len)?;
    let Some(layout) = layout else {
        let mut source = source;
        return copy_all(alloc, &mut source, len, sink);
    };
    let ids = all_ids(alloc, &before)?;
    write_layout(alloc, source, &before, &layout, &ids, Made::Offsets, sink)
}
