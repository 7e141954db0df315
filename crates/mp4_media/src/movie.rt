//! Movies that were opened, whatever their bytes are read from.

ghost use Rattle.std.specs.Prelude.{◌≡◌, ◌<◌, ◌↔◌, length, None, option_copied, option_map, IfOk, IfErr, IfSome, IsTrue};
ghost use Rattle.mp4_codec.specs.Cause.{Gives, Answers};
ghost use Rattle.mp4_codec.specs.Cursor.{here};
ghost use Rattle.mp4_boxes.specs.declared.moov.MoovBox.{MoovBox};
ghost use Rattle.mp4_lookup.specs.Time.{time_of};
ghost use Rattle.mp4_samples.specs.Places.{place_of};
ghost use Rattle.mp4_source.specs.Answers.{AnswersRead, IsLength};
ghost use Rattle.mp4_media.specs.FileBoxes.{opened_movie};
ghost use Rattle.mp4_source.specs.declared.file_error.FileError.TheVariants.{Mp4};
ghost use Rattle.mp4_media.specs.FileGrammar.{MayTakeMemory};
ghost use Rattle.mp4_media.specs.MovieTracks.{AreTracks, IsNumbered};
ghost use Rattle.mp4_media.specs.Reading.{ilst_of_movie, located_in, needed_track, sample_count_in};
ghost use Rattle.mp4_media.specs.Walk.{opened_at, opened_from};

use crate::opening::{TopLevelBoxes, find_boxes};
use crate::tracks::tracks_of;
use mp4_boxes::{MoovBox, required_two};
use mp4_codec::{Error, FourCC, Items, Result};
use mp4_leaf::FtypBox;
use mp4_lookup::{Mp4Track, time_of};
use mp4_meta::{IlstBox, MetaBox};
use mp4_moof::{EmsgBox, MoofBox};
use mp4_samples::SamplePlace;
use mp4_source::{ByteSource, FileError, SourceCursor};
use std::alloc::Global;
use std::collections::HashMap;

/// Milliseconds in a second.
const MILLISECONDS: u32 = 1000;

/// A movie that was opened: its boxes and its tracks.
///
/// The accessors follow the public fields as they are; [`Movie::size`] and the tracks are those of the opening.
#[derive(Debug)]
pub struct Movie {
    /// The last ftyp of the file.
    pub ftyp: FtypBox,
    /// The last moov of the file.
    pub moov: MoovBox,
    /// All moofs of the file, in file order.
    pub moofs: Items<MoofBox>,
    /// All emsgs of the file, in file order.
    pub emsgs: Items<EmsgBox>,
    moof_places: Items<u64>,
    size: u64,
    tracks: HashMap<u32, Mp4Track>,
}

/// Taken apart here, and not at each end of each function that owns a movie. So a field of a movie can be looked at,
/// copied or replaced, but not moved out of it.
impl Drop for Movie {
    fn drop(self) {
        let Movie {
            ftyp,
            moov,
            moofs,
            emsgs,
            moof_places,
            size: _,
            tracks,
        } = self;
        drop(ftyp);
        drop(moov);
        drop(moofs);
        drop(emsgs);
        drop(moof_places);
        drop(tracks);
    }
}

/// Opens a file of `size` bytes of which this was found.
// Kept a call: docs/PERF.md, "Why these are calls".
#[inline(never)]
#[tactic(auto, unfolding(mp4_boxes::specs::Needed::two_needed))]
fn open_found(alloc: Global, found: TopLevelBoxes, size: u64) -> Result<Movie>
    requires first_samples { IsNumbered found.moov }
    requires places { length found.moof_places ≡ length found.moofs }
    ensures answer { Answers opened_movie result (opened_from found size) }
    ensures memory { IfErr result (λ e. e ≡ Error.OutOfMemory → found.moov ≡ None → ⊥) }
    ensures tracks { IfOk result (λ m. AreTracks m.moov m.moofs m.moof_places m.tracks) }
{
    let TopLevelBoxes {
        ftyp,
        moov,
        moofs,
        moof_places,
        emsgs,
    } = found;
    let (ftyp, moov) = match required_two(ftyp, moov) {
        Ok(both) => both,
        Err(error) => {
            drop(moofs);
            drop(moof_places);
            drop(emsgs);
            return Err(error);
        }
    };
    let mut opened = Movie {
        ftyp,
        moov,
        moofs,
        emsgs,
        moof_places,
        size,
        tracks: HashMap::new(alloc),
    };
    opened.tracks = tracks_of(
        alloc,
        &opened.moov,
        opened.moofs.as_slice(),
        opened.moof_places.as_slice(),
    )?;
    Ok(opened)
}

/// Opens the file of `size` bytes from the cursor on: the answer is that of the walk over its boxes, and then of the
/// ids of its tracks; and the source, with how many bytes it has. The bytes of boxes that the cursor holds are given up
/// before the tracks take their memory.
pub(crate) fn open_source<S: ByteSource + Drop>(
    alloc: Global,
    reader: SourceCursor<S>,
    size: u64,
) -> std::result::Result<(Movie, S, u64), FileError>
    requires len { IsLength (S.contents reader.source) reader.len }
    ensures answer { IfSome (S.contents reader.source) (λ bytes. AnswersRead (S.can_refuse reader.source)
        (λ x. opened_movie x.0) result (opened_at size (here bytes reader.position))) }
    ensures memory { IfErr result (λ e. e ≡ Mp4 Error.OutOfMemory
        → IfSome (S.contents reader.source) (λ bytes. MayTakeMemory size (here bytes reader.position))) }
    ensures tracks { IfOk result (λ x. AreTracks x.0.moov x.0.moofs x.0.moof_places x.0.tracks) }
    ensures contents { IfOk result (λ x. S.contents x.1 ≡ S.contents reader.source) }
    ensures can_refuse { IfOk result (λ x. S.can_refuse x.1 ≡ S.can_refuse reader.source) }
    ensures len { IfOk result (λ x. x.2 ≡ reader.len) }
{
    let mut reader = reader;
    let start = reader.position();
    let found = find_boxes(alloc, &mut reader, size)?;
    let read = reader.position() - start;
    let (source, len) = reader.into_parts();
    let movie = open_found(alloc, found, read)?;
    Ok((movie, source, len))
}

impl Movie {
    /// The bytes of the file from the place where it was opened to the end of its last box, or to a box
    /// whose end is open.
    pub fn size(&self) -> u64
        ensures { result ≡ self.now.size }
    {
        self.size
    }

    /// The specification that the file follows first of all.
    pub fn major_brand(&self) -> &FourCC
        ensures { result.now ≡ self.now.ftyp.major_brand }
    {
        &self.ftyp.major_brand
    }

    /// The version of the major brand.
    pub fn minor_version(&self) -> u32
        ensures { result ≡ self.now.ftyp.minor_version }
    {
        self.ftyp.minor_version
    }

    /// All specifications that the file follows.
    pub fn compatible_brands(&self) -> &[FourCC]
        ensures { result.now ≡ self.now.ftyp.compatible_brands }
    {
        self.ftyp.compatible_brands.as_slice()
    }

    /// The movie's duration in whole milliseconds, rounded down: that of its header (ISO/IEC 14496-12, 8.2.2).
    ///
    /// `ZeroTimescale` where the movie's timescale is 0, then `TooLarge(Value)` past 64 bits.
    pub fn duration(&self) -> Result<u64>
        ensures { Gives (λ ms. ms) result (time_of 1000 self.now.moov.mvhd.duration self.now.moov.mvhd.timescale) }
    {
        time_of(
            MILLISECONDS,
            self.moov.mvhd.duration,
            self.moov.mvhd.timescale,
        )
    }

    /// Ticks in a second, of the movie's durations.
    pub fn timescale(&self) -> u32
        ensures { result ≡ self.now.moov.mvhd.timescale }
    {
        self.moov.mvhd.timescale
    }

    /// Whether the file has fragments (ISO/IEC 14496-12, 8.8.4).
    pub fn is_fragmented(&self) -> bool
        ensures { IsTrue result ↔ (0 < length self.now.moofs) }
    {
        !self.moofs.is_empty()
    }

    /// The items of the movie's metadata: those of its user data (ISO/IEC 14496-12, 8.10.1 and 8.11.1), where their
    /// handler is `mdir`.
    pub fn metadata(&self) -> Option<&IlstBox>
        ensures { option_copied result ≡ ilst_of_movie self.now.moov }
    {
        match &self.moov.udta.as_ref()?.meta.as_ref()? {
            MetaBox::Mdir { ilst } => ilst.as_ref(),
            MetaBox::Unknown { .. } => None,
        }
    }

    /// The tracks of the movie by their ids, as they were opened: of equal ids the last. Their samples are numbered
    /// from 1.
    pub fn tracks(&self) -> &HashMap<u32, Mp4Track>
        ensures { result.now ≡ self.now.tracks }
    {
        &self.tracks
    }

    /// The track with this id; `TrakNotFound` where there is none.
    #[inline(always)]
    pub fn track(&self, track_id: u32) -> Result<&Mp4Track>
        ensures { Gives (λ t. t.now) result (needed_track self.now.tracks track_id) }
    {
        self.tracks
            .get(&track_id)
            .ok_or(Error::TrakNotFound(track_id))
    }

    /// Where sample `k` of the track with this id lies, in bytes from the file's first one, and when it is decoded and
    /// shown, in ticks of the track's timescale; samples are numbered from 1. Whether it lies whole in the file isn't
    /// asked.
    ///
    /// `TrakNotFound` where there is no such track, then the errors of [`Mp4Track::locate_by_guess`].
    #[tactic(auto, unfolding(crate::specs::Reading::located_in))]
    pub fn place(&self, track_id: u32, k: u32) -> Result<Option<SamplePlace>>
        ensures { Gives (λ p. option_map place_of p) result (located_in self.now.tracks track_id k) }
    {
        self.track(track_id)?.locate_by_guess(k)
    }

    /// How many samples the track with this id has, as [`Mp4Track::sample_count`] answers; `TrakNotFound` where there
    /// is no such track.
    #[tactic(auto, unfolding(crate::specs::Reading::sample_count_in))]
    pub fn sample_count(&self, track_id: u32) -> Result<u32>
        ensures { Gives (λ n. n) result (sample_count_in self.now.tracks track_id) }
    {
        self.track(track_id)?.sample_count()
    }
}
