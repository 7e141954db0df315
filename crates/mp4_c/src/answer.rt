//! What each call answers.

ghost use Rattle.std.specs.Prelude.{◌≡◌};
ghost use Rattle.mp4_codec.specs.Cause.{cause_of, trak_not_found};
ghost use Rattle.mp4_c.specs.Answers.{code_bytes, done, limit_number, not_remuxed, of_box, of_place};
ghost use Rattle.mp4_c.specs.Answers.{of_sample, plain, refused};

use mp4_media::{BoxType, Error, FourCC, Limit};
use mp4_remux::RemuxError;

/// The code where a file has no such metadata.
pub const NOT_PRESENT: u32 = 17;

/// The code for a number that isn't one of those that a call knows.
pub const UNKNOWN_CHOICE: u32 = 18;

/// The code for a null pointer. No call here answers it: the header's own calls do, before these are called.
pub const NULL_POINTER: u32 = 19;

/// What a call answers: 0, or why it was refused, and how much there is. What a refusal doesn't name is 0.
#[repr(C)]
#[derive(Clone, Copy, Debug, PartialEq, Eq)]
pub struct Answer {
    /// How many there are, whatever the room: brands, tracks, samples or bytes.
    pub count: u64,
    /// How many were filled in.
    pub filled: u64,
    /// Which track or sample a writing was refused at, counted from 0; or the byte at which a box begins that a movie
    /// isn't rewritten for.
    pub index: u64,
    /// 0, or the number of a refusal.
    pub code: u32,
    /// What a writing was refused at: 1 for the movie and its brands, 2 for a track, 3 for a sample, 4 for the end.
    pub part: u32,
    /// What passes its limit, from 1, for the refusal `TooLarge`.
    pub limit: u32,
    /// The track that a refusal names.
    pub track_id: u32,
    /// The entry, the version or the sample that a refusal names.
    pub number: u32,
    /// The box that a refusal names.
    pub box_type: [u8; 4],
    /// The other box that a refusal names.
    pub second_box_type: [u8; 4],
    /// Zero.
    pub reserved: u32,
}

/// The size that the header says.
const _: () = prove!(size_of::<Answer>() == 56);

/// The bytes of a type of box.
fn code_bytes(box_type: BoxType) -> [u8; 4]
    ensures { result ≡ code_bytes box_type }
{
    FourCC::from(box_type).value
}

/// The number of a limit.
fn limit_number(limit: Limit) -> u32
    ensures { result ≡ limit_number limit }
{
    match limit {
        Limit::SampleBytes => 1,
        Limit::SampleCount => 2,
        Limit::TrackDuration => 3,
        Limit::TrackCount => 4,
        Limit::BoxSize => 5,
        Limit::Value => 6,
    }
}

impl Answer {
    /// An answer with this code that names nothing.
    pub fn plain(code: u32) -> Answer
        ensures { result ≡ plain code }
    {
        Answer {
            count: 0,
            filled: 0,
            index: 0,
            code,
            part: 0,
            limit: 0,
            track_id: 0,
            number: 0,
            box_type: [0; 4],
            second_box_type: [0; 4],
            reserved: 0,
        }
    }

    /// An answer that refuses nothing.
    pub fn done(count: u64, filled: u64) -> Answer
        ensures { result ≡ done count filled }
    {
        Answer {
            count,
            filled,
            ..Answer::plain(0)
        }
    }

    /// A refusal that names a track.
    fn of_track(code: u32, track_id: u32) -> Answer
        ensures { result ≡ record (plain code) { track_id = track_id } }
    {
        Answer {
            track_id,
            ..Answer::plain(code)
        }
    }

    /// A refusal that names a box, and a track or an entry.
    fn of_box(code: u32, track_id: u32, box_type: BoxType, number: u32) -> Answer
        ensures { result ≡ of_box code track_id box_type number }
    {
        Answer {
            track_id,
            number,
            box_type: code_bytes(box_type),
            ..Answer::plain(code)
        }
    }

    /// A refusal that names two boxes.
    fn of_two(code: u32, first: BoxType, second: BoxType) -> Answer
        ensures { result
            ≡ record (plain code) { box_type = code_bytes first; second_box_type = code_bytes second } }
    {
        Answer {
            box_type: code_bytes(first),
            second_box_type: code_bytes(second),
            ..Answer::plain(code)
        }
    }

    /// A refusal that names a limit.
    fn of_limit(code: u32, limit: Limit) -> Answer
        ensures { result ≡ record (plain code) { limit = limit_number limit } }
    {
        Answer {
            limit: limit_number(limit),
            ..Answer::plain(code)
        }
    }

    /// A refusal that names a box, and the byte at which it or the box around it begins.
    fn of_place(code: u32, box_type: BoxType, place: u64) -> Answer
        ensures { result ≡ of_place code box_type place }
    {
        Answer {
            index: place,
            box_type: code_bytes(box_type),
            ..Answer::plain(code)
        }
    }

    /// A refusal that names a sample.
    fn of_sample(code: u32, track_id: u32, number: u32) -> Answer
        ensures { result ≡ of_sample code track_id number }
    {
        Answer {
            track_id,
            number,
            ..Answer::plain(code)
        }
    }

    /// A refusal: the number of an error, and what it names.
    pub fn refused(error: &Error) -> Answer
        ensures { result ≡ refused (cause_of error.now) }
    {
        match error {
            Error::EndOfData => Answer::plain(1),
            Error::OutOfMemory => Answer::plain(2),
            Error::InvalidData(_) => Answer::plain(3),
            Error::BoxNotFound(t) => Answer::of_box(4, 0, *t, 0),
            Error::Box2NotFound(t, u) => Answer::of_two(5, *t, *u),
            Error::TrakNotFound(id) => Answer::of_track(6, *id),
            Error::BoxInTrakNotFound(id, t) => Answer::of_box(7, *id, *t, 0),
            Error::BoxInTrafNotFound(id, t) => Answer::of_box(8, *id, *t, 0),
            Error::BoxInStblNotFound(id, t) => Answer::of_box(9, *id, *t, 0),
            Error::EntryInStblNotFound(id, t, k) => Answer::of_box(10, *id, *t, *k),
            Error::EntryInTrunNotFound(id, t, k) => Answer::of_box(11, *id, *t, *k),
            Error::UnsupportedBoxVersion(t, v) => Answer::of_box(12, 0, *t, u32::from(*v)),
            Error::Ended => Answer::plain(13),
            Error::ZeroTimescale => Answer::plain(14),
            Error::TooLarge(limit) => Answer::of_limit(15, *limit),
            Error::Unrepresentable(_) => Answer::plain(16),
        }
    }

    /// A refusal to rewrite a movie that is in memory, as what is written of it is: there neither a source nor a sink
    /// refuses.
    pub fn not_remuxed(error: &RemuxError) -> Answer
        ensures { result ≡ not_remuxed error.now }
    {
        match error {
            RemuxError::Mp4(error) => Answer::refused(error),
            RemuxError::Read(_) | RemuxError::Write(_) => Answer::refused(&Error::OutOfMemory),
            RemuxError::Twice(t) => Answer::of_box(20, 0, *t, 0),
            RemuxError::SaysPlaces(t, place) => Answer::of_place(21, *t, *place),
            RemuxError::TooManySamples(id) => Answer::of_track(22, *id),
            RemuxError::OtherTracks => Answer::plain(23),
            RemuxError::Differs(id, k) => Answer::of_sample(24, *id, *k),
            RemuxError::SaysOfSamples(t, place) => Answer::of_place(25, *t, *place),
            RemuxError::StartsElsewhere(id, k) => Answer::of_sample(26, *id, *k),
            RemuxError::SameIds => Answer::plain(27),
        }
    }

    /// A refusal of a track that isn't there.
    pub fn no_track(track_id: u32) -> Answer
        ensures { result ≡ refused (trak_not_found track_id) }
    {
        Answer::of_track(6, track_id)
    }
}
