//! Samples that lie one after the other in the file, which are read together.

ghost use Rattle.std.specs.Prelude.{◌≡◌, ◌+◌, ◌≤◌, ℕ, ◌∷◌, Ok, IfSome};
ghost use Rattle.mp4_lookup.specs.InOrder.{samples_left};
ghost use Rattle.mp4_lookup.specs.Tracks.{answer_at};
ghost use Rattle.mp4_lookup.specs.TrackRuns.{track_runs};
ghost use Rattle.mp4_media.specs.Reading.{located_in};
ghost use Rattle.mp4_samples.specs.declared.sample.Place.{Place};
ghost use Rattle.mp4_extract.specs.Neighbours.{AreNeighbours};

use mp4_lookup::Mp4Track;
use mp4_media::{ByteSource, Mp4File, Place, Samples};

/// The most bytes that are read together; a sample that is larger is read alone.
const MOST_BYTES: u64 = 1 << 16;

/// Samples of a track that follow each other, and of which each begins in the file where the one before it ends.
#[derive(Clone, Copy, Debug)]
pub(crate) struct Neighbours {
    /// Where the first byte of the first is.
    pub offset: u64,
    /// The bytes of all of them.
    pub size: u32,
    /// How many they are.
    pub count: u32,
}

impl Neighbours {
    /// Where their bytes lie, as those of one sample.
    pub(crate) fn place(&self) -> Place
        ensures offset { result.offset ≡ self.now.offset }
        ensures size { result.size ≡ self.now.size }
    {
        Place {
            offset: self.offset,
            start_time: 0,
            duration: 0,
            rendering_offset: 0,
            size: self.size,
            is_sync: false,
        }
    }
}

/// The bytes of neighbours, which begin at an offset and have so many, and of the sample that lies at a place; `None`
/// where it doesn't begin where they end, passes the end of the file, which has `len` bytes, or they are too many.
fn size_with(offset: u64, size: u32, next: Place, len: u64) -> Option<u32>
    ensures { IfSome result (λ sum. (next.offset ≡ offset + size) × (sum ≡ size + next.size)) }
{
    let begin = offset.checked_add(u64::from(size))?;
    let end = begin.checked_add(u64::from(next.size))?;
    let sum = u64::from(size) + u64::from(next.size);
    if next.offset != begin || end > len || sum > MOST_BYTES {
        return None;
    }
    Some(sum as u32)
}

/// Goes on to the next sample of a track: the bytes of neighbours and of that, as `size_with` says; `None` also where
/// there is no such sample.
fn size_with_next(samples: &mut Samples, offset: u64, size: u32, len: u64) -> Option<u32>
    ensures { IfSome result (λ sum. (next : Place)
        × (samples_left samples.old ≡ Ok next ∷ samples_left samples.new)
        × (next.offset ≡ offset + size) × (sum ≡ size + next.size)) }
{
    match samples.next() {
        Some(Ok(next)) => size_with(offset, size, next, len),
        _ => None,
    }
}

/// The neighbours from the sample with number `k` of a track on, which are at most `most`, in a file of `len` bytes;
/// `None` where there is no such sample.
fn neighbours_from(track: &Mp4Track, k: u32, most: u32, len: u64) -> Option<Neighbours>
    requires { 1 ≤ most }
    ensures places { IfSome result (λ n. AreNeighbours
        (λ j. answer_at track.now.trak track.now.trafs (track_runs track.now) j) k n.offset n.count n.size) }
    ensures count { IfSome result (λ n. (1 ≤ n.count) × (n.count ≤ most)) }
{
    let mut samples = track.samples_from(k);
    let Some(Ok(first)) = samples.next() else {
        return None;
    };
    let offset = first.offset;
    let mut size = first.size;
    for count in 1..most {
        match size_with_next(&mut samples, offset, size, len) {
            Some(sum) => size = sum,
            None => {
                return Some(Neighbours {
                    offset,
                    size,
                    count,
                });
            }
        }
    }
    Some(Neighbours {
        offset,
        size,
        count: most,
    })
}

/// The neighbours from the sample with number `k` of the track with this id on, which are at most `most`; `None` where
/// there is no such sample.
pub(crate) fn neighbours_in<S: ByteSource + Drop>(
    file: &Mp4File<S>,
    track_id: u32,
    k: u32,
    most: u32,
) -> Option<Neighbours>
    requires { 1 ≤ most }
    ensures places { IfSome result (λ n.
        AreNeighbours (located_in file.now.movie.tracks track_id) k n.offset n.count n.size) }
    ensures count { IfSome result (λ n. (1 ≤ n.count) × (n.count ≤ most)) }
{
    let track = file.tracks().get(&track_id)?;
    neighbours_from(track, k, most, file.source_len())
}
