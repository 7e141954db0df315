//! Samples of a track, written one after the other.

ghost use Rattle.std.specs.Prelude.{◌≡◌, ◌⊎◌, ◌<◌, ◌+◌, ◌≤◌, ℕ, Bool, List, Ok, None, IfErr, IfOk, OnErr, OnOk};
ghost use Rattle.std.specs.Prelude.{vec_capacity};
ghost use Rattle.std.specs.Io.KnownBytes.{Appends};
ghost use Rattle.mp4_extract.specs.declared.error.ExtractError.TheVariants.{OutOfMemory};
ghost use Rattle.mp4_extract.specs.Extracting.{AreExtracted, AreWritten, IsFormIn, IsPastEnd, IsWriteOf, IsWritten};
ghost use Rattle.mp4_extract.specs.Extracting.{IsReadIn, IsThere, MayRefuse, RefusesExtraction, RefusesNumber};
ghost use Rattle.mp4_extract.specs.Extracting.{AreDescribed, BeginsAt, HasNone, RefusesDescription, RefusesFirst};
ghost use Rattle.mp4_extract.specs.Extracting.{HasFront, HoldsAfter, HoldsStored, RefusesTrackIn, has_number};
ghost use Rattle.mp4_extract.specs.Extracting.{RefusesOneFrom, RefusesStored, WantsRoom, offset_in};
ghost use Rattle.mp4_extract.specs.Forms.{IsInForm};

use crate::descriptions::check_descriptions;
use crate::error::ExtractError;
use crate::form::SampleForm;
use crate::format::SampleFormat;
use crate::neighbours::neighbours_in;
use mp4_media::{ByteSource, Error, Mp4File};
use std::alloc::Global;
use std::io;
use std::io::{ErrorKind, Write};

/// What the samples of a track are written by: its memory is that of the largest sample, whatever their number is.
#[derive(Debug)]
pub struct SampleWriter {
    track_id: u32,
    form: SampleForm,
    /// The sample as it lies in the file.
    stored: Vec<u8>,
    /// The sample as it is written, where that is another.
    turned: Vec<u8>,
}

/// Taken apart here, and not at each end of each function that owns one.
impl Drop for SampleWriter {
    fn drop(self) {
        let SampleWriter {
            track_id: _,
            form,
            stored,
            turned,
        } = self;
        drop(form);
        drop(stored);
        drop(turned);
    }
}

/// Whether a number is that of one of so many samples; where there are none, they would begin with number 1.
fn has_number(count: u32, k: u32) -> bool
    ensures { result ≡ has_number count k }
{
    1 <= k && (k <= count || (count == 0 && k == 1))
}

/// Where a sample of a track lies, where its tables say it.
#[tactic(auto, unfolding(mp4_media::specs::Reading::located_in))]
pub(crate) fn place_of<S: ByteSource + Drop>(
    file: &Mp4File<S>,
    track_id: u32,
    k: u32,
) -> Option<u64>
    ensures { result ≡ offset_in file.now.movie.tracks track_id k }
{
    let Some(track) = file.tracks().get(&track_id) else {
        return None;
    };
    match track.locate(k) {
        Ok(Some(place)) => Some(place.offset),
        _ => None,
    }
}

/// Writes all bytes. Where the sink refuses, it holds a front of them.
pub(crate) fn put_all<W: Write>(bytes: &[u8], out: &mut W) -> io::Result<()>
    ensures ok { OnOk result (Appends (W.contents out.old) (W.contents out.new) bytes.now) }
    ensures refused { OnErr result (HasFront bytes.now (W.contents out.old) (W.contents out.new)) }
{
    let mut written = 0;
    for _ in 0..u64::MAX {
        if written >= bytes.len() {
            return Ok(());
        }
        match out.write(&bytes[written..]) {
            Ok(0) => return Err(io::Error::new(
                ErrorKind::WriteZero,
                "failed to write whole buffer",
            )),
            Ok(n) => written += n,
            Err(refused) => {
                if refused.kind() != ErrorKind::Interrupted {
                    return Err(refused);
                }
            }
        }
    }
    Err(io::Error::new(ErrorKind::TimedOut, "gave up writing after 2^64 tries"))
}

impl SampleWriter {
    /// A writer of the samples of the track with this id in this format.
    ///
    /// `Track(TrakNotFound)` where there is no such track, `WrongFormat` where it isn't coded as the format says,
    /// `Track(InvalidData)` where the parameter sets of HEVC pass the end of their box, then `OtherDescription` where
    /// the format takes what it needs of the first sample description, and a sample has another.
    pub fn new<S: ByteSource + Drop>(
        alloc: Global,
        file: &Mp4File<S>,
        track_id: u32,
        format: SampleFormat,
    ) -> Result<Self, ExtractError>
        ensures track_id { IfOk result (λ w. w.track_id ≡ track_id) }
        ensures form { IfOk result (λ w. IsFormIn file.now.movie.tracks track_id format w.form) }
        ensures described { OnOk result (AreDescribed format file.now.movie.tracks track_id file.now.movie.moov.mvex) }
        ensures refused { IfErr result (λ e. (RefusesTrackIn file.now.movie.tracks track_id format e)
            ⊎ (RefusesDescription format file.now.movie.tracks track_id file.now.movie.moov.mvex e)) }
    {
        let Some(track) = file.tracks().get(&track_id) else {
            return Err(ExtractError::Track(Error::TrakNotFound(track_id)));
        };
        let form = SampleForm::new(alloc, track, format)?;
        check_descriptions(format, &track.trak, track.trafs.as_slice(), &file.moov.mvex)?;
        Ok(SampleWriter {
            track_id,
            form,
            stored: Vec::new(alloc),
            turned: Vec::new(alloc),
        })
    }

    /// Whether the track has samples, which can be gone over from number `from` on.
    ///
    /// `NoSuchSample` where none has this number, as number 0 and those past the last; but where there are no samples,
    /// they would begin with number 1. `Track(TooLarge(Value))` where they are more than 32 bits count.
    pub fn begins_at<S: ByteSource + Drop>(
        &self,
        file: &Mp4File<S>,
        from: u32,
    ) -> Result<bool, ExtractError>
        ensures begins { IfOk result (BeginsAt file.now.movie.tracks self.now.track_id from) }
        ensures refused { IfErr result (RefusesFirst file.now.movie.tracks self.now.track_id from) }
    {
        match file.sample_count(self.track_id) {
            Ok(count) => {
                if has_number(count, from) {
                    Ok(count != 0)
                } else {
                    Err(ExtractError::NoSuchSample(self.track_id, from, count))
                }
            }
            Err(error) => Err(ExtractError::of_track(error)),
        }
    }

    /// Writes sample `k` of the track; samples are numbered from 1. It answers whether there is such a sample: where
    /// there isn't, nothing is written.
    ///
    /// `Sample` where the file's tables refuse the sample, as they do number 0 and each number of a track without
    /// samples (`InvalidData`), where it doesn't lie whole in the file, and where it has no such form; `Read` where
    /// the source refuses a sample that lies in the file; then nothing is written. `Write` where the sink refuses,
    /// which then holds a front of the sample. `OutOfMemory` only where there is such a sample, and one of the
    /// writer's buffers has no room for it; then too nothing is written.
    pub fn write_sample<S: ByteSource + Drop, W: Write>(
        &mut self,
        file: &mut Mp4File<S>,
        k: u32,
        out: &mut W,
    ) -> Result<bool, ExtractError>
        ensures written { IfOk result (IsWritten self.old.form
            (IsReadIn (S.contents file.old.source) file.old.len file.old.movie.tracks self.old.track_id k)
            (W.contents out.old) (W.contents out.new)) }
        ensures refused { IfErr result (RefusesNumber self.old.form
            (IsReadIn (S.contents file.old.source) file.old.len file.old.movie.tracks self.old.track_id k)
            (offset_in file.old.movie.tracks self.old.track_id k) k
            (MayRefuse (S.contents file.old.source) (S.can_refuse file.old.source))) }
        ensures memory { IfErr result (λ e. e ≡ OutOfMemory → WantsRoom self.old.form
            (vec_capacity self.old.stored) (vec_capacity self.old.turned)
            (IsReadIn (S.contents file.old.source) file.old.len file.old.movie.tracks self.old.track_id k)) }
        ensures holds { IfErr result (HoldsAfter self.old.form
            (IsReadIn (S.contents file.old.source) file.old.len file.old.movie.tracks self.old.track_id) k 1 0
            (W.contents out.old) (W.contents out.new)) }
        ensures track_id { self.new.track_id ≡ self.old.track_id }
        ensures form { self.new.form ≡ self.old.form }
        ensures len { file.new.len ≡ file.old.len }
        ensures movie { file.new.movie ≡ file.old.movie }
        ensures contents { S.contents file.new.source ≡ S.contents file.old.source }
        ensures can_refuse { S.can_refuse file.new.source ≡ S.can_refuse file.old.source }
    {
        match file.read_sample_into(self.track_id, k, &mut self.stored) {
            Ok(None) => Ok(false),
            Ok(Some(place)) => {
                self.put_stored(k, place.offset, out)?;
                Ok(true)
            }
            Err(error) => {
                let place = place_of(&*file, self.track_id, k);
                Err(ExtractError::of_read(k, place, error))
            }
        }
    }

    /// Writes the sample that was read, whose number is `k`, and which lies at this place.
    fn put_stored<W: Write>(&mut self, k: u32, place: u64, out: &mut W) -> Result<(), ExtractError>
        ensures written { OnOk result ((bytes : List ℕ) × (IsInForm self.old.form self.old.stored.items bytes)
            × (Appends (W.contents out.old) (W.contents out.new) bytes)) }
        ensures refused { IfErr result (RefusesStored self.old.form (vec_capacity self.old.turned)
            self.old.stored.items k place) }
        ensures holds { IfErr result (HoldsStored self.old.form self.old.stored.items
            (W.contents out.old) (W.contents out.new)) }
        ensures track_id { self.new.track_id ≡ self.old.track_id }
        ensures form { self.new.form ≡ self.old.form }
    {
        match self.form.apply(self.stored.as_slice(), &mut self.turned) {
            Ok(bytes) => match put_all(bytes, out) {
                Ok(()) => Ok(()),
                Err(refused) => Err(ExtractError::Write(k, refused)),
            },
            Err(error) => Err(ExtractError::of_sample(k, Some(place), error)),
        }
    }

    /// Writes the samples from number `k` on, `most` at most, that lie one after the other in the file, where samples
    /// are written as they are stored. It answers how many they were: 0 where they aren't written so, or aren't read,
    /// and then nothing is written.
    ///
    /// `Write` with number `k` alone. A sample of sound may have two bytes: one read and one write are those of
    /// thousands.
    fn write_neighbours<S: ByteSource + Drop, W: Write>(
        &mut self,
        file: &mut Mp4File<S>,
        k: u32,
        most: u32,
        out: &mut W,
    ) -> Result<u32, ExtractError>
        requires { 1 ≤ most }
        ensures count { IfOk result (λ n. n ≤ most) }
        ensures written { IfOk result (AreWritten self.old.form
            (IsReadIn (S.contents file.old.source) file.old.len file.old.movie.tracks self.old.track_id) k
            (W.contents out.old) (W.contents out.new)) }
        ensures refused { IfErr result (IsWriteOf k) }
        ensures there { OnErr result (IsThere
            (IsReadIn (S.contents file.old.source) file.old.len file.old.movie.tracks self.old.track_id k)) }
        ensures holds { IfErr result (HoldsAfter self.old.form
            (IsReadIn (S.contents file.old.source) file.old.len file.old.movie.tracks self.old.track_id) k most 0
            (W.contents out.old) (W.contents out.new)) }
        ensures track_id { self.new.track_id ≡ self.old.track_id }
        ensures form { self.new.form ≡ self.old.form }
        ensures len { file.new.len ≡ file.old.len }
        ensures movie { file.new.movie ≡ file.old.movie }
        ensures contents { S.contents file.new.source ≡ S.contents file.old.source }
        ensures can_refuse { S.can_refuse file.new.source ≡ S.can_refuse file.old.source }
    {
        if !self.form.is_as_stored() {
            return Ok(0);
        }
        let Some(neighbours) = neighbours_in(&*file, self.track_id, k, most) else {
            return Ok(0);
        };
        match file.read_place_into(neighbours.place(), &mut self.stored) {
            Ok(()) => match put_all(self.stored.as_slice(), out) {
                Ok(()) => Ok(neighbours.count),
                Err(refused) => Err(ExtractError::Write(k, refused)),
            },
            Err(_) => Ok(0),
        }
    }

    /// Writes the sample with number `k`, and others after it that are read together with it, `most` at most. It
    /// answers how many they were: 0 where there is no such sample.
    ///
    /// The errors are those of [`SampleWriter::write_sample`] for number `k`.
    fn write_next<S: ByteSource + Drop, W: Write>(
        &mut self,
        file: &mut Mp4File<S>,
        k: u32,
        most: u32,
        out: &mut W,
    ) -> Result<u32, ExtractError>
        requires { 1 ≤ most }
        ensures count { IfOk result (λ n. n ≤ most) }
        ensures written { IfOk result (AreWritten self.old.form
            (IsReadIn (S.contents file.old.source) file.old.len file.old.movie.tracks self.old.track_id) k
            (W.contents out.old) (W.contents out.new)) }
        ensures end { IfOk result (λ n. n ≡ 0 →
            IsReadIn (S.contents file.old.source) file.old.len file.old.movie.tracks self.old.track_id k (Ok None)) }
        ensures refused { IfErr result (RefusesNumber self.old.form
            (IsReadIn (S.contents file.old.source) file.old.len file.old.movie.tracks self.old.track_id k)
            (offset_in file.old.movie.tracks self.old.track_id k) k
            (MayRefuse (S.contents file.old.source) (S.can_refuse file.old.source))) }
        ensures holds { IfErr result (HoldsAfter self.old.form
            (IsReadIn (S.contents file.old.source) file.old.len file.old.movie.tracks self.old.track_id) k most 0
            (W.contents out.old) (W.contents out.new)) }
        ensures track_id { self.new.track_id ≡ self.old.track_id }
        ensures form { self.new.form ≡ self.old.form }
        ensures len { file.new.len ≡ file.old.len }
        ensures movie { file.new.movie ≡ file.old.movie }
        ensures contents { S.contents file.new.source ≡ S.contents file.old.source }
        ensures can_refuse { S.can_refuse file.new.source ≡ S.can_refuse file.old.source }
    {
        let neighbours = self.write_neighbours(file, k, most, out)?;
        if neighbours > 0 {
            return Ok(neighbours);
        }
        let found = self.write_sample(file, k, out)?;
        if found { Ok(1) } else { Ok(0) }
    }

    /// Writes the samples from number `from` on, one after the other: `count` of them, or as many as there are. It
    /// answers how many were written.
    ///
    /// The errors are those of [`SampleWriter::write_sample`], for the first sample that is refused; the samples
    /// before it are written, and nothing else. Where the sink refuses samples that are written together, `Write` has
    /// the number of the first of them, and the sink then also holds a front of what was to be written from that on.
    pub fn write_samples<S: ByteSource + Drop, W: Write>(
        &mut self,
        file: &mut Mp4File<S>,
        from: u32,
        count: u32,
        out: &mut W,
    ) -> Result<u32, ExtractError>
        ensures count { IfOk result (λ n. n ≤ count) }
        ensures written { IfOk result (AreWritten self.old.form
            (IsReadIn (S.contents file.old.source) file.old.len file.old.movie.tracks self.old.track_id) from
            (W.contents out.old) (W.contents out.new)) }
        ensures end { IfOk result (λ n. n < count → IsPastEnd
            (IsReadIn (S.contents file.old.source) file.old.len file.old.movie.tracks self.old.track_id) (from + n)) }
        ensures refused { IfErr result (RefusesOneFrom self.old.form
            (IsReadIn (S.contents file.old.source) file.old.len file.old.movie.tracks self.old.track_id)
            (offset_in file.old.movie.tracks self.old.track_id) from count
            (MayRefuse (S.contents file.old.source) (S.can_refuse file.old.source))
            (W.contents out.old) (W.contents out.new)) }
        ensures track_id { self.new.track_id ≡ self.old.track_id }
        ensures form { self.new.form ≡ self.old.form }
        ensures len { file.new.len ≡ file.old.len }
        ensures movie { file.new.movie ≡ file.old.movie }
        ensures contents { S.contents file.new.source ≡ S.contents file.old.source }
        ensures can_refuse { S.can_refuse file.new.source ≡ S.can_refuse file.old.source }
    {
        let mut written = 0;
        while written < count {
            let Some(k) = from.checked_add(written) else {
                return Ok(written);
            };
            let more = self.write_next(file, k, count - written, out)?;
            if more == 0 {
                return Ok(written);
            }
            written += more;
        }
        Ok(count)
    }
}

/// Writes the samples of the track with this id from number `from` on, one after the other: `count` of them, or as many
/// as there are, so that a `count` of 2^32 - 1 is all. Samples are numbered from 1. It answers how many were written:
/// none of a track without samples.
///
/// The errors are those of [`SampleWriter::new`] and then of [`SampleWriter::begins_at`], before which nothing is
/// written, and then of [`SampleWriter::write_samples`].
pub fn extract<S: ByteSource + Drop, W: Write>(
    alloc: Global,
    file: &mut Mp4File<S>,
    track_id: u32,
    from: u32,
    count: u32,
    format: SampleFormat,
    out: &mut W,
) -> Result<u32, ExtractError>
    ensures count { IfOk result (λ n. n ≤ count) }
    ensures written { IfOk result (AreExtracted format
        (IsReadIn (S.contents file.old.source) file.old.len file.old.movie.tracks track_id)
        file.old.movie.tracks track_id from
        (W.contents out.old) (W.contents out.new)) }
    ensures end { IfOk result (λ n. n < count → (HasNone file.old.movie.tracks track_id) ⊎ (IsPastEnd
        (IsReadIn (S.contents file.old.source) file.old.len file.old.movie.tracks track_id) (from + n))) }
    ensures refused { IfErr result (RefusesExtraction format
        (IsReadIn (S.contents file.old.source) file.old.len file.old.movie.tracks track_id)
        file.old.movie.tracks file.old.movie.moov.mvex track_id from count
        (MayRefuse (S.contents file.old.source) (S.can_refuse file.old.source))
        (W.contents out.old) (W.contents out.new)) }
    ensures described { OnOk result (AreDescribed format file.old.movie.tracks track_id file.old.movie.moov.mvex) }
    ensures begins { OnOk result ((has_samples : Bool) × (BeginsAt file.old.movie.tracks track_id from has_samples)) }
    ensures len { file.new.len ≡ file.old.len }
    ensures movie { file.new.movie ≡ file.old.movie }
    ensures contents { S.contents file.new.source ≡ S.contents file.old.source }
    ensures can_refuse { S.can_refuse file.new.source ≡ S.can_refuse file.old.source }
{
    let mut writer = SampleWriter::new(alloc, file, track_id, format)?;
    let has_samples = writer.begins_at(&*file, from)?;
    if !has_samples {
        return Ok(0);
    }
    let written = writer.write_samples(file, from, count, out)?;
    Ok(written)
}
