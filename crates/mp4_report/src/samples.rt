//! The samples of a track: where they lie, and when they are decoded and shown.

ghost use Rattle.std.specs.Prelude.{◌≡◌, ◌+◌, ◌-◌, ◌^◌, ◌==◌, if◌then◌else◌, drop, min, None, option_map, IfSome};
ghost use Rattle.std.specs.Prelude.{Err, IfErr, IfOk, Ok};
ghost use Rattle.mp4_codec.specs.Cause.{cause_of};
ghost use Rattle.mp4_lookup.specs.InOrder.{samples_left};
ghost use Rattle.mp4_media.specs.Reading.{needed_track};
ghost use Rattle.mp4_report.specs.Samples.{AreRows, IsFirstNumber, is_empty, next_refusal, next_row, row_of};

use crate::past_end::is_in_file;
use crate::spans::{Span, Spans};
use mp4_codec::{Error, Result};
use mp4_media::{Movie, Mp4Track, Samples};
use mp4_readable::{
    DecimalTime, Grouped, TickClock, TickSeconds, Whole, grouped_length, tick_decimals,
};
use mp4_samples::Place;
use serde::Serialize;
use std::fmt;
use std::fmt::Write;

/// Where a list of samples begins.
#[derive(Clone, Copy, Debug, PartialEq, Eq)]
pub enum First<'a> {
    /// At the sample of this number, from 1.
    Number(u32),
    /// At the last sample that is decoded at or before this time, or at the first of all.
    Time(DecimalTime<'a>),
}

/// Which samples of a file are listed.
#[derive(Clone, Copy, Debug, PartialEq, Eq)]
pub struct SamplesRequest<'a> {
    pub track_id: u32,
    pub first: First<'a>,
    /// How many are listed at most.
    pub count: u32,
}

/// A sample of a track. Times are in ticks.
#[derive(Clone, Copy, Debug, PartialEq, Eq, Serialize)]
pub struct SampleReport {
    /// From 1.
    pub number: u32,
    /// Where its first byte is in the file.
    pub place: Whole,
    pub size: u32,
    pub decode_time: Whole,
    pub duration: u32,
    /// How much later than it is decoded it is shown.
    pub rendering_offset: i32,
    pub is_sync: bool,
    /// Whether all its bytes lie before the end of the file.
    pub in_file: bool,
}

/// Whether a track has no samples: its tables are empty, and it has no fragments.
fn is_empty(track: &Mp4Track) -> bool
    ensures { result ≡ is_empty track.now }
{
    let stbl = &track.trak.mdia.minf.stbl;
    track.trafs.is_empty() && stbl.sample_count() == 0 && stbl.stsc.entries.is_empty()
}

/// The number of the first sample that is listed: 1 where no sample is decoded so early.
fn first_number(track: &Mp4Track, first: First) -> u32
    ensures { IsFirstNumber track.now first.entry result }
{
    match first {
        First::Number(number) => number.max(1),
        First::Time(time) => track.sample_at(time.ticks(track.timescale())).unwrap_or(1),
    }
}

/// A sample of a file of so many bytes.
fn report_of(number: u32, place: Place, file_size: u64) -> SampleReport
    ensures { result ≡ row_of number file_size place }
{
    SampleReport {
        number,
        place: Whole(place.offset),
        size: place.size,
        decode_time: Whole(place.start_time),
        duration: place.duration,
        rendering_offset: place.rendering_offset,
        is_sync: place.is_sync,
        in_file: is_in_file(place.offset, place.size, file_size),
    }
}

/// The samples that are asked for, in their order: each is found when it is its turn.
#[derive(Drop)]
pub struct SampleRows<'m> {
    track: &'m Mp4Track,
    file_size: u64,
    /// The samples from the next on.
    samples: Samples<'m>,
    /// The number of the next.
    number: u32,
    /// How many are listed at most.
    left: u32,
    refused: Option<Error>,
}

impl<'m> SampleRows<'m> {
    /// Before the first sample that is asked for of a movie whose file has so many bytes. `TrakNotFound`
    /// where there is no such track.
    pub fn new(movie: &'m Movie, file_size: u64, request: SamplesRequest) -> Result<Self>
        ensures track { IfOk result (λ rows.
            needed_track movie.now.tracks request.entry.track_id ≡ Ok rows.track.now) }
        ensures rows { IfOk result (λ rows. AreRows file_size request.entry rows) }
        ensures refused { IfErr result (λ e.
            needed_track movie.now.tracks request.entry.track_id ≡ Err (cause_of e)) }
    {
        let SamplesRequest {
            track_id,
            first,
            count,
        } = request;
        let track = movie.track(track_id)?;
        let number = first_number(track, first);
        Ok(SampleRows {
            track,
            file_size,
            samples: track.samples_from(number),
            number,
            left: if is_empty(track) { 0 } else { count },
            refused: None,
        })
    }

    /// Ticks in a second.
    pub fn timescale(&self) -> u32
        ensures { result ≡ self.now.track.now.trak.mdia.mdhd.timescale }
    {
        self.track.timescale()
    }

    /// How many samples may still come: as many as were asked for and not yet found.
    pub fn left(&self) -> u32
        ensures { result ≡ self.now.left }
    {
        self.left
    }

    /// The next sample; `None` after the last that is asked for, after the last of the track, and where one
    /// is refused.
    #[tactic(auto, unfolding(crate::specs::Samples::next_row, crate::specs::Samples::next_refusal))]
    pub fn next_row(&mut self) -> Option<SampleReport>
        ensures row { result ≡ next_row self.old }
        ensures others { samples_left self.new.samples ≡ (if self.old.left == 0
            then samples_left self.old.samples else drop 1 (samples_left self.old.samples)) }
        ensures number { IfSome result (λ _. self.new.number ≡ min (self.old.number + 1) (2 ^ 32 - 1)) }
        ensures left { IfSome result (λ _. self.new.left + 1 ≡ self.old.left) }
        ensures track { self.new.track.now ≡ self.old.track.now }
        ensures file_size { self.new.file_size ≡ self.old.file_size }
        ensures refused { option_map cause_of self.new.refused ≡ next_refusal self.old }
    {
        self.left = self.left.checked_sub(1)?;
        match self.samples.next()? {
            Ok(place) => {
                let row = report_of(self.number, place, self.file_size);
                self.number = self.number.saturating_add(1);
                Some(row)
            }
            Err(error) => {
                self.refused = Some(error);
                self.left = 0;
                None
            }
        }
    }

    /// Why the sample after the last that was found can't be, where that is so.
    pub fn refused(&self) -> Option<&Error> {
        self.refused.as_ref()
    }

    /// The columns that hold the samples to come. It looks at each chunk and each run, but at each sample
    /// only where the file lists what these have.
    pub fn columns(&self) -> SampleColumns {
        let mut spans = Spans::new(self.track, self.number, &[]);
        let mut columns = SampleColumns::of_headings(self.timescale());
        let mut left = self.left;
        for _ in 0..self.left {
            let Some(Ok(span)) = spans.next_span() else {
                break;
            };
            let count = span.count.min(left);
            columns.widen(Span { count, ..span });
            left -= count;
            if left == 0 {
                break;
            }
        }
        columns
    }
}

/// The columns of a list of samples: how wide those are whose numbers may be long, and the timescale of the
/// times.
///
/// They are shown as the line of headings.
#[derive(Clone, Copy, Debug, PartialEq, Eq)]
pub struct SampleColumns {
    number: usize,
    place: usize,
    size: usize,
    timescale: u32,
}

impl SampleColumns {
    /// As wide as the headings.
    fn of_headings(timescale: u32) -> Self {
        SampleColumns {
            number: 6,
            place: 5,
            size: 5,
            timescale,
        }
    }

    /// Makes them as wide as samples want them, of which there is one at least.
    fn widen(&mut self, span: Span) {
        let number = u64::from(span.last_number());
        let place = span.place_after(span.count.saturating_sub(1));
        self.number = self.number.max(grouped_length(number));
        self.place = self.place.max(grouped_length(place));
        self.size = self.size.max(grouped_length(u64::from(span.first.size)));
    }

    /// The line of a sample.
    pub fn line(self, sample: SampleReport) -> SampleLine {
        SampleLine {
            columns: self,
            sample,
        }
    }
}

impl fmt::Display for SampleColumns {
    /// Writes the headings.
    fn fmt<W: fmt::Write>(&self, f: &mut fmt::Formatter<W>) -> fmt::Result {
        let SampleColumns {
            number,
            place,
            size,
            timescale,
        } = *self;
        // Before the decimals are `0:00:00.`.
        let time = tick_decimals(timescale).saturating_add(8);
        write!(
            f,
            "{:>number$}  {:>place$}  {:>size$}  {:<time$}  {:<time$}  lasts",
            "sample", "place", "bytes", "decoded", "shown"
        )
    }
}

/// The line of a sample in a list.
#[derive(Clone, Copy, Debug, PartialEq, Eq)]
pub struct SampleLine {
    columns: SampleColumns,
    sample: SampleReport,
}

impl SampleLine {
    /// Writes when the sample is decoded and shown, and how long it lasts.
    fn write_times<W: fmt::Write>(&self, f: &mut fmt::Formatter<W>) -> fmt::Result {
        let timescale = self.columns.timescale;
        let ticks = i128::from(self.sample.decode_time.0);
        let decoded = TickClock { ticks, timescale };
        let shown = TickClock {
            ticks: ticks + i128::from(self.sample.rendering_offset),
            timescale,
        };
        let lasts = TickSeconds {
            ticks: u64::from(self.sample.duration),
            timescale,
        };
        write!(f, "  {decoded}  {shown}  {lasts}")
    }
}

impl fmt::Display for SampleLine {
    fn fmt<W: fmt::Write>(&self, f: &mut fmt::Formatter<W>) -> fmt::Result {
        let SampleColumns {
            number: number_width,
            place: place_width,
            size: size_width,
            timescale: _,
        } = self.columns;
        let number = Grouped(u64::from(self.sample.number));
        let place = Grouped(self.sample.place.0);
        let size = Grouped(u64::from(self.sample.size));
        write!(
            f,
            "{number:>number_width$}  {place:>place_width$}  {size:>size_width$}"
        )?;
        self.write_times(f)?;
        if self.sample.is_sync {
            f.write_str("  sync")?;
        }
        if !self.sample.in_file {
            f.write_str("  past the end")?;
        }
        Ok(())
    }
}
