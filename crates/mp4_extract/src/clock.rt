//! Times of subtitles as texts.

ghost use Rattle.std.specs.Prelude.{◌≡◌, decimal};
ghost use Rattle.mp4_extract.specs.Extracting.{IsPut};
ghost use Rattle.mp4_extract.specs.SubtitleTexts.{clock_of, hours_of, last_digit, times_text};

use crate::samples::put_all;
use crate::text_track::Subtitle;
use itoa::Buffer;
use std::io;
use std::io::Write;

/// Writes a number in decimal digits.
pub(crate) fn put_number<W: Write>(number: u64, out: &mut W) -> io::Result<()>
    ensures { IsPut (decimal number) (W.contents out.old) (W.contents out.new) result }
{
    let mut digits = Buffer::new();
    let text = digits.format(number);
    put_all(text.as_bytes(), out)
}

/// The last decimal digit of a number.
fn last_digit(number: u64) -> u8
    ensures { result ≡ last_digit number }
{
    48 + (number % 10) as u8
}

/// Writes hours in two decimal digits, or in more where they have more.
#[tactic(auto, unfolding(crate::specs::SubtitleTexts::hours_of))]
fn put_hours<W: Write>(hours: u64, out: &mut W) -> io::Result<()>
    ensures { IsPut (hours_of hours) (W.contents out.old) (W.contents out.new) result }
{
    if hours < 10 {
        put_all(b"0", out)?;
        return put_number(hours, out);
    }
    put_number(hours, out)
}

/// Writes a time in milliseconds as `00:01:02,003`, or with another mark before the milliseconds.
#[tactic(auto, unfolding(crate::specs::SubtitleTexts::clock_of))]
fn put_clock<W: Write>(mark: u8, time: u64, out: &mut W) -> io::Result<()>
    ensures { IsPut (clock_of mark time) (W.contents out.old) (W.contents out.new) result }
{
    let minutes = time / 60000 % 60;
    let seconds = time / 1000 % 60;
    let milliseconds = time % 1000;
    let rest = [
        b':',
        last_digit(minutes / 10),
        last_digit(minutes),
        b':',
        last_digit(seconds / 10),
        last_digit(seconds),
        mark,
        last_digit(milliseconds / 100),
        last_digit(milliseconds / 10),
        last_digit(milliseconds),
    ];
    put_hours(time / 3600000, out)?;
    put_all(&rest, out)
}

/// Writes from when to when a subtitle is shown, with this mark before the milliseconds, and this text between the two.
#[tactic(auto, unfolding(crate::specs::SubtitleTexts::times_text))]
pub(crate) fn put_times<W: Write>(
    mark: u8,
    between: &[u8],
    subtitle: &Subtitle,
    out: &mut W,
) -> io::Result<()>
    ensures { IsPut (times_text mark between.now subtitle.now) (W.contents out.old) (W.contents out.new) result }
{
    put_clock(mark, subtitle.from, out)?;
    put_all(between, out)?;
    put_clock(mark, subtitle.to, out)
}
