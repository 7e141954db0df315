//! Subtitles as texts.

ghost use Rattle.std.specs.Prelude.{◌≡◌, encode_utf8, codes, []};
ghost use Rattle.mp4_extract.specs.Extracting.{IsPut};
ghost use Rattle.mp4_extract.specs.SubtitleTexts.{line_of, line_text, lines_text, part_text, srt_of};
ghost use Rattle.mp4_extract.specs.SubtitleTexts.{visible, visible_text};

use crate::clock::{put_number, put_times};
use crate::samples::put_all;
use crate::text_track::Subtitle;
use std::io;
use std::io::Write;

/// Writes a character, and a full stop in place of a control character.
fn put_visible<W: Write>(character: char, out: &mut W) -> io::Result<()>
    ensures { IsPut (encode_utf8 (visible character)) (W.contents out.old) (W.contents out.new) result }
{
    let shown = if character.is_control() {
        '.'
    } else {
        character
    };
    let mut bytes = [0; 4];
    put_all(shown.encode_utf8(&mut bytes).as_bytes(), out)
}

/// Writes a text, each control character as a full stop.
fn put_characters<W: Write>(text: &str, out: &mut W) -> io::Result<()>
    ensures { IsPut (visible_text text.now) (W.contents out.old) (W.contents out.new) result }
{
    for character in text.chars() {
        put_visible(character, out)?;
    }
    Ok(())
}

/// Writes a part of a line after a text and before another; nothing where it is white space alone.
#[tactic(auto, unfolding(crate::specs::SubtitleTexts::part_text))]
fn put_part<W: Write>(before: &[u8], after: &[u8], part: &str, out: &mut W) -> io::Result<()>
    ensures { IsPut (part_text before.now after.now part.now) (W.contents out.old) (W.contents out.new) result }
{
    if part.trim().is_empty() {
        return Ok(());
    }
    put_all(before, out)?;
    put_characters(part, out)?;
    put_all(after, out)
}

/// Writes what a line holds between carriage returns, which end lines too, each part so.
fn put_line<W: Write>(before: &[u8], after: &[u8], line: &str, out: &mut W) -> io::Result<()>
    ensures { IsPut (line_text before.now after.now line.now) (W.contents out.old) (W.contents out.new) result }
{
    for part in line.split('\r') {
        put_part(before, after, part, out)?;
    }
    Ok(())
}

/// Writes the lines of a text so.
fn put_lines<W: Write>(before: &[u8], after: &[u8], text: &str, out: &mut W) -> io::Result<()>
    ensures { IsPut (lines_text before.now after.now text.now) (W.contents out.old) (W.contents out.new) result }
{
    for line in text.split('\n') {
        put_line(before, after, line, out)?;
    }
    Ok(())
}

/// Writes a subtitle as SRT: its number among those that are shown, from 1; from when to when it is shown; the lines of
/// its text but for empty ones, which would end it; and an empty line. Control characters are full stops.
///
/// Where the sink refuses, it holds a front of that.
#[tactic(auto, unfolding(crate::specs::SubtitleTexts::srt_of))]
pub fn write_srt<W: Write>(number: u64, subtitle: &Subtitle, out: &mut W) -> io::Result<()>
    ensures { IsPut (srt_of number subtitle.now) (W.contents out.old) (W.contents out.new) result }
{
    put_number(number, out)?;
    put_all(b"\n", out)?;
    put_times(b',', b" --> ", subtitle, out)?;
    put_all(b"\n", out)?;
    put_lines(b"", b"\n", subtitle.text.as_str(), out)?;
    put_all(b"\n", out)
}

/// Writes a subtitle as a line: from when to when it is shown, and its text, with a space in place of each end of a
/// line. Control characters are full stops.
///
/// Where the sink refuses, it holds a front of that.
#[tactic(auto, unfolding(crate::specs::SubtitleTexts::line_of))]
pub fn write_line<W: Write>(subtitle: &Subtitle, out: &mut W) -> io::Result<()>
    ensures { IsPut (line_of subtitle.now) (W.contents out.old) (W.contents out.new) result }
{
    put_times(b'.', b" - ", subtitle, out)?;
    put_lines(b" ", b"", subtitle.text.as_str(), out)?;
    put_all(b"\n", out)
}
