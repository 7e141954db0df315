//! The lines of a text.

ghost use Rattle.std.specs.Prelude.{◌≡◌, [], ◌∷◌, ◌==◌, ◌≤◌, ◌<◌, length, MatchOption, IfNone, IfSome};
ghost use Rattle.std.specs.List.{position_or_len};
ghost use Rattle.mp4_script.specs.Lines.{lines_of, lines_left};

use memchr::memchr;

/// The byte at the end of a line.
const LINE_FEED: u8 = b'\n';

/// The lines of a text that are still to be read. Each ends with a line feed; the last one may lack it.
#[derive(Drop)]
pub(crate) struct Lines<'a> {
    /// What is after the lines that were read; None after the last one.
    rest: Option<&'a [u8]>,
}

/// How many bytes are before the first one that is this, or how many there are.
pub(crate) fn length_before(text: &[u8], end: u8) -> usize
    ensures { result ≡ position_or_len (λ byte. byte == end) text.now }
{
    text.iter().take_while(|byte| **byte != end).count()
}

/// How many bytes are before the first line feed, or how many there are: as [`length_before`] answers, but found many
/// bytes at a time, since lines may be long.
// Kept a call: docs/PERF.md, "Why these are calls".
#[inline(never)]
fn length_by_memchr(text: &[u8]) -> usize
    ensures { result ≡ position_or_len (λ byte. byte == 10) text.now }
{
    match memchr(LINE_FEED, text) {
        Some(place) => place,
        None => text.len(),
    }
}

/// How many bytes are before the first line feed, or how many there are. Empty lines are many in some texts, and are
/// found by their one byte.
fn line_length(text: &[u8]) -> usize
    ensures { result ≡ position_or_len (λ byte. byte == 10) text.now }
{
    if text.first() == Some(&LINE_FEED) {
        return 0;
    }
    length_by_memchr(text)
}

/// The first line, and what is after its line feed; None where there is no line feed.
pub(crate) fn cut_line(text: &[u8]) -> Option<(&[u8], &[u8])>
    ensures parts { IfSome result (λ parts. lines_of text.now ≡ parts.0.now ∷ lines_of parts.1.now) }
    ensures shorter { IfSome result (λ parts. length parts.1.now < length text.now) }
    ensures last { IfNone result (lines_of text.now ≡ text.now ∷ []) }
{
    let end = line_length(text);
    if end < text.len() {
        return Some((&text[..end], &text[end + 1..]));
    }
    None
}

impl<'a> Lines<'a> {
    pub fn new(text: &'a [u8]) -> Self
        ensures { lines_left result ≡ lines_of text.now }
    {
        Lines { rest: Some(text) }
    }

    /// The next line, without its line feed; None after the last one.
    pub fn next_line(&mut self) -> Option<&'a [u8]>
        ensures line { MatchOption result (lines_left self.old ≡ [])
            (λ line. lines_left self.old ≡ line.now ∷ lines_left self.new) }
        ensures end { IfNone result (lines_left self.new ≡ []) }
    {
        let text = self.rest?;
        let end = line_length(text);
        if end < text.len() {
            self.rest = Some(&text[end + 1..]);
            Some(&text[..end])
        } else {
            self.rest = None;
            Some(text)
        }
    }
}
