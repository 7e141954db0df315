//! What is asked of files.

use crate::extract::TextLayout;
use crate::faults::Subject;
use crate::files::STANDARD_STREAM;
use mp4_box_report::BoxesRequest;
use mp4_extract::SampleFormat;
use mp4_report::SamplesRequest;

/// Where extracted samples are written.
#[derive(Clone, Copy)]
pub enum Target<'a> {
    /// One after the other, to a file of this name.
    File(&'a str),
    /// One file each, in a folder of this name.
    Folder(&'a str),
}

/// The samples that are written, and how.
#[derive(Clone, Copy)]
pub struct ExtractRequest<'a> {
    pub track_id: u32,
    pub target: Target<'a>,
    /// The number of the first, from 1.
    pub from: u32,
    /// How many are written at most.
    pub count: u32,
    pub format: SampleFormat,
}

/// The track whose texts are printed, and how.
#[derive(Clone, Copy)]
pub struct SubtitlesRequest {
    pub track: u32,
    pub layout: TextLayout,
}

/// What is asked of a movie.
#[derive(Clone, Copy)]
pub enum MovieQuestion<'a> {
    /// The samples of a track: as many as are asked for, from a number or a time on.
    Samples {
        samples: SamplesRequest<'a>,
        json: bool,
    },
    /// Samples of a track are written to a file, or to one file each.
    Extract(ExtractRequest<'a>),
    /// The texts of a track with their times.
    Subtitles(SubtitlesRequest),
}

/// What is asked of a file.
#[derive(Clone, Copy)]
pub enum Question<'a> {
    /// The boxes, down to a depth, also of a file that doesn't open.
    Boxes { boxes: BoxesRequest, json: bool },
    /// Why it doesn't open.
    Why,
    /// The tracks.
    Tracks { json: bool },
    /// The metadata; the picture is written to a file of this name.
    Metadata { cover: Option<&'a str>, json: bool },
    /// What is asked of the movie that it is.
    Movie(MovieQuestion<'a>),
}

/// A question, and the name of the file that is asked.
#[derive(Clone, Copy)]
pub struct Request<'a> {
    pub file: &'a str,
    /// How many bytes are read of a file that is no regular one.
    pub limit: u64,
    pub question: Question<'a>,
}

impl<'a> Request<'a> {
    /// The name of the file or the folder that is written, if one is.
    fn written(&self) -> Option<&'a str> {
        match self.question {
            Question::Movie(MovieQuestion::Extract(extract)) => match extract.target {
                Target::File(name) => Some(name),
                Target::Folder(name) => Some(name),
            },
            Question::Metadata { cover, .. } => cover,
            _ => None,
        }
    }

    /// The name of the one file that is written, if one is and it isn't standard output.
    pub fn written_file(&self) -> Option<&'a str> {
        match self.question {
            Question::Movie(
                MovieQuestion::Extract(
                    ExtractRequest {
                        target: Target::Folder(_),
                        ..
                    },
                ),
            ) => None,
            _ => self.written().filter(|name| *name != STANDARD_STREAM),
        }
    }

    /// The name of what a fault is about.
    pub fn name_of(&self, subject: Subject) -> &'a str {
        match subject {
            Subject::StandardOutput => "standard output",
            Subject::Written => self.written().unwrap_or(self.file),
            Subject::Read if self.file == STANDARD_STREAM => "standard input",
            Subject::Read => self.file,
        }
    }
}
