//! The commands and their arguments, as `clap` reads them.

use clap::{Arg, ArgAction, ArgGroup, Command};
use std::alloc::{AllocError, Global};

/// An argument of a command: its id, of a word or an option with a text the name of its value, and what help says.
#[derive(Clone, Copy)]
enum Argument {
    /// A word at its place.
    Word(&'static str, &'static str, &'static str),
    /// A word at its place in whose stead an option of this id may be given.
    WordUnless(&'static str, &'static str, &'static str, &'static str),
    /// A number at its place.
    Number(&'static str, &'static str, &'static str),
    /// An option with a text.
    TextOption(&'static str, &'static str, &'static str),
    /// An option with a number.
    NumberOption(&'static str, &'static str),
    /// An option with a number of 64 bits.
    SizeOption(&'static str, &'static str),
    /// An option without a value.
    Flag(&'static str, &'static str),
}

const FILE: Argument = Argument::Word("file", "FILE", "The MP4 file; - is standard input");

const TRACK: Argument = Argument::Number("track", "TRACK", "The track's id, as `tracks` shows it");

const FROM: Argument = Argument::NumberOption(
    "from",
    "Begin with the sample of this number, from 1",
);

const LIMIT: Argument = Argument::SizeOption(
    "limit",
    "Of a file that is no regular one, as a pipe, read at most so many bytes",
);

const JSON: Argument = Argument::Flag("json", "Print one JSON document");

static BOXES: [Argument; 5] = [
    FILE,
    Argument::NumberOption("depth", "List boxes to this depth; 1 is the file's own"),
    Argument::Flag("all", "Print lists whole"),
    JSON,
    LIMIT,
];

static TRACKS: [Argument; 3] = [FILE, JSON, LIMIT];

static WHY: [Argument; 2] = [FILE, LIMIT];

static SAMPLES: [Argument; 7] = [
    FILE,
    TRACK,
    FROM,
    Argument::NumberOption("count", "List at most so many"),
    Argument::TextOption(
        "at",
        "TIME",
        "Begin with the sample that is decoded at this time, as 12.5 or 0:00:12.5",
    ),
    JSON,
    LIMIT,
];

static EXTRACT: [Argument; 9] = [
    FILE,
    TRACK,
    Argument::WordUnless(
        "out",
        "OUT",
        "The file that the samples are written to, one after the other; - is standard output",
        "each",
    ),
    FROM,
    Argument::NumberOption("count", "Write at most so many"),
    Argument::TextOption(
        "each",
        "FOLDER",
        "Write each sample to a file of its own in this folder",
    ),
    Argument::Flag(
        "annexb",
        "Write H.264 and H.265 with start codes and parameter sets",
    ),
    Argument::Flag("adts", "Write AAC with ADTS headers"),
    LIMIT,
];

static SUBTITLES: [Argument; 5] = [
    FILE,
    TRACK,
    Argument::Flag("srt", "Print SubRip text"),
    Argument::Flag(
        "decode-times",
        "Print when texts are decoded, whatever the track's edits are",
    ),
    LIMIT,
];

static METADATA: [Argument; 4] = [
    FILE,
    Argument::TextOption(
        "cover",
        "OUT",
        "Write the picture to this file; - is standard output",
    ),
    JSON,
    LIMIT,
];

/// An argument with a value.
fn with_value<'a>(alloc: Global, id: &'a str, value: &'a str, help: &'a str) -> Arg<'a> {
    Arg::new(alloc, id)
        .value_name(value)
        .action(ArgAction::Set)
        .help(help)
}

/// A word that has to be there.
fn word<'a>(alloc: Global, id: &'a str, value: &'a str, help: &'a str) -> Arg<'a> {
    with_value(alloc, id, value, help).required(true)
}

/// A word that has to be there unless an option is, and is refused beside it.
fn word_unless<'a>(word: Arg<'a>, option: &'a str) -> Result<Arg<'a>, AllocError> {
    word.conflicts_with(option)?.required_unless_present(option)
}

impl Argument {
    fn arg<'a>(self, alloc: Global) -> Result<Arg<'a>, AllocError> {
        match self {
            Argument::Word(id, value, help) => Ok(word(alloc, id, value, help)),
            Argument::WordUnless(id, value, help, option) => {
                word_unless(with_value(alloc, id, value, help), option)
            }
            Argument::Number(id, value, help) => {
                Ok(word(alloc, id, value, help).value_parser(clap::value_parser!(u32)))
            }
            Argument::TextOption(id, value, help) => {
                Ok(with_value(alloc, id, value, help).long(id))
            }
            Argument::NumberOption(id, help) => Ok(
                with_value(alloc, id, "N", help)
                    .long(id)
                    .value_parser(clap::value_parser!(u32)),
            ),
            Argument::SizeOption(id, help) => Ok(
                with_value(alloc, id, "N", help)
                    .long(id)
                    .value_parser(clap::value_parser!(u64)),
            ),
            Argument::Flag(id, help) => Ok(
                Arg::new(alloc, id)
                    .long(id)
                    .action(ArgAction::SetTrue)
                    .help(help),
            ),
        }
    }
}

/// What help says of a command.
#[derive(Clone, Copy)]
struct Help<'a> {
    name: &'a str,
    about: &'a str,
    example: &'a str,
}

/// What is asked of a file.
#[derive(Clone, Copy)]
pub enum Kind {
    Boxes,
    Tracks,
    Why,
    Samples,
    Extract,
    Subtitles,
    Metadata,
}

static KINDS: [Kind; 7] = [
    Kind::Boxes,
    Kind::Tracks,
    Kind::Why,
    Kind::Samples,
    Kind::Extract,
    Kind::Subtitles,
    Kind::Metadata,
];

impl Kind {
    /// The kind of this name.
    pub fn named(name: &str) -> Option<Kind> {
        for kind in &KINDS {
            if kind.help().name == name {
                return Some(*kind);
            }
        }
        None
    }

    fn help<'a>(self) -> Help<'a> {
        match self {
            Kind::Boxes => Help {
                name: "boxes",
                about: "Lists each box with its place, its size and its fields, also in files that don't open",
                example: "Example: mp4_inspect boxes film.mp4 --depth 2",
            },
            Kind::Tracks => Help {
                name: "tracks",
                about: "Says what each track is: its codec, pictures or sound, duration and samples",
                example: "Example: mp4_inspect tracks film.mp4 --json",
            },
            Kind::Why => Help {
                name: "why",
                about: "Says where a file that doesn't open is broken, and what the rule is",
                example: "Example: mp4_inspect why broken.mp4",
            },
            Kind::Samples => Help {
                name: "samples",
                about: "Lists the samples of a track: where they lie, and when they are decoded and shown",
                example: "Example: mp4_inspect samples film.mp4 1 --at 12.5 --count 10",
            },
            Kind::Extract => Help {
                name: "extract",
                about: "Writes the bytes of the samples of a track to a file",
                example: "Example: mp4_inspect extract film.mp4 1 film.h264 --annexb",
            },
            Kind::Subtitles => Help {
                name: "subtitles",
                about: "Prints the texts of a track with their times",
                example: "Example: mp4_inspect subtitles film.mp4 3 --srt",
            },
            Kind::Metadata => Help {
                name: "metadata",
                about: "Says the title, the year, the summary and the picture of the work",
                example: "Example: mp4_inspect metadata film.mp4 --cover cover.jpg",
            },
        }
    }

    fn arguments(self) -> &'static [Argument] {
        match self {
            Kind::Boxes => &BOXES,
            Kind::Tracks => &TRACKS,
            Kind::Why => &WHY,
            Kind::Samples => &SAMPLES,
            Kind::Extract => &EXTRACT,
            Kind::Subtitles => &SUBTITLES,
            Kind::Metadata => &METADATA,
        }
    }

    /// The ids of options of which one at most may be given.
    fn rivals<'a>(self) -> &'a [&'a str] {
        match self {
            Kind::Samples => &["from", "at"],
            Kind::Extract => &["annexb", "adts"],
            _ => &[],
        }
    }
}

fn args<'a>(alloc: Global, arguments: &[Argument]) -> Result<Vec<Arg<'a>>, AllocError> {
    let mut args = Vec::new(alloc);
    for argument in arguments {
        args.push(argument.arg(alloc)?)?;
    }
    Ok(args)
}

fn subcommand<'a>(alloc: Global, kind: Kind) -> Result<Command<'a>, AllocError> {
    let help = kind.help();
    let args = args(alloc, kind.arguments())?;
    let rivals = ArgGroup::new(alloc, "rivals").args(kind.rivals())?;
    Command::new(alloc, help.name)
        .about(help.about)
        .after_help(help.example)
        .args(args)?
        .group(rivals)
}

fn subcommands<'a>(alloc: Global) -> Result<Vec<Command<'a>>, AllocError> {
    let mut commands = Vec::new(alloc);
    for kind in &KINDS {
        commands.push(subcommand(alloc, *kind)?)?;
    }
    Ok(commands)
}

/// The whole command line. Without a word it prints what `--help` does.
pub fn command<'a>(alloc: Global) -> Result<Command<'a>, AllocError> {
    let subcommands = subcommands(alloc)?;
    Command::new(alloc, "mp4_inspect")
        .about("Inspects MP4 files: their boxes, tracks, samples and metadata")
        .after_help("Each command has an example: mp4_inspect COMMAND --help")
        .subcommand_required(true)
        .arg_required_else_help(true)
        .subcommands(subcommands)
}
