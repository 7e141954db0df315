//! The commands and their arguments, as `clap` reads them.

use clap::{Arg, ArgAction, Command};
use std::alloc::{AllocError, Global};

/// An argument of a command: its id, of a word or an option with a text the name of its value, and what help says.
#[derive(Clone, Copy)]
enum Argument {
    /// A word at its place.
    Word(&'static str, &'static str, &'static str),
    /// An option with a text that has to be there.
    TextOption(&'static str, &'static str, &'static str),
    /// An option without a value.
    Flag(&'static str, &'static str),
}

const IN: Argument = Argument::Word(
    "in",
    "IN",
    "The MP4 file that is read; - is standard input, which has to be a regular file",
);

const OUT: Argument = Argument::Word(
    "out",
    "OUT",
    "The file that is written; - is standard output",
);

const CHECK: Argument = Argument::Flag(
    "check",
    "Read OUT again, and compare each sample with that of IN, before OUT gets its name",
);

static REWRITE: [Argument; 3] = [IN, OUT, CHECK];

static TRACKS: [Argument; 4] = [
    IN,
    OUT,
    Argument::TextOption(
        "keep",
        "IDS",
        "The ids of the tracks that are kept, as 1,3; `mp4_inspect tracks IN` shows them",
    ),
    CHECK,
];

/// An argument with a value.
fn with_value<'a>(alloc: Global, id: &'a str, value: &'a str, help: &'a str) -> Arg<'a> {
    Arg::new(alloc, id)
        .value_name(value)
        .action(ArgAction::Set)
        .help(help)
}

impl Argument {
    fn arg<'a>(self, alloc: Global) -> Arg<'a> {
        match self {
            Argument::Word(id, value, help) => with_value(alloc, id, value, help).required(true),
            Argument::TextOption(id, value, help) => {
                with_value(alloc, id, value, help).long(id).required(true)
            }
            Argument::Flag(id, help) => {
                Arg::new(alloc, id)
                    .long(id)
                    .action(ArgAction::SetTrue)
                    .help(help)
            }
        }
    }
}

/// What help says of a command.
#[derive(Clone, Copy)]
struct Help<'a> {
    name: &'a str,
    about: &'a str,
    example: &'a str,
}

/// What a file is rewritten as.
#[derive(Clone, Copy)]
pub enum Kind {
    Faststart,
    Gather,
    Tracks,
}

static KINDS: [Kind; 3] = [Kind::Faststart, Kind::Gather, Kind::Tracks];

impl Kind {
    /// The kind of this name.
    pub fn named(name: &str) -> Option<Kind> {
        for kind in &KINDS {
            if kind.help().name == name {
                return Some(*kind);
            }
        }
        None
    }

    fn help<'a>(self) -> Help<'a> {
        match self {
            Kind::Faststart => Help {
                name: "faststart",
                about: "Puts the movie box before the data, so that a player can begin before it has the whole file",
                example: "Example: mp4_remux faststart film.mp4 film-front.mp4",
            },
            Kind::Gather => Help {
                name: "gather",
                about: "Makes of a file of movie fragments one whose samples are in the tables of its movie box",
                example: "Example: mp4_remux gather recording.mp4 film.mp4",
            },
            Kind::Tracks => Help {
                name: "tracks",
                about: "Keeps some tracks alone, with their data; fragments are gathered",
                example: "Example: mp4_remux tracks film.mp4 sound.mp4 --keep 2",
            },
        }
    }

    fn arguments(self) -> &'static [Argument] {
        match self {
            Kind::Faststart | Kind::Gather => &REWRITE,
            Kind::Tracks => &TRACKS,
        }
    }
}

fn args<'a>(alloc: Global, arguments: &[Argument]) -> Result<Vec<Arg<'a>>, AllocError> {
    let mut args = Vec::new(alloc);
    for argument in arguments {
        args.push(argument.arg(alloc))?;
    }
    Ok(args)
}

fn subcommand<'a>(alloc: Global, kind: Kind) -> Result<Command<'a>, AllocError> {
    let help = kind.help();
    let args = args(alloc, kind.arguments())?;
    Command::new(alloc, help.name)
        .about(help.about)
        .after_help(help.example)
        .args(args)
}

fn subcommands<'a>(alloc: Global) -> Result<Vec<Command<'a>>, AllocError> {
    let mut commands = Vec::new(alloc);
    for kind in &KINDS {
        commands.push(subcommand(alloc, *kind)?)?;
    }
    Ok(commands)
}

/// The whole command line. Without a word it prints what `--help` does.
pub fn command<'a>(alloc: Global) -> Result<Command<'a>, AllocError> {
    let subcommands = subcommands(alloc)?;
    Command::new(alloc, "mp4_remux")
        .about("Rewrites MP4 files, with every sample as it was")
        .after_help("Each command has an example: mp4_remux COMMAND --help")
        .subcommand_required(true)
        .arg_required_else_help(true)
        .subcommands(subcommands)
}
