//! The command line.

use crate::load::Keys;
use clap::{Arg, ArgAction, ArgMatches, Command};
use mapworld_explorer::Limits;
use std::alloc::{AllocError, Global};

/// What a command line says beside the name of its command.
#[derive(Clone, Copy)]
pub struct Options<'m, 'a> {
    matches: &'m ArgMatches<'a>,
}

impl<'m, 'a> Options<'m, 'a> {
    pub fn of(matches: &'m ArgMatches<'a>) -> Options<'m, 'a> {
        Options { matches }
    }

    /// The files that are named; each command wants one at least.
    pub fn files(&self) -> Option<&'m [&'a str]> {
        self.matches.get_strs("file")
    }

    /// The words that say which outcome is meant.
    pub fn outcome(&self) -> Option<&'m [&'a str]> {
        self.matches.get_strs("outcome")
    }

    /// The name of the case that is meant, where one is told.
    pub fn case(&self) -> Option<&'a str> {
        self.matches.get_str("case")
    }

    /// How far searches go.
    pub fn limits(&self) -> Limits {
        Limits {
            states: self.matches.get_one::<usize>("states").unwrap_or(1_000_000),
            steps: self.matches.get_one::<usize>("steps").unwrap_or(10_000),
        }
    }

    /// Whether each order of steps is tried, also of those that nobody else sees.
    pub fn is_plain(&self) -> bool {
        self.matches.get_flag("plain")
    }

    pub fn is_json(&self) -> bool {
        self.matches.get_flag("json")
    }

    /// How many threads a world has that is timed.
    pub fn threads(&self) -> usize {
        self.matches.get_one::<usize>("threads").unwrap_or(5)
    }

    /// How many calls they make in all.
    pub fn calls(&self) -> usize {
        self.matches.get_one::<usize>("calls").unwrap_or(200)
    }

    /// Which keys they call.
    pub fn keys(&self) -> Keys {
        if self.matches.get_flag("one") {
            Keys::One
        } else {
            Keys::Apart
        }
    }
}

/// What may stand in a command line: its name, and for the help what its value is called and what it is.
#[derive(Clone, Copy)]
enum Said {
    /// A word that has to be there.
    One(&'static str, &'static str, &'static str),
    /// Words, of which one has to be there.
    Some(&'static str, &'static str, &'static str),
    /// An option with a word.
    Word(&'static str, &'static str, &'static str),
    /// An option with a number.
    Number(&'static str, &'static str),
    /// An option alone.
    Flag(&'static str, &'static str),
}

const FILE: Said = Said::One("file", "FILE", "a file of cases");

const FILES: Said = Said::Some("file", "FILES", "files of cases");

const OUTCOME: Said = Said::Some(
    "outcome",
    "OUTCOME",
    "its number, or words of it, as a.0=none contents 1=10; or run, for the case's own schedule",
);

const CASE: Said = Said::Word(
    "case",
    "NAME",
    "the case of the file that is meant, if not the first",
);

const STATES: Said = Said::Number("states", "stop behind so many states");

const STEPS: Said = Said::Number("steps", "stop schedules behind so many steps");

const PLAIN: Said = Said::Flag("plain", "try each order of all steps, as a test");

const JSON: Said = Said::Flag("json", "for other programs");

const THREADS: Said = Said::Number("threads", "so many threads; 5 if not told");

const CALLS: Said = Said::Number("calls", "so many calls in all; 200 if not told");

const ONE: Said = Said::Flag("one", "all threads call one key, and not each its own");

/// A command: its name, what it does, and what may stand behind it.
#[derive(Clone, Copy)]
struct Told {
    name: &'static str,
    about: &'static str,
    said: &'static [Said],
}

const COMMANDS: &[Told] = &[
    Told {
        name: "run",
        about: "Run the cases of a file by their own schedules, and show what came of it",
        said: &[FILE],
    },
    Told {
        name: "explore",
        about: "List all that the cases of a file can come to, by every schedule",
        said: &[STATES, STEPS, PLAIN, FILE, CASE, JSON],
    },
    Told {
        name: "why",
        about: "Tell a shortest schedule to an outcome, step by step",
        said: &[STATES, STEPS, PLAIN, FILE, OUTCOME, CASE],
    },
    Told {
        name: "picture",
        about: "Draw that schedule, as a page of HTML",
        said: &[STATES, STEPS, PLAIN, FILE, OUTCOME, CASE],
    },
    Told {
        name: "check",
        about: "Play the cases of files, and test what they claim of all schedules",
        said: &[STATES, STEPS, PLAIN, FILES],
    },
    Told {
        name: "time",
        about: "Run a world with many calls, and tell what a step of it took",
        said: &[THREADS, CALLS, ONE],
    },
];

/// A word that has to be there, or words.
fn word<'a>(alloc: Global, name: &'static str, value: &'static str) -> Arg<'a> {
    Arg::new(alloc, name).value_name(value).required(true)
}

/// An option with a value.
fn option<'a>(alloc: Global, name: &'static str, value: &'static str) -> Arg<'a> {
    let arg = Arg::new(alloc, name).long(name).value_name(value);
    arg.action(ArgAction::Set)
}

fn arg_of<'a>(alloc: Global, said: Said) -> Arg<'a> {
    match said {
        Said::One(name, value, help) => {
            word(alloc, name, value).action(ArgAction::Set).help(help)
        }
        Said::Some(name, value, help) => {
            let arg = word(alloc, name, value).action(ArgAction::Append);
            arg.num_args(1..).help(help)
        }
        Said::Word(name, value, help) => option(alloc, name, value).help(help),
        Said::Number(name, help) => {
            let arg = option(alloc, name, "N").help(help);
            arg.value_parser(clap::value_parser!(usize))
        }
        Said::Flag(name, help) => {
            let arg = Arg::new(alloc, name).long(name).help(help);
            arg.action(ArgAction::SetTrue)
        }
    }
}

/// The arguments of a command.
fn args_of<'a>(alloc: Global, said: &[Said]) -> Result<Vec<Arg<'a>>, AllocError> {
    let mut args = Vec::new(alloc);
    for one in said {
        args.push(arg_of(alloc, *one))?;
    }
    Ok(args)
}

fn command_of<'a>(alloc: Global, told: &Told) -> Result<Command<'a>, AllocError> {
    let args = args_of(alloc, told.said)?;
    Command::new(alloc, told.name).about(told.about).args(args)
}

fn commands_of<'a>(alloc: Global, all: &[Told]) -> Result<Vec<Command<'a>>, AllocError> {
    let mut commands = Vec::new(alloc);
    for told in all {
        commands.push(command_of(alloc, told)?)?;
    }
    Ok(commands)
}

/// The whole of it.
pub fn command_line<'a>(alloc: Global) -> Result<Command<'a>, AllocError> {
    let commands = commands_of(alloc, COMMANDS)?;
    Command::new(alloc, "mapworld_explore")
        .about("Every schedule of small programs of map calls")
        .subcommand_required(true)
        .subcommands(commands)
}
