//! Explores small programs of map calls, told in text files: runs them, lists all that they can come to, shows how, and
//! checks what the files claim.
//!
//! What may stand in a file is told in the `README.md` of `mapworld_text`.
#![tactic(auto)]

mod check;
mod column;
mod command;
mod each_file;
mod explore;
mod files;
mod json;
mod late;
mod load;
mod picture;
mod run;
mod shapes;
mod time;
mod why;

use crate::command::{Options, command_line};
use crate::each_file::{Work, each};
use crate::why::Form;
use clap::ArgMatches;
use std::process::ExitCode;
use std::{env, io};

/// Does what the command line asks for; says whether all was as it is to be.
fn obey(rt: &HostRuntime, name: &str, options: &Options<'_, '_>) -> io::Result<bool> {
    match name {
        "run" => each(rt, options, Work::Run),
        "explore" => each(rt, options, Work::Explore),
        "why" => each(rt, options, Work::Tell(Form::Words)),
        "picture" => each(rt, options, Work::Tell(Form::Picture)),
        "time" => time::time(rt, options),
        _ => check::check(rt, options),
    }
}

/// Reads the command line, and does what it asks for.
fn start(rt: &HostRuntime) -> io::Result<ExitCode> {
    let words: Vec<String> = env::args(rt)?.collect(rt.alloc())?;
    follow(rt, &words)
}

/// Does what the words of a command line ask for.
fn follow<'a>(rt: &HostRuntime, words: &'a [String]) -> io::Result<ExitCode> {
    match command_line(rt.alloc()) {
        Ok(command) => match command.try_get_matches_from(words) {
            Ok(matches) => serve(rt, &matches),
            Err(error) => {
                error.print(rt)?;
                Ok(ExitCode::from(error.exit_code() as u8))
            }
        },
        Err(refused) => Err(io::Error::from(refused)),
    }
}

/// Does what a command line asks for.
fn serve(rt: &HostRuntime, matches: &ArgMatches<'_>) -> io::Result<ExitCode> {
    let Some((name, asked)) = matches.subcommand() else {
        return Ok(ExitCode::FAILURE);
    };
    if obey(rt, name, &Options::of(asked))? {
        Ok(ExitCode::SUCCESS)
    } else {
        Ok(ExitCode::FAILURE)
    }
}

fn main(rt: HostRuntime) -> ExitCode {
    match start(&rt) {
        Ok(code) => code,
        Err(error) => {
            let _ = eprintln!(rt; "{error}");
            ExitCode::FAILURE
        }
    }
}
