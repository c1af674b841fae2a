//! Plays a scenario: `bench [--words] [FILE]`, from standard input where no file is named. It ends with status 1, and a line on
//! standard error, where the scenario cannot be read.

#![tactic(auto)]

use anyhow::{Result, bail};
use play::{Style, play};
use scenario::read;
use std::io::Read;
use std::process::ExitCode;
use std::{env, fs, io};

/// What the command line asks for.
#[derive(Drop)]
struct Command {
    style: Style,
    path: Option<String>,
}

/// The command line, which names one file at most.
fn command_line(rt: &HostRuntime) -> Result<Command> {
    let mut style = Style::Plain;
    let mut path = None;
    for word in env::args(rt)?.skip(1) {
        if word.as_str() == "--words" {
            style = Style::Words;
        } else if path.is_some() {
            bail!("usage: bench [--words] [FILE]");
        } else {
            path = Some(word);
        }
    }
    Ok(Command { style, path })
}

/// The bytes of the file, or of standard input.
fn source(rt: &HostRuntime, path: &Option<String>) -> io::Result<Vec<u8>> {
    match path {
        Some(path) => fs::read(rt, path.as_str()),
        None => {
            let mut text = Vec::new(rt.alloc());
            rt.stdin().read_to_end(&mut text)?;
            Ok(text)
        }
    }
}

fn run(rt: &HostRuntime) -> Result<()> {
    let command = command_line(rt)?;
    let text = source(rt, &command.path)?;
    let mut scenario = read(rt.alloc(), text.as_slice())?;
    let answers = play(rt.alloc(), &mut scenario, command.style)?;
    rt.print(answers)?;
    Ok(())
}

fn main(rt: HostRuntime) -> ExitCode {
    // as in `examples_play`: a crate for these lines alone would be longer than they are
    match run(&rt) {
        Ok(()) => ExitCode::SUCCESS,
        Err(error) => {
            let _ = rt.eprintln(error);
            ExitCode::FAILURE
        }
    }
}
