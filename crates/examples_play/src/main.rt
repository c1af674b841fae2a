//! Plays the scenarios of `examples/` that are named on the command line, one after the other. `data/` holds the same files.

#![tactic(auto)]

use anyhow::Result;
use scenario::read;
use std::process::ExitCode;
use std::{env, fs};
use told_play::{Style, play};

/// The name of a scenario's file, then its answers.
fn show(rt: &HostRuntime, path: &str) -> Result<()> {
    let text = fs::read(rt, path)?;
    let mut scenario = read(rt.alloc(), text.as_slice())?;
    let answers = play(rt.alloc(), &mut scenario, Style::Plain)?;
    println!(rt; "{path}")?;
    rt.print(answers)?;
    Ok(())
}

fn run(rt: &HostRuntime) -> Result<()> {
    for word in env::args(rt)?.skip(1) {
        show(rt, word.as_str())?;
    }
    Ok(())
}

/// Ends with status 1 where a scenario cannot be played; why stands on standard error.
fn main(rt: HostRuntime) -> ExitCode {
    // as in `bench`: a crate for these lines alone would be longer than they are
    match run(&rt) {
        Ok(()) => ExitCode::SUCCESS,
        Err(error) => {
            let _ = rt.eprintln(error);
            ExitCode::FAILURE
        }
    }
}
