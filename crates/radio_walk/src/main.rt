//! Walks radios over tables that are written down here, and prints each sky, each answer and each refusal.

#![tactic(auto)]

mod tables;
mod walks;

use std::io;
use walks::{beyond_twenty, long_table, nested, no_rows};

fn main(rt: HostRuntime) -> io::Result<()> {
    no_rows(&rt)?;
    nested(&rt)?;
    beyond_twenty(&rt)?;
    long_table(&rt)
}
