//! The same calls on two boards of different makes: a bare card and a table radio; a packed card with the same files, and a masked
//! radio joined with one that hears nothing. It makes the call whose contract is the theorem, and prints what each recorder heard.

#![tactic(auto)]

mod air;
mod cards;

use agreement::{Call, play_on_both};
use air::table;
use cards::{bare_card, directory, image};
use joined_radio::Joined;
use masked_radio::Masked;
use packed_card::PackedCard;
use plmn::{Settings, TechnologySet};
use std::io;
use table_radio::TableRadio;
use transcript::Transcript;

const EVERY: TechnologySet = TechnologySet { bits: 0xC080 };

const CALLS: [Call; 18] = [
    Call::Run(1),
    Call::Run(0),
    Call::Loss,
    Call::Loss,
    Call::Run(3),
    Call::Run(0),
    Call::Run(0),
    Call::Loss,
    Call::ChangeMode,
    Call::Run(0),
    Call::Look,
    Call::Pick(1),
    Call::Pick(0),
    Call::Restart,
    Call::Look,
    Call::ChangeMode,
    Call::Run(18446744073709551615),
    Call::Loss,
];

/// How many numbers the trail of each run has, on the first board and on the second: for each run both at least twenty or both fewer.
const FIRST_ROOMS: [usize; 17] = [20, 20, 0, 0, 19, 20, 20, 0, 0, 20, 0, 0, 0, 0, 0, 0, 20];

const SECOND_ROOMS: [usize; 17] = [40, 21, 7, 7, 0, 255, 20, 7, 7, 40, 7, 7, 7, 7, 7, 7, 30];

fn show(rt: &HostRuntime, heading: &str, transcript: &Transcript) -> io::Result<()> {
    println!(rt; "{heading}")?;
    if transcript.outcome.is_err() {
        println!(rt; "not enough memory")?;
    }
    let text = transcript.text.as_str();
    println!(rt; "{text}")
}

fn play(rt: &HostRuntime, settings: Settings) -> io::Result<()> {
    let rows = table();
    let mut bytes = image();
    let files = directory();
    let mut table_radio = TableRadio::new(&rows);
    let mut joined_radio = Joined::new(
        Masked::new(TableRadio::new(&rows), EVERY),
        TableRadio::new(&rows[0..0]),
    );
    let mut bare = bare_card();
    let mut packed = PackedCard::new(&mut bytes, &files);
    let mut first = Transcript::new(rt.alloc());
    let mut second = Transcript::new(rt.alloc());
    let mut trail = [0; 20];
    let mut other = [99; 40];
    let _ = play_on_both(
        settings,
        &CALLS,
        &mut table_radio,
        &mut bare,
        &mut first,
        &mut trail,
        &FIRST_ROOMS,
        &mut joined_radio,
        &mut packed,
        &mut second,
        &mut other,
        &SECOND_ROOMS,
    );
    show(rt, "bare card and table radio:", &first)?;
    show(rt, "packed card and joined radio:", &second)
}

fn main(rt: HostRuntime) -> io::Result<()> {
    match Settings::check(EVERY) {
        Ok(settings) => play(&rt, settings),
        Err(_) => println!(rt; "no technology is supported"),
    }
}
