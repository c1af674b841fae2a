//! Reads hand-made cards and prints what is read, to be compared with values that were worked out by hand.

#![tactic(auto)]

use card::{BareCard, Card, EF_PLMN_W_ACT, take_file};
use counting_card::CountingCard;
use entry_list::{EntryKind, EntryList, FullEntry};
use packed_card::{Entry, PackedCard};
use plmn::{Code, TechnologySet};
use refusal::Refusal;
use std::io;
use subscriber::{Identity, Subscriber};

const SUPPORTED: TechnologySet = TechnologySet { bits: 0xC080 };

/// An image with the seven files one after another, 57 bytes in all.
const IMAGE: [u8; 57] = [
    0x08, 0x09, 0x10, 0x10, 0x10, 0x32, 0x54, 0x76, 0x98, // 6F07
    0x00, 0x00, 0x00, 0x02, // 6FAD
    0xFF, 0xFF, 0xFF, 0x62, 0xF2, 0x20, 0xFF, 0xFF, 0xFF, 0xFF, 0xFF, 0xFF, // 6F7B
    0xFF, 0xFF, 0xFF, 0xFF, 0x22, 0xF8, 0x10, 0x00, 0x07, 0xFF, 0x00, // 6F7E
    0xFF, 0xFF, 0xFF, 0x00, 0xF1, 0x10, // 6FD9
    0xFF, 0xFF, 0xFF, 0x00, 0x00, 0x62, 0xF2, 0x20, 0x80, 0x00, // 6F60
    0x02, 0xF8, 0x01, 0x00, 0x00, // 6F61
];

const DIRECTORY: [Entry; 7] = [
    Entry {
        file: 0x6F07,
        start: 0,
        length: 9,
    },
    Entry {
        file: 0x6FAD,
        start: 9,
        length: 4,
    },
    Entry {
        file: 0x6F7B,
        start: 13,
        length: 12,
    },
    Entry {
        file: 0x6F7E,
        start: 25,
        length: 11,
    },
    Entry {
        file: 0x6FD9,
        start: 36,
        length: 6,
    },
    Entry {
        file: 0x6F60,
        start: 42,
        length: 10,
    },
    Entry {
        file: 0x6F61,
        start: 52,
        length: 5,
    },
];

fn print_code(rt: &HostRuntime, label: &str, code: Code) -> io::Result<()> {
    let Code {
        first,
        second,
        third,
    } = code;
    println!(rt; "{label} {first:02X} {second:02X} {third:02X}")
}

fn print_position(rt: &HostRuntime, label: &str, position: Option<usize>) -> io::Result<()> {
    match position {
        Some(i) => println!(rt; "{label} {i}"),
        None => println!(rt; "{label} none"),
    }
}

/// A list's first entry is a hole, and its second is the one that matters.
fn past_a_hole<C: Card>(rt: &HostRuntime, card: &mut C) -> io::Result<()> {
    let user = EntryList::read::<FullEntry>(&take_file(card, EF_PLMN_W_ACT));
    let code = Code::new(0x62, 0xF2, 0x20);
    let utran = TechnologySet { bits: 0x8000 };
    let gsm = TechnologySet { bits: 0x0080 };
    print_position(rt, "UTRAN entry", user.position(SUPPORTED, code, utran))?;
    print_position(rt, "GSM entry", user.position(SUPPORTED, code, gsm))?;
    print_position(rt, "unsupported", user.position(gsm, code, utran))
}

fn print_subscriber(rt: &HostRuntime, s: &Subscriber) -> io::Result<()> {
    match s.registered {
        Some(code) => print_code(rt, "registered", code)?,
        None => println!(rt; "registered none")?,
    }
    for code in s.home.codes() {
        print_code(rt, "home", *code)?;
    }
    for code in s.forbidden.codes() {
        print_code(rt, "forbidden", *code)?;
    }
    let user = s.user.entries().len();
    let operator = s.operator.entries().len();
    println!(rt; "user {user}, operator {operator}")
}

fn print_refusal(rt: &HostRuntime, e: Refusal) -> io::Result<()> {
    let n = u8::from(e);
    match e {
        Refusal::NeededFile(file, _) => println!(rt; "refused {n} {file:04X}"),
        _ => println!(rt; "refused {n}"),
    }
}

/// Reads all that a run takes, and says how often the card was asked.
fn print_reading<C: Card + Drop>(rt: &HostRuntime, card: C) -> io::Result<()> {
    let mut counting = CountingCard::new(card);
    match Identity::read(&mut counting) {
        Ok(identity) => {
            print_code(rt, "IMSI code", identity.imsi_code)?;
            let s = Subscriber::read(&mut counting, &identity);
            print_subscriber(rt, &s)?;
        }
        Err(e) => print_refusal(rt, e)?,
    }
    let asked = counting.questions();
    let most = counting.most_often();
    println!(rt; "questions {asked}, a byte at most {most}")
}

fn bare(admin: [u8; 4]) -> BareCard {
    BareCard::new(
        [0x08, 0x09, 0x10, 0x10, 0x10, 0x32, 0x54, 0x76, 0x98],
        admin,
        [0xFF; 12],
        [0xFF; 11],
    )
}

fn main(rt: HostRuntime) -> io::Result<()> {
    let mut image = IMAGE;
    past_a_hole(&rt, &mut PackedCard::new(&mut image, &DIRECTORY))?;
    print_reading(&rt, PackedCard::new(&mut image, &DIRECTORY))?;
    print_reading(&rt, PackedCard::new(&mut image, &DIRECTORY[0..3]))?;
    print_reading(&rt, PackedCard::new(&mut image[0..24], &DIRECTORY))?;
    print_reading(&rt, bare([0, 0, 0, 3]))?;
    print_reading(&rt, bare([0, 0, 0, 4]))
}
