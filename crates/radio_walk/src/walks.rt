//! The walks, and how they print.
use super::tables::{guest_table, home_table, long_block, table_row};
use joined_radio::Joined;
use masked_radio::Masked;
use plmn::{Code, TechnologySet};
use radio::{Answer, Finder, Registrar};
use std::{fmt, io};
use table_radio::TableRadio;

/// A code by its three bytes.
#[derive(Clone, Copy)]
struct CodeBytes(Code);

impl fmt::Display for CodeBytes {
    fn fmt<W: fmt::Write>(&self, f: &mut fmt::Formatter<W>) -> fmt::Result {
        let Code {
            first,
            second,
            third,
        } = self.0;
        write!(f, "{first:02X}{second:02X}{third:02X}")
    }
}

/// A radio that is walked, and where its answers are printed.
#[derive(Drop)]
struct Walk<'w, R> {
    rt: &'w HostRuntime,
    radio: &'w mut R,
}

impl<R: Registrar> Walk<'_, R> {
    /// Prints the row at a place, or the number of the refusal.
    fn row(&mut self, place: usize) -> io::Result<()> {
        match self.radio.entry(place) {
            Ok(row) => {
                let code = CodeBytes(row.code);
                let technology = row.technology;
                let area = row.area;
                let level = row.level;
                println!(self.rt; "row {place}: {code} {technology} {area} {level}")
            }
            Err(refusal) => println!(self.rt; "row {place}: refused {}", u8::from(refusal)),
        }
    }

    /// Prints how many rows the sky now has, and each of them.
    fn sky(&mut self) -> io::Result<()> {
        let count = self.radio.rows();
        println!(self.rt; "rows: {count}")?;
        for place in 0..count {
            self.row(place)?;
        }
        Ok(())
    }

    /// Tries the row at a place, and prints its answer or the number of the refusal.
    fn attempt(&mut self, place: usize) -> io::Result<()> {
        match self.radio.attempt(place) {
            Ok(Answer::Acceptance(count)) => {
                println!(self.rt; "try {place}: accepted, codes {count}")
            }
            Ok(Answer::Rejection(cause)) => {
                println!(self.rt; "try {place}: rejected, cause {cause}")
            }
            Ok(Answer::Silence) => println!(self.rt; "try {place}: silent"),
            Err(refusal) => println!(self.rt; "try {place}: refused {}", u8::from(refusal)),
        }
    }

    /// Prints the code at an index of the acceptance of the row at a place.
    fn code(&mut self, place: usize, index: usize) -> io::Result<()> {
        let code = CodeBytes(self.radio.accepted_code(place, index));
        println!(self.rt; "code {place} {index}: {code}")
    }

    fn empty(&mut self) -> io::Result<()> {
        self.sky()?;
        self.radio.seek();
        self.sky()?;
        self.row(0)?;
        self.attempt(0)?;
        self.code(0, 0)
    }

    /// The first sky of the nested radio.
    fn nested_first(&mut self) -> io::Result<()> {
        self.sky()?;
        self.code(1, 0)?;
        self.attempt(0)?;
        self.code(1, 0)?;
        self.attempt(1)?;
        self.code(0, 0)?;
        self.code(1, 0)?;
        self.code(1, 1)?;
        self.code(1, 2)?;
        self.code(2, 4)?;
        self.attempt(2)?;
        self.code(2, 4)?;
        self.code(2, 5)?;
        self.attempt(3)?;
        self.code(3, 0)?;
        self.row(5)?;
        self.attempt(5)?;
        self.code(5, 0)
    }

    /// The second sky: the marks of the first are gone.
    fn nested_second(&mut self) -> io::Result<()> {
        self.sky()?;
        self.code(1, 0)?;
        self.attempt(1)?;
        self.code(1, 0)?;
        self.code(0, 0)
    }

    fn nested_skies(&mut self) -> io::Result<()> {
        println!(self.rt; "before a search")?;
        self.sky()?;
        println!(self.rt; "the first sky")?;
        self.radio.seek();
        self.nested_first()?;
        println!(self.rt; "the second sky")?;
        self.radio.seek();
        self.nested_second()?;
        println!(self.rt; "no sky to come")?;
        self.radio.seek();
        self.sky()
    }

    fn beyond(&mut self) -> io::Result<()> {
        println!(self.rt; "fifteen rows and ten")?;
        self.radio.seek();
        self.sky()?;
        self.attempt(14)?;
        self.attempt(19)?;
        self.code(19, 0)?;
        self.row(20)?;
        self.attempt(20)?;
        self.code(20, 0)
    }

    fn alone(&mut self) -> io::Result<()> {
        println!(self.rt; "the ten rows alone")?;
        self.row(9)?;
        self.code(4, 0)?;
        self.code(5, 0)
    }
}

/// A table of no rows has no sky to come.
pub fn no_rows(rt: &HostRuntime) -> io::Result<()> {
    println!(rt; "a table of no rows")?;
    let mut radio = TableRadio::new(&[]);
    let mut walk = Walk {
        rt,
        radio: &mut radio,
    };
    walk.empty()
}

fn walk_nested<R: Registrar>(rt: &HostRuntime, radio: &mut R) -> io::Result<()> {
    let mut walk = Walk { rt, radio };
    walk.nested_skies()
}

/// A table behind a mask of GSM and UTRAN, joined with another table.
pub fn nested(rt: &HostRuntime) -> io::Result<()> {
    let home = home_table();
    let guest = guest_table();
    let technologies = TechnologySet { bits: 0x8080 };
    let masked = Masked::new(TableRadio::new(&home), technologies);
    let mut radio = Joined::new(masked, TableRadio::new(&guest));
    walk_nested(rt, &mut radio)
}

/// Fifteen rows joined with ten: the last five are not shown, and stay untried.
pub fn beyond_twenty(rt: &HostRuntime) -> io::Result<()> {
    let table = long_block();
    let silent = TableRadio::new(&table[..15]);
    let accepting = TableRadio::new(&table[15..]);
    let mut radio = Joined::new(silent, accepting);
    let mut both = Walk {
        rt,
        radio: &mut radio,
    };
    both.beyond()?;
    let mut second = Walk {
        rt,
        radio: &mut radio.second,
    };
    second.alone()
}

/// Of a table of 10,020 rows the first 10,000 are read.
pub fn long_table(rt: &HostRuntime) -> io::Result<()> {
    println!(rt; "a table of 10,020 rows")?;
    let table = vec![in rt.alloc(); table_row(70, 0, Answer::Silence, 0); 10020]?;
    let mut radio = TableRadio::new(&table);
    let mut full: u16 = 0;
    for _ in 0..500 {
        radio.search();
        if radio.count() == 20 {
            full = full.wrapping_add(1);
        }
    }
    println!(rt; "full skies: {full}")?;
    radio.search();
    let count = radio.count();
    println!(rt; "then rows: {count}")
}
