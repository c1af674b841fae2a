ghost use Rattle.std.specs.Prelude.{◌≡◌};
ghost use Rattle.std.specs.Iterator.{YieldsFirstRef, item_count};
ghost use Rattle.words.specs.Lines.{lines_of};
ghost use Rattle.scenario.specs.Boards.{board_of};
ghost use Rattle.scenario.specs.Outcomes.{Due};
ghost use Rattle.scenario.specs.Texts.{with_line, read_text, DueText, InText};

use super::scenarios::Scenario;
use statements::{Fault, Reason, parse};
use std::alloc::Global;
use words::{first_line, without_return};

fn read_line(scenario: &mut Scenario, line: &[u8]) -> Result<(), Reason>
    ensures { Due (with_line (board_of scenario.old) line.now) result (board_of scenario.new) }
{
    scenario.add(parse(without_return(line))?)
}

/// The lines of a text.
#[derive(Drop)]
struct Lines<'a>(&'a [u8]);

impl<'a> Iterator for Lines<'a> {
    type Item = &'a [u8];

    ghost next_gives = { YieldsFirstRef (λ s. lines_of s.0.now) };

    ghost remaining = { item_count (λ s. lines_of s.0.now) };

    fn next(&mut self) -> Option<&'a [u8]> {
        if self.0.is_empty() {
            return None;
        }
        let cut = first_line(self.0);
        self.0 = cut.rest;
        Some(cut.line)
    }
}

/// The scenario that a text writes, or its first line that cannot be read.
pub fn read(heap: Global, text: &[u8]) -> Result<Scenario, Fault>
    ensures value { DueText (read_text text.now) result }
    ensures small { InText text.now result }
{
    let mut scenario = Scenario::empty(heap);
    for (line, words) in Lines(text).enumerate() {
        if let Err(reason) = read_line(&mut scenario, words) {
            let line = line + 1;
            return Err(Fault { line, reason });
        }
    }
    Ok(scenario)
}
