//! A card that counts the questions it is asked, to measure what a call costs on a slow card.

#![tactic(auto)]

ghost use Rattle.std.specs.Prelude.{◌≡◌, ◌≤◌, max, replicate, IfSome, fold};
ghost use Rattle.counting_card.specs.Counts.{slot_of, noted};

use card::{Card, EF_AD, EF_EHPLMN, EF_FPLMN, EF_IMSI, EF_LOCI, EF_OPLMN_W_ACT, EF_PLMN_W_ACT};
use refusal::Refusal;

/// Any card, with its meaning, and how often each byte of the seven known files was asked.
#[derive(Drop)]
pub struct CountingCard<C> {
    card: C,
    questions: u64,
    times: [u8; 1680],
}

/// Where the counts of a known file begin.
fn slot(file: u16) -> Option<usize>
    ensures value { result ≡ slot_of file }
    ensures within { IfSome result (λ start. start ≤ 1440) }
{
    match file {
        EF_IMSI => Some(0),
        EF_AD => Some(240),
        EF_FPLMN => Some(480),
        EF_LOCI => Some(720),
        EF_EHPLMN => Some(960),
        EF_PLMN_W_ACT => Some(1200),
        EF_OPLMN_W_ACT => Some(1440),
        _ => None,
    }
}

/// One byte of a known file was asked once more.
fn note(times: &mut [u8; 1680], file: u16, at: usize)
    ensures { times.new ≡ noted (slot_of file) at times.old }
{
    if let Some(start) = slot(file) {
        if at < 240 {
            let n = times[start + at];
            times[start + at] = n.saturating_add(1);
        }
    }
}

fn largest(times: &[u8]) -> u8
    ensures { result ≡ fold max 0 times.now }
{
    times.iter().fold(0, |most, n| most.max(*n))
}

impl<C: Card> CountingCard<C> {
    pub fn new(card: C) -> CountingCard<C>
        ensures card { result.card ≡ card }
        ensures questions { result.questions ≡ 0 }
        ensures times { result.times ≡ replicate 1680 0 }
    {
        CountingCard {
            card,
            questions: 0,
            times: [0; 1680],
        }
    }

    /// How many questions the card was asked, for lengths and for bytes.
    pub fn questions(&self) -> u64
        ensures { result ≡ self.now.questions }
    {
        self.questions
    }

    /// How often the byte was asked that was asked most often.
    pub fn most_often(&self) -> u8
        ensures { result ≡ fold max 0 self.now.times }
    {
        largest(&self.times)
    }
}

impl<C: Card> Card for CountingCard<C> {
    ghost files = { λ s. C.Card.files s.card };

    ghost small = { λ s n. C.Card.small s.card n };

    fn length(&mut self, file: u16) -> Option<usize> {
        self.questions = self.questions.saturating_add(1);
        self.card.length(file)
    }

    fn byte(&mut self, file: u16, at: usize) -> Result<u8, Refusal> {
        self.questions = self.questions.saturating_add(1);
        note(&mut self.times, file, at);
        self.card.byte(file, at)
    }

    fn update(&mut self, file: u16, start: usize, bytes: &[u8]) -> Result<(), Refusal> {
        self.card.update(file, start, bytes)
    }
}
