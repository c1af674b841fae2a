ghost use Rattle.std.specs.Prelude.{◌≡◌, fold};
ghost use Rattle.plmn.specs.Areas.{same_area, empty_area};
ghost use Rattle.short_list.specs.Places.{stored};
ghost use Rattle.effects.specs.Kept.{by_effect, affected};
ghost use Rattle.effects.specs.Lists.{lists_of};

use causes::{Effect, Heard, rule_of};
use plmn::{Area, Code, Row};
use radio::Answer;
use short_list::{ShortList, holds_in};
use subscriber::CodeList;

/// The lists that an answer can change: the forbidden list as it was read from the card, and the two area lists.
#[derive(Clone, Copy)]
pub struct Lists {
    pub forbidden: CodeList,
    pub roaming: [Area; 10],
    pub regional: [Area; 10],
}

fn store_area(places: &mut [Area], area: Area)
    ensures { places.new ≡ stored same_area empty_area area places.old }
{
    let mut list = ShortList::new(places);
    let _ = list.store(area);
}

impl Lists {
    /// What a rejection of a row with this effect does to the lists.
    fn reject(&mut self, home: &[Code], row: Row, effect: Effect)
        ensures { lists_of self.new ≡ by_effect home.now (lists_of self.old) row effect }
    {
        match effect {
            Effect::Nothing | Effect::Lock => {}
            Effect::Forbid => {
                if !holds_in(home, row.code) {
                    self.forbidden.store(row.code);
                }
            }
            Effect::Regional => store_area(&mut self.regional, Area::from(row)),
            Effect::Roaming => store_area(&mut self.roaming, Area::from(row)),
        }
    }

    /// What an answer does to the lists.
    pub fn hear(&mut self, home: &[Code], heard: Heard)
        ensures { lists_of self.new ≡ affected home.now (lists_of self.old) heard }
    {
        match heard.answer {
            Answer::Acceptance(_) => self.forbidden.remove(heard.row.code),
            Answer::Rejection(cause) => self.reject(home, heard.row, rule_of(cause).effect),
            Answer::Silence => {}
        }
    }

    /// What the answers of tried rows do to the lists, in the order of the tries.
    pub fn hear_all(self, home: &[Code], heard: &[Heard]) -> Lists
        ensures { lists_of result ≡ fold (affected home.now) (lists_of self) heard.now }
    {
        hear_each(self, home, heard)
    }
}

fn hear_each(lists: Lists, home: &[Code], heard: &[Heard]) -> Lists
    ensures { lists_of result ≡ fold (affected home.now) (lists_of lists) heard.now }
{
    let mut after = lists;
    for h in heard {
        after.hear(home, *h);
    }
    after
}
