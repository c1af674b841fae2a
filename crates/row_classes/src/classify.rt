ghost use Rattle.std.specs.Prelude.{◌≡◌};
ghost use Rattle.entry_list.specs.Lists.{list_of};
ghost use Rattle.plmn.specs.Technologies.{with_number};
ghost use Rattle.row_classes.specs.Classes.{high_from, high_quality as isHighQuality, bit_at, list_position, code_position, is_code as isThatCode, home_served, listed_class, class_of};
ghost use Rattle.row_classes.specs.Preferred.{facts_of};

use super::allowed::some_allowed;
use super::class::Class;
use super::facts::Preferences;
use entry_list::EntryList;
use plmn::{Code, Row, Technology, TechnologySet};

/// The least level of high quality, in dBm.
fn high_from(technology: Technology) -> i16
    ensures { result ≡ high_from technology }
{
    match technology {
        Technology::Eutran => -110,
        Technology::Utran => -95,
        Technology::Gsm => -85,
    }
}

fn is_high_quality(row: Row) -> bool
    ensures { result ≡ isHighQuality row }
{
    Technology::try_from(row.technology).is_ok_and(|t| row.level >= high_from(t))
}

/// The set of a technology number alone; a number that stands for no technology gives the empty set.
fn alone(number: u8) -> TechnologySet
    ensures { result.bits ≡ bit_at (with_number number) }
{
    Technology::try_from(number).map_or(TechnologySet { bits: 0 }, TechnologySet::from)
}

/// The position of a row in a list: the first entry that counts with its code and technology.
fn list_position(list: &EntryList, row: Row, supported: TechnologySet) -> Option<usize>
    ensures { result ≡ list_position supported.bits row (list_of list.now) }
{
    list.position(supported, row.code, alone(row.technology))
}

/// The position of a code among codes.
fn code_position(codes: &[Code], code: Code) -> Option<usize>
    ensures { result ≡ code_position code codes.now }
{
    codes.iter().position(|c| *c == code)
}

fn is_code(known: Option<Code>, code: Code) -> bool
    ensures { result ≡ isThatCode known code }
{
    known == Some(code)
}

/// The first home code that has an allowed row.
pub fn served_home(rows: &[Row], preferences: &Preferences) -> Option<Code>
    ensures { result ≡ home_served (facts_of preferences.now) rows.now }
{
    let home = preferences.card.home.codes();
    let forbidden = preferences.card.forbidden.codes();
    home.iter().copied().find(|code| some_allowed(rows, *code, preferences.supported, forbidden))
}

/// The class of a row of neither the registered code nor an equivalent one nor the served home code.
fn listed_class(row: Row, preferences: &Preferences) -> Class
    ensures { result ≡ listed_class (facts_of preferences.now) row }
{
    let supported = preferences.supported;
    if let Some(p) = list_position(&preferences.card.user, row, supported) {
        Class::User(p)
    } else if let Some(p) = list_position(&preferences.card.operator, row, supported) {
        Class::Operator(p)
    } else if is_high_quality(row) {
        Class::HighQuality
    } else {
        Class::Rest
    }
}

/// The class of an allowed row, where `home` is the home code that is served.
pub fn class_of(row: Row, preferences: &Preferences, home: Option<Code>) -> Class
    ensures { result ≡ class_of (facts_of preferences.now) home row }
{
    if is_code(preferences.card.registered, row.code) {
        Class::Registered
    } else if let Some(p) = code_position(preferences.equivalents.codes(), row.code) {
        Class::Equivalent(p)
    } else if is_code(home, row.code) {
        Class::Home
    } else {
        listed_class(row, preferences)
    }
}
