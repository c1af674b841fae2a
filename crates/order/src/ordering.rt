ghost use Rattle.std.specs.Prelude.{◌≡◌, ◌≤◌, length};
ghost use Rattle.ranking.specs.Lists.{keys_in, order_in};
ghost use Rattle.ranking.specs.Orders.{Ordered};
ghost use Rattle.order.specs.Keys.{technology_rank, key_in, key_of, keys_from, found, keys_of, order_of};
ghost use Rattle.row_classes.specs.Classes.{class_number, class_position};
ghost use Rattle.row_classes.specs.Preferred.{facts_of};
ghost use Rattle.plmn.specs.Technologies.{with_number};

use plmn::{Code, Row, Technology};
use ranking::{Key, Keys, RowOrder};
use row_classes::{Class, Preferences, class_of, is_allowed, served_home};
use std::cmp::Reverse;

/// E-UTRAN precedes UTRAN, which precedes GSM.
// A number: a type with this order would need the same match to be made, and one more value for the rows that the draw takes.
fn technology_rank(number: u8) -> u8
    ensures { result ≡ technology_rank (with_number number) }
{
    match Technology::try_from(number) {
        Ok(Technology::Eutran) => 0,
        Ok(Technology::Utran) => 1,
        Ok(Technology::Gsm) => 2,
        Err(_) => 3,
    }
}

/// The number of a class. Classes take their turns in the order of their numbers.
fn class_number(class: Class) -> u8
    ensures { result ≡ class_number class }
{
    match class {
        Class::Registered => 1,
        Class::Equivalent(_) => 2,
        Class::Home => 3,
        Class::User(_) => 4,
        Class::Operator(_) => 5,
        Class::HighQuality => 6,
        Class::Rest => 7,
    }
}

/// The position of a row in the list that its class goes by; 0 where it goes by none.
fn class_position(class: Class) -> usize
    ensures { result ≡ class_position class }
{
    match class {
        Class::Equivalent(p) | Class::User(p) | Class::Operator(p) => p,
        Class::Registered | Class::Home | Class::HighQuality | Class::Rest => 0,
    }
}

/// The key of an allowed row, without its place. Rows of high quality differ by their places alone, since the draw takes them.
fn key_in(class: Class, row: Row) -> Key
    ensures { result ≡ key_in class row }
{
    let (rank, level) = match class {
        Class::HighQuality => (0, 0),
        _ => (technology_rank(row.technology), row.level),
    };
    Key {
        class: class_number(class),
        position: class_position(class),
        rank,
        level: Reverse(level),
        place: 0,
    }
}

/// The key of a row, where it is allowed.
fn key_of(row: Row, preferences: &Preferences, home: Option<Code>) -> Option<Key>
    ensures { result ≡ key_of (facts_of preferences.now) home row }
{
    let forbidden = preferences.card.forbidden.codes();
    let allowed = is_allowed(row, preferences.supported, forbidden);
    allowed.then(|| key_in(class_of(row, preferences, home), row))
}

fn keys_of(rows: &[Row], preferences: &Preferences, home: Option<Code>) -> Keys
    requires { length rows.now ≤ 20 }
    ensures { keys_in result ≡ keys_from (facts_of preferences.now) home 0 rows.now }
{
    let mut keys = Keys::none();
    for row in rows {
        keys.push(key_of(*row, preferences, home));
    }
    keys
}

fn first_twenty(rows: &[Row]) -> &[Row]
    ensures value { result.now ≡ found rows.now }
    ensures small { length result.now ≤ 20 }
{
    &rows[..rows.len().min(20)]
}

/// The allowed rows in the order of their turns. Only the first twenty rows count.
pub fn order_rows(rows: &[Row], preferences: &Preferences, draw: u64) -> RowOrder
    ensures value { order_in result ≡ order_of (facts_of preferences.now) rows.now draw }
    ensures ordered { Ordered (keys_of (facts_of preferences.now) rows.now) draw (order_in result) }
{
    let sky = first_twenty(rows);
    let home = served_home(sky, preferences);
    keys_of(sky, preferences, home).order(draw)
}
