ghost use Rattle.std.specs.Prelude.{◌≡◌, true, false, MatchOption};
ghost use Rattle.causes.specs.Closing.{closed};
ghost use Rattle.order.specs.Facts.{allowed as allowedRow};
ghost use Rattle.tries.specs.Turns.{barred, shut};
ghost use Rattle.fates.specs.Reasons.{Hinders, Closer, Ender, ended, Keeps};

use super::reason::{Hindrance, Reason};
use causes::Heard;
use plmn::{Area, Code, Row, TechnologySet};
use short_list::holds_in;

/// Why a row is not allowed; nothing where it is.
pub fn hindrance(row: Row, supported: TechnologySet, forbidden: &[Code]) -> Option<Hindrance>
    ensures { MatchOption result (allowedRow supported.bits forbidden.now row ≡ true)
        (λ h. (allowedRow supported.bits forbidden.now row ≡ false) × Hinders supported.bits forbidden.now row h) }
{
    if !supported.has_number(row.technology) {
        Some(Hindrance::Technology)
    } else if !row.code.is_valid() {
        Some(Hindrance::InvalidCode)
    } else if holds_in(forbidden, row.code) {
        Some(Hindrance::Forbidden)
    } else {
        None
    }
}

/// The first of what was heard that closes the row.
fn closer(done: &[Heard], row: Row) -> Option<usize>
    ensures { MatchOption result (closed done.now row ≡ false) (Closer done.now row) }
{
    // a loop: with `position` this contract did not prove
    for (i, heard) in done.iter().enumerate() {
        if heard.closes_row(row) {
            return Some(i);
        }
    }
    None
}

/// The first of what was heard that ended the run.
fn ender(done: &[Heard]) -> Option<usize>
    ensures { MatchOption result (ended done.now ≡ false) (Ender done.now) }
{
    // a loop: with `position` this contract did not prove
    for (i, heard) in done.iter().enumerate() {
        if heard.ends_run() {
            return Some(i);
        }
    }
    None
}

/// Why an allowed row was not tried at its turn, where `done` was heard before it in this run and the lists are those at its
/// start; nothing where it was open and the run not at its end, so that it was tried.
pub fn reason_not_tried(
    row: Row,
    roaming: &[Area],
    regional: &[Area],
    done: &[Heard],
) -> Option<Reason>
    ensures { MatchOption result ((ended done.now ≡ false) × (shut (barred roaming.now regional.now) done.now row ≡ false))
        (Keeps roaming.now regional.now done.now row) }
{
    if let Some(i) = ender(done) {
        return Some(Reason::NotReached(i));
    }
    let area = Area::from(row);
    if holds_in(roaming, area) {
        return Some(Reason::RoamingArea);
    }
    if holds_in(regional, area) {
        return Some(Reason::RegionalArea);
    }
    closer(done, row).map(Reason::Closed)
}
