use super::wording::Teller;
use answers::push_settings;
use board::{Board, table_of};
use packed_card::PackedCard;
use plmn::{Settings, TechnologySet};
use scenario::Scenario;
use selector::{Off, On};
use statements::Call;
use std::alloc::{AllocError, Global};
use table_radio::TableRadio;

/// For a tool, or for a person.
#[derive(Clone, Copy)]
pub enum Style {
    Plain,
    Words,
}

/// Plays a call for a person.
fn tell_call(
    heap: Global,
    out: &mut String,
    board: &mut Board,
    on: &mut On,
    call: Call,
) -> Result<(), AllocError> {
    let mut teller = Teller {
        heap,
        out,
        radio: &mut board.radio,
        card: &mut board.card,
        supported: board.supported,
    };
    match call {
        Call::Card => teller.tell_card(),
        Call::Run(draw, room) => teller.tell_run(on, draw, room),
        Call::Look => {
            teller.print_call(on, call)?;
            teller.tell_sky()
        }
        Call::Marks | Call::Pick(_) | Call::Mode | Call::Restart => teller.print_call(on, call),
    }
}

/// The answers of calls on a new selector, for a person.
fn tell_calls(
    heap: Global,
    out: &mut String,
    board: &mut Board,
    settings: Settings,
    calls: &[Call],
) -> Result<(), AllocError> {
    let mut on = Off::new(settings).switch_on();
    for call in calls {
        tell_call(heap, out, board, &mut on, *call)?;
    }
    Ok(())
}

/// Plays a scenario: one answer for each call, or why the settings are refused.
pub fn play(heap: Global, scenario: &mut Scenario, style: Style) -> Result<String, AllocError> {
    let mut out = String::new(heap);
    let supported = TechnologySet {
        bits: scenario.supported,
    };
    let Ok(settings) = Settings::check(supported) else {
        push_settings(&mut out)?;
        return Ok(out);
    };
    // as in `told_play`: a function for both would lend the board to a closure, and require that it may be called
    let table = table_of(heap, scenario)?;
    let mut board = Board {
        radio: TableRadio::new(table.as_slice()),
        card: PackedCard::new(scenario.image.as_mut_slice(), scenario.directory.as_slice()),
        supported,
    };
    let calls = scenario.calls.as_slice();
    match style {
        Style::Plain => board.print_calls(heap, &mut out, settings, calls)?,
        Style::Words => tell_calls(heap, &mut out, &mut board, settings, calls)?,
    }
    Ok(out)
}
