use answers::push_settings;
use board::{Board, table_of};
use packed_card::PackedCard;
use plmn::{Settings, TechnologySet};
use scenario::Scenario;
use selector::Off;
use statements::Call;
use std::alloc::{AllocError, Global};
use table_radio::TableRadio;
use told::{tell_call, tell_settings};

/// For a tool, or for a person.
#[derive(Clone, Copy)]
pub enum Style {
    Plain,
    Words,
}

/// The answers of calls on a new selector, for a person.
fn tell_calls(
    heap: Global,
    out: &mut String,
    board: &mut Board,
    settings: Settings,
    calls: &[Call],
) -> Result<(), AllocError> {
    let mut on = Off::new(settings).switch_on();
    for call in calls {
        if let Call::Restart = *call {
            on = on.switch_off().switch_on();
        }
        tell_call(heap, out, board, &mut on, *call)?;
    }
    Ok(())
}

/// Plays a scenario: one answer for each call, or why the settings are refused.
pub fn play(heap: Global, scenario: &mut Scenario, style: Style) -> Result<String, AllocError> {
    let mut out = String::new(heap);
    let supported = TechnologySet {
        bits: scenario.supported,
    };
    let Ok(settings) = Settings::check(supported) else {
        match style {
            Style::Plain => push_settings(&mut out)?,
            Style::Words => tell_settings(&mut out)?,
        }
        return Ok(out);
    };
    // as in `play`: a function for both would lend the board to a closure, and require that it may be called
    let table = table_of(heap, scenario)?;
    let mut board = Board {
        radio: TableRadio::new(table.as_slice()),
        card: PackedCard::new(scenario.image.as_mut_slice(), scenario.directory.as_slice()),
        supported,
    };
    let calls = scenario.calls.as_slice();
    match style {
        Style::Plain => board.print_calls(heap, &mut out, settings, calls)?,
        Style::Words => tell_calls(heap, &mut out, &mut board, settings, calls)?,
    }
    Ok(out)
}
