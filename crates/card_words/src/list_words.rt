use bounded::Bounded;
use entry_list::Listed;
use names::{Network, Networks, technologies};
use plmn::{Code, TechnologySet};
use std::alloc::AllocError;

fn is_hole(entry: &Listed) -> bool {
    entry.code == Code::EMPTY
}

/// The codes of the entries that are no holes, or `none`. A list on a card has at most eighty.
pub(crate) fn write_codes(out: &mut String, entries: &[Listed]) -> Result<(), AllocError> {
    let mut codes = Bounded::<Code, 80>::new(Code::EMPTY);
    for entry in entries {
        codes.push(entry.code);
    }
    write!(out, "{}", Networks(codes.as_slice()))
}

/// A line for an entry, with its position.
fn write_entry(
    out: &mut String,
    position: usize,
    entry: Listed,
    supported: TechnologySet,
) -> Result<(), AllocError> {
    let network = Network(entry.code);
    let on = technologies(entry.technologies);
    if entry.technologies.meets(supported) {
        writeln!(out, "    {position:>2}  {network:<7}  {on}")
    } else {
        writeln!(out, "    {position:>2}  {network:<7}  {on} (ignored)")
    }
}

/// A list with a line for each entry that is no hole, or `none` behind its name.
pub(crate) fn write_list(
    out: &mut String,
    name: &str,
    entries: &[Listed],
    supported: TechnologySet,
) -> Result<(), AllocError> {
    if entries.iter().all(is_hole) {
        return writeln!(out, "  {name:<15}  none");
    }
    writeln!(out, "  {name}")?;
    for (position, entry) in entries
        .iter()
        .enumerate()
        .filter(|(_, entry)| !is_hole(entry))
    {
        write_entry(out, position, *entry, supported)?;
    }
    Ok(())
}
