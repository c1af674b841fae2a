ghost use Rattle.entry_list.specs.Entries.{first_match};
ghost use Rattle.entry_list.specs.Laws.{Matching};

use super::listed::Listed;
use plmn::{Code, TechnologySet};

/// What the first match is, in a reader's words.
pub fn matching_laws(
    entries: &[Listed],
    supported: TechnologySet,
    code: Code,
    wanted: TechnologySet,
)
    ensures { Matching supported.bits code wanted.bits entries.now (first_match supported.bits code wanted.bits entries.now) }
{}
