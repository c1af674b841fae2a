use super::technology::technology_name;
use names::Network;
use plmn::Row;
use std::fmt;

/// What was found at a place of the sky, at one width.
#[derive(Clone, Copy)]
pub(crate) struct FoundRow {
    pub(crate) place: usize,
    pub(crate) row: Row,
}

impl fmt::Display for FoundRow {
    fn fmt<W: fmt::Write>(&self, f: &mut fmt::Formatter<W>) -> fmt::Result {
        let place = self.place;
        let network = Network(self.row.code);
        let technology = technology_name(self.row.technology);
        let area = self.row.area;
        let level = self.row.level;
        write!(
            f,
            "  {place:>2}  {network:<7}  {technology:<7}  area {area:>5}  {level:>6} dBm"
        )
    }
}
