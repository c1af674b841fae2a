use names::{Network, TechnologyName};
use plmn::Row;
use std::fmt;

/// What was heard at a place of the sky, at one width.
#[derive(Clone, Copy)]
pub struct RowWords {
    pub place: usize,
    pub row: Row,
}

impl fmt::Display for RowWords {
    fn fmt<W: fmt::Write>(&self, f: &mut fmt::Formatter<W>) -> fmt::Result {
        let place = self.place;
        let network = Network(self.row.code);
        let technology = TechnologyName(self.row.technology);
        let area = self.row.area;
        let level = self.row.level;
        write!(
            f,
            "place {place:>2}  {network:<7}  {technology:<7}  area {area:>5}  {level:>6} dBm"
        )
    }
}
