ghost use Rattle.table_rows.specs.Tables.{table_sky, table_air};
ghost use Rattle.table_radio.specs.Small.{table_small, table_brief};

use super::marks::mark;
use super::table::TableRadio;
use plmn::{Code, Row};
use radio::{Answer, Finder, Registrar};
use refusal::Refusal;
use table_rows::{answer_of, code_of};

impl<'a> Finder for TableRadio<'a> {
    ghost sky = { λ t. table_sky t.here.now t.rest.now };

    ghost small = { λ t. table_small t.here.now t.rest.now t.few };

    fn search(&mut self) {
        self.advance();
    }

    fn count(&mut self) -> usize {
        self.here_count()
    }

    fn row(&mut self, place: usize) -> Result<Row, Refusal> {
        self.found_row(place)
    }
}

impl<'a> Registrar for TableRadio<'a> {
    ghost air = { λ t. table_air t.here.now t.tried t.rest.now };

    ghost brief = { λ t. table_brief t.here.now t.tried t.rest.now t.few };

    fn seek(&mut self) {
        self.advance();
    }

    fn rows(&mut self) -> usize {
        self.here_count()
    }

    fn entry(&mut self, place: usize) -> Result<Row, Refusal> {
        self.found_row(place)
    }

    fn attempt(&mut self, place: usize) -> Result<Answer, Refusal> {
        let found = self.found(place)?;
        mark(&mut self.tried, place);
        Ok(answer_of(found))
    }

    fn accepted_code(&mut self, place: usize, index: usize) -> Code {
        match self.found(place) {
            Ok(found) if self.tried[place] => code_of(found, index),
            _ => Code::EMPTY,
        }
    }
}
