ghost use Rattle.std.specs.Prelude.{◌≡◌};

use super::files::SubscriberFiles;
use super::list_words::{write_codes, write_list};
use super::needed::{ADMIN, FORBIDDEN, IMSI, LOCATION};
use card::{Card, byte_at};
use entry_list::{EntryList, FullEntry, ShortEntry};
use names::{Network, Networks};
use plmn::{Code, TechnologySet, low_half};
use std::alloc::AllocError;
use subscriber::{home_codes, imsi_code, registered_code};

/// Why files that are long enough give no IMSI code.
fn write_digits_fault(out: &mut String, admin: &[u8]) -> Result<(), AllocError> {
    let length = low_half(byte_at(admin, 3));
    if length == 2 || length == 3 {
        write!(out, "a digit of it is above 9")
    } else {
        write!(out, "the MNC length is {length}, and neither 2 nor 3")
    }
}

impl SubscriberFiles {
    /// Why the card gives no IMSI code.
    fn write_imsi_fault(&self, out: &mut String) -> Result<(), AllocError> {
        if !IMSI.is_met(&self.imsi) {
            IMSI.write_fault(out, &self.imsi)
        } else if !ADMIN.is_met(&self.admin) {
            ADMIN.write_fault(out, &self.admin)
        } else {
            write_digits_fault(out, self.admin.bytes())
        }
    }

    /// The IMSI code, where the card gives one.
    fn known_imsi_code(&self) -> Option<Code> {
        if !IMSI.is_met(&self.imsi) || !ADMIN.is_met(&self.admin) {
            return None;
        }
        imsi_code(self.imsi.bytes(), self.admin.bytes()).ok()
    }

    fn write_imsi(&self, out: &mut String) -> Result<(), AllocError> {
        write!(out, "  IMSI code        ")?;
        match self.known_imsi_code() {
            Some(code) => write!(out, "{}", Network(code))?,
            None => {
                write!(out, "unknown: ")?;
                self.write_imsi_fault(out)?;
            }
        }
        writeln!(out)
    }

    /// The registered code; a location that is too short has none.
    fn write_registered(&self, out: &mut String) -> Result<(), AllocError> {
        if !LOCATION.is_met(&self.location) {
            return writeln!(out, "  registered code  unknown");
        }
        match registered_code(self.location.bytes()) {
            Some(code) => writeln!(out, "  registered code  {}", Network(code)),
            None => writeln!(out, "  registered code  none"),
        }
    }

    /// The home codes and the forbidden ones.
    fn write_code_lists(&self, out: &mut String) -> Result<(), AllocError> {
        let listed = EntryList::read::<ShortEntry>(&self.home);
        let imsi = self.known_imsi_code().unwrap_or(Code::EMPTY);
        let list = home_codes(&listed, imsi);
        let home = Networks(list.codes());
        let forbidden = EntryList::read::<ShortEntry>(&self.forbidden);
        write!(out, "  home codes       {home}\n  forbidden codes  ")?;
        write_codes(out, forbidden.entries())?;
        writeln!(out)
    }

    /// The user list and the operator list.
    fn write_entry_lists(
        &self,
        out: &mut String,
        supported: TechnologySet,
    ) -> Result<(), AllocError> {
        let user = EntryList::read::<FullEntry>(&self.user);
        let operator = EntryList::read::<FullEntry>(&self.operator);
        write_list(out, "user list", user.entries(), supported)?;
        write_list(out, "operator list", operator.entries(), supported)
    }

    /// A line for each needed file that is absent or short.
    fn write_faults(&self, out: &mut String) -> Result<(), AllocError> {
        IMSI.write_line(out, &self.imsi)?;
        ADMIN.write_line(out, &self.admin)?;
        FORBIDDEN.write_line(out, &self.forbidden)?;
        LOCATION.write_line(out, &self.location)
    }
}

/// What a card holds of its subscriber; any file may be absent or short.
pub fn describe_subscriber<C: Card>(
    out: &mut String,
    card: &mut C,
    supported: TechnologySet,
) -> Result<(), AllocError>
    ensures same { C.Card.files card.new ≡ C.Card.files card.old }
{
    let files = SubscriberFiles::take(card);
    files.write_imsi(out)?;
    files.write_registered(out)?;
    files.write_code_lists(out)?;
    files.write_entry_lists(out, supported)?;
    files.write_faults(out)
}
