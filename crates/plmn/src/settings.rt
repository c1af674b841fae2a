ghost use Rattle.std.specs.Prelude.{◌≡◌, true, false, MatchResult};
ghost use Rattle.refusal.specs.declared.Refusal.TheVariants.{Technologies as TechnologiesRefused};
ghost use Rattle.plmn.specs.Technologies.{supportable};

use super::technology::TechnologySet;
use refusal::Refusal;

/// Settings that were checked once: whoever holds them holds a supported set with at least one technology and no other
/// bit, so everything made from them is made without refusal.
#[derive(Clone, Copy)]
pub struct Settings {
    supported: TechnologySet,
    ghost checked: { supportable supported.bits ≡ true },
}

impl Settings {
    /// Settings with this supported set; refused where it is empty or has a bit of no technology.
    pub fn check(supported: TechnologySet) -> Result<Settings, Refusal>
        ensures { MatchResult result (λ s. (s.supported.bits ≡ supported.bits) × (supportable supported.bits ≡ true)) (λ e. (e ≡ TechnologiesRefused) × (supportable supported.bits ≡ false)) }
    {
        if supported.bits != 0 && supported.bits & 0xC080 == supported.bits {
            Ok(Settings { supported })
        } else {
            Err(Refusal::Technologies)
        }
    }

    pub fn supported(&self) -> TechnologySet
        ensures { result.bits ≡ self.now.supported.bits }
    {
        self.supported
    }
}
