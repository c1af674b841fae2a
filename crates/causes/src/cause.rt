ghost use Rattle.std.specs.Prelude.{◌≡◌};
ghost use Rattle.causes.specs.Causes.{effect_of, ends_of};

/// What a rejection does to the lists.
#[derive(Clone, Copy)]
pub enum Effect {
    /// No list changes.
    Nothing,
    /// The card is locked until switch-off.
    Lock,
    /// The code is stored in the forbidden list, unless it is a home code.
    Forbid,
    /// The area is stored in the regional list.
    Regional,
    /// The area is stored in the roaming list.
    Roaming,
}

/// What follows a cause: its effect, and whether it ends a run.
#[derive(Clone, Copy)]
pub struct Rule {
    pub effect: Effect,
    pub ends: bool,
}

const PASSED: Rule = Rule {
    effect: Effect::Nothing,
    ends: false,
};

/// The rule of each cause number of 3GPP TS 24.008 below 16; every cause from there on is passed over.
const RULES: [Rule; 16] = [
    PASSED,
    PASSED,
    Rule {
        effect: Effect::Lock,
        ends: true,
    },
    Rule {
        effect: Effect::Lock,
        ends: true,
    },
    PASSED,
    PASSED,
    Rule {
        effect: Effect::Lock,
        ends: true,
    },
    PASSED,
    PASSED,
    PASSED,
    PASSED,
    Rule {
        effect: Effect::Forbid,
        ends: false,
    },
    Rule {
        effect: Effect::Regional,
        ends: true,
    },
    Rule {
        effect: Effect::Roaming,
        ends: false,
    },
    PASSED,
    Rule {
        effect: Effect::Roaming,
        ends: false,
    },
];

/// What follows a cause.
pub fn rule_of(cause: u8) -> Rule
    ensures effect { result.effect ≡ effect_of cause }
    ensures ends { result.ends ≡ ends_of cause }
{
    if cause < 16 {
        RULES[cause as usize]
    } else {
        PASSED
    }
}
