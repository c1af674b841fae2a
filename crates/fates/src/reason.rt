/// Why a row is not allowed, and so has no turn.
#[derive(Clone, Copy)]
pub enum Hindrance {
    /// Its technology is not supported.
    Technology,
    InvalidCode,
    /// Its code is in the forbidden list.
    Forbidden,
}

/// Why an allowed row was not tried at its turn.
#[derive(Clone, Copy)]
pub enum Reason {
    /// The answer of this try ended the run before; tries count from 0.
    NotReached(usize),
    /// Its area was in the roaming list at the start of the run.
    RoamingArea,
    /// Its area was in the regional list at the start of the run.
    RegionalArea,
    /// The answer of this earlier try closed it.
    Closed(usize),
}
