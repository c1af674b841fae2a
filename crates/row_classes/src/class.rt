/// The class of an allowed row, with its position where the class goes by a list. The classes stand in the order of their turns.
#[derive(Clone, Copy, PartialEq, Eq, PartialOrd, Ord)]
pub enum Class {
    /// The registered code.
    Registered,
    /// An equivalent code.
    Equivalent(usize),
    /// The first home code that has an allowed row.
    Home,
    /// An entry of the user list with the row's code and technology.
    User(usize),
    /// An entry of the operator list with the row's code and technology.
    Operator(usize),
    /// Any other row of high quality.
    HighQuality,
    /// The rest.
    Rest,
}
