//! What is known in the middle of a line.

/// The word with which an instruction begins.
#[derive(Clone, Copy)]
pub enum InstrWord {
    /// `var`.
    Var,
    /// `drop`.
    Drop,
    /// `array`.
    Array,
    /// `branch`.
    Branch,
    /// `goto`.
    Goto,
    /// `print`.
    Print,
    /// `read`.
    Read,
    /// `call`.
    Call,
    /// `return`.
    Return,
    /// `stop`.
    Stop,
    /// `assume`.
    Assume,
}

/// The word with which a pass begins.
#[derive(Clone, Copy)]
pub enum PassWord {
    /// `inject`.
    Inject,
    /// `constprop`.
    Constprop,
    /// `unreachable`.
    Unreachable,
    /// `inline`.
    Inline,
    /// `move`.
    Move,
    /// `hoist`.
    Hoist,
    /// `compose`.
    Compose,
    /// `prune`.
    Prune,
}

/// What a name at the head of a line is, as the token after it says.
#[derive(Clone, Copy)]
pub enum Heading {
    /// A label: `:` follows.
    Label,
    /// The variable that gets a value: `<-` follows.
    Target,
    /// The array of which a cell is written: `[` follows.
    Array,
}

/// What follows the functions of a text, after `%`.
#[derive(Clone, Copy)]
pub enum Section {
    /// `plan`.
    Plan,
    /// `inputs`.
    Inputs,
}
