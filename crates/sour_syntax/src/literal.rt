/// The number of a function: its place in the program, counted from 0.
#[derive(Clone, Copy, Debug, PartialEq, Eq)]
pub struct FunId(pub u32);

/// The number of a variable: its place among the variables of its body, counted from 0.
#[derive(Clone, Copy, Debug, PartialEq, Eq)]
pub struct VarId(pub u32);

/// The number of an array: how many arrays the run had made before it.
#[derive(Clone, Copy, Debug, PartialEq, Eq)]
pub struct ArrayId(pub u64);

/// A value that a text can spell.
#[derive(Clone, Copy, Debug, PartialEq, Eq)]
pub enum Literal {
    Number(i64),
    Truth(bool),
    Nil,
    /// A reference to a function.
    Function(FunId),
}

/// What an expression evaluates to.
#[derive(Clone, Copy, Debug, PartialEq, Eq)]
pub enum Value {
    /// A value that a text can spell.
    Plain(Literal),
    /// A reference to an array of the run.
    Array(ArrayId),
}
