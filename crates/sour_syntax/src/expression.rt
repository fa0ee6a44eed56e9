use crate::literal::{Literal, VarId};

/// An operand.
#[derive(Clone, Copy, Debug, PartialEq, Eq)]
pub enum Simple {
    Lit(Literal),
    /// The value of a variable.
    Var(VarId),
}

/// A binary operator. Numbers are added, subtracted, multiplied, divided and compared; where an operand is
/// none the trap is `BadType`.
#[derive(Clone, Copy, Debug, PartialEq, Eq)]
pub enum Op {
    /// As `i64::checked_add`; `Overflow` where that gives none. So are `Sub` and `Mul`.
    Add,
    Sub,
    Mul,
    /// The quotient rounded towards zero, as `i64::checked_div`; `ZeroDivisor` for the divisor 0, and
    /// `Overflow` for the least number by -1.
    Div,
    /// What the quotient leaves over, with the sign of the first operand, as `i64::wrapping_rem`: 0 for the
    /// least number by -1; `ZeroDivisor` for the divisor 0.
    Rem,
    /// Whether two values are of the same kind and have the same content, arrays whether they are the same
    /// array. It never traps, and neither does `Ne`, which is its opposite.
    Eq,
    Ne,
    Lt,
    Le,
    Gt,
    Ge,
    /// Of truth values; `BadType` where an operand is none. Both operands are evaluated, and so for `Or`.
    And,
    Or,
}

/// An expression: it has no expressions inside it but operands.
#[derive(Clone, Copy, Debug, PartialEq, Eq)]
pub enum Expr {
    /// The value of an operand.
    Plain(Simple),
    /// The cell at an index of an array; indexes count from 0.
    Cell(VarId, Simple),
    /// How many cells an array has.
    Length(Simple),
    /// The other truth value.
    Not(Simple),
    /// What an operator gives on two operands.
    Binary(Op, Simple, Simple),
}
