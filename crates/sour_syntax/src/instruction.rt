use crate::exit::Exit;
use crate::expression::{Expr, Simple};
use crate::label::Label;
use crate::list::List;
use crate::literal::VarId;

/// An instruction.
#[derive(Drop)]
pub enum Instr {
    /// Declares a variable, which isn't in scope, with the value of an expression.
    Var(VarId, Expr),
    /// Takes a variable, which is in scope, out of it.
    Drop(VarId),
    /// Gives a variable, which is in scope, the value of an expression.
    Assign(VarId, Expr),
    /// Declares a variable with a new array of this many cells, each `nil`.
    ArrayLength(VarId, Expr),
    /// Declares a variable with a new array of these values.
    ArrayList(VarId, List<Expr>),
    /// Writes the value of the expression into the cell at an index of an array.
    Store(VarId, Simple, Expr),
    /// Appends the text of a value and a line feed to the output.
    Print(Expr),
    /// Takes the next value of the input: gives it to the variable, or declares the variable with it.
    Read(VarId),
    /// Goes to the first label where the expression is `true`, and to the second where it is `false`.
    Branch(Expr, Label, Label),
    /// Goes to the line with this label.
    Goto(Label),
    /// Enters a function with the values of the arguments. What it returns is given to the variable, or
    /// declares it.
    Call(VarId, Simple, List<Expr>),
    /// Ends the frame with a value; in the last frame it ends the run.
    Return(Expr),
    /// Ends the run.
    Stop,
    /// Goes on where each predicate is `true`, and leaves by the exit where one is `false`.
    Assume(List<Expr>, Exit),
}

/// An instruction with its label.
#[derive(Drop)]
pub struct Line {
    pub label: Label,
    pub instr: Instr,
}
