//! What a text says, with names as they are written.

use sour_syntax::{Label, List, Op, Start};

/// A value as it is written.
#[derive(Drop)]
pub enum RawLiteral {
    /// An integer.
    Number(i64),
    /// `true` or `false`.
    Truth(bool),
    /// `nil`.
    Nil,
    /// A function by its name.
    Function(Label),
}

/// An operand as it is written.
#[derive(Drop)]
pub enum RawSimple {
    /// A literal.
    Lit(RawLiteral),
    /// A variable by its name.
    Name(Label),
}

/// An expression as it is written.
#[derive(Drop)]
pub enum RawExpr {
    /// The value of an operand.
    Plain(RawSimple),
    /// The cell at an index of an array; indexes count from 0.
    Cell(Label, RawSimple),
    /// How many cells an array has.
    Length(RawSimple),
    /// The other truth value.
    Not(RawSimple),
    /// What an operator makes of two operands.
    Binary(Op, RawSimple, RawSimple),
}

/// A place of a program as it is written: a function, a version of it and a label there.
#[derive(Drop)]
pub struct RawPlace {
    /// The name of the function.
    pub function: Label,
    /// The name of the version.
    pub version: Label,
    /// The label of the line.
    pub label: Label,
}

/// A variable of the version that is gone to, and the value that it gets.
#[derive(Drop)]
pub struct RawBind {
    /// The name of the variable.
    pub name: Label,
    /// The value that it gets.
    pub value: RawExpr,
}

/// A further frame: its target, the variable of the target that waits, and its map.
#[derive(Drop)]
pub struct RawExtra {
    /// Where the frame goes on.
    pub target: RawPlace,
    /// The variable that gets the result for which the frame waits.
    pub result: Label,
    /// The values of the other variables.
    pub map: List<RawBind>,
}

/// A place to go on at, the values of the variables there, and the frames below.
#[derive(Drop)]
pub struct RawExit {
    /// Where the run goes on.
    pub target: RawPlace,
    /// The values of the variables there.
    pub map: List<RawBind>,
    /// The further frames.
    pub extras: List<RawExtra>,
}

/// An instruction as it is written.
#[derive(Drop)]
pub enum RawInstr {
    /// Declares a variable with a value.
    Var(Label, RawExpr),
    /// Takes a variable out of scope.
    Drop(Label),
    /// Gives a variable a value.
    Assign(Label, RawExpr),
    /// Declares a variable with a new array of this many cells.
    ArrayLength(Label, RawExpr),
    /// Declares a variable with a new array of these values.
    ArrayList(Label, List<RawExpr>),
    /// Writes a value into the cell at an index of an array.
    Store(Label, RawSimple, RawExpr),
    /// Prints a value.
    Print(RawExpr),
    /// Takes the next value of the input into a variable.
    Read(Label),
    /// Goes to the first label where the value is `true`, and to the second where it is `false`.
    Branch(RawExpr, Label, Label),
    /// Goes to the line with this label.
    Goto(Label),
    /// Gives a variable what a function returns for these arguments.
    Call(Label, RawSimple, List<RawExpr>),
    /// Ends the frame with a value.
    Return(RawExpr),
    /// Ends the run.
    Stop,
    /// Predicates, and the exit that is taken where one of them doesn't hold.
    Assume(List<RawExpr>, RawExit),
}

/// An instruction with the label that is written before it, if one is.
#[derive(Drop)]
pub struct RawLine {
    /// The line of its first token, counted from 1.
    pub line: u64,
    /// The label that is written before the instruction.
    pub label: Option<Label>,
    /// The instruction.
    pub instr: RawInstr,
}

/// A version of a function.
#[derive(Drop)]
pub struct RawVersion {
    /// The line of its first token, counted from 1.
    pub line: u64,
    /// The name of the version.
    pub name: Label,
    /// Its lines in their order.
    pub lines: List<RawLine>,
}

/// A function with its versions.
#[derive(Drop)]
pub struct RawFunction {
    /// The line of its first token, counted from 1.
    pub line: u64,
    /// The name of the function.
    pub name: Label,
    /// The names of its parameters.
    pub parameters: List<Label>,
    /// Its versions in their order.
    pub versions: List<RawVersion>,
}

/// The values of an input.
#[derive(Drop)]
pub struct RawInput {
    /// The line of its first token, counted from 1.
    pub line: u64,
    /// The values in their order.
    pub values: List<RawLiteral>,
}

/// A side of a predicate of a plan.
#[derive(Drop)]
pub enum RawPlanSimple {
    /// A literal.
    Lit(RawLiteral),
    /// A variable by its path: its name in the text, or one that passes made, with `/` between the parts.
    Name(Label),
}

/// A predicate of a plan: both sides are the same.
#[derive(Drop)]
pub struct RawPredicate {
    /// The side before `==`.
    pub left: RawPlanSimple,
    /// The side after it.
    pub right: RawPlanSimple,
}

/// A pass as it is written. The anchor `@L` is named by the label `L`.
#[derive(Drop)]
pub enum RawPass {
    /// Adds the predicate to the anchor.
    Inject(Label, RawPredicate),
    /// Replaces variables and operations by the literals that they are known to be.
    Constprop,
    /// Removes what no run reaches.
    Unreachable,
    /// Puts the code of its callee in place of the call at the label.
    Inline(Label, Start),
    /// Moves the anchor after the next line.
    Move(Label),
    /// The first anchor loses the predicate, and the second gets it.
    Hoist(Label, Label, RawPredicate),
    /// Makes the anchor leave to where the anchor that it leaves to does.
    Compose(Label),
    /// Removes bodies that no exit leads to.
    Prune,
}

/// A job of the plan: its function, what it starts from, and its passes.
#[derive(Drop)]
pub struct RawPlanJob {
    /// The line of its first token, counted from 1.
    pub line: u64,
    /// The name of the function.
    pub function: Label,
    /// What the job starts from.
    pub start: Start,
    /// The passes in their order.
    pub passes: List<RawPass>,
}

/// A whole text. A text without a plan has an empty list of jobs, and one without inputs an empty list
/// of those.
#[derive(Drop)]
pub struct RawJob {
    /// The functions in their order.
    pub functions: List<RawFunction>,
    /// The jobs of the plan in their order.
    pub plan: List<RawPlanJob>,
    /// The inputs in their order.
    pub inputs: List<RawInput>,
}
