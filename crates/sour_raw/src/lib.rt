//! What a text says, with names as they are written, and the grammar of a job, once, over lists of placed
//! tokens. There is no code here; the definitions are in `specs`. `Grammar` says which tokens spell which raw
//! job, one equation for each production, and `Productions` how each is read from the front. `Mentions` and
//! `Variables` say which variables a version has. What follows for a raw job that some text reads as stands in
//! `Limits`, how long its parts are, in `Written`, what its names, labels and numbers are, and in `Order`, on
//! which lines its items stand.
//!
//! Nothing here says whether the names are known or where variables are in scope.
#![tactic(auto)]

mod kind;
mod parts;
mod raw;

pub use kind::Kind;
pub use parts::{Heading, InstrWord, PassWord, Section};
pub use raw::{
    RawBind, RawExit, RawExpr, RawExtra, RawFunction, RawInput, RawInstr, RawJob, RawLine,
    RawLiteral, RawPass, RawPlace, RawPlanJob, RawPlanSimple, RawPredicate, RawSimple, RawVersion,
};
