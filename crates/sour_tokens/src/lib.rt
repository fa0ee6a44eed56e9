//! What the tokens of a text are made of: classes of bytes, words, digits and symbols. The definitions are in
//! `specs`; the code is the type of the symbols alone.
#![tactic(auto)]

mod symbols;

pub use symbols::Symbol;
