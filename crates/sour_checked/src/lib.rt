//! Which texts are accepted, and what the first fault of the others is: definitions, for contracts and
//! proofs. There is no code here; the definitions are in `specs`.
//!
//! `Outline` is the names of a text, `Numbered` the program, the plan and the inputs that it means once
//! its names are numbers, and `Checked` says which texts are accepted. `Fault` is a fault with its line.
//! `Texts` and `Parts` say what a text and an instruction name, `Names` which rules of names a text
//! breaks, and `Landing` which continuation doesn't fit its target; the order in which the places of a
//! version get their scopes is that of `Taking` in `sour_syntax`. `FirstFault` puts the stages together.
#![tactic(auto)]
