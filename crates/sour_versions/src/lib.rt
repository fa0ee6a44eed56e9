//! Runs that enter published versions: definitions, for contracts and proofs. There is no code here;
//! the definitions are in `specs`.
//!
//! `History` is what is published and what a table of it answers, and `Fits` says when reads were
//! answered by a table to which more and more was published. `CallLog` is what a run keeps of its calls,
//! and `Notes` says how it keeps it. `Entering` says which function a step enters, `VersionRun` is a run
//! whose calls enter what they are answered, `GoesOn` says how one goes on while a table answers, and
//! `MayShow` what its block may show.
#![tactic(auto)]
