//! What a program means: the definitions of the language, for contracts and proofs. There is no code
//! here; the definitions are in `specs`.
//!
//! `State` is a moment of a run, `Evaluation` gives the value of an expression, `Step` says what one
//! instruction does, `Run` what a run of the text is and where it rests at a budget, `Validity` what
//! holds at every moment of a run, `Text` what a value prints as, and `Block` what a run shows its user.
//! `Shape` says what bundles look like, and `Agreement` what makes one lawful.
#![tactic(auto)]
