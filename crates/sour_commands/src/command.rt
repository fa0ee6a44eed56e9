/// What the words on the command line ask for.
#[derive(Clone, Copy, Debug, PartialEq, Eq)]
pub enum Command {
    /// To run `main` on each input.
    Run {
        /// The turns that each run may take.
        budget: u64,
    },
    /// To say whether the text is accepted, and to count what it has.
    Check,
    /// To write the program in its canonical form.
    Show,
}
