use crate::bundle::Bundle;

/// What a pass answers that doesn't make a bundle.
#[derive(Drop)]
pub struct Refused<W> {
    /// The bundle that the pass was given, as it was.
    pub bundle: Bundle,
    pub why: W,
}
