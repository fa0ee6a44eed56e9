//! What a fault of a text is about.

/// Which rule of the grammar a text breaks, where it doesn't read.
#[derive(Clone, Copy, Debug, PartialEq, Eq)]
pub enum Kind {
    /// Its form: nothing goes on so.
    Form,
    /// The range of a number.
    Number,
    /// A limit: an item is one too many, or a name is too long.
    Limit,
}
