//! Tokens and their places.

use sour_tokens::Symbol;

/// Why a byte is in no token.
#[derive(Clone, Copy, Debug, PartialEq, Eq)]
pub enum BadByte {
    /// It is neither a blank, a line feed, nor one of the bytes 0x21 to 0x7E.
    NotAscii,
    /// It is one of the bytes 0x21 to 0x7E, and no token begins with it.
    NoToken,
}

/// A token of a text. Its bytes are those of the text.
#[derive(Clone, Copy, Debug, PartialEq, Eq)]
pub enum Token<'a> {
    /// A letter or `_`, and then letters, digits and `_`.
    Word(&'a [u8]),
    /// One ASCII digit or more.
    Digits(&'a [u8]),
    /// One of the language's symbols.
    Symbol(Symbol),
    /// The end of a line that has tokens.
    LineEnd,
    /// A byte that is in no token. It is the last token of its text.
    Bad(BadByte),
}

/// A token and where it begins.
#[derive(Clone, Copy, Debug, PartialEq, Eq)]
pub struct PlacedToken<'a> {
    /// The token.
    pub token: Token<'a>,
    /// Its line, counted from 1.
    pub line: u64,
    /// The column of its first byte, in bytes, counted from 1.
    pub column: u64,
}
