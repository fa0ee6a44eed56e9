//! The tokens of a text, each with its line and column. The definitions are in `specs`: `Placed` says what
//! a token is apart from the code's borrowed bytes, `Front` what stands next in a line, `TokensOf` which tokens
//! a text has and where it ends, and `TokenList` what each such list of tokens is like.
#![tactic(auto)]

mod bytes;
mod front;
mod lines;
mod symbols;
mod texts;
mod tokens;

pub use sour_tokens::Symbol;
pub use texts::{Tokens, tokens_of};
pub use tokens::{BadByte, PlacedToken, Token};
