//! Why a text isn't read.

ghost use Rattle.std.specs.Prelude.{◌≡◌};
ghost use Rattle.sour_lexer.specs.Placed.{lexeme_of, all_placed};
ghost use Rattle.sour_raw.specs.Reads.{form_number as number_of_form, fault_number};
ghost use Rattle.sour_reader.specs.declared.fault.TextFault.TheVariants.{Memory};
ghost use Rattle.sour_reader.specs.Told.{Tells};

use crate::stop::Stop;
use crate::tokens::Rest;
use sour_lexer::{BadByte, Token};
use sour_raw::Kind;
use std::alloc::AllocError;
use thiserror::Error;

/// Why a text isn't read.
#[derive(Clone, Copy, Debug, PartialEq, Eq, Error)]
pub enum TextFault {
    /// The first fault of the text.
    #[error("line {line}, column {column}: fault {kind}")]
    At {
        /// What is wrong: 1 for a byte that isn't ASCII, 2 for one that begins no token, 3 for a token that doesn't
        /// go on, 4 for a number out of range, 5 for an item that is one too many or a name that is too long.
        kind: u32,
        /// The line where it stands, counted from 1.
        line: u64,
        /// The column of its first byte, in bytes, counted from 1.
        column: u64,
    },
    /// There is no memory for what is read.
    #[error("out of memory")]
    Memory,
}

impl From<AllocError> for TextFault {
    ghost use Rattle.std.specs.Prelude.{◌≡◌};

    ghost from_gives = { λ _ e. e ≡ Memory };

    fn from(_error: AllocError) -> TextFault {
        TextFault::Memory
    }
}

/// The number of a fault of Form at a token.
fn form_number(token: Token<'_>) -> u32
    ensures { result ≡ number_of_form (lexeme_of token.entry) }
{
    match token {
        Token::Bad(BadByte::NotAscii) => 1,
        Token::Bad(BadByte::NoToken) => 2,
        _ => 3,
    }
}

/// The number of a fault of this kind, where these tokens are left.
fn number_of(kind: Kind, rest: Rest<'_>) -> u32
    ensures { result ≡ fault_number kind (all_placed rest.now) }
{
    match kind {
        Kind::Form => match rest {
            [first, ..] => form_number(first.token),
            [] => 3,
        },
        Kind::Number => 4,
        Kind::Limit => 5,
    }
}

/// What is told of where reading stopped, if the text ends at this line and this column.
pub(crate) fn fault_of(stop: Stop<'_>, end_line: u64, end_column: u64) -> TextFault
    ensures { Tells stop.entry end_line end_column result }
{
    match stop {
        Stop::Memory => TextFault::Memory,
        Stop::At(kind, rest) => {
            let kind = number_of(kind, rest);
            match rest {
                [first, ..] => TextFault::At {
                    kind,
                    line: first.line,
                    column: first.column,
                },
                [] => TextFault::At {
                    kind,
                    line: end_line,
                    column: end_column,
                },
            }
        }
    }
}
