//! The tokens of a line.

ghost use Rattle.std.specs.Prelude.{◌≡◌, ◌++◌, List, IfOk};
ghost use Rattle.sour_lexer.specs.Placed.{Placed, all_placed};
ghost use Rattle.sour_lexer.specs.Read.{IsLineRead};

use crate::bytes::skip_blanks;
use crate::front::{Front, front_of};
use crate::tokens::{PlacedToken, Token};
use std::alloc::AllocError;

/// Where the tokens of a line end.
#[derive(Clone, Copy)]
pub(crate) enum LineRead<'a> {
    /// With the line: its line feed and what comes after it, or nothing.
    Whole(&'a [u8]),
    /// At a byte that is in no token.
    Cut,
}

/// Puts the tokens of the first line of the bytes, which has this number, after those in `tokens`. After an
/// `Err` some of them stand there.
pub(crate) fn line_tokens<'a>(
    bytes: &'a [u8],
    line: u64,
    tokens: &mut Vec<PlacedToken<'a>>,
) -> Result<LineRead<'a>, AllocError>
    ensures { IfOk result (λ read. (given : List Placed)
        × (all_placed tokens.new.items ≡ all_placed tokens.old.items ++ given)
        × IsLineRead read line bytes.entry.now given) }
{
    let all = bytes.len();
    let before = tokens.len();
    let mut rest = bytes;
    loop {
        let next = skip_blanks(rest);
        let column = (all - next.len()) as u64 + 1;
        match front_of(next) {
            Front::Token(token, after) => {
                tokens.push(PlacedToken {
                    token,
                    line,
                    column,
                })?;
                rest = after;
            }
            Front::LineEnd(end) => {
                if tokens.len() > before {
                    let column = (all - end.len()) as u64 + 1;
                    tokens.push(PlacedToken {
                        token: Token::LineEnd,
                        line,
                        column,
                    })?;
                }
                return Ok(LineRead::Whole(end));
            }
            Front::Bad(why) => {
                tokens.push(PlacedToken {
                    token: Token::Bad(why),
                    line,
                    column,
                })?;
                return Ok(LineRead::Cut);
            }
        }
    }
}
