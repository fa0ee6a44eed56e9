//! The tokens of a text.

ghost use Rattle.std.specs.Prelude.{◌≡◌, ◌↔◌, ◌+◌, ◌^◌, ◌≤◌, List, IfOk, drop, length};
ghost use Rattle.sour_lexer.specs.Placed.{Placed, all_placed};
ghost use Rattle.sour_lexer.specs.TokenList.{AreWellFormed, AreEnded};
ghost use Rattle.sour_lexer.specs.TokensOf.{HasTokens, text_lines, lines_end, text_end};

use crate::bytes::line_len;
use crate::lines::{LineRead, line_tokens};
use crate::tokens::PlacedToken;
use std::alloc::{AllocError, Global};

/// The tokens of a text, and where it ends.
#[derive(Drop)]
pub struct Tokens<'a> {
    /// The tokens, in their order. Each line that has tokens ends with a `LineEnd`. A byte that is in no token
    /// is the last of them, and they say nothing of what comes after it.
    pub tokens: Vec<PlacedToken<'a>>,
    /// The line where the text ends, counted from 1. A line feed at the end of the text begins no further line.
    pub end_line: u64,
    /// The column after the last byte of that line, in bytes, counted from 1.
    pub end_column: u64,
}

/// The tokens of a text. An `Err` means that there is no memory for their list.
pub fn tokens_of<'a>(alloc: Global, text: &'a [u8]) -> Result<Tokens<'a>, AllocError>
    ensures tokens { IfOk result (λ found. (tokens : List Placed) →
        HasTokens text.now tokens ↔ (tokens ≡ all_placed found.tokens.items)) }
    ensures well_formed { IfOk result (λ found. AreWellFormed (all_placed found.tokens.items)) }
    ensures ended { IfOk result (λ found. AreEnded (all_placed found.tokens.items)) }
    ensures end_line { IfOk result (λ found. found.end_line ≡ (text_end text.now).line) }
    ensures end_column { IfOk result (λ found. found.end_column ≡ (text_end text.now).column) }
{
    let mut tokens = Vec::new(alloc);
    let mut rest = text;
    let mut line = 1;
    let mut end_line = 1;
    let mut end_column = 1;
    while !rest.is_empty() {
        match line_tokens(rest, line, &mut tokens)? {
            LineRead::Whole(end) => {
                end_line = line;
                end_column = (rest.len() - end.len()) as u64 + 1;
                rest = after_line_feed(end);
                line += 1;
            }
            LineRead::Cut => {
                let (end_line, end_column) = end_of(rest, line);
                return Ok(Tokens {
                    tokens,
                    end_line,
                    end_column,
                });
            }
        }
    }
    Ok(Tokens {
        tokens,
        end_line,
        end_column,
    })
}

/// What comes after the line feed at the front, if one is there.
fn after_line_feed(bytes: &[u8]) -> &[u8]
    ensures { result.now ≡ drop 1 bytes.now }
{
    if bytes.is_empty() { bytes } else { &bytes[1..] }
}

/// The line and the column where these lines end, the first of which has this number.
fn end_of(bytes: &[u8], first_line: u64) -> (u64, u64)
    requires { first_line + length bytes.now ≤ 2 ^ 63 }
    ensures line { result.0 ≡ (lines_end first_line (text_lines bytes.now)).line }
    ensures column { result.1 ≡ (lines_end first_line (text_lines bytes.now)).column }
{
    let mut rest = bytes;
    let mut line = first_line;
    loop {
        let len = line_len(rest);
        if rest.len() - len <= 1 {
            return (line, len as u64 + 1);
        }
        rest = &rest[len + 1..];
        line += 1;
    }
}
