//! Single tokens: symbols, keywords and the ends of lines.

ghost use Rattle.std.specs.Prelude.{◌≡◌};
ghost use Rattle.std.specs.Str.{bytes_eq};
ghost use Rattle.sour_lexer.specs.Placed.{Word, Sign, LineEnd, all_placed};
ghost use Rattle.sour_raw.specs.Lexemes.{is, symbol_number};
ghost use Rattle.sour_raw.specs.Combinators.{this, next};
ghost use Rattle.sour_raw.specs.Spelling.{line_of};
ghost use Rattle.sour_reader.specs.Given.{Passes};

use crate::stop::Stop;
use sour_lexer::{PlacedToken, Symbol, Token};
use sour_raw::Kind;

/// Tokens that are left to be read.
pub(crate) type Rest<'a> = &'a [PlacedToken<'a>];

/// Whether two symbols are the same.
fn is_same(a: Symbol, b: Symbol) -> bool
    ensures { result ≡ is (Sign b) (Sign a) }
{
    a == b
}

/// What comes after this symbol.
pub(crate) fn after_symbol<'a>(tokens: Rest<'a>, symbol: Symbol) -> Result<Rest<'a>, Stop<'a>>
    ensures { Passes result (this (Sign symbol)) tokens.now }
{
    match tokens {
        [first, rest @ ..] => match first.token {
            Token::Symbol(found) if is_same(found, symbol) => Ok(rest),
            _ => Err(Stop::At(Kind::Form, tokens)),
        },
        [] => Err(Stop::At(Kind::Form, tokens)),
    }
}

/// Whether this symbol comes next.
pub(crate) fn has_symbol(tokens: Rest<'_>, symbol: Symbol) -> bool
    ensures { result ≡ next (is (Sign symbol)) (all_placed tokens.now) }
{
    match tokens {
        [first, ..] => match first.token {
            Token::Symbol(found) => is_same(found, symbol),
            _ => false,
        },
        [] => false,
    }
}

/// Whether a word is spelled so.
pub(crate) fn is_spelled(spelling: &[u8], word: &[u8]) -> bool
    ensures { result ≡ bytes_eq spelling.now word.now }
{
    spelling == word
}

/// What comes after the word that is spelled so.
pub(crate) fn after_word<'a>(tokens: Rest<'a>, spelling: &[u8]) -> Result<Rest<'a>, Stop<'a>>
    ensures { Passes result (this (Word spelling.now)) tokens.now }
{
    match tokens {
        [first, rest @ ..] => match first.token {
            Token::Word(word) if is_spelled(spelling, word) => Ok(rest),
            _ => Err(Stop::At(Kind::Form, tokens)),
        },
        [] => Err(Stop::At(Kind::Form, tokens)),
    }
}

/// Whether the word that is spelled so comes next.
pub(crate) fn has_word(tokens: Rest<'_>, spelling: &[u8]) -> bool
    ensures { result ≡ next (is (Word spelling.now)) (all_placed tokens.now) }
{
    match tokens {
        [first, ..] => match first.token {
            Token::Word(word) => is_spelled(spelling, word),
            _ => false,
        },
        [] => false,
    }
}

/// What comes after the end of a line.
pub(crate) fn after_line_end<'a>(tokens: Rest<'a>) -> Result<Rest<'a>, Stop<'a>>
    ensures { Passes result (this LineEnd) tokens.now }
{
    match tokens {
        [
            PlacedToken {
                token: Token::LineEnd,
                ..
            },
            rest @ ..,
        ] => Ok(rest),
        _ => Err(Stop::At(Kind::Form, tokens)),
    }
}

/// The line of the next token; 0 where there is none.
pub(crate) fn next_line(tokens: Rest<'_>) -> u64
    ensures { result ≡ line_of (all_placed tokens.now) }
{
    match tokens {
        [] => 0,
        [token, ..] => token.line,
    }
}
