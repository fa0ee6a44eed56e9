//! The tokens of a text and their places.

use sour_lexer::{BadByte, PlacedToken, Symbol, Token, tokens_of};
use std::alloc::{AllocError, Global};
use std::test::Fail;

const ARROW: Token = Token::Symbol(Symbol::Arrow);

const LESS_EQUAL: Token = Token::Symbol(Symbol::LessEqual);

const EQUAL_EQUAL: Token = Token::Symbol(Symbol::EqualEqual);

const EQUAL: Token = Token::Symbol(Symbol::Equal);

const OR_OR: Token = Token::Symbol(Symbol::OrOr);

const A: Token = Token::Word(b"a");

const ONE: Token = Token::Digits(b"1");

const END: Token = Token::LineEnd;

const NOT_ASCII: Token = Token::Bad(BadByte::NotAscii);

const NO_TOKEN: Token = Token::Bad(BadByte::NoToken);

/// Whether a token is this one, on this line and at this column.
fn is_at(placed: &PlacedToken, expected: (Token, u64, u64)) -> bool {
    (placed.token, placed.line, placed.column) == expected
}

/// Whether a text has these tokens and ends on this line and at this column.
fn has_tokens(
    alloc: Global,
    text: &[u8],
    expected: &[(Token, u64, u64)],
    end: (u64, u64),
) -> Result<bool, AllocError> {
    let found = tokens_of(alloc, text)?;
    if found.tokens.len() != expected.len() || (found.end_line, found.end_column) != end {
        return Ok(false);
    }
    for (placed, token) in found.tokens.iter().zip(expected) {
        if !is_at(placed, *token) {
            return Ok(false);
        }
    }
    Ok(true)
}

#[test]
fn takes_the_longest_tokens_with_their_places(rt: HostRuntime) -> Result<(), Fail> {
    let table: [(&[u8], &[(Token, u64, u64)], (u64, u64)); 9] = [
        (
            b"a <-1",
            &[(A, 1, 1), (ARROW, 1, 3), (ONE, 1, 5), (END, 1, 6)],
            (1, 6),
        ),
        (
            b"a<=1==",
            &[
                (A, 1, 1),
                (LESS_EQUAL, 1, 2),
                (ONE, 1, 4),
                (EQUAL_EQUAL, 1, 5),
                (END, 1, 7),
            ],
            (1, 7),
        ),
        (
            b"<==",
            &[(LESS_EQUAL, 1, 1), (EQUAL, 1, 3), (END, 1, 4)],
            (1, 4),
        ),
        (b"1a", &[(ONE, 1, 1), (A, 1, 2), (END, 1, 3)], (1, 3)),
        (
            b"a1_ _9",
            &[
                (Token::Word(b"a1_"), 1, 1),
                (Token::Word(b"_9"), 1, 5),
                (END, 1, 7),
            ],
            (1, 7),
        ),
        (
            b"||a||",
            &[(OR_OR, 1, 1), (A, 1, 3), (OR_OR, 1, 4), (END, 1, 6)],
            (1, 6),
        ),
        (b"\t1\r#1 \xFF", &[(ONE, 1, 2), (END, 1, 8)], (1, 8)),
        (
            b"\n # \xFF\n\t\r \na\n#\n\n1 a",
            &[(A, 4, 1), (END, 4, 2), (ONE, 7, 1), (A, 7, 3), (END, 7, 4)],
            (7, 4),
        ),
        (b"a \n\n", &[(A, 1, 1), (END, 1, 3)], (2, 1)),
    ];
    for (text, expected, end) in table {
        let same = has_tokens(rt.alloc(), text, expected, end)?;
        assert!(rt; same, "of {text:?}");
    }
    Ok(())
}

#[test]
fn ends_at_a_byte_that_is_in_no_token(rt: HostRuntime) -> Result<(), Fail> {
    let table: [(&[u8], &[(Token, u64, u64)], (u64, u64)); 7] = [
        (b"", &[], (1, 1)),
        (b"\n", &[], (1, 1)),
        (b"\xFF a", &[(NOT_ASCII, 1, 1)], (1, 4)),
        (b"a | a", &[(A, 1, 1), (NO_TOKEN, 1, 3)], (1, 6)),
        (b"$", &[(NO_TOKEN, 1, 1)], (1, 2)),
        (b"a\x80", &[(A, 1, 1), (NOT_ASCII, 1, 2)], (1, 3)),
        (
            b"a\n1 \x0B\n",
            &[(A, 1, 1), (END, 1, 2), (ONE, 2, 1), (NOT_ASCII, 2, 3)],
            (2, 4),
        ),
    ];
    for (text, expected, end) in table {
        let same = has_tokens(rt.alloc(), text, expected, end)?;
        assert!(rt; same, "of {text:?}");
    }
    Ok(())
}
