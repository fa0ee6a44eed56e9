//! What stands right at the front of the bytes that are left of a text, where no blank does.

ghost use Rattle.std.specs.Prelude.{◌≡◌, ◌≢◌, ◌<◌, length, slice_index, true, false};
ghost use Rattle.std.specs.Char.{is_ascii_digit};
ghost use Rattle.sour_tokens.specs.Byte.{is_blank, begins_word};
ghost use Rattle.sour_lexer.specs.Front.{why_bad};
ghost use Rattle.sour_lexer.specs.Read.{IsFront};

use crate::bytes::{class_of, digits_len, line_len, word_len};
use crate::symbols::symbol_of;
use crate::tokens::{BadByte, Token};

/// What stands at the front.
#[derive(Clone, Copy)]
pub(crate) enum Front<'a> {
    /// A token, and then these bytes.
    Token(Token<'a>, &'a [u8]),
    /// The end of the line, or a comment up to it: the line feed and what comes after it, or nothing.
    LineEnd(&'a [u8]),
    /// A byte that is in no token.
    Bad(BadByte),
}

/// What stands at the front of the bytes.
pub(crate) fn front_of(bytes: &[u8]) -> Front<'_>
    requires { is_blank (slice_index bytes.now 0) ≡ false }
    ensures { IsFront result bytes.now }
{
    if bytes.is_empty() {
        return Front::LineEnd(bytes);
    }
    match class_of(bytes[0]) {
        b'A' => word_front(bytes),
        b'0' => digits_front(bytes),
        b'L' => Front::LineEnd(bytes),
        b'C' => Front::LineEnd(&bytes[line_len(bytes)..]),
        _ => symbol_front(bytes),
    }
}

/// The word at the front.
fn word_front(bytes: &[u8]) -> Front<'_>
    requires nonempty { 0 < length bytes.now }
    requires begins { begins_word (slice_index bytes.now 0) ≡ true }
    ensures { IsFront result bytes.now }
{
    let (word, after) = bytes.split_at(word_len(bytes));
    Front::Token(Token::Word(word), after)
}

/// The digits at the front.
fn digits_front(bytes: &[u8]) -> Front<'_>
    requires nonempty { 0 < length bytes.now }
    requires begins { is_ascii_digit (slice_index bytes.now 0) ≡ true }
    ensures { IsFront result bytes.now }
{
    let (digits, after) = bytes.split_at(digits_len(bytes));
    Front::Token(Token::Digits(digits), after)
}

/// The symbol at the front, or the byte there, which is in no token.
fn symbol_front(bytes: &[u8]) -> Front<'_>
    requires nonempty { 0 < length bytes.now }
    requires no_word { begins_word (slice_index bytes.now 0) ≡ false }
    requires no_digit { is_ascii_digit (slice_index bytes.now 0) ≡ false }
    requires no_line_feed { slice_index bytes.now 0 ≢ 10 }
    requires no_comment { slice_index bytes.now 0 ≢ 35 }
    ensures { IsFront result bytes.now }
{
    let first = bytes[0];
    let second = if bytes.len() > 1 { bytes[1] } else { b'\n' };
    match symbol_of(first, second) {
        Some((symbol, len)) => Front::Token(Token::Symbol(symbol), &bytes[len..]),
        None => Front::Bad(why_bad(first)),
    }
}

/// Why a byte is in no token.
fn why_bad(byte: u8) -> BadByte
    ensures { result ≡ why_bad byte }
{
    match byte {
        0x21..=0x7E => BadByte::NoToken,
        _ => BadByte::NotAscii,
    }
}
