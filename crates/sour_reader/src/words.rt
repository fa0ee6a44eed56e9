//! Which words are names and labels.

ghost use Rattle.std.specs.Prelude.{◌≡◌, ◌||◌, length};
ghost use Rattle.std.specs.List.{list_all};
ghost use Rattle.std.specs.Char.{is_ascii_digit};
ghost use Rattle.sour_syntax.specs.Name.{is_reserved as reserved};
ghost use Rattle.sour_reader.specs.Reserved.{is_reserved_of};
ghost use Rattle.sour_raw.specs.Names.{is_name as name, is_automatic as automatic, is_decimal as decimal, is_short as short, is_short_if_name as short_if_name};

use crate::tokens::is_spelled;

/// The most bytes that a name has.
pub(crate) const MAX_NAME_LENGTH: usize = 64;

/// Whether a word is reserved.
fn is_reserved(word: &[u8]) -> bool
    ensures { result ≡ reserved word.now }
{
    match word.len() {
        3 => is_reserved_of_three(word),
        4 => is_reserved_of_four(word),
        5 => is_reserved_of_five(word),
        6 => is_reserved_of_six(word),
        8 => is_spelled(b"is_array", word),
        9 => is_spelled(b"is_number", word),
        _ => false,
    }
}

/// Whether it is a reserved word of three bytes.
fn is_reserved_of_three(word: &[u8]) -> bool
    ensures { result ≡ is_reserved_of 3 word.now }
{
    if is_spelled(b"fun", word) {
        true
    } else if is_spelled(b"ver", word) {
        true
    } else if is_spelled(b"end", word) {
        true
    } else if is_spelled(b"var", word) {
        true
    } else {
        is_spelled(b"nil", word)
    }
}

/// Whether it is a reserved word of four bytes.
fn is_reserved_of_four(word: &[u8]) -> bool
    ensures { result ≡ is_reserved_of 4 word.now }
{
    is_spelled(b"drop", word)
        || (is_spelled(b"goto", word)
            || (is_spelled(b"read", word)
                || (is_spelled(b"call", word)
                    || (is_spelled(b"stop", word)
                        || (is_spelled(b"else", word) || is_spelled(b"true", word))))))
}

/// Whether it is a reserved word of five bytes.
fn is_reserved_of_five(word: &[u8]) -> bool
    ensures { result ≡ is_reserved_of 5 word.now }
{
    is_spelled(b"array", word) | is_spelled(b"print", word) | is_spelled(b"false", word)
}

/// Whether it is a reserved word of six bytes.
fn is_reserved_of_six(word: &[u8]) -> bool
    ensures { result ≡ is_reserved_of 6 word.now }
{
    is_spelled(b"branch", word)
        || is_spelled(b"return", word)
        || is_spelled(b"assume", word)
        || is_spelled(b"length", word)
}

/// Whether a word is a name, however long it is.
pub(crate) fn is_name(word: &[u8]) -> bool
    ensures { result ≡ name word.now }
{
    match word {
        [] => false,
        [first, ..] => first.is_ascii_alphabetic() && !is_reserved(word),
    }
}

/// Whether a word is no longer than a name may be.
pub(crate) fn is_short(word: &[u8]) -> bool
    ensures { result ≡ short word.now }
{
    word.len() <= MAX_NAME_LENGTH
}

/// Whether each byte is a digit.
fn are_digits(bytes: &[u8]) -> bool
    ensures { result ≡ list_all is_ascii_digit bytes.now }
{
    bytes.iter().all(|byte| byte.is_ascii_digit())
}

/// Whether bytes are a decimal number without leading zeros.
fn is_decimal(bytes: &[u8]) -> bool
    ensures { result ≡ decimal bytes.now }
{
    match bytes {
        [] => false,
        [digit] => digit.is_ascii_digit(),
        [digit, ..] => *digit != b'0' && are_digits(bytes),
    }
}

/// Whether a word is `_` and a decimal number.
fn is_automatic(word: &[u8]) -> bool
    ensures { result ≡ automatic word.now }
{
    match word {
        [b'_', digits @ ..] => is_decimal(digits),
        _ => false,
    }
}

/// Whether a word is a label.
pub(crate) fn is_label(word: &[u8]) -> bool
    ensures { result ≡ (name word.now || automatic word.now) }
{
    is_name(word) || is_automatic(word)
}

/// Whether a label or digits are short, if they are a name.
pub(crate) fn is_short_if_name(word: &[u8]) -> bool
    ensures { result ≡ short_if_name word.now }
{
    is_short(word) || !is_name(word)
}
