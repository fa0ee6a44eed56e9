//! Names, labels, numbers and literals.

ghost use Rattle.std.specs.Prelude.{◌≡◌, ◌≤◌, ◌<◌, pos, neg_ℤ, IfOk, IfSome, IfNone, is_some};
ghost use Rattle.std.specs.Char.{digit_value as counts};
ghost use Rattle.std.specs.Str.Parse.{digits_value};
ghost use Rattle.sour_lexer.specs.Placed.{all_placed, Digits, Word};
ghost use Rattle.sour_raw.specs.Combinators.{next};
ghost use Rattle.sour_raw.specs.Words.{saying_at};
ghost use Rattle.sour_raw.specs.Keys.{truth_of};
ghost use Rattle.sour_raw.specs.Mentions.{with_name};
ghost use Rattle.sour_raw.specs.Expressions.{name_at, mention_at, label_at, digits_at, number_at, literal_at, says_name, begins_number, begins_literal};
ghost use Rattle.sour_reader.specs.Given.{Gives};

use crate::stop::Stop;
use crate::tokens::{Rest, after_symbol, after_word, has_symbol, has_word, is_spelled};
use crate::variables::Variables;
use crate::words::{is_label, is_name, is_short, is_short_if_name};
use sour_lexer::{Symbol, Token};
use sour_raw::{Kind, RawLiteral};
use sour_syntax::Label;
use std::alloc::{AllocError, Global};

/// The label with these bytes.
pub(crate) fn label_of(alloc: Global, bytes: &[u8]) -> Result<Label, AllocError>
    ensures { IfOk result (λ label. label ≡ bytes.now) }
{
    Ok(Label::from_bytes(Vec::from_slice(alloc, bytes)?))
}

/// Whether a name comes next.
pub(crate) fn has_name(tokens: Rest<'_>) -> bool
    ensures { result ≡ next says_name (all_placed tokens.now) }
{
    match tokens {
        [first, ..] => match first.token {
            Token::Word(word) => is_name(word),
            _ => false,
        },
        [] => false,
    }
}

/// A name, which isn't looked up.
#[tactic(auto, unfolding(sour_raw::specs::Expressions::name_at))]
pub(crate) fn name<'a>(alloc: Global, tokens: Rest<'a>) -> Result<(Label, Rest<'a>), Stop<'a>>
    ensures { Gives result name_at tokens.now }
{
    match tokens {
        [first, rest @ ..] => match first.token {
            Token::Word(word) if is_name(word) => {
                if is_short(word) {
                    Ok((label_of(alloc, word)?, rest))
                } else {
                    Err(Stop::At(Kind::Limit, tokens))
                }
            }
            _ => Err(Stop::At(Kind::Form, tokens)),
        },
        [] => Err(Stop::At(Kind::Form, tokens)),
    }
}

/// A variable, which is then among the variables so far.
#[tactic(auto, unfolding(sour_raw::specs::Expressions::mention_at))]
pub(crate) fn mention<'a>(
    alloc: Global,
    variables: &mut Variables,
    tokens: Rest<'a>,
) -> Result<(Label, Rest<'a>), Stop<'a>>
    ensures read { Gives result (mention_at variables.old) tokens.now }
    ensures variables { IfOk result (λ x. variables.new ≡ with_name variables.old x.0) }
{
    match tokens {
        [first, rest @ ..] => match first.token {
            Token::Word(word) if is_name(word) => {
                if variables.mention(alloc, word)? {
                    Ok((label_of(alloc, word)?, rest))
                } else {
                    Err(Stop::At(Kind::Limit, tokens))
                }
            }
            _ => Err(Stop::At(Kind::Form, tokens)),
        },
        [] => Err(Stop::At(Kind::Form, tokens)),
    }
}

/// A label.
#[tactic(auto, unfolding(sour_raw::specs::Expressions::label_at))]
pub(crate) fn label<'a>(alloc: Global, tokens: Rest<'a>) -> Result<(Label, Rest<'a>), Stop<'a>>
    ensures { Gives result label_at tokens.now }
{
    match tokens {
        [first, rest @ ..] => match first.token {
            Token::Word(word) if is_label(word) => {
                if is_short_if_name(word) {
                    Ok((label_of(alloc, word)?, rest))
                } else {
                    Err(Stop::At(Kind::Limit, tokens))
                }
            }
            _ => Err(Stop::At(Kind::Form, tokens)),
        },
        [] => Err(Stop::At(Kind::Form, tokens)),
    }
}

/// The number that digits write, where it is no more than the most.
fn value_of(digits: &[u8], most: u64) -> Option<u64>
    requires { most < 18446744073709551615 }
    ensures some { IfSome result (λ n. (n ≡ digits_value 10 digits.now) × (n ≤ most)) }
    ensures none { IfNone result (most < digits_value 10 digits.now) }
{
    let mut value: u64 = 0;
    for digit in digits {
        value = value.saturating_mul(10).saturating_add(digit_value(*digit));
        if value > most {
            return None;
        }
    }
    Some(value)
}

/// What a byte counts as among digits.
fn digit_value(byte: u8) -> u64
    ensures { result ≡ counts byte }
{
    match byte {
        b'0'..=b'9' => (byte - b'0') as u64,
        b'A'..=b'Z' => (byte - b'A') as u64 + 10,
        b'a'..=b'z' => (byte - b'a') as u64 + 10,
        _ => 36,
    }
}

/// Digits of a number that is no more than the most.
#[tactic(auto, unfolding(sour_raw::specs::Expressions::digits_at))]
fn digits<'a>(most: u64, tokens: Rest<'a>) -> Result<(u64, Rest<'a>), Stop<'a>>
    requires { most < 18446744073709551615 }
    ensures read { Gives result (digits_at most) tokens.now }
    ensures small { IfOk result (λ x. x.0 ≤ most) }
{
    match tokens {
        [first, rest @ ..] => match first.token {
            Token::Digits(digits) => match value_of(digits, most) {
                Some(value) => Ok((value, rest)),
                None => Err(Stop::At(Kind::Number, tokens)),
            },
            _ => Err(Stop::At(Kind::Form, tokens)),
        },
        [] => Err(Stop::At(Kind::Form, tokens)),
    }
}

/// The number below zero of which these are the digits.
fn below_zero(value: u64) -> i64
    requires { value ≤ 9223372036854775808 }
    ensures { result ≡ neg_ℤ (pos value) }
{
    if value == 9223372036854775808 {
        i64::MIN
    } else {
        -(value as i64)
    }
}

/// A number.
#[tactic(auto, unfolding(sour_raw::specs::Expressions::number_at))]
fn number<'a>(tokens: Rest<'a>) -> Result<(i64, Rest<'a>), Stop<'a>>
    ensures { Gives result number_at tokens.now }
{
    if has_symbol(tokens, Symbol::Minus) {
        let rest = after_symbol(tokens, Symbol::Minus)?;
        let (value, rest) = digits(9223372036854775808, rest)?;
        Ok((below_zero(value), rest))
    } else {
        let (value, rest) = digits(9223372036854775807, tokens)?;
        Ok((value as i64, rest))
    }
}

/// Whether a number comes next.
fn has_number(tokens: Rest<'_>) -> bool
    ensures { result ≡ next begins_number (all_placed tokens.now) }
{
    match tokens {
        [first, ..] => matches!(first.token, Token::Digits(_) | Token::Symbol(Symbol::Minus)),
        [] => false,
    }
}

/// The truth value that a word is.
fn truth_of_word(word: &[u8]) -> Option<bool>
    ensures { result ≡ truth_of (Word word.now) }
{
    if is_spelled(b"true", word) {
        Some(true)
    } else if is_spelled(b"false", word) {
        Some(false)
    } else {
        None
    }
}

/// A truth value.
fn truth<'a>(tokens: Rest<'a>) -> Result<(bool, Rest<'a>), Stop<'a>>
    ensures { Gives result (saying_at truth_of) tokens.now }
{
    match tokens {
        [first, rest @ ..] => match first.token {
            Token::Word(word) => match truth_of_word(word) {
                Some(truth) => Ok((truth, rest)),
                None => Err(Stop::At(Kind::Form, tokens)),
            },
            _ => Err(Stop::At(Kind::Form, tokens)),
        },
        [] => Err(Stop::At(Kind::Form, tokens)),
    }
}

/// A literal.
#[tactic(auto, unfolding(sour_raw::specs::Expressions::literal_at))]
pub(crate) fn literal<'a>(
    alloc: Global,
    tokens: Rest<'a>,
) -> Result<(RawLiteral, Rest<'a>), Stop<'a>>
    ensures { Gives result literal_at tokens.now }
{
    if has_number(tokens) {
        let (number, rest) = number(tokens)?;
        Ok((RawLiteral::Number(number), rest))
    } else if has_symbol(tokens, Symbol::Ampersand) {
        let rest = after_symbol(tokens, Symbol::Ampersand)?;
        let (function, rest) = name(alloc, rest)?;
        Ok((RawLiteral::Function(function), rest))
    } else if has_word(tokens, b"nil") {
        let rest = after_word(tokens, b"nil")?;
        Ok((RawLiteral::Nil, rest))
    } else {
        let (truth, rest) = truth(tokens)?;
        Ok((RawLiteral::Truth(truth), rest))
    }
}

/// Whether a literal comes next.
pub(crate) fn has_literal(tokens: Rest<'_>) -> bool
    ensures { result ≡ next begins_literal (all_placed tokens.now) }
{
    match tokens {
        [first, ..] => match first.token {
            Token::Digits(_) | Token::Symbol(Symbol::Minus | Symbol::Ampersand) => true,
            Token::Word(word) => is_spelled(b"nil", word) || truth_of_word(word).is_some(),
            _ => false,
        },
        [] => false,
    }
}
