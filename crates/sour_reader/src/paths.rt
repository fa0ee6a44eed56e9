//! Paths and anchors.

ghost use Rattle.std.specs.Prelude.{◌≡◌, IfOk};
ghost use Rattle.sour_tokens.specs.declared.symbols.Symbol.TheVariants.{Slash};
ghost use Rattle.sour_lexer.specs.Placed.{Sign};
ghost use Rattle.sour_raw.specs.Combinators.{after, unseparated};
ghost use Rattle.sour_raw.specs.Grammar.{with_part};
ghost use Rattle.sour_raw.specs.Lexemes.{is};
ghost use Rattle.sour_raw.specs.Plan.{part_at, parts_at, path_at, anchor_at};
ghost use Rattle.sour_raw.specs.Spelling.{after_all, alone};
ghost use Rattle.sour_reader.specs.Given.{Gives};

use crate::items::{Item, repeated, too_many};
use crate::literals::{label, label_of};
use crate::stop::Stop;
use crate::tokens::{Rest, after_symbol, has_symbol};
use crate::variables::Variables;
use crate::words::is_short_if_name;
use sour_lexer::{Symbol, Token};
use sour_raw::Kind;
use sour_syntax::{Label, List};
use std::alloc::{AllocError, Global};

/// A part of a path: a label or digits.
#[tactic(auto, unfolding(sour_raw::specs::Plan::part_at, sour_raw::specs::Expressions::label_at))]
fn part<'a>(alloc: Global, tokens: Rest<'a>) -> Result<(Label, Rest<'a>), Stop<'a>>
    ensures { Gives result part_at tokens.now }
{
    match tokens {
        [first, rest @ ..] => match first.token {
            Token::Digits(digits) => {
                if is_short_if_name(digits) {
                    Ok((label_of(alloc, digits)?, rest))
                } else {
                    Err(Stop::At(Kind::Limit, tokens))
                }
            }
            _ => label(alloc, tokens),
        },
        [] => Err(Stop::At(Kind::Form, tokens)),
    }
}

/// A part of a path after its `/`.
fn other_part<'a>(alloc: Global, tokens: Rest<'a>) -> Result<(Label, Rest<'a>), Stop<'a>>
    ensures { Gives result (after (Sign Slash) part_at) tokens.now }
{
    let rest = after_symbol(tokens, Symbol::Slash)?;
    part(alloc, rest)
}

/// The parts of a path, each after a `/`.
struct OtherPart;

impl Item for OtherPart {
    type Out = Label;

    ghost items = { λ _. unseparated (is (Sign Slash)) (λ names. after (Sign Slash) part_at) alone };

    fn comes(&self, tokens: Rest<'_>) -> bool {
        has_symbol(tokens, Symbol::Slash)
    }

    fn read<'a>(
        &self,
        alloc: Global,
        _variables: &mut Variables,
        tokens: Rest<'a>,
    ) -> Result<(Label, Rest<'a>), Stop<'a>> {
        other_part(alloc, tokens)
    }

    fn refuse<'a>(&self, alloc: Global, _variables: &mut Variables, tokens: Rest<'a>) -> Stop<'a> {
        let read = other_part(alloc, tokens);
        too_many(tokens, read)
    }
}

/// The parts of a path after its label.
#[tactic(auto, unfolding(sour_raw::specs::Plan::parts_at))]
fn parts<'a>(alloc: Global, tokens: Rest<'a>) -> Result<(List<Label>, Rest<'a>), Stop<'a>>
    ensures { Gives result parts_at tokens.now }
{
    let mut no_names = Variables::new(alloc);
    repeated(alloc, &OtherPart, None, &mut no_names, tokens)
}

/// The path of a label and the parts after it.
fn joined(alloc: Global, first: Label, parts: &[Label]) -> Result<Label, AllocError>
    ensures { IfOk result (λ path. path ≡ after_all with_part first parts.now) }
{
    if parts.is_empty() {
        return Ok(first);
    }
    let mut bytes = Vec::from_slice(alloc, first.as_bytes())?;
    for part in parts {
        bytes.push(b'/')?;
        bytes.extend_from_slice(part.as_bytes())?;
    }
    Ok(Label::from_bytes(bytes))
}

/// A path. Its label has the bytes of its tokens, without blanks between them.
#[tactic(auto, unfolding(sour_raw::specs::Plan::path_at))]
pub(crate) fn path<'a>(alloc: Global, tokens: Rest<'a>) -> Result<(Label, Rest<'a>), Stop<'a>>
    ensures { Gives result path_at tokens.now }
{
    let (first, rest) = label(alloc, tokens)?;
    let (parts, rest) = parts(alloc, rest)?;
    Ok((joined(alloc, first, parts.as_slice())?, rest))
}

/// An anchor, named by the path after its `@`.
#[tactic(auto, unfolding(sour_raw::specs::Plan::anchor_at))]
pub(crate) fn anchor<'a>(alloc: Global, tokens: Rest<'a>) -> Result<(Label, Rest<'a>), Stop<'a>>
    ensures { Gives result anchor_at tokens.now }
{
    let rest = after_symbol(tokens, Symbol::At)?;
    path(alloc, rest)
}
