//! Predicates of the plan.

ghost use Rattle.std.specs.Prelude.{◌≡◌};
ghost use Rattle.sour_lexer.specs.Placed.{all_placed};
ghost use Rattle.sour_raw.specs.Combinators.{next};
ghost use Rattle.sour_raw.specs.Plan.{psimple_at, pred_at, says_label};
ghost use Rattle.sour_reader.specs.Given.{Gives};

use crate::literals::literal;
use crate::paths::path;
use crate::stop::Stop;
use crate::tokens::{Rest, after_symbol};
use crate::words::is_label;
use sour_lexer::{Symbol, Token};
use sour_raw::{RawPlanSimple, RawPredicate};
use std::alloc::Global;

/// Whether a label comes next.
fn has_label(tokens: Rest<'_>) -> bool
    ensures { result ≡ next says_label (all_placed tokens.now) }
{
    match tokens {
        [first, ..] => match first.token {
            Token::Word(word) => is_label(word),
            _ => false,
        },
        [] => false,
    }
}

/// A side of a predicate.
#[tactic(auto, unfolding(sour_raw::specs::Plan::psimple_at))]
fn side<'a>(alloc: Global, tokens: Rest<'a>) -> Result<(RawPlanSimple, Rest<'a>), Stop<'a>>
    ensures { Gives result psimple_at tokens.now }
{
    if has_label(tokens) {
        let (name, rest) = path(alloc, tokens)?;
        Ok((RawPlanSimple::Name(name), rest))
    } else {
        let (literal, rest) = literal(alloc, tokens)?;
        Ok((RawPlanSimple::Lit(literal), rest))
    }
}

/// A predicate.
#[tactic(auto, unfolding(sour_raw::specs::Plan::pred_at))]
pub(crate) fn predicate<'a>(
    alloc: Global,
    tokens: Rest<'a>,
) -> Result<(RawPredicate, Rest<'a>), Stop<'a>>
    ensures { Gives result pred_at tokens.now }
{
    let (left, rest) = side(alloc, tokens)?;
    let rest = after_symbol(rest, Symbol::EqualEqual)?;
    let (right, rest) = side(alloc, rest)?;
    Ok((RawPredicate { left, right }, rest))
}
