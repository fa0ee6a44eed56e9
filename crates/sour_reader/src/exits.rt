//! Places, maps, further frames and exits.

ghost use Rattle.std.specs.Prelude.{◌≡◌, None, IfOk};
ghost use Rattle.sour_tokens.specs.declared.symbols.Symbol.TheVariants.{Comma};
ghost use Rattle.sour_lexer.specs.Placed.{Sign};
ghost use Rattle.sour_raw.specs.Combinators.{others, listed_at};
ghost use Rattle.sour_raw.specs.Lexemes.{comma};
ghost use Rattle.sour_raw.specs.Expressions.{says_name};
ghost use Rattle.sour_raw.specs.Instructions.{place_at, bind_at, map_at, extra_at, extras_at, exit_at};
ghost use Rattle.sour_raw.specs.Variables.{with_bind, with_map, with_extra, with_exit};
ghost use Rattle.sour_raw.specs.Spelling.{after_all};
ghost use Rattle.sour_reader.specs.Given.{Gives};

use crate::expressions::expr;
use crate::items::{Item, before, repeated, too_many};
use crate::literals::{has_name, label, name};
use crate::stop::Stop;
use crate::tokens::{Rest, after_symbol, has_symbol};
use crate::variables::Variables;
use sour_lexer::Symbol;
use sour_raw::{RawBind, RawExit, RawExtra, RawPlace};
use sour_syntax::List;
use std::alloc::Global;

/// The most further frames that an exit has.
const MAX_EXTRAS: usize = 16;

/// A place.
#[tactic(auto, unfolding(sour_raw::specs::Instructions::place_at))]
fn place<'a>(alloc: Global, tokens: Rest<'a>) -> Result<(RawPlace, Rest<'a>), Stop<'a>>
    ensures { Gives result place_at tokens.now }
{
    let (function, rest) = name(alloc, tokens)?;
    let rest = after_symbol(rest, Symbol::Dot)?;
    let (version, rest) = name(alloc, rest)?;
    let rest = after_symbol(rest, Symbol::Dot)?;
    let (label, rest) = label(alloc, rest)?;
    Ok((
        RawPlace {
            function,
            version,
            label,
        },
        rest,
    ))
}

/// A name of a map and its value.
#[tactic(auto, unfolding(sour_raw::specs::Instructions::bind_at))]
fn bind<'a>(
    alloc: Global,
    variables: &mut Variables,
    tokens: Rest<'a>,
) -> Result<(RawBind, Rest<'a>), Stop<'a>>
    ensures read { Gives result (bind_at variables.old) tokens.now }
    ensures variables { IfOk result (λ x. variables.new ≡ with_bind variables.old x.0) }
{
    let (name, rest) = name(alloc, tokens)?;
    let rest = after_symbol(rest, Symbol::Equal)?;
    let (value, rest) = expr(alloc, variables, rest)?;
    Ok((RawBind { name, value }, rest))
}

/// Names of a map and their values after commas.
struct OtherBind;

impl Item for OtherBind {
    type Out = RawBind;

    ghost items = { λ _. others (Sign Comma) bind_at with_bind };

    fn comes(&self, tokens: Rest<'_>) -> bool {
        has_symbol(tokens, Symbol::Comma)
    }

    fn read<'a>(
        &self,
        alloc: Global,
        variables: &mut Variables,
        tokens: Rest<'a>,
    ) -> Result<(RawBind, Rest<'a>), Stop<'a>> {
        let rest = after_symbol(tokens, Symbol::Comma)?;
        bind(alloc, variables, rest)
    }

    fn refuse<'a>(&self, alloc: Global, variables: &mut Variables, tokens: Rest<'a>) -> Stop<'a> {
        match after_symbol(tokens, Symbol::Comma) {
            Ok(rest) => {
                let read = bind(alloc, variables, rest);
                too_many(rest, read)
            }
            Err(e) => e,
        }
    }
}

/// A map between its brackets.
fn binds<'a>(
    alloc: Global,
    variables: &mut Variables,
    tokens: Rest<'a>,
) -> Result<(List<RawBind>, Rest<'a>), Stop<'a>>
    ensures read { Gives result (listed_at says_name comma bind_at with_bind None variables.old) tokens.now }
    ensures variables { IfOk result (λ x. variables.new ≡ with_map variables.old x.0) }
{
    if has_name(tokens) {
        let (first, rest) = bind(alloc, variables, tokens)?;
        let (others, rest) = repeated(alloc, &OtherBind, None, variables, rest)?;
        Ok((before(first, others)?, rest))
    } else {
        Ok((List::new(alloc), tokens))
    }
}

/// A map.
#[tactic(auto, unfolding(sour_raw::specs::Instructions::map_at))]
fn map<'a>(
    alloc: Global,
    variables: &mut Variables,
    tokens: Rest<'a>,
) -> Result<(List<RawBind>, Rest<'a>), Stop<'a>>
    ensures read { Gives result (map_at variables.old) tokens.now }
    ensures variables { IfOk result (λ x. variables.new ≡ with_map variables.old x.0) }
{
    let rest = after_symbol(tokens, Symbol::OpenBracket)?;
    let (binds, rest) = binds(alloc, variables, rest)?;
    let rest = after_symbol(rest, Symbol::CloseBracket)?;
    Ok((binds, rest))
}

/// A further frame.
#[tactic(auto, unfolding(sour_raw::specs::Instructions::extra_at))]
fn extra<'a>(
    alloc: Global,
    variables: &mut Variables,
    tokens: Rest<'a>,
) -> Result<(RawExtra, Rest<'a>), Stop<'a>>
    ensures read { Gives result (extra_at variables.old) tokens.now }
    ensures variables { IfOk result (λ x. variables.new ≡ with_extra variables.old x.0) }
{
    let (target, rest) = place(alloc, tokens)?;
    let (result, rest) = name(alloc, rest)?;
    let (map, rest) = map(alloc, variables, rest)?;
    Ok((
        RawExtra {
            target,
            result,
            map,
        },
        rest,
    ))
}

/// Further frames after commas.
struct OtherExtra;

impl Item for OtherExtra {
    type Out = RawExtra;

    ghost items = { λ _. others (Sign Comma) extra_at with_extra };

    fn comes(&self, tokens: Rest<'_>) -> bool {
        has_symbol(tokens, Symbol::Comma)
    }

    fn read<'a>(
        &self,
        alloc: Global,
        variables: &mut Variables,
        tokens: Rest<'a>,
    ) -> Result<(RawExtra, Rest<'a>), Stop<'a>> {
        let rest = after_symbol(tokens, Symbol::Comma)?;
        extra(alloc, variables, rest)
    }

    fn refuse<'a>(&self, alloc: Global, variables: &mut Variables, tokens: Rest<'a>) -> Stop<'a> {
        match after_symbol(tokens, Symbol::Comma) {
            Ok(rest) => {
                let read = extra(alloc, variables, rest);
                too_many(rest, read)
            }
            Err(e) => e,
        }
    }
}

/// The further frames, each after a comma.
#[tactic(auto, unfolding(sour_raw::specs::Instructions::extras_at))]
fn extras<'a>(
    alloc: Global,
    variables: &mut Variables,
    tokens: Rest<'a>,
) -> Result<(List<RawExtra>, Rest<'a>), Stop<'a>>
    ensures read { Gives result (extras_at variables.old) tokens.now }
    ensures variables { IfOk result (λ x. variables.new ≡ after_all with_extra variables.old x.0) }
{
    repeated(alloc, &OtherExtra, Some(MAX_EXTRAS), variables, tokens)
}

/// An exit.
#[tactic(auto, unfolding(sour_raw::specs::Instructions::exit_at))]
pub(crate) fn exit<'a>(
    alloc: Global,
    variables: &mut Variables,
    tokens: Rest<'a>,
) -> Result<(RawExit, Rest<'a>), Stop<'a>>
    ensures read { Gives result (exit_at variables.old) tokens.now }
    ensures variables { IfOk result (λ x. variables.new ≡ with_exit variables.old x.0) }
{
    let (target, rest) = place(alloc, tokens)?;
    let (map, rest) = map(alloc, variables, rest)?;
    let (extras, rest) = extras(alloc, variables, rest)?;
    Ok((
        RawExit {
            target,
            map,
            extras,
        },
        rest,
    ))
}
