//! Passes of a job of the plan.

ghost use Rattle.std.specs.Prelude.{◌≡◌};
ghost use Rattle.sour_tokens.specs.declared.symbols.Symbol.TheVariants.{Semicolon};
ghost use Rattle.sour_lexer.specs.Placed.{Sign, Word, all_placed};
ghost use Rattle.sour_raw.specs.declared.parts.PassWord.TheVariants.{Inject, Inline, Hoist};
ghost use Rattle.sour_raw.specs.Combinators.{next, others};
ghost use Rattle.sour_raw.specs.Keys.{pass_word_of as is_pass_word, start_of as is_start};
ghost use Rattle.sour_raw.specs.Plan.{start_at, pass_body_at, pass_at, begins_pass, passes_at};
ghost use Rattle.sour_raw.specs.Spelling.{alone};
ghost use Rattle.sour_reader.specs.Given.{Gives};

use crate::items::{Item, before, repeated, too_many};
use crate::paths::{anchor, path};
use crate::predicates::predicate;
use crate::stop::Stop;
use crate::tokens::{Rest, after_symbol, has_symbol, is_spelled};
use crate::variables::Variables;
use sour_lexer::{Symbol, Token};
use sour_raw::{Kind, PassWord, RawPass};
use sour_syntax::{List, Start};
use std::alloc::Global;

/// The most passes of a job.
const MAX_PASSES: usize = 64;

/// The start that a word is.
fn start_of(word: &[u8]) -> Option<Start>
    ensures { result ≡ is_start (Word word.now) }
{
    if is_spelled(b"text", word) {
        Some(Start::Text)
    } else if is_spelled(b"active", word) {
        Some(Start::Active)
    } else {
        None
    }
}

/// What a job, or inlining, starts from.
#[tactic(auto, unfolding(sour_raw::specs::Plan::start_at))]
pub(crate) fn start<'a>(tokens: Rest<'a>) -> Result<(Start, Rest<'a>), Stop<'a>>
    ensures { Gives result start_at tokens.now }
{
    match tokens {
        [first, rest @ ..] => match first.token {
            Token::Word(word) => match start_of(word) {
                Some(start) => Ok((start, rest)),
                None => Err(Stop::At(Kind::Form, tokens)),
            },
            _ => Err(Stop::At(Kind::Form, tokens)),
        },
        [] => Err(Stop::At(Kind::Form, tokens)),
    }
}

/// The kind of pass that begins with a word.
fn pass_word_of(word: &[u8]) -> Option<PassWord>
    ensures { result ≡ is_pass_word (Word word.now) }
{
    if is_spelled(b"inject", word) {
        Some(PassWord::Inject)
    } else if is_spelled(b"constprop", word) {
        Some(PassWord::Constprop)
    } else if is_spelled(b"unreachable", word) {
        Some(PassWord::Unreachable)
    } else if is_spelled(b"inline", word) {
        Some(PassWord::Inline)
    } else if is_spelled(b"move", word) {
        Some(PassWord::Move)
    } else if is_spelled(b"hoist", word) {
        Some(PassWord::Hoist)
    } else if is_spelled(b"compose", word) {
        Some(PassWord::Compose)
    } else if is_spelled(b"prune", word) {
        Some(PassWord::Prune)
    } else {
        None
    }
}

/// The injection of a predicate, after its word.
#[tactic(auto, unfolding(sour_raw::specs::Plan::pass_body_at))]
fn injection<'a>(alloc: Global, tokens: Rest<'a>) -> Result<(RawPass, Rest<'a>), Stop<'a>>
    ensures { Gives result (pass_body_at Inject) tokens.now }
{
    let (anchor, rest) = anchor(alloc, tokens)?;
    let (predicate, rest) = predicate(alloc, rest)?;
    Ok((RawPass::Inject(anchor, predicate), rest))
}

/// The inlining of a call, after its word.
#[tactic(auto, unfolding(sour_raw::specs::Plan::pass_body_at))]
fn inlining<'a>(alloc: Global, tokens: Rest<'a>) -> Result<(RawPass, Rest<'a>), Stop<'a>>
    ensures { Gives result (pass_body_at Inline) tokens.now }
{
    let (call, rest) = path(alloc, tokens)?;
    let (start, rest) = start(rest)?;
    Ok((RawPass::Inline(call, start), rest))
}

/// The hoisting of a predicate, after its word.
#[tactic(auto, unfolding(sour_raw::specs::Plan::pass_body_at))]
fn hoisting<'a>(alloc: Global, tokens: Rest<'a>) -> Result<(RawPass, Rest<'a>), Stop<'a>>
    ensures { Gives result (pass_body_at Hoist) tokens.now }
{
    let (from, rest) = anchor(alloc, tokens)?;
    let (to, rest) = anchor(alloc, rest)?;
    let (predicate, rest) = predicate(alloc, rest)?;
    Ok((RawPass::Hoist(from, to, predicate), rest))
}

/// What follows the word of a pass.
#[tactic(auto, unfolding(sour_raw::specs::Plan::pass_body_at))]
fn pass_body<'a>(
    alloc: Global,
    word: PassWord,
    tokens: Rest<'a>,
) -> Result<(RawPass, Rest<'a>), Stop<'a>>
    ensures { Gives result (pass_body_at word) tokens.now }
{
    match word {
        PassWord::Inject => injection(alloc, tokens),
        PassWord::Constprop => Ok((RawPass::Constprop, tokens)),
        PassWord::Unreachable => Ok((RawPass::Unreachable, tokens)),
        PassWord::Inline => inlining(alloc, tokens),
        PassWord::Move => {
            let (anchor, rest) = anchor(alloc, tokens)?;
            Ok((RawPass::Move(anchor), rest))
        }
        PassWord::Hoist => hoisting(alloc, tokens),
        PassWord::Compose => {
            let (anchor, rest) = anchor(alloc, tokens)?;
            Ok((RawPass::Compose(anchor), rest))
        }
        PassWord::Prune => Ok((RawPass::Prune, tokens)),
    }
}

/// A pass.
#[tactic(auto, unfolding(sour_raw::specs::Plan::pass_at))]
fn pass<'a>(alloc: Global, tokens: Rest<'a>) -> Result<(RawPass, Rest<'a>), Stop<'a>>
    ensures { Gives result pass_at tokens.now }
{
    match tokens {
        [first, rest @ ..] => match first.token {
            Token::Word(word) => match pass_word_of(word) {
                Some(word) => pass_body(alloc, word, rest),
                None => Err(Stop::At(Kind::Form, tokens)),
            },
            _ => Err(Stop::At(Kind::Form, tokens)),
        },
        [] => Err(Stop::At(Kind::Form, tokens)),
    }
}

/// Whether a pass comes next.
fn has_pass(tokens: Rest<'_>) -> bool
    ensures { result ≡ next begins_pass (all_placed tokens.now) }
{
    match tokens {
        [first, ..] => match first.token {
            Token::Word(word) => pass_word_of(word).is_some(),
            _ => false,
        },
        [] => false,
    }
}

/// Passes after semicolons.
struct OtherPass;

impl Item for OtherPass {
    type Out = RawPass;

    ghost items = { λ _. others (Sign Semicolon) (λ names. pass_at) alone };

    fn comes(&self, tokens: Rest<'_>) -> bool {
        has_symbol(tokens, Symbol::Semicolon)
    }

    fn read<'a>(
        &self,
        alloc: Global,
        _variables: &mut Variables,
        tokens: Rest<'a>,
    ) -> Result<(RawPass, Rest<'a>), Stop<'a>> {
        let rest = after_symbol(tokens, Symbol::Semicolon)?;
        pass(alloc, rest)
    }

    fn refuse<'a>(&self, alloc: Global, _variables: &mut Variables, tokens: Rest<'a>) -> Stop<'a> {
        match after_symbol(tokens, Symbol::Semicolon) {
            Ok(rest) => {
                let read = pass(alloc, rest);
                too_many(rest, read)
            }
            Err(e) => e,
        }
    }
}

/// The passes of a job, with semicolons between them.
#[tactic(auto, unfolding(sour_raw::specs::Plan::passes_at))]
pub(crate) fn passes<'a>(
    alloc: Global,
    tokens: Rest<'a>,
) -> Result<(List<RawPass>, Rest<'a>), Stop<'a>>
    ensures { Gives result passes_at tokens.now }
{
    if has_pass(tokens) {
        let (first, rest) = pass(alloc, tokens)?;
        let mut no_names = Variables::new(alloc);
        let (others, rest) = repeated(
            alloc,
            &OtherPass,
            Some(MAX_PASSES - 1),
            &mut no_names,
            rest,
        )?;
        Ok((before(first, others)?, rest))
    } else {
        Ok((List::new(alloc), tokens))
    }
}
