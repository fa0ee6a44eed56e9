//! Inputs and their values.

ghost use Rattle.std.specs.Prelude.{◌≡◌};
ghost use Rattle.sour_raw.specs.Combinators.{unseparated};
ghost use Rattle.sour_raw.specs.Expressions.{literal_at, begins_literal};
ghost use Rattle.sour_raw.specs.Keys.{keyword};
ghost use Rattle.sour_raw.specs.Lexemes.{is};
ghost use Rattle.sour_raw.specs.Plan.{values_at, input_at, each_input_at, inputs_at};
ghost use Rattle.sour_raw.specs.Spelling.{alone};
ghost use Rattle.sour_reader.specs.Given.{Gives};

use crate::items::{Item, repeated, too_many};
use crate::literals::{has_literal, literal};
use crate::stop::Stop;
use crate::tokens::{
    Rest, after_line_end, after_symbol, after_word, has_symbol, has_word, next_line,
};
use crate::variables::Variables;
use sour_lexer::Symbol;
use sour_raw::{RawInput, RawLiteral};
use sour_syntax::List;
use std::alloc::Global;

/// The most values of an input.
const MAX_VALUES: usize = 65536;

/// The most inputs.
const MAX_INPUTS: usize = 4096;

/// Values side by side.
struct EachValue;

impl Item for EachValue {
    type Out = RawLiteral;

    ghost items = { λ _. unseparated begins_literal (λ names. literal_at) alone };

    fn comes(&self, tokens: Rest<'_>) -> bool {
        has_literal(tokens)
    }

    fn read<'a>(
        &self,
        alloc: Global,
        _variables: &mut Variables,
        tokens: Rest<'a>,
    ) -> Result<(RawLiteral, Rest<'a>), Stop<'a>> {
        literal(alloc, tokens)
    }

    fn refuse<'a>(&self, alloc: Global, _variables: &mut Variables, tokens: Rest<'a>) -> Stop<'a> {
        let read = literal(alloc, tokens);
        too_many(tokens, read)
    }
}

/// The values of an input.
#[tactic(auto, unfolding(sour_raw::specs::Plan::values_at))]
fn values<'a>(alloc: Global, tokens: Rest<'a>) -> Result<(List<RawLiteral>, Rest<'a>), Stop<'a>>
    ensures { Gives result values_at tokens.now }
{
    let mut no_names = Variables::new(alloc);
    repeated(alloc, &EachValue, Some(MAX_VALUES), &mut no_names, tokens)
}

/// An input.
#[tactic(auto, unfolding(sour_raw::specs::Plan::input_at))]
fn input<'a>(alloc: Global, tokens: Rest<'a>) -> Result<(RawInput, Rest<'a>), Stop<'a>>
    ensures { Gives result input_at tokens.now }
{
    let line = next_line(tokens);
    let rest = after_word(tokens, b"input")?;
    let (values, rest) = values(alloc, rest)?;
    let rest = after_line_end(rest)?;
    Ok((RawInput { line, values }, rest))
}

/// Inputs one after the other.
struct EachInput;

impl Item for EachInput {
    type Out = RawInput;

    ghost items = { λ _. unseparated (is (keyword "input")) (λ names. input_at) alone };

    fn comes(&self, tokens: Rest<'_>) -> bool {
        has_word(tokens, b"input")
    }

    fn read<'a>(
        &self,
        alloc: Global,
        _variables: &mut Variables,
        tokens: Rest<'a>,
    ) -> Result<(RawInput, Rest<'a>), Stop<'a>> {
        input(alloc, tokens)
    }

    fn refuse<'a>(&self, alloc: Global, _variables: &mut Variables, tokens: Rest<'a>) -> Stop<'a> {
        let read = input(alloc, tokens);
        too_many(tokens, read)
    }
}

/// Inputs as long as another comes.
#[tactic(auto, unfolding(sour_raw::specs::Plan::each_input_at))]
pub(crate) fn each_input<'a>(
    alloc: Global,
    tokens: Rest<'a>,
) -> Result<(List<RawInput>, Rest<'a>), Stop<'a>>
    ensures { Gives result each_input_at tokens.now }
{
    let mut no_names = Variables::new(alloc);
    repeated(alloc, &EachInput, Some(MAX_INPUTS), &mut no_names, tokens)
}

/// The inputs after a plan, or none.
#[tactic(auto, unfolding(sour_raw::specs::Plan::inputs_at))]
pub(crate) fn inputs<'a>(
    alloc: Global,
    tokens: Rest<'a>,
) -> Result<(List<RawInput>, Rest<'a>), Stop<'a>>
    ensures { Gives result inputs_at tokens.now }
{
    if has_symbol(tokens, Symbol::Percent) {
        let rest = after_symbol(tokens, Symbol::Percent)?;
        let rest = after_word(rest, b"inputs")?;
        let rest = after_line_end(rest)?;
        each_input(alloc, rest)
    } else {
        Ok((List::new(alloc), tokens))
    }
}
