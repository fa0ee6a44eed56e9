//! What follows the functions: the plan and the inputs.

ghost use Rattle.std.specs.Prelude.{◌≡◌};
ghost use Rattle.sour_lexer.specs.Placed.{Word};
ghost use Rattle.sour_raw.specs.Combinators.{leading};
ghost use Rattle.sour_raw.specs.Keys.{section_of as is_section};
ghost use Rattle.sour_raw.specs.Plan.{section_at, sections_at};
ghost use Rattle.sour_raw.specs.Words.{saying_at};
ghost use Rattle.sour_reader.specs.Given.{Gives};

use crate::inputs::{each_input, inputs};
use crate::plan::plan_jobs;
use crate::stop::Stop;
use crate::tokens::{Rest, after_line_end, after_symbol, has_symbol, is_spelled};
use sour_lexer::{Symbol, Token};
use sour_raw::{Kind, RawInput, RawPlanJob, Section};
use sour_syntax::List;
use std::alloc::Global;

/// The jobs of a plan, and the inputs.
pub(crate) type Sections = (List<RawPlanJob>, List<RawInput>);

/// The section that begins with a word.
fn section_of(word: &[u8]) -> Option<Section>
    ensures { result ≡ is_section (Word word.now) }
{
    if is_spelled(b"plan", word) {
        Some(Section::Plan)
    } else if is_spelled(b"inputs", word) {
        Some(Section::Inputs)
    } else {
        None
    }
}

/// What follows the word of a section, and what may follow the section.
#[tactic(auto, unfolding(sour_raw::specs::Plan::section_at))]
fn section<'a>(
    alloc: Global,
    section: Section,
    tokens: Rest<'a>,
) -> Result<(Sections, Rest<'a>), Stop<'a>>
    ensures { Gives result (section_at section) tokens.now }
{
    match section {
        Section::Plan => {
            let rest = after_line_end(tokens)?;
            let (jobs, rest) = plan_jobs(alloc, rest)?;
            let (inputs, rest) = inputs(alloc, rest)?;
            Ok(((jobs, inputs), rest))
        }
        Section::Inputs => {
            let rest = after_line_end(tokens)?;
            let (inputs, rest) = each_input(alloc, rest)?;
            Ok(((List::new(alloc), inputs), rest))
        }
    }
}

/// A section after its `%`, and what may follow it.
fn begun<'a>(alloc: Global, tokens: Rest<'a>) -> Result<(Sections, Rest<'a>), Stop<'a>>
    ensures { Gives result (leading (saying_at is_section) section_at) tokens.now }
{
    match tokens {
        [first, rest @ ..] => match first.token {
            Token::Word(word) => match section_of(word) {
                Some(found) => section(alloc, found, rest),
                None => Err(Stop::At(Kind::Form, tokens)),
            },
            _ => Err(Stop::At(Kind::Form, tokens)),
        },
        [] => Err(Stop::At(Kind::Form, tokens)),
    }
}

/// The plan and the inputs, either of which may be left out.
#[tactic(auto, unfolding(sour_raw::specs::Plan::sections_at))]
pub(crate) fn sections<'a>(
    alloc: Global,
    tokens: Rest<'a>,
) -> Result<(Sections, Rest<'a>), Stop<'a>>
    ensures { Gives result sections_at tokens.now }
{
    if has_symbol(tokens, Symbol::Percent) {
        let rest = after_symbol(tokens, Symbol::Percent)?;
        begun(alloc, rest)
    } else {
        Ok(((List::new(alloc), List::new(alloc)), tokens))
    }
}
