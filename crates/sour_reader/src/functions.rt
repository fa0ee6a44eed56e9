//! Versions and functions.

ghost use Rattle.std.specs.Prelude.{◌≡◌, IfOk};
ghost use Rattle.sour_tokens.specs.declared.symbols.Symbol.TheVariants.{Comma};
ghost use Rattle.sour_lexer.specs.Placed.{Sign};
ghost use Rattle.sour_raw.specs.Spelling.{alone};
ghost use Rattle.sour_raw.specs.Combinators.{others, unseparated};
ghost use Rattle.sour_raw.specs.Lexemes.{is};
ghost use Rattle.sour_raw.specs.Keys.{keyword};
ghost use Rattle.sour_raw.specs.Grammar.{parameter_names as names_of_parameters};
ghost use Rattle.sour_raw.specs.Expressions.{name_at};
ghost use Rattle.sour_raw.specs.Productions.{version_at, versions_at, parameters_at, function_at, functions_at};
ghost use Rattle.sour_reader.specs.Given.{Gives};

use crate::items::{Item, before, repeated, too_many};
use crate::lines::lines;
use crate::literals::{has_name, name};
use crate::stop::Stop;
use crate::tokens::{
    Rest, after_line_end, after_symbol, after_word, has_symbol, has_word, next_line,
};
use crate::variables::Variables;
use sour_lexer::Symbol;
use sour_raw::{RawFunction, RawVersion};
use sour_syntax::{Label, List};
use std::alloc::{AllocError, Global};

/// The most functions of a program.
const MAX_FUNCTIONS: usize = 256;

/// The most versions of a function.
const MAX_VERSIONS: usize = 16;

/// The most parameters of a function.
const MAX_PARAMETERS: usize = 255;

/// The variables where a version begins.
fn parameter_names(alloc: Global, parameters: &List<Label>) -> Result<Variables, AllocError>
    ensures { IfOk result (λ variables. variables ≡ names_of_parameters parameters.now) }
{
    let mut variables = Variables::new(alloc);
    for parameter in parameters.as_slice() {
        variables.add(alloc, parameter.as_bytes())?;
    }
    Ok(variables)
}

/// A version of a function with these parameters.
#[tactic(auto, unfolding(sour_raw::specs::Productions::version_at))]
fn version<'a>(
    alloc: Global,
    parameters: &List<Label>,
    tokens: Rest<'a>,
) -> Result<(RawVersion, Rest<'a>), Stop<'a>>
    ensures { Gives result (version_at parameters.now) tokens.now }
{
    let line = next_line(tokens);
    let rest = after_word(tokens, b"ver")?;
    let (name, rest) = name(alloc, rest)?;
    let rest = after_line_end(rest)?;
    let mut variables = parameter_names(alloc, parameters)?;
    let (lines, rest) = lines(alloc, &mut variables, rest)?;
    Ok((RawVersion { line, name, lines }, rest))
}

/// Versions of a function one after the other.
#[derive(Drop)]
struct EachVersion {
    /// The parameters of the function.
    parameters: List<Label>,
}

impl Item for EachVersion {
    type Out = RawVersion;

    ghost items = { λ each. unseparated (is (keyword "ver")) (λ names. version_at each.parameters) alone };

    fn comes(&self, tokens: Rest<'_>) -> bool {
        has_word(tokens, b"ver")
    }

    fn read<'a>(
        &self,
        alloc: Global,
        _variables: &mut Variables,
        tokens: Rest<'a>,
    ) -> Result<(RawVersion, Rest<'a>), Stop<'a>> {
        version(alloc, &self.parameters, tokens)
    }

    fn refuse<'a>(&self, alloc: Global, _variables: &mut Variables, tokens: Rest<'a>) -> Stop<'a> {
        let read = version(alloc, &self.parameters, tokens);
        too_many(tokens, read)
    }
}

/// The versions of a function with these parameters.
#[tactic(auto, unfolding(sour_raw::specs::Productions::versions_at))]
fn versions<'a>(
    alloc: Global,
    each: &EachVersion,
    tokens: Rest<'a>,
) -> Result<(List<RawVersion>, Rest<'a>), Stop<'a>>
    ensures { Gives result (versions_at each.now.parameters) tokens.now }
{
    let mut none = Variables::new(alloc);
    let (first, rest) = version(alloc, &each.parameters, tokens)?;
    let (others, rest) = repeated(alloc, each, Some(MAX_VERSIONS - 1), &mut none, rest)?;
    Ok((before(first, others)?, rest))
}

/// Names after commas, which aren't looked up.
struct OtherName;

impl Item for OtherName {
    type Out = Label;

    ghost items = { λ _. others (Sign Comma) (λ names. name_at) alone };

    fn comes(&self, tokens: Rest<'_>) -> bool {
        has_symbol(tokens, Symbol::Comma)
    }

    fn read<'a>(
        &self,
        alloc: Global,
        _variables: &mut Variables,
        tokens: Rest<'a>,
    ) -> Result<(Label, Rest<'a>), Stop<'a>> {
        let rest = after_symbol(tokens, Symbol::Comma)?;
        name(alloc, rest)
    }

    fn refuse<'a>(&self, alloc: Global, _variables: &mut Variables, tokens: Rest<'a>) -> Stop<'a> {
        match after_symbol(tokens, Symbol::Comma) {
            Ok(rest) => {
                let read = name(alloc, rest);
                too_many(rest, read)
            }
            Err(e) => e,
        }
    }
}

/// The parameters of a function.
#[tactic(auto, unfolding(sour_raw::specs::Productions::parameters_at))]
fn parameters<'a>(alloc: Global, tokens: Rest<'a>) -> Result<(List<Label>, Rest<'a>), Stop<'a>>
    ensures { Gives result parameters_at tokens.now }
{
    if has_name(tokens) {
        let mut none = Variables::new(alloc);
        let (first, rest) = name(alloc, tokens)?;
        let (others, rest) = repeated(
            alloc,
            &OtherName,
            Some(MAX_PARAMETERS - 1),
            &mut none,
            rest,
        )?;
        Ok((before(first, others)?, rest))
    } else {
        Ok((List::new(alloc), tokens))
    }
}

/// A function.
#[tactic(auto, unfolding(sour_raw::specs::Productions::function_at))]
fn function<'a>(alloc: Global, tokens: Rest<'a>) -> Result<(RawFunction, Rest<'a>), Stop<'a>>
    ensures { Gives result function_at tokens.now }
{
    let line = next_line(tokens);
    let rest = after_word(tokens, b"fun")?;
    let (name, rest) = name(alloc, rest)?;
    let rest = after_symbol(rest, Symbol::OpenParen)?;
    let (parameters, rest) = parameters(alloc, rest)?;
    let rest = after_symbol(rest, Symbol::CloseParen)?;
    let rest = after_line_end(rest)?;
    let each = EachVersion { parameters };
    let (versions, rest) = versions(alloc, &each, rest)?;
    let rest = after_word(rest, b"end")?;
    let rest = after_line_end(rest)?;
    let EachVersion { parameters } = each;
    Ok((
        RawFunction {
            line,
            name,
            parameters,
            versions,
        },
        rest,
    ))
}

/// Functions one after the other.
struct EachFunction;

impl Item for EachFunction {
    type Out = RawFunction;

    ghost items = { λ _. unseparated (is (keyword "fun")) (λ names. function_at) alone };

    fn comes(&self, tokens: Rest<'_>) -> bool {
        has_word(tokens, b"fun")
    }

    fn read<'a>(
        &self,
        alloc: Global,
        _variables: &mut Variables,
        tokens: Rest<'a>,
    ) -> Result<(RawFunction, Rest<'a>), Stop<'a>> {
        function(alloc, tokens)
    }

    fn refuse<'a>(&self, alloc: Global, _variables: &mut Variables, tokens: Rest<'a>) -> Stop<'a> {
        let read = function(alloc, tokens);
        too_many(tokens, read)
    }
}

/// The functions of a program.
#[tactic(auto, unfolding(sour_raw::specs::Productions::functions_at))]
pub(crate) fn functions<'a>(
    alloc: Global,
    tokens: Rest<'a>,
) -> Result<(List<RawFunction>, Rest<'a>), Stop<'a>>
    ensures { Gives result functions_at tokens.now }
{
    let mut none = Variables::new(alloc);
    let (first, rest) = function(alloc, tokens)?;
    let (others, rest) = repeated(
        alloc,
        &EachFunction,
        Some(MAX_FUNCTIONS - 1),
        &mut none,
        rest,
    )?;
    Ok((before(first, others)?, rest))
}
