//! Lines of a version.

ghost use Rattle.std.specs.Prelude.{◌≡◌, ℕ, IfOk, List as Listed};
ghost use Rattle.sour_lexer.specs.Placed.{LineEnd, lexeme_of, all_placed};
ghost use Rattle.sour_raw.specs.Combinators.{next, ended, unseparated};
ghost use Rattle.sour_raw.specs.Keys.{heading_of as is_heading};
ghost use Rattle.sour_raw.specs.Instructions.{heading_at, headed_at, content_at, line_at, begins_line};
ghost use Rattle.sour_raw.specs.Productions.{lines_at};
ghost use Rattle.sour_raw.specs.Variables.{with_instr, with_line};
ghost use Rattle.sour_reader.specs.Given.{Gives};
ghost use Rattle.sour_reader.specs.Heading.{with_heading};

use crate::instructions::{assign, by_word, has_instr_word, instr, store};
use crate::items::{Item, repeated, too_many};
use crate::literals::{has_name, label_of};
use crate::stop::Stop;
use crate::tokens::{Rest, after_line_end, next_line};
use crate::variables::Variables;
use crate::words::is_name;
use sour_lexer::{Symbol, Token};
use sour_raw::{Heading, Kind, RawInstr, RawLine};
use sour_syntax::{Label, List};
use std::alloc::Global;

/// The most instructions of a version.
const MAX_INSTRUCTIONS: usize = 4096;

/// What a token after it makes of a name at the head of a line.
fn heading_of(token: Token<'_>) -> Option<Heading>
    ensures { result ≡ is_heading (lexeme_of token.entry) }
{
    match token {
        Token::Symbol(Symbol::Colon) => Some(Heading::Label),
        Token::Symbol(Symbol::Arrow) => Some(Heading::Target),
        Token::Symbol(Symbol::OpenBracket) => Some(Heading::Array),
        _ => None,
    }
}

/// A name at the head of a line, and the token after it, which says what it is.
fn heading<'a>(
    alloc: Global,
    variables: &mut Variables,
    tokens: Rest<'a>,
) -> Result<((Heading, Label), Rest<'a>), Stop<'a>>
    ensures read { Gives result (heading_at variables.old) tokens.now }
    ensures variables { IfOk result (λ x. variables.new ≡ with_heading variables.old x.0.0 x.0.1) }
{
    match tokens {
        [first, rest @ ..] => match first.token {
            Token::Word(word) if is_name(word) => {
                if !variables.fits(word) {
                    return Err(Stop::At(Kind::Limit, tokens));
                }
                match rest {
                    [second, after @ ..] => match heading_of(second.token) {
                        Some(Heading::Label) => Ok((
                            (Heading::Label, label_of(alloc, word)?),
                            after,
                        )),
                        Some(heading) => {
                            if variables.mention(alloc, word)? {
                                Ok(((heading, label_of(alloc, word)?), after))
                            } else {
                                Err(Stop::At(Kind::Limit, tokens))
                            }
                        }
                        None => Err(Stop::At(Kind::Form, rest)),
                    },
                    [] => Err(Stop::At(Kind::Form, rest)),
                }
            }
            _ => Err(Stop::At(Kind::Form, tokens)),
        },
        [] => Err(Stop::At(Kind::Form, tokens)),
    }
}

/// The rest of a line that begins with a name.
#[tactic(auto, unfolding(sour_raw::specs::Instructions::headed_at))]
fn headed<'a>(
    alloc: Global,
    variables: &mut Variables,
    heading: Heading,
    name: Label,
    tokens: Rest<'a>,
) -> Result<((Option<Label>, RawInstr), Rest<'a>), Stop<'a>>
    ensures read { (names : Listed (Listed ℕ)) → variables.old ≡ with_heading names heading name → Gives result (headed_at names heading name) tokens.now }
    ensures variables { IfOk result (λ x. (names : Listed (Listed ℕ)) → variables.old ≡ with_heading names heading name → variables.new ≡ with_instr names x.0.1) }
{
    match heading {
        Heading::Label => {
            let (instr, rest) = instr(alloc, variables, tokens)?;
            Ok(((Some(name), instr), rest))
        }
        Heading::Target => {
            let (instr, rest) = assign(alloc, variables, name, tokens)?;
            Ok(((None, instr), rest))
        }
        Heading::Array => {
            let (instr, rest) = store(alloc, variables, name, tokens)?;
            Ok(((None, instr), rest))
        }
    }
}

/// A line up to its end.
#[tactic(auto, unfolding(sour_raw::specs::Instructions::content_at))]
fn content<'a>(
    alloc: Global,
    variables: &mut Variables,
    tokens: Rest<'a>,
) -> Result<((Option<Label>, RawInstr), Rest<'a>), Stop<'a>>
    ensures read { Gives result (content_at variables.old) tokens.now }
    ensures variables { IfOk result (λ x. variables.new ≡ with_instr variables.old x.0.1) }
{
    if has_name(tokens) {
        let ((heading, name), rest) = heading(alloc, variables, tokens)?;
        headed(alloc, variables, heading, name, rest)
    } else {
        let (instr, rest) = by_word(alloc, variables, tokens)?;
        Ok(((None, instr), rest))
    }
}

/// A line and its end.
fn ended_content<'a>(
    alloc: Global,
    variables: &mut Variables,
    tokens: Rest<'a>,
) -> Result<((Option<Label>, RawInstr), Rest<'a>), Stop<'a>>
    ensures read { Gives result (ended (content_at variables.old) LineEnd) tokens.now }
    ensures variables { IfOk result (λ x. variables.new ≡ with_instr variables.old x.0.1) }
{
    let (content, rest) = content(alloc, variables, tokens)?;
    let rest = after_line_end(rest)?;
    Ok((content, rest))
}

/// A line.
#[tactic(auto, unfolding(sour_raw::specs::Instructions::line_at))]
fn line<'a>(
    alloc: Global,
    variables: &mut Variables,
    tokens: Rest<'a>,
) -> Result<(RawLine, Rest<'a>), Stop<'a>>
    ensures read { Gives result (line_at variables.old) tokens.now }
    ensures variables { IfOk result (λ x. variables.new ≡ with_line variables.old x.0) }
{
    let line = next_line(tokens);
    let ((label, instr), rest) = ended_content(alloc, variables, tokens)?;
    Ok((RawLine { line, label, instr }, rest))
}

/// Lines one after the other.
struct EachLine;

impl Item for EachLine {
    type Out = RawLine;

    ghost items = { λ _. unseparated begins_line line_at with_line };

    fn comes(&self, tokens: Rest<'_>) -> bool {
        has_name(tokens) || has_instr_word(tokens)
    }

    fn read<'a>(
        &self,
        alloc: Global,
        variables: &mut Variables,
        tokens: Rest<'a>,
    ) -> Result<(RawLine, Rest<'a>), Stop<'a>> {
        line(alloc, variables, tokens)
    }

    fn refuse<'a>(&self, alloc: Global, variables: &mut Variables, tokens: Rest<'a>) -> Stop<'a> {
        let read = line(alloc, variables, tokens);
        too_many(tokens, read)
    }
}

/// The lines of a version.
#[tactic(auto, unfolding(sour_raw::specs::Productions::lines_at))]
pub(crate) fn lines<'a>(
    alloc: Global,
    variables: &mut Variables,
    tokens: Rest<'a>,
) -> Result<(List<RawLine>, Rest<'a>), Stop<'a>>
    ensures { Gives result (lines_at variables.old) tokens.now }
{
    repeated(alloc, &EachLine, Some(MAX_INSTRUCTIONS), variables, tokens)
}
