//! Operands, expressions and lists of them.

ghost use Rattle.std.specs.Prelude.{◌≡◌, ◌<◌, ℕ, Some, IfOk, List as Listed};
ghost use Rattle.sour_tokens.specs.declared.symbols.Symbol.TheVariants.{Comma};
ghost use Rattle.sour_lexer.specs.Placed.{Sign, lexeme_of, all_placed};
ghost use Rattle.sour_raw.specs.Combinators.{next, others};
ghost use Rattle.sour_raw.specs.Keys.{op_of as is_op};
ghost use Rattle.sour_raw.specs.Expressions.{simple_at, operation_at, index_at, tail_at, expr_at, exprs_at, begins_expr};
ghost use Rattle.sour_raw.specs.Variables.{with_simple, with_expr, with_exprs};
ghost use Rattle.sour_reader.specs.Given.{Gives};

use crate::items::{Item, before, repeated, too_many};
use crate::literals::{has_literal, has_name, literal, mention};
use crate::stop::Stop;
use crate::tokens::{Rest, after_symbol, after_word, has_symbol, has_word};
use crate::variables::Variables;
use sour_lexer::{Symbol, Token};
use sour_raw::{RawExpr, RawSimple};
use sour_syntax::{List, Op};
use std::alloc::Global;

/// An operand.
#[tactic(auto, unfolding(sour_raw::specs::Expressions::simple_at))]
pub(crate) fn simple<'a>(
    alloc: Global,
    variables: &mut Variables,
    tokens: Rest<'a>,
) -> Result<(RawSimple, Rest<'a>), Stop<'a>>
    ensures read { Gives result (simple_at variables.old) tokens.now }
    ensures variables { IfOk result (λ x. variables.new ≡ with_simple variables.old x.0) }
{
    if has_name(tokens) {
        let (name, rest) = mention(alloc, variables, tokens)?;
        Ok((RawSimple::Name(name), rest))
    } else {
        let (literal, rest) = literal(alloc, tokens)?;
        Ok((RawSimple::Lit(literal), rest))
    }
}

/// The binary operator that a symbol is.
fn op_of_symbol(symbol: Symbol) -> Option<Op>
    ensures { result ≡ is_op (Sign symbol) }
{
    match symbol {
        Symbol::Plus => Some(Op::Add),
        Symbol::Minus => Some(Op::Sub),
        Symbol::Star => Some(Op::Mul),
        Symbol::Slash => Some(Op::Div),
        Symbol::Percent => Some(Op::Rem),
        Symbol::EqualEqual => Some(Op::Eq),
        Symbol::NotEqual => Some(Op::Ne),
        Symbol::Less => Some(Op::Lt),
        Symbol::LessEqual => Some(Op::Le),
        Symbol::Greater => Some(Op::Gt),
        Symbol::GreaterEqual => Some(Op::Ge),
        Symbol::AndAnd => Some(Op::And),
        Symbol::OrOr => Some(Op::Or),
        _ => None,
    }
}

/// The binary operator that a token is.
fn op_of(token: Token<'_>) -> Option<Op>
    ensures { result ≡ is_op (lexeme_of token.entry) }
{
    match token {
        Token::Symbol(symbol) => op_of_symbol(symbol),
        _ => None,
    }
}

/// An operator and an operand after the first operand, or nothing.
#[tactic(auto, unfolding(sour_raw::specs::Expressions::operation_at, sour_raw::specs::Expressions::op_at))]
fn operation<'a>(
    alloc: Global,
    variables: &mut Variables,
    left: RawSimple,
    tokens: Rest<'a>,
) -> Result<(RawExpr, Rest<'a>), Stop<'a>>
    ensures read { (names : Listed (Listed ℕ)) → variables.old ≡ with_simple names left → Gives result (operation_at names left) tokens.now }
    ensures variables { IfOk result (λ x. (names : Listed (Listed ℕ)) → variables.old ≡ with_simple names left → variables.new ≡ with_expr names x.0) }
{
    match tokens {
        [first, rest @ ..] => match op_of(first.token) {
            Some(op) => {
                let (right, rest) = simple(alloc, variables, rest)?;
                Ok((RawExpr::Binary(op, left, right), rest))
            }
            None => Ok((RawExpr::Plain(left), tokens)),
        },
        [] => Ok((RawExpr::Plain(left), tokens)),
    }
}

/// An index in brackets.
#[tactic(auto, unfolding(sour_raw::specs::Expressions::index_at))]
fn index<'a>(
    alloc: Global,
    variables: &mut Variables,
    tokens: Rest<'a>,
) -> Result<(RawSimple, Rest<'a>), Stop<'a>>
    ensures read { Gives result (index_at variables.old) tokens.now }
    ensures variables { IfOk result (λ x. variables.new ≡ with_simple variables.old x.0) }
{
    let rest = after_symbol(tokens, Symbol::OpenBracket)?;
    let (index, rest) = simple(alloc, variables, rest)?;
    let rest = after_symbol(rest, Symbol::CloseBracket)?;
    Ok((index, rest))
}

/// What an expression has after its first operand.
#[tactic(auto, unfolding(sour_raw::specs::Expressions::tail_at))]
fn tail<'a>(
    alloc: Global,
    variables: &mut Variables,
    first: RawSimple,
    tokens: Rest<'a>,
) -> Result<(RawExpr, Rest<'a>), Stop<'a>>
    ensures read { (names : Listed (Listed ℕ)) → variables.old ≡ with_simple names first → Gives result (tail_at names first) tokens.now }
    ensures variables { IfOk result (λ x. (names : Listed (Listed ℕ)) → variables.old ≡ with_simple names first → variables.new ≡ with_expr names x.0) }
{
    match first {
        RawSimple::Name(array) if has_symbol(tokens, Symbol::OpenBracket) => {
            let (index, rest) = index(alloc, variables, tokens)?;
            Ok((RawExpr::Cell(array, index), rest))
        }
        first => operation(alloc, variables, first, tokens),
    }
}

/// An expression.
#[tactic(auto, unfolding(sour_raw::specs::Expressions::expr_at))]
pub(crate) fn expr<'a>(
    alloc: Global,
    variables: &mut Variables,
    tokens: Rest<'a>,
) -> Result<(RawExpr, Rest<'a>), Stop<'a>>
    ensures read { Gives result (expr_at variables.old) tokens.now }
    ensures variables { IfOk result (λ x. variables.new ≡ with_expr variables.old x.0) }
{
    if has_word(tokens, b"length") {
        let rest = after_word(tokens, b"length")?;
        let (array, rest) = simple(alloc, variables, rest)?;
        Ok((RawExpr::Length(array), rest))
    } else if has_symbol(tokens, Symbol::Bang) {
        let rest = after_symbol(tokens, Symbol::Bang)?;
        let (truth, rest) = simple(alloc, variables, rest)?;
        Ok((RawExpr::Not(truth), rest))
    } else {
        let (first, rest) = simple(alloc, variables, tokens)?;
        tail(alloc, variables, first, rest)
    }
}

/// Whether an expression comes next.
fn has_expr(tokens: Rest<'_>) -> bool
    ensures { result ≡ next begins_expr (all_placed tokens.now) }
{
    has_name(tokens)
        || has_literal(tokens)
        || has_word(tokens, b"length")
        || has_symbol(tokens, Symbol::Bang)
}

/// Expressions after commas.
struct OtherExpr;

impl Item for OtherExpr {
    type Out = RawExpr;

    ghost items = { λ _. others (Sign Comma) expr_at with_expr };

    fn comes(&self, tokens: Rest<'_>) -> bool {
        has_symbol(tokens, Symbol::Comma)
    }

    fn read<'a>(
        &self,
        alloc: Global,
        variables: &mut Variables,
        tokens: Rest<'a>,
    ) -> Result<(RawExpr, Rest<'a>), Stop<'a>> {
        let rest = after_symbol(tokens, Symbol::Comma)?;
        expr(alloc, variables, rest)
    }

    fn refuse<'a>(&self, alloc: Global, variables: &mut Variables, tokens: Rest<'a>) -> Stop<'a> {
        match after_symbol(tokens, Symbol::Comma) {
            Ok(rest) => {
                let read = expr(alloc, variables, rest);
                too_many(rest, read)
            }
            Err(e) => e,
        }
    }
}

/// Expressions with commas between them, at most so many.
#[tactic(auto, unfolding(sour_raw::specs::Expressions::exprs_at))]
pub(crate) fn exprs<'a>(
    alloc: Global,
    most: usize,
    variables: &mut Variables,
    tokens: Rest<'a>,
) -> Result<(List<RawExpr>, Rest<'a>), Stop<'a>>
    requires { 0 < most }
    ensures read { Gives result (exprs_at most variables.old) tokens.now }
    ensures variables { IfOk result (λ x. variables.new ≡ with_exprs variables.old x.0) }
{
    if has_expr(tokens) {
        let (first, rest) = expr(alloc, variables, tokens)?;
        let (others, rest) = repeated(alloc, &OtherExpr, Some(most - 1), variables, rest)?;
        Ok((before(first, others)?, rest))
    } else {
        Ok((List::new(alloc), tokens))
    }
}
