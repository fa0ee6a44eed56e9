//! Instructions.

ghost use Rattle.std.specs.Prelude.{◌≡◌, ℕ, is_some, IfOk, List as Listed};
ghost use Rattle.sour_lexer.specs.Placed.{Word, all_placed};
ghost use Rattle.sour_raw.specs.declared.parts.InstrWord.TheVariants.{Var, Array, Branch, Call};
ghost use Rattle.sour_raw.specs.Combinators.{next};
ghost use Rattle.sour_raw.specs.Keys.{instr_word_of as is_instr_word};
ghost use Rattle.sour_raw.specs.Mentions.{with_name};
ghost use Rattle.sour_raw.specs.Instructions.{array_at, call_at, assume_at, body_at, by_word_at, assign_at, store_at, setting_at, instr_at};
ghost use Rattle.sour_raw.specs.Variables.{with_instr};
ghost use Rattle.sour_reader.specs.Given.{Gives};

use crate::exits::exit;
use crate::expressions::{expr, exprs, simple};
use crate::literals::{has_name, label, mention};
use crate::stop::Stop;
use crate::tokens::{Rest, after_symbol, after_word, has_symbol, is_spelled};
use crate::variables::Variables;
use sour_lexer::{Symbol, Token};
use sour_raw::{InstrWord, Kind, RawInstr};
use sour_syntax::Label;
use std::alloc::Global;

/// The most elements of an array that is made of a list.
const MAX_ELEMENTS: usize = 1024;

/// The most arguments of a call.
const MAX_ARGUMENTS: usize = 255;

/// The most predicates of an assume.
const MAX_PREDICATES: usize = 16;

/// What follows the name of an array that is made.
#[tactic(auto, unfolding(sour_raw::specs::Instructions::array_at))]
fn array<'a>(
    alloc: Global,
    variables: &mut Variables,
    name: Label,
    tokens: Rest<'a>,
) -> Result<(RawInstr, Rest<'a>), Stop<'a>>
    ensures read { (names : Listed (Listed ℕ)) → variables.old ≡ with_name names name → Gives result (array_at names name) tokens.now }
    ensures variables { IfOk result (λ x. (names : Listed (Listed ℕ)) → variables.old ≡ with_name names name → variables.new ≡ with_instr names x.0) }
{
    if has_symbol(tokens, Symbol::OpenBracket) {
        let rest = after_symbol(tokens, Symbol::OpenBracket)?;
        let (length, rest) = expr(alloc, variables, rest)?;
        let rest = after_symbol(rest, Symbol::CloseBracket)?;
        Ok((RawInstr::ArrayLength(name, length), rest))
    } else {
        let rest = after_symbol(tokens, Symbol::Equal)?;
        let rest = after_symbol(rest, Symbol::OpenBracket)?;
        let (elements, rest) = exprs(alloc, MAX_ELEMENTS, variables, rest)?;
        let rest = after_symbol(rest, Symbol::CloseBracket)?;
        Ok((RawInstr::ArrayList(name, elements), rest))
    }
}

/// What follows the name of the variable of a call.
#[tactic(auto, unfolding(sour_raw::specs::Instructions::call_at))]
fn call<'a>(
    alloc: Global,
    variables: &mut Variables,
    name: Label,
    tokens: Rest<'a>,
) -> Result<(RawInstr, Rest<'a>), Stop<'a>>
    ensures read { (names : Listed (Listed ℕ)) → variables.old ≡ with_name names name → Gives result (call_at names name) tokens.now }
    ensures variables { IfOk result (λ x. (names : Listed (Listed ℕ)) → variables.old ≡ with_name names name → variables.new ≡ with_instr names x.0) }
{
    let rest = after_symbol(tokens, Symbol::Equal)?;
    let (callee, rest) = simple(alloc, variables, rest)?;
    let rest = after_symbol(rest, Symbol::OpenParen)?;
    let (arguments, rest) = exprs(alloc, MAX_ARGUMENTS, variables, rest)?;
    let rest = after_symbol(rest, Symbol::CloseParen)?;
    Ok((RawInstr::Call(name, callee, arguments), rest))
}

/// The predicates of an assume, and its exit.
#[tactic(auto, unfolding(sour_raw::specs::Instructions::assume_at))]
fn assume<'a>(
    alloc: Global,
    variables: &mut Variables,
    tokens: Rest<'a>,
) -> Result<(RawInstr, Rest<'a>), Stop<'a>>
    ensures read { Gives result (assume_at variables.old) tokens.now }
    ensures variables { IfOk result (λ x. variables.new ≡ with_instr variables.old x.0) }
{
    let (predicates, rest) = exprs(alloc, MAX_PREDICATES, variables, tokens)?;
    let rest = after_word(rest, b"else")?;
    let (exit, rest) = exit(alloc, variables, rest)?;
    Ok((RawInstr::Assume(predicates, exit), rest))
}

/// A declaration after its word.
#[tactic(auto, unfolding(sour_raw::specs::Instructions::body_at))]
fn declaration<'a>(
    alloc: Global,
    variables: &mut Variables,
    tokens: Rest<'a>,
) -> Result<(RawInstr, Rest<'a>), Stop<'a>>
    ensures read { Gives result (body_at variables.old Var) tokens.now }
    ensures variables { IfOk result (λ x. variables.new ≡ with_instr variables.old x.0) }
{
    let (name, rest) = mention(alloc, variables, tokens)?;
    let rest = after_symbol(rest, Symbol::Equal)?;
    let (value, rest) = expr(alloc, variables, rest)?;
    Ok((RawInstr::Var(name, value), rest))
}

/// A branch after its word.
#[tactic(auto, unfolding(sour_raw::specs::Instructions::body_at))]
fn branch<'a>(
    alloc: Global,
    variables: &mut Variables,
    tokens: Rest<'a>,
) -> Result<(RawInstr, Rest<'a>), Stop<'a>>
    ensures read { Gives result (body_at variables.old Branch) tokens.now }
    ensures variables { IfOk result (λ x. variables.new ≡ with_instr variables.old x.0) }
{
    let (condition, rest) = expr(alloc, variables, tokens)?;
    let (if_true, rest) = label(alloc, rest)?;
    let (if_false, rest) = label(alloc, rest)?;
    Ok((RawInstr::Branch(condition, if_true, if_false), rest))
}

/// An array that is made, after its word.
#[tactic(auto, unfolding(sour_raw::specs::Instructions::body_at))]
fn made_array<'a>(
    alloc: Global,
    variables: &mut Variables,
    tokens: Rest<'a>,
) -> Result<(RawInstr, Rest<'a>), Stop<'a>>
    ensures read { Gives result (body_at variables.old Array) tokens.now }
    ensures variables { IfOk result (λ x. variables.new ≡ with_instr variables.old x.0) }
{
    let (name, rest) = mention(alloc, variables, tokens)?;
    array(alloc, variables, name, rest)
}

/// A call after its word.
#[tactic(auto, unfolding(sour_raw::specs::Instructions::body_at))]
fn made_call<'a>(
    alloc: Global,
    variables: &mut Variables,
    tokens: Rest<'a>,
) -> Result<(RawInstr, Rest<'a>), Stop<'a>>
    ensures read { Gives result (body_at variables.old Call) tokens.now }
    ensures variables { IfOk result (λ x. variables.new ≡ with_instr variables.old x.0) }
{
    let (name, rest) = mention(alloc, variables, tokens)?;
    call(alloc, variables, name, rest)
}

/// What follows the word of an instruction.
#[tactic(auto, unfolding(sour_raw::specs::Instructions::body_at))]
fn body<'a>(
    alloc: Global,
    variables: &mut Variables,
    word: InstrWord,
    tokens: Rest<'a>,
) -> Result<(RawInstr, Rest<'a>), Stop<'a>>
    ensures read { Gives result (body_at variables.old word) tokens.now }
    ensures variables { IfOk result (λ x. variables.new ≡ with_instr variables.old x.0) }
{
    match word {
        InstrWord::Var => declaration(alloc, variables, tokens),
        InstrWord::Drop => {
            let (name, rest) = mention(alloc, variables, tokens)?;
            Ok((RawInstr::Drop(name), rest))
        }
        InstrWord::Array => made_array(alloc, variables, tokens),
        InstrWord::Branch => branch(alloc, variables, tokens),
        InstrWord::Goto => {
            let (label, rest) = label(alloc, tokens)?;
            Ok((RawInstr::Goto(label), rest))
        }
        InstrWord::Print => {
            let (value, rest) = expr(alloc, variables, tokens)?;
            Ok((RawInstr::Print(value), rest))
        }
        InstrWord::Read => {
            let (name, rest) = mention(alloc, variables, tokens)?;
            Ok((RawInstr::Read(name), rest))
        }
        InstrWord::Call => made_call(alloc, variables, tokens),
        InstrWord::Return => {
            let (value, rest) = expr(alloc, variables, tokens)?;
            Ok((RawInstr::Return(value), rest))
        }
        InstrWord::Stop => Ok((RawInstr::Stop, tokens)),
        InstrWord::Assume => assume(alloc, variables, tokens),
    }
}

/// The kind of instruction that begins with a word.
fn instr_word_of(word: &[u8]) -> Option<InstrWord>
    ensures { result ≡ is_instr_word (Word word.now) }
{
    if is_spelled(b"var", word) {
        Some(InstrWord::Var)
    } else if is_spelled(b"drop", word) {
        Some(InstrWord::Drop)
    } else if is_spelled(b"array", word) {
        Some(InstrWord::Array)
    } else if is_spelled(b"branch", word) {
        Some(InstrWord::Branch)
    } else if is_spelled(b"goto", word) {
        Some(InstrWord::Goto)
    } else if is_spelled(b"print", word) {
        Some(InstrWord::Print)
    } else if is_spelled(b"read", word) {
        Some(InstrWord::Read)
    } else if is_spelled(b"call", word) {
        Some(InstrWord::Call)
    } else if is_spelled(b"return", word) {
        Some(InstrWord::Return)
    } else if is_spelled(b"stop", word) {
        Some(InstrWord::Stop)
    } else if is_spelled(b"assume", word) {
        Some(InstrWord::Assume)
    } else {
        None
    }
}

/// An instruction that begins with its word.
#[tactic(auto, unfolding(sour_raw::specs::Instructions::by_word_at))]
pub(crate) fn by_word<'a>(
    alloc: Global,
    variables: &mut Variables,
    tokens: Rest<'a>,
) -> Result<(RawInstr, Rest<'a>), Stop<'a>>
    ensures read { Gives result (by_word_at variables.old) tokens.now }
    ensures variables { IfOk result (λ x. variables.new ≡ with_instr variables.old x.0) }
{
    match tokens {
        [first, rest @ ..] => match first.token {
            Token::Word(word) => match instr_word_of(word) {
                Some(word) => body(alloc, variables, word, rest),
                None => Err(Stop::At(Kind::Form, tokens)),
            },
            _ => Err(Stop::At(Kind::Form, tokens)),
        },
        [] => Err(Stop::At(Kind::Form, tokens)),
    }
}

/// Whether the word of an instruction comes next.
pub(crate) fn has_instr_word(tokens: Rest<'_>) -> bool
    ensures { result ≡ next (λ lexeme. is_some (is_instr_word lexeme)) (all_placed tokens.now) }
{
    match tokens {
        [first, ..] => match first.token {
            Token::Word(word) => instr_word_of(word).is_some(),
            _ => false,
        },
        [] => false,
    }
}

/// The value that a variable gets, after `<-`.
#[tactic(auto, unfolding(sour_raw::specs::Instructions::assign_at))]
pub(crate) fn assign<'a>(
    alloc: Global,
    variables: &mut Variables,
    name: Label,
    tokens: Rest<'a>,
) -> Result<(RawInstr, Rest<'a>), Stop<'a>>
    ensures read { (names : Listed (Listed ℕ)) → variables.old ≡ with_name names name → Gives result (assign_at names name) tokens.now }
    ensures variables { IfOk result (λ x. (names : Listed (Listed ℕ)) → variables.old ≡ with_name names name → variables.new ≡ with_instr names x.0) }
{
    let (value, rest) = expr(alloc, variables, tokens)?;
    Ok((RawInstr::Assign(name, value), rest))
}

/// The index of a cell and the value that it gets, after `[`.
#[tactic(auto, unfolding(sour_raw::specs::Instructions::store_at))]
pub(crate) fn store<'a>(
    alloc: Global,
    variables: &mut Variables,
    name: Label,
    tokens: Rest<'a>,
) -> Result<(RawInstr, Rest<'a>), Stop<'a>>
    ensures read { (names : Listed (Listed ℕ)) → variables.old ≡ with_name names name → Gives result (store_at names name) tokens.now }
    ensures variables { IfOk result (λ x. (names : Listed (Listed ℕ)) → variables.old ≡ with_name names name → variables.new ≡ with_instr names x.0) }
{
    let (index, rest) = simple(alloc, variables, tokens)?;
    let rest = after_symbol(rest, Symbol::CloseBracket)?;
    let rest = after_symbol(rest, Symbol::Arrow)?;
    let (value, rest) = expr(alloc, variables, rest)?;
    Ok((RawInstr::Store(name, index, value), rest))
}

/// What follows a variable with which an instruction begins.
#[tactic(auto, unfolding(sour_raw::specs::Instructions::setting_at))]
fn setting<'a>(
    alloc: Global,
    variables: &mut Variables,
    name: Label,
    tokens: Rest<'a>,
) -> Result<(RawInstr, Rest<'a>), Stop<'a>>
    ensures read { (names : Listed (Listed ℕ)) → variables.old ≡ with_name names name → Gives result (setting_at names name) tokens.now }
    ensures variables { IfOk result (λ x. (names : Listed (Listed ℕ)) → variables.old ≡ with_name names name → variables.new ≡ with_instr names x.0) }
{
    if has_symbol(tokens, Symbol::Arrow) {
        let rest = after_symbol(tokens, Symbol::Arrow)?;
        assign(alloc, variables, name, rest)
    } else {
        let rest = after_symbol(tokens, Symbol::OpenBracket)?;
        store(alloc, variables, name, rest)
    }
}

/// An instruction.
#[tactic(auto, unfolding(sour_raw::specs::Instructions::instr_at))]
pub(crate) fn instr<'a>(
    alloc: Global,
    variables: &mut Variables,
    tokens: Rest<'a>,
) -> Result<(RawInstr, Rest<'a>), Stop<'a>>
    ensures read { Gives result (instr_at variables.old) tokens.now }
    ensures variables { IfOk result (λ x. variables.new ≡ with_instr variables.old x.0) }
{
    if has_name(tokens) {
        let (name, rest) = mention(alloc, variables, tokens)?;
        setting(alloc, variables, name, rest)
    } else {
        by_word(alloc, variables, tokens)
    }
}
