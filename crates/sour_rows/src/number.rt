//! Numbers in rows.

ghost use Rattle.std.specs.Prelude.{◌≤◌, IfOk};

use crate::fault::LineFault;
use crate::row::Turns;
use std::alloc::Global;
use std::num::NonZeroUsize;

/// The most digits of a number.
const MAX_DIGITS: usize = 8;

/// The number that a word of one to eight digits writes.
pub fn number_of(word: &str) -> Result<usize, LineFault> {
    if word.len() > MAX_DIGITS || !word.bytes().all(|byte| byte.is_ascii_digit()) {
        return Err(LineFault::Number);
    }
    word.parse::<usize>().map_err(|_| LineFault::Number)
}

/// The number from 1 that a word writes.
pub fn count_of(word: &str) -> Result<NonZeroUsize, LineFault> {
    NonZeroUsize::new(number_of(word)?).ok_or(LineFault::Number)
}

/// The status that a word writes.
pub fn status_of(word: &str) -> Result<u8, LineFault> {
    u8::try_from(number_of(word)?).map_err(|_| LineFault::Number)
}

/// The number of a call that a word writes.
fn call_of(word: &str) -> Result<u64, LineFault>
    ensures { IfOk result (λ call. 1 ≤ call) }
{
    Ok(count_of(word)?.get() as u64)
}

/// The numbers of calls that words write, of which there is one or more.
pub fn calls_of(alloc: Global, words: &[&str]) -> Result<Vec<u64>, LineFault> {
    if words.is_empty() {
        return Err(LineFault::Number);
    }
    let mut calls = Vec::new(alloc);
    for word in words {
        calls.push(call_of(word)?)?;
    }
    Ok(calls)
}

/// The calls from one to another that two words write, of which there is one or more.
pub fn turns_of(first: &str, last: &str) -> Result<Turns, LineFault> {
    let first = call_of(first)?;
    let last = call_of(last)?;
    if last < first {
        return Err(LineFault::Number);
    }
    Ok(Turns { first, last })
}
