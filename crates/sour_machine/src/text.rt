//! What a value prints as. It has three parts, so that it can be written without memory: for a function
//! `&` and its name, for an array `array(`, its length and `)`, and for any other value the middle alone.

ghost use Rattle.std.specs.Prelude.{◌≡◌, ◌≤◌, ◌++◌, length, IfOk};
ghost use Rattle.sour_semantics.specs.Evaluation.{cells_of};
ghost use Rattle.sour_semantics.specs.Text.{count_cells, text_with_cells, value_text};
ghost use Rattle.sour_machine.specs.Text.{head_of, tail_of};

use crate::heap::Heap;
use itoa::Buffer;
use sour_syntax::{Literal, Program, Value};
use std::alloc::{AllocError, Global};

/// The first part.
pub fn value_head(value: Value) -> &'static [u8]
    ensures text { result.now ≡ head_of value }
    ensures short { length result.now ≤ 6 }
{
    match value {
        Value::Plain(Literal::Function(_)) => b"&",
        Value::Array(_) => b"array(",
        _ => b"",
    }
}

/// The last part.
pub fn value_tail(value: Value) -> &'static [u8]
    ensures text { result.now ≡ tail_of value }
    ensures short { length result.now ≤ 1 }
{
    match value {
        Value::Array(_) => b")",
        _ => b"",
    }
}

/// The part between them. The digits of a number are made in `digits`; `cells` is how many cells the
/// array has, if the value refers to one.
pub fn value_middle<'a>(
    value: Value,
    program: &'a Program,
    cells: u64,
    digits: &'a mut Buffer,
) -> &'a [u8]
    ensures { text_with_cells program.now cells value ≡ head_of value ++ result.now ++ tail_of value }
{
    match value {
        Value::Plain(Literal::Number(number)) => digits.format(number).as_bytes(),
        Value::Plain(Literal::Truth(true)) => b"true",
        Value::Plain(Literal::Truth(false)) => b"false",
        Value::Plain(Literal::Nil) => b"nil",
        Value::Plain(Literal::Function(function)) => match program.function(function) {
            Some(function) => function.name.as_bytes(),
            None => b"",
        },
        Value::Array(_) => digits.format(cells).as_bytes(),
    }
}

/// How many cells the array has to which a value refers; 0 where it refers to none.
pub(crate) fn count_cells(value: Value, heap: &Heap) -> u64
    ensures { result ≡ count_cells (cells_of heap.now value) }
{
    match value {
        Value::Plain(_) => 0,
        Value::Array(array) => heap.length(array).unwrap_or(0),
    }
}

/// What a value prints as.
pub fn value_text(
    alloc: Global,
    value: &Value,
    program: &Program,
    heap: &Heap,
) -> Result<Vec<u8>, AllocError>
    ensures { IfOk result (λ text. text.items ≡ value_text program.now heap.now value.now) }
{
    let value = *value;
    let mut digits = Buffer::new();
    let mut text = Vec::new(alloc);
    text.extend_from_slice(value_head(value))?;
    text.extend_from_slice(value_middle(value, program, count_cells(value, heap), &mut digits))?;
    text.extend_from_slice(value_tail(value))?;
    Ok(text)
}
