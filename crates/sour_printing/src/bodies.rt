//! The bodies of a bundle.

ghost use Rattle.std.specs.Prelude.{◌≡◌, [], ◌∷◌, ◌++◌, map, OnOk};
ghost use Rattle.std.specs.Arc.{arc_value};
ghost use Rattle.laws_printing.specs.Bundles.{made_line_pieces, body_lines, bodies_lines};
ghost use Rattle.laws_printing.specs.Text.{text_of};

use crate::instructions::put_instr;
use crate::names::function_name;
use itoa::Buffer;
use sour_syntax::{Body, Function, Line, Names};
use std::alloc::AllocError;
use std::sync::Arc;

/// Puts a line with its label.
fn put_labelled_line(
    text: &mut Vec<u8>,
    functions: &[Function],
    bodies: &[Arc<Body>],
    names: &Names,
    line: &Line,
) -> Result<(), AllocError>
    ensures { OnOk result (text.new.items ≡ text.old.items ++ text_of
        (made_line_pieces functions.now (map arc_value bodies.now) names.now line.now ∷ [])) }
{
    text.extend_from_slice(line.label.as_bytes())?;
    text.extend_from_slice(b": ")?;
    put_instr(text, functions, bodies, names, &line.instr)?;
    text.extend_from_slice(b"\n")
}

/// Puts the lines of a body.
fn put_labelled_lines(
    text: &mut Vec<u8>,
    functions: &[Function],
    bodies: &[Arc<Body>],
    names: &Names,
    lines: &[Line],
) -> Result<(), AllocError>
    ensures { OnOk result (text.new.items ≡ text.old.items ++ text_of
        (map (made_line_pieces functions.now (map arc_value bodies.now) names.now) lines.now)) }
{
    for line in lines {
        put_labelled_line(text, functions, bodies, names, line)?;
    }
    Ok(())
}

/// Puts the body that has this number.
fn put_body(
    text: &mut Vec<u8>,
    functions: &[Function],
    bodies: &[Arc<Body>],
    number: usize,
    body: &Body,
) -> Result<(), AllocError>
    ensures { OnOk result (text.new.items ≡ text.old.items ++ text_of
        (body_lines functions.now (map arc_value bodies.now) number body.now)) }
{
    let mut digits = Buffer::new();
    text.extend_from_slice(b"body ")?;
    text.extend_from_slice(digits.format(number).as_bytes())?;
    text.extend_from_slice(b" ")?;
    text.extend_from_slice(function_name(functions, body.function()))?;
    text.extend_from_slice(b"\n")?;
    put_labelled_lines(text, functions, bodies, body.variables(), body.lines())
}

/// Puts all of the bodies.
pub(crate) fn put_bodies(
    text: &mut Vec<u8>,
    functions: &[Function],
    bodies: &[Arc<Body>],
) -> Result<(), AllocError>
    ensures { OnOk result (text.new.items ≡ text.old.items ++ text_of
        (bodies_lines functions.now (map arc_value bodies.now) 1 (map arc_value bodies.now))) }
{
    for (place, body) in bodies.iter().enumerate() {
        put_body(text, functions, bodies, place + 1, body)?;
    }
    Ok(())
}
