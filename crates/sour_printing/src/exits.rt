//! Exits, to versions of the text and to bodies of a bundle.

ghost use Rattle.std.specs.Prelude.{◌≡◌, ◌++◌, map, OnOk};
ghost use Rattle.std.specs.Arc.{arc_value};
ghost use Rattle.laws_printing.specs.Named.{code_variables, raw_bind, raw_map};
ghost use Rattle.laws_printing.specs.Pieces.{listed_pieces, others_pieces, bind_pieces, map_pieces};
ghost use Rattle.laws_printing.specs.Bundles.{code_pieces, target_pieces, made_extra_pieces, made_exit_pieces};
ghost use Rattle.laws_printing.specs.Text.{bytes_of};

use crate::expressions::put_expr;
use crate::names::{code_variable, function_name, version_name};
use itoa::Buffer;
use sour_bundle::body_numbered;
use sour_syntax::{Bind, Body, Code, Exit, Extra, Function, Names, Target};
use std::alloc::AllocError;
use std::sync::Arc;

/// Puts what a target has before its label.
fn put_code(
    text: &mut Vec<u8>,
    functions: &[Function],
    bodies: &[Arc<Body>],
    code: Code,
) -> Result<(), AllocError>
    ensures { OnOk result (text.new.items ≡ text.old.items
        ++ bytes_of (code_pieces functions.now (map arc_value bodies.now) code)) }
{
    match code {
        Code::Text(function, version) => {
            text.extend_from_slice(function_name(functions, function))?;
            text.extend_from_slice(b".")?;
            text.extend_from_slice(version_name(functions, function, version))
        }
        Code::Made(number) => {
            if body_numbered(bodies, number).is_none() {
                return text.extend_from_slice(b".");
            }
            let mut digits = Buffer::new();
            text.extend_from_slice(b"%")?;
            text.extend_from_slice(digits.format(number).as_bytes())
        }
    }
}

/// Puts a target.
fn put_target(
    text: &mut Vec<u8>,
    functions: &[Function],
    bodies: &[Arc<Body>],
    target: &Target,
) -> Result<(), AllocError>
    ensures { OnOk result (text.new.items ≡ text.old.items
        ++ bytes_of (target_pieces functions.now (map arc_value bodies.now) target.now)) }
{
    put_code(text, functions, bodies, target.code)?;
    text.extend_from_slice(b".")?;
    text.extend_from_slice(target.label.as_bytes())
}

/// Puts a variable of what a code names, with its value.
fn put_bind(
    text: &mut Vec<u8>,
    functions: &[Function],
    bodies: &[Arc<Body>],
    code: Code,
    names: &Names,
    bind: &Bind,
) -> Result<(), AllocError>
    ensures { OnOk result (text.new.items ≡ text.old.items
        ++ bytes_of (bind_pieces (raw_bind functions.now
        (code_variables functions.now (map arc_value bodies.now) code) names.now bind.now))) }
{
    text.extend_from_slice(code_variable(functions, bodies, code, bind.name))?;
    text.extend_from_slice(b" = ")?;
    put_expr(text, functions, names, bind.value)
}

/// Puts such variables, with a comma between two of them.
fn put_binds(
    text: &mut Vec<u8>,
    functions: &[Function],
    bodies: &[Arc<Body>],
    code: Code,
    names: &Names,
    binds: &[Bind],
) -> Result<(), AllocError>
    ensures { OnOk result (text.new.items ≡ text.old.items
        ++ bytes_of (listed_pieces bind_pieces (raw_map functions.now
        (code_variables functions.now (map arc_value bodies.now) code) names.now binds.now))) }
{
    let Some((first, others)) = binds.split_first() else {
        return Ok(());
    };
    put_bind(text, functions, bodies, code, names, first)?;
    for bind in others {
        text.extend_from_slice(b", ")?;
        put_bind(text, functions, bodies, code, names, bind)?;
    }
    Ok(())
}

/// Puts a map for what a code names.
fn put_map(
    text: &mut Vec<u8>,
    functions: &[Function],
    bodies: &[Arc<Body>],
    code: Code,
    names: &Names,
    binds: &[Bind],
) -> Result<(), AllocError>
    ensures { OnOk result (text.new.items ≡ text.old.items
        ++ bytes_of (map_pieces (raw_map functions.now
        (code_variables functions.now (map arc_value bodies.now) code) names.now binds.now))) }
{
    text.extend_from_slice(b"[")?;
    put_binds(text, functions, bodies, code, names, binds)?;
    text.extend_from_slice(b"]")
}

/// Puts a further frame.
fn put_extra(
    text: &mut Vec<u8>,
    functions: &[Function],
    bodies: &[Arc<Body>],
    names: &Names,
    extra: &Extra,
) -> Result<(), AllocError>
    ensures { OnOk result (text.new.items ≡ text.old.items ++ bytes_of
        (made_extra_pieces functions.now (map arc_value bodies.now) names.now extra.now)) }
{
    let code = extra.target.code;
    put_target(text, functions, bodies, &extra.target)?;
    text.extend_from_slice(b" ")?;
    text.extend_from_slice(code_variable(functions, bodies, code, extra.result))?;
    text.extend_from_slice(b" ")?;
    put_map(text, functions, bodies, code, names, extra.map.as_slice())
}

/// Puts further frames, each behind a comma.
fn put_extras(
    text: &mut Vec<u8>,
    functions: &[Function],
    bodies: &[Arc<Body>],
    names: &Names,
    extras: &[Extra],
) -> Result<(), AllocError>
    ensures { OnOk result (text.new.items ≡ text.old.items ++ bytes_of (others_pieces
        (made_extra_pieces functions.now (map arc_value bodies.now) names.now) extras.now)) }
{
    for extra in extras {
        text.extend_from_slice(b", ")?;
        put_extra(text, functions, bodies, names, extra)?;
    }
    Ok(())
}

/// Puts an exit.
pub(crate) fn put_exit(
    text: &mut Vec<u8>,
    functions: &[Function],
    bodies: &[Arc<Body>],
    names: &Names,
    exit: &Exit,
) -> Result<(), AllocError>
    ensures { OnOk result (text.new.items ≡ text.old.items ++ bytes_of
        (made_exit_pieces functions.now (map arc_value bodies.now) names.now exit.now)) }
{
    let code = exit.target.code;
    put_target(text, functions, bodies, &exit.target)?;
    text.extend_from_slice(b" ")?;
    put_map(text, functions, bodies, code, names, exit.map.as_slice())?;
    put_extras(text, functions, bodies, names, exit.extras.as_slice())
}
