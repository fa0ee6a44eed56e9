//! Lines, each ended by a line feed.

ghost use Rattle.std.specs.Prelude.{◌≡◌, ℕ, [], ◌∷◌, ◌++◌, map, OnOk};
ghost use Rattle.std.specs.Str.{bytes_eq};
ghost use Rattle.sour_syntax.specs.Labels.{automatic_label};
ghost use Rattle.laws_printing.specs.Named.{raw_instr, raw_label, raw_lines};
ghost use Rattle.laws_printing.specs.Pieces.{instr_pieces, labelled_pieces, line_pieces};
ghost use Rattle.laws_printing.specs.Text.{bytes_of, text_of};

use crate::instructions::put_instr;
use itoa::Buffer;
use sour_syntax::{Function, Label, Line, Names};
use std::alloc::AllocError;

/// Whether a label is the one that a line at this place gets where none is written.
fn is_automatic(label: &Label, place: usize) -> bool
    ensures { result ≡ bytes_eq label.now (automatic_label place) }
{
    let mut buffer = Buffer::new();
    match label.as_bytes() {
        [b'_', digits @ ..] => digits == buffer.format(place).as_bytes(),
        _ => false,
    }
}

/// Puts the label of the line at this place, where it is written.
fn put_label(text: &mut Vec<u8>, place: usize, label: &Label) -> Result<(), AllocError>
    ensures { OnOk result (text.new.items ≡ text.old.items
        ++ bytes_of (labelled_pieces (raw_label place label.now) [])) }
{
    if is_automatic(label, place) {
        return Ok(());
    }
    text.extend_from_slice(label.as_bytes())?;
    text.extend_from_slice(b": ")
}

/// Puts the line at this place.
fn put_line(
    text: &mut Vec<u8>,
    functions: &[Function],
    names: &Names,
    place: usize,
    line: &Line,
) -> Result<(), AllocError>
    ensures { OnOk result (text.new.items ≡ text.old.items
        ++ text_of (labelled_pieces (raw_label place line.now.label)
        (instr_pieces (raw_instr functions.now names.now line.now.instr)) ∷ [])) }
{
    put_label(text, place, &line.label)?;
    put_instr(text, functions, &[], names, &line.instr)?;
    text.extend_from_slice(b"\n")
}

/// Puts the lines of a version, on whichever line of the text the first of them stands.
pub(crate) fn put_lines(
    text: &mut Vec<u8>,
    functions: &[Function],
    names: &Names,
    lines: &[Line],
) -> Result<(), AllocError>
    ensures { (number : ℕ) → OnOk result (text.new.items ≡ text.old.items
        ++ text_of (map line_pieces (raw_lines functions.now names.now number 0 lines.now))) }
{
    for (place, line) in lines.iter().enumerate() {
        put_line(text, functions, names, place, line)?;
    }
    Ok(())
}
