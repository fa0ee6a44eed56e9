//! The lines of a version, gone through one by one.

ghost use Rattle.std.specs.Prelude.{◌≡◌, ◌≤◌, ℕ, List as Listed, [], Some, length, take, slice_get};
ghost use Rattle.std.specs.Prelude.{IfOk, OnOk, IfErr};
ghost use Rattle.sour_syntax.specs.Program.{NamesDiffer};
ghost use Rattle.sour_raw.specs.Mentions.{with_names};
ghost use Rattle.sour_checked.specs.Numbered.{label_of};
ghost use Rattle.sour_checked.specs.Texts.{labels as all_labels};
ghost use Rattle.laws_scope.specs.TextOrder.{first_broken, each_in_order, line_in_order};
ghost use Rattle.laws_scope.specs.TextOrder.{stands_before};
ghost use Rattle.sour_scope.specs.InText.{VersionIn, text_of, line_of as made_of, version_lines};
ghost use Rattle.sour_scope.specs.Outlined.{outlined, outlined_version};
ghost use Rattle.sour_scope.specs.Told.{Tells};

use crate::fault::{FALLS_OFF, ScopeFault, TWICE, UNKNOWN};
use crate::instructions::{instr_of, is_terminator};
use crate::outline::Outline;
use crate::repeats::has_distinct_maps;
use crate::unnumbered::Unnumbered;
use crate::version_lines::VersionLines;
use crate::version_outline::VersionOutline;
use sour_raw::RawLine;
use sour_syntax::{Label, Labels, Line, List};
use std::alloc::{AllocError, Global};

/// The label of the line at a place: the one that is written, or else the automatic one.
fn label_of(alloc: Global, place: u32, label: Option<Label>) -> Result<Label, AllocError>
    ensures { IfOk result (λ made. made ≡ label_of place label) }
{
    match label {
        Some(label) => Ok(label),
        None => Label::automatic(alloc, place),
    }
}

/// Whether a line before the one at this place has its label, where no two lines before it have the same.
/// The labels are those of all lines, each once.
fn stands_before(labels: &Labels, label: &Label, place: usize) -> bool
    ghost all: { Listed (Listed ℕ) }
    requires labels { labels.now ≡ with_names [] all }
    requires own { slice_get all place ≡ Some label.now }
    requires before { NamesDiffer (take place all) }
    ensures { result ≡ stands_before all label.now place }
{
    match labels.place(label.as_bytes()) {
        Some(first) => first < place,
        None => false,
    }
}

/// The line at a place, the last of which is the one before `count`; or the first rule that it breaks.
fn line_of(
    alloc: Global,
    raw: RawLine,
    place: usize,
    count: usize,
    outline: &Outline,
    own: &VersionOutline,
) -> Result<Line, ScopeFault>
    ghost within: { VersionIn }
    requires outline { outline.now ≡ outlined within.functions }
    requires own { own.now ≡ outlined_version within.function.parameters within.version }
    requires line { slice_get within.version.lines place ≡ Some raw }
    requires before { NamesDiffer (take place (all_labels (text_of within))) }
    requires count { count ≡ length within.version.lines }
    requires few { count ≤ 4096 }
    ensures ok { IfOk result (λ line. line ≡ made_of within.functions (text_of within) place raw) }
    ensures none { OnOk result (line_in_order within.functions (text_of within) place raw ≡ []) }
    ensures fault { IfErr result (Tells (λ fault.
        first_broken (line_in_order within.functions (text_of within) place raw) ≡ Some fault)) }
{
    let RawLine { line, label, instr } = raw;
    let label = label_of(alloc, place as u32, label)?;
    if stands_before(&own.labels, &label, place) || !has_distinct_maps(alloc, &instr)? {
        return Err(ScopeFault::nameless(alloc, TWICE, line));
    }
    let ends = is_terminator(&instr);
    let instr = match instr_of(alloc, instr, outline, own) {
        Ok(instr) => instr,
        Err(Unnumbered::Unknown) => return Err(ScopeFault::nameless(alloc, UNKNOWN, line)),
        Err(Unnumbered::Memory) => return Err(ScopeFault::Memory),
    };
    if place + 1 == count && !ends {
        return Err(ScopeFault::nameless(alloc, FALLS_OFF, line));
    }
    Ok(Line { label, instr })
}

/// The lines of a version; or the first rule that one of them breaks.
pub(crate) fn lines_of(
    alloc: Global,
    raw: List<RawLine>,
    outline: &Outline,
    own: &VersionOutline,
) -> Result<VersionLines, ScopeFault>
    ghost within: { VersionIn }
    requires outline { outline.now ≡ outlined within.functions }
    requires own { own.now ≡ outlined_version within.function.parameters within.version }
    requires lines { raw ≡ within.version.lines }
    requires few { length raw ≤ 4096 }
    ensures ok { IfOk result (λ made.
        made ≡ version_lines within.functions within.function.parameters within.version) }
    ensures none { OnOk result (each_in_order (line_in_order within.functions (text_of within)) 0
        within.version.lines ≡ []) }
    ensures fault { IfErr result (Tells (λ fault.
        first_broken (each_in_order (line_in_order within.functions (text_of within)) 0
        within.version.lines) ≡ Some fault)) }
{
    let count = raw.len();
    let mut lines = List::new(alloc);
    let mut line_numbers = List::new(alloc);
    for line in raw.into_vec() {
        line_numbers.push(line.line)?;
        let place = lines.len();
        lines.push(line_of(alloc, line, place, count, outline, own)?)?;
    }
    Ok(VersionLines {
        lines,
        line_numbers,
    })
}
