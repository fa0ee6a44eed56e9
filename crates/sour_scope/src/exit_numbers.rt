//! Exits, with numbers in place of names.

ghost use Rattle.std.specs.Prelude.{◌≡◌, map, Some, ◌↔◌, IsTrue, IfOk, OnOk, OnErr, IsErrOf};
ghost use Rattle.std.specs.List.{AllByRecursion};
ghost use Rattle.sour_checked.specs.Outline.{place_variables};
ghost use Rattle.sour_checked.specs.Numbered.{target_of, bind_of, map_of, extra_of, exit_of};
ghost use Rattle.sour_scope.specs.Known.{IsAmong, IsKnownExpr, IsKnownMap, IsKnownTarget};
ghost use Rattle.sour_scope.specs.Known.{IsKnownExtra, IsKnownExit};
ghost use Rattle.sour_scope.specs.Outlined.{function_names, names_of, version_at};

use crate::expressions::expr_of;
use crate::names::DistinctNames;
use crate::outline::Outline;
use crate::unnumbered::Unnumbered;
use sour_raw::{RawBind, RawExit, RawExtra, RawPlace};
use sour_syntax::{Bind, Code, Exit, Extra, Label, Labels, List, Target};
use std::alloc::Global;

/// Whether a label is one of these.
pub(crate) fn has_label(labels: &Labels, label: &Label) -> bool
    ensures { IsTrue result ↔ IsAmong labels.now label.now }
{
    labels.place(label.as_bytes()).is_some()
}

/// A variable of the target, whose variables have these names, with its value.
fn bind_of(
    raw: &RawBind,
    others: &DistinctNames,
    outline: &Outline,
    names: &DistinctNames,
) -> Result<Bind, Unnumbered>
    ensures ok { IfOk result (λ bind.
        bind ≡ bind_of (function_names outline.now) others.now names.now raw.now) }
    ensures known { OnOk result (IsAmong others.now raw.now.name
        × IsKnownExpr (function_names outline.now) names.now raw.now.value) }
    ensures unknown { OnErr result (IsAmong others.now raw.now.name
        × IsKnownExpr (function_names outline.now) names.now raw.now.value → ⊥) }
{
    let name = others.number(&raw.name)?;
    let value = expr_of(&raw.value, outline, names)?;
    Ok(Bind { name, value })
}

/// The map that is written, in the same way.
fn map_of(
    alloc: Global,
    raw: &[RawBind],
    others: &DistinctNames,
    outline: &Outline,
    names: &DistinctNames,
) -> Result<List<Bind>, Unnumbered>
    ensures ok { IfOk result (λ binds.
        binds ≡ map_of (function_names outline.now) others.now names.now raw.now) }
    ensures known { OnOk result (IsKnownMap (function_names outline.now) names.now others.now
        raw.now) }
    ensures unknown { IsErrOf result Unnumbered.Unknown
        → IsKnownMap (function_names outline.now) names.now others.now raw.now → ⊥ }
{
    let mut binds = List::new(alloc);
    for bind in raw {
        binds.push(bind_of(bind, others, outline, names)?)?;
    }
    Ok(binds)
}

/// The further frame that is written.
fn extra_of(
    alloc: Global,
    raw: RawExtra,
    outline: &Outline,
    names: &DistinctNames,
) -> Result<Extra, Unnumbered>
    ensures ok { IfOk result (λ extra. extra ≡ extra_of (names_of outline.now) names.now raw) }
    ensures known { OnOk result (IsKnownExtra outline.now names.now raw) }
    ensures unknown { IsErrOf result Unnumbered.Unknown → IsKnownExtra outline.now names.now raw
        → ⊥ }
{
    let RawExtra {
        target,
        result,
        map,
    } = raw;
    let (function, number, version) = outline.version(&target)?;
    if !has_label(&version.labels, &target.label) {
        return Err(Unnumbered::Unknown);
    }
    let result = version.variables.number(&result)?;
    let map = map_of(alloc, map.as_slice(), &version.variables, outline, names)?;
    let RawPlace { label, .. } = target;
    let target = Target {
        code: Code::Text(function, number),
        label,
    };
    Ok(Extra {
        target,
        result,
        map,
    })
}

/// The further frames that are written.
fn extras_of(
    alloc: Global,
    raw: List<RawExtra>,
    outline: &Outline,
    names: &DistinctNames,
) -> Result<List<Extra>, Unnumbered>
    ensures ok { IfOk result (λ extras.
        extras ≡ map (extra_of (names_of outline.now) names.now) raw) }
    ensures known { OnOk result (AllByRecursion (IsKnownExtra outline.now names.now) raw) }
    ensures unknown { IsErrOf result Unnumbered.Unknown
        → AllByRecursion (IsKnownExtra outline.now names.now) raw → ⊥ }
{
    let mut extras = List::new(alloc);
    for extra in raw.into_vec() {
        extras.push(extra_of(alloc, extra, outline, names)?)?;
    }
    Ok(extras)
}

/// The exit that is written.
pub(crate) fn exit_of(
    alloc: Global,
    raw: RawExit,
    outline: &Outline,
    names: &DistinctNames,
) -> Result<Exit, Unnumbered>
    ensures ok { IfOk result (λ exit. exit ≡ exit_of (names_of outline.now) names.now raw) }
    ensures known { OnOk result (IsKnownExit outline.now names.now raw) }
    ensures unknown { IsErrOf result Unnumbered.Unknown → IsKnownExit outline.now names.now raw
        → ⊥ }
{
    let RawExit {
        target,
        map,
        extras,
    } = raw;
    let (function, number, version) = outline.version(&target)?;
    if !has_label(&version.labels, &target.label) {
        return Err(Unnumbered::Unknown);
    }
    let map = map_of(alloc, map.as_slice(), &version.variables, outline, names)?;
    let extras = extras_of(alloc, extras, outline, names)?;
    let RawPlace { label, .. } = target;
    let target = Target {
        code: Code::Text(function, number),
        label,
    };
    Ok(Exit {
        target,
        map,
        extras,
    })
}
