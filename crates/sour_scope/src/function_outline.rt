//! What is known of a function before it is gone through.

ghost use Rattle.std.specs.Prelude.{◌≡◌, ◌≤◌, Some, None, length, slice_get, IfSome, IfNone};
ghost use Rattle.std.specs.Option.{option_copied};
ghost use Rattle.laws_scope.specs.TextOrder.{stands_before as named_before};
ghost use Rattle.sour_checked.specs.Outline.{version_number};
ghost use Rattle.sour_scope.specs.Numbering.{IsNumbering};
ghost use Rattle.sour_scope.specs.Outlined.{names_of_versions, version_names, version_of_name};

use crate::numbers::Numbers;
use crate::version_outline::VersionOutline;
use sour_syntax::{Label, List};
use std::marker::Model;

/// The name of a function, and its versions, found by their names. Contracts see the name and the
/// versions.
#[derive(Drop)]
pub(crate) struct FunctionOutline {
    name: Label,
    numbers: Numbers,
    versions: List<VersionOutline>,
}

impl Model for FunctionOutline {
    ghost use Rattle.sour_scope.specs.OutlinedFunction.{OutlinedFunction};

    ghost Value = { OutlinedFunction };

    ghost use Rattle.sour_scope.specs.Numbering.{IsNumbering};
    ghost use Rattle.sour_scope.specs.Outlined.{version_names};

    ghost view = { λ function. record { name = function.name; versions = function.versions } };

    ghost invariant = { λ function. IsNumbering function.numbers (version_names function.versions) };
}

impl FunctionOutline {
    /// The function of this name and these versions, whose names have these numbers. It takes no memory.
    pub(crate) fn of_versions(
        name: Label,
        numbers: Numbers,
        versions: List<VersionOutline>,
    ) -> FunctionOutline
        requires { IsNumbering numbers (version_names versions) }
        ensures { result ≡ record { name = name; versions = versions } }
    {
        FunctionOutline {
            name,
            numbers,
            versions,
        }
    }

    /// The first version of this name, with its number, if there is one.
    pub(crate) fn version(&self, name: &Label) -> Option<(u32, &VersionOutline)>
        ensures number { IfSome result (λ found.
            found.0 ≡ version_number (names_of_versions self.now.versions) name.now) }
        ensures version { IfSome result (λ found.
            version_of_name name.now (Some self.now) ≡ Some found.1.now) }
        ensures none { IfNone result (version_of_name name.now (Some self.now) ≡ None) }
    {
        let number = self.numbers.get(name.as_bytes())?;
        let version = self.versions.get(number as usize)?;
        Some((number, version))
    }

    /// Whether a version before the one that has this number has this name.
    pub(crate) fn stands_before(&self, name: &Label, number: usize) -> bool
        requires { number ≤ length self.now.versions }
        ensures { result ≡ named_before (version_names self.now.versions) name.now number }
    {
        self.numbers.stands_before(name.as_bytes(), number)
    }

    /// The version that has this number.
    pub(crate) fn get(&self, number: usize) -> Option<&VersionOutline>
        ensures { option_copied result ≡ slice_get self.now.versions number }
    {
        self.versions.get(number)
    }

    /// The name and the versions.
    pub(crate) fn into_parts(self) -> (Label, List<VersionOutline>)
        ensures name { result.0 ≡ self.name }
        ensures versions { result.1 ≡ self.versions }
    {
        let FunctionOutline { name, versions, .. } = self;
        (name, versions)
    }
}
