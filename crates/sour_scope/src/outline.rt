//! What is known of a text before it is gone through.

ghost use Rattle.std.specs.Prelude.{◌≡◌, ◌<◌, ◌≤◌, None, Some, length, slice_get, IfOk, OnOk};
ghost use Rattle.std.specs.Prelude.{OnErr};
ghost use Rattle.std.specs.Option.{option_copied};
ghost use Rattle.sour_checked.specs.Outline.{function_number, place_function, place_version};
ghost use Rattle.laws_scope.specs.TextOrder.{stands_before as named_before};
ghost use Rattle.sour_scope.specs.Known.{IsAmong};
ghost use Rattle.sour_scope.specs.Numbering.{number_among, IsNumbering};
ghost use Rattle.sour_scope.specs.Outlined.{function_names, version_names, names_of, version_at};

use crate::function_outline::FunctionOutline;
use crate::numbers::Numbers;
use crate::unnumbered::Unnumbered;
use crate::version_outline::VersionOutline;
use sour_raw::RawPlace;
use sour_syntax::{FunId, Label, List};
use std::marker::Model;

/// The functions of a text, found by their names. Contracts see the list of what is known of each.
#[derive(Drop)]
pub(crate) struct Outline {
    numbers: Numbers,
    functions: List<FunctionOutline>,
}

impl Model for Outline {
    ghost use Rattle.std.specs.Prelude.{List as Listed};
    ghost use Rattle.sour_scope.specs.OutlinedFunction.{OutlinedFunction};

    ghost Value = { Listed OutlinedFunction };

    ghost use Rattle.sour_scope.specs.Numbering.{IsNumbering};
    ghost use Rattle.sour_scope.specs.Outlined.{function_names};

    ghost view = { λ outline. outline.functions };

    ghost invariant = { λ outline. IsNumbering outline.numbers (function_names outline.functions) };
}

impl Outline {
    /// The outline of these functions, whose names have these numbers. It takes no memory.
    pub(crate) fn of_functions(numbers: Numbers, functions: List<FunctionOutline>) -> Outline
        requires { IsNumbering numbers (function_names functions) }
        ensures { result ≡ functions }
    {
        Outline { numbers, functions }
    }

    /// The number of the first function of this name, which is unknown exactly where none has it.
    pub(crate) fn function(&self, name: &[u8]) -> Result<FunId, Unnumbered>
        ensures ok { IfOk result (λ number.
            number ≡ function_number (function_names self.now) name.now) }
        ensures known { OnOk result (IsAmong (function_names self.now) name.now) }
        ensures unknown { OnErr result (IsAmong (function_names self.now) name.now → ⊥) }
    {
        match self.numbers.get(name) {
            Some(number) => Ok(FunId(number)),
            None => Err(Unnumbered::Unknown),
        }
    }

    /// Whether a function before the one that has this number has this name.
    pub(crate) fn stands_before(&self, name: &Label, number: usize) -> bool
        requires { number ≤ length self.now }
        ensures { result ≡ named_before (function_names self.now) name.now number }
    {
        self.numbers.stands_before(name.as_bytes(), number)
    }

    /// The function that has this number.
    pub(crate) fn get(&self, number: usize) -> Option<&FunctionOutline>
        ensures { option_copied result ≡ slice_get self.now number }
    {
        self.functions.get(number)
    }

    /// The version that a place names, with the numbers of its function and of itself; it is unknown
    /// exactly where it isn't there.
    pub(crate) fn version(
        &self,
        place: &RawPlace,
    ) -> Result<(FunId, u32, &VersionOutline), Unnumbered>
        ensures function { IfOk result (λ found.
            found.0 ≡ place_function (names_of self.now) place.now) }
        ensures version { IfOk result (λ found.
            found.1 ≡ place_version (names_of self.now) place.now) }
        ensures found { IfOk result (λ found. version_at self.now place.now ≡ Some found.2.now) }
        ensures unknown { OnErr result (version_at self.now place.now ≡ None) }
    {
        let function = self.function(place.function.as_bytes())?;
        let Some(versions) = self.functions.get(function.0 as usize) else {
            return Err(Unnumbered::Unknown);
        };
        match versions.version(&place.version) {
            Some((number, version)) => Ok((function, number, version)),
            None => Err(Unnumbered::Unknown),
        }
    }

    /// The functions alone.
    pub(crate) fn into_functions(self) -> List<FunctionOutline>
        ensures { result ≡ self }
    {
        let Outline { functions, .. } = self;
        functions
    }
}
