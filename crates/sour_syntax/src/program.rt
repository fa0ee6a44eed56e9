ghost use Rattle.std.specs.Prelude.{◌≡◌, [], slice_get, IfOk, IfSome};
ghost use Rattle.std.specs.Option.{option_copied};
ghost use Rattle.sour_syntax.specs.ExitPlaces.{IsExitPlace};
ghost use Rattle.sour_syntax.specs.Program.{ProgramView, IsProgram};
ghost use Rattle.sour_syntax.specs.Targets.{named_body};

use crate::body::Body;
use crate::exit::Code;
use crate::exit_places::{ExitPlaces, exit_place_in, exit_places_of};
use crate::label::Label;
use crate::list::List;
use crate::literal::FunId;
use std::alloc::{AllocError, Global};
use std::marker::Model;

/// One of the bodies that a text gives for a function.
#[derive(Drop)]
pub struct Version {
    pub name: Label,
    pub body: Body,
}

/// A function: its versions in the order of the text. The first is its text version.
#[derive(Drop)]
pub struct Function {
    pub name: Label,
    pub versions: List<Version>,
}

/// The body that a code names among the versions of these functions; none where it names none of them.
pub fn body_named<'a>(functions: &'a [Function], code: Code) -> Option<&'a Body>
    ensures { option_copied result ≡ named_body functions.now [] code }
{
    match code {
        Code::Text(function, version) => {
            let function = functions.get(function.0 as usize)?;
            let version = function.versions.get(version as usize)?;
            Some(&version.body)
        }
        Code::Made(_) => None,
    }
}

/// A checked program: what the check of a text gives.
#[derive(Drop)]
pub struct Program {
    functions: List<Function>,
    main: FunId,
    /// Where the exits lead, if that was worked out.
    exits: Option<ExitPlaces>,
}

impl Model for Program {
    ghost use Rattle.std.specs.Prelude.{IfSome};
    ghost use Rattle.sour_syntax.specs.ExitPlaces.{KeepsOfEach};
    ghost use Rattle.sour_syntax.specs.Program.{ProgramView, IsProgram};

    ghost Value = { ProgramView };

    ghost view = { λ program. record { functions = program.functions; main = program.main } };

    ghost invariant = { λ program. IsProgram (record { functions = program.functions; main = program.main })
        × IfSome program.exits (KeepsOfEach program.functions program.functions) };
}

impl Program {
    /// The program of these functions. It takes no memory, and works out nothing beforehand.
    pub fn of_functions(functions: List<Function>, main: FunId) -> Program
        requires { IsProgram (record { functions = functions; main = main }) }
        ensures { result ≡ record { functions = functions; main = main } }
    {
        Program {
            functions,
            main,
            exits: None,
        }
    }

    /// The same program, where the places to which its exits lead are worked out, so that a frame leaves
    /// without a look-up of labels.
    pub fn linked(self, alloc: Global) -> Result<Program, AllocError>
        ensures { IfOk result (λ program. program ≡ self) }
    {
        let exits = exit_places_of(alloc, self.functions.as_slice())?;
        let Program {
            functions,
            main,
            ..
        } = self;
        Ok(Program {
            functions,
            main,
            exits: Some(exits),
        })
    }

    /// The place, counted from 0, to which a frame goes that the line at a place of a version makes by
    /// leaving: the frame with this number of those of its exit, the top one first. None where it wasn't
    /// worked out.
    pub fn exit_place(
        &self,
        function: FunId,
        version: u32,
        place: usize,
        number: usize,
    ) -> Option<usize>
        ensures { IfSome result (IsExitPlace self.now.functions function.0 version place number) }
    {
        match &self.exits {
            Some(exits) => exit_place_in(exits, function, version, place, number),
            None => None,
        }
    }

    /// The function with this number; none exactly where no function has it.
    pub fn function(&self, function: FunId) -> Option<&Function>
        ensures { option_copied result ≡ slice_get self.now.functions function.0 }
    {
        self.functions.get(function.0 as usize)
    }

    /// Its functions, in order.
    pub fn functions(&self) -> &[Function]
        ensures value { result.now ≡ self.now.functions }
        ensures checked { IsProgram self.now }
    {
        self.functions.as_slice()
    }

    /// The function that a run enters first.
    pub fn main(&self) -> FunId
        ensures value { result ≡ self.now.main }
        ensures checked { IsProgram self.now }
    {
        self.main
    }
}
