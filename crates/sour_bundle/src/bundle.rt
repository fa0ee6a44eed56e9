ghost use Rattle.std.specs.Prelude.{◌≡◌, ◌<◌, Some, length, map};
ghost use Rattle.std.specs.Arc.{arc_value};
ghost use Rattle.std.specs.Option.{option_copied};
ghost use Rattle.sour_syntax.specs.Targets.{made_body};
ghost use Rattle.sour_semantics.specs.Agreement.{IsLawful};

use sour_syntax::{Body, FunId, Program};
use std::alloc::Global;
use std::marker::Model;
use std::sync::Arc;

/// The body of a bundle with these bodies that has this number, counted from 1; none exactly where
/// there is none.
pub fn body_numbered(bodies: &[Arc<Body>], number: u32) -> Option<&Body>
    ensures { option_copied result ≡ made_body (map arc_value bodies.now) number }
{
    if number == 0 {
        return None;
    }
    let body = bodies.get(number as usize - 1)?;
    Some(body)
}

/// Bodies that optimisation made for a function of a program, each of which may lead to earlier
/// ones and to versions of the text. The last is the one that a call enters. Bodies are shared:
/// what makes a bundle out of another one keeps those that it doesn't change.
#[derive(Drop)]
pub struct Bundle {
    program: Arc<Program>,
    function: FunId,
    bodies: Vec<Arc<Body>>,
}

impl Model for Bundle {
    ghost use Rattle.std.specs.Prelude.{map};
    ghost use Rattle.std.specs.Arc.{arc_value};
    ghost use Rattle.sour_semantics.specs.Agreement.{IsLawful};
    ghost use Rattle.sour_bundle.specs.ProgramBundle.{ProgramBundle};

    ghost Value = { ProgramBundle };

    ghost view = { λ bundle. record {
      program = bundle.program.value;
      view = record { function = bundle.function; bodies = map arc_value bundle.bodies.items };
    } };

    ghost invariant = { λ bundle. IsLawful bundle.program.value
        (record { function = bundle.function; bodies = map arc_value bundle.bodies.items }) };
}

impl Bundle {
    /// The bundle of these bodies. It takes no memory.
    pub fn of_bodies(program: Arc<Program>, function: FunId, bodies: Vec<Arc<Body>>) -> Bundle
        requires { IsLawful program.value
            (record { function = function; bodies = map arc_value bodies.items }) }
        ensures { result ≡ record {
          program = program.value;
          view = record { function = function; bodies = map arc_value bodies.items };
        } }
    {
        Bundle {
            program,
            function,
            bodies,
        }
    }

    /// Its program, its function and its bodies. It takes no memory.
    pub fn into_bodies(self) -> (Arc<Program>, FunId, Vec<Arc<Body>>)
        ensures program { result.0.value ≡ self.program }
        ensures function { result.1 ≡ self.view.function }
        ensures bodies { map arc_value result.2.items ≡ self.view.bodies }
        ensures lawful { IsLawful self.program self.view }
    {
        let Bundle {
            program,
            function,
            bodies,
        } = self;
        (program, function, bodies)
    }

    /// Its program.
    pub fn program(&self) -> &Arc<Program>
        ensures { result.now.value ≡ self.now.program }
    {
        &self.program
    }

    /// The function for which it was made, which is one of its program's, and for which it is
    /// lawful.
    pub fn function(&self) -> FunId
        ensures is { result ≡ self.now.view.function }
        ensures there { result.0 < length self.now.program.functions }
        ensures lawful { IsLawful self.now.program self.now.view }
    {
        self.function
    }

    /// Its bodies, the first of which has the number 1.
    pub fn bodies(&self) -> &[Arc<Body>]
        ensures are { map arc_value result.now ≡ self.now.view.bodies }
        ensures lawful { IsLawful self.now.program self.now.view }
    {
        self.bodies.as_slice()
    }

    /// How many bodies it has: 1 to 32.
    pub fn count(&self) -> u32
        ensures { result ≡ length self.now.view.bodies }
    {
        self.bodies.len() as u32
    }

    /// The last body, which a call enters. It is one of the bundle's function.
    pub fn top(&self) -> &Body
        ensures is { made_body self.now.view.bodies (length self.now.view.bodies)
            ≡ Some result.now }
        ensures own { result.now.function ≡ self.now.view.function }
    {
        let bodies = self.bodies();
        &bodies[bodies.len() - 1]
    }

    /// The body with this number, counted from 1; none exactly where there is none.
    pub fn body(&self, number: u32) -> Option<&Body>
        ensures { option_copied result ≡ made_body self.now.view.bodies number }
    {
        body_numbered(self.bodies(), number)
    }
}
