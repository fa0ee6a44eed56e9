//! Frames as the interpreter keeps them: by places instead of labels.

ghost use Rattle.std.specs.Prelude.{◌≡◌, [], None, IfOk};
ghost use Rattle.sour_semantics.specs.State.{text};
ghost use Rattle.sour_semantics.specs.Step.{body_of, entered_frame};
ghost use Rattle.sour_machine.specs.Frame.{frame_at, StandsAtLine};

use crate::env::Env;
use crate::frame::FrameCode;
use sour_syntax::{Program, VarId};
use std::alloc::{AllocError, Global};

/// A frame that waits for nothing.
#[derive(Drop)]
pub(crate) struct Activation {
    pub(crate) code: FrameCode,
    /// The place of its next line, counted from 0.
    pub(crate) place: usize,
    /// Its variables.
    pub(crate) env: Env,
}

impl Activation {
    /// A frame of the text version of `main` at its first line, whose variables have no values.
    pub(crate) fn of_main(alloc: Global, program: &Program) -> Result<Activation, AllocError>
        ensures frame { IfOk result (λ frame. frame_at program.now frame None ≡ entered_frame (text program.now.main 0) (body_of program.now (text program.now.main 0)) []) }
        ensures stands { IfOk result (λ frame. StandsAtLine program.now frame None) }
    {
        let code = FrameCode::Text(program.main(), 0);
        let Some(body) = code.body(program) else {
            unreachable!();
        };
        let mut env = Env::new(alloc);
        env.extend_to(body.variables().len())?;
        Ok(Activation {
            code,
            place: 0,
            env,
        })
    }
}

/// A frame that waits for the result of the one above it.
#[derive(Drop)]
pub(crate) struct Waiting {
    pub(crate) frame: Activation,
    /// The variable that gets the result.
    pub(crate) result: VarId,
}
