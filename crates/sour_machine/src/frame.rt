//! A frame of the language, and the code that it runs.

ghost use Rattle.std.specs.Prelude.{◌≡◌};
ghost use Rattle.std.specs.Option.{option_copied};
ghost use Rattle.sour_semantics.specs.Step.{body_at};
ghost use Rattle.sour_machine.specs.Frame.{code_of};
ghost use Rattle.sour_machine.specs.Landing.{number_of};

use crate::env::Env;
use sour_syntax::{Body, FunId, Label, Program, VarId};
use std::marker::Model;

/// The code that a frame runs.
#[derive(Clone, Copy, Debug, PartialEq, Eq)]
pub enum FrameCode {
    /// A version of the text: its function, and its place among the versions, counted from 0.
    Text(FunId, u32),
}

impl FrameCode {
    /// Its body; none exactly where the program has no such version.
    pub(crate) fn body<'a>(self, program: &'a Program) -> Option<&'a Body>
        ensures { option_copied result ≡ body_at program.now (code_of self) }
    {
        let FrameCode::Text(function, version) = self;
        let function = program.function(function)?;
        let version = function.versions.get(version as usize)?;
        Some(&version.body)
    }
}

/// An activation of a body. Contracts see the language's frame.
#[derive(Drop)]
pub struct Frame {
    code: FrameCode,
    label: Label,
    env: Env,
    waits: Option<VarId>,
}

impl Model for Frame {
    ghost use Rattle.sour_semantics.specs.State.{Frame as Activated};
    ghost use Rattle.sour_machine.specs.Frame.{code_of};
    ghost use Rattle.sour_machine.specs.Landing.{number_of};

    ghost Value = { Activated };

    ghost view = { λ frame. record { code = code_of frame.code; label = frame.label; environment = frame.env; waits = number_of frame.waits } };
}

impl Frame {
    /// A frame of this code at the line with this label. It takes no memory.
    pub fn new(code: FrameCode, label: Label, env: Env, waits: Option<VarId>) -> Frame
        ensures { result ≡ record { code = code_of code; label = label; environment = env; waits = number_of waits } }
    {
        Frame {
            code,
            label,
            env,
            waits,
        }
    }

    /// The code that it runs.
    pub fn code(&self) -> &FrameCode
        ensures { code_of result.now ≡ self.now.code }
    {
        &self.code
    }

    /// The label of its next line.
    pub fn label(&self) -> &Label
        ensures { result.now ≡ self.now.label }
    {
        &self.label
    }

    /// Its variables.
    pub fn env(&self) -> &Env
        ensures { result.now ≡ self.now.environment }
    {
        &self.env
    }

    /// The variable that gets the result of the frame above it, if it waits for one.
    pub fn waits(&self) -> Option<VarId>
        ensures { number_of result ≡ self.now.waits }
    {
        self.waits
    }
}
