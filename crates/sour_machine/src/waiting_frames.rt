//! The frames below the top one.

ghost use Rattle.std.specs.Prelude.{◌≡◌, ◌+◌, ◌^◌, ◌<◌, ◌++◌, ◌∷◌, [], reverse, IfSome, IfNone, OnOk, OnErr};

use crate::activation::{Activation, Waiting};
use sour_syntax::VarId;
use std::alloc::{AllocError, Global};
use std::marker::Model;
use std::mem;

/// The frames that wait, the lowest first. Contracts see them as a list.
#[derive(Drop)]
pub(crate) struct WaitingFrames {
    frames: Vec<Waiting>,
}

impl Model for WaitingFrames {
    ghost use Rattle.std.specs.Prelude.{List};
    ghost use Rattle.sour_machine.specs.declared.activation.Waiting.{Waiting};

    ghost Value = { List Waiting };

    ghost view = { λ waiting. waiting.frames.items };
}

impl WaitingFrames {
    /// No frames. It takes no memory.
    pub(crate) fn new(alloc: Global) -> WaitingFrames
        ensures { result ≡ [] }
    {
        WaitingFrames {
            frames: Vec::new(alloc),
        }
    }

    /// Puts a new frame on top. The one that was there waits at its next line for a result in this
    /// variable. Where memory is wanting nothing is done.
    pub(crate) fn push(
        &mut self,
        top: &mut Activation,
        callee: Activation,
        x: VarId,
    ) -> Result<(), AllocError>
        requires { top.old.place + 1 < 2 ^ 64 }
        ensures below { OnOk result (self.new ≡ self.old ++ record { frame = record top.old { place = top.old.place + 1 }; result = x } ∷ []) }
        ensures top { OnOk result (top.new ≡ callee) }
        ensures same { OnErr result (self.new ≡ self.old) }
        ensures same_top { OnErr result (top.new ≡ top.old) }
    {
        self.frames.reserve(1)?;
        let mut frame = mem::replace(top, callee);
        frame.place += 1;
        self.frames.push_reserved(Waiting { frame, result: x });
        Ok(())
    }

    /// Puts these frames below the top one, the one next to it first. Where memory is wanting nothing is
    /// done.
    pub(crate) fn append_reversed(&mut self, waiting: Vec<Waiting>) -> Result<(), AllocError>
        ensures below { OnOk result (self.new ≡ self.old ++ reverse waiting.items) }
        ensures same { OnErr result (self.new ≡ self.old) }
    {
        let mut waiting = waiting;
        waiting.reverse();
        self.frames.append(&mut waiting)
    }

    /// Takes the frame that waits next to the top.
    pub(crate) fn pop(&mut self) -> Option<Waiting>
        ensures some { IfSome result (λ waiting. self.old ≡ self.new ++ waiting ∷ []) }
        ensures none { IfNone result ((self.old ≡ []) × (self.new ≡ [])) }
    {
        self.frames.pop()
    }
}
