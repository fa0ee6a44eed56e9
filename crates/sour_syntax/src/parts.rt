//! What a body is made of, before it is known to be one.

ghost use Rattle.std.specs.Prelude.{◌≡◌, ◌≤◌, ◌^◌, length};

use crate::instruction::Line;
use crate::list::List;
use crate::literal::FunId;
use crate::names::Names;
use std::marker::Model;

/// The parts of a body. Contracts see them as they see a body.
#[derive(Drop)]
pub(crate) struct Parts {
    pub(crate) function: FunId,
    pub(crate) parameters: u32,
    pub(crate) variables: Names,
    pub(crate) lines: List<Line>,
}

impl Model for Parts {
    ghost use Rattle.sour_syntax.specs.BodyView.{BodyView};

    ghost Value = { BodyView };

    ghost view = { λ parts. record {
      function = parts.function;
      parameters = parts.parameters;
      variables = parts.variables;
      lines = parts.lines;
    } };
}

impl Parts {
    /// Its instructions, in order.
    pub(crate) fn lines(&self) -> &[Line]
        ensures { result.now ≡ self.now.lines }
    {
        self.lines.as_slice()
    }

    /// How many variables it has.
    pub(crate) fn count(&self) -> usize
        ensures value { result ≡ length self.now.variables }
        ensures few { result ≤ 2 ^ 32 }
    {
        self.variables.len()
    }

    /// How many parameters it has.
    pub(crate) fn parameters(&self) -> usize
        ensures { result ≡ self.now.parameters }
    {
        self.parameters as usize
    }
}
