ghost use Rattle.std.specs.Prelude.{◌≡◌, ◌≤◌, ◌<◌, ◌↔◌, ℕ, Some, length, IfOk, IfErr, OnOk, IfSome, IfNone};
ghost use Rattle.sour_syntax.specs.Labels.{LabelsDiffer, IsPlaceOf, labels_of};
ghost use Rattle.sour_syntax.specs.Terminator.{EndsInTerminator};
ghost use Rattle.sour_syntax.specs.Jumps.{NamesItsLabels, GoTo};
ghost use Rattle.sour_syntax.specs.Scopes.{HasScopes, HasInScope, IsUnreached, MentionsItsVariables};
ghost use Rattle.sour_syntax.specs.Body.{IsWellFormed, IsBody};
ghost use Rattle.sour_syntax.specs.Taking.{HasNoBodyFault, IsFirstBodyFault};

use crate::body_fault::BodyFault;
use crate::instruction::Line;
use crate::jump::Jump;
use crate::jump_places::jumps_of;
use crate::label::Label;
use crate::labels::Labels;
use crate::list::List;
use crate::literal::{FunId, VarId};
use crate::names::Names;
use crate::parts::Parts;
use crate::scope_lists::lists_of;
use crate::taking::taken_places;
use std::alloc::{AllocError, Global};
use std::marker::Model;

/// The instructions of one version. Its labels differ, no path through it falls off its end, and each
/// label has one scope, in which the instruction there may stand.
#[derive(Drop)]
pub struct Body {
    parts: Parts,
    labels: Labels,
    /// For each place, where its instruction goes by name.
    jumps: List<Jump>,
    /// For each place the variables in scope there, or nothing where no path leads there.
    scopes: List<Option<List<VarId>>>,
}

impl Model for Body {
    ghost use Rattle.sour_syntax.specs.BodyView.{BodyView};
    ghost use Rattle.sour_syntax.specs.Body.{IsBody, Keeps};

    ghost Value = { BodyView };

    ghost view = { λ body. body.parts };

    ghost invariant = { λ body. IsBody body.parts
        × Keeps body.parts body.labels body.jumps body.scopes };
}

impl Body {
    /// The body of a version of `function`. The first `parameters` of its variables are its parameters.
    /// It works out the scope of each place.
    pub fn new(
        alloc: Global,
        function: FunId,
        parameters: u32,
        variables: Names,
        lines: List<Line>,
    ) -> Result<Body, AllocError>
        requires { IsBody (record {
          function = function;
          parameters = parameters;
          variables = variables;
          lines = lines;
        }) }
        ensures { IfOk result (λ body. body ≡ record {
          function = function;
          parameters = parameters;
          variables = variables;
          lines = lines;
        }) }
    {
        let labels = Labels::of_lines(alloc, lines.as_slice())?;
        let checked = Body::checked(alloc, function, parameters, variables, labels, lines)?;
        Ok(checked.unwrap())
    }

    /// The body of these parts, whose lines have these labels; or the first fault of its scopes.
    pub fn checked(
        alloc: Global,
        function: FunId,
        parameters: u32,
        variables: Names,
        labels: Labels,
        lines: List<Line>,
    ) -> Result<Result<Body, BodyFault>, AllocError>
        requires form { IsWellFormed (record {
          function = function;
          parameters = parameters;
          variables = variables;
          lines = lines;
        }) }
        requires labels { labels ≡ labels_of lines }
        ensures body { IfOk result (λ checked. IfOk checked (λ body. body ≡ record {
          function = function;
          parameters = parameters;
          variables = variables;
          lines = lines;
        })) }
        ensures faultless { IfOk result (λ checked. OnOk checked (HasNoBodyFault (record {
          function = function;
          parameters = parameters;
          variables = variables;
          lines = lines;
        }))) }
        ensures fault { IfOk result (λ checked. IfErr checked (IsFirstBodyFault (record {
          function = function;
          parameters = parameters;
          variables = variables;
          lines = lines;
        }))) }
    {
        let parts = Parts {
            function,
            parameters,
            variables,
            lines,
        };
        let jumps = jumps_of(alloc, parts.lines(), &labels)?;
        let places = match taken_places(alloc, &parts, jumps.as_slice())? {
            Ok(places) => places,
            Err(fault) => return Ok(Err(fault)),
        };
        let scopes = lists_of(alloc, &parts.variables, places.as_slice())?;
        Ok(Ok(Body {
            parts,
            labels,
            jumps,
            scopes,
        }))
    }

    /// The function of which this is a version.
    pub fn function(&self) -> FunId
        ensures { result ≡ self.now.function }
    {
        self.parts.function
    }

    /// How many parameters it has.
    pub fn parameters(&self) -> u32
        ensures value { result ≡ self.now.parameters }
        ensures within { result ≤ length self.now.variables }
    {
        self.parts.parameters
    }

    /// Its variables, the parameters first.
    pub fn variables(&self) -> &Names
        ensures { result.now ≡ self.now.variables }
    {
        &self.parts.variables
    }

    /// Its instructions, in order.
    pub fn lines(&self) -> &[Line]
        ensures value { result.now ≡ self.now.lines }
        ensures labels { LabelsDiffer result.now }
        ensures end { EndsInTerminator result.now }
        ensures names { NamesItsLabels result.now }
        ensures mentions { MentionsItsVariables self.now }
        ensures scopes { HasScopes self.now }
    {
        self.parts.lines()
    }

    /// Where each instruction goes by name, in the order of the lines.
    pub fn jumps(&self) -> &[Jump]
        ensures { GoTo self.now.lines self.now.lines result.now }
    {
        self.jumps.as_slice()
    }

    /// The place of the line with this label, counted from 0; none exactly where no line has it. It
    /// scans nothing.
    pub fn place(&self, label: &Label) -> Option<usize>
        ensures { (place : ℕ) → IsPlaceOf self.now.lines label.now place ↔ (result ≡ Some place) }
    {
        self.labels.place(label.as_bytes())
    }

    /// The variables in scope at a place, by their numbers in ascending order; none exactly where no path
    /// from the first line leads there.
    pub fn scope(&self, place: usize) -> Option<&[VarId]>
        requires { place < length self.now.lines }
        ensures reached { IfSome result (λ variables. HasInScope self.now place variables.now) }
        ensures unreached { IfNone result (IsUnreached self.now place) }
    {
        match &self.scopes.as_slice()[place] {
            Some(variables) => Some(variables.as_slice()),
            None => None,
        }
    }
}
