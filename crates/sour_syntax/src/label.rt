ghost use Rattle.std.specs.Prelude.{◌≡◌, ◌↔◌, IsTrue, IfOk};
ghost use Rattle.sour_syntax.specs.Labels.{automatic_label};

use itoa::Buffer;
use std::alloc::{AllocError, Global};
use std::marker::Model;

/// A name or a label. Contracts see it as its bytes.
#[derive(Drop)]
pub struct Label {
    bytes: Vec<u8>,
}

impl Model for Label {
    ghost use Rattle.std.specs.Prelude.{List, ℕ};
    ghost use Rattle.std.specs.Coded.{coded_list, coded_ℕ};

    ghost Value = { List ℕ };

    ghost coded = { coded_list coded_ℕ };

    ghost view = { λ label. label.bytes.items };
}

impl Label {
    /// The label with these bytes.
    pub fn from_bytes(bytes: Vec<u8>) -> Label
        ensures { result ≡ bytes.items }
    {
        Label { bytes }
    }

    /// The label of a line that the text gives none: `_` and its place in its version, counted from 0.
    pub fn automatic(alloc: Global, place: u32) -> Result<Label, AllocError>
        ensures { IfOk result (λ label. label ≡ automatic_label place) }
    {
        let mut buffer = Buffer::new();
        let digits = buffer.format(place).as_bytes();
        let mut bytes = Vec::with_capacity(alloc, digits.len() + 1)?;
        bytes.push(b'_')?;
        bytes.extend_from_slice(digits)?;
        Ok(Label { bytes })
    }

    /// Its bytes.
    pub fn as_bytes(&self) -> &[u8]
        ensures { result.now ≡ self.now }
    {
        self.bytes.as_slice()
    }

    /// Whether both have the same bytes.
    pub fn is_same(&self, other: &Label) -> bool
        ensures { IsTrue result ↔ (self.now ≡ other.now) }
    {
        self.as_bytes() == other.as_bytes()
    }
}
