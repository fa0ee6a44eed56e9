ghost use Rattle.std.specs.Prelude.{◌≡◌, ◌≤◌, ◌+◌, ◌-◌, [], ◌∷◌, ◌++◌, length, OnOk, OnErr};
ghost use Rattle.sour_semantics.specs.Step.{output_limit};

use sour_syntax::List;
use std::alloc::{AllocError, Global};
use std::marker::Model;

/// The most bytes that a run may write.
const OUTPUT_LIMIT: usize = 1_048_576;

/// What a run has written. Contracts see the bytes.
#[derive(Drop)]
pub(crate) struct Output {
    bytes: Vec<u8>,
}

impl Model for Output {
    ghost use Rattle.std.specs.Prelude.{List as Listed, ℕ};
    ghost use Rattle.std.specs.Coded.{coded_list, coded_ℕ};

    ghost Value = { Listed ℕ };

    ghost coded = { coded_list coded_ℕ };

    ghost view = { λ output. output.bytes.items };
}

impl Output {
    /// Nothing written yet. It takes no memory.
    pub(crate) fn new(alloc: Global) -> Output
        ensures { result ≡ [] }
    {
        Output {
            bytes: Vec::new(alloc),
        }
    }

    /// How many bytes more the run may write.
    pub(crate) fn room(&self) -> usize
        ensures { result ≡ output_limit - length self.now }
    {
        OUTPUT_LIMIT.saturating_sub(self.bytes.len())
    }

    /// Writes a text of three parts and a line feed, or nothing where memory is wanting.
    pub(crate) fn write_line(
        &mut self,
        head: &[u8],
        middle: &[u8],
        tail: &[u8],
    ) -> Result<(), AllocError>
        requires { length head.now + length middle.now + length tail.now ≤ output_limit }
        ensures ok { OnOk result (self.new ≡ self.old ++ ((head.now ++ middle.now ++ tail.now) ++ 10 ∷ [])) }
        ensures err { OnErr result (self.new ≡ self.old) }
    {
        self.bytes
            .reserve(head.len() + middle.len() + tail.len() + 1)?;
        self.bytes.extend_from_slice(head)?;
        self.bytes.extend_from_slice(middle)?;
        self.bytes.extend_from_slice(tail)?;
        self.bytes.push(b'\n')?;
        Ok(())
    }

    /// All the bytes.
    pub(crate) fn into_list(self) -> List<u8>
        ensures { result ≡ self }
    {
        let Output { bytes } = self;
        List::from_vec(bytes)
    }
}
