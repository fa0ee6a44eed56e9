//! Why tokens aren't read.

ghost use Rattle.sour_reader.specs.declared.stop.Stop.TheVariants.{Memory};

use sour_lexer::PlacedToken;
use sour_raw::Kind;
use std::alloc::{AllocError, AllocFailed};

/// Why tokens aren't read.
#[derive(Drop)]
pub(crate) enum Stop<'a> {
    /// Memory was wanting.
    Memory,
    /// A fault of this kind at the first of these tokens, or at the end where there are none.
    At(Kind, &'a [PlacedToken<'a>]),
}

impl<'a> From<AllocError> for Stop<'a> {
    ghost use Rattle.std.specs.Prelude.{◌≡◌};

    ghost from_gives = { λ _ e. e ≡ Memory };

    fn from(_error: AllocError) -> Stop<'a> {
        Stop::Memory
    }
}

impl<'a, T: Drop> From<AllocFailed<T>> for Stop<'a> {
    ghost use Rattle.std.specs.Prelude.{◌≡◌};

    ghost from_gives = { λ _ e. e ≡ Memory };

    fn from(_error: AllocFailed<T>) -> Stop<'a> {
        Stop::Memory
    }
}
