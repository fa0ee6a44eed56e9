//! Why a part of a text gets no numbers.

ghost use Rattle.sour_scope.specs.declared.unnumbered.Unnumbered.TheVariants.{Memory};

use std::alloc::{AllocError, AllocFailed};

/// Why a part of a text gets no numbers in place of its names.
#[derive(Clone, Copy)]
pub(crate) enum Unnumbered {
    /// A name in it isn't there.
    Unknown,
    /// There is no memory for it.
    Memory,
}

impl From<AllocError> for Unnumbered {
    ghost use Rattle.std.specs.Prelude.{◌≡◌};

    ghost from_gives = { λ _ e. e ≡ Memory };

    fn from(_error: AllocError) -> Unnumbered {
        Unnumbered::Memory
    }
}

impl<T: Drop> From<AllocFailed<T>> for Unnumbered {
    ghost use Rattle.std.specs.Prelude.{◌≡◌};

    ghost from_gives = { λ _ e. e ≡ Memory };

    fn from(_error: AllocFailed<T>) -> Unnumbered {
        Unnumbered::Memory
    }
}
