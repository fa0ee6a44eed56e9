ghost use Rattle.std.specs.Prelude.{◌≡◌};
ghost use Rattle.sour_bundle.specs.Entry.{bundle_of};

use sour_bundle::Entry;
use std::alloc::AllocError;

/// The active version of a function.
#[derive(Drop)]
pub(crate) struct Active {
    /// How many bundles of the function were published: the number of this version.
    pub(crate) number: u32,
    pub(crate) entry: Entry,
}

impl Clone for Active {
    ghost is_clone = { λ active copy. (copy.number ≡ active.number)
        × (bundle_of copy.entry ≡ bundle_of active.entry) };

    fn clone(&self) -> Result<Active, AllocError> {
        Ok(Active {
            number: self.number,
            entry: self.entry.clone()?,
        })
    }
}
