ghost use Rattle.std.specs.Prelude.{◌≡◌, None};
ghost use Rattle.sour_bundle.specs.Entry.{bundle_of};

use crate::bundle::Bundle;
use std::alloc::{AllocError, Global};
use std::sync::Arc;

/// What a call of a function enters.
#[derive(Drop)]
pub enum Entry {
    /// The first version that the text gives.
    Text,
    /// A bundle of the function.
    Made(Arc<Bundle>),
}

impl Clone for Entry {
    ghost is_clone = { λ entry copy. bundle_of copy ≡ bundle_of entry };

    ghost is_infallible = { λ entry. bundle_of entry ≡ None };

    fn clone(&self) -> Result<Entry, AllocError> {
        match self {
            Entry::Text => Ok(Entry::Text),
            Entry::Made(bundle) => Ok(Entry::Made(bundle.clone()?)),
        }
    }
}
