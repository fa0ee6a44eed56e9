ghost use Rattle.std.specs.Prelude.{◌≡◌};
ghost use Rattle.sour_table.specs.Table.{published};

use sour_bundle::Bundle;
use std::alloc::{AllocError, Global};
use std::sync::Arc;

/// What one entry of a history says.
#[derive(Drop)]
pub enum HistoryEntry {
    /// The bundle was published for its function.
    Publish(Arc<Bundle>),
}

impl Clone for HistoryEntry {
    ghost is_clone = { λ entry copy. published copy ≡ published entry };

    fn clone(&self) -> Result<HistoryEntry, AllocError> {
        match self {
            HistoryEntry::Publish(bundle) => Ok(HistoryEntry::Publish(bundle.clone()?)),
        }
    }
}
