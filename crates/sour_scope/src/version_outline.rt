//! What is known of a version before it is gone through.

use crate::names::DistinctNames;
use sour_syntax::{Label, Labels};

/// The name of a version, its variables and its labels.
#[derive(Drop)]
pub(crate) struct VersionOutline {
    pub(crate) name: Label,
    pub(crate) variables: DistinctNames,
    pub(crate) labels: Labels,
}
