// The one fault of a port.

use thiserror::Error;

/// A port failed. What the port tells is then as it was before the call.
#[derive(Clone, Copy, Debug, PartialEq, Eq, Error)]
#[error("the port failed")]
pub struct Failed;
