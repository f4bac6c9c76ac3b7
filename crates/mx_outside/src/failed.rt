//! The one error of a call on the outside.

use thiserror::Error;

/// The call failed, and the object's count of faults rose.
#[derive(Clone, Copy, Debug, Drop, PartialEq, Eq, Error)]
#[error("the call failed")]
pub struct Failed;
