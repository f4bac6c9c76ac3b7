//! Why steps stopped.

use mx_base::Refusal;
use std::alloc::AllocError;

/// Why steps weren't made to their end.
#[derive(Debug, Drop)]
pub enum StepFault {
    /// What was told isn't what is expected. The text says both.
    Differs(String),
    /// A state refused a tuple.
    Refused(Refusal),
    /// The text is no vclock.
    NoVclock,
    /// The engine was asked more often than tests ask.
    TooManySteps,
    /// An allocation failed.
    NoMemory,
}

impl From<AllocError> for StepFault {
    fn from(_: AllocError) -> StepFault {
        StepFault::NoMemory
    }
}

impl From<Refusal> for StepFault {
    fn from(refusal: Refusal) -> StepFault {
        StepFault::Refused(refusal)
    }
}
