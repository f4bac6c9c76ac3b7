//! Why a call has no answer.

use std::alloc::AllocError;

/// Why a call has no answer.
#[derive(Drop)]
pub enum Fault {
    /// No call has this name.
    NoCall,
    /// What is wrong with the arguments.
    Wrong(String),
    NoMemory,
}

impl Fault {
    /// A fault of this text, which may have needed too much memory.
    pub fn of(text: Result<String, AllocError>) -> Fault {
        match text {
            Ok(text) => Fault::Wrong(text),
            Err(AllocError) => Fault::NoMemory,
        }
    }
}

impl From<AllocError> for Fault {
    fn from(_: AllocError) -> Fault {
        Fault::NoMemory
    }
}
