//! The text of a vclock: `{}` or `{1: 5, 2: 7}`, the components that aren't 0, in ascending order of replica id.

ghost use Rattle.std.specs.Prelude.{◌≡◌, IfOk};
ghost use Rattle.mx_vclock.specs.Text.{vclock_text};

use crate::vclock::Vclock;
use mx_msgpack::Bytes;
use std::alloc::{AllocError, Global};

/// The length of the longest text in bytes: two braces, and 32 components of at most four bytes before the lsn, 18
/// digits and two bytes after them.
const MAX_TEXT: usize = 2 + 32 * (4 + 18 + 2);

impl Vclock {
    /// The vclock's text.
    pub fn text(&self, alloc: Global) -> Result<Bytes, AllocError>
        ensures { IfOk result (λ text. text ≡ vclock_text self.now) }
    {
        let mut text = String::with_capacity(alloc, MAX_TEXT)?;
        text.push('{')?;
        let mut between = "";
        for (id, lsn) in self.lsns().iter().enumerate() {
            if *lsn != 0 {
                write!(text, "{between}{id}: {lsn}")?;
                between = ", ";
            }
        }
        text.push('}')?;
        Ok(Bytes::from_vec(text.into_bytes()))
    }
}
