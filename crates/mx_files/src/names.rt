//! Names of journal files.

ghost use Rattle.std.specs.Prelude.{◌≡◌, ◌++◌, IfOk, string_bytes};
ghost use Rattle.mx_files.specs.Names.{journal_name, draft_ending};

use std::alloc::{AllocError, Global};

/// The name of the journal that begins at a vclock of this signature: it in 20 digits, and an ending.
pub fn journal_name(alloc: Global, signature: u64) -> Result<String, AllocError>
    ensures { IfOk result (λ name. string_bytes name ≡ journal_name signature) }
{
    format!(in alloc; "{signature:020}.xlog")
}

/// The name that a file has until all of it is durable.
pub fn draft_name(alloc: Global, name: &str) -> Result<String, AllocError>
    ensures { IfOk result (λ draft. string_bytes draft ≡ name.now ++ draft_ending) }
{
    format!(in alloc; "{name}.inprogress")
}
