//! The node that may be written, and its lsns.

ghost use Rattle.std.specs.Prelude.{◌≡◌, ◌<◌, suc, slice_index, slice_set, MatchOption};
ghost use Rattle.mx_vclock.specs.Vclocks.{max_lsn, IsNext};
ghost use Rattle.mx_request.specs.declared.request.Request.{Request};
ghost use Rattle.mx_request.specs.Spelling.{type_number};
ghost use Rattle.mx_model.specs.Bases.{is_write, writable_node};

use mx_vclock::Vclock;

/// The replica id of the node that may be written.
pub const WRITABLE_NODE: u8 = 1;

/// Whether a request of this type writes, so that only one node takes it: INSERT, REPLACE, UPDATE, DELETE and UPSERT do.
pub fn is_write(kind: u8) -> bool
    ensures { (request : Request) → kind ≡ type_number request → result ≡ is_write request }
{
    matches!(kind, 2 | 3 | 4 | 5 | 9)
}

/// Moves a vclock on to the next lsn of the node that may be written; `None` where its lsns are used up.
pub fn next_lsn(clock: &mut Vclock) -> Option<u64>
    ensures { MatchOption result
        ((max_lsn < suc (slice_index clock.old writable_node)) × (clock.new ≡ clock.old))
        (λ lsn. IsNext clock.old writable_node lsn × (clock.new ≡ slice_set clock.old writable_node lsn)) }
{
    let lsn = clock.get(WRITABLE_NODE).saturating_add(1);
    match clock.follow(WRITABLE_NODE, lsn) {
        Ok(()) => Some(lsn),
        Err(_) => None,
    }
}
