//! Whether the plain slow program takes the key of a SELECT.

ghost use Rattle.std.specs.Prelude.{◌≡◌, ℕ, List, Ok, IfOk, MatchOption};
ghost use Rattle.mx_key.specs.Keys.{Key, AreFit};
ghost use Rattle.mx_key.specs.Parts.{key_of_array};
ghost use Rattle.mx_model.specs.SelectSteps.{RefusesKey, TakesKey};
ghost use Rattle.mx_model.specs.statements.Select.{part_count};

use mx_base::{Refusal, Unsupported};
use mx_key::{IterKind, misfit};
use mx_model::{misfit_refusal, part_count_refusal, takes_iterator};
use mx_msgpack::array_of;
use mx_schema::{IndexDef, IndexKind};
use mx_space::Pick;
use std::alloc::AllocError;

/// Why an index doesn't take an iterator with a key; `None` where it takes it.
///
/// # Errors
/// Out of memory.
pub fn key_refusal(def: &IndexDef, pick: &Pick<'_>) -> Result<Option<Refusal>, AllocError>
    ensures { IfOk result (λ refusal. MatchOption refusal
        (TakesKey def.now pick.now.iterator pick.now.key.now × (fitting : Key) × (key_of_array def.now.key pick.now.key.now ≡ Ok fitting) × AreFit fitting)
        (λ refusal. RefusesKey def.now pick.now.iterator pick.now.key.now refusal)) }
{
    if let Some(refusal) = kind_refusal(def, pick.iterator, count_parts(pick.key))? {
        return Ok(Some(refusal));
    }
    match misfit(&def.key, pick.key) {
        Some(misfit) => Ok(Some(misfit_refusal(def, misfit))),
        None => Ok(None),
    }
}

/// How many parts a key has, which is an array.
fn count_parts(key: &[u8]) -> u32
    ensures { result ≡ part_count key.now }
{
    match array_of(key) {
        Some(items) => items.count,
        None => 0,
    }
}

/// The same of a key of so many parts, but for their types.
fn kind_refusal(
    def: &IndexDef,
    iterator: IterKind,
    parts: u32,
) -> Result<Option<Refusal>, AllocError>
    ensures { (key : List ℕ) → parts ≡ part_count key → IfOk result (λ refusal. MatchOption refusal
        (TakesKey def.now iterator key)
        (λ refusal. RefusesKey def.now iterator key refusal)) }
{
    if !takes_iterator(def.kind, iterator, parts) {
        let what = Unsupported::HashIterator;
        return Ok(Some(Refusal::Unsupported { what }));
    }
    match def.kind {
        IndexKind::Tree => Ok(None),
        IndexKind::Hash => {
            if parts == 0 || parts as usize == def.key.len() {
                return Ok(None);
            }
            Ok(Some(part_count_refusal(def, parts)?))
        }
    }
}
