//! What a SELECT's numbers mean, and why its key is refused.

ghost use Rattle.std.specs.Prelude.{◌≡◌, ◌<◌, ◌^◌, ℕ, List, Err, IfOk, length};
ghost use Rattle.mx_base.specs.declared.refusal.Refusal.TheVariants.{KeyPartCount};
ghost use Rattle.mx_key.specs.Parts.{key_of_array};
ghost use Rattle.mx_model.specs.statements.Select as spec;
ghost use Rattle.mx_write.specs.Lookup.{misfit_refusal};

use mx_base::Refusal;
use mx_key::{IterKind, Misfit};
use mx_schema::{IndexDef, IndexKind};
use mx_write::type_of;
use std::alloc::AllocError;

/// The refusal of a key that doesn't fit an index.
pub fn misfit_refusal(def: &IndexDef, misfit: Misfit) -> Refusal
    ensures { (key : List ℕ) → key_of_array def.now.key key ≡ Err misfit → result ≡ misfit_refusal (length def.now.key) misfit }
{
    match misfit {
        Misfit::TooLong { parts } => Refusal::KeyPartCount {
            parts,
            index: part_count(def),
        },
        Misfit::WrongPart { part, expected } => Refusal::KeyPartType {
            part,
            expected: type_of(expected),
        },
    }
}

fn part_count(def: &IndexDef) -> u32
    ensures { length def.now.key < 2 ^ 32 → result ≡ length def.now.key }
{
    u32::try_from(def.key.len()).unwrap_or(u32::MAX)
}

/// The refusal of a key of so many parts by an index that takes no other than whole ones.
///
/// # Errors
/// An index of more parts than a refusal can tell is taken as one for which there is no memory.
pub fn part_count_refusal(def: &IndexDef, parts: u32) -> Result<Refusal, AllocError>
    ensures { IfOk result (λ refusal. refusal ≡ KeyPartCount parts (length def.now.key)) }
{
    match u32::try_from(def.key.len()) {
        Ok(index) => Ok(Refusal::KeyPartCount { parts, index }),
        Err(_) => Err(AllocError),
    }
}

/// Whether an index of this kind takes an iterator, with a key of so many parts.
pub fn takes_iterator(kind: IndexKind, iterator: IterKind, parts: u32) -> bool
    ensures { result ≡ spec.takes_iterator kind iterator parts }
{
    match kind {
        IndexKind::Tree => true,
        IndexKind::Hash => match iterator {
            IterKind::Eq => true,
            IterKind::All => parts == 0,
            IterKind::Req | IterKind::Lt | IterKind::Le | IterKind::Ge | IterKind::Gt => false,
        },
    }
}

/// The iterator of a SELECT's number.
pub fn iterator_of(number: u8) -> IterKind
    ensures { result ≡ spec.iterator_of number }
{
    match number {
        0 => IterKind::Eq,
        1 => IterKind::Req,
        2 => IterKind::All,
        3 => IterKind::Lt,
        4 => IterKind::Le,
        5 => IterKind::Ge,
        _ => IterKind::Gt,
    }
}
