//! Heads of arrays, texts and maps that more bytes may follow.

ghost use Rattle.std.specs.Prelude.{IfSome};
ghost use Rattle.mx_completion.specs.HeadForms.{Announces, HasHead, IsShortHead};

use crate::leading::{Kind, leading_of, padded_number};

/// How many values, bytes or pairs a head announces.
#[derive(Clone, Copy)]
pub(crate) enum Head {
    /// At least so many: so many bytes of the head are missing.
    Cut { count: usize, missing: usize },
    /// The head takes so many bytes.
    Full { count: usize, size: usize },
}

/// The head that stands first; `None` where none of the type does, whatever bytes follow.
pub(crate) fn head_at(kind: Kind, bytes: &[u8]) -> Option<Head>
    requires { HasHead kind }
    ensures announces { Announces kind bytes.now result }
    ensures short { IfSome result IsShortHead }
{
    let Some((byte, digits)) = bytes.split_first() else {
        return Some(Head::Cut {
            count: 0,
            missing: 1,
        });
    };
    let leading = leading_of(*byte)?;
    if leading.kind != kind {
        return None;
    }
    let count = leading.length + padded_number(leading.width, digits);
    if digits.len() < leading.width {
        return Some(Head::Cut {
            count,
            missing: leading.width - digits.len(),
        });
    }
    Some(Head::Full {
        count,
        size: 1 + leading.width,
    })
}
