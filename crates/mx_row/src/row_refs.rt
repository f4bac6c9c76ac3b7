//! The rows of a transaction in place.

ghost use Rattle.std.specs.Prelude.{◌≡◌, [], ◌∷◌};

use crate::row_list::RowList;
use crate::row_ref::RowRef;
use std::marker::Model;

/// The rows of a transaction where they lie in a block. One row takes no allocation.
#[derive(Drop)]
pub struct RowRefs<'a> {
    list: RowList<'a>,
}

impl<'a> Model for RowRefs<'a> {
    ghost use Rattle.std.specs.Prelude.{List};
    ghost use Rattle.mx_row.specs.declared.row_ref.RowRef.{RowRef};
    ghost use Rattle.mx_row.specs.RowLists.{rows_listed};

    ghost Value = { List RowRef };

    ghost view = { λ r. rows_listed r.list };
}

impl<'a> RowRefs<'a> {
    /// One row.
    #[inline]
    pub fn one(row: RowRef<'a>) -> RowRefs<'a>
        ensures { result ≡ row.entry ∷ [] }
    {
        RowRefs {
            list: RowList::One(row),
        }
    }

    /// The rows in place.
    #[inline]
    pub fn as_slice(&self) -> &[RowRef<'a>]
        ensures { result.now ≡ self.now }
    {
        match &self.list {
            RowList::One(row) => std::slice::from_ref(row),
            RowList::Several(rows) => rows.as_slice(),
        }
    }

    pub(crate) fn several(rows: Vec<RowRef<'a>>) -> RowRefs<'a>
        ensures { result ≡ rows.entry.items }
    {
        RowRefs {
            list: RowList::Several(rows),
        }
    }
}
