//! The fields of a tuple that is updated, in order.

ghost use Rattle.std.specs.Prelude.{◌≡◌, ◌+◌, ◌^◌, ◌<◌, ◌≤◌, [], ◌∷◌, ◌++◌, length, map, set, take, drop, IfOk, MatchResult};
ghost use Rattle.std.specs.List.{slice_get};
ghost use Rattle.mx_msgpack.specs.Items.{IsArray};
ghost use Rattle.mx_update.specs.Updates.{fields_of};
ghost use Rattle.mx_update.specs.Views.{field_view};

use crate::field::Field;
use mx_msgpack::{known_array, parted};
use std::alloc::{AllocError, Global};
use std::marker::Model;

#[derive(Drop)]
pub(crate) struct Fields<'a> {
    items: Vec<Field<'a>>,
}

impl<'a> Model for Fields<'a> {
    ghost use Rattle.std.specs.Prelude.{List, map};
    ghost use Rattle.mx_update.specs.Updates.{Field};
    ghost use Rattle.mx_update.specs.Views.{field_view};

    ghost Value = { List Field };

    ghost view = { λ f. map field_view f.items.items };
}

impl<'a> Fields<'a> {
    /// The fields of a tuple as they were sent, with room for `more`.
    pub(crate) fn sent(
        alloc: Global,
        tuple: &'a [u8],
        more: usize,
    ) -> Result<Fields<'a>, AllocError>
        requires { IsArray tuple.now }
        ensures fields { IfOk result (λ fields. fields ≡ fields_of tuple.now) }
        ensures few { IfOk result (λ fields. length fields ≤ length tuple.now) }
    {
        let elements = known_array(tuple);
        let room = more.saturating_add(elements.count as usize);
        let mut items = Vec::with_capacity(alloc, room)?;
        let mut rest = elements.bytes;
        let mut left = elements.count;
        while left > 0 {
            let (spelling, others) = parted(rest);
            items.push(Field::Sent(spelling))?;
            rest = others;
            left -= 1;
        }
        Ok(Fields { items })
    }

    pub(crate) fn len(&self) -> usize
        ensures count { result ≡ length self.now }
        ensures small { result < 2 ^ 63 }
    {
        self.items.len()
    }

    pub(crate) fn as_slice(&self) -> &[Field<'a>]
        ensures { map field_view result.now ≡ self.now }
    {
        self.items.as_slice()
    }

    pub(crate) fn get(&self, place: usize) -> &Field<'a>
        requires { place < length self.now }
        ensures { slice_get self.now place ≡ Some (field_view result.now) }
    {
        &self.items[place]
    }

    pub(crate) fn set(&mut self, place: usize, field: Field<'a>)
        requires { place < length self.old }
        ensures { self.new ≡ set self.old place (field_view field.entry) }
    {
        self.items[place] = field;
    }

    pub(crate) fn push(&mut self, field: Field<'a>) -> Result<(), AllocError>
        ensures { MatchResult result (λ _. self.new ≡ self.old ++ field_view field.entry ∷ []) (λ _. self.new ≡ self.old) }
    {
        self.items.push(field)?;
        Ok(())
    }

    pub(crate) fn insert(&mut self, place: usize, field: Field<'a>) -> Result<(), AllocError>
        requires { place ≤ length self.old }
        ensures { MatchResult result
            (λ _. self.new ≡ take place self.old ++ field_view field.entry ∷ drop place self.old)
            (λ _. self.new ≡ self.old) }
    {
        self.items.insert(place, field)?;
        Ok(())
    }

    /// Deletes the field at the place and those after it, `count` in all or as many as there are.
    pub(crate) fn delete(&mut self, place: usize, count: u64)
        requires { place < length self.old }
        ensures { self.new ≡ take place self.old ++ drop (place + count) self.old }
    {
        let end = place.saturating_add(count as usize).min(self.items.len());
        remove_range(&mut self.items, place, end);
    }
}

fn remove_range<T: Drop>(items: &mut Vec<T>, start: usize, end: usize)
    requires order { start ≤ end }
    requires within { end ≤ length items.old.items }
    ensures { items.new.items ≡ take start items.old.items ++ drop end items.old.items }
{
    items.drain(start..end);
}
