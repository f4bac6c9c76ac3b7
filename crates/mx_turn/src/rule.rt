//! The rule of the table behind a turn, and what its steps tell.

use crate::logged::Logged;
use crate::view::View;
use atomic_table::{Join, Play, Split, TableRule};
use std::marker::PhantomData;
use std::snapshot::Snapshot;

/// What the slot keeps: the value, and what its last holder told of its entry.
#[derive(Drop)]
pub struct SlotValue<T, N> {
    pub(crate) value: T,
    pub(crate) note: Option<Snapshot<N>>,
}

/// What the table is told when it is made.
#[derive(Drop)]
pub struct Beginning<T> {
    pub(crate) value: Snapshot<T>,
    pub(crate) seats: u32,
}

/// The rule of the table.
pub struct OneHistory<T> {
    value: PhantomData<T>,
}

impl<T: Logged> TableRule<Option<SlotValue<T, T::Note>>, View<T::Base, T::Entry>, Beginning<T>>
    for OneHistory<T> {
    ghost use Rattle.mx_turn.specs.Rule.{IsTurn};
    ghost use Rattle.mx_turn.specs.Views.{first_view};

    ghost holds = { λ key. IsTurn (T.stands (T.start key.value.value)) T.is_alone T.is_call (T.start key.value.value) key.seats };

    ghost first = { λ key. first_view (T.start key.value.value) key.seats };
}

/// A load, which sees all entries.
pub(crate) struct Look;

impl<T: Logged> Play<Option<SlotValue<T, T::Note>>, View<T::Base, T::Entry>> for Look {
    ghost use Rattle.mx_turn.specs.Steps.{Looks};

    ghost then = { λ _. Looks T.is_alone T.is_call };
}

/// The step that takes the turn where it is free.
pub(crate) struct Take;

impl<T: Logged> Play<Option<SlotValue<T, T::Note>>, View<T::Base, T::Entry>> for Take {
    ghost use Rattle.mx_turn.specs.Steps.{Takes};

    ghost then = { λ _. Takes T.stands T.is_alone T.is_call };
}

/// The step that gives the turn back with one entry more.
pub(crate) struct Give;

impl<T: Logged> Play<Option<SlotValue<T, T::Note>>, View<T::Base, T::Entry>> for Give {
    ghost use Rattle.mx_turn.specs.Steps.{Gives};

    ghost then = { λ _. Gives T.is_call T.entry_of };
}

/// A load that compares the two histories of a seat.
pub(crate) struct Compare;

impl<T: Logged> Play<Option<SlotValue<T, T::Note>>, View<T::Base, T::Entry>> for Compare {
    ghost use Rattle.mx_turn.specs.Steps.{Compares};

    ghost then = { λ _ before _. Compares before };
}

/// One part for a seat of its own.
pub(crate) struct Cut;

impl<B, E> Split<View<B, E>> for Cut {
    ghost use Rattle.mx_turn.specs.Views.{part_view, after_split};

    ghost left = { after_split };

    ghost right = { part_view };
}

/// The parts of two seats in one.
pub(crate) struct Glue<T> {
    value: PhantomData<T>,
}

impl<T: Logged> Join<View<T::Base, T::Entry>> for Glue<T> {
    ghost use Rattle.mx_turn.specs.Steps.{spent_view, with_told};

    ghost both = { with_told };

    ghost spent = { spent_view T.nowhere };
}
