//! Changes whose memory was taken.

ghost use Rattle.std.specs.Prelude.{◌≡◌, List, [], ◌∷◌, IfOk, OnOk, IfErr, MatchOption};
ghost use Rattle.mx_space.specs.Reserved.{IsStepOf};

use crate::change::Change;
use crate::tuple_changes::TupleChange;
use mx_base::SpaceId;
use mx_msgpack::Bytes;
use std::alloc::{AllocError, Global};
use std::marker::Model;

/// A change that was made ready: what it does to the tuple under a primary key of a space, and to each index.
#[derive(Drop)]
pub(crate) struct Step {
    pub(crate) space: SpaceId,
    pub(crate) key: Bytes,
    pub(crate) tuple: TupleStep,
    pub(crate) edits: Vec<Change>,
}

/// What a change that was made ready does to a tuple. One that is put stands there already.
#[derive(Drop)]
pub(crate) enum TupleStep {
    /// It will be taken out, where it is there.
    Removal,
    /// It was put where there was none.
    Insertion,
    /// It was put in the place of this one.
    Replacement(Bytes),
}

impl Step {
    /// A change of a space that isn't there.
    pub(crate) fn without_space(alloc: Global, change: TupleChange) -> Step
        ensures { IsStepOf change result }
    {
        let tuple = match change.tuple {
            Some(_) => TupleStep::Insertion,
            None => TupleStep::Removal,
        };
        Step {
            space: change.space,
            key: change.key,
            tuple,
            edits: Vec::new(alloc),
        }
    }
}

/// The changes that `State::reserve` made ready, of which a contract sees the last one first.
#[derive(Drop)]
pub struct Prepared {
    steps: Vec<Step>,
}

impl Model for Prepared {
    ghost use Rattle.std.specs.Prelude.{List, reverse};
    ghost use Rattle.mx_space.specs.declared.prepared.Step.{Step};

    ghost Value = { List Step };

    ghost view = { λ p. reverse p.steps.items };
}

impl Prepared {
    /// Nothing is ready, and there is room for so many changes.
    pub(crate) fn with_capacity(alloc: Global, changes: usize) -> Result<Prepared, AllocError>
        ensures { IfOk result (λ none. none ≡ []) }
    {
        Ok(Prepared {
            steps: Vec::with_capacity(alloc, changes)?,
        })
    }

    /// Adds a change.
    ///
    /// # Errors
    /// Out of memory; the change comes back.
    pub(crate) fn push(&mut self, step: Step) -> Result<(), Step>
        ensures ok { OnOk result (self.new ≡ step ∷ self.old) }
        ensures err { IfErr result (λ refused. (refused ≡ step) × (self.new ≡ self.old)) }
    {
        match self.steps.push(step) {
            Ok(()) => Ok(()),
            Err(refused) => Err(refused.value),
        }
    }

    /// Takes the last change out.
    pub(crate) fn pop(&mut self) -> Option<Step>
        ensures { MatchOption result (self.old ≡ []) (λ last. self.old ≡ last ∷ self.new) }
    {
        self.steps.pop()
    }
}
