//! The slots of open transactions, which take no memory once they are made.

ghost use Rattle.std.specs.Prelude.{◌≡◌, ◌<◌, ◌≤◌, ℕ, IfOk, OnOk, IfErr, MatchBool};
ghost use Rattle.std.specs.FinMap as finite;
ghost use Rattle.mx_txn.specs.Slots.{HasView, IsLive, IsNextLive, IsOldestView};

use crate::scans::{first_vacant, oldest_after, used_below};
use crate::slot::{MAX_OPEN, Slot};
use crate::state::{TxnState, is_view};
use std::alloc::{AllocError, Global};
use std::marker::Model;

/// The open transactions, each in a slot.
#[derive(Drop)]
pub struct Slots {
    states: Vec<Option<TxnState>>,
    live: u32,
    // Each slot below this number is live.
    vacant_from: u32,
    // Each slot from this number on is vacant.
    used: u32,
    oldest: Option<u64>,
}

/// As many transactions are open as may be.
#[derive(Clone, Copy, PartialEq, Eq)]
pub struct Full {
    /// How many transactions are open.
    pub live: u32,
}

impl Model for Slots {
    ghost use Rattle.mx_txn.specs.Slots.{Txns};

    ghost Value = { Txns };

    ghost use Rattle.std.specs.Coded.{coded_ℕ};
    ghost use Rattle.std.specs.FinMap as finite;
    ghost use Rattle.mx_txn.specs.contracts.state.TxnState as state;

    ghost coded = { finite.code coded_ℕ state.the_row.coded };

    ghost use Rattle.mx_txn.specs.Views.{txns_of, AreCounted};

    ghost view = { λ s. txns_of s.states.items };

    ghost invariant = { λ s. AreCounted s.states.items s.live s.vacant_from s.used s.oldest };
}

impl Slots {
    /// No transaction is open.
    pub fn new(alloc: Global) -> Result<Slots, AllocError>
        ensures { IfOk result (λ slots. slots ≡ finite.empty) }
    {
        let mut states = Vec::new(alloc);
        states.resize(MAX_OPEN as usize, None)?;
        Ok(Slots {
            states,
            live: 0,
            vacant_from: 0,
            used: 0,
            oldest: None,
        })
    }

    /// Opens a transaction after this commit.
    ///
    /// # Errors
    /// 1,024 transactions are open.
    pub fn begin(&mut self, at: u64) -> Result<Slot, Full>
        ensures free { IfOk result (λ slot. finite.get self.old slot ≡ None) }
        ensures begun { IfOk result (λ slot. self.new ≡ finite.insert self.old slot (TxnState.Active at)) }
        ensures room { OnOk result (finite.len self.old < MAX_OPEN) }
        ensures full { IfErr result (λ full. (finite.len self.old ≡ MAX_OPEN) × (full.live ≡ MAX_OPEN) × (self.new ≡ self.old)) }
    {
        let Some(number) = first_vacant(self.states.as_slice(), self.vacant_from) else {
            return Err(Full { live: self.live });
        };
        self.states[number as usize] = Some(TxnState::Active { since: at });
        self.live += 1;
        self.vacant_from = number + 1;
        self.used = self.used.max(number + 1);
        Ok(Slot(number))
    }

    /// The state of a slot's transaction.
    pub fn state(&self, slot: Slot) -> TxnState
        requires { IsLive self.now slot }
        ensures { finite.get self.now slot ≡ Some result }
    {
        self.states[slot.0 as usize].unwrap()
    }

    /// From now on the slot's transaction reads the state after this commit.
    pub fn to_view(&mut self, slot: Slot, at: u64)
        requires { IsLive self.old slot }
        ensures { self.new ≡ finite.insert self.old slot (TxnState.View at) }
    {
        self.set(slot, TxnState::View { at });
    }

    /// From now on this commit conflicts with the slot's transaction.
    pub fn abort(&mut self, slot: Slot, by: u64)
        requires { IsLive self.old slot }
        ensures { self.new ≡ finite.insert self.old slot (TxnState.Aborted by) }
    {
        self.set(slot, TxnState::Aborted { by });
    }

    /// Frees the slot.
    pub fn end(&mut self, slot: Slot)
        requires { IsLive self.old slot }
        ensures { self.new ≡ finite.remove self.old slot }
    {
        let before = self.states[slot.0 as usize].take();
        let states = &self.states[..self.used as usize];
        self.oldest = oldest_after(states, self.oldest, before, None);
        self.live -= 1;
        self.vacant_from = self.vacant_from.min(slot.0);
        self.used = used_below(states, self.used);
    }

    fn set(&mut self, slot: Slot, state: TxnState)
        requires { IsLive self.old slot }
        ensures { self.new ≡ finite.insert self.old slot state }
    {
        let before = self.states[slot.0 as usize].replace(state);
        let states = &self.states[..self.used as usize];
        self.oldest = oldest_after(states, self.oldest, before, Some(state));
    }

    /// The least commit whose state a transaction reads, where one has a view.
    pub fn oldest_view(&self) -> Option<u64>
        ensures { IsOldestView self.now result }
    {
        self.oldest
    }

    /// Whether a transaction reads the state after this commit.
    pub fn has_view(&self, at: u64) -> bool
        ensures { MatchBool result ((slot : ℕ) × HasView self.now slot at) ((slot : ℕ) → ¬ HasView self.now slot at) }
    {
        for number in 0..self.used {
            if is_view(self.states[number as usize], at) {
                return true;
            }
        }
        false
    }

    /// How many transactions are open.
    pub fn live(&self) -> u32
        ensures count { result ≡ finite.len self.now }
        ensures bounded { result ≤ MAX_OPEN }
    {
        self.live
    }

    /// The first live slot from a number on.
    pub fn next_live(&self, from: u32) -> Option<Slot>
        ensures { IsNextLive self.now from result }
    {
        for number in from..self.used {
            if self.states[number as usize].is_some() {
                return Some(Slot(number));
            }
        }
        None
    }
}
