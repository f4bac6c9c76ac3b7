//! States that are kept for transactions that read an earlier one.

ghost use Rattle.std.specs.Prelude.{◌≡◌, ◌≢◌, ◌==◌, ℕ, Option, Some, None, IfOk, OnErr};
ghost use Rattle.std.specs.Option.{option_copied};
ghost use Rattle.mx_space.specs.declared.state.State as coded;
ghost use Rattle.mx_space.specs.KeptStates.{IsCopyOf, kept_at, kept_count, needed_from};

use crate::state::State;
use std::alloc::{AllocError, Global};
use std::collections::BTreeMap;

/// States that are kept for transactions that read an earlier one, each by how many commits were made before
/// it.
#[derive(Drop)]
pub struct KeptStates {
    states: BTreeMap<u64, State>,
}

impl KeptStates {
    /// Keeps nothing, and takes no memory.
    pub fn new(alloc: Global) -> KeptStates
        ensures { (commits : ℕ) → kept_at commits result ≡ None }
    {
        KeptStates {
            states: BTreeMap::new(alloc),
        }
    }

    /// Keeps a copy of a state as the one after so many commits, unless one is kept for them.
    ///
    /// # Errors
    /// Out of memory. The kept states are as they were.
    pub fn keep(&mut self, alloc: Global, commits: u64, state: &State) -> Result<(), AllocError>
        ensures copies { kept_at commits self.old ≡ None → IfOk result (λ _. (copy : coded.State) × (kept_at commits self.new ≡ Some copy) × IsCopyOf state.now copy) }
        ensures stays { (kept : coded.State) → kept_at commits self.old ≡ Some kept → kept_at commits self.new ≡ Some kept }
        ensures others { (other : ℕ) → other ≢ commits → kept_at other self.new ≡ kept_at other self.old }
        ensures err { OnErr result ((any : ℕ) → kept_at any self.new ≡ kept_at any self.old) }
    {
        if self.states.contains_key(&commits) {
            return Ok(());
        }
        self.states.insert(commits, state.copy(alloc)?)?;
        Ok(())
    }

    /// The state after so many commits, where it is kept.
    pub fn at(&self, commits: u64) -> Option<&State>
        ensures { option_copied result ≡ kept_at commits self.now }
    {
        self.states.get(&commits)
    }

    /// Drops the states before the oldest one that a view reads, and all where there is no view.
    pub fn trim(&mut self, oldest: Option<u64>)
        ensures { (commits : ℕ) → kept_at commits self.new ≡ needed_from oldest commits (kept_at commits self.old) }
    {
        match oldest {
            Some(oldest) => self.drop_before(oldest),
            None => self.states.clear(),
        }
    }

    fn drop_before(&mut self, oldest: u64)
        ensures { (commits : ℕ) → kept_at commits self.new ≡ needed_from (Some oldest) commits (kept_at commits self.old) }
    {
        while let Some((commits, _)) = self.states.first_key_value() {
            if oldest <= *commits {
                return;
            }
            self.states.pop_first();
        }
    }

    /// Drops the state after so many commits, where it is kept.
    pub fn remove(&mut self, commits: u64)
        ensures gone { kept_at commits self.new ≡ None }
        ensures others { (other : ℕ) → other ≢ commits → kept_at other self.new ≡ kept_at other self.old }
    {
        self.states.remove(&commits);
    }

    /// How many states are kept.
    pub fn len(&self) -> usize
        ensures { result ≡ kept_count self.now }
    {
        self.states.len()
    }

    /// Whether no state is kept.
    pub fn is_empty(&self) -> bool
        ensures { result ≡ (kept_count self.now == 0) }
    {
        self.states.is_empty()
    }
}
