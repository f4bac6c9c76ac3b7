//! Replay: the state that journals recover to, file after file.

ghost use Rattle.std.specs.Prelude.{◌≡◌, ◌≤◌, Option, true, false, Ok, Err, Some, IfOk, OnOk, MatchOption, drop, length, not, ◌&&◌, ◌||◌, ◌==◌};
ghost use Rattle.std.specs.List.{list_any};
ghost use Rattle.mx_vclock.specs.Vclocks.{IsVclock};
ghost use Rattle.mx_xlog.specs.Reading.{blocks_of};
ghost use Rattle.mx_recover.specs.declared.apply.ApplyFault.TheVariants.{NoMemory};
ghost use Rattle.mx_directory.specs.declared.damage.Damage.{Damage};
ghost use Rattle.mx_directory.specs.Directories as files;
ghost use Rattle.mx_directory.specs.Directories.{after_block, after_blocks, after_file, after_transaction, nothing_yet, head_fits, are_its_ids, is_shared, same_id, schema_is_alone};
ghost use Rattle.mx_model.specs.Transactions.{is_schema_row};
ghost use Rattle.mx_xlog.specs.Files.{FileRead, ReadsAs};
ghost use Rattle.mx_files.specs.Names.{same_bytes};
ghost use Rattle.mx_row.specs.Clocks.{follows};
ghost use Rattle.mx_row.specs.Rows.{IsTransaction};
ghost use Rattle.mx_row.specs.Views.{row_value, row_values, tx_view};
ghost use Rattle.mx_recover.specs.declared.fault.RecoverFault.TheVariants.{Damaged, Failed};
ghost use Rattle.mx_recover.specs.Recovered.{StandsFor};

use crate::apply::{ApplyFault, apply_tx};
use crate::fault::RecoverFault;
use crate::new_database::bootstrap;
use mx_directory::{Damage, DamageKind};
use mx_files::journal_name;
use mx_model::Ids;
use mx_msgpack::Bytes;
use mx_row::{RowRef, TxRef, read_tx_in_place};
use mx_schema::{INDEX_ROWS, SPACE_ROWS};
use mx_space::State;
use mx_vclock::Vclock;
use mx_xlog::{Block, Head, read_block, read_header};
use std::alloc::{AllocError, Global};
use uuid::Uuid;

/// The database that a directory recovers to.
#[derive(Drop)]
pub struct Recovered {
    /// The identifiers of the node; `None` where there is no file.
    pub ids: Option<Ids>,
    pub state: State,
    pub clock: Vclock,
}

impl Recovered {
    pub(crate) fn new(alloc: Global) -> Result<Recovered, AllocError>
        ensures { IfOk result (λ reached. StandsFor reached nothing_yet) }
    {
        Ok(Recovered {
            ids: None,
            state: bootstrap(alloc)?,
            clock: Vclock::new(),
        })
    }

    /// Continues with a journal file, which has to begin where the files before it end.
    pub(crate) fn take_file(
        &mut self,
        alloc: Global,
        name: &str,
        bytes: &[u8],
    ) -> Result<(), RecoverFault>
        ensures taken { (before : files.Reached) → StandsFor self.old before → OnOk result ((read : FileRead) × ReadsAs bytes.now (Some read)
            × ((after : files.Reached) × (after_file (name.now, Some read) before ≡ Ok after) × StandsFor self.new after)) }
        ensures damaged { (before : files.Reached) (damage : Damage) → StandsFor self.old before → result ≡ Err (Damaged damage)
            → (read : Option FileRead) × ReadsAs bytes.now read × (after_file (name.now, read) before ≡ Err damage) }
        ensures no_fault { result ≡ Err Failed → ⊥ }
    {
        let Ok((head, size)) = read_header(bytes) else {
            return Err(damage(alloc, name, 0, DamageKind::Head)?);
        };
        if !self.is_followed_by(alloc, name, &head)? {
            return Err(damage(alloc, name, 0, DamageKind::Head)?);
        }
        if !is_same(&self.clock, &head.clock) {
            let kind = DamageKind::Gap {
                reached: self.clock,
                begins: head.clock,
            };
            return Err(damage(alloc, name, 0, kind)?);
        }
        self.ids = Some(self.ids.unwrap_or(ids_in(&head)));
        self.take_blocks(alloc, name, bytes, size)
    }

    fn is_followed_by(&self, alloc: Global, name: &str, head: &Head) -> Result<bool, AllocError>
        ensures { (before : files.Reached) → self.now.ids ≡ before.ids → IfOk result (λ fits. fits ≡ head_fits name.now head.now before) }
    {
        let wanted = journal_name(alloc, head.clock.signature())?;
        Ok(!head.snapshot && name == wanted.as_str() && are_its_ids(&self.ids, head))
    }

    fn take_blocks(
        &mut self,
        alloc: Global,
        name: &str,
        bytes: &[u8],
        start: usize,
    ) -> Result<(), RecoverFault>
        ensures taken { (before : files.Reached) → StandsFor self.old before → OnOk result ((after : files.Reached)
            × (after_blocks name.now start (blocks_of (drop start bytes.now)) before ≡ Ok after) × StandsFor self.new after) }
        ensures damaged { (before : files.Reached) (damage : Damage) → StandsFor self.old before → result ≡ Err (Damaged damage)
            → after_blocks name.now start (blocks_of (drop start bytes.now)) before ≡ Err damage }
        ensures no_fault { result ≡ Err Failed → ⊥ }
    {
        let mut place = start;
        while let Block::Rows { from, to } = read_block(bytes, place) {
            let (_, rest) = bytes.split_at(from);
            let (rows, _) = rest.split_at(to - from);
            if !self.take_block(alloc, rows)? {
                return Err(damage(alloc, name, place as u64, DamageKind::Row)?);
            }
            place = to;
        }
        Ok(())
    }

    /// At `false` some of the rows may have been applied.
    fn take_block(&mut self, alloc: Global, rows: &[u8]) -> Result<bool, AllocError>
        ensures { (before : files.Reached) → StandsFor self.old before → IfOk result (λ taken. MatchOption (after_block rows.now before)
            (taken ≡ false) (λ after. (taken ≡ true) × StandsFor self.new after)) }
    {
        let mut rest = rows;
        while !rest.is_empty() {
            let Some((tx, others)) = read_tx_in_place(alloc, rest)? else {
                return Ok(false);
            };
            if !self.take_tx(alloc, &tx)? {
                return Ok(false);
            }
            rest = others;
        }
        Ok(true)
    }

    /// At `false` some of the rows may have been applied.
    fn take_tx(&mut self, alloc: Global, tx: &TxRef<'_>) -> Result<bool, AllocError>
        requires { IsTransaction (tx_view tx.now) }
        ensures { (before : files.Reached) → StandsFor self.old before → IfOk result (λ taken. MatchOption (after_transaction (tx_view tx.now) before)
            (taken ≡ false) (λ after. (taken ≡ true) × StandsFor self.new after)) }
    {
        if !is_due(&self.clock, tx) {
            return Ok(false);
        }
        self.clock.set(tx.replica.0, tx.last_lsn().0);
        match apply_tx(&mut self.state, alloc, tx.rows.as_slice()) {
            Ok(()) => Ok(true),
            Err(fault) => refused(&fault),
        }
    }
}

fn refused(fault: &ApplyFault) -> Result<bool, AllocError>
    ensures { IfOk result (λ taken. (taken ≡ false) × (fault.now ≡ NoMemory → ⊥)) }
{
    match fault {
        ApplyFault::Row { .. } => Ok(false),
        ApplyFault::NoMemory => Err(AllocError),
    }
}

/// Whether the transaction comes next. A local one, of the replica 0, never does.
fn is_due(clock: &Vclock, tx: &TxRef<'_>) -> bool
    requires { IsTransaction (tx_view tx.now) }
    ensures { result ≡ (is_shared (tx_view tx.now) && follows clock.now (tx_view tx.now) && schema_is_alone (tx_view tx.now)) }
{
    tx.replica.0 != 0 && follows(clock, tx) && is_schema_alone(tx.rows.as_slice())
}

/// Whether the transaction has the next lsns of its replica.
fn follows(clock: &Vclock, tx: &TxRef<'_>) -> bool
    requires { IsTransaction (tx_view tx.now) }
    ensures { result ≡ follows clock.now (tx_view tx.now) }
{
    tx.first.0 - 1 == clock.get(tx.replica.0)
}

/// Whether a row that describes a space or an index is the only one.
fn is_schema_alone(rows: &[RowRef<'_>]) -> bool
    ensures { result ≡ ((length rows.now == 1) || not (list_any is_schema_row (row_values rows.now))) }
{
    rows.len() == 1 || !has_schema_row(rows)
}

fn has_schema_row(rows: &[RowRef<'_>]) -> bool
    ensures { result ≡ list_any is_schema_row (row_values rows.now) }
{
    for row in rows {
        if is_schema_row(row) {
            return true;
        }
    }
    false
}

fn is_schema_row(row: &RowRef<'_>) -> bool
    ensures { result ≡ is_schema_row (row_value row.now) }
{
    row.space.0 == SPACE_ROWS || row.space.0 == INDEX_ROWS
}

fn ids_in(head: &Head) -> Ids
    ensures { result ≡ files.ids_in head.now }
{
    Ids {
        me: head.replica,
        instance: head.instance,
        set: head.set,
    }
}

fn are_its_ids(ids: &Option<Ids>, head: &Head) -> bool
    ensures { result ≡ are_its_ids ids.now head.now }
{
    match ids {
        None => true,
        Some(ids) => {
            ids.me == head.replica
                && is_same_id(&ids.instance, &head.instance)
                && is_same_id(&ids.set, &head.set)
        }
    }
}

fn is_same_id(one: &Uuid, other: &Uuid) -> bool
    ensures { result ≡ same_id one.now other.now }
{
    let mut first = Uuid::encode_buffer();
    let mut second = Uuid::encode_buffer();
    one.hyphenated().encode_lower(&mut first) == other.hyphenated().encode_lower(&mut second)
}

fn is_same(clock: &Vclock, other: &Vclock) -> bool
    ensures { IsVclock clock.now → IsVclock other.now → result ≡ same_bytes clock.now other.now }
{
    clock.covers(other) && other.covers(clock)
}

fn damage(alloc: Global, name: &str, at: u64, kind: DamageKind) -> Result<RecoverFault, AllocError>
    ensures { IfOk result (λ fault. fault ≡ Damaged (record { file = name.now; at = at; kind = kind })) }
{
    let file = Bytes::from_slice(alloc, name.as_bytes())?;
    Ok(RecoverFault::Damaged(Damage { file, at, kind }))
}
