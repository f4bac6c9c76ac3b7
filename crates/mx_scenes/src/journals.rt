//! Journals that tests write themselves.

ghost use Rattle.std.specs.Prelude.{◌≡◌, ◌∷◌, [], false, true, List, Some, IfOk, replicate};
ghost use Rattle.mx_outside.specs.Disks.{Disk};
ghost use Rattle.mx_fake.specs.Changes.{no_files};
ghost use Rattle.mx_fake.specs.Dirs.{dir_states};
ghost use Rattle.mx_xlog.specs.Headers.{IsHead};
ghost use Rattle.mx_row.specs.declared.tx.Tx.{Tx};
ghost use Rattle.mx_row.specs.Rows.{IsTransaction};
ghost use Rattle.mx_row.specs.Clocks.{follows};
ghost use Rattle.mx_journal.specs.Groups.{whole_text};
ghost use Rattle.mx_journal.specs.Written.{IsWritten, Waits};
ghost use Rattle.mx_images.specs.Changes.{IsNow};

use crate::harness::{BLOCK, END, file, joined};
use mx_base::{Lsn, ReplicaId, SpaceId};
use mx_fake::MemoryDir;
use mx_journal::{Journal, JournalFault};
use mx_msgpack::Bytes;
use mx_outside::{Dir, DirFault};
use mx_row::{Row, Rows, Tx, row_types};
use mx_vclock::Vclock;
use mx_xlog::Head;
use std::alloc::{AllocError, Global};
use std::process::Abort;
use std::test::Fail;
use uuid::Uuid;

const NAME: &str = "00000000000000000000.xlog";

/// The header of the journal that begins at the empty vclock.
const HEADER: &[u8; 118] = b"XLOG\n0.13\nInstance: 00010203-0405-4607-8809-0a0b0c0d0e0f\n\
    ReplicaSet: f0f1f2f3-f4f5-46f7-88f9-fafbfcfdfeff\nVClock: {}\n\n";

/// What the header of a journal tells that begins at the empty vclock.
fn first_head() -> Head
    ensures fits { IsHead result }
    ensures kind { result.snapshot ≡ false }
    ensures clock { result.clock ≡ replicate 32 0 }
{
    Head {
        snapshot: false,
        instance: Uuid::from_bytes([0, 1, 2, 3, 4, 5, 0x46, 7, 0x88, 9, 10, 11, 12, 13, 14, 15]),
        set: Uuid::from_bytes([
            0xf0, 0xf1, 0xf2, 0xf3, 0xf4, 0xf5, 0x46, 0xf7, 0x88, 0xf9, 0xfa, 0xfb, 0xfc, 0xfd,
            0xfe, 0xff,
        ]),
        replica: 1,
        clock: Vclock::new(),
    }
}

/// The first transaction of the replica 1.
fn first_tx(alloc: Global) -> Result<Tx, AllocError>
    ensures sound { IfOk result (λ tx. IsTransaction tx) }
    ensures first { IfOk result (λ tx. follows (replicate 32 0) tx ≡ true) }
{
    let tuple = Bytes::from_slice(alloc, &[0x92, 0x01, 0xa1, 0x61])?;
    let mut rows = Rows::new(alloc);
    rows.push(Row {
        kind: row_types::REPLACE,
        space: SpaceId(512),
        index_base: 0,
        tuple,
        key: Bytes::new(alloc),
        ops: Bytes::new(alloc),
    })?;
    Ok(Tx {
        replica: ReplicaId(1),
        first: Lsn(1),
        rows,
    })
}

/// Begins a journal in an empty directory.
fn begin(alloc: Global, dir: &mut MemoryDir) -> Result<Journal, JournalFault>
    requires { dir_states dir.old ≡ Some (no_files ∷ []) }
    ensures written { IfOk result (λ journal. IsNow (dir_states dir.new) (λ now. IsWritten journal now [])) }
    ensures waits { IfOk result (λ journal. Waits journal []) }
    ensures first { IfOk result (λ journal. journal.clock ≡ replicate 32 0) }
{
    Journal::create(alloc, dir, first_head())
}

/// Writes the first transaction.
fn commit(alloc: Global, dir: &mut MemoryDir, journal: &mut Journal) -> Result<u64, JournalFault>
    requires written { IsNow (dir_states dir.old) (λ now. IsWritten journal.old now []) }
    requires waits { Waits journal.old [] }
    requires first { journal.old.clock ≡ replicate 32 0 }
    ensures written { IfOk result (λ count. IsNow (dir_states dir.new) (λ now. (txs : List Tx) × IsWritten journal.new now txs)) }
    ensures none { IfOk result (λ count. whole_text journal.new.waiting ≡ []) }
{
    let tx = first_tx(alloc)?;
    journal.push(alloc, &tx)?;
    let count = journal.write_out(alloc, dir)?;
    Ok(count)
}

/// Compares the one file of a directory with these parts.
fn check_bytes(
    rt: &impl Abort,
    alloc: Global,
    dir: &mut MemoryDir,
    parts: &[&[u8]],
) -> Result<(), DirFault>
    ensures { dir_states dir.new ≡ dir_states dir.old }
{
    let names = dir.list(alloc)?;
    assert_eq!(rt; names.as_slice().len(), 1);
    let bytes = file(alloc, dir, NAME)?;
    assert_eq!(rt; bytes, joined(alloc, parts)?);
    Ok(())
}

/// Compares what a journal tells that began at the empty vclock: how many bytes it has, and how many
/// commits.
fn check_journal(rt: &impl Abort, journal: &Journal, length: u64, commits: u64) {
    assert_eq!(rt; journal.length(), length);
    assert_eq!(rt; journal.first().signature(), 0);
    assert_eq!(rt; journal.clock().signature(), commits);
}

#[test]
fn writes(rt: HostRuntime) -> Result<(), Fail> {
    let alloc = rt.alloc();
    let mut dir = MemoryDir::new(alloc, Vec::new(alloc));
    let mut journal = begin(alloc, &mut dir)?;
    check_journal(&rt, &journal, 118, 0);
    check_bytes(&rt, alloc, &mut dir, &[HEADER])?;
    let count = commit(alloc, &mut dir, &mut journal)?;
    assert_eq!(rt; count, 1);
    check_journal(&rt, &journal, 154, 1);
    check_bytes(&rt, alloc, &mut dir, &[HEADER, BLOCK])?;
    journal.end(alloc, &mut dir)?;
    check_bytes(&rt, alloc, &mut dir, &[HEADER, BLOCK, END])?;
    Ok(())
}

/// Begins a journal in an empty directory, writes a transaction, and ends it.
fn run(alloc: Global, dir: &mut MemoryDir) -> Result<u64, JournalFault>
    requires { dir_states dir.old ≡ Some (no_files ∷ []) }
{
    let mut journal = begin(alloc, dir)?;
    let count = commit(alloc, dir, &mut journal)?;
    journal.end(alloc, dir)?;
    Ok(count)
}

/// Compares how that ends where this call on the directory fails.
fn check_failing(
    rt: &impl Abort,
    alloc: Global,
    call: u64,
    answer: Result<u64, JournalFault>,
) -> Result<(), AllocError> {
    let mut dir = MemoryDir::new(alloc, vec![in alloc; call]?);
    let told = run(alloc, &mut dir);
    assert_eq!(rt; told, answer, "where the call {call} fails");
    Ok(())
}

#[test]
fn fails_with_the_directory(rt: HostRuntime) -> Result<(), Fail> {
    for call in 1..10 {
        check_failing(&rt, rt.alloc(), call, Err(JournalFault::Failed))?;
    }
    check_failing(&rt, rt.alloc(), 10, Ok(1))?;
    Ok(())
}
