//! Transactions that wait to be written, packed into blocks.

ghost use Rattle.std.specs.Prelude.{◌≡◌, ◌++◌, ◌∷◌, [], List, length, take, IfOk, IsTrue, ◌↔◌, MatchResult, OnErr, OnOk};
ghost use Rattle.mx_row.specs.declared.tx.Tx.{Tx};
ghost use Rattle.mx_row.specs.Rows.{IsTransaction, transaction_text};
ghost use Rattle.mx_journal.specs.Groups.{Packs, whole_text};
ghost use Rattle.mx_journal.specs.Packing.{IsBegunWith, Joins};

use mx_msgpack::Bytes;
use mx_row::{Tx, write_tx};
use mx_xlog::{begin_block, end_block};
use std::alloc::{AllocError, Global};
use std::marker::Model;
use std::mem;

/// The maximum size of a block in bytes, with its head of 19 bytes.
const MAX_BLOCK_SIZE: usize = 19 + 4_194_304;

/// The maximum size of written bytes whose memory is kept for the next ones.
const MAX_KEPT_SIZE: usize = 1_048_576;

/// Blocks of transactions in one buffer, each with all that fits into it. The last one gets its head
/// when another begins, or when all is taken.
#[derive(Drop)]
pub(crate) struct Pack {
    bytes: Bytes,
    /// Where the last block begins.
    last: usize,
}

impl Model for Pack {
    ghost use Rattle.mx_journal.specs.Groups.{Packed};
    ghost use Rattle.mx_journal.specs.Packing.{MayEnd, parts_of};

    ghost Value = { Packed };

    ghost view = { λ p. parts_of p.last p.bytes };

    ghost invariant = { λ p. MayEnd p.last p.bytes };
}

impl Pack {
    pub(crate) fn new(alloc: Global) -> Pack
        ensures { whole_text result ≡ [] }
    {
        Pack {
            bytes: Bytes::new(alloc),
            last: 0,
        }
    }

    /// Puts a transaction into the last block, or into another where it doesn't fit there.
    pub(crate) fn push(&mut self, alloc: Global, tx: &Tx) -> Result<(), AllocError>
        requires sound { IsTransaction tx.now }
        ensures packs { (transactions : List Tx) → Packs transactions self.old → OnOk result (Packs (transactions ++ tx.now ∷ []) self.new) }
        ensures err { OnErr result (self.new ≡ self.old) }
    {
        if !self.bytes.is_empty() && self.join(alloc, tx)? {
            return Ok(());
        }
        self.begin(alloc, tx)
    }

    /// Puts a transaction behind the rows of the last block. Says false, with all as before, where it
    /// doesn't fit there.
    fn join(&mut self, alloc: Global, tx: &Tx) -> Result<bool, AllocError>
        requires sound { IsTransaction tx.now }
        requires some { ¬ (self.old.rows ≡ []) }
        ensures joins { IfOk result (Joins (transaction_text tx.now) self.old self.new) }
        ensures err { OnErr result (self.new ≡ self.old) }
    {
        let before = self.bytes.len();
        write_tx(alloc, tx, &mut self.bytes)?;
        if self.bytes.len() - self.last <= MAX_BLOCK_SIZE {
            return Ok(true);
        }
        self.bytes.truncate(before);
        Ok(false)
    }

    /// Begins another block, with this transaction.
    fn begin(&mut self, alloc: Global, tx: &Tx) -> Result<(), AllocError>
        requires sound { IsTransaction tx.now }
        ensures begun { OnOk result (self.new ≡ record { blocks = whole_text self.old; rows = transaction_text tx.now }) }
        ensures err { OnErr result (self.new ≡ self.old) }
    {
        let before = self.bytes.len();
        if before > 0 {
            end_block(self.last, &mut self.bytes);
        }
        append_begun(alloc, tx, &mut self.bytes)?;
        self.last = before;
        Ok(())
    }

    pub(crate) fn is_empty(&self) -> bool
        ensures { IsTrue result ↔ (whole_text self.now ≡ []) }
    {
        self.bytes.is_empty()
    }

    /// Takes all as whole blocks.
    pub(crate) fn take_blocks(&mut self, alloc: Global) -> Bytes
        ensures blocks { result ≡ whole_text self.old }
        ensures none { whole_text self.new ≡ [] }
    {
        let mut blocks = mem::replace(&mut self.bytes, Bytes::new(alloc));
        if !blocks.is_empty() {
            end_block(self.last, &mut blocks);
        }
        blocks
    }

    /// Keeps the memory of these bytes for the next transactions, where it isn't too much.
    pub(crate) fn reuse(&mut self, mut bytes: Bytes)
        requires { whole_text self.old ≡ [] }
        ensures { whole_text self.new ≡ [] }
    {
        if bytes.len() <= MAX_KEPT_SIZE {
            bytes.truncate(0);
            self.bytes = bytes;
        }
    }
}

/// Appends room for a block's head and the rows of a transaction; at an error nothing is appended.
fn append_begun(alloc: Global, tx: &Tx, out: &mut Bytes) -> Result<(), AllocError>
    requires { IsTransaction tx.now }
    ensures { MatchResult result (λ _. IsBegunWith out.old (transaction_text tx.now) out.new) (λ _. out.new ≡ out.old) }
{
    let before = out.len();
    let written = write_begun(alloc, tx, out);
    if written.is_err() {
        out.truncate(before);
    }
    written
}

/// As `append_begun`, but at an error the room for the block's head may have been appended.
fn write_begun(alloc: Global, tx: &Tx, out: &mut Bytes) -> Result<(), AllocError>
    requires { IsTransaction tx.now }
    ensures { MatchResult result (λ _. IsBegunWith out.old (transaction_text tx.now) out.new) (λ _. take (length out.old) out.new ≡ out.old) }
{
    begin_block(out)?;
    write_tx(alloc, tx, out)
}
