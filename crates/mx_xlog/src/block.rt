//! Blocks: the data of some rows after its length and its checksum.

ghost use Rattle.std.specs.Prelude.{◌≡◌, ◌++◌, ℕ, List, length, take, MatchOption, MatchResult};
ghost use Rattle.mx_xlog.specs.Blocks.{IsData, IsBegun, HasRoom, BeginsBlock, block_of, end_marker, StandsAt};
ghost use Rattle.mx_xlog.specs.Heads.{BeginsNoBlock, block_head};

use crate::crc::checksum;
use byteorder::{BigEndian, ByteOrder};
use mx_msgpack::Bytes;
use std::alloc::{AllocError, Global};

/// The bytes of a block before its data.
const HEAD_SIZE: usize = 19;

/// The maximum size of a block's data in bytes.
const MAX_DATA_SIZE: usize = 4_194_304;

/// The marker of a file's end.
const END_MARKER: [u8; 4] = [0xd5, 0x10, 0xad, 0xed];

/// What stands at a place of a file after its header. A place counts bytes from 0.
#[derive(Clone, Copy, Drop, PartialEq, Eq)]
pub enum Block {
    /// A block, with the place of its data's first byte and the place after its last.
    Rows {
        /// The first byte of the data.
        from: usize,
        /// The place after the data.
        to: usize,
    },
    /// The marker of a file's end.
    End,
    /// The end of the bytes.
    Empty,
    /// None of these, at this place.
    Torn(usize),
}

/// What stands at this place of the bytes. The place may lie beyond their end.
pub fn read_block(bytes: &[u8], at: usize) -> Block
    ensures { StandsAt bytes.now at result }
{
    if at == bytes.len() {
        return Block::Empty;
    }
    if at > bytes.len() {
        return Block::Torn(at);
    }
    let (_, rest) = bytes.split_at(at);
    if rest.starts_with(&END_MARKER) {
        return Block::End;
    }
    let Some(rows) = first_rows(rest) else {
        return Block::Torn(at);
    };
    let from = at + HEAD_SIZE;
    Block::Rows {
        from,
        to: from + rows.len(),
    }
}

fn first_rows(bytes: &[u8]) -> Option<&[u8]>
    ensures { MatchOption result (BeginsNoBlock bytes.now) (λ rows. BeginsBlock rows.now bytes.now) }
{
    if bytes.len() < HEAD_SIZE {
        return None;
    }
    let (head, rest) = bytes.split_at(HEAD_SIZE);
    let size = BigEndian::read_u32(&head[5..]);
    let sum = BigEndian::read_u32(&head[11..]);
    if head != block_head(size, sum).as_slice() {
        return None;
    }
    let size = size as usize;
    if size == 0 || size > MAX_DATA_SIZE || size > rest.len() {
        return None;
    }
    let (rows, _) = rest.split_at(size);
    if checksum(rows) != sum {
        return None;
    }
    Some(rows)
}

/// Appends a block of these rows, which are 1 to 4,194,304 bytes.
///
/// # Errors
/// Out of memory; nothing is appended.
pub fn write_block(_alloc: Global, rows: &[u8], out: &mut Bytes) -> Result<(), AllocError>
    requires { IsData rows.now }
    ensures { MatchResult result (λ _. out.new ≡ out.old ++ block_of rows.now) (λ _. out.new ≡ out.old) }
{
    let before = out.len();
    let written = write_parts(rows, out);
    if written.is_err() {
        out.truncate(before);
    }
    written
}

/// As `write_block`, but at an error the room for the block's head may have been appended.
fn write_parts(rows: &[u8], out: &mut Bytes) -> Result<(), AllocError>
    requires { IsData rows.now }
    ensures { MatchResult result (λ _. out.new ≡ out.old ++ block_of rows.now) (λ _. take (length out.old) out.new ≡ out.old) }
{
    let at = out.len();
    out.reserve(HEAD_SIZE + rows.len())?;
    begin_block(out)?;
    out.extend_from_slice(rows)?;
    end_block(at, out);
    Ok(())
}

/// Appends room for a block's head, which is 19 bytes. The block's data is written after it, and then
/// `end_block` makes a block of both.
///
/// # Errors
/// Out of memory; nothing is appended.
pub fn begin_block(out: &mut Bytes) -> Result<(), AllocError>
    ensures { MatchResult result (λ _. IsBegun out.old out.new) (λ _. out.new ≡ out.old) }
{
    out.extend_from_slice(&[0; HEAD_SIZE])
}

/// Makes a block of the bytes from this place on, which are room for a block's head and 1 to 4,194,304
/// bytes of data. It takes no memory.
pub fn end_block(at: usize, out: &mut Bytes)
    requires { (before rows : List ℕ) × HasRoom at before rows out.old }
    ensures { (before rows : List ℕ) → HasRoom at before rows out.old → out.new ≡ before ++ block_of rows }
{
    let (_, rows) = out.as_slice().split_at(at + HEAD_SIZE);
    let head = block_head(rows.len() as u32, checksum(rows));
    out.write_at(at, &head);
}

/// Appends the marker of a file's end.
///
/// # Errors
/// Out of memory; nothing is appended.
pub fn write_end(out: &mut Bytes) -> Result<(), AllocError>
    ensures { MatchResult result (λ _. out.new ≡ out.old ++ end_marker) (λ _. out.new ≡ out.old) }
{
    out.extend_from_slice(&END_MARKER)
}

fn block_head(size: u32, sum: u32) -> [u8; HEAD_SIZE]
    ensures { result ≡ block_head size sum }
{
    let mut head = [
        0xd5, 0xba, 0x0b, 0xab, 0xce, 0, 0, 0, 0, 0, 0xce, 0, 0, 0, 0, 0xa3, 0, 0, 0,
    ];
    BigEndian::write_u32(&mut head[5..], size);
    BigEndian::write_u32(&mut head[11..], sum);
    head
}
