//! The framer: bytes in, packets out.

ghost use Rattle.std.specs.Prelude.{◌≡◌, ◌+◌, ◌-◌, ◌^◌, ◌<◌, ◌≤◌, ◌++◌, [], ℕ, List, length, drop, min, vec_len, MatchResult};
ghost use Rattle.mx_frame.specs.Packets.{Packet, first_frame};
ghost use Rattle.mx_frame.specs.Views.{IsFramed};

use crate::size::{Size, size_at};
use std::alloc::{AllocError, Global};
use std::marker::Model;

/// The bytes of a connection that came and weren't passed yet, split into packets.
#[derive(Drop)]
pub struct Framer {
    /// The bytes from `start` on weren't passed yet.
    buffer: Vec<u8>,
    start: usize,
    passed: u64,
}

impl Model for Framer {
    ghost use Rattle.std.specs.Prelude.{◌≤◌, drop, vec_len};
    ghost use Rattle.mx_frame.specs.Streams.{Stream};

    ghost Value = { Stream };

    ghost view = { λ f. record { passed = f.passed; rest = drop f.start f.buffer.items } };

    ghost invariant = { λ f. f.start ≤ vec_len f.buffer };
}

/// What the bytes begin with that weren't passed.
#[derive(Clone, Copy, PartialEq, Eq)]
pub enum Framed<'a> {
    /// A whole packet, without its size.
    Packet(&'a [u8]),
    /// A prefix of a packet.
    NeedMore,
    /// No packet: a byte that begins no unsigned number, or a size above 2,097,152. `at` is the
    /// number of bytes of the connection before it, up to `u64::MAX`.
    Broken { at: u64 },
}

impl Framer {
    /// A framer to which no bytes came yet.
    pub fn new(alloc: Global) -> Framer
        ensures rest { result.rest ≡ [] }
        ensures passed { result.passed ≡ 0 }
    {
        Framer {
            buffer: Vec::new(alloc),
            start: 0,
            passed: 0,
        }
    }

    /// Takes the next bytes of the connection.
    ///
    /// # Errors
    /// The bytes weren't taken.
    pub fn feed(&mut self, piece: &[u8]) -> Result<(), AllocError>
        ensures rest { MatchResult result (λ _. self.new.rest ≡ self.old.rest ++ piece.now) (λ _. self.new.rest ≡ self.old.rest) }
        ensures passed { self.new.passed ≡ self.old.passed }
    {
        // What was passed is dropped only where it is more than half, so that fewer bytes are moved
        // than were passed.
        if self.start > self.buffer.len() - self.start {
            drop_prefix(&mut self.buffer, self.start);
            self.start = 0;
        }
        self.buffer.extend_from_slice(piece)
    }

    /// What the bytes begin with that weren't passed.
    #[tactic(auto, unfolding(crate::specs::Packets::first_frame))]
    pub fn next(&self) -> Framed<'_>
        ensures { IsFramed result self.now }
    {
        let rest = self.rest();
        match size_at(rest) {
            Size::Part => Framed::NeedMore,
            Size::Wrong => Framed::Broken { at: self.passed },
            Size::Whole { head, size } => {
                let (_, content) = rest.split_at(head);
                if content.len() < size {
                    return Framed::NeedMore;
                }
                Framed::Packet(content.split_at(size).0)
            }
        }
    }

    /// Passes the first packet.
    #[tactic(auto, unfolding(crate::specs::Packets::first_frame))]
    pub fn pass(&mut self)
        requires { (content rest : List ℕ) × (first_frame self.old.rest ≡ Packet content rest) }
        ensures rest { (content rest : List ℕ) → first_frame self.old.rest ≡ Packet content rest → self.new.rest ≡ rest }
        ensures shorter { length self.new.rest < length self.old.rest }
        ensures passed { self.new.passed ≡ min (self.old.passed + (length self.old.rest - length self.new.rest)) (2 ^ 64 - 1) }
    {
        if let Size::Whole { head, size } = size_at(self.rest()) {
            self.start += head + size;
            self.passed = self.passed.saturating_add((head + size) as u64);
        }
    }

    fn rest(&self) -> &[u8]
        ensures { result.now ≡ self.now.rest }
    {
        self.buffer.as_slice().split_at(self.start).1
    }
}

fn drop_prefix(buffer: &mut Vec<u8>, count: usize)
    requires { count ≤ vec_len buffer.old }
    ensures { buffer.new.items ≡ drop count buffer.old.items }
{
    let left = buffer.len() - count;
    buffer.copy_within(count.., 0);
    buffer.truncate(left);
}
