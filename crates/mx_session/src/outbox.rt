//! The output of a connection: bytes that may be sent, and replies that wait.

ghost use Rattle.std.specs.Prelude.{◌≡◌, ◌-◌, ◌*◌, ◌≤◌, ◌++◌, ◌∷◌, [], length, drop, vec_len, IfOk, MatchResult};
ghost use Rattle.mx_session.specs.Outboxes.{after_release};
ghost use Rattle.mx_session.specs.Sessions.{unsent_length};
ghost use Rattle.mx_session.specs.Sessions.{first_front};

use std::alloc::{AllocError, Global};
use std::collections::VecDeque;
use std::marker::Model;

/// One buffer for all output, in which one after the other lie what is sent, what may be sent, and the
/// replies that wait.
#[derive(Drop)]
pub(crate) struct Outbox {
    /// What is sent ends at `start`, and what may be sent at `released`.
    buffer: Vec<u8>,
    start: usize,
    released: usize,
    /// The replies that wait, oldest first.
    queue: VecDeque<Held>,
}

/// A reply that waits: how many steps of the history have to be durable before it is sent, and how many
/// bytes it has.
#[derive(Clone, Copy, Drop)]
pub(crate) struct Held {
    front: u64,
    size: usize,
}

impl Model for Outbox {
    ghost use Rattle.std.specs.Prelude.{◌≡◌, ◌≤◌, ◌+◌, vec_len};
    ghost use Rattle.mx_session.specs.Outboxes.{OutboxState, held_length, outbox_of};

    ghost Value = { OutboxState };

    ghost view = { λ o. outbox_of o.start o.released o.buffer.items o.queue.items };

    ghost invariant = { λ o. (o.start ≤ o.released) × (o.released + held_length o.queue.items ≡ vec_len o.buffer) };
}

impl Outbox {
    pub(crate) fn new(alloc: Global, out: &[u8]) -> Result<Outbox, AllocError>
        ensures { IfOk result (λ outbox. outbox ≡ record { waiting = []; out = out.now }) }
    {
        Ok(Outbox {
            buffer: out.to_vec(alloc)?,
            start: 0,
            released: out.len(),
            queue: VecDeque::new(alloc),
        })
    }

    pub(crate) fn push(&mut self, front: u64, reply: &[u8]) -> Result<(), AllocError>
        ensures { MatchResult result
            (λ _. self.new ≡ record self.old { waiting = self.old.waiting ++ record { front = front; reply = reply.now } ∷ [] })
            (λ _. self.new ≡ self.old) }
    {
        let dropped = drop_sent(&mut self.buffer, self.start);
        self.start -= dropped;
        self.released -= dropped;
        self.queue.reserve(1)?;
        self.buffer.extend_from_slice(reply)?;
        self.queue.push_back_reserved(Held {
            front,
            size: reply.len(),
        });
        Ok(())
    }

    pub(crate) fn release(&mut self, durable: u64)
        ensures { self.new ≡ after_release durable self.old }
    {
        while let Some(first) = self.queue.front() {
            if first.front > durable {
                return;
            }
            self.released += first.size;
            self.queue.pop_front();
        }
    }

    pub(crate) fn first_front(&self) -> Option<u64>
        ensures { result ≡ first_front self.now.waiting }
    {
        self.queue.front().map(|first| first.front)
    }

    pub(crate) fn out(&self) -> &[u8]
        ensures { result.now ≡ self.now.out }
    {
        &self.buffer[self.start..self.released]
    }

    pub(crate) fn unsent(&self) -> usize
        ensures { result ≡ unsent_length self.now.out self.now.waiting }
    {
        self.buffer.len() - self.start
    }

    pub(crate) fn sent(&mut self, count: usize)
        requires { count ≤ length self.old.out }
        ensures { self.new ≡ record self.old { out = drop count self.old.out } }
    {
        self.start += count;
        if self.start == self.buffer.len() {
            self.buffer.clear();
            self.start = 0;
            self.released = 0;
        }
    }
}

/// Waits until more than half of the buffer is sent, so that each byte is moved at most once for each
/// byte that was sent.
fn drop_sent(buffer: &mut Vec<u8>, sent: usize) -> usize
    requires { sent ≤ vec_len buffer.old }
    ensures dropped { (result ≤ sent) × (buffer.new.items ≡ drop result buffer.old.items) }
    ensures half { 2 * (sent - result) ≤ vec_len buffer.new }
{
    let left = buffer.len() - sent;
    if sent <= left {
        return 0;
    }
    buffer.copy_within(sent.., 0);
    buffer.truncate(left);
    sent
}
