//! The answers to lines.

use crate::line::Line;
use mx_base::{ConnId, Refusal, TxnName, code_of};
use mx_model::{Ids, Reply};
use mx_recover::bootstrap;
use mx_request::{RequestFault, read_request};
use mx_slow::Slow;
use mx_vclock::Vclock;
use std::alloc::{AllocError, Global};

/// A database of the plain slow program, which answers one line after the other.
#[derive(Drop)]
pub struct History {
    alloc: Global,
    slow: Slow,
}

impl History {
    /// A new database.
    pub fn new(alloc: Global) -> Result<History, AllocError> {
        Ok(History {
            alloc,
            slow: new_database(alloc)?,
        })
    }

    /// Adds the answer to a line, which is a line too.
    pub fn take(&mut self, line: &str, out: &mut String) -> Result<(), AllocError> {
        match Line::of(self.alloc, line)? {
            Line::New => {
                self.slow = new_database(self.alloc)?;
                out.push_str("new\n")
            }
            Line::Ask {
                connection,
                header,
                body,
            } => {
                let reply = self.ask(ConnId(connection), &header, &body)?;
                self.show(&reply, out)
            }
            Line::Leave { connection } => {
                self.slow.leave(ConnId(connection));
                out.push_str("left\n")
            }
            Line::Wrong => out.push_str("wrong\n"),
        }
    }

    fn ask(&mut self, conn: ConnId, header: &[u8], body: &[u8]) -> Result<Reply, AllocError> {
        match read_request(self.alloc, header, body) {
            Ok((head, request)) => {
                let stream = head.stream;
                self.slow.ask(TxnName { conn, stream }, &request)
            }
            Err(RequestFault::Refused { refusal, .. }) => Ok(Reply::Refused(refusal)),
            Err(RequestFault::NoMemory) => Err(AllocError),
        }
    }

    /// A reply as a line: `ok`, `id`, `tuples` with each in hexadecimal digits, or `error` with its number.
    fn show(&self, reply: &Reply, out: &mut String) -> Result<(), AllocError> {
        match reply {
            Reply::Empty => out.push_str("ok\n"),
            Reply::Id => out.push_str("id\n"),
            Reply::Refused(refusal) => self.show_refusal(refusal, out),
            Reply::Tuples(tuples) => {
                out.push_str("tuples")?;
                for tuple in tuples.slices(self.alloc)? {
                    out.push_str(" ")?;
                    out.push_str(hex::encode(self.alloc, tuple)?.as_str())?;
                }
                out.push_str("\n")
            }
        }
    }

    fn show_refusal(&self, refusal: &Refusal, out: &mut String) -> Result<(), AllocError> {
        let number = code_of(refusal);
        let line = format!(in self.alloc; "error {number}\n")?;
        out.push_str(line.as_str())
    }
}

fn new_database(alloc: Global) -> Result<Slow, AllocError> {
    let ids = Ids {
        me: 1,
        instance: Default::default(),
        set: Default::default(),
    };
    Slow::new(alloc, bootstrap(alloc)?, Vclock::new(), ids)
}
