//! The arguments of a call.

use crate::fault::Fault;
use hex::FromHexError;
use mx_bytes::Bytes;
use std::alloc::{AllocError, Global};
use std::str::FromStr;
use uuid::Uuid;

/// The arguments that a line still has.
///
/// The first fault is kept, and what is read after it is a harmless value, as 0 or no bytes. So an
/// answer counts only where `end` finds no fault.
#[derive(Drop)]
pub struct Arguments<'a> {
    alloc: Global,
    rest: &'a str,
    fault: Option<Fault>,
}

impl<'a> Arguments<'a> {
    /// The arguments in the rest of a line.
    pub fn of(alloc: Global, rest: &'a str) -> Arguments<'a> {
        Arguments {
            alloc,
            rest,
            fault: None,
        }
    }

    /// The allocator for answers.
    pub fn alloc(&self) -> Global {
        self.alloc
    }

    /// Keeps a fault, if it is the first one.
    pub fn refuse(&mut self, fault: Fault) {
        if self.fault.is_none() {
            self.fault = Some(fault);
        }
    }

    /// Refuses a text that isn't what is wanted.
    pub fn refuse_text(&mut self, wanted: &str, text: &str) {
        let what = format!(in self.alloc; "{text:?} is no {wanted}");
        self.refuse(Fault::of(what));
    }

    /// The next argument as it stands.
    pub fn text(&mut self) -> &'a str {
        if self.rest.is_empty() {
            let what = String::from_str(self.alloc, "an argument is missing");
            self.refuse(Fault::of(what));
        }
        let (text, rest) = self.rest.split_once(' ').unwrap_or((self.rest, ""));
        self.rest = rest;
        text
    }

    /// All arguments that are left.
    pub fn others(&mut self) -> Vec<&'a str> {
        let rest = self.rest;
        self.rest = "";
        if rest.is_empty() {
            return Vec::new(self.alloc);
        }
        self.pieces(rest, ' ')
    }

    /// The next argument as a list, with commas between its items, or `-` for none.
    pub fn items(&mut self) -> Vec<&'a str> {
        match self.text() {
            "-" => Vec::new(self.alloc),
            text => self.pieces(text, ','),
        }
    }

    fn pieces(&mut self, text: &'a str, between: char) -> Vec<&'a str> {
        match text.split(between).collect(self.alloc) {
            Ok(pieces) => pieces,
            Err(_) => {
                self.refuse(Fault::NoMemory);
                Vec::new(self.alloc)
            }
        }
    }

    /// The next argument as a number.
    pub fn number<T: FromStr + Default + Drop>(&mut self) -> T
    where
        T::Err: Drop,
    {
        let text = self.text();
        self.number_in(text)
    }

    /// A text as a number.
    pub fn number_in<T: FromStr + Default + Drop>(&mut self, text: &str) -> T
    where
        T::Err: Drop,
    {
        match text.parse::<T>() {
            Ok(number) => number,
            Err(_) => {
                self.refuse_text("number in range", text);
                T::default()
            }
        }
    }

    /// The next argument as `true` or `false`.
    pub fn truth(&mut self) -> bool {
        match self.text() {
            "true" => true,
            "false" => false,
            text => {
                self.refuse_text("truth value", text);
                false
            }
        }
    }

    /// The next argument as a UUID.
    pub fn uuid(&mut self) -> Uuid {
        let text = self.text();
        match Uuid::try_parse(text) {
            Ok(uuid) => uuid,
            Err(_) => {
                self.refuse_text("UUID", text);
                Uuid::default()
            }
        }
    }

    /// The next argument as bytes.
    pub fn bytes(&mut self) -> Bytes {
        let text = self.text();
        self.bytes_in(text)
    }

    /// The bytes that a text spells: pieces with `+` between them, or `-` for none.
    pub fn bytes_in(&mut self, text: &str) -> Bytes {
        let mut bytes = Bytes::new(self.alloc);
        if text != "-" {
            for piece in text.split('+') {
                self.add_piece(piece, &mut bytes);
            }
        }
        bytes
    }

    /// Adds a piece: hexadecimal digits, and after a `*` how often they are repeated.
    fn add_piece(&mut self, piece: &str, bytes: &mut Bytes) {
        let (digits, times) = piece.split_once('*').unwrap_or((piece, "1"));
        let times: u64 = self.number_in(times);
        if let Err(fault) = add_digits(self.alloc, digits, times, bytes) {
            self.refuse(fault);
        }
    }

    /// Tells the first fault, which may be that arguments are left.
    pub fn end(self) -> Result<(), Fault> {
        let rest = self.rest;
        match self.fault {
            Some(fault) => Err(fault),
            None if rest.is_empty() => Ok(()),
            None => Err(Fault::of(format!(in self.alloc; "too many arguments: {rest:?}"))),
        }
    }
}

/// The answer where no call has the name.
pub fn no_call(arguments: &mut Arguments<'_>) -> Result<String, AllocError> {
    arguments.refuse(Fault::NoCall);
    Ok(String::new(arguments.alloc()))
}

/// Adds the bytes of hexadecimal digits, repeated so often.
fn add_digits(alloc: Global, digits: &str, times: u64, bytes: &mut Bytes) -> Result<(), Fault> {
    match hex::decode(alloc, digits) {
        Ok(once) => Ok(add_times(once.as_slice(), times, bytes)?),
        Err(FromHexError::OutOfMemory) => Err(Fault::NoMemory),
        Err(error) => Err(Fault::of(format!(in alloc; "{error}: {digits:?}"))),
    }
}

fn add_times(once: &[u8], times: u64, bytes: &mut Bytes) -> Result<(), AllocError> {
    for _ in 0..times {
        bytes.extend_from_slice(once)?;
    }
    Ok(())
}
