//! How answers show bytes.

use std::fmt;

/// The bytes in hexadecimal, and `-` where there is none.
#[derive(Clone, Copy)]
pub struct Hex<'a>(pub &'a [u8]);

impl fmt::Display for Hex<'_> {
    fn fmt<W: fmt::Write>(&self, f: &mut fmt::Formatter<W>) -> fmt::Result {
        if self.0.is_empty() {
            return f.write_str("-");
        }
        for byte in self.0 {
            write!(f, "{byte:02x}")?;
        }
        Ok(())
    }
}

/// The bytes in hexadecimal; of more than 64 only the ends, and how many there are.
#[derive(Clone, Copy)]
pub struct Ends<'a>(pub &'a [u8]);

impl fmt::Display for Ends<'_> {
    fn fmt<W: fmt::Write>(&self, f: &mut fmt::Formatter<W>) -> fmt::Result {
        let len = self.0.len();
        if len <= 64 {
            return write!(f, "{}", Hex(self.0));
        }
        let (front, _) = self.0.split_at(8);
        let (_, back) = self.0.split_at(len - 8);
        write!(f, "{}..{} {len}", Hex(front), Hex(back))
    }
}

/// The bytes as text, or in hexadecimal where they are none.
#[derive(Clone, Copy)]
pub struct Text<'a>(pub &'a [u8]);

impl fmt::Display for Text<'_> {
    fn fmt<W: fmt::Write>(&self, f: &mut fmt::Formatter<W>) -> fmt::Result {
        match str::from_utf8(self.0) {
            Ok(text) => f.write_str(text),
            Err(_) => write!(f, "{}", Hex(self.0)),
        }
    }
}
