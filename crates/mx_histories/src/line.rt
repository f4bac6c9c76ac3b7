//! What a line asks.

use hex::FromHexError;
use std::alloc::{AllocError, Global};

/// What a line asks; `Wrong` where it asks nothing.
#[derive(Drop)]
pub enum Line {
    New,
    Ask {
        connection: u32,
        header: Vec<u8>,
        body: Vec<u8>,
    },
    Leave {
        connection: u32,
    },
    Wrong,
}

impl Line {
    /// What this text asks.
    pub fn of(alloc: Global, text: &str) -> Result<Line, AllocError> {
        let (word, rest) = text.split_once(' ').unwrap_or((text, ""));
        match word {
            "new" => Ok(Line::New),
            "ask" => ask_of(alloc, rest),
            "leave" => Ok(match rest.parse() {
                Ok(connection) => Line::Leave { connection },
                Err(_) => Line::Wrong,
            }),
            _ => Ok(Line::Wrong),
        }
    }
}

fn ask_of(alloc: Global, text: &str) -> Result<Line, AllocError> {
    let (connection, packet) = text.split_once(' ').unwrap_or((text, ""));
    let (header, body) = packet.split_once(' ').unwrap_or((packet, ""));
    let Ok(connection) = connection.parse() else {
        return Ok(Line::Wrong);
    };
    let Some(header) = bytes_of(alloc, header)? else {
        return Ok(Line::Wrong);
    };
    let Some(body) = bytes_of(alloc, body)? else {
        return Ok(Line::Wrong);
    };
    Ok(Line::Ask {
        connection,
        header,
        body,
    })
}

fn bytes_of(alloc: Global, digits: &str) -> Result<Option<Vec<u8>>, AllocError> {
    match hex::decode(alloc, digits) {
        Ok(bytes) => Ok(Some(bytes)),
        Err(FromHexError::OutOfMemory) => Err(AllocError),
        Err(_) => Ok(None),
    }
}
