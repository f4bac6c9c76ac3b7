//! What connections are sent, in order, which a contract sees as a list.

ghost use Rattle.std.specs.Prelude.{◌≡◌, [], ◌∷◌, ◌++◌, OnOk, OnErr};

use mx_base::ConnId;
use mx_msgpack::Bytes;
use std::alloc::{AllocError, Global};
use std::marker::Model;

/// Bytes that a connection is sent. No bytes say that the server has closed the connection.
#[derive(Drop)]
pub struct OutUnit {
    pub conn: ConnId,
    pub bytes: Bytes,
}

/// What connections are sent, in order.
#[derive(Drop)]
pub struct OutUnits {
    items: Vec<OutUnit>,
}

impl Model for OutUnits {
    ghost use Rattle.std.specs.Prelude.{List};
    ghost use Rattle.mx_node.specs.declared.out_units.OutUnit.{OutUnit};

    ghost Value = { List OutUnit };

    ghost view = { λ u. u.items.items };
}

impl OutUnits {
    /// Nothing is sent.
    pub fn new(alloc: Global) -> OutUnits
        ensures { result ≡ [] }
    {
        OutUnits {
            items: Vec::new(alloc),
        }
    }

    /// The units in place.
    pub fn as_slice(&self) -> &[OutUnit]
        ensures { result.now ≡ self.now }
    {
        self.items.as_slice()
    }

    /// Adds a unit at the end.
    ///
    /// # Errors
    /// The units are then as they were.
    pub fn push(&mut self, unit: OutUnit) -> Result<(), AllocError>
        ensures ok { OnOk result (self.new ≡ self.old ++ unit ∷ []) }
        ensures err { OnErr result (self.new ≡ self.old) }
    {
        self.items.push(unit)?;
        Ok(())
    }
}
