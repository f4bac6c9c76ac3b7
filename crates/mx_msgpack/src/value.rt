//! Values that are owned.

ghost use Rattle.std.specs.Prelude.{◌≡◌, [], ◌∷◌, ◌++◌, length, OnOk, OnErr, IsTrue, ◌↔◌};
ghost use Rattle.mx_msgpack.specs.Owned.{pair_list, value_list};

use mx_bytes::Bytes;
use std::alloc::{AllocError, Global};

/// A MessagePack value.
#[cycle(value)]
#[derive(Debug, Drop)]
pub enum Value {
    Nil,
    Bool(bool),
    /// A number from -2^63 up to 2^64 - 1.
    Int(i128),
    /// The bytes of a text, which need not be UTF-8.
    Str(Bytes),
    Bin(Bytes),
    Array(Values),
    Map(Pairs),
    /// The whole spelling of a float or an extension, its leading byte included.
    Opaque(Bytes),
}

/// The values of an array, in order.
#[cycle(value)]
#[derive(Debug, Drop)]
pub struct Values {
    items: Vec<Value>,
}

/// The pairs of a map, in order, each a key and then a value. A key may come more than once.
#[cycle(value)]
#[derive(Debug, Drop)]
pub struct Pairs {
    items: Vec<(Value, Value)>,
}

impl Values {
    /// No value.
    pub fn new(alloc: Global) -> Values
        ensures { value_list result ≡ [] }
    {
        Values {
            items: Vec::new(alloc),
        }
    }

    /// The values of the vector.
    pub fn from_vec(items: Vec<Value>) -> Values
        ensures { value_list result ≡ items.items }
    {
        Values { items }
    }

    /// The values as a vector.
    pub fn into_vec(self) -> Vec<Value>
        ensures { result.items ≡ value_list self }
    {
        self.items
    }

    /// The values in place.
    pub fn as_slice(&self) -> &[Value]
        ensures { result.now ≡ value_list self.now }
    {
        self.items.as_slice()
    }

    /// Adds a value at the end.
    ///
    /// # Errors
    /// Out of memory; the values are as they were.
    pub fn push(&mut self, value: Value) -> Result<(), AllocError>
        ensures ok { OnOk result (value_list self.new ≡ value_list self.old ++ value ∷ []) }
        ensures err { OnErr result (value_list self.new ≡ value_list self.old) }
    {
        self.items.push(value)?;
        Ok(())
    }

    /// How many values there are.
    pub fn len(&self) -> usize
        ensures { result ≡ length (value_list self.now) }
    {
        self.items.len()
    }

    /// Whether there is no value.
    pub fn is_empty(&self) -> bool
        ensures { IsTrue result ↔ (value_list self.now ≡ []) }
    {
        self.items.is_empty()
    }
}

impl Pairs {
    /// No pair.
    pub fn new(alloc: Global) -> Pairs
        ensures { pair_list result ≡ [] }
    {
        Pairs {
            items: Vec::new(alloc),
        }
    }

    /// The pairs of the vector.
    pub fn from_vec(items: Vec<(Value, Value)>) -> Pairs
        ensures { pair_list result ≡ items.items }
    {
        Pairs { items }
    }

    /// The pairs as a vector.
    pub fn into_vec(self) -> Vec<(Value, Value)>
        ensures { result.items ≡ pair_list self }
    {
        self.items
    }

    /// The pairs in place.
    pub fn as_slice(&self) -> &[(Value, Value)]
        ensures { result.now ≡ pair_list self.now }
    {
        self.items.as_slice()
    }

    /// Adds a pair at the end.
    ///
    /// # Errors
    /// Out of memory; the pairs are as they were.
    pub fn push(&mut self, pair: (Value, Value)) -> Result<(), AllocError>
        ensures ok { OnOk result (pair_list self.new ≡ pair_list self.old ++ pair ∷ []) }
        ensures err { OnErr result (pair_list self.new ≡ pair_list self.old) }
    {
        self.items.push(pair)?;
        Ok(())
    }

    /// How many pairs there are.
    pub fn len(&self) -> usize
        ensures { result ≡ length (pair_list self.now) }
    {
        self.items.len()
    }

    /// Whether there is no pair.
    pub fn is_empty(&self) -> bool
        ensures { IsTrue result ↔ (pair_list self.now ≡ []) }
    {
        self.items.is_empty()
    }
}
