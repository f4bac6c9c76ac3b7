//! Points that a server's work passes.

/// Is told of each point that a turn of a connection passes.
pub trait Gate {
    /// The turn of connection `conn` is at this point. It goes on when the call returns.
    fn pass_point(&self, conn: u32, number: u32);
}
