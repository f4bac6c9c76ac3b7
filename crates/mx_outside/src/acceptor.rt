//! Where connections come from.

ghost use Rattle.std.specs.Prelude.{◌≡◌, ℕ};
ghost use Rattle.mx_outside.specs.Accepting.{Accepts};

use crate::link::Link;

/// What a call for the next connection gave.
#[derive(Drop)]
pub enum Accepted<L> {
    /// The link to a peer.
    Link(L),
    /// No peer has connected yet, or there is no room for one at the moment.
    NotReady,
    /// The acceptor failed.
    Failed,
    /// An allocation failed.
    NoMemory,
}

/// Where connections come from.
pub trait Acceptor {
    /// What it gives.
    type L: Link + Send + Drop + 'static;

    /// How often a call failed.
    ghost faults: { Self → ℕ };

    /// How often there was no connection to give.
    ghost waits: { Self → ℕ };

    /// How many links it gave.
    ghost given: { Self → ℕ };

    /// Gives the link to the next peer, of which nothing was read and to which nothing was written. It
    /// may wait for a peer, for at most 10 milliseconds or until a link that it gave is told to `call`.
    fn accept(&mut self) -> Accepted<Self::L>
        ensures { Accepts (Self.L.came) (Self.L.gone) (faults self.old) (faults self.new) (waits self.old) (waits self.new) (given self.old) (given self.new) result };

    /// Ends the rests of the links that it gave, the present ones or else the next.
    fn wake(&mut self)
        ensures faults { faults self.new ≡ faults self.old }
        ensures waits { waits self.new ≡ waits self.old }
        ensures given { given self.new ≡ given self.old };
}
