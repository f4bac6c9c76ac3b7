//! Theorems that other crates may use. The functions do nothing.

ghost use Rattle.std.specs.Prelude.{◌≡◌, ◌↔◌, ◌++◌, List, ℕ};
ghost use Rattle.mx_frame.specs.Packets.{Broken, NeedMore, Packet, first_frame};
ghost use Rattle.mx_frame.specs.Spelled.{BeginsWithNoPacket, BeginsWithPacket, EndsTooSoon};

/// What bytes begin with, by the grammar of MessagePack.
pub fn packets_are_spelled()
    ensures packet { (bytes packet rest : List ℕ) → (first_frame bytes ≡ Packet packet rest) ↔ BeginsWithPacket bytes packet rest }
    ensures broken { (bytes : List ℕ) → (first_frame bytes ≡ Broken) ↔ BeginsWithNoPacket bytes }
    ensures need_more { (bytes : List ℕ) → (first_frame bytes ≡ NeedMore) ↔ EndsTooSoon bytes }
{}

/// A first packet stays the first whatever follows, and what begins with no packet does so whatever
/// follows.
pub fn what_is_framed_stays()
    ensures packet { (bytes more packet rest : List ℕ) → first_frame bytes ≡ Packet packet rest → first_frame (bytes ++ more) ≡ Packet packet (rest ++ more) }
    ensures broken { (bytes more : List ℕ) → first_frame bytes ≡ Broken → first_frame (bytes ++ more) ≡ Broken }
{}
