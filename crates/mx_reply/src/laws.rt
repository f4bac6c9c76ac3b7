//! Theorems that other crates may use. The functions do nothing.

ghost use Rattle.std.specs.Prelude.{◌≡◌, ◌<◌, ◌^◌, ◌++◌, ◌∷◌, [], List, ℕ, drop, length, take};
ghost use Rattle.byteorder.specs.Endian.{big_number};
ghost use Rattle.mx_reply.specs.Replies.{reply_header, reply_packet};

/// A reply whose size fits 32 bits is a packet: it begins with the size of what follows that size.
pub fn replies_are_packets()
    ensures { (schema sync kind : ℕ) (body : List ℕ) → length (reply_header schema sync kind ++ body) < 2 ^ 32
        → let packet = reply_packet schema sync kind body in
        (take 1 packet ≡ 0xce ∷ []) × (big_number 4 (take 4 (drop 1 packet)) ≡ length (drop 5 packet)) }
{}
