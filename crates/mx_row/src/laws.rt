//! Theorems that other crates may use. The functions do nothing.

ghost use Rattle.std.specs.Prelude.{◌≡◌, ◌++◌, List, ℕ, Some};
ghost use Rattle.mx_msgpack.specs.Grammar.{Map, Spells, max_nesting};
ghost use Rattle.mx_row.specs.declared.tx.Tx.{Tx};
ghost use Rattle.mx_row.specs.Grammar.{KeyValue, SpellsMap, SpellsTransaction, pairs_of};
ghost use Rattle.mx_row.specs.Rows.{IsTransaction, transaction_at, transaction_text};

/// What the grammar spells as a transaction is read as that transaction, whatever follows. Its maps are
/// those of the grammar of MessagePack.
pub fn what_is_spelled_is_read()
    ensures read { (transaction : Tx) (bytes more : List ℕ) → SpellsTransaction transaction bytes
        → transaction_at (bytes ++ more) ≡ Some (transaction, more) }
    ensures map { (entries : List KeyValue) (bytes : List ℕ) → SpellsMap entries bytes → Spells max_nesting (Map (pairs_of entries)) bytes }
{}

/// What is read as a transaction is spelled by the grammar.
pub fn what_is_read_is_spelled()
    ensures { (bytes rest : List ℕ) (transaction : Tx) → transaction_at bytes ≡ Some (transaction, rest)
        → (front : List ℕ) × (bytes ≡ front ++ rest) × SpellsTransaction transaction front }
{}

/// What is written of a transaction is spelled by the grammar.
pub fn what_is_written_is_spelled()
    ensures { (transaction : Tx) → IsTransaction transaction → SpellsTransaction transaction (transaction_text transaction) }
{}
