//! Theorems that other crates may use.

ghost use Rattle.std.specs.Prelude.{◌≡◌, Some};
ghost use Rattle.mx_msgpack.specs.Grammar.{Array, Spells, Values, max_nesting};
ghost use Rattle.mx_msgpack.specs.Items.{SpellEach, items_of};
ghost use Rattle.mx_tuple.specs.Fields.{TupleValue};

/// A theorem, which does nothing when it is called: a tuple's bytes spell an array, and each field is
/// the spelling of the value in its place.
pub fn a_field_is_a_value()
    ensures spelled { (tuple : TupleValue) → items_of tuple.bytes ≡ Some tuple.fields
        → (values : Values) × Spells max_nesting (Array values) tuple.bytes }
    ensures each { (tuple : TupleValue) (values : Values) → items_of tuple.bytes ≡ Some tuple.fields
        → Spells max_nesting (Array values) tuple.bytes → SpellEach 63 values tuple.fields }
{}
