//! What holds of all rows: a law is the contract of a function that does nothing.

ghost use Rattle.std.specs.Prelude.{◌≡◌, ◌++◌, ℕ, List};
ghost use Rattle.csv.specs.Writing.{default_writer, row_text};
ghost use Rattle.ua_binary.specs.declared.values.NodeId.{NodeId};
ghost use Rattle.ua_variant.specs.declared.value.ValueType.{ValueType};
ghost use Rattle.records.specs.declared.shown.Held.{Held};
ghost use Rattle.history_csv.specs.Rows.{IsTypeOf, AreReadFields, row_at, row_again};

/// The text of a live value's row is read again as that value, whatever follows it: by the kit's
/// `csv` as its fields, and these by `read_row`, at the value's type.
#[tactic(auto, using(crate::proofs::RowsLemmas::written_row))]
pub fn a_written_row_is_read_again()
    ensures { (type : ValueType) (node : NodeId) (held : Held) (fields : List (List ℕ)) (rest : List ℕ)
        → AreReadFields node held fields → IsTypeOf type held.value.value
        → row_at type (row_text default_writer fields ++ rest) ≡ row_again type node held }
{}
