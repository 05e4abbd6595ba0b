//! Which values have no text.

ghost use Rattle.std.specs.Prelude.{◌↔◌, IsTrue};
ghost use Rattle.history_text.specs.Arrays.{IsUnwrittenArray};
ghost use Rattle.history_text.specs.Values.{IsUnwritten};
ghost use Rattle.history_csv.specs.Rows.{IsTextless, ShowsTextless};

use ua_variant::{Array, DataValue, Scalar, Variant};

/// Whether a value is of a type that isn't written as text.
fn is_unwritten(value: &Scalar) -> bool
    ensures { IsTrue result ↔ IsUnwritten value.now }
{
    match value {
        Scalar::NodeId(_) | Scalar::QualifiedName(_) | Scalar::LocalizedText(_) => true,
        _ => false,
    }
}

/// Whether an array is of such a type.
fn is_unwritten_array(array: &Array) -> bool
    ensures { IsTrue result ↔ IsUnwrittenArray array.now }
{
    match array {
        Array::NodeId(_) | Array::QualifiedName(_) | Array::LocalizedText(_) => true,
        _ => false,
    }
}

/// Whether a value has no text.
pub(crate) fn is_textless(value: &Option<Variant>) -> bool
    ensures { IsTrue result ↔ IsTextless value.now }
{
    match value {
        Some(Variant::Scalar(value)) => is_unwritten(value),
        Some(Variant::Array(array)) => is_unwritten_array(array),
        Some(Variant::Null) | None => false,
    }
}

/// Whether a modification shows a value that has no text.
pub(crate) fn shows_textless(shown: &Option<DataValue>) -> bool
    ensures { IsTrue result ↔ ShowsTextless shown.now }
{
    match shown {
        Some(given) => is_textless(&given.value),
        None => false,
    }
}
