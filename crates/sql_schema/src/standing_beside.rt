//! Whether a store has the tables of an archive, and behind them those of records and current values of format 1.

ghost use Rattle.std.specs.Prelude.{◌≡◌, ◌++◌, ◌↔◌, IfOk, IsTrue};
ghost use Rattle.sql_schema.specs.Tables.{names_beside, times_beside, values_beside, key_indexes, indexes_beside, beside_schema};

use crate::recognize::{are_of_keys, is_currents, is_index, is_meta, is_records, is_vectors};
use crate::standing_first;
use sqlite_schema::schema::{Index, Schema, Table};
use std::alloc::{AllocError, Global};

/// Whether these are the tables.
fn are_tables(alloc: Global, tables: &[Table]) -> Result<bool, AllocError>
    ensures { IfOk result (λ same. IsTrue same ↔ (tables.now ≡ beside_schema.tables)) }
{
    match tables {
        [meta, records2, currents2, vectors, records, currents] => Ok(
            is_meta(alloc, meta)?
                && is_records(alloc, records2)?
                && is_currents(alloc, currents2)?
                && is_vectors(alloc, vectors)?
                && standing_first::is_records(alloc, records, 7)?
                && standing_first::is_currents(alloc, currents, 10)?,
        ),
        _ => Ok(false),
    }
}

/// Whether these are the indexes of the other keys.
fn are_of_first(names: &Index, times: &Index, currents: &Index) -> bool
    ensures { IsTrue result
        ↔
        ((names.now ≡ names_beside) × (times.now ≡ times_beside) × (currents.now ≡ values_beside)) }
{
    is_index(names, b"sqlite_autoindex_records_1", 8, 7, &[1, 2])
        && is_index(times, b"sqlite_autoindex_records_2", 9, 7, &[4, 5, 3, 1])
        && is_index(currents, b"sqlite_autoindex_currents_1", 11, 10, &[1, 2])
}

/// Whether these are the indexes of their keys.
fn are_indexes(indexes: &[Index]) -> bool
    ensures { IsTrue result ↔ (indexes.now ≡ key_indexes ++ indexes_beside) }
{
    match indexes {
        [names2, moments2, currents2, names, times, currents] => {
            are_of_keys(names2, moments2, currents2) && are_of_first(names, times, currents)
        }
        _ => false,
    }
}

/// Whether the tables are these, and nothing else is there.
#[tactic(auto, using(crate::proofs::StandingLemmas::is_beside))]
pub(crate) fn is_beside(alloc: Global, schema: &Schema) -> Result<bool, AllocError>
    ensures { IfOk result (λ same. IsTrue same ↔ (schema.now ≡ beside_schema)) }
{
    if !are_tables(alloc, schema.tables.as_slice())? {
        return Ok(false);
    }
    Ok(are_indexes(schema.indexes.as_slice()) && schema.views.is_empty())
}
