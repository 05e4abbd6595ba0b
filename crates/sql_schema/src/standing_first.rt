//! Whether a store has the tables of format 1.

ghost use Rattle.std.specs.Prelude.{◌≡◌, true, codes, ◌↔◌, IfOk, IsTrue};
ghost use Rattle.sql_schema.specs.Tables.{strict, records1, currents1, indexes1, schema1};

use crate::recognize::{
    are_asked, are_keys, are_named, are_no_stamps, are_none, are_plain, are_shown, is_index,
    is_meta, is_named, is_only_key, is_plain, is_strict, is_vectors,
};
use sqlite_schema::schema::{Column, Index, Kind, Schema, Table};
use std::alloc::{AllocError, Global};

/// Whether these are the columns of a node and a time.
fn are_timed(node: &Column, time: &Column) -> bool
    ensures { IsTrue result
        ↔
        ((node.now ≡ strict (codes "node") Kind.Blob true)
        × (time.now ≡ strict (codes "time") Kind.Integer true)) }
{
    is_strict(node, b"node", Kind::Blob, true) && is_strict(time, b"time", Kind::Integer, true)
}

/// Whether these are the columns of a current value's node, time and stamp.
fn are_current(node: &Column, time: &Column, tick: &Column, origin: &Column) -> bool
    ensures { IsTrue result
        ↔
        ((node.now ≡ strict (codes "node") Kind.Blob true)
        × (time.now ≡ strict (codes "time") Kind.Integer true)
        × (tick.now ≡ strict (codes "tick") Kind.Integer true)
        × (origin.now ≡ strict (codes "origin") Kind.Integer true)) }
{
    are_timed(node, time)
        && is_strict(tick, b"tick", Kind::Integer, true)
        && is_strict(origin, b"origin", Kind::Integer, true)
}

/// Whether these are the columns behind a record's name and tick.
fn are_behind(node: &Column, time: &Column, asked: &Column, who: &Column, value: &Column) -> bool
    ensures { IsTrue result
        ↔
        ((node.now ≡ strict (codes "node") Kind.Blob true)
        × (time.now ≡ strict (codes "time") Kind.Integer true)
        × (asked.now ≡ strict (codes "asked") Kind.Integer true)
        × (who.now ≡ strict (codes "who") Kind.Blob true)
        × (value.now ≡ strict (codes "value") Kind.Blob true)) }
{
    are_timed(node, time) && are_asked(asked, who, value)
}

/// Whether the columns are those of `records`.
fn are_columns_of_records(columns: &[Column]) -> bool
    ensures { IsTrue result ↔ (columns.now ≡ records1.columns) }
{
    match columns {
        [origin, number, tick, node, time, asked, who, value] => {
            are_named(origin, number, tick) && are_behind(node, time, asked, who, value)
        }
        _ => false,
    }
}

/// Whether the columns are those of `currents`.
fn are_columns_of_currents(columns: &[Column]) -> bool
    ensures { IsTrue result ↔ (columns.now ≡ currents1.columns) }
{
    match columns {
        [node, time, tick, origin, live, extra, value] => {
            are_current(node, time, tick, origin) && are_shown(live, extra, value)
        }
        _ => false,
    }
}

/// Whether it is the table `records`, with this tree.
pub(crate) fn is_records(alloc: Global, table: &Table, tree: u32) -> Result<bool, AllocError>
    ensures { IfOk result (λ same. IsTrue same ↔ (table.now ≡ record records1 { tree = tree })) }
{
    let unchecked = are_none(alloc, &table.checks)?;
    let unstamped = are_no_stamps(alloc, &table.stamps)?;
    Ok(
        unchecked
            && unstamped
            && is_named(table, b"records", tree)
            && are_columns_of_records(table.columns.as_slice())
            && table.key.is_none()
            && table.primary.as_slice() == [1, 2].as_slice()
            && are_keys(table.uniques.as_slice(), &[1, 2], &[4, 5, 3, 1])
            && are_plain(table.orders.as_slice()),
    )
}

/// Whether it is the table `currents`, with this tree.
pub(crate) fn is_currents(alloc: Global, table: &Table, tree: u32) -> Result<bool, AllocError>
    ensures { IfOk result (λ same. IsTrue same ↔ (table.now ≡ record currents1 { tree = tree })) }
{
    let unchecked = are_none(alloc, &table.checks)?;
    let unstamped = are_no_stamps(alloc, &table.stamps)?;
    Ok(
        unchecked
            && unstamped
            && is_named(table, b"currents", tree)
            && are_columns_of_currents(table.columns.as_slice())
            && table.key.is_none()
            && table.primary.as_slice() == [1, 2].as_slice()
            && is_only_key(table.uniques.as_slice(), &[1, 2])
            && is_plain(table.orders.as_slice()),
    )
}

/// Whether these are the tables of format 1.
fn are_tables(alloc: Global, tables: &[Table]) -> Result<bool, AllocError>
    ensures { IfOk result (λ same. IsTrue same ↔ (tables.now ≡ schema1.tables)) }
{
    match tables {
        [meta, records, currents, vectors] => Ok(
            is_meta(alloc, meta)?
                && is_records(alloc, records, 1)?
                && is_currents(alloc, currents, 4)?
                && is_vectors(alloc, vectors)?,
        ),
        _ => Ok(false),
    }
}

/// Whether these are the indexes of their keys.
fn are_indexes(indexes: &[Index]) -> bool
    ensures { IsTrue result ↔ (indexes.now ≡ indexes1) }
{
    match indexes {
        [names, times, currents] => {
            is_index(names, b"sqlite_autoindex_records_1", 2, 1, &[1, 2])
                && is_index(times, b"sqlite_autoindex_records_2", 3, 1, &[4, 5, 3, 1])
                && is_index(currents, b"sqlite_autoindex_currents_1", 5, 4, &[1, 2])
        }
        _ => false,
    }
}

/// Whether the tables are those of format 1, and nothing else is there.
#[tactic(auto, using(crate::proofs::StandingLemmas::is_first))]
pub(crate) fn is_first(alloc: Global, schema: &Schema) -> Result<bool, AllocError>
    ensures { IfOk result (λ same. IsTrue same ↔ (schema.now ≡ schema1)) }
{
    if !are_tables(alloc, schema.tables.as_slice())? {
        return Ok(false);
    }
    Ok(are_indexes(schema.indexes.as_slice()) && schema.views.is_empty())
}
