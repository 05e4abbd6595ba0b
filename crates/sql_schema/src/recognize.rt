//! Which tables a store has.

ghost use Rattle.std.specs.Prelude.{◌≡◌, false, true, [], ◌∷◌, ◌++◌, codes, ◌↔◌, Bool, Some, pos, slice_get, IfOk, IsTrue};
ghost use Rattle.sqlite_sql.specs.Syntax.{term_of};
ghost use Rattle.sql_schema.specs.Tables.{HasMeta, strict, meta, records2, currents2, vectors, no_schema, schema1, with_vectors, archive_schema, IsArchiveSchema, beside_schema, first_table, second_table, third_table, fourth_table, index_of, first_index, second_index, third_index, key_indexes, live_index, live_indexes};

use crate::standing_beside::is_beside;
use crate::standing_first::is_first;
use sqlite_items::Items;
use sqlite_schema::code::Terms;
use sqlite_schema::schema::{Column, Index, Kind, Schema, Stamps, Table};
use sqlite_sql::expr::Node;
use sqlite_sql::ops::{BinaryOp, CompareOp};
use sqlite_value::keys::{Collation, Order};
use sqlite_value::value::{Value, ValueRef};
use std::alloc::{AllocError, Global};

/// Which tables a store has.
#[derive(Clone, Copy, Debug, PartialEq, Eq)]
pub enum Standing {
    /// None.
    Empty,
    /// Those of an archive, with the index over live values or without it, and nothing else.
    Archive,
    /// Those of an archive, and behind them those of records and current values of format 1.
    Beside,
    /// Those of a store of format 1, and nothing else.
    First,
    /// Others, the first of which is the table `meta` of an archive.
    Begun,
    /// Others.
    Foreign,
}

/// Whether it is a column of a STRICT table, of this name and kind, with no default.
pub(crate) fn is_strict(column: &Column, name: &[u8], kind: Kind, needed: bool) -> bool
    ensures { IsTrue result ↔ (column.now ≡ strict name.now kind needed) }
{
    column.name.as_slice() == name
        && column.kind == kind
        && column.is_strict
        && column.not_null == needed
        && matches!(&column.default, Value::Null)
        && column.collation == Collation::Binary
}

/// Whether the columns are those of `meta`.
fn are_columns_of_meta(columns: &[Column]) -> bool
    ensures { IsTrue result ↔ (columns.now ≡ meta.columns) }
{
    match columns {
        [one, format, archive, replica] => {
            is_strict(one, b"one", Kind::Integer, false)
                && is_strict(format, b"format", Kind::Integer, true)
                && is_strict(archive, b"archive", Kind::Blob, true)
                && is_strict(replica, b"replica", Kind::Integer, true)
        }
        _ => false,
    }
}

/// Whether these are the columns of a record's name and tick.
pub(crate) fn are_named(origin: &Column, number: &Column, tick: &Column) -> bool
    ensures { IsTrue result
        ↔
        ((origin.now ≡ strict (codes "origin") Kind.Integer true)
        × (number.now ≡ strict (codes "number") Kind.Integer true)
        × (tick.now ≡ strict (codes "tick") Kind.Integer true)) }
{
    is_strict(origin, b"origin", Kind::Integer, true)
        && is_strict(number, b"number", Kind::Integer, true)
        && is_strict(tick, b"tick", Kind::Integer, true)
}

/// Whether these are the columns of a record's node and time.
fn are_placed(node: &Column, time: &Column, pico: &Column) -> bool
    ensures { IsTrue result
        ↔
        ((node.now ≡ strict (codes "node") Kind.Blob true)
        × (time.now ≡ strict (codes "time") Kind.Integer true)
        × (pico.now ≡ strict (codes "pico") Kind.Integer true)) }
{
    is_strict(node, b"node", Kind::Blob, true)
        && is_strict(time, b"time", Kind::Integer, true)
        && is_strict(pico, b"pico", Kind::Integer, true)
}

/// Whether these are the columns of what was asked, by whom, and of the value.
pub(crate) fn are_asked(asked: &Column, who: &Column, value: &Column) -> bool
    ensures { IsTrue result
        ↔
        ((asked.now ≡ strict (codes "asked") Kind.Integer true)
        × (who.now ≡ strict (codes "who") Kind.Blob true)
        × (value.now ≡ strict (codes "value") Kind.Blob true)) }
{
    is_strict(asked, b"asked", Kind::Integer, true)
        && is_strict(who, b"who", Kind::Blob, true)
        && is_strict(value, b"value", Kind::Blob, true)
}

/// Whether the columns are those of `records2`.
fn are_columns_of_records(columns: &[Column]) -> bool
    ensures { IsTrue result ↔ (columns.now ≡ records2.columns) }
{
    match columns {
        [origin, number, tick, node, time, pico, asked, who, value] => {
            are_named(origin, number, tick)
                && are_placed(node, time, pico)
                && are_asked(asked, who, value)
        }
        _ => false,
    }
}

/// Whether these are the columns of a current value's node, time and stamp.
fn are_current(node: &Column, time: &Column, pico: &Column, tick: &Column, origin: &Column) -> bool
    ensures { IsTrue result
        ↔
        ((node.now ≡ strict (codes "node") Kind.Blob true)
        × (time.now ≡ strict (codes "time") Kind.Integer true)
        × (pico.now ≡ strict (codes "pico") Kind.Integer true)
        × (tick.now ≡ strict (codes "tick") Kind.Integer true)
        × (origin.now ≡ strict (codes "origin") Kind.Integer true)) }
{
    are_placed(node, time, pico)
        && is_strict(tick, b"tick", Kind::Integer, true)
        && is_strict(origin, b"origin", Kind::Integer, true)
}

/// Whether these are the columns that tell whether it is live and whether other records stand beside it, and the value.
pub(crate) fn are_shown(live: &Column, extra: &Column, value: &Column) -> bool
    ensures { IsTrue result
        ↔
        ((live.now ≡ strict (codes "live") Kind.Integer true)
        × (extra.now ≡ strict (codes "extra") Kind.Integer true)
        × (value.now ≡ strict (codes "value") Kind.Blob true)) }
{
    is_strict(live, b"live", Kind::Integer, true)
        && is_strict(extra, b"extra", Kind::Integer, true)
        && is_strict(value, b"value", Kind::Blob, true)
}

/// Whether the columns are those of `currents2`.
fn are_columns_of_currents(columns: &[Column]) -> bool
    ensures { IsTrue result ↔ (columns.now ≡ currents2.columns) }
{
    match columns {
        [node, time, pico, tick, origin, live, extra, value] => {
            are_current(node, time, pico, tick, origin) && are_shown(live, extra, value)
        }
        _ => false,
    }
}

/// Whether the columns are those of `vectors`.
fn are_columns_of_vectors(columns: &[Column]) -> bool
    ensures { IsTrue result ↔ (columns.now ≡ vectors.columns) }
{
    match columns {
        [origin, number, tick] => {
            is_strict(origin, b"origin", Kind::Integer, false)
                && is_strict(number, b"number", Kind::Integer, true)
                && is_strict(tick, b"tick", Kind::Integer, true)
        }
        _ => false,
    }
}

/// Whether there are no expressions.
pub(crate) fn are_none(alloc: Global, terms: &Terms) -> Result<bool, AllocError>
    ensures { IfOk result (λ none. IsTrue none ↔ (terms.now ≡ [])) }
{
    let lent = terms.lend(alloc)?;
    match lent.roots {
        [] => Ok(true),
        _ => Ok(false),
    }
}

/// Whether the node at a place is the column `one`.
fn is_column_one(nodes: &[Node<'_>], at: usize) -> bool
    ensures { IsTrue result ↔ (slice_get nodes.now at ≡ Some (Node.Column 1 0)) }
{
    match nodes.get(at) {
        Some(Node::Column(1, 0)) => true,
        _ => false,
    }
}

/// Whether the node at a place is the number 1.
fn is_number_one(nodes: &[Node<'_>], at: usize) -> bool
    ensures { IsTrue result ↔ (slice_get nodes.now at ≡ Some (Node.Literal (ValueRef.Int (pos 1)))) }
{
    match nodes.get(at) {
        Some(Node::Literal(ValueRef::Int(1))) => true,
        _ => false,
    }
}

/// Whether the expression at a place is that `one` is 1.
fn is_check_of_meta(nodes: &[Node<'_>], at: usize) -> bool
    ensures { IsTrue result ↔ (term_of nodes.now at ∷ [] ≡ meta.checks) }
{
    match nodes.get(at) {
        Some(Node::Binary(BinaryOp::Compare(CompareOp::Eq, Collation::Binary), left, right)) => {
            is_column_one(nodes, *left) && is_number_one(nodes, *right)
        }
        _ => false,
    }
}

/// Whether the one expression is that `one` is 1.
fn are_checks_of_meta(alloc: Global, terms: &Terms) -> Result<bool, AllocError>
    ensures { IfOk result (λ same. IsTrue same ↔ (terms.now ≡ meta.checks)) }
{
    let lent = terms.lend(alloc)?;
    match lent.roots {
        [root] => Ok(is_check_of_meta(&lent.nodes, *root)),
        _ => Ok(false),
    }
}

/// Whether no default reads the time.
pub(crate) fn are_no_stamps(alloc: Global, stamps: &Stamps) -> Result<bool, AllocError>
    ensures { IfOk result (λ none. IsTrue none ↔ (stamps.now ≡ meta.stamps)) }
{
    let none = are_none(alloc, &stamps.terms)?;
    Ok(none && stamps.places.is_empty() && stamps.formats.is_empty())
}

fn is_key(key: &Items<usize>, columns: &[usize]) -> bool
    ensures { IsTrue result ↔ (key.now ≡ columns.now) }
{
    key.as_slice() == columns
}

/// Whether these are the keys.
pub(crate) fn are_keys(keys: &[Items<usize>], first: &[usize], second: &[usize]) -> bool
    ensures { IsTrue result ↔ (keys.now ≡ first.now ∷ second.now ∷ []) }
{
    match keys {
        [one, two] => is_key(one, first) && is_key(two, second),
        _ => false,
    }
}

pub(crate) fn are_plain(orders: &[Order]) -> bool
    ensures { IsTrue result ↔ (orders.now ≡ records2.orders) }
{
    match orders {
        [one, two] => one.digits == 0 && two.digits == 0,
        _ => false,
    }
}

/// Whether a table has this name and tree, and no more than its columns, keys and checks.
pub(crate) fn is_named(table: &Table, name: &[u8], tree: u32) -> bool
    ensures { IsTrue result
        ↔
        ((table.now.name ≡ name.now) × (table.now.tree ≡ tree) × (table.now.references ≡ [])
        × (table.now.computed ≡ []) × (table.now.is_counted ≡ false)) }
{
    table.name.as_slice() == name
        && table.tree == tree
        && table.references.is_empty()
        && table.computed.is_empty()
        && !table.is_counted
}

/// Whether it is the table `meta`.
pub(crate) fn is_meta(alloc: Global, table: &Table) -> Result<bool, AllocError>
    ensures { IfOk result (λ same. IsTrue same ↔ (table.now ≡ first_table)) }
{
    let checked = are_checks_of_meta(alloc, &table.checks)?;
    let unstamped = are_no_stamps(alloc, &table.stamps)?;
    Ok(
        checked
            && unstamped
            && is_named(table, b"meta", 0)
            && are_columns_of_meta(table.columns.as_slice())
            && table.key == Some(0)
            && table.primary.as_slice() == [0].as_slice()
            && table.uniques.is_empty()
            && table.orders.is_empty(),
    )
}

/// Whether it is the table `records2`.
pub(crate) fn is_records(alloc: Global, table: &Table) -> Result<bool, AllocError>
    ensures { IfOk result (λ same. IsTrue same ↔ (table.now ≡ second_table)) }
{
    let unchecked = are_none(alloc, &table.checks)?;
    let unstamped = are_no_stamps(alloc, &table.stamps)?;
    Ok(
        unchecked
            && unstamped
            && is_named(table, b"records2", 1)
            && are_columns_of_records(table.columns.as_slice())
            && table.key.is_none()
            && table.primary.as_slice() == [1, 2].as_slice()
            && are_keys(table.uniques.as_slice(), &[1, 2], &[4, 5, 6, 3, 1])
            && are_plain(table.orders.as_slice()),
    )
}

/// Whether there is one key, and it is this one.
pub(crate) fn is_only_key(keys: &[Items<usize>], columns: &[usize]) -> bool
    ensures { IsTrue result ↔ (keys.now ≡ columns.now ∷ []) }
{
    match keys {
        [one] => is_key(one, columns),
        _ => false,
    }
}

pub(crate) fn is_plain(orders: &[Order]) -> bool
    ensures { IsTrue result ↔ (orders.now ≡ currents2.orders) }
{
    match orders {
        [one] => one.digits == 0,
        _ => false,
    }
}

/// Whether it is the table `currents2`.
pub(crate) fn is_currents(alloc: Global, table: &Table) -> Result<bool, AllocError>
    ensures { IfOk result (λ same. IsTrue same ↔ (table.now ≡ third_table)) }
{
    let unchecked = are_none(alloc, &table.checks)?;
    let unstamped = are_no_stamps(alloc, &table.stamps)?;
    Ok(
        unchecked
            && unstamped
            && is_named(table, b"currents2", 4)
            && are_columns_of_currents(table.columns.as_slice())
            && table.key.is_none()
            && table.primary.as_slice() == [1, 2, 3].as_slice()
            && is_only_key(table.uniques.as_slice(), &[1, 2, 3])
            && is_plain(table.orders.as_slice()),
    )
}

/// Whether it is the table `vectors`.
pub(crate) fn is_vectors(alloc: Global, table: &Table) -> Result<bool, AllocError>
    ensures { IfOk result (λ same. IsTrue same ↔ (table.now ≡ fourth_table)) }
{
    let unchecked = are_none(alloc, &table.checks)?;
    let unstamped = are_no_stamps(alloc, &table.stamps)?;
    Ok(
        unchecked
            && unstamped
            && is_named(table, b"vectors", 6)
            && are_columns_of_vectors(table.columns.as_slice())
            && table.key == Some(0)
            && table.primary.as_slice() == [0].as_slice()
            && table.uniques.is_empty()
            && table.orders.is_empty(),
    )
}

/// Whether it is the index of a key of the table with this tree.
pub(crate) fn is_index(index: &Index, name: &[u8], tree: u32, table: u32, columns: &[usize]) -> bool
    ensures { IsTrue result ↔ (index.now ≡ index_of name.now tree table columns.now) }
{
    index.name.as_slice() == name
        && index.tree == tree
        && index.table == table
        && index.columns.as_slice() == columns
        && index.order.digits == 0
        && index.is_unique
}

/// Whether these are the tables of an archive.
fn are_tables(alloc: Global, tables: &[Table]) -> Result<bool, AllocError>
    ensures { IfOk result (λ same. IsTrue same ↔ (tables.now ≡ with_vectors.tables)) }
{
    match tables {
        [meta, records, currents, vectors] => Ok(
            is_meta(alloc, meta)?
                && is_records(alloc, records)?
                && is_currents(alloc, currents)?
                && is_vectors(alloc, vectors)?,
        ),
        _ => Ok(false),
    }
}

/// Whether these are the indexes of the keys of `records2`.
pub(crate) fn are_of_records(names: &Index, moments: &Index) -> bool
    ensures { IsTrue result ↔ ((names.now ≡ first_index) × (moments.now ≡ second_index)) }
{
    is_index(names, b"sqlite_autoindex_records2_1", 2, 1, &[1, 2])
        && is_index(
            moments,
            b"sqlite_autoindex_records2_2",
            3,
            1,
            &[4, 5, 6, 3, 1],
        )
}

/// Whether these are the indexes of an archive's keys.
pub(crate) fn are_of_keys(names: &Index, moments: &Index, currents: &Index) -> bool
    ensures { IsTrue result
        ↔
        ((names.now ≡ first_index) × (moments.now ≡ second_index) × (currents.now ≡ third_index)) }
{
    are_of_records(names, moments)
        && is_index(currents, b"sqlite_autoindex_currents2_1", 5, 4, &[1, 2, 3])
}

/// Whether it is the index over live values.
fn is_live(index: &Index) -> bool
    ensures { IsTrue result ↔ (index.now ≡ live_index) }
{
    index.name.as_slice() == b"currents2_live".as_slice()
        && index.tree == 7
        && index.table == 4
        && index.columns.as_slice() == [1, 6, 2, 3].as_slice()
        && index.order.digits == 0
        && !index.is_unique
}

/// Whether these are the indexes of an archive's keys, and no other.
fn are_plain_indexes(indexes: &[Index]) -> bool
    ensures { IsTrue result ↔ (indexes.now ≡ key_indexes ++ live_indexes false) }
{
    match indexes {
        [names, moments, currents] => are_of_keys(names, moments, currents),
        _ => false,
    }
}

/// Whether these are the indexes of an archive's keys, and behind them the one over live values.
fn are_live_indexes(indexes: &[Index]) -> bool
    ensures { IsTrue result ↔ (indexes.now ≡ key_indexes ++ live_indexes true) }
{
    match indexes {
        [names, moments, currents, live] => {
            are_of_keys(names, moments, currents) && is_live(live)
        }
        _ => false,
    }
}

/// Whether these are the indexes of an archive, with the one over live values or without it.
fn are_indexes(indexes: &[Index]) -> bool
    ensures { IsTrue result
        ↔ ((indexed : Bool) × (indexes.now ≡ key_indexes ++ live_indexes indexed)) }
{
    are_plain_indexes(indexes) || are_live_indexes(indexes)
}

/// Whether the tables are those of an archive, and nothing else is there.
fn is_archive(alloc: Global, schema: &Schema) -> Result<bool, AllocError>
    ensures { IfOk result (λ same. IsTrue same ↔ IsArchiveSchema schema.now) }
{
    if !are_tables(alloc, schema.tables.as_slice())? {
        return Ok(false);
    }
    Ok(are_indexes(schema.indexes.as_slice()) && schema.views.is_empty())
}

/// Of the tables of an archive, whether they have the index over live values.
pub fn is_indexed(schema: &Schema) -> bool
    ensures { (indexed : Bool) → schema.now ≡ archive_schema indexed → result ≡ indexed }
{
    match schema.indexes.as_slice() {
        [_, _, _, _] => true,
        _ => false,
    }
}

/// Whether the first table is `meta`, as an archive has it.
fn has_meta(alloc: Global, schema: &Schema) -> Result<bool, AllocError>
    ensures { IfOk result (λ same. IsTrue same ↔ HasMeta schema.now) }
{
    match schema.tables.as_slice() {
        [meta, ..] => is_meta(alloc, meta),
        _ => Ok(false),
    }
}

fn is_empty(schema: &Schema) -> bool
    ensures { IsTrue result ↔ (schema.now ≡ no_schema) }
{
    schema.tables.is_empty() && schema.indexes.is_empty() && schema.views.is_empty()
}

/// Which tables a database has: none, an archive's as they are, with the index over live values or without it, with those of an earlier form beside them, or in an earlier form, or others, behind a table `meta` or not. Each column, key and index is
/// compared with those that an archive's have. The only error is want of memory.
pub fn layout_of(alloc: Global, schema: &Schema) -> Result<Standing, AllocError>
    ensures empty { IfOk result (λ s. (s ≡ Standing.Empty) ↔ (schema.now ≡ no_schema)) }
    ensures archive { IfOk result (λ s. (s ≡ Standing.Archive) ↔ IsArchiveSchema schema.now) }
    ensures beside { IfOk result (λ s. (s ≡ Standing.Beside) ↔ (schema.now ≡ beside_schema)) }
    ensures first { IfOk result (λ s. (s ≡ Standing.First) ↔ (schema.now ≡ schema1)) }
    ensures begun { IfOk result (λ s. s ≡ Standing.Begun → HasMeta schema.now) }
    ensures foreign { IfOk result (λ s. s ≡ Standing.Foreign → HasMeta schema.now → ⊥) }
{
    if is_empty(schema) {
        return Ok(Standing::Empty);
    }
    if is_archive(alloc, schema)? {
        return Ok(Standing::Archive);
    }
    if is_beside(alloc, schema)? {
        return Ok(Standing::Beside);
    }
    if is_first(alloc, schema)? {
        return Ok(Standing::First);
    }
    if has_meta(alloc, schema)? {
        return Ok(Standing::Begun);
    }
    Ok(Standing::Foreign)
}
