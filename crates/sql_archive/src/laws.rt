//! Laws of the archive. Each function's contract is a law, and its body is empty.

ghost use Rattle.std.specs.Prelude.{◌≡◌, ◌⊎◌, ℕ, pos, List, map, All};
ghost use Rattle.sqlite_wal.specs.Recovery.{Image};
ghost use Rattle.sqlite_trees.specs.Tree.{Trees};
ghost use Rattle.sqlite_trees.specs.Objects.{catalog_tree};
ghost use Rattle.sqlite_trees.specs.declared.memory.MemStore.{MemStore};
ghost use Rattle.sqlite_catalog.specs.Listing.{Lists};
ghost use Rattle.sqlite.specs.Files.{HoldsDatabase};
ghost use Rattle.records.specs.Contents.{Content};
ghost use Rattle.records.specs.Moments.{pico_of};
ghost use Rattle.sql_schema.specs.Tables.{no_schema, beside_schema};
ghost use Rattle.sql_opening.specs.Clearing.{AreBare, IsCleared};
ghost use Rattle.sql_archive.specs.Files.{Resumes, KeepsFound};
ghost use Rattle.sql_opening.specs.Renewing.{cells1, IsStored1, IsStoreOf1, IsRenewed};
ghost use Rattle.sql_archive.specs.Kept.{Kept};
ghost use Rattle.archive.specs.Store.{IsLawfulContent};
ghost use Rattle.sql_tables.specs.Rows.{AreRecords};
ghost use Rattle.sql_tables.specs.Derived.{AreKept, current_columns, vector_columns};
ghost use Rattle.sql_reading.specs.Tables.{AreCurrents, AreLasts};

use crate::store::SqlArchive;
use archive::Archive;
use sqlite::MemStore;

/// An archive in memory returns what was written to it, in every state.
pub fn memory_is_honest()
    ensures { (a : Kept MemStore) → (⟦<SqlArchive<MemStore> as Archive>⟧.state a).honest }
{}

/// Where an opening was refused, files that held a database with tables still hold it; save that a store of format 1 of this
/// archive and replica may have got the tables of today, with the same records, and that empty tables of format 1 behind those of an
/// archive may be gone. Whatever can be opened
/// of them then could be opened before, with the same content.
pub fn refused_openings_lose_nothing()
    ensures held { (image left : Image) (id : List ℕ) (own : ℕ) → KeepsFound image id own left
        → (db : Trees) → HoldsDatabase image db → ¬ Lists (db catalog_tree) no_schema
        → ¬ IsStoreOf1 id own db → ¬ (Lists (db catalog_tree) beside_schema × AreBare db)
        → ∥ HoldsDatabase left db ∥₁ }
    ensures renewed { (image left : Image) (id : List ℕ) (own : ℕ) → KeepsFound image id own left
        → (db : Trees) → HoldsDatabase image db → IsStoreOf1 id own db → ∥ ((now : Trees)
        × HoldsDatabase left now × ((now ≡ db) ⊎ IsRenewed id (pos own) (cells1 db) now)) ∥₁ }
    ensures cleared { (image left : Image) (id : List ℕ) (own : ℕ) → KeepsFound image id own left
        → (db : Trees) → HoldsDatabase image db → Lists (db catalog_tree) beside_schema
        → ∥ ((now : Trees) × HoldsDatabase left now × ((now ≡ db) ⊎ IsCleared db now)) ∥₁ }
    ensures resumed { (image left : Image) (id : List ℕ) (own : ℕ) → KeepsFound image id own left
        → (other : List ℕ) (number : ℕ) (R : Content) → Resumes left other number R
        → ∥ Resumes image other number R ∥₁ }
{}

/// The records that a store of format 1 stands for have moments without picoseconds, whatever picoseconds their values have.
pub fn moments_of_format_1_have_no_picoseconds()
    ensures { (id : List ℕ) (own : ℕ) (db : Trees) (stored : IsStored1 id own db)
        → All (λ r. pico_of r.time ≡ 0) stored.content }
{}

/// Where tables are those of an archive's records, their current values are those of the records: for each node and moment with
/// records one row, that of the last of them by stamp, which tells whether that one holds a value and whether others stand there. And
/// each origin with records has one row of its last number and that record's tick.
pub fn tables_are_the_records()
    ensures currents { (R : Content) (db : Trees) → IsLawfulContent R → AreRecords R db → AreKept db
        → AreCurrents R (map current_columns (db 4)) }
    ensures vectors { (R : Content) (db : Trees) → IsLawfulContent R → AreRecords R db → AreKept db
        → AreLasts R (map vector_columns (db 6)) }
{}
