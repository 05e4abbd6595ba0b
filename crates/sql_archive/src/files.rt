//! Archives in files: a database file and its log.

ghost use Rattle.std.specs.Prelude.{◌≡◌, ◌≢◌, ◌⊎◌, true, false, IfOk, IfErr, IfSome, IsSomeAnd, IsTrue};
ghost use Rattle.sqlite.specs.State.{HasCleanDisk};
ghost use Rattle.sqlite_trees.specs.Tree.{Trees};
ghost use Rattle.sqlite.specs.Files.{file_state, image_of, HoldsDatabase};
ghost use Rattle.sqlite_wal.specs.Files.{image_at};
ghost use Rattle.sqlite_std_file.specs.File.{IsFresh};
ghost use Rattle.archive.specs.Store.{IsOfOpening};
ghost use Rattle.sql_tables.specs.Rows.{content_in};
ghost use Rattle.sql_archive.specs.Files.{HoldsContent, Resumes, ResumesOnly, ResumesAmong, IsAnothers, EngineLeaves, KeepsFound, given_back, HaveCleanDisks, HoldsLeft};
ghost use Rattle.sql_archive.specs.Starting.{IsBegun};

use crate::starting::{as_told, start};
use crate::store::SqlArchive;
use archive::{Archive, StoreFault};
use sql_tables::refusal_of;
use sqlite::{Connection, File, FileFrom, FileStore, Files, Options, Start, Unknown};
use sqlite_disk::Disk;
use stamp::ReplicaNo;
use std::alloc::Global;
use std::rt::HostRuntime;
use uuid::Uuid;

/// An archive in a file of this machine.
pub type FileArchive = SqlArchive<FileStore<File>>;

/// The files of a connection, as they are.
fn files_of<D: Disk + Drop>(conn: Connection<FileStore<D>>) -> Files<D>
    ensures clean { HaveCleanDisks D.Disk result → HasCleanDisk (file_state conn) }
    ensures holds { HaveCleanDisks D.Disk result → ∥ ((db : Trees) × (file_state conn).may_leave db
        × HoldsDatabase (image_of D.Disk result) db) ∥₁ }
{
    conn.into_store().close()
}

impl<D: Disk + Drop> SqlArchive<FileStore<D>> {
    /// Opens the archive of this id and replica that a database file and its log hold. Where they hold no
    /// table yet, its own are made, in one commit. A refusal gives the files back; `may_be_used` of them tells
    /// whether they can be opened again.
    ///
    /// It is refused by `WrongArchive` and `WrongReplica` where the tables are those of another archive or
    /// replica, in this order; and by `Refused` where other tables stand there, where the rows are those of
    /// no lawful content, and where the files hold no database, can't be read, or fail while they are read. It
    /// is never `Broken`.
    pub fn open_files(
        alloc: Global,
        files: Files<D>,
        options: Options,
        id: Uuid,
        number: ReplicaNo,
    ) -> Result<SqlArchive<FileStore<D>>, (StoreFault, Files<D>)>
        requires log { IsTrue (D.Disk.is_usable files.log) }
        requires db { IsTrue (D.Disk.is_usable files.db) }
        ensures own { IfOk result (IsBegun id number) }
        ensures resumed { IfOk result (λ a. HasCleanDisk (file_state a.conn) → Resumes
            (image_of D.Disk files) id number (content_in (file_state a.conn).now.trees)) }
        ensures told { IfErr result (λ e. e.0 ≢ StoreFault.Broken) }
        ensures wrong { IfErr result (λ e. HaveCleanDisks D.Disk e.1 → IsOfOpening e.0
            → IsAnothers (image_of D.Disk files) id number e.0) }
        ensures left { IfErr result (λ e. HaveCleanDisks D.Disk e.1 → EngineLeaves D.Disk files e.1
            ⊎ KeepsFound (image_of D.Disk files) id number (image_of D.Disk e.1)) }
    {
        match Connection::open_files(alloc, files, options) {
            Ok(conn) => match start(alloc, conn, id, number) {
                Ok(archive) => Ok(archive),
                Err((fault, conn)) => Err((as_told(fault), files_of(conn))),
            },
            Err((error, left)) => Err((refusal_of(error), left.into_files())),
        }
    }

    /// Copies the log into the database file and gives the files back, which then hold the tables of what the
    /// archive held, and may be opened again. Where that fails they come back as an error, as they are; so do
    /// those of an archive that is broken, which hold what a crash could leave, and that is what an opening finds.
    pub fn close_files(self) -> Result<Files<D>, Files<D>>
        ensures usable { IfOk result (λ files. IsTrue (D.Disk.is_usable files.log)
            × IsTrue (D.Disk.is_usable files.db)) }
        ensures held { self.broken ≡ false → IfOk result (λ files. HaveCleanDisks D.Disk files
            → ∥ ((db : Trees) × HoldsDatabase (image_of D.Disk files) db
            × HoldsContent self.id self.number db
            (content_in (file_state self.conn).now.trees)) ∥₁) }
        ensures kept { self.broken ≡ false → IfOk result (λ files. HaveCleanDisks D.Disk files
            → ResumesOnly (image_of D.Disk files) (content_in (file_state self.conn).now.trees)) }
        ensures behind { self.broken ≡ true → HaveCleanDisks D.Disk (given_back result) → HoldsLeft
            (image_of D.Disk (given_back result)) (file_state self.conn) self.id self.number }
        ensures among { self.broken ≡ true → HaveCleanDisks D.Disk (given_back result)
            → ResumesAmong (image_of D.Disk (given_back result)) (file_state self.conn).may_leave }
    {
        if self.is_broken() {
            return Err(self.into_files());
        }
        self.tables_stand();
        let conn = self.into_connection();
        let _schema = conn.schema();
        match conn.close_files() {
            Ok(files) => Ok(files),
            Err((_, store)) => Err(store.close()),
        }
    }

    /// Gives the files back as they are, also those of an archive that is broken: they hold what a crash
    /// could leave, which is a store of this archive and replica, and that is what an opening finds.
    pub fn into_files(self) -> Files<D>
        ensures held { HaveCleanDisks D.Disk result
            → HoldsLeft (image_of D.Disk result) (file_state self.conn) self.id self.number }
        ensures among { HaveCleanDisks D.Disk result
            → ResumesAmong (image_of D.Disk result) (file_state self.conn).may_leave }
    {
        self.tables_stand();
        files_of(self.into_connection())
    }
}

impl<T: Start> SqlArchive<FileStore<FileFrom<T>>> {
    /// Opens the archive of this id and replica in the file at a path, with its log beside it, as
    /// `open_files` does; `start` stands for what the two files hold. No file there is an empty one. One
    /// process at a time opens it: another one is refused. A refusal gives the files back, where they were
    /// opened.
    pub fn open_from(
        rt: &HostRuntime,
        path: &str,
        start_of: T,
        id: Uuid,
        number: ReplicaNo,
    ) -> Result<SqlArchive<FileStore<FileFrom<T>>>, (StoreFault, Option<Files<FileFrom<T>>>)>
        ensures own { IfOk result (IsBegun id number) }
        ensures resumed { IfOk result (λ a. HasCleanDisk (file_state a.conn)
            → Resumes (image_at T.Start) id number (content_in (file_state a.conn).now.trees)) }
        ensures told { IfErr result (λ e. e.0 ≢ StoreFault.Broken) }
        ensures wrong { IfErr result (λ e. IsOfOpening e.0
            → IsSomeAnd e.1 (λ files. HaveCleanDisks ⟦<FileFrom<T> as Disk>⟧ files
            → IsAnothers (image_at T.Start) id number e.0)) }
        ensures left { IfErr result (λ e. IfSome e.1 (λ left.
            HaveCleanDisks ⟦<FileFrom<T> as Disk>⟧ left
            → ((files : _) × IsFresh true files.log × IsFresh false files.db
            × EngineLeaves ⟦<FileFrom<T> as Disk>⟧ files left)
            ⊎ KeepsFound (image_at T.Start) id number (image_of ⟦<FileFrom<T> as Disk>⟧ left))) }
    {
        match Connection::open_from(rt, path, false, start_of) {
            Ok(conn) => match start(rt.alloc(), conn, id, number) {
                Ok(archive) => Ok(archive),
                Err((fault, conn)) => Err((as_told(fault), Some(files_of(conn)))),
            },
            Err((error, left)) => match left {
                Some(left) => Err((refusal_of(error), Some(left.into_files()))),
                None => Err((refusal_of(error), None)),
            },
        }
    }
}

impl SqlArchive<FileStore<File>> {
    /// `open_from` of files of which nothing is said.
    pub fn open(
        rt: &HostRuntime,
        path: &str,
        id: Uuid,
        number: ReplicaNo,
    ) -> Result<FileArchive, StoreFault>
        ensures own { IfOk result (IsBegun id number) }
        ensures told { IfErr result (λ e. e ≢ StoreFault.Broken) }
    {
        match SqlArchive::open_from(rt, path, Unknown, id, number) {
            Ok(archive) => Ok(archive),
            Err((fault, _)) => Err(fault),
        }
    }
}
