//! The machine around a run: its files, its stores, and its network.

ghost use Rattle.std.specs.Prelude.{◌≡◌, true, Option, IfOk, option_map, string_bytes};
ghost use Rattle.archive.specs.Beginning.{HoldsNothing};
ghost use Rattle.ua_server.specs.Host.{Machine};

use crate::listening::Listening;
use archive::{Archive, StoreFault};
use conversation::Door;
use counted_io::Counted;
use multiplex::Source;
use stamp::ReplicaNo;
use std::io::{Read, Write};
use std::net::SocketAddr;
use ua_settings::Settings;
use uuid::Uuid;

/// Whose archive a store holds, and how it is kept.
#[derive(Clone, Copy, Debug)]
pub struct StoreTerms {
    /// The id of the archive.
    pub archive: Uuid,
    /// The number of the replica.
    pub replica: ReplicaNo,
    /// Whether it has an index of live values.
    pub is_indexed: bool,
    /// Whether it is told how far what takes long has come, as events are told.
    pub tells_progress: bool,
}

impl StoreTerms {
    ghost use Rattle.std.specs.Prelude.{◌≡◌};
    ghost use Rattle.ua_server.specs.Host.{store_terms};

    /// By which terms the store of these settings is opened.
    pub(crate) fn of(settings: &Settings) -> StoreTerms
        ensures { result ≡ store_terms settings.now }
    {
        StoreTerms {
            archive: settings.archive(),
            replica: settings.replica(),
            is_indexed: settings.is_indexed(),
            tells_progress: settings.tells_events(),
        }
    }
}

/// What a run asks of the machine that it runs on.
pub trait Host {
    /// What it keeps an archive in.
    type Archive: Archive + Drop;

    /// What gives the connections to an address.
    type Source: Source + Drop;

    /// What a peer that was called writes.
    type Reader: Read + Drop;

    /// What a peer that was called reads.
    type Writer: Write + Drop;

    /// A file of rows that is read.
    type Rows: Read + Drop;

    /// What it does in each of the calls below.
    ghost means: { Machine Self Self.Archive Self.Source Self.Reader Self.Writer Self.Rows };

    /// The text of the file at a path; none where it can't be read as UTF-8.
    fn read(&mut self, path: &str) -> Option<String>
        ensures { means.reads self.old path.now (option_map string_bytes result) self.new };

    /// The mode of the file at a path, as Unix has it: who may read and write it; none where it can't be told.
    fn mode(&self, path: &str) -> Option<u32>
        ensures { means.modes self.now path.now result };

    /// The file of rows at a path, to be read from its beginning; none where it can't be opened.
    fn open_rows(&mut self, path: &str) -> Option<Self::Rows>
        ensures { means.opens_rows self.old path.now result self.new };

    /// Whether a store stands at a path, or its log alone.
    fn has_store(&self, path: &str) -> bool
        ensures { means.stands self.now path.now result };

    /// The archive that the file at a path holds, by these terms.
    fn open_file(&mut self, path: &str, terms: StoreTerms) -> Result<Self::Archive, StoreFault>
        ensures { means.opens self.old path.now terms result self.new };

    /// An archive in memory by these terms, which holds nothing. No file is opened.
    fn open_in_memory(&self, terms: StoreTerms) -> Result<Self::Archive, StoreFault>
        ensures begins { means.opens_in_memory self.now terms result }
        ensures empty { IfOk result (λ first.
            HoldsNothing terms.archive terms.replica (Self.Archive.state first)) };

    /// An archive by these terms that is broken.
    fn open_broken(&mut self, terms: StoreTerms) -> Result<Self::Archive, StoreFault>
        ensures opens { means.opens_broken self.old terms result self.new }
        ensures broken { IfOk result (λ archive. (Self.Archive.state archive).broken ≡ true) };

    /// Closes an archive.
    fn close(&mut self, archive: Self::Archive)
        ensures { means.closes self.old archive self.new };

    /// What gives the connections that come to these addresses, and begins the calls when they are due; or the door whose
    /// address can't be listened at. The listener of each address has the number of its door (`Door::listener`).
    fn listen(&mut self, listening: &Listening) -> Result<Self::Source, Door>
        ensures { means.listens self.old listening.now result self.new };

    /// A connection with the peer at the address; none where it can't be had.
    fn call(&mut self, address: SocketAddr) -> Option<(Self::Reader, Self::Writer)>
        ensures { means.calls self.old address result self.new };

    /// Takes back a connection with a peer that is over.
    fn part(&mut self, reader: Counted<Self::Reader>, writer: Counted<Self::Writer>)
        ensures { means.parts self.old reader writer self.new };
}
