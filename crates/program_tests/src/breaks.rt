//! A store that breaks while it is served: the program goes on, ends, or opens it anew.

ghost use Rattle.ua_server.specs.Host.{unknown_machine};

use archive::{Archive, Failure, ScriptedArchive, StoreFault};
use server_rows::ends::{Narrow, Slow};
use server_rows::network::{Client, Clients};
use std::alloc::Global;
use std::net::SocketAddr;
use ua_server::{ConstantClock, Counted, Door, Host, Listening, StoreTerms, report, run};

/// A peer that asks for all records, and hangs up behind the answer.
const PEER: Option<Client<'static>> = Some(Client {
    bytes: b"RXVF\x1b\0\0\0\x02\0\0\0\0\0\0\0\0\0\0\0\0\0\0\0\0\x02\0",
    breaks: false,
    room: 1000,
});

/// Two of them: the second one's question is read in the turn behind that in which the first one is answered.
static PEERS: [Option<Client<'static>>; 2] = [PEER, PEER];

/// The settings of this name.
static FILES: [(&str, &str); 6] = [
    (
        "goes on",
        "[archive]\nid = '00000000000000000000000000000000'\nreplica = 1\nstore = 'own.db'\n[server]\nlisten = '127.0.0.1:4840'\nurl = ''\napplication = ''\nnamespace = ''\nanonymous = true\n",
    ),
    (
        "stops",
        "[archive]\nid = '00000000000000000000000000000000'\nreplica = 1\nstore = 'own.db'\nbroken = 'stop'\n[server]\nlisten = '127.0.0.1:4840'\nurl = ''\napplication = ''\nnamespace = ''\nanonymous = true\n",
    ),
    (
        "opens anew",
        "[archive]\nid = '00000000000000000000000000000000'\nreplica = 1\nstore = 'own.db'\nbroken = 'reopen'\n[server]\nlisten = '127.0.0.1:4840'\nurl = ''\napplication = ''\nnamespace = ''\nanonymous = true\n",
    ),
    (
        "tells",
        "[archive]\nid = '00000000000000000000000000000000'\nreplica = 1\nstore = 'own.db'\n[server]\nlisten = '127.0.0.1:4840'\nurl = ''\napplication = ''\nnamespace = ''\nanonymous = true\n[log]\nevents = true\n",
    ),
    (
        "tells and stops",
        "[archive]\nid = '00000000000000000000000000000000'\nreplica = 1\nstore = 'own.db'\nbroken = 'stop'\n[server]\nlisten = '127.0.0.1:4840'\nurl = ''\napplication = ''\nnamespace = ''\nanonymous = true\n[log]\nevents = true\n",
    ),
    (
        "in memory",
        "[archive]\nid = '00000000000000000000000000000000'\nreplica = 1\nbroken = 'reopen'\n[server]\nlisten = '127.0.0.1:4840'\nurl = ''\napplication = ''\nnamespace = ''\nanonymous = true\n",
    ),
];

/// What is served by the settings of a name, and what comes of it.
struct Row {
    settings: &'static str,
    /// For each opening of the file the call at which its archive breaks, 0 for none; none where it is refused.
    openings: &'static [Option<u64>],
    said: &'static str,
    status: u8,
    /// Of each archive that was closed whether it was broken, and whether it was asked for records: one that breaks at its first
    /// call never is.
    closed: &'static [(bool, bool)],
}

static ROWS: [Row; 9] = [
    Row {
        settings: "goes on",
        openings: &[Some(1)],
        said: "",
        status: 0,
        closed: &[(true, false)],
    },
    Row {
        settings: "tells",
        openings: &[Some(1)],
        said: "uahist: 1970-01-01T00:00:00.0000000Z started: version 0.1.0, archive 00000000-0000-0000-0000-000000000000, replica 1; clients and peers at 127.0.0.1:4840\nuahist: 1970-01-01T00:00:00.0000000Z store broken\nuahist: 1970-01-01T00:00:00.0000000Z somebody connected to clients and peers\nuahist: 1970-01-01T00:00:00.0000000Z somebody connected to clients and peers\nuahist: 1970-01-01T00:00:00.0000000Z somebody ended after 0 ms and 1 answer: exchange ended (6)\nuahist: 1970-01-01T00:00:00.0000000Z somebody ended after 0 ms and 1 answer: exchange ended (6)\n",
        status: 0,
        closed: &[(true, false), (true, false)],
    },
    Row {
        settings: "tells",
        openings: &[Some(2)],
        said: "uahist: 1970-01-01T00:00:00.0000000Z started: version 0.1.0, archive 00000000-0000-0000-0000-000000000000, replica 1; clients and peers at 127.0.0.1:4840; 0 records\nuahist: 1970-01-01T00:00:00.0000000Z somebody connected to clients and peers\nuahist: 1970-01-01T00:00:00.0000000Z somebody connected to clients and peers\nuahist: 1970-01-01T00:00:00.0000000Z store broken\nuahist: 1970-01-01T00:00:00.0000000Z somebody ended after 0 ms and 1 answer: exchange ended (6)\nuahist: 1970-01-01T00:00:00.0000000Z somebody ended after 0 ms and 1 answer: exchange ended (6)\n",
        status: 0,
        closed: &[(true, false), (true, false)],
    },
    Row {
        settings: "tells and stops",
        openings: &[Some(2)],
        said: "uahist: 1970-01-01T00:00:00.0000000Z started: version 0.1.0, archive 00000000-0000-0000-0000-000000000000, replica 1; clients and peers at 127.0.0.1:4840; 0 records\nuahist: 1970-01-01T00:00:00.0000000Z somebody connected to clients and peers\nuahist: 1970-01-01T00:00:00.0000000Z somebody connected to clients and peers\nuahist: store broken\n",
        status: 3,
        closed: &[(true, false)],
    },
    Row {
        settings: "stops",
        openings: &[Some(1), Some(0)],
        said: "uahist: store broken\n",
        status: 3,
        closed: &[(true, false)],
    },
    Row {
        settings: "opens anew",
        openings: &[Some(1), Some(0)],
        said: "uahist: store broken, opened anew\n",
        status: 0,
        closed: &[(true, false), (false, true)],
    },
    Row {
        settings: "opens anew",
        openings: &[Some(1), Some(1), Some(0)],
        said: "uahist: store broken, opened anew\nuahist: store broken\n",
        status: 3,
        closed: &[(true, false), (true, false)],
    },
    Row {
        settings: "opens anew",
        openings: &[Some(1), None],
        said: "uahist: store refused (2)\n",
        status: 3,
        closed: &[(true, false), (false, false)],
    },
    Row {
        settings: "in memory",
        openings: &[],
        said: "uahist: store broken\n",
        status: 3,
        closed: &[(true, false)],
    },
];

/// A machine to which two peers come, and whose archives break: those of the file as a row says, one in memory at its first
/// call, and one that is broken before.
#[derive(Drop)]
struct Machine {
    alloc: Global,
    openings: &'static [Option<u64>],
    opened: usize,
    closed: Vec<(bool, bool)>,
}

impl Host for Machine {
    type Archive = ScriptedArchive;

    type Source = Clients<'static>;

    type Reader = Slow<'static>;

    type Writer = Narrow;

    type Rows = &'static [u8];

    ghost means = { unknown_machine };

    fn read(&mut self, path: &str) -> Option<String> {
        let (_, text) = FILES.iter().find(|(name, _)| *name == path)?;
        String::from_str(self.alloc, text).ok()
    }

    fn mode(&self, _path: &str) -> Option<u32> {
        None
    }

    fn open_rows(&mut self, _path: &str) -> Option<&'static [u8]> {
        None
    }

    fn has_store(&self, _path: &str) -> bool {
        true
    }

    fn open_file(&mut self, _path: &str, terms: StoreTerms) -> Result<ScriptedArchive, StoreFault> {
        let opening = self.openings.get(self.opened);
        self.opened = self.opened.saturating_add(1);
        match opening {
            Some(Some(call)) => Ok(ScriptedArchive::new(
                self.alloc,
                terms.archive,
                terms.replica,
                *call,
                Failure::BrokenBefore,
            )),
            Some(None) | None => Err(StoreFault::Refused),
        }
    }

    fn open_in_memory(&self, terms: StoreTerms) -> Result<ScriptedArchive, StoreFault> {
        Ok(ScriptedArchive::new(
            self.alloc,
            terms.archive,
            terms.replica,
            1,
            Failure::BrokenBefore,
        ))
    }

    fn open_broken(&mut self, terms: StoreTerms) -> Result<ScriptedArchive, StoreFault> {
        let mut archive = ScriptedArchive::new(
            self.alloc,
            terms.archive,
            terms.replica,
            1,
            Failure::BrokenBefore,
        );
        let _ = archive.top();
        if archive.is_broken() {
            Ok(archive)
        } else {
            Err(StoreFault::Refused)
        }
    }

    fn close(&mut self, archive: ScriptedArchive) {
        let was = (archive.is_broken(), archive.greatest_limit() > 0);
        drop(archive);
        let _ = self.closed.push(was);
    }

    fn listen(&mut self, _listening: &Listening) -> Result<Clients<'static>, Door> {
        Ok(Clients::new(self.alloc, &PEERS))
    }

    fn call(&mut self, _address: SocketAddr) -> Option<(Slow<'static>, Narrow)> {
        None
    }

    fn part(&mut self, reader: Counted<Slow<'static>>, writer: Counted<Narrow>)
        ensures { Unit {0} }
    {
        drop(reader);
        drop(writer);
    }
}

/// Whether a row's run comes to what it says, once two connections were accepted.
fn is_as_said(alloc: Global, row: &Row) -> bool {
    let words = [
        "uahist",
        "serve",
        "--connections",
        "2",
        "--settings",
        row.settings,
    ];
    let mut machine = Machine {
        alloc,
        openings: row.openings,
        opened: 0,
        closed: Vec::new(alloc),
    };
    let none: &[u8] = b"";
    let mut reader = Counted::new(none);
    let mut writer = Counted::new(Narrow {
        bytes: Vec::new(alloc),
        room: 0,
    });
    let mut ran = run(
        alloc,
        &words,
        &mut machine,
        ConstantClock(116_444_736_000_000_000),
        &mut reader,
        &mut writer,
        Counted::new(Vec::new(alloc)),
    );
    report(ran.ending, &mut ran.errors) == row.status
        && ran.errors.into_inner().as_slice() == row.said.as_bytes()
        && machine.closed.as_slice() == row.closed
}

#[test]
fn a_store_that_breaks_is_left_or_opened_anew_as_the_settings_say(rt: HostRuntime) {
    for row in &ROWS {
        assert!(rt; is_as_said(rt.alloc(), row), "{}", row.said);
    }
}
