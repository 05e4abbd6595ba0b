//! Command lines, settings files and what runs print.

ghost use Rattle.ua_server.specs.Host.{unknown_machine};

use archive::{ListArchive, StoreFault};
use server_rows::ends::{Narrow, Slow};
use server_rows::network::{Client, Clients};
use std::alloc::Global;
use std::net::SocketAddr;
use ua_client::ClientFault;
use ua_server::{
    Asked, ConstantClock, Counted, Door, HistoryWords, Host, ImportWords, Line, LineFault,
    Listening, PerformWord, ProgramFault, ServeFault, StoreTerms, SyncWords, read_line, report,
    run,
};
use ua_settings::SettingsFault;

/// Command lines, and what they are.
static LINES: [(&[&str], Result<Line<'static>, LineFault>); 69] = [
    (
        &[
            "uahist",
            "sync",
            "--settings",
            "plant.toml",
            "--peer",
            "10.0.0.2:4840",
        ],
        Ok(Line::Sync {
            settings: "plant.toml",
            asked: SyncWords {
                peer: "10.0.0.2:4840",
                check: false,
                verify: false,
            },
        }),
    ),
    (
        &["uahist", "sync", "--check", "--settings=a", "--peer=b"],
        Ok(Line::Sync {
            settings: "a",
            asked: SyncWords {
                peer: "b",
                check: true,
                verify: false,
            },
        }),
    ),
    (
        &["uahist", "sync", "--peer=b", "--verify", "--settings=a"],
        Ok(Line::Sync {
            settings: "a",
            asked: SyncWords {
                peer: "b",
                check: false,
                verify: true,
            },
        }),
    ),
    (
        &["uahist", "sync", "--settings=a", "--peer=b", "--verify=no"],
        Err(LineFault::Words),
    ),
    (
        &["uahist", "sync", "--settings=a", "--peer=b", "--check=yes"],
        Err(LineFault::Words),
    ),
    (&["uahist", "sync"], Err(LineFault::Words)),
    (
        &["uahist", "sync", "--settings", "a"],
        Err(LineFault::Words),
    ),
    (
        &["uahist", "sync", "--peer", "10.0.0.2:4840"],
        Err(LineFault::Words),
    ),
    (
        &["uahist", "dump", "--settings", "plant.toml"],
        Ok(Line::Dump {
            settings: "plant.toml",
        }),
    ),
    (&["uahist", "dump"], Err(LineFault::Words)),
    (
        &["uahist", "dump", "--settings", "a", "--hex"],
        Err(LineFault::Words),
    ),
    (
        &["uahist", "history", "--settings=a", "--node", "ns=1;s=T"],
        Ok(Line::History {
            settings: "a",
            asked: HistoryWords {
                node: "ns=1;s=T",
                from: None,
                to: None,
                changes: false,
                csv: false,
                html: false,
            },
        }),
    ),
    (
        &[
            "uahist",
            "history",
            "--node=i=1",
            "--csv",
            "--to",
            "then",
            "--changes",
            "--from=now",
            "--settings",
            "a",
        ],
        Ok(Line::History {
            settings: "a",
            asked: HistoryWords {
                node: "i=1",
                from: Some("now"),
                to: Some("then"),
                changes: true,
                csv: true,
                html: false,
            },
        }),
    ),
    (
        &["uahist", "history", "--html", "--node=i=1", "--settings=a"],
        Ok(Line::History {
            settings: "a",
            asked: HistoryWords {
                node: "i=1",
                from: None,
                to: None,
                changes: false,
                csv: false,
                html: true,
            },
        }),
    ),
    (
        &["uahist", "check", "--settings", "a"],
        Ok(Line::Check {
            settings: "a",
            store: false,
        }),
    ),
    (
        &["uahist", "check", "--store", "--settings", "a"],
        Ok(Line::Check {
            settings: "a",
            store: true,
        }),
    ),
    (&["uahist", "check"], Err(LineFault::Words)),
    (
        &["uahist", "history", "--settings", "a"],
        Err(LineFault::Words),
    ),
    (
        &["uahist", "history", "--node", "i=1"],
        Err(LineFault::Words),
    ),
    (
        &["uahist", "import", "--settings=a", "--user", "ann"],
        Ok(Line::Import {
            settings: "a",
            asked: ImportWords {
                user: "ann",
                perform: PerformWord::Insert,
                server: None,
                file: None,
            },
        }),
    ),
    (
        &[
            "uahist",
            "import",
            "--user=ann",
            "--perform",
            "replace",
            "--settings",
            "a",
        ],
        Ok(Line::Import {
            settings: "a",
            asked: ImportWords {
                user: "ann",
                perform: PerformWord::Replace,
                server: None,
                file: None,
            },
        }),
    ),
    (
        &[
            "uahist",
            "import",
            "--user=ann",
            "--perform=update",
            "--server",
            "127.0.0.1:4840",
            "--settings=a",
        ],
        Ok(Line::Import {
            settings: "a",
            asked: ImportWords {
                user: "ann",
                perform: PerformWord::Update,
                server: Some("127.0.0.1:4840"),
                file: None,
            },
        }),
    ),
    (
        &[
            "uahist",
            "import",
            "--settings=a",
            "--user=ann",
            "--server=b",
            "rows.csv",
        ],
        Ok(Line::Import {
            settings: "a",
            asked: ImportWords {
                user: "ann",
                perform: PerformWord::Insert,
                server: Some("b"),
                file: Some("rows.csv"),
            },
        }),
    ),
    (
        &["uahist", "import", "rows.csv", "--user=ann", "--settings=a"],
        Ok(Line::Import {
            settings: "a",
            asked: ImportWords {
                user: "ann",
                perform: PerformWord::Insert,
                server: None,
                file: Some("rows.csv"),
            },
        }),
    ),
    (
        &["uahist", "import", "--settings=a", "--user=ann", "-"],
        Ok(Line::Import {
            settings: "a",
            asked: ImportWords {
                user: "ann",
                perform: PerformWord::Insert,
                server: None,
                file: None,
            },
        }),
    ),
    (
        &["uahist", "import", "--settings=a", "--user=ann", "--", "-b"],
        Ok(Line::Import {
            settings: "a",
            asked: ImportWords {
                user: "ann",
                perform: PerformWord::Insert,
                server: None,
                file: Some("-b"),
            },
        }),
    ),
    (
        &[
            "uahist",
            "import",
            "--settings=a",
            "--user=ann",
            "rows.csv",
            "more.csv",
        ],
        Err(LineFault::Words),
    ),
    (
        &["uahist", "import", "--settings", "a"],
        Err(LineFault::Words),
    ),
    (
        &["uahist", "import", "--user", "ann"],
        Err(LineFault::Words),
    ),
    (
        &[
            "uahist",
            "import",
            "--settings=a",
            "--user=ann",
            "--perform",
            "delete",
        ],
        Err(LineFault::Words),
    ),
    (
        &["uahist", "answer"],
        Ok(Line::Answer {
            settings: None,
            hex: false,
            now: None,
        }),
    ),
    (
        &["uahist", "answer", "--hex"],
        Ok(Line::Answer {
            settings: None,
            hex: true,
            now: None,
        }),
    ),
    (
        &["uahist", "answer", "--now", "0"],
        Ok(Line::Answer {
            settings: None,
            hex: false,
            now: Some(0),
        }),
    ),
    (
        &["uahist", "answer", "--now=5"],
        Ok(Line::Answer {
            settings: None,
            hex: false,
            now: Some(5),
        }),
    ),
    (
        &["uahist", "answer", "--now", "116444736000000000", "--hex"],
        Ok(Line::Answer {
            settings: None,
            hex: true,
            now: Some(116_444_736_000_000_000),
        }),
    ),
    (
        &["uahist", "answer", "--now", "9223372036854775807"],
        Ok(Line::Answer {
            settings: None,
            hex: false,
            now: Some(i64::MAX),
        }),
    ),
    (
        &["uahist", "answer", "--now", "9223372036854775808"],
        Err(LineFault::Words),
    ),
    (&["uahist", "answer", "--now=-1"], Err(LineFault::Words)),
    (
        &["uahist", "answer", "--settings", "plant.toml", "--hex"],
        Ok(Line::Answer {
            settings: Some("plant.toml"),
            hex: true,
            now: None,
        }),
    ),
    (&["uahist", "answer", "--settings"], Err(LineFault::Words)),
    (
        &["uahist", "answer", "--settings=a", "--settings=b"],
        Err(LineFault::Words),
    ),
    (&["uahist", "answer", "--now", "5x"], Err(LineFault::Words)),
    (&["uahist", "answer", "--now"], Err(LineFault::Words)),
    (
        &["uahist", "answer", "--now", "5", "--now", "6"],
        Err(LineFault::Words),
    ),
    (&[], Err(LineFault::Words)),
    (&["uahist"], Err(LineFault::Words)),
    (&["uahist", "dump"], Err(LineFault::Words)),
    (&["uahist", "answer", "--hex=1"], Err(LineFault::Words)),
    (&["uahist", "answer", "more"], Err(LineFault::Words)),
    (
        &["uahist", "answer", "--hex", "--hex"],
        Err(LineFault::Words),
    ),
    (
        &["uahist", "serve", "--settings", "plant.toml"],
        Ok(Line::Serve {
            settings: "plant.toml",
            connections: u32::MAX,
        }),
    ),
    (
        &[
            "uahist",
            "serve",
            "--connections",
            "4294967295",
            "--settings=a",
        ],
        Ok(Line::Serve {
            settings: "a",
            connections: u32::MAX,
        }),
    ),
    (
        &["uahist", "serve", "--settings", "a", "--connections", "1"],
        Ok(Line::Serve {
            settings: "a",
            connections: 1,
        }),
    ),
    (&["uahist", "serve"], Err(LineFault::Words)),
    (
        &["uahist", "serve", "--connections", "1"],
        Err(LineFault::Words),
    ),
    (
        &["uahist", "serve", "--settings", "a", "--connections", "0"],
        Err(LineFault::Words),
    ),
    (
        &[
            "uahist",
            "serve",
            "--settings=a",
            "--connections=4294967296",
        ],
        Err(LineFault::Words),
    ),
    (
        &["uahist", "serve", "--settings", "a", "--hex"],
        Err(LineFault::Words),
    ),
    (
        &["uahist", "answer", "--connections", "1"],
        Err(LineFault::Words),
    ),
    (&["uahist", "show"], Err(LineFault::Words)),
    (
        &["uahist", "check", "--settings=a", "--settings=b"],
        Err(LineFault::Words),
    ),
    (
        &["uahist", "check", "--settings=a", "--store=yes"],
        Err(LineFault::Words),
    ),
    (
        &["uahist", "check", "--settings=a", "--node=i=1"],
        Err(LineFault::Words),
    ),
    (
        &["uahist", "history", "--settings=a", "--node=i=1", "--csv=1"],
        Err(LineFault::Words),
    ),
    (
        &["uahist", "history", "--settings=a", "--node=i=1", "--to"],
        Err(LineFault::Words),
    ),
    (
        &["uahist", "history", "--settings=a", "i=1"],
        Err(LineFault::Words),
    ),
    (
        &[
            "uahist",
            "import",
            "--settings=a",
            "--user=ann",
            "--user=ben",
        ],
        Err(LineFault::Words),
    ),
    (
        &["uahist", "import", "--settings=a", "--user=ann", "--csv"],
        Err(LineFault::Words),
    ),
    (
        &["uahist", "import", "--settings=a", "--user=ann", "--server"],
        Err(LineFault::Words),
    ),
];

/// Whether a line asks for this, or is refused so.
fn is_read(alloc: Global, words: &[&str], want: Result<Line<'static>, LineFault>) -> bool {
    match read_line(alloc, words) {
        Ok(Asked::Work(line)) => want == Ok(line),
        Ok(Asked::Text(_)) => false,
        Err(fault) => want == Err(fault),
    }
}

#[test]
fn reads_lines(rt: HostRuntime) {
    for (at, (words, want)) in LINES.iter().enumerate() {
        assert!(rt; is_read(rt.alloc(), words, *want), "{at}");
    }
}

/// What is said of words that are no command.
const USAGE: &str =
    "uahist: usage: uahist answer [--settings FILE] [--hex] [--now N] | serve --settings FILE [--connections N] | dump --settings FILE | sync --settings FILE --peer ADDRESS [--check] [--verify] | history --settings FILE --node ID [--from T] [--to T] [--changes] [--csv] [--html] | import --settings FILE --user NAME [--perform insert|replace|update] [--server ADDRESS] [FILE.csv] | check --settings FILE [--store]\n";

/// Command lines, the input, the room of the output, what it has then, what is said, and the exit status.
static RUNS: [(&[&str], &[u8], usize, &str, &str, u8); 57] = [
    (&["uahist", "--version"], b"", 1000, "uahist 0.1.0\n", "", 0),
    (
        &["uahist", "--version"],
        b"",
        3,
        "uah",
        "uahist: connection ended (2)\n",
        1,
    ),
    (
        &["uahist", "serve", "-V"],
        b"",
        1000,
        "uahist-serve 0.1.0\n",
        "",
        0,
    ),
    (
        &["uahist", "--help"],
        b"",
        9000,
        "An OPC UA historian whose archive lives on several machines\n\nUsage: uahist [COMMAND]\n",
        "",
        0,
    ),
    (
        &["uahist", "help", "sync"],
        b"",
        9000,
        "Calls a peer and exchanges records with it\n\nUsage: uahist sync [OPTIONS] --settings <FILE> --peer <ADDRESS>\n",
        "",
        0,
    ),
    (
        &["uahist", "serve", "-h"],
        b"",
        9000,
        "Serves clients and peers over TCP\n\nUsage: uahist serve [OPTIONS] --settings <FILE>\n",
        "",
        0,
    ),
    (
        &[
            "uahist",
            "sync",
            "--settings",
            "good",
            "--peer",
            "127.0.0.1:4842",
        ],
        b"",
        1000,
        "learned 0 sent 0\n",
        "",
        0,
    ),
    (
        &[
            "uahist",
            "sync",
            "--settings",
            "good",
            "--peer",
            "127.0.0.1:4842",
        ],
        b"",
        5,
        "learn",
        "uahist: connection ended (2)\n",
        1,
    ),
    (
        &["uahist", "sync", "--settings", "good", "--peer", "plant"],
        b"",
        1000,
        "",
        "uahist: address refused\n",
        1,
    ),
    (
        &[
            "uahist",
            "sync",
            "--settings",
            "good",
            "--peer",
            "127.0.0.1:4841",
        ],
        b"",
        1000,
        "",
        "uahist: address refused\n",
        1,
    ),
    (
        &[
            "uahist",
            "sync",
            "--settings",
            "good",
            "--peer",
            "127.0.0.1:4840",
        ],
        b"",
        1000,
        "",
        "uahist: exchange ended (1)\n",
        1,
    ),
    (
        &[
            "uahist",
            "sync",
            "--settings",
            "good",
            "--peer",
            "127.0.0.1:4843",
        ],
        b"",
        1000,
        "",
        "uahist: exchange ended (123456789)\n",
        1,
    ),
    (
        &["uahist", "answer", "--hex"],
        b"525856461B00000002000000000000000000000000000000000200",
        1000,
        "525844461F0000000200000000000000000000000000000000010000000000\n",
        "",
        0,
    ),
    (
        &["uahist", "dump", "--settings", "unmade"],
        b"",
        1000,
        "",
        "",
        0,
    ),
    (
        &["uahist", "answer", "--settings", "unmade"],
        b"",
        1000,
        "",
        "uahist: store refused (2)\n",
        3,
    ),
    (
        &["uahist", "dump", "--settings", "good"],
        b"",
        1000,
        "",
        "",
        0,
    ),
    (
        &["uahist", "dump", "--settings", "kept"],
        b"",
        1000,
        "",
        "",
        0,
    ),
    (
        &["uahist", "dump", "--settings", "others"],
        b"",
        1000,
        "",
        "uahist: store refused (4)\n",
        3,
    ),
    (
        &["uahist", "answer", "--settings", "others", "--hex"],
        b"4G",
        1000,
        "",
        "uahist: store refused (4)\n",
        3,
    ),
    (
        &["uahist", "answer", "--hex"],
        b"474554202F000000",
        1000,
        "455252461000000000007E80FFFFFFFF\n",
        "",
        0,
    ),
    (&["uahist", "answer", "--hex"], b"", 1000, "\n", "", 0),
    (
        &["uahist", "answer"],
        b"GET /\0\0\0",
        1000,
        "ERRF\x10\0\0\0",
        "",
        0,
    ),
    (
        &["uahist", "answer", "--hex"],
        b"4G",
        1000,
        "",
        "uahist: bad hex\n",
        2,
    ),
    (
        &["uahist", "answer", "--hex"],
        b"48\xFF",
        1000,
        "",
        "uahist: bad hex\n",
        2,
    ),
    (
        &["uahist", "answer", "--hex"],
        b"474554202F000000",
        5,
        "45525",
        "uahist: connection ended (2)\n",
        1,
    ),
    (&["uahist", "serve"], b"", 1000, "", USAGE, 2),
    (
        &["uahist", "answer", "--settings", "good", "--hex"],
        b"474554202F000000",
        1000,
        "455252461000000000007E80FFFFFFFF\n",
        "",
        0,
    ),
    (
        &["uahist", "answer", "--settings", "none", "--hex"],
        b"4G",
        1000,
        "",
        "uahist: settings file can't be read\n",
        2,
    ),
    (
        &["uahist", "answer", "--settings", "short", "--hex"],
        b"4G",
        1000,
        "",
        "uahist: settings refused (2)\nuahist: [server] namespace\n",
        2,
    ),
    (
        &["uahist", "answer", "--settings", "cut", "--hex"],
        b"4G",
        1000,
        "",
        "uahist: settings refused (1)\nuahist: line 6\n",
        2,
    ),
    (
        &["uahist", "answer", "--settings", "good", "--hex"],
        b"4G",
        1000,
        "",
        "uahist: bad hex\n",
        2,
    ),
    (
        &["uahist", "serve", "--settings", "none"],
        b"",
        1000,
        "",
        "uahist: settings file can't be read\n",
        2,
    ),
    (
        &["uahist", "serve", "--settings", "short"],
        b"",
        1000,
        "",
        "uahist: settings refused (2)\nuahist: [server] namespace\n",
        2,
    ),
    (
        &["uahist", "serve", "--settings", "good"],
        b"",
        1000,
        "",
        "uahist: address refused\n",
        1,
    ),
    (
        &["uahist", "serve", "--settings", "busy"],
        b"",
        1000,
        "",
        "uahist: address refused\n",
        1,
    ),
    (
        &[
            "uahist",
            "serve",
            "--settings",
            "open",
            "--connections",
            "3",
        ],
        b"",
        1000,
        "",
        "uahist: connection ended (1)\nuahist: connection ended (2)\n",
        0,
    ),
    (
        &["uahist", "answer", "--settings", "door", "--hex"],
        b"525856461B00000002000000000000000000000000000000000200",
        1000,
        "455252461000000000007E80FFFFFFFF\n",
        "",
        0,
    ),
    (
        &["uahist", "answer", "--settings", "door"],
        b"RXDF\x1f\0\0\0",
        1000,
        "ERRF\x10\0\0\0",
        "",
        0,
    ),
    (
        &["uahist", "answer", "--settings", "bad door", "--hex"],
        b"474554202F000000",
        1000,
        "455252461000000000007E80FFFFFFFF\n",
        "",
        0,
    ),
    (
        &[
            "uahist",
            "serve",
            "--settings",
            "door",
            "--connections",
            "3",
        ],
        b"",
        1000,
        "",
        "uahist: connection ended (1)\nuahist: connection ended (2)\n",
        0,
    ),
    (
        &["uahist", "serve", "--settings", "bad door"],
        b"",
        1000,
        "",
        "uahist: door's address refused\n",
        1,
    ),
    (
        &["uahist", "serve", "--settings", "busy door"],
        b"",
        1000,
        "",
        "uahist: door's address refused\n",
        1,
    ),
    (
        &["uahist", "serve", "--settings", "busy, with a door"],
        b"",
        1000,
        "",
        "uahist: address refused\n",
        1,
    ),
    (
        &["uahist", "serve", "--settings", "bad page"],
        b"",
        1000,
        "",
        "uahist: page's address refused\n",
        1,
    ),
    (
        &["uahist", "serve", "--settings", "busy page"],
        b"",
        1000,
        "",
        "uahist: page's address refused\n",
        1,
    ),
    (
        &["uahist", "serve", "--settings", "bad page and peer"],
        b"",
        1000,
        "",
        "uahist: peer's address refused (1)\n",
        1,
    ),
    (
        &["uahist", "serve", "--settings", "bad peer"],
        b"",
        1000,
        "",
        "uahist: peer's address refused (2)\n",
        1,
    ),
    (
        &["uahist", "serve", "--settings", "bad peers"],
        b"",
        1000,
        "",
        "uahist: peer's address refused (1)\n",
        1,
    ),
    (
        &["uahist", "serve", "--settings", "bad door and peer"],
        b"",
        1000,
        "",
        "uahist: door's address refused\n",
        1,
    ),
    (
        &["uahist", "serve", "--settings", "busy door, bad peer"],
        b"",
        1000,
        "",
        "uahist: peer's address refused (1)\n",
        1,
    ),
    (
        &["uahist", "serve", "--settings", "all bad"],
        b"",
        1000,
        "",
        "uahist: address refused\n",
        1,
    ),
    (
        &["uahist", "serve", "--settings", "bad from"],
        b"",
        1000,
        "",
        "uahist: door's network refused (2)\n",
        1,
    ),
    (
        &["uahist", "serve", "--settings", "bad door and from"],
        b"",
        1000,
        "",
        "uahist: door's address refused\n",
        1,
    ),
    (
        &["uahist", "answer", "--settings", "bad from", "--hex"],
        b"474554202F000000",
        1000,
        "455252461000000000007E80FFFFFFFF\n",
        "",
        0,
    ),
    (
        &["uahist", "answer", "--settings", "plant/filed", "--hex"],
        b"474554202F000000",
        1000,
        "455252461000000000007E80FFFFFFFF\n",
        "",
        0,
    ),
    (
        &["uahist", "answer", "--settings", "plant/unfiled", "--hex"],
        b"",
        1000,
        "",
        "uahist: settings file can't be read\n",
        2,
    ),
    (
        &["uahist", "answer", "--settings", "plant/empty", "--hex"],
        b"",
        1000,
        "",
        "uahist: settings refused (3)\nuahist: [[user]] 1, password_file\n",
        2,
    ),
];

/// The same of histories.
static HISTORIES: [(&[&str], &[u8], usize, &str, &str, u8); 10] = [
    (
        &["uahist", "history", "--settings", "good", "--node", "i=1"],
        b"",
        1000,
        "time                          value                     status\n",
        "",
        0,
    ),
    (
        &[
            "uahist",
            "history",
            "--settings",
            "kept",
            "--node",
            "ns=1;s=T",
            "--from",
            "2026-03-01T00:00:00Z",
            "--to",
            "@5",
            "--csv",
        ],
        b"",
        1000,
        "node,time,value,status\n",
        "",
        0,
    ),
    (
        &[
            "uahist",
            "history",
            "--settings",
            "good",
            "--node",
            "i=1",
            "--changes",
            "--csv",
        ],
        b"",
        20,
        "node,time,value,stat",
        "uahist: connection ended (2)\n",
        1,
    ),
    (
        &["uahist", "history", "--settings", "good", "--node", "T"],
        b"",
        1000,
        "",
        "uahist: --node: want a node id, as ns=1;s=Temperature\n",
        2,
    ),
    (
        &[
            "uahist",
            "history",
            "--settings",
            "good",
            "--node=i=1",
            "--to",
            "noon",
            "--from",
            "noon",
        ],
        b"",
        1000,
        "",
        "uahist: --from: want a time, as 2026-03-01T12:00:00Z\n",
        2,
    ),
    (
        &[
            "uahist",
            "history",
            "--settings",
            "good",
            "--node=i=1",
            "--to",
            "noon",
        ],
        b"",
        1000,
        "",
        "uahist: --to: want a time, as 2026-03-01T12:00:00Z\n",
        2,
    ),
    (
        &["uahist", "history", "--settings", "none", "--node=i=1"],
        b"",
        1000,
        "",
        "uahist: settings file can't be read\n",
        2,
    ),
    (
        &["uahist", "history", "--settings", "short", "--node=T"],
        b"",
        1000,
        "",
        "uahist: settings refused (2)\nuahist: [server] namespace\n",
        2,
    ),
    (
        &["uahist", "history", "--settings", "others", "--node=T"],
        b"",
        1000,
        "",
        "uahist: store refused (4)\n",
        3,
    ),
    (
        &["uahist", "history", "--settings", "good"],
        b"",
        1000,
        "",
        USAGE,
        2,
    ),
];

/// The same of imports.
static IMPORTS: [(&[&str], &[u8], usize, &str, &str, u8); 27] = [
    (
        &[
            "uahist",
            "import",
            "--settings",
            "kept",
            "--user",
            "anonymous",
        ],
        b"node,time,value,status\n",
        1000,
        "0 rows\n",
        "",
        0,
    ),
    (
        &[
            "uahist",
            "import",
            "--settings",
            "kept",
            "--user",
            "anonymous",
        ],
        b"node,time,value,status\nns=1;s=T,@5,5,\n",
        1000,
        "row 1: 80340000 Bad_NodeIdUnknown\n1 row: 1 refused\n",
        "uahist: rows refused (1)\n",
        1,
    ),
    (
        &[
            "uahist",
            "import",
            "--settings",
            "kept",
            "--user",
            "anonymous",
        ],
        b"ns=1;s=T,@5,5,\n",
        1000,
        "",
        "uahist: rows refused: want the header node,time,value,status\n",
        2,
    ),
    (
        &[
            "uahist",
            "import",
            "--settings",
            "kept",
            "--user",
            "anonymous",
        ],
        b"node,time,value,status\n",
        3,
        "0 r",
        "uahist: connection ended (2)\n",
        1,
    ),
    (
        &["uahist", "import", "--settings", "kept", "--user", "ann"],
        b"node,time,value,status\n",
        1000,
        "",
        "uahist: --user: want a user of the settings who may write\n",
        2,
    ),
    (
        &["uahist", "import", "--settings", "others", "--user", "ann"],
        b"node,time,value,status\n",
        1000,
        "",
        "uahist: --user: want a user of the settings who may write\n",
        2,
    ),
    (
        &[
            "uahist",
            "import",
            "--settings",
            "good",
            "--user",
            "anonymous",
        ],
        b"node,time,value,status\n",
        1000,
        "",
        "uahist: import refused: the settings name no store\n",
        2,
    ),
    (
        &[
            "uahist",
            "import",
            "--settings",
            "good",
            "--user",
            "anonymous",
            "--server",
            "127.0.0.1:4842",
        ],
        b"node,time,value,status\n",
        1000,
        "",
        "uahist: import ended: what came from the server is no answer\n",
        1,
    ),
    (
        &[
            "uahist",
            "import",
            "--settings",
            "good",
            "--user",
            "anonymous",
            "--server",
            "127.0.0.1:4844",
        ],
        b"node,time,value,status\n",
        1000,
        "",
        "uahist: import ended: the server refused it (2155675648)\n",
        1,
    ),
    (
        &[
            "uahist",
            "import",
            "--settings",
            "good",
            "--user",
            "anonymous",
            "--server",
            "127.0.0.1:4845",
        ],
        b"node,time,value,status\n",
        1000,
        "",
        "uahist: address refused\n",
        1,
    ),
    (
        &[
            "uahist",
            "import",
            "--settings",
            "good",
            "--user",
            "anonymous",
            "--server",
            "plant",
        ],
        b"node,time,value,status\n",
        1000,
        "",
        "uahist: address refused\n",
        1,
    ),
    (
        &[
            "uahist",
            "import",
            "--settings",
            "good",
            "--user",
            "ann",
            "--server",
            "127.0.0.1:4844",
        ],
        b"node,time,value,status\n",
        1000,
        "",
        "uahist: --user: want a user of the settings who may write\n",
        2,
    ),
    (
        &[
            "uahist",
            "import",
            "--settings",
            "kept",
            "--user",
            "anonymous",
        ],
        b"",
        1000,
        "",
        "uahist: rows refused: want the header node,time,value,status\n",
        2,
    ),
    (
        &[
            "uahist",
            "import",
            "--settings",
            "short",
            "--user",
            "anonymous",
        ],
        b"node,time,value,status\n",
        1000,
        "",
        "uahist: settings refused (2)\nuahist: [server] namespace\n",
        2,
    ),
    (
        &[
            "uahist",
            "import",
            "--settings",
            "others",
            "--user",
            "anonymous",
        ],
        b"node,time,value,status\n",
        1000,
        "",
        "uahist: store refused (4)\n",
        3,
    ),
    (
        &[
            "uahist",
            "import",
            "--settings",
            "unmade",
            "--user",
            "anonymous",
        ],
        b"node,time,value,status\n",
        1000,
        "",
        "uahist: store refused (2)\n",
        3,
    ),
    (
        &["uahist", "import", "--settings", "kept"],
        b"node,time,value,status\n",
        1000,
        "",
        USAGE,
        2,
    ),
    (
        &[
            "uahist",
            "import",
            "--settings",
            "good",
            "--user",
            "anonymous",
            "--server",
            "127.0.0.1:4846",
        ],
        b"node,time,value,status\n",
        1000,
        "",
        "uahist: import ended: the server closed the connection\n",
        1,
    ),
    (
        &[
            "uahist",
            "import",
            "--settings",
            "good",
            "--user",
            "anonymous",
            "--server",
            "127.0.0.1:4847",
        ],
        b"node,time,value,status\n",
        1000,
        "",
        "uahist: connection to the server ended (1)\n",
        1,
    ),
    (
        &[
            "uahist",
            "import",
            "--settings",
            "good",
            "--user",
            "anonymous",
            "--server",
            "127.0.0.1:4848",
        ],
        b"node,time,value,status\n",
        1000,
        "",
        "uahist: connection to the server ended (2)\n",
        1,
    ),
    (
        &["uahist", "import", "--settings", "none", "--user", "ann"],
        b"node,time,value,status\n",
        1000,
        "",
        "uahist: settings file can't be read\n",
        2,
    ),
    (
        &[
            "uahist",
            "import",
            "--settings",
            "kept",
            "--user",
            "anonymous",
            "rows.csv",
        ],
        b"",
        1000,
        "row 1: 80340000 Bad_NodeIdUnknown\n1 row: 1 refused\n",
        "uahist: rows refused (1)\n",
        1,
    ),
    (
        &[
            "uahist",
            "import",
            "--settings",
            "kept",
            "--user",
            "anonymous",
            "-",
        ],
        b"node,time,value,status\n",
        1000,
        "0 rows\n",
        "",
        0,
    ),
    (
        &[
            "uahist",
            "import",
            "--settings",
            "kept",
            "--user",
            "anonymous",
            "no.csv",
        ],
        b"node,time,value,status\n",
        1000,
        "",
        "uahist: rows refused: the file can't be opened\n",
        2,
    ),
    (
        &[
            "uahist",
            "import",
            "--settings",
            "kept",
            "--user",
            "ann",
            "rows.csv",
        ],
        b"",
        1000,
        "",
        "uahist: --user: want a user of the settings who may write\n",
        2,
    ),
    (
        &[
            "uahist",
            "import",
            "--settings",
            "good",
            "--user",
            "anonymous",
            "--server",
            "127.0.0.1:4844",
            "rows.csv",
        ],
        b"",
        1000,
        "",
        "uahist: import ended: the server refused it (2155675648)\n",
        1,
    ),
    (
        &[
            "uahist",
            "import",
            "--settings",
            "good",
            "--user",
            "anonymous",
            "--server",
            "127.0.0.1:4844",
            "no.csv",
        ],
        b"node,time,value,status\n",
        1000,
        "",
        "uahist: rows refused: the file can't be opened\n",
        2,
    ),
];

/// Files of rows.
static ROWS: [(&str, &[u8]); 1] = [("rows.csv", b"node,time,value,status\nns=1;s=T,@5,5,\n")];

/// What is told of settings that name a store.
const TOLD: &str = "archive 00000000-0000-0000-0000-000000000000, replica 1\n\
    store own.db\n\
    listens at ; clients are told \n\
    there are no users with a name; without a name: allowed, may write\n\
    0 variables, 0 folders\n\
    0 peers are called; peers come to the clients' address\n\
    warning: url doesn't begin with opc.tcp://, so clients can't use what they are told\n\
    warning: who gives no name may write\n\
    warning: there is no [door], so whoever reaches the clients' address can exchange records\n\
    warning: the store's path is relative: from another folder it makes a new, empty archive\n";

/// What is told of settings with a variable, and of an archive that holds nothing.
const TOLD_EMPTY: &str = "archive 00000000-0000-0000-0000-000000000000, replica 1\n\
    no store: values are kept in memory and lost at the end\n\
    listens at ; clients are told \n\
    there are no users with a name; without a name: allowed, may write\n\
    1 variable, 0 folders\n\
    0 peers are called; peers come to the clients' address\n\
    warning: url doesn't begin with opc.tcp://, so clients can't use what they are told\n\
    warning: who gives no name may write\n\
    warning: there is no [door], so whoever reaches the clients' address can exchange records\n\
    T: no values\n";

/// The same of checks, and of a page.
static CHECKS: [(&[&str], &[u8], usize, &str, &str, u8); 19] = [
    (
        &["uahist", "check", "--settings", "kept", "--store"],
        b"",
        1000,
        TOLD,
        "",
        0,
    ),
    (
        &["uahist", "check", "--store", "--settings", "valued"],
        b"",
        1000,
        TOLD_EMPTY,
        "",
        0,
    ),
    (
        &["uahist", "check", "--settings", "others", "--store"],
        b"",
        1000,
        "",
        "uahist: store refused (4)\n",
        3,
    ),
    (
        &["uahist", "check", "--settings", "unmade", "--store"],
        b"",
        1000,
        "archive 00000000-0000-0000-0000-000000000000, replica 1\nstore none.db\n",
        "",
        0,
    ),
    (
        &["uahist", "check", "--settings", "kept"],
        b"",
        1000,
        TOLD,
        "",
        0,
    ),
    (
        &["uahist", "check", "--settings", "others"],
        b"",
        1000,
        "archive 00000000-0000-0000-0000-000000000000, replica 1\nstore other.db\n",
        "",
        0,
    ),
    (
        &["uahist", "check", "--settings", "unmade"],
        b"",
        1000,
        "archive 00000000-0000-0000-0000-000000000000, replica 1\nstore none.db\n",
        "",
        0,
    ),
    (
        &["uahist", "check", "--settings", "good"],
        b"",
        9,
        "archive 0",
        "uahist: connection ended (2)\n",
        1,
    ),
    (
        &["uahist", "check", "--settings", "none"],
        b"",
        1000,
        "",
        "uahist: settings file can't be read\n",
        2,
    ),
    (&["uahist", "check", "--store"], b"", 1000, "", USAGE, 2),
    (
        &["uahist", "check", "--settings", "cut"],
        b"",
        1000,
        "",
        "uahist: settings refused (1)\nuahist: line 6\n",
        2,
    ),
    (
        &["uahist", "check", "--settings", "short"],
        b"",
        1000,
        "",
        "uahist: settings refused (2)\nuahist: [server] namespace\n",
        2,
    ),
    (
        &["uahist", "check", "--settings", "plant/empty"],
        b"",
        1000,
        "",
        "uahist: settings refused (3)\nuahist: [[user]] 1, password_file\n",
        2,
    ),
    (
        &["uahist", "check", "--settings", "other key"],
        b"",
        1000,
        "",
        "uahist: settings refused (4)\nuahist: [[variable]] 1, unit\n",
        2,
    ),
    (
        &["uahist", "check", "--settings", "other type"],
        b"",
        1000,
        "",
        "uahist: settings refused (5)\nuahist: [[variable]] 1, type\n",
        2,
    ),
    (
        &["uahist", "check", "--settings", "id twice"],
        b"",
        1000,
        "",
        "uahist: settings refused (5)\nuahist: [[variable]] 2, id\n",
        2,
    ),
    (
        &["uahist", "check", "--settings", "plant/unfiled"],
        b"",
        1000,
        "",
        "uahist: settings file can't be read\n",
        2,
    ),
    (
        &["uahist", "check", "--settings", "none", "--store"],
        b"",
        1000,
        "",
        "uahist: settings file can't be read\n",
        2,
    ),
    (
        &[
            "uahist",
            "history",
            "--settings=good",
            "--node=i=1",
            "--html",
        ],
        b"",
        5000,
        "<!DOCTYPE html>\n<html lang=\"en\">\n<head>\n<meta charset=\"utf-8\">\n",
        "",
        0,
    ),
];

/// Settings files that are kept in memory: their names, and their texts.
static FILES: [(&str, &str); 40] = [
    (
        "valued",
        "[archive]\nid = '00000000000000000000000000000000'\nreplica = 1\n[server]\nlisten = ''\nurl = ''\napplication = ''\nnamespace = ''\nanonymous = true\n[[variable]]\nid = 'T'\nname = ''\ntype = 'Double'\n",
    ),
    (
        "other key",
        "[archive]\nid = '00000000000000000000000000000000'\nreplica = 1\n[server]\nlisten = ''\nurl = ''\napplication = ''\nnamespace = ''\nanonymous = true\n[[variable]]\nid = 'T'\nname = ''\ntype = 'Double'\nunit = 'bar'\n",
    ),
    (
        "other type",
        "[archive]\nid = '00000000000000000000000000000000'\nreplica = 1\n[server]\nlisten = ''\nurl = ''\napplication = ''\nnamespace = ''\nanonymous = true\n[[variable]]\nid = 'T'\nname = ''\ntype = 'double'\n",
    ),
    (
        "id twice",
        "[archive]\nid = '00000000000000000000000000000000'\nreplica = 1\n[server]\nlisten = ''\nurl = ''\napplication = ''\nnamespace = ''\nanonymous = true\n[[variable]]\nid = 'T'\nname = ''\ntype = 'Double'\n[[variable]]\nid = 'T'\nname = ''\ntype = 'Double'\n",
    ),
    (
        "kept",
        "[archive]\nid = '00000000000000000000000000000000'\nreplica = 1\nstore = 'own.db'\n[server]\nlisten = ''\nurl = ''\napplication = ''\nnamespace = ''\nanonymous = true\n",
    ),
    (
        "unmade",
        "[archive]\nid = '00000000000000000000000000000000'\nreplica = 1\nstore = 'none.db'\n[server]\nlisten = ''\nurl = ''\napplication = ''\nnamespace = ''\nanonymous = true\n",
    ),
    (
        "others",
        "[archive]\nid = '00000000000000000000000000000000'\nreplica = 1\nstore = 'other.db'\n[server]\nlisten = ''\nurl = ''\napplication = ''\nnamespace = ''\nanonymous = true\n",
    ),
    (
        "open",
        "[archive]\nid = '00000000000000000000000000000000'\nreplica = 1\n[server]\nlisten = '127.0.0.1:4840'\nurl = ''\napplication = ''\nnamespace = ''\nanonymous = true\n",
    ),
    (
        "busy",
        "[archive]\nid = '00000000000000000000000000000000'\nreplica = 1\n[server]\nlisten = '[::1]:4841'\nurl = ''\napplication = ''\nnamespace = ''\nanonymous = true\n",
    ),
    (
        "good",
        "[archive]\nid = '00000000000000000000000000000000'\nreplica = 1\n[server]\nlisten = ''\nurl = ''\napplication = ''\nnamespace = ''\nanonymous = true\n",
    ),
    (
        "short",
        "[archive]\nid = '00000000000000000000000000000000'\nreplica = 1\n[server]\nlisten = ''\nurl = ''\napplication = ''\nanonymous = true\n",
    ),
    (
        "cut",
        "[archive]\nid = '00000000000000000000000000000000'\nreplica = 1\n[server]\nlisten = ''\nurl =\n",
    ),
    (
        "door",
        "[archive]\nid = '00000000000000000000000000000000'\nreplica = 1\n[server]\nlisten = '127.0.0.1:4840'\nurl = ''\napplication = ''\nnamespace = ''\nanonymous = true\n[door]\nlisten = '127.0.0.1:4841'\n",
    ),
    (
        "bad door",
        "[archive]\nid = '00000000000000000000000000000000'\nreplica = 1\n[server]\nlisten = '127.0.0.1:4840'\nurl = ''\napplication = ''\nnamespace = ''\nanonymous = true\n[door]\nlisten = 'peers'\n",
    ),
    (
        "busy door",
        "[archive]\nid = '00000000000000000000000000000000'\nreplica = 1\n[server]\nlisten = '127.0.0.1:4840'\nurl = ''\napplication = ''\nnamespace = ''\nanonymous = true\n[door]\nlisten = '127.0.0.1:4840'\n",
    ),
    (
        "busy, with a door",
        "[archive]\nid = '00000000000000000000000000000000'\nreplica = 1\n[server]\nlisten = '127.0.0.1:4841'\nurl = ''\napplication = ''\nnamespace = ''\nanonymous = true\n[door]\nlisten = '127.0.0.1:4842'\n",
    ),
    (
        "bad page",
        "[archive]\nid = '00000000000000000000000000000000'\nreplica = 1\n[server]\nlisten = '127.0.0.1:4840'\nurl = ''\napplication = ''\nnamespace = ''\nanonymous = true\n[web]\nlisten = 'browsers'\n",
    ),
    (
        "busy page",
        "[archive]\nid = '00000000000000000000000000000000'\nreplica = 1\n[server]\nlisten = '127.0.0.1:4840'\nurl = ''\napplication = ''\nnamespace = ''\nanonymous = true\n[web]\nlisten = '127.0.0.1:4840'\n",
    ),
    (
        "bad page and peer",
        "[archive]\nid = '00000000000000000000000000000000'\nreplica = 1\n[server]\nlisten = '127.0.0.1:4840'\nurl = ''\napplication = ''\nnamespace = ''\nanonymous = true\n[web]\nlisten = ''\n[[peer]]\naddress = ''\nevery = 60\n",
    ),
    (
        "bad peer",
        "[archive]\nid = '00000000000000000000000000000000'\nreplica = 1\n[server]\nlisten = '127.0.0.1:4840'\nurl = ''\napplication = ''\nnamespace = ''\nanonymous = true\n[[peer]]\naddress = '127.0.0.1:4842'\nevery = 60\n[[peer]]\naddress = 'plant'\nevery = 60\n",
    ),
    (
        "bad peers",
        "[archive]\nid = '00000000000000000000000000000000'\nreplica = 1\n[server]\nlisten = '127.0.0.1:4840'\nurl = ''\napplication = ''\nnamespace = ''\nanonymous = true\n[[peer]]\naddress = ''\nevery = 60\n[[peer]]\naddress = ''\nevery = 60\n",
    ),
    (
        "bad door and peer",
        "[archive]\nid = '00000000000000000000000000000000'\nreplica = 1\n[server]\nlisten = '127.0.0.1:4840'\nurl = ''\napplication = ''\nnamespace = ''\nanonymous = true\n[door]\nlisten = ''\n[[peer]]\naddress = ''\nevery = 60\n",
    ),
    (
        "busy door, bad peer",
        "[archive]\nid = '00000000000000000000000000000000'\nreplica = 1\n[server]\nlisten = '127.0.0.1:4840'\nurl = ''\napplication = ''\nnamespace = ''\nanonymous = true\n[door]\nlisten = '127.0.0.1:4840'\n[[peer]]\naddress = ''\nevery = 60\n",
    ),
    (
        "all bad",
        "[archive]\nid = '00000000000000000000000000000000'\nreplica = 1\n[server]\nlisten = ''\nurl = ''\napplication = ''\nnamespace = ''\nanonymous = true\n[door]\nlisten = ''\n[[peer]]\naddress = ''\nevery = 60\n",
    ),
    (
        "from",
        "[archive]\nid = '00000000000000000000000000000000'\nreplica = 1\n[server]\nlisten = '127.0.0.1:4840'\nurl = ''\napplication = ''\nnamespace = ''\nanonymous = true\n[door]\nlisten = '127.0.0.1:4841'\nfrom = ['127.0.0.1', '10.1.0.0/16']\n",
    ),
    (
        "bad from",
        "[archive]\nid = '00000000000000000000000000000000'\nreplica = 1\n[server]\nlisten = '127.0.0.1:4840'\nurl = ''\napplication = ''\nnamespace = ''\nanonymous = true\n[door]\nlisten = '127.0.0.1:4841'\nfrom = ['127.0.0.1', '10.1.0.0/33']\n",
    ),
    (
        "bad door and from",
        "[archive]\nid = '00000000000000000000000000000000'\nreplica = 1\n[server]\nlisten = '127.0.0.1:4840'\nurl = ''\napplication = ''\nnamespace = ''\nanonymous = true\n[door]\nlisten = ''\nfrom = ['']\n[[peer]]\naddress = ''\nevery = 60\n",
    ),
    (
        "plant/filed",
        "[archive]\nid = '00000000000000000000000000000000'\nreplica = 1\n[server]\nlisten = '127.0.0.1:4840'\nurl = ''\napplication = ''\nnamespace = ''\nanonymous = false\n[[user]]\nname = 'ann'\npassword_file = 'secrets/ann'\n",
    ),
    (
        "plant/unfiled",
        "[archive]\nid = '00000000000000000000000000000000'\nreplica = 1\n[server]\nlisten = '127.0.0.1:4840'\nurl = ''\napplication = ''\nnamespace = ''\nanonymous = false\n[[user]]\nname = 'ann'\npassword_file = 'secrets/ann'\n[[user]]\nname = 'ben'\npassword_file = 'ben'\n",
    ),
    (
        "plant/empty",
        "[archive]\nid = '00000000000000000000000000000000'\nreplica = 1\n[server]\nlisten = '127.0.0.1:4840'\nurl = ''\napplication = ''\nnamespace = ''\nanonymous = false\n[[user]]\nname = 'ann'\npassword_file = '/secrets/none'\n",
    ),
    (
        "plant/secrets/ann",
        "pw\r\nthe first line is the password\n",
    ),
    ("/secrets/none", "\nnot this\n"),
    ("strict/its owner's", WITH_PASSWORD),
    ("strict/its group reads", WITH_PASSWORD),
    ("strict/its group writes", WITH_PASSWORD),
    ("strict/all read", WITH_PASSWORD),
    ("strict/unknown", WITH_PASSWORD),
    ("strict/all read no password", WITH_FILES),
    ("strict/closed", "pw"),
    ("strict/open", "pw"),
];

/// Strict settings with a password.
const WITH_PASSWORD: &str =
    "[archive]\nid = '00000000000000000000000000000000'\nreplica = 1\n[server]\nlisten = '127.0.0.1:4840'\nurl = ''\napplication = ''\nnamespace = ''\nanonymous = false\nstrict = true\n[[user]]\nname = 'ann'\npassword = 'pw'\n";

/// Strict settings that name password files.
const WITH_FILES: &str =
    "[archive]\nid = '00000000000000000000000000000000'\nreplica = 1\n[server]\nlisten = '127.0.0.1:4840'\nurl = ''\napplication = ''\nnamespace = ''\nanonymous = false\nstrict = true\n[[user]]\nname = 'ann'\npassword_file = 'closed'\n[[user]]\nname = 'ben'\npassword_file = 'open'\n";

/// The modes of files that their owner doesn't have alone; one whose mode can't be told has none.
static MODES: [(&str, Option<u32>); 6] = [
    ("strict/its group reads", Some(0o100_640)),
    ("strict/its group writes", Some(0o100_620)),
    ("strict/all read", Some(0o100_604)),
    ("strict/unknown", None),
    ("strict/all read no password", Some(0o100_644)),
    ("strict/open", Some(0o100_604)),
];

/// Strict settings, and the place that is told where they are refused.
static STRICT: [(&str, &str); 6] = [
    ("strict/its owner's", ""),
    ("strict/its group reads", ""),
    ("strict/its group writes", "strict/its group writes"),
    ("strict/all read", "strict/all read"),
    ("strict/unknown", "strict/unknown"),
    ("strict/all read no password", "open"),
];

/// Over the network come a client that ends well, one that takes no answer, and then nobody.
static CALLERS: [Option<Client<'static>>; 2] = [
    Some(Client {
        bytes: b"GET /\0\0\0",
        breaks: false,
        room: 100,
    }),
    Some(Client {
        bytes: b"GET /\0\0\0",
        breaks: false,
        room: 0,
    }),
];

/// What replica 2 answers, which holds nothing.
const QUIET: &[u8] = b"RXDF\x1f\0\0\0\x02\0\0\0\0\0\0\0\0\0\0\0\0\0\0\0\0\x02\0\0\0\0\0";

/// A peer that holds nothing.
static QUIET_PEER: [Option<Client<'static>>; 1] = [Some(Client {
    bytes: QUIET,
    breaks: false,
    room: 1000,
})];

/// A peer that ends each exchange by a number of its own.
static REFUSING_PEER: [Option<Client<'static>>; 1] = [Some(Client {
    bytes: b"RXEF\x0c\0\0\0\x15\xcd\x5b\x07",
    breaks: false,
    room: 1000,
})];

/// A server that has no place for a connection.
static BUSY_SERVER: [Option<Client<'static>>; 1] = [Some(Client {
    bytes: b"ERRF\x10\0\0\0\0\0\x7d\x80\xff\xff\xff\xff",
    breaks: false,
    room: 1000,
})];

/// A server that hangs up, one whose connection breaks, and one that takes nothing.
static LOST_SERVERS: [Option<Client<'static>>; 3] = [
    Some(Client {
        bytes: b"",
        breaks: false,
        room: 1000,
    }),
    Some(Client {
        bytes: b"",
        breaks: true,
        room: 1000,
    }),
    Some(Client {
        bytes: b"",
        breaks: false,
        room: 0,
    }),
];

/// A machine in memory, with the files above, that can be listened at on port 4840, and whom the callers reach there; a
/// door of peers can be listened at on any other port. Each path but one opens an archive that holds nothing.
#[derive(Drop)]
struct Machine(Global);

impl Machine {
    /// The callers, where this address can be listened at; else its door.
    fn callers_at(&self, address: SocketAddr, door: Door) -> Result<Clients<'static>, Door> {
        if address.port() == 4840 {
            Ok(Clients::new(self.0, &CALLERS))
        } else {
            Err(door)
        }
    }
}

impl Host for Machine {
    type Archive = ListArchive;

    type Source = Clients<'static>;

    type Reader = Slow<'static>;

    type Writer = Narrow;

    type Rows = &'static [u8];

    ghost means = { unknown_machine };

    fn read(&mut self, path: &str) -> Option<String> {
        let (_, text) = FILES.iter().find(|(name, _)| *name == path)?;
        String::from_str(self.0, text).ok()
    }

    fn mode(&self, path: &str) -> Option<u32> {
        match MODES.iter().find(|(name, _)| *name == path) {
            Some((_, mode)) => *mode,
            None => Some(0o100_600),
        }
    }

    fn open_rows(&mut self, path: &str) -> Option<&'static [u8]> {
        let (_, rows) = ROWS.iter().find(|(name, _)| *name == path)?;
        Some(rows)
    }

    fn has_store(&self, path: &str) -> bool {
        path != "none.db"
    }

    fn open_file(&mut self, path: &str, terms: StoreTerms) -> Result<ListArchive, StoreFault> {
        if path == "other.db" {
            return Err(StoreFault::WrongArchive);
        }
        if path == "none.db" {
            return Err(StoreFault::Refused);
        }
        Ok(ListArchive::new(self.0, terms.archive, terms.replica))
    }

    fn open_in_memory(&self, terms: StoreTerms) -> Result<ListArchive, StoreFault> {
        Ok(ListArchive::new(self.0, terms.archive, terms.replica))
    }

    fn open_broken(&mut self, _terms: StoreTerms) -> Result<ListArchive, StoreFault> {
        Err(StoreFault::OutOfMemory)
    }

    fn close(&mut self, archive: ListArchive) {
        drop(archive);
    }

    fn listen(&mut self, listening: &Listening) -> Result<Clients<'static>, Door> {
        if let Some(web) = listening.browsers {
            if web.address.port() == listening.clients.port() {
                return Err(Door::Browsers);
            }
        }
        let Some(peers) = listening.peers else {
            return self.callers_at(listening.clients, Door::Both);
        };
        if peers.port() == listening.clients.port() {
            Err(Door::Peers)
        } else {
            self.callers_at(listening.clients, Door::Clients)
        }
    }

    /// The first of the clients is the peer at port 4840; the one at port 4842 holds nothing, and that at 4843
    /// refuses.
    fn call(&mut self, address: SocketAddr) -> Option<(Slow<'static>, Narrow)> {
        let peer = match address.port() {
            4840 => CALLERS[0]?,
            4842 => QUIET_PEER[0]?,
            4843 => REFUSING_PEER[0]?,
            4844 => BUSY_SERVER[0]?,
            4846 => LOST_SERVERS[0]?,
            4847 => LOST_SERVERS[1]?,
            4848 => LOST_SERVERS[2]?,
            _ => return None,
        };
        Some(peer.ends(self.0))
    }

    fn part(&mut self, reader: Counted<Slow<'static>>, writer: Counted<Narrow>)
        ensures { Unit {0} }
    {
        drop(reader);
        drop(writer);
    }
}

/// What a run prints begins so, and this is said.
fn is_run(
    alloc: Global,
    words: &[&str],
    input: &[u8],
    room: usize,
    printed: &str,
    said: &str,
    status: u8,
) -> bool {
    let mut reader = Counted::new(input);
    let mut writer = Counted::new(Narrow {
        bytes: Vec::new(alloc),
        room,
    });
    let mut ran = run(
        alloc,
        words,
        &mut Machine(alloc),
        ConstantClock(116_444_736_000_000_000),
        &mut reader,
        &mut writer,
        Counted::new(Vec::new(alloc)),
    );
    report(ran.ending, &mut ran.errors) == status
        && writer.into_inner().bytes.starts_with(printed.as_bytes())
        && ran.errors.into_inner().as_slice() == said.as_bytes()
}

#[test]
fn runs_and_reports(rt: HostRuntime) {
    for (words, input, room, printed, said, status) in RUNS {
        assert!(rt;
            is_run(rt.alloc(), words, input, room, printed, said, status),
            "{said}"
        );
    }
}

#[test]
fn histories_and_reports(rt: HostRuntime) {
    for (words, input, room, printed, said, status) in HISTORIES {
        assert!(rt;
            is_run(rt.alloc(), words, input, room, printed, said, status),
            "{said}"
        );
    }
}

#[test]
fn imports_and_reports(rt: HostRuntime) {
    for (words, input, room, printed, said, status) in IMPORTS {
        assert!(rt;
            is_run(rt.alloc(), words, input, room, printed, said, status),
            "{said}"
        );
    }
}

#[test]
fn checks_and_reports(rt: HostRuntime) {
    for (words, input, room, printed, said, status) in CHECKS {
        assert!(rt;
            is_run(rt.alloc(), words, input, room, printed, said, status),
            "{said}"
        );
    }
}

/// What is said where settings are refused for this file.
fn exposed(alloc: Global, file: &str) -> Option<String> {
    let mut said = String::new(alloc);
    said.push_str("uahist: settings refused (3)\nuahist: [server] strict, ")
        .ok()?;
    said.push_str(file).ok()?;
    said.push_str("\n").ok()?;
    Some(said)
}

/// Settings are taken, or refused for this file.
fn is_judged(alloc: Global, settings: &str, file: &str) -> bool {
    let words = ["uahist", "answer", "--settings", settings, "--hex"];
    let hello = b"474554202F000000";
    if file.is_empty() {
        let told = "455252461000000000007E80FFFFFFFF\n";
        return is_run(alloc, &words, hello, 1000, told, "", 0);
    }
    match exposed(alloc, file) {
        Some(said) => is_run(alloc, &words, hello, 1000, "", said.as_str(), 2),
        None => false,
    }
}

#[test]
fn files_of_strict_settings_are_judged(rt: HostRuntime) {
    for (settings, file) in STRICT {
        assert!(rt; is_judged(rt.alloc(), settings, file), "{settings}");
    }
}

/// What is said of this ending, and the exit status.
fn is_told(alloc: Global, ending: Result<(), ProgramFault>, said: &str, status: u8) -> bool {
    let mut errors = Counted::new(Vec::new(alloc));
    report(ending, &mut errors) == status && errors.into_inner().as_slice() == said.as_bytes()
}

#[test]
fn tells_each_fault(rt: HostRuntime) {
    for (fault, said, status) in [
        (ProgramFault::StoreBroken, "uahist: store broken\n", 3),
        (
            ProgramFault::Settings(SettingsFault::OutOfMemory, None),
            "uahist: settings refused (6)\n",
            2,
        ),
        (
            ProgramFault::Store(StoreFault::OutOfMemory),
            "uahist: store refused (1)\n",
            3,
        ),
        (
            ProgramFault::Store(StoreFault::WrongReplica),
            "uahist: store refused (3)\n",
            3,
        ),
        (
            ProgramFault::Store(StoreFault::Broken),
            "uahist: store refused (5)\n",
            3,
        ),
        (
            ProgramFault::NoText,
            "uahist: history ended: a value of a type that has no text\n",
            1,
        ),
        (
            ProgramFault::Server(ClientFault::TooLarge),
            "uahist: import ended: a request is too long\n",
            1,
        ),
        (
            ProgramFault::Server(ClientFault::OutOfMemory),
            "uahist: import ended: out of memory\n",
            1,
        ),
        (
            ProgramFault::Server(ClientFault::Connection(ServeFault::OutOfMemory)),
            "uahist: connection to the server ended (4)\n",
            1,
        ),
        (
            ProgramFault::Connection(ServeFault::Read),
            "uahist: connection ended (1)\n",
            1,
        ),
        (
            ProgramFault::Connection(ServeFault::TooLong),
            "uahist: connection ended (3)\n",
            1,
        ),
        (
            ProgramFault::Connection(ServeFault::OutOfMemory),
            "uahist: connection ended (4)\n",
            1,
        ),
        (
            ProgramFault::PeerAddress(u64::MAX),
            "uahist: peer's address refused (18446744073709551615)\n",
            1,
        ),
        (
            ProgramFault::UnreadRows,
            "uahist: import ended: the rows can't be read\n",
            1,
        ),
        (
            ProgramFault::NoRows,
            "uahist: rows refused: the file can't be opened\n",
            2,
        ),
        (
            ProgramFault::NumberTwice(17),
            "uahist: a number was given to two records (17)\n",
            1,
        ),
        (
            ProgramFault::RowsRefused(u64::MAX),
            "uahist: rows refused (18446744073709551615)\n",
            1,
        ),
        (
            ProgramFault::Line(LineFault::OutOfMemory),
            "uahist: memory ran out before the command began\n",
            2,
        ),
    ] {
        assert!(rt; is_told(rt.alloc(), Err(fault), said, status), "{said}");
    }
}
