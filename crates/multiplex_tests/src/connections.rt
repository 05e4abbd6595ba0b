//! Clients of a script, and what each of them reads.

use crate::scripts::{Client, PLAIN, Played, play};
use multiplex::{Limits, SlotEnd};
use std::alloc::{AllocError, Global};
use std::test::Fail;

/// Three connections at once, as many as are to come, and room for all answers.
const WIDE: Limits = Limits {
    connections: None,
    accept_slots: 3,
    waiting_bytes: 1000,
    rounds: 200,
};

/// Whether the connection of a client was closed and had read this.
fn has_read(played: &Played, number: usize, text: &[u8]) -> bool {
    for (other, _, read) in played.closed.iter() {
        if *other == number {
            return read.as_slice() == text;
        }
    }
    false
}

/// Whether so many clients are served, and each reads its text, while the others read theirs.
fn each_reads(alloc: Global, clients: &[Client], texts: &[&[u8]]) -> Result<bool, AllocError> {
    let connections = Some(clients.len() as u64);
    let played = play(
        alloc,
        clients,
        Limits {
            connections,
            ..WIDE
        },
        4,
        0,
        1,
    )?;
    for (number, text) in texts.iter().enumerate() {
        if !has_read(&played, number, text) {
            return Ok(false);
        }
    }
    Ok(played.report.is_done && connections == Some(played.report.accepted))
}

/// Three clients that read and write at these paces.
fn at_paces(one: usize, two: usize, three: usize) -> [Client; 3] {
    [
        Client {
            text: b"a\nbb\n\n",
            each: 2,
            pace: one,
            hears: three,
            ends: false,
            ..PLAIN
        },
        Client {
            text: b"ccc\nd\ne",
            each: 3,
            pace: two,
            hears: one,
            ..PLAIN
        },
        Client {
            text: b"\nnot read",
            pace: three,
            hears: two,
            ..PLAIN
        },
    ]
}

#[test]
fn messages_come_in_all_orders(rt: HostRuntime) -> Result<(), Fail> {
    for one in 1..5 {
        for two in 1..5 {
            for three in 1..5 {
                let texts: [&[u8]; 3] = [b"a\nbb\n\n", b"ccc\nd\n", b"\n"];
                assert!(rt; each_reads(rt.alloc(), &at_paces(one, two, three), &texts)?);
            }
        }
    }
    Ok(())
}

#[test]
fn reads_and_writes_are_of_any_length(rt: HostRuntime) -> Result<(), Fail> {
    for each in 1..10 {
        for pace in 1..4 {
            let client = Client {
                text: b"abc\nd\n\n",
                each,
                pace,
                hears: pace,
                ends: false,
                ..PLAIN
            };
            assert!(rt; each_reads(rt.alloc(), &[client], &[b"abc\nd\n\n"])?);
        }
    }
    Ok(())
}

/// How many bytes of `ab\nc\n` are whole lines, where so many of them come.
static WHOLE: [usize; 8] = [0, 0, 0, 3, 3, 5, 5, 5];

#[test]
fn a_connection_breaks_at_each_byte(rt: HostRuntime) -> Result<(), Fail> {
    for (bytes, whole) in WHOLE.iter().enumerate() {
        let text: &[u8] = b"ab\nc\n";
        let reads = Client {
            text: b"ab\nc\n",
            reads: bytes,
            ..PLAIN
        };
        let writes = Client {
            text: b"ab\nc\n",
            writes: bytes,
            ..PLAIN
        };
        let other = Client {
            text: b"other\n",
            each: 1,
            ..PLAIN
        };
        let texts: [&[u8]; 3] = [&text[..*whole], &text[..bytes.min(5)], b"other\n"];
        assert!(rt; each_reads(rt.alloc(), &[reads, writes, other], &texts)?);
    }
    Ok(())
}

/// A script, its limits, and what comes of it: whether it is done; what each client that was closed had read in which
/// slot, and the listener and the end that its handler was told, in the order of closing; which lines were answered, and
/// when connections failed.
struct Row {
    clients: &'static [Client],
    limits: Limits,
    calls: usize,
    tick: u64,
    is_done: bool,
    closed: &'static [(usize, usize, &'static [u8])],
    ends: &'static [(usize, SlotEnd<u8>)],
    answers: &'static [u8],
    failed: &'static [u64],
}

static ROWS: [Row; 18] = [
    // an answer that waits holds its own connection alone, and is written when its second is over
    Row {
        clients: &[
            Client {
                text: b"~\nb\n",
                ..PLAIN
            },
            Client {
                text: b"c\nd\n",
                ..PLAIN
            },
        ],
        limits: Limits {
            connections: Some(2),
            ..WIDE
        },
        calls: 0,
        tick: 500,
        is_done: true,
        closed: &[(1, 1, b"c\nd\n"), (0, 0, b"~\nb\n")],
        ends: &[(0, SlotEnd::EndOfInput), (0, SlotEnd::EndOfInput)],
        answers: b"0~0c0d0b",
        failed: &[],
    },
    // one message of each client in a round
    Row {
        clients: &[
            Client {
                text: b"a\nb\n\n",
                ..PLAIN
            },
            Client {
                text: b"c\nd\n\n",
                ..PLAIN
            },
        ],
        limits: Limits {
            connections: Some(2),
            ..WIDE
        },
        calls: 0,
        tick: 1,
        is_done: true,
        closed: &[(0, 0, b"a\nb\n\n"), (1, 1, b"c\nd\n\n")],
        ends: &[(0, SlotEnd::Finished(0)), (0, SlotEnd::Finished(0))],
        answers: b"0a0b0c0\n0d0\n",
        failed: &[],
    },
    // the listener that each came to
    Row {
        clients: &[
            Client {
                text: b"a\n",
                listener: 1,
                ..PLAIN
            },
            Client {
                text: b"b\n",
                ..PLAIN
            },
        ],
        limits: Limits {
            connections: Some(2),
            ..WIDE
        },
        calls: 0,
        tick: 1,
        is_done: true,
        closed: &[(0, 0, b"a\n"), (1, 1, b"b\n")],
        ends: &[(1, SlotEnd::EndOfInput), (0, SlotEnd::EndOfInput)],
        answers: b"1a0b",
        failed: &[],
    },
    // no more than so many are accepted, and one that failed counts
    Row {
        clients: &[
            Client {
                fails: true,
                ..PLAIN
            },
            Client {
                text: b"b\n",
                ..PLAIN
            },
            Client {
                text: b"c\n",
                ..PLAIN
            },
        ],
        limits: Limits {
            connections: Some(2),
            ..WIDE
        },
        calls: 0,
        tick: 1,
        is_done: true,
        closed: &[(1, 0, b"b\n")],
        ends: &[(0, SlotEnd::EndOfInput)],
        answers: b"0b",
        failed: &[0],
    },
    // none at all
    Row {
        clients: &[Client {
            text: b"a\n",
            ..PLAIN
        }],
        limits: Limits {
            connections: Some(0),
            ..WIDE
        },
        calls: 1,
        tick: 1,
        is_done: true,
        closed: &[],
        ends: &[],
        answers: b"",
        failed: &[],
    },
    // one more than come: it isn't done
    Row {
        clients: &[Client {
            text: b"a\n",
            ..PLAIN
        }],
        limits: Limits {
            connections: Some(2),
            ..WIDE
        },
        calls: 0,
        tick: 1,
        is_done: false,
        closed: &[(0, 0, b"a\n")],
        ends: &[(0, SlotEnd::EndOfInput)],
        answers: b"0a",
        failed: &[],
    },
    // one slot for all, one after the other
    Row {
        clients: &[
            Client {
                text: b"a\n",
                ..PLAIN
            },
            Client {
                text: b"b\n",
                ..PLAIN
            },
        ],
        limits: Limits {
            connections: Some(2),
            accept_slots: 1,
            ..WIDE
        },
        calls: 0,
        tick: 1,
        is_done: true,
        closed: &[(0, 0, b"a\n"), (1, 0, b"b\n")],
        ends: &[(0, SlotEnd::EndOfInput), (0, SlotEnd::EndOfInput)],
        answers: b"0a0b",
        failed: &[],
    },
    // calls have slots of their own, and don't count
    Row {
        clients: &[Client {
            text: b"a\n",
            comes: 5,
            ..PLAIN
        }],
        limits: Limits {
            connections: Some(1),
            ..WIDE
        },
        calls: 2,
        tick: 1,
        is_done: true,
        closed: &[(100, 3, b"call"), (100, 3, b"call"), (0, 0, b"a\n")],
        ends: &[
            (1, SlotEnd::EndOfInput),
            (1, SlotEnd::EndOfInput),
            (0, SlotEnd::EndOfInput),
        ],
        answers: b"0a",
        failed: &[],
    },
    // silence: it ends at 120,000 milliseconds
    Row {
        clients: &[Client {
            text: b"a",
            ends: false,
            ..PLAIN
        }],
        limits: Limits { rounds: 13, ..WIDE },
        calls: 0,
        tick: 10_000,
        is_done: false,
        closed: &[],
        ends: &[],
        answers: b"",
        failed: &[],
    },
    Row {
        clients: &[Client {
            text: b"a",
            ends: false,
            ..PLAIN
        }],
        limits: Limits { rounds: 14, ..WIDE },
        calls: 0,
        tick: 10_000,
        is_done: false,
        closed: &[(0, 0, b"")],
        ends: &[(0, SlotEnd::IdleTimeout)],
        answers: b"",
        failed: &[],
    },
    // a client that doesn't read its answer isn't answered again
    Row {
        clients: &[Client {
            text: b"a\nb\n",
            hears: 0,
            ends: false,
            ..PLAIN
        }],
        limits: Limits {
            connections: Some(1),
            ..WIDE
        },
        calls: 0,
        tick: 10_000,
        is_done: true,
        closed: &[(0, 0, b"")],
        ends: &[(0, SlotEnd::IdleTimeout)],
        answers: b"0a",
        failed: &[],
    },
    // where nothing may wait nobody is answered
    Row {
        clients: &[Client {
            text: b"a\n",
            ..PLAIN
        }],
        limits: Limits {
            waiting_bytes: 0,
            rounds: 20,
            ..WIDE
        },
        calls: 0,
        tick: 1,
        is_done: false,
        closed: &[],
        ends: &[],
        answers: b"",
        failed: &[],
    },
    // where too much waits nobody is answered, till it is given up
    Row {
        clients: &[
            Client {
                text: b"a\n",
                hears: 0,
                ends: false,
                ..PLAIN
            },
            Client {
                text: b"b\n\n",
                comes: 10,
                ..PLAIN
            },
        ],
        limits: Limits {
            connections: Some(2),
            waiting_bytes: 2,
            ..WIDE
        },
        calls: 0,
        tick: 10_000,
        is_done: true,
        closed: &[(0, 0, b""), (1, 1, b"b\n\n")],
        ends: &[(0, SlotEnd::IdleTimeout), (0, SlotEnd::Finished(0))],
        answers: b"0a0b0\n",
        failed: &[],
    },
    // one that says nothing makes place for the next one, after 10,000 milliseconds
    Row {
        clients: &[
            Client {
                text: b"a",
                ends: false,
                ..PLAIN
            },
            Client {
                text: b"b\n\n",
                ..PLAIN
            },
        ],
        limits: Limits {
            connections: Some(2),
            accept_slots: 1,
            ..WIDE
        },
        calls: 0,
        tick: 1000,
        is_done: true,
        closed: &[(0, 0, b""), (1, 0, b"b\n\n")],
        ends: &[(0, SlotEnd::Displaced), (0, SlotEnd::Finished(0))],
        answers: b"0b0\n",
        failed: &[],
    },
    // one that is established doesn't
    Row {
        clients: &[
            Client {
                text: b"!\n",
                ends: false,
                ..PLAIN
            },
            Client {
                text: b"b\n\n",
                ..PLAIN
            },
        ],
        limits: Limits {
            connections: Some(2),
            accept_slots: 1,
            rounds: 50,
            ..WIDE
        },
        calls: 0,
        tick: 1000,
        is_done: false,
        closed: &[],
        ends: &[],
        answers: b"0!",
        failed: &[],
    },
    // two that have much to say are answered in turns
    Row {
        clients: &[
            Client {
                text: b"a\nb\nc\nd\n\n",
                ..PLAIN
            },
            Client {
                text: b"e\nf\ng\nh\n\n",
                ..PLAIN
            },
        ],
        limits: Limits {
            connections: Some(2),
            ..WIDE
        },
        calls: 0,
        tick: 1,
        is_done: true,
        closed: &[(0, 0, b"a\nb\nc\nd\n\n"), (1, 1, b"e\nf\ng\nh\n\n")],
        ends: &[(0, SlotEnd::Finished(0)), (0, SlotEnd::Finished(0))],
        answers: b"0a0b0e0c0f0d0g0\n0h0\n",
        failed: &[],
    },
    // one that breaks off behind its first line
    Row {
        clients: &[Client {
            text: b"a\nb\n",
            reads: 2,
            ..PLAIN
        }],
        limits: Limits {
            connections: Some(1),
            ..WIDE
        },
        calls: 0,
        tick: 1,
        is_done: true,
        closed: &[(0, 0, b"a\n")],
        ends: &[(0, SlotEnd::ReadFailed)],
        answers: b"0a",
        failed: &[],
    },
    // each that failed is told, with its time
    Row {
        clients: &[
            Client {
                fails: true,
                ..PLAIN
            },
            Client {
                fails: true,
                comes: 7,
                ..PLAIN
            },
            Client {
                text: b"a\n",
                ..PLAIN
            },
        ],
        limits: Limits {
            connections: Some(3),
            ..WIDE
        },
        calls: 0,
        tick: 1,
        is_done: true,
        closed: &[(2, 0, b"a\n")],
        ends: &[(0, SlotEnd::EndOfInput)],
        answers: b"0a",
        failed: &[0, 7],
    },
];

/// Whether each connection that was closed ended as the row says, and was told once.
fn are_told(ends: &[(usize, SlotEnd<u8>)], row: &Row) -> bool {
    if ends.len() != row.ends.len() {
        return false;
    }
    for ((listener, ending), want) in ends.iter().zip(row.ends.iter()) {
        if *listener != want.0 || *ending != want.1 {
            return false;
        }
    }
    true
}

/// Whether a script comes to what its row says.
fn is_as_said(alloc: Global, row: &Row) -> Result<bool, AllocError> {
    let played = play(alloc, row.clients, row.limits, 4, row.calls, row.tick)?;
    if played.closed.len() != row.closed.len() {
        return Ok(false);
    }
    for ((number, slot, text), want) in played.closed.iter().zip(row.closed.iter()) {
        if *number != want.0 || *slot != want.1 || text.as_slice() != want.2 {
            return Ok(false);
        }
    }
    let told = are_told(played.world.ends.as_slice(), row);
    let answered = played.world.answers.as_slice() == row.answers;
    let failed = played.world.failed.as_slice() == row.failed;
    let over = !played.report.is_over;
    Ok(played.report.is_done == row.is_done && over && told && answered && failed)
}

#[test]
fn scripts_come_to_what_is_said(rt: HostRuntime) -> Result<(), Fail> {
    for (number, row) in ROWS.iter().enumerate() {
        assert!(rt; is_as_said(rt.alloc(), row)?, "{number}");
    }
    Ok(())
}

#[test]
fn a_connection_knows_when_it_began_and_how_often_it_was_answered(
    rt: HostRuntime,
) -> Result<(), Fail> {
    let late = Client {
        comes: 7,
        text: b"a\nb\nc\n",
        ..PLAIN
    };
    let clients = [
        Client {
            text: b"d\n\n",
            ..PLAIN
        },
        late,
    ];
    let limits = Limits {
        connections: Some(2),
        ..WIDE
    };
    let played = play(rt.alloc(), &clients, limits, 4, 0, 1)?;
    assert!(rt; played.world.stays.as_slice() == [(2, 0), (3, 7)].as_slice());
    Ok(())
}

#[test]
fn a_world_that_is_over_ends_its_round_and_all(rt: HostRuntime) -> Result<(), Fail> {
    let clients = [
        Client {
            text: b"^\nb\n",
            ..PLAIN
        },
        Client {
            text: b"c\nd\n",
            ..PLAIN
        },
    ];
    let limits = Limits {
        connections: Some(2),
        ..WIDE
    };
    let played = play(rt.alloc(), &clients, limits, 4, 0, 1)?;
    assert!(rt; played.report.is_over && !played.report.is_done);
    assert_eq!(rt; played.report.accepted, 2);
    assert!(rt; played.world.answers.as_slice().len() <= 4);
    assert!(rt; played.world.answers.as_slice().starts_with(b"0^"));
    assert!(rt; played.closed.is_empty());
    Ok(())
}
