//! Which records are taken from a peer.

use crate::exchanges::list_replica;
use archive::ListArchive;
use exchange::{Admission, Bound, Dialog, ExchangeFault, Frames, Replica};
use history_rows::exchanges::{Row, merge_rows, replica_number};
use std::alloc::Global;
use std::test::Fail;

/// How many ticks a minute has.
const MINUTE: i64 = 600_000_000;

/// The frame by which a replica answers one that holds nothing.
pub(crate) fn answer_of(alloc: Global, holder: &mut Replica<ListArchive>) -> Result<Vec<u8>, Fail> {
    let mut asked = Vec::new(alloc);
    list_replica(alloc, 1)?.greet(alloc, &mut asked)?;
    let mut frames = Frames::new(alloc);
    frames.feed(asked.as_slice())?;
    let mut answer = Vec::new(alloc);
    let mut dialog = Dialog::responder();
    match frames.next_frame()? {
        Some(frame) => {
            dialog.take(alloc, holder, frame, &mut answer)?;
        }
        None => return Err(Fail::from("a frame")),
    }
    Ok(answer)
}

/// The frame by which a replica 2 that holds these records answers a replica that holds none.
fn brought(alloc: Global, rows: &[Row]) -> Result<Vec<u8>, Fail> {
    let mut holder = list_replica(alloc, 2)?;
    merge_rows(alloc, &mut holder, rows)?;
    answer_of(alloc, &mut holder)
}

/// Records of the replicas 2 and 3, the second a minute behind the time 0.
static ROWS: [Row; 2] = [(2, 1, 100, 7), (3, 1, MINUTE, 8)];

/// The bound at the number of a replica.
fn bound_of(pair: Option<(u8, u64)>) -> Result<Option<Bound>, Fail> {
    match pair {
        None => Ok(None),
        Some((replica, number)) => Ok(Some(Bound {
            replica: replica_number(replica)?,
            number,
        })),
    }
}

/// The replicas whose records are taken, up to which number those of one of them, how many seconds they may be ahead of which
/// time, and what is told.
type Judged = (
    Option<&'static [u8]>,
    Option<(u8, u64)>,
    Option<u32>,
    i64,
    Result<(), ExchangeFault>,
);

static JUDGED: [Judged; 18] = [
    (None, None, None, 0, Ok(())),
    (Some(&[2, 3]), None, None, 0, Ok(())),
    (Some(&[3, 4, 2]), None, Some(60), 0, Ok(())),
    (Some(&[2]), None, None, 0, Err(ExchangeFault::NotAdmitted)),
    (Some(&[3]), None, None, 0, Err(ExchangeFault::NotAdmitted)),
    (Some(&[]), None, None, 0, Err(ExchangeFault::NotAdmitted)),
    (None, None, Some(60), 0, Ok(())),
    (None, None, Some(60), -1, Err(ExchangeFault::AheadOfClock)),
    (None, None, Some(59), 0, Err(ExchangeFault::AheadOfClock)),
    (None, None, Some(1), i64::MAX, Ok(())),
    (
        Some(&[2]),
        None,
        Some(1),
        0,
        Err(ExchangeFault::NotAdmitted),
    ),
    (None, Some((2, 1)), None, 0, Ok(())),
    (None, Some((2, 0)), None, 0, Err(ExchangeFault::NotAdmitted)),
    (None, Some((3, 1)), None, 0, Ok(())),
    (None, Some((3, 0)), None, 0, Err(ExchangeFault::NotAdmitted)),
    (None, Some((4, 0)), None, 0, Ok(())),
    (Some(&[2, 3]), Some((3, 9)), Some(60), 0, Ok(())),
    (
        None,
        Some((2, 0)),
        Some(1),
        0,
        Err(ExchangeFault::NotAdmitted),
    ),
];

#[test]
fn records_are_taken_by_replica_number_and_tick(rt: HostRuntime) -> Result<(), Fail> {
    let alloc = rt.alloc();
    let frame = brought(alloc, &ROWS)?;
    let replica = list_replica(alloc, 1)?;
    for (i, (numbers, bound, ahead, time, want)) in JUDGED.iter().enumerate() {
        let mut replicas = Vec::new(alloc);
        for number in numbers.unwrap_or(&[]) {
            replicas.push(replica_number(*number)?)?;
        }
        let admission = Admission {
            replicas: numbers.map(|_| replicas.as_slice()),
            bound: bound_of(*bound)?,
            ahead: *ahead,
            time: *time,
        };
        let mut frames = Frames::new(alloc);
        frames.feed(frame.as_slice())?;
        let told = replica.judge_first(alloc, &admission, &frames);
        assert_eq!(rt; told, *want, "{i}");
        assert!(rt; frames.peek().is_some());
    }
    Ok(())
}

/// What is less than a frame, none, or none to this replica is left to the dialog.
#[test]
fn what_is_no_message_is_left_to_the_dialog(rt: HostRuntime) -> Result<(), Fail> {
    let alloc = rt.alloc();
    let frame = brought(alloc, &ROWS)?;
    let own = list_replica(alloc, 1)?;
    let peer = list_replica(alloc, 2)?;
    let admission = Admission {
        replicas: Some(&[]),
        bound: None,
        ahead: None,
        time: 0,
    };
    let short = frame.as_slice().get(..20).ok_or("twenty bytes")?;
    for bytes in [short, b"HELF", b"RXDF\xff\xff\xff\xff"] {
        let mut frames = Frames::new(alloc);
        frames.feed(bytes)?;
        assert_eq!(rt; own.judge_first(alloc, &admission, &frames), Ok(()));
    }
    let mut frames = Frames::new(alloc);
    frames.feed(frame.as_slice())?;
    assert_eq!(rt; peer.judge_first(alloc, &admission, &frames), Ok(()));
    assert_eq!(rt;
        own.judge_first(alloc, &admission, &frames),
        Err(ExchangeFault::NotAdmitted)
    );
    Ok(())
}
