//! What is told of what an archive holds.

use HistoryUpdateType::{Delete, Insert};
use archive::{Archive, Failure, LearnFault, ListArchive, ScriptedArchive, StoreFault};
use counted_io::Counted;
use records::{Moment, Record};
use settings_check::{CheckFault, print_store};
use stamp::ReplicaNo;
use std::alloc::Global;
use std::test::Fail;
use ua_binary::{NodeId, Text};
use ua_settings::Settings;
use ua_variant::{DataValue, HistoryUpdateType, Scalar, Variant};
use uuid::Uuid;

/// Settings with three variables, one of them in a folder.
const SETTINGS: &str = "[archive]\nid = '12345678-9abc-def0-1234-56789abcdef0'\nreplica = 1\n\
     [server]\nlisten = ''\nurl = ''\napplication = ''\nnamespace = ''\nanonymous = false\n\
     [[folder]]\nid = 'f'\nname = ''\n\
     [[variable]]\nid = 'in f'\nname = ''\ntype = 'Double'\nfolder = 'f'\n\
     [[variable]]\nid = 'truth'\nname = ''\ntype = 'Boolean'\n\
     [[variable]]\nid = \"no\\u001bne\"\nname = ''\ntype = 'Int32'\n";

/// 2026-03-01T12:00:00Z.
const NOON: i64 = 134_168_400_000_000_000;

/// A second.
const SECOND: i64 = 10_000_000;

/// The origin of an update, its number, its node, seconds behind noon, and what was asked.
type Row = (u8, u64, &'static str, i64, HistoryUpdateType);

/// Updates, one after the other: each inserts `true`, or deletes.
static ROWS: [Row; 6] = [
    (1, 1, "truth", 3, Insert),
    (1, 2, "truth", 1, Insert),
    (7, 1, "truth", 2, Insert),
    (1, 3, "truth", 4, Insert),
    (1, 4, "truth", 4, Delete),
    (1, 5, "in f", 5, Insert),
];

/// What is told of them.
const TOLD: &[u8] = b"5 records of replica 1\n\
    1 record of replica 7\n\
    truth: values from 2026-03-01T12:00:01.0000000Z to 2026-03-01T12:00:03.0000000Z\n\
    no?ne: no values\n\
    in f: values from 2026-03-01T12:00:05.0000000Z to 2026-03-01T12:00:05.0000000Z\n\
    warning: the settings say another type than that of the last value of in f\n";

/// What is written by an update.
fn variant_of(asked: HistoryUpdateType) -> Option<Variant> {
    match asked {
        Insert => Some(Variant::Scalar(Scalar::Boolean(true))),
        _ => None,
    }
}

/// The record of an update.
fn record_of(alloc: Global, row: &Row) -> Result<Record, StoreFault> {
    let (origin, number, node, second, asked) = *row;
    let Some(origin) = ReplicaNo::new(origin) else {
        return Err(StoreFault::WrongReplica);
    };
    let node = NodeId::Named(1, Text::from_str(alloc, node)?);
    let user = Text::from_str(alloc, "ann")?;
    Ok(Record {
        origin,
        number,
        tick: NOON.saturating_add(SECOND.saturating_mul(60i64.saturating_add_unsigned(number))),
        node,
        time: Moment::at(NOON.saturating_add(SECOND.saturating_mul(second))),
        asked,
        user,
        value: DataValue {
            value: variant_of(asked),
            status: None,
            source_time: None,
            source_pico: None,
            server_time: None,
            server_pico: None,
        },
    })
}

/// What an archive answers to an update.
fn learn<A: Archive>(alloc: Global, archive: &mut A, row: &Row) -> Result<bool, LearnFault> {
    let record = record_of(alloc, row)?;
    if record.is_lawful() {
        archive.learn(&record)
    } else {
        Err(LearnFault::Store(StoreFault::Refused))
    }
}

/// An archive takes all the updates.
fn learn_all<A: Archive>(alloc: Global, archive: &mut A) -> Result<(), LearnFault> {
    for row in &ROWS {
        learn(alloc, archive, row)?;
    }
    Ok(())
}

/// An archive that holds nothing.
fn empty_archive(alloc: Global) -> Result<ListArchive, StoreFault> {
    match ReplicaNo::new(1) {
        Some(one) => Ok(ListArchive::new(alloc, Uuid::nil(), one)),
        None => Err(StoreFault::WrongReplica),
    }
}

/// Whether this is printed of an archive.
fn is_printed<A: Archive>(alloc: Global, archive: &mut A, settings: &Settings) -> bool {
    let mut output = Counted::new(Vec::new(alloc));
    let ended = print_store(alloc, archive, settings, &mut output);
    let printed = output.into_inner();
    ended.is_ok() && printed.as_slice() == TOLD
}

/// Whether it is printed of an archive that took the updates.
fn is_told(alloc: Global, settings: &Settings) -> Result<bool, LearnFault> {
    let mut archive = empty_archive(alloc)?;
    learn_all(alloc, &mut archive)?;
    Ok(is_printed(alloc, &mut archive, settings))
}

/// Whether it is printed where the settings are these.
fn is_right(alloc: Global) -> Result<bool, Fail> {
    let settings = Settings::read(alloc, SETTINGS)?;
    Ok(is_told(alloc, &settings) == Ok(true))
}

#[test]
fn stores_are_told(rt: HostRuntime) -> Result<(), Fail> {
    assert!(rt; is_right(rt.alloc())?);
    Ok(())
}

/// Which call of an archive fails, how, and what ends the check then.
static FAULTS: [(u64, Failure, StoreFault); 4] = [
    (1, Failure::OutOfMemory, StoreFault::OutOfMemory),
    (1, Failure::Refused, StoreFault::Refused),
    (1, Failure::BrokenBefore, StoreFault::Broken),
    (2, Failure::BrokenAfter, StoreFault::Broken),
];

/// Whether a check of an archive ends by this fault, and nothing is printed.
fn ends_by<A: Archive>(
    alloc: Global,
    archive: &mut A,
    settings: &Settings,
    fault: StoreFault,
) -> bool {
    let mut output = Counted::new(Vec::new(alloc));
    let ended = print_store(alloc, archive, settings, &mut output);
    let printed = output.into_inner();
    ended == Err(CheckFault::Store(fault)) && printed.is_empty()
}

/// The same of an archive whose call fails so.
fn is_refused(alloc: Global, settings: &Settings, row: &(u64, Failure, StoreFault)) -> bool {
    let (call, failure, fault) = *row;
    let Some(one) = ReplicaNo::new(1) else {
        return false;
    };
    let mut archive = ScriptedArchive::new(alloc, Uuid::nil(), one, call, failure);
    ends_by(alloc, &mut archive, settings, fault)
}

/// The first of these checks that ends otherwise.
fn first_other(alloc: Global, settings: &Settings) -> Option<usize> {
    let mut place = 0;
    for row in &FAULTS {
        if !is_refused(alloc, settings, row) {
            return Some(place);
        }
        place = place.saturating_add(1usize);
    }
    None
}

/// The same where the settings are these.
fn first_other_of_all(alloc: Global) -> Result<Option<usize>, Fail> {
    let settings = Settings::read(alloc, SETTINGS)?;
    Ok(first_other(alloc, &settings))
}

#[test]
fn faults_of_stores_end_it(rt: HostRuntime) -> Result<(), Fail> {
    let other = first_other_of_all(rt.alloc())?;
    assert!(rt; other == None, "{other:?}");
    Ok(())
}
