//! Users who may only read, beside one on the same server who may write.

use crate::services::{ACTIVATE, Client, Row, TOKEN, create_session, first_other, is_session_made};
use std::alloc::Global;
use std::test::Fail;
use ua_settings::Settings;

/// A plant with the one variable `ns=1;s=T`, an Int32: ann may write, ben and whoever has no name may read.
const PLANT: &str = r#"[archive]
id = "00000000000000000000000000000000"
replica = 1
[server]
listen = "127.0.0.1:4840"
url = "opc.tcp://localhost:4840"
application = "urn:uahist"
namespace = "urn:uahist:archive"
anonymous = true
anonymous_access = "read"
[[user]]
name = "ann"
password = "pw"
[[user]]
name = "ben"
password = ""
access = "read"
[[variable]]
id = "T"
name = "T"
type = "Int32"
"#;

/// The token of the second session, which is ann's.
const ANNS: &str = "01010500";

/// Activates as ann and as ben, by their names and passwords.
const ANN: &str =
    "FFFFFFFF FFFFFFFF FFFFFFFF FFFFFFFF 01004401 01 15000000 FFFFFFFF 03000000 616E6E 02000000 7077 FFFFFFFF FFFFFFFF FFFFFFFF";

const BEN: &str =
    "FFFFFFFF FFFFFFFF FFFFFFFF FFFFFFFF 01004401 01 13000000 FFFFFFFF 03000000 62656E 00000000 FFFFFFFF FFFFFFFF FFFFFFFF";

/// Inserts 7 at the time 20.
const INSERT: &str =
    "01000000 0100AA02 01 1E000000 0301000100000054 01000000 01000000 05 0607000000 1400000000000000";

const INSERTED: &str = "01000000 00000000 01000000 0000A200 FFFFFFFF FFFFFFFF";

/// Deletes what there is from 1 to 100.
const DELETE: &str =
    "01000000 0100B002 01 19000000 0301000100000054 00 0100000000000000 6400000000000000";

const DELETED: &str = "01000000 00000000 01000000 00000000 FFFFFFFF FFFFFFFF";

/// Inserts 7 at 20, deletes what there is from 1 to 100, and what there is at 20.
const THREE: &str =
    "03000000 0100AA02 01 1E000000 0301000100000054 01000000 01000000 05 0607000000 1400000000000000 0100B002 01 19000000 0301000100000054 00 0100000000000000 6400000000000000 0100B302 01 14000000 0301000100000054 01000000 1400000000000000";

/// Each of them is refused (Bad_UserAccessDenied), with no result of an operation.
const DENIED: &str =
    "03000000 00001F80 00000000 FFFFFFFF 00001F80 00000000 FFFFFFFF 00001F80 00000000 FFFFFFFF FFFFFFFF";

/// Details without a type, details of another type, of an unknown node twice and of the folder Objects twice, and the
/// times of the variable.
const OTHERS: &str =
    "07000000 0000 00 0100AD02 01 08000000 0301000100000054 0100AA02 01 1E000000 0301000100000055 01000000 01000000 05 0607000000 1400000000000000 0100B002 01 19000000 0301000100000055 00 0100000000000000 6400000000000000 0100B302 01 0E000000 0055 01000000 1400000000000000 0100AA02 01 18000000 0055 01000000 01000000 05 0607000000 1400000000000000 0100B302 01 14000000 0301000100000054 01000000 1400000000000000";

/// The last one alone is refused by the user's access: the others by Bad_HistoryOperationUnsupported and
/// Bad_NodeIdUnknown.
const OTHERS_REFUSED: &str =
    "07000000 00007280 00000000 FFFFFFFF 00007280 00000000 FFFFFFFF 00003480 00000000 FFFFFFFF 00003480 00000000 FFFFFFFF 00007280 00000000 FFFFFFFF 00007280 00000000 FFFFFFFF 00001F80 00000000 FFFFFFFF FFFFFFFF";

/// Reads the history from 1 to 100.
const READ: &str =
    "01008902 01 16000000 00 0100000000000000 6400000000000000 00000000 00 00000000 00 01000000 0301000100000054 FFFFFFFF 0000 FFFFFFFF FFFFFFFF";

const NOTHING: &str = "01000000 0000A500 FFFFFFFF 01009202 01 04000000 00000000 FFFFFFFF";

const INSERTED_VALUE: &str =
    "01000000 00000000 FFFFFFFF 01009202 01 12000000 01000000 05 0607000000 1400000000000000 FFFFFFFF";

/// Behind the deletion other records stand at its time, so its status has the bits of ExtraData.
const INSERTED_AGAIN: &str =
    "01000000 00000000 FFFFFFFF 01009202 01 16000000 01000000 07 0607000000 08040000 1400000000000000 FFFFFFFF";

/// Reads AccessLevel and UserAccessLevel.
const LEVELS: &str =
    "0000000000000000 03000000 02000000 0301000100000054 11000000 FFFFFFFF 0000 FFFFFFFF 0301000100000054 12000000 FFFFFFFF 0000 FFFFFFFF";

/// In the first session is a user who may read, in the second one ann. At the end ann is in the first one too.
static ROWS: [Row; 15] = [
    ("0100BC02", TOKEN, THREE, "0100BF02", "00000000", DENIED),
    ("01009802", TOKEN, READ, "01009B02", "00000000", NOTHING),
    (
        "0100BC02",
        TOKEN,
        OTHERS,
        "0100BF02",
        "00000000",
        OTHERS_REFUSED,
    ),
    ("0100BC02", TOKEN, "00000000", "01008D01", "00000F80", ""),
    ("0100BC02", ANNS, INSERT, "0100BF02", "00000000", INSERTED),
    ("0100BC02", TOKEN, THREE, "0100BF02", "00000000", DENIED),
    (
        "01009802",
        TOKEN,
        READ,
        "01009B02",
        "00000000",
        INSERTED_VALUE,
    ),
    (
        "01007702",
        TOKEN,
        LEVELS,
        "01007A02",
        "00000000",
        "02000000 01 030D 01 0305 FFFFFFFF",
    ),
    (
        "01007702",
        ANNS,
        LEVELS,
        "01007A02",
        "00000000",
        "02000000 01 030D 01 030D FFFFFFFF",
    ),
    ("0100BC02", ANNS, DELETE, "0100BF02", "00000000", DELETED),
    ("01009802", TOKEN, READ, "01009B02", "00000000", NOTHING),
    (
        "0100BC02",
        TOKEN,
        INSERT,
        "0100BF02",
        "00000000",
        "01000000 00001F80 00000000 FFFFFFFF FFFFFFFF",
    ),
    (
        "0100D301",
        TOKEN,
        ANN,
        "0100D601",
        "00000000",
        "FFFFFFFF FFFFFFFF FFFFFFFF",
    ),
    ("0100BC02", TOKEN, INSERT, "0100BF02", "00000000", INSERTED),
    (
        "01009802",
        ANNS,
        READ,
        "01009B02",
        "00000000",
        INSERTED_AGAIN,
    ),
];

/// Begins both sessions; whether they have their tokens.
fn begin(alloc: Global, client: &mut Client, reader: &str) -> Result<bool, Fail> {
    let made = create_session(alloc, client)? && is_session_made(alloc, client)?;
    let _ = client.ask(alloc, "0100D301", TOKEN, reader)?;
    let _ = client.ask(alloc, "0100D301", ANNS, ANN)?;
    Ok(made)
}

/// The first row that is answered otherwise, once both sessions are there.
fn first_other_of(alloc: Global, client: &mut Client, reader: &str) -> Result<Option<usize>, Fail> {
    if !begin(alloc, client, reader)? {
        return Err(Fail::from("no sessions"));
    }
    first_other(alloc, client, &ROWS)
}

/// The same at a server of the plant.
fn first_other_at_the_plant(alloc: Global, reader: &str) -> Result<Option<usize>, Fail> {
    let mut client = Client::of(alloc, Settings::read(alloc, PLANT)?);
    first_other_of(alloc, &mut client, reader)
}

/// Nobody is one who may read here, and ben is another.
#[test]
fn readers_change_nothing(rt: HostRuntime) -> Result<(), Fail> {
    for reader in [ACTIVATE, BEN] {
        assert_eq!(rt;
            first_other_at_the_plant(rt.alloc(), reader)?,
            None,
            "{reader}"
        );
    }
    Ok(())
}
