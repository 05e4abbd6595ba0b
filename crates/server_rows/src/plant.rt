//! A plant, its archive and its clock.

ghost use Rattle.std.specs.Prelude.{◌≡◌, IfSome};

use archive::ListArchive;
use stamp::ReplicaNo;
use std::alloc::Global;
use std::test::Fail;
use ua_binary::Text;
use ua_server::ConstantClock;
use ua_session::Users;
use ua_settings::{AfterBreak, Parts, Peers, Settings};
use ua_space::{Plan, Space, VariablePlan};
use uuid::Uuid;

/// A clock that stands at 1970-01-01.
pub fn clock() -> ConstantClock {
    ConstantClock(116_444_736_000_000_000)
}

/// The archive of these settings, which holds nothing.
pub fn archive_of(alloc: Global, settings: &Settings) -> ListArchive {
    ListArchive::new(alloc, settings.archive(), settings.replica())
}

/// A text; none for want of memory.
fn text_of(alloc: Global, text: &str) -> Option<Text>
    ensures { IfSome result (λ made. made ≡ text.now) }
{
    match Text::from_str(alloc, text) {
        Ok(made) => Some(made),
        Err(_) => None,
    }
}

/// A plant with the one variable `ns=1;s=T`, an Int32, at the replica of this number; none where it is no replica's, or for want
/// of memory.
pub fn plant_of(alloc: Global, number: u8) -> Option<Settings> {
    let plan = Plan {
        namespace: "urn:uahist:archive",
        folders: &[],
        variables: &[VariablePlan {
            id: "T",
            name: "T",
            type_name: "Int32",
            array: false,
            folder: None,
        }],
    };
    let url = text_of(alloc, "opc.tcp://localhost:4840")?;
    let application = text_of(alloc, "urn:uahist")?;
    Some(Settings::of(Parts {
        archive: Uuid::nil(),
        replica: ReplicaNo::new(number)?,
        store: None,
        listen: text_of(alloc, "127.0.0.1:4840")?,
        url,
        application,
        users: Users::new(alloc, true),
        space: Space::build(alloc, &plan).ok()?,
        connections: 64,
        waiting: 256,
        peers: Peers::new(alloc),
        door: None,
        web: None,
        after_break: AfterBreak::GoOn,
        is_indexed: false,
        is_strict: false,
        slow: None,
        logins: None,
        events: false,
    }))
}

/// The plant of replica 1.
pub fn plant(alloc: Global) -> Result<Settings, Fail> {
    Ok(plant_of(alloc, 1).ok_or("a plant")?)
}
