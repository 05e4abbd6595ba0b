//! A plant, and imports into its archive.

ghost use Rattle.std.specs.Prelude.{◌≤◌, length};
ghost use Rattle.ua_session.specs.Users.{IsUserName};

use archive::{Archive, ListArchive, StoreFault};
use historian::Server;
use history_import::{Import, Perform};
use stamp::Vector;
use std::alloc::Global;
use ua_binary::Ticks;
use ua_settings::{Settings, SettingsFault};

/// 2026-03-01T12:00:00Z.
const NOON: i64 = 134_168_400_000_000_000;

/// A plant with an Int32, a String, an array, and a variable of each other kind of text; ann may write, bob only read.
const PLANT: &str = "[archive]
id = '00000000000000000000000000000000'
replica = 1
[server]
listen = ''
url = ''
application = ''
namespace = 'urn:plant'
anonymous = false
[[user]]
name = 'ann'
password = ''
[[user]]
name = 'bob'
password = ''
access = 'read'
[[folder]]
id = 'f'
name = 'Folder'
[[variable]]
id = 'T'
name = 'Temperature'
type = 'Int32'
[[variable]]
id = 'S'
name = 'State'
type = 'String'
[[variable]]
id = 'A'
name = 'Alarms'
type = 'Int32'
array = true
[[variable]]
id = 'B'
name = ''
type = 'Boolean'
[[variable]]
id = 'D'
name = ''
type = 'Double'
[[variable]]
id = 'M'
name = ''
type = 'DateTime'
[[variable]]
id = 'G'
name = ''
type = 'Guid'
[[variable]]
id = 'Y'
name = ''
type = 'ByteString'
";

/// The plant's settings.
pub(crate) fn settings_of(alloc: Global) -> Result<Settings, SettingsFault> {
    Settings::read(alloc, PLANT)
}

/// The plant's server, whose archive holds nothing.
pub(crate) fn server_of(alloc: Global) -> Result<Server<ListArchive>, SettingsFault> {
    let settings = settings_of(alloc)?;
    let archive = ListArchive::new(alloc, settings.archive(), settings.replica());
    Ok(Server::new(alloc, settings, archive))
}

/// How many records a server holds.
pub(crate) fn record_count<A: Archive>(server: &mut Server<A>) -> Result<usize, StoreFault> {
    let held = server
        .replica
        .archive
        .since(server.alloc, &Vector::new(), 1000)?;
    Ok(held.len())
}

/// An import in this name, at noon.
fn in_name(user: &'static str, perform: Perform) -> Import<'static>
    requires { length user.now ≤ 256 }
    ensures { IsUserName result.user.now }
{
    Import {
        user,
        perform,
        reading: Ticks(NOON),
    }
}

/// An import in ann's name, at noon.
pub(crate) fn by_ann(perform: Perform) -> Import<'static>
    ensures { IsUserName result.user.now }
{
    in_name("ann", perform)
}
