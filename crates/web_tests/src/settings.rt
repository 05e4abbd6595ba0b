//! What is told of settings.

use counted_io::Counted;
use settings_check::print_check;
use std::alloc::Global;
use std::test::Fail;
use ua_settings::Settings;

/// The start of each text.
const ARCHIVE: &str = "[archive]\nid = '12345678-9abc-def0-1234-56789abcdef0'\nreplica = 1\n";

/// What goes on behind the start, and what is told of it, but for the first line.
static ROWS: [(&str, &str); 7] = [
    (
        "store = '/var/plant.db'\n[server]\nlisten = '0.0.0.0:4840'\nurl = 'opc.tcp://plant-a:4840'\n\
         application = ''\nnamespace = ''\nanonymous = false\n\
         [[user]]\nname = 'ann'\npassword = 'pw'\n\
         [[peer]]\naddress = '10.1.0.2:4841'\nevery = 60\n\
         [door]\nlisten = '10.1.0.1:4841'\n\
         [web]\nlisten = '10.1.0.1:8080'\n",
        "store /var/plant.db\n\
         listens at 0.0.0.0:4840; clients are told opc.tcp://plant-a:4840\n\
         there are users with a name; without a name: not allowed\n\
         0 variables, 0 folders\n\
         1 peer is called; the door listens at 10.1.0.1:4841\n\
         browsers come to 10.1.0.1:8080, 8 at a time\n\
         warning: browsers send passwords unencrypted: have a proxy with TLS in front of [web]\n\
         warning: there is no [server] logins, so any number of passwords may be tried\n",
    ),
    (
        "[server]\nlisten = '0.0.0.0:4840'\nurl = 'opc.tcp://localhost:4840'\n\
         application = ''\nnamespace = ''\nanonymous = true\n",
        "no store: values are kept in memory and lost at the end\n\
         listens at 0.0.0.0:4840; clients are told opc.tcp://localhost:4840\n\
         there are no users with a name; without a name: allowed, may write\n\
         0 variables, 0 folders\n\
         0 peers are called; peers come to the clients' address\n\
         warning: url names this machine alone, so clients elsewhere can't use what they are told\n\
         warning: who gives no name may write\n\
         warning: there is no [door], so whoever reaches the clients' address can exchange records\n",
    ),
    (
        "store = 'plant.db'\n[server]\nlisten = '127.0.0.1:4840'\nurl = 'opc.tcp://127.0.0.1:4840'\n\
         application = ''\nnamespace = ''\nanonymous = true\nanonymous_access = 'read'\n\
         [web]\nlisten = '0.0.0.0:80'\nconnections = 100\n",
        "store plant.db\n\
         listens at 127.0.0.1:4840; clients are told opc.tcp://127.0.0.1:4840\n\
         there are no users with a name; without a name: allowed, reads only\n\
         0 variables, 0 folders\n\
         0 peers are called; peers come to the clients' address\n\
         browsers come to 0.0.0.0:80, 100 at a time\n\
         warning: nobody may write: there are no users with a name, and others may not\n\
         warning: the store's path is relative: from another folder it makes a new, empty archive\n",
    ),
    (
        "store = \"/a\\u001b[31mb\\u009bm\\n\"\n[server]\nlisten = '[::1]:4840'\nurl = 'http://[::1]/'\n\
         application = ''\nnamespace = ''\nanonymous = false\n",
        "store /a?[31mb\u{bf}m?\n\
         listens at [::1]:4840; clients are told http://[::1]/\n\
         there are no users with a name; without a name: not allowed\n\
         0 variables, 0 folders\n\
         0 peers are called; peers come to the clients' address\n\
         warning: url doesn't begin with opc.tcp://, so clients can't use what they are told\n\
         warning: nobody may write: there are no users with a name, and others may not\n",
    ),
    (
        "store = '/a'\n[server]\nlisten = '10.0.0.1:4840'\nurl = 'opc.tcp://a'\n\
         application = ''\nnamespace = ''\nanonymous = false\nlogins = 5\n\
         [[user]]\nname = 'ann'\npassword = 'pw'\n\
         [door]\nlisten = '10.0.0.1:4841'\n\
         [[peer]]\naddress = '10.0.0.2:4841'\nevery = 1\n\
         [[peer]]\naddress = '10.0.0.1:4840'\nevery = 1\n\
         [[peer]]\naddress = '10.0.0.2:4841'\nevery = 1\n\
         [[peer]]\naddress = '10.0.0.1:4841'\nevery = 1\n",
        "store /a\n\
         listens at 10.0.0.1:4840; clients are told opc.tcp://a\n\
         there are users with a name; without a name: not allowed\n\
         0 variables, 0 folders\n\
         4 peers are called; the door listens at 10.0.0.1:4841\n\
         after 5 refused logins from one address within a minute its next ones are answered a second later each\n\
         warning: two peers have the address 10.0.0.2:4841\n\
         warning: a peer has this server's own address 10.0.0.1:4840\n\
         warning: a peer has this server's own address 10.0.0.1:4841\n",
    ),
    (
        "store = '/a'\n[server]\nlisten = '127.0.0.1:4840'\nurl = 'opc.tcp://localhost:4840'\n\
         application = ''\nnamespace = ''\nanonymous = false\n\
         [[user]]\nname = 'ann'\npassword = 'pw'\n\
         [[folder]]\nid = 'f'\nname = ''\n\
         [[folder]]\nid = 'g'\nname = ''\n\
         [[variable]]\nid = 'a'\nname = ''\ntype = 'Double'\n\
         [[variable]]\nid = 'b'\nname = ''\ntype = 'Double'\nfolder = 'g'\n\
         [[variable]]\nid = 'c'\nname = ''\ntype = 'Double'\nfolder = 'f'\n",
        "store /a\n\
         listens at 127.0.0.1:4840; clients are told opc.tcp://localhost:4840\n\
         there are users with a name; without a name: not allowed\n\
         3 variables, 2 folders\n\
         0 peers are called; peers come to the clients' address\n\
         warning: there is no [server] logins, so any number of passwords may be tried\n",
    ),
    (
        "store = 'a'\n[server]\nlisten = '127.0.0.1:4840'\nurl = 'opc.tcp://localhost:4840'\n\
         application = ''\nnamespace = ''\nanonymous = false\nlogins = 1\n\
         [[user]]\nname = 'ann'\npassword = 'pw'\n\
         [web]\nlisten = '127.0.0.1:80'\n[log]\nevents = true\n",
        "store a\n\
         listens at 127.0.0.1:4840; clients are told opc.tcp://localhost:4840\n\
         there are users with a name; without a name: not allowed\n\
         0 variables, 0 folders\n\
         0 peers are called; peers come to the clients' address\n\
         browsers come to 127.0.0.1:80, 8 at a time\n\
         what happens is told on standard error, a line each\n\
         after 1 refused login from one address within a minute its next ones are answered a second later each\n\
         warning: the store's path is relative: from another folder it makes a new, empty archive\n",
    ),
];

/// What is printed of settings.
fn printed_of(alloc: Global, settings: &Settings) -> Vec<u8> {
    let mut output = Counted::new(Vec::new(alloc));
    match print_check(alloc, settings, &mut output) {
        Ok(()) => output.into_inner(),
        Err(_) => Vec::new(alloc),
    }
}

/// Whether this is printed of the settings of a text.
fn is_told(alloc: Global, rest: &str, told: &str) -> Result<bool, Fail> {
    let text = format!(in alloc; "{ARCHIVE}{rest}")?;
    let settings = Settings::read(alloc, text.as_str())?;
    let want = format!(in alloc;
        "archive 12345678-9abc-def0-1234-56789abcdef0, replica 1\n{told}"
    )?;
    let printed = printed_of(alloc, &settings);
    Ok(printed.as_slice() == want.as_bytes())
}

#[test]
fn settings_are_told(rt: HostRuntime) -> Result<(), Fail> {
    for (rest, told) in &ROWS {
        assert!(rt; is_told(rt.alloc(), rest, told)?, "{rest}");
    }
    Ok(())
}
