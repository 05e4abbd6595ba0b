use crate::texts::is_text;
use std::alloc::{AllocError, Global};
use std::test::Fail;
use ua_binary::{NodeIdRef, Text};
use ua_session::{Access, Identity, SessionFault, Sessions, Users};
use ua_settings::{AfterBreak, PasswordLine, Place, Settings, SettingsFault, password_files};
use ua_space::BuildFault;

/// A settings file with each kind of table.
const SAMPLE: &str = r#"[archive]
id = "6f9619ff-8b86-d011-b42d-00c04fc964ff"
replica = 2
store = "plant.db"
[server]
listen = "127.0.0.1:4840"
url = "opc.tcp://localhost:4840"
application = "urn:uahist"
namespace = "urn:uahist:archive"
anonymous = false
[[user]]
name = "ann"
password = "pw"
[[user]]
name = "ben"
password = ""
[[folder]]
id = "boiler"
name = "Boiler"
[[variable]]
id = "T"
name = "Temperature"
type = "Double"
folder = "boiler"
[[variable]]
id = "V"
name = "Valves"
type = "Boolean"
array = true
"#;

/// The start of a file: all that has to be there but the namespace and whether users without a name are let in.
const HEAD: &str =
    "[archive]\nid = '00000000000000000000000000000000'\nreplica = 1\n[server]\nlisten = ''\nurl = ''\napplication = ''\n";

/// What goes on behind the start, and why it is refused, if it is.
static ROWS: [(&str, Option<SettingsFault>); 82] = [
    ("namespace = ''\nanonymous = true", None),
    ("namespace = ''\nanonymous =", Some(SettingsFault::NotToml)),
    (
        "namespace = ''\nnamespace = ''",
        Some(SettingsFault::NotToml),
    ),
    ("anonymous = true", Some(SettingsFault::MissingKey)),
    (
        "namespace = ''\nanonymous = 1",
        Some(SettingsFault::BadValue),
    ),
    (
        "namespace = 1\nanonymous = true",
        Some(SettingsFault::BadValue),
    ),
    (
        "namespace = ''\nanonymous = true\ncolour = 1",
        Some(SettingsFault::UnknownKey),
    ),
    ("colour = 1", Some(SettingsFault::UnknownKey)),
    ("anonymous = 1", Some(SettingsFault::MissingKey)),
    (
        "namespace = ''\nanonymous = true\n[colour]",
        Some(SettingsFault::UnknownKey),
    ),
    (
        "namespace = ''\nanonymous = true\n[user]\nname = 'ann'\npassword = 'pw'",
        Some(SettingsFault::BadValue),
    ),
    (
        "namespace = ''\nanonymous = true\n[user]\ncolour = 1",
        Some(SettingsFault::BadValue),
    ),
    (
        "namespace = ''\nanonymous = true\n[[user]]\nname = 'ann'\npassword = ''",
        None,
    ),
    (
        "namespace = ''\nanonymous = true\n[[user]]\nname = 'ann'",
        Some(SettingsFault::MissingKey),
    ),
    (
        "namespace = ''\nanonymous = true\n[[user]]\nname = ''\npassword = ''",
        Some(SettingsFault::BadValue),
    ),
    (
        "namespace = ''\nanonymous = true\n[[user]]\nname = 'anonymous'\npassword = ''",
        Some(SettingsFault::BadValue),
    ),
    (
        "namespace = ''\nanonymous = true\n[[user]]\nname = 'ann'\npassword = ''\n[[user]]\nname = 'ann'\npassword = 'x'",
        Some(SettingsFault::BadValue),
    ),
    (
        "namespace = ''\nanonymous = true\n[[folder]]\nid = ''\nname = ''",
        None,
    ),
    (
        "namespace = ''\nanonymous = true\n[[folder]]\nid = 'f'\nname = 1",
        Some(SettingsFault::BadValue),
    ),
    (
        "namespace = ''\nanonymous = true\n[[variable]]\nid = 'T'\nname = ''\ntype = 'Int32'",
        None,
    ),
    (
        "namespace = ''\nanonymous = true\n[[variable]]\nid = ''\nname = ''\ntype = 'Int32'",
        Some(SettingsFault::BadValue),
    ),
    (
        "namespace = ''\nanonymous = true\n[[variable]]\nid = 'T'\nname = ''\ntype = 'Int32'\narray = 1",
        Some(SettingsFault::BadValue),
    ),
    (
        "namespace = ''\nanonymous = true\n[[variable]]\nid = 'T'\nname = ''\ntype = 'Int32'\nfolder = 'f'",
        Some(SettingsFault::BadValue),
    ),
    (
        "namespace = ''\nanonymous = true\n[[variable]]\nid = 'T'\nname = ''\ntype = 'Int32'\nfolder = 'f'\n[[folder]]\nid = 'f'\nname = ''",
        None,
    ),
    (
        "namespace = ''\nanonymous = true\n[[variable]]\nid = 'T'\nname = ''\ntype = 'Int33'",
        Some(SettingsFault::Space(BuildFault::BadType)),
    ),
    (
        "namespace = ''\nanonymous = true\n[[variable]]\nid = 'T'\nname = ''\ntype = 'Int32'\n[[variable]]\nid = 'T'\nname = ''\ntype = 'Int32'",
        Some(SettingsFault::Space(BuildFault::DuplicateNode)),
    ),
    (
        "namespace = ''\nanonymous = true\n[[variable]]\nid = 'T'\nname = ''\ntype = 'Int32'\n[[folder]]\nid = 'T'\nname = ''",
        Some(SettingsFault::Space(BuildFault::DuplicateNode)),
    ),
    (
        "namespace = ''\nanonymous = true\n[[variable]]\nid = 'T'\nname = ''\ntype = 'Int33'\n[[folder]]\nid = 'T'\nname = ''\ncolour = 1",
        Some(SettingsFault::UnknownKey),
    ),
    (
        "namespace = ''\nanonymous = 1\n[[variable]]\nid = 'T'\ntype = 'Int33'",
        Some(SettingsFault::MissingKey),
    ),
    (
        "user = [1]\nnamespace = ''\nanonymous = true",
        Some(SettingsFault::UnknownKey),
    ),
    (
        "namespace = ''\nanonymous = true\nanonymous_access = 'Read'",
        Some(SettingsFault::BadValue),
    ),
    (
        "namespace = ''\nanonymous = true\nanonymous_access = true",
        Some(SettingsFault::BadValue),
    ),
    ("namespace = ''\nanonymous = true\nstrict = false", None),
    ("namespace = ''\nanonymous = true\nslow = 60000", None),
    (
        "namespace = ''\nanonymous = true\nslow = 60001",
        Some(SettingsFault::BadValue),
    ),
    (
        "namespace = ''\nanonymous = true\nstrict = 1",
        Some(SettingsFault::BadValue),
    ),
    (
        "namespace = ''\nanonymous = true\nbroken = 'stop'",
        Some(SettingsFault::UnknownKey),
    ),
    (
        "namespace = ''\nanonymous = true\n[[user]]\nname = 'ann'\npassword = ''\naccess = ''",
        Some(SettingsFault::BadValue),
    ),
    (
        "namespace = ''\nanonymous = true\n[[user]]\nname = 'ann'\npassword = ''\naccess = 1",
        Some(SettingsFault::BadValue),
    ),
    (
        "namespace = ''\nanonymous = true\n[door]",
        Some(SettingsFault::MissingKey),
    ),
    (
        "namespace = ''\nanonymous = true\n[door]\nlisten = 1",
        Some(SettingsFault::BadValue),
    ),
    (
        "namespace = ''\nanonymous = true\n[door]\nlisten = ''\nurl = ''",
        Some(SettingsFault::UnknownKey),
    ),
    (
        "namespace = ''\nanonymous = true\n[[door]]\nlisten = ''",
        Some(SettingsFault::BadValue),
    ),
    (
        "namespace = ''\nanonymous = true\n[door]\nlisten = ''\nfrom = []",
        None,
    ),
    (
        "namespace = ''\nanonymous = true\n[door]\nlisten = ''\nfrom = ['10.1.0.0/16', 'peers']",
        None,
    ),
    (
        "namespace = ''\nanonymous = true\n[door]\nlisten = ''\nfrom = '10.1.0.0/16'",
        Some(SettingsFault::BadValue),
    ),
    (
        "namespace = ''\nanonymous = true\n[door]\nlisten = ''\nfrom = ['10.1.0.0/16', 1]",
        Some(SettingsFault::BadValue),
    ),
    (
        "namespace = ''\nanonymous = true\n[door]\nlisten = ''\nreplicas = [2, 64, 1]\nahead = 60",
        None,
    ),
    (
        "namespace = ''\nanonymous = true\n[door]\nlisten = ''\nreplicas = []\nahead = 31536000",
        None,
    ),
    (
        "namespace = ''\nanonymous = true\n[door]\nlisten = ''\nreplicas = [2, 0]",
        Some(SettingsFault::BadValue),
    ),
    (
        "namespace = ''\nanonymous = true\n[door]\nlisten = ''\nreplicas = [65]",
        Some(SettingsFault::BadValue),
    ),
    (
        "namespace = ''\nanonymous = true\n[door]\nlisten = ''\nreplicas = ['2']",
        Some(SettingsFault::BadValue),
    ),
    (
        "namespace = ''\nanonymous = true\n[door]\nlisten = ''\nreplicas = 2",
        Some(SettingsFault::BadValue),
    ),
    (
        "namespace = ''\nanonymous = true\n[door]\nlisten = ''\nahead = 0",
        Some(SettingsFault::BadValue),
    ),
    (
        "namespace = ''\nanonymous = true\n[door]\nlisten = ''\nahead = 31536001",
        Some(SettingsFault::BadValue),
    ),
    (
        "namespace = ''\nanonymous = true\n[door]\nfrom = []",
        Some(SettingsFault::MissingKey),
    ),
    (
        "namespace = ''\nanonymous = true\n[web]",
        Some(SettingsFault::MissingKey),
    ),
    (
        "namespace = ''\nanonymous = true\n[web]\nlisten = 1",
        Some(SettingsFault::BadValue),
    ),
    ("namespace = ''\nanonymous = true\n[web]\nlisten = ''", None),
    (
        "namespace = ''\nanonymous = true\n[web]\nlisten = ''\nconnections = 1000",
        None,
    ),
    (
        "namespace = ''\nanonymous = true\n[web]\nlisten = ''\nconnections = 0",
        Some(SettingsFault::BadValue),
    ),
    (
        "namespace = ''\nanonymous = true\n[web]\nlisten = ''\nconnections = 1001",
        Some(SettingsFault::BadValue),
    ),
    (
        "namespace = ''\nanonymous = true\n[web]\nlisten = ''\nfrom = []",
        Some(SettingsFault::UnknownKey),
    ),
    (
        "namespace = ''\nanonymous = true\n[[web]]\nlisten = ''",
        Some(SettingsFault::BadValue),
    ),
    (
        "namespace = ''\nanonymous = true\n[web]\nconnections = 8",
        Some(SettingsFault::MissingKey),
    ),
    ("namespace = ''\nanonymous = true\nlogins = 1", None),
    ("namespace = ''\nanonymous = true\nlogins = 1000", None),
    (
        "namespace = ''\nanonymous = true\nlogins = 0",
        Some(SettingsFault::BadValue),
    ),
    (
        "namespace = ''\nanonymous = true\nlogins = 1001",
        Some(SettingsFault::BadValue),
    ),
    (
        "namespace = ''\nanonymous = true\nlogins = -1",
        Some(SettingsFault::BadValue),
    ),
    (
        "namespace = ''\nanonymous = true\nlogins = 5.0",
        Some(SettingsFault::BadValue),
    ),
    (
        "namespace = ''\nanonymous = true\nlogins = true",
        Some(SettingsFault::BadValue),
    ),
    ("namespace = ''\nanonymous = true\n[log]", None),
    (
        "namespace = ''\nanonymous = true\n[log]\nevents = false",
        None,
    ),
    (
        "namespace = ''\nanonymous = true\n[log]\nevents = 1",
        Some(SettingsFault::BadValue),
    ),
    (
        "namespace = ''\nanonymous = true\n[log]\nevents = 'true'",
        Some(SettingsFault::BadValue),
    ),
    (
        "namespace = ''\nanonymous = true\n[[log]]\nevents = true",
        Some(SettingsFault::BadValue),
    ),
    (
        "namespace = ''\nanonymous = true\n[log]\nlogins = 5",
        Some(SettingsFault::UnknownKey),
    ),
    (
        "namespace = ''\nanonymous = true\nevents = true",
        Some(SettingsFault::UnknownKey),
    ),
    (
        "namespace = ''\nanonymous = true\n[[user]]\nname = 'ann'\npassword_file = 'ann'",
        Some(SettingsFault::BadValue),
    ),
    (
        "namespace = ''\nanonymous = true\n[[user]]\nname = 'ann'\npassword_file = 1",
        Some(SettingsFault::BadValue),
    ),
    (
        "namespace = ''\nanonymous = true\n[[user]]\nname = 'ann'\npassword = ''\npassword_file = 'ann'",
        Some(SettingsFault::BadValue),
    ),
];

/// What is asked of settings.
#[derive(Clone, Copy)]
enum Asked<'a> {
    /// Whether they are the sample's.
    Sample,
    /// What the user of a name may do.
    AccessOf(&'a str, Access),
    /// What is done once the store is broken, and whether the archive has an index of live values.
    Archive(AfterBreak, bool),
    /// Where the door is.
    Door(&'a str),
    /// The records that the door takes: of which replicas, and how far ahead.
    Admitted(&'a [u8], u32),
    /// Where browsers come to, and how many at a time.
    Web(&'a str, u32),
    /// After how many refused logins the next ones wait, and whether what happens is told.
    Log(Option<u32>, bool),
    /// Whether the users have the passwords of the files.
    Passwords,
}

/// Whether it is so in some settings.
fn is_so(alloc: Global, settings: &Settings, asked: Asked<'_>) -> bool {
    match asked {
        Asked::Sample => is_sample(settings) && type_in(settings) == Some(11),
        Asked::AccessOf(name, access) => settings.users().access_of(name) == access,
        Asked::Archive(broken, indexed) => {
            settings.after_break() == broken && settings.is_indexed() == indexed
        }
        Asked::Door(address) => has_door(settings, address),
        Asked::Admitted(replicas, ahead) => admits(settings, replicas, ahead),
        Asked::Web(address, connections) => has_web(settings, address, connections),
        Asked::Log(logins, events) => {
            settings.logins() == logins && settings.tells_events() == events
        }
        Asked::Passwords => are_users(alloc, settings.users()) == Ok(true),
    }
}

/// Whether settings were read in which it is so.
fn are_so(alloc: Global, read: Result<Settings, SettingsFault>, asked: Asked<'_>) -> bool {
    match read {
        Ok(settings) => is_so(alloc, &settings, asked),
        Err(_) => false,
    }
}

/// Whether it is so by what goes on behind the start.
fn says(alloc: Global, before: &str, rest: &str, asked: Asked<'_>) -> Result<bool, AllocError> {
    let text = format!(in alloc; "{HEAD}{before}{rest}")?;
    Ok(are_so(alloc, Settings::read(alloc, text.as_str()), asked))
}

/// Why what goes on behind the start is refused, if it is.
fn refusal(alloc: Global, rest: &str) -> Result<Option<SettingsFault>, AllocError> {
    let text = format!(in alloc; "{HEAD}{rest}\n")?;
    Ok(Settings::read(alloc, text.as_str()).err())
}

#[test]
fn files_are_judged(rt: HostRuntime) -> Result<(), Fail> {
    for (rest, fault) in &ROWS {
        assert_eq!(rt; refusal(rt.alloc(), rest)?, *fault, "{rest}");
    }
    Ok(())
}

/// Whether these are the sample's settings.
fn is_sample(settings: &Settings) -> bool {
    settings.replica().get() == 2
        && settings.archive().as_bytes()[0] == 0x6f
        && settings.store() == Some("plant.db")
        && settings.listen() == "127.0.0.1:4840"
        && settings.url() == "opc.tcp://localhost:4840"
        && settings.application() == "urn:uahist"
        && settings.door().is_none()
        && settings.web().is_none()
        && !settings.users().allows_anonymous()
        && settings.users().has_named()
}

/// The number of the type of the sample's variable.
fn type_in(settings: &Settings) -> Option<u8> {
    let found = settings.space().variable(NodeIdRef::Named(1, "T"))?;
    Some(found.value_type.number)
}

#[test]
fn sample_is_read(rt: HostRuntime) {
    assert!(rt;
        are_so(
            rt.alloc(),
            Settings::read(rt.alloc(), SAMPLE),
            Asked::Sample
        )
    );
}

/// What goes on behind the start, a name, and what the user of that name may do.
static ACCESSES: [(&str, &str, Access); 7] = [
    (
        "namespace = ''\nanonymous = true",
        "anonymous",
        Access::Write,
    ),
    (
        "namespace = ''\nanonymous = true\nanonymous_access = 'write'",
        "anonymous",
        Access::Write,
    ),
    (
        "namespace = ''\nanonymous = true\nanonymous_access = 'read'",
        "anonymous",
        Access::Read,
    ),
    (
        "namespace = ''\nanonymous = true\nanonymous_access = 'read'\n[[user]]\nname = 'ann'\npassword = ''",
        "ann",
        Access::Write,
    ),
    (
        "namespace = ''\nanonymous = true\n[[user]]\nname = 'ann'\npassword = ''\naccess = 'write'",
        "ann",
        Access::Write,
    ),
    (
        "namespace = ''\nanonymous = true\n[[user]]\nname = 'ann'\npassword = ''\naccess = 'read'",
        "ann",
        Access::Read,
    ),
    (
        "namespace = ''\nanonymous = true\n[[user]]\nname = 'ann'\npassword = ''\naccess = 'read'",
        "anonymous",
        Access::Write,
    ),
];

#[test]
fn accesses_are_read(rt: HostRuntime) -> Result<(), Fail> {
    for (rest, name, access) in &ACCESSES {
        let asked = Asked::AccessOf(name, *access);
        assert!(rt; says(rt.alloc(), rest, "\n", asked)?, "{rest}");
    }
    Ok(())
}

/// What stands in `[archive]`, what is done then once the store is broken, and whether the archive has an index; none where it is refused.
static ARCHIVES: [(&str, Option<(AfterBreak, bool)>); 10] = [
    ("", Some((AfterBreak::GoOn, false))),
    ("broken = 'stop'\n", Some((AfterBreak::Stop, false))),
    (
        "broken = 'reopen'\nindex = true\n",
        Some((AfterBreak::Reopen, true)),
    ),
    ("index = true\n", Some((AfterBreak::GoOn, true))),
    ("index = false\n", Some((AfterBreak::GoOn, false))),
    ("index = 1\n", None),
    ("broken = 'Reopen'\n", None),
    ("broken = 'go on'\n", None),
    ("broken = ''\n", None),
    ("broken = true\n", None),
];

/// Whether a text says so of the archive; none: whether the text is refused.
fn is_archive(alloc: Global, text: &str, said: Option<(AfterBreak, bool)>) -> bool {
    match said {
        Some((broken, indexed)) => {
            let asked = Asked::Archive(broken, indexed);
            are_so(alloc, Settings::read(alloc, text), asked)
        }
        None => Settings::read(alloc, text).is_err(),
    }
}

/// The same of a text with this in `[archive]`.
fn archive_says(
    alloc: Global,
    key: &str,
    said: Option<(AfterBreak, bool)>,
) -> Result<bool, AllocError> {
    let text = format!(in alloc;
        "[archive]\n{key}id = '00000000000000000000000000000000'\nreplica = 1\n[server]\nlisten = ''\nurl = ''\napplication = ''\nnamespace = ''\nanonymous = true\n"
    )?;
    Ok(is_archive(alloc, text.as_str(), said))
}

#[test]
fn archives_are_read(rt: HostRuntime) -> Result<(), Fail> {
    for (key, said) in &ARCHIVES {
        assert!(rt; archive_says(rt.alloc(), key, *said)?, "{key}");
    }
    Ok(())
}

/// Whether the door is at this address.
fn has_door(settings: &Settings, address: &str) -> bool {
    settings
        .door()
        .is_some_and(|door| door.listen.as_str() == address)
}

/// Whether the door takes records of these replicas, and so far ahead.
fn admits(settings: &Settings, replicas: &[u8], ahead: u32) -> bool {
    settings.door().is_some_and(|door| {
        door.ahead == Some(ahead)
            && door.replicas.as_ref().is_some_and(|listed| {
                listed
                    .iter()
                    .map(|replica| replica.get())
                    .eq(replicas.iter().copied())
            })
    })
}

/// Whether browsers come to this address, and so many at a time.
fn has_web(settings: &Settings, address: &str, connections: u32) -> bool {
    settings.web().is_some_and(|web| web.listen.as_str() == address
        && web.connections == connections)
}

/// A namespace, and users without a name, who are let in.
const OPEN: &str = "namespace = ''\nanonymous = true\n";

/// What a door takes, in the text of the next test.
const ADMISSIONS: &str = "[door]\nlisten = ''\nreplicas = [3, 1, 64]\nahead = 90\n";

/// Replicas, and whether they are those of that door.
static ADMITTED: [(&[u8], bool); 2] = [(&[3, 1, 64], true), (&[3, 1], false)];

#[test]
fn admissions_are_read(rt: HostRuntime) -> Result<(), Fail> {
    for row in &ADMITTED {
        let (replicas, admitted) = *row;
        let asked = Asked::Admitted(replicas, 90);
        assert_eq!(rt; says(rt.alloc(), OPEN, ADMISSIONS, asked)?, admitted);
    }
    Ok(())
}

/// A page at an address, with what goes on behind it.
const PAGE: &str = "namespace = ''\nanonymous = true\n[web]\nlisten = '127.0.0.1:8080'\n";

/// How many browsers at a time that is: eight where the text doesn't say.
static WEBS: [(&str, u32); 3] = [
    ("", 8),
    ("connections = 1\n", 1),
    ("connections = 900\n", 900),
];

#[test]
fn webs_are_read(rt: HostRuntime) -> Result<(), Fail> {
    for row in &WEBS {
        let (rest, connections) = *row;
        let asked = Asked::Web("127.0.0.1:8080", connections);
        assert!(rt; says(rt.alloc(), PAGE, rest, asked)?, "{rest}");
    }
    Ok(())
}

/// What goes on after the start; after how many refused logins the next ones wait, and whether what happens is told.
static LOGS: [(&str, Option<u32>, bool); 6] = [
    ("", None, false),
    ("logins = 1\n", Some(1), false),
    ("logins = 1000\n", Some(1_000), false),
    ("[log]\n", None, false),
    ("logins = 5\n[log]\nevents = true\n", Some(5), true),
    ("strict = true\n[log]\nevents = false\n", None, false),
];

#[test]
fn logs_are_read(rt: HostRuntime) -> Result<(), Fail> {
    for (rest, logins, events) in &LOGS {
        let asked = Asked::Log(*logins, *events);
        assert!(rt; says(rt.alloc(), OPEN, rest, asked)?, "{rest}");
    }
    Ok(())
}

/// Whether a door that listens at an address is there.
fn is_door(alloc: Global, address: &str) -> Result<bool, AllocError> {
    let rest = format!(in alloc; "[door]\nlisten = '{address}'\n")?;
    says(alloc, OPEN, rest.as_str(), Asked::Door(address))
}

/// The door's text is kept as it is, whatever it spells.
#[test]
fn doors_are_read(rt: HostRuntime) -> Result<(), Fail> {
    for address in ["127.0.0.1:4841", "[::1]:4841", "peers", ""] {
        assert!(rt; is_door(rt.alloc(), address)?, "{address}");
    }
    Ok(())
}

/// The faults and their numbers.
static NUMBERS: [(SettingsFault, u8); 6] = [
    (SettingsFault::NotToml, 1),
    (SettingsFault::MissingKey, 2),
    (SettingsFault::BadValue, 3),
    (SettingsFault::UnknownKey, 4),
    (SettingsFault::Space(BuildFault::TooMany), 5),
    (SettingsFault::OutOfMemory, 6),
];

#[test]
fn faults_have_numbers(rt: HostRuntime) {
    for (fault, number) in &NUMBERS {
        assert_eq!(rt; fault.number(), *number);
    }
}

/// What goes on behind the start, and the place where it is refused.
static PLACES: [(&str, &str); 23] = [
    ("namespace =", "line 8"),
    ("namespace = ''\nanonymous = 1", "[server] anonymous"),
    (
        "anonymous = true\n[[user]]\nname = 'ann'",
        "[server] namespace",
    ),
    ("namespace = ''\nanonymous = true\n[colour]", "colour"),
    (
        "namespace = ''\nanonymous = true\n[[user]]\nname = 'ann'\npassword = ''\n[[user]]\nname = 'ben'",
        "[[user]] 2, password",
    ),
    (
        "namespace = ''\nanonymous = true\n[[variable]]\nid = 'T'\nname = ''\ntype = 'Int33'",
        "[[variable]] 1, type",
    ),
    (
        "namespace = ''\nanonymous = true\n[[folder]]\nid = 'T'\nname = ''\n[[variable]]\nid = 'T'\nname = ''\ntype = 'Int32'",
        "[[variable]] 1, id",
    ),
    (
        "namespace = ''\nanonymous = true\n[[folder]]\nid = 'T'\nname = ''\n'a\\nb' = 1",
        "[[folder]] 1, a\\nb",
    ),
    (
        "namespace = ''\nanonymous = true\n[[folder]]\nid = 'T'\nname = ''\n'' = 1",
        "[[folder]] 1, \"\"",
    ),
    (
        "namespace = ''\nanonymous = true\n[[folder]]\nid = 'T'\nname = ''\n\"gr\\u00F6\\u00DFe\" = 1",
        "[[folder]] 1, gr\u{f6}\u{df}e",
    ),
    (
        "namespace = ''\nanonymous = true\n[[folder]]\nid = 'T'\nname = ''\n\"a\\tb\" = 1",
        "[[folder]] 1, a?b",
    ),
    (
        "namespace = ''\nanonymous = true\nanonymous_access = 'none'",
        "[server] anonymous_access",
    ),
    (
        "namespace = ''\nanonymous = true\n[[user]]\nname = 'ann'\npassword = ''\naccess = 'all'",
        "[[user]] 1, access",
    ),
    (
        "namespace = ''\nanonymous = true\n[[user]]\nname = 'ann'\npassword = ''\naccess = 'read'\n[[user]]\nname = 'ben'\npassword = ''\naccess = 1",
        "[[user]] 2, access",
    ),
    ("namespace = ''\nanonymous = true\n[door]", "[door] listen"),
    (
        "namespace = ''\nanonymous = true\n[door]\nlisten = ''\nurl = ''",
        "[door] url",
    ),
    (
        "namespace = ''\nanonymous = true\n[[door]]\nlisten = ''",
        "door",
    ),
    (
        "namespace = ''\nanonymous = true\n[door]\nlisten = ''\nfrom = 1",
        "[door] from",
    ),
    (
        "namespace = ''\nanonymous = true\n[web]\nlisten = ''\nconnections = 0",
        "[web] connections",
    ),
    (
        "namespace = ''\nanonymous = true\nlogins = 0",
        "[server] logins",
    ),
    (
        "namespace = ''\nanonymous = true\n[log]\nevents = 1",
        "[log] events",
    ),
    (
        "namespace = ''\nanonymous = true\n[[user]]\nname = 'ann'\npassword_file = 'ann'",
        "[[user]] 1, password_file",
    ),
    (
        "namespace = ''\nanonymous = true\n[[user]]\nname = 'ann'",
        "[[user]] 1, password",
    ),
];

/// Whether a text is refused at this place.
fn is_refused_at(alloc: Global, text: &str, place: &str) -> bool {
    match Place::of(alloc, text, &[]) {
        Ok(told) => is_text(told.text(alloc), place),
        Err(_) => false,
    }
}

/// Whether what goes on behind the start is.
fn is_place(alloc: Global, rest: &str, place: &str) -> Result<bool, AllocError> {
    let text = format!(in alloc; "{HEAD}{rest}\n")?;
    Ok(is_refused_at(alloc, text.as_str(), place))
}

#[test]
fn places_are_told(rt: HostRuntime) -> Result<(), Fail> {
    for (rest, place) in &PLACES {
        assert!(rt; is_place(rt.alloc(), rest, place)?, "{place} at {rest}");
    }
    Ok(())
}

/// A user with a password file, another one with a password of its own, and a third one with another file.
const FILED: &str =
    "namespace = ''\nanonymous = true\n[[user]]\nname = 'ann'\npassword_file = 'secrets/ann'\n[[user]]\nname = 'ben'\npassword = 'b'\n[[user]]\nname = 'cid'\npassword_file = 'cid'";

/// Whether these are the password files that a text names, in order.
fn are_named(alloc: Global, text: &str, paths: &[&str]) -> bool {
    match password_files(alloc, text) {
        Ok(named) => named
            .iter()
            .map(|path| path.as_str())
            .eq(paths.iter().copied()),
        Err(_) => false,
    }
}

/// The text with these users.
fn filed(alloc: Global) -> Result<String, AllocError> {
    format!(in alloc; "{HEAD}{FILED}\n")
}

/// Whether these are the password files of that text.
fn are_files(alloc: Global, paths: &[&str]) -> Result<bool, AllocError> {
    let text = filed(alloc)?;
    Ok(are_named(alloc, text.as_str(), paths))
}

#[test]
fn password_files_are_named_in_order(rt: HostRuntime) -> Result<(), Fail> {
    assert!(rt; are_files(rt.alloc(), &["secrets/ann", "cid"])?);
    Ok(())
}

/// What the file at a path says.
fn password_line(alloc: Global, path: &str, line: &str) -> Result<PasswordLine, AllocError> {
    let path = Text::from_str(alloc, path)?;
    Ok(PasswordLine {
        path,
        line: Text::from_str(alloc, line)?,
    })
}

/// What these files say.
fn passwords(alloc: Global, files: &[(&str, &str)]) -> Result<Vec<PasswordLine>, AllocError> {
    let mut lines = Vec::new(alloc);
    for (path, line) in files {
        lines.push(password_line(alloc, path, line)?)?;
    }
    Ok(lines)
}

/// Whether the user of this name is let in with this password.
fn is_let_in<'a>(
    sessions: &mut Sessions,
    users: &Users,
    name: &'a str,
    password: &'a str,
) -> Result<bool, SessionFault> {
    let (_, token) = sessions.create()?;
    let identity = Identity::Named {
        name: Some(name),
        password: Some(password.as_bytes()),
        algorithm: None,
    };
    Ok(sessions.activate(token.as_ref(), identity, users) == Ok(name))
}

/// Whether the user of this name has this password.
fn has_password(
    alloc: Global,
    users: &Users,
    name: &str,
    password: &str,
) -> Result<bool, SessionFault> {
    let mut sessions = Sessions::new(alloc);
    is_let_in(&mut sessions, users, name, password)
}

/// The users, and the password of each.
static PASSWORDS: [(&str, &str); 3] = [("ann", "a"), ("ben", "b"), ("cid", "c")];

/// Whether each user has that password, and hasn't an empty one too.
fn are_users(alloc: Global, users: &Users) -> Result<bool, SessionFault> {
    for (name, password) in &PASSWORDS {
        if !has_password(alloc, users, name, password)? || has_password(alloc, users, name, "")? {
            return Ok(false);
        }
    }
    Ok(true)
}

/// Whether the users of a text have those passwords, where each file says what it should.
fn have_passwords(alloc: Global, text: &str) -> Result<bool, AllocError> {
    let lines = passwords(alloc, &[("cid", "c"), ("secrets/ann", "a")])?;
    let read = Settings::read_with(alloc, text, lines.as_slice());
    Ok(are_so(alloc, read, Asked::Passwords))
}

/// Whether the users of the text with password files have them.
fn have_passwords_of_files(alloc: Global) -> Result<bool, AllocError> {
    let text = filed(alloc)?;
    have_passwords(alloc, text.as_str())
}

#[test]
fn passwords_are_those_of_files(rt: HostRuntime) -> Result<(), Fail> {
    assert!(rt; have_passwords_of_files(rt.alloc())?);
    Ok(())
}

/// Why a text is refused where its files say this.
fn refusal_with(
    alloc: Global,
    text: &str,
    files: &[(&str, &str)],
) -> Result<Option<SettingsFault>, AllocError> {
    let lines = passwords(alloc, files)?;
    Ok(Settings::read_with(alloc, text, lines.as_slice()).err())
}

/// Why the text with password files is.
fn refusal_of_files(
    alloc: Global,
    files: &[(&str, &str)],
) -> Result<Option<SettingsFault>, AllocError> {
    let text = filed(alloc)?;
    refusal_with(alloc, text.as_str(), files)
}

/// What files say of which one is missing, or says nothing.
static NO_PASSWORDS: [[(&str, &str); 2]; 2] = [
    [("cid", "c"), ("ann", "a")],
    [("cid", ""), ("secrets/ann", "a")],
];

#[test]
fn a_file_that_is_missing_or_says_nothing_is_no_password(rt: HostRuntime) -> Result<(), Fail> {
    for files in &NO_PASSWORDS {
        let refused = refusal_of_files(rt.alloc(), files)?;
        assert_eq!(rt; refused, Some(SettingsFault::BadValue), "{files:?}");
    }
    Ok(())
}
