//! The keys of a settings file.

ghost use Rattle.ua_settings.specs.declared.keys.Wrong.TheVariants.{Bad, Missing, Unknown};
ghost use Rattle.ua_settings.specs.declared.fault.SettingsFault.TheVariants.{BadValue, MissingKey, UnknownKey};
ghost use Rattle.std.specs.Prelude.{◌≡◌, map};
ghost use Rattle.ua_settings.specs.File.{rules};
ghost use Rattle.ua_settings.specs.Keys.{rule_of};

use crate::fault::SettingsFault;

/// A kind of table of a settings file: the file itself, or one under the name of its header.
#[derive(Clone, Copy, Debug, PartialEq, Eq)]
pub enum Section {
    Document,
    Archive,
    Server,
    User,
    Folder,
    Variable,
    Peer,
    Door,
    Web,
    Log,
}

/// What a key must hold.
#[derive(Clone, Copy, Debug, PartialEq, Eq)]
pub(crate) enum Holds {
    /// A text of at most 65,536 bytes.
    Text,
    /// The text of a UUID.
    Id,
    /// A number of 1 to 64.
    Replica,
    /// A number from 1 up to this one.
    UpTo(u32),
    /// `true` or `false`.
    Truth,
    /// A text of 1 to 256 bytes.
    NodeName,
    /// A text of 1 to 256 bytes that no other user has for a name, and not `anonymous`.
    UserName,
    /// The id of a folder.
    FolderId,
    /// `read` or `write`.
    Access,
    /// `stop` or `reopen`.
    AfterBreak,
    /// The path of a password file whose first line isn't empty.
    PasswordFile,
    /// An array of texts, each of at most 65,536 bytes.
    Texts,
    /// An array of numbers of 1 to 64.
    Replicas,
    OneTable,
    /// An array of tables.
    Tables,
}

/// What may be wrong with a key of a table.
#[derive(Clone, Copy, Debug, PartialEq, Eq)]
pub(crate) enum Wrong {
    /// The table may not have it.
    Unknown,
    /// The table has to have it.
    Missing,
    /// It doesn't hold what it must.
    Bad,
}

impl Wrong {
    /// What it is called outside.
    pub fn fault(self) -> SettingsFault
        ensures { result
            ≡ (elim self [ Unknown ↦ UnknownKey | Missing ↦ MissingKey | Bad ↦ BadValue ]) }
    {
        match self {
            Wrong::Unknown => SettingsFault::UnknownKey,
            Wrong::Missing => SettingsFault::MissingKey,
            Wrong::Bad => SettingsFault::BadValue,
        }
    }
}

/// A key that a table may have.
#[derive(Clone, Copy, Debug)]
pub(crate) struct Key {
    pub name: &'static str,
    /// Whether the table has to have it, or the other key that may stand in its place.
    pub required: bool,
    /// The other key, of which the table has to have this one or that one, and not both.
    pub instead: Option<&'static str>,
    pub holds: Holds,
}

/// A key that has to be there, one that may be, and one in whose place another may be.
macro_rules! key {
    ($name:literal, $holds:ident) => {
        Key {
            name: $name,
            required: true,
            instead: None,
            holds: Holds::$holds,
        }
    };
    ($name:literal, $holds:ident, instead $other:literal) => {
        Key {
            name: $name,
            required: true,
            instead: Some($other),
            holds: Holds::$holds,
        }
    };
    ($name:literal, up to $most:literal) => {
        Key {
            name: $name,
            required: true,
            instead: None,
            holds: Holds::UpTo($most),
        }
    };
    ($name:literal, up to $most:literal, optional) => {
        Key {
            name: $name,
            required: false,
            instead: None,
            holds: Holds::UpTo($most),
        }
    };
    ($name:literal, $holds:ident, optional) => {
        Key {
            name: $name,
            required: false,
            instead: None,
            holds: Holds::$holds,
        }
    };
}

static DOCUMENT: [Key; 9] = [
    key!("archive", OneTable),
    key!("server", OneTable),
    key!("user", Tables, optional),
    key!("folder", Tables, optional),
    key!("variable", Tables, optional),
    key!("peer", Tables, optional),
    key!("door", OneTable, optional),
    key!("web", OneTable, optional),
    key!("log", OneTable, optional),
];

static ARCHIVE: [Key; 5] = [
    key!("id", Id),
    key!("replica", Replica),
    key!("store", Text, optional),
    key!("broken", AfterBreak, optional),
    key!("index", Truth, optional),
];

static SERVER: [Key; 11] = [
    key!("listen", Text),
    key!("url", Text),
    key!("application", Text),
    key!("namespace", Text),
    key!("anonymous", Truth),
    key!("connections", up to 1000, optional),
    key!("waiting", up to 65536, optional),
    key!("anonymous_access", Access, optional),
    key!("strict", Truth, optional),
    key!("slow", up to 60000, optional),
    key!("logins", up to 1000, optional),
];

static USER: [Key; 4] = [
    key!("name", UserName),
    key!("password", Text, instead "password_file"),
    key!("password_file", PasswordFile, optional),
    key!("access", Access, optional),
];

static FOLDER: [Key; 2] = [key!("id", Text), key!("name", Text)];

static VARIABLE: [Key; 5] = [
    key!("id", NodeName),
    key!("name", Text),
    key!("type", Text),
    key!("array", Truth, optional),
    key!("folder", FolderId, optional),
];

static PEER: [Key; 3] = [
    key!("address", Text),
    key!("every", up to 86400),
    key!("check", Truth, optional),
];

static DOOR: [Key; 4] = [
    key!("listen", Text),
    key!("from", Texts, optional),
    key!("replicas", Replicas, optional),
    key!("ahead", up to 31536000, optional),
];

static WEB: [Key; 2] = [
    key!("listen", Text),
    key!("connections", up to 1000, optional),
];

static LOG: [Key; 1] = [key!("events", Truth, optional)];

/// The keys of a kind of table.
pub(crate) fn keys_of(section: Section) -> &'static [Key]
    ensures { map rule_of result.now ≡ rules section }
{
    match section {
        Section::Document => &DOCUMENT,
        Section::Archive => &ARCHIVE,
        Section::Server => &SERVER,
        Section::User => &USER,
        Section::Folder => &FOLDER,
        Section::Variable => &VARIABLE,
        Section::Peer => &PEER,
        Section::Door => &DOOR,
        Section::Web => &WEB,
        Section::Log => &LOG,
    }
}
