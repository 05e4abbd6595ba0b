//! The settings of a server.

ghost use Rattle.std.specs.Prelude.{◌≡◌, ◌⊎◌, IfOk, IfErr, Option, Some, []};
ghost use Rattle.std.specs.Option.{option_copied};
ghost use Rattle.toml.specs.Errors.{IsMemory};
ghost use Rattle.toml.specs.Parse.{parse_document};
ghost use Rattle.toml.specs.View.{table_view};
ghost use Rattle.ua_settings.specs.Reading.{IsReadOrStarved};
ghost use Rattle.ua_settings.specs.Settings.{bare, IsSettingsText};

use crate::after_break::AfterBreak;
use crate::door::DoorSettings;
use crate::fault::SettingsFault;
use crate::judging::judge;
use crate::password::PasswordLine;
use crate::peers::Peers;
use crate::reading::read_document;
use crate::web::WebSettings;
use stamp::ReplicaNo;
use std::alloc::Global;
use std::marker::Model;
use toml::Table;
use ua_binary::Text;
use ua_session::Users;
use ua_space::{Plan, Space};
use uuid::Uuid;

/// How many connections are served at a time, where the settings don't say.
pub(crate) const CONNECTIONS: u32 = 64;

/// How many MiB may wait to be written, where the settings don't say.
pub(crate) const WAITING: u32 = 256;

/// How many connections of browsers are served at a time, where the settings don't say.
pub(crate) const WEB_CONNECTIONS: u32 = 8;

/// What settings are made of.
#[derive(Debug, Drop)]
pub struct Parts {
    /// The id of the archive.
    pub archive: Uuid,
    /// The number of this replica of it.
    pub replica: ReplicaNo,
    /// The file of its store; none for memory.
    pub store: Option<Text>,
    /// Where the server listens.
    pub listen: Text,
    /// The URL of the server's endpoint.
    pub url: Text,
    /// The URI of the application.
    pub application: Text,
    /// Who may activate a session.
    pub users: Users,
    /// The nodes of the server.
    pub space: Space,
    /// How many connections are served at a time, 1 to 1,000.
    pub connections: u32,
    /// How many MiB may wait to be written, at all connections together, 1 to 65,536.
    pub waiting: u32,
    /// The peers that are called.
    pub peers: Peers,
    /// Where peers come to; none where they come to the address where clients do.
    pub door: Option<DoorSettings>,
    /// Where browsers come to; none where they don't.
    pub web: Option<WebSettings>,
    /// What `serve` does once its store is broken.
    pub after_break: AfterBreak,
    /// Whether the archive has an index of live values, along which reads pass deleted ones at once.
    pub is_indexed: bool,
    /// Whether settings are refused whose files others may write, or read passwords in.
    pub is_strict: bool,
    /// From how many milliseconds on a turn of a connection is told; none: none is.
    pub slow: Option<u32>,
    /// After how many refused logins from one address within a minute its next ones are answered a
    /// second later each, 1 to 1,000; none: after any number they aren't.
    pub logins: Option<u32>,
    /// Whether what happens is told on standard error.
    pub events: bool,
}

/// What a server is set to.
#[derive(Debug, Drop)]
pub struct Settings {
    archive: Uuid,
    replica: ReplicaNo,
    store: Option<Text>,
    listen: Text,
    url: Text,
    application: Text,
    users: Users,
    space: Space,
    connections: u32,
    waiting: u32,
    peers: Peers,
    door: Option<DoorSettings>,
    web: Option<WebSettings>,
    after_break: AfterBreak,
    is_indexed: bool,
    is_strict: bool,
    slow: Option<u32>,
    logins: Option<u32>,
    events: bool,
}

impl Model for Settings {
    ghost use Rattle.ua_settings.specs.Settings.{SettingsValues, IsSettingsText};

    ghost Value = { SettingsValues };

    ghost view = { λ s.
        record {
          archive = s.archive;
          replica = s.replica;
          store = s.store;
          listen = s.listen;
          url = s.url;
          application = s.application;
          users = s.users;
          space = s.space;
          connections = s.connections;
          waiting = s.waiting;
          peers = s.peers;
          door = s.door;
          web = s.web;
          after_break = s.after_break;
          is_indexed = s.is_indexed;
          is_strict = s.is_strict;
          slow = s.slow;
          logins = s.logins;
          events = s.events;
        } };

    ghost invariant = { λ s. IsSettingsText s.url × IsSettingsText s.application };
}

impl Settings {
    /// The settings of a server that was given none: replica 1 of the archive whose id is all zeros, in
    /// memory; `opc.tcp://localhost:4840`, the application `urn:uahist`, the namespace `urn:uahist:archive`
    /// without variables, any user without a name, and no peers. The one error is `OutOfMemory`.
    #[tactic(auto, unfolding(crate::specs::Settings::bare))]
    pub fn bare(alloc: Global) -> Result<Settings, SettingsFault>
        ensures ok { IfOk result (λ settings. settings ≡ bare) }
        ensures err { IfErr result (λ fault. fault ≡ SettingsFault.OutOfMemory) }
    {
        let Some(replica) = ReplicaNo::new(1) else {
            return Err(SettingsFault::OutOfMemory);
        };
        let listen = Text::from_str(alloc, "127.0.0.1:4840")?;
        let url = Text::from_str(alloc, "opc.tcp://localhost:4840")?;
        let application = Text::from_str(alloc, "urn:uahist")?;
        let plan = Plan {
            namespace: "urn:uahist:archive",
            folders: &[],
            variables: &[],
        };
        let Ok(space) = Space::build(alloc, &plan) else {
            return Err(SettingsFault::OutOfMemory);
        };
        Ok(Settings {
            archive: Uuid::nil(),
            replica,
            store: None,
            listen,
            url,
            application,
            users: Users::new(alloc, true),
            space,
            connections: CONNECTIONS,
            waiting: WAITING,
            peers: Peers::new(alloc),
            door: None,
            web: None,
            after_break: AfterBreak::GoOn,
            is_indexed: false,
            is_strict: false,
            slow: None,
            logins: None,
            events: false,
        })
    }

    /// The settings that a text gives (TOML 1.1), each of its texts with at most 65,536 bytes.
    ///
    /// Errors: `NotToml` where `toml` refuses the text; then `UnknownKey`, `MissingKey` and `BadValue`, each over the
    /// whole text, in this order; then `Space` for what the folders and variables lack to be an address space;
    /// `OutOfMemory` where it is met. A user's `password_file` is a `BadValue` here: see `read_with`.
    pub fn read(alloc: Global, text: &str) -> Result<Settings, SettingsFault>
        ensures { IsReadOrStarved [] (parse_document text.now) result }
    {
        Settings::read_with(alloc, text, &[])
    }

    /// The settings that a text gives, where password files say this. A user has the first line of its `password_file` for
    /// a password; one that isn't among these, or whose line is empty, is a `BadValue`, as is a user with both.
    ///
    /// Errors are those of `read`.
    pub fn read_with(
        alloc: Global,
        text: &str,
        passwords: &[PasswordLine],
    ) -> Result<Settings, SettingsFault>
        ensures { IsReadOrStarved passwords.now (parse_document text.now) result }
    {
        match toml::table_from_str(alloc, text) {
            Ok(document) => read_judged(alloc, &document, passwords),
            Err(error) => Err(fault_of(&error)),
        }
    }

    /// The settings of these parts. The URL and the name of the application have less than 2^31 bytes each.
    pub fn of(parts: Parts) -> Settings
        requires url { IsSettingsText parts.url }
        requires application { IsSettingsText parts.application }
        ensures { result ≡ parts }
    {
        Settings {
            archive: parts.archive,
            replica: parts.replica,
            store: parts.store,
            listen: parts.listen,
            url: parts.url,
            application: parts.application,
            users: parts.users,
            space: parts.space,
            connections: parts.connections,
            waiting: parts.waiting,
            peers: parts.peers,
            door: parts.door,
            web: parts.web,
            after_break: parts.after_break,
            is_indexed: parts.is_indexed,
            is_strict: parts.is_strict,
            slow: parts.slow,
            logins: parts.logins,
            events: parts.events,
        }
    }

    /// The id of the archive.
    pub fn archive(&self) -> Uuid
        ensures { result ≡ self.now.archive }
    {
        self.archive
    }

    /// The number of this replica of it.
    pub fn replica(&self) -> ReplicaNo
        ensures { result ≡ self.now.replica }
    {
        self.replica
    }

    /// The file of its store; none for memory.
    pub fn store(&self) -> Option<&str>
        ensures { option_copied result ≡ self.now.store }
    {
        match &self.store {
            None => None,
            Some(path) => Some(path.as_str()),
        }
    }

    /// Where the server listens.
    pub fn listen(&self) -> &str
        ensures { result.now ≡ self.now.listen }
    {
        self.listen.as_str()
    }

    /// The URL of the server's endpoint.
    pub fn url(&self) -> &str
        ensures same { result.now ≡ self.now.url }
        ensures short { IsSettingsText result.now }
    {
        self.url.as_str()
    }

    /// The URI of the application.
    pub fn application(&self) -> &str
        ensures same { result.now ≡ self.now.application }
        ensures short { IsSettingsText result.now }
    {
        self.application.as_str()
    }

    /// Who may activate a session.
    pub fn users(&self) -> &Users
        ensures { result.now ≡ self.now.users }
    {
        &self.users
    }

    /// The nodes of the server.
    pub fn space(&self) -> &Space
        ensures { result.now ≡ self.now.space }
    {
        &self.space
    }

    /// How many connections are served at a time.
    pub fn connections(&self) -> u32
        ensures { result ≡ self.now.connections }
    {
        self.connections
    }

    /// How many MiB may wait to be written, at all connections together.
    pub fn waiting(&self) -> u32
        ensures { result ≡ self.now.waiting }
    {
        self.waiting
    }

    /// What `serve` does once its store is broken.
    pub fn after_break(&self) -> AfterBreak
        ensures { result ≡ self.now.after_break }
    {
        self.after_break
    }

    /// Whether the archive has an index of live values, along which reads pass deleted ones at once.
    pub fn is_indexed(&self) -> bool
        ensures { result ≡ self.now.is_indexed }
    {
        self.is_indexed
    }

    /// Whether settings are refused whose files others may write, or read passwords in.
    pub fn is_strict(&self) -> bool
        ensures { result ≡ self.now.is_strict }
    {
        self.is_strict
    }

    /// From how many milliseconds on a turn of a connection is told; none: none is.
    pub fn slow(&self) -> Option<u32>
        ensures { result ≡ self.now.slow }
    {
        self.slow
    }

    /// After how many refused logins from one address within a minute its next ones are answered a
    /// second later each; none: after any number they aren't.
    pub fn logins(&self) -> Option<u32>
        ensures { result ≡ self.now.logins }
    {
        self.logins
    }

    /// Whether what happens is told on standard error.
    pub fn tells_events(&self) -> bool
        ensures { result ≡ self.now.events }
    {
        self.events
    }

    /// The peers that are called.
    pub fn peers(&self) -> &Peers
        ensures { result.now ≡ self.now.peers }
    {
        &self.peers
    }

    /// Where peers come to, and who is taken there; none where they come to the address where clients do.
    pub fn door(&self) -> Option<&DoorSettings>
        ensures { option_copied result ≡ self.now.door }
    {
        match &self.door {
            None => None,
            Some(door) => Some(door),
        }
    }

    /// Where browsers come to, and how many of their connections are served at a time; none where they don't.
    pub fn web(&self) -> Option<&WebSettings>
        ensures { option_copied result ≡ self.now.web }
    {
        match &self.web {
            None => None,
            Some(web) => Some(web),
        }
    }
}

/// What an error of the TOML reader is called here.
fn fault_of(error: &toml::de::Error) -> SettingsFault
    ensures { ((result ≡ SettingsFault.OutOfMemory) × IsMemory error.now)
        ⊎ ((result ≡ SettingsFault.NotToml) × ¬ IsMemory error.now) }
{
    if error.is_memory() {
        SettingsFault::OutOfMemory
    } else {
        SettingsFault::NotToml
    }
}

/// The settings that a document gives, where password files say this.
fn read_judged(
    alloc: Global,
    document: &Table,
    passwords: &[PasswordLine],
) -> Result<Settings, SettingsFault>
    ensures { IsReadOrStarved passwords.now (Some (table_view document.now)) result }
{
    match judge(alloc, document, passwords)? {
        Some((wrong, _)) => Err(wrong.fault()),
        None => read_document(alloc, document, passwords),
    }
}
