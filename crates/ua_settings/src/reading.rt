//! The settings that a file gives in which nothing is wrong.

ghost use Rattle.ua_settings.specs.declared.password.PasswordLine.{PasswordLine};
ghost use Rattle.std.specs.Prelude.{◌≡◌, List, map, IfOk, IfErr, Some, Ok, Err, true, option_map, option_and_then, codes};
ghost use Rattle.std.specs.List.{AllByRecursion};
ghost use Rattle.toml.specs.Data.{get_member, as_array, as_integer, as_str};
ghost use Rattle.toml.specs.View.{table_view};
ghost use Rattle.uuid.specs.Text.{parsed};
ghost use Rattle.ua_space.specs.declared.plan.Plan.{Plan};
ghost use Rattle.ua_space.specs.Lent.{entry_of, folder_of};
ghost use Rattle.ua_settings.specs.File.{tables, text_at};
ghost use Rattle.ua_settings.specs.Judging.{is_id, is_replica, test};
ghost use Rattle.ua_settings.specs.Reading.{folder_in, variable_in, number_at, truth_at, table_at, table_there, password_in, user_in, peer_in, door_in, web_in, texts_in, replicas_in, listed_in, values_of, IsAcceptedOrStarved, IsSpaceOrStarved, space_fault};
ghost use Rattle.ua_settings.specs.Sound.{IsSound, IsSoundArchive, IsSoundUser, IsSoundServer, IsSoundPeer, IsSoundDoor, IsSoundWeb};

use crate::door::DoorSettings;
use crate::fault::SettingsFault;
use crate::keys::Section;
use crate::looking::{
    access, after_break, find_text, has_array, items, number, number_or, number_there, replica,
    replicas_in, table_at, tables_of, text, texts_in, truth,
};
use crate::password::{PasswordLine, line_of};
use crate::peers::Peers;
use crate::settings::{CONNECTIONS, Parts, Settings, WAITING, WEB_CONNECTIONS};
use crate::web::WebSettings;
use stamp::ReplicaNo;
use std::alloc::{AllocError, Global};
use toml::Table;
use ua_binary::{Listing, Text};
use ua_session::{Access, Users};
use ua_space::{BuildFault, FolderPlan, Plan, Space, VariablePlan};
use uuid::Uuid;

/// The id of the archive.
fn read_id(archive: &Table) -> Uuid
    requires { is_id (text_at (codes "id") (table_view archive.now)) ≡ true }
    ensures { Some result ≡ parsed (text_at (codes "id") (table_view archive.now)) }
{
    match Uuid::parse_str(text(archive, "id")) {
        Ok(id) => id,
        Err(_) => unreachable!(),
    }
}

/// The number of this replica.
fn read_replica(archive: &Table) -> ReplicaNo
    requires { test is_replica
        (option_and_then as_integer (get_member (codes "replica") (table_view archive.now)))
        ≡ true }
    ensures { result ≡ number_at (codes "replica") (table_view archive.now) }
{
    let Some(number) = number(archive, "replica") else {
        unreachable!()
    };
    match replica(number) {
        Some(replica) => replica,
        None => unreachable!(),
    }
}

/// The password of a user: its own, or the first line of its file.
fn password<'a>(user: &'a Table, passwords: &'a [PasswordLine]) -> &'a str
    ensures { result.now ≡ password_in passwords.now (table_view user.now) }
{
    match find_text(user, "password") {
        Some(password) => password,
        None => line_of(passwords, text(user, "password_file")),
    }
}

/// The users of these tables, and one without a name who is allowed or not and may do this.
fn read_users(
    alloc: Global,
    anonymous: bool,
    anonymous_access: Access,
    tables: &[&Table],
    passwords: &[PasswordLine],
) -> Result<Users, SettingsFault>
    requires { AllByRecursion (λ user. IsSoundUser (table_view user.now)) tables.now }
    ensures ok { IfOk result
        (λ users. users
        ≡ record {
          anonymous = anonymous;
          anonymous_access = anonymous_access;
          named = map (λ user. user_in passwords.now (table_view user.now)) tables.now;
        }) }
    ensures err { IfErr result (λ fault. fault ≡ SettingsFault.OutOfMemory) }
{
    let mut users = Users::new(alloc, anonymous);
    users.set_anonymous_access(anonymous_access);
    for table in tables {
        let password = password(table, passwords).as_bytes();
        match users.add_with(text(table, "name"), password, access(table, "access")) {
            Ok(()) => {}
            Err(_) => return Err(SettingsFault::OutOfMemory),
        }
    }
    Ok(users)
}

/// The peers of these tables.
fn read_peers(alloc: Global, tables: &[&Table]) -> Result<Peers, SettingsFault>
    requires { AllByRecursion (λ peer. IsSoundPeer (table_view peer.now)) tables.now }
    ensures ok { IfOk result
        (λ peers. peers ≡ map (λ peer. peer_in (table_view peer.now)) tables.now) }
    ensures err { IfErr result (λ fault. fault ≡ SettingsFault.OutOfMemory) }
{
    let mut peers = Peers::new(alloc);
    for table in tables {
        let every = number_or(table, "every", 86_400, 0);
        let checks = truth(table, "check");
        match peers.add(text(table, "address"), every, checks) {
            Ok(()) => {}
            Err(_) => return Err(SettingsFault::OutOfMemory),
        }
    }
    Ok(peers)
}

/// The folders of these tables.
fn read_folders<'a>(alloc: Global, tables: &[&'a Table]) -> Result<Vec<FolderPlan<'a>>, AllocError>
    ensures { IfOk result
        (λ folders. map folder_of folders.items
        ≡ map (λ folder. folder_in (table_view folder.now)) tables.now) }
{
    let mut folders = Vec::new(alloc);
    for table in tables {
        folders.push(FolderPlan {
            id: text(table, "id"),
            name: text(table, "name"),
        })?;
    }
    Ok(folders)
}

/// The variables of these tables.
fn read_variables<'a>(
    alloc: Global,
    tables: &[&'a Table],
) -> Result<Vec<VariablePlan<'a>>, AllocError>
    ensures { IfOk result
        (λ variables. map entry_of variables.items
        ≡ map (λ variable. variable_in (table_view variable.now)) tables.now) }
{
    let mut variables = Vec::new(alloc);
    for table in tables {
        variables.push(VariablePlan {
            id: text(table, "id"),
            name: text(table, "name"),
            type_name: text(table, "type"),
            array: truth(table, "array"),
            folder: find_text(table, "folder"),
        })?;
    }
    Ok(variables)
}

/// The folders of a document.
fn folders_of<'a>(alloc: Global, document: &'a Table) -> Result<Vec<FolderPlan<'a>>, AllocError>
    ensures { IfOk result
        (λ folders. map folder_of folders.items
        ≡ map folder_in (tables (table_view document.now) Section.Folder)) }
{
    let tables = tables_of(alloc, document, Section::Folder)?;
    read_folders(alloc, tables.as_slice())
}

/// The variables of a document.
fn variables_of<'a>(alloc: Global, document: &'a Table) -> Result<Vec<VariablePlan<'a>>, AllocError>
    ensures { IfOk result
        (λ variables. map entry_of variables.items
        ≡ map variable_in (tables (table_view document.now) Section.Variable)) }
{
    let tables = tables_of(alloc, document, Section::Variable)?;
    read_variables(alloc, tables.as_slice())
}

/// What a fault of the space is called here.
fn space_fault(fault: BuildFault) -> SettingsFault
    ensures { result ≡ space_fault fault }
{
    match fault {
        BuildFault::OutOfMemory => SettingsFault::OutOfMemory,
        _ => SettingsFault::Space(fault),
    }
}

/// The nodes of these folders and variables, which are those of a document.
fn build_space(
    alloc: Global,
    document: &Table,
    server: &Table,
    folders: &[FolderPlan<'_>],
    variables: &[VariablePlan<'_>],
) -> Result<Space, SettingsFault>
    requires sound { (lines : List PasswordLine) × IsSound lines (table_view document.now) }
    requires same { table_view server.now ≡ table_at (codes "server") (table_view document.now) }
    requires folders { map folder_of folders.now
        ≡ map folder_in (tables (table_view document.now) Section.Folder) }
    requires variables { map entry_of variables.now
        ≡ map variable_in (tables (table_view document.now) Section.Variable) }
    ensures { IsSpaceOrStarved (table_view document.now) result }
{
    let plan = Plan {
        namespace: text(server, "namespace"),
        folders,
        variables,
    };
    match Space::build(alloc, &plan) {
        Ok(space) => Ok(space),
        Err(fault) => Err(space_fault(fault)),
    }
}

/// The nodes of a document.
fn read_space(alloc: Global, document: &Table, server: &Table) -> Result<Space, SettingsFault>
    requires sound { (lines : List PasswordLine) × IsSound lines (table_view document.now) }
    requires same { table_view server.now ≡ table_at (codes "server") (table_view document.now) }
    ensures { IsSpaceOrStarved (table_view document.now) result }
{
    let folders = folders_of(alloc, document)?;
    let variables = variables_of(alloc, document)?;
    build_space(
        alloc,
        document,
        server,
        folders.as_slice(),
        variables.as_slice(),
    )
}

/// The file of the store.
fn read_store(alloc: Global, archive: &Table) -> Result<Option<Text>, AllocError>
    ensures { IfOk result
        (λ store. store
        ≡ option_and_then as_str (get_member (codes "store") (table_view archive.now))) }
{
    match find_text(archive, "store") {
        None => Ok(None),
        Some(path) => Ok(Some(Text::from_str(alloc, path)?)),
    }
}

/// The addresses and networks from which a door takes peers.
fn read_networks(alloc: Global, door: &Table) -> Result<Option<Listing<Text>>, AllocError>
    ensures { IfOk result
        (λ from. from
        ≡ option_map texts_in
        (option_and_then as_array (get_member (codes "from") (table_view door.now)))) }
{
    if has_array(door, "from") {
        let networks = texts_in(alloc, items(door, "from"))?;
        Ok(Some(Listing::of(networks)))
    } else {
        Ok(None)
    }
}

/// The replicas whose records are taken at a door.
fn read_replicas(alloc: Global, door: &Table) -> Result<Option<Listing<ReplicaNo>>, AllocError>
    ensures { IfOk result
        (λ replicas. replicas
        ≡ option_map replicas_in
        (option_and_then as_array (get_member (codes "replicas") (table_view door.now)))) }
{
    if has_array(door, "replicas") {
        let replicas = replicas_in(alloc, items(door, "replicas"))?;
        Ok(Some(Listing::of(replicas)))
    } else {
        Ok(None)
    }
}

/// Where peers come to, and who is taken there, by a table.
fn read_door_in(alloc: Global, door: &Table) -> Result<DoorSettings, AllocError>
    requires { IsSoundDoor (table_view door.now) }
    ensures { IfOk result (λ settings. settings ≡ door_in (table_view door.now)) }
{
    Ok(DoorSettings {
        listen: Text::from_str(alloc, text(door, "listen"))?,
        from: read_networks(alloc, door)?,
        replicas: read_replicas(alloc, door)?,
        ahead: number_there(door, "ahead", 31_536_000),
    })
}

/// Where peers come to, and who is taken there.
fn read_door(alloc: Global, document: &Table) -> Result<Option<DoorSettings>, AllocError>
    requires { AllByRecursion IsSoundDoor (tables (table_view document.now) Section.Door) }
    ensures { IfOk result
        (λ door. door ≡ option_map door_in (table_there (codes "door") (table_view document.now))) }
{
    match table_at(document, "door") {
        None => Ok(None),
        Some(door) => Ok(Some(read_door_in(alloc, door)?)),
    }
}

/// Where browsers come to, by a table.
fn read_web_in(alloc: Global, web: &Table) -> Result<WebSettings, AllocError>
    requires { IsSoundWeb (table_view web.now) }
    ensures { IfOk result (λ settings. settings ≡ web_in (table_view web.now)) }
{
    Ok(WebSettings {
        listen: Text::from_str(alloc, text(web, "listen"))?,
        connections: number_or(web, "connections", 1_000, WEB_CONNECTIONS),
    })
}

/// Where browsers come to, if they do.
fn read_web(alloc: Global, document: &Table) -> Result<Option<WebSettings>, AllocError>
    requires { AllByRecursion IsSoundWeb (tables (table_view document.now) Section.Web) }
    ensures { IfOk result
        (λ web. web ≡ option_map web_in (table_there (codes "web") (table_view document.now))) }
{
    match table_at(document, "web") {
        None => Ok(None),
        Some(web) => Ok(Some(read_web_in(alloc, web)?)),
    }
}

/// Whether what happens is told.
fn tells_events(document: &Table) -> bool
    ensures { result ≡ truth_at (codes "events") (table_at (codes "log") (table_view document.now)) }
{
    match table_at(document, "log") {
        None => false,
        Some(log) => truth(log, "events"),
    }
}

/// What the tables of a document list, beside those of the archive and the server.
#[derive(Drop)]
pub(crate) struct Listed {
    pub(crate) users: Users,
    pub(crate) peers: Peers,
    pub(crate) door: Option<DoorSettings>,
    pub(crate) web: Option<WebSettings>,
    pub(crate) events: bool,
    pub(crate) space: Space,
}

/// The settings of the tables `archive` and `server`, with what others list.
fn settings_of(
    alloc: Global,
    archive: &Table,
    server: &Table,
    listed: Listed,
) -> Result<Settings, SettingsFault>
    requires archive { IsSoundArchive (table_view archive.now) }
    requires server { IsSoundServer (table_view server.now) }
    ensures ok { IfOk result
        (λ settings. settings
        ≡ values_of (table_view archive.now) (table_view server.now) listed) }
    ensures err { IfErr result (λ fault. fault ≡ SettingsFault.OutOfMemory) }
{
    Ok(Settings::of(Parts {
        archive: read_id(archive),
        replica: read_replica(archive),
        store: read_store(alloc, archive)?,
        listen: Text::from_str(alloc, text(server, "listen"))?,
        url: Text::from_str(alloc, text(server, "url"))?,
        application: Text::from_str(alloc, text(server, "application"))?,
        users: listed.users,
        space: listed.space,
        connections: number_or(server, "connections", 1_000, CONNECTIONS),
        waiting: number_or(server, "waiting", 65_536, WAITING),
        peers: listed.peers,
        door: listed.door,
        web: listed.web,
        after_break: after_break(archive, "broken"),
        is_indexed: truth(archive, "index"),
        is_strict: truth(server, "strict"),
        slow: number_there(server, "slow", 60_000),
        logins: number_there(server, "logins", 1_000),
        events: listed.events,
    }))
}

/// What the tables of a document list, beside those of the archive and the server, with these nodes.
fn list_of(
    alloc: Global,
    document: &Table,
    server: &Table,
    passwords: &[PasswordLine],
    space: Space,
) -> Result<Listed, SettingsFault>
    requires sound { IsSound passwords.now (table_view document.now) }
    requires same { table_view server.now ≡ table_at (codes "server") (table_view document.now) }
    ensures ok { IfOk result
        (λ listed. listed ≡ listed_in passwords.now (table_view document.now) space) }
    ensures err { IfErr result (λ fault. fault ≡ SettingsFault.OutOfMemory) }
{
    let anonymous = truth(server, "anonymous");
    let anonymous_access = access(server, "anonymous_access");
    let users = tables_of(alloc, document, Section::User)?;
    let peers = tables_of(alloc, document, Section::Peer)?;
    Ok(Listed {
        users: read_users(
            alloc,
            anonymous,
            anonymous_access,
            users.as_slice(),
            passwords,
        )?,
        peers: read_peers(alloc, peers.as_slice())?,
        door: read_door(alloc, document)?,
        web: read_web(alloc, document)?,
        events: tells_events(document),
        space,
    })
}

/// The settings of a document in which nothing is wrong.
pub(crate) fn read_document(
    alloc: Global,
    document: &Table,
    passwords: &[PasswordLine],
) -> Result<Settings, SettingsFault>
    requires { IsSound passwords.now (table_view document.now) }
    ensures { IsAcceptedOrStarved passwords.now (table_view document.now) result }
{
    let Some(archive) = table_at(document, "archive") else {
        unreachable!()
    };
    let Some(server) = table_at(document, "server") else {
        unreachable!()
    };
    match read_space(alloc, document, server) {
        Ok(space) => {
            let listed = list_of(alloc, document, server, passwords, space)?;
            settings_of(alloc, archive, server, listed)
        }
        Err(fault) => Err(fault),
    }
}
