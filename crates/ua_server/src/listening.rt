//! Where a server listens, and whom it calls.

ghost use Rattle.std.specs.Prelude.{◌≡◌, ◌⊎◌, MatchOption, MatchResult, IfOk, IfErr, ℕ};
ghost use Rattle.std.specs.Net.Grammar.{IsSocketText};
ghost use Rattle.ua_server.specs.Listening.{IsNoAddress, IsWebDoor, IsNoWeb, IsDoorAddress, IsNoDoor, AreNetworks, IsWrongNetwork, IsFrom, IsNoNetworkAt, networks_at, listen_at, HasNoAddress, IsWrongPeer, AreCallees, IsListening};
ghost use Rattle.ua_server.specs.declared.program.ProgramFault.TheVariants.{Connection, DoorAddress, DoorNetwork, PeerAddress, WebAddress};
ghost use Rattle.counted_io.specs.declared.fault.ServeFault.TheVariants.{OutOfMemory};

use crate::program::ProgramFault;
use conversation::Network;
use counted_io::ServeFault;
use std::alloc::Global;
use std::net::SocketAddr;
use ua_binary::{Listing, Text};
use ua_settings::{DoorSettings, PeerCall, Settings};

/// A peer that is called when it is due.
#[derive(Clone, Copy, Debug)]
pub struct Callee {
    pub address: SocketAddr,
    /// How many seconds lie between the beginnings of two calls.
    pub every: u32,
}

/// Where browsers come to.
#[derive(Clone, Copy, Debug)]
pub struct WebDoor {
    pub address: SocketAddr,
    /// How many of their connections are taken at a time.
    pub connections: u32,
}

/// Where a server listens, and whom it calls.
#[derive(Debug, Drop)]
pub struct Listening {
    /// Where clients come to.
    pub clients: SocketAddr,
    /// Where peers come to; none where they come to the address where clients do.
    pub peers: Option<SocketAddr>,
    /// From where they are taken there; none: from everywhere.
    pub from: Option<Listing<Network>>,
    /// Where browsers come to; none where they don't.
    pub browsers: Option<WebDoor>,
    /// The peers that are called, in the order of the settings.
    pub callees: Vec<Callee>,
    /// How many connections are taken at a time, calls apart.
    pub connections: u32,
}

/// The address that a text spells.
fn address_of(text: &str) -> Option<SocketAddr>
    ensures { MatchOption result (IsNoAddress text.now) (IsSocketText text.now) }
{
    match text.parse::<SocketAddr>() {
        Ok(address) => Some(address),
        Err(_) => None,
    }
}

/// The address where peers alone come to.
fn door_of(settings: &Settings) -> Result<Option<SocketAddr>, ProgramFault>
    ensures { MatchResult result (IsDoorAddress (listen_at settings.now))
        (λ fault. (fault ≡ DoorAddress) × IsNoDoor (listen_at settings.now)) }
{
    let Some(door) = settings.door() else {
        return Ok(None);
    };
    match address_of(door.listen.as_str()) {
        Some(address) => Ok(Some(address)),
        None => Err(ProgramFault::DoorAddress),
    }
}

/// The networks that these texts spell. `DoorNetwork` tells the first that spells none, from 1.
fn networks_in(alloc: Global, texts: &[Text]) -> Result<Listing<Network>, ProgramFault>
    ensures ok { IfOk result (λ networks. AreNetworks texts.now networks) }
    ensures err { IfErr result
        (λ fault. (fault ≡ Connection OutOfMemory)
        ⊎ ((number : ℕ) × (fault ≡ DoorNetwork number) × IsWrongNetwork texts.now number)) }
{
    let mut networks = Vec::new(alloc);
    for (i, text) in texts.iter().enumerate() {
        let Some(network) = Network::parse(text.as_str()) else {
            return Err(ProgramFault::DoorNetwork(i as u64 + 1));
        };
        match networks.push(network) {
            Ok(()) => {}
            Err(_) => return Err(ProgramFault::Connection(ServeFault::OutOfMemory)),
        }
    }
    Ok(Listing::of(networks))
}

/// From where peers are taken at a door.
fn from_at(alloc: Global, door: &DoorSettings) -> Result<Option<Listing<Network>>, ProgramFault>
    ensures ok { IfOk result (λ from. IsFrom door.now.from from) }
    ensures err { IfErr result
        (λ fault. (fault ≡ Connection OutOfMemory) ⊎ IsNoNetworkAt door.now.from fault) }
{
    let Some(texts) = &door.from else {
        return Ok(None);
    };
    match networks_in(alloc, texts.as_slice()) {
        Ok(networks) => Ok(Some(networks)),
        Err(fault) => Err(fault),
    }
}

/// From where peers are taken.
fn from_of(alloc: Global, settings: &Settings) -> Result<Option<Listing<Network>>, ProgramFault>
    ensures ok { IfOk result (λ from. IsFrom (networks_at settings.now) from) }
    ensures err { IfErr result
        (λ fault. (fault ≡ Connection OutOfMemory)
        ⊎ IsNoNetworkAt (networks_at settings.now) fault) }
{
    match settings.door() {
        Some(door) => from_at(alloc, door),
        None => Ok(None),
    }
}

/// Where browsers come to.
fn web_of(settings: &Settings) -> Result<Option<WebDoor>, ProgramFault>
    ensures { MatchResult result (IsWebDoor settings.now.web)
        (λ fault. (fault ≡ WebAddress) × IsNoWeb settings.now.web) }
{
    let Some(web) = settings.web() else {
        return Ok(None);
    };
    match address_of(web.listen.as_str()) {
        Some(address) => Ok(Some(WebDoor {
            address,
            connections: web.connections,
        })),
        None => Err(ProgramFault::WebAddress),
    }
}

/// The peers to be called. `PeerAddress` tells the first whose address is none, from 1.
fn callees_of(alloc: Global, peers: &[PeerCall]) -> Result<Vec<Callee>, ProgramFault>
    ensures ok { IfOk result (λ callees. AreCallees peers.now callees.items) }
    ensures err { IfErr result
        (λ fault. (fault ≡ Connection OutOfMemory)
        ⊎ ((number : ℕ) × (fault ≡ PeerAddress number) × IsWrongPeer peers.now number)) }
{
    let mut callees = Vec::new(alloc);
    for (i, peer) in peers.iter().enumerate() {
        let Some(address) = address_of(peer.address.as_str()) else {
            return Err(ProgramFault::PeerAddress(i as u64 + 1));
        };
        let callee = Callee {
            address,
            every: peer.every,
        };
        match callees.push(callee) {
            Ok(()) => {}
            Err(_) => return Err(ProgramFault::Connection(ServeFault::OutOfMemory)),
        }
    }
    Ok(callees)
}

/// Where a server of these settings listens, and whom it calls. `Address`, `DoorAddress`, `DoorNetwork`, `PeerAddress` and
/// `WebAddress` tell which text of the settings spells no address, or no network.
pub(crate) fn listening_of(alloc: Global, settings: &Settings) -> Result<Listening, ProgramFault>
    ensures ok { IfOk result (IsListening settings.now) }
    ensures err { IfErr result
        (λ fault. (fault ≡ Connection OutOfMemory) ⊎ HasNoAddress settings.now fault) }
{
    let Some(clients) = address_of(settings.listen()) else {
        return Err(ProgramFault::Address);
    };
    let peers = match door_of(settings) {
        Ok(peers) => peers,
        Err(fault) => return Err(fault),
    };
    let from = match from_of(alloc, settings) {
        Ok(from) => from,
        Err(fault) => return Err(fault),
    };
    let callees = match callees_of(alloc, settings.peers().as_slice()) {
        Ok(callees) => callees,
        Err(fault) => return Err(fault),
    };
    match web_of(settings) {
        Ok(browsers) => Ok(Listening {
            clients,
            peers,
            from,
            browsers,
            callees,
            connections: settings.connections(),
        }),
        Err(fault) => Err(fault),
    }
}
