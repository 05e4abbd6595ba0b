//! The peers that a server calls by itself.

ghost use Rattle.std.specs.Prelude.{◌≡◌, ◌++◌, [], ◌∷◌, OnOk, IfErr};

use crate::fault::SettingsFault;
use std::alloc::Global;
use std::marker::Model;
use ua_binary::Text;

/// A peer that a server calls by itself.
#[derive(Debug, Drop)]
pub struct PeerCall {
    /// Where it listens.
    pub address: Text,
    /// How many seconds lie between the beginnings of two calls, 1 to 86,400.
    pub every: u32,
    /// Whether each call looks for numbers that were given to two records.
    pub checks: bool,
}

/// The peers that a server calls by itself.
#[derive(Debug, Drop)]
pub struct Peers {
    alloc: Global,
    calls: Vec<PeerCall>,
}

impl Model for Peers {
    ghost use Rattle.std.specs.Prelude.{List};
    ghost use Rattle.ua_settings.specs.declared.peers.PeerCall.{PeerCall};

    ghost Value = { List PeerCall };

    ghost view = { λ p. p.calls.items };
}

impl Peers {
    /// None yet. It takes no memory.
    pub fn new(alloc: Global) -> Peers
        ensures { result ≡ [] }
    {
        Peers {
            alloc,
            calls: Vec::new(alloc),
        }
    }

    /// Adds a peer. The one error is `OutOfMemory`, which changes nothing.
    pub fn add(&mut self, address: &str, every: u32, checks: bool) -> Result<(), SettingsFault>
        ensures ok { OnOk result
            (self.new
            ≡ self.old ++ record { address = address.now; every = every; checks = checks } ∷ []) }
        ensures err { IfErr result
            (λ fault. (fault ≡ SettingsFault.OutOfMemory) × (self.new ≡ self.old)) }
    {
        let address = Text::from_str(self.alloc, address)?;
        self.calls.push(PeerCall {
            address,
            every,
            checks,
        })?;
        Ok(())
    }

    /// All of them, in the order of the settings.
    pub fn as_slice(&self) -> &[PeerCall]
        ensures { result.now ≡ self.now }
    {
        self.calls.as_slice()
    }
}
