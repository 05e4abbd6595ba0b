//! From where peers are taken.

ghost use Rattle.std.specs.Prelude.{◌≡◌, MatchOption};
ghost use Rattle.std.specs.List.{list_any};
ghost use Rattle.conversation.specs.Networks.{width, is_alike, IsNetworkText, IsNoNetwork, IsLengthText, IsNoLength, IsNoIp, has_address, is_taken};
ghost use Rattle.std.specs.Net.Grammar.{IsIpText};

use std::net::{IpAddr, SocketAddr};
use ua_binary::Listing;

/// Addresses that begin with the same bits (RFC 4632, 3.1; RFC 4291, 2.3).
#[derive(Clone, Copy, Debug)]
pub struct Network {
    /// One of them.
    pub address: IpAddr,
    /// How many bits they have in common, from the first on.
    pub length: u8,
}

/// How many bits an address has.
fn width(address: IpAddr) -> u8
    ensures { result ≡ width address }
{
    match address {
        IpAddr::V4(_) => 32,
        IpAddr::V6(_) => 128,
    }
}

/// The number that a text writes in decimal digits, perhaps after a `+`, if it is below 256.
fn length_in(text: &str) -> Option<u8>
    ensures { MatchOption result (IsNoLength text.now) (IsLengthText text.now) }
{
    match text.parse::<u8>() {
        Ok(length) => Some(length),
        Err(_) => None,
    }
}

/// The address that a text spells.
fn address_in(text: &str) -> Option<IpAddr>
    ensures { MatchOption result (IsNoIp text.now) (IsIpText text.now) }
{
    match text.parse::<IpAddr>() {
        Ok(address) => Some(address),
        Err(_) => None,
    }
}

impl Network {
    /// The network that a text spells: an address alone, as `10.1.2.3` or `fd00::1`, or an address and how many of its bits are
    /// in common, as `10.1.0.0/16` or `fd00::/8`.
    pub fn parse(text: &str) -> Option<Network>
        ensures { MatchOption result (IsNoNetwork text.now) (IsNetworkText text.now) }
    {
        match text.split_once('/') {
            None => {
                let address = address_in(text)?;
                Some(Network {
                    address,
                    length: width(address),
                })
            }
            Some((address, length)) => {
                let address = address_in(address)?;
                let length = length_in(length)?;
                if length <= width(address) {
                    Some(Network { address, length })
                } else {
                    None
                }
            }
        }
    }

    /// Whether an address is one of them.
    pub fn has(&self, address: IpAddr) -> bool
        ensures { result ≡ has_address self.now address }
    {
        match (self.address, address) {
            (IpAddr::V4(one), IpAddr::V4(other)) => {
                let other_bits = 32u8.saturating_sub(self.length);
                is_alike(
                    other_bits,
                    u128::from(one.to_bits()),
                    u128::from(other.to_bits()),
                )
            }
            (IpAddr::V6(one), IpAddr::V6(other)) => {
                let other_bits = 128u8.saturating_sub(self.length);
                is_alike(other_bits, one.to_bits(), other.to_bits())
            }
            _ => false,
        }
    }
}

/// Whether two numbers are alike but for their last bits, of which there are so many.
fn is_alike(last: u8, one: u128, other: u128) -> bool
    ensures { result ≡ is_alike last one other }
{
    last >= 128 || one >> last == other >> last
}

/// Whether an address is one of these networks.
fn is_among(networks: &[Network], address: IpAddr) -> bool
    ensures { result ≡ list_any (λ network. has_address network address) networks.now }
{
    networks.iter().any(|network| network.has(address))
}

/// Whether a peer is taken that comes from this address, where it is known: from these networks, or from everywhere.
pub(crate) fn is_taken(from: &Option<Listing<Network>>, address: Option<SocketAddr>) -> bool
    ensures { result ≡ is_taken from.now address }
{
    match (from, address) {
        (None, _) => true,
        (Some(_), None) => false,
        (Some(networks), Some(address)) => is_among(networks.as_slice(), address.ip()),
    }
}
