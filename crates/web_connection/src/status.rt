//! How the server does, as JSON.

ghost use Rattle.std.specs.Prelude.{◌≡◌, ◌++◌, drop, OnOk, IfOk};
ghost use Rattle.stamp.specs.Limits.{IsReplica};
ghost use Rattle.stamp.specs.Numbers.{number_of};
ghost use Rattle.web_page.specs.Calls.{overview_of};
ghost use Rattle.web_connection.specs.Status.{member_text, members_text, replica_text, status_json, IsStatusJson};

use crate::peers::{peers_text, put_number};
use itoa::Buffer;
use stamp::{ReplicaNo, Vector};
use std::alloc::{AllocError, Global};
use ua_settings::Settings;
use uuid::Uuid;
use web_page::Overview;

/// Appends a replica and the number of its last record after a comma, if it has any.
fn put_member(out: &mut Vec<u8>, replica: ReplicaNo, number: u64) -> Result<(), AllocError>
    ensures { OnOk result (out.new.items ≡ out.old.items ++ member_text replica number) }
{
    if number > 0 {
        out.extend_from_slice(b",\"")?;
        put_number(out, u64::from(replica.get()))?;
        out.extend_from_slice(b"\":")?;
        put_number(out, number)?;
    }
    Ok(())
}

/// The same of the replica of this number.
fn put_numbered(out: &mut Vec<u8>, vector: &Vector, number: u8) -> Result<(), AllocError>
    requires { IsReplica number }
    ensures { OnOk result (out.new.items
        ≡ out.old.items ++ member_text number (number_of vector.now number)) }
{
    match ReplicaNo::new(number) {
        None => Ok(()),
        Some(replica) => put_member(out, replica, vector.get(replica)),
    }
}

/// The replicas that have records, each after a comma.
#[tactic(auto, unfolding(crate::specs::Status::members_text))]
fn members_text(alloc: Global, vector: &Vector) -> Result<Vec<u8>, AllocError>
    ensures { IfOk result (λ text. text.items ≡ members_text (number_of vector.now)) }
{
    let mut out = Vec::new(alloc);
    for number in 1..65u8 {
        put_numbered(&mut out, vector, number)?;
    }
    Ok(out)
}

/// Members without the comma before the first of them.
fn behind_comma(members: &[u8]) -> &[u8]
    ensures { result.now ≡ drop 1 members.now }
{
    match members.split_first() {
        None => &[],
        Some((_, rest)) => rest,
    }
}

/// Which replica of which archive it is.
#[tactic(auto, unfolding(crate::specs::Status::replica_text))]
fn replica_text(alloc: Global, settings: &Settings) -> Result<Vec<u8>, AllocError>
    ensures { IfOk result (λ text. text.items ≡ replica_text settings.now) }
{
    let mut buffer = Uuid::encode_buffer();
    let id = settings.archive().hyphenated().encode_lower(&mut buffer);
    let mut digits = Buffer::new();
    let replica = digits.format(u64::from(settings.replica().get()));
    let mut text = Vec::new(alloc);
    text.extend_from_slice(b"\"archive\":\"")?;
    text.extend_from_slice(id.as_bytes())?;
    text.extend_from_slice(b"\",\"replica\":")?;
    text.extend_from_slice(replica.as_bytes())?;
    Ok(text)
}

/// Around these members and these peers, each of which stands after a comma.
fn whole_text(
    alloc: Global,
    overview: Overview<'_>,
    members: &[u8],
    peers: &[u8],
) -> Result<Vec<u8>, AllocError>
    ensures { IfOk result
        (λ text. text.items ≡ status_json (overview_of overview.entry) members.now peers.now) }
{
    let replica = replica_text(alloc, overview.settings)?;
    let mut out = Vec::new(alloc);
    out.push(b'{')?;
    out.extend_from_slice(replica.as_slice())?;
    out.extend_from_slice(b",\"connections\":")?;
    put_number(&mut out, overview.connections)?;
    out.extend_from_slice(b",\"records\":{")?;
    out.extend_from_slice(behind_comma(members))?;
    out.extend_from_slice(b"},\"peers\":[")?;
    out.extend_from_slice(behind_comma(peers))?;
    out.extend_from_slice(b"]}\n")?;
    Ok(out)
}

/// Which replica of which archive it is, how many connections there are, the number of the last
/// record of each replica, and the last call of each peer that is called.
pub(crate) fn status_text(
    alloc: Global,
    overview: Overview<'_>,
    vector: &Vector,
) -> Result<Vec<u8>, AllocError>
    ensures { IfOk result (λ text.
        IsStatusJson (overview_of overview.entry) (number_of vector.now) text.items) }
{
    let members = members_text(alloc, vector)?;
    let peers = peers_text(alloc, overview.calls.as_slice())?;
    whole_text(alloc, overview, members.as_slice(), peers.as_slice())
}
