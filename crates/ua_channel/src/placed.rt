//! Which chunks are well placed (Part 6, 6.7.2).

ghost use Rattle.std.specs.Ordering.{int_eq};
ghost use Rattle.std.specs.Str.{bytes_eq};
ghost use Rattle.ua_channel.specs.Headers.{policy_none};
ghost use Rattle.std.specs.Option.{option_copied};
ghost use Rattle.std.specs.Prelude.{◌≡◌, None, Some, false, not, pos, ◌==◌, ◌&&◌, ◌||◌, if◌then◌else◌, ◌+◌};
ghost use Rattle.ua_channel.specs.Placed.{is_next_number, asked_at};

use crate::fault::ChannelFault;
use crate::headers::{Numbers, OpenRequestBody, policy_uri, read_open_request};
use ua_binary::Cursor;
use uacp::Letter;

/// A chunk that is well placed, as it is read.
#[derive(Clone, Copy)]
pub(crate) enum PlacedChunk<'a> {
    /// OPN: its sequence number and request id, and what it asks.
    Opens((u32, u32), OpenRequestBody),
    /// MSG: the bytes after its numbers.
    Says(Letter, Numbers, &'a [u8]),
    /// CLO.
    Closes(Numbers),
}

/// Whether a sequence number may follow the newest one.
pub(crate) fn is_next(last: Option<u32>, number: u32) -> bool
    ensures { result ≡ is_next_number last number }
{
    match last {
        None => true,
        Some(last) => {
            last.checked_add(1) == Some(number) || (last > 4_294_966_271 && number < 1024)
        }
    }
}

/// Whether a token is the newest one or the one before it.
pub(crate) fn is_known(openings: u32, token: u32) -> bool
    ensures { result ≡ (not (token == 0) && ((token == openings) || (token + 1 == openings))) }
{
    token != 0 && (token == openings || token.checked_add(1) == Some(openings))
}

/// Whether the policy is None.
pub(crate) fn is_policy_none(policy: Option<&str>) -> bool
    ensures { result
        ≡ (elim (option_copied policy.entry)
        [ None ↦ false | Some uri ↦ bytes_eq uri policy_none ]) }
{
    match policy {
        None => false,
        Some(uri) => uri == policy_uri(),
    }
}

/// Whether the request type is the one that is due: Issue once, and Renew from then on.
pub(crate) fn is_due_type(openings: u32, asked: &OpenRequestBody) -> bool
    ensures { result
        ≡ (if openings == 0 then int_eq asked.now.request_type (pos 0)
        else int_eq asked.now.request_type (pos 1)) }
{
    if openings == 0 {
        asked.request_type == 0
    } else {
        asked.request_type == 1
    }
}

/// The request for a channel that all of some bytes spell.
pub(crate) fn read_asked(bytes: &[u8]) -> Result<OpenRequestBody, ChannelFault>
    ensures { result ≡ asked_at bytes.now }
{
    let mut cursor = Cursor::new(bytes);
    match read_open_request(&mut cursor) {
        Ok(asked) if cursor.rest().is_empty() => Ok(asked),
        _ => Err(ChannelFault::Decoding),
    }
}
