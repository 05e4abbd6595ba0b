//! Who asks, by the Authorization field.

ghost use Rattle.std.specs.Prelude.{◌≡◌, ◌<◌, IfSome, length, position, MatchOption, MatchResult, Some, None, Ok, Err, ok_or, option_copied, count_by, find};
ghost use Rattle.http1.specs.Head.{header_parts, pairs};
ghost use Rattle.web_request.specs.Asking.{Answers, only};
ghost use Rattle.web_request.specs.Credentials.{Finds, is_authorization, credentials_of, credentials_in, token_in, is_colon, pair_in};
ghost use Rattle.web_request.specs.declared.page.Refusal.TheVariants as Why;

use crate::page::{Credentials, Fault, Refusal};
use base64::DecodeAllocError;
use base64::engine::general_purpose::STANDARD;
use http1::Header;
use http1::text::eq_ignore_case;
use std::alloc::Global;
use ua_binary::Bytes;

/// Whether a header is an Authorization field (RFC 9110, 11.6.2).
fn is_authorization(header: &Header<'_>) -> bool
    ensures { result ≡ is_authorization (header_parts header.now) }
{
    eq_ignore_case(header.name, b"authorization")
}

/// How many headers are Authorization fields.
fn count_authorizations(headers: &[Header<'_>]) -> usize
    ensures { result ≡ count_by (λ h. is_authorization (header_parts h)) headers.now }
{
    headers
        .iter()
        .filter(|header| is_authorization(header))
        .count()
}

/// The first Authorization field.
fn find_authorization<'b, 'a>(headers: &'b [Header<'a>]) -> Option<&'b Header<'a>>
    ensures { option_copied result
        ≡ find (λ h. is_authorization (header_parts h)) headers.now }
{
    headers.iter().find(|header| is_authorization(header))
}

/// The one Authorization field, if there is one.
#[tactic(auto, using(crate::proofs::Mapped::only_of_mapped))]
fn authorization<'b, 'a>(headers: &'b [Header<'a>]) -> Result<Option<&'b Header<'a>>, Refusal>
    ensures { Finds (only Why.Credentials is_authorization (pairs headers.now)) result }
{
    if count_authorizations(headers) > 1 {
        return Err(Refusal::Credentials);
    }
    Ok(find_authorization(headers))
}

/// What stands behind the name of the scheme and a space.
fn token_in(value: &[u8]) -> Option<&[u8]>
    ensures { MatchOption result (token_in value.now ≡ None)
        (λ token. token_in value.now ≡ Some token.now) }
{
    if value.len() < 6 {
        return None;
    }
    let (scheme, token) = value.split_at(6);
    if !eq_ignore_case(scheme, b"basic ") {
        return None;
    }
    Some(token)
}

/// Where the first colon stands.
fn colon_of(bytes: &[u8]) -> Option<usize>
    ensures place { result ≡ position is_colon bytes.now }
    ensures within { IfSome result (λ colon. colon < length bytes.now) }
{
    bytes.iter().position(|&b| b == b':')
}

/// The name before the first colon, and the password behind it.
#[tactic(auto, using(crate::proofs::Pairs::pair_is, crate::proofs::Pairs::no_pair))]
fn pair_in(alloc: Global, bytes: &[u8]) -> Result<Credentials, Fault>
    ensures { Answers (ok_or (pair_in bytes.now) Why.Credentials) result }
{
    let Some(colon) = colon_of(bytes) else {
        return Err(Fault::Refused(Refusal::Credentials));
    };
    let (name, _) = bytes.split_at(colon);
    let (_, password) = bytes.split_at(colon + 1);
    let name = Bytes::from_slice(alloc, name)?;
    let password = Bytes::from_slice(alloc, password)?;
    Ok(Credentials { name, password })
}

/// The name and the password that the value of an Authorization field says.
fn credentials_in(alloc: Global, value: &[u8]) -> Result<Credentials, Fault>
    ensures { Answers (credentials_in value.now) result }
{
    let Some(token) = token_in(value) else {
        return Err(Fault::Refused(Refusal::Credentials));
    };
    match STANDARD.decode(alloc, token) {
        Ok(bytes) => pair_in(alloc, bytes.as_slice()),
        Err(DecodeAllocError::OutOfMemory) => Err(Fault::OutOfMemory),
        Err(DecodeAllocError::DecodeError(_)) => Err(Fault::Refused(Refusal::Credentials)),
    }
}

/// Who asks, by the one Authorization field; nobody where there is none.
pub(crate) fn credentials_of(
    alloc: Global,
    headers: &[Header<'_>],
) -> Result<Option<Credentials>, Fault>
    ensures { Answers (credentials_of (pairs headers.now)) result }
{
    match authorization(headers) {
        Err(why) => Err(Fault::Refused(why)),
        Ok(None) => Ok(None),
        Ok(Some(header)) => Ok(Some(credentials_in(alloc, header.value)?)),
    }
}
