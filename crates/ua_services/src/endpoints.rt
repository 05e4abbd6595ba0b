//! Endpoints, and the request for them (Part 4, 5.5.4, 7.2, 7.14 and 7.42).

ghost use Rattle.std.specs.Prelude.{◌≡◌, ◌<◌, ◌^◌, length, map, IfOk};
ghost use Rattle.ua_binary.specs.Format.{ReadsUnless, Puts, PutsPart, saturated};
ghost use Rattle.ua_services.specs.Endpoints.{ApplicationFields, application_fields, application_description, IsShortApplication, TokenFields, token_fields, user_token_policy, IsShortToken, EndpointFields, endpoint_fields, endpoint_description, IsShortEndpoint, AreShortEndpoints, AreEndpoints, endpoints_asked, get_endpoints_request, get_endpoints_response};

use crate::many::{many_size, put_many, put_texts, texts_size};
use crate::skipping::skip_texts;
use std::alloc::{AllocError, Global};
use ua_binary::{
    BinaryFault, Cursor, Encode, Listing, LocalizedText, Text, TryClone, or_undone, put_bytes,
    put_i32, put_localized, put_owned_text, put_text, read_array,
};

/// What an application is (Part 4, 7.2).
#[derive(Clone, Copy, Debug, PartialEq, Eq)]
pub enum ApplicationType {
    Server,
    Client,
    ClientAndServer,
    DiscoveryServer,
}

impl ApplicationType {
    ghost use Rattle.ua_services.specs.Endpoints.{application_number};

    /// Its number on the wire, from 0 to 3.
    fn number(self) -> i32
        ensures { result ≡ application_number self }
    {
        match self {
            ApplicationType::Server => 0,
            ApplicationType::Client => 1,
            ApplicationType::ClientAndServer => 2,
            ApplicationType::DiscoveryServer => 3,
        }
    }
}

/// How messages are secured (Part 4, 7.20).
#[derive(Clone, Copy, Debug, PartialEq, Eq)]
pub enum MessageSecurityMode {
    Invalid,
    None,
    Sign,
    SignAndEncrypt,
}

impl MessageSecurityMode {
    ghost use Rattle.ua_services.specs.Endpoints.{mode_number};

    /// Its number on the wire, from 0 to 3.
    fn number(self) -> i32
        ensures { result ≡ mode_number self }
    {
        match self {
            MessageSecurityMode::Invalid => 0,
            MessageSecurityMode::None => 1,
            MessageSecurityMode::Sign => 2,
            MessageSecurityMode::SignAndEncrypt => 3,
        }
    }
}

/// How a user says who it is (Part 4, 7.43), of those ways that are served.
#[derive(Clone, Copy, Debug, PartialEq, Eq)]
pub enum UserTokenType {
    Anonymous,
    UserName,
}

impl UserTokenType {
    ghost use Rattle.ua_services.specs.Endpoints.{token_number};

    /// Its number on the wire, 0 or 1.
    fn number(self) -> i32
        ensures { result ≡ token_number self }
    {
        match self {
            UserTokenType::Anonymous => 0,
            UserTokenType::UserName => 1,
        }
    }
}

/// An application (Part 4, 7.2). It has no gateway and no discovery profile: these are written as null.
#[derive(Debug, Drop, PartialEq, Eq)]
pub struct ApplicationDescription {
    pub application_uri: Option<Text>,
    pub product_uri: Option<Text>,
    pub application_name: LocalizedText,
    pub application_type: ApplicationType,
    pub discovery_urls: Listing<Option<Text>>,
}

/// A way in which a user may say who it is (Part 4, 7.42). What only concerns issued tokens, and a
/// security policy of its own, are written as null.
#[derive(Debug, Drop, PartialEq, Eq)]
pub struct UserTokenPolicy {
    pub policy_id: Option<Text>,
    pub token_type: UserTokenType,
}

/// Where and how a server is reached (Part 4, 7.14). Its certificate is written as null.
#[derive(Debug, Drop, PartialEq, Eq)]
pub struct EndpointDescription {
    pub endpoint_url: Option<Text>,
    pub server: ApplicationDescription,
    pub security_mode: MessageSecurityMode,
    pub security_policy_uri: Option<Text>,
    pub user_identity_tokens: Listing<UserTokenPolicy>,
    pub transport_profile_uri: Option<Text>,
    pub security_level: u8,
}

impl TryClone for ApplicationDescription {
    fn try_clone(&self) -> Result<ApplicationDescription, AllocError> {
        let application_uri = self.application_uri.try_clone()?;
        let product_uri = self.product_uri.try_clone()?;
        let application_name = self.application_name.try_clone()?;
        let discovery_urls = self.discovery_urls.try_clone()?;
        Ok(ApplicationDescription {
            application_uri,
            product_uri,
            application_name,
            application_type: self.application_type,
            discovery_urls,
        })
    }
}

impl TryClone for UserTokenPolicy {
    fn try_clone(&self) -> Result<UserTokenPolicy, AllocError> {
        let policy_id = self.policy_id.try_clone()?;
        Ok(UserTokenPolicy {
            policy_id,
            token_type: self.token_type,
        })
    }
}

impl TryClone for EndpointDescription {
    fn try_clone(&self) -> Result<EndpointDescription, AllocError> {
        let endpoint_url = self.endpoint_url.try_clone()?;
        let security_policy_uri = self.security_policy_uri.try_clone()?;
        let transport_profile_uri = self.transport_profile_uri.try_clone()?;
        let user_identity_tokens = self.user_identity_tokens.try_clone()?;
        let server = self.server.try_clone()?;
        Ok(EndpointDescription {
            endpoint_url,
            server,
            security_mode: self.security_mode,
            security_policy_uri,
            user_identity_tokens,
            transport_profile_uri,
            security_level: self.security_level,
        })
    }
}

impl Encode for ApplicationDescription {
    type Fault = BinaryFault;

    ghost Value = { ApplicationFields };

    ghost view = { application_fields };

    ghost format = { application_description };

    ghost can_put = { IsShortApplication };

    #[tactic(auto, using(ua_binary::proofs::Kept::kept, crate::proofs::Fits::fits), unfolding(crate::specs::Endpoints::application_description))]
    fn put_parts(&self, out: &mut Vec<u8>) -> Result<(), BinaryFault> {
        put_owned_text(out, &self.application_uri)?;
        put_owned_text(out, &self.product_uri)?;
        put_localized(out, &self.application_name)?;
        put_i32(out, self.application_type.number())?;
        put_text(out, None)?;
        put_text(out, None)?;
        put_texts(out, self.discovery_urls.as_slice())?;
        Ok(())
    }

    #[tactic(auto, using(crate::proofs::Fits::lengths, ua_binary::proofs::Sizes::short, crate::proofs::Fits::fits), unfolding(crate::specs::Endpoints::application_description))]
    fn size(&self) -> usize {
        let uris = self
            .application_uri
            .size()
            .saturating_add(self.product_uri.size());
        let name = self.application_name.size().saturating_add(12);
        let urls = texts_size(self.discovery_urls.as_slice());
        uris.saturating_add(name).saturating_add(urls)
    }
}

impl Encode for UserTokenPolicy {
    type Fault = BinaryFault;

    ghost Value = { TokenFields };

    ghost view = { token_fields };

    ghost format = { user_token_policy };

    ghost can_put = { IsShortToken };

    #[tactic(auto, using(ua_binary::proofs::Kept::kept, crate::proofs::Fits::fits), unfolding(crate::specs::Endpoints::user_token_policy))]
    fn put_parts(&self, out: &mut Vec<u8>) -> Result<(), BinaryFault> {
        put_owned_text(out, &self.policy_id)?;
        put_i32(out, self.token_type.number())?;
        put_text(out, None)?;
        put_text(out, None)?;
        put_text(out, None)?;
        Ok(())
    }

    #[tactic(auto, using(crate::proofs::Fits::lengths, ua_binary::proofs::Sizes::short, crate::proofs::Fits::fits), unfolding(crate::specs::Endpoints::user_token_policy))]
    fn size(&self) -> usize {
        self.policy_id.size().saturating_add(16)
    }
}

impl EndpointDescription {
    ghost use Rattle.ua_services.specs.Endpoints.{access, access_fields, IsShortAccess, IsAccess};

    /// How it is reached; an error leaves a part.
    #[tactic(auto, using(ua_binary::proofs::Kept::kept, crate::proofs::Fits::fits), unfolding(crate::specs::Endpoints::access))]
    fn put_access_parts(&self, out: &mut Vec<u8>) -> Result<(), BinaryFault>
        requires { IsShortAccess self.now }
        ensures puts { PutsPart BinaryFault.OutOfMemory result out.old.items out.new.items
            (access.canon (access_fields self.now)) }
        ensures spelled { IfOk result (λ _. IsAccess (access_fields self.now)) }
    {
        put_i32(out, self.security_mode.number())?;
        put_owned_text(out, &self.security_policy_uri)?;
        put_many(out, self.user_identity_tokens.as_slice())?;
        put_owned_text(out, &self.transport_profile_uri)?;
        self.security_level.put(out)?;
        Ok(())
    }

    /// The same; where memory runs out, the vector is as it was.
    fn put_access(&self, out: &mut Vec<u8>) -> Result<(), BinaryFault>
        requires { IsShortAccess self.now }
        ensures puts { Puts BinaryFault.OutOfMemory result out.old.items out.new.items
            (access.canon (access_fields self.now)) }
        ensures spelled { IfOk result (λ _. IsAccess (access_fields self.now)) }
    {
        let len = out.len();
        let put = self.put_access_parts(out);
        or_undone(put, out, len)
    }

    /// How many bytes that takes.
    #[tactic(auto, using(crate::proofs::Fits::lengths, ua_binary::proofs::Sizes::short, crate::proofs::Fits::fits), unfolding(crate::specs::Endpoints::access))]
    fn access_size(&self) -> usize
        ensures counted { result ≡ saturated (length (access.canon (access_fields self.now))) }
        ensures short { length (access.canon (access_fields self.now)) < 2 ^ 31 → IsShortAccess self.now }
        ensures spelled { IsShortAccess self.now → IsAccess (access_fields self.now) }
    {
        let level = self.security_level.size();
        let texts = self
            .security_policy_uri
            .size()
            .saturating_add(self.transport_profile_uri.size());
        let tokens = many_size(self.user_identity_tokens.as_slice());
        texts.saturating_add(tokens).saturating_add(4 + level)
    }
}

impl Encode for EndpointDescription {
    type Fault = BinaryFault;

    ghost Value = { EndpointFields };

    ghost view = { endpoint_fields };

    ghost format = { endpoint_description };

    ghost can_put = { IsShortEndpoint };

    #[tactic(auto, using(ua_binary::proofs::Kept::kept, crate::proofs::Fits::fits), unfolding(crate::specs::Endpoints::endpoint_description, crate::specs::Endpoints::application_description))]
    fn put_parts(&self, out: &mut Vec<u8>) -> Result<(), BinaryFault> {
        put_owned_text(out, &self.endpoint_url)?;
        self.server.put(out)?;
        put_bytes(out, None)?;
        self.put_access(out)?;
        Ok(())
    }

    #[tactic(auto, using(crate::proofs::Fits::lengths, ua_binary::proofs::Sizes::short, crate::proofs::Fits::fits), unfolding(crate::specs::Endpoints::endpoint_description, crate::specs::Endpoints::application_description))]
    fn size(&self) -> usize {
        let server = self.endpoint_url.size().saturating_add(self.server.size());
        server.saturating_add(self.access_size()).saturating_add(4)
    }
}

/// What a GetEndpoints request asks (Part 4, 5.5.4), in the bytes that it was read from.
#[derive(Debug, Drop)]
pub struct GetEndpointsRequest<'a> {
    /// The URL that the client used.
    pub endpoint_url: Option<&'a str>,
    /// The transport profiles that the client takes; none stands for all.
    pub profile_uris: Vec<Option<&'a str>>,
}

/// Reads a GetEndpoints request (Part 4, 5.5.4) behind its header: a String and two arrays of Strings,
/// of which the first, the locales, isn't kept. A fault is that of the leftmost field that has no
/// spelling, or `OutOfMemory`, and leaves the cursor where it was.
#[tactic(auto, unfolding(crate::specs::Endpoints::get_endpoints_request))]
pub fn read_get_endpoints_request<'a>(
    alloc: Global,
    cursor: &mut Cursor<'a>,
) -> Result<GetEndpointsRequest<'a>, BinaryFault>
    ensures { ReadsUnless BinaryFault.OutOfMemory endpoints_asked result cursor.old cursor.new
        get_endpoints_request.read }
{
    let mut next = cursor.fork();
    let endpoint_url = next.text()?;
    skip_texts(&mut next)?;
    let profile_uris = read_array(alloc, &mut next)?;
    *cursor = next;
    Ok(GetEndpointsRequest {
        endpoint_url,
        profile_uris,
    })
}

/// Writes a GetEndpoints response (Part 4, 5.5.4) behind its header: the array of the endpoints. Its one
/// error is `OutOfMemory`, and then the vector is as it was. What was written has a spelling.
#[tactic(auto, unfolding(crate::specs::Endpoints::get_endpoints_response))]
pub fn put_get_endpoints_response(
    out: &mut Vec<u8>,
    endpoints: &[EndpointDescription],
) -> Result<(), BinaryFault>
    requires { AreShortEndpoints endpoints.now }
    ensures puts { Puts BinaryFault.OutOfMemory result out.old.items out.new.items
        (get_endpoints_response.canon (map endpoint_fields endpoints.now)) }
    ensures spelled { IfOk result (λ _. AreEndpoints endpoints.now) }
{
    put_many(out, endpoints)
}
