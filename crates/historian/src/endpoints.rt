//! What the server tells of itself: its one endpoint, without security (Part 4, 5.5.4 and 7.14).

ghost use Rattle.std.specs.Cmp.Lexicographic.{pointwise};
ghost use Rattle.std.specs.Prelude.{◌≡◌, ◌∷◌, ◌++◌, [], ◌<◌, ◌+◌, ◌^◌, All, Some, map, length, IfOk, OnOk, nat_eq, unwrap_or};
ghost use Rattle.std.specs.Option.{option_copied};
ghost use Rattle.ua_channel.specs.Headers.{policy_none};
ghost use Rattle.ua_services.specs.Endpoints.{application_fields, token_fields, token_number, endpoint_fields, IsShortApplication, IsShortToken, IsShortEndpoint, AreShortEndpoints};
ghost use Rattle.historian.specs.Endpoints.{transport_profile, application_of, tokens_of, endpoint_of, takes_transport};

use std::alloc::{AllocError, Global};
use ua_binary::{Listing, LocalizedText, Text};
use ua_services::{
    ApplicationDescription, ApplicationType, EndpointDescription, MessageSecurityMode,
    UserTokenPolicy, UserTokenType,
};
use ua_session::Users;
use ua_settings::Settings;

/// The URI of the transport profile that is served: UA TCP, UA Binary (Part 7).
#[tactic(auto, unfolding(crate::specs::Endpoints::transport_profile))]
fn transport_profile() -> &'static str
    ensures value { result.now ≡ transport_profile }
    ensures few { length result.now < 2 ^ 31 }
{
    "http://opcfoundation.org/UA-Profile/Transport/uatcp-uasc-uabinary"
}

/// The URI of the security policy that is served, None (Part 7).
#[tactic(auto, unfolding(ua_channel::specs::Headers::policy_none))]
fn security_policy() -> &'static str
    ensures value { result.now ≡ policy_none }
    ensures few { length result.now < 2 ^ 31 }
{
    "http://opcfoundation.org/UA/SecurityPolicy#None"
}

/// The server as an application.
fn application(alloc: Global, settings: &Settings) -> Result<ApplicationDescription, AllocError>
    ensures fields { IfOk result (λ v. application_fields v ≡ application_of settings.now) }
    ensures short { IfOk result (λ v. IsShortApplication v) }
{
    let mut urls = Vec::new(alloc);
    urls.push(Some(Text::from_str(alloc, settings.url())?))?;
    let application_uri = Text::from_str(alloc, settings.application())?;
    let product_uri = Text::from_str(alloc, "urn:uahist")?;
    let name = Text::from_str(alloc, "uahist")?;
    Ok(ApplicationDescription {
        application_uri: Some(application_uri),
        product_uri: Some(product_uri),
        application_name: LocalizedText {
            locale: None,
            text: Some(name),
        },
        application_type: ApplicationType::Server,
        discovery_urls: Listing::of(urls),
    })
}

/// One way in more, of this policy id.
fn add_token(
    alloc: Global,
    tokens: &mut Vec<UserTokenPolicy>,
    policy_id: &str,
    token_type: UserTokenType,
) -> Result<(), AllocError>
    requires { length policy_id.now < 2 ^ 31 }
    ensures { OnOk result
        ((map token_fields tokens.new.items ≡ map token_fields tokens.old.items
        ++ (Some policy_id.now, token_number token_type) ∷ [])
        × (All IsShortToken tokens.old.items → All IsShortToken tokens.new.items)
        × (length tokens.new.items ≡ length tokens.old.items + 1)) }
{
    let policy_id = Text::from_str(alloc, policy_id)?;
    tokens.push(UserTokenPolicy {
        policy_id: Some(policy_id),
        token_type,
    })?;
    Ok(())
}

/// The ways in which a user may say who it is: without a name where that is allowed, by a name where there is a user with
/// one.
fn tokens(alloc: Global, users: &Users) -> Result<Listing<UserTokenPolicy>, AllocError>
    ensures fields { IfOk result (λ v. map token_fields v ≡ tokens_of users.now) }
    ensures short { IfOk result (λ v. (length v < 2 ^ 31) × All IsShortToken v) }
{
    let mut tokens = Vec::new(alloc);
    if users.allows_anonymous() {
        add_token(alloc, &mut tokens, "anonymous", UserTokenType::Anonymous)?;
    }
    if users.has_named() {
        add_token(alloc, &mut tokens, "username", UserTokenType::UserName)?;
    }
    Ok(Listing::of(tokens))
}

/// The server's endpoint.
fn endpoint(alloc: Global, settings: &Settings) -> Result<EndpointDescription, AllocError>
    ensures fields { IfOk result (λ v. endpoint_fields v ≡ endpoint_of settings.now) }
    ensures short { IfOk result (λ v. IsShortEndpoint v) }
{
    let endpoint_url = Text::from_str(alloc, settings.url())?;
    let policy = Text::from_str(alloc, security_policy())?;
    let profile = Text::from_str(alloc, transport_profile())?;
    let tokens = tokens(alloc, settings.users())?;
    let server = application(alloc, settings)?;
    Ok(EndpointDescription {
        endpoint_url: Some(endpoint_url),
        server,
        security_mode: MessageSecurityMode::None,
        security_policy_uri: Some(policy),
        user_identity_tokens: tokens,
        transport_profile_uri: Some(profile),
        security_level: 0,
    })
}

/// All endpoints of the server: the one. It takes memory.
pub(crate) fn all_endpoints(
    alloc: Global,
    settings: &Settings,
) -> Result<Vec<EndpointDescription>, AllocError>
    ensures fields { IfOk result
        (λ v. map endpoint_fields v.items ≡ endpoint_of settings.now ∷ []) }
    ensures short { IfOk result (λ v. AreShortEndpoints v.items) }
{
    let mut endpoints = Vec::new(alloc);
    let endpoint = endpoint(alloc, settings)?;
    endpoints.push(endpoint)?;
    Ok(endpoints)
}

/// Whether it is the transport profile that is served.
fn is_served_profile(profile: Option<&str>) -> bool
    ensures { result
        ≡ pointwise nat_eq (unwrap_or (option_copied profile.entry) []) transport_profile }
{
    profile.unwrap_or("") == transport_profile()
}

/// Whether a client that takes these transport profiles takes the one that is served; none stands for all.
pub(crate) fn takes_transport(profiles: &[Option<&str>]) -> bool
    ensures { result ≡ takes_transport (map option_copied profiles.now) }
{
    profiles.is_empty() || profiles.iter().any(|profile| is_served_profile(*profile))
}
