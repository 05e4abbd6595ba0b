//! Endpoints (Part 4, 7.2, 7.14 and 7.42), in the bytes that they were read from.

ghost use Rattle.ua_binary.specs.Format.{ReadsUnless};
ghost use Rattle.ua_services.specs.Endpoints.{ApplicationFields, application_description, TokenFields, user_token_policy, EndpointFields, endpoint_description};
ghost use Rattle.ua_client.specs.Answers.{application_in, token_in, endpoint_in};

use std::alloc::Global;
use ua_binary::{BinaryFault, Cursor, Decode, LocalizedRef, read_array};

/// An application (Part 4, 7.2), without its gateway and its discovery profile.
#[derive(Debug, Drop)]
pub struct Application<'a> {
    pub application_uri: Option<&'a str>,
    pub product_uri: Option<&'a str>,
    pub application_name: LocalizedRef<'a>,
    /// 0 a server, 1 a client, 2 both, 3 one that tells of servers.
    pub application_type: i32,
    pub discovery_urls: Vec<Option<&'a str>>,
}

/// A way in which a user may say who it is (Part 4, 7.42), without what concerns issued tokens and a policy of its own.
#[derive(Debug, Drop)]
pub struct Token<'a> {
    pub policy_id: Option<&'a str>,
    /// 0 nobody, 1 a user name, 2 a certificate, 3 an issued token.
    pub token_type: i32,
}

/// Where and how a server is reached (Part 4, 7.14), without its certificate.
#[derive(Debug, Drop)]
pub struct Endpoint<'a> {
    pub endpoint_url: Option<&'a str>,
    pub server: Application<'a>,
    /// 1 is no security.
    pub security_mode: i32,
    pub security_policy_uri: Option<&'a str>,
    pub tokens: Vec<Token<'a>>,
    pub transport_profile_uri: Option<&'a str>,
    pub security_level: u8,
}

impl<'a> Decode<'a> for Application<'a> {
    type Fault = BinaryFault;

    ghost Value = { ApplicationFields };

    ghost view = { application_in };

    ghost format = { application_description };

    #[tactic(auto, unfolding(ua_services::specs::Endpoints::application_description))]
    fn decode(alloc: Global, cursor: &mut Cursor<'a>) -> Result<Application<'a>, BinaryFault> {
        let mut next = cursor.fork();
        let application_uri = next.text()?;
        let product_uri = next.text()?;
        let application_name = next.localized()?;
        let application_type = next.i32()?;
        let _gateway = next.text()?;
        let _profile = next.text()?;
        let discovery_urls = read_array(alloc, &mut next)?;
        *cursor = next;
        Ok(Application {
            application_uri,
            product_uri,
            application_name,
            application_type,
            discovery_urls,
        })
    }
}

impl<'a> Decode<'a> for Token<'a> {
    type Fault = BinaryFault;

    ghost Value = { TokenFields };

    ghost view = { token_in };

    ghost format = { user_token_policy };

    #[tactic(auto, unfolding(ua_services::specs::Endpoints::user_token_policy))]
    fn decode(alloc: Global, cursor: &mut Cursor<'a>) -> Result<Token<'a>, BinaryFault> {
        let mut next = cursor.fork();
        let policy_id = next.text()?;
        let token_type = next.i32()?;
        let _issued = next.text()?;
        let _issuer = next.text()?;
        let _policy = next.text()?;
        *cursor = next;
        Ok(Token {
            policy_id,
            token_type,
        })
    }
}

impl<'a> Decode<'a> for Endpoint<'a> {
    type Fault = BinaryFault;

    ghost Value = { EndpointFields };

    ghost view = { endpoint_in };

    ghost format = { endpoint_description };

    #[tactic(auto, unfolding(ua_services::specs::Endpoints::endpoint_description, ua_services::specs::Endpoints::access))]
    fn decode(alloc: Global, cursor: &mut Cursor<'a>) -> Result<Endpoint<'a>, BinaryFault> {
        let mut next = cursor.fork();
        let endpoint_url = next.text()?;
        let server = Application::decode(alloc, &mut next)?;
        let _certificate = next.bytes()?;
        let security_mode = next.i32()?;
        let security_policy_uri = next.text()?;
        let tokens = read_array(alloc, &mut next)?;
        let transport_profile_uri = next.text()?;
        let security_level = next.u8()?;
        *cursor = next;
        Ok(Endpoint {
            endpoint_url,
            server,
            security_mode,
            security_policy_uri,
            tokens,
            transport_profile_uri,
            security_level,
        })
    }
}
