//! Who is let in.

ghost use Rattle.std.specs.Prelude.{◌≡◌};
ghost use Rattle.ua_session.specs.Users.{claim_of};
ghost use Rattle.web_connection.specs.Access.{claim_in, is_let_in, are_wrong};

use ua_session::Identity;
use ua_settings::Settings;
use web_request::Credentials;

/// Whom credentials say, as a session's user would.
fn identity_of(credentials: &Option<Credentials>) -> Identity<'_>
    ensures { claim_of result ≡ claim_in credentials.now }
{
    match credentials {
        None => Identity::Anonymous,
        Some(given) => match str::from_utf8(given.name.as_slice()) {
            Ok(name) => Identity::Named {
                name: Some(name),
                password: Some(given.password.as_slice()),
                algorithm: None,
            },
            Err(_) => Identity::Other,
        },
    }
}

/// Whether who asks is let in: one of the settings' users.
pub(crate) fn is_let_in(settings: &Settings, credentials: &Option<Credentials>) -> bool
    ensures { result ≡ is_let_in settings.now credentials.now }
{
    let identity = identity_of(credentials);
    settings.users().judge(identity).is_ok()
}

/// Whether credentials are given, and let nobody in.
pub(crate) fn are_wrong(settings: &Settings, credentials: &Option<Credentials>) -> bool
    ensures { result ≡ are_wrong settings.now credentials.now }
{
    credentials.is_some() && !is_let_in(settings, credentials)
}
