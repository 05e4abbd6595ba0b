//! A session with a running server: opened as a user, and ended.

ghost use Rattle.std.specs.Prelude.{◌≡◌, IfOk, IfSome, OnErr, Option};
ghost use Rattle.ua_client.specs.Asking.{claim_in, IsShortLogin};
ghost use Rattle.ua_client.specs.Talking.{flow_of};
ghost use Rattle.remote_import.specs.Sessions.{claim_by, OpensSession, StopsOpening, EndsSession};
ghost use Rattle.remote_import.specs.Bringing.{state_of};

use history_import::Import;
use std::io::{Read, Write};
use ua_binary::Ticks;
use ua_client::{Client, ClientFault, Line, Login, NewSession, connect};
use ua_session::Users;
use ua_settings::Settings;

/// In milliseconds, how long a channel is asked to be good for.
const LIFETIME: u32 = 3_600_000;

/// How long a session is asked to live without a request: an hour, in milliseconds, as the bytes of a Double.
const TIMEOUT: [u8; 8] = [0, 0, 0, 0, 0x40, 0x77, 0x4B, 0x41];

/// The session's name.
const NAME: &str = "uahist import";

/// The most bytes that a user's name and password may have.
const LONGEST: usize = 65_536;

/// A session with a running server, and the connection that it is had over.
#[derive(Drop)]
pub struct Session<R, W> {
    /// The two ends of the connection.
    pub line: Line<R, W>,
    /// The client, with its channel and its session.
    pub client: Client,
}

/// Who a user of the settings is to a server: the name with its password, and nobody where none of that name has one.
fn login_of<'a>(users: &'a Users, user: &'a str) -> Result<Option<Login<'a>>, ClientFault>
    ensures claims { IfOk result (λ login. claim_in login ≡ claim_by users.entry.now user.entry.now) }
    ensures short { IfOk result (λ login. IfSome login IsShortLogin) }
{
    let Some(password) = users.password_of(user) else {
        return Ok(None);
    };
    if user.len() > LONGEST || password.len() > LONGEST {
        return Err(ClientFault::TooLarge);
    }
    Ok(Some(Login {
        name: user,
        password,
    }))
}

/// Opens a session as a user of the settings (Part 4, 5.6.2, 5.7.2 and 5.7.3): greets the server, opens a channel without
/// security, makes a session and activates it.
pub(crate) fn open_session<R: Read, W: Write>(
    settings: &Settings,
    asked: &Import<'_>,
    line: &mut Line<R, W>,
) -> Result<Client, ClientFault>
    ensures opens { IfOk result (λ client. OpensSession
        (claim_by settings.now.users asked.now.user.now) asked.now.reading
        (flow_of R.remaining W.contents line.old)
        (record { client = client; flow = flow_of R.remaining W.contents line.new })) }
    ensures part { OnErr result (StopsOpening
        (claim_by settings.now.users asked.now.user.now) asked.now.reading
        (flow_of R.remaining W.contents line.old) (flow_of R.remaining W.contents line.new)) }
{
    let login = login_of(settings.users(), asked.user)?;
    let mut client = connect(line, LIFETIME)?;
    let session = NewSession {
        endpoint_url: None,
        name: Some(NAME),
        timeout: &TIMEOUT,
    };
    client.create_session(line, asked.reading, session)?;
    client.activate_session(line, asked.reading, login)?;
    Ok(client)
}

/// Ends a session and its channel (Part 4, 5.7.4 and 5.6.3), as far as the server answers, and gives the connection back.
pub(crate) fn end_session<R: Read, W: Write>(session: Session<R, W>, now: Ticks) -> Line<R, W>
    ensures { EndsSession now (state_of R.remaining W.contents session)
        (flow_of R.remaining W.contents result) }
{
    let Session {
        mut line,
        mut client,
    } = session;
    match client.close_session(&mut line, now) {
        Ok(()) => {
            let _ = client.close_channel(&mut line);
            line
        }
        Err(_) => line,
    }
}
