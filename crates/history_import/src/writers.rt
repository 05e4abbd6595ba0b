//! In whose name rows may be written.

ghost use Rattle.std.specs.Prelude.{◌≡◌, IsTrue};
ghost use Rattle.ua_session.specs.Users.{IsUserName};
ghost use Rattle.history_import.specs.Rows.{may_write};

use ua_session::Access;
use ua_settings::Settings;

/// Whether rows may be written in this name: it is that of a user of the settings who may update
/// histories, or `anonymous`, where one without a name is let in and may.
pub fn may_import(settings: &Settings, user: &str) -> bool
    ensures judged { result ≡ may_write settings.now.users user.now }
    ensures named { IsTrue result → IsUserName user.now }
{
    if user.len() > 256 {
        return false;
    }
    if user == "anonymous" && !settings.users().allows_anonymous() {
        return false;
    }
    match settings.users().access_of(user) {
        Access::Write => true,
        Access::Read => false,
    }
}
