//! What holds of all lines: a law is the contract of a function that does nothing.

ghost use Rattle.std.specs.Prelude.{ℕ, List, Option, ◌++◌, IfSome};
ghost use Rattle.std.specs.declared.net.socket_addr.SocketAddr.{SocketAddr};
ghost use Rattle.ua_binary.specs.declared.codes.Status.{Status};
ghost use Rattle.ua_session.specs.declared.audit.UpdateAudit.{UpdateAudit};
ghost use Rattle.event_lines.specs.Lines.{archived_text, doors_text, browsers_text, start_text, connected_text, login_text, denial_text, update_text, broken_text, end_text, call_text};
ghost use Rattle.event_lines.specs.OneLine.{IsOneLine, IsToldOnOneLine};
ghost use Rattle.event_lines.specs.declared.lines.Moved.{Moved};

/// Each line is one line, whatever names it tells: it holds no line feed and no carriage return. That is so where there are none
/// in what a caller says (a version, a door, a reason, an address of the settings) and in the ids of the archived variables.
pub fn a_line_is_one_line()
    ensures start { (version archive : List ℕ) (replica : ℕ) (clients : List ℕ)
        (peers browsers : Option (List ℕ)) (records : Option ℕ) → IsOneLine version
        → IsOneLine archive → IsOneLine clients → IfSome peers IsOneLine
        → IfSome browsers IsOneLine → IsToldOnOneLine (start_text version archive replica
        (doors_text clients peers ++ browsers_text browsers) records) }
    ensures connected { (from : Option SocketAddr) (door : List ℕ)
        → IsOneLine door → IsToldOnOneLine (connected_text from door) }
    ensures login { (from : Option SocketAddr) (name : List ℕ) (refused : Option Status)
        → IsToldOnOneLine (login_text from name refused) }
    ensures update { (from : Option SocketAddr) (user : List ℕ) (update : UpdateAudit)
        → IsOneLine (archived_text update.node) → IsToldOnOneLine (update_text from user update) }
    ensures denial { (from : Option SocketAddr) → IsToldOnOneLine (denial_text from) }
    ensures broken { IsToldOnOneLine broken_text }
    ensures end { (from : Option SocketAddr) (milliseconds answered : ℕ) (reason : List ℕ)
        (moved : Option Moved) → IsOneLine reason
        → IsToldOnOneLine (end_text from milliseconds answered reason moved) }
    ensures call { (address reason : List ℕ) (moved : Moved) → IsOneLine address → IsOneLine reason
        → IsToldOnOneLine (call_text address reason moved) }
{}
