//! Users' names as they are written in a line.

ghost use Rattle.std.specs.Prelude.{◌≡◌, ◌++◌, IfOk, OnOk, flat_map, string_bytes};
ghost use Rattle.std.specs.Str.{chars};
ghost use Rattle.event_lines.specs.Names.{is_steering, guard_of, character_text, quoted_name};

use std::alloc::{AllocError, Global};
use std::fmt::Write as _;

/// Whether a character would break a line, or steer what shows it.
fn is_steering(c: char) -> bool
    ensures { result ≡ is_steering c }
{
    let code = c as u32;
    c.is_control()
        || code == 0x61c
        || (0x200e <= code && code <= 0x200f)
        || (0x2028 <= code && code <= 0x202e)
        || (0x2066 <= code && code <= 0x2069)
}

/// What stands in front of a character, that it isn't taken for the name's end or for another's code.
fn guard_of(c: char) -> &'static str
    ensures { result.now ≡ guard_of c }
{
    if c == '"' || c == '\\' { "\\" } else { "" }
}

/// Appends a character of a name.
fn put_character(text: &mut String, c: char) -> Result<(), AllocError>
    ensures { OnOk result (string_bytes text.new ≡ string_bytes text.old ++ character_text c) }
{
    let code = c as u32;
    if is_steering(c) {
        return write!(text, "\\u{{{code:x}}}");
    }
    text.push_str(guard_of(c))?;
    text.push(c)
}

/// Appends the characters of a name.
fn put_characters(text: &mut String, name: &str) -> Result<(), AllocError>
    ensures { OnOk result
        (string_bytes text.new ≡ string_bytes text.old ++ flat_map character_text (chars name.now)) }
{
    for c in name.chars() {
        put_character(text, c)?;
    }
    Ok(())
}

/// A name in double quotes, on one line, whatever it holds.
pub(crate) fn quoted_name(alloc: Global, name: &str) -> Result<String, AllocError>
    ensures { IfOk result (λ text. string_bytes text ≡ quoted_name name.now) }
{
    let mut text = String::new(alloc);
    text.push_str("\"")?;
    put_characters(&mut text, name)?;
    text.push_str("\"")?;
    Ok(text)
}
