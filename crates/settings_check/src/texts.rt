//! Texts of settings as people are shown them.

ghost use Rattle.std.specs.Prelude.{◌≡◌, ◌++◌, OnOk};
ghost use Rattle.std.specs.Fmt.{decimal};
ghost use Rattle.history_report.specs.Tables.{legible};
ghost use Rattle.settings_check.specs.Texts.{begins_with};
ghost use Rattle.settings_check.specs.Facts.{counted_noun};

use history_report::put_legible;
use itoa::Buffer;
use std::alloc::AllocError;

/// Appends a text as it is shown.
pub(crate) fn put_shown(out: &mut Vec<u8>, text: &str) -> Result<(), AllocError>
    ensures { OnOk result (out.new.items ≡ out.old.items ++ legible text.now) }
{
    put_legible(out, text.as_bytes())
}

/// Appends a number in decimal.
pub(crate) fn put_number(out: &mut Vec<u8>, number: u64) -> Result<(), AllocError>
    ensures { OnOk result (out.new.items ≡ out.old.items ++ decimal number) }
{
    let mut digits = Buffer::new();
    out.extend_from_slice(digits.format(number).as_bytes())
}

/// Appends a number of what has this name.
pub(crate) fn put_counted(
    out: &mut Vec<u8>,
    count: u64,
    one: &[u8],
    more: &[u8],
) -> Result<(), AllocError>
    ensures { OnOk result
        (out.new.items ≡ out.old.items ++ counted_noun count one.now more.now) }
{
    put_number(out, count)?;
    if count == 1 {
        out.extend_from_slice(one)
    } else {
        out.extend_from_slice(more)
    }
}

/// Whether a text begins with these bytes.
pub(crate) fn begins_with(text: &str, start: &[u8]) -> bool
    ensures { result ≡ begins_with text.now start.now }
{
    text.as_bytes().starts_with(start)
}
