//! Texts in a page, as `history_report` writes them.

ghost use Rattle.std.specs.Prelude.{◌≡◌, ◌++◌, OnOk};
ghost use Rattle.history_report.specs.Html.{is_forbidden, printable_byte, entity, escaped, data_cell};

use std::alloc::AllocError;

/// Whether a byte after this one is of a control that HTML forbids or reads as another.
fn is_forbidden(before: u8, byte: u8) -> bool
    ensures { result ≡ is_forbidden before byte }
{
    before == 194 && byte < 160 || byte == 127 || byte < 32 && !(byte == b'\t' || byte == b'\n')
}

/// A byte after this one as a page has it: in place of a forbidden one `?`, or the second byte of
/// `¿`.
fn printable_byte(before: u8, byte: u8) -> u8
    ensures { result ≡ printable_byte before byte }
{
    if !is_forbidden(before, byte) {
        byte
    } else if before == 194 {
        191
    } else {
        b'?'
    }
}

/// Appends a byte as HTML writes it: as an entity, where it might end a text.
fn put_byte(out: &mut Vec<u8>, byte: u8) -> Result<(), AllocError>
    ensures { OnOk result (out.new.items ≡ out.old.items ++ entity byte) }
{
    match byte {
        b'&' => out.extend_from_slice(b"&amp;"),
        b'<' => out.extend_from_slice(b"&lt;"),
        b'>' => out.extend_from_slice(b"&gt;"),
        b'"' => out.extend_from_slice(b"&quot;"),
        b'\'' => out.extend_from_slice(b"&#39;"),
        _ => Ok(out.push(byte)?),
    }
}

/// Appends a text that no byte of which is read as markup.
pub(crate) fn put_escaped(out: &mut Vec<u8>, text: &[u8]) -> Result<(), AllocError>
    ensures { OnOk result (out.new.items ≡ out.old.items ++ escaped text.now) }
{
    let mut before = 0;
    for byte in text {
        put_byte(out, printable_byte(before, *byte))?;
        before = *byte;
    }
    Ok(())
}

/// Appends a text as a cell.
pub(crate) fn put_cell(out: &mut Vec<u8>, text: &[u8]) -> Result<(), AllocError>
    ensures { OnOk result (out.new.items ≡ out.old.items ++ data_cell text.now) }
{
    out.extend_from_slice(b"<td>")?;
    put_escaped(out, text)?;
    out.extend_from_slice(b"</td>")
}
