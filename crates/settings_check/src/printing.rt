//! What settings say is printed.

ghost use Rattle.std.specs.Prelude.{◌≡◌, ◌++◌, IfOk, OnOk, IsErrOf};
ghost use Rattle.counted_io.specs.Bytes.{counted};
ghost use Rattle.settings_check.specs.Texts.{text_of};
ghost use Rattle.settings_check.specs.Checks.{check_lines, PrintsLines};

use crate::facts::put_facts;
use crate::fault::CheckFault;
use crate::warnings::put_warnings;
use counted_io::Counted;
use std::alloc::{AllocError, Global};
use std::io::Write;
use ua_settings::Settings;

/// The lines that tell people what settings say, each with its end: six facts, those of browsers, of
/// what happens and of refused logins where they are set, and then a line
/// `warning: ..` for each thing that is lawful and unwise. Bytes of the settings that control a
/// terminal are shown as `?`. The one error is want of memory.
///
/// `Users` tells neither names nor how many there are, so a user's name with a `:`, and that all
/// users with a name read only, are not warned of.
pub fn check_text(alloc: Global, settings: &Settings) -> Result<Vec<u8>, AllocError>
    ensures { IfOk result (λ text. text.items ≡ text_of (check_lines settings.now)) }
{
    let mut text = Vec::new(alloc);
    put_facts(alloc, &mut text, settings)?;
    put_warnings(&mut text, settings)?;
    Ok(text)
}

/// Prints the lines that tell people what settings say, those of `check_text`.
///
/// Errors: `Write` where a write failed (the writer's `faults` rose), `OutOfMemory` where memory
/// was wanting, and then nothing is printed. What was printed stands, a first part of the lines.
pub fn print_check<W: Write>(
    alloc: Global,
    settings: &Settings,
    output: &mut Counted<W>,
) -> Result<(), CheckFault>
    ensures prints { PrintsLines (check_lines settings.now) (W.contents output.old.inner)
        (W.contents output.new.inner) result }
    ensures write { IsErrOf result CheckFault.Write
        → output.new.faults ≡ counted output.old.faults }
    ensures kept { (IsErrOf result CheckFault.Write → ⊥) → output.new.faults ≡ output.old.faults }
{
    let text = match check_text(alloc, settings) {
        Ok(text) => text,
        Err(_) => return Err(CheckFault::OutOfMemory),
    };
    match output.send(text.as_slice()) {
        Ok(()) => Ok(()),
        Err(_) => Err(CheckFault::Write),
    }
}
