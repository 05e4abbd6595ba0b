//! Fields that a server has no use for: they are read by their grammar, and dropped.

ghost use Rattle.std.specs.Prelude.{None, pos, []};
ghost use Rattle.ua_binary.specs.Format.{Reads};
ghost use Rattle.ua_binary.specs.Binary.{text};
ghost use Rattle.ua_services.specs.Unkept.{unkept, unkept_array};
ghost use Rattle.ua_services.specs.Endpoints.{application_description};
ghost use Rattle.ua_services.specs.Sessions.{signature_data, signed_software_certificate};

use ua_binary::{BinaryFault, Cursor};

/// An array of texts.
#[tactic(auto, using(ua_binary::proofs::Lawful::array_read, crate::proofs::Skipped::skipped))]
pub(crate) fn skip_texts(cursor: &mut Cursor<'_>) -> Result<(), BinaryFault>
    ensures { Reads (λ x. x) result cursor.old cursor.new (unkept_array text).read }
{
    let mut next = cursor.fork();
    let count = next.count()?;
    for _ in 0..count {
        next.text()?;
    }
    *cursor = next;
    Ok(())
}

/// A certificate and its signature.
fn skip_certificate(cursor: &mut Cursor<'_>) -> Result<(), BinaryFault>
    ensures { Reads (λ x. x) result cursor.old cursor.new
        (unkept (None, None) signed_software_certificate).read }
{
    let mut next = cursor.fork();
    next.bytes()?;
    next.bytes()?;
    *cursor = next;
    Ok(())
}

/// An array of software certificates (Part 4, 7.38).
#[tactic(auto, using(ua_binary::proofs::Lawful::array_read, crate::proofs::Skipped::skipped))]
pub(crate) fn skip_certificates(cursor: &mut Cursor<'_>) -> Result<(), BinaryFault>
    ensures { Reads (λ x. x) result cursor.old cursor.new
        (unkept_array signed_software_certificate).read }
{
    let mut next = cursor.fork();
    let count = next.count()?;
    for _ in 0..count {
        skip_certificate(&mut next)?;
    }
    *cursor = next;
    Ok(())
}

/// A signature (Part 4, 7.37): the algorithm and the bytes.
pub(crate) fn skip_signature(cursor: &mut Cursor<'_>) -> Result<(), BinaryFault>
    ensures { Reads (λ x. x) result cursor.old cursor.new (unkept (None, None) signature_data).read }
{
    let mut next = cursor.fork();
    next.text()?;
    next.bytes()?;
    *cursor = next;
    Ok(())
}

/// The description of an application (Part 4, 7.2).
#[tactic(auto, unfolding(crate::specs::Endpoints::application_description))]
pub(crate) fn skip_application(cursor: &mut Cursor<'_>) -> Result<(), BinaryFault>
    ensures { Reads (λ x. x) result cursor.old cursor.new
        (unkept (
          None,
          (
            None,
            (record { locale = None; text = None }, (pos 0, [])),
          ),
        ) application_description).read }
{
    let mut next = cursor.fork();
    next.text()?;
    next.text()?;
    next.localized()?;
    next.i32()?;
    next.text()?;
    next.text()?;
    skip_texts(&mut next)?;
    *cursor = next;
    Ok(())
}
