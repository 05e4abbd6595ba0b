//! Decimal digits, so many as there is room for.

ghost use Rattle.std.specs.Prelude.{◌≡◌, ◌≤◌, ◌<◌, ◌^◌, ◌++◌, length, OnOk, IfSome};
ghost use Rattle.std.specs.Char.{is_ascii_digit};
ghost use Rattle.std.specs.List.{list_all};
ghost use Rattle.std.specs.Int.{IsInRange};
ghost use Rattle.history_text.specs.Digits.{digits_in, last_digits};

use std::alloc::AllocError;

/// Whether all letters are decimal digits.
fn are_digits(text: &[u8]) -> bool
    ensures { result ≡ list_all is_ascii_digit text.now }
{
    text.iter().all(|letter| letter.is_ascii_digit())
}

/// The number that decimal digits write, 1 to 19 of them, if there are no other letters.
#[tactic(auto, using(crate::proofs::DigitsLemmas::parsed))]
pub(crate) fn digits_in(text: &[u8]) -> Option<u64>
    requires { IsInRange 1 19 (length text.now) }
    ensures value { result ≡ digits_in text.now }
    ensures below { IfSome result (λ n. n < 10 ^ length text.now) }
{
    if !are_digits(text) {
        return None;
    }
    fast_float::parse_u64(text).ok()
}

/// Appends the last decimal digits of a number, so many.
pub(crate) fn put_digits(out: &mut Vec<u8>, count: usize, value: u64) -> Result<(), AllocError>
    ensures { OnOk result (out.new.items ≡ out.old.items ++ last_digits count value) }
{
    if count == 0 {
        return Ok(());
    }
    put_digits(out, count - 1, value / 10)?;
    out.push(b'0' + (value % 10) as u8)?;
    Ok(())
}
