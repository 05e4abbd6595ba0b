//! Arrays that are written (Part 6, 5.2.5), with what that tells of the whole list.

ghost use Rattle.std.specs.Prelude.{◌≡◌, ◌<◌, ◌^◌, length, map, All, IfOk, negsuc};
ghost use Rattle.std.specs.Int.{w32};
ghost use Rattle.ua_binary.specs.Format.{Puts, saturated};
ghost use Rattle.ua_binary.specs.Binary.{array, signed, text};
ghost use Rattle.ua_binary.specs.declared.fault.BinaryFault.{BinaryFault};
ghost use Rattle.ua_services.specs.Unkept.{many, AreFew};
ghost use Rattle.ua_services.specs.Endpoints.{IsShortTexts};

use ua_binary::{BinaryFault, Encode, Text, array_size, put_array, put_i32};

/// An array of at most 2^31 - 1 items. Where memory runs out, the vector is as it was.
pub(crate) fn put_many<T: Encode>(out: &mut Vec<u8>, items: &[T]) -> Result<(), T::Fault>
    requires few { length items.now < 2 ^ 31 }
    requires each { All T.can_put items.now }
    ensures puts { Puts (T.Fault.told BinaryFault.OutOfMemory) result out.old.items out.new.items
        ((array T.Fault.told T.format).canon (map T.view items.now)) }
    ensures spelled { IfOk result (λ _. AreFew T.format (map T.view items.now)) }
{
    put_array(out, items)
}

/// How many bytes of it are written, or 2^64 - 1 where there are more.
pub(crate) fn many_size<T: Encode>(items: &[T]) -> usize
    ensures counted { result ≡ saturated (length ((array T.Fault.told T.format).canon (map T.view items.now))) }
    ensures short { length ((array T.Fault.told T.format).canon (map T.view items.now)) < 2 ^ 31
        → (length items.now < 2 ^ 31) × All T.can_put items.now }
    ensures spelled { (length items.now < 2 ^ 31) × All T.can_put items.now
        → AreFew T.format (map T.view items.now) }
{
    array_size(items)
}

/// An array of texts.
#[tactic(auto, using(crate::proofs::Fits::all_same))]
pub(crate) fn put_texts(out: &mut Vec<u8>, texts: &[Option<Text>]) -> Result<(), BinaryFault>
    requires { IsShortTexts texts.now }
    ensures puts { Puts BinaryFault.OutOfMemory result out.old.items out.new.items
        ((many text).canon texts.now) }
    ensures spelled { IfOk result (λ _. AreFew text texts.now) }
{
    put_many(out, texts)
}

/// How many bytes of it are written, or 2^64 - 1 where there are more.
#[tactic(auto, using(crate::proofs::Fits::all_same))]
pub(crate) fn texts_size(texts: &[Option<Text>]) -> usize
    ensures counted { result ≡ saturated (length ((many text).canon texts.now)) }
    ensures short { length ((many text).canon texts.now) < 2 ^ 31 → IsShortTexts texts.now }
    ensures spelled { IsShortTexts texts.now → AreFew text texts.now }
{
    many_size(texts)
}

/// A null array.
pub(crate) fn put_null_array(out: &mut Vec<u8>) -> Result<(), BinaryFault>
    ensures { Puts BinaryFault.OutOfMemory result out.old.items out.new.items
        ((signed w32).canon (negsuc 0)) }
{
    put_i32(out, -1)
}
