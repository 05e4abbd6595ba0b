//! Copies that may run out of memory.

ghost use Rattle.std.specs.Prelude.{◌≡◌, IfOk};

use std::alloc::AllocError;

/// A value of which a second one can be made, in memory of its own. The one error is want of
/// memory.
pub trait TryClone: Sized {
    fn try_clone(&self) -> Result<Self, AllocError>
        ensures { IfOk result (λ v. v ≡ self.now) };
}

impl TryClone for bool {
    fn try_clone(&self) -> Result<bool, AllocError> {
        Ok(*self)
    }
}

impl TryClone for u8 {
    fn try_clone(&self) -> Result<u8, AllocError> {
        Ok(*self)
    }
}

impl TryClone for i8 {
    fn try_clone(&self) -> Result<i8, AllocError> {
        Ok(*self)
    }
}

impl TryClone for i16 {
    fn try_clone(&self) -> Result<i16, AllocError> {
        Ok(*self)
    }
}

impl TryClone for u16 {
    fn try_clone(&self) -> Result<u16, AllocError> {
        Ok(*self)
    }
}

impl TryClone for i32 {
    fn try_clone(&self) -> Result<i32, AllocError> {
        Ok(*self)
    }
}

impl TryClone for u32 {
    fn try_clone(&self) -> Result<u32, AllocError> {
        Ok(*self)
    }
}

impl TryClone for i64 {
    fn try_clone(&self) -> Result<i64, AllocError> {
        Ok(*self)
    }
}

impl TryClone for u64 {
    fn try_clone(&self) -> Result<u64, AllocError> {
        Ok(*self)
    }
}

impl TryClone for [u8; 4] {
    fn try_clone(&self) -> Result<[u8; 4], AllocError> {
        Ok(*self)
    }
}

impl TryClone for [u8; 8] {
    fn try_clone(&self) -> Result<[u8; 8], AllocError> {
        Ok(*self)
    }
}

impl<T: TryClone> TryClone for Option<T> {
    fn try_clone(&self) -> Result<Option<T>, AllocError> {
        match self {
            None => Ok(None),
            Some(v) => Ok(Some(v.try_clone()?)),
        }
    }
}
