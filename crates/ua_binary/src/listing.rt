//! Lists of their own memory.

ghost use Rattle.std.specs.Prelude.{◌≡◌, ◌<◌, ◌^◌, ◌↔◌, List, [], ℕ, length, IsTrue};
ghost use Rattle.std.specs.Cmp.{on_per, on_equiv};
ghost use Rattle.std.specs.Cmp.Lexicographic.{pointwise, lists_equiv, lists_per};
ghost use Rattle.std.specs.Slice.Iter.{iter_rest, iter_steps};
ghost use Rattle.std.specs.Iterator.Runs.{EveryRun, ItemsMapTo};

use crate::try_clone::TryClone;
use std::alloc::{AllocError, Global};
use std::marker::Model;
use std::ops::DerefSlice;
use std::slice;

/// Items of their own memory: what an array holds (Part 6, 5.2.5). Contracts see it as a list, and
/// it may be read as a slice.
#[derive(Debug, Drop)]
pub struct Listing<T> {
    inner: Vec<T>,
}

impl<T> Model for Listing<T> {
    ghost use Rattle.std.specs.Prelude.{List};
    ghost use Rattle.std.specs.Coded.{coded_list};

    ghost Value = { List T };

    ghost coded = { coded_list T.code };

    ghost view = { λ l. l.inner.items };
}

impl<T> Listing<T> {
    /// No items; it takes no memory.
    pub fn new(alloc: Global) -> Listing<T>
        ensures { result ≡ [] }
    {
        Listing {
            inner: Vec::new(alloc),
        }
    }

    /// The items of this `Vec`, in its memory.
    pub fn of(inner: Vec<T>) -> Listing<T>
        ensures { result ≡ inner.items }
    {
        Listing { inner }
    }

    /// The items as a `Vec`, in the same memory.
    pub fn into_vec(self) -> Vec<T>
        ensures { result.items ≡ self }
    {
        self.inner
    }

    /// How many items it has.
    pub fn len(&self) -> usize
        ensures { result ≡ length self.now }
    {
        self.inner.len()
    }

    pub fn is_empty(&self) -> bool
        ensures { IsTrue result ↔ (self.now ≡ []) }
    {
        self.inner.is_empty()
    }

    pub fn as_slice(&self) -> &[T]
        ensures { result.now ≡ self.now }
    {
        self.inner.as_slice()
    }
}

impl<T> DerefSlice for Listing<T> {
    type Elem = T;

    ghost deref_gives = { λ l items. items ≡ l };

    fn deref(&self) -> &[T] {
        self.as_slice()
    }
}

impl<'a, T> IntoIterator for &'a Listing<T> {
    type Item = &'a T;

    type IntoIter = slice::Iter<'a, T>;

    ghost into_iter_gives = { λ l it. (iter_rest it ≡ l.now) × (length (iter_rest it) < 2 ^ 64)
        × EveryRun (iter_steps {A = T}) (λ p. ItemsMapTo p (λ x. x.now) (iter_rest p.from)) };

    fn into_iter(self) -> slice::Iter<'a, T> {
        self.as_slice().iter()
    }
}

impl<T: PartialEq> PartialEq for Listing<T> {
    ghost eq = { pointwise T.eq };

    ghost laws = { lists_per T.laws };

    fn eq(&self, other: &Listing<T>) -> bool {
        self.as_slice() == other.as_slice()
    }
}

impl<T: Eq> Eq for Listing<T> {
    ghost laws = { lists_equiv T.Eq.laws };
}

impl<T: TryClone + Drop> TryClone for Listing<T> {
    fn try_clone(&self) -> Result<Listing<T>, AllocError> {
        let mut items = Vec::new(self.inner.allocator().clone()?);
        for item in self.as_slice() {
            items.push(item.try_clone()?)?;
        }
        Ok(Listing { inner: items })
    }
}
