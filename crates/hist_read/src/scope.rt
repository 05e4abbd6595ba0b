//! What a page is read from, and how much of it may be carried.

ghost use Rattle.std.specs.Prelude.{◌≡◌, ◌↔◌, IsTrue};
ghost use Rattle.ua_binary.specs.Format.{saturated};
ghost use Rattle.hist_read.specs.Carrying.{Exceeds, value_length};

use stamp::Vector;
use std::alloc::Global;
use ua_variant::DataValue;

/// What a page is read from, and how much of it may be carried.
#[derive(Drop)]
pub(crate) struct Scope {
    pub(crate) alloc: Global,
    /// Of what this vector covers.
    pub(crate) within: Vector,
    /// The most bytes of a result, where there is a limit.
    pub(crate) longest: Option<usize>,
}

/// The most values that the archive is asked for at a time, and how many modifications it is asked for at first.
pub(crate) const PORTION: usize = 32;

impl Scope {
    /// Whether so many bytes are more than may be carried.
    pub(crate) fn is_exceeded(&self, size: usize) -> bool
        ensures { IsTrue result ↔ Exceeds self.now.longest size }
    {
        match self.longest {
            None => false,
            Some(longest) => longest < size,
        }
    }
}

/// How many bytes a value has, without its status and its times (Part 6, 5.2.2.16), or 2^64 - 1 where there are more.
pub(crate) fn value_size(value: &DataValue) -> usize
    ensures { result ≡ saturated (value_length value.now) }
{
    match &value.value {
        None => 0,
        Some(value) => value.size(),
    }
}
