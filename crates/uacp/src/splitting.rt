//! The body of a message in pieces, one for each chunk.

ghost use Rattle.std.specs.Prelude.{◌≡◌, ◌↔◌, ◌-◌, ◌<◌, [], List, ℕ, IsTrue};
ghost use Rattle.std.specs.Iterator.{YieldsFirstRef, item_count};
ghost use Rattle.uacp.specs.Split.{IsSplit, pieces_of, left_of};

use std::marker::Model;

/// The pieces of a body that are left, in order. Contracts see their list.
#[derive(Drop)]
pub struct Pieces<'a> {
    rest: &'a [u8],
    size: usize,
    is_over: bool,
}

impl<'a> Model for Pieces<'a> {
    ghost Value = { List (List ℕ) };

    ghost view = { λ s. left_of s.is_over s.size s.rest.now };

    ghost invariant = { λ s. 0 < s.size };
}

impl<'a> Pieces<'a> {
    /// Whether no piece is left.
    #[tactic(auto, using(crate::proofs::Splits::none_left))]
    pub fn is_empty(&self) -> bool
        ensures { IsTrue result ↔ (self.now ≡ []) }
    {
        self.is_over
    }
}

impl<'a> Iterator for Pieces<'a> {
    type Item = &'a [u8];

    ghost next_gives = { YieldsFirstRef (λ s. s) };

    ghost remaining = { item_count (λ s. s) };

    #[tactic(auto, using(crate::proofs::Splits::steps))]
    fn next(&mut self) -> Option<&'a [u8]> {
        if self.is_over {
            return None;
        }
        if self.rest.len() <= self.size {
            self.is_over = true;
            return Some(self.rest);
        }
        let (piece, rest) = self.rest.split_at(self.size);
        self.rest = rest;
        Some(piece)
    }
}

/// Cuts the body of a message into the bodies of chunks that have at most `limit` bytes each, 24 of
/// them before the body (Part 6, 6.7.2): each piece but the last has `limit - 24` bytes, and the last
/// one 1 to `limit - 24`. An empty body is one empty piece. It takes no memory.
#[tactic(auto, using(crate::proofs::Splits::pieces_split))]
pub fn split(body: &[u8], limit: usize) -> Pieces<'_>
    requires { 24 < limit }
    ensures value { result ≡ pieces_of (limit - 24) body.entry.now }
    ensures split { IsSplit (limit - 24) body.entry.now result }
{
    Pieces {
        rest: body,
        size: limit - 24,
        is_over: false,
    }
}
