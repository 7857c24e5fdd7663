// A range, sector by sector.
ghost use Rattle.std.specs.Prelude.{◌≡◌, ◌+◌, ◌-◌, ◌^◌, ◌<◌};
ghost use Rattle.std.specs.Iterator.{at_most};
ghost use Rattle.storage.specs.Sectors.{NextPiece};

use crate::piece::{Piece, Pieces};
use crate::sizes::in_sector;

impl Pieces {
    // The pieces of `count` bytes at an offset.
    pub fn of(offset: usize, count: usize) -> Pieces
        requires { offset + count < 2 ^ 64 }
        ensures offset { result.offset ≡ offset }
        ensures count { result.count ≡ count }
        ensures done { result.done ≡ 0 }
    {
        Pieces {
            offset,
            count,
            done: 0,
        }
    }
}

impl Iterator for Pieces {
    type Item = Piece;

    ghost next_gives = { NextPiece };

    ghost remaining = { λ s. at_most (s.count - s.done) };

    fn next(&mut self) -> Option<Piece> {
        if self.done == self.count {
            return None;
        }
        let from = self.done;
        self.done += in_sector(self.offset + from, self.count - from);
        Some(Piece {
            from,
            to: self.done,
        })
    }
}
