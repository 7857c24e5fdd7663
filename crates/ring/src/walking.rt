// A walk along the elements, which is told each length as it is read.
ghost use Rattle.std.specs.Prelude.{◌≡◌, ◌+◌, ◌<◌, ◌≤◌, true, false, MatchOption, nat_le};
ghost use Rattle.ring.specs.Layout.{header_width};
ghost use Rattle.ring.specs.Ring.{place};
ghost use Rattle.ring.specs.Headers.{sound};
ghost use Rattle.ring.specs.Walking.{position, Begun, OnPass};

use crate::header::{HEADER, Header};
use crate::place::{Place, place_of};
use crate::walk::{BrokenRecord, Walk};

// The longest record that a walk accepts.
pub const LONGEST_READ: usize = 65_535;

// The bytes of a length field.
pub const LENGTH: usize = 4;

impl Walk {
    // A walk along the elements that this header tells of; none where a card of this size can't
    // have it.
    pub fn begin(size: usize, header: Header) -> Option<Walk>
        ensures { MatchOption result (sound header_width size header.ring header.count header.first header.last ≡ false) (λ k. Begun size header k) }
    {
        if !header.is_sound(size) {
            return None;
        }
        Some(Walk {
            size,
            header,
            passed: 0,
            used: HEADER,
        })
    }

    // Where the next element is, or would be; a number and no `Place`, since a ring without elements
    // has none.
    pub fn place(&self) -> usize
        ensures { result ≡ place header_width self.now.header.ring (position self.now) }
    {
        place_of(
            self.header.ring as usize,
            self.header.first as usize + self.used - HEADER,
        )
    }

    // Where it is, on the ring.
    pub fn next_place(&self) -> Place
        requires { self.now.passed < self.now.header.count }
        ensures ring { result.ring ≡ self.now.header.ring }
        ensures at { result.at ≡ place header_width self.now.header.ring (position self.now) }
    {
        Place {
            ring: self.header.ring as usize,
            at: self.place(),
        }
    }

    // Whether the ring has room for another length field.
    pub fn has_room(&self) -> bool
        ensures { result ≡ nat_le (self.now.used + 4) self.now.header.ring }
    {
        self.used + LENGTH <= self.header.ring as usize
    }

    // Passes an element of n bytes, unless it is broken, or one too many.
    pub fn pass(&mut self, n: u32) -> Result<(), BrokenRecord>
        ensures { OnPass n self.old self.new result }
    {
        let at = self.place();
        let left = self.header.count - self.passed;
        if left == 0 || n as usize > LONGEST_READ {
            return Err(BrokenRecord { at });
        }
        let used = self.used + LENGTH + n as usize;
        if used > self.header.ring as usize || left == 1 && at != self.header.last as usize {
            return Err(BrokenRecord { at });
        }
        self.passed += 1;
        self.used = used;
        Ok(())
    }
}
