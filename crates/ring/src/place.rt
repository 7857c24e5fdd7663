// A place of a ring on the card, where the bytes of elements are.
ghost use Rattle.std.specs.Prelude.{◌≡◌, ◌+◌, ◌-◌, ◌<◌, ◌≤◌};
ghost use Rattle.ring.specs.Layout.{header_width};
ghost use Rattle.ring.specs.Ring.{place};

use crate::header::HEADER;

// The ring's length, and an offset behind the header and before the ring's end.
#[derive(Clone, Copy, PartialEq, Eq, Debug)]
pub struct Place {
    pub ring: usize,
    pub at: usize,
    ghost from: { header_width ≤ at },
    ghost to: { at < ring },
}

// The offset of a position that counts on at most once round the ring.
pub fn place_of(ring: usize, position: usize) -> usize
    requires { position + header_width ≤ ring + ring }
    ensures { result ≡ place header_width ring position }
{
    if position < ring {
        position
    } else {
        position - ring + HEADER
    }
}

impl Place {
    // How many bytes there are from here to the ring's end.
    pub fn room(self) -> usize
        ensures { result ≡ self.ring - self.at }
    {
        self.ring - self.at
    }

    // The place n bytes on, less than once round the ring. Not by `place_of`, since `at + n` may be too
    // large a sum.
    pub fn behind(self, n: usize) -> Place
        requires { header_width + n ≤ self.ring }
        ensures ring { result.ring ≡ self.ring }
        ensures at { result.at ≡ place header_width self.ring (self.at + n) }
    {
        let room = self.room();
        let at = if n < room {
            self.at + n
        } else {
            n - room + HEADER
        };
        Place {
            ring: self.ring,
            at,
        }
    }
}
