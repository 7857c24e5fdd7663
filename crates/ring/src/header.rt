// The header of a card: four numbers in its first cell.
ghost use Rattle.std.specs.Prelude.{◌≡◌, ◌<◌, ◌≤◌, length, drop, MatchOption};
ghost use Rattle.ring.specs.Bytes.{at, number};
ghost use Rattle.ring.specs.Layout.{header_width, least_ring, doublings};
ghost use Rattle.ring.specs.Headers.{header_of, cell, doubled, placed, sound};

use crate::steps::largest_ring;

// The bytes of the header; the positions of the ring begin behind it.
pub const HEADER: usize = 16;

// The length of the shortest ring; the others are this one doubled.
pub const LEAST_RING: u32 = 4_096;

// How often the shortest ring can be doubled within the largest card.
pub const DOUBLINGS: u32 = 12;

// The length of the longest ring.
pub const LONGEST_RING: u32 = LEAST_RING << DOUBLINGS;

#[derive(Clone, Copy, PartialEq, Eq, Debug)]
pub struct Header {
    pub ring: u32,
    pub count: u32,
    pub first: u32,
    pub last: u32,
}

// Four named bytes, joined big-endian, and the rest. By a pattern that names them, as the format's
// rule does, and not by a chunk.
fn take_number(bytes: &[u8]) -> Option<(u32, &[u8])>
    ensures { MatchOption result (length bytes.now < 4) (λ p. (4 ≤ length bytes.now) × (p.0 ≡ number (at bytes.now) 0) × (p.1.now ≡ drop 4 bytes.now)) }
{
    let [a, b, c, d, rest @ ..] = bytes else {
        return None;
    };
    Some((u32::from_be_bytes([*a, *b, *c, *d]), rest))
}

fn is_ring_length(ring: u32) -> bool
    ensures { result ≡ doubled doublings least_ring ring }
{
    largest_ring(ring as usize) == ring as usize
}

impl Header {
    // The header of the shortest ring without elements.
    pub const EMPTY: Header = Header {
        ring: LEAST_RING,
        count: 0,
        first: 0,
        last: 0,
    };

    // The header in front of these bytes; none where they are too few. This and `cell` are no `From`,
    // since their names say which bytes it is about.
    pub fn parse(bytes: &[u8]) -> Option<Header>
        ensures { MatchOption result (length bytes.now < header_width) (λ h. (header_width ≤ length bytes.now) × (h ≡ header_of bytes.now)) }
    {
        let (ring, rest) = take_number(bytes)?;
        let (count, rest) = take_number(rest)?;
        let (first, rest) = take_number(rest)?;
        let (last, _) = take_number(rest)?;
        Some(Header {
            ring,
            count,
            first,
            last,
        })
    }

    // The header's bytes.
    pub fn cell(self) -> [u8; HEADER]
        ensures { result ≡ cell self }
    {
        let [a, b, c, d] = self.ring.to_be_bytes();
        let [e, f, g, h] = self.count.to_be_bytes();
        let [i, j, k, l] = self.first.to_be_bytes();
        let [m, n, o, p] = self.last.to_be_bytes();
        [a, b, c, d, e, f, g, h, i, j, k, l, m, n, o, p]
    }

    fn is_placed(self) -> bool
        ensures { result ≡ placed header_width self.ring self.count self.first self.last }
    {
        if self.count == 0 {
            return self.first == 0 && self.last == 0;
        }
        let ring = HEADER as u32..self.ring;
        ring.contains(&self.first) && ring.contains(&self.last)
    }

    // Whether a card of this size may have these numbers.
    pub fn is_sound(self, size: usize) -> bool
        ensures { result ≡ sound header_width size self.ring self.count self.first self.last }
    {
        is_ring_length(self.ring) && self.ring as usize <= size && self.is_placed()
    }
}
