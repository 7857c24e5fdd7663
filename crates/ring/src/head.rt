// What a queue keeps in memory.
ghost use Rattle.std.specs.Prelude.{◌≡◌, ◌+◌, ◌*◌, ◌≤◌, true};
ghost use Rattle.ring.specs.Layout.{header_width};
ghost use Rattle.ring.specs.Headers.{sound};
ghost use Rattle.ring.specs.Steps.{start, end_position, end_place, added_header, carried, grown_header};

use crate::header::{HEADER, Header};
use crate::place::{Place, place_of};

// The numbers of a queue, the size of its storage and the bytes in use. Whoever made them, they
// keep these bounds.
#[derive(Clone, Copy)]
pub struct Head {
    pub size: usize,
    pub header: Header,
    pub used: usize,
    ghost sound: { sound header_width size header.ring header.count header.first header.last ≡ true },
    ghost room: { used ≤ header.ring },
    ghost least: { header_width + 4 * header.count ≤ used },
    ghost bare: { header.count ≡ 0 → used ≡ header_width },
}

impl Head {
    // Where the first element is, or will be.
    pub fn start(self) -> usize
        ensures { result ≡ start header_width self.header }
    {
        if self.header.count == 0 {
            HEADER
        } else {
            self.header.first as usize
        }
    }

    // The position behind the last element, counted on past the ring's end.
    pub fn end(self) -> usize
        ensures { result ≡ end_position header_width self.header self.used }
    {
        self.start() + (self.used - HEADER)
    }

    // Its place.
    pub fn end_place(self) -> Place
        ensures ring { result.ring ≡ self.header.ring }
        ensures at { result.at ≡ end_place header_width self.header self.used }
    {
        let ring = self.header.ring as usize;
        Place {
            ring,
            at: place_of(ring, self.end()),
        }
    }

    // The header that counts one element more, at the end.
    pub fn added_header(self) -> Header
        requires { self.used + 4 ≤ self.header.ring }
        ensures { result ≡ added_header header_width self.header self.used }
    {
        // Both places lie in the ring, so each fits.
        Header {
            ring: self.header.ring,
            count: self.header.count + 1,
            first: self.start() as u32,
            last: self.end_place().at as u32,
        }
    }

    // How many bytes behind the header are of elements that came round the ring's end.
    pub fn carried(self) -> usize
        ensures { result ≡ carried header_width self.header self.used }
    {
        let end = self.end_place().at;
        if self.header.count > 0 && end <= self.header.first as usize {
            end - HEADER
        } else {
            0
        }
    }

    // The header with the longer ring: the last element has moved if it came round the end.
    pub fn grown_header(self, ring: u32) -> Header
        ensures { result ≡ grown_header header_width self.header ring }
    {
        let Header { first, last, .. } = self.header;
        let last = if last < first {
            self.header.ring + last - HEADER as u32
        } else {
            last
        };
        Header {
            ring,
            last,
            ..self.header
        }
    }
}
