// How far a walk along the elements has come.
ghost use Rattle.std.specs.Prelude.{◌≡◌, ◌+◌, ◌*◌, ◌≤◌, true};
ghost use Rattle.ring.specs.Layout.{header_width};
ghost use Rattle.ring.specs.Headers.{sound};

use crate::header::Header;

// A header that the card may have, the elements passed, and the bytes in use up to there. `Head`
// has the size, the header and the fact on them too; a struct of these three for both would only
// put one more name in front of each number of the header, in the code and in every contract.
#[derive(Clone, Copy)]
pub struct Walk {
    pub size: usize,
    pub header: Header,
    pub passed: u32,
    pub used: usize,
    ghost sound: { sound header_width size header.ring header.count header.first header.last ≡ true },
    ghost few: { passed ≤ header.count },
    ghost room: { used ≤ header.ring },
    ghost least: { header_width + 4 * passed ≤ used },
    ghost bare: { passed ≡ 0 → used ≡ header_width },
}

// An element that can't be, by its place.
#[derive(Clone, Copy, PartialEq, Eq, Debug)]
pub struct BrokenRecord {
    pub at: usize,
}
