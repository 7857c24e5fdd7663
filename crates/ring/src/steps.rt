// What each completed call of a queue leaves on its card, in the words of the layout, and the
// lengths of rings.
ghost use Rattle.std.specs.Prelude.{◌≡◌};
ghost use Rattle.ring.specs.Steps.{largest_ring, grown_length, AddLaw, RemoveLaw, ClearLaw, GrowLaw, KeepLaw, FreeLaw, BehindLaw, LargestLaw, GrownLaw};

use crate::header::{DOUBLINGS, LEAST_RING, LONGEST_RING};

// Carries the laws of the steps in its contract: what a card reads as after an add, a removal, a
// clear and a growth, and what may change on it while its list stays. It computes nothing.
pub fn step_laws()
    ensures add { AddLaw }
    ensures remove { RemoveLaw }
    ensures clear { ClearLaw }
    ensures grow { GrowLaw }
    ensures keep { KeepLaw }
    ensures free { FreeLaw }
    ensures behind { BehindLaw }
    ensures largest { LargestLaw }
    ensures grown { GrownLaw }
{}

// The largest ring within so many bytes; the shortest one where they are too few.
pub fn largest_ring(size: usize) -> usize
    ensures { result ≡ largest_ring size }
{
    let room = size.clamp(LEAST_RING as usize, LONGEST_RING as usize);
    1 << room.ilog2()
}

// The length of a ring, doubled until it holds so many bytes.
pub fn grown_length(ring: u32, need: usize) -> usize
    ensures { result ≡ grown_length ring need }
{
    let ring = ring as usize;
    let doublings = (0..DOUBLINGS).find(|&k| need <= ring << k);
    ring << doublings.unwrap_or(DOUBLINGS)
}
