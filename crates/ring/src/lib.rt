// The ring of records on a card's bytes, without a storage: its header, a walk along its
// elements, and what each call leaves.
//
// A card begins with a header of 16 bytes, four big-endian 32-bit numbers: the ring's length,
// the number of elements, and the positions of the first and the last one. Positions run from
// 16 to the ring's end and begin again at 16. An element is a big-endian 32-bit length and so
// many bytes, and follows the one before it.
#![tactic(auto)]

pub mod head;
pub mod header;
pub mod law;
pub mod place;
pub mod steps;
pub mod walk;
pub mod walking;
