// What a storage is: its meaning, its calls, what it answers, and the power cut.
//
// A storage is known by what it means: its size, the bytes that it shows, every
// content that may stand on it if power fails now, whether it lives, and whether it
// is in order. Code above a storage is proved from this meaning alone, so it holds on
// every kind of storage and on every stack of layers.
#![tactic(auto)]

pub mod cells;
pub mod client;
pub mod cuttable;
pub mod inside;
pub mod layer;
pub mod life;
pub mod piece;
pub mod pieces;
pub mod refusal;
pub mod sizes;
pub mod storage;
