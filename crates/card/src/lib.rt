// The ring on a storage: what opening reads, and what formatting writes.
//
// The functions take the storage by `&mut`, and are proved from its meaning alone, so they hold
// on every kind of storage and every stack of layers.
#![tactic(auto)]

pub mod erase;
pub mod header;
pub mod reads;
pub mod refusal;
pub mod survey;
