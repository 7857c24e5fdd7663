// Adding a record behind the last one, and growing the ring for it, over any storage.
//
// The functions take the storage by `&mut` and the head by value, and give the head after the
// call: the result's type says that only a completed call has a new head, which a struct of the
// two, changed in place, would have to say in a clause of each method. That a head is that of the
// records on the storage is asked of each step: at GONE no head comes back, where the fact of a
// struct would have to hold of a storage that is gone. The order of writes and
// syncs is what makes an add whole: the element is settled before the header that counts it is
// written.
#![tactic(auto)]

pub mod add;
pub mod append;
pub mod copy;
pub mod element;
pub mod grow;
pub mod refusal;
pub mod writes;
