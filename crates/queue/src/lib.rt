// A first-in-first-out queue of records in a ring, on any storage.
#![tactic(auto)]

pub mod fault;
pub mod formatting;
pub mod opening;
pub mod queue;
