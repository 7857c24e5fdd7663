// A write-back cache of 1 to 16 sectors over any storage.
//
// A sector may be held only in its own line, so what a line holds is decided by the last call
// that touched one of its sectors. Writes wait in dirty lines until another sector takes the
// line or a sync writes them down.
#![tactic(auto)]

pub mod cache;
mod line;
mod lines;
pub mod making;
mod slot;
pub mod storing;
