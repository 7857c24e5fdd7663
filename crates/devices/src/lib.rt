// The storages at the bottom of every stack: an image in memory, and a device that is
// programmed by sectors. Each keeps its bytes twice, so that a power cut can be tried.
#![tactic(auto)]

mod copies;
pub mod device;
pub mod image;
mod marks;
mod medium;
pub mod memory;
pub mod sector;
