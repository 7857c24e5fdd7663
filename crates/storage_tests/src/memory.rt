// Memory for the devices of the examples. Each example mounts by itself: a function that returns
// the device is not covered by the borrow checker.
use devices::memory::Memory;
use std::alloc::{AllocError, Global};

// A card of so many equal bytes, and marks that a mount takes away.
pub fn filled(heap: Global, byte: u8, torn: bool, size: usize) -> Result<Memory, AllocError> {
    let mut memory = Memory::around(vec![in heap; byte; size]?)?;
    memory.torn.as_mut_slice().fill(torn);
    Ok(memory)
}
