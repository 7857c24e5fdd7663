// Memory that is lent to a device, for programs that have a heap.
ghost use Rattle.std.specs.Prelude.{◌≡◌, false, replicate, IfOk, vec_len};

use crate::device::Parts;
use crate::image::{ImageParts, TornMarks};
use crate::sector::{SectorParts, Sectors};
use std::alloc::AllocError;

// The bytes of a card, and beside them what an image of it needs.
#[derive(Drop)]
pub struct Memory {
    pub durable: Vec<u8>,
    pub visible: Vec<u8>,
    pub torn: Vec<bool>,
}

impl Memory {
    // Memory around the bytes of a card: as many zeros to show, and as many marks.
    pub fn around(durable: Vec<u8>) -> Result<Memory, AllocError>
        ensures { IfOk result (λ m. (m.durable ≡ durable) × (m.visible.items ≡ replicate (vec_len durable) 0) × (m.torn.items ≡ replicate (vec_len durable) false)) }
    {
        let heap = *durable.allocator();
        let size = durable.len();
        Ok(Memory {
            durable,
            visible: vec![in heap; 0u8; size]?,
            torn: vec![in heap; false; size]?,
        })
    }

    pub fn image_parts(&mut self) -> ImageParts<'_>
        ensures durable { result.durable.now ≡ self.old.durable.items }
        ensures visible { result.visible.now ≡ self.old.visible.items }
        ensures torn { result.medium.torn.now ≡ self.old.torn.items }
    {
        Parts {
            durable: &mut self.durable,
            visible: &mut self.visible,
            medium: TornMarks {
                torn: &mut self.torn,
            },
        }
    }

    pub fn sector_parts(&mut self) -> SectorParts<'_>
        ensures durable { result.durable.now ≡ self.old.durable.items }
        ensures visible { result.visible.now ≡ self.old.visible.items }
    {
        let image = self.image_parts();
        Parts {
            durable: image.durable,
            visible: image.visible,
            medium: Sectors,
        }
    }
}
