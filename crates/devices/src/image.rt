// An image of a card: it serves a number of writes and syncs, and is cut by cells.
ghost use Rattle.std.specs.Prelude.{◌≡◌, ℕ, Bool, List};
ghost use Rattle.devices.specs.Image.{image as image_kind, image_name, marks_of};
ghost use Rattle.devices.specs.Keeping.{image_rules};

use crate::copies::{Copies, Power, Spent};
use crate::device::{Device, Parts};
use crate::marks::mark;
use crate::medium::Medium;
use storage::refusal::Name;
use storage::sizes::CELL;

// Torn marks in lent memory, as many as the image has bytes; a slice, since nothing is allocated.
#[derive(Drop)]
pub struct TornMarks<'a> {
    pub torn: &'a mut [bool],
}

pub type ImageParts<'a> = Parts<'a, TornMarks<'a>>;

pub type Image<'a> = Device<'a, TornMarks<'a>>;

impl Medium for TornMarks<'_> {
    ghost rules = { image_kind };

    ghost torn = { marks_of };

    ghost name = { image_name };

    fn name(&self) -> Name {
        Name::Image
    }

    fn unit(&self) -> usize {
        CELL
    }

    fn fits(&self, size: usize) -> bool {
        self.torn.len() == size
    }

    fn program(
        &mut self,
        copies: &mut Copies<'_>,
        power: &mut Power,
        offset: usize,
        bytes: &[u8],
    ) -> Result<(), Spent> {
        power.serve()?;
        copies.put(offset, bytes);
        mark(self.torn, offset, bytes.len());
        Ok(())
    }

    fn forget(&mut self) {
        self.torn.fill(false);
    }

    // By number: a choice is any byte that a caller gives.
    fn pick(&self, k: usize, choice: u8, durable: u8, visible: u8) -> u8 {
        match choice % 3 {
            0 => durable,
            1 => visible,
            _ if self.torn.get(k) == Some(&true) => choice,
            _ => durable,
        }
    }

    ghost keeps_rules = { image_rules };
}
