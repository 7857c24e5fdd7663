// A device that is programmed by sectors. Each sector that a write touches takes a step of
// life, and its cut chooses for each sector.
ghost use Rattle.devices.specs.Keeping.{sector_rules};
ghost use Rattle.devices.specs.Sector.{sector as sector_kind, sector_name, no_marks};

use crate::copies::{Copies, Power, Spent};
use crate::device::{Device, Parts};
use crate::medium::Medium;
use storage::piece::Pieces;
use storage::refusal::Name;
use storage::sizes::SECTOR;

// It keeps no marks: no byte of a sector is torn.
#[derive(Clone, Copy, PartialEq, Eq, Debug)]
pub struct Sectors;

pub type SectorParts<'a> = Parts<'a, Sectors>;

pub type SectorDevice<'a> = Device<'a, Sectors>;

impl Medium for Sectors {
    ghost rules = { sector_kind };

    ghost torn = { no_marks };

    ghost name = { sector_name };

    fn name(&self) -> Name {
        Name::Sector
    }

    fn unit(&self) -> usize {
        SECTOR
    }

    fn fits(&self, _size: usize) -> bool {
        true
    }

    // Programs the sectors of the range in rising order.
    fn program(
        &mut self,
        copies: &mut Copies<'_>,
        power: &mut Power,
        offset: usize,
        bytes: &[u8],
    ) -> Result<(), Spent> {
        if power.gone {
            return Err(Spent);
        }
        for piece in Pieces::of(offset, bytes.len()) {
            power.serve()?;
            copies.put(offset + piece.from, &bytes[piece.from..piece.to]);
        }
        Ok(())
    }

    fn forget(&mut self) {}

    // By number: a choice is any byte that a caller gives.
    fn pick(&self, _k: usize, choice: u8, durable: u8, visible: u8) -> u8 {
        if choice % 2 == 0 { durable } else { visible }
    }

    ghost keeps_rules = { sector_rules };
}
