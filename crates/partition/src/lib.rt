// A partition: a part of any storage, as a storage of its own.
//
// It keeps no bytes. Offset 0 of it is offset `base` below, and what it shows, what may
// stand on it and whether it lives are read off the storage below. A range that passes its
// own size it refuses itself, so no call touches a byte below outside the part.
#![tactic(auto)]

ghost use Rattle.std.specs.Prelude.{◌≡◌};
ghost use Rattle.partition.specs.Parts.{part_lawful};
ghost use Rattle.partition.specs.Partitions.{OnOver, PartDid, Sets, means_of, partition_name};
ghost use Rattle.storage.specs.Cells.{part};

use storage::cuttable::Cuttable;
use storage::inside::{read_inside, sync_inside, write_inside};
use storage::layer::{check_range, lift};
use storage::refusal::{BadMount, LayerFault, Link, Name, Refusal};
use storage::sizes::{SECTOR, keeps_size_rule, passes};
use storage::storage::Storage;

const NAME: Name = Name::Partition;

#[derive(Drop)]
pub struct Partition<S> {
    below: S,
    base: usize,
    size: usize,
}

impl<S: Storage> Partition<S> {
    // The part of `size` bytes from `base` on; a storage that it does not fit is handed back.
    pub fn over(below: S, base: usize, size: usize) -> Result<Partition<S>, BadMount<S>>
        requires { (S.Storage.means below).in_order }
        ensures { OnOver S.Storage.means below base size result }
    {
        let aligned = base % SECTOR == 0;
        if !aligned || !keeps_size_rule(size) || passes(below.size(), base, size) {
            return Err(BadMount { given: below });
        }
        Ok(Partition { below, base, size })
    }
}

impl<S: Storage> Storage for Partition<S> {
    type Outside = Link;

    type Gone = LayerFault<S::Gone>;

    ghost name = { partition_name };

    ghost means = { means_of S.Storage.means };

    ghost lawful = { λ p. part_lawful p.base p.size (S.Storage.means p.below) (S.Storage.lawful p.below) };

    ghost did = { PartDid S.Storage.means S.Storage.did };

    fn size(&self) -> usize {
        self.size
    }

    fn read(
        &mut self,
        offset: usize,
        buf: &mut [u8],
    ) -> Result<(), Refusal<Link, LayerFault<S::Gone>>> {
        check_range(NAME, self.size, offset, buf.len())?;
        let answer = read_inside(&mut self.below, self.base + offset, buf);
        lift(NAME, offset, answer)
    }

    fn write(
        &mut self,
        offset: usize,
        bytes: &[u8],
    ) -> Result<(), Refusal<Link, LayerFault<S::Gone>>> {
        check_range(NAME, self.size, offset, bytes.len())?;
        let answer = write_inside(&mut self.below, self.base + offset, bytes);
        lift(NAME, offset, answer)
    }

    fn sync(&mut self) -> Result<(), Refusal<Link, LayerFault<S::Gone>>> {
        let answer = sync_inside(&mut self.below);
        lift(NAME, 0, answer)
    }
}

impl<S: Cuttable> Cuttable for Partition<S> {
    ghost life = { λ p. S.Cuttable.life p.below };

    ghost keeps = { λ p cs. part p.base p.size (S.Cuttable.keeps p.below cs) };

    ghost sets = { Sets S.Cuttable.sets };

    ghost cuts = { λ p cs q. (q.base ≡ p.base) × (q.size ≡ p.size) × S.Cuttable.cuts p.below cs q.below };

    fn set_life(&mut self, steps: u64) {
        self.below.set_life(steps);
    }

    fn cut(&mut self, choices: &[u8]) -> Result<(), BadMount<()>> {
        self.below.cut(choices)
    }
}
