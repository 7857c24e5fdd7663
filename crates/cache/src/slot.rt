// One line of a cache with the bytes of the sector that it holds.
ghost use Rattle.std.specs.Prelude.{◌≡◌, ◌+◌, ◌*◌, ◌≤◌, length, OnOk, OnErr};
ghost use Rattle.cache.specs.declared.line.Line.TheVariants.{Clean, Dirty};
ghost use Rattle.storage.specs.Calls.{Reading, Writing};
ghost use Rattle.storage.specs.Cells.{laid};
ghost use Rattle.storage.specs.Inside.{OnReadInside, OnWriteInside};
ghost use Rattle.storage.specs.Layers.{lowered};

use crate::line::Line;
use storage::cells::lay;
use storage::inside::{read_inside, write_inside};
use storage::sizes::SECTOR;
use storage::storage::Storage;

#[derive(Clone, Copy)]
pub struct Slot {
    pub line: Line,
    pub bytes: [u8; SECTOR],
}

impl Slot {
    pub const EMPTY: Slot = Slot {
        line: Line::Empty,
        bytes: [0; SECTOR],
    };

    // Takes the sector s from the storage below.
    pub fn fill_from<S: Storage>(&mut self, below: &mut S, s: usize) -> Result<(), S::Gone>
        requires in_order { (S.Storage.means below.old).in_order }
        requires fits { s * 512 + 512 ≤ (S.Storage.means below.old).size }
        ensures in_order { (S.Storage.means below.new).in_order }
        ensures long { length self.new.bytes ≡ 512 }
        ensures takes { OnOk result (self.new ≡ record { line = Clean s; bytes = self.new.bytes }) }
        ensures stays { OnErr result (self.new ≡ record { line = self.old.line; bytes = self.new.bytes }) }
        ensures does { OnReadInside (s * 512) self.old.bytes self.new.bytes (S.Storage.means below.old) (S.Storage.means below.new) result }
        ensures did { S.Storage.did below.old (Reading (s * 512) 512) (lowered result) below.new }
    {
        read_inside(below, s * SECTOR, &mut self.bytes)?;
        self.line = Line::Clean(s);
        Ok(())
    }

    // Goes down to the sector s.
    pub fn write_to<S: Storage>(&self, below: &mut S, s: usize) -> Result<(), S::Gone>
        requires in_order { (S.Storage.means below.old).in_order }
        requires fits { s * 512 + length self.now.bytes ≤ (S.Storage.means below.old).size }
        ensures in_order { (S.Storage.means below.new).in_order }
        ensures does { OnWriteInside (s * 512) self.now.bytes (S.Storage.means below.old) (S.Storage.means below.new) result }
        ensures did { S.Storage.did below.old (Writing (s * 512) self.now.bytes) (lowered result) below.new }
    {
        write_inside(below, s * SECTOR, &self.bytes)
    }

    // Takes bytes of the sector s, which waits to be written down now.
    pub fn put(&mut self, s: usize, skip: usize, bytes: &[u8])
        requires { skip + length bytes.now ≤ 512 }
        ensures { self.new ≡ record { line = Dirty s; bytes = laid skip bytes.now self.old.bytes } }
    {
        lay(&mut self.bytes, skip, bytes);
        self.line = Line::Dirty(s);
    }
}
