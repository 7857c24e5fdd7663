// The lines of a cache over a storage of any kind that has not answered GONE to them.
ghost use Rattle.std.specs.Prelude.{◌≡◌, ℕ, ◌+◌, ◌*◌, ◌/◌, ◌%◌, ◌<◌, ◌≤◌, true, false, map, length};
ghost use Rattle.cache.specs.Cached.{lines_mean, LeftInOrder};
ghost use Rattle.cache.specs.Chains.{Took, Writes, OnPut, Accesses, Ranges, ReadStep, WriteStep};
ghost use Rattle.cache.specs.Lines.{held, dirty, line, emptied};
ghost use Rattle.cache.specs.Steps.{Evicts, Fetches, Takes, Puts};
ghost use Rattle.cache.specs.Syncs.{lowest, Flushes, Syncs};
ghost use Rattle.storage.specs.Calls.{Reading, Writing, WriteDone};
ghost use Rattle.storage.specs.Cells.{part};
ghost use Rattle.storage.specs.Inside.{OnStep, OnReadInside, OnWriteInside, OnSyncInside};

use crate::line::Line;
use crate::slot::Slot;
use storage::cells::fetch;
use storage::inside::{read_inside, sync_inside, write_inside};
use storage::piece::Pieces;
use storage::sizes::SECTOR;
use storage::storage::Storage;

pub const MOST_LINES: usize = 16;

// Sixteen slots whatever the number of lines, which is known at run time alone: nothing is allocated.
// That a sector lies within the storage below is asked of each step: it ties the two, and so is no
// fact of either type.
#[derive(Drop)]
pub struct Lines<S> {
    pub(crate) below: S,
    pub(crate) slots: [Slot; MOST_LINES],
    pub(crate) lines: usize,
}

impl<S: Storage> Lines<S> {
    // Line i has nothing more to write down.
    fn evict(&mut self, i: usize) -> Result<(), S::Gone>
        requires in_order { (lines_mean S.Storage.means self.old).in_order }
        requires line { i < self.old.lines }
        ensures in_order { LeftInOrder S.Storage.means result self.new }
        ensures does { OnStep (λ _. (dirty (line self.new.slots i) ≡ false) × (self.new.lines ≡ self.old.lines)) (lines_mean S.Storage.means self.old) (lines_mean S.Storage.means self.new) result }
        ensures did { Evicts S.Storage.did self.old i result self.new }
    {
        let Line::Dirty(h) = self.slots[i].line else {
            return Ok(());
        };
        self.slots[i].write_to(&mut self.below, h)?;
        self.slots[i].line = Line::Clean(h);
        Ok(())
    }

    // Line i takes the sector s. Here and in `put` these are one number and its remainder, of which
    // each step uses both.
    fn fetch(&mut self, i: usize, s: usize) -> Result<(), S::Gone>
        requires in_order { (lines_mean S.Storage.means self.old).in_order }
        requires home { i ≡ s % self.old.lines }
        requires fits { s * 512 + 512 ≤ (S.Storage.means self.old.below).size }
        requires undirty { dirty (line self.old.slots i) ≡ false }
        ensures in_order { LeftInOrder S.Storage.means result self.new }
        ensures does { OnStep (λ _. (held (line self.new.slots i) s ≡ true) × (self.new.lines ≡ self.old.lines)) (lines_mean S.Storage.means self.old) (lines_mean S.Storage.means self.new) result }
        ensures did { Fetches S.Storage.did S.Storage.means self.old i s result self.new }
    {
        self.slots[i].fill_from(&mut self.below, s)
    }

    // The line of the sector s, which holds it now.
    fn hold(&mut self, s: usize) -> Result<usize, S::Gone>
        requires in_order { (lines_mean S.Storage.means self.old).in_order }
        requires fits { s * 512 + 512 ≤ (S.Storage.means self.old.below).size }
        ensures in_order { LeftInOrder S.Storage.means result self.new }
        ensures does { OnStep (λ i. (i ≡ s % self.old.lines) × (held (line self.new.slots i) s ≡ true) × (self.new.lines ≡ self.old.lines)) (lines_mean S.Storage.means self.old) (lines_mean S.Storage.means self.new) result }
        ensures did { Takes S.Storage.did S.Storage.means self.old s result self.new }
    {
        let i = s % self.lines;
        if self.slots[i].line.holds(s) {
            return Ok(i);
        }
        self.evict(i)?;
        self.fetch(i, s)?;
        Ok(i)
    }

    // The lowest sector that waits to be written down.
    fn lowest(&self) -> Option<usize>
        requires long { length self.now.slots ≡ 16 }
        requires few { self.now.lines ≤ 16 }
        ensures { result ≡ lowest self.now.slots self.now.lines }
    {
        self.slots[..self.lines]
            .iter()
            .filter_map(|slot| slot.line.waiting())
            .min()
    }

    // Writes all that waits down, the lowest sector first.
    fn flush(&mut self) -> Result<(), S::Gone>
        requires in_order { (lines_mean S.Storage.means self.old).in_order }
        ensures in_order { LeftInOrder S.Storage.means result self.new }
        ensures does { OnStep (λ _. self.new.lines ≡ self.old.lines) (lines_mean S.Storage.means self.old) (lines_mean S.Storage.means self.new) result }
        ensures did { Flushes S.Storage.did self.old result self.new }
    {
        // Each turn looks at the lines anew, so no iterator over them fits.
        while let Some(h) = self.lowest() {
            self.evict(h % self.lines)?;
        }
        Ok(())
    }

    // Bytes go into line i, which holds the sector s.
    fn put(&mut self, i: usize, s: usize, skip: usize, bytes: &[u8])
        requires in_order { (lines_mean S.Storage.means self.old).in_order }
        requires fits { s * 512 + 512 ≤ (S.Storage.means self.old.below).size }
        requires home { i ≡ s % self.old.lines }
        requires holds { held (line self.old.slots i) s ≡ true }
        requires short { skip + length bytes.now ≤ 512 }
        ensures in_order { (lines_mean S.Storage.means self.new).in_order }
        ensures does { WriteDone (s * 512 + skip) bytes.now (lines_mean S.Storage.means self.old) (lines_mean S.Storage.means self.new) }
        ensures did { Puts self.old i s skip bytes.now self.new }
    {
        self.slots[i].put(s, skip, bytes);
    }

    // Reads bytes of one sector. Reads and writes are two functions each: what is lent, what is
    // left at GONE and what follows all differ.
    fn read_piece(&mut self, at: usize, out: &mut [u8]) -> Result<(), S::Gone>
        requires in_order { (lines_mean S.Storage.means self.old).in_order }
        requires fits { at + length out.old ≤ (S.Storage.means self.old.below).size }
        requires some { 0 < length out.old }
        requires one { at % 512 + length out.old ≤ 512 }
        ensures in_order { LeftInOrder S.Storage.means result self.new }
        ensures does { OnStep (λ _. (out.new ≡ part at (length out.old) (lines_mean S.Storage.means self.old).visible) × ((S.Storage.means self.new.below).lives ≡ true) × (self.new.lines ≡ self.old.lines)) (lines_mean S.Storage.means self.old) (lines_mean S.Storage.means self.new) result }
        ensures did { Took S.Storage.did S.Storage.means self.old (at / 512) result self.new }
    {
        let i = self.hold(at / SECTOR)?;
        fetch(&self.slots[i].bytes, at % SECTOR, out);
        Ok(())
    }

    // Writes bytes of one sector.
    fn write_piece(&mut self, at: usize, bytes: &[u8]) -> Result<(), S::Gone>
        requires in_order { (lines_mean S.Storage.means self.old).in_order }
        requires fits { at + length bytes.now ≤ (S.Storage.means self.old.below).size }
        requires some { 0 < length bytes.now }
        requires one { at % 512 + length bytes.now ≤ 512 }
        ensures in_order { LeftInOrder S.Storage.means result self.new }
        ensures does { OnPut (self.new.lines ≡ self.old.lines) at bytes.now (lines_mean S.Storage.means self.old) (lines_mean S.Storage.means self.new) result }
        ensures did { Writes S.Storage.did S.Storage.means at bytes.now self.old result self.new }
    {
        let s = at / SECTOR;
        let i = self.hold(s)?;
        self.put(i, s, at % SECTOR, bytes);
        Ok(())
    }

    // Reads a range of some bytes, sector by sector. The buffer is zeroed where one is answered GONE.
    fn read_range(&mut self, offset: usize, buf: &mut [u8]) -> Result<(), S::Gone>
        requires in_order { (lines_mean S.Storage.means self.old).in_order }
        requires fits { offset + length buf.old ≤ (S.Storage.means self.old.below).size }
        requires some { 0 < length buf.old }
        ensures in_order { LeftInOrder S.Storage.means result self.new }
        ensures does { OnReadInside offset buf.old buf.new (lines_mean S.Storage.means self.old) (lines_mean S.Storage.means self.new) result }
        ensures did { Ranges S.Storage.did S.Storage.means (ReadStep S.Storage.did S.Storage.means) self.old offset (length buf.old) result self.new }
    {
        for piece in Pieces::of(offset, buf.len()) {
            let at = offset + piece.from;
            if let Err(fault) = self.read_piece(at, &mut buf[piece.from..piece.to]) {
                buf.fill(0);
                return Err(fault);
            }
        }
        Ok(())
    }

    // Writes a range of some bytes, sector by sector.
    fn write_range(&mut self, offset: usize, bytes: &[u8]) -> Result<(), S::Gone>
        requires in_order { (lines_mean S.Storage.means self.old).in_order }
        requires fits { offset + length bytes.now ≤ (S.Storage.means self.old.below).size }
        requires some { 0 < length bytes.now }
        ensures in_order { LeftInOrder S.Storage.means result self.new }
        ensures does { OnWriteInside offset bytes.now (lines_mean S.Storage.means self.old) (lines_mean S.Storage.means self.new) result }
        ensures did { Ranges S.Storage.did S.Storage.means (WriteStep S.Storage.did S.Storage.means offset bytes.now) self.old offset (length bytes.now) result self.new }
    {
        for piece in Pieces::of(offset, bytes.len()) {
            self.write_piece(offset + piece.from, &bytes[piece.from..piece.to])?;
        }
        Ok(())
    }

    // A read within the size; one of no bytes is handed down.
    pub(crate) fn read(&mut self, offset: usize, buf: &mut [u8]) -> Result<(), S::Gone>
        requires in_order { (lines_mean S.Storage.means self.old).in_order }
        requires fits { offset + length buf.old ≤ (S.Storage.means self.old.below).size }
        ensures in_order { LeftInOrder S.Storage.means result self.new }
        ensures does { OnReadInside offset buf.old buf.new (lines_mean S.Storage.means self.old) (lines_mean S.Storage.means self.new) result }
        ensures did { Accesses S.Storage.did S.Storage.means (Reading offset (length buf.old)) (ReadStep S.Storage.did S.Storage.means) offset (length buf.old) self.old result self.new }
    {
        if buf.is_empty() {
            return read_inside(&mut self.below, offset, buf);
        }
        self.read_range(offset, buf)
    }

    // A write within the size; one of no bytes is handed down.
    pub(crate) fn write(&mut self, offset: usize, bytes: &[u8]) -> Result<(), S::Gone>
        requires in_order { (lines_mean S.Storage.means self.old).in_order }
        requires fits { offset + length bytes.now ≤ (S.Storage.means self.old.below).size }
        ensures in_order { LeftInOrder S.Storage.means result self.new }
        ensures does { OnWriteInside offset bytes.now (lines_mean S.Storage.means self.old) (lines_mean S.Storage.means self.new) result }
        ensures did { Accesses S.Storage.did S.Storage.means (Writing offset bytes.now) (WriteStep S.Storage.did S.Storage.means offset bytes.now) offset (length bytes.now) self.old result self.new }
    {
        if bytes.is_empty() {
            return write_inside(&mut self.below, offset, bytes);
        }
        self.write_range(offset, bytes)
    }

    // All that waits goes down, and then a sync.
    pub(crate) fn settle(&mut self) -> Result<(), S::Gone>
        requires { (lines_mean S.Storage.means self.old).in_order }
        ensures in_order { LeftInOrder S.Storage.means result self.new }
        ensures does { OnSyncInside (lines_mean S.Storage.means self.old) (lines_mean S.Storage.means self.new) result }
        ensures did { Syncs S.Storage.did self.old result self.new }
    {
        self.flush()?;
        sync_inside(&mut self.below)
    }

    // No line holds a sector any more.
    pub(crate) fn clear(&mut self)
        requires { length self.old.slots ≡ 16 }
        ensures { self.new ≡ record { below = self.old.below; slots = map emptied self.old.slots; lines = self.old.lines } }
    {
        for slot in &mut self.slots {
            slot.line = Line::Empty;
        }
    }
}
