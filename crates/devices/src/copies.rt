// What both kinds of device are made of: bytes that are kept twice, and a supply of power.
ghost use Rattle.std.specs.Prelude.{◌≡◌, ◌+◌, ◌≤◌, true, false, not, ◌&&◌, length, is_ok};
ghost use Rattle.storage.specs.Cells.{laid, part};
ghost use Rattle.storage.specs.Lives.{lessened, enough};

use storage::cells::{fetch, lay};
use storage::life::Life;

// Two slices, not one of pairs: a card's bytes are lent as they lie in a file, and are read in
// one copy.
#[derive(Drop)]
pub struct Copies<'a> {
    pub durable: &'a mut [u8],
    pub visible: &'a mut [u8],
}

impl Copies<'_> {
    pub fn size(&self) -> usize
        ensures { result ≡ length self.now.durable.now }
    {
        self.durable.len()
    }

    pub fn fetch(&self, from: usize, buf: &mut [u8])
        requires { from + length buf.old ≤ length self.now.visible.now }
        ensures { buf.new ≡ part from (length buf.old) self.now.visible.now }
    {
        fetch(self.visible, from, buf);
    }

    pub fn put(&mut self, from: usize, bytes: &[u8])
        requires { from + length bytes.now ≤ length self.old.visible.now }
        ensures durable { self.new.durable ≡ self.old.durable }
        ensures visible { self.new.visible.now ≡ laid from bytes.now self.old.visible.now }
    {
        lay(self.visible, from, bytes);
    }

    // The visible bytes become the durable ones.
    pub fn settle(&mut self)
        requires { length self.old.visible.now ≡ length self.old.durable.now }
        ensures durable { self.new.durable.now ≡ self.old.visible.now }
        ensures visible { self.new.visible ≡ self.old.visible }
    {
        // Not passed as a field: beside the loan of the other field the check has no rule for it.
        let visible = &mut *self.visible;
        self.durable.copy_from_slice(visible);
    }
}

// Two facts, not one: a life that is set does not revive a device that is gone.
#[derive(Clone, Copy)]
pub struct Power {
    pub life: Life,
    pub gone: bool,
}

// No step of life is left for what was asked.
#[derive(Clone, Copy, PartialEq, Eq, Debug)]
pub struct Spent;

impl Power {
    // Takes a step of life, or is gone.
    pub fn serve(&mut self) -> Result<(), Spent>
        ensures served { is_ok result ≡ (not self.old.gone && enough 1 self.old.life) }
        ensures life { (is_ok result ≡ true → self.new.life ≡ lessened 1 self.old.life) × (is_ok result ≡ false → self.new.life ≡ self.old.life) }
        ensures gone { self.new.gone ≡ not (is_ok result) }
    {
        if self.gone {
            return Err(Spent);
        }
        let Some(rest) = self.life.spend() else {
            self.gone = true;
            return Err(Spent);
        };
        self.life = rest;
        Ok(())
    }
}
