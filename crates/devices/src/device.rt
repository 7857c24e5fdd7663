// A device at the bottom of a stack, of any kind. It serves a number of steps that can be
// set, and its cut chooses for each unit what is left of the writes since the last sync.
ghost use Rattle.std.specs.Prelude.{◌≡◌, ℕ, ◌<◌, length};
ghost use Rattle.devices.specs.Devices.{Did, InOrder, means_of, lawful_of, with_life, kept, fresh};
ghost use Rattle.devices.specs.Mounts.{holds, OnMount};
ghost use Rattle.storage.specs.Standing.{unmarked};

use crate::copies::{Copies, Power};
use crate::medium::Medium;
use storage::cuttable::Cuttable;
use storage::layer::check_range;
use storage::life::Life;
use storage::refusal::{BadMount, Link, Refusal};
use storage::sizes::keeps_size_rule;
use storage::storage::Storage;

// The lent memory of a device: as many visible bytes as durable bytes, and what its medium keeps; lent
// as they lie, like `Copies`.
#[derive(Drop)]
pub struct Parts<'a, M> {
    pub durable: &'a mut [u8],
    pub visible: &'a mut [u8],
    pub medium: M,
}

#[derive(Drop)]
pub struct Device<'a, M> {
    copies: Copies<'a>,
    medium: M,
    power: Power,
}

// The power of a device that was mounted.
const ENDLESS: Power = Power {
    life: Life::Endless,
    gone: false,
};

impl<'a, M: Medium> Device<'a, M> {
    // Mounts the durable bytes; memory that does not fit is handed back as it was.
    pub fn mount(parts: Parts<'a, M>) -> Result<Device<'a, M>, BadMount<Parts<'a, M>>>
        ensures { OnMount M.rules M.torn parts.entry.durable.now parts.entry.visible.now parts.entry.medium result }
    {
        let size = parts.durable.len();
        let even = parts.visible.len() == size && parts.medium.fits(size);
        if !keeps_size_rule(size) || !even {
            return Err(BadMount { given: parts });
        }
        let Parts {
            durable,
            visible,
            mut medium,
        } = parts;
        visible.copy_from_slice(durable);
        medium.forget();
        Ok(Device {
            copies: Copies { durable, visible },
            medium,
            power: ENDLESS,
        })
    }
}

impl<M: Medium> Device<'_, M> {
    // Each byte becomes the one that the choice for its unit leaves, for good.
    fn remount(&mut self, choices: &[u8])
        requires some { 0 < length choices.now }
        requires in_order { InOrder (holds M.torn self.old) }
        ensures durable { self.new.copies.durable.now ≡ kept M.rules (holds M.torn self.old) choices.now }
        ensures visible { self.new.copies.visible.now ≡ kept M.rules (holds M.torn self.old) choices.now }
        ensures torn { (n : ℕ) → M.torn self.new.medium n ≡ unmarked (M.torn self.old.medium n) }
    {
        let unit = self.medium.unit();
        // By an index: iterators over lent slices side by side were tried in five forms, and the
        // borrow checker covers none.
        for k in 0..self.copies.size() {
            let choice = choices[k / unit % choices.len()];
            let durable = self.copies.durable[k];
            let visible = self.copies.visible[k];
            self.copies.visible[k] = self.medium.pick(k, choice, durable, visible);
        }
        self.copies.settle();
        self.medium.forget();
    }
}

impl<M: Medium> Storage for Device<'_, M> {
    type Outside = Link;

    type Gone = Link;

    ghost name = { M.name };

    ghost means = { λ d. means_of M.rules (holds M.torn d) };

    ghost lawful = { λ d. lawful_of M.rules (holds M.torn d) };

    ghost did = { λ d call r e. Did M.rules M.name (holds M.torn d) call r (holds M.torn e) };

    fn size(&self) -> usize {
        self.copies.size()
    }

    fn read(&mut self, offset: usize, buf: &mut [u8]) -> Result<(), Refusal<Link, Link>> {
        let name = self.medium.name();
        check_range(name, self.copies.size(), offset, buf.len())?;
        if self.power.gone {
            buf.fill(0);
            return Err(Refusal::Gone(name.at(offset)));
        }
        self.copies.fetch(offset, buf);
        Ok(())
    }

    fn write(&mut self, offset: usize, bytes: &[u8]) -> Result<(), Refusal<Link, Link>> {
        let name = self.medium.name();
        check_range(name, self.copies.size(), offset, bytes.len())?;
        self.medium
            .program(&mut self.copies, &mut self.power, offset, bytes)
            .map_err(|_| Refusal::Gone(name.at(offset)))
    }

    fn sync(&mut self) -> Result<(), Refusal<Link, Link>> {
        let name = self.medium.name();
        self.power.serve().map_err(|_| Refusal::Gone(name.at(0)))?;
        self.copies.settle();
        self.medium.forget();
        Ok(())
    }
}

impl<M: Medium> Cuttable for Device<'_, M> {
    ghost life = { λ d. d.power.life };

    ghost keeps = { λ d. kept M.rules (holds M.torn d) };

    ghost sets = { λ d n e. holds M.torn e ≡ with_life n (holds M.torn d) };

    ghost cuts = { λ d cs e. holds M.torn e ≡ fresh (kept M.rules (holds M.torn d) cs) };

    fn set_life(&mut self, steps: u64) {
        self.power.life = Life::Left(steps);
    }

    fn cut(&mut self, choices: &[u8]) -> Result<(), BadMount<()>> {
        if choices.is_empty() {
            return Err(BadMount { given: () });
        }
        self.remount(choices);
        self.power = ENDLESS;
        Ok(())
    }
}
