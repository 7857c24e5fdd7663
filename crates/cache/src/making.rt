// Making a cache, and cutting the power below it.
ghost use Rattle.std.specs.Prelude.{◌≡◌, false, map};
ghost use Rattle.cache.specs.Lines.{emptied};
ghost use Rattle.cache.specs.Made.{Made, Blank};

use crate::cache::Cache;
use crate::lines::{Lines, MOST_LINES};
use crate::slot::Slot;
use storage::cuttable::Cuttable;
use storage::refusal::BadMount;
use storage::storage::Storage;

impl<S: Storage> Cache<S> {
    // A cache of so many lines, with none held yet; the storage is handed back where the number is not 1 to 16.
    pub fn over(below: S, lines: usize) -> Result<Cache<S>, BadMount<S>>
        requires { (S.Storage.means below).in_order }
        ensures { Made S.Storage.means below lines result }
    {
        if !(1..=MOST_LINES).contains(&lines) {
            return Err(BadMount { given: below });
        }
        let inner = Lines {
            below,
            slots: [Slot::EMPTY; MOST_LINES],
            lines,
        };
        Ok(Cache { inner, gone: false })
    }
}

impl<S: Cuttable> Cuttable for Cache<S> {
    ghost life = { λ c. S.Cuttable.life c.inner.below };

    ghost keeps = { λ c. S.Cuttable.keeps c.inner.below };

    ghost sets = { λ c n d. S.Cuttable.sets c.inner.below n d.inner.below × (d ≡ record { inner = record { below = d.inner.below; slots = c.inner.slots; lines = c.inner.lines }; gone = c.gone }) };

    ghost cuts = { λ c cs d. S.Cuttable.cuts c.inner.below cs d.inner.below × Blank d.inner.slots × (d ≡ record { inner = record { below = d.inner.below; slots = map emptied c.inner.slots; lines = c.inner.lines }; gone = false }) };

    fn set_life(&mut self, steps: u64) {
        self.inner.below.set_life(steps);
    }

    fn cut(&mut self, choices: &[u8]) -> Result<(), BadMount<()>> {
        self.inner.below.cut(choices)?;
        self.inner.clear();
        self.gone = false;
        Ok(())
    }
}
