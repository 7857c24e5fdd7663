// A storage whose power can be cut.
ghost use Rattle.std.specs.Prelude.{◌≡◌, ℕ, List, OnOk};
ghost use Rattle.storage.specs.Cuts.{OnCut};
ghost use Rattle.storage.specs.Meaning.{Same};
ghost use Rattle.storage.specs.declared.life.Life.{Life};
ghost use Rattle.storage.specs.declared.life.Life.TheVariants.{Left};

use crate::refusal::BadMount;
use crate::storage::Storage;

pub trait Cuttable: Storage {
    ghost life: { Self → Life };

    // The content that a cut with these choice bytes leaves.
    ghost keeps: { Self → List ℕ → List ℕ };

    // What its kind promises of setting the life, beyond the meaning.
    ghost sets: { Self → ℕ → Self → Type 0 };

    // What its kind promises of a cut with these choice bytes and the mount after it, beyond the meaning.
    ghost cuts: { Self → List ℕ → Self → Type 0 };

    // So many steps are served from now on. One that is gone stays gone.
    fn set_life(&mut self, steps: u64)
        requires { (Self.Storage.means self.old).in_order }
        ensures in_order { (Self.Storage.means self.new).in_order }
        ensures same { Same (Self.Storage.means self.old) (Self.Storage.means self.new) }
        ensures life { life self.new ≡ Left steps }
        ensures sets { sets self.old steps self.new };

    // Power fails, and the storage is mounted again.
    fn cut(&mut self, choices: &[u8]) -> Result<(), BadMount<()>>
        requires { (Self.Storage.means self.old).in_order }
        ensures in_order { (Self.Storage.means self.new).in_order }
        ensures does { OnCut Self.Storage.means life keeps choices.now self.old self.new result }
        ensures cuts { OnOk result (cuts self.old choices.now self.new) };
}
