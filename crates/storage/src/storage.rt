// A storage: the calls that every kind serves, and what they mean.
ghost use Rattle.std.specs.Prelude.{◌≡◌, ℕ, List, length};
ghost use Rattle.storage.specs.Calls.{Call, Reading, Writing, Syncing, OnRead, OnWrite, OnSync};
ghost use Rattle.storage.specs.Meaning.{Meaning, Lawful};
ghost use Rattle.storage.specs.Refusals.{Answer, told};

use crate::refusal::{Chain, Refusal};

// That the storage is in order is asked of each call and not a fact of a type around it: code
// that only passes the storage on would not learn it from the type.
pub trait Storage {
    // The fault of a call past the size.
    type Outside: Chain + Drop;

    // The fault of a call on a storage that does not live.
    type Gone: Chain + Drop;

    // The name that its faults begin with.
    ghost name: { List ℕ };

    ghost means: { Self → Meaning };

    // What its kind promises of a call and its answer, beyond the meaning: exactly when it
    // is gone, what its fault holds, which calls it makes below, and in what order.
    ghost did: { Self → Call → Answer Self.Outside Self.Gone → Self → Type 0 };

    fn size(&self) -> usize
        requires { (means self.now).in_order }
        ensures { result ≡ (means self.now).size };

    fn read(
        &mut self,
        offset: usize,
        buf: &mut [u8],
    ) -> Result<(), Refusal<Self::Outside, Self::Gone>>
        requires { (means self.old).in_order }
        ensures in_order { (means self.new).in_order }
        ensures does { OnRead (told Self.Outside.Chain.links Self.Gone.Chain.links) name offset buf.old buf.new (means self.old) (means self.new) result }
        ensures did { did self.old (Reading offset (length buf.old)) result self.new };

    fn write(
        &mut self,
        offset: usize,
        bytes: &[u8],
    ) -> Result<(), Refusal<Self::Outside, Self::Gone>>
        requires { (means self.old).in_order }
        ensures in_order { (means self.new).in_order }
        ensures does { OnWrite (told Self.Outside.Chain.links Self.Gone.Chain.links) name offset bytes.now (means self.old) (means self.new) result }
        ensures did { did self.old (Writing offset bytes.now) result self.new };

    fn sync(&mut self) -> Result<(), Refusal<Self::Outside, Self::Gone>>
        requires { (means self.old).in_order }
        ensures in_order { (means self.new).in_order }
        ensures does { OnSync (told Self.Outside.Chain.links Self.Gone.Chain.links) name (means self.old) (means self.new) result }
        ensures did { did self.old Syncing result self.new };

    // What its meaning keeps while it is in order: every `impl` proves it.
    ghost lawful: { (s : Self) → (means s).in_order → Lawful (means s) };
}
