// The cache: its lines, and whether the storage below them is known to be gone.
ghost use Rattle.std.specs.Prelude.{◌≡◌, ◌+◌, ◌≤◌, ◌||◌, length, is_err};
ghost use Rattle.cache.specs.Cached.{means_of};
ghost use Rattle.cache.specs.Chains.{ReadStep, WriteStep};
ghost use Rattle.cache.specs.Did.{Inner};
ghost use Rattle.cache.specs.Syncs.{Settles};
ghost use Rattle.storage.specs.Calls.{Reading, Writing};
ghost use Rattle.storage.specs.Inside.{OnReadInside, OnWriteInside, OnSyncInside};

use crate::lines::Lines;
use storage::inside::sync_inside;
use storage::storage::Storage;

#[derive(Drop)]
pub struct Cache<S> {
    pub(crate) inner: Lines<S>,
    // Whether the storage below has answered GONE. The lines stay then too: a cut keeps their bytes.
    pub(crate) gone: bool,
}

impl<S: Storage> Cache<S> {
    // An answer of the lines; one of GONE is remembered.
    fn told(&mut self, answer: Result<(), S::Gone>) -> Result<(), S::Gone>
        ensures same { result ≡ answer }
        ensures flag { self.new ≡ record { inner = self.old.inner; gone = self.old.gone || is_err answer } }
    {
        self.gone |= answer.is_err();
        answer
    }

    // A read within the size. The three calls begin and end alike; taken as a closure, each would have
    // to say in two clauses of its own what it says here.
    pub(crate) fn read_inside(&mut self, offset: usize, buf: &mut [u8]) -> Result<(), S::Gone>
        requires in_order { (means_of S.Storage.means self.old).in_order }
        requires fits { offset + length buf.old ≤ (S.Storage.means self.old.inner.below).size }
        ensures in_order { (means_of S.Storage.means self.new).in_order }
        ensures does { OnReadInside offset buf.old buf.new (means_of S.Storage.means self.old) (means_of S.Storage.means self.new) result }
        ensures did { Inner S.Storage.did S.Storage.means (Reading offset (length buf.old)) (ReadStep S.Storage.did S.Storage.means) offset (length buf.old) self.old result self.new }
    {
        if self.gone {
            buf.fill(0);
            return sync_inside(&mut self.inner.below);
        }
        let answer = self.inner.read(offset, buf);
        self.told(answer)
    }

    // A write within the size.
    pub(crate) fn write_inside(&mut self, offset: usize, bytes: &[u8]) -> Result<(), S::Gone>
        requires in_order { (means_of S.Storage.means self.old).in_order }
        requires fits { offset + length bytes.now ≤ (S.Storage.means self.old.inner.below).size }
        ensures in_order { (means_of S.Storage.means self.new).in_order }
        ensures does { OnWriteInside offset bytes.now (means_of S.Storage.means self.old) (means_of S.Storage.means self.new) result }
        ensures did { Inner S.Storage.did S.Storage.means (Writing offset bytes.now) (WriteStep S.Storage.did S.Storage.means offset bytes.now) offset (length bytes.now) self.old result self.new }
    {
        if self.gone {
            return sync_inside(&mut self.inner.below);
        }
        let answer = self.inner.write(offset, bytes);
        self.told(answer)
    }

    // All that waits goes down, and then a sync.
    pub(crate) fn settle(&mut self) -> Result<(), S::Gone>
        requires { (means_of S.Storage.means self.old).in_order }
        ensures in_order { (means_of S.Storage.means self.new).in_order }
        ensures does { OnSyncInside (means_of S.Storage.means self.old) (means_of S.Storage.means self.new) result }
        ensures did { Settles S.Storage.did self.old result self.new }
    {
        if self.gone {
            return sync_inside(&mut self.inner.below);
        }
        let answer = self.inner.settle();
        self.told(answer)
    }
}
