// The cache is a storage over any storage.
ghost use Rattle.std.specs.Prelude.{◌≡◌};
ghost use Rattle.cache.specs.Cached.{means_of, cache_lawful};
ghost use Rattle.cache.specs.Did.{cache_name, CacheDid};

use crate::cache::Cache;
use storage::layer::{check_range, lift};
use storage::refusal::{LayerFault, Link, Name, Refusal};
use storage::storage::Storage;

impl<S: Storage> Storage for Cache<S> {
    type Outside = Link;

    type Gone = LayerFault<S::Gone>;

    ghost name = { cache_name };

    ghost means = { means_of S.Storage.means };

    ghost lawful = { λ c. cache_lawful c.inner.slots c.inner.lines c.gone (S.Storage.means c.inner.below) (S.Storage.lawful c.inner.below) };

    ghost did = { CacheDid S.Storage.did S.Storage.means };

    fn size(&self) -> usize {
        self.inner.below.size()
    }

    fn read(
        &mut self,
        offset: usize,
        buf: &mut [u8],
    ) -> Result<(), Refusal<Link, LayerFault<S::Gone>>> {
        check_range(Name::Cache, self.inner.below.size(), offset, buf.len())?;
        lift(Name::Cache, offset, self.read_inside(offset, buf))
    }

    fn write(
        &mut self,
        offset: usize,
        bytes: &[u8],
    ) -> Result<(), Refusal<Link, LayerFault<S::Gone>>> {
        check_range(Name::Cache, self.inner.below.size(), offset, bytes.len())?;
        lift(Name::Cache, offset, self.write_inside(offset, bytes))
    }

    fn sync(&mut self) -> Result<(), Refusal<Link, LayerFault<S::Gone>>> {
        lift(Name::Cache, 0, self.settle())
    }
}
