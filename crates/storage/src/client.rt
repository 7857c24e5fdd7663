// What a user of any storage may rest on, from the storage's meaning alone.
ghost use Rattle.std.specs.Prelude.{◌≡◌, length};
ghost use Rattle.storage.specs.Meaning.{Only};
ghost use Rattle.storage.specs.Stores.{OnStore, StoreCalls, OldOrNew, WholeCell};

use crate::refusal::Refusal;
use crate::storage::Storage;

// Writes and syncs. Where one content alone might stand before, one cell of it is then the
// old or the new one, whatever the storage answered.
pub fn store<S: Storage>(
    s: &mut S,
    offset: usize,
    bytes: &[u8],
) -> Result<(), Refusal<S::Outside, S::Gone>>
    requires { (S.Storage.means s.old).in_order }
    ensures in_order { (S.Storage.means s.new).in_order }
    ensures does { OnStore offset bytes.now (S.Storage.means s.old) (S.Storage.means s.new) result }
    ensures calls { StoreCalls S.Storage.did offset bytes.now s.old result s.new }
    ensures cell { WholeCell offset (length bytes.now) → Only (S.Storage.means s.old).visible (S.Storage.means s.old) → OldOrNew offset bytes.now (S.Storage.means s.old).visible (S.Storage.means s.new) }
{
    s.write(offset, bytes)?;
    s.sync()
}
