// Calls that stay within the size, so that what they answer is Ok or the fault of GONE.
ghost use Rattle.std.specs.Prelude.{◌≡◌, ◌+◌, ◌≤◌, length};
ghost use Rattle.storage.specs.Calls.{Reading, Writing, Syncing};
ghost use Rattle.storage.specs.Inside.{OnReadInside, OnWriteInside, OnSyncInside};
ghost use Rattle.storage.specs.Layers.{Inside, lowered};

use crate::refusal::Refusal;
use crate::storage::Storage;

fn lower<O: Drop, G>(answer: Result<(), Refusal<O, G>>) -> Result<(), G>
    requires { Inside answer }
    ensures { lowered result ≡ answer }
{
    answer.map_err(|refusal| match refusal {
        Refusal::Gone(fault) => fault,
        // The contract rules this arm out; it is the one such place.
        Refusal::Outside(_) => unreachable(),
    })
}

pub fn read_inside<S: Storage>(s: &mut S, offset: usize, buf: &mut [u8]) -> Result<(), S::Gone>
    requires in_order { (S.Storage.means s.old).in_order }
    requires fits { offset + length buf.old ≤ (S.Storage.means s.old).size }
    ensures in_order { (S.Storage.means s.new).in_order }
    ensures does { OnReadInside offset buf.old buf.new (S.Storage.means s.old) (S.Storage.means s.new) result }
    ensures did { S.Storage.did s.old (Reading offset (length buf.old)) (lowered result) s.new }
{
    lower(s.read(offset, buf))
}

pub fn write_inside<S: Storage>(s: &mut S, offset: usize, bytes: &[u8]) -> Result<(), S::Gone>
    requires in_order { (S.Storage.means s.old).in_order }
    requires fits { offset + length bytes.now ≤ (S.Storage.means s.old).size }
    ensures in_order { (S.Storage.means s.new).in_order }
    ensures does { OnWriteInside offset bytes.now (S.Storage.means s.old) (S.Storage.means s.new) result }
    ensures did { S.Storage.did s.old (Writing offset bytes.now) (lowered result) s.new }
{
    lower(s.write(offset, bytes))
}

pub fn sync_inside<S: Storage>(s: &mut S) -> Result<(), S::Gone>
    requires { (S.Storage.means s.old).in_order }
    ensures in_order { (S.Storage.means s.new).in_order }
    ensures does { OnSyncInside (S.Storage.means s.old) (S.Storage.means s.new) result }
    ensures did { S.Storage.did s.old Syncing (lowered result) s.new }
{
    lower(s.sync())
}
