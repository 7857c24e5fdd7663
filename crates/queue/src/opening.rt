// Opening a card.
ghost use Rattle.std.specs.Prelude.{◌≡◌, ◌+◌};
ghost use Rattle.storage.specs.Traces.{Asked};
ghost use Rattle.ring.specs.Layout.{header_width};
ghost use Rattle.ring.specs.Headers.{header_of};
ghost use Rattle.card.specs.Reads.{ReadsUpTo};
ghost use Rattle.card.specs.Surveys.{reads_of};
ghost use Rattle.queue.specs.Handing.{kept};
ghost use Rattle.queue.specs.Opening.{Named, OnOpen, told};

use crate::fault::{QueueCall, QueueFault};
use crate::queue::{HandedBack, Queue};
use card::refusal::OpenRefusal;
use card::survey::survey;
use storage::storage::Storage;

// The same refusal, with the call beside the fault. No `From`, which could not say what call it was.
fn name_call<G>(refusal: OpenRefusal<G>) -> OpenRefusal<QueueFault<G>>
    ensures { Named refusal result }
{
    refusal.map_gone(|below| QueueFault {
        call: QueueCall::Open,
        below,
    })
}

impl<S: Storage> Queue<S> {
    // The queue that the visible bytes of a storage say. It only reads.
    pub fn open(mut storage: S) -> Result<Queue<S>, HandedBack<OpenRefusal<QueueFault<S::Gone>>, S>>
        requires { (S.Storage.means storage).in_order }
        ensures in_order { (S.Storage.means (kept result)).in_order }
        ensures does { OnOpen (S.Storage.means storage) (S.Storage.means (kept result)) result }
        ensures calls { Asked S.Storage.did (ReadsUpTo header_width) (1 + reads_of (header_of (S.Storage.means storage).visible).count (S.Storage.means storage).size result) (told result) storage (kept result) }
    {
        let head = survey(&mut storage).map_err(name_call);
        Queue::over(storage, head)
    }
}
