// Formatting a card.
ghost use Rattle.std.specs.Prelude.{◌≡◌, [], ◌∷◌};
ghost use Rattle.storage.specs.Calls.{Writing, Syncing};
ghost use Rattle.storage.specs.Traces.{Made};
ghost use Rattle.ring.specs.Headers.{cell};
ghost use Rattle.ring.specs.Steps.{empty_header};
ghost use Rattle.queue.specs.Handing.{kept};
ghost use Rattle.queue.specs.Formatting.{OnFormat, heard};

use crate::fault::{QueueCall, QueueFault};
use crate::queue::{HandedBack, Queue};
use card::erase::erase;
use storage::storage::Storage;

impl<S: Storage> Queue<S> {
    // Writes the header of the empty queue, and settles it; the bytes behind it stay.
    pub fn format(mut storage: S) -> Result<Queue<S>, HandedBack<QueueFault<S::Gone>, S>>
        requires { (S.Storage.means storage).in_order }
        ensures in_order { (S.Storage.means (kept result)).in_order }
        ensures does { OnFormat (S.Storage.means storage) (S.Storage.means (kept result)) result }
        ensures calls { Made S.Storage.did (Writing 0 (cell empty_header) ∷ Syncing ∷ []) (heard result) storage (kept result) }
    {
        let head = erase(&mut storage).map_err(|below| QueueFault {
            call: QueueCall::Format,
            below,
        });
        Queue::over(storage, head)
    }
}
