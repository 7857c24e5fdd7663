// A queue: its head, and the storage that it is on.
ghost use Rattle.std.specs.Prelude.{◌≡◌};
ghost use Rattle.queue.specs.Handing.{Handed};

use ring::head::Head;

#[derive(Drop)]
pub struct Queue<S> {
    storage: S,
    head: Head,
}

// Why a card was declined, and its storage, which is handed back.
#[derive(Debug, Drop)]
pub struct HandedBack<E, S> {
    pub why: E,
    pub storage: S,
}

impl<S> Queue<S> {
    // The queue with the head that was found, or the storage handed back.
    pub(crate) fn over<E>(storage: S, found: Result<Head, E>) -> Result<Queue<S>, HandedBack<E, S>>
        ensures { Handed storage found result }
    {
        match found {
            Ok(head) => Ok(Queue { storage, head }),
            Err(why) => Err(HandedBack { why, storage }),
        }
    }

    // How many records there are, as of the last completed call.
    pub fn count(&self) -> usize
        ensures { result ≡ self.now.head.header.count }
    {
        self.head.header.count as usize
    }

    // The storage, as the last call left it.
    pub fn close(self) -> S
        ensures { result ≡ self.storage }
    {
        self.storage
    }
}
