// The card of the empty queue.
ghost use Rattle.std.specs.Prelude.{[], ◌∷◌};
ghost use Rattle.storage.specs.Calls.{Writing, Syncing};
ghost use Rattle.storage.specs.Traces.{Made};
ghost use Rattle.ring.specs.Headers.{cell};
ghost use Rattle.ring.specs.Steps.{empty_header};
ghost use Rattle.card.specs.Erasing.{OnErase};

use crate::header::put_header;
use ring::head::Head;
use ring::header::{HEADER, Header};
use storage::storage::Storage;

// Writes the header of the empty queue in the shortest ring; the rest of the card stays.
pub fn erase<S: Storage>(s: &mut S) -> Result<Head, S::Gone>
    requires { (S.Storage.means s.old).in_order }
    ensures in_order { (S.Storage.means s.new).in_order }
    ensures does { OnErase (S.Storage.means s.old) (S.Storage.means s.new) result }
    ensures calls { Made S.Storage.did (Writing 0 (cell empty_header) ∷ Syncing ∷ []) result s.old s.new }
{
    put_header(s, Header::EMPTY)?;
    Ok(Head {
        size: s.size(),
        header: Header::EMPTY,
        used: HEADER,
    })
}
