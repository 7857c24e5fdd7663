// The header of a card, read and written.
ghost use Rattle.std.specs.Prelude.{[], ◌∷◌};
ghost use Rattle.storage.specs.Calls.{Writing, Syncing};
ghost use Rattle.storage.specs.Traces.{Made, Asked};
ghost use Rattle.ring.specs.Layout.{header_width};
ghost use Rattle.ring.specs.Headers.{cell};
ghost use Rattle.card.specs.Reads.{ReadsUpTo};
ghost use Rattle.card.specs.Headers.{OnHeader, OnPut};

use ring::header::{HEADER, Header};
use storage::inside::{read_inside, sync_inside, write_inside};
use storage::storage::Storage;

pub fn read_header<S: Storage>(s: &mut S) -> Result<Header, S::Gone>
    requires { (S.Storage.means s.old).in_order }
    ensures in_order { (S.Storage.means s.new).in_order }
    ensures does { OnHeader (S.Storage.means s.old) (S.Storage.means s.new) result }
    ensures calls { Asked S.Storage.did (ReadsUpTo header_width) 1 result s.old s.new }
{
    let mut cell = [0u8; HEADER];
    read_inside(s, 0, &mut cell)?;
    Ok(Header::parse(&cell).unwrap())
}

// Writes a header in one piece, so that it arrives whole or not at all, and settles it.
pub fn put_header<S: Storage>(s: &mut S, header: Header) -> Result<(), S::Gone>
    requires { (S.Storage.means s.old).in_order }
    ensures in_order { (S.Storage.means s.new).in_order }
    ensures does { OnPut (cell header) (S.Storage.means s.old) (S.Storage.means s.new) result }
    ensures calls { Made S.Storage.did (Writing 0 (cell header) ∷ Syncing ∷ []) result s.old s.new }
{
    write_inside(s, 0, &header.cell())?;
    sync_inside(s)
}
