// A record behind the last one, where the ring has room for it.
ghost use Rattle.std.specs.Prelude.{ℕ, ◌+◌, ◌≤◌, List, length};
ghost use Rattle.storage.specs.Traces.{Made};
ghost use Rattle.card.specs.Held.{Held};
ghost use Rattle.adding.specs.Appends.{append_calls, OnAppend};

use crate::element::put_element;
use card::header::put_header;
use ring::head::Head;
use ring::walking::LENGTH;
use storage::storage::Storage;

// The element is settled before the header that counts it is written.
pub fn append<S: Storage>(s: &mut S, head: Head, bytes: &[u8]) -> Result<Head, S::Gone>
    requires held { (rs : List (List ℕ)) × Held head rs (S.Storage.means s.old) }
    requires short { length bytes.now ≤ 65535 }
    requires room { head.used + (4 + length bytes.now) ≤ head.header.ring }
    ensures in_order { (S.Storage.means s.new).in_order }
    ensures does { (rs : List (List ℕ)) → Held head rs (S.Storage.means s.old) → OnAppend rs bytes.now head (S.Storage.means s.old) (S.Storage.means s.new) result }
    ensures calls { Made S.Storage.did (append_calls head.header head.used bytes.now) result s.old s.new }
{
    put_element(s, head, bytes)?;
    let header = head.added_header();
    put_header(s, header)?;
    // Written out: `..head` does not take a type with ghost fields.
    Ok(Head {
        size: head.size,
        header,
        used: head.used + LENGTH + bytes.len(),
    })
}
