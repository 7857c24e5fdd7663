// A longer ring.
ghost use Rattle.std.specs.Prelude.{ℕ, ◌+◌, ◌≤◌, List};
ghost use Rattle.storage.specs.Traces.{Asked};
ghost use Rattle.ring.specs.Layout.{header_width};
ghost use Rattle.ring.specs.Headers.{RingLength};
ghost use Rattle.ring.specs.Steps.{carried};
ghost use Rattle.card.specs.Held.{Held};
ghost use Rattle.adding.specs.Copies.{copies};
ghost use Rattle.adding.specs.Grows.{GrowCall, OnGrow};

use crate::copy::copy_out;
use card::header::put_header;
use ring::head::Head;
use storage::inside::sync_inside;
use storage::storage::Storage;

// Makes the ring longer, at least twice as long. The copied bytes are settled before the header
// that counts on them is written, and the header before the old ring's bytes are used again.
pub fn grow<S: Storage>(s: &mut S, head: Head, ring: u32) -> Result<Head, S::Gone>
    requires held { (rs : List (List ℕ)) × Held head rs (S.Storage.means s.old) }
    requires length { RingLength ring }
    requires twice { head.header.ring + head.header.ring ≤ ring }
    requires fits { ring ≤ head.size }
    ensures in_order { (S.Storage.means s.new).in_order }
    ensures does { (rs : List (List ℕ)) → Held head rs (S.Storage.means s.old) → OnGrow rs ring head (S.Storage.means s.old) (S.Storage.means s.new) result }
    ensures calls { Asked S.Storage.did (GrowCall head.header ring) (copies (carried header_width head.header head.used) + 3) result s.old s.new }
{
    copy_out(s, head.header.ring as usize, head.carried())?;
    sync_inside(s)?;
    let header = head.grown_header(ring);
    put_header(s, header)?;
    // Written out: `..head` does not take a type with ghost fields.
    Ok(Head {
        size: head.size,
        header,
        used: head.used,
    })
}
