// Writes along the ring.
ghost use Rattle.std.specs.Prelude.{◌+◌, ◌≤◌, length};
ghost use Rattle.storage.specs.Traces.{Made};
ghost use Rattle.ring.specs.Layout.{header_width};
ghost use Rattle.adding.specs.Writes.{pieces, OnLay};

use ring::header::HEADER;
use ring::place::Place;
use storage::inside::write_inside;
use storage::storage::Storage;

// Lays bytes from a place of the ring on, in up to two pieces, none of them empty. Reads are a
// function of their own, since their buffer is zeroed where the storage is gone. That the ring lies
// within the card ties the place to the storage, and so is no fact of either type.
pub fn write_along<S: Storage>(s: &mut S, place: Place, bytes: &[u8]) -> Result<(), S::Gone>
    requires in_order { (S.Storage.means s.old).in_order }
    requires ring { place.ring ≤ (S.Storage.means s.old).size }
    requires once { header_width + length bytes.now ≤ place.ring }
    ensures in_order { (S.Storage.means s.new).in_order }
    ensures does { OnLay place.ring place.at bytes.now (S.Storage.means s.old) (S.Storage.means s.new) result }
    ensures calls { Made S.Storage.did (pieces place.ring place.at bytes.now) result s.old s.new }
{
    if bytes.is_empty() {
        return Ok(());
    }
    let room = place.room();
    if bytes.len() <= room {
        return write_inside(s, place.at, bytes);
    }
    write_inside(s, place.at, &bytes[0..room])?;
    write_inside(s, HEADER, &bytes[room..])
}
