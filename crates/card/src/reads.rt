// Reads along the ring.
ghost use Rattle.std.specs.Prelude.{◌+◌, ◌≤◌, length};
ghost use Rattle.ring.specs.Layout.{header_width};
ghost use Rattle.storage.specs.Traces.{Asked};
ghost use Rattle.card.specs.Reads.{ReadsUpTo, OnAlong, OnNumber, OnTwo};

use ring::header::HEADER;
use ring::place::Place;
use storage::inside::read_inside;
use storage::storage::Storage;

// The first `room` bytes from the offset `at` on, the others from the ring's start on.
fn read_two<S: Storage>(s: &mut S, at: usize, room: usize, buf: &mut [u8]) -> Result<(), S::Gone>
    requires in_order { (S.Storage.means s.old).in_order }
    requires within { room ≤ length buf.old }
    requires front { at + room ≤ (S.Storage.means s.old).size }
    requires back { header_width + length buf.old ≤ (S.Storage.means s.old).size }
    ensures in_order { (S.Storage.means s.new).in_order }
    ensures does { OnTwo at room buf.old buf.new (S.Storage.means s.old) (S.Storage.means s.new) result }
    ensures calls { Asked S.Storage.did (ReadsUpTo (length buf.old)) 2 result s.old s.new }
{
    read_inside(s, at, &mut buf[0..room])?;
    read_inside(s, HEADER, &mut buf[room..])
}

// Each asks that the ring lies within the card: that ties the place to the storage, and so is no
// fact of either type.

// The bytes from a place of the ring on, in up to two pieces, none of them empty. Where the
// storage is gone, the buffer is all zeros.
pub fn read_along<S: Storage>(s: &mut S, place: Place, buf: &mut [u8]) -> Result<(), S::Gone>
    requires in_order { (S.Storage.means s.old).in_order }
    requires ring { place.ring ≤ (S.Storage.means s.old).size }
    requires once { header_width + length buf.old ≤ place.ring }
    ensures in_order { (S.Storage.means s.new).in_order }
    ensures does { OnAlong place.ring place.at buf.old buf.new (S.Storage.means s.old) (S.Storage.means s.new) result }
    ensures calls { Asked S.Storage.did (ReadsUpTo (length buf.old)) 2 result s.old s.new }
{
    if buf.is_empty() {
        return Ok(());
    }
    let room = place.room();
    if buf.len() <= room {
        return read_inside(s, place.at, buf);
    }
    // Not by `inspect_err`, after which a proof knows nothing of the buffer.
    let read = read_two(s, place.at, room, buf);
    if read.is_err() {
        buf.fill(0);
    }
    read
}

// The number at a place of the ring, where the ring has room for one.
pub fn read_number<S: Storage>(s: &mut S, place: Place) -> Result<u32, S::Gone>
    requires in_order { (S.Storage.means s.old).in_order }
    requires ring { place.ring ≤ (S.Storage.means s.old).size }
    requires once { header_width + 4 ≤ place.ring }
    ensures in_order { (S.Storage.means s.new).in_order }
    ensures does { OnNumber place.ring place.at (S.Storage.means s.old) (S.Storage.means s.new) result }
    ensures calls { Asked S.Storage.did (ReadsUpTo 4) 2 result s.old s.new }
{
    let mut field = [0u8; 4];
    read_along(s, place, &mut field)?;
    Ok(u32::from_be_bytes(field))
}
