// The bytes that came round the ring's end, copied behind the ring.
ghost use Rattle.std.specs.Prelude.{◌≡◌, ◌+◌, ◌≤◌, length};
ghost use Rattle.storage.specs.Traces.{Asked};
ghost use Rattle.ring.specs.Layout.{header_width};
ghost use Rattle.adding.specs.Copies.{piece, copies, CopyCall, OnCopy};

use ring::header::HEADER;
use storage::inside::{read_inside, write_inside};
use storage::storage::Storage;

// The bytes that are copied at a time.
pub const PIECE: usize = 512;

// Each step asks that its source ends before its target, and that within the card: both tie numbers
// to the storage, and so are no fact of a type.

// Copies as many bytes as the buffer holds.
fn copy_through<S: Storage>(
    s: &mut S,
    from: usize,
    to: usize,
    buf: &mut [u8],
) -> Result<(), S::Gone>
    requires in_order { (S.Storage.means s.old).in_order }
    requires few { length buf.old ≤ piece }
    requires source { from + length buf.old ≤ to }
    requires target { to + length buf.old ≤ (S.Storage.means s.old).size }
    ensures in_order { (S.Storage.means s.new).in_order }
    ensures does { OnCopy from to (length buf.old) (S.Storage.means s.old) (S.Storage.means s.new) result }
    ensures calls { Asked S.Storage.did (CopyCall to) 2 result s.old s.new }
{
    read_inside(s, from, buf)?;
    write_inside(s, to, buf)
}

fn copy_piece<S: Storage>(s: &mut S, from: usize, to: usize, n: usize) -> Result<(), S::Gone>
    requires in_order { (S.Storage.means s.old).in_order }
    requires few { n ≤ piece }
    requires source { from + n ≤ to }
    requires target { to + n ≤ (S.Storage.means s.old).size }
    ensures in_order { (S.Storage.means s.new).in_order }
    ensures does { OnCopy from to n (S.Storage.means s.old) (S.Storage.means s.new) result }
    ensures calls { Asked S.Storage.did (CopyCall to) 2 result s.old s.new }
{
    let mut buf = [0u8; PIECE];
    copy_through(s, from, to, &mut buf[0..n])
}

// Copies the first n bytes behind the header to the end of the ring, a piece at a time.
pub fn copy_out<S: Storage>(s: &mut S, ring: usize, n: usize) -> Result<(), S::Gone>
    requires in_order { (S.Storage.means s.old).in_order }
    requires source { header_width + n ≤ ring }
    requires target { ring + n ≤ (S.Storage.means s.old).size }
    ensures in_order { (S.Storage.means s.new).in_order }
    ensures does { OnCopy header_width ring n (S.Storage.means s.old) (S.Storage.means s.new) result }
    ensures calls { Asked S.Storage.did (CopyCall ring) (copies n) result s.old s.new }
{
    for done in (0..n).step_by(PIECE) {
        let k = (n - done).min(PIECE);
        copy_piece(s, HEADER + done, ring + done, k)?;
    }
    Ok(())
}
