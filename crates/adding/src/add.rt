// Adding a record.
ghost use Rattle.std.specs.Prelude.{ℕ, ◌+◌, ◌≤◌, List, length};
ghost use Rattle.ring.specs.Steps.{largest_ring};
ghost use Rattle.card.specs.Held.{Held};
ghost use Rattle.adding.specs.Adds.{AddCalls, OnFit, OnAdd, OnAddCalls};

use crate::append::append;
use crate::grow::grow;
use crate::refusal::AddRefusal;
use ring::head::Head;
use ring::steps::{grown_length, largest_ring};
use ring::walking::LENGTH;
use storage::storage::Storage;

// The longest record that an add accepts.
pub const LONGEST_ADDED: usize = 65_535;

// Adds a record for which the card has room; the ring grows first if it is too short.
fn add_fitting<S: Storage>(s: &mut S, head: Head, bytes: &[u8]) -> Result<Head, S::Gone>
    requires held { (rs : List (List ℕ)) × Held head rs (S.Storage.means s.old) }
    requires short { length bytes.now ≤ 65535 }
    requires room { head.used + (4 + length bytes.now) ≤ largest_ring head.size }
    ensures in_order { (S.Storage.means s.new).in_order }
    ensures does { (rs : List (List ℕ)) → Held head rs (S.Storage.means s.old) → OnFit rs bytes.now head (S.Storage.means s.old) (S.Storage.means s.new) result }
    ensures calls { AddCalls S.Storage.did head.header head.used bytes.now result s.old s.new }
{
    let need = head.used + LENGTH + bytes.len();
    if need <= head.header.ring as usize {
        return append(s, head, bytes);
    }
    // A ring's length is a 32-bit number, so it fits.
    let head = grow(s, head, grown_length(head.header.ring, need) as u32)?;
    append(s, head, bytes)
}

// Adds a record behind the last one. What is declined without a call leaves all as it was.
pub fn add<S: Storage>(s: &mut S, head: Head, bytes: &[u8]) -> Result<Head, AddRefusal<S::Gone>>
    requires { (rs : List (List ℕ)) × Held head rs (S.Storage.means s.old) }
    ensures in_order { (S.Storage.means s.new).in_order }
    ensures does { (rs : List (List ℕ)) → Held head rs (S.Storage.means s.old) → OnAdd rs bytes.now head (S.Storage.means s.old) (S.Storage.means s.new) result }
    ensures calls { OnAddCalls S.Storage.did head.header head.used bytes.now s.old s.new result }
{
    let n = bytes.len();
    if n > LONGEST_ADDED {
        return Err(AddRefusal::TooLong(n));
    }
    if head.used + LENGTH + n > largest_ring(head.size) {
        return Err(AddRefusal::Full(LENGTH + n));
    }
    add_fitting(s, head, bytes).map_err(AddRefusal::Gone)
}
