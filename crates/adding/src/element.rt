// An element behind the last one.
ghost use Rattle.std.specs.Prelude.{◌≡◌, ◌+◌, ◌≤◌, length};
ghost use Rattle.storage.specs.Traces.{Made};
ghost use Rattle.adding.specs.Elements.{element_calls, OnElement};

use crate::writes::write_along;
use ring::head::Head;
use ring::walking::LENGTH;
use storage::inside::sync_inside;
use storage::storage::Storage;

// Writes the length and the bytes of a record behind the last element, and settles them. That the
// record is short is checked once, in `add`; a type that says it would be taken apart in each step.
pub fn put_element<S: Storage>(s: &mut S, head: Head, bytes: &[u8]) -> Result<(), S::Gone>
    requires in_order { (S.Storage.means s.old).in_order }
    requires sized { head.size ≡ (S.Storage.means s.old).size }
    requires short { length bytes.now ≤ 65535 }
    requires room { head.used + (4 + length bytes.now) ≤ head.header.ring }
    ensures in_order { (S.Storage.means s.new).in_order }
    ensures does { OnElement head.header head.used bytes.now (S.Storage.means s.old) (S.Storage.means s.new) result }
    ensures calls { Made S.Storage.did (element_calls head.header head.used bytes.now) result s.old s.new }
{
    let end = head.end_place();
    let field = (bytes.len() as u32).to_be_bytes();
    write_along(s, end, &field)?;
    write_along(s, end.behind(LENGTH), bytes)?;
    sync_inside(s)
}
