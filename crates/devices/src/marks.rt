// Torn marks in lent memory.
ghost use Rattle.std.specs.Prelude.{◌≡◌, ◌+◌, ◌≤◌, length};
ghost use Rattle.devices.specs.Marks.{Torn};
ghost use Rattle.storage.specs.Sizes.{cell_width};
ghost use Rattle.storage.specs.Standing.{marked};

use storage::sizes::CELL;

fn tear(torn: &mut [bool], from: usize, to: usize)
    requires from { from ≤ to }
    requires to { to ≤ length torn.old }
    ensures { Torn from to torn.old torn.new }
{
    torn[from..to].fill(true);
}

// Only the first and the last cell of a range can be covered in part.
pub fn mark(torn: &mut [bool], from: usize, count: usize)
    requires { from + count ≤ length torn.old }
    ensures { torn.new ≡ marked cell_width from count torn.old }
{
    let to = from + count;
    let first_whole = (from + (CELL - 1)) / CELL * CELL;
    tear(torn, from, to.min(first_whole));
    let last_whole = to / CELL * CELL;
    tear(torn, from.max(last_whole), to);
}
