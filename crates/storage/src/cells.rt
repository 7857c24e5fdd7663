// Bytes copied into a range and out of it.
ghost use Rattle.std.specs.Prelude.{◌≡◌, ◌+◌, ◌≤◌, length};
ghost use Rattle.storage.specs.Cells.{laid, part};

pub fn lay(all: &mut [u8], from: usize, bytes: &[u8])
    requires { from + length bytes.now ≤ length all.old }
    ensures { all.new ≡ laid from bytes.now all.old }
{
    all[from..from + bytes.len()].copy_from_slice(bytes);
}

pub fn fetch(all: &[u8], from: usize, buf: &mut [u8])
    requires { from + length buf.old ≤ length all.now }
    ensures { buf.new ≡ part from (length buf.old) all.now }
{
    buf.copy_from_slice(&all[from..from + buf.len()]);
}
