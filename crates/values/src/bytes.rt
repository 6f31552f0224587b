// Bytes put into others.
ghost use Rattle.std.specs.Prelude.{◌≡◌, ◌++◌, ◌+◌, ◌≤◌, length, take, drop};

// Puts bytes at a place.
pub fn put_bytes(from: &[u8], to: &mut [u8], at: usize)
    requires { at + length from.now ≤ length to.old }
    ensures { to.new ≡ take at to.old ++ from.now ++ drop (at + length from.now) to.old }
{
    let n = from.len();
    to[at..at + n].copy_from_slice(from);
}
