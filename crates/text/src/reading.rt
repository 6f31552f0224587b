// Bytes, as a reader gives them.
ghost use Rattle.std.specs.Prelude.{◌≡◌, ◌≤◌, length, take, IfOk, IfSome};

use std::io;
use std::io::{ErrorKind, Read};

// Reads until the bytes are full or the input ends, and answers how many were read. A read that is interrupted is tried again.
pub fn read_full<R: Read>(input: &mut R, bytes: &mut [u8]) -> io::Result<usize>
    ensures { IfOk result (λ n. (n ≤ length bytes.new) × IfSome (R.remaining input.old) (λ xs. take n bytes.new ≡ take (length bytes.old) xs)) }
{
    let mut n: usize = 0;
    // A loop is proved to end, so this one counts its turns.
    for _ in 0..u64::MAX {
        if n == bytes.len() {
            return Ok(n);
        }
        match input.read(&mut bytes[n..]) {
            Ok(0) => return Ok(n),
            Ok(more) => n += more,
            Err(e) if e.kind() == ErrorKind::Interrupted => {}
            Err(e) => return Err(e),
        }
    }
    Err(ErrorKind::TimedOut.into())
}
