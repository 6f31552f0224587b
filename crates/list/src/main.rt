// The program `list`: lists the unifiers of the two sides of the table on its standard input.
#![tactic(auto)]

ghost use Rattle.std.specs.Prelude.{IfSome, OnOk};
ghost use Rattle.std.specs.Io.KnownBytes.{Appends};
ghost use Rattle.list.specs.Printed.{printed};

use print::{MAX_PRINTED, print};
use std::io;
use std::io::{Read, Write};
use text::input::MAX_BYTES;
use text::reading::read_full;

// What is printed for an input: `print`.
mod print;

// One byte more than are accepted is enough to see that there are too many.
const READ: usize = MAX_BYTES + 1;

// Writes what is printed for an input.
fn run<R: Read, W: Write>(input: &mut R, output: &mut W) -> io::Result<()>
    ensures { OnOk result (IfSome (R.remaining input.old) (λ xs. Appends (W.contents output.old) (W.contents output.new) (printed xs))) }
{
    let mut bytes = [0u8; READ];
    let n = read_full(input, &mut bytes)?;
    let mut out = [0u8; MAX_PRINTED];
    let printed = print(&bytes[0..n], &mut out);
    output.write_all(&out[0..printed])
}

fn main(rt: HostRuntime) -> io::Result<()> {
    run(&mut rt.reader(), &mut io::writer(&rt))
}
