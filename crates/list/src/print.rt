// What the program prints, written into lent bytes.
ghost use Rattle.std.specs.Prelude.{◌++◌, ◌≡◌, ◌≤◌, length, take};
ghost use Rattle.text.specs.Line.{lines, titled};
ghost use Rattle.list.specs.Printed.{printed_table, printed};
ghost use Rattle.text.specs.Code.Writing.{Wrote, parts};
ghost use Rattle.list.specs.Code.Printing.{most_printed, Printable};

use listing::entry_words;
use multiset_unification::Listing;
use text::input::{read_words, wrong_bytes};
use text::lines::{write_lines, write_title};

// "lends 16,384 words"
pub const LENT: usize = 16384;

// As many words as the most bytes make.
pub const MAX_WORDS: usize = 1572;

// The most bytes that are printed: each of the lent words has 10 digits at most and one byte after it, and the title 19 bytes.
pub const MAX_PRINTED: usize = 180243;

// Writes a title with a number of entries, and then the entries, which lie one after the other in the words.
fn write_entries(text: &[u8], count: usize, words: &[u32], width: usize, out: &mut [u8]) -> usize
    requires { (length text.now ≤ 8) × Printable width count words.now × (most_printed ≤ length out.old) }
    ensures { Wrote out.old 0 (titled text.now count ++ lines (parts width count words.now)) out.new result }
{
    let next = write_title(text, count as u32, out, 0);
    write_lines(words, width, count, out, next)
}

// Lists a table into lent words, and writes what is printed for it.
fn print_listing(table: &[u32], lent: &mut [u32], out: &mut [u8]) -> usize
    requires { (length lent.old ≡ 16384) × (most_printed ≤ length out.old) }
    ensures { Wrote out.old 0 (printed_table table.now) out.new result }
{
    let width = entry_words(table);
    match listing::list(table, lent) {
        Err(refusal) => write_title(b"refused ", refusal.number(), out, 0),
        Ok(Listing::Full(count)) => write_entries(b"full ", count, lent, width, out),
        Ok(Listing::Finished(count)) => write_entries(b"entries ", count, lent, width, out),
    }
}

// Writes what is printed for a table.
fn print_table(table: &[u32], out: &mut [u8]) -> usize
    requires { most_printed ≤ length out.old }
    ensures { Wrote out.old 0 (printed_table table.now) out.new result }
{
    let mut lent = [0u32; LENT];
    print_listing(table, &mut lent, out)
}

// Writes what is printed for an input, and answers how many bytes it is.
pub fn print(input: &[u8], out: &mut [u8]) -> usize
    requires { most_printed ≤ length out.old }
    ensures { (result ≤ length out.new) × (take result out.new ≡ printed input.now) }
{
    if wrong_bytes(input.len()) {
        return write_title(b"refused ", 11, out, 0);
    }
    let mut table = [0u32; MAX_WORDS];
    let n = read_words(input, &mut table);
    print_table(&table[0..n], out)
}
