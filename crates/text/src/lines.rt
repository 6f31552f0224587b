// Numbers and lines, written as bytes.
ghost use Rattle.std.specs.Prelude.{[], ◌∷◌, ◌+◌, ◌*◌, ◌≤◌, ◌<◌, length, drop};
ghost use Rattle.text.specs.Line.{decimal, after_word, line, lines, titled};
ghost use Rattle.text.specs.Code.Writing.{Wrote, parts};

// Writes one byte at a place.
fn write_byte(byte: u8, out: &mut [u8], at: usize) -> usize
    requires { at < length out.old }
    ensures { Wrote out.old at (byte ∷ []) out.new result }
{
    out[at] = byte;
    at + 1
}

// Writes a number in decimal.
fn write_decimal(n: u32, out: &mut [u8], at: usize) -> usize
    requires { at + length (decimal n) ≤ length out.old }
    ensures { Wrote out.old at (decimal n) out.new result }
{
    let last = b'0' + (n % 10) as u8;
    if n < 10 {
        return write_byte(last, out, at);
    }
    let next = write_decimal(n / 10, out, at);
    write_byte(last, out, next)
}

// Writes a text as it stands.
fn write_text(text: &[u8], out: &mut [u8], at: usize) -> usize
    requires { at + length text.now ≤ length out.old }
    ensures { Wrote out.old at text.now out.new result }
{
    let mut next = at;
    for i in 0..text.len() {
        next = write_byte(text[i], out, next);
    }
    next
}

// Writes a word behind another: a blank, and the word.
fn write_next(word: u32, out: &mut [u8], at: usize) -> usize
    requires { at + length (32 ∷ decimal word) ≤ length out.old }
    ensures { Wrote out.old at (32 ∷ decimal word) out.new result }
{
    let next = write_byte(b' ', out, at);
    write_decimal(word, out, next)
}

// Writes what stands after the first word of a line: the others, and the line feed.
fn write_rest(words: &[u32], out: &mut [u8], at: usize) -> usize
    requires { at + length (after_word (drop 1 words.now)) ≤ length out.old }
    ensures { Wrote out.old at (after_word (drop 1 words.now)) out.new result }
{
    let mut next = at;
    for i in 1..words.len() {
        next = write_next(words[i], out, next);
    }
    write_byte(b'\n', out, next)
}

// Writes words as a line.
fn write_line(words: &[u32], out: &mut [u8], at: usize) -> usize
    requires { at + length (line words.now) ≤ length out.old }
    ensures { Wrote out.old at (line words.now) out.new result }
{
    if words.len() == 0 {
        return write_byte(b'\n', out, at);
    }
    let next = write_decimal(words[0], out, at);
    write_rest(words, out, next)
}

// Writes a title: a text, a number and a line feed.
pub fn write_title(text: &[u8], n: u32, out: &mut [u8], at: usize) -> usize
    requires { at + length (titled text.now n) ≤ length out.old }
    ensures { Wrote out.old at (titled text.now n) out.new result }
{
    let number = write_text(text, out, at);
    let end = write_decimal(n, out, number);
    write_byte(b'\n', out, end)
}

// Writes the first `count` parts of words as lines, each of `width` words.
pub fn write_lines(words: &[u32], width: usize, count: usize, out: &mut [u8], at: usize) -> usize
    requires count_in_bounds { width * count ≤ length words.now }
    requires words_in_bounds { at + length (lines (parts width count words.now)) ≤ length out.old }
    ensures { Wrote out.old at (lines (parts width count words.now)) out.new result }
{
    let mut next = at;
    let mut from: usize = 0;
    for i in 0..count {
        let to = from + width;
        next = write_line(&words[from..to], out, next);
        from = to;
    }
    next
}
