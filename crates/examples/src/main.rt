// Checks the tables of its input, unifies two of their nodes, or lists them. A line is a name, a colon and the table's words; the answer is printed after the name.
// A name that begins `unify A B with L lent` asks for a unification and one that begins `list with L lent` for a listing, with L words lent; they are printed after the answer.
#![tactic(auto)]

use multiset_unification::Listing;
use std::io;
use std::io::Write;
use table::{Node, Refusal};
use text::reading::read_full;
use unification::Unification;

// More bytes than the input has.
const MOST_BYTES: usize = 262144;

// More words than any table of the input has.
const MOST_WORDS: usize = 2048;

// The most words that are lent.
const MOST_LENT: usize = 2048;

// A word with one digit more. (What is beyond 32 bits is dropped.)
fn with_digit(word: u32, digit: u8) -> u32 {
    word.wrapping_mul(10)
        .wrapping_add(u32::from(digit.wrapping_sub(b'0')))
}

// Puts a word at a place, if there is room for it, and answers the next place.
fn put_word(words: &mut [u32], i: usize, word: u32) -> usize {
    if let Some(place) = words.get_mut(i) {
        *place = word;
    }
    i.saturating_add(1)
}

// Puts the words that a text spells, with anything but digits between them, into lent words, and answers how many there are. Those without room are only counted.
fn parse_words(text: &[u8], words: &mut [u32]) -> usize {
    let mut count: usize = 0;
    let mut spelt = None;
    for byte in text {
        if byte.is_ascii_digit() {
            spelt = Some(with_digit(spelt.unwrap_or(0), *byte));
        } else if let Some(word) = spelt.take() {
            count = put_word(words, count, word);
        }
    }
    match spelt {
        Some(word) => put_word(words, count, word),
        None => count,
    }
}

// Fills the words that are lent with numbers that are no nodes, all different.
fn fill(words: &mut [u32; MOST_LENT]) {
    for (i, word) in words.iter_mut().enumerate() {
        *word = 9000 + i as u32;
    }
}

fn print_refusal(out: &mut impl Write, refusal: Refusal) -> io::Result<()> {
    write!(out, ": refused {}", refusal.number())
}

fn print_checked(out: &mut impl Write, checked: Result<(), Refusal>) -> io::Result<()> {
    match checked {
        Ok(()) => write!(out, ": accepted")?,
        Err(refusal) => print_refusal(out, refusal)?,
    }
    writeln!(out)
}

fn print_unification(
    out: &mut impl Write,
    unification: Result<Unification, Refusal>,
) -> io::Result<()> {
    match unification {
        Ok(Unification::Unified) => write!(out, ": unified"),
        Ok(Unification::Clash) => write!(out, ": clash"),
        Ok(Unification::Occurs) => write!(out, ": occurs"),
        Err(refusal) => print_refusal(out, refusal),
    }
}

fn print_listing(out: &mut impl Write, listing: Result<Listing, Refusal>) -> io::Result<()> {
    match listing {
        Ok(Listing::Finished(entries)) => write!(out, ": entries {entries}"),
        Ok(Listing::Full(entries)) => write!(out, ": full {entries}"),
        Err(refusal) => print_refusal(out, refusal),
    }
}

fn print_lent(out: &mut impl Write, lent: &[u32]) -> io::Result<()> {
    if !lent.is_empty() {
        write!(out, ",")?;
    }
    for word in lent {
        write!(out, " {word}")?;
    }
    writeln!(out)
}

// Unifies two nodes of a table, and prints the answer and the lent words after it. The name has the nodes' numbers and how many words are lent.
fn answer_unification(out: &mut impl Write, name: &[u8], table: &[u32]) -> io::Result<()> {
    let mut given = [0u32; 3];
    parse_words(name, &mut given);
    let [a, b, count] = given;
    let count = count as usize;
    if count > MOST_LENT {
        return out.write_all(b": too many lent\n");
    }
    let mut words = [0u32; MOST_LENT];
    fill(&mut words);
    let lent = &mut words[..count];
    print_unification(out, unify::unify(table, Node(a), Node(b), lent))?;
    print_lent(out, lent)
}

// Lists a table, and prints the answer and the lent words after it. The name has how many words are lent.
fn answer_listing(out: &mut impl Write, name: &[u8], table: &[u32]) -> io::Result<()> {
    let mut given = [0u32; 1];
    parse_words(name, &mut given);
    let [count] = given;
    let count = count as usize;
    if count > MOST_LENT {
        return out.write_all(b": too many lent\n");
    }
    let mut words = [0u32; MOST_LENT];
    fill(&mut words);
    let lent = &mut words[..count];
    print_listing(out, listing::list(table, lent))?;
    print_lent(out, lent)
}

// Answers what a name asks of a table.
fn answer(out: &mut impl Write, name: &[u8], table: &[u32]) -> io::Result<()> {
    if name.starts_with(b"list with ") {
        return answer_listing(out, name, table);
    }
    if name.starts_with(b"unify ") {
        return answer_unification(out, name, table);
    }
    print_checked(out, checking::check(table))
}

// Prints the name of one line and the answer to it.
fn run_line(out: &mut impl Write, line: &[u8]) -> io::Result<()> {
    let colon = line.iter().position(|byte| *byte == b':');
    let (name, table) = line.split_at(colon.unwrap_or(line.len()));
    out.write_all(name)?;
    let mut words = [0u32; MOST_WORDS];
    let count = parse_words(table, &mut words);
    match words.get(..count) {
        Some(table) => answer(out, name, table),
        None => out.write_all(b": too many words\n"),
    }
}

fn run(out: &mut impl Write, input: &[u8]) -> io::Result<()> {
    for line in input.split_inclusive(|byte| *byte == b'\n') {
        run_line(out, line.strip_suffix(b"\n").unwrap_or(line))?;
    }
    Ok(())
}

fn main(rt: HostRuntime) -> io::Result<()> {
    let mut input = [0u8; MOST_BYTES];
    let n = read_full(&mut rt.reader(), &mut input)?;
    let mut out = io::writer(&rt);
    if n == MOST_BYTES {
        return writeln!(out, "too much input");
    }
    run(&mut out, &input[..n])
}
