// Entries, written into the lent words one behind the other, until one does not fit.
ghost use Rattle.std.specs.Prelude.{◌≡◌, ℕ, ◌+◌, ◌-◌, ◌≤◌, ◌<◌, length, take, drop, set};
ghost use mathlib.Core.List.{List, map, flatten};
ghost use Rattle.table.specs.Limits.{max_labels};
ghost use Rattle.entries.specs.Code.Writing.{put, Writes, Block, repeated, right_entries, Least};

// An entry did not fit into the lent words.
#[derive(Clone, Copy, Debug, PartialEq, Eq)]
pub struct Full;

// Copies words into the lent words from `at` on. (Entries are short, and a call of `copy_from_slice` costs more than they do.)
fn copy(words: &[u32], out: &mut [u32], at: usize)
    requires { at + length words.now ≤ length out.old }
    ensures { out.new ≡ put at words.now out.old }
{
    for i in 0..words.len() {
        out[at + i] = words[i];
    }
}

// Copies so many of the lent words, from `from` on, to place `at` behind them.
fn copy_behind(out: &mut [u32], from: usize, count: usize, at: usize)
    requires { (from + count ≤ at) × (at + count ≤ length out.old) }
    ensures { out.new ≡ put at (take count (drop from out.old)) out.old }
{
    for i in 0..count {
        out[at + i] = out[from + i];
    }
}

// Puts a digit at place p of each of the entries in so many words.
fn put_digits(out: &mut [u32], at: usize, count: usize, width: usize, p: usize, d: usize)
    requires { (p < width) × (width ≤ length out.old) × (at + count ≤ length out.old) × (d < 4294967296) }
    ensures { (es : List (List ℕ)) → Block es width out.old at (at + count) → out.new ≡ put at (flatten (map (λ e. set e p d) es)) out.old }
{
    let mut i = p;
    while i < count {
        out[at + i] = d as u32;
        i += width;
    }
}

// Copies entries, in so many words, with another digit at place p.
fn copy_with(
    out: &mut [u32],
    width: usize,
    from: usize,
    count: usize,
    at: usize,
    p: usize,
    d: usize,
)
    requires { (p < width) × (width ≤ length out.old) × (from + count ≤ at) × (at + count ≤ length out.old) × (d < 4294967296) }
    ensures { (es : List (List ℕ)) → Block es width out.old from (from + count) → out.new ≡ put at (flatten (map (λ e. set e p d) es)) out.old }
{
    copy_behind(out, from, count, at);
    put_digits(out, at, count, width, p, d);
}

// Repeats the entries from `from` up to `to`, of so many words each, behind them, with each digit after `first` up to `last` at place p.
// Fewer words than one entry has are no entries: so a width never leads past the lent words.
pub fn repeat(
    out: &mut [u32],
    width: usize,
    from: usize,
    to: usize,
    p: usize,
    first: usize,
    last: usize,
) -> Result<usize, Full>
    requires { (0 < width) × (p < width) × (from ≤ to) × (to ≤ length out.old) × (first ≤ last) × (last < 4294967296) }
    ensures { (es : List (List ℕ)) → Block es width out.old from to → Writes (repeated p (first + 1) (last - first) es) out.old to out.new result }
{
    let count = to - from;
    if count < width {
        return Ok(to);
    }
    let mut used = to;
    for d in first + 1..=last {
        let room = out.len() - used;
        if room < count {
            copy_with(out, width, from, room / width * width, used, p, d);
            return Err(Full);
        }
        copy_with(out, width, from, count, used, p, d);
        used += count;
    }
    Ok(used)
}

// Writes an entry and, for each other string of right digits from place p up to `end`, the entry with these: a digit 0 stays, any other goes
// from 1 to k. The entry fits.
pub fn write_rights(
    k: usize,
    entry: &[u32],
    p: usize,
    end: usize,
    out: &mut [u32],
    at: usize,
) -> Result<usize, Full>
    requires k_le_max_labels { (k ≤ max_labels) × (p ≤ end) × (end ≤ length entry.now) × (at + length entry.now ≤ length out.old) }
    requires nonzero { (0 < length entry.now) × Least k entry.now p end }
    ensures { Writes (right_entries k entry.now p end) out.old at out.new result }
{
    copy(entry, out, at);
    let mut used = at + entry.len();
    if k < 2 {
        return Ok(used);
    }
    for q in (p..end).rev() {
        if entry[q] != 0 {
            used = repeat(out, entry.len(), at, used, q, 1, k)?;
        }
    }
    Ok(used)
}
