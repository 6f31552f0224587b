// The walk over the choices: depth first over left digits, each pair on top of the pairs before it. A branch ends at its first pair that fails.
// The branch stands in an entry: the digits of the left terms so far, and a mark for each right term, 0 where it is paired. What goes along
// with it: what is known before the walk (`known`), what can still be completed (`can`), and the classes of its pairs (`heads`, `next`).
// Below a label the entries are the same but for its digit, so that the first label is walked, and the others are copied.
ghost use Rattle.std.specs.Prelude.{◌≡◌, ℕ, ◌<◌, ◌≤◌, length};
ghost use Rattle.nodes.specs.Code.Formed.{Formed};
ghost use Rattle.branches.specs.Code.Known.{left_count, right_count, width_in, KnownOf};
ghost use Rattle.branches.specs.Code.Walk.{Walking, Walked, Stepped, SteppedFrom, Ending, Binds};

use binding::words::bind;
use branches::known::{
    EVERY, LEFT_COUNT, LEFT_LABELS, LIST, OPEN_COUNT, OPENS, RIGHT_COUNT, RIGHT_LABELS, ROWS,
    VARIABLE_COUNT, WIDTH,
};
use branches::{branch, known};
use classes::trail::{GONE, undo};
use entries::writing;
use entries::writing::Full;

// Where a walk stands: the left term whose digit is next, the least digit to try, and the set of right terms that are paired.
#[derive(Clone, Copy)]
pub struct Position {
    pub term: usize,
    pub least: usize,
    pub paired: usize,
}

// Puts the binding words of the pairs behind the digits of an entry.
fn put_words(nodes: &[u32], arguments: &[u32], known: &[u8], heads: &[u8], entry: &mut [u32])
    requires known_of { KnownOf nodes.now arguments.now known.now × Formed nodes.now arguments.now known.now heads.now }
    requires len { length entry.old ≡ width_in known.now }
    ensures { Binds nodes.now arguments.now known.now heads.now entry.old entry.new }
{
    let end = entry.len();
    let words = known::at(known, LEFT_COUNT) + known::at(known, RIGHT_COUNT);
    if words == end {
        return;
    }
    let opens_end = OPENS + known::at(known, OPEN_COUNT);
    let list_end = LIST + known::at(known, VARIABLE_COUNT);
    bind(
        nodes,
        arguments,
        known,
        &known[OPENS..opens_end],
        &known[LIST..list_end],
        heads,
        &mut entry[words..end],
    );
}

// Writes the entries of a branch in which every left term has its digit: one for each string of right digits, all with the same binding words.
fn write_leaf(
    nodes: &[u32],
    arguments: &[u32],
    known: &[u8],
    heads: &[u8],
    entry: &mut [u32],
    out: &mut [u32],
    paired: usize,
    at: usize,
) -> Result<usize, Full>
    requires { Ending nodes.now arguments.now known.now heads.now entry.old out.old paired at }
    ensures { (least : ℕ) → Walked nodes.now arguments.now known.now heads.now entry.old out.old (left_count known.now) least at entry.new out.new result }
{
    let k = known::at(known, LEFT_LABELS);
    if (k == 0) & (paired != known::at(known, EVERY)) {
        return Ok(at);
    }
    if out.len() - at < entry.len() {
        return Err(Full);
    }
    put_words(nodes, arguments, known, heads, entry);
    let n = known::at(known, LEFT_COUNT);
    writing::write_rights(k, entry, n, n + known::at(known, RIGHT_COUNT), out, at)
}

// Writes the entries of a branch whose next left term takes the right term that digit `least` counts to, if it may.
// The classes are as before.
#[cycle(walk_walk_labels_walk_pair)]
fn walk_pair(
    nodes: &[u32],
    arguments: &[u32],
    known: &[u8],
    can: &[u64],
    heads: &mut [u8],
    next: &mut [u8],
    entry: &mut [u32],
    out: &mut [u32],
    position: Position,
    at: usize,
) -> Result<usize, Full>
    requires walking { Walking nodes.now arguments.now known.now can.now heads.old next.old entry.old out.old position.term position.least position.paired at }
    requires term_bound { (position.term < left_count known.now) × (position.least ≤ right_count known.now) }
    ensures stepped { Stepped nodes.now arguments.now known.now heads.old entry.old out.old position.term position.least at entry.new out.new result }
    ensures heads_unchanged { (heads.new ≡ heads.old) × (next.new ≡ next.old) }
{
    let i = position.term;
    let d = position.least;
    let paired = position.paired;
    if !branch::is_open(known, can, i, d, paired) {
        return Ok(at);
    }
    let mark = next[GONE];
    if !branch::join_pair(nodes, arguments, known, heads, next, i, d) {
        return Ok(at);
    }
    branch::put_pair(known, entry, i, d);
    let used = walk(
        nodes,
        arguments,
        known,
        can,
        heads,
        next,
        entry,
        out,
        Position {
            term: i + 1,
            least: 1,
            paired: branch::with_pair(paired, d),
        },
        at,
    );
    branch::put_back(known, entry, d);
    undo(heads, next, mark);
    used
}

// Writes the entries of a branch whose next left term is in a label, with a digit from `least` on: those of the first are walked, and repeated
// for the others.
#[cycle(walk_walk_labels_walk_pair)]
fn walk_labels(
    nodes: &[u32],
    arguments: &[u32],
    known: &[u8],
    can: &[u64],
    heads: &mut [u8],
    next: &mut [u8],
    entry: &mut [u32],
    out: &mut [u32],
    position: Position,
    at: usize,
) -> Result<usize, Full>
    requires walking { Walking nodes.now arguments.now known.now can.now heads.old next.old entry.old out.old position.term position.least position.paired at }
    requires term_bound { (position.term < left_count known.now) × (right_count known.now < position.least) }
    ensures stepped_from { SteppedFrom nodes.now arguments.now known.now heads.old entry.old out.old position.term position.least at entry.new out.new result }
    ensures heads_unchanged { (heads.new ≡ heads.old) × (next.new ≡ next.old) }
{
    let i = position.term;
    let d = position.least;
    let paired = position.paired;
    let last = known::at(known, RIGHT_COUNT) + known::at(known, RIGHT_LABELS);
    if last < d {
        return Ok(at);
    }
    if !branch::can_complete(can, i, paired) {
        return Ok(at);
    }
    branch::put_digit(entry, i, d);
    let used = walk(
        nodes,
        arguments,
        known,
        can,
        heads,
        next,
        entry,
        out,
        Position {
            term: i + 1,
            least: 1,
            paired,
        },
        at,
    )?;
    if d == last {
        return Ok(used);
    }
    writing::repeat(out, known::at(known, WIDTH), at, used, i, d, last)
}

// Writes the entries below a branch in which the first left terms have their digits, and the next has one from `least` on.
#[cycle(walk_walk_labels_walk_pair)]
pub fn walk(
    nodes: &[u32],
    arguments: &[u32],
    known: &[u8],
    can: &[u64],
    heads: &mut [u8],
    next: &mut [u8],
    entry: &mut [u32],
    out: &mut [u32],
    position: Position,
    at: usize,
) -> Result<usize, Full>
    requires { Walking nodes.now arguments.now known.now can.now heads.old next.old entry.old out.old position.term position.least position.paired at }
    ensures walked { Walked nodes.now arguments.now known.now heads.old entry.old out.old position.term position.least at entry.new out.new result }
    ensures heads_unchanged { (heads.new ≡ heads.old) × (next.new ≡ next.old) }
{
    let i = position.term;
    let paired = position.paired;
    if i == known::at(known, LEFT_COUNT) {
        return write_leaf(nodes, arguments, known, heads, entry, out, paired, at);
    }
    let m = known::at(known, RIGHT_COUNT);
    let mut used = at;
    for d in position.least..=m {
        used = walk_pair(
            nodes,
            arguments,
            known,
            can,
            heads,
            next,
            entry,
            out,
            Position {
                term: i,
                least: d,
                paired,
            },
            used,
        )?;
    }
    walk_labels(
        nodes,
        arguments,
        known,
        can,
        heads,
        next,
        entry,
        out,
        Position {
            term: i,
            least: position.least.max(m + 1),
            paired,
        },
        used,
    )
}
