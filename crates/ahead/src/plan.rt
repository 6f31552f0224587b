// What can still be completed: a bit for each left term and each set of paired right terms, four words a left term.
ghost use Rattle.std.specs.Prelude.{◌≡◌, true, not, ◌+◌, ◌-◌, ◌*◌, ◌/◌, ◌≤◌, ◌<◌, eqb, length};
ghost use Rattle.table.specs.Layout.{word};
ghost use Rattle.branches.specs.Code.Known.{left_count, right_labels, every_in};
ghost use Rattle.ahead.specs.Code.Plan.{WithSets, SetsBefore, FillsRow, Sized, CompletableFrom, Ready, EndsRow, FillsRows, Plans};

use branches::known;
use branches::known::{EVERY, LEFT_COUNT, LEFT_LABELS, RIGHT_LABELS, ROWS};

// Sets with others, if they may be.
fn with_sets(sets: u64, more: u64, may: bool) -> u64
    ensures { WithSets sets more may result }
{
    if may {
        return sets | more;
    }
    sets
}

// The sets of one word.
fn sets_before(can: &[u64], t: usize, x: usize, row: usize, stay: bool) -> u64
    requires { (t + 4 ≤ length can.now) × (x < 4) × (row < 256) }
    ensures { SetsBefore can.now t x row 8 stay result }
{
    let s = can[t + x];
    let a = with_sets(0, s, stay);
    let b = with_sets(a, (s >> 1) & 0x5555555555555555, row % 2 == 1);
    let c = with_sets(b, (s >> 2) & 0x3333333333333333, row / 2 % 2 == 1);
    if row < 4 {
        return c;
    }
    let d = with_sets(c, (s >> 4) & 0x0f0f0f0f0f0f0f0f, row / 4 % 2 == 1);
    let e = with_sets(d, (s >> 8) & 0x00ff00ff00ff00ff, row / 8 % 2 == 1);
    if row < 16 {
        return e;
    }
    let f = with_sets(e, (s >> 16) & 0x0000ffff0000ffff, row / 16 % 2 == 1);
    let g = with_sets(f, (s >> 32) & 0x00000000ffffffff, row / 32 % 2 == 1);
    if row < 64 {
        return g;
    }
    let h = with_sets(g, can[t + (x | 1)], (row / 64 % 2 == 1) & (x % 2 == 0));
    with_sets(h, can[t + (x | 2)], (row / 128 % 2 == 1) & (x < 2))
}

// The words of one row, from the row after it.
fn fill_row(can: &mut [u64], t: usize, words: usize, row: usize, stay: bool)
    requires { (t + 8 ≤ length can.old) × (words ≤ 4) × (row < 256) }
    ensures { FillsRow can.old t words row stay can.new }
{
    for x in 0..words {
        let w = sets_before(can, t + 4, x, row, stay);
        can[t + x] = w;
    }
}

// The row of the last left term, where there are no left labels: only the whole set.
fn end_row(can: &mut [u64], t: usize, every: usize, closed: bool)
    requires { (t + 4 ≤ length can.old) × (every < 256) }
    ensures { EndsRow can.old t every closed can.new }
{
    if !closed {
        return;
    }
    can[t..t + 4].fill(0);
    can[t + every / 64] = 1 << (every % 64);
}

// The rows of the others.
fn fill_rows(known: &[u8], can: &mut [u64], words: usize, stay: bool)
    requires sized { Sized known.now × CompletableFrom known.now can.old (left_count known.now - 1) }
    requires words_value { (words ≡ every_in known.now / 64 + 1) × (stay ≡ not (eqb (right_labels known.now) 0)) }
    ensures { FillsRows known.now can.old can.new }
{
    let n = known::at(known, LEFT_COUNT);
    for i in (0..n - 1).rev() {
        fill_row(can, 4 * i, words, known::at(known, ROWS + i + 1), stay);
    }
}

// Fills the bits, given the sets of right terms that left terms may be paired with: whether there may be a choice.
pub fn plan(known: &[u8], can: &mut [u64]) -> bool
    requires { Sized known.now × Ready known.now can.old }
    ensures { Plans known.now can.old can.new result }
{
    let stay = known[RIGHT_LABELS] != 0;
    let closed = known[LEFT_LABELS] == 0;
    if stay & !closed {
        return true;
    }
    let every = known::at(known, EVERY);
    end_row(can, 4 * (known::at(known, LEFT_COUNT) - 1), every, closed);
    fill_rows(known, can, every / 64 + 1, stay);
    sets_before(can, 0, 0, known::at(known, ROWS), stay) % 2 == 1
}
