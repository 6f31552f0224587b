// Joins that can be undone. The members of a class stand in a circle: each node has the next one. Behind the circles stands how many heads
// have gone, and behind that which ones, in their order.
ghost use Rattle.std.specs.Prelude.{◌≡◌, ◌+◌, ◌<◌, length};
ghost use Rattle.table.specs.Layout.{word};
ghost use Rattle.nodes.specs.Code.Uniting.{Circling, Relabels, TwoHeads, exchanged};
ghost use Rattle.nodes.specs.Code.Trail.{links, gone, noted_gone, Trailed, Merged, OneMerged, Last, ComesFrom, Since};

// Where it stands how many heads have gone.
pub const GONE: usize = 256;

// How many bytes the circles have, with what stands behind them.
pub const LINKS: usize = 512;

// The nodes of a circle get a head: that of node g, which has node `first` after it.
fn relabel(heads: &mut [u8], next: &[u8], first: u8, g: u8, to: u8)
    requires { Circling (length heads.old) next.now g × (first ≡ word next.now g) }
    ensures { Relabels next.now g to heads.old heads.new }
{
    let k = g as usize;
    heads[k] = to;
    let mut i = first;
    while i != g {
        let j = i as usize;
        heads[j] = to;
        i = next[j];
    }
}

// Makes one circle of two, or two of one.
fn link(next: &mut [u8], g: u8, h: u8)
    requires { (g < length next.old) × (h < length next.old) }
    ensures { next.new ≡ exchanged next.old g h }
{
    let i = g as usize;
    let j = h as usize;
    let after = next[i];
    next[i] = next[j];
    next[j] = after;
}

// Notes that head g has gone.
fn note(next: &mut [u8], g: u8)
    requires { (length next.old ≡ links) × (gone next.old < 255) }
    ensures { next.new ≡ noted_gone next.old g }
{
    let k = next[GONE] + 1;
    let i = GONE + k as usize;
    next[GONE] = k;
    next[i] = g;
}

// Makes one class of two, whose heads are given: the first head goes.
pub fn merge(heads: &mut [u8], next: &mut [u8], from: u8, to: u8)
    requires { TwoHeads (length heads.old) heads.old next.old from to × Trailed (length heads.old) heads.old next.old }
    ensures { Merged (length heads.old) heads.old next.old from to heads.new next.new }
{
    let i = from as usize;
    let first = next[i];
    relabel(heads, next, first, from, to);
    link(next, from, to);
    note(next, from);
}

// Undoes the last join, before which k heads had gone: the head that went has its circle again.
fn unmerge(heads: &mut [u8], next: &mut [u8], k: u8)
    requires { Last (length heads.old) heads.old next.old × (k + 1 ≡ gone next.old) }
    ensures { OneMerged (length heads.old) heads.new next.new heads.old next.old }
{
    let p = GONE + 1 + k as usize;
    let from = next[p];
    next[p] = 0;
    next[GONE] = k;
    let i = from as usize;
    let to = heads[i];
    let j = to as usize;
    let first = next[j];
    link(next, from, to);
    relabel(heads, next, first, from, from);
}

// Undoes joins until only so many heads have gone.
pub fn undo(heads: &mut [u8], next: &mut [u8], mark: u8)
    requires { Since (length heads.old) mark heads.old next.old × (length next.old ≡ links) }
    ensures { ComesFrom (length heads.old) mark heads.new next.new heads.old next.old }
{
    for k in (mark..next[GONE]).rev() {
        unmerge(heads, next, k);
    }
}
