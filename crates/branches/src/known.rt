// What is known before the walk, in bytes that it does not change. From 0 on stands for each node how many of its arguments are looked at.
ghost use Rattle.std.specs.Prelude.{◌≡◌, ◌++◌, ◌+◌, ◌-◌, ◌^◌, ◌<◌, ◌≤◌, length, take, drop};
ghost use Rattle.table.specs.Limits.{max_terms, max_labels};
ghost use Rattle.table.specs.Layout.{word};
ghost use Rattle.branches.specs.Code.Known.{known_bytes, AllBytes, counted, PutSides};

// Where the open applications begin.
pub const OPENS: usize = 256;

// Where the least nodes of the variables begin.
pub const LIST: usize = 512;

// How many open applications and variables there are.
pub const OPEN_COUNT: usize = 576;

pub const VARIABLE_COUNT: usize = 577;

// How many left terms, right terms, left labels and right labels there are.
pub const LEFT_COUNT: usize = 578;

pub const RIGHT_COUNT: usize = 579;

pub const LEFT_LABELS: usize = 580;

pub const RIGHT_LABELS: usize = 581;

// How many words an entry has.
pub const WIDTH: usize = 582;

// The set of all right terms.
pub const EVERY: usize = 583;

// Where the left terms begin, and the right terms.
pub const LEFT: usize = 584;

pub const RIGHT: usize = 592;

// Where the sets of right terms begin that left terms may be paired with.
pub const ROWS: usize = 600;

// How many bytes there are.
pub const KNOWN: usize = 608;

// The number at a place.
pub fn at(known: &[u8], i: usize) -> usize
    requires { i < length known.now }
    ensures { (result ≡ word known.now i) × (result < 256) }
{
    usize::from(known[i])
}

// Puts the terms of a side at a place.
fn put_terms(terms: &[u32], known: &mut [u8], p: usize)
    requires { (p + length terms.now ≤ length known.old) × AllBytes terms.now }
    ensures { known.new ≡ take p known.old ++ terms.now ++ drop (p + length terms.now) known.old }
{
    for (i, term) in terms.iter().enumerate() {
        known[p + i] = *term as u8;
    }
}

// The set of all of m right terms.
fn every(m: usize) -> usize
    requires { m ≤ max_terms }
    ensures { (result ≡ 2 ^ m - 1) × (result < 256) }
{
    (1 << m) - 1
}

// Puts how many terms and labels there are, and the words of an entry with v variables.
fn put_counts(n: usize, m: usize, k: usize, l: usize, v: usize, known: &mut [u8])
    requires { (n ≤ max_terms) × (m ≤ max_terms) × (k ≤ max_labels) × (l ≤ max_labels) × (v ≤ 64) × (length known.old ≡ known_bytes) }
    ensures { known.new ≡ counted n m k l v known.old }
{
    let all = every(m);
    known[VARIABLE_COUNT] = v as u8;
    known[LEFT_COUNT] = n as u8;
    known[RIGHT_COUNT] = m as u8;
    known[LEFT_LABELS] = k as u8;
    known[RIGHT_LABELS] = l as u8;
    known[WIDTH] = (n + m + v) as u8;
    known[EVERY] = all as u8;
}

// Puts the two sides, with k and l labels, and how many variables there are.
pub fn put_sides(left: &[u32], right: &[u32], k: usize, l: usize, v: usize, known: &mut [u8])
    requires left_len_bound { (length left.now ≤ max_terms) × (length right.now ≤ max_terms) × (k ≤ max_labels) × (l ≤ max_labels) × (v ≤ 64) × (length known.old ≡ known_bytes) }
    requires all_bytes { AllBytes left.now × AllBytes right.now }
    ensures { PutSides left.now right.now k l v known.old known.new }
{
    put_counts(left.len(), right.len(), k, l, v, known);
    put_terms(left, known, LEFT);
    put_terms(right, known, RIGHT);
}
