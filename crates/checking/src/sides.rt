// The tests of the sections of terms and of labels, for refusals 6 and 7.
ghost use Rattle.std.specs.Prelude.{◌≡◌, ◌++◌, ◌+◌, ◌≤◌, ◌<◌, length};
ghost use Rattle.table.specs.Limits.{max_labels};
ghost use Rattle.table.specs.Some.{some_below};
ghost use Rattle.table.specs.Conditions.{wrong_term, labels_are_equal, wrong_label};

use table::layout;
use table::limits::MAX_LABEL;

// A term of a side is none of the n nodes.
pub fn wrong_terms(terms: &[u32], n: u32) -> bool
    ensures { result ≡ wrong_term n terms.now }
{
    for term in terms {
        if *term >= n {
            return true;
        }
    }
    false
}

// Label i is equal to an earlier one.
fn repeated_label(left: &[u32], right: &[u32], i: usize) -> bool
    requires { i < length left.now + length right.now }
    ensures { result ≡ some_below i (labels_are_equal (left.now ++ right.now) i) }
{
    let label = layout::label(left, right, i);
    for j in 0..i {
        if layout::label(left, right, j) == label {
            return true;
        }
    }
    false
}

// A label of either side is 0, above 65535, or repeated.
pub fn wrong_labels(left: &[u32], right: &[u32]) -> bool
    requires { (length left.now ≤ max_labels) × (length right.now ≤ max_labels) }
    ensures { result ≡ wrong_label (left.now ++ right.now) }
{
    let n = left.len() + right.len();
    for i in 0..n {
        let label = layout::label(left, right, i);
        if (label.0 == 0) | (label.0 > MAX_LABEL) | repeated_label(left, right, i) {
            return true;
        }
    }
    false
}
