// The conditions of document 01's refusals 2 to 7, each over the whole table. (1 is a test of its length.)
ghost use Rattle.std.specs.Prelude.{◌≡◌, false, ◌||◌, List, ◌*◌, ◌≤◌, ◌<◌, ◌^◌, length};
ghost use Rattle.table.specs.Limits.{Section, sections, header_words};
ghost use Rattle.table.specs.Layout.{nodes_of, arguments_of, left_terms_of, right_terms_of, labels_of, node_count};
ghost use Rattle.table.specs.Conditions.{broken_pair, words_are_wrong, over_limit, wrong_node, wrong_argument, wrong_term, wrong_label};
ghost use Rattle.table.specs.Code.Accepted.{LaidOut};

use crate::nodes::{wrong_arguments, wrong_nodes};
use crate::sides::{wrong_labels, wrong_terms};
use table::layout;
use table::layout::{ARGUMENTS, LEFT_LABELS, LEFT_TERMS, NODES, RIGHT_LABELS, RIGHT_TERMS};
use table::limits::{MAX_ARGUMENTS, MAX_LABELS, MAX_NODES, MAX_TERMS, NODE_WORDS};

// 2: a pair breaks the rule of offsets or ends, in a table of so many pairs.
pub fn broken_pair(table: &[u32], pairs: usize) -> bool
    requires { 2 * pairs ≤ length table.now }
    ensures { (ss : List Section) → length ss ≡ pairs → result ≡ broken_pair ss table.now }
{
    let mut end = 2 * pairs;
    for k in 0..pairs {
        let at = layout::offset(table, k);
        if at != end {
            return true;
        }
        end = at + layout::size(table, k);
    }
    end != table.len()
}

// So many words are not whole items of a section, or more than it may have.
fn wrong_words(words: usize, item: usize, most: usize) -> bool
    requires { (0 < item) × (item * most < 2 ^ 32) }
    ensures { result ≡ words_are_wrong (record { item = item; most = most }) words }
{
    (words % item != 0) | (words > item * most)
}

// 3: the nodes section is not a multiple of 4 words, or a section is over its limit.
pub fn over_limit(table: &[u32]) -> bool
    requires { header_words sections ≤ length table.now }
    ensures { result ≡ over_limit sections table.now }
{
    wrong_words(layout::size(table, NODES), NODE_WORDS, MAX_NODES)
        | wrong_words(layout::size(table, ARGUMENTS), 1, MAX_ARGUMENTS)
        | wrong_words(layout::size(table, LEFT_TERMS), 1, MAX_TERMS)
        | wrong_words(layout::size(table, LEFT_LABELS), 1, MAX_LABELS)
        | wrong_words(layout::size(table, RIGHT_TERMS), 1, MAX_TERMS)
        | wrong_words(layout::size(table, RIGHT_LABELS), 1, MAX_LABELS)
}

// 4: a node has a wrong kind, name, first or count, or the counts do not add up to the arguments section.
pub fn wrong_node(table: &[u32]) -> bool
    requires { LaidOut sections table.now }
    ensures { result ≡ wrong_node (nodes_of table.now) (arguments_of table.now) }
{
    let nodes = layout::section(table, NODES);
    let arguments = layout::section(table, ARGUMENTS);
    wrong_nodes(nodes, arguments)
}

// 5: an argument is not smaller than its node.
pub fn wrong_argument(table: &[u32]) -> bool
    requires laid_out { LaidOut sections table.now }
    requires table_value { wrong_node (nodes_of table.now) (arguments_of table.now) ≡ false }
    ensures { result ≡ wrong_argument (nodes_of table.now) (arguments_of table.now) }
{
    let nodes = layout::section(table, NODES);
    let arguments = layout::section(table, ARGUMENTS);
    wrong_arguments(nodes, arguments)
}

// 6: a term is not a node number.
pub fn wrong_term(table: &[u32]) -> bool
    requires { LaidOut sections table.now }
    ensures { result ≡ (wrong_term (node_count (nodes_of table.now)) (left_terms_of table.now) || wrong_term (node_count (nodes_of table.now)) (right_terms_of table.now)) }
{
    let n = layout::node_count(layout::section(table, NODES));
    let left = layout::section(table, LEFT_TERMS);
    let right = layout::section(table, RIGHT_TERMS);
    wrong_terms(left, n) | wrong_terms(right, n)
}

// 7: a label is 0, above 65535, or repeated.
pub fn wrong_label(table: &[u32]) -> bool
    requires { LaidOut sections table.now }
    ensures { result ≡ wrong_label (labels_of table.now) }
{
    let left = layout::section(table, LEFT_LABELS);
    let right = layout::section(table, RIGHT_LABELS);
    wrong_labels(left, right)
}
