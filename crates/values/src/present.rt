// The variables present in the nodes section.
ghost use Rattle.std.specs.Prelude.{◌≡◌, ◌+◌, ◌≤◌, ◌<◌, length};
ghost use Rattle.table.specs.Limits.{max_nodes};
ghost use Rattle.table.specs.Layout.{node_count};
ghost use Rattle.unification.specs.Code.Sections.{Sections};
ghost use Rattle.values.specs.Code.Present.{variable_names, LeastBefore, LeastNoted, NoneFrom, KeepsVariable, ListsPresent};

use crate::prepared::LIST;
use nodes::{lists, sections};
use table::Node;
use table::limits::MAX_VARIABLE;

// How many numbers a variable can have.
pub const VARIABLE_NAMES: usize = MAX_VARIABLE as usize + 1;

// The least node of variable x, where node i is one of it: what stands at its number, or i, which is then put there. n stands where there is
// none.
pub fn least_node(least: &mut [u16], x: usize, i: usize, n: usize) -> usize
    requires { (x < length least.old) × (i < max_nodes) }
    ensures { LeastNoted least.old x i n result least.new }
{
    let z = lists::entry(least, x);
    if z < n {
        return z;
    }
    least[x] = i as u16;
    i
}

// One past the number x, if that is more than `end`.
pub fn past(end: usize, x: usize) -> usize
    requires { (end ≤ variable_names) × (x < variable_names) }
    ensures { (end ≤ result) × (x < result) × (result ≤ variable_names) }
{
    if end <= x {
        return x + 1;
    }
    end
}

// Notes a node, if it is a variable, by the variable's number. Answers a number past every variable so far.
fn note_variable(nodes: &[u32], arguments: &[u32], least: &mut [u16], i: usize, end: usize) -> usize
    requires sections { Sections nodes.now arguments.now }
    requires i_bound { (i < node_count nodes.now) × LeastBefore nodes.now least.old i end }
    ensures { LeastBefore nodes.now least.new (i + 1) result }
{
    let n = sections::node_count(nodes, arguments);
    let node = Node(i as u32);
    if !sections::is_variable(nodes, node) {
        return end;
    }
    let variable = sections::variable(nodes, node);
    let x = variable.0 as usize;
    least_node(least, x, i, n);
    past(end, x)
}

// The least node of each variable, by its number. Answers a number past every variable.
pub fn note_variables(nodes: &[u32], arguments: &[u32], least: &mut [u16]) -> usize
    requires sections { Sections nodes.now arguments.now }
    requires least_before { LeastBefore nodes.now least.old 0 0 }
    ensures { LeastBefore nodes.now least.new (node_count nodes.now) result }
{
    let n = sections::node_count(nodes, arguments);
    let mut end: usize = 0;
    for i in 0..n {
        end = note_variable(nodes, arguments, least, i, end);
    }
    end
}

// Puts the least node of variable x after the others, if the variable has one of the n nodes, and answers how many there are.
fn keep_variable(least: &[u16], n: usize, counts: &mut [u8], count: usize, x: usize) -> usize
    requires { (x < length least.now) × (512 + count < length counts.old) × (count < variable_names) × (n ≤ max_nodes) }
    ensures { KeepsVariable least.now n counts.old count x result counts.new }
{
    let v = lists::entry(least, x);
    if v < n {
        counts[LIST + count] = v as u8;
        return count + 1;
    }
    count
}

// Lists the least nodes of the variables that have one of the n nodes, in rising order of variable number, and answers how many there
// are. No variable from end on has one.
pub fn list_variables(least: &[u16], n: usize, end: usize, counts: &mut [u8]) -> usize
    requires least_len { (length least.now ≡ variable_names) × (576 ≤ length counts.old) × (n ≤ max_nodes) }
    requires none_from { NoneFrom least.now n end }
    ensures { ListsPresent least.now n counts.old result counts.new }
{
    let mut count: usize = 0;
    for x in 0..end {
        count = keep_variable(least, n, counts, count, x);
    }
    count
}
