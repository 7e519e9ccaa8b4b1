// The node of an offset, and whether its code can run (cfg.rs).
#![tactic(auto)]

ghost use Rattle.std.specs.Prelude.{◌≡◌, true, List, ℕ, ◌≤◌, length, take};
ghost use Rattle.flow.specs.Graph.{Graph, node_count};
ghost use Rattle.flow.specs.Reachable.{reachable as reachableFlags, node_among, can_run};
ghost use Rattle.offsets.specs.Codes.{Rising, FirstPast, Within};

use words::HALF;

// The first code that ends past an offset, or the number of codes. Since the ends rise, those that end at or before it stand first.
fn first_past(spans: &[u64], offset: u64) -> usize
    requires { Rising (length spans.now) spans.now }
    ensures { FirstPast (length spans.now) spans.now offset result }
{
    spans.partition_point(|span| *span / HALF <= offset)
}

// Whether the code at an index is the first that ends past an offset. Where the ends rise, the code before it tells of all before it.
#[tactic(auto, using(crate::proofs::Offsets::first_after, crate::proofs::Offsets::first_at_start))]
fn is_first_past(spans: &[u64], offset: u64, index: usize) -> bool
    ensures { result ≡ true → Rising (length spans.now) spans.now → FirstPast (length spans.now) spans.now offset index }
{
    index < spans.len()
        && offset < spans[index] / HALF
        && (index == 0 || spans[index - 1] / HALF <= offset)
}

// The first code that ends past an offset, or the number of codes. Any hint will do: where it is right, or the code behind it is,
// there is no search. That the ends rise stays a clause: a type of such spans would be made for one call each, in `tables` and in
// `chart_run`, and be no plainer.
pub fn code_at(spans: &[u64], offset: u64, hint: usize) -> usize
    requires { Rising (length spans.now) spans.now }
    ensures { FirstPast (length spans.now) spans.now offset result }
{
    if is_first_past(spans, offset, hint) {
        return hint;
    }
    if hint < spans.len() && is_first_past(spans, offset, hint + 1) {
        return hint + 1;
    }
    first_past(spans, offset)
}

// The node that a code has, by its index; past all codes there is none.
#[tactic(auto, using(crate::proofs::Offsets::first_at_law, crate::proofs::Offsets::first_none))]
pub fn node_of_code(nodes: &[u64], index: usize) -> Option<usize>
    ensures { (spans : List ℕ) (offset : ℕ) → length nodes.now ≤ length spans → FirstPast (length spans) spans offset index → result ≡ node_among spans nodes.now offset }
{
    Some(*nodes.get(index)? as usize)
}

// The node of the first code that ends past an offset, if there is one.
pub fn node_at(spans: &[u64], nodes: &[u64], offset: u64) -> Option<usize>
    requires codes_in_bounds { length nodes.now ≤ length spans.now }
    requires rising { Rising (length spans.now) spans.now }
    ensures { result ≡ node_among spans.now nodes.now offset }
{
    node_of_code(nodes, first_past(spans, offset))
}

// Whether the code at the node that was found can run; where none was found the answer is yes.
pub fn can_run(reachable: &[u64], found: Option<usize>) -> bool
    requires { Within (length reachable.now) found }
    ensures { (g : Graph) → take (node_count g) reachable.now ≡ reachableFlags g → Within (node_count g) found → result ≡ can_run g found }
{
    match found {
        Some(v) => reachable[v] == 1,
        None => true,
    }
}
