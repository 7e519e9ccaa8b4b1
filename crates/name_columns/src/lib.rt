// The words of a built graph's names, taken apart in place into the columns of its chart: nodes, spans and scope ends.
#![tactic(auto)]

ghost use Rattle.std.specs.Prelude.{◌≡◌, map, ℕ, ◌<◌, length, get_or};
ghost use Rattle.cfg_edges.specs.Halves.{hi};
ghost use Rattle.cfg_steps.specs.Columns.{node_of_name, name_item};

use words::{ABSENT, HALF, NAME_ITEM, NAME_WITHOUT_NODE};

// A name's node by its word, or ABSENT: the column is lent to C, whose words have no room for an Option.
fn node_of_name(w: u64) -> u64
    ensures { result ≡ node_of_name w }
{
    let node = w % NAME_ITEM;
    if node == NAME_WITHOUT_NODE {
        ABSENT
    } else {
        node
    }
}

// The nodes, spans and scope ends of the names, whose words stand in `name_node`.
pub fn split_names(
    spans: &[u64],
    name_node: &mut [u64],
    name_span: &mut [u64],
    name_end: &mut [u64],
)
    requires same_length { (length name_span.old ≡ length name_node.old) × (length name_end.old ≡ length name_node.old) }
    requires by_index { (k : ℕ) → k < length name_node.old → name_item (get_or name_node.old k 0) < length spans.now }
    ensures name_node_after { name_node.new ≡ map node_of_name name_node.old }
    ensures name_span_after { name_span.new ≡ map (λ w. get_or spans.now (name_item w) 0) name_node.old }
    ensures name_end_after { name_end.new ≡ map hi name_node.old }
{
    // By index. Tried with a zip of `iter_mut`: a proof knows nothing of the columns behind the loop.
    for (k, word) in name_node.iter_mut().enumerate() {
        let name = *word;
        *word = node_of_name(name);
        name_span[k] = spans[(name / NAME_ITEM % NAME_ITEM) as usize];
        name_end[k] = name / HALF;
    }
}
