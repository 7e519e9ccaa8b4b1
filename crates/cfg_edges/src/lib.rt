// The edges of a graph that is being built: an edge in its word, and the node that a label's name stands for.
#![tactic(auto)]

ghost use Rattle.std.specs.Prelude.{◌≡◌, ◌<◌, ◌^◌, length, IfSome};
ghost use Rattle.flow.specs.Graph.{label_node};
ghost use Rattle.cfg_edges.specs.Halves.{joined_from, label_list};

use words::{ABSENT, HALF};

// An edge to a node, in the first free place of the node that it leaves; no edge where it leaves none.
#[tactic(auto, using(std::proofs::lemmas::Bool::Decides::nat_tests))]
pub fn connect(edges: &mut [u64], from: Option<usize>, to: usize)
    requires in_bounds { IfSome from (λ a. a < length edges.old) }
    requires to_bound { to < 2 ^ 32 }
    ensures { edges.new ≡ joined_from from to edges.old }
{
    let Some(from) = from else {
        return;
    };
    let w = edges[from];
    let first = w % HALF;
    let second = w / HALF;
    if first == ABSENT {
        edges[from] = to as u64 + second * HALF;
    } else if second == ABSENT {
        edges[from] = first + to as u64 * HALF;
    }
}

// The node of the innermost, then latest, label of a name, among the labels in force. By the index, as the definition goes: with
// `iter().rev().find` its goal stayed open.
pub fn label_node(labels: &[u64], name: u64) -> Option<usize>
    ensures { result ≡ label_node name (label_list (length labels.now) labels.now) }
{
    for k in (0..labels.len()).rev() {
        let w = labels[k];
        if w % HALF == name {
            return Some((w / HALF) as usize);
        }
    }
    None
}
