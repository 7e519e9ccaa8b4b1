// The words of a built graph's nodes, taken apart in place into the columns of its chart: successors, and reachable flags.
#![tactic(auto)]

ghost use Rattle.std.specs.Prelude.{◌≡◌, map, ◌<◌, length};
ghost use Rattle.flow.specs.Graph.{entry_node};
ghost use Rattle.cfg_edges.specs.Halves.{lo, hi};
ghost use Rattle.reach.specs.Columns.{Flags};

use reach::reach;
use words::HALF;

// The successors of nodes, whose words stand in `first`: of each the lower half stays, and the upper goes to `second`.
fn split_edges(first: &mut [u64], second: &mut [u64])
    requires { length second.old ≡ length first.old }
    ensures first_after { first.new ≡ map lo first.old }
    ensures second_after { second.new ≡ map hi first.old }
{
    // By index. Tried with a zip of `iter_mut`: a proof knows nothing of the columns behind the loop.
    for (i, word) in first.iter_mut().enumerate() {
        let edges = *word;
        *word = edges % HALF;
        second[i] = edges / HALF;
    }
}

// The successors of nodes, whose words stand in `first`, and their reachable flags. `start` is scratch memory here.
pub fn split_nodes(first: &mut [u64], second: &mut [u64], start: &mut [u64], reachable: &mut [u64])
    requires entry_in_bounds { entry_node < length first.old }
    requires same_length { (length second.old ≡ length first.old) × (length start.old ≡ length first.old) × (length reachable.old ≡ length first.old) }
    ensures first_after { first.new ≡ map lo first.old }
    ensures second_after { second.new ≡ map hi first.old }
    ensures flags { Flags (map lo first.old) (map hi first.old) reachable.new }
{
    split_edges(first, second);
    reach(first, second, reachable, start);
}
