// What can run: the nodes that a path from the entry reaches (cfg.rs).
#![tactic(auto)]

ghost use Rattle.std.specs.Prelude.{◌≡◌, ◌<◌, length, ltb};
ghost use Rattle.search.specs.Stamps.{Ready, stamp_when, stamp_all};
ghost use Rattle.search.specs.Running.{state_of, SameColumns};
ghost use Rattle.flow.specs.Graph.{entry_node};
ghost use Rattle.reach.specs.Columns.{edges, Flags};

use search::Search;
use words::exit::ENTRY;

// The flag of a node that is reached.
const REACHED: u64 = 1;

// v pushed; what is no node is passed over.
fn push_node(search: &mut Search<'_, u64>, v: usize)
    requires { Ready search.old.stamp (length search.old.marks.now) (state_of search.old) }
    ensures same { SameColumns search.old search.new × (search.new.stamp ≡ search.old.stamp) }
    ensures pushed { state_of search.new ≡ stamp_when search.old.stamp (ltb v (length search.old.marks.now)) v (state_of search.old) }
{
    if v < search.marks.len() {
        search.insert(v);
    }
}

// The successors of u pushed. Two columns of one length, and no struct of both: `split_nodes` has them lent to write, and only here are they read.
fn expand(first: &[u64], second: &[u64], search: &mut Search<'_, u64>, u: usize)
    requires ready { Ready search.old.stamp (length first.now) (state_of search.old) }
    requires same_length { (length second.now ≡ length first.now) × (length search.old.marks.now ≡ length first.now) × (u < length first.now) }
    ensures same { SameColumns search.old search.new × (search.new.stamp ≡ search.old.stamp) }
    ensures pushed { state_of search.new ≡ stamp_all search.old.stamp (edges first.now second.now u) (state_of search.old) }
{
    push_node(search, first[u] as usize);
    push_node(search, second[u] as usize);
}

// The reachable flags of a graph's nodes. The stack is scratch memory: it may hold anything, before and after.
pub fn reach(first: &[u64], second: &[u64], reachable: &mut [u64], stack: &mut [u64])
    requires entry_in_bounds { entry_node < length first.now }
    requires same_length { (length second.now ≡ length first.now) × (length reachable.old ≡ length first.now) × (length stack.old ≡ length first.now) }
    ensures { Flags first.now second.now reachable.new }
{
    reachable.fill(0);
    let mut search = Search {
        marks: reachable,
        stack,
        top: 0,
        stamp: REACHED,
    };
    search.insert(ENTRY);
    // A worklist by `pop`: each turn pushes on the stack that the next one takes from.
    while let Some(u) = search.pop() {
        expand(first, second, &mut search, u);
    }
}
