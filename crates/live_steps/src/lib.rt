// The steps of a live walk: which nodes a live path can enter, and how those after a node are pushed (local_flow.rs).
// Nodes are marked by a stamp that is new for each local, so that a walk costs what it visits.
#![tactic(auto)]

ghost use Rattle.std.specs.Prelude.{◌≡◌, ◌<◌, ◌≤◌, length};

use search::Search;

// Where a local is declared: its LOCAL's node, and where its scope ends.
#[derive(Clone, Copy)]
pub struct LocalDeclaration {
    pub node: usize,
    pub scope_end: u64,
}

impl LocalDeclaration {
    ghost use Rattle.live_steps.specs.Walk.{declared, alive_in};

    // Whether a live path may go through v, by where each node's code starts: not through the LOCAL, where the variable begins anew, nor to code at or past the scope end.
    #[tactic(auto, using(std::proofs::lemmas::Bool::Decides::nat_tests), unfolding(crate::specs::Walk::alive_in))]
    pub fn is_alive_at(self, start: &[u64], v: usize) -> bool
        requires { v < length start.now }
        ensures { result ≡ alive_in start.now (declared self) v }
    {
        v != self.node && start[v] < self.scope_end
    }
}

// The edges of a graph: the two successors of each node.
#[derive(Clone, Copy)]
pub struct Edges<'a> {
    pub first: &'a [u64],
    pub second: &'a [u64],
    ghost as_long: { length second.now ≡ length first.now },
}

// A flow graph that walks take: its edges, and where each node's code starts. A walk keeps its nodes in 16 bits.
#[derive(Clone, Copy)]
pub struct FlowGraph<'a> {
    pub edges: Edges<'a>,
    pub start: &'a [u64],
    ghost as_long: { length start.now ≡ length edges.first.now },
    ghost few: { length edges.first.now ≤ 1600 },
}

impl FlowGraph<'_> {
    ghost use Rattle.std.specs.Prelude.{◌&&◌, ltb};
    ghost use Rattle.search.specs.Running.{state_of, SameColumns};
    ghost use Rattle.search.specs.Stamps.{Ready, stamp_when, stamp_all};
    ghost use Rattle.flow.specs.Findings.{live_successors};
    ghost use Rattle.live_steps.specs.Walk.{nodes_of, charted, declared, alive_in};

    // v pushed where a live path can enter it; what is no node is passed over.
    fn push_alive(&self, search: &mut Search<'_>, declaration: LocalDeclaration, v: usize)
        requires { Ready search.old.stamp (nodes_of self.now) (state_of search.old) }
        ensures same { SameColumns search.old search.new × (search.new.stamp ≡ search.old.stamp) }
        ensures pushed { state_of search.new ≡ stamp_when search.old.stamp (ltb v (nodes_of self.now) && alive_in self.now.start.now (declared declaration) v) v (state_of search.old) }
    {
        if v < self.edges.first.len() && declaration.is_alive_at(self.start, v) {
            search.insert(v);
        }
    }

    // The live successors of u pushed.
    pub fn expand(&self, search: &mut Search<'_>, declaration: LocalDeclaration, u: usize)
        requires { Ready search.old.stamp (nodes_of self.now) (state_of search.old) × (u < nodes_of self.now) }
        ensures same { SameColumns search.old search.new × (search.new.stamp ≡ search.old.stamp) }
        ensures pushed { state_of search.new ≡ stamp_all search.old.stamp (live_successors (charted self.now) (declared declaration) u) (state_of search.old) }
    {
        self.push_alive(search, declaration, self.edges.first[u] as usize);
        self.push_alive(search, declaration, self.edges.second[u] as usize);
    }
}
