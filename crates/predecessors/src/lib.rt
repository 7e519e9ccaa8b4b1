// The predecessors of each node, as chains of edges through one column, and the search's way back along them (local_flow.rs).
#![tactic(auto)]

ghost use Rattle.std.specs.Prelude.{◌≡◌, List, ℕ, ◌+◌, ◌*◌, ◌<◌, ◌≤◌, length};
ghost use Rattle.live_steps.specs.Walk.{nodes_in};
ghost use Rattle.predecessors.specs.Predecessors.{Blank, Linked, Falls, link_head, head_of, left_on};

use live_steps::{Edges, LocalDeclaration};
use search::Search;
use std::mem::replace;

// What a node keeps of the chains: the last edge to it, and the edges that its own first and second edge follow in their chains.
// Node u's first edge has the code u + u + 1, its second u + u + 2. 0 is no edge: an Option<u16>
// would make the fixed memory of the chains twice as large, and an Option<NonZeroU16> ask of each code that is made whether it is 0.
#[derive(Clone, Copy)]
pub struct Links {
    pub last: u16,
    pub after_first: u16,
    pub after_second: u16,
}

// A node that no edge is linked to.
pub const UNLINKED: Links = Links {
    last: 0,
    after_first: 0,
    after_second: 0,
};

// An edge put in front of v's chain. The result is the edge that it follows there. What is no node has no chain.
// A test and an index: of the column that `get_mut` lends a cell of, std's clauses do not say what it holds afterwards, so that the proof did not close.
fn put_in_front(chain: &mut [Links], v: u64, edge: u16) -> u16
    ensures linked { chain.new ≡ link_head v edge chain.old }
    ensures follows { v < length chain.old → result ≡ head_of chain.old v }
{
    let v = v as usize;
    if v < chain.len() {
        replace(&mut chain[v].last, edge)
    } else {
        0
    }
}

// The chains of predecessors of all nodes, from nodes that nothing is linked to.
pub fn build_predecessors(edges: Edges<'_>, chain: &mut [Links])
    requires few { nodes_in edges ≤ 1600 }
    requires blank { (length chain.old ≡ nodes_in edges) × Blank (nodes_in edges) chain.old }
    ensures { Linked edges.entry.first.now edges.entry.second.now (nodes_in edges.entry) (nodes_in edges.entry) chain.new }
{
    for (u, (a, b)) in edges.first.iter().zip(edges.second).enumerate() {
        chain[u].after_first = put_in_front(chain, *a, (u + u + 1) as u16);
        chain[u].after_second = put_in_front(chain, *b, (u + u + 2) as u16);
    }
}

// The predecessors on a chain, from an edge on.
#[derive(Drop)]
pub struct Predecessors<'a> {
    pub chain: &'a [Links],
    pub edge: u16,
    ghost falls: { Falls (length chain.now) chain.now edge },
}

impl Iterator for Predecessors<'_> {
    type Item = usize;

    ghost use Rattle.std.specs.Iterator.{YieldsFirst, item_count};

    ghost next_gives = { YieldsFirst (λ s. left_on s.chain.now s.edge) };

    ghost remaining = { item_count (λ s. left_on s.chain.now s.edge) };

    fn next(&mut self) -> Option<usize> {
        let index = self.edge.checked_sub(1)?;
        let u = usize::from(index / 2);
        let links = self.chain[u];
        self.edge = if index % 2 == 0 {
            links.after_first
        } else {
            links.after_second
        };
        Some(u)
    }
}

impl<'a> Predecessors<'a> {
    ghost use Rattle.predecessors.specs.Predecessors.{HasChain, ChainOf, left_on};

    // The predecessors of v, the last first, once for each edge.
    pub fn of(chain: &'a [Links], v: usize) -> Predecessors<'a>
        requires { HasChain v chain.now }
        ensures { (us : List ℕ) → ChainOf v chain.now us → left_on result.chain.now result.edge ≡ us }
    {
        Predecessors {
            chain,
            edge: chain[v].last,
        }
    }
}

// What the search back from a local's uses reads: the chains of a graph's nodes and where each node's code starts, the local, and the nodes that hold a use of it, marked by a stamp.
#[derive(Clone, Copy)]
pub struct WayBack<'a> {
    pub chain: &'a [Links],
    pub start: &'a [u64],
    pub declaration: LocalDeclaration,
    pub used: &'a [u16],
    pub stamp: u16,
    ghost as_long: { (length chain.now ≤ length start.now) × (length chain.now ≤ length used.now) },
    ghost few: { length chain.now ≤ 1600 },
}

impl WayBack<'_> {
    ghost use Rattle.search.specs.Search.{filter};
    ghost use Rattle.search.specs.Stamps.{Ready, stamp_all};
    ghost use Rattle.search.specs.Running.{state_of, SameColumns};
    ghost use Rattle.predecessors.specs.Predecessors.{HasChain, ChainOf};
    ghost use Rattle.predecessors.specs.Ways.{nodes_back, goes_on};

    // Whether a path goes on through v: past a use its next use is that one.
    #[tactic(auto, using(std::proofs::lemmas::Bool::Decides::nat_tests), unfolding(crate::specs::Predecessors::passes))]
    fn passes(&self, v: usize) -> bool
        requires { v < nodes_back self.now }
        ensures { result ≡ goes_on self.now v }
    {
        self.used[v] != self.stamp && self.declaration.is_alive_at(self.start, v)
    }

    // The predecessors of v that a path goes on through pushed.
    pub fn push_predecessors(&self, search: &mut Search<'_>, v: usize)
        requires ready { Ready search.old.stamp (nodes_back self.now) (state_of search.old) }
        requires chain { HasChain v self.now.chain.now }
        ensures same { SameColumns search.old search.new × (search.new.stamp ≡ search.old.stamp) }
        ensures pushed { (us : List ℕ) → ChainOf v self.now.chain.now us → state_of search.new ≡ stamp_all search.old.stamp (filter (goes_on self.now) us) (state_of search.old) }
    {
        for u in Predecessors::of(self.chain, v) {
            if self.passes(u) {
                search.insert(u);
            }
        }
    }
}
