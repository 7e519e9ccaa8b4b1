// A local's uses by node, and which of its writes are overwritten unread, by the marks of what is ahead (local_flow.rs).
#![tactic(auto)]

ghost use Rattle.std.specs.Prelude.{◌≡◌, ◌+◌, ◌<◌, ◌≤◌, length};
ghost use Rattle.live_steps.specs.Walk.{nodes_in};
ghost use Rattle.uses_by_node.specs.Uses.{next_in_node, opens_node};

use live_steps::Edges;
use use_words::PlacedUse;

// Whether the next place holds a use at the same node. The index's bound is a clause here and below: a type of places would be one for each slice, and no plainer.
#[tactic(auto, using(std::proofs::lemmas::Bool::Decides::nat_tests), unfolding(crate::specs::Uses::next_in_node))]
fn next_in_node(uses: &[PlacedUse], i: usize) -> bool
    requires { i < length uses.now }
    ensures { result ≡ next_in_node uses.now i }
{
    i + 1 < uses.len() && uses[i].node == uses[i + 1].node
}

// Whether place i is the first of its node.
pub fn opens_node(uses: &[PlacedUse], i: usize) -> bool
    requires { i < length uses.now }
    ensures { result ≡ opens_node uses.now i }
{
    i == 0 || !next_in_node(uses, i - 1)
}

// What is ahead of a local's nodes: the stamp marks those that a path to a read begins at, and those of a pure write.
#[derive(Clone, Copy)]
pub struct AheadMarks<'a> {
    pub edges: Edges<'a>,
    pub reads: &'a [u16],
    pub writes: &'a [u16],
    pub stamp: u16,
    ghost as_long: { (nodes_in edges ≤ length reads.now) × (nodes_in edges ≤ length writes.now) },
}

impl AheadMarks<'_> {
    ghost use Rattle.std.specs.Prelude.{◌&&◌, get_or, drop, ltb, eqb};
    ghost use Rattle.search.specs.Stamps.{flags_of};
    ghost use Rattle.flow.specs.Reachable.{successors};
    ghost use Rattle.flow.specs.Findings.{any_flag, is_overwritten_unread, is_overwritten};
    ghost use Rattle.use_words.specs.Words.{use_of, uses_in, no_use, AllPlaced};
    ghost use Rattle.uses_by_node.specs.Uses.{Rising, edges_of};
    ghost use Rattle.uses_by_node.specs.Marks.{ahead_of};

    // Whether v is a node that is marked.
    #[tactic(auto, using(std::proofs::lemmas::Bool::Decides::nat_tests))]
    fn is_marked(&self, marks: &[u16], v: u64) -> bool
        requires { nodes_in self.now.edges ≤ length marks.now }
        ensures { result ≡ (ltb v (nodes_in self.now.edges) && eqb (get_or marks.now v 0) self.now.stamp) }
    {
        v < self.edges.first.len() as u64 && marks[v as usize] == self.stamp
    }

    // Whether a successor of v is marked.
    fn is_ahead(&self, marks: &[u16], v: usize) -> bool
        requires { (nodes_in self.now.edges ≤ length marks.now) × (v < nodes_in self.now.edges) }
        ensures { result ≡ any_flag (flags_of self.now.stamp (nodes_in self.now.edges) marks.now) (successors (edges_of self.now.edges) v) }
    {
        self.is_marked(marks, self.edges.first[v]) || self.is_marked(marks, self.edges.second[v])
    }

    // Whether of the paths that a value leaves v by, some meets a pure write and none a read.
    pub fn is_overwritten_unread(&self, v: usize) -> bool
        requires { v < nodes_in self.now.edges }
        ensures { result ≡ is_overwritten_unread (edges_of self.now.edges) (ahead_of self.now) v }
    {
        !self.is_ahead(self.reads, v) && self.is_ahead(self.writes, v)
    }

    // That uses stand at nodes is a clause of each that asks, and no type: of how many nodes each says by a column of its own.
    // Whether the use at place i is an overwritten write: by the next use in its node or, where none follows there, by what the paths from its node meet.
    pub fn is_overwritten(&self, uses: &[PlacedUse], i: usize) -> bool
        requires i_in_bounds { i < length uses.now }
        requires all_placed { AllPlaced (nodes_in self.now.edges) uses.now × Rising uses.now }
        ensures { result ≡ is_overwritten (edges_of self.now.edges) (ahead_of self.now) (use_of (get_or uses.now i no_use)) (uses_in (drop (i + 1) uses.now)) }
    {
        if !uses[i].is_write() {
            return false;
        }
        if next_in_node(uses, i) {
            return !uses[i + 1].is_read();
        }
        self.is_overwritten_unread(usize::from(uses[i].node))
    }
}
