// The live walk of one local: the nodes that a live path from after a write ends at (local_flow.rs).
#![tactic(auto)]

ghost use Rattle.std.specs.Prelude.{◌≡◌, ◌<◌};
ghost use Rattle.use_words.specs.Words.{AllPlaced};
ghost use Rattle.live_steps.specs.Walk.{nodes_of};

use live_steps::{FlowGraph, LocalDeclaration};
use search::Search;
use use_words::PlacedUse;

// What the walk of a local reads: the graph, the local's uses, and its declaration.
#[derive(Clone, Copy)]
pub struct LocalWalk<'a> {
    pub graph: FlowGraph<'a>,
    pub mine: &'a [PlacedUse],
    pub declaration: LocalDeclaration,
    ghost placed: { AllPlaced (nodes_of graph) mine.now },
}

impl LocalWalk<'_> {
    ghost use Rattle.search.specs.Running.{state_of, SameColumns};
    ghost use Rattle.search.specs.Stamps.{Ready, Unmarked, stamp_all};
    ghost use Rattle.flow.specs.Findings.{after_writes};
    ghost use Rattle.use_words.specs.Words.{node_in, use_of, uses_in};
    ghost use Rattle.live_steps.specs.Walk.{charted, declared};
    ghost use Rattle.live_walk.specs.Walk.{after_write, Walks};

    // The nodes from after a use pushed, if it is a write.
    #[tactic(auto, unfolding(use_words::specs::Words::use_of))]
    fn push_after(&self, search: &mut Search<'_>, used: PlacedUse)
        requires { Ready search.old.stamp (nodes_of self.now.graph) (state_of search.old) × (node_in used < nodes_of self.now.graph) }
        ensures same { SameColumns search.old search.new × (search.new.stamp ≡ search.old.stamp) }
        ensures pushed { state_of search.new ≡ stamp_all search.old.stamp (after_write (charted self.now.graph) (declared self.now.declaration) (use_of used)) (state_of search.old) }
    {
        if used.is_write() {
            self.graph
                .expand(search, self.declaration, used.node as usize);
        }
    }

    // The nodes from after each write of the local pushed.
    fn seed(&self, search: &mut Search<'_>)
        requires { Ready search.old.stamp (nodes_of self.now.graph) (state_of search.old) }
        ensures same { SameColumns search.old search.new × (search.new.stamp ≡ search.old.stamp) }
        ensures seeded { state_of search.new ≡ stamp_all search.old.stamp (after_writes (charted self.now.graph) (declared self.now.declaration) (uses_in self.now.mine.now)) (state_of search.old) }
    {
        for used in self.mine {
            self.push_after(search, *used);
        }
    }

    // The nodes that a live path from after a write ends at, marked by the stamp; and how many they are. The stack may hold anything before, and is empty after.
    // That no node is marked is a clause of each function that begins a walk, and no type: it holds up to the walk's first mark.
    // A worklist by `pop`: each turn pushes on the stack that the next one takes from, which an iterator over it would hold. So the turns are counted here too.
    pub fn live_walk(&self, search: &mut Search<'_>, stamp: u16) -> usize
        requires { Unmarked stamp (nodes_of self.now.graph) search.old.marks.now search.old.stack.now }
        ensures same { SameColumns search.old search.new × (search.new.stamp ≡ stamp) }
        ensures walks { Walks stamp (nodes_of self.now.graph) (charted self.now.graph) (declared self.now.declaration) (uses_in self.now.mine.now) result search.new.marks.now }
    {
        search.begin(stamp);
        self.seed(search);
        let mut count = 0;
        while let Some(u) = search.pop() {
            self.graph.expand(search, self.declaration, u);
            count += 1;
        }
        count
    }
}
