// Which nodes see a read or a pure write of a local ahead, found backwards from its uses (local_flow.rs).
#![tactic(auto)]

ghost use Rattle.std.specs.Prelude.{◌≡◌, ◌<◌, ◌≤◌, length};
ghost use Rattle.search.specs.Stamps.{Fresh, Stamped, Unmarked, Ready, stamp_all};
ghost use Rattle.search.specs.Running.{state_of, SameColumns};
ghost use Rattle.flow.specs.Findings.{meeting};
ghost use Rattle.use_words.specs.Words.{use_of, AllPlaced};
ghost use Rattle.live_steps.specs.Walk.{nodes_in};
ghost use Rattle.predecessors.specs.Predecessors.{Chained};
ghost use Rattle.predecessors.specs.Ways.{nodes_back};
ghost use Rattle.uses_by_node.specs.Uses.{Rising};
ghost use Rattle.next_uses.specs.Backwards.{sort_of, Used, BothUnmarked};
ghost use Rattle.next_uses.specs.Searches.{begins_here, all_begins, Finds, FindsAhead, SameMarks};

use live_steps::Edges;
use predecessors::WayBack;
use search::Search;
use use_words::PlacedUse;
use uses_by_node::{AheadMarks, opens_node};

// What a search back seeks: the nodes that a path to a read begins at, or to a pure write. An enum and no closure, since the clauses name the sort that a search finds.
#[derive(Clone, Copy)]
pub enum Sought {
    Read,
    PureWrite,
}

impl Sought {
    // Whether a use is of the sort that is sought.
    fn is_met_by(self, used: PlacedUse) -> bool
        ensures { result ≡ sort_of self (meeting (use_of used)) }
    {
        match self {
            Sought::Read => used.is_read(),
            Sought::PureWrite => !used.is_read(),
        }
    }
}

// A search back from a local's uses by node: the way that it goes, and where it begins.
#[derive(Clone, Copy)]
pub struct SearchBack<'a> {
    pub way: WayBack<'a>,
    pub uses: &'a [PlacedUse],
    ghost placed: { AllPlaced (nodes_back way) uses.now },
}

impl SearchBack<'_> {
    // Whether the search begins at the node of place i: the node's first use decides.
    #[tactic(auto, using(std::proofs::lemmas::Bool::Decides::nat_tests), unfolding(crate::specs::Backwards::starts_here))]
    fn begins_here(&self, sought: Sought, i: usize) -> bool
        requires { i < length self.now.uses.now }
        ensures { result ≡ begins_here self.now.way self.now.uses.now sought i }
    {
        opens_node(self.uses, i)
            && sought.is_met_by(self.uses[i])
            && self
                .way
                .declaration
                .is_alive_at(self.way.start, usize::from(self.uses[i].node))
    }

    // The nodes that the search begins at pushed.
    fn push_begins(&self, sought: Sought, search: &mut Search<'_>)
        requires { Ready search.old.stamp (nodes_back self.now.way) (state_of search.old) }
        ensures same { SameColumns search.old search.new × (search.new.stamp ≡ search.old.stamp) }
        ensures pushed { state_of search.new ≡ stamp_all search.old.stamp (all_begins self.now.way self.now.uses.now sought) (state_of search.old) }
    {
        for (i, used) in self.uses.iter().enumerate() {
            if self.begins_here(sought, i) {
                search.insert(usize::from(used.node));
            }
        }
    }

    // The nodes that a path which meets a use of the sort begins at, marked. The stack may hold anything, before and after.
    // A worklist by `pop`: each turn pushes on the stack that the next one takes from, which an iterator over it would hold.
    fn mark(&self, sought: Sought, marks: &mut [u16], stack: &mut [u16])
        requires unmarked { Unmarked self.now.way.stamp (nodes_back self.now.way) marks.old stack.old }
        requires chained { Chained (nodes_back self.now.way) self.now.way.chain.now }
        ensures same { (length marks.new ≡ length marks.old) × (length stack.new ≡ length stack.old) }
        ensures finds { Finds self.now.way self.now.uses.now sought marks.new }
        ensures stamped { Stamped self.now.way.stamp marks.new }
    {
        let mut search = Search {
            marks,
            stack,
            top: 0,
            stamp: self.way.stamp,
        };
        self.push_begins(sought, &mut search);
        while let Some(u) = search.pop() {
            self.way.push_predecessors(&mut search, u);
        }
    }
}

// The nodes that hold a use marked by the stamp.
pub fn mark_used(uses: &[PlacedUse], used: &mut [u16], stamp: u16)
    requires { AllPlaced (length used.old) uses.now × Fresh stamp used.old }
    ensures { Used stamp uses.now (length uses.now) used.new × Stamped stamp used.new }
{
    for u in uses {
        used[usize::from(u.node)] = stamp;
    }
}

// The marks of a local's next uses: the nodes that a path to a read begins at, and those of a pure write; with the stack of the searches.
#[derive(Drop)]
pub struct NextUses<'a> {
    pub reads: &'a mut [u16],
    pub writes: &'a mut [u16],
    pub stack: &'a mut [u16],
}

impl NextUses<'_> {
    // What the paths meet: the stamp in `reads` for the nodes that a path to a read begins at, and in `writes` for those of a pure write.
    pub fn mark(&mut self, back: &SearchBack<'_>)
        requires rising { Rising back.now.uses.now }
        requires chained { Chained (nodes_back back.now.way) back.now.way.chain.now × Used back.now.way.stamp back.now.uses.now (length back.now.uses.now) back.now.way.used.now }
        requires unmarked { BothUnmarked back.now.way.stamp (nodes_back back.now.way) self.old.reads.now self.old.writes.now self.old.stack.now }
        ensures same { SameMarks self.old self.new }
        ensures marks_ahead { FindsAhead back.now.way back.now.uses.now self.new }
        ensures stamped { Stamped back.now.way.stamp self.new.reads.now × Stamped back.now.way.stamp self.new.writes.now }
    {
        back.mark(Sought::Read, self.reads, self.stack);
        back.mark(Sought::PureWrite, self.writes, self.stack);
    }

    // What is ahead, by the marks that the stamp made.
    pub fn ahead<'m>(&'m self, edges: Edges<'m>, stamp: u16) -> AheadMarks<'m>
        requires { (nodes_in edges ≤ length self.now.reads.now) × (nodes_in edges ≤ length self.now.writes.now) }
        ensures edges { result.edges ≡ edges.entry }
        ensures marks { (result.reads.now ≡ self.now.reads.now) × (result.writes.now ≡ self.now.writes.now) × (result.stamp ≡ stamp) }
    {
        AheadMarks {
            edges,
            reads: self.reads,
            writes: self.writes,
            stamp,
        }
    }
}
