// The walk of one local: how many nodes it visits, and the local's first unassigned use (local_flow.rs).
#![tactic(auto)]

ghost use Rattle.std.specs.Prelude.{◌≡◌};
ghost use Rattle.search.specs.Running.{SameColumns};
ghost use Rattle.search.specs.Stamps.{Stamped, Unmarked};
ghost use Rattle.use_words.specs.Words.{uses_in};
ghost use Rattle.live_steps.specs.Walk.{nodes_of, charted, declared};
ghost use Rattle.local_walk.specs.Walks.{Tells};

use empty_read::first_unassigned_use;
use live_walk::LocalWalk;
use search::Search;

// What a walk tells: how many nodes it visits, and the number of the first unassigned use.
#[derive(Clone, Copy)]
pub struct Walked {
    pub nodes: usize,
    pub first: Option<u16>,
}

// What a local's walk tells. The marks are below the stamp before.
pub fn walk_local(walk: &LocalWalk<'_>, search: &mut Search<'_>, stamp: u16) -> Walked
    requires { Unmarked stamp (nodes_of walk.now.graph) search.old.marks.now search.old.stack.now }
    ensures same { SameColumns search.old search.new }
    ensures tells { Tells (nodes_of walk.now.graph) (charted walk.now.graph) (declared walk.now.declaration) (uses_in walk.now.mine.now) result }
    ensures stamped { Stamped stamp search.new.marks.now }
{
    let nodes = walk.live_walk(search, stamp);
    let first = first_unassigned_use(walk.mine, search);
    Walked { nodes, first }
}
