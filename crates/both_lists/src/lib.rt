// Both lists of findings, a pass over all locals for each (local_flow.rs).
#![tactic(auto)]

ghost use Rattle.std.specs.Prelude.{◌+◌, ◌≤◌, length};
ghost use Rattle.live_steps.specs.Walk.{nodes_of};
ghost use Rattle.locals.specs.Entries.{Room};
ghost use Rattle.both_lists.specs.Passes.{AnyPair, Finds, Walks};

use locals::{FindingList, PassTables, UseTable};
use next_uses::NextUses;
use overwritten::list_overwritten;
use predecessors::Links;
use search::Search;
use unassigned::list_unassigned;
use use_words::PlacedUse;

// Memory for the walks of both passes: marks of nodes, a stack of them, and the chains of predecessors.
#[derive(Drop)]
pub struct GraphWalk<'a> {
    pub visited: &'a mut [u16],
    pub stack: &'a mut [u16],
    pub chain: &'a mut [Links],
    pub used: &'a mut [u16],
    pub reads: &'a mut [u16],
    pub writes: &'a mut [u16],
}

// The findings of a pair by its tables, with the uses by node beside those in use order: unassigned ones first, then overwritten values, and the mark figures.
pub fn list_findings(
    pass: &PassTables<'_>,
    by_node: &[PlacedUse],
    walk: GraphWalk<'_>,
    findings: &mut FindingList<'_>,
    mark: &mut [u64],
)
    requires any_pair { AnyPair pass.now by_node.now }
    requires walks { Walks (nodes_of pass.now.graph) walk }
    requires room { Room (length pass.now.facts.now + (length pass.now.facts.now + 1024)) findings.old.count findings.old.words.now × (length pass.now.facts.now ≤ length mark.old) }
    ensures { Finds pass.now by_node.now findings.old findings.new mark.old mark.new }
{
    let GraphWalk {
        visited,
        stack,
        chain,
        used,
        reads,
        writes,
    } = walk;
    let mut search = Search {
        marks: visited,
        stack,
        top: 0,
        stamp: 0,
    };
    list_unassigned(pass, &mut search, findings, mark);
    let uses = UseTable {
        starts: pass.uses.starts,
        uses: by_node,
    };
    let mut marks = NextUses {
        reads,
        writes,
        stack: search.stack,
    };
    list_overwritten(
        &PassTables { uses, ..*pass },
        chain,
        used,
        &mut marks,
        findings,
    );
}
