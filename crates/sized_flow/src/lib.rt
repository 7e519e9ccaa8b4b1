// The tables and both lists of a pair, in memory of one of two sizes.
#![tactic(auto)]

ghost use Rattle.std.specs.Prelude.{◌+◌, ◌≤◌, ◌<◌, length};
ghost use Rattle.live_steps.specs.Walk.{nodes_of};
ghost use Rattle.locals.specs.Entries.{Room};
ghost use Rattle.both_lists.specs.Passes.{AnyPair, Finds};
ghost use Rattle.sized_flow.specs.Given.{AnyGiven, FindsGiven};

use both_lists::{GraphWalk, list_findings};
use facts::NameFacts;
use live_steps::FlowGraph;
use locals::{DeclarationTable, FindingList, PassTables, UseTable};
use predecessors::UNLINKED;
use sheet_parts::Items;
use tables::{CodeColumns, PairTables, make_tables};
use use_words::{NO_USE, PlacedUse};

// A pair as the search for findings takes it: the graph, the names and the codes of the sheet's chart, and the uses.
#[derive(Clone, Copy)]
pub struct ChartedPair<'a> {
    pub graph: FlowGraph<'a>,
    pub names: DeclarationTable<'a>,
    pub codes: CodeColumns<'a>,
    pub uses: Items<'a>,
}

// The findings of a pair by its tables, with memory for walks over at most NODES nodes: fixed, since there is no heap.
fn find_by_tables<const NODES: usize>(
    pass: &PassTables<'_>,
    by_node: &[PlacedUse],
    findings: &mut FindingList<'_>,
    mark: &mut [u64],
)
    requires any_pair { AnyPair pass.now by_node.now }
    requires size { (nodes_of pass.now.graph ≤ NODES) × (NODES ≤ 1600) }
    requires room { Room (length pass.now.facts.now + (length pass.now.facts.now + 1024)) findings.old.count findings.old.words.now × (length pass.now.facts.now ≤ length mark.old) }
    ensures { Finds pass.now by_node.now findings.old findings.new mark.old mark.new }
{
    let mut visited = [0u16; NODES];
    let mut stack = [0u16; NODES];
    let mut chain = [UNLINKED; NODES];
    let mut used = [0u16; NODES];
    let mut reads = [0u16; NODES];
    let mut writes = [0u16; NODES];
    let walk = GraphWalk {
        visited: &mut visited,
        stack: &mut stack,
        chain: &mut chain,
        used: &mut used,
        reads: &mut reads,
        writes: &mut writes,
    };
    list_findings(pass, by_node, walk, findings, mark);
}

// The findings of a pair of sheets with at most USES uses and NODES nodes and names; STARTS is NODES + 1 or more. Most function bodies are
// small, and to clear what a large one needs would take longer than all else.
pub fn compute<const USES: usize, const NODES: usize, const STARTS: usize>(
    pair: ChartedPair<'_>,
    facts: &mut [NameFacts],
    findings: &mut FindingList<'_>,
    mark: &mut [u64],
)
    requires any_given { AnyGiven pair.graph pair.names pair.codes pair.uses facts.old }
    requires sizes { (length pair.uses.words.now ≤ USES) × (nodes_of pair.graph ≤ NODES) × (length facts.old ≤ NODES) × (NODES < STARTS) × (USES ≤ 1024) × (STARTS ≤ 1601) }
    requires room { Room 3072 findings.old.count findings.old.words.now × (length facts.old ≤ length mark.old) }
    ensures { FindsGiven pair.entry.graph pair.entry.names pair.entry.codes pair.entry.uses facts.old findings.old findings.new mark.old mark.new }
{
    let mut uses = [NO_USE; USES];
    let mut starts = [0u16; STARTS];
    let mut by_local = [NO_USE; USES];
    let mut by_node = [NO_USE; USES];
    let mut tables = PairTables {
        starts: &mut starts,
        by_local: &mut by_local,
        by_node: &mut by_node,
    };
    make_tables(
        pair.codes,
        pair.uses,
        pair.graph.edges.first.len(),
        facts,
        &mut uses,
        &mut tables,
    );
    let PairTables {
        starts,
        by_local,
        by_node,
    } = tables;
    let pass = PassTables {
        graph: pair.graph,
        names: pair.names,
        facts,
        uses: UseTable {
            starts: &*starts,
            uses: &*by_local,
        },
    };
    find_by_tables::<NODES>(&pass, &*by_node, findings, mark);
}
